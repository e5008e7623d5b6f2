// The questions that gate calls ask.
ghost use Rattle.std.specs.Prelude.{◌≡◌, length, nat_lt, [], ◌∷◌, ◌^◌};
ghost use Rattle.refusal.specs.Questions.{answered};
ghost use Rattle.refusal.specs.declared.Refusal.TheVariants.{PlanFields, KeyRange};
ghost use Rattle.gates.specs.ShiftQuestions.{shift_row_asks, shift_asks};
ghost use Rattle.gates.specs.Questions.{row_asks, gate_asks, product_asks};

use crate::shift::ShiftRows;
use gatekeys::{ProductGate, Shift, ShiftGate};
use masking::{Masked, Width};
use refusal::Refusal;

// As many rows as the width?
pub(crate) fn ask_rows(width: Width, rows: usize) -> Result<(), Refusal>
    ensures { result ≡ answered (row_asks rows width.bits) tt }
{
    Refusal::ask(rows == usize::from(width.bits()), Refusal::KeyRows)
}

// Is the mask a number of this width, and the held value too?
fn ask_numbers(width: Width, mask: u32, m: Masked) -> Result<(), Refusal>
    ensures { result ≡ answered ((nat_lt mask (2 ^ width.bits), PlanFields) ∷ (nat_lt m.0 (2 ^ width.bits), KeyRange) ∷ []) tt }
{
    Refusal::ask(width.has(mask), Refusal::PlanFields)?;
    Refusal::ask(width.has(m.0), Refusal::KeyRange)
}

// Is the mask a number of this width, the held value too, and has each box's table as many rows as the width?
pub(crate) fn ask_gate(
    width: Width,
    mask: u32,
    m: Masked,
    rows0: usize,
    rows1: usize,
) -> Result<(), Refusal>
    ensures { result ≡ answered (gate_asks width.bits mask m.0 rows0 rows1) tt }
{
    ask_numbers(width, mask, m)?;
    ask_rows(width, rows0)?;
    ask_rows(width, rows1)
}

// Are both masks and both held values numbers of this width?
pub(crate) fn ask_product(gate: &ProductGate, m: Masked, k: Masked) -> Result<(), Refusal>
    ensures { result ≡ answered (product_asks gate.now.width.bits gate.now.mask_a gate.now.mask_b m.0 k.0) tt }
{
    let width = gate.width;
    Refusal::ask(width.has(gate.mask_a), Refusal::PlanFields)?;
    Refusal::ask(width.has(gate.mask_b), Refusal::PlanFields)?;
    Refusal::ask(width.has(m.0), Refusal::KeyRange)?;
    Refusal::ask(width.has(k.0), Refusal::KeyRange)
}

// As many rows in the low table as the shift, and in the high one as the width?
pub(crate) fn ask_shift_rows(shift: Shift, rows: &ShiftRows) -> Result<(), Refusal>
    ensures { result ≡ answered (shift_row_asks shift (length rows.now.low.now.rows.now) (length rows.now.high.now.rows.now)) tt }
{
    Refusal::ask(
        rows.low.count() == usize::from(shift.by()),
        Refusal::KeyRows,
    )?;
    ask_rows(shift.width(), rows.high.count())
}

// Is the mask a number of this width, the held value too, and have both boxes' tables their rows?
pub(crate) fn ask_shift(
    gate: &ShiftGate,
    m: Masked,
    rows0: &ShiftRows,
    rows1: &ShiftRows,
) -> Result<(), Refusal>
    ensures { result ≡ answered (shift_asks gate.now.shift gate.now.mask m.0
        (length rows0.now.low.now.rows.now) (length rows0.now.high.now.rows.now)
        (length rows1.now.low.now.rows.now) (length rows1.now.high.now.rows.now)) tt }
{
    ask_numbers(gate.shift.width(), gate.mask, m)?;
    ask_shift_rows(gate.shift, rows0)?;
    ask_shift_rows(gate.shift, rows1)
}
