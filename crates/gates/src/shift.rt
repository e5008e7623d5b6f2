// The shifts: two comparison keys in words, a low one on the bits that go and a high one on all.
ghost use Rattle.std.specs.Prelude.{◌≡◌, ◌%◌, map, length, slice_index};
ghost use Rattle.refusal.specs.Questions.{answered};
ghost use Rattle.key.specs.Rows.{row_mean, is_one};
ghost use Rattle.masking.specs.Masking.{size};
ghost use Rattle.shares.specs.Splits.{part_of_number};
ghost use Rattle.shares.specs.Shifts.{low_point, shift_rest};
ghost use Rattle.comparison.specs.Comparison.{answer_mean, RowsAfter};
ghost use Rattle.gatemath.specs.Elements.{step_of, word_mean};
ghost use Rattle.gatemath.specs.Signs.{asked_at, share_by};
ghost use Rattle.gates.specs.Questions.{numbers_of, held_of};
ghost use Rattle.gates.specs.ShiftQuestions.{shift_row_asks, shift_asks};
ghost use Rattle.gates.specs.Shift.{fresh_shift_mean, dealt_shift_key, low_rows_of, high_rows_of};
ghost use Rattle.gates.specs.Shift.{low_at, high_at, share_at_by, numbers_by, held_by};

use crate::interval_key::{deal_ends, roots_at};
use crate::questions::{ask_shift, ask_shift_rows};
use crate::states::{Fresh, GateAnswers, Half, exchange};
use evaluation::answer;
use expander::Expander;
use gatekeys::{Shift, ShiftGate, Sign};
use gatemath::{
    low_bits, low_key_payload, number_part, point_at, rest_for, shift_share, step_count,
};
use group::{Group, Word};
use key::{BoxNumber, Rows};
use keyform::ShiftParts;
use masking::{Masked, Share};
use refusal::Refusal;

// One box's key of a shift, but for the rows of its two comparison keys, which stand in the caller's tables.
#[derive(Drop)]
pub struct ShiftKey<G> {
    pub(crate) number: BoxNumber,
    pub(crate) shift: Shift,
    pub(crate) parts: ShiftParts<G>,
}

// The tables of a shift's two comparison keys, the low one and the high one, as their holder lends them. In a clause
// `rows.exit.0` is the low table at the return, and `rows.exit.1.0` the high one.
#[derive(Drop)]
pub struct ShiftRows<'a, 'b, 'c> {
    pub low: &'a mut Rows<'b, Word>,
    pub high: &'a mut Rows<'c, Word>,
}

// A box's part of the rest: word 0 is the output mask, and word 9 box 1's part.
fn rest_part(number: BoxNumber, gate: &ShiftGate) -> u32
    ensures { let N = size gate.now.shift.width in result ≡ part_of_number (is_one number) N
        (shift_rest N (step_of gate.now.shift) gate.now.mask (slice_index gate.now.words 0 % N)) (slice_index gate.now.words 9) }
{
    let width = gate.shift.width();
    let rest = rest_for(gate.shift, gate.mask, width.reduce(gate.words[0]));
    number_part(width, number, rest, gate.words[9])
}

// One box's key of a shift: the rows into the two tables, the rest as the fresh key. The low key's roots stand in the random
// words from word 1 on, the high key's from word 5 on.
fn shift_key<X: Expander>(
    expander: &X,
    number: BoxNumber,
    gate: &ShiftGate,
    low: &mut Rows<Word>,
    high: &mut Rows<Word>,
) -> Fresh<ShiftKey<Word>>
    ensures key { fresh_shift_mean word_mean result
        ≡ dealt_shift_key X.Expander.meaning number gate.now.shift gate.now.mask gate.now.words
        (length low.old.rows.now) (length high.old.rows.now) }
    ensures low { map (row_mean word_mean) low.new.rows.now
        ≡ low_rows_of X.Expander.meaning gate.now.shift gate.now.mask gate.now.words (length low.old.rows.now) }
    ensures high { map (row_mean word_mean) high.new.rows.now
        ≡ high_rows_of X.Expander.meaning gate.now.shift gate.now.mask gate.now.words (length high.old.rows.now) }
    ensures same_low { low.new.rows.ghost_name ≡ low.old.rows.ghost_name }
    ensures same_high { high.new.rows.ghost_name ≡ high.old.rows.ghost_name }
{
    let shift = gate.shift;
    let below = low_bits(shift, gate.mask);
    let steps = Word(step_count(shift));
    Fresh::new(ShiftKey {
        number,
        shift,
        parts: ShiftParts {
            low: deal_ends(
                expander,
                number,
                below,
                low_key_payload(),
                roots_at(&gate.words, 1),
                low,
            ),
            high: deal_ends(
                expander,
                number,
                gate.mask,
                steps,
                roots_at(&gate.words, 5),
                high,
            ),
            rest: rest_part(number, gate),
        },
    })
}

// Deals one box's key of a shift, where the low table has as many rows as the shift and the high one as the width; else
// refusal 43.
pub fn deal_shift<X: Expander>(
    expander: &X,
    number: BoxNumber,
    gate: &ShiftGate,
    rows: ShiftRows,
) -> Result<Fresh<ShiftKey<Word>>, Refusal>
    ensures key { answer_mean (fresh_shift_mean word_mean) result
        ≡ answered (shift_row_asks gate.now.shift (length rows.entry.low.now.rows.now) (length rows.entry.high.now.rows.now))
        (dealt_shift_key X.Expander.meaning number gate.now.shift gate.now.mask gate.now.words
        gate.now.shift.by gate.now.shift.width.bits) }
    ensures low { RowsAfter word_mean result rows.entry.low.now.rows.now rows.exit.0.now.rows.now
        (low_rows_of X.Expander.meaning gate.now.shift gate.now.mask gate.now.words gate.now.shift.by) }
    ensures high { RowsAfter word_mean result rows.entry.high.now.rows.now rows.exit.1.0.now.rows.now
        (high_rows_of X.Expander.meaning gate.now.shift gate.now.mask gate.now.words gate.now.shift.width.bits) }
    ensures same_low { rows.exit.0.now.rows.ghost_name ≡ rows.entry.low.now.rows.ghost_name }
    ensures same_high { rows.exit.1.0.now.rows.ghost_name ≡ rows.entry.high.now.rows.ghost_name }
{
    ask_shift_rows(gate.shift, &rows)?;
    let ShiftRows { low, high } = rows;
    Ok(shift_key(expander, number, gate, low, high))
}

impl ShiftKey<Word> {
    // A box's share at the held value m.
    fn share_at<X: Expander>(
        &self,
        expander: &X,
        sign: Sign,
        low: &Rows<Word>,
        high: &Rows<Word>,
        m: u32,
    ) -> u32
        ensures { let N = size self.now.shift.width in let S = step_of self.now.shift in let h = asked_at sign N m in
            result ≡ share_by sign (is_one self.now.number) N S m
            (low_at X.Expander.meaning word_mean self.now low.now.rows.now (low_point S h)).0
            (high_at X.Expander.meaning word_mean self.now high.now.rows.now h).0 self.now.parts.rest }
    {
        let at = point_at(sign, self.shift.width(), m);
        let below = low_bits(self.shift, at);
        let low = answer(expander, self.number, self.parts.low, low.as_slice(), below);
        let high = answer(expander, self.number, self.parts.high, high.as_slice(), at);
        shift_share(sign, self.number, self.shift, m, low, high, self.parts.rest)
    }
}

impl Fresh<ShiftKey<Word>> {
    // A box's share of a shift at the held value m, of unsigned or of signed values. The key is used up.
    pub fn answer_shift<X: Expander>(
        self,
        expander: &X,
        sign: Sign,
        low: &Rows<Word>,
        high: &Rows<Word>,
        m: Masked,
    ) -> Half<Word>
        ensures share { result.own.0
            ≡ share_at_by X.Expander.meaning sign word_mean self.key low.now.rows.now high.now.rows.now m.0 }
        ensures width { result.width ≡ self.key.shift.width }
    {
        let width = self.key.shift.width();
        let own = self.key.share_at(expander, sign, low, high, m.0);
        Half::new(width, Share(own))
    }
}

// A dealer and two boxes, each with an expander of its own: deals a shift, answers at both boxes at the held value m, and
// joins the shares. Where the three expanders have one meaning and kind, the join is the plain meaning plus the output mask.
pub fn shift_gate<D: Expander, X: Expander, Y: Expander>(
    dealer: &D,
    box0: &X,
    box1: &Y,
    gate: &ShiftGate,
    rows0: ShiftRows,
    rows1: ShiftRows,
    m: Masked,
) -> Result<GateAnswers, Refusal>
    ensures numbers { answer_mean numbers_of result
        ≡ answered (shift_asks gate.now.shift gate.now.mask m.0 (length rows0.entry.low.now.rows.now)
        (length rows0.entry.high.now.rows.now) (length rows1.entry.low.now.rows.now) (length rows1.entry.high.now.rows.now))
        (numbers_by D.Expander.meaning X.Expander.meaning Y.Expander.meaning gate.now.shift gate.now.mask gate.now.words m.0
        gate.now.sign) }
    ensures joins { D.Expander.meaning ≡ X.Expander.meaning → D.Expander.meaning ≡ Y.Expander.meaning
        → answer_mean held_of result
        ≡ answered (shift_asks gate.now.shift gate.now.mask m.0 (length rows0.entry.low.now.rows.now)
        (length rows0.entry.high.now.rows.now) (length rows1.entry.low.now.rows.now) (length rows1.entry.high.now.rows.now))
        (held_by gate.now.sign gate.now.shift gate.now.mask gate.now.words m.0) }
    ensures low0 { RowsAfter word_mean result rows0.entry.low.now.rows.now rows0.exit.0.now.rows.now
        (low_rows_of D.Expander.meaning gate.now.shift gate.now.mask gate.now.words gate.now.shift.by) }
    ensures high0 { RowsAfter word_mean result rows0.entry.high.now.rows.now rows0.exit.1.0.now.rows.now
        (high_rows_of D.Expander.meaning gate.now.shift gate.now.mask gate.now.words gate.now.shift.width.bits) }
    ensures low1 { RowsAfter word_mean result rows1.entry.low.now.rows.now rows1.exit.0.now.rows.now
        (low_rows_of D.Expander.meaning gate.now.shift gate.now.mask gate.now.words gate.now.shift.by) }
    ensures high1 { RowsAfter word_mean result rows1.entry.high.now.rows.now rows1.exit.1.0.now.rows.now
        (high_rows_of D.Expander.meaning gate.now.shift gate.now.mask gate.now.words gate.now.shift.width.bits) }
{
    ask_shift(gate, m, &rows0, &rows1)?;
    let ShiftRows {
        low: low0,
        high: high0,
    } = rows0;
    let ShiftRows {
        low: low1,
        high: high1,
    } = rows1;
    let key0 = shift_key(dealer, BoxNumber::Zero, gate, low0, high0);
    let key1 = shift_key(dealer, BoxNumber::One, gate, low1, high1);
    let half0 = key0.answer_shift(box0, gate.sign, low0, high0, m);
    let half1 = key1.answer_shift(box1, gate.sign, low1, high1, m);
    Ok(exchange(half0, half1))
}

impl<G: Group> Fresh<ShiftKey<G>> {
    // What a box is given, for a book or a reader.
    pub fn parts(&self) -> ShiftParts<G>
        ensures { result ≡ self.now.key.parts }
    {
        self.key.parts
    }
}
