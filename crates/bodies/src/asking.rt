// Whether a wire's body is of its layout, and its fields are allowed.
ghost use Rattle.std.specs.Prelude.{◌≡◌, ◌^◌, ◌<◌};
ghost use Rattle.bodies.specs.Bodies.{rows_fit, shift_key_fits, key_fits, mask_fits, rest_fits, gate_fits, input_fits};

use crate::GateHead;
use crate::reading::{byte_in, head_in, number_in, rest_in, shown_in};
use layout::after;
use plan::{below, compared_long};

// Is the byte of bits at most 3, left + 2 × right, in each of so many rows from a place on?
fn rows_fit(size: u8, key: &[u8], rows: u8, start: usize) -> bool
    requires { start < 2 ^ 32 }
    ensures { result ≡ rows_fit size key.now rows start }
{
    (0..rows).all(|row| byte_in(key, start + row as usize * (17 + size as usize) + 16) <= 3)
}

fn shift_key_fits(width: u8, s: u8, key: &[u8]) -> bool
    ensures { result ≡ shift_key_fits width s key.now }
{
    let low = compared_long(8, s);
    let high = compared_long(8, width);
    rows_fit(8, key, s, 16)
        && rows_fit(8, key, width, low + 16)
        && below(width, number_in(key, low + high))
}

// Are a key's bits at most 3 and its shares below N?
fn key_fits(width: u8, gate: GateHead, key: &[u8]) -> bool
    ensures { result ≡ key_fits width gate key.now }
{
    match gate {
        GateHead::Sum { .. } | GateHead::Scale { .. } | GateHead::Xor { .. } => true,
        GateHead::Product { .. } => {
            below(width, number_in(key, 0))
                && below(width, number_in(key, 4))
                && below(width, number_in(key, 8))
        }
        GateHead::Piece { .. } => {
            rows_fit(32, key, width, 16)
                && below(width, number_in(key, compared_long(32, width) + 64))
        }
        GateHead::Flag { .. } => rows_fit(4, key, width, 16),
        GateHead::Shift { s, .. } | GateHead::SignedShift { s, .. } => shift_key_fits(
            width, s, key,
        ),
    }
}

// Is the mask of a number wire below N?
fn mask_fits(width: u8, flag: bool, mask: Option<u32>) -> bool
    ensures { result ≡ mask_fits width flag mask }
{
    flag || mask.is_none_or(|mask| below(width, mask))
}

// Has what follows the mask its length, and are its fields allowed?
fn rest_fits(width: u8, mask: Option<u32>, head: Option<GateHead>, rest: &[u8]) -> bool
    ensures { result ≡ rest_fits width mask head rest.now }
{
    head.is_some_and(|gate| {
        mask_fits(width, gate.gives_flag(), mask)
            && gate.numbers_fit(width)
            && rest.len() == gate.parameters_long() + gate.key_long(width)
            && key_fits(width, gate, after(rest, gate.parameters_long()))
    })
}

// Is a gate's body of its layout, and are its fields allowed, but for the wires that it reads?
pub fn gate_fits(width: u8, body: &[u8]) -> bool
    ensures { result ≡ gate_fits width body.now }
{
    let shown = byte_in(body, 3);
    shown < 2
        && 4 + 4 * shown as usize <= body.len()
        && rest_fits(width, shown_in(body), head_in(body), rest_in(body))
}

// Is an input's body of its layout in the book of one box?
// Stays: the box is the byte that the book's header holds, which may be any.
pub fn input_fits(number: u8, width: u8, body: &[u8]) -> bool
    ensures { result ≡ input_fits number width body.now }
{
    let owner = byte_in(body, 0);
    owner < 2
        && if owner == number {
            body.len() == 5 && below(width, number_in(body, 1))
        } else {
            body.len() == 1
        }
}
