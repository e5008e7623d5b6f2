// What a reader finds in bytes: numbers, parts, and what a wire's body says.
ghost use Rattle.std.specs.Prelude.{◌≡◌, slice_index};
ghost use Rattle.layout.specs.Bytes.{number_at};
ghost use Rattle.bodies.specs.Parts.{part};
ghost use Rattle.bodies.specs.Heads.{lone, head_of};
ghost use Rattle.bodies.specs.Bodies.{shown_in, rest_in, head_in, key_in, gate_in, input_in};

use crate::{GateHead, WireBody};
use layout::after;
use plan::GateKind;
use std::array;

// The byte at a place; 0 past the end.
// Stays: at a byte what `masks` has at a word; a clause for any type by its default would be no plainer than `slice_index`.
pub fn byte_in(bytes: &[u8], at: usize) -> u8
    ensures { result ≡ slice_index bytes.now at }
{
    bytes.get(at).copied().unwrap_or(0)
}

// The number that four bytes write from a place on, with 0 for bytes past the end.
pub fn number_in(bytes: &[u8], at: usize) -> u32
    ensures { result ≡ number_at bytes.now at }
{
    let four = after(bytes, at);
    u32::from_le_bytes(array::from_fn(|i| byte_in(four, i)))
}

// The n bytes from a place on; none where they are not all there.
pub fn part_of(bytes: &[u8], at: usize, n: usize) -> &[u8]
    ensures { result.now ≡ part bytes.now at n }
{
    bytes
        .get(at..)
        .and_then(|rest| rest.get(..n))
        .unwrap_or(&[])
}

// A gate that reads one wire: its second place holds 0.
fn lone(b: u8, gate: GateHead) -> Option<GateHead>
    ensures { result ≡ lone b gate }
{
    (b == 0).then_some(gate)
}

// The gate by its kind byte, the places a and b, and what follows the mask.
fn head_of(number: u8, a: u8, b: u8, rest: &[u8]) -> Option<GateHead>
    ensures { result ≡ head_of number a b rest.now }
{
    let c = number_in(rest, 0);
    let d = number_in(rest, 4);
    let s = byte_in(rest, 0);
    match GateKind::try_from(number).ok()? {
        GateKind::Sum => Some(GateHead::Sum { a, b }),
        GateKind::Scale => lone(b, GateHead::Scale { a, c, d }),
        GateKind::Product => Some(GateHead::Product { a, b }),
        GateKind::Piece => lone(
            b,
            GateHead::Piece {
                a,
                p: c,
                q: d,
                c: (),
            },
        ),
        GateKind::Flag => lone(
            b,
            GateHead::Flag {
                a,
                p: c,
                q: d,
                pattern: (),
            },
        ),
        GateKind::Shift => lone(b, GateHead::Shift { a, s }),
        GateKind::SignedShift => lone(b, GateHead::SignedShift { a, s }),
        GateKind::Xor => Some(GateHead::Xor { a, b }),
    }
}

// What follows the mask in a gate's body.
pub fn rest_in(body: &[u8]) -> &[u8]
    ensures { result.now ≡ rest_in body.now }
{
    after(body, 4 + 4 * byte_in(body, 3) as usize)
}

// The mask of a shown gate.
pub fn shown_in(body: &[u8]) -> Option<u32>
    ensures { result ≡ shown_in body.now }
{
    (byte_in(body, 3) == 1).then_some(number_in(body, 4))
}

// The gate of a body, where its kind is known and an unused place holds 0.
pub fn head_in(body: &[u8]) -> Option<GateHead>
    ensures { result ≡ head_in body.now }
{
    head_of(
        byte_in(body, 0),
        byte_in(body, 1),
        byte_in(body, 2),
        rest_in(body),
    )
}

// The bytes of a gate's key.
pub fn key_in(body: &[u8], gate: GateHead) -> &[u8]
    ensures { result.now ≡ key_in body.now gate }
{
    after(rest_in(body), gate.parameters_long())
}

// What a gate's body says.
pub fn gate_in(body: &[u8]) -> Option<WireBody>
    ensures { result ≡ gate_in body.now }
{
    Some(WireBody::Gate {
        gate: head_in(body)?,
        shown: shown_in(body),
    })
}

// What an input's body says in the book of one box.
// Stays: the box is the byte that the book's header holds, which may be any.
pub fn input_in(number: u8, body: &[u8]) -> WireBody
    ensures { result ≡ input_in number body.now }
{
    let owner = byte_in(body, 0);
    WireBody::Input {
        owner,
        mask: (owner == number).then_some(number_in(body, 1)),
    }
}
