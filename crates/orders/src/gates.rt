// Orders for gates: deal one, and hold values at it.
ghost use Rattle.std.specs.Prelude.{◌≡◌};
ghost use Rattle.orders.specs.declared.types.GateName.TheVariants.{Piece, Flag, Product, Scale};
ghost use Rattle.orders.specs.Grammar.{gate_name_of, numbers_of, coefficients_of, random_words_of, two_masks_of, shift_of, body_of, gate_of, hold_of};
ghost use Rattle.orders.specs.Text.{words};

use crate::fields::{ended, field, kind_of, number_at, number_part};
use crate::number::Number;
use crate::text::{pieces_of, word_at};
use crate::types::{Fault, GateBody, GateName, GateOrder, Order, Wrong};

// Stays: as `kind_of`; `TryFrom` would say no more.
pub fn gate_name_of(word: &[u8]) -> Result<GateName, Wrong>
    ensures { result ≡ gate_name_of word.now }
{
    match word {
        b"piece" => Ok(GateName::Piece),
        b"flag" => Ok(GateName::Flag),
        b"shift" => Ok(GateName::Shift),
        b"signed" => Ok(GateName::Signed),
        b"product" => Ok(GateName::Product),
        b"sum" => Ok(GateName::Sum),
        b"scale" => Ok(GateName::Scale),
        b"xor" => Ok(GateName::Xor),
        _ => Err(Wrong::UnknownGate),
    }
}

// K numbers of a type with commas between them.
fn numbers_of<N: Number + Copy, const K: usize>(word: &[u8], wrong: Wrong) -> Result<[N; K], Wrong>
    ensures { result ≡ numbers_of N.held N.MOST K wrong word.now }
{
    if pieces_of(word, b',') != K {
        return Err(wrong);
    }
    let mut numbers = [N::hold(0); K];
    // Stays: `array::try_from_fn` was tried; it asks for a bound on the size of an array of any number type.
    for i in 0..K {
        numbers[i] = number_part(word, i)?;
    }
    Ok(numbers)
}

// Four numbers of 32 bits with commas between them.
pub fn coefficients_of(word: &[u8]) -> Result<[u32; 4], Wrong>
    ensures { result ≡ coefficients_of word.now }
{
    numbers_of(word, Wrong::CoefficientCount)
}

// K numbers of 64 bits with commas between them.
pub fn random_words_of<const K: usize>(word: &[u8]) -> Result<[u64; K], Wrong>
    ensures { result ≡ random_words_of K word.now }
{
    numbers_of(word, Wrong::WordCount)
}

// MASK LOW HIGH C0,C1,C2,C3 WORDS
fn piece_body(line: &[u8]) -> Result<GateBody, Fault>
    ensures { result ≡ body_of Piece (words line.now) }
{
    let mask = number_at(line, 5)?;
    let low = number_at(line, 6)?;
    let high = number_at(line, 7)?;
    let coefficients = field(line, 8, coefficients_of)?;
    let words = field(line, 9, random_words_of::<14>)?;
    ended(
        line,
        10,
        GateBody::Piece {
            mask,
            low,
            high,
            coefficients,
            words,
        },
    )
}

// Stays: each gate lists the fields of its own; what two of them share is a line each, so that one function for both would be no
// plainer.

// MASK LOW HIGH PATTERN WORDS
fn flag_body(line: &[u8]) -> Result<GateBody, Fault>
    ensures { result ≡ body_of Flag (words line.now) }
{
    let mask = number_at(line, 5)?;
    let low = number_at(line, 6)?;
    let high = number_at(line, 7)?;
    let pattern = number_at(line, 8)?;
    let words = field(line, 9, random_words_of::<8>)?;
    ended(
        line,
        10,
        GateBody::Flag {
            mask,
            low,
            high,
            pattern,
            words,
        },
    )
}

// MASK BY WORDS
fn shift_fields(line: &[u8]) -> Result<(u32, u8, [u64; 10]), Fault>
    ensures { result ≡ shift_of (words line.now) }
{
    let mask = number_at(line, 5)?;
    let by = number_at(line, 6)?;
    let words = field(line, 7, random_words_of)?;
    ended(line, 8, (mask, by, words))
}

// MASK MASK2 WORDS
fn product_body(line: &[u8]) -> Result<GateBody, Fault>
    ensures { result ≡ body_of Product (words line.now) }
{
    let mask = number_at(line, 5)?;
    let mask2 = number_at(line, 6)?;
    let words = field(line, 7, random_words_of::<4>)?;
    ended(line, 8, GateBody::Product { mask, mask2, words })
}

// MASK MASK2
fn two_masks(line: &[u8]) -> Result<(u32, u32), Fault>
    ensures { result ≡ two_masks_of (words line.now) }
{
    let mask = number_at(line, 5)?;
    let mask2 = number_at(line, 6)?;
    ended(line, 7, (mask, mask2))
}

// MASK C D
fn scale_body(line: &[u8]) -> Result<GateBody, Fault>
    ensures { result ≡ body_of Scale (words line.now) }
{
    let mask = number_at(line, 5)?;
    let c = number_at(line, 6)?;
    let d = number_at(line, 7)?;
    ended(line, 8, GateBody::Scale { mask, c, d })
}

// What a gate takes: the words from number 5 on.
fn body_of(name: GateName, line: &[u8]) -> Result<GateBody, Fault>
    ensures { result ≡ body_of name (words line.now) }
{
    match name {
        GateName::Piece => piece_body(line),
        GateName::Flag => flag_body(line),
        GateName::Shift => {
            let (mask, by, words) = shift_fields(line)?;
            Ok(GateBody::Shift { mask, by, words })
        }
        GateName::Signed => {
            let (mask, by, words) = shift_fields(line)?;
            Ok(GateBody::Signed { mask, by, words })
        }
        GateName::Product => product_body(line),
        GateName::Sum => {
            let (mask, mask2) = two_masks(line)?;
            Ok(GateBody::Sum { mask, mask2 })
        }
        GateName::Scale => scale_body(line),
        GateName::Xor => {
            let (mask, mask2) = two_masks(line)?;
            Ok(GateBody::Xor { mask, mask2 })
        }
    }
}

// gate KIND GATE WIDTH and what the gate takes
pub fn gate_order(line: &[u8]) -> Result<GateOrder, Fault>
    ensures { result ≡ gate_of (words line.now) }
{
    let kind = field(line, 2, kind_of)?;
    let name = field(line, 3, gate_name_of)?;
    let width = number_at(line, 4)?;
    let body = body_of(name, line)?;
    Ok(GateOrder { kind, width, body })
}

// hold M, or hold M K
pub fn hold_order(line: &[u8]) -> Result<Order, Fault>
    ensures { result ≡ hold_of (words line.now) }
{
    let m = number_at(line, 2)?;
    if word_at(line, 3).is_empty() {
        return Ok(Order::Hold(m, None));
    }
    let k = number_at(line, 3)?;
    ended(line, 4, Order::Hold(m, Some(k)))
}
