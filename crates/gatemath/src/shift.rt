// The numbers of the shifts: thresholds, payloads, and a box's share.
ghost use Rattle.std.specs.Prelude.{◌≡◌, cond, ◌+◌, ◌%◌, ◌/◌, ◌^◌, ◌<◌};
ghost use Rattle.key.specs.Rows.{is_one};
ghost use Rattle.masking.specs.Masking.{size};
ghost use Rattle.shares.specs.Words.{word};
ghost use Rattle.shares.specs.Shifts.{low_payload, shift_rest};
ghost use Rattle.gatemath.specs.Elements.{step_of, word_mean};
ghost use Rattle.gatemath.specs.Signs.{asked_at, half_steps, share_by};

use crate::splits::number_if;
use gatekeys::{Shift, Sign};
use group::Word;
use key::BoxNumber;
use masking::Width;

// S: how many numbers one step of the shift holds.
fn step_size(shift: Shift) -> u64
    ensures { result ≡ step_of shift }
{
    1 << shift.by()
}

// The output mask less floor(r / S).
pub fn rest_for(shift: Shift, mask: u32, out: u32) -> u64
    ensures { result ≡ shift_rest (size shift.width) (step_of shift) mask out }
{
    u64::from(out)
        + shift
            .width()
            .size()
            .saturating_sub(u64::from(mask) / step_size(shift))
}

// A number modulo one step: the low key's threshold for a mask, and its point for a held value.
pub fn low_bits(shift: Shift, number: u32) -> u32
    ensures { result ≡ number % step_of shift }
{
    (u64::from(number) % step_size(shift)) as u32
}

// The high key's payload: how many steps there are.
pub fn step_count(shift: Shift) -> u64
    ensures { result ≡ size shift.width / step_of shift }
{
    shift.width().size() / step_size(shift)
}

// The held value that a shift's keys are asked about: half of all numbers further on where values are signed.
pub fn point_at(sign: Sign, width: Width, m: u32) -> u32
    ensures { result ≡ asked_at sign (size width) m }
{
    match sign {
        Sign::Unsigned => m,
        Sign::Signed => width.reduce(u64::from(m) + width.size() / 2),
    }
}

// What takes back the half that `point_at` added: N less its steps.
fn half_back(sign: Sign, shift: Shift) -> u64
    ensures is { result ≡ half_steps sign (size shift.width) (step_of shift) }
    ensures small { result < 2 ^ 33 }
{
    let size = shift.width().size();
    let half = size / 2 / step_size(shift);
    match sign {
        Sign::Unsigned => 0,
        Sign::Signed => size.saturating_sub(half),
    }
}

// The quotient by one step.
fn steps_in(shift: Shift, number: u32) -> u64
    ensures is { result ≡ number / step_of shift }
    ensures small { result < 2 ^ 32 }
{
    u64::from(number) / step_size(shift)
}

// What box 1 adds to a shift: the steps in the held value that the keys are asked about, less those of a half that it has
// on top.
fn more_for(sign: Sign, number: BoxNumber, shift: Shift, m: u32) -> u64
    ensures is { result ≡ cond (is_one number)
        (asked_at sign (size shift.width) m / step_of shift + half_steps sign (size shift.width) (step_of shift)) 0 }
    ensures small { result < 2 ^ 34 }
{
    let at = point_at(sign, shift.width(), m);
    number_if(
        number.is_one(),
        steps_in(shift, at) + half_back(sign, shift),
    )
}

// A box's share of a shift, from its keys' answers, where they are asked about the held value m, and its part of the rest.
pub fn shift_share(
    sign: Sign,
    number: BoxNumber,
    shift: Shift,
    m: u32,
    low: Word,
    high: Word,
    rest: u32,
) -> u32
    ensures { result ≡ share_by sign (is_one number) (size shift.width) (step_of shift) m (word_mean low).0 (word_mean high).0 rest }
{
    let width = shift.width();
    let answers = u64::from(width.reduce(low.0)) + u64::from(width.reduce(high.0));
    width.reduce(answers + u64::from(rest) + more_for(sign, number, shift, m))
}

// The low key's payload: −1.
pub fn low_key_payload() -> Word
    ensures { word_mean result ≡ word low_payload }
{
    Word(u64::MAX)
}
