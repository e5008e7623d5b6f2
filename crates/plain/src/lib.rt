// What each gate means on plain values.
#![tactic(auto)]

ghost use Rattle.std.specs.Prelude.{◌≡◌, ◌^◌, get_or};
ghost use Rattle.interval.specs.Interval.{inside};
ghost use Rattle.masking.specs.Masking.{size};
ghost use Rattle.shares.specs.Piece.{curve};
ghost use Rattle.shares.specs.Plain.{plain_sum, plain_scale, plain_product, plain_piece, plain_flag, plain_xor, plain_shift};
ghost use Rattle.shares.specs.Plain.{signed, remainder, plain_signed_shift};

use gatekeys::{Interval, Shift};
use masking::{Reading, Width, xor};

// Stays: functions and no methods of `Width`, `Interval` and `Shift`, whose crates know no plain meanings; one trait for
// all gates would be no plainer, since each takes what is its own.

pub fn plain_sum(width: Width, v: Reading, w: Reading) -> Reading
    ensures { result.0 ≡ plain_sum (size width) v.0 w.0 }
{
    Reading(width.sum(v.0, w.0))
}

// c times the value, and d on top.
pub fn plain_scale(width: Width, c: u32, d: u32, v: Reading) -> Reading
    ensures { result.0 ≡ plain_scale (size width) c d v.0 }
{
    Reading(width.scale(c, d, v.0))
}

pub fn plain_product(width: Width, v: Reading, w: Reading) -> Reading
    ensures { result.0 ≡ plain_product (size width) v.0 w.0 }
{
    Reading(width.scale_mask(v.0, w.0))
}

// Whether a number is in the interval, both ends within.
fn holds(interval: Interval, v: u32) -> bool
    ensures { result ≡ inside interval.low interval.high v }
{
    (interval.low()..=interval.high()).contains(&v)
}

// The cubic at v, exactly: it fits 128 bits.
fn curve(coefficients: [u32; 4], v: u32) -> u128
    ensures { result ≡ curve (get_or coefficients 0 0) (get_or coefficients 1 0) (get_or coefficients 2 0) (get_or coefficients 3 0) v }
{
    let [c0, c1, c2, c3] = coefficients;
    let v = u128::from(v);
    let square = u128::from(c2) * v * v;
    let cube = u128::from(c3) * v * v * v;
    u128::from(c0) + u128::from(c1) * v + square + cube
}

// The cubic with these coefficients, lowest first, where the value is in the interval; else 0.
pub fn plain_piece(interval: Interval, coefficients: [u32; 4], v: Reading) -> Reading
    ensures { result.0 ≡ plain_piece (size interval.width) interval.low interval.high
        (get_or coefficients 0 0) (get_or coefficients 1 0) (get_or coefficients 2 0) (get_or coefficients 3 0) v.0 }
{
    if holds(interval, v.0) {
        Reading((curve(coefficients, v.0) % u128::from(interval.width().size())) as u32)
    } else {
        Reading(0)
    }
}

// The pattern where the value is in the interval; else no flag.
pub fn plain_flag(interval: Interval, pattern: u32, v: Reading) -> Reading
    ensures { result.0 ≡ plain_flag interval.low interval.high pattern v.0 }
{
    if holds(interval, v.0) {
        Reading(pattern)
    } else {
        Reading(0)
    }
}

pub fn plain_xor(v: Reading, w: Reading) -> Reading
    ensures { result.0 ≡ plain_xor v.0 w.0 }
{
    Reading(xor(v.0, w.0))
}

pub fn plain_shift(shift: Shift, v: Reading) -> Reading
    ensures { result.0 ≡ plain_shift (2 ^ shift.by) v.0 }
{
    Reading(v.0 >> shift.by())
}

// A value as a signed number: from N/2 up it counts as v − N.
fn signed(width: Width, v: u32) -> i64
    ensures { result ≡ signed (size width) v }
{
    if u64::from(v) < width.size() / 2 {
        i64::from(v)
    } else {
        i64::from(v) - width.size() as i64
    }
}

// A signed number modulo N.
fn modulo(width: Width, z: i64) -> u32
    ensures { result ≡ remainder z (size width) }
{
    z.rem_euclid(width.size() as i64) as u32
}

// The signed number by 2^by, rounded down, modulo N.
pub fn plain_signed_shift(shift: Shift, v: Reading) -> Reading
    ensures { result.0 ≡ plain_signed_shift (size shift.width) (2 ^ shift.by) v.0 }
{
    let z = signed(shift.width(), v.0);
    Reading(modulo(shift.width(), z >> shift.by()))
}
