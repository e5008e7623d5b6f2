// A box's part of what is split, and what one box adds alone.
ghost use Rattle.std.specs.Prelude.{◌≡◌, cond};
ghost use Rattle.key.specs.Rows.{is_one};
ghost use Rattle.masking.specs.Masking.{size};
ghost use Rattle.shares.specs.Splits.{part_of_number, part_of_flags};

use crate::counts::part_of;
use group::{Flags, low_half};
use key::BoxNumber;
use masking::Width;

// Stays: no trait for parts of numbers and of elements, since a number's part needs N beside: no plainer.

// A box's part of a number: box 1 has the random word modulo N, box 0 the difference.
pub fn number_part(width: Width, number: BoxNumber, all: u64, random: u64) -> u32
    ensures { result ≡ part_of_number (is_one number) (size width) all random }
{
    let drawn = width.reduce(random);
    if number.is_one() {
        drawn
    } else {
        width.difference(width.reduce(all), drawn)
    }
}

// A box's part of flags: box 1 has the random word's low half, box 0 the XOR.
pub fn flags_part(number: BoxNumber, all: u32, random: u64) -> u32
    ensures { result ≡ part_of_flags (is_one number) all random }
{
    part_of(number, Flags(all), Flags(low_half(random))).0
}

// A number if a test holds, otherwise 0.
// Stays: as `once` is for elements; a number is no element of a group here.
pub(crate) fn number_if(yes: bool, number: u64) -> u64
    ensures { result ≡ cond yes number 0 }
{
    yes.then_some(number).unwrap_or(0)
}
