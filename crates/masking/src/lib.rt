// Masked numbers: the width, the three kinds of number that a box handles, and the gates that need no key.
#![tactic(auto)]

ghost use Rattle.std.specs.Prelude.{◌≡◌, ◌%◌, nat_lt};
ghost use Rattle.interval.specs.Interval.{masked, plain};
ghost use Rattle.shares.specs.Local.{sum_of, scale_of, scale_mask, xor_of};
ghost use Rattle.masking.specs.Masking.{width_answer, allowed, size};

use refusal::Refusal;

mod width;

pub use width::Width;

impl Width {
    // A width of 1 to 32, or refusal 41.
    pub fn new(bits: u8) -> Result<Width, Refusal>
        ensures { width_answer result ≡ allowed bits }
    {
        Refusal::ask((1..=32).contains(&bits), Refusal::KeyWidth)?;
        Ok(Width { bits })
    }

    pub fn bits(self) -> u8
        ensures { result ≡ self.bits }
    {
        self.bits
    }

    // N: how many numbers there are.
    pub fn size(self) -> u64
        ensures { result ≡ size self }
    {
        1 << self.bits
    }

    // A number modulo N.
    pub fn reduce(self, number: u64) -> u32
        ensures { result ≡ number % size self }
    {
        (number % self.size()) as u32
    }

    // Whether a number is below N.
    pub fn has(self, number: u32) -> bool
        ensures { result ≡ nat_lt number (size self) }
    {
        u64::from(number) < self.size()
    }

    // A sum modulo N, of held values or of masks.
    pub fn sum(self, a: u32, b: u32) -> u32
        ensures { result ≡ sum_of (size self) a b }
    {
        self.reduce(u64::from(a) + u64::from(b))
    }

    // A difference modulo N.
    pub fn difference(self, a: u32, b: u32) -> u32
        ensures { result ≡ plain (size self) (b % size self) a }
    {
        self.reduce(u64::from(a) + (self.size() - u64::from(self.reduce(u64::from(b)))))
    }

    // c times a held value, and d on top.
    pub fn scale(self, c: u32, d: u32, a: u32) -> u32
        ensures { result ≡ scale_of (size self) c d a }
    {
        self.reduce(u64::from(c) * u64::from(a) + u64::from(d))
    }

    // The mask of c times a wire and d on top: d is in the held value only.
    pub fn scale_mask(self, c: u32, mask: u32) -> u32
        ensures { result ≡ scale_mask (size self) c mask }
    {
        self.reduce(u64::from(c) * u64::from(mask))
    }
}

// A plain value: what is put in, or shown.
#[derive(Clone, Copy)]
pub struct Reading(pub u32);

// A value with its wire's mask on it: what both boxes hold.
#[derive(Clone, Copy)]
pub struct Masked(pub u32);

// One box's part of a masked value.
#[derive(Clone, Copy)]
pub struct Share(pub u32);

impl Reading {
    pub fn mask(self, width: Width, mask: u32) -> Masked
        ensures { result.0 ≡ masked (size width) mask self.0 }
    {
        Masked(width.sum(self.0, mask))
    }
}

impl Masked {
    pub fn unmask(self, width: Width, mask: u32) -> Reading
        ensures { result.0 ≡ plain (size width) (mask % size width) self.0 }
    {
        Reading(width.difference(self.0, mask))
    }
}

// The XOR of flags, of held values or of masks.
// Stays: a gate by its name, as the sum is; `^` would not say that both are flags.
pub fn xor(a: u32, b: u32) -> u32
    ensures { result ≡ xor_of a b }
{
    a ^ b
}
