// What gates are given: intervals and shifts that are allowed, the gates that have a key, and what random words become.
#![tactic(auto)]

ghost use Rattle.std.specs.Prelude.{◌≡◌};
ghost use Rattle.gatekeys.specs.Parameters.{interval_view, shift_view, view_answer, interval_answer, shift_answer};
ghost use Rattle.gatekeys.specs.Random.{root_of};

use expander::Seed;
use masking::Width;
use refusal::Refusal;

mod keyed;
mod ranges;

pub use keyed::{FlagGate, PieceGate, ProductGate, ShiftGate, Sign};
pub use ranges::{Interval, Shift};

impl Interval {
    // The numbers from low to high, where both are below N and in order; else refusal 5.
    pub fn new(width: Width, low: u32, high: u32) -> Result<Interval, Refusal>
        ensures { view_answer interval_view result ≡ interval_answer width.bits low high }
    {
        Refusal::ask(low <= high && width.has(high), Refusal::PlanFields)?;
        Ok(Interval { width, low, high })
    }

    pub fn width(self) -> Width
        ensures { result ≡ self.width }
    {
        self.width
    }

    pub fn low(self) -> u32
        ensures { result ≡ self.low }
    {
        self.low
    }

    pub fn high(self) -> u32
        ensures { result ≡ self.high }
    {
        self.high
    }
}

impl Shift {
    // A shift by 1 bit up to the width less one; else refusal 5.
    pub fn new(width: Width, by: u8) -> Result<Shift, Refusal>
        ensures { view_answer shift_view result ≡ shift_answer width.bits by }
    {
        Refusal::ask((1..width.bits()).contains(&by), Refusal::PlanFields)?;
        Ok(Shift { width, by })
    }

    pub fn width(self) -> Width
        ensures { result ≡ self.width }
    {
        self.width
    }

    pub fn by(self) -> u8
        ensures { result ≡ self.by }
    {
        self.by
    }
}

// A root from two random words, each with its lowest byte first.
// Stays: two halves, each copied; the ciphers' `bytes_at` is in a crate of standards, which no gate reads.
pub fn root_from(first: u64, second: u64) -> Seed
    ensures { result ≡ root_of first second }
{
    let mut bytes = [0; 16];
    bytes[..8].copy_from_slice(&first.to_le_bytes());
    bytes[8..].copy_from_slice(&second.to_le_bytes());
    Seed { bytes }
}
