// The gates that have a key, each on wires with these masks, and with the random words that it is dealt from.
use crate::ranges::{Interval, Shift};
use masking::Width;

// A cubic on an interval, its coefficients lowest first; zero elsewhere.
#[derive(Clone, Copy)]
pub struct PieceGate {
    pub interval: Interval,
    pub mask: u32,
    pub coefficients: [u32; 4],
    pub words: [u64; 14],
}

// A pattern of flags on an interval; no flag elsewhere.
#[derive(Clone, Copy)]
pub struct FlagGate {
    pub interval: Interval,
    pub mask: u32,
    pub pattern: u32,
    pub words: [u64; 8],
}

// Whether a shift takes its values as signed numbers.
#[derive(Clone, Copy, PartialEq, Eq)]
pub enum Sign {
    Unsigned,
    Signed,
}

// A shift, rounded down.
#[derive(Clone, Copy)]
pub struct ShiftGate {
    pub sign: Sign,
    pub shift: Shift,
    pub mask: u32,
    pub words: [u64; 10],
}

// A product of two wires.
#[derive(Clone, Copy)]
pub struct ProductGate {
    pub width: Width,
    pub mask_a: u32,
    pub mask_b: u32,
    pub words: [u64; 4],
}
