// Expanders: two functions of a seed, and the kind number that a book names.
#![tactic(auto)]

ghost use Rattle.std.specs.Prelude.{◌≡◌, ℕ};
ghost use Rattle.expander.specs.declared.Seed.{Seed};
ghost use Rattle.expander.specs.Meaning.{Expansion, Wide};
ghost use Rattle.expander.specs.Seeds.{xor_seeds};

use std::simd::u8x16;

#[derive(Clone, Copy)]
pub struct Seed {
    pub bytes: [u8; 16],
}

impl Seed {
    pub fn xor(self, other: Seed) -> Seed
        ensures { result ≡ xor_seeds self other }
    {
        let bytes = (u8x16::from_array(self.bytes) ^ u8x16::from_array(other.bytes)).to_array();
        Seed { bytes }
    }
}

// One side of a branch: the next seed, the seed that values are drawn from, and a bit.
#[derive(Clone, Copy)]
pub struct Side {
    pub seed: Seed,
    pub value: Seed,
    pub bit: bool,
}

// What a seed branches to.
#[derive(Clone, Copy)]
pub struct Branches {
    pub left: Side,
    pub right: Side,
}

pub trait Expander {
    // What this expander computes. It belongs to the type and not to the value, so that a dealer and two boxes may
    // hold three implementations of one meaning.
    ghost meaning: { Expansion };

    // The number of its kind, as the meaning has it.
    ghost KIND: { ℕ };

    const KIND: u8;

    fn branch(&self, seed: Seed) -> Branches
        ensures { result ≡ meaning.branch seed };

    // Eight words from which elements of an output group are made.
    fn draw(&self, seed: Seed) -> [u64; 8]
        ensures { result ≡ meaning.draw seed };

    // A book names the kind of the meaning.
    ghost kind_of_meaning: { KIND ≡ meaning.kind };

    // Branching gives whole seeds.
    ghost wide: { (seed : Seed) → Wide (meaning.branch seed) };
}
