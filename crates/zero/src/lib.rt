// An expander of zeros, of kind 3. It hides nothing: it is for tests alone.
#![tactic(auto)]

ghost use Rattle.std.specs.Prelude.{refl};
ghost use Rattle.zero.specs.Zeros.{zeros};
ghost use Rattle.std.proofs.Common.{rules};

use expander::{Branches, Expander, Seed, Side};

#[derive(Clone, Copy)]
pub struct Zero;

impl Expander for Zero {
    ghost meaning = { zeros };

    ghost KIND = { 3 };

    const KIND: u8 = 3;

    ghost kind_of_meaning = { refl };

    ghost wide = { Prim.search rules };

    fn branch(&self, _seed: Seed) -> Branches {
        let zero = Seed { bytes: [0; 16] };
        let side = Side {
            seed: zero,
            value: zero,
            bit: false,
        };
        Branches {
            left: side,
            right: side,
        }
    }

    fn draw(&self, _seed: Seed) -> [u64; 8] {
        [0; 8]
    }
}
