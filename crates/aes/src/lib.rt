// AES-128 by tables, and the expander of kind 1 that is made of it.
#![tactic(auto)]

ghost use Rattle.std.specs.Prelude.{◌≡◌, refl};
ghost use Rattle.aes.specs.Keys.{key_of};
ghost use Rattle.standards.specs.Fips197.{cipher};
ghost use Rattle.standards.specs.Kinds.{kind1, number};
ghost use Rattle.standards.proofs.Lengths.{wide1};

use expander::{Branches, Expander, Seed, Side};
pub use round_keys::RoundKeys;
use standards::{long_at, lowest_bit};

mod block;
mod cipher;
mod round_keys;
mod rounds;
mod schedule;
mod tables;

#[derive(Clone, Copy)]
pub struct Aes128;

// The seed that the encryption of a number is.
fn seed_number(keys: &RoundKeys, j: u8) -> Seed
    ensures { result.bytes ≡ cipher (key_of keys.now) (number j) }
{
    Seed {
        bytes: keys.encrypt_number(j),
    }
}

impl Expander for Aes128 {
    ghost meaning = { kind1 };

    ghost KIND = { 1 };

    const KIND: u8 = 1;

    ghost kind_of_meaning = { refl };

    ghost wide = { λ seed. wide1 seed };

    fn branch(&self, seed: Seed) -> Branches {
        let keys = RoundKeys::new(&seed.bytes);
        let bits = keys.encrypt_number(4);
        Branches {
            left: Side {
                seed: seed_number(&keys, 0),
                value: seed_number(&keys, 1),
                bit: lowest_bit(bits[0]),
            },
            right: Side {
                seed: seed_number(&keys, 2),
                value: seed_number(&keys, 3),
                bit: lowest_bit(bits[1]),
            },
        }
    }

    fn draw(&self, seed: Seed) -> [u64; 8] {
        let keys = RoundKeys::new(&seed.bytes);
        let a = keys.encrypt_number(5);
        let b = keys.encrypt_number(6);
        let c = keys.encrypt_number(7);
        let d = keys.encrypt_number(8);
        // Stays: two words of each of four blocks; a loop over blocks and halves would be no plainer.
        [
            long_at(&a, 0),
            long_at(&a, 8),
            long_at(&b, 0),
            long_at(&b, 8),
            long_at(&c, 0),
            long_at(&c, 8),
            long_at(&d, 0),
            long_at(&d, 8),
        ]
    }
}
