// ChaCha20, and the expander of kind 2 that is made of it.
#![tactic(auto)]

ghost use Rattle.std.specs.Prelude.{◌≡◌, refl};
ghost use Rattle.standards.specs.Kinds.{kind2, block2};
ghost use Rattle.standards.proofs.Lengths.{wide2};

pub use blocks::block;
use blocks::twice;
use expander::{Branches, Expander, Seed, Side};
pub use rounds::{quarter_round, quarter_round_at};
use standards::{bytes_at, long_at, lowest_bit};
use std::array;

mod blocks;
mod rounds;

#[derive(Clone, Copy)]
pub struct ChaCha20;

// The block of a seed at a counter.
fn seed_block(seed: Seed, counter: u32) -> [u8; 64]
    ensures { result ≡ block2 seed counter }
{
    block(&twice(&seed.bytes), counter, &[0; 12])
}

impl Expander for ChaCha20 {
    ghost meaning = { kind2 };

    ghost KIND = { 2 };

    const KIND: u8 = 2;

    ghost kind_of_meaning = { refl };

    ghost wide = { λ seed. wide2 seed };

    fn branch(&self, seed: Seed) -> Branches {
        let seeds = seed_block(seed, 0);
        let bits = seed_block(seed, 1);
        Branches {
            left: Side {
                seed: Seed {
                    bytes: bytes_at(&seeds, 0),
                },
                value: Seed {
                    bytes: bytes_at(&seeds, 16),
                },
                bit: lowest_bit(bits[0]),
            },
            right: Side {
                seed: Seed {
                    bytes: bytes_at(&seeds, 32),
                },
                value: Seed {
                    bytes: bytes_at(&seeds, 48),
                },
                bit: lowest_bit(bits[1]),
            },
        }
    }

    fn draw(&self, seed: Seed) -> [u64; 8] {
        let words = seed_block(seed, 2);
        array::from_fn(|i| long_at(&words, 8 * i))
    }
}
