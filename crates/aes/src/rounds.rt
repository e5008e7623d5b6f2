// The rounds of the cipher, a column at a time: column c takes its bytes from the columns c, c + 1, c + 2 and c + 3,
// as ShiftRows has it.
ghost use Rattle.std.specs.Int.Bits.{bit_xor};
ghost use Rattle.std.specs.Simd.Lanes.{zip2};
ghost use Rattle.std.specs.Prelude.{◌≡◌, ◌/◌, ◌%◌, [], ◌∷◌};
ghost use Rattle.aes.specs.Blocks.{block_bytes, word_bytes, shifted_column, mixed_column};
ghost use Rattle.standards.specs.Fips197.{full_round, last_round, sub_word, xor};

use crate::block::Block;
use crate::tables::{mixed_row, substituted};

// A column of a round: shifted, substituted and mixed, and a word of the round key added.
fn round_column(a: u32, b: u32, c: u32, d: u32, key: u32) -> u32
    ensures { word_bytes result ≡ xor (mixed_column a b c d) (word_bytes key) }
{
    mixed_row::<0>(a.to_be_bytes()[0])
        ^ mixed_row::<1>(b.to_be_bytes()[1])
        ^ mixed_row::<2>(c.to_be_bytes()[2])
        ^ mixed_row::<3>(d.to_be_bytes()[3])
        ^ key
}

// A column of the last round, which is not mixed.
fn last_column(a: u32, b: u32, c: u32, d: u32, key: u32) -> u32
    ensures { word_bytes result ≡ xor (sub_word (shifted_column a b c d)) (word_bytes key) }
{
    u32::from_be_bytes([
        substituted(a.to_be_bytes()[0]),
        substituted(b.to_be_bytes()[1]),
        substituted(c.to_be_bytes()[2]),
        substituted(d.to_be_bytes()[3]),
    ]) ^ key
}

// Stays: the two rounds differ in the function of a column; one function that takes it would have to state its four
// calls by `post`, which is no plainer.
pub fn full_round(key: Block, s: Block) -> Block
    ensures { block_bytes result ≡ full_round (block_bytes key) (block_bytes s) }
{
    let [a, b, c, d] = s.0;
    let [j, k, l, m] = key.0;
    Block([
        round_column(a, b, c, d, j),
        round_column(b, c, d, a, k),
        round_column(c, d, a, b, l),
        round_column(d, a, b, c, m),
    ])
}

pub fn last_round(key: Block, s: Block) -> Block
    ensures { block_bytes result ≡ last_round (block_bytes key) (block_bytes s) }
{
    let [a, b, c, d] = s.0;
    let [j, k, l, m] = key.0;
    Block([
        last_column(a, b, c, d, j),
        last_column(b, c, d, a, k),
        last_column(c, d, a, b, l),
        last_column(d, a, b, c, m),
    ])
}
