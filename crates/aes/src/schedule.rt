// KeyExpansion: each round key from the one before.
ghost use Rattle.std.specs.Prelude.{◌≡◌};
ghost use Rattle.aes.specs.Blocks.{block_bytes, word_bytes, key_at, Scheduled};
ghost use Rattle.standards.specs.Fips197.{next_round_key, schedule_core};

use crate::block::Block;
use crate::tables::substituted;

const RCON: [u8; 10] = [0x01, 0x02, 0x04, 0x08, 0x10, 0x20, 0x40, 0x80, 0x1b, 0x36];

fn schedule_core(w: u32, constant: u8) -> u32
    ensures { word_bytes result ≡ schedule_core constant (word_bytes w) }
{
    let [a, b, c, d] = w.to_be_bytes();
    u32::from_be_bytes([
        substituted(b) ^ constant,
        substituted(c),
        substituted(d),
        substituted(a),
    ])
}

fn next_round_key(key: Block, constant: u8) -> Block
    ensures { block_bytes result ≡ next_round_key constant (block_bytes key) }
{
    let [k, l, m, n] = key.0;
    let a = k ^ schedule_core(n, constant);
    let b = l ^ a;
    let c = m ^ b;
    let d = n ^ c;
    Block([a, b, c, d])
}

pub fn expanded(key: Block) -> [Block; 11]
    ensures first { key_at result 0 ≡ block_bytes key }
    ensures scheduled { Scheduled result }
{
    let mut keys = [key; 11];
    let mut last = key;
    for (round, constant) in RCON.iter().enumerate() {
        last = next_round_key(last, *constant);
        keys[round + 1] = last;
    }
    keys
}
