// The block function, over words and over bytes.
ghost use Rattle.std.specs.Simd.Lanes.{zip2};
ghost use Rattle.std.specs.Prelude.{◌≡◌, ◌+◌, ◌≤◌, ◌++◌, length};
ghost use Rattle.standards.specs.Rfc8439.{block, block_words, plus, serialized, start, word_at};

use crate::rounds::twenty_rounds;
use standards::bytes_at;
use std::simd::u32x16;

fn word_at(bytes: &[u8], i: usize) -> u32
    requires { i + 4 ≤ length bytes.now }
    ensures { result ≡ word_at i bytes.now }
{
    u32::from_le_bytes(bytes_at(bytes, i))
}

// Stays: the sixteen words as the standard lists them; a loop would be no plainer.
fn start(key: &[u8; 32], counter: u32, nonce: &[u8; 12]) -> [u32; 16]
    ensures { result ≡ start key.now counter nonce.now }
{
    [
        0x61707865,
        0x3320646e,
        0x79622d32,
        0x6b206574,
        word_at(key, 0),
        word_at(key, 4),
        word_at(key, 8),
        word_at(key, 12),
        word_at(key, 16),
        word_at(key, 20),
        word_at(key, 24),
        word_at(key, 28),
        counter,
        word_at(nonce, 0),
        word_at(nonce, 4),
        word_at(nonce, 8),
    ]
}

fn sums(s: &[u32; 16], t: &[u32; 16]) -> [u32; 16]
    ensures { result ≡ zip2 plus s.now t.now }
{
    (u32x16::from_array(*s) + u32x16::from_array(*t)).to_array()
}

fn block_words(key: &[u8; 32], counter: u32, nonce: &[u8; 12]) -> [u32; 16]
    ensures { result ≡ block_words key.now counter nonce.now }
{
    let first = start(key, counter, nonce);
    let mut state = first;
    twenty_rounds(&mut state);
    sums(&state, &first)
}

fn serialized(words: &[u32; 16]) -> [u8; 64]
    ensures { result ≡ serialized words.now }
{
    bytes_at(words.map(u32::to_le_bytes).as_flattened(), 0)
}

// A key of sixteen bytes, twice.
pub fn twice(half: &[u8; 16]) -> [u8; 32]
    ensures { result ≡ half.now ++ half.now }
{
    bytes_at([*half, *half].as_flattened(), 0)
}

// The block of a key, a counter and a nonce.
pub fn block(key: &[u8; 32], counter: u32, nonce: &[u8; 12]) -> [u8; 64]
    ensures { result ≡ block key.now counter nonce.now }
{
    serialized(&block_words(key, counter, nonce))
}
