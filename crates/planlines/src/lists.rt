// Lists of numbers and bytes in hex, in one word.
ghost use Rattle.std.specs.Prelude.{◌≡◌, ℕ, ◌<◌, ◌≤◌, [], length, slice_index, slice_index_or};
ghost use Rattle.orders.specs.Text.{pieces, decimal_of, hex_of, or_zero};
ghost use Rattle.planlines.specs.Grammar.{numbers_in, all_read, hex_in, hex_byte};

use orders::{Wrong, decimal, hex_digit, hex_pair, piece_at, pieces_of};

// How many numbers a word has, with commas between them; each is at most `most`.
pub fn numbers_in(word: &[u8], most: u64) -> Result<usize, Wrong>
    ensures { result ≡ numbers_in most word.now }
{
    // Stays: a loop that ends at the first wrong number by `?`, as `digits_read` at the first wrong digit.
    for piece in word.split(|b| *b == b',') {
        decimal(piece, most)?;
    }
    Ok(pieces_of(word, b','))
}

// Number `k` of a word, counted from 0; 0 where there is none.
pub fn number_in(word: &[u8], k: usize, most: u64) -> u64
    ensures is { result ≡ or_zero (decimal_of most (slice_index_or (pieces 44 word.now) k [])) }
    ensures small { result ≤ most }
{
    decimal(piece_at(word, b',', k), most).unwrap_or(0)
}

// Whether all are hex digits.
// Stays: a loop that ends at the first wrong digit by `?`; `try_for_each` would have to drop each digit in a closure.
fn digits_read(word: &[u8]) -> Result<(), Wrong>
    ensures { result ≡ all_read hex_of word.now }
{
    for b in word {
        hex_digit(*b)?;
    }
    Ok(())
}

// How many bytes a word writes in hex.
pub fn hex_in(word: &[u8]) -> Result<usize, Wrong>
    ensures { result ≡ hex_in word.now }
{
    digits_read(word)?;
    if word.len() % 2 == 0 {
        Ok(word.len() / 2)
    } else {
        Err(Wrong::NotHex)
    }
}

// Byte `i` that a word writes in hex, 0 past its end.
fn byte_in(word: &[u8], i: usize) -> u8
    ensures { result ≡ hex_byte word.now i }
{
    if i < word.len() / 2 {
        hex_pair(word[2 * i], word[2 * i + 1])
    } else {
        0
    }
}

// Fills a buffer with the bytes that a word writes in hex.
pub fn fill_bytes(word: &[u8], out: &mut [u8])
    ensures { (i : ℕ) → i < length out.new → slice_index out.new i ≡ hex_byte word.now i }
{
    for (i, byte) in out.iter_mut().enumerate() {
        *byte = byte_in(word, i);
    }
}
