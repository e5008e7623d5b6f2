// Words of a line as what they must be.
ghost use Rattle.std.specs.Prelude.{◌≡◌};
ghost use Rattle.orders.specs.Text.{words};
ghost use Rattle.planlines.specs.Grammar.{owners_field, room_field, hex_field};

use crate::lists::{hex_in, numbers_in};
use orders::{Fault, decimal, field, word_at};

// The longest book.
const LONGEST: usize = 54880;

// Owners, none where the word is missing.
pub fn owners_at(line: &[u8], n: usize) -> Result<usize, Fault>
    ensures { result ≡ owners_field (words line.now) n }
{
    let word = word_at(line, n);
    if word.is_empty() {
        return Ok(0);
    }
    numbers_in(word, u8::MAX as u64).map_err(|what| Fault { what, word: n })
}

// The length of the buffer, that of the longest book where the word is missing.
pub fn room_at(line: &[u8], n: usize) -> Result<usize, Fault>
    ensures { result ≡ room_field (words line.now) n }
{
    if word_at(line, n).is_empty() {
        return Ok(LONGEST);
    }
    let room = field(line, n, |word| decimal(word, LONGEST as u64))?;
    Ok(room as usize)
}

// Bytes in hex, none where the word is missing.
pub fn hex_at(line: &[u8], n: usize) -> Result<usize, Fault>
    ensures { result ≡ hex_field (words line.now) n }
{
    hex_in(word_at(line, n)).map_err(|what| Fault { what, word: n })
}
