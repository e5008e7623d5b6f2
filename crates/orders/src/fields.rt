// Words of a line as what they must be.
ghost use Rattle.std.specs.Prelude.{◌≡◌, [], slice_index_or};
ghost use Rattle.std.specs.Fn.{FnOnceReturnsAt};
ghost use Rattle.orders.specs.Grammar.{kind_of, group_of, parts, payload_of, placed, field, ended};
ghost use Rattle.orders.specs.Text.{words, nth, pieces, number_of};

use crate::number::Number;
use crate::text::{number_of, piece_at, pieces_of, word_at};
use crate::types::{Fault, Group, Kind, Payload, Wrong};

// Stays: `TryFrom<&[u8]>` would say no more than this and the next function do, and its error is the same.
pub fn kind_of(word: &[u8]) -> Result<Kind, Wrong>
    ensures { result ≡ kind_of word.now }
{
    match word {
        b"1" => Ok(Kind::Aes),
        b"2" => Ok(Kind::ChaCha),
        b"3" => Ok(Kind::Zero),
        _ => Err(Wrong::UnknownKind),
    }
}

pub fn group_of(word: &[u8]) -> Result<Group, Wrong>
    ensures { result ≡ group_of word.now }
{
    match word {
        b"words" => Ok(Group::Words),
        b"flags" => Ok(Group::Flags),
        b"pair" => Ok(Group::Pair),
        b"quad" => Ok(Group::Quad),
        _ => Err(Wrong::UnknownGroup),
    }
}

// What was read of word number `n`, with that number where it was wrong.
pub fn placed<T: Drop>(word: &[u8], n: usize, read: Result<T, Wrong>) -> Result<T, Fault>
    ensures { result ≡ placed word.now n read }
{
    let read = if word.is_empty() {
        Err(Wrong::MissingWord)
    } else {
        read
    };
    read.map_err(|what| Fault { what, word: n })
}

// Word number `n` as what `read` reads of it, or what is wrong with that word.
// Stays: a line and the number of a word; a struct of both would be made anew at every word.
pub fn field<T: Drop, F: FnOnce(&[u8]) -> Result<T, Wrong>>(
    line: &[u8],
    n: usize,
    read: F,
) -> Result<T, Fault>
    requires { F.IsAlwaysCallable read }
    ensures { (r : _) × FnOnceReturnsAt F.FnOnce read (nth (words line.now) n) r
        × (result ≡ placed (nth (words line.now) n) n r) }
{
    let word = word_at(line, n);
    placed(word, n, read(word))
}

// Word number `n` as a decimal number of a type.
pub fn number_at<N: Number>(line: &[u8], n: usize) -> Result<N, Fault>
    ensures { result ≡ field (number_of N.held N.MOST) (words line.now) n }
{
    // Stays: a closure around the function: by its name, a function of a type parameter that is passed gets no proof.
    field(line, n, |word| number_of(word))
}

// No word number `n`: then all is read, and `x` is what was read.
pub fn ended<T: Drop>(line: &[u8], n: usize, x: T) -> Result<T, Fault>
    ensures { result ≡ ended (words line.now) n x }
{
    if word_at(line, n).is_empty() {
        Ok(x)
    } else {
        Err(Fault {
            what: Wrong::ExtraWord,
            word: n,
        })
    }
}

fn parts_of(group: Group) -> usize
    ensures { result ≡ parts group }
{
    match group {
        Group::Words | Group::Flags => 1,
        Group::Pair => 2,
        Group::Quad => 4,
    }
}

// Number `k` of those in a word with commas between them.
pub fn number_part<N: Number>(word: &[u8], k: usize) -> Result<N, Wrong>
    ensures { result ≡ number_of N.held N.MOST (slice_index_or (pieces 44 word.now) k []) }
{
    number_of(piece_at(word, b',', k))
}

// Numbers with commas between them, as many as the group has parts.
pub fn payload_of(group: Group, word: &[u8]) -> Result<Payload, Wrong>
    ensures { result ≡ payload_of group word.now }
{
    if pieces_of(word, b',') != parts_of(group) {
        return Err(Wrong::PayloadParts);
    }
    match group {
        Group::Words => Ok(Payload::Words(number_part(word, 0)?)),
        Group::Flags => Ok(Payload::Flags(number_part(word, 0)?)),
        Group::Pair => Ok(Payload::Pair(number_part(word, 0)?, number_part(word, 1)?)),
        // Stays: the four are fields of a variant; an array of them would only be taken apart again.
        Group::Quad => Ok(Payload::Quad(
            number_part(word, 0)?,
            number_part(word, 1)?,
            number_part(word, 2)?,
            number_part(word, 3)?,
        )),
    }
}
