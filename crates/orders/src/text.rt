// Lines cut into words, and words read as numbers and seeds.
ghost use Rattle.std.specs.Prelude.{◌≡◌, ◌+◌, ◌^◌, ◌<◌, ◌≤◌, min, true, not, [], length, drop, IfOk, ◌==◌, slice_index_or};
ghost use Rattle.std.specs.List.{prefix_len};
ghost use Rattle.orders.specs.Text.{pieces, words, nth, digits, numeral, value, decimal_of, number_of};
ghost use Rattle.orders.specs.Text.{hex, hexes, hex_value, hex_of, or_zero, byte_of, hex_bytes, HexBytes, seed_from};

use crate::number::Number;
use crate::types::Wrong;
use expander::Seed;
use std::array;

// How many pieces a text has, cut at every `by`.
pub fn pieces_of(text: &[u8], by: u8) -> usize
    ensures { result ≡ length (pieces by text.now) }
{
    text.iter().map(|b| usize::from(*b == by)).sum::<usize>() + 1
}

// Piece number `k`, counted from 0; empty where there is none.
pub fn piece_at(text: &[u8], by: u8, k: usize) -> &[u8]
    ensures { result.now ≡ slice_index_or (pieces by text.now) k [] }
{
    text.split(|b| *b == by).nth(k).unwrap_or(&[])
}

// Where the spaces end that begin at a place.
// Stays: here and at `past_word` a loop over places; a chain over the pieces of a line takes 19 instructions a space, this 5.
// They are two, since the test of one with a flag would be asked anew at every byte.
fn past_spaces(line: &[u8], from: usize) -> usize
    requires { from ≤ length line.now }
    ensures is { result ≡ from + prefix_len (λ b. b == 32) (drop from line.now) }
    ensures within { result ≤ length line.now }
{
    let mut i = from;
    while i < line.len() && line[i] == b' ' {
        i += 1;
    }
    i
}

// Where the word ends that begins at a place.
fn past_word(line: &[u8], from: usize) -> usize
    requires { from ≤ length line.now }
    ensures is { result ≡ from + prefix_len (λ b. not (b == 32)) (drop from line.now) }
    ensures within { result ≤ length line.now }
{
    let mut i = from;
    while i < line.len() && line[i] != b' ' {
        i += 1;
    }
    i
}

// Word number `n` of a line, counted from 1; empty where there is none.
pub fn word_at(line: &[u8], n: usize) -> &[u8]
    ensures { result.now ≡ nth (words line.now) n }
{
    if n == 0 {
        return &[];
    }
    let mut start = past_spaces(line, 0);
    let mut left = n - 1;
    while left > 0 && start < line.len() {
        start = past_spaces(line, past_word(line, start));
        left -= 1;
    }
    &line[start..past_word(line, start)]
}

// Stays: here and at `all_hex` it is one line of `all`; one function of both over the test would be `all` again.
fn all_digits(word: &[u8]) -> bool
    ensures { result ≡ digits word.now }
{
    word.iter().all(|b| b.is_ascii_digit())
}

// Whether a word is one or more digits.
fn is_numeral(word: &[u8]) -> bool
    ensures { result ≡ numeral word.now }
{
    !word.is_empty() && all_digits(word)
}

// The number that digits write, or `top` where it is larger.
fn value_of(word: &[u8], top: u128) -> u128
    requires { (digits word.now ≡ true) × (top ≤ 2 ^ 64) }
    ensures { result ≡ min (value word.now) top }
{
    // Stays: a fold was tried; its proof did not close, since the closure does not know that each byte is a digit.
    let mut sum: u128 = 0;
    for b in word {
        sum = (sum * 10 + (*b - b'0') as u128).min(top);
    }
    sum
}

// A word as a decimal number that is at most `most`.
pub fn decimal(word: &[u8], most: u64) -> Result<u64, Wrong>
    ensures is { result ≡ decimal_of most word.now }
    ensures small { IfOk result (λ m. m ≤ most) }
{
    if !is_numeral(word) {
        return Err(Wrong::NotNumber);
    }
    let n = value_of(word, most as u128 + 1);
    if n <= most as u128 {
        Ok(n as u64)
    } else {
        Err(Wrong::TooLarge)
    }
}

// A word as a decimal number of a type.
pub fn number_of<N: Number>(word: &[u8]) -> Result<N, Wrong>
    ensures { result ≡ number_of N.held N.MOST word.now }
{
    let number = decimal(word, N::MOST)?;
    Ok(N::hold(number))
}

// The value of a hex digit.
fn hex_value(b: u8) -> u8
    requires { hex b ≡ true }
    ensures is { result ≡ hex_value b }
    ensures small { result < 16 }
{
    if b >= b'a' {
        b - b'a' + 10
    } else if b >= b'A' {
        b - b'A' + 10
    } else {
        b - b'0'
    }
}

// A hex digit, in either case.
pub fn hex_digit(b: u8) -> Result<u8, Wrong>
    ensures { result ≡ hex_of b }
{
    if b.is_ascii_hexdigit() {
        Ok(hex_value(b))
    } else {
        Err(Wrong::NotHex)
    }
}

// A hex digit's value, 0 for any other byte.
// Stays: as a match; with `hex_value` behind a test, filling a buffer takes up to a half more.
fn digit_or_zero(b: u8) -> u8
    ensures is { result ≡ or_zero (hex_of b) }
    ensures small { result < 16 }
{
    match b {
        b'0'..=b'9' => b - b'0',
        b'a'..=b'f' => b - b'a' + 10,
        b'A'..=b'F' => b - b'A' + 10,
        _ => 0,
    }
}

// The byte that two hex digits write, the high one first.
pub fn hex_pair(high: u8, low: u8) -> u8
    ensures { result ≡ byte_of high low }
{
    16 * digit_or_zero(high) + digit_or_zero(low)
}

fn all_hex(word: &[u8]) -> bool
    ensures { result ≡ hexes word.now }
{
    word.iter().all(|b| b.is_ascii_hexdigit())
}

// The bytes that 32 hex digits write, the high digit of each first.
fn hex_bytes(word: &[u8]) -> [u8; 16]
    requires { (length word.now ≡ 32) × (hexes word.now ≡ true) }
    ensures { result ≡ hex_bytes word.now }
{
    array::from_fn(|i| 16 * hex_value(word[2 * i]) + hex_value(word[2 * i + 1]))
}

// 32 hex digits as a seed.
pub fn seed_of(word: &[u8]) -> Result<Seed, Wrong>
    ensures is { result ≡ seed_from word.now }
    ensures bytes { IfOk result (λ s. HexBytes word.now s.bytes) }
{
    if word.len() != 32 {
        return Err(Wrong::SeedLength);
    }
    if !all_hex(word) {
        return Err(Wrong::NotHex);
    }
    Ok(Seed {
        bytes: hex_bytes(word),
    })
}
