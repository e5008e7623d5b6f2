// Runs the published vectors of FIPS 197 and RFC 8439, then what kinds 1 and 2 make of one seed, and writes a line for
// each. The file stdout beside src/ has the published values: tests/published.py writes it, and not this program.
#![tactic(auto)]

use aes::{Aes128, RoundKeys};
use chacha::{ChaCha20, block, quarter_round, quarter_round_at};
use expander::{Expander, Seed};
use hextext::Hex;
use std::{fmt, io};

// The bytes 0, 1, 2 and so on.
const COUNT_16: &[u8; 16] = b"\x00\x01\x02\x03\x04\x05\x06\x07\x08\x09\x0a\x0b\x0c\x0d\x0e\x0f";

const COUNT_32: &[u8; 32] =
    b"\x00\x01\x02\x03\x04\x05\x06\x07\x08\x09\x0a\x0b\x0c\x0d\x0e\x0f\x10\x11\x12\x13\x14\x15\x16\x17\x18\x19\x1a\x1b\x1c\x1d\x1e\x1f";

fn line<T: fmt::Display + Copy>(
    rt: &HostRuntime,
    source: &str,
    name: T,
    bytes: &[u8],
) -> io::Result<()> {
    println!(rt; "{source} {name}: {}", Hex(bytes))
}

fn fips197(rt: &HostRuntime) -> io::Result<()> {
    let keys = RoundKeys::new(b"\x2b\x7e\x15\x16\x28\xae\xd2\xa6\xab\xf7\x15\x88\x09\xcf\x4f\x3c");
    for (i, key) in keys.round_keys().iter().enumerate() {
        line(rt, "FIPS 197 A.1 round key", i, key)?;
    }
    let output = keys.encrypt(b"\x32\x43\xf6\xa8\x88\x5a\x30\x8d\x31\x31\x98\xa2\xe0\x37\x07\x34");
    line(rt, "FIPS 197", "B output", &output)?;
    let keys = RoundKeys::new(COUNT_16);
    let output = keys.encrypt(b"\x00\x11\x22\x33\x44\x55\x66\x77\x88\x99\xaa\xbb\xcc\xdd\xee\xff");
    line(rt, "FIPS 197", "C.1 output", &output)
}

fn quarter_rounds(rt: &HostRuntime) -> io::Result<()> {
    let (a, b, c, d) = quarter_round(0x11111111, 0x01020304, 0x9b8d6f43, 0x01234567);
    for (i, word) in [a, b, c, d].iter().enumerate() {
        line(rt, "RFC 8439 2.1.1 word", i, &word.to_be_bytes())?;
    }
    let mut state = [
        0x879531e0, 0xc5ecf37d, 0x516461b1, 0xc9a62f8a, 0x44c20ef3, 0x3390af7f, 0xd9fc690b,
        0x2a5f714c, 0x53372767, 0xb00a5631, 0x974c541a, 0x359e9963, 0x5c971061, 0x3d631689,
        0x2098d9d6, 0x91dbd320,
    ];
    quarter_round_at(&mut state, 2, 7, 8, 13);
    for (i, word) in state.iter().enumerate() {
        line(rt, "RFC 8439 2.2.1 word", i, &word.to_be_bytes())?;
    }
    Ok(())
}

fn blocks(rt: &HostRuntime) -> io::Result<()> {
    let nonce = [0, 0, 0, 9, 0, 0, 0, 0x4a, 0, 0, 0, 0];
    line(rt, "RFC 8439", "2.3.2 block", &block(COUNT_32, 1, &nonce))?;
    let no_key = [0; 32];
    let no_nonce = [0; 12];
    line(
        rt,
        "RFC 8439",
        "A.1 vector 1",
        &block(&no_key, 0, &no_nonce),
    )?;
    line(
        rt,
        "RFC 8439",
        "A.1 vector 2",
        &block(&no_key, 1, &no_nonce),
    )?;
    let mut key = no_key;
    key[31] = 1;
    line(rt, "RFC 8439", "A.1 vector 3", &block(&key, 1, &no_nonce))?;
    let mut key = no_key;
    key[1] = 0xff;
    line(rt, "RFC 8439", "A.1 vector 4", &block(&key, 2, &no_nonce))?;
    let mut nonce = no_nonce;
    nonce[11] = 2;
    line(rt, "RFC 8439", "A.1 vector 5", &block(&no_key, 0, &nonce))
}

// The blocks that the kinds make of the seed 00 01 .. 0f.
fn kind_blocks(rt: &HostRuntime) -> io::Result<()> {
    let keys = RoundKeys::new(COUNT_16);
    for j in 0..9u8 {
        let mut number = [0; 16];
        number[15] = j;
        line(rt, "kind 1 block", j as usize, &keys.encrypt(&number))?;
    }
    let mut key = [0; 32];
    key[0..16].copy_from_slice(COUNT_16);
    key[16..32].copy_from_slice(COUNT_16);
    for counter in 0..3u32 {
        line(
            rt,
            "kind 2 counter",
            counter as usize,
            &block(&key, counter, &[0; 12]),
        )?;
    }
    Ok(())
}

// What an expander makes of the same seed.
fn expansion<X: Expander>(rt: &HostRuntime, kind: &str, expander: &X) -> io::Result<()> {
    let seed = Seed { bytes: *COUNT_16 };
    let branches = expander.branch(seed);
    for (name, side) in [("left", branches.left), ("right", branches.right)] {
        println!(rt; "{kind} {name}: {}", Hex(&side.seed.bytes))?;
        println!(rt; "{kind} {name} value: {}", Hex(&side.value.bytes))?;
        println!(rt; "{kind} {name} bit: {}", Hex(&[side.bit as u8]))?;
    }
    for word in expander.draw(seed) {
        line(rt, kind, "word", &word.to_be_bytes())?;
    }
    Ok(())
}

fn main(rt: HostRuntime) -> io::Result<()> {
    fips197(&rt)?;
    quarter_rounds(&rt)?;
    blocks(&rt)?;
    kind_blocks(&rt)?;
    expansion(&rt, "kind 1", &Aes128)?;
    expansion(&rt, "kind 2", &ChaCha20)
}
