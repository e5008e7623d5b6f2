// The published standards that the expanders compute, FIPS 197 and RFC 8439, and what kinds 1 and 2 make of them.
// They are definitions, in specs/, and lemmas, in proofs/; the code here is what every implementation of a kind shares.
#![tactic(auto)]

ghost use Rattle.std.specs.Prelude.{◌≡◌, ◌+◌, ◌≤◌, length, take, drop};
ghost use Rattle.standards.specs.Kinds.{long_at, lowest_bit};

pub fn lowest_bit(byte: u8) -> bool
    ensures { result ≡ lowest_bit byte }
{
    byte % 2 == 1
}

// The bytes from byte i on, as many as the array takes.
pub fn bytes_at<const N: usize>(bytes: &[u8], i: usize) -> [u8; N]
    requires { i + N ≤ length bytes.now }
    ensures { result ≡ take N (drop i bytes.now) }
{
    let mut part = [0; N];
    part.copy_from_slice(&bytes[i..i + N]);
    part
}

// The word in the eight bytes from byte i on, the lowest byte first.
pub fn long_at(bytes: &[u8], i: usize) -> u64
    requires { i + 8 ≤ length bytes.now }
    ensures { result ≡ long_at i bytes.now }
{
    u64::from_le_bytes(bytes_at(bytes, i))
}
