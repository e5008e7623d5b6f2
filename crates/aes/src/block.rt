// A block as four words, each of four bytes with the first one highest.
ghost use Rattle.std.specs.Prelude.{◌≡◌, ◌+◌, ◌≤◌, take, drop};
ghost use Rattle.aes.specs.Blocks.{block_bytes, word_bytes};
ghost use Rattle.standards.specs.Fips197.{add_round_key};

use standards::bytes_at;
use std::array;
use std::simd::u32x4;

#[derive(Clone, Copy)]
pub struct Block(pub [u32; 4]);

// The word in the four bytes from byte i on.
// Stays: the first byte is the highest here and the lowest in `chacha`; a name for either would be no plainer.
fn word_at(bytes: &[u8; 16], i: usize) -> u32
    requires { i + 4 ≤ 16 }
    ensures { word_bytes result ≡ take 4 (drop i bytes.now) }
{
    u32::from_be_bytes(bytes_at(bytes, i))
}

// Stays: `from_bytes` and `to_bytes` are named as those of words are, by the order of bytes; `From` would say no more.
impl Block {
    pub fn from_bytes(bytes: &[u8; 16]) -> Block
        ensures { block_bytes result ≡ bytes.now }
    {
        Block(array::from_fn(|i| word_at(bytes, 4 * i)))
    }

    pub fn to_bytes(self) -> [u8; 16]
        ensures { result ≡ block_bytes self }
    {
        bytes_at(self.0.map(u32::to_be_bytes).as_flattened(), 0)
    }

    pub fn add_round_key(self, key: Block) -> Block
        ensures { block_bytes result ≡ add_round_key (block_bytes self) (block_bytes key) }
    {
        Block((u32x4::from_array(self.0) ^ u32x4::from_array(key.0)).to_array())
    }
}
