// Round keys: made of a key, read, and used to encrypt blocks.
ghost use Rattle.std.specs.Prelude.{◌≡◌, ◌<◌};
ghost use Rattle.aes.specs.Blocks.{block_bytes};
ghost use Rattle.aes.specs.Keys.{Expanded, key_of};
ghost use Rattle.standards.specs.Fips197.{cipher, full_rounds, key_expansion, round_key};
ghost use Rattle.standards.specs.Kinds.{number};

use crate::block::Block;
use crate::round_keys::RoundKeys;
use crate::rounds::{full_round, last_round};
use crate::schedule::expanded;

impl RoundKeys {
    pub fn new(key: &[u8; 16]) -> RoundKeys
        ensures key { key_of result ≡ key.now }
        ensures round_keys { Expanded result key.now }
    {
        let keys = expanded(Block::from_bytes(key));
        RoundKeys { keys }
    }

    // Rounds 1 to 9.
    fn full_rounds(&self, block: Block) -> Block
        ensures { block_bytes result ≡ full_rounds 9 (key_of self.now) (block_bytes block) }
    {
        let mut state = block;
        for key in &self.keys[1..10] {
            state = full_round(*key, state);
        }
        state
    }

    fn encrypt_block(&self, block: Block) -> Block
        ensures { block_bytes result ≡ cipher (key_of self.now) (block_bytes block) }
    {
        let state = self.full_rounds(block.add_round_key(self.keys[0]));
        last_round(self.keys[10], state)
    }

    // The encryption of the number j in sixteen bytes, the highest first.
    pub(crate) fn encrypt_number(&self, j: u8) -> [u8; 16]
        ensures { result ≡ cipher (key_of self.now) (number j) }
    {
        self.encrypt_block(Block([0, 0, 0, j as u32])).to_bytes()
    }

    pub fn encrypt(&self, block: &[u8; 16]) -> [u8; 16]
        ensures { result ≡ cipher (key_of self.now) block.now }
    {
        self.encrypt_block(Block::from_bytes(block)).to_bytes()
    }

    // All round keys, the first of them the key.
    pub fn round_keys(&self) -> [[u8; 16]; 11]
        ensures { result ≡ key_expansion (key_of self.now) }
    {
        self.keys.map(Block::to_bytes)
    }
}
