// The round keys of a key.
ghost use Rattle.aes.specs.Blocks.{Scheduled};

use crate::block::Block;

#[derive(Clone, Copy)]
pub struct RoundKeys {
    pub(crate) keys: [Block; 11],
    ghost scheduled: { Scheduled keys },
}
