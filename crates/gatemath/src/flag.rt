// A box's share of a flag gate.
ghost use Rattle.std.specs.Prelude.{◌≡◌};
ghost use Rattle.shares.specs.Flag.{flag_share};
ghost use Rattle.gatemath.specs.Elements.{flag_mean};

use group::Flags;

// An answer XOR the part of the output mask.
pub fn flag_share(answer: Flags, out: u32) -> u32
    ensures { result ≡ flag_share (flag_mean answer).0 out }
{
    answer.0 ^ out
}
