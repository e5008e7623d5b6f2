// The flag gate: a pattern on an interval, no flag elsewhere.
ghost use Rattle.std.specs.Prelude.{◌≡◌, ◌%◌, ◌^◌, ◌<◌, refl, slice_index};
ghost use Rattle.shares.specs.Flag.{flag_share};
ghost use Rattle.masking.specs.Masking.{size};
ghost use Rattle.shares.proofs.Keyed.{flag_is_plain};
ghost use Rattle.gatemath.specs.Elements.{flag_mean};
ghost use Rattle.gates.specs.Flag.{flag_deal, flag_out, flag_draws, flag_numbers, flag_held};

use crate::interval_key::{IntervalDeal, IntervalDraws, roots_at};
use crate::intervals::IntervalGate;
use gatekeys::FlagGate;
use gatemath::{flag_share, flags_part};
use group::{Flags, low_half};
use key::BoxNumber;
use masking::{Masked, Share, Width};

impl IntervalGate<Flags> for FlagGate {
    ghost deal = { flag_deal };

    ghost out_part = { flag_out };

    ghost allowed = { λ gate. gate.pattern < 2 ^ 32 };

    ghost share = { λ _ _ answer o. flag_share (flag_mean answer).0 o };

    ghost numbers = { λ d x y gate m. flag_numbers d x y gate.interval gate.mask gate.pattern gate.words m };

    ghost held = { λ gate m. flag_held gate.interval gate.mask gate.pattern gate.words m };

    fn deal(&self) -> IntervalDeal<Flags> {
        let [_, _, _, _, _, payload1, extra1, _] = self.words;
        IntervalDeal {
            interval: self.interval,
            mask: self.mask,
            payload: Flags(self.pattern),
            draws: IntervalDraws {
                roots: roots_at(&self.words, 1),
                payload1: Flags(low_half(payload1)),
                extra1: Flags(low_half(extra1)),
            },
        }
    }

    fn out_part(&self, number: BoxNumber) -> u32 {
        flags_part(number, low_half(self.words[0]), self.words[7])
    }

    // The answer XOR the part of the output mask.
    fn share(_width: Width, _m: Masked, answer: Flags, out: u32) -> Share {
        Share(flag_share(answer, out))
    }

    ghost laws = { record {
      share_of = λ _ _ answer o. flag_share answer.0 o;
      share_is = λ N m a o. refl;
      numbers_are = λ y x0 x1 t m. refl;
      joins = λ gate m key0 key1 allowed below held join.
          let i = gate.interval in
          let w = gate.words in
          flag_is_plain (size i.width) m gate.mask i.low i.high gate.pattern (slice_index w 0 % 2 ^ 32) (slice_index w 7)
          held below i.ordered i.fits allowed (flag_draws w).payload1 (flag_draws w).extra1 key0 key1 join;
    } };
}
