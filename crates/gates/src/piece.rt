// The piece gate: a cubic on an interval, zero elsewhere.
ghost use Rattle.std.specs.Prelude.{◌≡◌, ◌%◌, refl, slice_index};
ghost use Rattle.masking.specs.Masking.{size};
ghost use Rattle.shares.specs.Piece.{piece_share_of};
ghost use Rattle.shares.proofs.Keyed.{piece_is_plain};
ghost use Rattle.gatemath.specs.Elements.{quad_mean};
ghost use Rattle.gates.specs.Piece.{piece_deal, piece_out, piece_draws, piece_numbers, piece_held};

use crate::interval_key::{IntervalDeal, IntervalDraws, roots_at};
use crate::intervals::IntervalGate;
use gatekeys::PieceGate;
use gatemath::{number_part, payload_for, piece_share};
use group::Quad;
use key::BoxNumber;
use masking::{Masked, Share, Width};

impl IntervalGate<Quad> for PieceGate {
    ghost deal = { piece_deal };

    ghost out_part = { piece_out };

    ghost allowed = { λ _. Unit {0} };

    ghost share = { λ N m answer o. piece_share_of N m (quad_mean answer) o };

    ghost numbers = { λ d x y gate m. piece_numbers d x y gate.interval gate.mask gate.coefficients gate.words m };

    ghost held = { λ gate m. piece_held gate.interval gate.mask gate.coefficients gate.words m };

    fn deal(&self) -> IntervalDeal<Quad> {
        let [_, _, _, _, _, p0, p1, p2, p3, e0, e1, e2, e3, _] = self.words;
        IntervalDeal {
            interval: self.interval,
            mask: self.mask,
            payload: payload_for(self.mask, &self.coefficients),
            draws: IntervalDraws {
                roots: roots_at(&self.words, 1),
                payload1: Quad::from([p0, p1, p2, p3]),
                extra1: Quad::from([e0, e1, e2, e3]),
            },
        }
    }

    fn out_part(&self, number: BoxNumber) -> u32 {
        let width = self.interval.width();
        let all = u64::from(width.reduce(self.words[0]));
        number_part(width, number, all, self.words[13])
    }

    // The cubic whose coefficients are the answer's words, at the held value, and the part of the output mask on top.
    fn share(width: Width, m: Masked, answer: Quad, out: u32) -> Share {
        Share(piece_share(width, answer, m.0, out))
    }

    ghost laws = { record {
      share_of = piece_share_of;
      share_is = λ N m a o. refl;
      numbers_are = λ y x0 x1 t m. refl;
      joins = λ gate m key0 key1 allowed below held join.
          let i = gate.interval in
          let c = gate.coefficients in
          let w = gate.words in
          piece_is_plain i.width.bits m gate.mask i.low i.high (slice_index c 0) (slice_index c 1) (slice_index c 2) (slice_index c 3)
          (slice_index w 0 % size i.width) (slice_index w 13) i.width.most held below i.ordered i.fits
          (piece_draws w).payload1 (piece_draws w).extra1 key0 key1 join;
    } };
}
