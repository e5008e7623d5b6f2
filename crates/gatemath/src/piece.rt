// The numbers of a piece: its payload, and a box's share.
ghost use Rattle.std.specs.Prelude.{◌≡◌, get_or};
ghost use Rattle.masking.specs.Masking.{size};
ghost use Rattle.shares.specs.Piece.{piece_payload, piece_share_of};
ghost use Rattle.gatemath.specs.Elements.{quad_mean};
ghost use Rattle.gatemath.specs.Piece.{moved_quad, by_horner};

use group::{Pair, Quad, Word};
use masking::Width;

// The coefficients of f(m − r), lowest first.
pub fn payload_for(mask: u32, coefficients: &[u32; 4]) -> Quad
    ensures is { result ≡ moved_quad mask coefficients.now }
    ensures mean { quad_mean result
        ≡ piece_payload mask (get_or coefficients.now 0 0) (get_or coefficients.now 1 0)
        (get_or coefficients.now 2 0) (get_or coefficients.now 3 0) }
{
    let r = u64::from(mask);
    let [c0, c1, c2, c3] = coefficients.map(u64::from);
    let square = r.wrapping_mul(r);
    let cube = square.wrapping_mul(r);
    Quad::from([
        c0.wrapping_sub(c1.wrapping_mul(r))
            .wrapping_add(c2.wrapping_mul(square))
            .wrapping_sub(c3.wrapping_mul(cube)),
        c1.wrapping_sub(c2.wrapping_mul(2).wrapping_mul(r))
            .wrapping_add(c3.wrapping_mul(3).wrapping_mul(square)),
        c2.wrapping_sub(c3.wrapping_mul(3).wrapping_mul(r)),
        c3,
    ])
}

// A cubic with these coefficients, lowest first, modulo 2^64.
fn horner(answer: Quad, m: u32) -> u64
    ensures { result ≡ by_horner answer.left.left.0 answer.left.right.0 answer.right.left.0 answer.right.right.0 m }
{
    let Pair {
        left: one,
        right: two,
    } = answer;
    let x = u64::from(m);
    let high = two.right.0.wrapping_mul(x).wrapping_add(two.left.0);
    let low = high.wrapping_mul(x).wrapping_add(one.right.0);
    low.wrapping_mul(x).wrapping_add(one.left.0)
}

// Each word of an answer times its power of m, and the part of the output mask on top.
pub fn piece_share(width: Width, answer: Quad, m: u32, out: u32) -> u32
    ensures { result ≡ piece_share_of (size width) m (quad_mean answer) out }
{
    width.sum(width.reduce(horner(answer, m)), out)
}
