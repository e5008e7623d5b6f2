// One box's evaluation of a comparison key at a point.
#![tactic(auto)]

ghost use Rattle.std.specs.Prelude.{◌≡◌};
ghost use Rattle.key.specs.Rows.{is_one};
ghost use Rattle.evaluation.specs.Evaluation.{side_of, bit_at, walk_mean, drawn_from, begun, stepped, walked, ended, evaluated};

use expander::{Branches, Expander, Seed, Side};
use group::Group;
use key::{BoxNumber, KeyEnds, Row};

// The left or the right side of a branch.
pub fn side_of(b: Branches, right: bool) -> Side
    ensures { result ≡ side_of b right }
{
    if right { b.right } else { b.left }
}

// Bit k of a number, counted from the lowest.
pub fn bit_at(number: u32, k: usize) -> bool
    ensures { result ≡ bit_at number k }
{
    k < 32 && (number >> k) % 2 == 1
}

// The element that a seed draws.
pub fn drawn<X: Expander, G: Group>(expander: &X, seed: Seed) -> G
    ensures { G.Group.mean result ≡ drawn_from X.Expander.meaning G.Group.group G.Group.mean seed }
{
    G::from_draw(&expander.draw(seed), 0)
}

// How far a box has come: its seed, its control bit, and the sum of what it added.
#[derive(Clone, Copy)]
pub struct Walk<G> {
    pub seed: Seed,
    pub control: bool,
    pub sum: G,
}

impl<G: Group> Walk<G> {
    // At the root: box 1 begins with its control bit set.
    fn begin(number: BoxNumber, root: Seed) -> Walk<G>
        ensures { walk_mean G.Group.mean result ≡ begun G.Group.group (is_one number) root }
    {
        Walk {
            seed: root,
            control: number.is_one(),
            sum: G::zero(),
        }
    }

    // One row: branch, take a side, add what is drawn there, and apply the row where the control bit is set.
    pub fn step<X: Expander>(self, expander: &X, row: Row<G>, right: bool) -> Walk<G>
        ensures { walk_mean G.Group.mean result
            ≡ stepped X.Expander.meaning G.Group.group G.Group.mean row right (walk_mean G.Group.mean self) }
    {
        let side = side_of(expander.branch(self.seed), right);
        let sum = self.sum.add(drawn(expander, side.value));
        if self.control {
            Walk {
                seed: side.seed.xor(row.word),
                control: side.bit ^ row.bit(right),
                sum: sum.add(row.element),
            }
        } else {
            Walk {
                seed: side.seed,
                control: side.bit,
                sum,
            }
        }
    }

    // Past all rows, by the point's bits, the highest first.
    fn past<X: Expander>(self, expander: &X, rows: &[Row<G>], point: u32) -> Walk<G>
        ensures { walk_mean G.Group.mean result
            ≡ walked X.Expander.meaning G.Group.group G.Group.mean rows.now point (walk_mean G.Group.mean self) }
    {
        rows.iter().zip((0..rows.len()).rev()).fold(
            self,
            |walk, (row, k)| walk.step(expander, *row, bit_at(point, k)),
        )
    }

    // After the last row: what the last seed draws, the final element where the control bit is set; box 1 inverts.
    fn finish<X: Expander>(self, expander: &X, number: BoxNumber, last: G) -> G
        ensures { G.Group.mean result
            ≡ ended X.Expander.meaning G.Group.group G.Group.mean last (is_one number) (walk_mean G.Group.mean self) }
    {
        let mut sum = self.sum.add(drawn(expander, self.seed));
        if self.control {
            sum = sum.add(last);
        }
        if number.is_one() { sum.neg() } else { sum }
    }
}

// A box's answer at a point: the walk over all rows from its root.
pub fn answer<X: Expander, G: Group>(
    expander: &X,
    number: BoxNumber,
    ends: KeyEnds<G>,
    rows: &[Row<G>],
    point: u32,
) -> G
    ensures { G.Group.mean result
        ≡ evaluated X.Expander.meaning G.Group.group G.Group.mean (is_one number) ends.root rows.now ends.last point }
{
    Walk::begin(number, ends.root)
        .past(expander, rows, point)
        .finish(expander, number, ends.last)
}
