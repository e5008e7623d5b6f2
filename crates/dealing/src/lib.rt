// Dealing a comparison key: its rows and its final element.
#![tactic(auto)]

ghost use Rattle.std.specs.Prelude.{◌≡◌, not, map, length};
ghost use Rattle.key.specs.Rows.{row_mean};
ghost use Rattle.dealing.specs.Dealing.{descent_mean, next_seed, next_control, signed, cancelling};
ghost use Rattle.dealing.specs.Dealing.{row_from, next_from, final_from, dealt_rows, dealt_last, start};

use evaluation::{bit_at, drawn, side_of};
use expander::{Branches, Expander, Seed};
use group::{Group, difference};
use key::{Roots, Row, Rows};

fn seed_after(control: bool, seed: Seed, word: Seed) -> Seed
    ensures { result ≡ next_seed control seed word }
{
    if control { seed.xor(word) } else { seed }
}

fn control_after(control: bool, bit: bool, row_bit: bool) -> bool
    ensures { result ≡ next_control control bit row_bit }
{
    if control { bit ^ row_bit } else { bit }
}

// Both boxes on the way to the threshold: their seeds, their control bits, and by what their sums are apart.
// Stays: as the rules name them; definitions and proofs speak of the four apart, so that a struct between would be no plainer.
#[derive(Clone, Copy)]
pub struct Descent<G> {
    pub seed0: Seed,
    pub seed1: Seed,
    pub control0: bool,
    pub control1: bool,
    pub apart: G,
}

impl<G: Group> Descent<G> {
    // At the roots.
    fn begin(roots: Roots) -> Descent<G>
        ensures { descent_mean G.Group.mean result ≡ start G.Group.group roots.zero roots.one }
    {
        Descent {
            seed0: roots.zero,
            seed1: roots.one,
            control0: false,
            control1: true,
            apart: G::zero(),
        }
    }

    // An element with the sign of box 1's control bit: minus where it is set.
    fn signed(self, element: G) -> G
        ensures { G.Group.mean result ≡ signed G.Group.group self.control1 (G.Group.mean element) }
    {
        if self.control1 {
            element.neg()
        } else {
            element
        }
    }

    // What makes both boxes' sums equal once both have added the draws of these two seeds.
    fn cancelling<X: Expander>(self, expander: &X, seed0: Seed, seed1: Seed) -> G
        ensures { G.Group.mean result
            ≡ cancelling X.Expander.meaning G.Group.group seed0 seed1 (descent_mean G.Group.mean self) }
    {
        let c0: G = drawn(expander, seed0);
        let c1: G = drawn(expander, seed1);
        self.signed(difference(difference(c1, c0), self.apart))
    }

    // The row for one bit of the threshold.
    fn row<X: Expander>(
        self,
        expander: &X,
        payload: G,
        bit: bool,
        b0: Branches,
        b1: Branches,
    ) -> Row<G>
        ensures { row_mean G.Group.mean result
            ≡ row_from X.Expander.meaning G.Group.group (G.Group.mean payload) bit (descent_mean G.Group.mean self) b0 b1 }
    {
        let lose0 = side_of(b0, !bit);
        let lose1 = side_of(b1, !bit);
        let equal = self.cancelling(expander, lose0.value, lose1.value);
        Row {
            word: lose0.seed.xor(lose1.seed),
            left: b0.left.bit ^ b1.left.bit ^ !bit,
            right: b0.right.bit ^ b1.right.bit ^ bit,
            element: if bit {
                equal.add(self.signed(payload))
            } else {
                equal
            },
        }
    }

    // Past one row, on the side that the threshold keeps.
    fn past<X: Expander>(
        self,
        expander: &X,
        bit: bool,
        b0: Branches,
        b1: Branches,
        row: Row<G>,
    ) -> Descent<G>
        ensures { descent_mean G.Group.mean result
            ≡ next_from X.Expander.meaning G.Group.group bit (descent_mean G.Group.mean self) b0 b1
            (row_mean G.Group.mean row) }
    {
        let keep0 = side_of(b0, bit);
        let keep1 = side_of(b1, bit);
        let row_bit = row.bit(bit);
        let c0: G = drawn(expander, keep0.value);
        let c1: G = drawn(expander, keep1.value);
        Descent {
            seed0: seed_after(self.control0, keep0.seed, row.word),
            seed1: seed_after(self.control1, keep1.seed, row.word),
            control0: control_after(self.control0, keep0.bit, row_bit),
            control1: control_after(self.control1, keep1.bit, row_bit),
            apart: self
                .apart
                .add(difference(c0, c1))
                .add(self.signed(row.element)),
        }
    }

    // The final element, from the last seeds.
    fn last<X: Expander>(self, expander: &X) -> G
        ensures { G.Group.mean result ≡ final_from X.Expander.meaning G.Group.group (descent_mean G.Group.mean self) }
    {
        self.cancelling(expander, self.seed0, self.seed1)
    }
}

// Deals a key into the table, a row for each bit of the threshold, the highest first; the final element is returned.
// Stays: threshold, payload and roots come from three sides, a mask, a gate and its random words; a struct made at each
// call and taken apart here is no plainer.
pub fn deal<X: Expander, G: Group>(
    expander: &X,
    threshold: u32,
    payload: G,
    roots: Roots,
    rows: &mut Rows<G>,
) -> G
    ensures rows { map (row_mean G.Group.mean) rows.new.rows.now
        ≡ dealt_rows X.Expander.meaning G.Group.group (G.Group.mean payload) threshold (length rows.old.rows.now)
        (start G.Group.group roots.zero roots.one) }
    ensures last { G.Group.mean result
        ≡ dealt_last X.Expander.meaning G.Group.group (G.Group.mean payload) threshold (length rows.old.rows.now)
        (start G.Group.group roots.zero roots.one) }
    ensures same { rows.new.rows.ghost_name ≡ rows.old.rows.ghost_name }
{
    let count = rows.count();
    let mut at = Descent::begin(roots);
    // Stays: a `zip` with the reversed range was tried; its proof didn't close: after that loop nothing is known of the rows
    // but their number, as after each adapter of `iter_mut` save `enumerate`.
    for (i, row) in rows.rows.iter_mut().enumerate() {
        let bit = bit_at(threshold, count - 1 - i);
        let b0 = expander.branch(at.seed0);
        let b1 = expander.branch(at.seed1);
        *row = at.row(expander, payload, bit, b0, b1);
        at = at.past(expander, bit, b0, b1, *row);
    }
    at.last(expander)
}
