// Solvers for proofs: equations modulo N, over the numbers, and in any commutative group. They stand in proofs/.
#![tactic(auto)]

ghost use Rattle.algebra.specs.Laws.{SquareOfDifference, DifferencesAdd};

use group::Group;

// One law from each solver holds.
pub fn laws_hold<G: Group>() -> u8
    ensures square { SquareOfDifference }
    ensures differences { DifferencesAdd G.Group.group }
{
    0
}
