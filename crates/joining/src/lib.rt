// Joining both boxes' answers. The law that they join to the comparison function stands in proofs/.
#![tactic(auto)]

ghost use Rattle.std.specs.Prelude.{◌≡◌};

use group::Group;

pub fn join<G: Group>(answer0: G, answer1: G) -> G
    ensures { G.Group.mean result ≡ G.Group.group.sum (G.Group.mean answer0) (G.Group.mean answer1) }
{
    answer0.add(answer1)
}
