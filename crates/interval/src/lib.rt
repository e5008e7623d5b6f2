// The interval rule: a payload inside an interval of plain values, from a comparison key on held ones.
#![tactic(auto)]

ghost use Rattle.interval.specs.Interval.{ExtraCount, ExtraTaken, IntervalJoins};

use group::Group;

// Both boxes' answers join to the payload inside the interval and to zero outside; the extra is the payload exactly
// when the interval goes to the last number.
pub fn interval_joins<G: Group>() -> u8
    ensures joins { IntervalJoins G.Group.group }
    ensures extra { ExtraTaken G.Group.group }
    ensures count { ExtraCount }
{
    0
}
