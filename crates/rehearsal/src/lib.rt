// What every list of calls at two boxes with the books of a deal keeps: the law behind the pair.
#![tactic(auto)]

ghost use Rattle.rehearsal.specs.Rehearsed.{RehearsalsStand};

pub fn rehearsals_stand() -> u8
    ensures { RehearsalsStand }
{
    0
}
