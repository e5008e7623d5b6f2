// Laws over whole runs of two boxes: definitions in specs/, proofs in proofs/.
#![tactic(auto)]

ghost use Rattle.runs.specs.Theorem.{ShownValuesStand, CountsStand, MessagesStand, RoundsFill, RoundsRun};

pub fn shown_values_stand() -> u8
    ensures { ShownValuesStand }
{
    0
}

pub fn rounds_fill() -> u8
    ensures { RoundsFill }
{
    0
}

pub fn counts_stand() -> u8
    ensures { CountsStand }
{
    0
}

pub fn rounds_run() -> u8
    ensures { RoundsRun }
{
    0
}

// Every message that an accepted send wrote is the masked value of the reading put, or the box's share of that gate.
pub fn messages_stand() -> u8
    ensures { MessagesStand }
{
    0
}
