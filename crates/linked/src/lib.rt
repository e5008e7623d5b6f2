// A box that holds a dealt book takes the steps that the laws over runs speak of.
#![tactic(auto)]

ghost use Rattle.linked.specs.Linked.{BoxesAreLinked};

pub fn dealt_boxes_step() -> u8
    ensures { BoxesAreLinked }
{
    0
}
