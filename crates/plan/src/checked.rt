// A plan that passed its questions, so that nothing past them need ask again.
ghost use Rattle.plan.specs.Plans.{stated};
ghost use Rattle.plan.specs.Allowed.{Allowed};

use crate::{Plan, PlanWire, check_plan};
use masking::Width;
use refusal::Refusal;

#[derive(Clone, Copy)]
pub struct CheckedPlan<'a> {
    plan: Plan<'a>,
    pub ghost allowed: { Allowed (stated plan) },
}

impl<'a> CheckedPlan<'a> {
    ghost use Rattle.std.specs.Prelude.{◌≡◌, ◌<◌, ◌≤◌};
    ghost use Rattle.refusal.specs.Questions.{answered};
    ghost use Rattle.plan.specs.Plans.{wires, wire_at};
    ghost use Rattle.plan.specs.Questions.{plan_asks};
    ghost use Rattle.plan.specs.Checked.{checked_answer};

    // The questions 1 to 6 about a plan that is dealt to box `number` from so many random words.
    // Stays: the box is a byte, as in `check_plan`.
    pub fn new(plan: Plan<'a>, number: u8, words: usize) -> Result<CheckedPlan<'a>, Refusal>
        ensures { checked_answer result ≡ answered (plan_asks (stated plan.entry) number words) (stated plan.entry) }
    {
        check_plan(plan, number, words)?;
        Ok(CheckedPlan { plan })
    }

    pub fn plan(self) -> Plan<'a>
        ensures { stated result ≡ stated self.entry.plan }
    {
        let plan = self.plan;
        plan
    }

    pub fn width(self) -> Width
        ensures { result.bits ≡ self.entry.plan.width }
    {
        Width::new(self.plan.width).unwrap()
    }

    // How many wires there are.
    pub fn wires(self) -> usize
        ensures wires { result ≡ wires (stated self.entry.plan) }
        ensures few { result ≤ 48 }
    {
        self.plan.wires()
    }

    // Wire k, an input or a gate.
    pub fn wire(self, k: usize) -> PlanWire
        requires { k < wires (stated self.plan) }
        ensures { result ≡ wire_at (stated self.entry.plan) k }
    {
        self.plan.wire(k)
    }
}
