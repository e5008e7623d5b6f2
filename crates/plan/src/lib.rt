// Plans: a width, inputs with an owner, and gates; and the questions that are asked about one.
#![tactic(auto)]

ghost use Rattle.std.specs.Prelude.{◌≡◌, ◌<◌, ◌≤◌, cond, nat_lt};
ghost use Rattle.plan.specs.Plans.{stated, wires, wire_at, is_flag, wire_words};
ghost use Rattle.plan.specs.Order.{SmallerIsTold};

mod asking;
mod checked;
mod gates;
mod lengths;

pub use asking::check_plan;
pub use checked::CheckedPlan;
pub use gates::{
    Gate, GateBody, GateHead, GateKind, UnknownKind, Wires, below, interval_fits, shift_fits,
};
pub use lengths::compared_long;

// One gate of a plan, and whether its wire is shown.
#[derive(Clone, Copy)]
pub struct PlanRow {
    pub shown: bool,
    pub body: GateBody,
}

// Wires count the inputs first, then the gates.
// Stays: a struct that is copied has no model where it has a lifetime; clauses say `stated`.
// Stays: owners are bytes, since any byte is asked about (question 3), and a book writes them as they are.
#[derive(Clone, Copy)]
pub struct Plan<'a> {
    pub width: u8,
    pub owners: &'a [u8],
    pub rows: &'a [PlanRow],
}

// One wire of a plan.
#[derive(Clone, Copy)]
pub enum PlanWire {
    Input { owner: u8 },
    Gate(PlanRow),
}

impl<'a> Plan<'a> {
    // How many wires there are.
    pub fn wires(self) -> usize
        ensures { result ≡ wires (stated self.entry) }
    {
        self.owners.len() + self.rows.len()
    }

    // Wire k, where the plan has one.
    pub fn get(self, k: usize) -> Option<PlanWire>
        ensures { result ≡ cond (nat_lt k (wires (stated self.entry))) (Some (wire_at (stated self.entry) k)) None }
    {
        let inputs = self.owners.len();
        if k < inputs {
            Some(PlanWire::Input {
                owner: self.owners[k],
            })
        } else {
            self.rows.get(k - inputs).map(|row| PlanWire::Gate(*row))
        }
    }

    // Wire k, which the plan has.
    pub fn wire(self, k: usize) -> PlanWire
        requires { k < wires (stated self) }
        ensures { result ≡ wire_at (stated self.entry) k }
    {
        self.get(k).unwrap()
    }
}

impl<'a> Wires for Plan<'a> {
    ghost flags = { λ plan k. is_flag (stated plan) k };

    fn is_flag(&self, wire: usize) -> bool {
        match self.get(wire) {
            Some(PlanWire::Gate(row)) => row.body.gives_flag(),
            _ => false,
        }
    }
}

impl PlanWire {
    // How many random words the wire takes.
    pub fn words(self) -> usize
        ensures count { result ≡ wire_words self }
        ensures few { result ≤ 14 }
    {
        match self {
            PlanWire::Input { .. } => 1,
            PlanWire::Gate(row) => row.body.words(),
        }
    }
}

// A scale by N − 1, a sum and a flag on N/2 to N − 1 tell which of two values counts as smaller.
pub fn smaller_is_told() -> u8
    ensures { SmallerIsTold }
{
    0
}
