// The console: carries out orders, one a line, and prints their answers. docs/CONSOLE.md has the lines.
#![tactic(auto)]

ghost use Rattle.std.specs.Prelude.{◌≡◌, None};
ghost use Rattle.orders.specs.Grammar.{parsed};
ghost use Rattle.console.specs.Remembered.{KeptOr, KeyAfter, GateAfter};

use orders::{DealOrder, GateOrder, Order, parse};
use std::io;

mod gate_jobs;
mod key_jobs;
mod kinds;
mod show;
mod stop;

pub use kinds::{Task, with_expander};
pub use show::{print_common, table};
pub use stop::Stop;

// What a session remembers: the last key and the last gate that were dealt.
#[derive(Clone, Copy)]
pub struct Session {
    key: Option<DealOrder>,
    gate: Option<GateOrder>,
}

impl Session {
    // A session that remembers nothing yet.
    pub fn new() -> Session
        ensures { (result.key ≡ None) × (result.gate ≡ None) }
    {
        Session {
            key: None,
            gate: None,
        }
    }

    fn deal(&mut self, rt: &HostRuntime, order: DealOrder) -> Result<(), Stop>
        ensures key { KeptOr order self.old.key self.new.key }
        ensures gate { self.new.gate ≡ self.old.gate }
    {
        key_jobs::deal(rt, &order)?;
        self.key = Some(order);
        Ok(())
    }

    fn at(&self, rt: &HostRuntime, point: u32) -> Result<(), Stop> {
        let order = self.key.ok_or(Stop::Cannot("no key was dealt"))?;
        key_jobs::answer_at(rt, &order, point)
    }

    // Stays: as `deal`, of a gate; two lines on another field are no plainer as one function.
    fn gate(&mut self, rt: &HostRuntime, order: GateOrder) -> Result<(), Stop>
        ensures key { self.new.key ≡ self.old.key }
        ensures gate { KeptOr order self.old.gate self.new.gate }
    {
        gate_jobs::deal(rt, &order)?;
        self.gate = Some(order);
        Ok(())
    }

    fn hold(&self, rt: &HostRuntime, m: u32, k: Option<u32>) -> Result<(), Stop> {
        let order = self.gate.ok_or(Stop::Cannot("no gate was dealt"))?;
        gate_jobs::hold(rt, &order, m, k)
    }

    // Carries out one line, or says why not. Only a line that deals changes what is remembered.
    pub fn perform(&mut self, rt: &HostRuntime, line: &[u8]) -> io::Result<()>
        ensures key { KeyAfter (parsed line.now) self.old.key self.new.key }
        ensures gate { GateAfter (parsed line.now) self.old.gate self.new.gate }
    {
        let done = match parse(line) {
            Ok(Order::Nothing) => return Ok(()),
            Ok(Order::Deal(order)) => self.deal(rt, order),
            Ok(Order::At(point)) => self.at(rt, point),
            Ok(Order::Gate(order)) => self.gate(rt, order),
            Ok(Order::Hold(m, k)) => self.hold(rt, m, k),
            Err(fault) => Err(fault.into()),
        };
        done.or_else(|stop| stop.say(rt))
    }
}

// Carries out every line of the input; whether there was one.
// Stays: `office` has the same five lines over its own; what they share is the library's fold.
pub fn run(rt: &HostRuntime) -> io::Result<bool> {
    let mut session = Session::new();
    rt.lines(rt.alloc()).try_fold(false, |_, line| {
        session.perform(rt, line?.as_bytes())?;
        Ok(true)
    })
}
