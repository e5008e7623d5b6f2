// Plan jobs of the console: keeps the plan that is being read, deals its books, reads books, and says what is in them.
#![tactic(auto)]

ghost use Rattle.std.specs.Prelude.{◌≡◌, OnOk};
ghost use Rattle.planlines.specs.Grammar.{parsed};
ghost use Rattle.draft.specs.Drafts.{view, after};

use console::{Session, Stop, with_expander};
use draft::Draft;
use orders::{Kind, word_at};
use planlines::{PlanLine, fill_bytes, parse_plan_line};
use std::io;

mod books;
mod keys;
mod kinds;
mod wires;

use books::{DealBooks, read_and_print};
use kinds::kind_number;

// What is remembered: the plan that is being read, and what the console remembers of keys and gates.
#[derive(Drop)]
pub struct Office {
    draft: Draft,
    session: Session,
}

// Reads the book that a word writes in hex.
fn book_line(rt: &HostRuntime, kind: Kind, word: &[u8], bytes: usize) -> Result<(), Stop> {
    let mut book = vec![in rt.alloc(); 0u8; bytes]?;
    fill_bytes(word, book.as_mut_slice());
    read_and_print(rt, kind_number(kind), book.as_slice(), true)
}

impl Office {
    // Remembers nothing yet.
    pub fn new(rt: &HostRuntime) -> Office {
        Office {
            draft: Draft::new(rt.alloc()),
            session: Session::new(),
        }
    }

    // Says what a line asks for, where it can. What needs a plan cannot where none was begun.
    fn answer(&self, rt: &HostRuntime, line: &[u8], order: PlanLine) -> Result<(), Stop> {
        match order {
            PlanLine::Begin { .. } => Ok(()),
            PlanLine::Book { kind, bytes } => book_line(rt, kind, word_at(line, 3), bytes),
            _ if !self.draft.is_begun() => Err(Stop::Cannot("no plan was begun")),
            PlanLine::Gate(_) | PlanLine::Words { .. } => Ok(()),
            PlanLine::Books {
                kind,
                deal,
                room,
                whole,
            } => {
                let draft = &self.draft;
                with_expander(
                    kind,
                    DealBooks {
                        rt,
                        draft,
                        deal,
                        room,
                        whole,
                    },
                )
            }
        }
    }

    // Carries out one line, or says why not.
    pub fn perform(&mut self, rt: &HostRuntime, line: &[u8]) -> io::Result<()>
        ensures { OnOk result (view self.new.draft
            ≡ after line.now (parsed line.now) (view self.old.draft)) }
    {
        match parse_plan_line(line) {
            Err(fault) => Stop::Fault(fault).say(rt),
            Ok(None) => self.session.perform(rt, line),
            Ok(Some(order)) => {
                self.draft.follow(line, order)?;
                self.answer(rt, line, order).or_else(|stop| stop.say(rt))
            }
        }
    }
}

// Carries out every line of the input; whether there was one.
// Stays: `console` has the same five lines over its own; what they share is the library's fold.
pub fn run(rt: &HostRuntime) -> io::Result<bool> {
    let mut office = Office::new(rt);
    rt.lines(rt.alloc()).try_fold(false, |_, line| {
        office.perform(rt, line?.as_bytes())?;
        Ok(true)
    })
}
