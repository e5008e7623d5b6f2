// Orders about comparison keys.
ghost use Rattle.std.specs.Prelude.{◌≡◌};

use crate::kinds::{Task, with_expander};
use crate::show::{print_common, table};
use crate::stop::Stop;
use comparison::{compare, deal_key};
use expander::Expander;
use group::{Flags, Group, Pair, Quad, Word};
use key::{Roots, Row, Rows};
use orders::{DealOrder, Payload};
use std::fmt;
use tables::blank;

fn roots_of(order: &DealOrder) -> Roots
    ensures { (result.zero ≡ order.now.root0) × (result.one ≡ order.now.root1) }
{
    Roots {
        zero: order.root0,
        one: order.root1,
    }
}

// What is done with a key's order, whatever its expander and its group.
trait KeyTask: Copy {
    fn run<X: Expander, G: Group + fmt::Display>(
        self,
        rt: &HostRuntime,
        expander: &X,
        order: &DealOrder,
        payload: G,
        rows: &mut Rows<G>,
    ) -> Result<(), Stop>;
}

// Deals the key, and prints its rows and its final element.
#[derive(Clone, Copy)]
struct Dealing;

impl KeyTask for Dealing {
    fn run<X: Expander, G: Group + fmt::Display>(
        self,
        rt: &HostRuntime,
        expander: &X,
        order: &DealOrder,
        payload: G,
        rows: &mut Rows<G>,
    ) -> Result<(), Stop> {
        let last = deal_key(
            expander,
            order.width,
            order.threshold,
            payload,
            roots_of(order),
            rows,
        )?;
        print_common(rt, rows.as_slice(), &last)?;
        Ok(())
    }
}

// Compares a point with the key's threshold, through both boxes, and prints the answers.
#[derive(Clone, Copy)]
struct Comparing {
    point: u32,
}

impl KeyTask for Comparing {
    fn run<X: Expander, G: Group + fmt::Display>(
        self,
        rt: &HostRuntime,
        expander: &X,
        order: &DealOrder,
        payload: G,
        rows: &mut Rows<G>,
    ) -> Result<(), Stop> {
        let point = self.point;
        let answers = compare(
            expander,
            expander,
            expander,
            order.width,
            order.threshold,
            payload,
            roots_of(order),
            rows,
            point,
        )?;
        let zero = answers.answer0;
        let one = answers.answer1;
        let joined = answers.joined;
        println!(rt; "point {point} box0 {zero} box1 {one} join {joined}")?;
        Ok(())
    }
}

// A task on a key that waits for the key's expander.
#[derive(Clone, Copy)]
struct OnKey<'a, T> {
    rt: &'a HostRuntime,
    order: &'a DealOrder,
    task: T,
}

impl<T: KeyTask> OnKey<'_, T> {
    // Stays: the memory is the caller's, who knows the group: the size of `[Row<G>; 32]` has no bound here.
    fn with<X: Expander, G: Group + fmt::Display>(
        self,
        expander: &X,
        payload: G,
        memory: &mut [Row<G>],
    ) -> Result<(), Stop> {
        let mut rows = table(memory, self.order.width);
        self.task
            .run(self.rt, expander, self.order, payload, &mut rows)
    }
}

impl<T: KeyTask> Task for OnKey<'_, T> {
    type Done = Result<(), Stop>;

    fn run<X: Expander>(self, expander: &X) -> Result<(), Stop> {
        match self.order.payload {
            Payload::Words(a) => self.with(expander, Word(a), &mut [blank(); 32]),
            Payload::Flags(a) => self.with(expander, Flags(a), &mut [blank(); 32]),
            Payload::Pair(a, b) => {
                let left = Word(a);
                let right = Flags(b);
                self.with(expander, Pair { left, right }, &mut [blank(); 32])
            }
            Payload::Quad(a, b, c, d) => {
                let quad = Quad::from([a, b, c, d]);
                self.with(expander, quad, &mut [blank(); 32])
            }
        }
    }
}

// Deals a key and prints what is dealt.
pub fn deal(rt: &HostRuntime, order: &DealOrder) -> Result<(), Stop> {
    let task = Dealing;
    with_expander(order.kind, OnKey { rt, order, task })
}

// Prints both boxes' answers at a point, and what they join to.
pub fn answer_at(rt: &HostRuntime, order: &DealOrder, point: u32) -> Result<(), Stop> {
    let task = Comparing { point };
    with_expander(order.kind, OnKey { rt, order, task })
}
