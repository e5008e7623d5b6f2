// Orders about gates: dealing one, and holding values at it.
ghost use Rattle.std.specs.Prelude.{◌≡◌};
ghost use Rattle.console.specs.Local.{local_mask};

use crate::kinds::{Task, with_expander};
use crate::show::{print_common, table};
use crate::stop::Stop;
use expander::Expander;
use gatekeys::{ProductGate, ShiftGate, Sign};
use gates::{
    GateAnswers, IntervalGate, Shared, ShiftRows, deal_interval, deal_product, deal_shift,
    interval_gate, product_gate, shift_gate,
};
use group::{Group, Word, low_half};
use hextext::Hex;
use jobs::{Job, LocalJob, job_of};
use key::{BoxNumber, Row};
use keyform::{IntervalParts, ProductParts, ShiftParts};
use masking::{Masked, Reading, xor};
use orders::GateOrder;
use plain::{
    plain_flag, plain_piece, plain_product, plain_scale, plain_shift, plain_signed_shift,
    plain_sum, plain_xor,
};
use refusal::Refusal;
use std::{fmt, io};
use tables::blank;

fn print_mask(rt: &HostRuntime, mask: u32) -> io::Result<()> {
    println!(rt; "mask {mask}")
}

// One box's part of an interval gate's key.
// Stays: a box is printed as its number here and below; a `Display` of `BoxNumber` would be no plainer than the two
// literals.
fn print_interval_parts<G: Group + fmt::Display>(
    rt: &HostRuntime,
    number: u8,
    parts: &IntervalParts<G>,
) -> io::Result<()> {
    let root = Hex(&parts.ends.root.bytes);
    let payload = parts.payload;
    let extra = parts.extra;
    let out = parts.out;
    println!(rt; "box {number} root {root} payload {payload} extra {extra} mask {out}")
}

// Stays: the memory is the caller's, who knows the group: the size of `[Row<G>; 32]` has no bound here.
fn deal_interval_gate<X: Expander, G: Shared + fmt::Display, T: IntervalGate<G>>(
    rt: &HostRuntime,
    expander: &X,
    gate: &T,
    memory: &mut [Row<G>],
) -> Result<(), Stop> {
    let mut rows = table(memory, gate.deal().interval.width().bits());
    let zero = deal_interval(expander, BoxNumber::Zero, gate, &mut rows)?.parts();
    let one = deal_interval(expander, BoxNumber::One, gate, &mut rows)?.parts();
    print_common(rt, rows.as_slice(), &zero.ends.last)?;
    print_interval_parts(rt, 0, &zero)?;
    print_interval_parts(rt, 1, &one)?;
    Ok(())
}

fn print_shift_parts(rt: &HostRuntime, number: u8, parts: &ShiftParts<Word>) -> io::Result<()> {
    let low = Hex(&parts.low.root.bytes);
    let high = Hex(&parts.high.root.bytes);
    let rest = parts.rest;
    println!(rt; "box {number} low {low} high {high} rest {rest}")
}

fn deal_shift_gate<X: Expander>(
    rt: &HostRuntime,
    expander: &X,
    gate: &ShiftGate,
) -> Result<(), Stop> {
    let mut low_memory = [blank(); 32];
    let mut high_memory = [blank(); 32];
    let mut low = table(&mut low_memory, gate.shift.by());
    let mut high = table(&mut high_memory, gate.shift.width().bits());
    let rows0 = ShiftRows {
        low: &mut low,
        high: &mut high,
    };
    let zero = deal_shift(expander, BoxNumber::Zero, gate, rows0)?.parts();
    let rows1 = ShiftRows {
        low: &mut low,
        high: &mut high,
    };
    let one = deal_shift(expander, BoxNumber::One, gate, rows1)?.parts();
    print_common(rt, low.as_slice(), &zero.low.last)?;
    print_common(rt, high.as_slice(), &zero.high.last)?;
    print_shift_parts(rt, 0, &zero)?;
    print_shift_parts(rt, 1, &one)?;
    Ok(())
}

fn print_product_parts(rt: &HostRuntime, number: u8, parts: ProductParts) -> io::Result<()> {
    let ProductParts { a, b, c } = parts;
    println!(rt; "box {number} a {a} b {b} c {c}")
}

fn deal_product_gate(rt: &HostRuntime, gate: &ProductGate) -> Result<(), Stop> {
    print_product_parts(rt, 0, deal_product(BoxNumber::Zero, gate).parts())?;
    print_product_parts(rt, 1, deal_product(BoxNumber::One, gate).parts())?;
    Ok(())
}

// The mask of a local gate's output.
fn local_mask(job: LocalJob) -> u32
    ensures { result ≡ local_mask job }
{
    match job {
        LocalJob::Sum { width, mask, mask2 } => width.sum(mask, mask2),
        LocalJob::Scale { width, mask, c, .. } => width.scale_mask(c, mask),
        LocalJob::Xor { mask, mask2, .. } => xor(mask, mask2),
    }
}

// To deal a gate at both boxes.
#[derive(Clone, Copy)]
struct Dealing<'a> {
    rt: &'a HostRuntime,
    job: Job,
}

impl Task for Dealing<'_> {
    type Done = Result<(), Stop>;

    fn run<X: Expander>(self, expander: &X) -> Result<(), Stop> {
        let rt = self.rt;
        match self.job {
            Job::Piece(gate) => {
                print_mask(rt, gate.interval.width().reduce(gate.words[0]))?;
                deal_interval_gate(rt, expander, &gate, &mut [blank(); 32])
            }
            Job::Flag(gate) => {
                print_mask(rt, low_half(gate.words[0]))?;
                deal_interval_gate(rt, expander, &gate, &mut [blank(); 32])
            }
            Job::Shift(gate) => {
                print_mask(rt, gate.shift.width().reduce(gate.words[0]))?;
                deal_shift_gate(rt, expander, &gate)
            }
            Job::Product(gate) => {
                print_mask(rt, gate.width.reduce(gate.words[0]))?;
                deal_product_gate(rt, &gate)
            }
            Job::Local(job) => {
                print_mask(rt, local_mask(job))?;
                Ok(())
            }
        }
    }
}

// Deals a gate at both boxes and prints what each is given.
// Stays: as `key_jobs::deal` hands a key's task on, this hands a gate's; what they share is `with_expander`.
pub fn deal(rt: &HostRuntime, order: &GateOrder) -> Result<(), Stop> {
    let job = job_of(order)?;
    with_expander(order.kind, Dealing { rt, job })
}

// One held value or two.
#[derive(Clone, Copy)]
struct Held(u32, Option<u32>);

impl fmt::Display for Held {
    fn fmt<W: fmt::Write>(&self, f: &mut fmt::Formatter<W>) -> fmt::Result {
        let m = self.0;
        match self.1 {
            None => write!(f, "{m}"),
            Some(k) => write!(f, "{m} {k}"),
        }
    }
}

// To work a gate at held values, at both boxes.
#[derive(Clone, Copy)]
struct Holding<'a> {
    rt: &'a HostRuntime,
    job: Job,
    held: Held,
}

impl Holding<'_> {
    fn print_answers(self, answers: GateAnswers, plain: Reading) -> Result<(), Stop> {
        let held = self.held;
        let zero = answers.share0.0;
        let one = answers.share1.0;
        let joined = answers.held.0;
        let value = plain.0;
        println!(self.rt; "held {held} box0 {zero} box1 {one} join {joined} plain {value}")?;
        Ok(())
    }

    fn print_local(self, joined: u32, plain: Reading) -> Result<(), Stop> {
        let held = self.held;
        let value = plain.0;
        println!(self.rt; "held {held} join {joined} plain {value}")?;
        Ok(())
    }

    // A gate on one interval, by its meaning on a plain value.
    // Stays: the memory is the caller's, who knows the group: the size of `[Row<G>; 32]` has no bound here.
    fn interval<X: Expander, G: Shared, T: IntervalGate<G>, F: FnOnce(Reading) -> Reading>(
        self,
        expander: &X,
        gate: &T,
        meaning: F,
        memory0: &mut [Row<G>],
        memory1: &mut [Row<G>],
    ) -> Result<(), Stop>
        requires { F.IsAlwaysCallable meaning }
    {
        let m = Masked(self.held.0);
        let deal = gate.deal();
        let width = deal.interval.width();
        let mut rows0 = table(memory0, width.bits());
        let mut rows1 = table(memory1, width.bits());
        let answers = interval_gate(
            expander, expander, expander, gate, &mut rows0, &mut rows1, m,
        )?;
        self.print_answers(answers, meaning(m.unmask(width, deal.mask)))
    }

    fn shift<X: Expander>(self, expander: &X, gate: &ShiftGate) -> Result<(), Stop> {
        let m = Masked(self.held.0);
        let mut low0 = [blank(); 32];
        let mut high0 = [blank(); 32];
        let mut low1 = [blank(); 32];
        let mut high1 = [blank(); 32];
        let by = gate.shift.by();
        let bits = gate.shift.width().bits();
        let rows0 = ShiftRows {
            low: &mut table(&mut low0, by),
            high: &mut table(&mut high0, bits),
        };
        let rows1 = ShiftRows {
            low: &mut table(&mut low1, by),
            high: &mut table(&mut high1, bits),
        };
        let answers = shift_gate(expander, expander, expander, gate, rows0, rows1, m)?;
        let v = m.unmask(gate.shift.width(), gate.mask);
        let plain = match gate.sign {
            Sign::Unsigned => plain_shift(gate.shift, v),
            Sign::Signed => plain_signed_shift(gate.shift, v),
        };
        self.print_answers(answers, plain)
    }

    fn product(self, gate: &ProductGate, k: u32) -> Result<(), Stop> {
        let m = Masked(self.held.0);
        let k = Masked(k);
        let answers = product_gate(gate, m, k)?;
        let v = m.unmask(gate.width, gate.mask_a);
        let w = k.unmask(gate.width, gate.mask_b);
        self.print_answers(answers, plain_product(gate.width, v, w))
    }
}

impl Task for Holding<'_> {
    type Done = Result<(), Stop>;

    fn run<X: Expander>(self, expander: &X) -> Result<(), Stop> {
        let Held(m, k) = self.held;
        match (self.job, k) {
            (Job::Piece(gate), None) => self.interval(
                expander,
                &gate,
                move |v| plain_piece(gate.interval, gate.coefficients, v),
                &mut [blank(); 32],
                &mut [blank(); 32],
            ),
            (Job::Flag(gate), None) => self.interval(
                expander,
                &gate,
                move |v| plain_flag(gate.interval, gate.pattern, v),
                &mut [blank(); 32],
                &mut [blank(); 32],
            ),
            (Job::Shift(gate), None) => self.shift(expander, &gate),
            (Job::Local(LocalJob::Scale { width, mask, c, d }), None) => {
                Refusal::ask(width.has(m), Refusal::KeyRange)?;
                let v = Masked(m).unmask(width, mask);
                self.print_local(width.scale(c, d, m), plain_scale(width, c, d, v))
            }
            (Job::Product(gate), Some(k)) => self.product(&gate, k),
            (Job::Local(LocalJob::Sum { width, mask, mask2 }), Some(k)) => {
                Refusal::ask(width.has(m) && width.has(k), Refusal::KeyRange)?;
                let v = Masked(m).unmask(width, mask);
                let w = Masked(k).unmask(width, mask2);
                self.print_local(width.sum(m, k), plain_sum(width, v, w))
            }
            (Job::Local(LocalJob::Xor { mask, mask2, .. }), Some(k)) => {
                let v = Reading(xor(m, mask));
                let w = Reading(xor(k, mask2));
                self.print_local(xor(m, k), plain_xor(v, w))
            }
            (_, None) => Err(Stop::Cannot("the gate reads two values")),
            (_, Some(_)) => Err(Stop::Cannot("the gate reads one value")),
        }
    }
}

// Works a gate at held values, at both boxes, and prints both shares, the join and the plain meaning beside it.
pub fn hold(rt: &HostRuntime, order: &GateOrder, m: u32, k: Option<u32>) -> Result<(), Stop> {
    let job = job_of(order)?;
    let held = Held(m, k);
    with_expander(order.kind, Holding { rt, job, held })
}
