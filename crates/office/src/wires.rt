// What a book says of one wire, in words.
use crate::keys::print_key;
use bodies::{GateHead, WireBody, key_in};
use console::Stop;
use std::{fmt, io};

// A gate's name and the wires that it reads.
#[derive(Clone, Copy)]
struct Named(GateHead);

impl fmt::Display for Named {
    fn fmt<W: fmt::Write>(&self, f: &mut fmt::Formatter<W>) -> fmt::Result {
        match self.0 {
            GateHead::Sum { a, b } => write!(f, "sum reads {a} {b}"),
            GateHead::Scale { a, .. } => write!(f, "scale reads {a}"),
            GateHead::Product { a, b } => write!(f, "product reads {a} {b}"),
            GateHead::Piece { a, .. } => write!(f, "piece reads {a}"),
            GateHead::Flag { a, .. } => write!(f, "flag reads {a}"),
            GateHead::Shift { a, .. } => write!(f, "shift reads {a}"),
            GateHead::SignedShift { a, .. } => write!(f, "signed reads {a}"),
            GateHead::Xor { a, b } => write!(f, "xor reads {a} {b}"),
        }
    }
}

// A gate's parameters, where it has any.
#[derive(Clone, Copy)]
struct Parameters(GateHead);

impl fmt::Display for Parameters {
    fn fmt<W: fmt::Write>(&self, f: &mut fmt::Formatter<W>) -> fmt::Result {
        match self.0 {
            GateHead::Scale { c, d, .. } => write!(f, " c {c} d {d}"),
            GateHead::Piece { p, q, .. } | GateHead::Flag { p, q, .. } => write!(f, " p {p} q {q}"),
            GateHead::Shift { s, .. } | GateHead::SignedShift { s, .. } => write!(f, " by {s}"),
            _ => Ok(()),
        }
    }
}

// The mask of a shown wire.
#[derive(Clone, Copy)]
struct Seen(Option<u32>);

impl fmt::Display for Seen {
    fn fmt<W: fmt::Write>(&self, f: &mut fmt::Formatter<W>) -> fmt::Result {
        match self.0 {
            None => f.write_str("hidden"),
            Some(mask) => write!(f, "shown mask {mask}"),
        }
    }
}

fn print_input(rt: &HostRuntime, owner: u8, mask: Option<u32>) -> io::Result<()> {
    match mask {
        None => println!(rt; "input owner {owner}"),
        Some(mask) => println!(rt; "input owner {owner} mask {mask}"),
    }
}

// One wire of a book: the book's width, the wire's body, and whether the lines of its key are said too.
#[derive(Clone, Copy)]
pub struct Wire<'a> {
    pub rt: &'a HostRuntime,
    pub width: u8,
    pub body: &'a [u8],
    pub whole: bool,
}

impl Wire<'_> {
    fn print_gate(self, shown: Option<u32>, gate: GateHead) -> Result<(), Stop> {
        let rt = self.rt;
        let key = key_in(self.body, gate);
        let named = Named(gate);
        let seen = Seen(shown);
        let parameters = Parameters(gate);
        print!(rt; "{named} {seen}{parameters}")?;
        if key.is_empty() {
            println!(rt)?;
            return Ok(());
        }
        let long = key.len();
        println!(rt; " key {long}")?;
        if self.whole {
            print_key(rt, self.width, gate, key)?;
        }
        Ok(())
    }

    // The rest of the wire's line, and the lines of its key.
    pub fn print(self, says: Option<WireBody>) -> Result<(), Stop> {
        match says {
            None => println!(self.rt; "nothing known")?,
            Some(WireBody::Input { owner, mask }) => print_input(self.rt, owner, mask)?,
            Some(WireBody::Gate { shown, gate }) => self.print_gate(shown, gate)?,
        }
        Ok(())
    }
}
