// The key of a gate, in words.
use bodies::GateHead;
use console::{Stop, print_common, table};
use group::{Flags, Group, Quad};
use hextext::Hex;
use key::{KeyEnds, Row};
use keyform::{IntervalParts, ProductParts, read_interval, read_product, read_shift};
use refusal::Refusal;
use std::{fmt, io};
use stored::StoredGroup;
use tables::blank;

// A comparison key: root, rows, final element.
fn print_compared<G: Group + fmt::Display>(
    rt: &HostRuntime,
    ends: &KeyEnds<G>,
    rows: &[Row<G>],
) -> io::Result<()> {
    let root = Hex(&ends.root.bytes);
    println!(rt; "root {root}")?;
    print_common(rt, rows, &ends.last)
}

// Stays: the memory is the caller's, who knows the group: the size of `[Row<G>; 32]` has no bound here.
fn print_interval_key<G: StoredGroup + fmt::Display>(
    rt: &HostRuntime,
    width: u8,
    key: &[u8],
    memory: &mut [Row<G>],
) -> Result<(), Stop> {
    let mut rows = table(memory, width);
    let parts: IntervalParts<G> = read_interval(key, &mut rows).ok_or(Refusal::BookBodies)?;
    print_compared(rt, &parts.ends, rows.as_slice())?;
    let payload = parts.payload;
    let extra = parts.extra;
    let mask = parts.out;
    println!(rt; "part payload {payload} extra {extra} mask {mask}")?;
    Ok(())
}

fn print_shift_key(rt: &HostRuntime, width: u8, by: u8, key: &[u8]) -> Result<(), Stop> {
    let mut low_memory = [blank(); 32];
    let mut high_memory = [blank(); 32];
    let mut low = table(&mut low_memory, by);
    let mut high = table(&mut high_memory, width);
    let parts = read_shift(key, &mut low, &mut high).ok_or(Refusal::BookBodies)?;
    print_compared(rt, &parts.low, low.as_slice())?;
    print_compared(rt, &parts.high, high.as_slice())?;
    let rest = parts.rest;
    println!(rt; "part rest {rest}")?;
    Ok(())
}

fn print_product_key(rt: &HostRuntime, key: &[u8]) -> Result<(), Stop> {
    let ProductParts { a, b, c } = read_product(key).ok_or(Refusal::BookBodies)?;
    println!(rt; "part a {a} b {b} c {c}")?;
    Ok(())
}

// The lines of a gate's key.
pub fn print_key(rt: &HostRuntime, width: u8, gate: GateHead, key: &[u8]) -> Result<(), Stop> {
    match gate {
        GateHead::Product { .. } => print_product_key(rt, key),
        GateHead::Piece { .. } => print_interval_key::<Quad>(rt, width, key, &mut [blank(); 32]),
        GateHead::Flag { .. } => print_interval_key::<Flags>(rt, width, key, &mut [blank(); 32]),
        GateHead::Shift { s, .. } | GateHead::SignedShift { s, .. } => print_shift_key(
            rt, width, s, key,
        ),
        _ => Ok(()),
    }
}
