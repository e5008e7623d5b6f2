// The key of a gate: comparison keys and what follows them. Every question is asked before the first row is written.
ghost use Rattle.std.specs.Prelude.{◌≡◌, ◌+◌, ◌-◌, ◌*◌, ◌^◌, ◌≤◌, min, length, Decides, MatchOption};
ghost use Rattle.buffers.specs.Forms.{Put, Room};
ghost use Rattle.layout.specs.Wires.{interval_bytes};
ghost use Rattle.keyform.specs.Forms.{word_form};
ghost use Rattle.keyform.specs.GateKeys.{TailIn, TailRead, IntervalIn, IntervalOrKept, interval_key};
ghost use Rattle.keyform.specs.GateKeys.{TwoIn, TwoRead, ShiftIn, ShiftOrKept, low_key, high_key, two_keys_bytes};
ghost use Rattle.keyform.specs.GateKeys.{ProductIn, three_numbers};

use crate::reading::{key_fits, read_key, read_last, row_size};
use crate::writing::{put_element, put_key};
use buffers::Writer;
use group::{Flags, Group, Word};
use key::{KeyEnds, Row, Rows};
use stored::StoredGroup;

// A key of an interval gate, but for its rows, which stand in the caller's table.
#[derive(Clone, Copy)]
pub struct IntervalParts<G> {
    pub ends: KeyEnds<G>,
    pub payload: G,
    pub extra: G,
    pub out: u32,
}

// A key of a shift, but for its rows.
#[derive(Clone, Copy)]
pub struct ShiftParts<G> {
    pub low: KeyEnds<G>,
    pub high: KeyEnds<G>,
    pub rest: u32,
}

// A product's key.
#[derive(Clone, Copy)]
pub struct ProductParts {
    pub a: u32,
    pub b: u32,
    pub c: u32,
}

// Writing.

pub fn put_interval<G: StoredGroup>(writer: &mut Writer, parts: IntervalParts<G>, rows: &[Row<G>])
    requires { Room writer.old (interval_bytes G.StoredGroup.form
        (interval_key rows.now parts) parts.payload parts.extra parts.out) }
    ensures { Put writer.old (interval_bytes G.StoredGroup.form
        (interval_key rows.now parts) parts.payload parts.extra parts.out) writer.new }
{
    put_key(writer, parts.ends, rows);
    put_element(writer, parts.payload);
    put_element(writer, parts.extra);
    writer.put_number(parts.out);
}

pub fn put_shift<G: StoredGroup>(
    writer: &mut Writer,
    parts: ShiftParts<G>,
    low: &[Row<G>],
    high: &[Row<G>],
)
    requires { Room writer.old (two_keys_bytes G.StoredGroup.form
        (low_key low.now parts) (high_key high.now parts) parts.rest) }
    ensures { Put writer.old (two_keys_bytes G.StoredGroup.form
        (low_key low.now parts) (high_key high.now parts) parts.rest) writer.new }
{
    put_key(writer, parts.low, low);
    put_key(writer, parts.high, high);
    writer.put_number(parts.rest);
}

pub fn put_product(writer: &mut Writer, parts: ProductParts)
    requires { Room writer.old (three_numbers parts.a parts.b parts.c) }
    ensures { Put writer.old (three_numbers parts.a parts.b parts.c) writer.new }
{
    writer.put_number(parts.a);
    writer.put_number(parts.b);
    writer.put_number(parts.c);
}

// Reading.

// What stands before payload part, E part and mask part at the end of these bytes, and these three, or `None` where
// none end them.
fn read_tail<G: StoredGroup>(bytes: &[u8]) -> Option<(&[u8], G, G, u32)>
    ensures { MatchOption result (TailIn G.StoredGroup.form bytes.now → ⊥)
        (λ t. TailRead G.StoredGroup.form bytes.now t.0.now t.1 t.2 t.3) }
{
    let (elements, out) = read_last::<Flags>(bytes)?;
    let (keyed, extra) = read_last(elements)?;
    let (key, payload) = read_last(keyed)?;
    Some((key, payload, extra, out.0))
}

// Does a key of an interval gate with so many rows have these bytes?
pub fn interval_fits<G: StoredGroup>(bytes: &[u8], count: usize) -> bool
    ensures { Decides result (IntervalIn G.StoredGroup.form count bytes.now) }
{
    read_tail::<G>(bytes).is_some_and(|(key, ..)| key_fits::<G>(key, count))
}

// Reads the key of an interval gate, of as many rows as the table has. Where no key has these bytes the table stays.
pub fn read_interval<G: StoredGroup>(bytes: &[u8], rows: &mut Rows<G>) -> Option<IntervalParts<G>>
    ensures read { IntervalOrKept G.StoredGroup.form bytes.now
        rows.old.rows.now rows.new.rows.now result }
    ensures same { rows.new.rows.ghost_name ≡ rows.old.rows.ghost_name }
{
    let (key, payload, extra, out) = read_tail(bytes)?;
    let ends = read_key(key, rows)?;
    Some(IntervalParts {
        ends,
        payload,
        extra,
        out,
    })
}

// How many bytes a comparison key in words has.
fn word_key_size(count: usize) -> usize
    ensures { result ≡ min (16 + count * 25 + 8) (2 ^ 64 - 1) }
{
    count
        .saturating_mul(row_size::<Word>())
        .saturating_add(16 + Word::size_of())
}

// The bytes of two comparison keys in words, with so many rows, or `None` where no keys have these bytes.
// Stays: both counts of rows beside the bytes; a struct of two counts would be made at each call and taken apart here.
fn two_keys(bytes: &[u8], low: usize, high: usize) -> Option<(&[u8], &[u8])>
    ensures { MatchOption result (TwoIn word_form low high bytes.now → ⊥)
        (λ t. TwoRead word_form low high bytes.now t.0.now t.1.now) }
{
    let (first, second) = bytes.split_at_checked(word_key_size(low))?;
    (key_fits::<Word>(first, low) && key_fits::<Word>(second, high)).then_some((first, second))
}

// Do two comparison keys in words, with so many rows, have these bytes?
fn two_keys_fit(bytes: &[u8], low: usize, high: usize) -> bool
    ensures { Decides result (TwoIn word_form low high bytes.now) }
{
    two_keys(bytes, low, high).is_some()
}

// Does a key of a shift with so many rows have these bytes?
pub fn shift_fits(bytes: &[u8], low: usize, high: usize) -> bool
    ensures { Decides result (ShiftIn word_form low high bytes.now) }
{
    read_last::<Flags>(bytes).is_some_and(|(keys, _)| two_keys_fit(keys, low, high))
}

// Reads the key of a shift, whose comparison keys have as many rows as their tables. Where no key has these bytes both
// tables stay.
pub fn read_shift(
    bytes: &[u8],
    low: &mut Rows<Word>,
    high: &mut Rows<Word>,
) -> Option<ShiftParts<Word>>
    ensures read { ShiftOrKept word_form bytes.now
        low.old.rows.now high.old.rows.now low.new.rows.now high.new.rows.now result }
    ensures same_low { low.new.rows.ghost_name ≡ low.old.rows.ghost_name }
    ensures same_high { high.new.rows.ghost_name ≡ high.old.rows.ghost_name }
{
    let (keys, rest) = read_last::<Flags>(bytes)?;
    let (first, second) = two_keys(keys, low.count(), high.count())?;
    let low = read_key(first, low)?;
    let high = read_key(second, high)?;
    let rest = rest.0;
    Some(ShiftParts { low, high, rest })
}

// Reads the key of a product.
pub fn read_product(bytes: &[u8]) -> Option<ProductParts>
    ensures { MatchOption result (ProductIn bytes.now → ⊥)
        (λ p. three_numbers p.a p.b p.c ≡ bytes.now) }
{
    let (two, c) = read_last::<Flags>(bytes)?;
    let (one, b) = read_last::<Flags>(two)?;
    let a = Flags::read(one)?;
    Some(ProductParts {
        a: a.0,
        b: b.0,
        c: c.0,
    })
}
