// The body of a gate in a book: what is said before the key, and the key as it is dealt.
#![tactic(auto)]

ghost use Rattle.std.specs.Prelude.{◌≡◌, ◌≤◌, true, ◌++◌, length};
ghost use Rattle.stored.specs.Forms.{four_bytes};
ghost use Rattle.key.specs.Rows.{is_one};
ghost use Rattle.plan.specs.Gates.{number_of, kind_of};
ghost use Rattle.plan.specs.Plans.{words_of};
ghost use Rattle.plan.specs.Questions.{fields_fit, interval_fits, shift_fits};
ghost use Rattle.gatekeys.specs.Parameters.{interval_view, shift_view};
ghost use Rattle.gates.specs.Interval.{key_of, rows_of};
ghost use Rattle.gates.specs.Product.{dealt_product};
ghost use Rattle.layout.specs.Bytes.{front};
ghost use Rattle.layout.specs.Wires.{gate, wire_bytes, gate_key_bytes, mask_bytes};
ghost use Rattle.buffers.specs.Forms.{Put, Room};
ghost use Rattle.gatebytes.specs.Dealt.{dealt_gate};
ghost use Rattle.gatebytes.specs.Heads.{head_bytes, places, parameters, before_key};
ghost use Rattle.gatebytes.specs.Keyed.{parts_bytes, shift_gate_bytes, HasRoom, IsPut};

use buffers::Writer;
use expander::Expander;
use gatekeys::{FlagGate, Interval, PieceGate, ProductGate, Shift, ShiftGate, Sign};
use gates::{IntervalGate, Shared, ShiftRows, deal_interval, deal_product, deal_shift};
use group::{Flags, Group, Quad, Word};
use key::{BoxNumber, Row, Rows};
use keyform::{put_interval, put_product, put_shift};
use masking::Width;
use masks::{mask_in, words_from};
use plan::{GateBody, GateKind};
use stored::StoredGroup;
use tables::blank;

// A mask where it is given.
pub fn put_mask(writer: &mut Writer, mask: Option<u32>)
    requires { Room writer.old (mask_bytes mask) }
    ensures { Put writer.old (mask_bytes mask) writer.new }
{
    if let Some(mask) = mask {
        writer.put_number(mask);
    }
}

// Two numbers.
pub fn put_two(writer: &mut Writer, x: u32, y: u32)
    requires { Room writer.old (four_bytes x ++ four_bytes y) }
    ensures { Put writer.old (four_bytes x ++ four_bytes y) writer.new }
{
    writer.put_number(x);
    writer.put_number(y);
}

// Kind, the wires that are read, and the mask where the gate is shown.
fn put_head(writer: &mut Writer, kind: GateKind, a: u8, b: u8, shown: Option<u32>)
    requires { Room writer.old (head_bytes (number_of kind) a b shown) }
    ensures { Put writer.old (head_bytes (number_of kind) a b shown) writer.new }
{
    writer.put(&[kind.number(), a, b, u8::from(shown.is_some())]);
    put_mask(writer, shown);
}

// The wires that a gate reads: the second place holds 0 where it reads one.
fn places(body: GateBody) -> (u8, u8)
    ensures { result ≡ places body }
{
    match body {
        GateBody::Sum { a, b } | GateBody::Product { a, b } | GateBody::Xor { a, b } => (a, b),
        GateBody::Scale { a, .. }
        | GateBody::Piece { a, .. }
        | GateBody::Flag { a, .. }
        | GateBody::Shift { a, .. }
        | GateBody::SignedShift { a, .. } => (a, 0),
    }
}

// The numbers that a gate has beside the wires that it reads.
fn put_parameters(writer: &mut Writer, body: GateBody)
    requires { Room writer.old (parameters body) }
    ensures { Put writer.old (parameters body) writer.new }
{
    match body {
        GateBody::Sum { .. } | GateBody::Product { .. } | GateBody::Xor { .. } => {}
        GateBody::Scale { c, d, .. } => put_two(writer, c, d),
        GateBody::Piece { p, q, .. } | GateBody::Flag { p, q, .. } => put_two(writer, p, q),
        GateBody::Shift { s, .. } | GateBody::SignedShift { s, .. } => writer.put_byte(s),
    }
}

// The kind that a body is written with.
fn written_kind(body: GateBody) -> GateKind
    ensures { result ≡ kind_of body }
{
    body.kind()
}

// The head and the parameters.
fn put_before_key(writer: &mut Writer, shown: Option<u32>, body: GateBody)
    requires { Room writer.old (before_key shown body) }
    ensures { Put writer.old (before_key shown body) writer.new }
{
    let (a, b) = places(body);
    put_head(writer, written_kind(body), a, b, shown);
    put_parameters(writer, body);
}

// Parameters that question 5 has allowed.

fn interval_of(width: Width, p: u32, q: u32) -> Interval
    requires { interval_fits width.bits p q ≡ true }
    ensures { interval_view result ≡ (width.bits, p, q) }
{
    Interval::new(width, p, q).unwrap()
}

fn shift_of(width: Width, s: u8) -> Shift
    requires { shift_fits width.bits s ≡ true }
    ensures { shift_view result ≡ (width.bits, s) }
{
    Shift::new(width, s).unwrap()
}

// What a dealer has for every gate of a book: the box that the book is for, the width, and the masks of all wires.
#[derive(Drop)]
pub struct Dealer<'a, X> {
    pub expander: &'a X,
    pub number: BoxNumber,
    pub width: Width,
    pub masks: &'a [u32; 48],
}

impl<'a, X: Expander> Dealer<'a, X> {
    // The key of a gate on one interval. Its rows are dealt into this memory.
    // Stays: the memory is the caller's, who knows the group: the size of `[Row<G>; 32]` has no bound here.
    fn put_on_interval<G: Shared + StoredGroup, T: IntervalGate<G>>(
        &self,
        writer: &mut Writer,
        gate: &T,
        memory: &mut [Row<G>],
    )
        requires width { (T.deal gate.now).interval.width.bits ≡ self.now.width.bits }
        requires memory { 32 ≤ length memory.old }
        requires room { let n = self.now.width.bits in let d = T.deal gate.now in
            HasRoom G.StoredGroup.form G.Group.mean writer.old
            (key_of X.Expander.meaning G.Group.group G.Group.mean d self.now.number (T.out_part gate.now (is_one self.now.number)) n)
            (rows_of X.Expander.meaning G.Group.group G.Group.mean d n) }
        ensures { let n = self.now.width.bits in let d = T.deal gate.now in
            IsPut G.StoredGroup.form G.Group.mean writer.old
            (key_of X.Expander.meaning G.Group.group G.Group.mean d self.now.number (T.out_part gate.now (is_one self.now.number)) n)
            (rows_of X.Expander.meaning G.Group.group G.Group.mean d n) writer.new }
    {
        let mut rows = Rows::over(&mut memory[0..self.width.bits() as usize]);
        let key = deal_interval(self.expander, self.number, gate, &mut rows).unwrap();
        put_interval(writer, key.parts(), rows.as_slice());
    }

    fn put_product(&self, writer: &mut Writer, gate: &ProductGate)
        requires { Room writer.old (parts_bytes (dealt_product self.now.number
            gate.now.width gate.now.mask_a gate.now.mask_b gate.now.words)) }
        ensures { Put writer.old (parts_bytes (dealt_product self.now.number
            gate.now.width gate.now.mask_a gate.now.mask_b gate.now.words)) writer.new }
    {
        put_product(writer, deal_product(self.number, gate).parts());
    }

    fn put_shift(&self, writer: &mut Writer, gate: &ShiftGate)
        requires { Room writer.old (shift_gate_bytes X.Expander.meaning self.now.number
            gate.now.shift gate.now.mask gate.now.words) }
        ensures { Put writer.old (shift_gate_bytes X.Expander.meaning self.now.number
            gate.now.shift gate.now.mask gate.now.words) writer.new }
    {
        let mut low = [blank::<Word>(); 32];
        let mut high = [blank::<Word>(); 32];
        let mut low = Rows::over(&mut low[0..gate.shift.by() as usize]);
        let mut high = Rows::over(&mut high[0..gate.shift.width().bits() as usize]);
        let rows = ShiftRows {
            low: &mut low,
            high: &mut high,
        };
        let key = deal_shift(self.expander, self.number, gate, rows).unwrap();
        put_shift(writer, key.parts(), low.as_slice(), high.as_slice());
    }

    // The key of a gate, for the masks of the wires that it reads, and from its own random words on; a local gate has none.
    fn put_gate_key(&self, writer: &mut Writer, words: &[u64], body: GateBody)
        requires room { Room writer.old (gate_key_bytes
            (dealt_gate X.Expander.meaning self.now.width.bits (is_one self.now.number) self.now.masks.now
            (front (words_of body) words.now) body)) }
        requires fits { fields_fit self.now.width.bits body ≡ true }
        ensures { Put writer.old (gate_key_bytes
            (dealt_gate X.Expander.meaning self.now.width.bits (is_one self.now.number) self.now.masks.now
            (front (words_of body) words.now) body)) writer.new }
    {
        match body {
            GateBody::Sum { .. } | GateBody::Scale { .. } | GateBody::Xor { .. } => {}
            GateBody::Product { a, b } => {
                let gate = ProductGate {
                    width: self.width,
                    mask_a: mask_in(self.masks, a as usize),
                    mask_b: mask_in(self.masks, b as usize),
                    words: words_from(words),
                };
                self.put_product(writer, &gate);
            }
            GateBody::Piece { a, p, q, c } => {
                let gate = PieceGate {
                    interval: interval_of(self.width, p, q),
                    mask: mask_in(self.masks, a as usize),
                    coefficients: c,
                    words: words_from(words),
                };
                self.put_on_interval(writer, &gate, &mut [blank::<Quad>(); 32]);
            }
            GateBody::Flag { a, p, q, pattern } => {
                let gate = FlagGate {
                    interval: interval_of(self.width, p, q),
                    mask: mask_in(self.masks, a as usize),
                    pattern,
                    words: words_from(words),
                };
                self.put_on_interval(writer, &gate, &mut [blank::<Flags>(); 32]);
            }
            // The key of a shift is the same for either sign.
            GateBody::Shift { a, s } | GateBody::SignedShift { a, s } => {
                let gate = ShiftGate {
                    sign: Sign::Unsigned,
                    shift: shift_of(self.width, s),
                    mask: mask_in(self.masks, a as usize),
                    words: words_from(words),
                };
                self.put_shift(writer, &gate);
            }
        }
    }

    // The body of a gate, whose mask is given where it is shown.
    pub fn put_gate(&self, writer: &mut Writer, words: &[u64], shown: Option<u32>, body: GateBody)
        requires room { Room writer.old (wire_bytes (gate shown
            (dealt_gate X.Expander.meaning self.now.width.bits (is_one self.now.number) self.now.masks.now
            (front (words_of body) words.now) body))) }
        requires fits { fields_fit self.now.width.bits body ≡ true }
        ensures { Put writer.old (wire_bytes (gate shown
            (dealt_gate X.Expander.meaning self.now.width.bits (is_one self.now.number) self.now.masks.now
            (front (words_of body) words.now) body))) writer.new }
    {
        put_before_key(writer, shown, body);
        self.put_gate_key(writer, words, body);
    }
}
