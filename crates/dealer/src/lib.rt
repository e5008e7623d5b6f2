// Deals: the book of one box, from a plan and random words.
#![tactic(auto)]

ghost use Rattle.std.specs.Prelude.{◌≡◌, ◌+◌, ◌<◌, ◌≤◌, true, [], length, IfOk, ◌==◌, ◌^◌, sum, map};
ghost use Rattle.std.specs.List.{range_with_len};
ghost use Rattle.key.specs.Rows.{is_one};
ghost use Rattle.plan.specs.Plans.{stated, wires};
ghost use Rattle.layout.specs.Bytes.{joined};
ghost use Rattle.layout.specs.Wires.{input, wire_bytes};
ghost use Rattle.layout.specs.Books.{header_bytes};
ghost use Rattle.buffers.specs.Forms.{Put, Room};
ghost use Rattle.dealer.specs.Lengths.{body_length, place, entry};
ghost use Rattle.dealer.specs.Book.{order, header_of, dealt_body, dealt, wire_for, WireFits};

use buffers::Writer;
use expander::Expander;
use gatebytes::{Dealer, put_mask, put_two};
use key::BoxNumber;
use layout::after;
use masks::{mask_in, masks_of};
use plan::{CheckedPlan, Plan, PlanWire};
use refusal::Refusal;

// The box that a book is for.
// Stays: past the questions a number is 0 or 1; a `TryFrom` in `key` with an error of its own, for this one caller, would be
// longer.
fn box_of(number: u8) -> BoxNumber
    ensures { is_one result ≡ (number == 1) }
{
    if number == 1 {
        BoxNumber::One
    } else {
        BoxNumber::Zero
    }
}

fn put_input(writer: &mut Writer, owner: u8, mask: Option<u32>)
    requires { Room writer.old (wire_bytes (input owner mask)) }
    ensures { Put writer.old (wire_bytes (input owner mask)) writer.new }
{
    writer.put_byte(owner);
    put_mask(writer, mask);
}

// The body of a wire in the book of box `number`, from its own random words on: an input's mask is for its owner only, a
// gate's is given where it is shown.
// Stays: `number` is a byte as owners are; the `BoxNumber` in `dealer` would be turned back into one here, no plainer.
fn put_wire<X: Expander>(
    writer: &mut Writer,
    dealer: &Dealer<X>,
    number: u8,
    wire: PlanWire,
    mask: u32,
    words: &[u64],
)
    requires fits { WireFits dealer.now.width.bits wire }
    requires room { Room writer.old (wire_bytes (wire_for X.Expander.meaning dealer.now.width.bits
        (is_one dealer.now.number) dealer.now.masks.now number mask words.now wire)) }
    ensures { Put writer.old (wire_bytes (wire_for X.Expander.meaning dealer.now.width.bits
        (is_one dealer.now.number) dealer.now.masks.now number mask words.now wire)) writer.new }
{
    match wire {
        PlanWire::Input { owner } => put_input(writer, owner, (owner == number).then_some(mask)),
        PlanWire::Gate(row) => {
            dealer.put_gate(writer, words, row.shown.then_some(mask), row.body);
        }
    }
}

// The book of box `number` for a plan that passed its questions.
#[derive(Clone, Copy)]
struct Book<'a> {
    plan: CheckedPlan<'a>,
    // Stays: a byte, compared with owners and written into the book; a `BoxNumber` would be turned back into one at each.
    number: u8,
}

impl<'a> Book<'a> {
    // Lengths, known before anything is written.

    fn body_len(self, k: usize) -> usize
        requires { k < wires (stated self.plan.plan) }
        ensures { result ≡ body_length (stated self.entry.plan.plan) self.entry.number k }
    {
        match self.plan.wire(k) {
            PlanWire::Input { owner } => { if owner == self.number { 5 } else { 1 } }
            PlanWire::Gate(row) => {
                let head = if row.shown { 8 } else { 4 };
                let width = self.plan.width().bits();
                head + row.body.parameters_long() + row.body.key_long(width)
            }
        }
    }

    // All the bodies together.
    fn bodies_long(self) -> usize
        requires { sum (map (body_length (stated self.plan.plan) self.number)
            (range_with_len 0 (wires (stated self.plan.plan)))) < 2 ^ 64 }
        ensures { result ≡ sum (map (body_length (stated self.entry.plan.plan) self.entry.number)
            (range_with_len 0 (wires (stated self.entry.plan.plan)))) }
    {
        (0..self.plan.wires()).map(|k| self.body_len(k)).sum()
    }

    fn long(self) -> usize
        ensures { result ≡ place (stated self.entry.plan.plan) self.entry.number
            (wires (stated self.entry.plan.plan)) }
    {
        16 + 8 * self.plan.wires() + self.bodies_long()
    }

    // The parts of the book.

    // Stays: `kind` is the byte by which an expander names itself, and is written as such.
    fn put_header(self, writer: &mut Writer, kind: u8, deal: u32, long: u32)
        requires { Room writer.old (header_bytes (header_of kind
            (order (stated self.plan.plan) self.number deal [])) long) }
        ensures { Put writer.old (header_bytes (header_of kind
            (order (stated self.entry.plan.plan) self.entry.number deal [])) long) writer.new }
    {
        let plan = self.plan.plan();
        writer.put(&[1, self.number, kind, plan.width]);
        writer.put_number(deal);
        writer.put(&[plan.owners.len() as u8, plan.rows.len() as u8, 0, 0]);
        writer.put_number(long);
    }

    // Where the body of each wire begins, and how long it is.
    fn put_contents(self, writer: &mut Writer)
        requires { Room writer.old (joined (entry (stated self.plan.plan) self.number)
            (wires (stated self.plan.plan))) }
        ensures { Put writer.old (joined (entry (stated self.entry.plan.plan) self.entry.number)
            (wires (stated self.entry.plan.plan))) writer.new }
    {
        let wires = self.plan.wires();
        let mut place = 16 + 8 * wires;
        // Stays: no plainer as a chain; the place goes on from wire to wire, and a closure would change it and the writer.
        for k in 0..wires {
            let long = self.body_len(k);
            put_two(writer, place as u32, long as u32);
            place += long;
        }
    }

    // Each wire takes its random words from the front of what the wires below it leave.
    fn put_bodies<X: Expander>(self, writer: &mut Writer, expander: &X, words: &[u64])
        requires { Room writer.old (joined (dealt_body X.Expander.meaning
            (order (stated self.plan.plan) self.number 0 words.now)) (wires (stated self.plan.plan))) }
        ensures { Put writer.old (joined (dealt_body X.Expander.meaning
            (order (stated self.entry.plan.plan) self.entry.number 0 words.now))
            (wires (stated self.entry.plan.plan))) writer.new }
    {
        let width = self.plan.width();
        let masks = masks_of(width, self.plan.plan(), words);
        let dealer = Dealer {
            expander,
            number: box_of(self.number),
            width,
            masks: &masks,
        };
        let mut rest = words;
        // Stays: no plainer as a chain; `rest` goes on from wire to wire, and a plan has its wires in two slices (owners
        // and rows), so an iterator of wires would count k itself.
        for k in 0..self.plan.wires() {
            let wire = self.plan.wire(k);
            put_wire(writer, &dealer, self.number, wire, mask_in(&masks, k), rest);
            rest = after(rest, wire.words());
        }
    }
}

// Writes the book of box `number` at the front of the buffer, and answers its length. The questions 1 to 7 are asked in
// their order, and a deal that is refused changes no byte. A book has at most 54,880 bytes.
// Stays: any number is asked about and refused (question 3), so the box is a byte.
pub fn deal<X: Expander>(
    expander: &X,
    plan: Plan,
    number: u8,
    deal: u32,
    words: &[u64],
    out: &mut [u8],
) -> Result<usize, Refusal>
    ensures book { (result, out.new) ≡ dealt X.Expander.meaning
        (order (stated plan.entry) number deal words.now) out.old }
    ensures bound { IfOk result (λ long. long ≤ 54880) }
{
    let plan = CheckedPlan::new(plan, number, words.len())?;
    let book = Book { plan, number };
    let long = book.long();
    Refusal::ask(long <= out.len(), Refusal::DealRoom)?;
    let mut writer = Writer::over(out);
    book.put_header(&mut writer, X::KIND, deal, long as u32);
    book.put_contents(&mut writer);
    book.put_bodies(&mut writer, expander, words);
    Ok(long)
}
