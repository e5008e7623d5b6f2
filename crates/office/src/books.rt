// Dealing both books of a plan, and saying what is in a book.
ghost use Rattle.std.specs.Prelude.{◌≡◌};
ghost use Rattle.dealer.specs.Book.{dealt};
ghost use Rattle.draft.specs.Drafts.{view};
ghost use Rattle.office.specs.Dealing.{order_of};

use crate::wires::Wire;
use bodies::{number_in, part_of};
use console::{Stop, Task};
use draft::Draft;
use expander::Expander;
use hextext::Hex;
use reader::{body_in, check_book, header_in, read_wire};
use refusal::Refusal;

// The header, and what each wire's body says.
fn print_book(rt: &HostRuntime, book: &[u8], whole: bool) -> Result<(), Stop> {
    let long = book.len();
    let header = header_in(book);
    let number = header.number;
    let kind = header.kind;
    let width = header.width;
    let deal = header.deal;
    let inputs = header.inputs;
    let gates = header.gates;
    println!(rt;
        "book box {number} bytes {long} edition 1 kind {kind} width {width} deal {deal} inputs {inputs} gates {gates}"
    )?;
    // Stays: k is the wire's number, which is printed and asked of the book.
    for k in 0..inputs as usize + gates as usize {
        let body = body_in(book, k);
        let offset = number_in(book, 16 + 8 * k);
        let bytes = body.len();
        print!(rt; "wire {k} at {offset} bytes {bytes} ")?;
        let wire = Wire {
            rt,
            width,
            body,
            whole,
        };
        wire.print(read_wire(book, k))?;
    }
    Ok(())
}

// Says what is in a book, unless it is refused at a box with an expander of this kind.
// Stays: the kind is a byte here and below, as `check_book` is asked: about any.
pub fn read_and_print(rt: &HostRuntime, kind: u8, book: &[u8], whole: bool) -> Result<(), Stop> {
    check_book(kind, book)?;
    print_book(rt, book, whole)
}

// A dealt book in words, and where all is said also in hex.
fn print_dealt(rt: &HostRuntime, kind: u8, book: &[u8], whole: bool) -> Result<(), Stop> {
    read_and_print(rt, kind, book, whole)?;
    if whole {
        let bytes = Hex(book);
        println!(rt; "hex {bytes}")?;
    }
    Ok(())
}

// One box's book of the plan that was read.
// Stays: the box is a byte here and below, as `deal` is asked: about any.
fn deal_one<X: Expander>(
    expander: &X,
    draft: &Draft,
    number: u8,
    deal: u32,
    out: &mut [u8],
) -> Result<usize, Refusal>
    ensures { (result, out.new) ≡ dealt X.Expander.meaning (order_of (view draft.now) number deal) out.old }
{
    dealer::deal(expander, draft.plan(), number, deal, draft.words(), out)
}

// Deals both books of a plan with a deal number, each into a buffer of this length, and says all of them or an outline.
#[derive(Clone, Copy)]
pub struct DealBooks<'a> {
    pub rt: &'a HostRuntime,
    pub draft: &'a Draft,
    pub deal: u32,
    pub room: usize,
    pub whole: bool,
}

// Box 0's book and then box 1's, up to the first refusal.
impl Task for DealBooks<'_> {
    type Done = Result<(), Stop>;

    fn run<X: Expander>(self, expander: &X) -> Result<(), Stop> {
        let mut out = vec![in self.rt.alloc(); 0u8; self.room]?;
        for number in 0..2 {
            let long = deal_one(expander, self.draft, number, self.deal, out.as_mut_slice())?;
            let book = part_of(out.as_slice(), 0, long);
            print_dealt(self.rt, X::KIND, book, self.whole)?;
        }
        Ok(())
    }
}
