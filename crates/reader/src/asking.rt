// The questions about a book.
ghost use Rattle.std.specs.Prelude.{◌≡◌, ◌+◌, ◌*◌, ◌≤◌, length, Ok};
ghost use Rattle.refusal.specs.Questions.{answered};
ghost use Rattle.reader.specs.Law.{Tells};
ghost use Rattle.reader.specs.Questions.{body_end, gapless, reads_in, wire_fits, wires_fit, book_asks};

use crate::reading::{Book, body_in, entry_in};
use bodies::{GateHead, byte_in, gate_fits, head_in, input_fits, number_in};
use refusal::Refusal;

impl<'a> Book<'a> {
    // Is the kind of wire k's gate known, and does it read lower wires of the right kind?
    fn head_reads_fit(self, k: usize, head: Option<GateHead>) -> bool
        ensures { result ≡ reads_in self.entry.bytes.now k head }
    {
        let book = self.bytes;
        head.is_some_and(|gate| gate.reads_fit(&Book { bytes: book }, k))
    }

    // Is the body of wire k of its layout, and are its fields allowed?
    fn wire_fits(self, k: usize) -> bool
        ensures { result ≡ wire_fits self.entry.bytes.now k }
    {
        let book = self.bytes;
        let body = body_in(book, k);
        let width = byte_in(book, 3);
        if k < byte_in(book, 8) as usize {
            input_fits(byte_in(book, 1), width, body)
        } else {
            gate_fits(width, body) && self.head_reads_fit(k, head_in(body))
        }
    }

    fn wires_fit(self, wires: usize) -> bool
        ensures { result ≡ wires_fit self.entry.bytes.now wires 0 }
    {
        (0..wires).all(|k| self.wire_fits(k))
    }
}

// Where the body of wire k ends, if it begins at a place and ends within the book.
fn body_end(book: &[u8], k: usize, at: usize) -> Option<usize>
    ensures { result ≡ body_end book.now k at }
{
    let entry = entry_in(book, k)?;
    let start = number_in(entry, 0) as usize;
    let end = start + number_in(entry, 4) as usize;
    (start == at && end <= book.len()).then_some(end)
}

// Does each body begin where the one before ends, and the last end the book?
fn is_gapless(book: &[u8], wires: usize) -> bool
    requires { (16 + 8 * wires ≤ length book.now) × (wires ≤ 48) }
    ensures { result ≡ gapless book.now wires 0 (16 + 8 * wires) }
{
    let start = 16 + 8 * wires;
    (0..wires).try_fold(start, |at, k| body_end(book, k, at)) == Some(book.len())
}

// The questions 11 to 16, one after another.
fn asked_book(kind: u8, book: &[u8]) -> Result<(), Refusal>
    ensures { result ≡ answered (book_asks kind book.now) tt }
{
    Refusal::ask(
        book.len() >= 16 && number_in(book, 12) as usize == book.len(),
        Refusal::BookLength,
    )?;
    Refusal::ask(
        book[0] == 1 && book[1] < 2 && book[10] == 0 && book[11] == 0,
        Refusal::BookHeader,
    )?;
    Refusal::ask(book[2] == kind, Refusal::BookKind)?;
    let inputs = book[8] as usize;
    let gates = book[9] as usize;
    Refusal::ask(
        book[3] >= 1 && book[3] <= 32 && inputs >= 1 && inputs <= 16 && gates >= 1 && gates <= 32,
        Refusal::BookCounts,
    )?;
    let wires = inputs + gates;
    Refusal::ask(
        16 + 8 * wires <= book.len() && is_gapless(book, wires),
        Refusal::BookContents,
    )?;
    Refusal::ask(Book { bytes: book }.wires_fit(wires), Refusal::BookBodies)
}

// The questions 11 to 16 about a book that a box with this kind of expander is given. They pass exactly what the layout
// allows, and that is at most 54,880 bytes.
// Stays: a kind is a number, since any type can be an expander of a kind of its own.
pub fn check_book(kind: u8, book: &[u8]) -> Result<(), Refusal>
    ensures answer { result ≡ answered (book_asks kind book.now) tt }
    ensures exact { Tells kind book.now result }
    ensures short { result ≡ Ok tt → length book.now ≤ 54880 }
{
    asked_book(kind, book)
}
