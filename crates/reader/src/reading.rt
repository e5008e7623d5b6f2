// What a reader finds in a book: its header, the body of each wire, and what that says.
ghost use Rattle.std.specs.Prelude.{◌≡◌, ℕ, ◌+◌, ◌*◌, ◌<◌, ◌≤◌, Bool, length, MatchOption, slice_range};
ghost use Rattle.reader.specs.Reading.{header_in, headed, body_in, flag_kind, flag_in, wire_in};

use crate::BookHeader;
use bodies::{WireBody, after, byte_in, gate_in, input_in, number_in, part_of};
use plan::{GateKind, Wires};

// Stays: a book is any bytes that a box is given, so what reads one takes bytes.
pub fn header_in(book: &[u8]) -> BookHeader
    ensures { headed result ≡ header_in book.now }
{
    BookHeader {
        number: byte_in(book, 1),
        kind: byte_in(book, 2),
        width: byte_in(book, 3),
        deal: number_in(book, 4),
        inputs: byte_in(book, 8),
        gates: byte_in(book, 9),
    }
}

// The eight bytes of wire k in the contents, where they are all there.
pub(crate) fn entry_in(book: &[u8], k: usize) -> Option<&[u8]>
    ensures { MatchOption result (length book.now < 24 + 8 * k)
        (λ entry. (24 + 8 * k ≤ length book.now) × (entry.now ≡ slice_range book.now (16 + 8 * k) (24 + 8 * k))) }
{
    let at = k.checked_mul(8)?.checked_add(16)?;
    after(book, at).get(..8)
}

// The body of wire k; nothing where its entry in the contents or the body is not whole.
pub fn body_in(book: &[u8], k: usize) -> &[u8]
    ensures { result.now ≡ body_in book.now k }
{
    match entry_in(book, k) {
        Some(entry) => part_of(
            book,
            number_in(entry, 0) as usize,
            number_in(entry, 4) as usize,
        ),
        None => &[],
    }
}

// Does a gate of this kind byte give flags?
fn flag_kind(number: u8) -> bool
    ensures { result ≡ flag_kind number }
{
    GateKind::try_from(number).is_ok_and(|kind| kind.gives_flag())
}

// What the body of wire k says; nothing where a gate's kind is not known.
pub fn read_wire(book: &[u8], k: usize) -> Option<WireBody>
    ensures { result ≡ wire_in book.now k }
{
    let body = body_in(book, k);
    if k < byte_in(book, 8) as usize {
        Some(input_in(byte_in(book, 1), body))
    } else {
        gate_in(body)
    }
}

// A book whose wires are asked about.
#[derive(Clone, Copy)]
pub(crate) struct Book<'a> {
    pub(crate) bytes: &'a [u8],
}

impl<'a> Wires for Book<'a> {
    ghost flags = { λ book. flag_in book.bytes.now };

    fn is_flag(&self, wire: usize) -> bool {
        wire >= byte_in(self.bytes, 8) as usize && flag_kind(byte_in(body_in(self.bytes, wire), 0))
    }
}
