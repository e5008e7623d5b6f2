// Reading a book: the questions about it, its header, and what it says of each wire.
#![tactic(auto)]

mod asking;
mod reading;

pub use asking::check_book;
pub use reading::{body_in, header_in, read_wire};

// What a book's header states beside the lengths.
// Stays: numbers, since a book states any byte; kinds of expanders are open, and a box's number is asked about (question 12).
#[derive(Clone, Copy)]
pub struct BookHeader {
    pub number: u8,
    pub kind: u8,
    pub width: u8,
    pub deal: u32,
    pub inputs: u8,
    pub gates: u8,
}
