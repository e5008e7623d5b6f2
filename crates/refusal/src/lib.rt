// Why a call is refused: one case for each question of the rules.
#![tactic(auto)]

ghost use Rattle.std.specs.Prelude.{◌≡◌};
ghost use Rattle.refusal.specs.Numbers.{number};
ghost use Rattle.refusal.specs.Questions.{asked};

use std::fmt;

#[derive(Clone, Copy, Debug, PartialEq, Eq)]
pub enum Refusal {
    PlanWidth = 1,
    PlanCounts = 2,
    PlanOwners = 3,
    PlanReads = 4,
    PlanFields = 5,
    DealWords = 6,
    DealRoom = 7,
    BookLength = 11,
    BookHeader = 12,
    BookKind = 13,
    BookCounts = 14,
    BookContents = 15,
    BookBodies = 16,
    NotInput = 21,
    NotOwned = 22,
    ReadingRange = 23,
    NotEmpty = 24,
    NotGate = 25,
    NotReady = 26,
    NotSendable = 27,
    NothingHeld = 28,
    BufferLength = 29,
    MessageLength = 30,
    MessageOrigin = 31,
    NotTakeable = 32,
    ValueRange = 33,
    NotAwaited = 34,
    NotShown = 35,
    NotFull = 36,
    KeyWidth = 41,
    KeyRange = 42,
    KeyRows = 43,
    KeyWords = 44,
}

impl Refusal {
    // The number that a caller is told.
    pub fn number(self) -> u8
        ensures { result ≡ number self }
    {
        self as u8
    }

    // One question: a no gives its refusal.
    pub fn ask(yes: bool, no: Refusal) -> Result<(), Refusal>
        ensures { result ≡ asked yes no }
    {
        if yes { Ok(()) } else { Err(no) }
    }
}

// The question that was answered no.
impl fmt::Display for Refusal {
    fn fmt<W: fmt::Write>(&self, f: &mut fmt::Formatter<W>) -> fmt::Result {
        f.write_str(match self {
            Refusal::PlanWidth => "is the width 1 to 32?",
            Refusal::PlanCounts => "are there 1 to 16 inputs and 1 to 32 gates?",
            Refusal::PlanOwners => "are the box and every owner 0 or 1?",
            Refusal::PlanReads => "does every gate read lower wires of the right kind?",
            Refusal::PlanFields =>
                "is every number in range, p at most q, and every shift allowed?",
            Refusal::DealWords => "are there enough random words?",
            Refusal::DealRoom => "does the book fit the buffer?",
            Refusal::BookLength => "has the book 16 bytes or more, and the length that it states?",
            Refusal::BookHeader => "is the edition 1, the box 0 or 1, and each reserved byte 0?",
            Refusal::BookKind => "is the book for this box's kind of expander?",
            Refusal::BookCounts => "are the width and the counts allowed?",
            Refusal::BookContents =>
                "are the contents whole, and the bodies without gaps to the end?",
            Refusal::BookBodies => "has every body its layout, and allowed fields?",
            Refusal::NotInput => "is the wire an input?",
            Refusal::NotOwned => "does this box own the input?",
            Refusal::ReadingRange => "is the reading in range?",
            Refusal::NotEmpty => "is the wire empty?",
            Refusal::NotGate => "is the wire a gate's?",
            Refusal::NotReady => "are the gate's inputs full?",
            Refusal::NotSendable => "is the wire an input of this box, or a keyed gate's?",
            Refusal::NothingHeld => "does the wire hold anything?",
            Refusal::BufferLength => "has the buffer room for a message?",
            Refusal::MessageLength => "has the message ten bytes?",
            Refusal::MessageOrigin => "is the message from the other box, and of this deal?",
            Refusal::NotTakeable => "is the wire an input of the other box, or a keyed gate's?",
            Refusal::ValueRange => "is the value in range for a number wire?",
            Refusal::NotAwaited => "is the input empty, or the gate half done?",
            Refusal::NotShown => "is the wire a shown gate's?",
            Refusal::NotFull => "is the wire full?",
            Refusal::KeyWidth => "is the key's width 1 to 32?",
            Refusal::KeyRange => "is the threshold or point in range for the width?",
            Refusal::KeyRows => "has the key as many rows as its width?",
            Refusal::KeyWords => "does an element take 8 draw words or fewer?",
        })
    }
}
