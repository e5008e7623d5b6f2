// What a line of orders says, and what can be wrong with it.
ghost use Rattle.std.specs.Prelude.{Some};
ghost use Rattle.orders.specs.Messages.{wrong_text, fault_text};

use expander::Seed;
use std::fmt;

// Stays: `Nothing` and not an Option of an order: the empty line is written and read back as every other order is,
// and a match on what was read has one level less.
#[derive(Clone, Copy)]
pub enum Order {
    Nothing,
    Deal(DealOrder),
    At(u32),
    Gate(GateOrder),
    Hold(u32, Option<u32>),
}

// Deal a key for a threshold, with a payload and two root seeds.
#[derive(Clone, Copy)]
pub struct DealOrder {
    pub kind: Kind,
    pub width: u8,
    pub threshold: u32,
    pub payload: Payload,
    // Stays: not the roots of `key`, which a parser of lines does not read: they are the seeds of two words.
    pub root0: Seed,
    pub root1: Seed,
}

// Deal what a gate takes: the masks of its inputs, its parameters and its random words.
#[derive(Clone, Copy)]
pub struct GateOrder {
    pub kind: Kind,
    pub width: u8,
    pub body: GateBody,
}

// What a line says of a gate: numbers that fit their types, and nothing is asked of them yet.
// Stays: not the gates of `gatekeys`, which `orders` does not read: those have their questions answered, and with a
// shared enum a parser of lines would stand on masks and shares.
#[derive(Clone, Copy)]
pub enum GateBody {
    Piece {
        mask: u32,
        low: u32,
        high: u32,
        coefficients: [u32; 4],
        words: [u64; 14],
    },
    Flag {
        mask: u32,
        low: u32,
        high: u32,
        pattern: u32,
        words: [u64; 8],
    },
    Shift {
        mask: u32,
        by: u8,
        words: [u64; 10],
    },
    Signed {
        mask: u32,
        by: u8,
        words: [u64; 10],
    },
    Product {
        mask: u32,
        mask2: u32,
        words: [u64; 4],
    },
    Sum {
        mask: u32,
        mask2: u32,
    },
    Scale {
        mask: u32,
        c: u32,
        d: u32,
    },
    Xor {
        mask: u32,
        mask2: u32,
    },
}

// Which gate, as a word of a line names it.
// Stays: not the kinds of `plan`, which `orders` does not read: words of a line and numbers of a book are apart.
#[derive(Clone, Copy)]
pub enum GateName {
    Piece,
    Flag,
    Shift,
    Signed,
    Product,
    Sum,
    Scale,
    Xor,
}

// Which expander.
#[derive(Clone, Copy)]
pub enum Kind {
    Aes,
    ChaCha,
    Zero,
}

// Which output group.
#[derive(Clone, Copy)]
pub enum Group {
    Words,
    Flags,
    Pair,
    Quad,
}

// An element of an output group.
#[derive(Clone, Copy)]
pub enum Payload {
    Words(u64),
    Flags(u32),
    Pair(u64, u32),
    Quad(u64, u64, u64, u64),
}

// What is wrong, and the number of the word, counted from 1.
#[derive(Clone, Copy, Debug)]
pub struct Fault {
    pub what: Wrong,
    pub word: usize,
}

impl fmt::Display for Fault {
    ghost output = { λ f. Some (fault_text f) };

    fn fmt<W: fmt::Write>(&self, f: &mut fmt::Formatter<W>) -> fmt::Result {
        let word = self.word;
        let what = self.what;
        write!(f, "word {word}: {what}")
    }
}

#[derive(Clone, Copy, Debug)]
pub enum Wrong {
    UnknownOrder,
    MissingWord,
    ExtraWord,
    NotNumber,
    TooLarge,
    UnknownKind,
    UnknownGroup,
    PayloadParts,
    SeedLength,
    NotHex,
    UnknownGate,
    CoefficientCount,
    WordCount,
}

impl fmt::Display for Wrong {
    ghost output = { λ w. Some (wrong_text w) };

    fn fmt<W: fmt::Write>(&self, f: &mut fmt::Formatter<W>) -> fmt::Result {
        match self {
            Wrong::UnknownOrder => f.write_str("not an order"),
            Wrong::MissingWord => f.write_str("a word is missing"),
            Wrong::ExtraWord => f.write_str("a word too many"),
            Wrong::NotNumber => f.write_str("not a decimal number"),
            Wrong::TooLarge => f.write_str("the number is too large"),
            Wrong::UnknownKind => f.write_str("not a kind of expander: 1, 2 or 3"),
            Wrong::UnknownGroup => f.write_str("not a group: words, flags, pair or quad"),
            Wrong::PayloadParts => f.write_str("the payload has not the parts of its group"),
            Wrong::SeedLength => f.write_str("a seed has 32 hex digits"),
            Wrong::NotHex => f.write_str("not a hex digit"),
            Wrong::UnknownGate => f.write_str(
                "not a gate: piece, flag, shift, signed, product, sum, scale or xor",
            ),
            Wrong::CoefficientCount => f.write_str("a piece has four coefficients"),
            Wrong::WordCount => f.write_str("not as many random words as the gate takes"),
        }
    }
}
