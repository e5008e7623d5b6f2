// The console's lines about plans and books: one line is one step.
#![tactic(auto)]

ghost use Rattle.std.specs.Prelude.{◌≡◌, true, false};
ghost use Rattle.orders.specs.Text.{words};
ghost use Rattle.planlines.specs.Grammar.{begin_of, words_of, books_of, book_of, said_of, parsed};

use orders::{Fault, ended, field, kind_of, number_at, word_at};

mod fields;
mod lists;
mod rows;
mod types;

use fields::{hex_at, owners_at, room_at};
use lists::numbers_in;
pub use lists::{fill_bytes, number_in};
use rows::gate_row;
pub use types::PlanLine;

// plan WIDTH, or plan WIDTH OWNERS
fn begin_line(line: &[u8]) -> Result<PlanLine, Fault>
    ensures { result ≡ begin_of (words line.now) }
{
    let width = number_at(line, 2)?;
    let owners = owners_at(line, 3)?;
    ended(line, 4, PlanLine::Begin { width, owners })
}

// words W,W,..
fn words_line(line: &[u8]) -> Result<PlanLine, Fault>
    ensures { result ≡ words_of (words line.now) }
{
    let count = field(line, 2, |word| numbers_in(word, u64::MAX))?;
    ended(line, 3, PlanLine::Words { count })
}

// books KIND DEAL, or books KIND DEAL ROOM; outline is read alike
fn books_line(line: &[u8], whole: bool) -> Result<PlanLine, Fault>
    ensures { result ≡ books_of whole (words line.now) }
{
    // Stays: here, in `book_line` and in `rows`, a closure around the function: a function of another crate that is
    // handed by name has no contract; that was tried.
    let kind = field(line, 2, |word| kind_of(word))?;
    let deal = number_at(line, 3)?;
    let room = room_at(line, 4)?;
    ended(
        line,
        5,
        PlanLine::Books {
            kind,
            deal,
            room,
            whole,
        },
    )
}

// book KIND, or book KIND HEX
fn book_line(line: &[u8]) -> Result<PlanLine, Fault>
    ensures { result ≡ book_of (words line.now) }
{
    let kind = field(line, 2, |word| kind_of(word))?;
    let bytes = hex_at(line, 3)?;
    ended(line, 4, PlanLine::Book { kind, bytes })
}

// What a line says, by its first word; none where it is no line of plans and books.
fn said(word: &[u8], line: &[u8]) -> Option<Result<PlanLine, Fault>>
    ensures { result ≡ said_of word.now (words line.now) }
{
    match word {
        b"plan" => Some(begin_line(line)),
        b"hidden" => Some(gate_row(line, false)),
        b"shown" => Some(gate_row(line, true)),
        b"words" => Some(words_line(line)),
        b"books" => Some(books_line(line, true)),
        b"outline" => Some(books_line(line, false)),
        b"book" => Some(book_line(line)),
        _ => None,
    }
}

// What a line says of plans and books, none where it is another line; or the first word that is wrong.
pub fn parse_plan_line(line: &[u8]) -> Result<Option<PlanLine>, Fault>
    ensures { result ≡ parsed line.now }
{
    said(word_at(line, 1), line).transpose()
}
