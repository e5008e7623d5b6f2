// The orders of the console: one line is one order.
#![tactic(auto)]

ghost use Rattle.std.specs.Prelude.{◌≡◌};
ghost use Rattle.orders.specs.Grammar.{deal_of, point_of, parsed};
ghost use Rattle.orders.specs.Lines.{ReadsBack};
ghost use Rattle.orders.specs.Text.{words};

mod fields;
mod gates;
mod number;
mod text;
mod types;

pub use fields::{ended, field, group_of, kind_of, number_at, number_part, payload_of, placed};
pub use gates::{coefficients_of, gate_name_of, random_words_of};
use gates::{gate_order, hold_order};
pub use number::Number;
pub use text::{decimal, hex_digit, hex_pair, number_of, piece_at, pieces_of, seed_of, word_at};
pub use types::{
    DealOrder, Fault, GateBody, GateName, GateOrder, Group, Kind, Order, Payload, Wrong,
};

// deal KIND GROUP WIDTH THRESHOLD PAYLOAD ROOT0 ROOT1
fn deal_order(line: &[u8]) -> Result<DealOrder, Fault>
    ensures { result ≡ deal_of (words line.now) }
{
    let kind = field(line, 2, kind_of)?;
    let group = field(line, 3, group_of)?;
    let width = number_at(line, 4)?;
    let threshold = number_at(line, 5)?;
    let payload = field(line, 6, |word| payload_of(group, word))?;
    let root0 = field(line, 7, seed_of)?;
    let root1 = field(line, 8, seed_of)?;
    ended(
        line,
        9,
        DealOrder {
            kind,
            width,
            threshold,
            payload,
            root0,
            root1,
        },
    )
}

// at POINT
fn point_order(line: &[u8]) -> Result<u32, Fault>
    ensures { result ≡ point_of (words line.now) }
{
    let point = number_at(line, 2)?;
    ended(line, 3, point)
}

fn order_of(line: &[u8]) -> Result<Order, Fault>
    ensures { result ≡ parsed line.now }
{
    match word_at(line, 1) {
        // Nothing to do: no word, or a comment.
        [] | [b'#', ..] => Ok(Order::Nothing),
        b"deal" => Ok(Order::Deal(deal_order(line)?)),
        b"at" => Ok(Order::At(point_order(line)?)),
        b"gate" => Ok(Order::Gate(gate_order(line)?)),
        b"hold" => hold_order(line),
        _ => Err(Fault {
            what: Wrong::UnknownOrder,
            word: 1,
        }),
    }
}

// What a line orders, or the first word that is wrong.
pub fn parse(line: &[u8]) -> Result<Order, Fault>
    ensures is { result ≡ parsed line.now }
    ensures back { ReadsBack line.now result }
{
    order_of(line)
}
