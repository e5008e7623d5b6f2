// Lines that give a plan one gate more: its name and what it takes, from word 2 on.
ghost use Rattle.std.specs.Prelude.{◌≡◌};
ghost use Rattle.orders.specs.declared.types.GateName.TheVariants.{Piece, Flag, Scale};
ghost use Rattle.orders.specs.Text.{words};
ghost use Rattle.planlines.specs.Grammar.{two_bytes_of, body_of, row_of};

use crate::types::PlanLine;
use orders::{Fault, GateName, coefficients_of, ended, field, gate_name_of, number_at};
use plan::{GateBody, PlanRow};

// A B, or A S
fn two_bytes(line: &[u8]) -> Result<(u8, u8), Fault>
    ensures { result ≡ two_bytes_of (words line.now) }
{
    let a = number_at(line, 3)?;
    let b = number_at(line, 4)?;
    ended(line, 5, (a, b))
}

// A C D
fn scale_body(line: &[u8]) -> Result<GateBody, Fault>
    ensures { result ≡ body_of Scale (words line.now) }
{
    let a = number_at(line, 3)?;
    let c = number_at(line, 4)?;
    let d = number_at(line, 5)?;
    ended(line, 6, GateBody::Scale { a, c, d })
}

// A P Q C0,C1,C2,C3
fn piece_body(line: &[u8]) -> Result<GateBody, Fault>
    ensures { result ≡ body_of Piece (words line.now) }
{
    let a = number_at(line, 3)?;
    let p = number_at(line, 4)?;
    let q = number_at(line, 5)?;
    let c = field(line, 6, |word| coefficients_of(word))?;
    ended(line, 7, GateBody::Piece { a, p, q, c })
}

// Stays: each gate lists the fields of its own, so that one function for two of them would be no plainer.

// A P Q PATTERN
fn flag_body(line: &[u8]) -> Result<GateBody, Fault>
    ensures { result ≡ body_of Flag (words line.now) }
{
    let a = number_at(line, 3)?;
    let p = number_at(line, 4)?;
    let q = number_at(line, 5)?;
    let pattern = number_at(line, 6)?;
    ended(line, 7, GateBody::Flag { a, p, q, pattern })
}

fn gate_body(line: &[u8], name: GateName) -> Result<GateBody, Fault>
    ensures { result ≡ body_of name (words line.now) }
{
    match name {
        GateName::Piece => piece_body(line),
        GateName::Flag => flag_body(line),
        GateName::Shift => {
            let (a, s) = two_bytes(line)?;
            Ok(GateBody::Shift { a, s })
        }
        GateName::Signed => {
            let (a, s) = two_bytes(line)?;
            Ok(GateBody::SignedShift { a, s })
        }
        GateName::Product => {
            let (a, b) = two_bytes(line)?;
            Ok(GateBody::Product { a, b })
        }
        GateName::Sum => {
            let (a, b) = two_bytes(line)?;
            Ok(GateBody::Sum { a, b })
        }
        GateName::Scale => scale_body(line),
        GateName::Xor => {
            let (a, b) = two_bytes(line)?;
            Ok(GateBody::Xor { a, b })
        }
    }
}

// hidden GATE .. or shown GATE ..
pub fn gate_row(line: &[u8], shown: bool) -> Result<PlanLine, Fault>
    ensures { result ≡ row_of shown (words line.now) }
{
    let name = field(line, 2, |word| gate_name_of(word))?;
    let body = gate_body(line, name)?;
    Ok(PlanLine::Gate(PlanRow { shown, body }))
}
