// Bytes as text.
#![tactic(auto)]

ghost use Rattle.std.specs.Prelude.{Some};
ghost use Rattle.std.specs.Fmt.{WritesOnOk};
ghost use Rattle.hextext.specs.Hex.{hex_pair, hex_text};

use std::fmt;

// Bytes in hex, two small digits each, the high one first.
#[derive(Clone, Copy)]
pub struct Hex<'a>(pub &'a [u8]);

// A byte's two digits.
fn write_pair<W: fmt::Write>(f: &mut fmt::Formatter<W>, byte: u8) -> fmt::Result
    ensures { WritesOnOk W.Write.write_str_gives f.old result (hex_pair byte) f.new }
{
    write!(f, "{byte:02x}")
}

impl fmt::Display for Hex<'_> {
    ghost output = { λ h. Some (hex_text h.0.now) };

    fn fmt<W: fmt::Write>(&self, f: &mut fmt::Formatter<W>) -> fmt::Result {
        for byte in self.0 {
            write_pair(f, *byte)?;
        }
        Ok(())
    }
}
