// How many bytes a gate's parts have in a book.
ghost use Rattle.std.specs.Prelude.{◌≡◌};
ghost use Rattle.plan.specs.Lengths.{compared_long, parameters_long, key_long};

use crate::Gate;

// The length of a comparison key whose elements have `size` bytes, with so many rows.
pub fn compared_long(size: u8, rows: u8) -> usize
    ensures { result ≡ compared_long size rows }
{
    16 + rows as usize * (17 + size as usize) + size as usize
}

impl<C: Copy, T: Copy> Gate<C, T> {
    // How many bytes the parameters have.
    pub fn parameters_long(self) -> usize
        ensures { result ≡ parameters_long self }
    {
        match self {
            Gate::Sum { .. } | Gate::Product { .. } | Gate::Xor { .. } => 0,
            Gate::Scale { .. } | Gate::Piece { .. } | Gate::Flag { .. } => 8,
            Gate::Shift { .. } | Gate::SignedShift { .. } => 1,
        }
    }

    // How many bytes the key has.
    pub fn key_long(self, width: u8) -> usize
        ensures { result ≡ key_long width self }
    {
        match self {
            Gate::Sum { .. } | Gate::Scale { .. } | Gate::Xor { .. } => 0,
            Gate::Product { .. } => 12,
            Gate::Piece { .. } => compared_long(32, width) + 68,
            Gate::Flag { .. } => compared_long(4, width) + 12,
            Gate::Shift { s, .. } | Gate::SignedShift { s, .. } => {
                compared_long(8, s) + compared_long(8, width) + 4
            }
        }
    }
}
