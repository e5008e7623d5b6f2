// The two bits of a row, which stand in one byte.
ghost use Rattle.std.specs.Prelude.{◌≡◌, ◌<◌, MatchResult};
ghost use Rattle.layout.specs.Keys.{bits};

#[derive(Clone, Copy)]
pub(crate) struct Bits {
    pub(crate) left: bool,
    pub(crate) right: bool,
}

impl From<Bits> for u8 {
    ghost from_gives = { λ sides byte. byte ≡ bits sides.left sides.right };

    fn from(sides: Bits) -> u8 {
        u8::from(sides.left) + 2 * u8::from(sides.right)
    }
}

// A byte that writes no bits.
#[derive(Clone, Copy)]
pub(crate) struct NoBits;

impl TryFrom<u8> for Bits {
    type Error = NoBits;

    ghost try_from_gives = { λ byte sides. MatchResult sides (λ s. bits s.left s.right ≡ byte) (λ _. 3 < byte) };

    fn try_from(byte: u8) -> Result<Bits, NoBits> {
        let (left, right) = match byte {
            0 => (false, false),
            1 => (true, false),
            2 => (false, true),
            3 => (true, true),
            _ => return Err(NoBits),
        };
        Ok(Bits { left, right })
    }
}
