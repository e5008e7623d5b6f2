// Writing bytes one part after another into a buffer.
#![tactic(auto)]

ghost use Rattle.std.specs.Prelude.{◌≡◌, [], ◌∷◌};
ghost use Rattle.stored.specs.Forms.{four_bytes};
ghost use Rattle.buffers.specs.Forms.{Put, Room};

// A buffer of the caller's, written from a place on: each part follows the one before.
#[derive(Drop)]
pub struct Writer<'a> {
    pub out: &'a mut [u8],
    pub at: usize,
}

impl<'a> Writer<'a> {
    // Writes from the front of the buffer on.
    pub fn over(out: &'a mut [u8]) -> Writer<'a>
        ensures out { result.out.now ≡ out.old }
        ensures same { result.out.ghost_name ≡ out.entry.ghost_name }
        ensures front { result.at ≡ 0 }
    {
        Writer { out, at: 0 }
    }

    pub fn put(&mut self, bytes: &[u8])
        requires { Room self.old bytes.now }
        ensures { Put self.old bytes.now self.new }
    {
        let end = self.at + bytes.len();
        self.out[self.at..end].copy_from_slice(bytes);
        self.at = end;
    }

    pub fn put_byte(&mut self, byte: u8)
        requires { Room self.old (byte ∷ []) }
        ensures { Put self.old (byte ∷ []) self.new }
    {
        self.put(&[byte]);
    }

    // Writes a number as four bytes, the lowest first.
    pub fn put_number(&mut self, number: u32)
        requires { Room self.old (four_bytes number) }
        ensures { Put self.old (four_bytes number) self.new }
    {
        self.put(&number.to_le_bytes());
    }
}
