// A gate with the wires that it reads and its plain numbers, in a plan and in a book.
ghost use Rattle.std.specs.Prelude.{◌≡◌, ℕ, ◌≤◌, Bool};
ghost use Rattle.plan.specs.Gates.{number_of, IsNumbered, kind_gives_flag, kind_is_keyed, kind_words, kind_of};
ghost use Rattle.plan.specs.Gates.{below, interval_fits, shift_fits, gives_flag, is_keyed, words_of};
ghost use Rattle.plan.specs.Gates.{numbers_fit, lower_number, lower_flag, reads_fit};

// What a gate does; a book names it by its number.
#[derive(Clone, Copy, Debug, PartialEq, Eq)]
pub enum GateKind {
    Sum = 1,
    Scale,
    Product,
    Piece,
    Flag,
    Shift,
    SignedShift,
    Xor,
}

// A number that no kind of gate has.
#[derive(Clone, Copy, Debug, PartialEq, Eq)]
pub struct UnknownKind(pub u8);

impl TryFrom<u8> for GateKind {
    type Error = UnknownKind;

    ghost try_from_gives = { IsNumbered };

    fn try_from(number: u8) -> Result<Self, UnknownKind> {
        match number {
            1 => Ok(GateKind::Sum),
            2 => Ok(GateKind::Scale),
            3 => Ok(GateKind::Product),
            4 => Ok(GateKind::Piece),
            5 => Ok(GateKind::Flag),
            6 => Ok(GateKind::Shift),
            7 => Ok(GateKind::SignedShift),
            8 => Ok(GateKind::Xor),
            _ => Err(UnknownKind(number)),
        }
    }
}

impl GateKind {
    // The number by which a book names it.
    pub fn number(self) -> u8
        ensures { result ≡ number_of self }
    {
        self as u8
    }

    // Whether the gate's wire carries flags.
    pub fn gives_flag(self) -> bool
        ensures { result ≡ kind_gives_flag self }
    {
        matches!(self, GateKind::Flag | GateKind::Xor)
    }

    // Whether the gate is worked with a key.
    pub fn is_keyed(self) -> bool
        ensures { result ≡ kind_is_keyed self }
    {
        !matches!(self, GateKind::Sum | GateKind::Scale | GateKind::Xor)
    }

    // How many random words the gate takes.
    pub fn words(self) -> usize
        ensures count { result ≡ kind_words self }
        ensures few { result ≤ 14 }
    {
        match self {
            GateKind::Sum | GateKind::Scale | GateKind::Xor => 0,
            GateKind::Product => 4,
            GateKind::Piece => 14,
            GateKind::Flag => 8,
            GateKind::Shift | GateKind::SignedShift => 10,
        }
    }
}

// A gate with the wires that it reads and its plain numbers: `C` is a piece's coefficients, `T` a flag's pattern.
#[derive(Clone, Copy)]
pub enum Gate<C, T> {
    Sum { a: u8, b: u8 },
    Scale { a: u8, c: u32, d: u32 },
    Product { a: u8, b: u8 },
    Piece { a: u8, p: u32, q: u32, c: C },
    Flag { a: u8, p: u32, q: u32, pattern: T },
    Shift { a: u8, s: u8 },
    SignedShift { a: u8, s: u8 },
    Xor { a: u8, b: u8 },
}

// A gate of a plan.
pub type GateBody = Gate<[u32; 4], u32>;

// A gate as a book names it, which leaves coefficients and pattern in the key.
pub type GateHead = Gate<(), ()>;

// Is a number below N?
// Stays: `masking` has the same of a width that is allowed, and `comparison` of a key's numbers; here any byte may be asked
// about as a width, and keys stand on no masks, so that one function for the three would be no plainer.
pub fn below(width: u8, number: u32) -> bool
    ensures { result ≡ below width number }
{
    width >= 32 || (number as u64) < 1u64 << width
}

// Is p at most q, and q below N?
pub fn interval_fits(width: u8, p: u32, q: u32) -> bool
    ensures { result ≡ interval_fits width p q }
{
    p <= q && below(width, q)
}

// Is the shift 1 to n − 1?
pub fn shift_fits(width: u8, s: u8) -> bool
    ensures { result ≡ shift_fits width s }
{
    s >= 1 && s < width
}

// Wires that are known to carry flags or numbers: those of a plan, or of a book.
pub trait Wires {
    ghost flags: { Self → ℕ → Bool };

    // Whether a wire carries flags.
    fn is_flag(&self, wire: usize) -> bool
        ensures { result ≡ flags self.now wire };
}

// Is it a wire below k that carries a number?
fn lower_number<W: Wires>(wires: &W, k: usize, wire: u8) -> bool
    ensures { result ≡ lower_number (W.flags wires.now) k wire }
{
    (wire as usize) < k && !wires.is_flag(wire as usize)
}

// Is it a wire below k that carries flags?
// Stays: as the one above but for a `!`; a flag that chooses between them would be no plainer.
fn lower_flag<W: Wires>(wires: &W, k: usize, wire: u8) -> bool
    ensures { result ≡ lower_flag (W.flags wires.now) k wire }
{
    (wire as usize) < k && wires.is_flag(wire as usize)
}

impl<C: Copy, T: Copy> Gate<C, T> {
    pub fn kind(self) -> GateKind
        ensures { result ≡ kind_of self }
    {
        match self {
            Gate::Sum { .. } => GateKind::Sum,
            Gate::Scale { .. } => GateKind::Scale,
            Gate::Product { .. } => GateKind::Product,
            Gate::Piece { .. } => GateKind::Piece,
            Gate::Flag { .. } => GateKind::Flag,
            Gate::Shift { .. } => GateKind::Shift,
            Gate::SignedShift { .. } => GateKind::SignedShift,
            Gate::Xor { .. } => GateKind::Xor,
        }
    }

    // Whether the gate's wire carries flags.
    pub fn gives_flag(self) -> bool
        ensures { result ≡ gives_flag self }
    {
        self.kind().gives_flag()
    }

    // Whether the gate is worked with a key.
    pub fn is_keyed(self) -> bool
        ensures { result ≡ is_keyed self }
    {
        self.kind().is_keyed()
    }

    // How many random words the gate takes.
    pub fn words(self) -> usize
        ensures count { result ≡ words_of self }
        ensures few { result ≤ 14 }
    {
        self.kind().words()
    }

    // Are the numbers below N, p at most q, and the shift allowed?
    pub fn numbers_fit(self, width: u8) -> bool
        ensures { result ≡ numbers_fit width self }
    {
        match self {
            Gate::Sum { .. } | Gate::Product { .. } | Gate::Xor { .. } => true,
            Gate::Scale { c, d, .. } => below(width, c) && below(width, d),
            Gate::Piece { p, q, .. } | Gate::Flag { p, q, .. } => interval_fits(width, p, q),
            Gate::Shift { s, .. } | Gate::SignedShift { s, .. } => shift_fits(width, s),
        }
    }

    // Does the gate of wire k read lower wires of the right kind?
    pub fn reads_fit<W: Wires>(self, wires: &W, k: usize) -> bool
        ensures { result ≡ reads_fit (W.flags wires.now) k self }
    {
        match self {
            Gate::Sum { a, b } | Gate::Product { a, b } => {
                lower_number(wires, k, a) && lower_number(wires, k, b)
            }
            Gate::Scale { a, .. }
            | Gate::Piece { a, .. }
            | Gate::Flag { a, .. }
            | Gate::Shift { a, .. }
            | Gate::SignedShift { a, .. } => lower_number(wires, k, a),
            Gate::Xor { a, b } => lower_flag(wires, k, a) && lower_flag(wires, k, b),
        }
    }
}
