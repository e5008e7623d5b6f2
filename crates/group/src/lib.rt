// Output groups: what the answers of a comparison key are added in.
#![tactic(auto)]

ghost use Rattle.std.specs.Prelude.{◌≡◌, ◌^◌, ◌%◌, ◌≤◌, Some, codes, decimal};
ghost use Rattle.std.specs.Fmt.{◌++?◌};
ghost use Rattle.std.proofs.Common.{lit<};
ghost use Rattle.group.specs.Groups.{OutputGroup, minus};
ghost use Rattle.group.specs.Residues.{Residue, reduce, residues};
ghost use Rattle.group.specs.Flags.{flags};
ghost use Rattle.group.specs.Pairs.{both};
ghost use Rattle.group.specs.Quads.{quad_from};

use std::fmt;

pub trait Group: Copy {
    // What elements mean, and the group that their meanings form. The laws are laws of meanings: two elements may
    // differ in memory and mean the same.
    ghost Meaning: { Type 0 };

    ghost group: { OutputGroup Meaning };

    ghost mean: { Self → Meaning };

    // How many draw words an element takes; a pair counts to 9 at most.
    fn words() -> usize
        ensures count { result ≡ group.count }
        ensures few { result ≤ 9 };

    fn zero() -> Self
        ensures { mean result ≡ group.zero };

    fn add(self, other: Self) -> Self
        ensures { mean result ≡ group.sum (mean self) (mean other) };

    fn neg(self) -> Self
        ensures { mean result ≡ group.inverse (mean self) };

    // The element that a draw gives from word `start` on, counted modulo 8.
    fn from_draw(words: &[u64; 8], start: usize) -> Self
        ensures { mean result ≡ group.drawn words.now start };
}

// 64-bit words under addition modulo 2^64.
#[derive(Clone, Copy)]
pub struct Word(pub u64);

impl Group for Word {
    ghost Meaning = { Residue (2 ^ 64) };

    ghost group = { residues (2 ^ 64) (lit< tt) };

    ghost mean = { λ w. reduce (2 ^ 64) w.0 };

    fn words() -> usize {
        1
    }

    fn zero() -> Word {
        Word(0)
    }

    fn add(self, other: Word) -> Word {
        Word(self.0.wrapping_add(other.0))
    }

    fn neg(self) -> Word {
        Word(self.0.wrapping_neg())
    }

    fn from_draw(words: &[u64; 8], start: usize) -> Word {
        Word(words[start % 8])
    }
}

impl fmt::Display for Word {
    ghost output = { λ w. Some (decimal w.0) };

    fn fmt<W: fmt::Write>(&self, f: &mut fmt::Formatter<W>) -> fmt::Result {
        write!(f, "{}", self.0)
    }
}

// 32-bit flags under XOR.
#[derive(Clone, Copy)]
pub struct Flags(pub u32);

impl Group for Flags {
    ghost Meaning = { Residue (2 ^ 32) };

    ghost group = { flags };

    ghost mean = { λ w. reduce (2 ^ 32) w.0 };

    fn words() -> usize {
        1
    }

    fn zero() -> Flags {
        Flags(0)
    }

    fn add(self, other: Flags) -> Flags {
        Flags(self.0 ^ other.0)
    }

    fn neg(self) -> Flags {
        self
    }

    fn from_draw(words: &[u64; 8], start: usize) -> Flags {
        Flags(low_half(words[start % 8]))
    }
}

// Stays: as Word's. They are two types, and one impl for all number types would overlap the pair's.
impl fmt::Display for Flags {
    ghost output = { λ w. Some (decimal w.0) };

    fn fmt<W: fmt::Write>(&self, f: &mut fmt::Formatter<W>) -> fmt::Result {
        write!(f, "{}", self.0)
    }
}

// A word's low 32 bits.
pub fn low_half(word: u64) -> u32
    ensures { result ≡ word % 2 ^ 32 }
{
    (word % 0x1_0000_0000) as u32
}

// Two groups side by side.
#[derive(Clone, Copy)]
pub struct Pair<L, R> {
    pub left: L,
    pub right: R,
}

impl<L: Group, R: Group> Group for Pair<L, R> {
    ghost Meaning = { L.Group.Meaning × R.Group.Meaning };

    ghost group = { both L.Group.group R.Group.group };

    ghost mean = { λ p. (L.Group.mean p.left, R.Group.mean p.right) };

    fn words() -> usize {
        (L::words() + R::words()).min(9)
    }

    fn zero() -> Pair<L, R> {
        Pair {
            left: L::zero(),
            right: R::zero(),
        }
    }

    fn add(self, other: Pair<L, R>) -> Pair<L, R> {
        Pair {
            left: self.left.add(other.left),
            right: self.right.add(other.right),
        }
    }

    fn neg(self) -> Pair<L, R> {
        Pair {
            left: self.left.neg(),
            right: self.right.neg(),
        }
    }

    fn from_draw(words: &[u64; 8], start: usize) -> Pair<L, R> {
        let left = L::from_draw(words, start);
        let right = R::from_draw(words, (start % 8 + L::words()) % 8);
        Pair { left, right }
    }
}

// Its parts, with a comma between.
impl<L: fmt::Display, R: fmt::Display> fmt::Display for Pair<L, R> {
    ghost output = { λ p. L.Display.output p.left ++? Some (codes ",") ++? R.Display.output p.right };

    fn fmt<W: fmt::Write>(&self, f: &mut fmt::Formatter<W>) -> fmt::Result {
        write!(f, "{},{}", self.left, self.right)
    }
}

pub type Quad = Pair<Pair<Word, Word>, Pair<Word, Word>>;

// Four words, in their order.
impl From<[u64; 4]> for Quad {
    ghost from_gives = { λ words quad. quad ≡ quad_from words };

    fn from([a, b, c, d]: [u64; 4]) -> Quad {
        Pair {
            left: Pair {
                left: Word(a),
                right: Word(b),
            },
            right: Pair {
                left: Word(c),
                right: Word(d),
            },
        }
    }
}

// The difference of two elements.
pub fn difference<G: Group>(a: G, b: G) -> G
    ensures { G.Group.mean result ≡ minus G.Group.group (G.Group.mean a) (G.Group.mean b) }
{
    a.add(b.neg())
}
