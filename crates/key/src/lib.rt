// The rows of a comparison key, in a table over the caller's memory.
#![tactic(auto)]

ghost use Rattle.std.specs.Prelude.{◌≡◌, if◌then◌else◌, length, set};
ghost use Rattle.key.specs.Rows.{is_one, row_bit};

use expander::Seed;

// Which of the two boxes: box 0 or box 1.
#[derive(Clone, Copy, PartialEq, Eq)]
pub enum BoxNumber {
    Zero,
    One,
}

impl BoxNumber {
    pub fn is_one(self) -> bool
        ensures { result ≡ is_one self }
    {
        self == BoxNumber::One
    }
}

// The roots that a key is dealt from, one for each box.
#[derive(Clone, Copy)]
pub struct Roots {
    pub zero: Seed,
    pub one: Seed,
}

impl Roots {
    // A box's own root.
    pub fn of(self, number: BoxNumber) -> Seed
        ensures { result ≡ (if is_one number then self.one else self.zero) }
    {
        match number {
            BoxNumber::Zero => self.zero,
            BoxNumber::One => self.one,
        }
    }
}

// A box's key, but for its rows, which stand in the caller's table.
#[derive(Clone, Copy)]
pub struct KeyEnds<G> {
    pub root: Seed,
    pub last: G,
}

// One row of a key: a seed word, a bit for each side, and an element.
#[derive(Clone, Copy)]
pub struct Row<G> {
    pub word: Seed,
    pub left: bool,
    pub right: bool,
    pub element: G,
}

impl<G: Copy> Row<G> {
    // The bit of one side.
    pub fn bit(self, right: bool) -> bool
        ensures { result ≡ row_bit self right }
    {
        if right { self.right } else { self.left }
    }
}

// A table of rows over memory of the caller's.
// Stays: a function that is handed a table says that the table keeps its memory (the clauses `same`). Given by value, a
// table that is passed on or let go tells nothing of what was written in it (tried: the proof of such a `deal` doesn't
// close); with an `impl Model` in place of the clauses, the memory's owner learns nothing of it (tried too).
#[derive(Drop)]
pub struct Rows<'a, G> {
    pub rows: &'a mut [Row<G>],
}

impl<'a, G: Copy> Rows<'a, G> {
    pub fn over(rows: &'a mut [Row<G>]) -> Rows<'a, G>
        ensures rows { result.rows.now ≡ rows.old }
        ensures same { result.rows.ghost_name ≡ rows.entry.ghost_name }
    {
        Rows { rows }
    }

    pub fn count(&self) -> usize
        ensures { result ≡ length self.now.rows.now }
    {
        self.rows.len()
    }

    // The rows, to be read.
    pub fn as_slice(&self) -> &[Row<G>]
        ensures { result.now ≡ self.now.rows.now }
    {
        &*self.rows
    }

    // Writes row i; past the end nothing is written.
    pub fn put(&mut self, i: usize, row: Row<G>)
        ensures rows { self.new.rows.now ≡ set self.old.rows.now i row }
        ensures same { self.new.rows.ghost_name ≡ self.old.rows.ghost_name }
    {
        if i < self.rows.len() {
            self.rows[i] = row;
        }
    }
}
