// The plan that is being read, line by line, with its random words.
#![tactic(auto)]

ghost use Rattle.std.specs.Prelude.{◌≡◌, true, false, [], ◌∷◌, ◌++◌, OnOk};
ghost use Rattle.draft.specs.Drafts.{numbers_of, numbers_held, drafted, view, with_row, with_words, followed};

use orders::{Number, word_at};
use plan::{Plan, PlanRow};
use planlines::{PlanLine, number_in};
use std::alloc::{AllocError, Global};

#[derive(Drop)]
pub struct Draft {
    // None where no plan was begun.
    width: Option<u8>,
    owners: Vec<u8>,
    rows: Vec<PlanRow>,
    words: Vec<u64>,
}

// Adds the first numbers of a word to a list.
fn push_numbers<N: Number>(list: &mut Vec<N>, word: &[u8], count: usize) -> Result<(), AllocError>
    ensures { OnOk result (list.new.items ≡ list.old.items ++ numbers_held N.held N.MOST word.now count) }
{
    // Stays: by their places, since past the last number of the word stand zeros.
    for k in 0..count {
        list.push(N::hold(number_in(word, k, N::MOST)))?;
    }
    Ok(())
}

impl Draft {
    // Nothing was read yet.
    pub fn new(heap: Global) -> Draft
        ensures { view result ≡ drafted false 0 [] [] [] }
    {
        Draft {
            width: None,
            owners: Vec::new(heap),
            rows: Vec::new(heap),
            words: Vec::new(heap),
        }
    }

    // Whether a plan was begun.
    pub fn is_begun(&self) -> bool
        ensures { result ≡ (view self.now).begun }
    {
        self.width.is_some()
    }

    // A new plan: its width and the first owners of a word, without gates and random words.
    fn begin(&mut self, width: u8, word: &[u8], owners: usize) -> Result<(), AllocError>
        ensures { OnOk result (view self.new ≡ drafted true width (numbers_of 255 word.now owners) [] []) }
    {
        self.width = Some(width);
        self.owners.clear();
        self.rows.clear();
        self.words.clear();
        push_numbers(&mut self.owners, word, owners)
    }

    // One gate more.
    fn add_row(&mut self, row: PlanRow) -> Result<(), AllocError>
        ensures { OnOk result (view self.new ≡ with_row (view self.old) row) }
    {
        self.rows.push(row)?;
        Ok(())
    }

    // The first random words of a word.
    fn add_words(&mut self, word: &[u8], count: usize) -> Result<(), AllocError>
        ensures { OnOk result (view self.new ≡ with_words (view self.old) word.now count) }
    {
        push_numbers(&mut self.words, word, count)
    }

    // What a line says of a plan. Without one, gates and random words are passed over.
    pub fn follow(&mut self, line: &[u8], order: PlanLine) -> Result<(), AllocError>
        ensures { OnOk result (view self.new ≡ followed line.now order (view self.old)) }
    {
        match order {
            PlanLine::Begin { width, owners } => self.begin(width, word_at(line, 3), owners),
            PlanLine::Gate(row) if self.is_begun() => self.add_row(row),
            PlanLine::Words { count } if self.is_begun() => self.add_words(word_at(line, 2), count),
            _ => Ok(()),
        }
    }

    pub fn plan(&self) -> Plan
        ensures { (result.width ≡ (view self.now).width) × (result.owners.now ≡ (view self.now).owners)
            × (result.rows.now ≡ (view self.now).rows) }
    {
        Plan {
            width: self.width.unwrap_or(0),
            owners: self.owners.as_slice(),
            rows: self.rows.as_slice(),
        }
    }

    pub fn words(&self) -> &[u64]
        ensures { result.now ≡ (view self.now).words }
    {
        self.words.as_slice()
    }
}
