// Reading a comparison key: every question is asked before the first row is written.
ghost use Rattle.std.specs.Prelude.{◌≡◌, ◌+◌, ◌-◌, ◌^◌, ◌<◌, ◌≤◌, min, length, take, Decides, MatchOption};
ghost use Rattle.layout.specs.Keys.{seed_bytes};
ghost use Rattle.keyform.specs.Reads.{Whole, RowIn, RowsIn, LastIn, LastRead, EndsIn, EndsRead, KeyIn, RowRead, RowsRead};
ghost use Rattle.keyform.specs.Reads.{ReadOrKept};

use crate::bits::Bits;
use expander::Seed;
use group::Group;
use key::{KeyEnds, Row, Rows};
use stored::StoredGroup;

// The seed that stands in front.
pub fn read_seed(bytes: &[u8]) -> Seed
    requires { 16 ≤ length bytes.now }
    ensures same { seed_bytes result ≡ take 16 bytes.now }
    ensures whole { Whole result }
{
    Seed {
        bytes: *bytes.first_chunk().unwrap(),
    }
}

// The row that has these bytes, or `None` where no row has them.
fn read_row<G: StoredGroup>(bytes: &[u8]) -> Option<Row<G>>
    ensures { MatchOption result (RowIn G.StoredGroup.form bytes.now → ⊥)
        (λ row. RowRead G.StoredGroup.form bytes.now row) }
{
    let (word, rest) = bytes.split_at_checked(16)?;
    let (byte, element) = rest.split_first()?;
    let bits = Bits::try_from(*byte).ok()?;
    let element = G::read(element)?;
    Some(Row {
        word: read_seed(word),
        left: bits.left,
        right: bits.right,
        element,
    })
}

// How many bytes a row has.
pub(crate) fn row_size<G: StoredGroup>() -> usize
    ensures { result ≡ min (17 + G.StoredGroup.size) (2 ^ 64 - 1) }
{
    G::size_of().saturating_add(17)
}

// Does a row have these bytes?
fn row_fits<G: StoredGroup>(bytes: &[u8]) -> bool
    ensures { Decides result (RowIn G.StoredGroup.form bytes.now) }
{
    read_row::<G>(bytes).is_some()
}

// Do so many rows have these bytes?
fn rows_fit<G: StoredGroup>(bytes: &[u8], count: usize) -> bool
    ensures { Decides result (RowsIn G.StoredGroup.form count bytes.now) }
{
    let size = row_size::<G>();
    count.checked_mul(size) == Some(bytes.len())
        && bytes.chunks_exact(size).all(|row| row_fits::<G>(row))
}

// Fills the table with the rows that have these bytes.
fn fill<G: StoredGroup>(bytes: &[u8], rows: &mut Rows<G>)
    requires { RowsIn G.StoredGroup.form (length rows.old.rows.now) bytes.now }
    ensures read { RowsRead G.StoredGroup.form (length rows.old.rows.now) bytes.now
        rows.new.rows.now }
    ensures same { rows.new.rows.ghost_name ≡ rows.old.rows.ghost_name }
{
    let mut chunks = bytes.chunks_exact(row_size::<G>());
    for row in rows.rows.iter_mut() {
        let Some(read) = chunks.next().and_then(|bytes| read_row(bytes)) else {
            return;
        };
        *row = read;
    }
}

// The element at the end of these bytes behind what stands before it, or `None` where none ends them.
pub(crate) fn read_last<G: StoredGroup>(bytes: &[u8]) -> Option<(&[u8], G)>
    ensures { MatchOption result (LastIn G.StoredGroup.form bytes.now → ⊥)
        (λ l. LastRead G.StoredGroup.form bytes.now l.0.now l.1) }
{
    let (front, last) = bytes.split_at(bytes.len().checked_sub(G::size_of())?);
    Some((front, G::read(last)?))
}

// What these bytes have at their two ends, and the bytes between, or `None` where they have no ends.
fn read_ends<G: StoredGroup>(bytes: &[u8]) -> Option<(&[u8], KeyEnds<G>)>
    ensures { MatchOption result (EndsIn G.StoredGroup.form bytes.now → ⊥)
        (λ e. EndsRead G.StoredGroup.form bytes.now e.0.now e.1) }
{
    let (root, rest) = bytes.split_at_checked(16)?;
    let (between, last) = read_last(rest)?;
    let root = read_seed(root);
    Some((between, KeyEnds { root, last }))
}

// Does a key of so many rows have these bytes?
pub fn key_fits<G: StoredGroup>(bytes: &[u8], count: usize) -> bool
    ensures { Decides result (KeyIn G.StoredGroup.form count bytes.now) }
{
    read_ends::<G>(bytes).is_some_and(|(between, _)| rows_fit::<G>(between, count))
}

// Reads a key of as many rows as the table has: its rows into the table, the rest as the result. Where no key has these
// bytes the table stays as it is.
pub fn read_key<G: StoredGroup>(bytes: &[u8], rows: &mut Rows<G>) -> Option<KeyEnds<G>>
    ensures read { ReadOrKept G.StoredGroup.form bytes.now
        rows.old.rows.now rows.new.rows.now result }
    ensures same { rows.new.rows.ghost_name ≡ rows.old.rows.ghost_name }
{
    let (between, ends) = read_ends(bytes)?;
    if !rows_fit::<G>(between, rows.count()) {
        return None;
    }
    fill(between, rows);
    Some(ends)
}
