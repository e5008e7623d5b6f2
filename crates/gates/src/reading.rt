// Fresh gate keys from a book's bytes: beside dealing the only way to one. Whether the numbers in a key are below N is asked
// of the whole body, where the kind of the gate is known, and not here.
ghost use Rattle.std.specs.Prelude.{◌≡◌};
ghost use Rattle.keyform.specs.Forms.{word_form};
ghost use Rattle.gates.specs.Reads.{IntervalKeyRead, ShiftKeyRead, ProductKeyRead};

use crate::interval_key::IntervalKey;
use crate::product::ProductKey;
use crate::questions::{ask_rows, ask_shift_rows};
use crate::shift::{ShiftKey, ShiftRows};
use crate::states::Fresh;
use gatekeys::{Interval, Shift};
use group::Word;
use key::{BoxNumber, Rows};
use keyform::{read_interval, read_product, read_shift};
use masking::Width;
use refusal::Refusal;
use stored::StoredGroup;

// Stays: three readers, since each asks its own questions and fills its own tables; what they share is keyform's.

// The key of an interval gate: its rows into the table, which has as many as the width (else refusal 43). Refusal 16 where no
// key has these bytes.
pub fn read_interval_key<G: StoredGroup>(
    number: BoxNumber,
    interval: Interval,
    bytes: &[u8],
    rows: &mut Rows<G>,
) -> Result<Fresh<IntervalKey<G>>, Refusal>
    ensures key { IntervalKeyRead G.StoredGroup.form number interval bytes.now
        rows.old.rows.now rows.new.rows.now result }
    ensures same { rows.new.rows.ghost_name ≡ rows.old.rows.ghost_name }
{
    ask_rows(interval.width(), rows.count())?;
    let parts = read_interval(bytes, rows).ok_or(Refusal::BookBodies)?;
    Ok(Fresh::new(IntervalKey {
        number,
        interval,
        parts,
    }))
}

// The key of a shift: the low table has as many rows as the shift, the high one as the width.
pub fn read_shift_key(
    number: BoxNumber,
    shift: Shift,
    bytes: &[u8],
    rows: ShiftRows,
) -> Result<Fresh<ShiftKey<Word>>, Refusal>
    ensures key { ShiftKeyRead word_form number shift bytes.now rows.entry.low.now.rows.now rows.entry.high.now.rows.now
        rows.exit.0.now.rows.now rows.exit.1.0.now.rows.now result }
    ensures same_low { rows.exit.0.now.rows.ghost_name ≡ rows.entry.low.now.rows.ghost_name }
    ensures same_high { rows.exit.1.0.now.rows.ghost_name ≡ rows.entry.high.now.rows.ghost_name }
{
    ask_shift_rows(shift, &rows)?;
    let ShiftRows { low, high } = rows;
    let parts = read_shift(bytes, low, high).ok_or(Refusal::BookBodies)?;
    Ok(Fresh::new(ShiftKey {
        number,
        shift,
        parts,
    }))
}

// The key of a product.
pub fn read_product_key(
    number: BoxNumber,
    width: Width,
    bytes: &[u8],
) -> Result<Fresh<ProductKey>, Refusal>
    ensures { ProductKeyRead number width bytes.now result }
{
    let parts = read_product(bytes).ok_or(Refusal::BookBodies)?;
    Ok(Fresh::new(ProductKey {
        number,
        width,
        parts,
    }))
}
