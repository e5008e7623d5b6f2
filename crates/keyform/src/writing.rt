// Writing a comparison key: its root, its rows one after another, its final element.
ghost use Rattle.std.specs.Prelude.{◌≡◌};
ghost use Rattle.buffers.specs.Forms.{Put, Room};
ghost use Rattle.layout.specs.Keys.{row_bytes, rows_bytes, key_bytes, seed_bytes};

use crate::bits::Bits;
use buffers::Writer;
use expander::Seed;
use group::Group;
use key::{KeyEnds, Row};
use stored::StoredGroup;

// Writes an element, which fills the buffer's next bytes itself.
// Stays: a method of the writer that lends these bytes, for this one caller, would be no plainer.
pub fn put_element<G: StoredGroup>(writer: &mut Writer, element: G)
    requires { Room writer.old (G.StoredGroup.form element) }
    ensures { Put writer.old (G.StoredGroup.form element) writer.new }
{
    let end = writer.at + G::size_of();
    element.write(&mut writer.out[writer.at..end]);
    writer.at = end;
}

pub fn put_seed(writer: &mut Writer, seed: Seed)
    requires { Room writer.old (seed_bytes seed) }
    ensures { Put writer.old (seed_bytes seed) writer.new }
{
    writer.put(&seed.bytes);
}

pub fn put_row<G: StoredGroup>(writer: &mut Writer, row: &Row<G>)
    requires { Room writer.old (row_bytes G.StoredGroup.form row.now) }
    ensures { Put writer.old (row_bytes G.StoredGroup.form row.now) writer.new }
{
    put_seed(writer, row.word);
    writer.put_byte(u8::from(Bits {
        left: row.left,
        right: row.right,
    }));
    put_element(writer, row.element);
}

pub fn put_rows<G: StoredGroup>(writer: &mut Writer, rows: &[Row<G>])
    requires { Room writer.old (rows_bytes G.StoredGroup.form rows.now) }
    ensures { Put writer.old (rows_bytes G.StoredGroup.form rows.now) writer.new }
{
    for row in rows {
        put_row(writer, row);
    }
}

// Writes a key.
pub fn put_key<G: StoredGroup>(writer: &mut Writer, ends: KeyEnds<G>, rows: &[Row<G>])
    requires { Room writer.old (key_bytes G.StoredGroup.form ends.root rows.now ends.last) }
    ensures { Put writer.old (key_bytes G.StoredGroup.form ends.root rows.now ends.last) writer.new }
{
    put_seed(writer, ends.root);
    put_rows(writer, rows);
    put_element(writer, ends.last);
}
