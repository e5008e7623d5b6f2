// Rows as text, and the tables that they stand in.
ghost use Rattle.std.specs.Prelude.{◌≡◌, min, length};

use group::Group;
use hextext::Hex;
use key::{Row, Rows};
use std::{fmt, io};

// A table of so many rows, as far as the memory goes.
pub fn table<'a, G: Group>(memory: &'a mut [Row<G>], count: u8) -> Rows<'a, G>
    ensures count { length result.rows.now ≡ min count (length memory.old) }
{
    let count = (count as usize).min(memory.len());
    Rows::over(&mut memory[0..count])
}

fn print_rows<G: Group + fmt::Display>(rt: &HostRuntime, rows: &[Row<G>]) -> io::Result<()> {
    for (i, row) in rows.iter().enumerate() {
        let number = i + 1;
        let word = Hex(&row.word.bytes);
        let left = u8::from(row.left);
        let right = u8::from(row.right);
        let element = row.element;
        println!(rt; "row {number} word {word} left {left} right {right} element {element}")?;
    }
    Ok(())
}

// What both boxes hold of a comparison key: its rows and its final element.
pub fn print_common<G: Group + fmt::Display>(
    rt: &HostRuntime,
    rows: &[Row<G>],
    last: &G,
) -> io::Result<()> {
    print_rows(rt, rows)?;
    println!(rt; "final {last}")
}
