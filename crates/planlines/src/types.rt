// What a line about plans and books says.
use orders::Kind;
use plan::PlanRow;

// Stays: a count of numbers and not the numbers: a list needs memory, which can run out where reading a line cannot
// fail so; and a part of the line would bring its place in memory into what a line says.
#[derive(Clone, Copy)]
pub enum PlanLine {
    // Begins a plan; word 3 has so many owners.
    Begin {
        width: u8,
        owners: usize,
    },
    // One gate more.
    Gate(PlanRow),
    // Word 2 has so many random words.
    Words {
        count: usize,
    },
    // Deals both books; says all of them, or leaves keys and hex out.
    Books {
        kind: Kind,
        deal: u32,
        room: usize,
        whole: bool,
    },
    // Reads a book; word 3 has so many bytes of it.
    Book {
        kind: Kind,
        bytes: usize,
    },
}
