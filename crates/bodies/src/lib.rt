// One wire's body in a book: what it says, and whether it is of its layout with allowed fields.
#![tactic(auto)]

mod asking;
mod reading;

pub use asking::{gate_fits, input_fits};
pub use layout::after;
pub use plan::GateHead;
pub use reading::{byte_in, gate_in, head_in, input_in, key_in, number_in, part_of};

// What a body says of its wire, without the key.
#[derive(Clone, Copy)]
pub enum WireBody {
    Input { owner: u8, mask: Option<u32> },
    Gate { shown: Option<u32>, gate: GateHead },
}
