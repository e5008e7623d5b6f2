// A comparison key and the key of a gate as bytes, for every stored group alike: writing them and reading them.
#![tactic(auto)]

mod bits;
mod gate_keys;
mod reading;
mod writing;

pub use gate_keys::{
    IntervalParts, ProductParts, ShiftParts, interval_fits, put_interval, put_product, put_shift,
    read_interval, read_product, read_shift, shift_fits,
};
pub use reading::{key_fits, read_key, read_seed};
pub use writing::{put_element, put_key, put_row, put_rows, put_seed};
