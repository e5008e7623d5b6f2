// The arithmetic of the gates, without keys: each function is one definition of the rules.
#![tactic(auto)]

mod counts;
mod flag;
mod piece;
mod product;
mod shift;
mod splits;

pub use counts::{after_end, extra_for, once, once_less, part_of, point_for, threshold_for};
pub use flag::flag_share;
pub use piece::{payload_for, piece_share};
pub use product::product_share;
pub use shift::{low_bits, low_key_payload, point_at, rest_for, shift_share, step_count};
pub use splits::{flags_part, number_part};
