// Gates with a key: dealing, answering and joining.
#![tactic(auto)]

mod flag;
mod interval_key;
mod intervals;
mod piece;
mod product;
mod questions;
mod reading;
mod shift;
mod states;

pub use interval_key::{IntervalDeal, IntervalDraws, IntervalKey};
pub use intervals::{IntervalGate, deal_interval, interval_gate};
pub use product::{ProductKey, deal_product, product_gate};
pub use reading::{read_interval_key, read_product_key, read_shift_key};
pub use shift::{ShiftKey, ShiftRows, deal_shift, shift_gate};
pub use states::{Fresh, GateAnswers, Half, Joined, Shared};
