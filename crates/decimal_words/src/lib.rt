//! Decimal numbers as words and lines spell them.
#![tactic(auto)]

mod digits;
mod numeral;

pub use digits::{NUMBER_ROOM, push_number};
pub use numeral::{number, number_within};
