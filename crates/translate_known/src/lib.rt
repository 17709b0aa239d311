//! What the ways through a message by forms share: what is known of each value's type, what was taken, and what is told of a frame.
#![tactic(auto)]

mod habit;
mod kinds;
mod known;
mod names;
mod outcome;
mod reach;

pub use habit::Habit;
pub use kinds::{container_kind, sequence_kind, sequence_of};
pub use known::{Declared, Known, Nothing, Undeclared, mark_for};
pub use names::holds_name;
pub use outcome::Outcome;
pub use reach::Reach;
