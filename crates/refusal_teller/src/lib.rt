//! The line of each frame that is refused, written as the step is taken that refuses it.
#![tactic(auto)]

mod lines;
mod teller;

pub use lines::{RefusalLines, Untold};
pub use teller::Teller;
