//! The quick way of a message from one protocol to another: by forms, a call an item, where all is plain good.
//!
//! What it takes is what a translation event by event gives. Where it doesn't lead to the end the output is as it was, and nothing is said
//! of the frame.
#![tactic(auto)]

mod fields;
mod leaves;
mod lists;
mod pairs;
mod passing;
mod quick;
mod runs;

pub use passing::{append_told, lay_declared, lay_quickly, pass_quickly, room_for};
