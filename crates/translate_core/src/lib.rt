//! One message from any protocol to any other, event by event.
//!
//! A frame passes whole, or nothing is written of it and its cause is told: the fault that stands in it, or else the
//! first value that the target's protocol can't hold. What an IDL declares of each value says how a string of JSON is
//! read and with which kinds an empty map is written. No tree is built and no memory is taken.
#![tactic(auto)]

mod answering;
mod body;
mod laws;
mod message;

pub use answering::{answer, spellable};
pub use body::first_cause;
pub use laws::an_answer_is_a_declared_failure;
pub use message::{keep, translate, verdict_by};
