//! What every crate of the gateway names: the want of memory, texts that contracts see as lists, and
//! when a fault may be answered.
#![tactic(auto)]

mod memory;
mod texts;

pub use memory::OutOfMemory;
pub use texts::{Text, Word};
