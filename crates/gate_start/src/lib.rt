//! What a command starts from, how it ends, and bytes that wait for its output.
//!
//! `prepare` reads what the words of a command declare, and `halt` ends a command that doesn't start. A command's ending gives
//! the exit code of the program and the last line of its report.
#![tactic(auto)]

mod page;
mod served;
mod start;
mod status;

pub use page::Page;
pub use served::end_served;
pub use start::{NoStart, Start, halt, prepare, read_idl};
pub use status::{Ending, Status, end_unfound, end_with, say, usage};
