//! The line that tells of a frame that a server refused: whose it was, its name and sequence number, and the cause.
//!
//! The frame's header is read by its own protocol. Of a long name its first bytes are told, so a line is short whatever a
//! peer sends.
#![tactic(auto)]

mod header;
mod line;
mod name;
mod telling;

pub use line::put_refusal;
pub use telling::Telling;
