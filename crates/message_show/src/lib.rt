//! A message in a line of text that people read.
//!
//! The line of a frame is gathered while the frame is read, and is written only when the frame has proved to be a message: so of a
//! frame that is no message nothing is written. Where the line doesn't fit in the place where it is gathered, the frame is read a
//! second time and the line is written in pieces. What an IDL declares gives fields their names. No tree is built and no memory is
//! taken.
#![tactic(auto)]

mod checking;
mod events;
mod failing_sink;
mod levels;
mod line;
mod open_level;
mod printed;
mod showing;
mod telling;
mod texts;
mod values;

pub use showing::{Shown, show};
