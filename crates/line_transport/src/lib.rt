//! Messages on a stream: each in a frame, or each on a line of its own.
//!
//! A line is what stands before an LF, and what stands behind the last one where there is anything. A line of
//! nothing but whitespace is passed over. A line is at most as long as the limit allows.
//!
//! A `MessageBuf` holds what has come of a stream of frames or of lines, and says what stands at its front. `begin`
//! and `close` write a message. A stream is cut into its messages and a rest in one way.
#![tactic(auto)]

mod laws;
mod lines;
mod messages;
mod transport;
mod writing;

pub use laws::{
    a_message_stands_at_the_front, a_stream_is_cut, excess_stays, frames_are_cut,
    lines_are_cut_back, one_cutting,
};
pub use lines::LineBuf;
pub use messages::{MessageBuf, whole_frame};
pub use transport::{Excess, Next, Transport};
pub use writing::{begin, close};
