//! Frames on a stream, after Apache Thrift's framed transport (RPC specification, "Framed vs. unframed
//! transport"): a length in four bytes, the high one first and signed, and that many bytes.
//!
//! A `FrameBuf` holds what has come of a stream and says what stands at its front. `begin` and `close`
//! write a frame. A stream is cut into its frames and a rest in one way.
#![tactic(auto)]

mod holding;
mod laws;
mod writing;

pub use holding::{FrameBuf, Next, next_of};
pub use laws::{
    a_full_buffer_holds_a_frame, a_length_too_large_stays, a_stream_is_split, a_whole_frame_stays,
    frame_stands_at_the_front, one_splitting,
};
pub use writing::{begin, close};
