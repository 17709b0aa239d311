//! A session between a client and an upstream: which frames are taken, what is due to each side, and how it ends.
//!
//! Frames of the client are passed on in order, up to as many open calls as are allowed; frames of the upstream answer
//! the calls by their place. A refused call is answered in its place. How a frame is judged is the `Judge`'s part: the
//! session stands on its rules alone.
#![tactic(auto)]

mod framing;
mod half;
mod judge;
mod laws;
mod notes;
mod outcome;
mod session;
mod state;

pub use half::due_room;
pub use judge::{Call, CallLook, ClientJudged, Judge, UpstreamJudged};
pub use laws::{all_that_is_due_was_sent, what_is_due_is_one, what_was_sent_is_a_front};
pub use notes::{Notes, Refusal, Silent};
pub use outcome::{Halt, Outcome};
pub use session::Session;
pub use state::{MOST_CALLS, SessionStep, Standstill, Waiting};
