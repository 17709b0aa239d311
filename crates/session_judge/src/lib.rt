//! How the frames of a session are judged, between a client and an upstream of two protocols and by what an IDL declares.
//!
//! A frame of the client is translated by the method that its name means, and a frame of the upstream as the reply to its
//! call. A refused call or reply is answered with an exception that tells the cause.
#![tactic(auto)]

mod calls;
mod pair;
mod replies;
mod setup;

pub use calls::of_client;
pub use pair::PairJudge;
pub use replies::judge_reply;
pub use setup::{Setup, open};
