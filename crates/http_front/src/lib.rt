//! An HTTP front: a hub whose clients send each message as the body of a POST, over a hub of bytes.
#![tactic(auto)]

mod answers;
mod asking;
mod copies;
mod fields;
mod front;
mod head;
mod hub;
mod laws;
mod look;
mod replies;
mod slots;
mod stage;

pub use hub::HttpHub;
pub use laws::a_stream_is_cut;
