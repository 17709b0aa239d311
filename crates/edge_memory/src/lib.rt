//! A network in memory and its streams, which tell all that goes over them.
//!
//! They do what they were told to, as peers over a network would: connections come, bytes arrive, a
//! stream takes as many as there is room for, its end comes behind what arrived, and it breaks. The
//! sockets' rules hold over them as over the system's, which tell nothing.
#![tactic(auto)]

mod network;
mod stream;

pub use network::MemNetwork;
pub use stream::MemStream;
