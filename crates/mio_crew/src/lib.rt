//! Several servers at one address, each in a thread of its own: the networks under their sockets.
//!
//! `open_crew` makes a network for each server. One of them has the listener: it accepts the connections of all, numbers
//! them in that order, and hands each to the server that has the most places, by a ring to each other and a wake of its poll.
//! It is a server like the others and keeps those for which it has the most places itself, and those for which nobody has one.
//!
//! Nothing waits for another thread. The servers share a count of each one's free places, whether one of them has
//! ended before its time, and the addresses that were found for the targets' names.
#![tactic(auto)]

mod bell;
mod crew;
mod crew_network;
mod handed;
mod moving;
mod opening;
mod ring;

pub use bell::Bell;
pub use crew_network::CrewNetwork;
pub use moving::a_server_may_move;
pub use opening::{Member, open_crew};
