//! The sessions of a server, as the server sees them: the trait `Hub` with the answers of its calls,
//! and in specs/ what a hub tells of each session.
//!
//! A hub counts its faults, and a call answers that it failed only where its count rose. A hub tells
//! what each session received and sent, where it can: the hub in memory does, and one over real
//! sockets tells nothing.
#![tactic(auto)]

mod hub;

pub use hub::{Began, Hub, HubNext, LinkGot, LinkPut, Served, Side};
