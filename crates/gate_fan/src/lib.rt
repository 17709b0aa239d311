//! The sessions of a server that leads each client to several targets, as the server sees them: the trait
//! `Fan` with the answers of its calls, and in specs/ what a fan tells of each session.
//!
//! It is to a hub what several ports are to two sides: port 0 of a session is the client's and port u that
//! of the u-th target. The answers are a hub's, and so is what one port tells.
#![tactic(auto)]

mod fan;

pub use fan::{Fan, Target};
