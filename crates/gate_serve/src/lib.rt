//! The server, from a start to its ending: it serves the sessions of a hub, as the words of the command wrap it.
//!
//! Where several servers share an address, who runs them calls `serve_all` for each.
#![tactic(auto)]

mod judges;
mod serve;

pub use serve::serve_all;
