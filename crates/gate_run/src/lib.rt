//! The gateway's one call: `run` reads the words of a command and does what they say over sources,
//! sinks, files, a hub and a fan that are handed to it. Its contract tells what was read, written and reported
//! at each status.
//!
//! What a command starts from and how it ends stands in gate_start, the commands that work on streams in gate_streams, the server in
//! gate_serve and the router in gate_route; run_laws has laws of what is done where nothing fails.
#![tactic(auto)]

mod commands;
mod help;
mod router;
mod server;

pub use commands::run;
