//! The commands that work on streams: an IDL is checked, frames are converted, shown or checked by what an IDL declares, and messages
//! are made.
//!
//! Each has a file of its own: `check`, `convert`, `show`, `conform`, `drill`. A conversion, a showing and a check of messages are a `job` that goes
//! through a `stream` of frames, each of which is handled in `frame`. Frames that pass from a protocol to one that is as plain are converted in
//! a `run`.
#![tactic(auto)]

mod check;
mod conform;
mod convert;
mod drill;
mod frame;
mod handler;
mod job;
mod lines;
mod run;
mod show;
mod stream;
mod task;

pub use check::check_idl;
pub use drill::drill_all;
pub use job::{StreamJob, start_stream};
pub use task::Doing;
