//! The outside in memory: a source, a sink, files, a hub and a fan that do what they were told to, and tell
//! all that went through them.
//!
//! Tests and laws about whole runs use them, and no code of the program does. Each fails at the calls
//! that it is told, so that every path of a caller can be tried.
#![tactic(auto)]

mod fails;
mod fan;
mod fan_session;
mod fan_steps;
mod files;
mod hub;
mod link;
mod steps;
mod streams;

pub use fails::Fails;
pub use fan::MemFan;
pub use fan_steps::{FanStep, FanSteps};
pub use files::MemFiles;
pub use hub::MemHub;
pub use steps::{HubStep, HubSteps};
pub use streams::{MemSink, MemSource};
