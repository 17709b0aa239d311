//! Several servers at one address, each in a thread of its own.
//!
//! Each worker of a crew serves its own part of the sessions over its own hub, writes the lines of its sessions to its own output, and
//! keeps what it has to report. Sessions share nothing. Where a worker's server ends before its time, the worker has the others end
//! too, and the crew ends as the first of these workers did: its report is reported, and its ending is that of the whole.
#![tactic(auto)]

mod routing;
mod serving;
mod telling;
mod worker;

pub use routing::route_crew;
pub use serving::serve_crew;
pub use worker::Worker;
