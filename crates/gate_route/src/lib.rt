//! The router, from a start to its ending: it leads the calls of the sessions of a fan.
//!
//! Where several routers share an address, who runs them calls `route_all` for each.
#![tactic(auto)]

mod route;

pub use route::route_all;
