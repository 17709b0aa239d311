//! The server of routed connections: their turns over a fan, and the service of all of them until it stops.
//!
//! It is to a router and a fan what the server of sessions is to a session and a hub, with a port for the side.
#![tactic(auto)]

mod lines;
mod server;
mod serving;
mod table;
mod turn_end;
mod turning;
mod waiting;

pub use serving::route_serve;
pub use turn_end::RouteTurn;
pub use turning::route_turn;
