//! The server between many clients and their upstreams: the turn of a session over a hub, and the service of all
//! sessions until the hub stops.
//!
//! A turn moves bytes between the hub and one session until nothing moves, a call fails, the session has ended or
//! enough has moved. The server asks the hub for the next event only when every open session is settled, and writes one
//! line for each session as soon as it ends.
#![tactic(auto)]

mod judges;
mod lines;
mod server;
mod serving;
mod table;
mod turn_end;
mod turning;
mod waiting;

pub use judges::Judges;
pub use server::Limits;
pub use serving::serve;
pub use turn_end::Turn;
pub use turning::turn;
