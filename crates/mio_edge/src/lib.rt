//! The hub over real sockets: one thread, which waits for the readiness of all of them at once.
//!
//! `Sockets` listens at an address. Each connection that it accepts is a session, whose port 0 is
//! the client and whose further ports are connections to the upstreams, one address a port. `MioHub`
//! is the hub of sessions with one upstream, connected with the session; `MioFan` is the fan, whose
//! sessions are connected to each target when the first byte is to be sent to it.
//!
//! All sockets are non-blocking. Each port has a buffer each way, taken in `start`, where a session has
//! one upstream of 256 KiB for up to 64 sessions and of 64 KiB for more: bytes are read from a socket in pieces as large as the buffer and handed
//! out as they are asked for, and what is written is gathered, and sent in one system call a port before the
//! hub waits, or once 16 sessions were written to.
//! A session that moved 512 KiB, or 128 KiB where there may be more than 64 sessions, since it was last
//! named waits until the others that are ready had their turn.
//!
//! The rules stand over two traits: a `Stream` is a connection that may tell what went over it, and a
//! `Network` has the streams of a server, and waits for what comes of them. The system's tell nothing,
//! since what peers sent is the system's word; its impls only call. A network may be one of several whose servers share an
//! address: `MioNetwork` is alone, and of the others each number may be another's. Over streams that tell, `MioHub`
//! tells by the rules of a hub: of each open session, what its own streams gave and took. `MioFan` tells
//! nothing.
#![tactic(auto)]

mod buffers;
mod fan;
mod hub;
mod listening;
mod mio_network;
mod mio_stream;
mod network;
mod polling;
mod port;
mod queue;
mod serving;
mod session;
mod sockets;
mod stream;
mod table;
mod targets;

pub use fan::MioFan;
pub use hub::{MioHub, SideCounts};
pub use mio_network::MioNetwork;
pub use network::{Accepted, Handing, Network, Readiness, Reports, Waited};
pub use polling::{NotAccepted, Polling, accept_from, look_up};
pub use sockets::Sockets;
pub use stream::Stream;
