//! What runs in threads may move there.
use crate::{Bell, CrewNetwork};
use mio_edge::{MioFan, MioHub};
use std::net::Net;

/// The hub and the fan of a server over the network of a crew may move to its thread, and so may that by which it tells the others
/// that it has ended. It does nothing: where it is proved, this is.
pub fn a_server_may_move<'n, N: Net + Sync + 'n>() {
    may_move::<MioHub<CrewNetwork<'n, N>>>();
    may_move::<MioFan<CrewNetwork<'n, N>>>();
    may_move::<Bell>();
}

fn may_move<T: Send>() {}
