//! How a connection that is led to several targets ends.
use session_core::Halt;

/// How a routed connection ends. Port 0 is the client's and port u that of the u-th target. Frames are counted from 1, and a
/// number that does not fit stands at 2^64 - 1.
#[derive(Clone, Copy)]
pub enum RouteOutcome {
    /// The client ended at a frame's end, every call was answered, and no target said more.
    Clean,
    /// The client's frame of this number halts it.
    ClientFault(u64, Halt),
    /// The frame of this number of the target at this port halts it while its call is the oldest that is open.
    UpstreamFault(usize, u64, Halt),
    /// The target at this port ended at a frame's end while its call was the oldest, and so many of the open calls went to it.
    UpstreamEnded(usize, u64),
    /// Like `Clean`, but the target at this port sent an answer of this number to so many calls. The least such port is told.
    Unsolicited {
        port: usize,
        answer: u64,
        calls: u64,
    },
    /// A read or a write on this port failed. The server tells it.
    LinkFault(usize),
    /// As many connections as are allowed were open already. The server tells it.
    Full,
    /// The memory for the connection was not found. The server tells it.
    NoMemory,
}
