//! How a side halts, and how a session ends.
use gate_hub::Side;
use protocol_traits::Fault;

/// Why a side can be taken no further.
#[derive(Clone, Copy, PartialEq, Eq)]
pub enum Halt {
    /// A frame whose header can't be read, with what is wrong there.
    Unread(Fault),
    /// A message that its side may not send: a reply or an exception of the client, a call of the upstream.
    WrongWay,
    /// A frame's length that is negative or above the limit.
    TooLarge(i32),
    /// The side ended inside a frame.
    Inside,
}

/// How a session ends. Frames are counted from 1, and a number that does not fit stands at 2^64 - 1.
#[derive(Clone, Copy, PartialEq, Eq)]
pub enum Outcome {
    /// The client ended at a frame's end, every call was answered, and the upstream said no more.
    Clean,
    /// The client's frame of this number halts it.
    ClientFault(u64, Halt),
    /// The upstream's frame of this number halts it while a call is open.
    UpstreamFault(u64, Halt),
    /// The upstream ended at a frame's end while so many calls were open.
    UpstreamEnded(u64),
    /// Like `Clean`, but the upstream sent an answer of this number to so many calls.
    Unsolicited { answer: u64, calls: u64 },
    /// A read or a write on this side failed. The server tells it.
    LinkFault(Side),
    /// As many sessions as are allowed were open already. The server tells it.
    Full,
    /// The memory for the session was not found. The server tells it.
    NoMemory,
}
