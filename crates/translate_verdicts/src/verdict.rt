//! What becomes of a frame.
use protocol_traits::{Bar, Fault};
use thrift_value::MessageType;
use type_tables::MethodInfo;

/// Why a frame whose header was read does not pass.
#[derive(Clone, Copy)]
pub enum Cause {
    /// It is no message of its protocol.
    Grammar(Fault),
    /// It holds a value that the target's protocol can't hold, and its first byte stands at this place.
    Barred { place: usize, bar: Bar },
    /// No target serves what its name asks for. A translation never tells it: who leads messages to several targets does.
    NoRoute,
}

/// What a message's header says of it.
#[derive(Clone, Copy)]
pub struct HeadInfo {
    pub mtype: MessageType,
    /// The sequence number.
    pub seq: i32,
    /// The method that its name means, where one is looked for and is found.
    pub method: Option<MethodInfo>,
}

/// The verdict on a frame.
#[derive(Clone, Copy)]
pub enum Verdict {
    /// It is a message, and its plain spelling in the target's protocol was written.
    Passed(HeadInfo),
    /// Its header was read, and this stands against it: a fault, or else the first value that is barred.
    Refused(HeadInfo, Cause),
    /// No front of it is a whole header.
    Unread(Fault),
}
