//! Why a frame is no message, and why a value can't be written in another protocol.
ghost use Rattle.std.specs.Prelude.{◌≡◌};

/// Why a frame is no message of its protocol.
#[derive(Clone, Copy, Debug, PartialEq, Eq)]
pub enum Reason {
    /// The frame ends before the message does.
    Truncated,
    /// More follows behind the message.
    Trailing,
    /// A struct or container lies deeper than `DEPTH`.
    TooDeep,
    /// A kind that the protocol doesn't know.
    BadKind,
    /// A bool that is neither true nor false.
    BadBool,
    /// A size or length that is negative or above 2^31 - 1.
    BadSize,
    /// A protocol or version that isn't the one expected.
    BadVersion,
    /// A message type that isn't one of the four.
    BadType,
    /// Bytes that begin no varint of the width.
    BadVarint,
    /// A field id outside 16 bits.
    BadId,
    /// A JSON number that is malformed or out of its kind's range.
    BadNumber,
    /// A JSON string with a faulty piece.
    BadString,
    /// A JSON string that is no base64 where bytes are declared.
    BadBase64,
    /// Another byte stands where JSON needs a bracket, a brace, a comma or a colon.
    BadToken,
}

/// What is wrong with a frame, and where.
#[derive(Clone, Copy, Debug, PartialEq, Eq)]
pub struct Fault {
    /// The place in the frame, counted from 0, of the first byte of the faulty item.
    pub place: usize,
    pub reason: Reason,
}

/// This fault, at this place.
#[inline(always)]
pub fn fault_at(place: usize, reason: Reason) -> Fault
    ensures { result ≡ record { place = place; reason = reason } }
{
    Fault { place, reason }
}

/// Why a value that was read can't be written in the target's protocol.
#[derive(Clone, Copy)]
pub enum Bar {
    /// A double between JSON and another protocol, whose bytes would have to be computed.
    Double,
    /// A string of which nothing says whether it is text or bytes.
    UnknownString,
    /// A text or name that isn't UTF-8, which JSON can't hold.
    NotUtf8,
    /// A uuid, which TJSON has no spelling for.
    Uuid,
}
