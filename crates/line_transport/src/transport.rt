//! How messages stand on a stream, and what stands at its front.

/// How messages stand on a stream.
#[derive(Clone, Copy)]
pub enum Transport {
    /// Each behind its length in four bytes.
    Frames,
    /// Each before an LF; the last one may have none.
    Lines,
}

/// Why the front of a stream is longer than a message may be.
#[derive(Clone, Copy)]
pub enum Excess {
    /// A frame's length is this, which is negative or above the limit.
    Length(i32),
    /// More bytes than the limit, and no LF among them.
    Line,
}

/// What stands at the front of the bytes that are held.
#[derive(Clone, Copy)]
pub enum Next<'a> {
    /// A whole message, without its length or its LF.
    Message(&'a [u8]),
    /// Less than a whole message.
    NeedMore,
    /// What no message may begin with.
    Exceeds(Excess),
}
