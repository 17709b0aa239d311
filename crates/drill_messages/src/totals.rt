//! How long the messages are.

/// The lengths in bytes of all messages together, in the plain spelling of each protocol and without the lengths of frames.
#[derive(Clone, Copy, PartialEq, Eq)]
pub struct Totals {
    pub binary: u64,
    pub compact: u64,
    pub json: u64,
}
