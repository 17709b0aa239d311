//! How a turn ends.
use session_core::Outcome;

/// How a turn ended.
#[derive(Clone, Copy)]
pub enum Turn {
    /// Nothing can be moved before the hub names the session again.
    Settled,
    /// Enough was moved for one turn.
    More,
    /// The session has ended, or a read or a write failed: `Outcome::LinkFault`.
    Ended(Outcome),
}
