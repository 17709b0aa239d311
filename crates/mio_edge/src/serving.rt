//! A server that listens, and the number that its next session gets.
ghost use Rattle.mio_edge.specs.Numbered.{AllBelow};

use crate::listening::Listening;

/// What serves sessions: nothing before it listens.
#[derive(Drop)]
pub(crate) struct Serving<S> {
    /// The next number, above those of all sessions: where the network is alone at its address, how many were announced.
    pub(crate) announced: u64,
    pub(crate) listening: Option<Listening<S>>,
    ghost numbered: { AllBelow announced listening },
}
