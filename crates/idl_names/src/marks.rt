//! What is known of how definitions stand to cycles.
ghost use Rattle.std.specs.Prelude.{◌≡◌};
ghost use Rattle.idl_names.specs.Marks.{knows, no_marks};

use crate::documents::Spot;
use crate::spot_set::SpotSet;
use std::alloc::Global;

/// Definitions that are known to lead into no cycle, to lead into one and not to themselves, and to lead to themselves.
/// What a known one leads to is known too.
#[derive(Drop)]
pub(crate) struct Marks {
    pub(crate) absent: SpotSet,
    pub(crate) ahead: SpotSet,
    pub(crate) on: SpotSet,
}

impl Marks {
    /// Nothing is known. Takes no memory.
    pub(crate) fn new(alloc: Global) -> Marks
        ensures { result ≡ no_marks }
    {
        Marks {
            absent: SpotSet::new(alloc),
            ahead: SpotSet::new(alloc),
            on: SpotSet::new(alloc),
        }
    }

    /// Gives the marks up, in one place for all that own some.
    pub(crate) fn let_go(self) {
        self.absent.let_go();
        self.ahead.let_go();
        self.on.let_go();
    }

    /// Whether it is known how a definition stands to cycles.
    pub(crate) fn knows(&self, spot: Spot) -> bool
        ensures { result ≡ knows self.now spot }
    {
        self.absent.contains(spot) || self.ahead.contains(spot) || self.on.contains(spot)
    }
}
