//! Spots, each once.
ghost use Rattle.std.specs.Prelude.{◌≡◌, ◌<◌, ◌^◌, [], OnOk, IfSome, length, slice_get};
ghost use Rattle.idl_names.specs.Sets.{is_among, with_all, with_spot};

use crate::documents::Spot;
use gate_base::OutOfMemory;
use indexmap::IndexSet;
use std::alloc::Global;
use std::marker::Model;

/// Spots in the order in which they were put in, each once.
#[derive(Drop)]
pub(crate) struct SpotSet {
    spots: IndexSet<Spot>,
}

impl Model for SpotSet {
    ghost use Rattle.std.specs.Prelude.{List};
    ghost use Rattle.idl_names.specs.declared.documents.Spot.{Spot};

    ghost Value = { List Spot };

    ghost view = { λ s. s.spots.keys };
}

impl SpotSet {
    /// The empty set. Takes no memory.
    pub(crate) fn new(alloc: Global) -> SpotSet
        ensures { result ≡ [] }
    {
        SpotSet {
            spots: IndexSet::new(alloc),
        }
    }

    /// Gives a set up, in one place for all that own one.
    pub(crate) fn let_go(self) {}

    /// Puts a spot last, unless it is there.
    #[tactic(auto, unfolding(crate::specs::Sets::with_spot))]
    pub(crate) fn insert(&mut self, spot: Spot) -> Result<(), OutOfMemory>
        ensures { OnOk result (self.new ≡ with_spot self.old spot) }
    {
        self.spots.insert(spot)?;
        Ok(())
    }

    /// Puts several spots last, each unless it is there.
    pub(crate) fn insert_all(&mut self, others: &SpotSet) -> Result<(), OutOfMemory>
        ensures { OnOk result (self.new ≡ with_all self.old others.now) }
    {
        let mut i = 0;
        'spots: while let Some(spot) = others.get(i) {
            self.insert(spot)?;
            i += 1;
        }
        Ok(())
    }

    /// Whether a spot is there.
    pub(crate) fn contains(&self, spot: Spot) -> bool
        ensures { result ≡ is_among spot self.now }
    {
        self.spots.contains(&spot)
    }

    /// The spot at a place.
    pub(crate) fn get(&self, place: usize) -> Option<Spot>
        ensures value { result ≡ slice_get self.now place }
        ensures small { IfSome result (λ spot. place < 2 ^ 63) }
    {
        if place < self.spots.len() {
            self.spots.get_index(place).copied()
        } else {
            None
        }
    }
}
