//! What the outside of a hub in memory does, step by step.
ghost use Rattle.std.specs.Prelude.{◌≡◌, ◌∷◌, ◌++◌, [], OnOk, OnErr};

use gate_base::{OutOfMemory, Text};
use gate_hub::Side;
use std::alloc::Global;
use std::marker::Model;

/// What the outside does next.
#[derive(Drop)]
pub enum HubStep {
    /// Opens session 0, 1, 2 and so on.
    Connect,
    /// These bytes can now be read.
    Arrive {
        session: u64,
        side: Side,
        bytes: Text,
    },
    /// The side ends after what arrived.
    Finish {
        session: u64,
        side: Side,
    },
    /// From now on exactly so many more bytes can be written.
    Room {
        session: u64,
        side: Side,
        bytes: u64,
    },
    /// The next read or write of the side fails.
    Break {
        session: u64,
        side: Side,
    },
    /// The next event is a fault.
    BreakNext,
}

/// The steps of a hub in memory.
#[derive(Drop)]
pub struct HubSteps {
    steps: Vec<HubStep>,
}

impl Model for HubSteps {
    ghost use Rattle.std.specs.Prelude.{List};
    ghost use Rattle.gate_memory.specs.declared.steps.HubStep.{HubStep};

    ghost Value = { List HubStep };

    ghost view = { λ s. s.steps.items };
}

impl HubSteps {
    /// No step. It takes no memory.
    pub fn new(alloc: Global) -> HubSteps
        ensures { result ≡ [] }
    {
        HubSteps {
            steps: Vec::new(alloc),
        }
    }

    /// Puts a step last.
    ///
    /// `OutOfMemory`: the memory for it was not found, and the list is as it was.
    pub fn push(&mut self, item: HubStep) -> Result<(), OutOfMemory>
        ensures ok { OnOk result (self.new ≡ self.old ++ item ∷ []) }
        ensures err { OnErr result (self.new ≡ self.old) }
    {
        self.steps.push(item)?;
        Ok(())
    }

    /// Its steps, in order.
    pub fn as_slice(&self) -> &[HubStep]
        ensures { result.now ≡ self.now }
    {
        self.steps.as_slice()
    }
}
