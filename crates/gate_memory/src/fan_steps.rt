//! What the outside of a fan in memory does, step by step.
ghost use Rattle.std.specs.Prelude.{◌≡◌, ◌∷◌, ◌++◌, [], OnOk, OnErr};

use gate_base::{OutOfMemory, Text};
use std::alloc::Global;
use std::marker::Model;

/// What the outside does next. Port 0 of a session is the client's, port u that of the u-th target; a
/// step that names another is passed over.
#[derive(Drop)]
pub enum FanStep {
    /// Opens session 0, 1, 2 and so on.
    Connect,
    /// These bytes can now be read.
    Arrive {
        session: u64,
        port: usize,
        bytes: Text,
    },
    /// The port ends after what arrived.
    Finish {
        session: u64,
        port: usize,
    },
    /// From now on exactly so many more bytes can be written.
    Room {
        session: u64,
        port: usize,
        bytes: u64,
    },
    /// The next read or write of the port fails.
    Break {
        session: u64,
        port: usize,
    },
    /// The next event is a fault.
    BreakNext,
}

/// The steps of a fan in memory.
#[derive(Drop)]
pub struct FanSteps {
    steps: Vec<FanStep>,
}

impl Model for FanSteps {
    ghost use Rattle.std.specs.Prelude.{List};
    ghost use Rattle.gate_memory.specs.declared.fan_steps.FanStep.{FanStep};

    ghost Value = { List FanStep };

    ghost view = { λ s. s.steps.items };
}

impl FanSteps {
    /// No step. It takes no memory.
    pub fn new(alloc: Global) -> FanSteps
        ensures { result ≡ [] }
    {
        FanSteps {
            steps: Vec::new(alloc),
        }
    }

    /// Puts a step last.
    ///
    /// `OutOfMemory`: the memory for it was not found, and the list is as it was.
    pub fn push(&mut self, item: FanStep) -> Result<(), OutOfMemory>
        ensures ok { OnOk result (self.new ≡ self.old ++ item ∷ []) }
        ensures err { OnErr result (self.new ≡ self.old) }
    {
        self.steps.push(item)?;
        Ok(())
    }

    /// Its steps, in order.
    pub fn as_slice(&self) -> &[FanStep]
        ensures { result.now ≡ self.now }
    {
        self.steps.as_slice()
    }
}
