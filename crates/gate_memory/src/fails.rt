//! The calls of an object in memory that fail.
ghost use Rattle.std.specs.Prelude.{◌≡◌, ◌∷◌, ◌++◌, [], OnOk, OnErr};

use gate_base::OutOfMemory;
use std::alloc::Global;
use std::marker::Model;

/// The numbers of the calls of an object in memory that fail, counted from 0.
#[derive(Drop)]
pub struct Fails {
    calls: Vec<u64>,
}

impl Model for Fails {
    ghost use Rattle.std.specs.Prelude.{ℕ, List};

    ghost Value = { List ℕ };

    ghost view = { λ f. f.calls.items };
}

impl Fails {
    /// No call fails. It takes no memory.
    pub fn new(alloc: Global) -> Fails
        ensures { result ≡ [] }
    {
        Fails {
            calls: Vec::new(alloc),
        }
    }

    /// Puts a call last.
    ///
    /// `OutOfMemory`: the memory for it was not found, and the list is as it was.
    pub fn push(&mut self, item: u64) -> Result<(), OutOfMemory>
        ensures ok { OnOk result (self.new ≡ self.old ++ item ∷ []) }
        ensures err { OnErr result (self.new ≡ self.old) }
    {
        self.calls.push(item)?;
        Ok(())
    }

    /// Its calls, in order.
    pub fn as_slice(&self) -> &[u64]
        ensures { result.now ≡ self.now }
    {
        self.calls.as_slice()
    }
}
