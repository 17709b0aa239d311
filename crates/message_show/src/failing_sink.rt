//! An output that fails at each write.
ghost use Rattle.std.specs.Prelude.{◌≡◌};

use gate_io::{Put, Sink};

/// Where a line is only gathered: a write means that it doesn't fit, and fails. Only the faults are counted.
#[derive(Drop)]
pub struct FailingSink {
    faults: u64,
}

impl FailingSink {
    pub fn new() -> FailingSink
        ensures { result.faults ≡ 0 }
    {
        FailingSink { faults: 0 }
    }
}

impl Sink for FailingSink {
    ghost use Rattle.std.specs.Prelude.{Some, []};

    ghost written = { λ n. Some [] };

    ghost faults = { λ n. n.faults };

    fn write(&mut self, from: &[u8]) -> Put {
        let _ = from;
        self.faults = self.faults.saturating_add(1);
        Put::Failed
    }
}
