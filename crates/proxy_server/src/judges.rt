//! Who judges the frames of the sessions of a server.
ghost use Rattle.std.specs.Prelude.{◌≡◌, ◌≤◌, ℕ, IfOk};
ghost use Rattle.session_core.specs.Rules.{Rules};

use gate_base::OutOfMemory;
use session_core::Judge;
use std::alloc::Global;

/// Makes the judge of each session. All judge alike.
pub trait Judges<J: Judge> {
    /// How each of them judges.
    ghost rules: { Self → Rules };

    /// The longest frame that each of them has room for.
    ghost longest: { Self → ℕ };

    /// A judge for one session. Want of memory is the one error.
    fn open(&self, alloc: Global) -> Result<J, OutOfMemory>
        ensures rules { IfOk result (λ judge. J.rules judge ≡ rules self.now) }
        ensures longest { IfOk result (λ judge. longest self.now ≤ J.longest judge) };
}
