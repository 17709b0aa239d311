//! What handles the frames of a stream, with what it keeps from frame to frame.
ghost use Rattle.std.specs.Prelude.{IfOk};
ghost use Rattle.gate_streams.specs.Working.{IsHandler};

use crate::conform::FrameCheck;
use crate::task::{Doing, Task};
use gate_base::OutOfMemory;
use protocol_traits::Proto;
use std::alloc::Global;

/// What handles each frame.
#[derive(Drop)]
pub enum Handler<'s> {
    /// Translates its message from one protocol to the other.
    Convert { from: Proto, to: Proto },
    /// Shows its message in this protocol as a line.
    Show { from: Proto },
    /// Checks its message against what is declared of it.
    Conform(FrameCheck<'s>),
}

impl<'s> Handler<'s> {
    /// What does with frames what the task says.
    ///
    /// `OutOfMemory`: there was no memory for a check.
    pub fn open(alloc: Global, task: &Task<'s>) -> Result<Handler<'s>, OutOfMemory>
        ensures { IfOk result (λ handler. IsHandler task.now handler) }
    {
        match task.doing() {
            Doing::Convert { from, to } => Ok(Handler::Convert { from, to }),
            Doing::Show { from } => Ok(Handler::Show { from }),
            Doing::Conform { from } => Ok(Handler::Conform(task.open_check(alloc, from)?)),
        }
    }
}
