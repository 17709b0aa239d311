//! How a server that was started ends.
ghost use Rattle.std.specs.Prelude.{◌≤◌};
ghost use Rattle.gate_start.specs.Served.{EndsServer};

use crate::status::{Ending, end_with};
use gate_hub::Served;
use gate_io::Sink;

/// The ending and the last line of a server that has ended.
pub fn end_served<E: Sink>(served: Served, report: &mut E) -> Ending
    ensures ends { EndsServer E.Sink served report.old report.new result }
    ensures later { E.faults report.old ≤ E.faults report.new }
{
    match served {
        Served::Stopped => Ending::Done,
        Served::HubFault => end_with(report, Ending::HubFault),
        Served::WriteFault => Ending::WriteFault,
        Served::Budget => end_with(report, Ending::BudgetSpent),
        Served::OutOfMemory => end_with(report, Ending::OutOfMemory),
    }
}
