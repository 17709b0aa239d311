//! How a crew ends.
ghost use Rattle.std.specs.Prelude.{◌≤◌};
ghost use Rattle.crew_server.specs.Workers.{leaver, EndsAs};

use crate::worker::{Worker, is_done};
use gate_io::{Sink, write_all};
use gate_start::Ending;

/// The ending of the first worker whose server ended before its time, with all that it has to report. Without one the crew is done.
pub fn tell<E: Sink, H, O, X>(crew: &[Worker<H, O, X>], report: &mut E) -> Ending
    ensures ends { EndsAs E.Sink (leaver crew.now) report.old report.new result }
    ensures later { E.faults report.old ≤ E.faults report.new }
{
    let Some((first, rest)) = crew.split_first() else {
        return Ending::Done;
    };
    if is_done(first.ending) {
        return tell(rest, report);
    }
    let _ = write_all(report, first.report.out.bytes());
    first.ending
}
