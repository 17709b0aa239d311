//! The command that routes, from its words on.
ghost use Rattle.std.specs.Prelude.{◌≡◌, ◌≤◌};
ghost use Rattle.gate_fan.specs.Fans.{Later};
ghost use Rattle.gate_run.specs.Routed.{StartsRouter};

use gate_fan::Fan;
use gate_io::{Files, Sink};
use gate_route::route_all;
use gate_start::{Ending, halt, prepare};
use gate_words::{Declared, GREATEST_LIMIT, MOST_CALLS, Routing};
use std::alloc::Global;

/// What the words of a command say of a router, and what is declared for its messages.
#[derive(Clone, Copy)]
pub struct RouterJob<'w> {
    pub routing: &'w Routing,
    pub declared: &'w Declared,
}

/// Leads calls to their targets by what the words declare. Where it doesn't start, the fan isn't used.
pub fn start_router<O: Sink, E: Sink, F: Files, G: Fan>(
    alloc: Global,
    job: &RouterJob<'_>,
    files: &mut F,
    output: &mut O,
    report: &mut E,
    fan: &mut G,
) -> Ending
    requires limit { job.now.routing.now.limit ≤ GREATEST_LIMIT }
    requires some { 1 ≤ job.now.routing.now.calls }
    requires few { job.now.routing.now.calls ≤ MOST_CALLS }
    ensures routes { StartsRouter F.Files O.Sink E.Sink G.Fan job.now files.old output.old report.old fan.old files.new output.new report.new fan.new result }
    ensures holds { F.holds files.new ≡ F.holds files.old }
    ensures files_later { F.faults files.old ≤ F.faults files.new }
    ensures output_later { O.faults output.old ≤ O.faults output.new }
    ensures report_later { E.faults report.old ≤ E.faults report.new }
    ensures fan_later { Later (G.counts fan.old) (G.counts fan.new) }
{
    match prepare(alloc, files, job.declared) {
        Ok(start) => route_all(alloc, job.routing, &start, output, report, fan),
        Err(no_start) => halt(alloc, &no_start, report),
    }
}
