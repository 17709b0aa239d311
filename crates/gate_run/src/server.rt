//! The command that serves, from its words on.
ghost use Rattle.std.specs.Prelude.{◌≡◌, ◌≤◌, is_some, false};
ghost use Rattle.gate_words.specs.Peers.{is_http};
ghost use Rattle.gate_serve.specs.Serving.{WaitsLater, LinkFaultsLater};
ghost use Rattle.gate_run.specs.Running.{StartsServer};

use gate_hub::Hub;
use gate_io::{Files, Sink};
use gate_serve::serve_all;
use gate_start::{Ending, halt, prepare};
use gate_words::{Declared, GREATEST_LIMIT, LEAST_LIMIT, MOST_CALLS, Serving};
use std::alloc::Global;

/// What the words of a command say of a server, and what is declared for its messages.
#[derive(Clone, Copy)]
pub struct ServerJob<'w> {
    pub serving: &'w Serving,
    pub declared: &'w Declared,
}

/// Serves by what the words declare. Where it doesn't start, the hub isn't used.
pub fn start_server<O: Sink, E: Sink, F: Files, H: Hub>(
    alloc: Global,
    job: &ServerJob<'_>,
    files: &mut F,
    output: &mut O,
    report: &mut E,
    hub: &mut H,
) -> Ending
    requires least { LEAST_LIMIT ≤ job.now.serving.now.limit }
    requires limit { job.now.serving.now.limit ≤ GREATEST_LIMIT }
    requires some { 1 ≤ job.now.serving.now.calls }
    requires few { job.now.serving.now.calls ≤ MOST_CALLS }
    ensures serves { StartsServer F.Files O.Sink E.Sink H.Hub job.now files.old output.old report.old hub.old files.new output.new report.new hub.new result }
    ensures holds { F.holds files.new ≡ F.holds files.old }
    ensures files_later { F.faults files.old ≤ F.faults files.new }
    ensures output_later { O.faults output.old ≤ O.faults output.new }
    ensures report_later { E.faults report.old ≤ E.faults report.new }
    ensures hub_faults { (H.counts hub.old).faults ≤ (H.counts hub.new).faults }
    ensures hub_waits { is_http job.now.serving.now.front ≡ false → WaitsLater H.Hub hub.old hub.new }
    ensures hub_links { let s = job.now.serving.now in is_http s.front ≡ false → is_some s.unframed ≡ false → LinkFaultsLater H.Hub hub.old hub.new }
{
    match prepare(alloc, files, job.declared) {
        Ok(start) => serve_all(alloc, job.serving, &start, output, report, hub),
        Err(no_start) => halt(alloc, &no_start, report),
    }
}
