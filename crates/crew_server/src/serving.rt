//! The servers of a crew, from their start to their status.
ghost use Rattle.std.specs.Prelude.{◌≡◌, ◌<◌, ◌≤◌, is_some, false, length};
ghost use Rattle.gate_words.specs.Commands.{IsInRange};
ghost use Rattle.gate_words.specs.Peers.{is_http};
ghost use Rattle.gate_words.specs.Serving.{part_of};
ghost use Rattle.gate_words.specs.declared.command.Command.TheVariants.{Serve};
ghost use Rattle.gate_serve.specs.Serving.{CanServe, WaitsLater, LinkFaultsLater};
ghost use Rattle.crew_server.specs.Serving.{ServesPart, Works, WorkEach, CrewServes, StartsCrew, RunsCrew};

use crate::telling::tell;
use crate::worker::Worker;
use crew_exit::Exit;
use gate_base::OutOfMemory;
use gate_hub::Hub;
use gate_io::{Files, Sink};
use gate_serve::serve_all;
use gate_start::{Ending, Start, Status, end_with, halt, prepare};
use gate_words::{Declared, MOST_SESSIONS, Serving};
use std::alloc::Global;
use std::thread;
use std::thread::Threads;

/// Serves by what the words declare, each worker in a thread of its own where one can be made, the last one in this thread.
///
/// Each worker serves its part of the sessions as a server alone would serve them. Where the words' declarations don't let a server
/// start, no worker's hub is used.
pub fn serve_crew<
    R: Threads + Sync,
    O: Sink + Send,
    E: Sink,
    F: Files,
    H: Hub + Send,
    X: Exit + Send,
>(
    rt: &R,
    alloc: Global,
    serving: &Serving,
    declared: &Declared,
    files: &mut F,
    report: &mut E,
    crew: &mut [Worker<H, O, X>],
) -> Status
    requires { IsInRange (Serve serving.now declared.now) }
    ensures serves { RunsCrew F.Files O.Sink E.Sink H.Hub X.Exit serving.now declared.now files.old report.old crew.old files.new report.new crew.new result }
    ensures holds { F.holds files.new ≡ F.holds files.old }
    ensures files_later { F.faults files.old ≤ F.faults files.new }
    ensures report_later { E.faults report.old ≤ E.faults report.new }
{
    start_crew(rt, alloc, serving, declared, files, report, crew).status()
}

// Prepares for all workers, and has them serve.
fn start_crew<R: Threads + Sync, O: Sink + Send, E: Sink, F: Files, H: Hub + Send, X: Exit + Send>(
    rt: &R,
    alloc: Global,
    serving: &Serving,
    declared: &Declared,
    files: &mut F,
    report: &mut E,
    crew: &mut [Worker<H, O, X>],
) -> Ending
    requires { IsInRange (Serve serving.now declared.now) }
    ensures serves { StartsCrew F.Files O.Sink E.Sink H.Hub X.Exit serving.now declared.now files.old report.old crew.old files.new report.new crew.new result }
    ensures holds { F.holds files.new ≡ F.holds files.old }
    ensures files_later { F.faults files.old ≤ F.faults files.new }
    ensures report_later { E.faults report.old ≤ E.faults report.new }
{
    match prepare(alloc, files, declared) {
        Ok(start) => serve_started(rt, alloc, serving, &start, report, crew),
        Err(no_start) => halt(alloc, &no_start, report),
    }
}

// Serves from one start, and tells how the crew ended.
fn serve_started<R: Threads + Sync, O: Sink + Send, E: Sink, H: Hub + Send, X: Exit + Send>(
    rt: &R,
    alloc: Global,
    serving: &Serving,
    start: &Start,
    report: &mut E,
    crew: &mut [Worker<H, O, X>],
) -> Ending
    requires can { CanServe serving.now start.now }
    requires few { serving.now.sessions ≤ MOST_SESSIONS }
    ensures serves { CrewServes O.Sink E.Sink H.Hub X.Exit serving.now start.now report.old crew.old report.new crew.new result }
    ensures report_later { E.faults report.old ≤ E.faults report.new }
{
    serve_each(rt, alloc, serving, start, crew);
    tell(crew, report)
}

// Each worker serves its part.
fn serve_each<R: Threads + Sync, O: Sink + Send, H: Hub + Send, X: Exit + Send>(
    rt: &R,
    alloc: Global,
    serving: &Serving,
    start: &Start,
    crew: &mut [Worker<H, O, X>],
)
    requires can { CanServe serving.now start.now }
    requires few { serving.now.sessions ≤ MOST_SESSIONS }
    ensures { WorkEach O.Sink H.Hub X.Exit serving.now start.now crew.old crew.new }
{
    let threads = crew.len();
    if threads == 0 {
        return;
    }
    let work = move |at: usize, worker: &mut Worker<H, O, X>|
        requires { CanServe serving.now start.now × (serving.now.sessions ≤ MOST_SESSIONS) × (0 < threads) }
        ensures { Works O.Sink H.Hub X.Exit (part_of serving.entry.now threads at) start.entry.now worker.entry.now worker.exit.now }
    { worker.serve(alloc, serving, start, threads, at) };
    thread::for_each_mut(rt, crew, threads, &work);
}

impl<H: Hub, O: Sink, X: Exit> Worker<H, O, X> {
    // Serves its part of the sessions, and has the others end too where its server ends before its time.
    fn serve(&mut self, alloc: Global, serving: &Serving, start: &Start, threads: usize, at: usize)
        requires can { CanServe serving.now start.now }
        requires few { serving.now.sessions ≤ MOST_SESSIONS }
        requires some { 0 < threads }
        ensures { Works O.Sink H.Hub X.Exit (part_of serving.now threads at) start.now self.old self.new }
    {
        self.serve_part(alloc, serving, start, threads, at);
        self.leave();
    }

    // Serves its part of the sessions, as a server alone serves all of them.
    fn serve_part(
        &mut self,
        alloc: Global,
        serving: &Serving,
        start: &Start,
        threads: usize,
        at: usize,
    )
        requires can { CanServe serving.now start.now }
        requires few { serving.now.sessions ≤ MOST_SESSIONS }
        requires some { 0 < threads }
        ensures serves { ServesPart O.Sink H.Hub (part_of serving.now threads at) start.now self.old self.new }
        ensures output_later { O.faults self.old.output ≤ O.faults self.new.output }
        ensures hub_faults { (H.counts self.old.hub).faults ≤ (H.counts self.new.hub).faults }
        ensures hub_waits { is_http serving.now.front ≡ false → WaitsLater H.Hub self.old.hub self.new.hub }
        ensures hub_links { is_http serving.now.front ≡ false → is_some serving.now.unframed ≡ false → LinkFaultsLater H.Hub self.old.hub self.new.hub }
    {
        match serving.part_of(alloc, threads, at) {
            Ok(part) => {
                self.ending = serve_all(
                    alloc,
                    &part,
                    start,
                    &mut self.output,
                    &mut self.report,
                    &mut self.hub,
                );
            }
            Err(OutOfMemory) => self.ending = end_with(&mut self.report, Ending::OutOfMemory),
        }
    }
}
