//! The routers of a crew, from their start to their status.
ghost use Rattle.std.specs.Prelude.{◌≡◌, ◌<◌, ◌≤◌, length};
ghost use Rattle.gate_words.specs.Commands.{IsInRange};
ghost use Rattle.gate_words.specs.Routing.{routed_part_of};
ghost use Rattle.gate_words.specs.declared.command.Command.TheVariants.{Route};
ghost use Rattle.gate_fan.specs.Fans.{Later};
ghost use Rattle.crew_server.specs.Routing.{CanRoute, RoutesPart, Routes, RouteEach, CrewRoutes, StartsRouters, RunsRouters};

use crate::telling::tell;
use crate::worker::Worker;
use crew_exit::Exit;
use gate_base::OutOfMemory;
use gate_fan::Fan;
use gate_io::{Files, Sink};
use gate_route::route_all;
use gate_start::{Ending, Start, Status, end_with, halt, prepare};
use gate_words::{Declared, Routing};
use std::alloc::Global;
use std::thread;
use std::thread::Threads;

/// Leads calls to their targets by what the words declare, each worker in a thread of its own where one can be made, the last one in this
/// thread.
///
/// Each worker routes its part of the sessions as a router alone would route them. Where the words' declarations don't let a router
/// start, no worker's fan is used.
pub fn route_crew<
    R: Threads + Sync,
    O: Sink + Send,
    E: Sink,
    F: Files,
    G: Fan + Send,
    X: Exit + Send,
>(
    rt: &R,
    alloc: Global,
    routing: &Routing,
    declared: &Declared,
    files: &mut F,
    report: &mut E,
    crew: &mut [Worker<G, O, X>],
) -> Status
    requires { IsInRange (Route routing.now declared.now) }
    ensures routes { RunsRouters F.Files O.Sink E.Sink G.Fan X.Exit routing.now declared.now files.old report.old crew.old files.new report.new crew.new result }
    ensures holds { F.holds files.new ≡ F.holds files.old }
    ensures files_later { F.faults files.old ≤ F.faults files.new }
    ensures report_later { E.faults report.old ≤ E.faults report.new }
{
    start_routers(rt, alloc, routing, declared, files, report, crew).status()
}

// Prepares for all workers, and has them route.
fn start_routers<
    R: Threads + Sync,
    O: Sink + Send,
    E: Sink,
    F: Files,
    G: Fan + Send,
    X: Exit + Send,
>(
    rt: &R,
    alloc: Global,
    routing: &Routing,
    declared: &Declared,
    files: &mut F,
    report: &mut E,
    crew: &mut [Worker<G, O, X>],
) -> Ending
    requires { IsInRange (Route routing.now declared.now) }
    ensures routes { StartsRouters F.Files O.Sink E.Sink G.Fan X.Exit routing.now declared.now files.old report.old crew.old files.new report.new crew.new result }
    ensures holds { F.holds files.new ≡ F.holds files.old }
    ensures files_later { F.faults files.old ≤ F.faults files.new }
    ensures report_later { E.faults report.old ≤ E.faults report.new }
{
    match prepare(alloc, files, declared) {
        Ok(start) => route_started(rt, alloc, routing, &start, report, crew),
        Err(no_start) => halt(alloc, &no_start, report),
    }
}

// Routes from one start, and tells how the crew ended.
fn route_started<R: Threads + Sync, O: Sink + Send, E: Sink, G: Fan + Send, X: Exit + Send>(
    rt: &R,
    alloc: Global,
    routing: &Routing,
    start: &Start,
    report: &mut E,
    crew: &mut [Worker<G, O, X>],
) -> Ending
    requires { CanRoute routing.now }
    ensures routes { CrewRoutes O.Sink E.Sink G.Fan X.Exit routing.now start.now report.old crew.old report.new crew.new result }
    ensures report_later { E.faults report.old ≤ E.faults report.new }
{
    route_each(rt, alloc, routing, start, crew);
    tell(crew, report)
}

// Each worker routes its part.
fn route_each<R: Threads + Sync, O: Sink + Send, G: Fan + Send, X: Exit + Send>(
    rt: &R,
    alloc: Global,
    routing: &Routing,
    start: &Start,
    crew: &mut [Worker<G, O, X>],
)
    requires { CanRoute routing.now }
    ensures { RouteEach O.Sink G.Fan X.Exit routing.now start.now crew.old crew.new }
{
    let threads = crew.len();
    if threads == 0 {
        return;
    }
    let work = move |at: usize, worker: &mut Worker<G, O, X>|
        requires { CanRoute routing.now × (0 < threads) }
        ensures { Routes O.Sink G.Fan X.Exit (routed_part_of routing.entry.now threads at) start.entry.now worker.entry.now worker.exit.now }
    { worker.route(alloc, routing, start, threads, at) };
    thread::for_each_mut(rt, crew, threads, &work);
}

impl<G: Fan, O: Sink, X: Exit> Worker<G, O, X> {
    // Routes its part of the sessions, and has the others end too where its router ends before its time.
    fn route(&mut self, alloc: Global, routing: &Routing, start: &Start, threads: usize, at: usize)
        requires can { CanRoute routing.now }
        requires some { 0 < threads }
        ensures { Routes O.Sink G.Fan X.Exit (routed_part_of routing.now threads at) start.now self.old self.new }
    {
        self.route_part(alloc, routing, start, threads, at);
        self.leave();
    }

    // Routes its part of the sessions, as a router alone routes all of them.
    fn route_part(
        &mut self,
        alloc: Global,
        routing: &Routing,
        start: &Start,
        threads: usize,
        at: usize,
    )
        requires can { CanRoute routing.now }
        requires some { 0 < threads }
        ensures routes { RoutesPart O.Sink G.Fan (routed_part_of routing.now threads at) start.now self.old self.new }
        ensures output_later { O.faults self.old.output ≤ O.faults self.new.output }
        ensures fan_later { Later (G.counts self.old.hub) (G.counts self.new.hub) }
    {
        match routing.part_of(alloc, threads, at) {
            Ok(part) => {
                self.ending = route_all(
                    alloc,
                    &part,
                    start,
                    &mut self.output,
                    &mut self.report,
                    &mut self.hub,
                );
            }
            Err(OutOfMemory) => self.ending = end_with(&mut self.report, Ending::OutOfMemory),
        }
    }
}
