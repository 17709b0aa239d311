//! The router, from its start to its status.
ghost use Rattle.std.specs.Prelude.{◌≡◌, ◌≤◌, length};
ghost use Rattle.gate_base.specs.Causes.{Rose};
ghost use Rattle.gate_fan.specs.Fans.{Later};
ghost use Rattle.gate_start.specs.Calls.{OnSinks};
ghost use Rattle.gate_route.specs.Routes.{RoutesAll, RoutesSessions};

use gate_fan::Fan;
use gate_hub::{Began, Served};
use gate_io::Sink;
use gate_start::{Ending, Start, end_served, end_unfound, end_with};
use gate_words::{GREATEST_LIMIT, MOST_CALLS, Routing};
use peer_addresses::name_in;
use refusal_lines::Telling;
use route_server::route_serve;
use session_judge::Setup;
use std::alloc::Global;

/// Starts the fan, leads the calls of its sessions until it stops, and writes one line for each session.
pub fn route_all<O: Sink, E: Sink, G: Fan>(
    alloc: Global,
    routing: &Routing,
    start: &Start,
    output: &mut O,
    report: &mut E,
    fan: &mut G,
) -> Ending
    requires limit { routing.now.limit ≤ GREATEST_LIMIT }
    requires some { 1 ≤ routing.now.calls }
    requires few { routing.now.calls ≤ MOST_CALLS }
    ensures routes { OnSinks O.Sink E.Sink (RoutesAll G.Fan routing.now start.now fan.old fan.new) output.old report.old output.new report.new result }
    ensures output_later { O.faults output.old ≤ O.faults output.new }
    ensures report_later { E.faults report.old ≤ E.faults report.new }
    ensures fan_later { Later (G.counts fan.old) (G.counts fan.new) }
{
    let (listen, targets) = (routing.listen.as_slice(), routing.targets.as_slice());
    match fan.start(
        alloc,
        listen,
        targets,
        routing.accept,
        routing.sessions as usize,
    ) {
        Began::Done => {
            let served = route_started(alloc, routing, start, fan, output);
            end_served(served, report)
        }
        Began::Failed => end_with(report, Ending::HubFault),
        Began::NotFound(at) => end_unfound(report, name_in(targets[at].address.as_slice())),
        Began::OutOfMemory => end_with(report, Ending::OutOfMemory),
    }
}

// Leads calls by a fan that was started. Names without a service before them have no service, whatever the IDL declares.
fn route_started<O: Sink, G: Fan>(
    alloc: Global,
    routing: &Routing,
    start: &Start,
    fan: &mut G,
    output: &mut O,
) -> Served
    requires limit { routing.now.limit ≤ GREATEST_LIMIT }
    requires some { 1 ≤ routing.now.calls }
    requires few { routing.now.calls ≤ MOST_CALLS }
    requires targets { G.target_count fan.old ≡ length routing.now.targets }
    ensures serves { RoutesSessions G.Fan O.Sink routing.now start.now fan.old output.old fan.new output.new result }
    ensures output_later { O.faults output.old ≤ O.faults output.new }
    ensures later { Later (G.counts fan.old) (G.counts fan.new) }
    ensures fan_fault { result ≡ Served.HubFault → Rose (G.counts fan.old).faults (G.counts fan.new).faults }
{
    let setup = Setup {
        schema: &start.schema,
        service: None,
        client: routing.client,
        upstream: routing.upstream,
        limit: routing.limit as usize,
        calls: routing.calls as usize,
    };
    let telling = Telling::new(
        routing.client,
        routing.upstream,
        routing.tells_refusals,
        routing.limit as usize,
    );
    let targets = routing.targets.as_slice();
    let sessions = routing.sessions as usize;
    route_serve(
        alloc,
        &setup,
        targets,
        sessions,
        routing.events,
        &telling,
        fan,
        output,
    )
}
