//! The server, from its start to its status.
ghost use Rattle.std.specs.Prelude.{◌≡◌, ◌≤◌, is_some, false};
ghost use Rattle.gate_base.specs.Causes.{Rose};
ghost use Rattle.gate_hub.specs.Hubs.{Later};
ghost use Rattle.gate_words.specs.Peers.{is_http};
ghost use Rattle.gate_start.specs.Calls.{OnSinks};
ghost use Rattle.gate_serve.specs.Peers.{ServesSides, ServesOver, ServesWrapped, wire_if};
ghost use Rattle.gate_serve.specs.Posts.{ServesByWords, ServesByPosts, ServesPosted};
ghost use Rattle.gate_serve.specs.Serving.{CanServe, ServesHub, ServesSessions, WaitsLater, LinkFaultsLater};

use crate::judges::PairJudges;
use gate_hub::{Began, Hub, Served};
use gate_io::Sink;
use gate_start::{Ending, Start, end_served, end_unfound, end_with};
use gate_words::{Front, Serving, Sides};
use http_front::HttpHub;
use peer_addresses::name_in;
use protocol_traits::Proto;
use proxy_server::{Limits, serve};
use refusal_lines::Telling;
use session_judge::Setup;
use std::alloc::Global;
use stream_messages::{UnframedHub, Wire};

/// Serves over the hub as the words wrap it, until it stops, and writes one line for each session.
pub fn serve_all<O: Sink, E: Sink, H: Hub>(
    alloc: Global,
    serving: &Serving,
    start: &Start,
    output: &mut O,
    report: &mut E,
    hub: &mut H,
) -> Ending
    requires { CanServe serving.now start.now }
    ensures serves { OnSinks O.Sink E.Sink (ServesByWords H.Hub serving.now start.now hub.old hub.new) output.old report.old output.new report.new result }
    ensures output_later { O.faults output.old ≤ O.faults output.new }
    ensures report_later { E.faults report.old ≤ E.faults report.new }
    ensures faults { (H.counts hub.old).faults ≤ (H.counts hub.new).faults }
    ensures waits { is_http serving.now.front ≡ false → WaitsLater H.Hub hub.old hub.new }
    ensures links { is_http serving.now.front ≡ false → is_some serving.now.unframed ≡ false → LinkFaultsLater H.Hub hub.old hub.new }
    ensures kept { H.kept hub.new ≡ H.kept hub.old }
{
    match serving.front {
        Front::Framed => serve_peers(alloc, serving, start, output, report, hub),
        Front::Http => serve_posts(alloc, serving, start, output, report, hub),
    }
}

// Serves over the hub, whose clients send each message as the body of a POST.
fn serve_posts<O: Sink, E: Sink, H: Hub>(
    alloc: Global,
    serving: &Serving,
    start: &Start,
    output: &mut O,
    report: &mut E,
    hub: &mut H,
) -> Ending
    requires { CanServe serving.now start.now }
    ensures serves { OnSinks O.Sink E.Sink (ServesByPosts H.Hub serving.now start.now hub.old hub.new) output.old report.old output.new report.new result }
    ensures output_later { O.faults output.old ≤ O.faults output.new }
    ensures report_later { E.faults report.old ≤ E.faults report.new }
    ensures faults { (H.counts hub.old).faults ≤ (H.counts hub.new).faults }
    ensures kept { H.kept hub.new ≡ H.kept hub.old }
{
    let mut posting = HttpHub::over(
        hub,
        &start.schema,
        start.service,
        serving.client,
        serving.limit as usize,
    );
    let ending = serve_posting(alloc, serving, start, output, report, &mut posting);
    posting.into_inner();
    ending
}

// Serves over a hub whose clients send POSTs to another one.
fn serve_posting<O: Sink, E: Sink, H: Hub>(
    alloc: Global,
    serving: &Serving,
    start: &Start,
    output: &mut O,
    report: &mut E,
    hub: &mut HttpHub<'_, H>,
) -> Ending
    requires { CanServe serving.now start.now }
    ensures serves { OnSinks O.Sink E.Sink (ServesPosted H.Hub serving.now start.now hub.old hub.new) output.old report.old output.new report.new result }
    ensures output_later { O.faults output.old ≤ O.faults output.new }
    ensures report_later { E.faults report.old ≤ E.faults report.new }
    ensures faults { (H.counts hub.old.inner.now).faults ≤ (H.counts hub.new.inner.now).faults }
    ensures same_reference { hub.new.inner.ghost_name ≡ hub.old.inner.ghost_name }
    ensures rules { hub.new.rules ≡ hub.old.rules }
    ensures kept { H.kept hub.new.inner.now ≡ H.kept hub.old.inner.now }
{
    serve_peers(alloc, serving, start, output, report, hub)
}

// Serves over the hub, whose sides may have messages without frames.
fn serve_peers<O: Sink, E: Sink, H: Hub>(
    alloc: Global,
    serving: &Serving,
    start: &Start,
    output: &mut O,
    report: &mut E,
    hub: &mut H,
) -> Ending
    requires { CanServe serving.now start.now }
    ensures serves { OnSinks O.Sink E.Sink (ServesOver H.Hub serving.now start.now hub.old hub.new) output.old report.old output.new report.new result }
    ensures output_later { O.faults output.old ≤ O.faults output.new }
    ensures report_later { E.faults report.old ≤ E.faults report.new }
    ensures faults { (H.counts hub.old).faults ≤ (H.counts hub.new).faults }
    ensures waits { WaitsLater H.Hub hub.old hub.new }
    ensures links { is_some serving.now.unframed ≡ false → LinkFaultsLater H.Hub hub.old hub.new }
    ensures kept { H.kept hub.new ≡ H.kept hub.old }
{
    match serving.unframed {
        None => serve_hub(alloc, serving, start, output, report, hub),
        Some(sides) => serve_unframed(alloc, serving, sides, start, output, report, hub),
    }
}

// Serves over the hub with the messages of these sides without frames.
fn serve_unframed<O: Sink, E: Sink, H: Hub>(
    alloc: Global,
    serving: &Serving,
    sides: Sides,
    start: &Start,
    output: &mut O,
    report: &mut E,
    hub: &mut H,
) -> Ending
    requires { CanServe serving.now start.now }
    ensures serves { OnSinks O.Sink E.Sink (ServesSides H.Hub sides serving.now start.now hub.old hub.new) output.old report.old output.new report.new result }
    ensures output_later { O.faults output.old ≤ O.faults output.new }
    ensures report_later { E.faults report.old ≤ E.faults report.new }
    ensures faults { (H.counts hub.old).faults ≤ (H.counts hub.new).faults }
    ensures waits { WaitsLater H.Hub hub.old hub.new }
    ensures kept { H.kept hub.new ≡ H.kept hub.old }
{
    let client = wire_if(sides.has_client(), serving.client);
    let upstream = wire_if(sides.has_upstream(), serving.upstream);
    let mut unframed = UnframedHub::over(hub, client, upstream, serving.limit as usize);
    let ending = serve_wrapped(alloc, serving, start, output, report, &mut unframed);
    unframed.into_inner();
    ending
}

// Serves over a hub that wraps another one.
fn serve_wrapped<O: Sink, E: Sink, H: Hub>(
    alloc: Global,
    serving: &Serving,
    start: &Start,
    output: &mut O,
    report: &mut E,
    hub: &mut UnframedHub<'_, H>,
) -> Ending
    requires { CanServe serving.now start.now }
    ensures serves { OnSinks O.Sink E.Sink (ServesWrapped H.Hub serving.now start.now hub.old hub.new) output.old report.old output.new report.new result }
    ensures output_later { O.faults output.old ≤ O.faults output.new }
    ensures report_later { E.faults report.old ≤ E.faults report.new }
    ensures faults { (H.counts hub.old.inner.now).faults ≤ (H.counts hub.new.inner.now).faults }
    ensures waits { WaitsLater H.Hub hub.old.inner.now hub.new.inner.now }
    ensures same_reference { hub.new.inner.ghost_name ≡ hub.old.inner.ghost_name }
    ensures wrapping { hub.new.wrapping ≡ hub.old.wrapping }
    ensures kept { H.kept hub.new.inner.now ≡ H.kept hub.old.inner.now }
{
    serve_hub(alloc, serving, start, output, report, hub)
}

// By what the end of a message without a frame is found, where a side has such messages.
fn wire_if(unframed: bool, protocol: Proto) -> Option<Wire>
    ensures { result ≡ wire_if unframed protocol }
{
    match (unframed, protocol) {
        (true, Proto::Binary) => Some(Wire::Binary),
        (true, Proto::Compact) => Some(Wire::Compact),
        _ => None,
    }
}

// Starts the hub, and serves until it stops.
fn serve_hub<O: Sink, E: Sink, H: Hub>(
    alloc: Global,
    serving: &Serving,
    start: &Start,
    output: &mut O,
    report: &mut E,
    hub: &mut H,
) -> Ending
    requires { CanServe serving.now start.now }
    ensures serves { OnSinks O.Sink E.Sink (ServesHub H.Hub serving.now start.now hub.old hub.new) output.old report.old output.new report.new result }
    ensures output_later { O.faults output.old ≤ O.faults output.new }
    ensures report_later { E.faults report.old ≤ E.faults report.new }
    ensures hub_later { Later (H.counts hub.old) (H.counts hub.new) }
    ensures kept { H.kept hub.new ≡ H.kept hub.old }
{
    let (listen, target) = (serving.listen.as_slice(), serving.target.as_slice());
    match hub.start(
        alloc,
        listen,
        target,
        serving.accept,
        serving.sessions as usize,
    ) {
        Began::Done => {
            let served = serve_started(alloc, serving, start, hub, output);
            end_served(served, report)
        }
        Began::Failed => end_with(report, Ending::HubFault),
        Began::NotFound(_) => end_unfound(report, name_in(target)),
        Began::OutOfMemory => end_with(report, Ending::OutOfMemory),
    }
}

// Serves by a hub that was started.
fn serve_started<O: Sink, H: Hub>(
    alloc: Global,
    serving: &Serving,
    start: &Start,
    hub: &mut H,
    output: &mut O,
) -> Served
    requires { CanServe serving.now start.now }
    ensures serves { ServesSessions H.Hub O.Sink serving.now start.now hub.old output.old hub.new output.new result }
    ensures output_later { O.faults output.old ≤ O.faults output.new }
    ensures later { Later (H.counts hub.old) (H.counts hub.new) }
    ensures kept { H.kept hub.new ≡ H.kept hub.old }
    ensures hub_fault { result ≡ Served.HubFault → Rose (H.counts hub.old).faults (H.counts hub.new).faults }
{
    let judges = PairJudges::new(&Setup {
        schema: &start.schema,
        service: start.service,
        client: serving.client,
        upstream: serving.upstream,
        limit: serving.limit as usize,
        calls: serving.calls as usize,
    });
    let limits = Limits {
        frame: serving.limit as usize,
        calls: serving.calls as usize,
        sessions: serving.sessions as usize,
        events: serving.events,
    };
    let telling = Telling::new(
        serving.client,
        serving.upstream,
        serving.tells_refusals,
        serving.limit as usize,
    );
    serve(alloc, &judges, limits, &telling, hub, output)
}
