//! Servers in threads: each has a network, over it a hub or a fan, and an output, and all have one address.
ghost use Rattle.gate_words.specs.Commands.{IsInRange};
ghost use Rattle.gate_words.specs.declared.command.Command.TheVariants.{Route, Serve};

use crew_server::{Worker, route_crew, serve_crew};
use gate_base::{OutOfMemory, Text};
use gate_io::{DiskFiles, StdSink};
use gate_start::{Ending, Status, end_with};
use gate_words::{Declared, Routing, Serving};
use mio_crew::{Member, open_crew};
use mio_edge::{MioFan, MioHub};
use std::alloc::Global;
use std::thread::Threads;

/// Serves in as many threads as the words give. Where the system refuses what they need, no hub is used.
///
/// `OutOfMemory`: the memory for the crew was not found.
pub fn serve_in_threads<R: Threads + Sync>(
    rt: &HostRuntime,
    starter: &R,
    serving: &Serving,
    declared: &Declared,
) -> Result<Status, OutOfMemory>
    requires { IsInRange (Serve serving.now declared.now) }
{
    let alloc = rt.alloc();
    let targets = [Text::new(alloc, serving.target.as_slice())?];
    match open_crew(rt, alloc, serving.threads as usize, &targets)? {
        Some(members) => serve_over(rt, starter, serving, declared, members),
        None => Ok(refused(rt)),
    }
}

// Serves over these networks, each in a thread.
fn serve_over<R: Threads + Sync>(
    rt: &HostRuntime,
    starter: &R,
    serving: &Serving,
    declared: &Declared,
    members: Vec<Member<'_, HostRuntime>>,
) -> Result<Status, OutOfMemory>
    requires { IsInRange (Serve serving.now declared.now) }
{
    let alloc = rt.alloc();
    let mut crew = Vec::with_capacity(alloc, members.len())?;
    for member in members {
        let hub = MioHub::over(member.network);
        let output = StdSink::new(rt.stdout());
        crew.push(Worker::new(alloc, hub, output, member.exit)?)?;
    }
    let mut files = DiskFiles::new(rt);
    let mut report = StdSink::new(rt.stderr());
    Ok(serve_crew(
        starter,
        alloc,
        serving,
        declared,
        &mut files,
        &mut report,
        &mut crew,
    ))
}

/// Routes in as many threads as the words give. Where the system refuses what they need, no fan is used.
///
/// `OutOfMemory`: the memory for the crew was not found.
pub fn route_in_threads<R: Threads + Sync>(
    rt: &HostRuntime,
    starter: &R,
    routing: &Routing,
    declared: &Declared,
) -> Result<Status, OutOfMemory>
    requires { IsInRange (Route routing.now declared.now) }
{
    let alloc = rt.alloc();
    let targets = addresses_of(alloc, routing)?;
    match open_crew(rt, alloc, routing.threads as usize, &targets)? {
        Some(members) => route_over(rt, starter, routing, declared, members),
        None => Ok(refused(rt)),
    }
}

// Routes over these networks, each in a thread.
fn route_over<R: Threads + Sync>(
    rt: &HostRuntime,
    starter: &R,
    routing: &Routing,
    declared: &Declared,
    members: Vec<Member<'_, HostRuntime>>,
) -> Result<Status, OutOfMemory>
    requires { IsInRange (Route routing.now declared.now) }
{
    let alloc = rt.alloc();
    let mut crew = Vec::with_capacity(alloc, members.len())?;
    for member in members {
        let fan = MioFan::over(member.network);
        let output = StdSink::new(rt.stdout());
        crew.push(Worker::new(alloc, fan, output, member.exit)?)?;
    }
    let mut files = DiskFiles::new(rt);
    let mut report = StdSink::new(rt.stderr());
    Ok(route_crew(
        starter,
        alloc,
        routing,
        declared,
        &mut files,
        &mut report,
        &mut crew,
    ))
}

// What a server or router ends with to which the system refuses what its threads need.
fn refused(rt: &HostRuntime) -> Status {
    let mut report = StdSink::new(rt.stderr());
    end_with(&mut report, Ending::HubFault).status()
}

// The address of each target.
fn addresses_of(alloc: Global, routing: &Routing) -> Result<Vec<Text>, OutOfMemory> {
    let mut addresses = Vec::new(alloc);
    for target in routing.targets.as_slice() {
        addresses.push(Text::new(alloc, target.address.as_slice())?)?;
    }
    Ok(addresses)
}
