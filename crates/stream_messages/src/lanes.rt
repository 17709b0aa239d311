//! The two sides of a session, of which one or both are without lengths.
ghost use Rattle.std.specs.Prelude.{◌≡◌, ◌<◌, ◌^◌, length, IfOk};
ghost use Rattle.gate_base.specs.Causes.{Rose};
ghost use Rattle.gate_hub.specs.Hubs.{Later, GotWithin, TookWithin, LinkReads, LinkWrites};
ghost use Rattle.stream_messages.specs.Slots.{fresh_lanes, fresh_side, restarted, restarted_side};
ghost use Rattle.stream_messages.specs.Sessions.{LanesGo};
ghost use Rattle.stream_messages.specs.Lanes.{OneSideGoes};

use crate::lane::Lane;
use crate::scan::Wire;
use gate_base::OutOfMemory;
use gate_hub::{Hub, LinkGot, LinkPut, Side};
use std::alloc::Global;

/// How a hub wraps another: the protocols of the sides whose messages have no lengths, and the longest message in bytes. A side with
/// None is passed through.
#[derive(Clone, Copy)]
pub struct Wrapping {
    pub client: Option<Wire>,
    pub upstream: Option<Wire>,
    pub limit: usize,
}

/// The sides of a session; None is one that is passed through.
#[derive(Drop)]
pub struct Lanes {
    client: Option<Lane>,
    upstream: Option<Lane>,
}

impl Lanes {
    /// Sides to which nothing has happened.
    ///
    /// `OutOfMemory`: the rooms for a message of each side were not found.
    pub fn open(alloc: Global, wrapping: Wrapping) -> Result<Lanes, OutOfMemory>
        requires some { 0 < wrapping.limit }
        requires limit { wrapping.limit < 2 ^ 31 }
        ensures { IfOk result (λ lanes. lanes ≡ fresh_lanes wrapping) }
    {
        let client = open_side(alloc, wrapping.client, wrapping.limit)?;
        let upstream = open_side(alloc, wrapping.upstream, wrapping.limit)?;
        Ok(Lanes { client, upstream })
    }

    /// As if nothing had happened to them.
    pub fn restart(&mut self)
        ensures { self.new ≡ restarted self.old }
    {
        restart(&mut self.client);
        restart(&mut self.upstream);
    }

    /// Reads from a side of the session, whose number at the hub is k, into a slice that isn't empty.
    pub fn read<H: Hub>(&mut self, hub: &mut H, k: u64, side: Side, into: &mut [u8]) -> LinkGot
        requires { 0 < length into.old }
        ensures within { GotWithin into.new result }
        ensures size { length into.new ≡ length into.old }
        ensures goes { LanesGo (H.tells hub.old) (H.tells hub.new) self.old self.new k side (LinkReads into.new result) }
        ensures later { Later (H.counts hub.old) (H.counts hub.new) }
        ensures kept { H.kept hub.new ≡ H.kept hub.old }
        ensures cause { result ≡ LinkGot.Failed → Rose ((H.counts hub.old).link_faults k side) ((H.counts hub.new).link_faults k side) }
        ensures wait { result ≡ LinkGot.NotReady → Rose ((H.counts hub.old).waits k side) ((H.counts hub.new).waits k side) }
    {
        match side {
            Side::Client => read(&mut self.client, hub, k, side, into),
            Side::Upstream => read(&mut self.upstream, hub, k, side, into),
        }
    }

    /// Writes to a side of the session, whose number at the hub is k, the front of a slice that isn't empty.
    pub fn write<H: Hub>(&mut self, hub: &mut H, k: u64, side: Side, from: &[u8]) -> LinkPut
        requires { 0 < length from.now }
        ensures within { TookWithin from.now result }
        ensures goes { LanesGo (H.tells hub.old) (H.tells hub.new) self.old self.new k side (LinkWrites from.now result) }
        ensures later { Later (H.counts hub.old) (H.counts hub.new) }
        ensures kept { H.kept hub.new ≡ H.kept hub.old }
        ensures cause { result ≡ LinkPut.Failed → Rose ((H.counts hub.old).link_faults k side) ((H.counts hub.new).link_faults k side) }
        ensures wait { result ≡ LinkPut.NotReady → Rose ((H.counts hub.old).waits k side) ((H.counts hub.new).waits k side) }
    {
        match side {
            Side::Client => write(&mut self.client, hub, k, side, from),
            Side::Upstream => write(&mut self.upstream, hub, k, side, from),
        }
    }
}

/// The side of this protocol, if its messages have no lengths.
fn open_side(alloc: Global, wire: Option<Wire>, limit: usize) -> Result<Option<Lane>, OutOfMemory>
    requires some { 0 < limit }
    requires limit { limit < 2 ^ 31 }
    ensures { IfOk result (λ side. side ≡ fresh_side wire limit) }
{
    match wire {
        Some(wire) => Ok(Some(Lane::open(alloc, wire, limit)?)),
        None => Ok(None),
    }
}

/// As if nothing had happened to the side.
fn restart(lane: &mut Option<Lane>)
    ensures { lane.new ≡ restarted_side lane.old }
{
    if let Some(lane) = lane {
        lane.restart();
    }
}

/// Reads from the side, in frames or as it is.
fn read<H: Hub>(
    lane: &mut Option<Lane>,
    hub: &mut H,
    k: u64,
    side: Side,
    into: &mut [u8],
) -> LinkGot
    requires { 0 < length into.old }
    ensures within { GotWithin into.new result }
    ensures size { length into.new ≡ length into.old }
    ensures goes { OneSideGoes (H.tells hub.old) (H.tells hub.new) lane.old lane.new k side (LinkReads into.new result) }
    ensures later { Later (H.counts hub.old) (H.counts hub.new) }
    ensures kept { H.kept hub.new ≡ H.kept hub.old }
    ensures cause { result ≡ LinkGot.Failed → Rose ((H.counts hub.old).link_faults k side) ((H.counts hub.new).link_faults k side) }
    ensures wait { result ≡ LinkGot.NotReady → Rose ((H.counts hub.old).waits k side) ((H.counts hub.new).waits k side) }
{
    match lane {
        Some(lane) => lane.read(hub, k, side, into),
        None => hub.read(k, side, into),
    }
}

/// Writes to the side, in frames or as it is.
fn write<H: Hub>(lane: &mut Option<Lane>, hub: &mut H, k: u64, side: Side, from: &[u8]) -> LinkPut
    requires { 0 < length from.now }
    ensures within { TookWithin from.now result }
    ensures goes { OneSideGoes (H.tells hub.old) (H.tells hub.new) lane.old lane.new k side (LinkWrites from.now result) }
    ensures later { Later (H.counts hub.old) (H.counts hub.new) }
    ensures kept { H.kept hub.new ≡ H.kept hub.old }
    ensures cause { result ≡ LinkPut.Failed → Rose ((H.counts hub.old).link_faults k side) ((H.counts hub.new).link_faults k side) }
    ensures wait { result ≡ LinkPut.NotReady → Rose ((H.counts hub.old).waits k side) ((H.counts hub.new).waits k side) }
{
    match lane {
        Some(lane) => lane.write(hub, k, side, from),
        None => hub.write(k, side, from),
    }
}
