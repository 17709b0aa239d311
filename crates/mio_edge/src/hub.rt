//! The hub of sessions with one upstream. It tells what its network's streams tell, and counts what
//! failed and what wasn't ready.
ghost use Rattle.std.specs.Prelude.{◌≡◌, ◌<◌, ◌≤◌, ◌⊎◌, ◌∷◌, [], ℕ, length, false, Some};
ghost use Rattle.gate_base.specs.Causes.{Rose};
ghost use Rattle.gate_hub.specs.Hubs.{CloseLeads, GotWithin, HasStarted, Later, Leads, NextLeads, NotStarted, ReadLeads, StartLeads, TookWithin, WriteLeads, started_with};
ghost use Rattle.gate_hub.specs.Meaning.{IsOpen};
ghost use Rattle.gate_hub.specs.declared.hub.Began.TheVariants as began;
ghost use Rattle.gate_hub.specs.declared.hub.HubNext.TheVariants as event;
ghost use Rattle.mio_edge.specs.Counting.{FaultRose, WaitRose, counts_in};
ghost use Rattle.mio_edge.specs.Fixed.{SocketsSame};
ghost use Rattle.mio_edge.specs.Numbers.{AllAnnounced, Numbers};
ghost use Rattle.mio_edge.specs.Places.{AllHaveSent};
ghost use Rattle.mio_edge.specs.Targets.{LeadsSessions, ListensAt};
ghost use Rattle.mio_edge.specs.Telling.{HubTells, HubLeads, port_number};
ghost use Rattle.mio_edge.specs.Turning.{EventTurn, SocketsJoin};
ghost use Rattle.mio_edge.specs.Winding.{SocketsClose, SocketsWind, SocketsWindIfTold};
ghost use Rattle.mio_edge.specs.Worlds.{SocketsStepped};

use crate::Sockets;
use crate::mio_network::MioNetwork;
use crate::network::Network;
use gate_base::Text;
use gate_hub::{Began, Hub, HubNext, LinkGot, LinkPut, Side};
use std::alloc::Global;
use std::net::Net;

/// What was counted of a side, over all sessions, or of all ports: calls that failed, and answers that
/// it isn't ready. Each stands still at 2^64 - 1.
#[derive(Clone, Copy)]
pub struct SideCounts {
    pub(crate) faults: u64,
    pub(crate) waits: u64,
}

/// A hub over the sockets of a network.
///
/// It reserves `sessions + 1` places in `start`, each of 1,048,576 bytes, or 262,144 for more than 64
/// sessions, for the buffers of its two ports and some hundreds, and takes no memory after it.
#[derive(Drop)]
pub struct MioHub<W: Network> {
    sockets: Sockets<W>,
    client: SideCounts,
    upstream: SideCounts,
}

impl<'n, N: Net> MioHub<MioNetwork<'n, N>> {
    /// A hub over the system's sockets that hasn't started. Its counts are 0.
    pub fn new(net: &'n N) -> MioHub<MioNetwork<'n, N>>
        ensures faults { result.sockets.faults ≡ 0 }
        ensures client { result.client ≡ record { faults = 0; waits = 0 } }
        ensures upstream { result.upstream ≡ record { faults = 0; waits = 0 } }
    {
        MioHub::over(MioNetwork::new(net))
    }
}

impl<W: Network> MioHub<W> {
    /// A hub over this network that hasn't started. Its counts are 0.
    pub fn over(network: W) -> MioHub<W>
        ensures faults { result.sockets.faults ≡ 0 }
        ensures client { result.client ≡ record { faults = 0; waits = 0 } }
        ensures upstream { result.upstream ≡ record { faults = 0; waits = 0 } }
    {
        let none = SideCounts {
            faults: 0,
            waits: 0,
        };
        MioHub {
            sockets: Sockets::over(network),
            client: none,
            upstream: none,
        }
    }

    // Counts what a read of a side answered.
    fn count_got(&mut self, side: Side, got: LinkGot)
        ensures sockets { self.new.sockets ≡ self.old.sockets }
        ensures later { Later (counts_in self.old) (counts_in self.new) }
        ensures cause { got ≡ LinkGot.Failed → FaultRose side self.old self.new }
        ensures wait { got ≡ LinkGot.NotReady → WaitRose side self.old self.new }
    {
        match got {
            LinkGot::Failed => self.count_fault(side),
            LinkGot::NotReady => self.count_wait(side),
            LinkGot::Bytes(_) | LinkGot::End => (),
        }
    }

    // Counts what a write to a side answered.
    fn count_put(&mut self, side: Side, put: LinkPut)
        ensures sockets { self.new.sockets ≡ self.old.sockets }
        ensures later { Later (counts_in self.old) (counts_in self.new) }
        ensures cause { put ≡ LinkPut.Failed → FaultRose side self.old self.new }
        ensures wait { put ≡ LinkPut.NotReady → WaitRose side self.old self.new }
    {
        match put {
            LinkPut::Failed => self.count_fault(side),
            LinkPut::NotReady => self.count_wait(side),
            LinkPut::Took(_) => (),
        }
    }

    // Counts a fault of a side.
    fn count_fault(&mut self, side: Side)
        ensures sockets { self.new.sockets ≡ self.old.sockets }
        ensures later { Later (counts_in self.old) (counts_in self.new) }
        ensures cause { FaultRose side self.old self.new }
    {
        match side {
            Side::Client => self.client.faults = self.client.faults.saturating_add(1),
            Side::Upstream => self.upstream.faults = self.upstream.faults.saturating_add(1),
        }
    }

    // Counts an answer of a side that it isn't ready.
    fn count_wait(&mut self, side: Side)
        ensures sockets { self.new.sockets ≡ self.old.sockets }
        ensures later { Later (counts_in self.old) (counts_in self.new) }
        ensures cause { WaitRose side self.old self.new }
    {
        match side {
            Side::Client => self.client.waits = self.client.waits.saturating_add(1),
            Side::Upstream => self.upstream.waits = self.upstream.waits.saturating_add(1),
        }
    }
}

impl<W: Network> Hub for MioHub<W> {
    ghost tells = { HubTells W.is_telling W.Stream.tells };

    ghost counts = { λ h. counts_in h };

    ghost kept = { λ _. tt };

    fn start(
        &mut self,
        alloc: Global,
        listen: &[u8],
        upstream: &[u8],
        accept: u64,
        sessions: usize,
    ) -> Began
        ensures leads { HubLeads W.is_telling W.Stream.tells NotStarted (StartLeads (started_with listen.now upstream.now accept sessions) result) self.old self.new }
        ensures later { Later (counts_in self.old) (counts_in self.new) }
        ensures cause { result ≡ began.Failed → Rose self.old.sockets.faults self.new.sockets.faults }
        ensures unfound { (at : ℕ) → result ≡ began.NotFound at → Rose self.old.sockets.faults self.new.sockets.faults }
        ensures accept { result ≡ began.Done → self.new.sockets.accept ≡ accept }
        ensures each { result ≡ began.Done → LeadsSessions W.names (upstream.now ∷ []) self.new.sockets.serving.listening }
        ensures listens { result ≡ began.Done → ListensAt W.listens listen.now self.new.sockets.network }
    {
        match Text::new(alloc, upstream) {
            Ok(upstream) => self
                .sockets
                .start(alloc, listen, &[upstream], accept, sessions),
            Err(_) => Began::OutOfMemory,
        }
    }

    fn next(&mut self) -> HubNext
        ensures leads { Leads (HubTells W.is_telling W.Stream.tells self.old) (HubTells W.is_telling W.Stream.tells self.new) HasStarted (NextLeads result) }
        ensures later { Later (counts_in self.old) (counts_in self.new) }
        ensures cause { result ≡ event.Failed → Rose self.old.sockets.faults self.new.sockets.faults }
        ensures numbers { Numbers W.is_shared result self.old.sockets.serving.announced self.new.sockets.serving.announced }
        ensures stopped { result ≡ event.Stopped → AllAnnounced self.new.sockets.accept self.new.sockets.serving.announced ⊎ W.is_shared }
        ensures sent { result ≡ event.Stopped → self.old.sockets.has_stopped ≡ false → AllHaveSent self.new.sockets ⊎ W.is_shared }
        ensures winds { SocketsWind W.Stream.tells self.old.sockets self.new.sockets }
        ensures turn { EventTurn W.is_telling W.Stream.tells (Some result) self.old.sockets self.new.sockets }
        ensures stepped { SocketsStepped W.is_telling W.Stream.tells self.new.sockets }
        ensures same { SocketsSame self.old.sockets self.new.sockets }
    {
        self.sockets.next()
    }

    #[inline(always)]
    fn read(&mut self, k: u64, side: Side, into: &mut [u8]) -> LinkGot
        requires { 0 < length into.old }
        ensures within { GotWithin into.new result }
        ensures leads { HubLeads W.is_telling W.Stream.tells (IsOpen k) (ReadLeads k side (length into.old) into.new result) self.old self.new }
        ensures later { Later (counts_in self.old) (counts_in self.new) }
        ensures cause { result ≡ LinkGot.Failed → Rose ((counts_in self.old).link_faults k side) ((counts_in self.new).link_faults k side) }
        ensures wait { result ≡ LinkGot.NotReady → Rose ((counts_in self.old).waits k side) ((counts_in self.new).waits k side) }
        ensures winds { SocketsWindIfTold W.is_telling W.Stream.tells self.old.sockets self.new.sockets }
        ensures joins { SocketsJoin self.old.sockets self.new.sockets }
        ensures same { SocketsSame self.old.sockets self.new.sockets }
    {
        let got = self.sockets.read(k, port_of(side), into);
        self.count_got(side, got);
        got
    }

    #[inline(always)]
    fn write(&mut self, k: u64, side: Side, from: &[u8]) -> LinkPut
        requires { 0 < length from.now }
        ensures within { TookWithin from.now result }
        ensures leads { HubLeads W.is_telling W.Stream.tells (IsOpen k) (WriteLeads k side from.now result) self.old self.new }
        ensures later { Later (counts_in self.old) (counts_in self.new) }
        ensures cause { result ≡ LinkPut.Failed → Rose ((counts_in self.old).link_faults k side) ((counts_in self.new).link_faults k side) }
        ensures wait { result ≡ LinkPut.NotReady → Rose ((counts_in self.old).waits k side) ((counts_in self.new).waits k side) }
        ensures winds { SocketsWindIfTold W.is_telling W.Stream.tells self.old.sockets self.new.sockets }
        ensures joins { SocketsJoin self.old.sockets self.new.sockets }
        ensures same { SocketsSame self.old.sockets self.new.sockets }
    {
        let put = self.sockets.write(k, port_of(side), from);
        self.count_put(side, put);
        put
    }

    fn close(&mut self, k: u64)
        ensures leads { HubLeads W.is_telling W.Stream.tells (IsOpen k) (CloseLeads k) self.old self.new }
        ensures later { Later (counts_in self.old) (counts_in self.new) }
        ensures sends { SocketsClose W.is_telling W.Stream.tells k self.old.sockets self.new.sockets }
        ensures winds { SocketsWind W.Stream.tells self.old.sockets self.new.sockets }
        ensures joins { SocketsJoin self.old.sockets self.new.sockets }
        ensures same { SocketsSame self.old.sockets self.new.sockets }
    {
        self.sockets.close(k);
    }

    ghost bytes = { λ hub m told. told.sessions.bytes };
}

// The port of a side.
fn port_of(side: Side) -> usize
    ensures { result ≡ port_number side }
{
    match side {
        Side::Client => 0,
        Side::Upstream => 1,
    }
}
