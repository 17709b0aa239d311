//! The sockets of a server: sessions of one client and some upstreams.
ghost use Rattle.std.specs.Prelude.{◌≡◌, ◌≢◌, ◌<◌, ◌≤◌, ◌-◌, ◌^◌, ◌+◌, ◌⊎◌, ℕ, length, true, false, None, Some, Ok, IsSome, IfSome};
ghost use Rattle.gate_base.specs.Causes.{Rose};
ghost use Rattle.gate_hub.specs.Hubs.{GotWithin, TookWithin};
ghost use Rattle.gate_hub.specs.declared.hub.Began.TheVariants as began;
ghost use Rattle.gate_hub.specs.declared.hub.HubNext.TheVariants as event;
ghost use Rattle.gate_hub.specs.Hubs.{LinkReads, LinkWrites};
ghost use Rattle.mio_edge.specs.Admitting.{IfHere, IfNotHere};
ghost use Rattle.mio_edge.specs.Fixed.{SocketsSame};
ghost use Rattle.mio_edge.specs.Numbers.{AllAnnounced, Numbers, NumbersIfAny, Passes};
ghost use Rattle.mio_edge.specs.Places.{AllHaveSent};
ghost use Rattle.mio_edge.specs.Tables.{AtSession, Opens, Shuts, NamesIfAny, empty_world};
ghost use Rattle.mio_edge.specs.Targets.{LeadsSessions, ListensAt};
ghost use Rattle.mio_edge.specs.Turning.{EventTurn, SocketsJoin, SocketsTurnIfTold};
ghost use Rattle.mio_edge.specs.Winding.{SocketsWind, SocketsWindIfTold, SocketsClose};
ghost use Rattle.mio_edge.specs.Worlds.{SocketsStay, SocketsStepped, SocketsMove, SocketsMoveAt, NoneOpen, EventMoves, EventMovesIfAny, HasStopped};

use crate::listening::{Admitted, Connecting, Listening};
use crate::mio_network::MioNetwork;
use crate::network::Network;
use crate::serving::Serving;
use crate::table::Table;
use crate::targets::{find_targets, listener_address};
use gate_base::{OutOfMemory, Text};
use gate_hub::{Began, HubNext, LinkGot, LinkPut};
use std::alloc::Global;
use std::net::Net;

/// Real sockets: a listener, and for each session a port 0 to the client that connected and a port
/// to each upstream.
///
/// All memory is taken in `start`, for `sessions + 1` sessions: each port has two buffers of
/// 524,288 bytes divided by the number of ports, for more than 64 sessions of 131,072 divided by it,
/// but of 8,192 at least, and a session takes some hundreds of bytes beside them. With one upstream
/// that is 1,048,576 bytes of buffers a session, or 262,144 for more than 64.
///
/// A session that is closed keeps its place until what was written to it is sent or can't be; a new
/// connection waits for a place. Once it has sent everything it waits for its peers to end too, lest
/// the system reset a connection of which bytes stand unread and what was sent be lost; but it gives
/// its place to a new connection.
#[derive(Drop)]
pub struct Sockets<W: Network> {
    network: W,
    connecting: Connecting,
    serving: Serving<W::Stream>,
    accept: u64,
    /// `next` has answered that no event will follow.
    has_stopped: bool,
    faults: u64,
}

impl<'n, N: Net> Sockets<MioNetwork<'n, N>> {
    /// No sockets yet. A session is connected to all its upstreams as soon as it is opened.
    pub fn new(net: &'n N) -> Sockets<MioNetwork<'n, N>>
        ensures faults { result.faults ≡ 0 }
        ensures accept { result.accept ≡ 0 }
        ensures announced { result.serving.announced ≡ 0 }
    {
        Sockets::over(MioNetwork::new(net))
    }
}

impl<W: Network> Sockets<W> {
    /// No sockets of this network yet. A session is connected to all its upstreams as soon as it is opened.
    pub fn over(network: W) -> Sockets<W>
        ensures faults { result.faults ≡ 0 }
        ensures accept { result.accept ≡ 0 }
        ensures announced { result.serving.announced ≡ 0 }
    {
        Sockets::connecting(network, Connecting::AtOnce)
    }

    /// No sockets of this network yet. A session is connected to an upstream at the first write to it: until then
    /// nothing can be read from it, and a session that never writes to it isn't touched by its absence.
    pub fn on_demand(network: W) -> Sockets<W>
        ensures faults { result.faults ≡ 0 }
        ensures accept { result.accept ≡ 0 }
        ensures announced { result.serving.announced ≡ 0 }
    {
        Sockets::connecting(network, Connecting::OnDemand)
    }

    fn connecting(network: W, connecting: Connecting) -> Sockets<W>
        ensures faults { result.faults ≡ 0 }
        ensures accept { result.accept ≡ 0 }
        ensures announced { result.serving.announced ≡ 0 }
    {
        Sockets {
            network,
            connecting,
            serving: Serving {
                announced: 0,
                listening: None,
            },
            accept: 0,
            has_stopped: false,
            faults: 0,
        }
    }

    /// Begins to listen at an address, for at most `sessions` sessions at a time and `accept`
    /// connections in all (0: as many as come), each of which is led to every upstream. Addresses
    /// are written `A.B.C.D:PORT` or `[IPV6]:PORT`, those of upstreams `NAME:PORT` too: each name is looked
    /// up once, here, in the order of the upstreams and before the listener is bound.
    ///
    /// One place more than `sessions` is reserved, so that a connection beyond them can be announced.
    /// `Failed`: the count of `start` and `next` rose; an address isn't one, or the system refused.
    /// `NotFound`: that count rose; the network knows no address for the name of this upstream.
    /// `Done`: it listens at the address that `listen` spells, and each session has a port to the address that each
    /// upstream's word spells, or that the network answered for its name, in the order of the upstreams.
    pub fn start(
        &mut self,
        alloc: Global,
        listen: &[u8],
        upstreams: &[Text],
        accept: u64,
        sessions: usize,
    ) -> Began
        ensures begins { result ≡ began.Done → SocketsMove W.is_telling W.Stream.tells (λ a b. b ≡ empty_world) self.old self.new }
        ensures keeps { result ≢ began.Done → SocketsStay W.is_telling W.Stream.tells self.old self.new }
        ensures announced { self.new.serving.announced ≡ self.old.serving.announced }
        ensures accept { result ≡ began.Done → self.new.accept ≡ accept }
        ensures kept { result ≢ began.Done → self.new.accept ≡ self.old.accept }
        ensures later { self.old.faults ≤ self.new.faults }
        ensures cause { result ≡ began.Failed → Rose self.old.faults self.new.faults }
        ensures unfound { (at : ℕ) → result ≡ began.NotFound at → Rose self.old.faults self.new.faults }
        ensures place { (at : ℕ) → result ≡ began.NotFound at → at < length upstreams.now }
        ensures leads { result ≡ began.Done → LeadsSessions W.names upstreams.now self.new.serving.listening }
        ensures listens { result ≡ began.Done → ListensAt W.listens listen.now self.new.network }
    {
        match self.open(alloc, listen, upstreams, sessions) {
            Ok(Began::Done) => {
                self.accept = accept;
                Began::Done
            }
            Ok(Began::OutOfMemory) | Err(_) => Began::OutOfMemory,
            Ok(Began::Failed) => {
                self.count_fault();
                Began::Failed
            }
            Ok(Began::NotFound(at)) => {
                self.count_fault();
                Began::NotFound(at)
            }
        }
    }

    // Takes all memory, finds the upstreams, and listens.
    fn open(
        &mut self,
        alloc: Global,
        listen: &[u8],
        upstreams: &[Text],
        sessions: usize,
    ) -> Result<Began, OutOfMemory>
        ensures begins { result ≡ Ok began.Done → SocketsMove W.is_telling W.Stream.tells (λ a b. b ≡ empty_world) self.old self.new }
        ensures keeps { result ≢ Ok began.Done → SocketsStay W.is_telling W.Stream.tells self.old self.new }
        ensures announced { self.new.serving.announced ≡ self.old.serving.announced }
        ensures accept { self.new.accept ≡ self.old.accept }
        ensures faults { self.new.faults ≡ self.old.faults }
        ensures place { (at : ℕ) → result ≡ Ok (began.NotFound at) → at < length upstreams.now }
        ensures leads { result ≡ Ok began.Done → LeadsSessions W.names upstreams.now self.new.serving.listening }
        ensures listens { result ≡ Ok began.Done → ListensAt W.listens listen.now self.new.network }
    {
        let Some(address) = listener_address(listen) else {
            return Ok(Began::Failed);
        };
        let mut targets = Vec::with_capacity(alloc, upstreams.len())?;
        let found = find_targets(&mut self.network, upstreams, &mut targets)?;
        let Began::Done = found else {
            return Ok(found);
        };
        let width = targets.len().saturating_add(1);
        let table = Table::open(alloc, sessions.saturating_add(1), width)?;
        let began = without_place(self.network.listen(alloc, address, sessions));
        let Began::Done = began else {
            return Ok(began);
        };
        self.serving.listening = Some(Listening::new(targets, self.connecting, table));
        Ok(Began::Done)
    }

    /// The next event. Sessions are numbered from 0.
    ///
    /// `Ready(k)`: something came for session k, or it is its turn again after it had moved as many bytes
    /// as its buffers each way hold.
    /// `Stopped`: as many connections as `start` was given were announced, all are closed, what was
    /// written to them is sent or can't be, and the peers have ended too or a second went by in which
    /// nothing came of them. Where the network is one of several at an address it is the same once no more are handed
    /// to it, and it is told at once where another has ended before its time. `Failed`: the count of `start` and `next` rose; the
    /// system refused to wait, or the last number was given.
    pub fn next(&mut self) -> HubNext
        ensures moves { SocketsMove W.is_telling W.Stream.tells (EventMoves result) self.old self.new }
        ensures over { result ≡ event.Stopped → self.old.has_stopped ≡ false → NoneOpen W.is_telling W.Stream.tells self.old }
        ensures sent { result ≡ event.Stopped → self.old.has_stopped ≡ false → AllHaveSent self.new ⊎ W.is_shared }
        ensures still { HasStopped W.is_shared self.old → result ≡ event.Stopped }
        ensures told { result ≡ event.Stopped → HasStopped W.is_shared self.new }
        ensures numbers { Numbers W.is_shared result self.old.serving.announced self.new.serving.announced }
        ensures stopped { result ≡ event.Stopped → AllAnnounced self.new.accept self.new.serving.announced ⊎ W.is_shared }
        ensures accept { self.new.accept ≡ self.old.accept }
        ensures later { self.old.faults ≤ self.new.faults }
        ensures cause { result ≡ event.Failed → Rose self.old.faults self.new.faults }
        ensures winds { SocketsWind W.Stream.tells self.old self.new }
        ensures turn { EventTurn W.is_telling W.Stream.tells (Some result) self.old self.new }
        ensures stepped { SocketsStepped W.is_telling W.Stream.tells self.new }
        ensures same { SocketsSame self.old self.new }
    {
        if self.has_ended() {
            return HubNext::Stopped;
        }
        for _ in 0..u64::MAX {
            if let Some(event) = self.advance() {
                return event;
            }
        }
        self.fails()
    }

    /// Reads from a port of session k into a slice that isn't empty.
    ///
    /// `NotReady`: nothing came, it is the others' turn, or the port isn't connected yet; `next` names
    /// k when it may be read again. `End`: the peer will send no more. `Failed`: the connection failed or never came to
    /// be, or there is no such port.
    #[inline(always)]
    pub fn read(&mut self, k: u64, port: usize, into: &mut [u8]) -> LinkGot
        requires { 0 < length into.old }
        ensures within { GotWithin into.new result }
        ensures leads { SocketsMoveAt W.is_telling W.Stream.tells k (AtSession k port (LinkReads into.new result)) self.old self.new }
        ensures stopped { self.new.has_stopped ≡ self.old.has_stopped }
        ensures announced { self.new.serving.announced ≡ self.old.serving.announced }
        ensures accept { self.new.accept ≡ self.old.accept }
        ensures faults { self.new.faults ≡ self.old.faults }
        ensures winds { SocketsWindIfTold W.is_telling W.Stream.tells self.old self.new }
        ensures joins { SocketsJoin self.old self.new }
        ensures same { SocketsSame self.old self.new }
    {
        match &mut self.serving.listening {
            Some(listening) => listening.table.read(k, port, into),
            None => LinkGot::Failed,
        }
    }

    /// Writes the front of a slice that isn't empty to a port of session k. It is sent before `next`
    /// waits, and before it answers where 16 sessions were written to since the last send.
    ///
    /// `NotReady`: the buffer and the socket are full, or it is the others' turn; `next` names k
    /// when it may be written again. `Failed`: the connection failed, maybe at an earlier send, or
    /// never came to be, or there is no such port.
    #[inline(always)]
    pub fn write(&mut self, k: u64, port: usize, from: &[u8]) -> LinkPut
        requires { 0 < length from.now }
        ensures within { TookWithin from.now result }
        ensures leads { SocketsMoveAt W.is_telling W.Stream.tells k (AtSession k port (LinkWrites from.now result)) self.old self.new }
        ensures stopped { self.new.has_stopped ≡ self.old.has_stopped }
        ensures announced { self.new.serving.announced ≡ self.old.serving.announced }
        ensures accept { self.new.accept ≡ self.old.accept }
        ensures faults { self.new.faults ≡ self.old.faults }
        ensures winds { SocketsWindIfTold W.is_telling W.Stream.tells self.old self.new }
        ensures joins { SocketsJoin self.old self.new }
        ensures same { SocketsSame self.old self.new }
    {
        match &mut self.serving.listening {
            Some(listening) => {
                listening.connect_for_write(&mut self.network, k, port);
                listening.table.write(k, port, from)
            }
            None => LinkPut::Failed,
        }
    }

    /// Closes session k. What was written to it is sent still, and its peers see the end behind it.
    pub fn close(&mut self, k: u64)
        ensures leads { SocketsMoveAt W.is_telling W.Stream.tells k (Shuts k) self.old self.new }
        ensures stopped { self.new.has_stopped ≡ self.old.has_stopped }
        ensures announced { self.new.serving.announced ≡ self.old.serving.announced }
        ensures accept { self.new.accept ≡ self.old.accept }
        ensures faults { self.new.faults ≡ self.old.faults }
        ensures sends { SocketsClose W.is_telling W.Stream.tells k self.old self.new }
        ensures winds { SocketsWind W.Stream.tells self.old self.new }
        ensures joins { SocketsJoin self.old self.new }
        ensures same { SocketsSame self.old self.new }
    {
        // The place is given away before the peer sees the end: one that connects again then finds it.
        if let Some(listening) = &mut self.serving.listening {
            self.network.free_place();
            listening.table.close(k);
        }
    }

    // A step towards the next event: none where there is to be another.
    fn advance(&mut self) -> Option<HubNext>
        ensures moves { SocketsMove W.is_telling W.Stream.tells (EventMovesIfAny result) self.old self.new }
        ensures over { result ≡ Some event.Stopped → NoneOpen W.is_telling W.Stream.tells self.old }
        ensures sent { result ≡ Some event.Stopped → AllHaveSent self.new ⊎ W.is_shared }
        ensures told { result ≡ Some event.Stopped → HasStopped W.is_shared self.new }
        ensures numbers { NumbersIfAny W.is_shared result self.old.serving.announced self.new.serving.announced }
        ensures accept { self.new.accept ≡ self.old.accept }
        ensures later { self.old.faults ≤ self.new.faults }
        ensures cause { result ≡ Some event.Failed → Rose self.old.faults self.new.faults }
        ensures winds { SocketsWind W.Stream.tells self.old self.new }
        ensures turn { EventTurn W.is_telling W.Stream.tells result self.old self.new }
        ensures same { SocketsSame self.old self.new }
    {
        self.send_where_many();
        if self.network.is_left() {
            return Some(self.stops());
        }
        if self.is_complete() {
            return self.finish();
        }
        if self.serving.announced == u64::MAX {
            return Some(self.fails());
        }
        self.go_on()
    }

    // A step where connections may be accepted.
    fn go_on(&mut self) -> Option<HubNext>
        requires { self.old.serving.announced < 2 ^ 64 - 1 }
        ensures moves { SocketsMove W.is_telling W.Stream.tells (EventMovesIfAny result) self.old self.new }
        ensures numbers { NumbersIfAny W.is_shared result self.old.serving.announced self.new.serving.announced }
        ensures running { result ≢ Some event.Stopped }
        ensures accept { self.new.accept ≡ self.old.accept }
        ensures later { self.old.faults ≤ self.new.faults }
        ensures cause { result ≡ Some event.Failed → Rose self.old.faults self.new.faults }
        ensures winds { SocketsWind W.Stream.tells self.old self.new }
        ensures turn { EventTurn W.is_telling W.Stream.tells result self.old self.new }
        ensures same { SocketsSame self.old self.new }
    {
        match self.accept_next() {
            Admitted::Here(number) => Some(HubNext::Opened(number)),
            Admitted::Handed => {
                self.pass_over();
                None
            }
            Admitted::Nothing => self.ready(),
        }
    }

    // A step once no more connections are accepted.
    fn finish(&mut self) -> Option<HubNext>
        requires { AllAnnounced self.old.accept self.old.serving.announced ⊎ W.is_shared }
        ensures moves { SocketsMove W.is_telling W.Stream.tells (EventMovesIfAny result) self.old self.new }
        ensures over { result ≡ Some event.Stopped → NoneOpen W.is_telling W.Stream.tells self.old }
        ensures sent { result ≡ Some event.Stopped → AllHaveSent self.new }
        ensures told { result ≡ Some event.Stopped → HasStopped W.is_shared self.new }
        ensures numbers { NumbersIfAny W.is_shared result self.old.serving.announced self.new.serving.announced }
        ensures accept { self.new.accept ≡ self.old.accept }
        ensures later { self.old.faults ≤ self.new.faults }
        ensures cause { result ≡ Some event.Failed → Rose self.old.faults self.new.faults }
        ensures winds { SocketsWind W.Stream.tells self.old self.new }
        ensures turn { EventTurn W.is_telling W.Stream.tells result self.old self.new }
        ensures same { SocketsSame self.old self.new }
    {
        if self.is_over() {
            return Some(self.stops());
        }
        self.ready()
    }

    // No event follows.
    fn stops(&mut self) -> HubNext
        requires { AllAnnounced self.old.accept self.old.serving.announced ⊎ W.is_shared }
        ensures keeps { SocketsStay W.is_telling W.Stream.tells self.old self.new }
        ensures result { result ≡ event.Stopped }
        ensures told { HasStopped W.is_shared self.new }
        ensures listening { self.new.serving.listening ≡ self.old.serving.listening }
        ensures announced { self.new.serving.announced ≡ self.old.serving.announced }
        ensures accept { self.new.accept ≡ self.old.accept }
        ensures faults { self.new.faults ≡ self.old.faults }
        ensures winds { SocketsWind W.Stream.tells self.old self.new }
        ensures same { SocketsSame self.old self.new }
    {
        self.has_stopped = true;
        HubNext::Stopped
    }

    // Whether all was announced that is to be accepted.
    fn has_announced_all(&self) -> bool
        ensures some { result ≡ true → AllAnnounced self.now.accept self.now.serving.announced }
        ensures all { AllAnnounced self.now.accept self.now.serving.announced → result ≡ true }
    {
        self.accept > 0 && self.serving.announced >= self.accept
    }

    // Whether no connection comes any more.
    fn is_complete(&self) -> bool
        ensures { result ≡ true → AllAnnounced self.now.accept self.now.serving.announced ⊎ W.is_shared }
    {
        self.has_announced_all() || !self.network.may_accept()
    }

    // Whether it was told that no event follows.
    fn has_ended(&self) -> bool
        ensures told { result ≡ true → HasStopped W.is_shared self.now }
        ensures still { HasStopped W.is_shared self.now → result ≡ true }
    {
        self.has_stopped && self.may_stop()
    }

    // Whether that may have been told.
    fn may_stop(&self) -> bool
        ensures some { result ≡ true → AllAnnounced self.now.accept self.now.serving.announced ⊎ W.is_shared }
        ensures all { AllAnnounced self.now.accept self.now.serving.announced ⊎ W.is_shared → result ≡ true }
    {
        self.has_announced_all() || self.network.has_fellows()
    }

    // Lets the listener go, and says whether all is over.
    fn is_over(&mut self) -> bool
        ensures keeps { SocketsStay W.is_telling W.Stream.tells self.old self.new }
        ensures over { result ≡ true → NoneOpen W.is_telling W.Stream.tells self.old }
        ensures sent { result ≡ true → AllHaveSent self.new }
        ensures announced { self.new.serving.announced ≡ self.old.serving.announced }
        ensures accept { self.new.accept ≡ self.old.accept }
        ensures faults { self.new.faults ≡ self.old.faults }
        ensures winds { SocketsWind W.Stream.tells self.old self.new }
        ensures turn { SocketsTurnIfTold W.is_telling W.Stream.tells None self.old self.new }
        ensures same { SocketsSame self.old self.new }
    {
        match &mut self.serving.listening {
            Some(listening) => {
                listening.stop_accepting(&mut self.network);
                listening.is_over()
            }
            None => false,
        }
    }

    // Sends what the sessions wrote, where these are many.
    fn send_where_many(&mut self)
        ensures keeps { SocketsStay W.is_telling W.Stream.tells self.old self.new }
        ensures announced { self.new.serving.announced ≡ self.old.serving.announced }
        ensures accept { self.new.accept ≡ self.old.accept }
        ensures faults { self.new.faults ≡ self.old.faults }
        ensures winds { SocketsWind W.Stream.tells self.old self.new }
        ensures turn { SocketsTurnIfTold W.is_telling W.Stream.tells None self.old self.new }
        ensures same { SocketsSame self.old self.new }
    {
        if let Some(listening) = &mut self.serving.listening {
            listening.table.send_where_many();
        }
    }

    // Accepts the next connection, if there is one, and raises the next number where it is a session here.
    fn accept_next(&mut self) -> Admitted
        requires { self.old.serving.announced < 2 ^ 64 - 1 }
        ensures opens { IfHere result (λ k. SocketsMove W.is_telling W.Stream.tells (Opens k) self.old self.new) }
        ensures keeps { IfNotHere result (SocketsStay W.is_telling W.Stream.tells self.old self.new) }
        ensures number { IfHere result (λ k. Passes W.is_shared self.old.serving.announced k × (k < 2 ^ 64 - 1)) }
        ensures handed { result ≡ Admitted.Handed → W.is_shared }
        ensures announced { IfHere result (λ k. self.new.serving.announced ≡ k + 1) }
        ensures waits { IfNotHere result (self.new.serving.announced ≡ self.old.serving.announced) }
        ensures accept { self.new.accept ≡ self.old.accept }
        ensures faults { self.new.faults ≡ self.old.faults }
        ensures winds { SocketsWind W.Stream.tells self.old self.new }
        ensures turn { IfNotHere result (SocketsTurnIfTold W.is_telling W.Stream.tells None self.old self.new) }
        ensures same { SocketsSame self.old self.new }
    {
        match &mut self.serving.listening {
            Some(listening) => listening.accept(&mut self.network, &mut self.serving.announced),
            None => Admitted::Nothing,
        }
    }

    // The number of the session that is to have a turn next.
    fn next_named(&mut self) -> Option<u64>
        ensures names { SocketsMove W.is_telling W.Stream.tells (NamesIfAny result) self.old self.new }
        ensures below { IfSome result (λ number. number < self.old.serving.announced) }
        ensures announced { self.new.serving.announced ≡ self.old.serving.announced }
        ensures accept { self.new.accept ≡ self.old.accept }
        ensures faults { self.new.faults ≡ self.old.faults }
        ensures winds { SocketsWind W.Stream.tells self.old self.new }
        ensures turn { SocketsTurnIfTold W.is_telling W.Stream.tells result self.old self.new }
        ensures same { SocketsSame self.old self.new }
    {
        match &mut self.serving.listening {
            Some(listening) => listening.table.next_ready(),
            None => None,
        }
    }

    // Sends what was written and waits, where no session is to have a turn. It says whether that failed.
    fn rest(&mut self) -> bool
        ensures keeps { SocketsStay W.is_telling W.Stream.tells self.old self.new }
        ensures announced { self.new.serving.announced ≡ self.old.serving.announced }
        ensures accept { self.new.accept ≡ self.old.accept }
        ensures faults { self.new.faults ≡ self.old.faults }
        ensures winds { SocketsWind W.Stream.tells self.old self.new }
        ensures turn { SocketsTurnIfTold W.is_telling W.Stream.tells None self.old self.new }
        ensures same { SocketsSame self.old self.new }
    {
        match &mut self.serving.listening {
            Some(listening) => listening.rest(&mut self.network),
            None => true,
        }
    }

    // The next number is another's.
    fn pass_over(&mut self)
        requires { self.old.serving.announced < 2 ^ 64 - 1 }
        ensures keeps { SocketsStay W.is_telling W.Stream.tells self.old self.new }
        ensures announced { self.new.serving.announced ≡ self.old.serving.announced + 1 }
        ensures accept { self.new.accept ≡ self.old.accept }
        ensures faults { self.new.faults ≡ self.old.faults }
        ensures winds { SocketsWind W.Stream.tells self.old self.new }
        ensures turn { SocketsTurnIfTold W.is_telling W.Stream.tells None self.old self.new }
        ensures same { SocketsSame self.old self.new }
    {
        self.serving.announced += 1;
    }

    // A session that is to have a turn: none after a wait.
    fn ready(&mut self) -> Option<HubNext>
        ensures moves { SocketsMove W.is_telling W.Stream.tells (EventMovesIfAny result) self.old self.new }
        ensures numbers { NumbersIfAny W.is_shared result self.old.serving.announced self.new.serving.announced }
        ensures running { result ≢ Some event.Stopped }
        ensures announced { self.new.serving.announced ≡ self.old.serving.announced }
        ensures accept { self.new.accept ≡ self.old.accept }
        ensures later { self.old.faults ≤ self.new.faults }
        ensures cause { result ≡ Some event.Failed → Rose self.old.faults self.new.faults }
        ensures winds { SocketsWind W.Stream.tells self.old self.new }
        ensures turn { EventTurn W.is_telling W.Stream.tells result self.old self.new }
        ensures same { SocketsSame self.old self.new }
    {
        if let Some(number) = self.next_named() {
            return Some(HubNext::Ready(number));
        }
        if self.rest() {
            return Some(self.fails());
        }
        None
    }

    // Fails, and counts that.
    fn fails(&mut self) -> HubNext
        ensures keeps { SocketsStay W.is_telling W.Stream.tells self.old self.new }
        ensures result { result ≡ event.Failed }
        ensures announced { self.new.serving.announced ≡ self.old.serving.announced }
        ensures accept { self.new.accept ≡ self.old.accept }
        ensures later { self.old.faults ≤ self.new.faults }
        ensures cause { Rose self.old.faults self.new.faults }
        ensures winds { SocketsWind W.Stream.tells self.old self.new }
        ensures same { SocketsSame self.old self.new }
    {
        self.count_fault();
        HubNext::Failed
    }

    // Counts a fault of `start` or `next`.
    fn count_fault(&mut self)
        ensures others { self.new ≡ record self.old { faults = self.new.faults } }
        ensures later { self.old.faults ≤ self.new.faults }
        ensures cause { Rose self.old.faults self.new.faults }
    {
        self.faults = self.faults.saturating_add(1);
    }
}

// A network that doesn't listen names no upstream.
fn without_place(answer: Began) -> Began
    ensures done { result ≡ began.Done → answer ≡ began.Done }
    ensures none { (at : ℕ) → result ≢ began.NotFound at }
{
    match answer {
        Began::Done => Began::Done,
        Began::OutOfMemory => Began::OutOfMemory,
        Began::Failed | Began::NotFound(_) => Began::Failed,
    }
}
