//! The sessions of a server that listens, and its wait for what comes of them.
ghost use Rattle.std.specs.Prelude.{◌≡◌, ◌≢◌, ◌<◌, ◌≤◌, ◌+◌, ◌-◌, ◌^◌, [], ℕ, None, true, false};
ghost use Rattle.mio_edge.specs.Closing.{Winds, OthersStay};
ghost use Rattle.mio_edge.specs.Fixed.{fixed_of};
ghost use Rattle.mio_edge.specs.Order.{SameTurns, TurnsIfTold};
ghost use Rattle.mio_edge.specs.Wire.{Stays, new_wire};
ghost use Rattle.mio_edge.specs.Numbered.{AreBelow, ComesBelow, StayBelow};
ghost use Rattle.mio_edge.specs.Numbers.{Passes};
ghost use Rattle.mio_edge.specs.Admitting.{IfHere, IfNotHere};
ghost use Rattle.mio_edge.specs.Moving.{IsBegun};
ghost use Rattle.mio_edge.specs.Places.{AllSent};
ghost use Rattle.mio_edge.specs.Stepping.{AreStepped, StayStepped};
ghost use Rattle.mio_edge.specs.Tables.{TableTells, IsPrepared, IsClosedAt, KeepsIdle, TableAnnounces};

use crate::Stream;
use crate::network::{Accepted, Handing, Network, Waited};
use crate::port::Sending;
use crate::table::Table;
use std::net::SocketAddr;
use std::time::Duration;

/// At most so many connections are accepted between two waits, so that a crowd of them doesn't hold
/// up the sessions.
const MOST_ACCEPTS: u32 = 16;

/// After so many milliseconds an accept that failed, or that found no place anywhere, is tried again.
const RETRY_MILLIS: u64 = 100;

/// What a server that has sent everything may spend on waits for its peers' ends before it stops: a
/// wait costs 1, and one that brings nothing in `RETRY_MILLIS` costs `IDLE_COST`. So a peer that
/// stays holds it up for a second, and one that sends without a pause no longer than that many waits.
const PATIENCE: u32 = 100_000;

const IDLE_COST: u32 = 10_000;

// Whether a connection may wait: none so far, one may, or the last accept failed, for want of
// descriptors, say, and is to be tried again later.
#[derive(Clone, Copy, PartialEq, Eq)]
enum Accepting {
    Idle,
    Ready,
    Short,
}

/// What became of the next connection that waits.
#[derive(Clone, Copy)]
pub(crate) enum Admitted {
    /// It is a session here, of this number.
    Here(u64),
    /// Another server at the address serves it.
    Handed,
    /// None came, or no session could be made of it.
    Nothing,
}

/// When the connections of a session to its upstreams are begun: all with the session, or each at the
/// first write to it.
#[derive(Clone, Copy, PartialEq, Eq)]
pub(crate) enum Connecting {
    AtOnce,
    OnDemand,
}

/// What a server that listens has.
#[derive(Drop)]
pub(crate) struct Listening<S> {
    /// Later connections are accepted.
    is_accepting: bool,
    accepting: Accepting,
    accepts_left: u32,
    patience: u32,
    targets: Vec<SocketAddr>,
    connecting: Connecting,
    pub(crate) table: Table<S>,
}

impl<S: Stream> Listening<S> {
    /// No sessions yet, which are to be led to these targets.
    pub(crate) fn new(
        targets: Vec<SocketAddr>,
        connecting: Connecting,
        table: Table<S>,
    ) -> Listening<S>
        ensures connecting { result.connecting ≡ connecting }
        ensures table { result.table ≡ table }
        ensures targets { result.targets ≡ targets }
    {
        Listening {
            is_accepting: true,
            accepting: Accepting::Idle,
            accepts_left: MOST_ACCEPTS,
            patience: PATIENCE,
            targets,
            connecting,
            table,
        }
    }

    /// Lets the listener go: later connections are refused.
    pub(crate) fn stop_accepting<W: Network<Stream = S>>(&mut self, network: &mut W)
        ensures table { self.new.table ≡ self.old.table }
        ensures connecting { self.new.connecting ≡ self.old.connecting }
        ensures same { fixed_of self.new ≡ fixed_of self.old }
    {
        if self.is_accepting {
            self.is_accepting = false;
            network.stop_listening();
        }
    }

    /// Whether all sessions are closed and everything is sent, and the peers have ended too or were
    /// waited for long enough.
    pub(crate) fn is_over(&self) -> bool
        ensures closed { result ≡ true → self.now.table.entries.items ≡ [] }
        ensures sent { result ≡ true → AllSent self.now.table }
    {
        self.table.is_done() && (self.patience == 0 || self.table.is_empty())
    }

    /// Accepts the next connection that waits, where `next` is the next number, which it raises, and begins one to each target, or has it
    /// begun later. One that finds no place here is accepted only where it may be handed on. An accept that fails is passed over.
    pub(crate) fn accept<W: Network<Stream = S>>(
        &mut self,
        network: &mut W,
        next: &mut u64,
    ) -> Admitted
        requires { next.old < 2 ^ 64 - 1 }
        ensures opens { IfHere result (λ k. W.is_telling → TableAnnounces S.tells k self.old.table self.new.table) }
        ensures kept { IfNotHere result (Stays (TableTells S.tells self.old.table) (TableTells S.tells self.new.table)) }
        ensures number { IfHere result (λ k. Passes W.is_shared next.old k × (k < 2 ^ 64 - 1)) }
        ensures handed { result ≡ Admitted.Handed → W.is_shared }
        ensures connecting { self.new.connecting ≡ self.old.connecting }
        ensures winds { Winds S.tells self.old.table.sessions self.new.table.sessions }
        ensures turns { IfNotHere result (SameTurns self.old.table self.new.table) }
        ensures raised { IfHere result (λ k. next.new ≡ k + 1) }
        ensures waits { IfNotHere result (next.new ≡ next.old) }
        ensures below { AreBelow next.old self.old.table.sessions → AreBelow next.new self.new.table.sessions }
        ensures stepped { AreStepped self.old.table.sessions → AreStepped self.new.table.sessions }
        ensures same { fixed_of self.new ≡ fixed_of self.old }
    {
        if self.accepting != Accepting::Ready || self.accepts_left == 0 {
            return Admitted::Nothing;
        }
        let has_place = self.table.has_place();
        if !has_place && network.handing() != Handing::Now {
            return Admitted::Nothing;
        }
        self.accepts_left = self.accepts_left.saturating_sub(1);
        let accepting = match network.accept(*next, has_place) {
            Accepted::Came { stream, number } => {
                return self.open_session(network, number, stream, next);
            }
            Accepted::Handed => return Admitted::Handed,
            Accepted::Nothing => Accepting::Idle,
            Accepted::Gone => Accepting::Ready,
            Accepted::Failed => Accepting::Short,
        };
        self.accepting = accepting;
        Admitted::Nothing
    }

    // Makes a session of a connection, and raises the next number. Where that can't be, its place may be given to another.
    fn open_session<W: Network<Stream = S>>(
        &mut self,
        network: &mut W,
        number: u64,
        client: S,
        next: &mut u64,
    ) -> Admitted
        requires { number < 2 ^ 64 - 1 }
        ensures opens { IfHere result (λ k. W.is_telling → S.tells client new_wire → TableAnnounces S.tells k self.old.table self.new.table) }
        ensures kept { IfNotHere result (Stays (TableTells S.tells self.old.table) (TableTells S.tells self.new.table)) }
        ensures number { IfHere result (λ k. k ≡ number) }
        ensures not_handed { result ≢ Admitted.Handed }
        ensures connecting { self.new.connecting ≡ self.old.connecting }
        ensures winds { Winds S.tells self.old.table.sessions self.new.table.sessions }
        ensures turns { IfNotHere result (SameTurns self.old.table self.new.table) }
        ensures raised { IfHere result (λ k. next.new ≡ k + 1) }
        ensures waits { IfNotHere result (next.new ≡ next.old) }
        ensures below { next.old ≤ number → AreBelow next.old self.old.table.sessions → AreBelow next.new self.new.table.sessions }
        ensures stepped { AreStepped self.old.table.sessions → AreStepped self.new.table.sessions }
        ensures same { fixed_of self.new ≡ fixed_of self.old }
    {
        if self.admit(network, number, client) {
            *next = number + 1;
            return Admitted::Here(number);
        }
        network.free_place();
        Admitted::Nothing
    }

    // Makes a session of a connection, and says whether it could.
    fn admit<W: Network<Stream = S>>(&mut self, network: &mut W, number: u64, client: S) -> bool
        ensures opens { result ≡ true → W.is_telling → S.tells client new_wire → TableAnnounces S.tells number self.old.table self.new.table }
        ensures kept { result ≡ false → Stays (TableTells S.tells self.old.table) (TableTells S.tells self.new.table) }
        ensures connecting { self.new.connecting ≡ self.old.connecting }
        ensures winds { Winds S.tells self.old.table.sessions self.new.table.sessions }
        ensures turns { result ≡ false → SameTurns self.old.table self.new.table }
        ensures below { ComesBelow number self.old.table.sessions self.new.table.sessions }
        ensures refused { result ≡ false → StayBelow self.old.table.sessions self.new.table.sessions }
        ensures stepped { AreStepped self.old.table.sessions → AreStepped self.new.table.sessions }
        ensures same { fixed_of self.new ≡ fixed_of self.old }
    {
        let Some(place) = self.table.begin(number) else {
            return false;
        };
        if !self.link(network, place, client) {
            self.table.release(place);
            return false;
        }
        if self.table.announce(number, place) {
            return true;
        }
        self.table.release(place);
        false
    }

    // Gives the ports of the session at a place their connections, those to the targets now or at the
    // first write to each. It says whether the client has one.
    fn link<W: Network<Stream = S>>(&mut self, network: &mut W, place: usize, client: S) -> bool
        ensures prepared { (k : ℕ) → W.is_telling → S.tells client new_wire → IsPrepared S.tells self.old.table place k → IsPrepared S.tells self.new.table place k }
        ensures keeps { KeepsIdle S.tells place self.old.table self.new.table }
        ensures connecting { self.new.connecting ≡ self.old.connecting }
        ensures others { OthersStay place self.old.table.sessions self.new.table.sessions }
        ensures turns { SameTurns self.old.table self.new.table }
        ensures below { StayBelow self.old.table.sessions self.new.table.sessions }
        ensures same { fixed_of self.new ≡ fixed_of self.old }
    {
        if self.connecting == Connecting::OnDemand {
            self.table.defer(place);
            return self.attach(network, place, 0, client, Sending::Ready);
        }
        if !self.attach(network, place, 0, client, Sending::Ready) {
            return false;
        }
        self.connect_all(network, place);
        true
    }

    // Gives a port of the session at a place its connection, and has it reported.
    fn attach<W: Network<Stream = S>>(
        &mut self,
        network: &mut W,
        place: usize,
        port: usize,
        mut stream: S,
        sending: Sending,
    ) -> bool
        requires { IsBegun sending }
        ensures prepared { (k : ℕ) → S.tells stream new_wire → IsPrepared S.tells self.old.table place k → IsPrepared S.tells self.new.table place k }
        ensures keeps { KeepsIdle S.tells place self.old.table self.new.table }
        ensures connecting { self.new.connecting ≡ self.old.connecting }
        ensures others { OthersStay place self.old.table.sessions self.new.table.sessions }
        ensures turns { SameTurns self.old.table self.new.table }
        ensures below { StayBelow self.old.table.sessions self.new.table.sessions }
        ensures same { fixed_of self.new ≡ fixed_of self.old }
    {
        let token = self.table.token(place, port);
        network.watch(&mut stream, token) && self.table.attach(place, port, stream, sending)
    }

    // Begins a connection to each target. A port whose connection can't be begun stays without one.
    fn connect_all<W: Network<Stream = S>>(&mut self, network: &mut W, place: usize)
        ensures prepared { (k : ℕ) → W.is_telling → IsPrepared S.tells self.old.table place k → IsPrepared S.tells self.new.table place k }
        ensures keeps { KeepsIdle S.tells place self.old.table self.new.table }
        ensures connecting { self.new.connecting ≡ self.old.connecting }
        ensures others { OthersStay place self.old.table.sessions self.new.table.sessions }
        ensures turns { SameTurns self.old.table self.new.table }
        ensures below { StayBelow self.old.table.sessions self.new.table.sessions }
        ensures same { fixed_of self.new ≡ fixed_of self.old }
    {
        for at in 0..self.targets.len() {
            self.connect(network, place, at.saturating_add(1));
        }
    }

    // Begins the connection of a port to its target, and says whether there is one.
    #[inline(never)]
    fn connect<W: Network<Stream = S>>(
        &mut self,
        network: &mut W,
        place: usize,
        port: usize,
    ) -> bool
        ensures prepared { (k : ℕ) → W.is_telling → IsPrepared S.tells self.old.table place k → IsPrepared S.tells self.new.table place k }
        ensures keeps { KeepsIdle S.tells place self.old.table self.new.table }
        ensures connecting { self.new.connecting ≡ self.old.connecting }
        ensures others { OthersStay place self.old.table.sessions self.new.table.sessions }
        ensures turns { SameTurns self.old.table self.new.table }
        ensures below { StayBelow self.old.table.sessions self.new.table.sessions }
        ensures same { fixed_of self.new ≡ fixed_of self.old }
    {
        let Some(target) = self.targets.get(port.wrapping_sub(1)) else {
            return false;
        };
        let Some(stream) = network.connect(*target) else {
            return false;
        };
        self.attach(network, place, port, stream, Sending::Blocked)
    }

    /// Begins the connection of a port of session `number` where that was left to the first write.
    /// Where it can't be begun the port stays without one.
    #[inline(always)]
    pub(crate) fn connect_for_write<W: Network<Stream = S>>(
        &mut self,
        network: &mut W,
        number: u64,
        port: usize,
    )
        ensures at_once { self.old.connecting ≡ Connecting.AtOnce → self.new ≡ self.old }
        ensures turns { SameTurns self.old.table self.new.table }
        ensures below { StayBelow self.old.table.sessions self.new.table.sessions }
        ensures same { fixed_of self.new ≡ fixed_of self.old }
    {
        if self.connecting == Connecting::AtOnce {
            return;
        }
        self.connect_deferred(network, number, port);
    }

    // Begins that connection, if it is to be begun still.
    #[inline(never)]
    fn connect_deferred<W: Network<Stream = S>>(
        &mut self,
        network: &mut W,
        number: u64,
        port: usize,
    )
        ensures turns { SameTurns self.old.table self.new.table }
        ensures below { StayBelow self.old.table.sessions self.new.table.sessions }
        ensures same { fixed_of self.new ≡ fixed_of self.old }
    {
        let Some(place) = self.table.find_deferred(number, port) else {
            return;
        };
        if !self.connect(network, place, port) {
            self.table.give_up(place, port);
        }
    }

    /// Sends what was written, and waits until something is reported where no session is to have a
    /// turn for that. It says whether the wait failed.
    pub(crate) fn rest<W: Network<Stream = S>>(&mut self, network: &mut W) -> bool
        ensures keeps { Stays (TableTells S.tells self.old.table) (TableTells S.tells self.new.table) }
        ensures connecting { self.new.connecting ≡ self.old.connecting }
        ensures winds { Winds S.tells self.old.table.sessions self.new.table.sessions }
        ensures turn { TurnsIfTold S.tells None self.old.table self.new.table }
        ensures below { StayBelow self.old.table.sessions self.new.table.sessions }
        ensures stepped { StayStepped S.tells self.old.table self.new.table }
        ensures same { fixed_of self.new ≡ fixed_of self.old }
    {
        self.table.send();
        if self.table.has_ready() {
            return false;
        }
        self.wait(network)
    }

    // Waits until something is reported, and says whether that failed. It doesn't wait where a session
    // is to have a turn behind the others, or a connection may be accepted.
    fn wait<W: Network<Stream = S>>(&mut self, network: &mut W) -> bool
        requires sent { self.old.table.written.places.items ≡ [] }
        requires turned { self.old.table.ready.places.items ≡ [] }
        ensures keeps { Stays (TableTells S.tells self.old.table) (TableTells S.tells self.new.table) }
        ensures connecting { self.new.connecting ≡ self.old.connecting }
        ensures winds { Winds S.tells self.old.table.sessions self.new.table.sessions }
        ensures turn { TurnsIfTold S.tells None self.old.table self.new.table }
        ensures below { StayBelow self.old.table.sessions self.new.table.sessions }
        ensures stepped { StayStepped S.tells self.old.table self.new.table }
        ensures same { fixed_of self.new ≡ fixed_of self.old }
    {
        let timeout = self.timeout(network.handing());
        let waited = network.wait(timeout, &mut self.table);
        self.wake(waited);
        self.table.recall();
        waited == Waited::Failed
    }

    // Takes note of what a wait answered.
    fn wake(&mut self, waited: Waited)
        ensures table { self.new.table ≡ self.old.table }
        ensures connecting { self.new.connecting ≡ self.old.connecting }
        ensures same { fixed_of self.new ≡ fixed_of self.old }
    {
        if self.accepting == Accepting::Short || waited == Waited::Connection {
            self.accepting = Accepting::Ready;
        }
        self.accepts_left = MOST_ACCEPTS;
        self.spend_patience(waited);
    }

    // Counts a wait, where only peers' ends are waited for.
    fn spend_patience(&mut self, waited: Waited)
        ensures table { self.new.table ≡ self.old.table }
        ensures connecting { self.new.connecting ≡ self.old.connecting }
        ensures same { fixed_of self.new ≡ fixed_of self.old }
    {
        if self.is_accepting || !self.table.is_done() {
            return;
        }
        let cost = if waited == Waited::Nothing {
            IDLE_COST
        } else {
            1
        };
        self.patience = self.patience.saturating_sub(cost);
    }

    // The longest time to wait: none for as long as it takes.
    fn timeout(&self, handing: Handing) -> Option<Duration>
        ensures { result ≡ None → self.now.table.behind.places.items ≡ [] }
    {
        if self.table.has_behind() {
            return Some(Duration::ZERO);
        }
        if !self.is_accepting && self.table.is_done() {
            return Some(Duration::from_millis(RETRY_MILLIS));
        }
        if !self.is_accepting {
            return None;
        }
        if self.table.has_place() {
            return self.accepting.timeout();
        }
        match handing {
            Handing::Never => None,
            Handing::Later => self.accepting.later().timeout(),
            Handing::Now => self.accepting.timeout(),
        }
    }
}

impl Accepting {
    // The longest time to wait where a connection that comes finds a place.
    fn timeout(self) -> Option<Duration> {
        match self {
            Accepting::Idle => None,
            Accepting::Ready => Some(Duration::ZERO),
            Accepting::Short => Some(Duration::from_millis(RETRY_MILLIS)),
        }
    }

    // The same where the connection that may wait finds no place now.
    fn later(self) -> Accepting {
        match self {
            Accepting::Idle => Accepting::Idle,
            Accepting::Ready | Accepting::Short => Accepting::Short,
        }
    }
}
