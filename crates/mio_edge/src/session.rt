//! A session: its ports, and how much it may still move before the others have their turn.
ghost use Rattle.std.specs.Prelude.{◌≡◌, ◌⊎◌, ◌<◌, ◌-◌, ◌==◌, ℕ, length, true, false, Some};
ghost use Rattle.std.specs.List.{slice_get};
ghost use Rattle.gate_hub.specs.Hubs.{GotWithin, TookWithin, LinkReads, LinkWrites};
ghost use Rattle.mio_edge.specs.Closing.{AreFlushed, AreSettled, KeepAllSent, TellsItsEnd, WindsUp};
ghost use Rattle.mio_edge.specs.Connecting.{ConnectsPort, IsDeferredAt, WaitsForWrite};
ghost use Rattle.mio_edge.specs.Wire.{Moves, Stays, new_wire};
ghost use Rattle.mio_edge.specs.Moving.{IsBegun, is_news, noted};
ghost use Rattle.mio_edge.specs.Sessions.{SessionTells, EachPort, PortsTell, AtPort, IsStill, IsUnsentAt, new_links};
ghost use Rattle.mio_edge.specs.Sessions.{PortsAre, Calms, Flushes, TellsUnsent, MayWait, MayWrite, WaitsToRead, WaitsToWrite, count_read, count_written};
ghost use Rattle.mio_edge.specs.Order.{Grows};
ghost use Rattle.mio_edge.specs.Places.{HasUnsent};
ghost use Rattle.mio_edge.specs.Stepping.{HasStepped};
ghost use Rattle.mio_edge.specs.Turns.{HasRoom, Pushes};
ghost use Rattle.mio_edge.specs.declared.port.Port.{Port};

use crate::Stream;
use crate::network::Readiness;
use crate::port::{Port, Rest, Sending};
use crate::queue::Queue;
use gate_hub::{LinkGot, LinkPut};

/// The ports of one accepted connection.
#[derive(Drop)]
pub(crate) struct Session<S> {
    pub(crate) number: u64,
    pub(crate) ports: Vec<Port<S>>,
    allowance: usize,
    /// It was announced and isn't closed.
    pub(crate) is_open: bool,
    /// It stands in one of the queues of those that are to have a turn.
    pub(crate) is_queued: bool,
    /// It stands in the queue of those whose writes are to be sent.
    pub(crate) is_written: bool,
}

impl<S: Stream> Session<S> {
    /// A session over these ports, which have no connections yet. It may move so many bytes in
    /// its first turn.
    pub(crate) fn over(number: u64, ports: Vec<Port<S>>, allowance: usize) -> Session<S>
        ensures number { result.number ≡ number }
        ensures closed { result.is_open ≡ false }
        ensures ports { result.ports ≡ ports }
        ensures allowance { result.allowance ≡ allowance }
        ensures idle { (result.is_queued ≡ false) × (result.is_written ≡ false) }
    {
        Session {
            number,
            ports,
            allowance,
            is_open: false,
            is_queued: false,
            is_written: false,
        }
    }

    /// Gives a port a connection. It says whether there is such a port.
    pub(crate) fn attach(&mut self, port: usize, stream: S, sending: Sending) -> bool
        requires { IsBegun sending }
        ensures begins { SessionTells S.tells self.old new_links → S.tells stream new_wire → SessionTells S.tells self.new new_links }
        ensures still { IsStill self.old self.new }
        ensures same { self.new.allowance ≡ self.old.allowance }
        ensures there { result ≡ true → port < length self.old.ports.items }
        ensures all { port < length self.old.ports.items → result ≡ true }
        ensures connects { ConnectsPort stream sending port self.old.ports.items self.new.ports.items }
    {
        match self.ports.get_mut(port) {
            Some(port) => {
                port.attach(stream, sending);
                true
            }
            None => false,
        }
    }

    /// Has all connections begun at the first write to each.
    pub(crate) fn defer(&mut self)
        ensures keeps { Stays (SessionTells S.tells self.old) (SessionTells S.tells self.new) }
        ensures still { IsStill self.old self.new }
        ensures same { self.new.allowance ≡ self.old.allowance }
        ensures deferred { EachPort WaitsForWrite self.new.ports.items }
    {
        defer_all(&mut self.ports);
    }

    /// Whether the connection of a port is to be begun at the first write.
    pub(crate) fn is_deferred(&self, port: usize) -> bool
        ensures deferred { result ≡ true → IsDeferredAt (slice_get self.now.ports.items port) }
        ensures begun { result ≡ false → IsDeferredAt (slice_get self.now.ports.items port) → ⊥ }
    {
        match self.ports.get(port) {
            Some(port) => port.is_deferred(),
            None => false,
        }
    }

    /// Lets a port have no connection: what is written to it fails.
    pub(crate) fn give_up(&mut self, port: usize)
        ensures keeps { Stays (SessionTells S.tells self.old) (SessionTells S.tells self.new) }
        ensures still { IsStill self.old self.new }
        ensures same { self.new.allowance ≡ self.old.allowance }
        ensures given_up { IsDeferredAt (slice_get self.new.ports.items port) → ⊥ }
    {
        if let Some(port) = self.ports.get_mut(port) {
            port.give_up();
        }
    }

    /// Takes note of what was reported of a port, and says whether it is news.
    pub(crate) fn report(&mut self, port: usize, news: Readiness) -> bool
        ensures notes { (x : Port S) → slice_get self.old.ports.items port ≡ Some x → slice_get self.new.ports.items port ≡ Some (noted news x) }
        ensures news { (x : Port S) → slice_get self.old.ports.items port ≡ Some x → result ≡ is_news news x }
        ensures keeps { Stays (PortsTell S.tells self.old.ports.items) (PortsTell S.tells self.new.ports.items) }
        ensures calm { result ≡ false → Stays (SessionTells S.tells self.old) (SessionTells S.tells self.new) }
        ensures stepped { result ≡ false → EachPort HasStepped self.old.ports.items → EachPort HasStepped self.new.ports.items }
        ensures still { IsStill self.old self.new }
        ensures same { self.new.allowance ≡ self.old.allowance }
    {
        match self.ports.get_mut(port) {
            Some(port) => port.report(news),
            None => false,
        }
    }

    /// Puts the session, which stands at this place, into a queue of those that are to have a turn, if it
    /// stands in none.
    #[tactic(auto, using(crate::specs::Lines::grows_same, crate::specs::Lines::grows_by))]
    pub(crate) fn stand_in(&mut self, queue: &mut Queue, place: usize)
        ensures was { self.old.is_queued ≡ true → (self.new ≡ self.old) × (queue.new ≡ queue.old) }
        ensures stands { self.old.is_queued ≡ false → HasRoom queue.old → (self.new.is_queued ≡ true) × Pushes place queue.old queue.new }
        ensures rest { self.new ≡ record self.old { is_queued = self.new.is_queued } }
        ensures grows { Grows queue.old queue.new }
    {
        if !self.is_queued {
            self.is_queued = queue.push(place);
        }
    }

    /// Puts the session, which stands at this place, into the queue of those whose writes are to be sent,
    /// if it doesn't stand there. It says whether it does then.
    pub(crate) fn write_down(&mut self, queue: &mut Queue, place: usize) -> bool
        ensures written { result ≡ self.new.is_written }
        ensures was { self.old.is_written ≡ true → (self.new ≡ self.old) × (queue.new ≡ queue.old) }
        ensures stands { self.old.is_written ≡ false → result ≡ true → Pushes place queue.old queue.new }
        ensures kept { result ≡ false → queue.new ≡ queue.old }
        ensures room { HasRoom queue.old → result ≡ true }
        ensures rest { self.new ≡ record self.old { is_written = self.new.is_written } }
    {
        if !self.is_written {
            self.is_written = queue.push(place);
        }
        self.is_written
    }

    /// Begins a turn of the session, in which it may read and write so many bytes.
    pub(crate) fn begin_turn(&mut self, allowance: usize)
        ensures ports { self.new.ports ≡ self.old.ports }
        ensures allowance { self.new.allowance ≡ allowance }
        ensures still { IsStill self.old self.new }
    {
        self.allowance = allowance;
    }

    /// Whether it moved all that it may in this turn.
    pub(crate) fn is_spent(&self) -> bool
        ensures { result ≡ (self.now.allowance == 0) }
    {
        self.allowance == 0
    }

    /// Reads from a port, or answers that it isn't ready where the session moved all that it may.
    #[inline(always)]
    pub(crate) fn read(&mut self, port: usize, into: &mut [u8]) -> LinkGot
        requires { 0 < length into.old }
        ensures within { GotWithin into.new result }
        ensures leads { MayWait self.old → Moves (SessionTells S.tells self.old) (SessionTells S.tells self.new) (AtPort port (LinkReads into.new result)) }
        ensures still { IsStill self.old self.new }
        ensures waits { WaitsToRead self.old port result }
        ensures spends { self.new.allowance ≡ self.old.allowance - count_read result }
    {
        let Some(port) = self.ports.get_mut(port) else {
            return LinkGot::Failed;
        };
        if port.waits_for_turn(self.allowance) {
            return LinkGot::NotReady;
        }
        let got = port.read(into);
        if let LinkGot::Bytes(count) = got {
            self.allowance = self.allowance.saturating_sub(count);
        }
        got
    }

    /// Writes to a port, or answers that it isn't ready where the session moved all that it may.
    #[inline(always)]
    pub(crate) fn write(&mut self, port: usize, from: &[u8]) -> LinkPut
        requires { 0 < length from.now }
        ensures within { TookWithin from.now result }
        ensures leads { MayWrite self.old → Moves (SessionTells S.tells self.old) (SessionTells S.tells self.new) (AtPort port (LinkWrites from.now result)) }
        ensures still { IsStill self.old self.new }
        ensures waits { WaitsToWrite self.old port result }
        ensures spends { self.new.allowance ≡ self.old.allowance - count_written result }
    {
        let Some(port) = self.ports.get_mut(port) else {
            return LinkPut::Failed;
        };
        if self.allowance == 0 {
            return LinkPut::NotReady;
        }
        let put = port.write(from);
        if let LinkPut::Took(count) = put {
            self.allowance = self.allowance.saturating_sub(count);
        }
        put
    }

    /// Whether bytes that were written are to be sent still.
    pub(crate) fn has_unsent(&self) -> bool
        ensures waits { result ≡ false → (p : ℕ) → IsUnsentAt (slice_get self.now.ports.items p) → ⊥ }
        ensures settled { result ≡ false → AreSettled self.now.ports.items }
        ensures unsent { result ≡ true → HasUnsent self.now }
        ensures nothing { result ≡ false → HasUnsent self.now → ⊥ }
    {
        for port in &self.ports {
            if port.has_unsent() {
                return true;
            }
        }
        false
    }

    /// Sends what was written, and says whether a connection failed in that.
    pub(crate) fn send(&mut self) -> bool
        ensures keeps { Stays (TellsUnsent S.tells self.old) (SessionTells S.tells self.new) }
        ensures ports { Stays (PortsTell S.tells self.old.ports.items) (PortsTell S.tells self.new.ports.items) }
        ensures stepped { EachPort HasStepped self.old.ports.items → EachPort HasStepped self.new.ports.items }
        ensures still { IsStill self.old self.new }
        ensures same { self.new.allowance ≡ self.old.allowance }
    {
        send_all(&mut self.ports)
    }

    /// Goes on with the end of the session once it is closed, and says how far the port that is the
    /// furthest back has come.
    pub(crate) fn wind_up(&mut self) -> Rest
        ensures sends { Moves (PortsTell S.tells self.old.ports.items) (PortsTell S.tells self.new.ports.items) KeepAllSent }
        ensures gone { result ≡ Rest.Gone → AreSettled self.new.ports.items }
        ensures sent { AreFlushed self.new.ports.items }
        ensures told { EachPort TellsItsEnd self.new.ports.items }
        ensures still { IsStill self.old self.new }
        ensures same { self.new.allowance ≡ self.old.allowance }
    {
        wind_up_all(&mut self.ports)
    }

    /// Lets all connections go, and gives back the ports.
    pub(crate) fn into_ports(mut self) -> Vec<Port<S>>
        ensures new { PortsTell S.tells result.items new_links }
        ensures count { length result.items ≡ length self.ports.items }
    {
        detach_all(&mut self.ports);
        self.ports
    }
}

fn defer_all<S: Stream>(ports: &mut [Port<S>])
    ensures calm { PortsAre (Calms S.tells) ports.old ports.new }
    ensures deferred { EachPort WaitsForWrite ports.new }
{
    for port in ports.iter_mut() {
        port.defer();
    }
}

// Sends what was written to each of the ports, and says whether a connection failed in that.
fn send_all<S: Stream>(ports: &mut [Port<S>]) -> bool
    ensures { PortsAre (Flushes S.tells) ports.old ports.new }
{
    let mut has_failed = false;
    for port in ports.iter_mut() {
        has_failed = port.send_unsent() || has_failed;
    }
    has_failed
}

fn detach_all<S: Stream>(ports: &mut [Port<S>])
    ensures { PortsTell S.tells ports.new new_links }
{
    for port in ports.iter_mut() {
        port.detach();
    }
}

// Goes on with the end of each of the ports, and says how far the one that is the furthest back has come.
fn wind_up_all<S: Stream>(ports: &mut [Port<S>]) -> Rest
    ensures sends { PortsAre (WindsUp S.tells) ports.old ports.new }
    ensures gone { result ≡ Rest.Gone → AreSettled ports.new }
    ensures sent { AreFlushed ports.new }
    ensures told { EachPort TellsItsEnd ports.new }
{
    let mut rest = Rest::Gone;
    for port in ports.iter_mut() {
        rest = further_back(rest, port.wind_up());
    }
    rest
}

// The one that has more left to do. One with bytes to pass over calls for a turn of its own.
fn further_back(a: Rest, b: Rest) -> Rest
    ensures gone { result ≡ Rest.Gone → (a ≡ Rest.Gone) × (b ≡ Rest.Gone) }
    ensures all { a ≡ Rest.Gone → b ≡ Rest.Gone → result ≡ Rest.Gone }
{
    match (a, b) {
        (Rest::Unread, _) | (_, Rest::Unread) => Rest::Unread,
        (Rest::Unsent, _) | (_, Rest::Unsent) => Rest::Unsent,
        (Rest::Awaited, _) | (_, Rest::Awaited) => Rest::Awaited,
        (Rest::Gone, Rest::Gone) => Rest::Gone,
    }
}
