//! The sessions of a server: events, reads and writes of their two sides, and the counts of what went wrong.
ghost use Rattle.std.specs.Prelude.{◌≡◌, ◌<◌, ◌≤◌, ℕ, length};
ghost use Rattle.gate_base.specs.Bytes.{AreBytes};
ghost use Rattle.gate_base.specs.Causes.{Rose};
ghost use Rattle.gate_hub.specs.Meaning.{Meaning, IsOpen, link_of};
ghost use Rattle.gate_hub.specs.declared.hub.Side.{Side};
ghost use Rattle.gate_hub.specs.Hubs.{Counts, Leads, Later, NotStarted, HasStarted, StartLeads, NextLeads, ReadLeads, WriteLeads, CloseLeads, GotWithin, TookWithin, started_with};

use std::alloc::Global;

/// The two sides of a session: who connected to the server, and whom the server connected to.
#[derive(Clone, Copy, Debug, PartialEq, Eq)]
pub enum Side {
    Client,
    Upstream,
}

/// What `start` answers: that it listens, that it failed, that for the name of the target at this place, counted from 0, no
/// address is known, or that there was no memory.
#[derive(Clone, Copy, PartialEq, Eq)]
pub enum Began {
    Done,
    Failed,
    NotFound(usize),
    OutOfMemory,
}

/// What `next` answers: a session was opened, a session may be read or written again, no event
/// will follow, or it failed.
#[derive(Clone, Copy, PartialEq, Eq)]
pub enum HubNext {
    Opened(u64),
    Ready(u64),
    Stopped,
    Failed,
}

/// What a read of a side answers: so many bytes, that none came so far, that none will come, or
/// that it failed.
#[derive(Clone, Copy, PartialEq, Eq)]
pub enum LinkGot {
    Bytes(usize),
    NotReady,
    End,
    Failed,
}

/// What a write to a side answers: so many bytes were taken, that none can be taken so far, or that
/// it failed.
#[derive(Clone, Copy, PartialEq, Eq)]
pub enum LinkPut {
    Took(usize),
    NotReady,
    Failed,
}

/// How a server ended: no event followed, the hub failed, the output failed, the events that it was
/// given were spent, or its memory was not found at the start.
#[derive(Clone, Copy)]
pub enum Served {
    Stopped,
    HubFault,
    WriteFault,
    Budget,
    OutOfMemory,
}

/// The sessions of a server.
///
/// `start` is called once, before `next`. `read`, `write` and `close` name a session that `next`
/// has opened and that isn't closed.
pub trait Hub {
    /// The meanings that it tells: one, or none where it knows nothing of its sessions' bytes.
    ///
    /// Where a call may be made, each meaning that was told before it goes over into one that is told
    /// after it, and the clause `leads` says how the two differ. Where it may not be made it is
    /// answered all the same, and nothing is said of what is told.
    ghost tells: { Self → Meaning → Type 0 };

    /// Its counts, which never fall. Each stands still at 2^64 - 1.
    ghost counts: { Self → Counts };

    /// What no call changes of it: of a hub over another one, which one that is and how it is wrapped.
    ghost Kept: { Type 0 } = { Unit {0} };

    ghost kept: { Self → Self.Kept };

    /// Begins to listen at an address, for at most `sessions` sessions at a time and `accept`
    /// connections in all (0: as many as come), each of which is led to `upstream`.
    ///
    /// `Failed` and `NotFound`: the count of `start` and `next` rose.
    fn start(
        &mut self,
        alloc: Global,
        listen: &[u8],
        upstream: &[u8],
        accept: u64,
        sessions: usize,
    ) -> Began
        ensures leads { Leads (tells self.old) (tells self.new) NotStarted (StartLeads (started_with listen.now upstream.now accept sessions) result) }
        ensures later { Later (counts self.old) (counts self.new) }
        ensures kept { Self.kept self.new ≡ Self.kept self.old }
        ensures cause { result ≡ Began.Failed → Rose (counts self.old).faults (counts self.new).faults }
        ensures unfound { (at : ℕ) → result ≡ Began.NotFound at → Rose (counts self.old).faults (counts self.new).faults };

    /// The next event.
    ///
    /// `Failed`: the count of `start` and `next` rose.
    fn next(&mut self) -> HubNext
        ensures leads { Leads (tells self.old) (tells self.new) HasStarted (NextLeads result) }
        ensures later { Later (counts self.old) (counts self.new) }
        ensures kept { Self.kept self.new ≡ Self.kept self.old }
        ensures cause { result ≡ HubNext.Failed → Rose (counts self.old).faults (counts self.new).faults };

    /// Reads from a side of session k into a slice that isn't empty.
    ///
    /// `Failed` and `NotReady`: that side's count of faults, or of such answers, rose.
    fn read(&mut self, k: u64, side: Side, into: &mut [u8]) -> LinkGot
        requires { 0 < length into.old }
        ensures within { GotWithin into.new result }
        ensures leads { Leads (tells self.old) (tells self.new) (IsOpen k) (ReadLeads k side (length into.old) into.new result) }
        ensures later { Later (counts self.old) (counts self.new) }
        ensures kept { Self.kept self.new ≡ Self.kept self.old }
        ensures cause { result ≡ LinkGot.Failed → Rose ((counts self.old).link_faults k side) ((counts self.new).link_faults k side) }
        ensures wait { result ≡ LinkGot.NotReady → Rose ((counts self.old).waits k side) ((counts self.new).waits k side) };

    /// Writes the front of a slice that isn't empty to a side of session k.
    ///
    /// `Failed` and `NotReady`: that side's count of faults, or of such answers, rose.
    fn write(&mut self, k: u64, side: Side, from: &[u8]) -> LinkPut
        requires { 0 < length from.now }
        ensures within { TookWithin from.now result }
        ensures leads { Leads (tells self.old) (tells self.new) (IsOpen k) (WriteLeads k side from.now result) }
        ensures later { Later (counts self.old) (counts self.new) }
        ensures kept { Self.kept self.new ≡ Self.kept self.old }
        ensures cause { result ≡ LinkPut.Failed → Rose ((counts self.old).link_faults k side) ((counts self.new).link_faults k side) }
        ensures wait { result ≡ LinkPut.NotReady → Rose ((counts self.old).waits k side) ((counts self.new).waits k side) };

    /// Marks session k as closed.
    fn close(&mut self, k: u64)
        ensures leads { Leads (tells self.old) (tells self.new) (IsOpen k) (CloseLeads k) }
        ensures later { Later (counts self.old) (counts self.new) }
        ensures kept { Self.kept self.new ≡ Self.kept self.old };

    /// What it tells that was received consists of bytes.
    ghost bytes: { (hub : Self) (m : Meaning) → tells hub m → (k : ℕ) (side : Side) → AreBytes (link_of (m.session k) side).received };
}
