//! Sessions of several ports: events, reads and writes of each port, and the counts of what went wrong.
ghost use Rattle.std.specs.Prelude.{◌≡◌, ◌<◌, ℕ, length, IfSome};
ghost use Rattle.gate_base.specs.Bytes.{AreBytes};
ghost use Rattle.gate_base.specs.Causes.{Rose};
ghost use Rattle.gate_hub.specs.Hubs.{GotWithin, TookWithin};
ghost use Rattle.gate_fan.specs.Meaning.{Meaning, Started, IsOpen};
ghost use Rattle.gate_fan.specs.Fans.{Counts, Leads, Later, HasPort, NotStarted, HasStarted, StartLeads, NextLeads, ReadLeads, WriteLeads, CloseLeads, started_with};

use gate_base::Text;
use gate_hub::{Began, HubNext, LinkGot, LinkPut};
use std::alloc::Global;

/// Whom the calls of a service are led to: the service's name, and the address at which it is reached.
#[derive(Drop)]
pub struct Target {
    pub service: Text,
    pub address: Text,
}

/// The sessions of a server that leads each client to several targets.
///
/// `start` is called once, before `next`. `read`, `write` and `close` name a session that `next` has
/// opened and that isn't closed; a port is 0, the client's, or u, that of the u-th target that `start`
/// was given.
pub trait Fan {
    /// The meanings that it tells: one, or none where it knows nothing of its sessions' bytes.
    ///
    /// Where a call may be made, each meaning that was told before it goes over into one that is told
    /// after it, and the clause `leads` says how the two differ. Where it may not be made it is
    /// answered all the same, and nothing is said of what is told.
    ghost tells: { Self → Meaning → Type 0 };

    /// Its counts, which never fall. Each stands still at 2^64 - 1.
    ghost counts: { Self → Counts };

    /// How many targets it was started with; 0 before.
    ghost target_count: { Self → ℕ };

    /// Begins to listen at an address, for at most `sessions` sessions at a time and `accept`
    /// connections in all (0: as many as come), each of which is led to all targets.
    ///
    /// `Failed` and `NotFound`: the count of `start` and `next` rose.
    fn start(
        &mut self,
        alloc: Global,
        listen: &[u8],
        targets: &[Target],
        accept: u64,
        sessions: usize,
    ) -> Began
        ensures leads { Leads (tells self.old) (tells self.new) NotStarted (StartLeads (started_with listen.now targets.now accept sessions) result) }
        ensures targets { result ≡ Began.Done → target_count self.new ≡ length targets.now }
        ensures later { Later (counts self.old) (counts self.new) }
        ensures cause { result ≡ Began.Failed → Rose (counts self.old).faults (counts self.new).faults }
        ensures unfound { (at : ℕ) → result ≡ Began.NotFound at → Rose (counts self.old).faults (counts self.new).faults }
        ensures place { (at : ℕ) → result ≡ Began.NotFound at → at < length targets.now };

    /// The next event.
    ///
    /// `Failed`: the count of `start` and `next` rose.
    fn next(&mut self) -> HubNext
        ensures leads { Leads (tells self.old) (tells self.new) HasStarted (NextLeads result) }
        ensures targets { target_count self.new ≡ target_count self.old }
        ensures later { Later (counts self.old) (counts self.new) }
        ensures cause { result ≡ HubNext.Failed → Rose (counts self.old).faults (counts self.new).faults };

    /// Reads from a port of session k into a slice that isn't empty.
    ///
    /// `Failed` and `NotReady`: that port's count of faults, or of such answers, rose.
    fn read(&mut self, k: u64, port: usize, into: &mut [u8]) -> LinkGot
        requires { 0 < length into.old }
        ensures within { GotWithin into.new result }
        ensures leads { Leads (tells self.old) (tells self.new) (HasPort k port (target_count self.old)) (ReadLeads k port (length into.old) into.new result) }
        ensures targets { target_count self.new ≡ target_count self.old }
        ensures later { Later (counts self.old) (counts self.new) }
        ensures cause { result ≡ LinkGot.Failed → Rose ((counts self.old).link_faults k port) ((counts self.new).link_faults k port) }
        ensures wait { result ≡ LinkGot.NotReady → Rose ((counts self.old).waits k port) ((counts self.new).waits k port) };

    /// Writes the front of a slice that isn't empty to a port of session k.
    ///
    /// `Failed` and `NotReady`: that port's count of faults, or of such answers, rose.
    fn write(&mut self, k: u64, port: usize, from: &[u8]) -> LinkPut
        requires { 0 < length from.now }
        ensures within { TookWithin from.now result }
        ensures leads { Leads (tells self.old) (tells self.new) (HasPort k port (target_count self.old)) (WriteLeads k port from.now result) }
        ensures targets { target_count self.new ≡ target_count self.old }
        ensures later { Later (counts self.old) (counts self.new) }
        ensures cause { result ≡ LinkPut.Failed → Rose ((counts self.old).link_faults k port) ((counts self.new).link_faults k port) }
        ensures wait { result ≡ LinkPut.NotReady → Rose ((counts self.old).waits k port) ((counts self.new).waits k port) };

    /// Marks session k as closed.
    fn close(&mut self, k: u64)
        ensures leads { Leads (tells self.old) (tells self.new) (IsOpen k) (CloseLeads k) }
        ensures targets { target_count self.new ≡ target_count self.old }
        ensures later { Later (counts self.old) (counts self.new) };

    /// What it tells that was received consists of bytes.
    ghost bytes: { (fan : Self) (m : Meaning) → tells fan m → (k port : ℕ) → AreBytes ((m.session k).link port).received };

    /// What it tells of its start is of that many targets.
    ghost told_targets: { (fan : Self) (m : Meaning) → tells fan m → IfSome m.started (λ s. length s.targets ≡ target_count fan) };
}
