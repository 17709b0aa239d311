//! The sessions of a server by their places, and the queues of those that are to have a turn.
ghost use Rattle.std.specs.Prelude.{◌≡◌, ◌≢◌, ◌<◌, ◌==◌, ◌≤◌, ◌+◌, ◌*◌, ◌^◌, ◌⊎◌, ◌∷◌, ◌++◌, not, [], ℕ, drop, length, true, false, None, Some, IsSome, IfSome, IfOk};
ghost use Rattle.std.specs.List.{slice_get, filter};
ghost use Rattle.gate_hub.specs.Hubs.{GotWithin, TookWithin, LinkReads, LinkWrites};
ghost use Rattle.std.specs.Vec.{vec_len, vec_capacity};
ghost use Rattle.std.specs.VecDeque.{deque_len};
ghost use Rattle.slab.specs.Slab.{HasRoomFor, get};
ghost use Rattle.mio_edge.specs.Closing.{Winds, WindsBesideIfAny, OthersStay, PutsAt, TableCloses, TellsItsEnd, ClosesEntry, HoldsFlushed, HoldsSettled, winds_nowhere, winds_on};
ghost use Rattle.mio_edge.specs.Connecting.{Connects, EachPortAt, HasPortAt, IsDeferredIn, WaitsForWrite};
ghost use Rattle.mio_edge.specs.Order.{Grows, JoinsBehind, MovesOn, SameTurns, TurnsIfTold};
ghost use Rattle.mio_edge.specs.Fixed.{settings_on, settings_same};
ghost use Rattle.mio_edge.specs.Lines.{moves_still, moves_on_further};
ghost use Rattle.mio_edge.specs.Stepping.{AreStepped, HoldsOpen, OthersStepped, OthersSteppedIfAny, StayStepped};
ghost use Rattle.mio_edge.specs.Steps.{StaysShut, TakesTurns};
ghost use Rattle.mio_edge.specs.Wire.{Moves, Stays, new_wire};
ghost use Rattle.mio_edge.specs.Tables.{World, TableTells, IsNew, IsPrepared, IsClosedAt, AtSession, Shuts, MovesAt, RisesFrom, SpareTells, place_of, empty_world};
ghost use Rattle.mio_edge.specs.Tables.{IfPrepared, TableAnnounces};
ghost use Rattle.mio_edge.specs.Tables.{HasVacancy, IsEntry, NamesIfAny, NotesToken};
ghost use Rattle.mio_edge.specs.Moving.{IsBegun};
ghost use Rattle.mio_edge.specs.Numbered.{AreBelow, IsOneOf, StayBelow, StayBelowBeside};
ghost use Rattle.mio_edge.specs.Places.{AllSent, HasNoPlace, HasNoPlaceWhere, ListsClosed, NoneGives, quantum_for};
ghost use Rattle.mio_edge.specs.Sessions.{PortsTell, new_links};
ghost use Rattle.mio_edge.specs.Turns.{IsIdleAt, IsQueuedAt, TakesFirst, turns_of};
ghost use Rattle.mio_edge.specs.declared.table.TheConstants.{MOST_WRITTEN};

use crate::Stream;
use crate::network::{Readiness, Reports};
use crate::port::{Port, Rest, Sending};
use crate::queue::Queue;
use crate::session::Session;
use gate_base::OutOfMemory;
use gate_hub::{LinkGot, LinkPut};
use slab::Slab;
use std::alloc::Global;

/// The bytes of a session's buffers each way, which its ports share alike. As many may a session move
/// before the others that are ready have their turn.
const BUFFERS: usize = 131_072;

/// The same where there are few places.
const LARGE_BUFFERS: usize = 524_288;

/// Up to so many places, buffers are large.
const FEW_PLACES: usize = 65;

/// The least bytes of a buffer.
const LEAST_BUFFER: usize = 8192;

/// Once so many sessions were written to, all of that is sent.
const MOST_WRITTEN: usize = 16;

// Where an open session stands.
#[derive(Clone, Copy)]
struct Entry {
    number: u64,
    place: usize,
}

// What stays as it was when the table was opened.
#[derive(Clone, Copy)]
struct Settings {
    /// The number of ports of a session.
    width: usize,
    /// The bytes that a session may move in a turn.
    quantum: usize,
}

/// The sessions, open ones and closed ones whose end isn't over.
///
/// All its memory is taken in `open`. A session that was closed keeps its place until what was
/// written to it is sent or can't be. After that it waits for the peers' ends, but gives its place to
/// a new connection.
#[derive(Drop)]
pub(crate) struct Table<S> {
    settings: Settings,
    sessions: Slab<Session<S>>,
    /// The ports, with their buffers, of the places that are free.
    spare: Vec<Vec<Port<S>>>,
    /// The open sessions, by rising numbers.
    entries: Vec<Entry>,
    /// The places of the closed sessions, in the order in which they were closed.
    closed: Vec<usize>,
    /// The sessions that are to have a turn before the next wait.
    ready: Queue,
    /// The sessions that are to have a turn after those that are reported next.
    behind: Queue,
    /// The sessions whose writes are to be sent.
    written: Queue,
    /// The place of the session that was named last.
    turning: usize,
}

impl<S: Stream> Table<S> {
    /// An empty table of so many places, for sessions of so many ports.
    pub(crate) fn open(alloc: Global, places: usize, width: usize) -> Result<Table<S>, OutOfMemory>
        ensures empty { IfOk result (λ table. TableTells S.tells table empty_world) }
        ensures width { IfOk result (λ table. table.settings.width ≡ width) }
        ensures below { IfOk result (λ table. AreBelow 0 table.sessions) }
        ensures quantum { IfOk result (λ table. table.settings.quantum ≡ quantum_for places) }
    {
        let quantum = if places <= FEW_PLACES {
            LARGE_BUFFERS
        } else {
            BUFFERS
        };
        let sessions = Slab::with_capacity(alloc, places)?;
        let room = sessions.capacity();
        let ready = Queue::open(alloc, room)?;
        let behind = Queue::open(alloc, room)?;
        let written = Queue::open(alloc, room)?;
        let entries = Vec::with_capacity(alloc, places)?;
        let closed = Vec::with_capacity(alloc, places)?;
        let spare = open_places(alloc, places, width, quantum)?;
        Ok(Table {
            settings: Settings { width, quantum },
            sessions,
            spare,
            entries,
            closed,
            ready,
            behind,
            written,
            turning: 0,
        })
    }

    /// Whether no session is open, and nothing is to be sent to those that are closed.
    pub(crate) fn is_done(&self) -> bool
        ensures closed { result ≡ true → self.now.entries.items ≡ [] }
        ensures sent { result ≡ true → AllSent self.now }
        ensures all { self.now.entries.items ≡ [] → AllSent self.now → result ≡ true }
    {
        if !self.entries.is_empty() {
            return false;
        }
        for place in &self.closed {
            if let Some(session) = self.sessions.get(*place)
                && session.has_unsent()
            {
                return false;
            }
        }
        true
    }

    /// Whether no session is left, not even a closed one.
    pub(crate) fn is_empty(&self) -> bool
        ensures none { result ≡ true → (self.now.entries.items ≡ []) × (self.now.closed.items ≡ []) }
        ensures all { self.now.entries.items ≡ [] → self.now.closed.items ≡ [] → result ≡ true }
    {
        self.entries.is_empty() && self.closed.is_empty()
    }

    /// Whether a new connection finds a place.
    pub(crate) fn has_place(&self) -> bool
        ensures none { result ≡ false → HasNoPlace self.now }
        ensures some { result ≡ true → HasNoPlace self.now → ⊥ }
    {
        !self.spare.is_empty() || self.find_sent().is_some()
    }

    /// Whether a session waits for a turn behind those that are reported next.
    pub(crate) fn has_behind(&self) -> bool
        ensures none { result ≡ false → self.now.behind.places.items ≡ [] }
        ensures some { result ≡ true → self.now.behind.places.items ≢ [] }
    {
        !self.behind.is_empty()
    }

    /// Prepares a session at a place that is free, or that the closed session which has waited longest
    /// for its peers' ends gives up. Its ports have no connections yet, and it isn't open.
    pub(crate) fn begin(&mut self, number: u64) -> Option<usize>
        ensures keeps { Stays (TableTells S.tells self.old) (TableTells S.tells self.new) }
        ensures prepared { (world : World) → TableTells S.tells self.old world → IfPrepared S.tells number result self.new }
        ensures winds { WindsBesideIfAny S.tells result self.old.sessions self.new.sessions }
        ensures turns { SameTurns self.old self.new }
        ensures none { (world : World) → TableTells S.tells self.old world → result ≡ None → HasNoPlaceWhere self.old }
        ensures below { StayBelowBeside number result self.old.sessions self.new.sessions }
        ensures stepped { AreStepped self.old.sessions → OthersSteppedIfAny result self.new.sessions }
        ensures same { self.new.settings ≡ self.old.settings }
    {
        self.make_place();
        let Some(ports) = self.spare.pop() else {
            return None;
        };
        self.insert(Session::over(number, ports, self.settings.quantum))
    }

    // Frees a place where there is none.
    fn make_place(&mut self)
        ensures keeps { Stays (TableTells S.tells self.old) (TableTells S.tells self.new) }
        ensures winds { Winds S.tells self.old.sessions self.new.sessions }
        ensures turns { SameTurns self.old self.new }
        ensures none { self.new.spare.items ≡ [] → HasNoPlaceWhere self.old }
        ensures below { StayBelow self.old.sessions self.new.sessions }
        ensures stepped { AreStepped self.old.sessions → AreStepped self.new.sessions }
        ensures same { self.new.settings ≡ self.old.settings }
    {
        if self.spare.is_empty() {
            self.give_up_one();
        }
    }

    // Puts a session that isn't open at a place of its own.
    fn insert(&mut self, session: Session<S>) -> Option<usize>
        ensures keeps { IsNew S.tells session → Stays (HasVacancy S.tells self.old) (TableTells S.tells self.new) }
        ensures prepared { IsNew S.tells session → (world : World) → HasVacancy S.tells self.old world → IfPrepared S.tells session.number result self.new }
        ensures puts { PutsAt result self.old.sessions self.new.sessions }
        ensures full { result ≡ None → HasRoomFor self.old.sessions 1 → ⊥ }
        ensures turns { SameTurns self.old self.new }
        ensures below { StayBelowBeside session.number result self.old.sessions self.new.sessions }
        ensures same { self.new.settings ≡ self.old.settings }
    {
        self.sessions.insert(session).ok()
    }

    /// Where what comes of a port of the session at a place is reported.
    pub(crate) fn token(&self, place: usize, port: usize) -> usize
        ensures { self.now.settings.width * place + port < 2 ^ 64 → result ≡ self.now.settings.width * place + port }
    {
        self.settings.width.wrapping_mul(place).wrapping_add(port)
    }

    /// Gives a port of the session at a place its connection. It says whether there is such a port.
    pub(crate) fn attach(&mut self, place: usize, port: usize, stream: S, sending: Sending) -> bool
        requires { IsBegun sending }
        ensures keeps { IsIdleAt self.old.sessions place → Stays (TableTells S.tells self.old) (TableTells S.tells self.new) }
        ensures idle { IsIdleAt self.old.sessions place → IsIdleAt self.new.sessions place }
        ensures prepared { (k : ℕ) → S.tells stream new_wire → IsPrepared S.tells self.old place k → IsPrepared S.tells self.new place k }
        ensures others { OthersStay place self.old.sessions self.new.sessions }
        ensures turns { SameTurns self.old self.new }
        ensures there { result ≡ true → HasPortAt self.old.sessions place port }
        ensures all { HasPortAt self.old.sessions place port → result ≡ true }
        ensures connects { Connects stream sending place port self.old.sessions self.new.sessions }
        ensures below { StayBelow self.old.sessions self.new.sessions }
        ensures same { self.new.settings ≡ self.old.settings }
    {
        match self.sessions.get_mut(place) {
            Some(session) => session.attach(port, stream, sending),
            None => false,
        }
    }

    /// Has the connections of the session at a place begun at the first write to each.
    pub(crate) fn defer(&mut self, place: usize)
        ensures prepared { (k : ℕ) → IsPrepared S.tells self.old place k → IsPrepared S.tells self.new place k }
        ensures idle { IsIdleAt self.old.sessions place → IsIdleAt self.new.sessions place }
        ensures keeps { Stays (TableTells S.tells self.old) (TableTells S.tells self.new) }
        ensures others { OthersStay place self.old.sessions self.new.sessions }
        ensures turns { SameTurns self.old self.new }
        ensures deferred { EachPortAt WaitsForWrite self.new.sessions place }
        ensures below { StayBelow self.old.sessions self.new.sessions }
        ensures same { self.new.settings ≡ self.old.settings }
    {
        if let Some(session) = self.sessions.get_mut(place) {
            session.defer();
        }
    }

    /// The place of an open session whose connection of a port is to be begun.
    #[inline(never)]
    pub(crate) fn find_deferred(&self, number: u64, port: usize) -> Option<usize>
        ensures deferred { IfSome result (λ place. IsDeferredIn self.now.sessions place port) }
        ensures open { (world : World) → TableTells S.tells self.now world → IfSome result (λ place. place_of self.now.entries.items number ≡ Some place) }
    {
        let place = self.find(number)?;
        let session = self.sessions.get(place)?;
        if session.is_deferred(port) {
            Some(place)
        } else {
            None
        }
    }

    /// Lets a port of the session at a place have no connection: what is written to it fails.
    pub(crate) fn give_up(&mut self, place: usize, port: usize)
        ensures keeps { Stays (TableTells S.tells self.old) (TableTells S.tells self.new) }
        ensures turns { SameTurns self.old self.new }
        ensures given_up { IsDeferredIn self.new.sessions place port → ⊥ }
        ensures below { StayBelow self.old.sessions self.new.sessions }
        ensures same { self.new.settings ≡ self.old.settings }
    {
        if let Some(session) = self.sessions.get_mut(place) {
            session.give_up(port);
        }
    }

    /// Opens the session at a place: it is found by its number from now on, which is above all others.
    pub(crate) fn announce(&mut self, number: u64, place: usize) -> bool
        ensures opens { result ≡ true → IsPrepared S.tells self.old place number → TableAnnounces S.tells number self.old self.new }
        ensures kept { result ≡ false → self.new ≡ self.old }
        ensures others { OthersStay place self.old.sessions self.new.sessions }
        ensures refused { result ≡ false → (vec_capacity self.old.entries ≤ vec_len self.old.entries) ⊎ (get self.old.sessions place ≡ None) }
        ensures below { StayBelow self.old.sessions self.new.sessions }
        ensures stepped { result ≡ true → HoldsOpen self.new.sessions place }
        ensures same { self.new.settings ≡ self.old.settings }
    {
        if self.entries.len() >= self.entries.capacity() {
            return false;
        }
        let Some(session) = self.sessions.get_mut(place) else {
            return false;
        };
        session.is_open = true;
        self.entries.push_reserved(Entry { number, place });
        true
    }

    /// Lets the sessions that were to have a turn behind the others have it now, in their order.
    pub(crate) fn recall(&mut self)
        ensures keeps { Stays (TableTells S.tells self.old) (TableTells S.tells self.new) }
        ensures order { (world : World) → TableTells S.tells self.old world → self.new.ready.places.items ≡ turns_of self.old }
        ensures sessions { self.new.sessions ≡ self.old.sessions }
        ensures entries { self.new.entries ≡ self.old.entries }
        ensures same { self.new.settings ≡ self.old.settings }
    {
        for _ in 0..self.behind.len() {
            let Some(place) = self.behind.pop() else {
                return;
            };
            self.ready.push(place);
        }
    }

    /// Whether a session is to have a turn before the next wait.
    pub(crate) fn has_ready(&self) -> bool
        ensures none { result ≡ false → self.now.ready.places.items ≡ [] }
        ensures some { result ≡ true → self.now.ready.places.items ≢ [] }
    {
        !self.ready.is_empty()
    }

    /// The number of the next open session that is to have a turn.
    pub(crate) fn next_ready(&mut self) -> Option<u64>
        ensures first { TakesFirst result self.old self.new }
        ensures names { Moves (TableTells S.tells self.old) (TableTells S.tells self.new) (NamesIfAny result) }
        ensures winds { Winds S.tells self.old.sessions self.new.sessions }
        ensures turn { TurnsIfTold S.tells result self.old self.new }
        ensures steps { TakesTurns self.old self.new }
        ensures none { result ≡ None → self.new.ready.places.items ≡ [] }
        ensures below { StayBelow self.old.sessions self.new.sessions }
        ensures number { IsOneOf result self.old.sessions }
        ensures stepped { StayStepped S.tells self.old self.new }
        ensures same { self.new.settings ≡ self.old.settings }
    {
        for _ in 0..self.ready.len() {
            if let Some(number) = self.turn_first() {
                return Some(number);
            }
        }
        None
    }

    // Begins the turn of the first session that is to have one. A closed one has it here.
    fn turn_first(&mut self) -> Option<u64>
        ensures first { TakesFirst result self.old self.new }
        ensures names { Moves (TableTells S.tells self.old) (TableTells S.tells self.new) (NamesIfAny result) }
        ensures winds { Winds S.tells self.old.sessions self.new.sessions }
        ensures turn { TurnsIfTold S.tells result self.old self.new }
        ensures steps { TakesTurns self.old self.new }
        ensures taken { self.new.ready.places.items ≡ drop 1 self.old.ready.places.items }
        ensures below { StayBelow self.old.sessions self.new.sessions }
        ensures number { IsOneOf result self.old.sessions }
        ensures stepped { StayStepped S.tells self.old self.new }
        ensures same { self.new.settings ≡ self.old.settings }
    {
        let Some(place) = self.ready.pop() else {
            return None;
        };
        let Some(session) = self.sessions.get_mut(place) else {
            return None;
        };
        session.is_queued = false;
        if !session.is_open {
            self.wind_up(place);
            return None;
        }
        session.begin_turn(self.settings.quantum);
        self.turning = place;
        let number = session.number;
        if !session.has_unsent() {
            return Some(number);
        }
        if session.write_down(&mut self.written, place) {
            return Some(number);
        }
        session.stand_in(&mut self.behind, place);
        Some(number)
    }

    /// Sends what the sessions wrote, where these are many.
    pub(crate) fn send_where_many(&mut self)
        ensures keeps { Stays (TableTells S.tells self.old) (TableTells S.tells self.new) }
        ensures winds { Winds S.tells self.old.sessions self.new.sessions }
        ensures turn { MovesOn [] self.old self.new }
        ensures few { deque_len self.new.written.places < MOST_WRITTEN }
        ensures below { StayBelow self.old.sessions self.new.sessions }
        ensures stepped { StayStepped S.tells self.old self.new }
        ensures same { self.new.settings ≡ self.old.settings }
    {
        if self.written.len() >= MOST_WRITTEN {
            self.send();
        }
    }

    /// Sends what the sessions wrote. One whose connection fails in that is to have a turn.
    pub(crate) fn send(&mut self)
        ensures keeps { Stays (TableTells S.tells self.old) (TableTells S.tells self.new) }
        ensures sent { self.new.written.places.items ≡ [] }
        ensures winds { Winds S.tells self.old.sessions self.new.sessions }
        ensures turn { MovesOn [] self.old self.new }
        ensures below { StayBelow self.old.sessions self.new.sessions }
        ensures stepped { StayStepped S.tells self.old self.new }
        ensures same { self.new.settings ≡ self.old.settings }
    {
        for _ in 0..self.written.len() {
            self.send_first();
        }
    }

    // Sends what the first of them wrote.
    fn send_first(&mut self)
        ensures keeps { Stays (TableTells S.tells self.old) (TableTells S.tells self.new) }
        ensures taken { self.new.written.places.items ≡ drop 1 self.old.written.places.items }
        ensures winds { Winds S.tells self.old.sessions self.new.sessions }
        ensures turn { MovesOn [] self.old self.new }
        ensures below { StayBelow self.old.sessions self.new.sessions }
        ensures stepped { StayStepped S.tells self.old self.new }
        ensures same { self.new.settings ≡ self.old.settings }
    {
        let Some(place) = self.written.pop() else {
            return;
        };
        let Some(session) = self.sessions.get_mut(place) else {
            return;
        };
        session.is_written = false;
        if session.send() {
            session.stand_in(&mut self.ready, place);
        }
    }

    /// Reads from a port of a session.
    #[inline(always)]
    pub(crate) fn read(&mut self, number: u64, port: usize, into: &mut [u8]) -> LinkGot
        requires { 0 < length into.old }
        ensures within { GotWithin into.new result }
        ensures leads { MovesAt number (TableTells S.tells self.old) (TableTells S.tells self.new) (AtSession number port (LinkReads into.new result)) }
        ensures winds { (world : World) → TableTells S.tells self.old world → Winds S.tells self.old.sessions self.new.sessions }
        ensures joins { JoinsBehind self.old self.new }
        ensures below { StayBelow self.old.sessions self.new.sessions }
        ensures stepped { StayStepped S.tells self.old self.new }
        ensures same { self.new.settings ≡ self.old.settings }
    {
        let Some(place) = self.find(number) else {
            return LinkGot::Failed;
        };
        let Some(session) = self.sessions.get_mut(place) else {
            return LinkGot::Failed;
        };
        if session.is_spent() {
            session.stand_in(&mut self.behind, place);
            return session.read(port, into);
        }
        session.read(port, into)
    }

    /// Writes to a port of a session.
    #[inline(always)]
    pub(crate) fn write(&mut self, number: u64, port: usize, from: &[u8]) -> LinkPut
        requires { 0 < length from.now }
        ensures within { TookWithin from.now result }
        ensures leads { MovesAt number (TableTells S.tells self.old) (TableTells S.tells self.new) (AtSession number port (LinkWrites from.now result)) }
        ensures winds { (world : World) → TableTells S.tells self.old world → Winds S.tells self.old.sessions self.new.sessions }
        ensures joins { JoinsBehind self.old self.new }
        ensures below { StayBelow self.old.sessions self.new.sessions }
        ensures stepped { StayStepped S.tells self.old self.new }
        ensures same { self.new.settings ≡ self.old.settings }
    {
        if let Some(session) = self.sessions.get_mut(self.turning)
            && session.number == number
            && session.is_open
            && session.is_written
            && !session.is_spent()
        {
            return session.write(port, from);
        }
        self.write_first(number, port, from)
    }

    // The same for a session that may be another than the one whose turn it is, may have moved all that it may, or wasn't
    // written to.
    #[inline(never)]
    fn write_first(&mut self, number: u64, port: usize, from: &[u8]) -> LinkPut
        requires { 0 < length from.now }
        ensures within { TookWithin from.now result }
        ensures leads { MovesAt number (TableTells S.tells self.old) (TableTells S.tells self.new) (AtSession number port (LinkWrites from.now result)) }
        ensures winds { (world : World) → TableTells S.tells self.old world → Winds S.tells self.old.sessions self.new.sessions }
        ensures joins { JoinsBehind self.old self.new }
        ensures below { StayBelow self.old.sessions self.new.sessions }
        ensures stepped { StayStepped S.tells self.old self.new }
        ensures same { self.new.settings ≡ self.old.settings }
    {
        let Some(place) = self.find(number) else {
            return LinkPut::Failed;
        };
        let Some(session) = self.sessions.get_mut(place) else {
            return LinkPut::Failed;
        };
        if session.is_spent() {
            session.stand_in(&mut self.behind, place);
            return session.write(port, from);
        }
        if !session.write_down(&mut self.written, place) {
            session.stand_in(&mut self.behind, place);
            return session.write(port, from);
        }
        session.write(port, from)
    }

    /// Closes a session. What was written to it is sent still.
    pub(crate) fn close(&mut self, number: u64)
        ensures leads { MovesAt number (TableTells S.tells self.old) (TableTells S.tells self.new) (Shuts number) }
        ensures sends { TableCloses S.tells number self.old self.new }
        ensures winds { Winds S.tells self.old.sessions self.new.sessions }
        ensures joins { JoinsBehind self.old self.new }
        ensures below { StayBelow self.old.sessions self.new.sessions }
        ensures stepped { AreStepped self.old.sessions → AreStepped self.new.sessions }
        ensures same { self.new.settings ≡ self.old.settings }
    {
        if let Some(at) = self.search(number) {
            let place = self.shut(at);
            self.wind_up(place);
        }
    }

    // Closes the session of an entry, and says at which place it stands.
    fn shut(&mut self, at: usize) -> usize
        requires { at < length self.old.entries.items }
        ensures closed { (world : World) → TableTells S.tells self.old world → IsClosedAt self.new.sessions result }
        ensures shuts { (e : Entry) → IsEntry self.old at e → Moves (TableTells S.tells self.old) (TableTells S.tells self.new) (Shuts e.number) }
        ensures stands { ClosesEntry S.tells at result self.old self.new }
        ensures winds { Winds S.tells self.old.sessions self.new.sessions }
        ensures ready { self.new.ready ≡ self.old.ready }
        ensures behind { self.new.behind ≡ self.old.behind }
        ensures listed { get self.old.sessions result ≢ None → ListsClosed result self.old self.new }
        ensures below { StayBelow self.old.sessions self.new.sessions }
        ensures stepped { AreStepped self.old.sessions → OthersStepped result self.new.sessions }
        ensures same { self.new.settings ≡ self.old.settings }
    {
        let place = self.entries.remove(at).place;
        let Some(session) = self.sessions.get_mut(place) else {
            return place;
        };
        session.is_open = false;
        if self.closed.len() < self.closed.capacity() {
            self.closed.push_reserved(place);
        }
        place
    }

    // Goes on with the end of the closed session at a place, and frees the place once it is over.
    fn wind_up(&mut self, place: usize)
        ensures ready { self.new.ready ≡ self.old.ready }
        ensures keeps { IsClosedAt self.old.sessions place → Stays (TableTells S.tells self.old) (TableTells S.tells self.new) }
        ensures winds { Winds S.tells self.old.sessions self.new.sessions }
        ensures sent { HoldsFlushed self.new.sessions place }
        ensures told { EachPortAt TellsItsEnd self.new.sessions place }
        ensures others { OthersStay place self.old.sessions self.new.sessions }
        ensures shut { StaysShut place self.old.sessions self.new.sessions }
        ensures behind { Grows self.old.behind self.new.behind }
        ensures entries { self.new.entries ≡ self.old.entries }
        ensures below { StayBelow self.old.sessions self.new.sessions }
        ensures same { self.new.settings ≡ self.old.settings }
    {
        let Some(session) = self.sessions.get_mut(place) else {
            return;
        };
        match session.wind_up() {
            Rest::Unsent | Rest::Awaited => (),
            Rest::Unread => self.put_behind(place),
            Rest::Gone if session.is_queued => (),
            Rest::Gone => self.release(place),
        }
    }

    // Lets the session at a place have a turn behind those that are reported next.
    fn put_behind(&mut self, place: usize)
        ensures ready { self.new.ready ≡ self.old.ready }
        ensures keeps { Stays (TableTells S.tells self.old) (TableTells S.tells self.new) }
        ensures winds { Winds S.tells self.old.sessions self.new.sessions }
        ensures flushed { HoldsFlushed self.old.sessions place → HoldsFlushed self.new.sessions place }
        ensures told { EachPortAt TellsItsEnd self.old.sessions place → EachPortAt TellsItsEnd self.new.sessions place }
        ensures others { OthersStay place self.old.sessions self.new.sessions }
        ensures shut { StaysShut place self.old.sessions self.new.sessions }
        ensures stands { (world : World) → TableTells S.tells self.old world → get self.old.sessions place ≢ None → IsQueuedAt self.new.sessions place }
        ensures behind { Grows self.old.behind self.new.behind }
        ensures entries { self.new.entries ≡ self.old.entries }
        ensures below { StayBelow self.old.sessions self.new.sessions }
        ensures same { self.new.settings ≡ self.old.settings }
    {
        if let Some(session) = self.sessions.get_mut(place) {
            session.stand_in(&mut self.behind, place);
        }
    }

    /// Frees a place.
    pub(crate) fn release(&mut self, place: usize)
        ensures ready { self.new.ready ≡ self.old.ready }
        ensures keeps { IsIdleAt self.old.sessions place → Stays (TableTells S.tells self.old) (TableTells S.tells self.new) }
        ensures others { OthersStay place self.old.sessions self.new.sessions }
        ensures free { get self.new.sessions place ≡ None }
        ensures winds { HoldsSettled self.old.sessions place → Winds S.tells self.old.sessions self.new.sessions }
        ensures spares { vec_len self.old.spare < vec_capacity self.old.spare → get self.old.sessions place ≢ None → self.new.spare.items ≢ [] }
        ensures turns { SameTurns self.old self.new }
        ensures below { StayBelow self.old.sessions self.new.sessions }
        ensures same { self.new.settings ≡ self.old.settings }
    {
        forget(&mut self.closed, place);
        if let Some(session) = self.sessions.try_remove(place) {
            let ports = session.into_ports();
            if self.spare.len() < self.spare.capacity() {
                self.spare.push_reserved(ports);
            }
        }
    }

    // Frees the place of the closed session that has waited longest for its peers' ends.
    fn give_up_one(&mut self)
        ensures keeps { Stays (TableTells S.tells self.old) (TableTells S.tells self.new) }
        ensures winds { Winds S.tells self.old.sessions self.new.sessions }
        ensures turns { SameTurns self.old self.new }
        ensures none { vec_len self.old.spare < vec_capacity self.old.spare → self.new.spare.items ≡ [] → NoneGives self.old }
        ensures below { StayBelow self.old.sessions self.new.sessions }
        ensures stepped { AreStepped self.old.sessions → AreStepped self.new.sessions }
        ensures same { self.new.settings ≡ self.old.settings }
    {
        if let Some(place) = self.find_sent() {
            self.release(place);
        }
    }

    // The place of the first closed session that has sent everything, and isn't to have a turn.
    fn find_sent(&self) -> Option<usize>
        ensures idle { (world : World) → TableTells S.tells self.now world → IfSome result (λ place. IsIdleAt self.now.sessions place) }
        ensures settled { IfSome result (λ place. HoldsSettled self.now.sessions place) }
        ensures stands { IfSome result (λ place. get self.now.sessions place ≢ None) }
        ensures some { IfSome result (λ place. NoneGives self.now → ⊥) }
        ensures none { result ≡ None → NoneGives self.now }
    {
        for place in &self.closed {
            if let Some(session) = self.sessions.get(*place)
                && !session.is_queued
                && !session.has_unsent()
            {
                return Some(*place);
            }
        }
        None
    }

    // The place of an open session: mostly the one whose turn it is.
    fn find(&self, number: u64) -> Option<usize>
        ensures { (world : World) → TableTells S.tells self.now world → result ≡ place_of self.now.entries.items number }
    {
        if let Some(session) = self.sessions.get(self.turning)
            && session.number == number
            && session.is_open
        {
            return Some(self.turning);
        }
        let at = self.search(number)?;
        let entry = self.entries.get(at)?;
        Some(entry.place)
    }

    // Where an open session stands among them.
    fn search(&self, number: u64) -> Option<usize>
        ensures within { IfSome result (λ at. at < length self.now.entries.items) }
        ensures here { IfSome result (λ at. (e : Entry) × IsEntry self.now at e × (e.number ≡ number)) }
        ensures none { RisesFrom 0 self.now.entries.items → result ≡ None → place_of self.now.entries.items number ≡ None }
    {
        self.entries
            .binary_search_by_key(&number, |entry| entry.number)
            .ok()
    }
}

impl<S: Stream> Reports for Table<S> {
    ghost goes = { λ a b. Stays (TableTells S.tells a) (TableTells S.tells b) × Winds S.tells a.sessions b.sessions × MovesOn [] a b × (b.settings ≡ a.settings) × StayBelow a.sessions b.sessions × StayStepped S.tells a b };

    ghost notes = { λ token news a b. NotesToken S.tells token news a b };

    /// Takes note of what was reported at a token, and lets its session have a turn if that is news.
    fn report(&mut self, token: usize, news: Readiness) {
        if self.settings.width == 0 {
            return;
        }
        let place = token / self.settings.width;
        let port = token % self.settings.width;
        let Some(session) = self.sessions.get_mut(place) else {
            return;
        };
        if session.report(port, news) {
            session.stand_in(&mut self.ready, place);
        }
    }

    ghost stays = { λ a. ((λ world told. told), winds_nowhere S.tells a.sessions, moves_still a, settings_same a.settings, (λ next below. below), (λ world told stepped. stepped)) };

    ghost follows = { λ a b c first second. ((λ world told. second.0 world (first.0 world told)), winds_on S.tells a.sessions b.sessions c.sessions first.1 second.1, moves_on_further [] [] a b c first.2 second.2, settings_on a.settings b.settings c.settings first.3 second.3, (λ next below. second.4 next (first.4 next below)), (λ world told stepped. second.5 world (first.0 world told) (first.5 world told stepped))) };
}

// Takes a place out of a list.
fn forget(places: &mut Vec<usize>, place: usize)
    ensures { places.new.items ≡ filter (λ other. not (other == place)) places.old.items }
{
    places.retain(|other| *other != place);
}

// The ports of so many places.
fn open_places<S: Stream>(
    alloc: Global,
    places: usize,
    width: usize,
    buffers: usize,
) -> Result<Vec<Vec<Port<S>>>, OutOfMemory>
    ensures spare { IfOk result (λ spare. (n : ℕ) → SpareTells S.tells (slice_get spare.items n)) }
    ensures count { IfOk result (λ spare. length spare.items ≡ places) }
{
    let mut spare = Vec::with_capacity(alloc, places)?;
    for _ in 0..places {
        spare.push(open_ports(alloc, width, buffers)?)?;
    }
    Ok(spare)
}

// The ports of a session, without connections.
fn open_ports<S: Stream>(
    alloc: Global,
    width: usize,
    buffers: usize,
) -> Result<Vec<Port<S>>, OutOfMemory>
    ensures new { IfOk result (λ ports. PortsTell S.tells ports.items new_links) }
    ensures count { IfOk result (λ ports. length ports.items ≡ width) }
{
    let room = (buffers / width.max(1)).max(LEAST_BUFFER);
    let mut ports = Vec::with_capacity(alloc, width)?;
    for _ in 0..width {
        ports.push(Port::open(alloc, room)?)?;
    }
    Ok(ports)
}
