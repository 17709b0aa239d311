//! One session, as the server above drives it.
ghost use Rattle.std.specs.Prelude.{◌≡◌, ◌+◌, ◌*◌, ◌-◌, ◌^◌, ◌<◌, ◌≤◌, [], ◌++◌, length, take, ℕ, List, Option, IfOk, IfSome, true, false, None, is_some};
ghost use Rattle.session_core.specs.Standing.{nothing};
ghost use Rattle.session_core.specs.Telling.{FitsTold, FitsAndTells};
ghost use Rattle.session_core.specs.Ends.{IsAtRest, TakesNoMore, held_of, most_held, is_own};
ghost use Rattle.session_core.specs.Rooms.{due_room};
ghost use Rattle.session_core.specs.Session.{Seen, HoldsWithin, rooms_for, due_to, and_came, and_sent, and_ended, room_of};

use crate::judge::Judge;
use crate::notes::Notes;
use crate::outcome::Outcome;
use crate::state::{MOST_CALLS, State};
use gate_base::OutOfMemory;
use gate_hub::Side;
use std::alloc::Global;
use std::marker::Model;

/// A session. All its memory is taken by `open`: no later call changes a room, asks for memory or can answer that it wants
/// some, and after each call the session holds no more than 52 bytes for each byte of the limit, 16 for each call that may
/// be open, and 4,096.
///
/// It fits what came and went: what was sent and is due is what the frames that were taken give, and no frame that can
/// be taken is left. Once it has an outcome it takes nothing, and nothing is due. Each call is given who is told of
/// refused frames: of each once, at the step that takes it, and of no other frame.
#[derive(Drop)]
pub struct Session<J: Judge> {
    judge: J,
    state: State,
}

impl<J: Judge> Model for Session<J> {
    ghost use Rattle.std.specs.Prelude.{◌≡◌, ◌≤◌};
    ghost use Rattle.session_core.specs.Session.{Seen};

    ghost Value = { Seen J };

    ghost use Rattle.session_core.specs.Working.{standing, limit_of, rooms_in, Works, IsSettledBy};

    ghost view = { λ s. record { judge = s.judge; limit = limit_of s.state; max_calls = s.state.calls.capacity; rooms = rooms_in s.state; standing = standing s.state; outcome = s.state.outcome } };

    ghost invariant = { λ s. Works (J.rules s.judge) (J.longest s.judge) s.state × IsSettledBy (J.rules s.judge) s.state s.state };
}

impl<J: Judge> Session<J> {
    /// Takes all the memory of a session.
    ///
    /// `limit` is the most bytes of a frame, below 2^24 and within what the judge has room for; `max_calls` is how many calls
    /// may be open, from 1 to 65,536. Want of memory is the one error.
    pub fn open(
        alloc: Global,
        judge: J,
        limit: usize,
        max_calls: usize,
    ) -> Result<Session<J>, OutOfMemory>
        requires limit { limit < 2 ^ 24 }
        requires some { 0 < max_calls }
        requires few { max_calls ≤ MOST_CALLS }
        requires longest { limit ≤ J.longest judge }
        ensures given { IfOk result (λ s. (s.judge ≡ judge) × (s.limit ≡ limit) × (s.max_calls ≡ max_calls)) }
        ensures fits { IfOk result (λ s. FitsTold (J.rules judge) limit max_calls nothing [] s.standing) }
        ensures rest { IfOk result (λ s. IsAtRest (J.rules judge) limit max_calls s.standing s.outcome) }
        ensures going { IfOk result (λ s. s.outcome ≡ None) }
        ensures rooms { IfOk result (λ s. s.rooms ≡ rooms_for limit max_calls) }
        ensures holds { IfOk result (λ s. HoldsWithin s) }
    {
        let state = State::open(alloc, limit, max_calls)?;
        Ok(Session { judge, state })
    }

    /// Takes bytes of the client, does all that can be done, and says how many were taken.
    ///
    /// Fewer than given are taken only where the client's buffer is full afterwards, the client had ended, or the
    /// session has an outcome.
    pub fn take_client<N: Notes>(&mut self, bytes: &[u8], notes: &mut N) -> usize
        ensures same { (self.new.judge ≡ self.old.judge) × (self.new.limit ≡ self.old.limit) × (self.new.max_calls ≡ self.old.max_calls) }
        ensures rest { IsAtRest (J.rules self.old.judge) self.old.limit self.old.max_calls self.new.standing self.new.outcome }
        ensures rooms { self.new.rooms ≡ self.old.rooms }
        ensures holds { HoldsWithin self.new }
        ensures count { result ≤ length bytes.now }
        ensures fits { FitsAndTells J.rules self.old self.new (N.tells notes.old notes.new) (λ h. and_came Side.Client h (take result bytes.now)) }
        ensures fewer { result < length bytes.now → TakesNoMore self.old.limit self.new.standing.client self.old.standing.client_ended self.new.outcome }
        ensures whole { length bytes.now ≤ room_of self.old.limit self.old.standing (is_some self.old.outcome) Side.Client → result ≡ length bytes.now }
        ensures ended { self.old.standing.client_ended ≡ true → result ≡ 0 }
        ensures over { is_some self.old.outcome ≡ true → result ≡ 0 }
    {
        self.state.take(&mut self.judge, Side::Client, bytes, notes)
    }

    /// Takes bytes of the upstream, does all that can be done, and says how many were taken.
    ///
    /// Fewer than given are taken only where the upstream's buffer is full afterwards, the upstream had ended, or the
    /// session has an outcome.
    pub fn take_upstream<N: Notes>(&mut self, bytes: &[u8], notes: &mut N) -> usize
        ensures same { (self.new.judge ≡ self.old.judge) × (self.new.limit ≡ self.old.limit) × (self.new.max_calls ≡ self.old.max_calls) }
        ensures rest { IsAtRest (J.rules self.old.judge) self.old.limit self.old.max_calls self.new.standing self.new.outcome }
        ensures rooms { self.new.rooms ≡ self.old.rooms }
        ensures holds { HoldsWithin self.new }
        ensures count { result ≤ length bytes.now }
        ensures fits { FitsAndTells J.rules self.old self.new (N.tells notes.old notes.new) (λ h. and_came Side.Upstream h (take result bytes.now)) }
        ensures fewer { result < length bytes.now → TakesNoMore self.old.limit self.new.standing.upstream self.old.standing.upstream_ended self.new.outcome }
        ensures whole { length bytes.now ≤ room_of self.old.limit self.old.standing (is_some self.old.outcome) Side.Upstream → result ≡ length bytes.now }
        ensures ended { self.old.standing.upstream_ended ≡ true → result ≡ 0 }
        ensures over { is_some self.old.outcome ≡ true → result ≡ 0 }
    {
        self.state
            .take(&mut self.judge, Side::Upstream, bytes, notes)
    }

    /// The bytes that are due to a side.
    pub fn due(&self, side: Side) -> &[u8]
        ensures bytes { result.now ≡ due_to side self.now.standing }
        ensures within { length (due_to side self.now.standing) ≤ due_room self.now.limit }
        ensures over { is_some self.now.outcome ≡ true → due_to side self.now.standing ≡ [] }
        ensures holds { HoldsWithin self.now }
    {
        self.state.due(side)
    }

    /// So many of the bytes that are due to a side were sent.
    #[inline(always)]
    pub fn sent<N: Notes>(&mut self, side: Side, n: usize, notes: &mut N)
        requires due { n ≤ length (due_to side self.old.standing) }
        ensures same { (self.new.judge ≡ self.old.judge) × (self.new.limit ≡ self.old.limit) × (self.new.max_calls ≡ self.old.max_calls) }
        ensures rest { IsAtRest (J.rules self.old.judge) self.old.limit self.old.max_calls self.new.standing self.new.outcome }
        ensures rooms { self.new.rooms ≡ self.old.rooms }
        ensures holds { HoldsWithin self.new }
        ensures fits { FitsAndTells J.rules self.old self.new (N.tells notes.old notes.new)
            (λ h. and_sent side h (take n (due_to side self.old.standing))) }
    {
        self.state.sent(&mut self.judge, side, n, notes);
    }

    /// A side sends nothing more. A second time nothing changes.
    pub fn end<N: Notes>(&mut self, side: Side, notes: &mut N)
        ensures same { (self.new.judge ≡ self.old.judge) × (self.new.limit ≡ self.old.limit) × (self.new.max_calls ≡ self.old.max_calls) }
        ensures rest { IsAtRest (J.rules self.old.judge) self.old.limit self.old.max_calls self.new.standing self.new.outcome }
        ensures rooms { self.new.rooms ≡ self.old.rooms }
        ensures holds { HoldsWithin self.new }
        ensures fits { FitsAndTells J.rules self.old self.new (N.tells notes.old notes.new) (λ h. and_ended side h) }
    {
        self.state.end(&mut self.judge, side, notes);
    }

    /// How many more bytes of a side can be taken.
    pub fn room(&self, side: Side) -> usize
        ensures room { result ≡ room_of self.now.limit self.now.standing (is_some self.now.outcome) side }
        ensures holds { HoldsWithin self.now }
    {
        self.state.room(side)
    }

    /// How the session ended, where it has. `LinkFault`, `Full` and `NoMemory` are told by the server alone.
    pub fn outcome(&self) -> Option<Outcome>
        ensures told { result ≡ self.now.outcome }
        ensures own { IfSome result (λ outcome. is_own outcome ≡ true) }
        ensures holds { HoldsWithin self.now }
    {
        self.state.outcome
    }

    /// How many bytes are held in all: the two rooms, the bytes held of each side and due to each side, and 16 for each
    /// open call. After an outcome the two rooms alone.
    pub fn held(&self) -> usize
        ensures exact { result ≡ held_of self.now.limit self.now.standing self.now.outcome }
        ensures within { result ≤ most_held self.now.limit self.now.max_calls }
    {
        self.state.held()
    }
}
