//! One routed connection, as the server above drives it.
ghost use Rattle.std.specs.Prelude.{◌≡◌, ◌^◌, ◌<◌, ◌≤◌, [], length, take, IfOk, IfSome, true, None, is_some};
ghost use Rattle.session_core.specs.Rooms.{due_room};
ghost use Rattle.service_router.specs.Setups.{routing_of};
ghost use Rattle.service_router.specs.Standing.{nothing, and_received, and_sent, and_ended, inbox_of, due_to, room_of};
ghost use Rattle.service_router.specs.Telling.{FitsTold};
ghost use Rattle.service_router.specs.Ends.{IsAtRest, is_own, bytes_held, most_held};
ghost use Rattle.service_router.specs.Router.{rules_in, IsSame, RestsBy, FitsAndTells, TakesNoMoreOf, HoldsWithin, rooms_for, targets_of};

use crate::judge::RouteJudge;
use crate::outcome::RouteOutcome;
use crate::state::State;
use gate_base::OutOfMemory;
use gate_fan::Target;
use session_core::{MOST_CALLS, Notes};
use session_judge::Setup;
use std::alloc::Global;
use std::marker::Model;

/// So many targets there may be at the most.
pub const MOST_TARGETS: usize = 16;

/// A routed connection. All its memory is taken by `open`: no later call changes a room, asks for memory or can answer that it
/// wants some.
///
/// Port 0 is the client's and port u that of the u-th target. It fits what came and went at each port: what was sent and is due
/// is what the frames that were taken give, and no frame that can be taken is left. Once it has an outcome it takes nothing,
/// and nothing is due.
#[derive(Drop)]
pub struct Router<'s> {
    judge: RouteJudge<'s>,
    state: State,
}

impl<'s> Model for Router<'s> {
    ghost use Rattle.std.specs.Prelude.{◌≡◌, ◌≤◌};
    ghost use Rattle.service_router.specs.Router.{Seen};

    ghost Value = { Seen };

    ghost use Rattle.service_router.specs.Working.{standing, rooms_in, Works, IsSettledBy};

    ghost view = { λ r. record { routing = r.judge; limit = r.state.client.limit; max_calls = r.state.calls.capacity; rooms = rooms_in r.state; standing = standing r.state; outcome = r.state.outcome } };

    ghost invariant = { λ r. Works r.judge r.state × IsSettledBy r.judge r.state r.state };
}

impl<'s> Router<'s> {
    /// Takes all the memory of a routed connection.
    ///
    /// The limit is below 2^24, 1 to 65,536 calls may be open, there are 1 to 16 targets, and names without a service before
    /// them have none. A call goes to the first target that has its service. Want of memory is the one error.
    pub fn open(
        alloc: Global,
        setup: Setup<'s>,
        targets: &'s [Target],
    ) -> Result<Router<'s>, OutOfMemory>
        requires limit { setup.limit < 2 ^ 24 }
        requires some { 0 < setup.calls }
        requires few { setup.calls ≤ MOST_CALLS }
        requires service { setup.service ≡ None }
        requires some_targets { 0 < length targets.now }
        requires few_targets { length targets.now ≤ MOST_TARGETS }
        ensures given { IfOk result (λ r. (r.routing ≡ routing_of setup.entry targets.now) × (r.limit ≡ setup.entry.limit) × (r.max_calls ≡ setup.entry.calls)) }
        ensures targets { IfOk result (λ r. targets_of r ≡ length targets.now) }
        ensures fits { IfOk result (λ r. FitsTold (rules_in r) r.limit r.max_calls nothing [] r.standing) }
        ensures rest { IfOk result (λ r. IsAtRest (rules_in r) r.limit r.max_calls r.standing r.outcome) }
        ensures going { IfOk result (λ r. r.outcome ≡ None) }
        ensures rooms { IfOk result (λ r. r.rooms ≡ rooms_for setup.entry.limit setup.entry.calls (length targets.now)) }
        ensures holds { IfOk result (λ r. HoldsWithin r) }
    {
        let judge = RouteJudge::open(alloc, &setup, targets)?;
        let state = State::open(alloc, setup.limit, setup.calls, targets.len())?;
        Ok(Router { judge, state })
    }

    /// How many targets there are.
    pub fn targets(&self) -> usize
        ensures count { result ≡ targets_of self.now }
        ensures some { 0 < result }
        ensures few { result ≤ MOST_TARGETS }
    {
        self.state.targets()
    }

    /// Takes bytes that came of a port, does all that can be done, and says how many were taken.
    ///
    /// Fewer than given are taken only where that port's buffer is full afterwards, the port had ended, or there is an outcome.
    pub fn take<N: Notes>(&mut self, port: usize, bytes: &[u8], notes: &mut N) -> usize
        requires port { port ≤ targets_of self.old }
        ensures same { IsSame self.old self.new }
        ensures rest { RestsBy self.old self.new }
        ensures holds { HoldsWithin self.new }
        ensures count { result ≤ length bytes.now }
        ensures fits { FitsAndTells self.old self.new (N.tells notes.old notes.new) (λ h. and_received port h (take result bytes.now)) }
        ensures fewer { result < length bytes.now → TakesNoMoreOf port self.old self.new }
        ensures whole { length bytes.now ≤ room_of self.old.limit self.old.standing (is_some self.old.outcome) port → result ≡ length bytes.now }
        ensures ended { (inbox_of port self.old.standing).ended ≡ true → result ≡ 0 }
        ensures over { is_some self.old.outcome ≡ true → result ≡ 0 }
    {
        self.state.take(&mut self.judge, port, bytes, notes)
    }

    /// The bytes that are due to a port.
    pub fn due(&self, port: usize) -> &[u8]
        ensures bytes { result.now ≡ due_to port self.now.standing }
        ensures within { length (due_to port self.now.standing) ≤ due_room self.now.limit }
        ensures over { is_some self.now.outcome ≡ true → due_to port self.now.standing ≡ [] }
        ensures holds { HoldsWithin self.now }
    {
        self.state.due(port)
    }

    /// So many of the bytes that are due to a port were sent.
    pub fn sent<N: Notes>(&mut self, port: usize, n: usize, notes: &mut N)
        requires due { n ≤ length (due_to port self.old.standing) }
        ensures same { IsSame self.old self.new }
        ensures rest { RestsBy self.old self.new }
        ensures holds { HoldsWithin self.new }
        ensures fits { FitsAndTells self.old self.new (N.tells notes.old notes.new)
            (λ h. and_sent port h (take n (due_to port self.old.standing))) }
    {
        self.state.sent(&mut self.judge, port, n, notes);
    }

    /// A port sends nothing more. A second time nothing changes.
    pub fn end<N: Notes>(&mut self, port: usize, notes: &mut N)
        requires port { port ≤ targets_of self.old }
        ensures same { IsSame self.old self.new }
        ensures rest { RestsBy self.old self.new }
        ensures holds { HoldsWithin self.new }
        ensures fits { FitsAndTells self.old self.new (N.tells notes.old notes.new) (λ h. and_ended port h) }
    {
        self.state.end(&mut self.judge, port, notes);
    }

    /// How many more bytes of a port can be taken.
    pub fn room(&self, port: usize) -> usize
        requires port { port ≤ targets_of self.now }
        ensures room { result ≡ room_of self.now.limit self.now.standing (is_some self.now.outcome) port }
        ensures holds { HoldsWithin self.now }
    {
        self.state.room(port)
    }

    /// How the connection ended, where it has. `LinkFault`, `Full` and `NoMemory` are told by the server alone.
    pub fn outcome(&self) -> Option<RouteOutcome>
        ensures told { result ≡ self.now.outcome }
        ensures own { IfSome result (λ outcome. is_own outcome ≡ true) }
        ensures holds { HoldsWithin self.now }
    {
        self.state.outcome
    }

    /// How many bytes are held in all: 26 for each byte of the limit, the bytes held of each port and due to each port, and 32 for
    /// each open call. After an outcome the first alone.
    pub fn held(&self) -> usize
        ensures exact { result ≡ bytes_held self.now.limit self.now.standing self.now.outcome }
        ensures within { result ≤ most_held self.now.limit self.now.max_calls (targets_of self.now) }
    {
        self.state.held()
    }
}
