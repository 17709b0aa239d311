//! The sessions that are open, in the order of their numbers.
ghost use Rattle.std.specs.Prelude.{◌≡◌, [], ◌⊎◌, ◌<◌, ◌≤◌, length, Some, None, IfSome, IfOk, slice_get, ℕ, ◌^◌};
ghost use Rattle.gate_fan.specs.Fans.{Later};
ghost use Rattle.service_router.specs.Standing.{nothing};
ghost use Rattle.service_router.specs.Setups.{rules_for};
ghost use Rattle.service_router.specs.Router.{IsSame, HoldsWithin, rooms_for, rules_in, targets_of};
ghost use Rattle.route_server.specs.Matching.{Matches};
ghost use Rattle.route_server.specs.Turning.{TurnGoes, EndsAs};
ghost use Rattle.route_server.specs.Serving.{Entry, IsRising};
ghost use Rattle.route_server.specs.Steps.{AreGood};
ghost use Rattle.route_server.specs.Calling.{LinkRose};

use crate::server::Terms;
use crate::turn_end::RouteTurn;
use crate::turning::route_turn;
use gate_base::OutOfMemory;
use gate_fan::Fan;
use service_router::{RouteOutcome, Router};
use session_core::Notes;
use std::alloc::Global;
use std::marker::Model;

/// A session that was announced and has not ended, with its number at the fan.
#[derive(Drop)]
pub struct OpenSession<'s> {
    number: u64,
    router: Router<'s>,
}

impl<'s> Model for OpenSession<'s> {
    ghost use Rattle.route_server.specs.Serving.{Entry};

    ghost Value = { Entry };

    ghost view = { λ o. record { number = o.number; router = o.router } };
}

impl<'s> OpenSession<'s> {
    pub fn new(number: u64, router: Router<'s>) -> OpenSession<'s>
        ensures { result ≡ record { number = number; router = router.entry } }
    {
        OpenSession { number, router }
    }

    pub fn number(&self) -> u64
        ensures { result ≡ self.now.number }
    {
        self.number
    }

    /// One turn of the session.
    pub fn turn<M: Fan, N: Notes>(&mut self, fan: &mut M, notes: &mut N) -> RouteTurn
        requires targets { M.target_count fan.old ≡ targets_of self.old.router }
        ensures turned { TurnGoes self.old.number (N.tells notes.old notes.new)
            (M.tells fan.old) self.old.router (M.tells fan.new) self.new.router result }
        ensures number { self.new.number ≡ self.old.number }
        ensures ending { EndsAs self.new.router.outcome result }
        ensures same { IsSame self.old.router self.new.router }
        ensures holds { HoldsWithin self.new.router }
        ensures later { Later (M.counts fan.old) (M.counts fan.new) }
        ensures targets { M.target_count fan.new ≡ M.target_count fan.old }
        ensures cause { (port : ℕ) → result ≡ RouteTurn.Ended (RouteOutcome.LinkFault port) →
            LinkRose (M.counts fan.old) (M.counts fan.new) self.old.number port }
    {
        route_turn(&mut self.router, fan, self.number, notes)
    }
}

/// Opens a session. Want of memory is the one error.
pub fn open_session<'s>(alloc: Global, terms: &Terms<'s>) -> Result<Router<'s>, OutOfMemory>
    requires { AreGood terms.now }
    ensures judged { IfOk result (λ r. rules_in r ≡ rules_for terms.now.setup terms.now.targets.now) }
    ensures limits { IfOk result (λ r. (r.limit ≡ terms.now.setup.limit) × (r.max_calls ≡ terms.now.setup.calls)) }
    ensures targets { IfOk result (λ r. targets_of r ≡ length terms.now.targets.now) }
    ensures matches { IfOk result (λ r. Matches r [] nothing) }
    ensures going { IfOk result (λ r. r.outcome ≡ None) }
    ensures rooms { IfOk result (λ r. r.rooms ≡ rooms_for terms.now.setup.limit terms.now.setup.calls (length terms.now.targets.now)) }
    ensures holds { IfOk result (λ r. HoldsWithin r) }
{
    Router::open(alloc, terms.setup, terms.targets)
}

/// The place of session `number`.
pub fn find(held: &[OpenSession<'_>], number: u64) -> Option<usize>
    ensures within { IfSome result (λ at. at < length held.now) }
    ensures found { IfSome result (λ at. (e : Entry) × (slice_get held.now at ≡ Some e) × (e.number ≡ number)) }
    ensures none { result ≡ None → IsRising held.now → (i : ℕ) (e : Entry) → slice_get held.now i ≡ Some e → e.number ≡ number → ⊥ }
{
    let mut low = 0;
    let mut high = held.len();
    while low < high {
        let middle = low + (high - low) / 2;
        let at = held[middle].number();
        if at == number {
            return Some(middle);
        }
        if at < number {
            low = middle + 1;
        } else {
            high = middle;
        }
    }
    None
}
