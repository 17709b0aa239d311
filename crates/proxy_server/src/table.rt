//! The sessions that are open, in the order of their numbers.
ghost use Rattle.std.specs.Prelude.{◌≡◌, [], ◌⊎◌, ◌<◌, ◌≤◌, length, Some, None, IfSome, IfOk, slice_get, ℕ, ◌^◌};
ghost use Rattle.gate_hub.specs.Hubs.{Later};
ghost use Rattle.session_core.specs.Standing.{nothing};
ghost use Rattle.session_core.specs.Session.{HoldsWithin, rooms_for};
ghost use Rattle.proxy_server.specs.Matching.{Matches, IsSame};
ghost use Rattle.proxy_server.specs.Turning.{EndsAs, TurnGoes};
ghost use Rattle.proxy_server.specs.Serving.{Entry, IsRising};
ghost use Rattle.proxy_server.specs.Steps.{AreGood};
ghost use Rattle.proxy_server.specs.Calling.{piece_length, LinkRose};

use crate::judges::Judges;
use crate::server::Limits;
use crate::turn_end::Turn;
use crate::turning::turn_with;
use gate_base::OutOfMemory;
use gate_hub::{Hub, Side};
use session_core::{Judge, Notes, Outcome, Session};
use std::alloc::Global;
use std::marker::Model;

/// A session that was announced and has not ended, with its number at the hub.
#[derive(Drop)]
pub struct OpenSession<J: Judge> {
    number: u64,
    session: Session<J>,
}

impl<J: Judge> Model for OpenSession<J> {
    ghost use Rattle.proxy_server.specs.Serving.{Entry};

    ghost Value = { Entry J };

    ghost view = { λ o. record { number = o.number; session = o.session } };
}

impl<J: Judge> OpenSession<J> {
    pub fn new(number: u64, session: Session<J>) -> OpenSession<J>
        ensures { result ≡ record { number = number; session = session } }
    {
        OpenSession { number, session }
    }

    pub fn number(&self) -> u64
        ensures { result ≡ self.now.number }
    {
        self.number
    }

    /// One turn of the session, with a piece for what is read.
    pub fn turn<H: Hub, N: Notes>(&mut self, hub: &mut H, piece: &mut [u8], notes: &mut N) -> Turn
        requires { length piece.old ≡ piece_length }
        ensures turned { TurnGoes J.rules self.old.number (N.tells notes.old notes.new)
            (H.tells hub.old) self.old.session (H.tells hub.new) self.new.session result }
        ensures number { self.new.number ≡ self.old.number }
        ensures ending { EndsAs self.new.session.outcome result }
        ensures same { IsSame J self.old.session self.new.session }
        ensures holds { HoldsWithin self.new.session }
        ensures later { Later (H.counts hub.old) (H.counts hub.new) }
        ensures kept { H.kept hub.new ≡ H.kept hub.old }
        ensures cause { (side : Side) → result ≡ Turn.Ended (Outcome.LinkFault side) →
            LinkRose (H.counts hub.old) (H.counts hub.new) self.old.number side }
        ensures piece { length piece.new ≡ piece_length }
    {
        turn_with(&mut self.session, hub, self.number, piece, notes)
    }
}

/// Opens a session. Want of memory is the one error.
pub fn open_session<J: Judge, P: Judges<J>>(
    alloc: Global,
    judges: &P,
    limits: Limits,
) -> Result<Session<J>, OutOfMemory>
    requires { AreGood limits (P.longest judges.now) }
    ensures given { IfOk result (λ s. (J.rules s.judge ≡ P.rules judges.now) × (s.limit ≡ limits.frame) × (s.max_calls ≡ limits.calls)) }
    ensures matches { IfOk result (λ s. Matches J J.rules s [] nothing) }
    ensures going { IfOk result (λ s. s.outcome ≡ None) }
    ensures rooms { IfOk result (λ s. s.rooms ≡ rooms_for limits.frame limits.calls) }
    ensures holds { IfOk result (λ s. HoldsWithin s) }
{
    let judge = judges.open(alloc)?;
    Session::open(alloc, judge, limits.frame, limits.calls)
}

/// The place of session `number`.
pub fn find<J: Judge>(held: &[OpenSession<J>], number: u64) -> Option<usize>
    ensures within { IfSome result (λ at. at < length held.now) }
    ensures found { IfSome result (λ at. (e : Entry J) × (slice_get held.now at ≡ Some e) × (e.number ≡ number)) }
    ensures none { result ≡ None → IsRising held.now → (i : ℕ) (e : Entry J) → slice_get held.now i ≡ Some e → e.number ≡ number → ⊥ }
{
    let mut low = 0;
    let mut high = held.len();
    while low < high {
        let middle = low + (high - low) / 2;
        let at = held[middle].number();
        if at == number {
            return Some(middle);
        }
        if at < number {
            low = middle + 1;
        } else {
            high = middle;
        }
    }
    None
}
