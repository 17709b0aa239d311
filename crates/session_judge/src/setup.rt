//! What a session is opened with.
ghost use Rattle.std.specs.Prelude.{◌≡◌, ◌^◌, ◌<◌, ◌≤◌, [], IfOk, IfSome, length};
ghost use Rattle.session_core.specs.Standing.{nothing};
ghost use Rattle.session_core.specs.Telling.{FitsTold};
ghost use Rattle.session_core.specs.Ends.{IsAtRest};
ghost use Rattle.session_core.specs.Session.{HoldsWithin, rooms_for};
ghost use Rattle.session_judge.specs.Rules.{rules_of};
ghost use Rattle.session_judge.specs.Setups.{setting_of};

use crate::pair::PairJudge;
use gate_base::OutOfMemory;
use protocol_traits::Proto;
use session_core::{MOST_CALLS, Session};
use std::alloc::Global;
use type_tables::{Schema, ServiceId};

/// What a session is opened with.
#[derive(Clone, Copy)]
pub struct Setup<'s> {
    /// What is declared for the messages.
    pub schema: &'s Schema,
    /// The service of the schema that names without a service before them mean.
    pub service: Option<ServiceId>,
    /// The protocol of the client.
    pub client: Proto,
    /// The protocol of the upstream.
    pub upstream: Proto,
    /// The most bytes of a frame.
    pub limit: usize,
    /// How many calls may be open.
    pub calls: usize,
}

/// Takes all the memory of a session, its judge's room among it.
///
/// The limit is below 2^24, and 1 to 65,536 calls may be open. Want of memory is the one error.
pub fn open<'s>(alloc: Global, setup: &Setup<'s>) -> Result<Session<PairJudge<'s>>, OutOfMemory>
    requires limit { setup.now.limit < 2 ^ 24 }
    requires some { 0 < setup.now.calls }
    requires few { setup.now.calls ≤ MOST_CALLS }
    requires service { IfSome setup.now.service (λ s. s.0 < length setup.now.schema.now.services) }
    ensures given { IfOk result (λ s. (s.judge ≡ setting_of setup.now) × (s.limit ≡ setup.now.limit) × (s.max_calls ≡ setup.now.calls)) }
    ensures fits { IfOk result (λ s. FitsTold (rules_of (setting_of setup.now)) setup.now.limit setup.now.calls nothing [] s.standing) }
    ensures rest { IfOk result (λ s. IsAtRest (rules_of (setting_of setup.now)) setup.now.limit setup.now.calls s.standing s.outcome) }
    ensures rooms { IfOk result (λ s. s.rooms ≡ rooms_for setup.now.limit setup.now.calls) }
    ensures holds { IfOk result (λ s. HoldsWithin s) }
{
    let judge = PairJudge::open(alloc, setup)?;
    Session::open(alloc, judge, setup.limit, setup.calls)
}
