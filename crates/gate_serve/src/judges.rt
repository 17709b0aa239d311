//! The judges of the sessions of a server.
ghost use Rattle.std.specs.Prelude.{◌≡◌, ◌<◌, ◌^◌, IfSome, length};
ghost use Rattle.session_judge.specs.Setups.{setting_of};

use gate_base::OutOfMemory;
use proxy_server::Judges;
use session_judge::{PairJudge, Setup};
use std::alloc::Global;
use std::marker::Model;

/// Makes a judge for each session of a server. All judge by one setting.
#[derive(Drop)]
pub struct PairJudges<'s> {
    setup: Setup<'s>,
}

/// Clauses see the setting.
impl<'s> Model for PairJudges<'s> {
    ghost use Rattle.std.specs.Prelude.{◌<◌, ◌^◌, IfSome, length};
    ghost use Rattle.session_judge.specs.Setting.{Setting};
    ghost use Rattle.session_judge.specs.Setups.{setting_of};

    ghost Value = { Setting };

    ghost view = { λ p. setting_of p.setup };

    ghost invariant = { λ p. (p.setup.limit < 2 ^ 31) × IfSome p.setup.service (λ s. s.0 < length p.setup.schema.now.services) };
}

impl<'s> PairJudges<'s> {
    /// The judges of sessions of this setup.
    pub fn new(setup: &Setup<'s>) -> PairJudges<'s>
        requires limit { setup.now.limit < 2 ^ 31 }
        requires service { IfSome setup.now.service (λ s. s.0 < length setup.now.schema.now.services) }
        ensures { result ≡ setting_of setup.now }
    {
        PairJudges { setup: *setup }
    }
}

impl<'s> Judges<PairJudge<'s>> for PairJudges<'s> {
    ghost use Rattle.session_judge.specs.Rules.{rules_of};

    ghost rules = { rules_of };

    ghost longest = { λ p. p.longest };

    fn open(&self, alloc: Global) -> Result<PairJudge<'s>, OutOfMemory> {
        PairJudge::open(alloc, &self.setup)
    }
}
