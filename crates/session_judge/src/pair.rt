//! The judge between two protocols.
ghost use Rattle.std.specs.Prelude.{◌≡◌, ◌^◌, ◌<◌, IfOk, IfSome, length};
ghost use Rattle.session_judge.specs.Setups.{setting_of};

use crate::calls::{judge_client, pass_call};
use crate::replies::{judge_by_events, pass_reply};
use crate::setup::Setup;
use gate_base::OutOfMemory;
use gate_io::Out;
use protocol_pairs::answer;
use protocol_traits::Proto;
use session_core::{Call, CallLook, ClientJudged, Judge, UpstreamJudged};
use std::alloc::Global;
use std::marker::Model;
use translate_known::Habit;
use translate_verdicts::Cause;
use type_tables::{Schema, ServiceId};

/// Whoever judges the frames of one session: it reads and writes by two protocols and by what a schema declares.
#[derive(Drop)]
pub struct PairJudge<'s> {
    schema: &'s Schema,
    service: Option<ServiceId>,
    client: Proto,
    upstream: Proto,
    /// The readers' room, whose cells are made as frames need them.
    room: Out,
    /// What the client's messages asked for of late.
    calls: Habit,
    /// What the upstream's did.
    replies: Habit,
}

/// Clauses see between whom the session goes.
impl<'s> Model for PairJudge<'s> {
    ghost use Rattle.std.specs.Prelude.{◌<◌, ◌^◌, IfSome, length};
    ghost use Rattle.session_judge.specs.Setting.{Setting};

    ghost Value = { Setting };

    ghost view = { λ j. record { declarations = j.schema.now; service = j.service; client = j.client; upstream = j.upstream; longest = j.room.room } };

    ghost invariant = { λ j. IfSome j.service (λ s. s.0 < length j.schema.now.services) × (j.room.room < 2 ^ 31) };
}

impl<'s> PairJudge<'s> {
    /// Takes the judge's room, as many bytes as the longest frame has. It isn't filled: what no frame needed is not touched.
    ///
    /// `OutOfMemory`: it was not found.
    pub fn open(alloc: Global, setup: &Setup<'s>) -> Result<PairJudge<'s>, OutOfMemory>
        requires limit { setup.now.limit < 2 ^ 31 }
        requires service { IfSome setup.now.service (λ s. s.0 < length setup.now.schema.now.services) }
        ensures { IfOk result (λ j. j ≡ setting_of setup.now) }
    {
        Ok(PairJudge {
            schema: setup.schema,
            service: setup.service,
            client: setup.client,
            upstream: setup.upstream,
            room: Out::open(alloc, setup.limit)?,
            calls: Habit::new(),
            replies: Habit::new(),
        })
    }
}

impl<'s> Judge for PairJudge<'s> {
    ghost use Rattle.session_judge.specs.Rules.{rules_of};

    ghost rules = { rules_of };

    ghost longest = { λ j. j.longest };

    #[inline(always)]
    fn pass_call(&mut self, frame: &[u8], out: &mut Out) -> CallLook {
        let (from, to) = (self.client, self.upstream);
        self.room.cut(0);
        let room = self.room.tail(frame.len());
        let habit = &mut self.calls;
        pass_call(self.schema, self.service, from, to, frame, room, habit, out)
    }

    fn client(&mut self, frame: &[u8], out: &mut Out) -> ClientJudged {
        let (from, to) = (self.client, self.upstream);
        self.room.cut(0);
        let room = self.room.tail(frame.len());
        judge_client(self.schema, self.service, from, to, frame, room, out)
    }

    fn answer(&mut self, frame: &[u8], cause: Cause, out: &mut Out) {
        let own = self.client;
        self.room.cut(0);
        let room = self.room.tail(frame.len());
        answer(own, own, frame, room, &cause, out);
    }

    #[inline(always)]
    fn pass_reply(&mut self, call: Call, frame: &[u8], out: &mut Out) -> bool {
        let (from, to) = (self.upstream, self.client);
        self.room.cut(0);
        let room = self.room.tail(frame.len());
        let habit = &mut self.replies;
        pass_reply(self.schema, call.result, from, to, frame, room, habit, out)
    }

    fn upstream(&mut self, call: Call, frame: &[u8], out: &mut Out) -> UpstreamJudged {
        let (from, to) = (self.upstream, self.client);
        self.room.cut(0);
        let room = self.room.tail(frame.len());
        judge_by_events(self.schema, call.result, from, to, frame, room, out)
    }
}
