//! The judge of a router's frames: between two protocols, and to which target a message goes.
ghost use Rattle.std.specs.Prelude.{◌≡◌, ◌+◌, ◌^◌, ◌<◌, ◌≤◌, [], ◌++◌, length, take, drop, true, Some, IfOk};
ghost use Rattle.framed_transport.specs.Frames.{framed};
ghost use Rattle.protocol_traits.specs.Room.{room_for};
ghost use Rattle.session_core.specs.Rooms.{due_room};
ghost use Rattle.session_judge.specs.Client.{of_client, onward};
ghost use Rattle.service_router.specs.Routing.{server_of};
ghost use Rattle.service_router.specs.Setups.{routing_of};
ghost use Rattle.service_router.specs.Judging.{rules_of, asked, target_in, goes_on, unserved, by_target, judged_client, output_of};

use framed_transport::{begin, close};
use gate_base::OutOfMemory;
use gate_fan::Target;
use gate_io::Out;
use protocol_pairs::{answer, served, translate_method};
use protocol_traits::Proto;
use session_core::{Call, ClientJudged, UpstreamJudged};
use session_judge::{Setup, judge_reply, of_client};
use std::alloc::Global;
use std::marker::Model;
use translate_known::Habit;
use translate_methods::Services;
use translate_verdicts::{Cause, Route};
use type_tables::Schema;

/// Whoever judges the frames of one routed connection. It takes no memory but in `open`.
#[derive(Drop)]
pub struct RouteJudge<'s> {
    schema: &'s Schema,
    client: Proto,
    upstream: Proto,
    targets: &'s [Target],
    /// The readers' room, whose cells are made as frames need them.
    room: Out,
    /// What the targets' messages asked for of late.
    replies: Habit,
}

impl<'s> Model for RouteJudge<'s> {
    ghost use Rattle.std.specs.Prelude.{◌<◌, ◌^◌};
    ghost use Rattle.service_router.specs.Routing.{Routing};

    ghost Value = { Routing };

    ghost view = { λ j. record { declarations = j.schema.now; client = j.client; upstream = j.upstream; targets = j.targets.now; longest = j.room.room } };

    ghost invariant = { λ j. j.room.room < 2 ^ 31 };
}

/// The verdict on a frame of the client, and the target that it goes to, from 0, where it is passed.
#[derive(Clone, Copy)]
pub struct Routed {
    pub judged: ClientJudged,
    pub target: usize,
}

/// Which target serves a service.
#[derive(Clone, Copy)]
struct Servers<'s> {
    targets: &'s [Target],
}

impl Services for Servers<'_> {
    ghost serves = { λ s. server_of s.targets.now };

    fn target(&self, service: &[u8]) -> Option<usize> {
        self.targets
            .iter()
            .position(|target| target.service.as_slice() == service)
    }
}

impl<'s> RouteJudge<'s> {
    /// Takes the judge's room, as many bytes as the longest frame has. Want of memory is the one error.
    pub fn open(
        alloc: Global,
        setup: &Setup<'s>,
        targets: &'s [Target],
    ) -> Result<RouteJudge<'s>, OutOfMemory>
        requires { setup.now.limit < 2 ^ 31 }
        ensures { IfOk result (λ j. j ≡ routing_of setup.now targets.now) }
    {
        Ok(RouteJudge {
            schema: setup.schema,
            client: setup.client,
            upstream: setup.upstream,
            targets,
            room: Out::open(alloc, setup.limit)?,
            replies: Habit::new(),
        })
    }

    /// Judges a frame of the client, and leaves what goes to its target as a frame.
    #[tactic(auto, unfolding(crate::specs::Judging::rules_of))]
    pub fn client(&mut self, frame: &[u8], out: &mut Out) -> Routed
        requires fits { length frame.now ≤ self.old.longest }
        requires empty { out.old.bytes ≡ [] }
        requires room { due_room (length frame.now) ≤ out.old.room }
        requires small { out.old.room < 2 ^ 31 }
        ensures same { self.new ≡ self.old }
        ensures verdict { result.judged ≡ (rules_of self.old).judging.judged frame.now }
        ensures target { goes_on result.judged ≡ true → result.target ≡ (rules_of self.old).target frame.now }
        ensures known { goes_on result.judged ≡ true → result.target < length self.old.targets }
        ensures out { out.new ≡ record { bytes = framed ((rules_of self.old).judging.output frame.now); room = out.old.room } }
        ensures within { length out.new.bytes ≤ out.new.room }
    {
        let at = begin(out);
        let routed = self.route(frame, out);
        close(out, at);
        routed
    }

    /// Judges a frame of the client, and appends what goes to its target.
    fn route(&mut self, frame: &[u8], out: &mut Out) -> Routed
        requires fits { length frame.now ≤ self.old.longest }
        requires room { length out.old.bytes + room_for (length frame.now) ≤ out.old.room }
        ensures same { self.new ≡ self.old }
        ensures verdict { result.judged ≡ judged_client self.old frame.now }
        ensures target { goes_on result.judged ≡ true → target_in self.old frame.now ≡ Some result.target }
        ensures known { goes_on result.judged ≡ true → result.target < length self.old.targets }
        ensures out { out.new ≡ record out.old { bytes = out.old.bytes ++ output_of self.old frame.now } }
        ensures within { length out.new.bytes ≤ out.new.room }
    {
        let start = out.bytes().len();
        let judged = self.translate(frame, out);
        let routed = self.lead(judged, frame);
        keep(&routed.judged, start, out);
        routed
    }

    /// Judges a frame of the client as a session does, and appends its translation where the message passes.
    fn translate(&mut self, frame: &[u8], out: &mut Out) -> ClientJudged
        requires fits { length frame.now ≤ self.old.longest }
        requires room { length out.old.bytes + room_for (length frame.now) ≤ out.old.room }
        ensures same { self.new ≡ self.old }
        ensures verdict { result ≡ of_client (asked self.old frame.now).verdict }
        ensures out { out.new ≡ record out.old { bytes = out.old.bytes ++ (asked self.old frame.now).bytes } }
        ensures within { length out.new.bytes ≤ out.new.room }
    {
        let (from, to) = (self.client, self.upstream);
        self.room.cut(0);
        let room = self.room.tail(frame.len());
        let route = Route::ByName(None);
        of_client(&translate_method(self.schema, route, from, to, frame, room, out))
    }

    /// Leads a message that was passed to its target: what no target serves is refused or dropped.
    fn lead(&mut self, judged: ClientJudged, frame: &[u8]) -> Routed
        requires fits { length frame.now ≤ self.old.longest }
        ensures same { self.new ≡ self.old }
        ensures verdict { result.judged ≡ by_target (target_in self.old frame.now) judged }
        ensures target { goes_on result.judged ≡ true → target_in self.old frame.now ≡ Some result.target }
        ensures known { goes_on result.judged ≡ true → result.target < length self.old.targets }
    {
        let servers = Servers {
            targets: self.targets,
        };
        let from = self.client;
        self.room.cut(0);
        let room = self.room.tail(frame.len());
        match served(&servers, from, frame, room) {
            Some(target) => Routed { judged, target },
            None => Routed {
                judged: unserved(judged),
                target: 0,
            },
        }
    }

    /// Answers a refused call in a frame.
    #[tactic(auto, unfolding(crate::specs::Judging::rules_of))]
    pub fn answer(&mut self, frame: &[u8], cause: Cause, out: &mut Out)
        requires fits { length frame.now ≤ self.old.longest }
        requires refused { (rules_of self.old).judging.judged frame.now ≡ ClientJudged.Refused cause }
        requires empty { out.old.bytes ≡ [] }
        requires room { due_room (length frame.now) ≤ out.old.room }
        requires small { out.old.room < 2 ^ 31 }
        ensures same { self.new ≡ self.old }
        ensures out { out.new ≡ record { bytes = framed ((rules_of self.old).judging.answer frame.now); room = out.old.room } }
        ensures within { length out.new.bytes ≤ out.new.room }
    {
        let at = begin(out);
        let own = self.client;
        self.room.cut(0);
        let room = self.room.tail(frame.len());
        answer(own, own, frame, room, &cause, out);
        close(out, at);
    }

    /// Judges a frame of a target as the answer to a call, and leaves what goes to the client as a frame.
    #[tactic(auto, unfolding(crate::specs::Judging::rules_of))]
    pub fn upstream(&mut self, call: Call, frame: &[u8], out: &mut Out) -> UpstreamJudged
        requires fits { length frame.now ≤ self.old.longest }
        requires empty { out.old.bytes ≡ [] }
        requires room { due_room (length frame.now) ≤ out.old.room }
        requires small { out.old.room < 2 ^ 31 }
        ensures same { self.new ≡ self.old }
        ensures verdict { result ≡ (rules_of self.old).judging.replied call frame.now }
        ensures out { out.new ≡ record { bytes = framed ((rules_of self.old).judging.reply call frame.now); room = out.old.room } }
        ensures within { length out.new.bytes ≤ out.new.room }
    {
        let at = begin(out);
        let (from, to) = (self.upstream, self.client);
        self.room.cut(0);
        let room = self.room.tail(frame.len());
        let judged = judge_reply(
            self.schema,
            call.result,
            from,
            to,
            frame,
            room,
            &mut self.replies,
            out,
        );
        close(out, at);
        judged
    }
}

/// What no target serves: a call is refused, and what waits for no answer is dropped.
fn unserved(judged: ClientJudged) -> ClientJudged
    ensures { result ≡ unserved judged }
{
    match judged {
        ClientJudged::Opens(_) => ClientJudged::Refused(Cause::NoRoute),
        ClientJudged::Goes => ClientJudged::Dropped(Cause::NoRoute),
        ClientJudged::Halts(_) | ClientJudged::Refused(_) | ClientJudged::Dropped(_) => judged,
    }
}

/// Keeps what was written behind `start` only where the message goes on.
fn keep(judged: &ClientJudged, start: usize, out: &mut Out)
    requires { start ≤ length out.old.bytes }
    ensures { out.new ≡ record out.old { bytes = take start out.old.bytes ++ onward judged.now (drop start out.old.bytes) } }
{
    match judged {
        ClientJudged::Opens(_) | ClientJudged::Goes => {}
        _ => out.cut(start),
    }
}
