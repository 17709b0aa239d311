//! What becomes of a frame of the upstream.
ghost use Rattle.std.specs.Prelude.{◌≡◌, ◌+◌, ◌^◌, ◌<◌, ◌≤◌, ◌++◌, Some, None, length, take, drop, true, false};
ghost use Rattle.translate_verdicts.specs.Routes.{IsKnownRoute};
ghost use Rattle.protocol_pairs.specs.Pairs.{judged, answered};
ghost use Rattle.protocol_traits.specs.Room.{room_for};
ghost use Rattle.session_judge.specs.Upstream.{back, expected, of_type, of_upstream, reply_bytes, reply_verdict};
ghost use Rattle.session_judge.specs.declared.replies.ReplySeen.{ReplySeen};
ghost use Rattle.session_judge.specs.Quick.{upstream_told, PassedBack};

use gate_io::Out;
use protocol_pairs::{answer, translate_by_events, translate_quickly};
use protocol_traits::{Head, Proto};
use session_core::{Halt, UpstreamJudged};
use thrift_value::MessageType;
use translate_known::{Habit, Outcome};
use translate_verdicts::{Cause, HeadInfo, Route, Verdict};
use type_tables::{Schema, StructId};

/// What the quick way tells of a frame of the upstream: what a session asks of it and no more.
#[derive(Clone, Copy)]
pub enum ReplySeen {
    /// The quick way didn't take it.
    Nothing,
    /// It answers its call.
    Answers,
    /// No upstream sends it.
    WrongWay,
}

impl Outcome for ReplySeen {
    ghost fails = { λ seen. seen ≡ ReplySeen.Nothing };

    ghost passes = { λ seen old new j. PassedBack seen old new j };

    #[inline(always)]
    fn left() -> Self {
        ReplySeen::Nothing
    }

    #[inline(always)]
    fn is_left(self) -> bool {
        matches!(self, ReplySeen::Nothing)
    }

    #[inline(always)]
    fn passed(info: HeadInfo) -> Self {
        seen_of(info.mtype)
    }

    #[inline(always)]
    #[tactic(auto, unfolding(translate_verdicts::specs::Routes::info_of))]
    fn passed_by(_schema: &Schema, _route: Route, head: &Head<'_>) -> Self {
        seen_of(head.mtype)
    }
}

/// What is seen of a message of this type that passed.
#[inline(always)]
fn seen_of(mtype: MessageType) -> ReplySeen
    ensures { upstream_told result ≡ Some (of_type mtype None) }
{
    match mtype {
        MessageType::Reply | MessageType::Exception => ReplySeen::Answers,
        MessageType::Call | MessageType::Oneway => ReplySeen::WrongWay,
    }
}

/// Whether a quick look passes a frame of the upstream as the reply of this struct: then what goes to the client is appended.
///
/// A call, which no upstream sends, is gone through like a reply, and what was written of it is let go. `habit` is kept from
/// reply to reply.
#[inline(always)]
pub fn pass_reply(
    schema: &Schema,
    reply: Option<StructId>,
    from: Proto,
    to: Proto,
    frame: &[u8],
    room: &mut [u8],
    habit: &mut Habit,
    out: &mut Out,
) -> bool
    requires room { length frame.now ≤ length room.old }
    requires size { length frame.now < 2 ^ 31 }
    requires fits { length out.old.bytes + room_for (length frame.now) ≤ out.old.room }
    ensures verdict { result ≡ true → reply_verdict schema.now reply from to frame.now ≡ UpstreamJudged.Answers None }
    ensures out { result ≡ true → out.new ≡ record out.old { bytes = out.old.bytes ++ reply_bytes schema.now reply from to frame.now } }
    ensures left { result ≡ false → out.new ≡ out.old }
    ensures within { length out.new.bytes ≤ out.new.room }
{
    let start = out.bytes().len();
    let route = Route::Answer(expected(schema, reply));
    match translate_quickly::<ReplySeen>(schema, route, from, to, frame, room, habit, out) {
        ReplySeen::Answers => true,
        ReplySeen::WrongWay => {
            out.cut(start);
            false
        }
        ReplySeen::Nothing => false,
    }
}

/// Judges a frame of the upstream as the reply of this struct, and appends what goes to the client.
#[inline(always)]
pub fn judge_reply(
    schema: &Schema,
    reply: Option<StructId>,
    from: Proto,
    to: Proto,
    frame: &[u8],
    room: &mut [u8],
    habit: &mut Habit,
    out: &mut Out,
) -> UpstreamJudged
    requires room { length frame.now ≤ length room.old }
    requires size { length frame.now < 2 ^ 31 }
    requires fits { length out.old.bytes + room_for (length frame.now) ≤ out.old.room }
    ensures verdict { result ≡ reply_verdict schema.now reply from to frame.now }
    ensures out { out.new ≡ record out.old { bytes = out.old.bytes ++ reply_bytes schema.now reply from to frame.now } }
    ensures within { length out.new.bytes ≤ out.new.room }
{
    if pass_reply(schema, reply, from, to, frame, room, habit, out) {
        return UpstreamJudged::Answers(None);
    }
    judge_by_events(schema, reply, from, to, frame, room, out)
}

/// The same for a frame that the quick way didn't take.
#[inline(never)]
pub fn judge_by_events(
    schema: &Schema,
    reply: Option<StructId>,
    from: Proto,
    to: Proto,
    frame: &[u8],
    room: &mut [u8],
    out: &mut Out,
) -> UpstreamJudged
    requires room { length frame.now ≤ length room.old }
    requires size { length frame.now < 2 ^ 31 }
    requires fits { length out.old.bytes + room_for (length frame.now) ≤ out.old.room }
    ensures verdict { result ≡ reply_verdict schema.now reply from to frame.now }
    ensures out { out.new ≡ record out.old { bytes = out.old.bytes ++ reply_bytes schema.now reply from to frame.now } }
    ensures within { length out.new.bytes ≤ out.new.room }
{
    let start = out.bytes().len();
    let answer_of = Route::Answer(expected(schema, reply));
    match translate_by_events(schema, answer_of, from, to, frame, room, out) {
        Verdict::Passed(info) => {
            let judged = of_type(info.mtype, None);
            keep(judged, start, out);
            judged
        }
        Verdict::Refused(info, cause) => {
            let judged = of_type(info.mtype, Some(cause));
            answer_refused(judged, from, to, frame, room, cause, out);
            judged
        }
        Verdict::Unread(fault) => UpstreamJudged::Halts(Halt::Unread(fault)),
    }
}

/// The struct that a reply is expected to be, where the schema has it.
fn expected(schema: &Schema, reply: Option<StructId>) -> Option<StructId>
    ensures value { result ≡ expected schema.now reply }
    ensures known { IsKnownRoute schema.now (Route.Answer result) }
{
    match reply {
        Some(reply) if schema.has_struct(reply) => Some(reply),
        _ => None,
    }
}

fn of_type(mtype: MessageType, refused: Option<Cause>) -> UpstreamJudged
    ensures { result ≡ of_type mtype refused }
{
    match mtype {
        MessageType::Reply | MessageType::Exception => UpstreamJudged::Answers(refused),
        MessageType::Call | MessageType::Oneway => UpstreamJudged::Halts(Halt::WrongWay),
    }
}

/// Keeps what was written behind `start` only where it answers its call.
fn keep(judged: UpstreamJudged, start: usize, out: &mut Out)
    requires { start ≤ length out.old.bytes }
    ensures { out.new ≡ record out.old { bytes = take start out.old.bytes ++ back judged (drop start out.old.bytes) } }
{
    match judged {
        UpstreamJudged::Answers(_) => {}
        UpstreamJudged::Halts(_) => out.cut(start),
    }
}

/// Appends what tells that a reply is refused, where the message is one.
fn answer_refused(
    judged: UpstreamJudged,
    from: Proto,
    to: Proto,
    frame: &[u8],
    room: &mut [u8],
    cause: Cause,
    out: &mut Out,
)
    requires room { length frame.now ≤ length room.old }
    requires size { length frame.now < 2 ^ 31 }
    requires fits { length out.old.bytes + room_for (length frame.now) ≤ out.old.room }
    ensures out { out.new ≡ record out.old { bytes = out.old.bytes ++ back judged (answered from to frame.now cause) } }
    ensures short { length out.new.bytes ≤ length out.old.bytes + room_for (length frame.now) }
{
    match judged {
        UpstreamJudged::Answers(_) => answer(from, to, frame, room, &cause, out),
        UpstreamJudged::Halts(_) => {}
    }
}
