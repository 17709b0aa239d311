//! What becomes of a frame of the client.
ghost use Rattle.std.specs.Prelude.{◌≡◌, ◌+◌, ◌^◌, ◌<◌, ◌≤◌, ◌++◌, Option, Some, length, take, drop, IfSome};
ghost use Rattle.protocol_traits.specs.Room.{room_for};
ghost use Rattle.type_tables.specs.declared.declared.MethodInfo.{MethodInfo};
ghost use Rattle.session_core.specs.Quick.{seen_as};
ghost use Rattle.session_judge.specs.Client.{call_bytes, call_of, call_verdict, is_answered, of_client, onward, passed_on, refused};
ghost use Rattle.session_judge.specs.declared.calls.CallSeen.{CallSeen};
ghost use Rattle.session_judge.specs.Quick.{client_told, PassedOn};

use gate_io::Out;
use protocol_pairs::{translate_by_events, translate_quickly};
use protocol_traits::{Head, Proto};
use session_core::{Call, CallLook, ClientJudged, Halt};
use thrift_value::MessageType;
use translate_known::{Habit, Outcome};
use translate_verdicts::{Cause, HeadInfo, Route, Verdict, told_of};
use type_tables::{MethodInfo, Schema, ServiceId, StructId};

/// What the quick way tells of a frame of the client: what a session asks of it and no more, so that it is handed on in
/// registers.
#[derive(Clone, Copy)]
pub enum CallSeen {
    /// The quick way didn't take it.
    Nothing,
    /// A call that is answered by this struct.
    Known(StructId),
    /// A call of a method that isn't known.
    Unknown,
    /// It is passed, and nothing comes back.
    Goes,
    /// No client sends it.
    WrongWay,
}

impl Outcome for CallSeen {
    ghost fails = { λ seen. seen ≡ CallSeen.Nothing };

    ghost passes = { λ seen old new j. PassedOn seen old new j };

    #[inline(always)]
    fn left() -> Self {
        CallSeen::Nothing
    }

    #[inline(always)]
    fn is_left(self) -> bool {
        matches!(self, CallSeen::Nothing)
    }

    #[inline(always)]
    fn passed(info: HeadInfo) -> Self {
        seen_of(info.method, info.mtype)
    }

    #[inline(always)]
    #[tactic(auto, unfolding(translate_verdicts::specs::Routes::info_of))]
    fn passed_by(schema: &Schema, route: Route, head: &Head<'_>) -> Self {
        match head.mtype {
            MessageType::Call => call_seen(told_of(schema, route, head).info.method),
            other => other_seen(other),
        }
    }
}

/// What is seen of a message that passed.
#[inline(always)]
fn seen_of(method: Option<MethodInfo>, mtype: MessageType) -> CallSeen
    ensures { client_told result ≡ Some (passed_on method mtype) }
{
    match mtype {
        MessageType::Call => call_seen(method),
        other => other_seen(other),
    }
}

/// What is seen of a message of this type that is no call, whatever its method is.
#[cold]
#[inline(never)]
fn other_seen(mtype: MessageType) -> CallSeen
    requires { mtype ≡ MessageType.Call → ⊥ }
    ensures { (method : Option MethodInfo) → client_told result ≡ Some (passed_on method mtype) }
{
    match mtype {
        MessageType::Oneway => CallSeen::Goes,
        _ => CallSeen::WrongWay,
    }
}

/// What is seen of a call of this method.
#[inline(always)]
fn call_seen(method: Option<MethodInfo>) -> CallSeen
    ensures { client_told result ≡ Some (passed_on method MessageType.Call) }
{
    match method {
        Some(method) if method.oneway => CallSeen::Goes,
        Some(method) => CallSeen::Known(method.result),
        None => CallSeen::Unknown,
    }
}

/// Takes a quick look at a frame of the client, and appends what goes to the upstream where it is passed.
///
/// A reply or an exception, which no client sends, is gone through like a call, and what was written of it is let go: it ends
/// the session, and calls, which come by the million, have their header read once. `habit` is kept from call to call.
#[inline(always)]
pub fn pass_call(
    schema: &Schema,
    service: Option<ServiceId>,
    from: Proto,
    to: Proto,
    frame: &[u8],
    room: &mut [u8],
    habit: &mut Habit,
    out: &mut Out,
) -> CallLook
    requires service { IfSome service (λ s. s.0 < length schema.now.services) }
    requires room { length frame.now ≤ length room.old }
    requires size { length frame.now < 2 ^ 31 }
    requires fits { length out.old.bytes + room_for (length frame.now) ≤ out.old.room }
    ensures verdict { IfSome (seen_as result) (λ told. told ≡ call_verdict schema.now service from to frame.now) }
    ensures out { IfSome (seen_as result) (λ told. out.new ≡ record out.old { bytes = out.old.bytes ++ call_bytes schema.now service from to frame.now }) }
    ensures left { result ≡ CallLook.Nothing → out.new ≡ out.old }
    ensures within { length out.new.bytes ≤ out.new.room }
{
    let start = out.bytes().len();
    let route = Route::ByName(service);
    match translate_quickly::<CallSeen>(schema, route, from, to, frame, room, habit, out) {
        CallSeen::Known(reply) => CallLook::Opens(Call {
            result: Some(reply),
        }),
        CallSeen::Unknown => CallLook::Opens(Call { result: None }),
        CallSeen::Goes => CallLook::Goes,
        CallSeen::WrongWay => {
            out.cut(start);
            CallLook::Nothing
        }
        CallSeen::Nothing => CallLook::Nothing,
    }
}

/// Judges a frame of the client, and appends what goes to the upstream where it is passed.
#[inline(never)]
pub fn judge_client(
    schema: &Schema,
    service: Option<ServiceId>,
    from: Proto,
    to: Proto,
    frame: &[u8],
    room: &mut [u8],
    out: &mut Out,
) -> ClientJudged
    requires service { IfSome service (λ s. s.0 < length schema.now.services) }
    requires room { length frame.now ≤ length room.old }
    requires size { length frame.now < 2 ^ 31 }
    requires fits { length out.old.bytes + room_for (length frame.now) ≤ out.old.room }
    ensures verdict { result ≡ call_verdict schema.now service from to frame.now }
    ensures out { out.new ≡ record out.old { bytes = out.old.bytes ++ call_bytes schema.now service from to frame.now } }
    ensures within { length out.new.bytes ≤ out.new.room }
{
    let start = out.bytes().len();
    let by_name = Route::ByName(service);
    let verdict = translate_by_events(schema, by_name, from, to, frame, room, out);
    let judged = of_client(&verdict);
    keep(&judged, start, out);
    judged
}

/// What a verdict makes of a frame of the client.
pub fn of_client(verdict: &Verdict) -> ClientJudged
    ensures { result ≡ of_client verdict.now }
{
    match verdict {
        Verdict::Passed(info) => passed_on(info.method, info.mtype),
        Verdict::Refused(info, cause) => refused(info.method, *cause, info.mtype),
        Verdict::Unread(fault) => ClientJudged::Halts(Halt::Unread(*fault)),
    }
}

fn passed_on(method: Option<MethodInfo>, mtype: MessageType) -> ClientJudged
    ensures { result ≡ passed_on method mtype }
{
    match mtype {
        MessageType::Call if is_answered(method) => ClientJudged::Opens(call_of(method)),
        MessageType::Call | MessageType::Oneway => ClientJudged::Goes,
        MessageType::Reply | MessageType::Exception => ClientJudged::Halts(Halt::WrongWay),
    }
}

fn refused(method: Option<MethodInfo>, cause: Cause, mtype: MessageType) -> ClientJudged
    ensures { result ≡ refused method cause mtype }
{
    match mtype {
        MessageType::Call if is_answered(method) => ClientJudged::Refused(cause),
        MessageType::Call | MessageType::Oneway => ClientJudged::Dropped(cause),
        MessageType::Reply | MessageType::Exception => ClientJudged::Halts(Halt::WrongWay),
    }
}

/// Whether a call of this method is answered.
fn is_answered(method: Option<MethodInfo>) -> bool
    ensures { result ≡ is_answered method }
{
    match method {
        Some(method) => !method.oneway,
        None => true,
    }
}

fn call_of(method: Option<MethodInfo>) -> Call
    ensures { result ≡ call_of method }
{
    match method {
        Some(method) => Call {
            result: Some(method.result),
        },
        None => Call { result: None },
    }
}

/// Keeps what was written behind `start` only where the message goes on.
fn keep(judged: &ClientJudged, start: usize, out: &mut Out)
    requires { start ≤ length out.old.bytes }
    ensures { out.new ≡ record out.old { bytes = take start out.old.bytes ++ onward judged.now (drop start out.old.bytes) } }
{
    match judged {
        ClientJudged::Opens(_) | ClientJudged::Goes => {}
        _ => out.cut(start),
    }
}
