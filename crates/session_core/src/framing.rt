//! Verdicts with their output in a frame.
ghost use Rattle.std.specs.Prelude.{◌≡◌, ◌^◌, ◌<◌, ◌≤◌, [], length, true, false, None, IfSome};
ghost use Rattle.framed_transport.specs.Frames.{framed};
ghost use Rattle.session_core.specs.Quick.{seen_as};
ghost use Rattle.session_core.specs.Rooms.{due_room};

use crate::judge::{Call, CallLook, ClientJudged, Judge, UpstreamJudged};
use framed_transport::{begin, close};
use gate_io::Out;
use translate_verdicts::Cause;

/// Takes a quick look at a frame of the client, and leaves what goes to the upstream as a frame where it is passed.
#[inline(always)]
pub fn pass_call<J: Judge>(judge: &mut J, frame: &[u8], out: &mut Out) -> CallLook
    requires fits { length frame.now ≤ J.longest judge.old }
    requires empty { out.old.bytes ≡ [] }
    requires room { due_room (length frame.now) ≤ out.old.room }
    requires small { out.old.room < 2 ^ 31 }
    ensures same { judge.new ≡ judge.old }
    ensures verdict { IfSome (seen_as result) (λ judged. judged ≡ (J.rules judge.old).judged frame.now) }
    ensures out { IfSome (seen_as result) (λ judged. out.new ≡ record { bytes = framed ((J.rules judge.old).output frame.now); room = out.old.room }) }
    ensures left { result ≡ CallLook.Nothing → out.new ≡ out.old }
    ensures within { length out.new.bytes ≤ out.new.room }
{
    let at = begin(out);
    match judge.pass_call(frame, out) {
        CallLook::Nothing => {
            out.cut(at);
            CallLook::Nothing
        }
        CallLook::Opens(call) => {
            close(out, at);
            CallLook::Opens(call)
        }
        CallLook::Goes => {
            close(out, at);
            CallLook::Goes
        }
    }
}

/// Judges a frame of the client, and leaves what it writes as a frame.
pub fn judge_client<J: Judge>(judge: &mut J, frame: &[u8], out: &mut Out) -> ClientJudged
    requires fits { length frame.now ≤ J.longest judge.old }
    requires empty { out.old.bytes ≡ [] }
    requires room { due_room (length frame.now) ≤ out.old.room }
    requires small { out.old.room < 2 ^ 31 }
    ensures same { judge.new ≡ judge.old }
    ensures verdict { result ≡ (J.rules judge.old).judged frame.now }
    ensures out { out.new ≡ record { bytes = framed ((J.rules judge.old).output frame.now); room = out.old.room } }
    ensures within { length out.new.bytes ≤ out.new.room }
{
    let at = begin(out);
    let judged = judge.client(frame, out);
    close(out, at);
    judged
}

/// Answers a refused call in a frame.
pub fn answer_call<J: Judge>(judge: &mut J, frame: &[u8], cause: Cause, out: &mut Out)
    requires fits { length frame.now ≤ J.longest judge.old }
    requires refused { (J.rules judge.old).judged frame.now ≡ ClientJudged.Refused cause }
    requires empty { out.old.bytes ≡ [] }
    requires room { due_room (length frame.now) ≤ out.old.room }
    requires small { out.old.room < 2 ^ 31 }
    ensures same { judge.new ≡ judge.old }
    ensures out { out.new ≡ record { bytes = framed ((J.rules judge.old).answer frame.now); room = out.old.room } }
    ensures within { length out.new.bytes ≤ out.new.room }
{
    let at = begin(out);
    judge.answer(frame, cause, out);
    close(out, at);
}

/// Whether a quick look tells that a frame of the upstream passes as a reply, and leaves what goes to the client as a frame.
#[inline(always)]
pub fn pass_reply<J: Judge>(judge: &mut J, call: Call, frame: &[u8], out: &mut Out) -> bool
    requires fits { length frame.now ≤ J.longest judge.old }
    requires empty { out.old.bytes ≡ [] }
    requires room { due_room (length frame.now) ≤ out.old.room }
    requires small { out.old.room < 2 ^ 31 }
    ensures same { judge.new ≡ judge.old }
    ensures verdict { result ≡ true → (J.rules judge.old).replied call frame.now ≡ UpstreamJudged.Answers None }
    ensures out { result ≡ true → out.new ≡ record { bytes = framed ((J.rules judge.old).reply call frame.now); room = out.old.room } }
    ensures left { result ≡ false → out.new ≡ out.old }
    ensures within { length out.new.bytes ≤ out.new.room }
{
    let at = begin(out);
    if judge.pass_reply(call, frame, out) {
        close(out, at);
        return true;
    }
    out.cut(at);
    false
}

/// Judges a frame of the upstream, and leaves what it writes as a frame.
pub fn judge_upstream<J: Judge>(
    judge: &mut J,
    call: Call,
    frame: &[u8],
    out: &mut Out,
) -> UpstreamJudged
    requires fits { length frame.now ≤ J.longest judge.old }
    requires empty { out.old.bytes ≡ [] }
    requires room { due_room (length frame.now) ≤ out.old.room }
    requires small { out.old.room < 2 ^ 31 }
    ensures same { judge.new ≡ judge.old }
    ensures verdict { result ≡ (J.rules judge.old).replied call frame.now }
    ensures out { out.new ≡ record { bytes = framed ((J.rules judge.old).reply call frame.now); room = out.old.room } }
    ensures within { length out.new.bytes ≤ out.new.room }
{
    let at = begin(out);
    let judged = judge.upstream(call, frame, out);
    close(out, at);
    judged
}
