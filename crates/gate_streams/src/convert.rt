//! A frame that is converted: its message in the other protocol, in a frame or on a line of its own.
ghost use Rattle.std.specs.Prelude.{◌≡◌, ◌+◌, ◌^◌, ◌<◌, ◌≤◌, ◌++◌, Option, List, ℕ, true, false, length};
ghost use Rattle.translate_verdicts.specs.declared.verdict.HeadInfo.{HeadInfo};
ghost use Rattle.translate_verdicts.specs.declared.verdict.Verdict.TheVariants.{Passed};
ghost use Rattle.gate_streams.specs.Handling.{translated, sent_of};
ghost use Rattle.gate_streams.specs.Rooms.{framed_room};
ghost use Rattle.gate_streams.specs.Terms.{judged_by};
ghost use Rattle.gate_streams.specs.Working.{Treats};

use crate::frame::Treatment;
use crate::task::Task;
use gate_io::Out;
use line_transport::{begin, close};
use protocol_traits::Proto;
use translate_known::Habit;
use translate_verdicts::{Cause, Verdict};

/// Translates a frame to the end of `out`, or leaves `out` as it was. Where `tried`, the quick way didn't pass the frame and is
/// not gone again.
pub fn convert_frame(
    task: &Task<'_>,
    from: Proto,
    to: Proto,
    frame: &[u8],
    tried: bool,
    room: &mut [u8],
    out: &mut Out,
) -> Treatment
    requires room { length frame.now ≤ length room.old }
    requires size { length frame.now < 2 ^ 31 }
    requires fits { length out.old.bytes + framed_room (length frame.now) ≤ out.old.room }
    requires small { out.old.room < 2 ^ 31 }
    ensures treated { (w : Option (List ℕ)) → Treats result (translated task.now.output (judged_by task.now from to frame.now)) w out.old.bytes w out.new.bytes }
    ensures room { out.new.room ≡ out.old.room }
    ensures written { result ≡ Treatment.WriteFault → ⊥ }
{
    if !tried && pass_sent(task, from, to, frame, room, &mut Habit::new(), out) {
        return Treatment::Passed;
    }
    match translate_sent(task, from, to, frame, room, out) {
        Verdict::Passed(_) => Treatment::Passed,
        Verdict::Refused(_, cause) => Treatment::Refused(cause),
        Verdict::Unread(fault) => Treatment::Refused(Cause::Grammar(fault)),
    }
}

/// Appends what is to be sent of a frame that the quick way passes, with its length or an LF, and moves no verdict. False: the
/// output is as it was, which says nothing of the frame. `habit` is kept from frame to frame.
#[inline(always)]
pub fn pass_sent(
    task: &Task<'_>,
    from: Proto,
    to: Proto,
    frame: &[u8],
    room: &mut [u8],
    habit: &mut Habit,
    out: &mut Out,
) -> bool
    requires room { length frame.now ≤ length room.old }
    requires size { length frame.now < 2 ^ 31 }
    requires fits { length out.old.bytes + framed_room (length frame.now) ≤ out.old.room }
    requires small { out.old.room < 2 ^ 31 }
    ensures left { result ≡ false → out.new ≡ out.old }
    ensures room { out.new.room ≡ out.old.room }
    ensures passed { result ≡ true → (info : HeadInfo) × ((judged_by task.now from to frame.now).verdict ≡ Passed info) }
    ensures appended { result ≡ true → out.new.bytes ≡ out.old.bytes ++ sent_of task.now.output (judged_by task.now from to frame.now) }
{
    let transport = task.output();
    let begun = begin(transport, out);
    if task.passes(from, to, frame, room, habit, out) {
        let end = out.bytes().len();
        prove!(end < 1 << 31);
        close(transport, out, begun);
        return true;
    }
    out.cut(begun);
    false
}

// Appends what is to be sent of a frame, event by event, with its length or an LF, or nothing where it doesn't pass.
fn translate_sent(
    task: &Task<'_>,
    from: Proto,
    to: Proto,
    frame: &[u8],
    room: &mut [u8],
    out: &mut Out,
) -> Verdict
    requires room { length frame.now ≤ length room.old }
    requires size { length frame.now < 2 ^ 31 }
    requires fits { length out.old.bytes + framed_room (length frame.now) ≤ out.old.room }
    requires small { out.old.room < 2 ^ 31 }
    ensures verdict { result ≡ (judged_by task.now from to frame.now).verdict }
    ensures appended { out.new ≡ record out.old { bytes = out.old.bytes ++ sent_of task.now.output (judged_by task.now from to frame.now) } }
{
    let transport = task.output();
    let at = begin(transport, out);
    let verdict = task.translate(from, to, frame, room, out);
    match verdict {
        Verdict::Passed(_) => {
            let end = out.bytes().len();
            prove!(end < 1 << 31);
            close(transport, out, at);
        }
        _ => out.cut(at),
    }
    verdict
}
