//! One frame of a stream: what is written or reported of it.
ghost use Rattle.std.specs.Prelude.{◌≡◌, ◌+◌, ◌^◌, ◌<◌, ◌≤◌, ℕ, IfErr, length};
ghost use Rattle.gate_base.specs.Causes.{Rose};
ghost use Rattle.gate_streams.specs.Handling.{treated};
ghost use Rattle.gate_streams.specs.Working.{HandlesOn, IsSettled, IsHandler, IsRoomy, HasRoom};

use crate::conform::conform_frame;
use crate::convert::convert_frame;
use crate::handler::Handler;
use crate::lines::{self, LINE_ROOM};
use crate::show::show_frame;
use crate::task::Task;
use gate_io::{Out, Sink};
use gate_start::Page;
use translate_verdicts::Cause;

/// What came of a frame that is converted or shown: what is written of it waits or was written, or it is refused, or the output failed.
#[derive(Clone, Copy)]
pub enum Treatment {
    Passed,
    Refused(Cause),
    WriteFault,
}

/// The output failed.
#[derive(Clone, Copy)]
pub struct WriteFault;

/// Gathers what is written of a frame on `page`, or its line in `lines`, and says whether it passed. Where `tried`, the quick
/// way of a conversion didn't pass it.
///
/// `WriteFault`: the output failed, and a front of what waited and of what is written of the frame was written.
pub fn handle<O: Sink>(
    task: &Task<'_>,
    handler: &mut Handler<'_>,
    frame: &[u8],
    tried: bool,
    number: u64,
    room: &mut [u8],
    page: &mut Page,
    lines: &mut Out,
    output: &mut O,
) -> Result<bool, WriteFault>
    requires handler { IsHandler task.now handler.old }
    requires room { length frame.now ≤ length room.old }
    requires size { length frame.now < 2 ^ 31 }
    requires fits { HasRoom task.now.doing (length frame.now) page.old.out }
    requires line { length lines.old.bytes + LINE_ROOM ≤ lines.old.room }
    ensures handled { HandlesOn O.Sink number result (treated task.now frame.now) output.old page.old lines.old output.new page.new lines.new }
    ensures handler { IsHandler task.now handler.new }
    ensures roomy { (limit : ℕ) → IsRoomy task.now.doing limit page.old.out.room → IsRoomy task.now.doing limit page.new.out.room }
    ensures lines_room { lines.new.room ≡ lines.old.room }
    ensures later { O.faults output.old ≤ O.faults output.new }
    ensures cause { IfErr result (λ failed. Rose (O.faults output.old) (O.faults output.new)) }
{
    match handler {
        Handler::Convert { from, to } => {
            let treatment = convert_frame(task, *from, *to, frame, tried, room, &mut page.out);
            settle(treatment, number, lines)
        }
        Handler::Show { from } => {
            let treatment = show_frame(task, *from, frame, room, page, output);
            settle(treatment, number, lines)
        }
        Handler::Conform(check) => {
            let page = &mut page.out;
            Ok(conform_frame(task, check, frame, number, room, page, lines))
        }
    }
}

// Reports why a frame didn't pass, and says whether it passed.
fn settle(treatment: Treatment, number: u64, lines: &mut Out) -> Result<bool, WriteFault>
    requires { length lines.old.bytes + LINE_ROOM ≤ lines.old.room }
    ensures handled { IsSettled treatment number result lines.old lines.new }
    ensures room { lines.new.room ≡ lines.old.room }
    ensures fault { IfErr result (λ failed. treatment ≡ Treatment.WriteFault) }
{
    match treatment {
        Treatment::Passed => Ok(true),
        Treatment::Refused(cause) => {
            lines::refusal(lines, number, cause.place(), cause.text());
            Ok(false)
        }
        Treatment::WriteFault => Err(WriteFault),
    }
}
