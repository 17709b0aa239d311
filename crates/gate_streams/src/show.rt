//! A frame that is shown: the line of its message.
ghost use Rattle.std.specs.Prelude.{◌≡◌, ◌^◌, ◌<◌, ◌≤◌, length};
ghost use Rattle.gate_base.specs.Causes.{Rose};
ghost use Rattle.message_show.specs.Shown.{HasLine};
ghost use Rattle.gate_streams.specs.Handling.{as_line};
ghost use Rattle.gate_streams.specs.Terms.{shown_by};
ghost use Rattle.gate_streams.specs.Working.{TreatsOn};

use crate::frame::Treatment;
use crate::task::Task;
use gate_io::{Sink, Wrote};
use gate_start::Page;
use message_show::Shown;
use protocol_traits::Proto;
use translate_verdicts::Cause;

/// Shows a frame. A line that doesn't fit on the page goes to the output itself.
pub fn show_frame<O: Sink>(
    task: &Task<'_>,
    from: Proto,
    frame: &[u8],
    room: &mut [u8],
    page: &mut Page,
    output: &mut O,
) -> Treatment
    requires room { length frame.now ≤ length room.old }
    requires size { length frame.now < 2 ^ 31 }
    ensures treated { TreatsOn O.Sink result (as_line (shown_by task.now from frame.now)) output.old page.old output.new page.new }
    ensures later { O.faults output.old ≤ O.faults output.new }
    ensures cause { result ≡ Treatment.WriteFault → Rose (O.faults output.old) (O.faults output.new) }
{
    let mark = page.len();
    match task.show(from, frame, room, page) {
        Shown::Passed => Treatment::Passed,
        Shown::Refused(fault) => Treatment::Refused(Cause::Grammar(fault)),
        Shown::Unread(fault) => Treatment::Refused(Cause::Grammar(fault)),
        Shown::WriteFault => {
            page.cut(mark);
            show_long(task, from, frame, room, page, output)
        }
    }
}

// Writes the line of a message to the output, behind what waits.
fn show_long<O: Sink>(
    task: &Task<'_>,
    from: Proto,
    frame: &[u8],
    room: &mut [u8],
    page: &mut Page,
    output: &mut O,
) -> Treatment
    requires room { length frame.now ≤ length room.old }
    requires size { length frame.now < 2 ^ 31 }
    requires message { HasLine (shown_by task.now from frame.now) }
    ensures treated { TreatsOn O.Sink result (as_line (shown_by task.now from frame.now)) output.old page.old output.new page.new }
    ensures later { O.faults output.old ≤ O.faults output.new }
    ensures cause { result ≡ Treatment.WriteFault → Rose (O.faults output.old) (O.faults output.new) }
{
    match page.flush(output) {
        Wrote::All => (),
        Wrote::Failed => return Treatment::WriteFault,
    }
    match task.show(from, frame, room, output) {
        Shown::Passed => Treatment::Passed,
        Shown::Refused(fault) => Treatment::Refused(Cause::Grammar(fault)),
        Shown::Unread(fault) => Treatment::Refused(Cause::Grammar(fault)),
        Shown::WriteFault => Treatment::WriteFault,
    }
}
