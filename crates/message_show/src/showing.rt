//! A frame of any protocol as a line.
ghost use Rattle.std.specs.Prelude.{◌≡◌, ◌≤◌, ◌<◌, ◌^◌, length};
ghost use Rattle.gate_base.specs.Causes.{Rose};
ghost use Rattle.message_show.specs.Shown.{shown, IsService, IsShown, IsLeft, IsChecked, HasLine};
ghost use Rattle.message_show.specs.Turns.{EndsLine, TellsLine};

use crate::checking::{Checked, check, check_undeclared};
use crate::failing_sink::FailingSink;
use crate::line::{Line, LineBuffer};
use crate::telling::tell;
use binary_protocol::BinaryRead;
use compact_protocol::CompactRead;
use gate_io::Sink;
use json_protocol::JsonRead;
use protocol_traits::{Fault, Proto};
use type_tables::{Schema, ServiceId};

/// The line of a longer frame is not expected to fit where lines are gathered, and a pass that tells nothing is quick.
const SHORT: usize = 2048;

/// What came of showing a frame.
#[derive(Clone, Copy, Debug, PartialEq, Eq)]
pub enum Shown {
    /// It is a message of depth at most `DEPTH`, and its line was written.
    Passed,
    /// Its header was read, and this fault stands in what follows. Nothing was written.
    Refused(Fault),
    /// No front of it is a whole header. Nothing was written.
    Unread(Fault),
    /// The output failed. A front of the line was written.
    WriteFault,
}

/// Writes the line of the message that a frame spells, or nothing where it spells no message of depth at most `DEPTH`.
///
/// Names without a service before them are those of `service`, which is of this schema. `room` has at least as many bytes as
/// the frame. The line's bytes are written in order, in one piece or in several; how many is not told.
pub fn show<O: Sink>(
    schema: &Schema,
    service: Option<ServiceId>,
    from: Proto,
    frame: &[u8],
    room: &mut [u8],
    output: &mut O,
) -> Shown
    requires service { IsService schema.now service }
    requires room { length frame.now ≤ length room.old }
    requires size { length frame.now < 2 ^ 31 }
    ensures exact { IsShown result (O.written output.old) (O.written output.new) (shown schema.now service from frame.now) }
    ensures left { IsLeft result output.old output.new }
    ensures later { O.faults output.old ≤ O.faults output.new }
    ensures cause { result ≡ Shown.WriteFault → Rose (O.faults output.old) (O.faults output.new) }
{
    if frame.len() > SHORT {
        return show_twice(schema, service, from, frame, room, output);
    }
    show_once(schema, service, from, frame, room, output)
}

/// Gathers the line of a frame while it is read, and goes through the frame again only if the line doesn't fit.
fn show_once<O: Sink>(
    schema: &Schema,
    service: Option<ServiceId>,
    from: Proto,
    frame: &[u8],
    room: &mut [u8],
    output: &mut O,
) -> Shown
    requires service { IsService schema.now service }
    requires room { length frame.now ≤ length room.old }
    requires size { length frame.now < 2 ^ 31 }
    ensures exact { IsShown result (O.written output.old) (O.written output.new) (shown schema.now service from frame.now) }
    ensures left { IsLeft result output.old output.new }
    ensures later { O.faults output.old ≤ O.faults output.new }
    ensures cause { result ≡ Shown.WriteFault → Rose (O.faults output.old) (O.faults output.new) }
{
    let mut buffer = LineBuffer::new();
    let mut failing = FailingSink::new();
    let line = Line::over(&mut buffer);
    let (line, found) = tell_frame(schema, service, from, frame, room, line, &mut failing);
    match found {
        Checked::Message => {
            if line.is_whole() {
                return end(line, output);
            }
            show_long(schema, service, from, frame, room, output)
        }
        Checked::Refused(fault) => Shown::Refused(fault),
        Checked::Unread(fault) => Shown::Unread(fault),
    }
}

/// Goes through a frame for the fault that may stand in it, and then again to write its line.
#[inline(never)]
fn show_twice<O: Sink>(
    schema: &Schema,
    service: Option<ServiceId>,
    from: Proto,
    frame: &[u8],
    room: &mut [u8],
    output: &mut O,
) -> Shown
    requires service { IsService schema.now service }
    requires room { length frame.now ≤ length room.old }
    requires size { length frame.now < 2 ^ 31 }
    ensures exact { IsShown result (O.written output.old) (O.written output.new) (shown schema.now service from frame.now) }
    ensures left { IsLeft result output.old output.new }
    ensures later { O.faults output.old ≤ O.faults output.new }
    ensures cause { result ≡ Shown.WriteFault → Rose (O.faults output.old) (O.faults output.new) }
{
    match check_frame(schema, service, from, frame, room) {
        Checked::Message => show_long(schema, service, from, frame, room, output),
        Checked::Refused(fault) => Shown::Refused(fault),
        Checked::Unread(fault) => Shown::Unread(fault),
    }
}

/// Writes the line of a message that is longer than what may wait.
fn show_long<O: Sink>(
    schema: &Schema,
    service: Option<ServiceId>,
    from: Proto,
    frame: &[u8],
    room: &mut [u8],
    output: &mut O,
) -> Shown
    requires service { IsService schema.now service }
    requires room { length frame.now ≤ length room.old }
    requires size { length frame.now < 2 ^ 31 }
    requires message { HasLine (shown schema.now service from frame.now) }
    ensures exact { IsShown result (O.written output.old) (O.written output.new) (shown schema.now service from frame.now) }
    ensures later { O.faults output.old ≤ O.faults output.new }
    ensures cause { result ≡ Shown.WriteFault → Rose (O.faults output.old) (O.faults output.new) }
{
    let mut buffer = LineBuffer::new();
    let line = Line::over(&mut buffer);
    let (line, _) = tell_frame(schema, service, from, frame, room, line, output);
    end(line, output)
}

/// Writes what waits of a line.
fn end<O: Sink>(line: Line<'_>, output: &mut O) -> Shown
    ensures { EndsLine O.Sink output.old line.entry output.new result }
{
    if line.flush(output).is_whole() {
        Shown::Passed
    } else {
        Shown::WriteFault
    }
}

/// Goes through a frame for the fault that stands in it.
#[tactic(auto, unfolding(crate::specs::Shown::shown))]
fn check_frame(
    schema: &Schema,
    service: Option<ServiceId>,
    from: Proto,
    frame: &[u8],
    room: &mut [u8],
) -> Checked
    requires service { IsService schema.now service }
    requires room { length frame.now ≤ length room.old }
    requires size { length frame.now < 2 ^ 31 }
    ensures { IsChecked result (shown schema.now service from frame.now) }
{
    match from {
        Proto::Binary => check_undeclared::<BinaryRead>(schema, service, frame, room),
        Proto::Compact => check_undeclared::<CompactRead>(schema, service, frame, room),
        Proto::Json => check::<JsonRead>(schema, service, frame, room),
    }
}

/// Tells the line of a frame, and says whether the frame is a message.
#[tactic(auto, unfolding(crate::specs::Shown::shown))]
fn tell_frame<'c, O: Sink>(
    schema: &Schema,
    service: Option<ServiceId>,
    from: Proto,
    frame: &[u8],
    room: &mut [u8],
    line: Line<'c>,
    output: &mut O,
) -> (Line<'c>, Checked)
    requires service { IsService schema.now service }
    requires room { length frame.now ≤ length room.old }
    requires size { length frame.now < 2 ^ 31 }
    ensures found { IsChecked result.1 (shown schema.now service from frame.now) }
    ensures told { TellsLine O.Sink (shown schema.now service from frame.now) output.old line.entry output.new result.0 }
{
    match from {
        Proto::Binary => tell::<BinaryRead, O>(schema, service, frame, room, line, output),
        Proto::Compact => tell::<CompactRead, O>(schema, service, frame, room, line, output),
        Proto::Json => tell::<JsonRead, O>(schema, service, frame, room, line, output),
    }
}
