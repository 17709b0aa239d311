//! How a command ends: its exit code, and the last line of its report.
ghost use Rattle.std.specs.Prelude.{◌≡◌, ◌⊎◌, ◌≤◌, ◌++◌};
ghost use Rattle.std.specs.Io.KnownBytes.{Appends};
ghost use Rattle.gate_base.specs.Causes.{Rose};
ghost use Rattle.gate_io.specs.Fronts.{AppendsFront};
ghost use Rattle.gate_start.specs.Endings.{code_of, last_line, SaysOn};
ghost use Rattle.gate_start.specs.Lines.{unfound_text, usage_text};
ghost use Rattle.gate_start.specs.Starting.{unfound_lines};

use gate_io::{Sink, Wrote, write_all};

/// How a command ended, as the exit code of the program: 0 done, 1 refused, 2 usage, 3 stream fault,
/// 4 read fault, 5 write fault, 6 file fault, 7 hub fault, 8 budget spent, 9 want of memory.
#[derive(Clone, Copy)]
pub struct Status {
    pub code: u8,
}

/// How a command ended.
#[derive(Clone, Copy)]
pub enum Ending {
    Done,
    /// The IDL or a frame is refused.
    Refused,
    /// The words are no command, or their service is unknown.
    Usage,
    /// The length of a frame is negative or too large, or the input ended within a frame.
    StreamFault,
    ReadFault,
    WriteFault,
    FileFault,
    HubFault,
    BudgetSpent,
    OutOfMemory,
}

impl Ending {
    /// The exit code.
    pub fn status(self) -> Status
        ensures { result.code ≡ code_of self }
    {
        let code = match self {
            Ending::Done => 0,
            Ending::Refused => 1,
            Ending::Usage => 2,
            Ending::StreamFault => 3,
            Ending::ReadFault => 4,
            Ending::WriteFault => 5,
            Ending::FileFault => 6,
            Ending::HubFault => 7,
            Ending::BudgetSpent => 8,
            Ending::OutOfMemory => 9,
        };
        Status { code }
    }

    // The line that tells it, where one line tells all.
    #[tactic(auto, unfolding(crate::specs::Endings::last_line))]
    fn last_line(self) -> &'static [u8]
        ensures { result.now ≡ last_line self }
    {
        match self {
            Ending::ReadFault => b"read fault\n",
            Ending::FileFault => b"file fault\n",
            Ending::HubFault => b"hub fault\n",
            Ending::BudgetSpent => b"budget spent\n",
            Ending::OutOfMemory => b"no memory\n",
            _ => b"",
        }
    }
}

/// Reports the last line of this ending, and gives it, whether the line was written or not.
pub fn end_with<E: Sink>(report: &mut E, ending: Ending) -> Ending
    ensures ending { result ≡ ending }
    ensures front { AppendsFront (E.written report.old) (E.written report.new) (last_line ending) }
    ensures whole { Appends (E.written report.old) (E.written report.new) (last_line ending) ⊎ Rose (E.faults report.old) (E.faults report.new) }
    ensures later { E.faults report.old ≤ E.faults report.new }
{
    let _ = write_all(report, ending.last_line());
    ending
}

/// Reports that no address is known for the name of a target, and the last line of a hub that failed.
pub fn end_unfound<E: Sink>(report: &mut E, name: &[u8]) -> Ending
    ensures ending { result ≡ Ending.HubFault }
    ensures front { AppendsFront (E.written report.old) (E.written report.new) (unfound_lines name.now) }
    ensures whole { Appends (E.written report.old) (E.written report.new) (unfound_lines name.now) ⊎ Rose (E.faults report.old) (E.faults report.new) }
    ensures later { E.faults report.old ≤ E.faults report.new }
{
    match tell_unfound(report, name) {
        Wrote::All => end_with(report, Ending::HubFault),
        Wrote::Failed => Ending::HubFault,
    }
}

// Writes that no address is known for this name.
#[tactic(auto, unfolding(crate::specs::Lines::unfound_text))]
fn tell_unfound<E: Sink>(report: &mut E, name: &[u8]) -> Wrote
    ensures all { result ≡ Wrote.All → Appends (E.written report.old) (E.written report.new) (unfound_text name.now) }
    ensures front { AppendsFront (E.written report.old) (E.written report.new) (unfound_text name.now) }
    ensures later { E.faults report.old ≤ E.faults report.new }
    ensures cause { result ≡ Wrote.Failed → Rose (E.faults report.old) (E.faults report.new) }
{
    match write_both(report, b"target not found: ", name) {
        Wrote::All => write_all(report, b"\n"),
        Wrote::Failed => Wrote::Failed,
    }
}

// Writes two texts, the second behind the first.
fn write_both<S: Sink>(sink: &mut S, first: &[u8], second: &[u8]) -> Wrote
    ensures all { result ≡ Wrote.All → Appends (S.written sink.old) (S.written sink.new) (first.now ++ second.now) }
    ensures front { AppendsFront (S.written sink.old) (S.written sink.new) (first.now ++ second.now) }
    ensures later { S.faults sink.old ≤ S.faults sink.new }
    ensures cause { result ≡ Wrote.Failed → Rose (S.faults sink.old) (S.faults sink.new) }
{
    match write_all(sink, first) {
        Wrote::All => write_all(sink, second),
        Wrote::Failed => Wrote::Failed,
    }
}

/// Writes a line, and gives this ending, or that of a write fault where it wasn't written.
pub fn say<S: Sink>(sink: &mut S, line: &[u8], ending: Ending) -> Ending
    ensures front { AppendsFront (S.written sink.old) (S.written sink.new) line.now }
    ensures ends { SaysOn S.Sink line.now ending sink.old sink.new result }
    ensures later { S.faults sink.old ≤ S.faults sink.new }
{
    match write_all(sink, line) {
        Wrote::All => ending,
        Wrote::Failed => Ending::WriteFault,
    }
}

/// Reports that the words are no command.
#[tactic(auto, unfolding(crate::specs::Lines::usage_text))]
pub fn usage<E: Sink>(report: &mut E) -> Ending
    ensures front { AppendsFront (E.written report.old) (E.written report.new) usage_text }
    ensures ends { SaysOn E.Sink usage_text Ending.Usage report.old report.new result }
    ensures later { E.faults report.old ≤ E.faults report.new }
{
    say(
        report,
        b"usage: thrift_gate check|convert|show|serve|drill|help\n",
        Ending::Usage,
    )
}
