//! The making of messages.
ghost use Rattle.std.specs.Prelude.{◌≡◌, ◌≤◌, []};
ghost use Rattle.gate_start.specs.Calls.{OnSinks};
ghost use Rattle.gate_streams.specs.Drilling.{Drills, drill_text};

use decimal_words::push_number;
use drill_messages::{Drilled, Totals, drill};
use gate_io::{Out, Sink};
use gate_start::{Ending, end_with, say};
use gate_words::{Drilling, MOST_MESSAGES};
use std::alloc::Global;

/// The room of the line that tells how long the messages are.
const DRILL_ROOM: usize = 256;

/// Makes the messages of a seed and writes their frames, and reports how long they are.
pub fn drill_all<O: Sink, E: Sink>(
    alloc: Global,
    drilling: Drilling,
    output: &mut O,
    report: &mut E,
) -> Ending
    requires { drilling.count ≤ MOST_MESSAGES }
    ensures drills { OnSinks O.Sink E.Sink (Drills drilling) output.old report.old output.new report.new result }
    ensures output_later { O.faults output.old ≤ O.faults output.new }
    ensures report_later { E.faults report.old ≤ E.faults report.new }
{
    let Ok(mut line) = Out::open(alloc, DRILL_ROOM) else {
        return end_with(report, Ending::OutOfMemory);
    };
    match drill(alloc, drilling.seed, drilling.count, output) {
        Drilled::Done(totals) => {
            push_line(&mut line, drilling.count, &totals);
            say(report, line.bytes(), Ending::Done)
        }
        Drilled::WriteFault => Ending::WriteFault,
        Drilled::OutOfMemory => end_with(report, Ending::OutOfMemory),
    }
}

// Appends the line that tells how long so many messages are.
#[tactic(auto, unfolding(crate::specs::Drilling::drill_text))]
fn push_line(line: &mut Out, count: u64, totals: &Totals)
    requires empty { line.old.bytes ≡ [] }
    requires room { DRILL_ROOM ≤ line.old.room }
    ensures { line.new ≡ record line.old { bytes = drill_text count totals.now } }
{
    line.push(b"drill: ");
    push_number(line, count);
    line.push(b" messages, ");
    push_number(line, totals.binary);
    line.push(b" binary bytes, ");
    push_number(line, totals.compact);
    line.push(b" compact bytes, ");
    push_number(line, totals.json);
    line.push(b" json bytes\n");
}
