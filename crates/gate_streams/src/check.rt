//! The check of an IDL.
ghost use Rattle.std.specs.Prelude.{◌≡◌, ◌≤◌, IfOk};
ghost use Rattle.gate_start.specs.Calls.{OnSinks};
ghost use Rattle.gate_streams.specs.Checking.{ChecksFile, TellsDeclared, ok_text};

use decimal_words::push_number;
use gate_base::OutOfMemory;
use gate_io::{Files, Out, Sink};
use gate_start::{Ending, end_with, halt, read_idl, say};
use std::alloc::Global;
use type_tables::{Counts, Schema};

/// The room of the line that tells how much is declared.
const OK_ROOM: usize = 160;

/// Reads the IDL of a root file, and writes how much it declares, or reports why it is refused.
pub fn check_idl<O: Sink, E: Sink, F: Files>(
    alloc: Global,
    file: &[u8],
    files: &mut F,
    output: &mut O,
    report: &mut E,
) -> Ending
    ensures checks { OnSinks O.Sink E.Sink (ChecksFile F.Files file.now files.old files.new) output.old report.old output.new report.new result }
    ensures holds { F.holds files.new ≡ F.holds files.old }
    ensures files_later { F.faults files.old ≤ F.faults files.new }
    ensures output_later { O.faults output.old ≤ O.faults output.new }
    ensures report_later { E.faults report.old ≤ E.faults report.new }
{
    match read_idl(alloc, files, file) {
        Ok(schema) => tell(alloc, &schema, output, report),
        Err(stop) => halt(alloc, &stop, report),
    }
}

// Writes how much is declared.
fn tell<O: Sink, E: Sink>(alloc: Global, schema: &Schema, output: &mut O, report: &mut E) -> Ending
    ensures tells { OnSinks O.Sink E.Sink (TellsDeclared schema.now) output.old report.old output.new report.new result }
    ensures output_later { O.faults output.old ≤ O.faults output.new }
    ensures report_later { E.faults report.old ≤ E.faults report.new }
{
    match ok_line(alloc, &schema.counts()) {
        Ok(line) => say(output, line.bytes(), Ending::Done),
        Err(OutOfMemory) => end_with(report, Ending::OutOfMemory),
    }
}

// The line that tells how much is declared.
#[tactic(auto, unfolding(crate::specs::Checking::ok_text))]
fn ok_line(alloc: Global, counts: &Counts) -> Result<Out, OutOfMemory>
    ensures { IfOk result (λ line. line.bytes ≡ ok_text counts.now.files counts.now.structs counts.now.services) }
{
    let mut line = Out::open(alloc, OK_ROOM)?;
    line.push(b"ok files=");
    push_number(&mut line, counts.files);
    line.push(b" structs=");
    push_number(&mut line, counts.structs);
    line.push(b" services=");
    push_number(&mut line, counts.services);
    line.push(b"\n");
    Ok(line)
}
