//! A command that goes through its input, from its words on.
ghost use Rattle.std.specs.Prelude.{◌≡◌, ◌<◌, ◌≤◌, IfSome, length};
ghost use Rattle.gate_start.specs.Calls.{OnStreams};
ghost use Rattle.gate_streams.specs.Outcome.{Streamed};
ghost use Rattle.gate_streams.specs.Streaming.{terms_of, StartsStream};

use crate::stream::stream;
use crate::task::{Doing, Task};
use gate_io::{Files, Sink, Source};
use gate_start::{Ending, Start, halt, prepare};
use gate_words::{Declared, GREATEST_LIMIT};
use line_transport::Transport;
use std::alloc::Global;

/// What the words of a command say of a stream: what is declared for it, what is done with each frame, the most bytes of one, and how
/// messages stand on the input and on the output.
#[derive(Clone, Copy)]
pub struct StreamJob<'w> {
    pub declared: &'w Declared,
    pub doing: Doing,
    pub limit: usize,
    pub input: Transport,
    pub output: Transport,
}

/// Goes through the input by what the words declare. Where it doesn't start, the input isn't read.
pub fn start_stream<I: Source, O: Sink, E: Sink, F: Files>(
    alloc: Global,
    job: &StreamJob<'_>,
    files: &mut F,
    input: &mut I,
    output: &mut O,
    report: &mut E,
) -> Ending
    requires { job.now.limit ≤ GREATEST_LIMIT }
    ensures does { StartsStream F.Files I.Source O.Sink E.Sink job.now files.old input.old output.old report.old files.new input.new output.new report.new result }
    ensures holds { F.holds files.new ≡ F.holds files.old }
    ensures files_later { F.faults files.old ≤ F.faults files.new }
    ensures input_later { I.faults input.old ≤ I.faults input.new }
    ensures output_later { O.faults output.old ≤ O.faults output.new }
    ensures report_later { E.faults report.old ≤ E.faults report.new }
{
    match prepare(alloc, files, job.declared) {
        Ok(start) => go_through(alloc, &start, job, input, output, report),
        Err(stop) => halt(alloc, &stop, report),
    }
}

// Goes through the input by what is declared.
fn go_through<I: Source, O: Sink, E: Sink>(
    alloc: Global,
    start: &Start,
    job: &StreamJob<'_>,
    input: &mut I,
    output: &mut O,
    report: &mut E,
) -> Ending
    requires limit { job.now.limit ≤ GREATEST_LIMIT }
    requires service { IfSome start.now.service (λ x. x.0 < length start.now.schema.services) }
    ensures does { OnStreams I.Source O.Sink E.Sink (Streamed (terms_of job.now start.now)) input.old output.old report.old input.new output.new report.new result }
    ensures input_later { I.faults input.old ≤ I.faults input.new }
    ensures output_later { O.faults output.old ≤ O.faults output.new }
    ensures report_later { E.faults report.old ≤ E.faults report.new }
{
    let task = Task::new(
        &start.schema,
        start.service,
        job.doing,
        job.limit,
        job.input,
        job.output,
    );
    stream(alloc, &task, input, output, report)
}
