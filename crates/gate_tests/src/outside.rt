//! An outside in memory, and commands over it.
//!
//! A test owns an outside in a function of few lines, and lends it to those that may fail: each `?` writes out the drop of
//! all that its function owns.
use gate_base::{OutOfMemory, Word};
use gate_memory::{Fails, FanSteps, HubSteps, MemFan, MemFiles, MemHub, MemSink, MemSource};
use gate_run::run;
use std::alloc::Global;

/// So many bytes are read in a call.
pub const READ: usize = 7;

/// So many bytes are written in a call.
pub const WRITTEN: usize = 5;

/// What a command works on.
#[derive(Drop)]
pub struct Outside {
    pub files: MemFiles,
    pub input: MemSource,
    pub output: MemSink,
    pub report: MemSink,
    pub hub: MemHub,
    pub fan: MemFan,
}

/// How a command without peers ends: its status, and all that it wrote.
#[derive(Clone, Copy)]
pub struct Ending<'b> {
    pub code: u8,
    pub output: &'b [u8],
    pub report: &'b [u8],
}

/// No call fails.
pub fn none(alloc: Global) -> Fails {
    Fails::new(alloc)
}

/// The call of this number fails.
pub fn only(alloc: Global, call: u64) -> Result<Fails, OutOfMemory> {
    let mut fails = Fails::new(alloc);
    fails.push(call)?;
    Ok(fails)
}

/// An outside with this input, and nothing else.
pub fn with_input(alloc: Global, input: &[u8]) -> Result<Outside, OutOfMemory> {
    Ok(Outside {
        files: MemFiles::new(alloc, none(alloc))?,
        input: MemSource::new(alloc, input, READ, none(alloc))?,
        output: MemSink::new(alloc, WRITTEN, none(alloc))?,
        report: MemSink::new(alloc, WRITTEN, none(alloc))?,
        hub: MemHub::new(alloc, HubSteps::new(alloc), 1)?,
        fan: MemFan::new(alloc, FanSteps::new(alloc), 1)?,
    })
}

/// The words of a line, parted by spaces.
pub fn words_of(alloc: Global, line: &[u8]) -> Result<Vec<Word>, OutOfMemory> {
    let mut words = Vec::new(alloc);
    for word in line.split(|byte| *byte == b' ') {
        words.push(Word::new(alloc, word)?)?;
    }
    Ok(words)
}

/// Runs the command of this line, whose words are parted by spaces, and gives its status.
pub fn run_line(alloc: Global, line: &[u8], outside: &mut Outside) -> Result<u8, OutOfMemory> {
    let words = words_of(alloc, line)?;
    let status = run(
        alloc,
        &words,
        &mut outside.files,
        &mut outside.input,
        &mut outside.output,
        &mut outside.report,
        &mut outside.hub,
        &mut outside.fan,
    );
    Ok(status.code)
}

/// Whether this was written, and no more.
pub fn was_written(outside: &Outside, ending: &Ending<'_>) -> bool {
    outside.output.bytes() == ending.output && outside.report.bytes() == ending.report
}

/// Whether the command of this line ends so.
pub fn ends_as(
    alloc: Global,
    line: &[u8],
    outside: &mut Outside,
    ending: &Ending<'_>,
) -> Result<bool, OutOfMemory> {
    let code = run_line(alloc, line, outside)?;
    Ok(code == ending.code && was_written(outside, ending))
}
