//! The gateway as a program: the words of its command line, the standard streams, and the exit code
//! that `run` answers.
#![tactic(auto)]

mod threads;

ghost use Rattle.gate_words.specs.Commands.{IsInRange};

use crate::threads::{route_in_threads, serve_in_threads};
use gate_base::{OutOfMemory, Word};
use gate_io::{DiskFiles, Sink, StdSink, StdSource};
use gate_run::run;
use gate_start::Status;
use gate_words::{Command, read_command};
use mio_edge::{MioFan, MioHub};
use std::alloc::Global;
use std::env::Env;
use std::fs::File;
use std::io;
use std::process::ExitCode;
use std::rt::Files;
use std::thread::Threads;

/// The longest word that the system hands to a program, in bytes.
const LONGEST_WORD: usize = 131_072;

/// A folder that is always there.
const FOLDER: &str = "/";

/// The exit code where memory is wanted.
const NO_MEMORY: u8 = 9;

fn main(rt: HostRuntime) -> ExitCode {
    match run_words(&rt, &rt) {
        Ok(code) => ExitCode::from(code),
        Err(OutOfMemory) => {
            let _ = StdSink::new(rt.stderr()).write(b"no memory\n");
            ExitCode::from(NO_MEMORY)
        }
    }
}

// Does what the words say, in as many threads as they give. `starter` makes them.
fn run_words<R: Threads + Sync>(rt: &HostRuntime, starter: &R) -> Result<u8, OutOfMemory> {
    let _held = hold_streams(rt);
    let words = read_words(rt, rt.alloc())?;
    run_read(rt, starter, &words)
}

// The same for words that were read.
fn run_read<R: Threads + Sync>(
    rt: &HostRuntime,
    starter: &R,
    words: &[Word],
) -> Result<u8, OutOfMemory> {
    match read_command(rt.alloc(), words)? {
        Some(command) => {
            let code = run_command(rt, starter, words, &command);
            give_up(command);
            code
        }
        None => Ok(run_alone(rt, rt.alloc(), words).code),
    }
}

// Gives a command up, with its names, in one place.
fn give_up(_command: Command) {}

// The same for a command that the words are.
fn run_command<R: Threads + Sync>(
    rt: &HostRuntime,
    starter: &R,
    words: &[Word],
    command: &Command,
) -> Result<u8, OutOfMemory>
    requires { IsInRange command.now }
{
    let status = match command {
        Command::Serve(serving, declared) if serving.threads > 1 => {
            serve_in_threads(rt, starter, serving, declared)?
        }
        Command::Route(routing, declared) if routing.threads > 1 => {
            route_in_threads(rt, starter, routing, declared)?
        }
        _ => run_alone(rt, rt.alloc(), words),
    };
    Ok(status.code)
}

// Runs the command in this thread, over the files of the disk and the real sockets.
fn run_alone(rt: &HostRuntime, alloc: Global, words: &[Word]) -> Status {
    let mut files = DiskFiles::new(rt);
    let mut hub = MioHub::new(rt);
    let mut fan = MioFan::new(rt);
    let mut input = StdSource::new(rt.stdin());
    let mut output = StdSink::new(rt.stdout());
    let mut report = StdSink::new(rt.stderr());
    run(
        alloc,
        words,
        &mut files,
        &mut input,
        &mut output,
        &mut report,
        &mut hub,
        &mut fan,
    )
}

// Opens a folder once for each standard stream, so that one that was closed has it: to read it or to write to it is a fault.
// Else a socket would take its place, and a session's line would be sent to a peer.
fn hold_streams<R: Files>(rt: &R) -> [io::Result<R::File>; 3] {
    [
        File::open(rt, FOLDER),
        File::open(rt, FOLDER),
        File::open(rt, FOLDER),
    ]
}

// The words behind the program's name.
fn read_words<R: Env>(rt: &R, alloc: Global) -> Result<Vec<Word>, OutOfMemory> {
    let mut room = vec![in alloc; 0; LONGEST_WORD]?;
    let mut words = Vec::new(alloc);
    for place in 1..usize::MAX {
        match rt.arg(place, &mut room) {
            Ok(count) => words.push(Word::new(alloc, &room[..count])?)?,
            Err(_) => break,
        }
    }
    Ok(words)
}
