//! The command `serve --threads N` over hubs in memory, each in a thread of its own: what each worker writes, which of them has the
//! others end, and how the crew ends.
ghost use Rattle.gate_memory.specs.Hub.{TellsHub, hub_counts};
ghost use Rattle.gate_memory.specs.Laws.{hub_bytes};

use crate::outside::{none, only, words_of};
use crate::routing::is_usage;
use crate::script::{Act, steps_of};
use crate::serving::{CALLS, REPLIES};
use crew_exit::Exit;
use crew_server::{Worker, serve_crew};
use gate_base::OutOfMemory;
use gate_hub::{Began, Hub, HubNext, LinkGot, LinkPut, Side};
use gate_memory::{MemFiles, MemHub, MemSink};
use gate_words::{Command, read_command};
use std::alloc::Global;
use std::test::*;
use std::thread::Threads;

/// Keeps whether its server has left.
#[derive(Drop)]
struct Flag {
    has_left: bool,
}

impl Exit for Flag {
    ghost has_left = { λ f. f.has_left };

    fn leave(&mut self) {
        self.has_left = true;
    }
}

/// A hub in memory, which may want memory at its start.
#[derive(Drop)]
struct ShortHub {
    hub: MemHub,
    has_memory: bool,
}

impl Hub for ShortHub {
    ghost tells = { λ h. TellsHub h.hub };

    ghost counts = { λ h. hub_counts h.hub };

    ghost kept = { λ _. tt };

    fn start(
        &mut self,
        alloc: Global,
        listen: &[u8],
        upstream: &[u8],
        accept: u64,
        sessions: usize,
    ) -> Began {
        if !self.has_memory {
            return Began::OutOfMemory;
        }
        self.hub.start(alloc, listen, upstream, accept, sessions)
    }

    fn next(&mut self) -> HubNext {
        self.hub.next()
    }

    fn read(&mut self, k: u64, side: Side, into: &mut [u8]) -> LinkGot {
        self.hub.read(k, side, into)
    }

    fn write(&mut self, k: u64, side: Side, from: &[u8]) -> LinkPut {
        self.hub.write(k, side, from)
    }

    fn close(&mut self, k: u64) {
        self.hub.close(k);
    }

    ghost bytes = { λ h m told. hub_bytes h.hub m told };
}

/// A worker over a hub in memory.
type Hand = Worker<ShortHub, MemSink, Flag>;

/// Whether a worker's hub has memory, what comes to it, which write of the worker's output fails, what it writes, and whether it leaves.
#[derive(Clone, Copy)]
struct Part {
    has_memory: bool,
    acts: &'static [Act<'static>],
    failing: Option<u64>,
    lines: &'static [u8],
    leaves: bool,
}

/// The words of a crew, its workers, the status, and what is reported.
#[derive(Clone, Copy)]
struct Row {
    line: &'static [u8],
    parts: [Part; 3],
    code: u8,
    report: &'static [u8],
}

/// A session that ends well.
const WELL: Part = Part {
    has_memory: true,
    acts: &[
        Act::Connects,
        Act::Sends(Side::Client, &CALLS),
        Act::Sends(Side::Upstream, &REPLIES),
        Act::Ends(Side::Upstream),
        Act::Ends(Side::Client),
    ],
    failing: None,
    lines: b"session 0: clean\n",
    leaves: false,
};

/// Two sessions, of which nothing comes, and a place for one.
const CROWDED: Part = Part {
    has_memory: true,
    acts: &[Act::Connects, Act::Connects],
    failing: None,
    lines: b"session 1: full\nsession 0: left open\n",
    leaves: false,
};

/// The same, and a place for each.
const TWO: Part = Part {
    lines: b"session 0: left open\nsession 1: left open\n",
    ..CROWDED
};

/// Nothing comes.
const NOTHING: Part = Part {
    has_memory: true,
    acts: &[],
    failing: None,
    lines: b"",
    leaves: false,
};

/// A session that is still open when six events are spent.
const SPENT: Part = Part {
    has_memory: true,
    acts: &[
        Act::Connects,
        Act::HasRoom(Side::Client, 9),
        Act::HasRoom(Side::Client, 9),
        Act::HasRoom(Side::Client, 9),
        Act::HasRoom(Side::Client, 9),
        Act::HasRoom(Side::Client, 9),
    ],
    failing: None,
    lines: b"session 0: left open\n",
    leaves: true,
};

/// A session whose line can't be written.
const UNWRITTEN: Part = Part {
    has_memory: true,
    acts: &[Act::Connects, Act::Ends(Side::Client)],
    failing: Some(0),
    lines: b"",
    leaves: true,
};

/// A hub whose memory isn't found: it announces no session.
const SHORT: Part = Part {
    has_memory: false,
    leaves: true,
    ..NOTHING
};

/// Each worker serves a session; of four sessions the first worker has two; the last worker spends its events; before it the output of
/// another fails, which has nothing to report; one has no memory, while the others serve; and one behind which the last spends its events.
const ROWS: [Row; 6] = [
    Row {
        line: b"serve compact json 127.0.0.1:1 127.0.0.1:2 --limit 1024 --sessions 3 --threads 3",
        parts: [WELL, WELL, WELL],
        code: 0,
        report: b"",
    },
    Row {
        line: b"serve compact json 127.0.0.1:1 127.0.0.1:2 --limit 1024 --sessions 4 --threads 3",
        parts: [TWO, CROWDED, CROWDED],
        code: 0,
        report: b"",
    },
    Row {
        line: b"serve compact json 127.0.0.1:1 127.0.0.1:2 --limit 1024 --events 6 --threads 3",
        parts: [NOTHING, NOTHING, SPENT],
        code: 8,
        report: b"budget spent\n",
    },
    Row {
        line: b"serve compact json 127.0.0.1:1 127.0.0.1:2 --limit 1024 --events 6 --threads 3",
        parts: [NOTHING, UNWRITTEN, SPENT],
        code: 5,
        report: b"",
    },
    Row {
        line: b"serve compact json 127.0.0.1:1 127.0.0.1:2 --limit 1024 --sessions 3 --threads 3",
        parts: [WELL, SHORT, CROWDED],
        code: 9,
        report: b"no memory\n",
    },
    Row {
        line: b"serve compact json 127.0.0.1:1 127.0.0.1:2 --limit 1024 --events 6 --threads 3",
        parts: [SHORT, NOTHING, SPENT],
        code: 9,
        report: b"no memory\n",
    },
];

/// Words that name no crew: no thread, one too many, more threads than sessions, two numbers of threads, and a command that doesn't serve.
const NO_CREWS: [&[u8]; 5] = [
    b"serve compact json 127.0.0.1:1 127.0.0.1:2 --threads 0",
    b"serve compact json 127.0.0.1:1 127.0.0.1:2 --threads 65 --sessions 100",
    b"serve compact json 127.0.0.1:1 127.0.0.1:2 --threads 33",
    b"route compact json 127.0.0.1:1 A=127.0.0.1:2 --threads 2 --threads 2",
    b"convert compact json --threads 1",
];

/// An output whose write of this number fails.
fn output(alloc: Global, failing: Option<u64>) -> Result<MemSink, OutOfMemory> {
    let fails = match failing {
        Some(call) => only(alloc, call)?,
        None => none(alloc),
    };
    MemSink::new(alloc, 64, fails)
}

fn hand(alloc: Global, part: &Part) -> Result<Hand, OutOfMemory> {
    let output = output(alloc, part.failing)?;
    let hub = ShortHub {
        hub: MemHub::new(alloc, steps_of(alloc, part.acts)?, 4096)?,
        has_memory: part.has_memory,
    };
    Worker::new(alloc, hub, output, Flag { has_left: false })
}

/// Runs the crew of these words, and gives its status.
fn run_crew<R: Threads + Sync>(
    rt: &R,
    alloc: Global,
    line: &[u8],
    crew: &mut [Hand],
    report: &mut MemSink,
) -> Result<u8, OutOfMemory> {
    let words = words_of(alloc, line)?;
    let command = read_command(alloc, &words)?;
    let mut files = MemFiles::new(alloc, none(alloc))?;
    match &command {
        Some(Command::Serve(serving, declared)) => {
            Ok(serve_crew(rt, alloc, serving, declared, &mut files, report, crew).code)
        }
        _ => Ok(2),
    }
}

/// Whether a worker wrote and did what is said of it.
fn is_as(hand: &Hand, part: &Part) -> bool {
    hand.output.bytes() == part.lines && hand.exit.has_left == part.leaves
}

fn are_as(crew: &[Hand], parts: &[Part; 3]) -> bool {
    match crew {
        [first, second, third] => {
            is_as(first, &parts[0]) && is_as(second, &parts[1]) && is_as(third, &parts[2])
        }
        _ => false,
    }
}

fn has_reported(report: &MemSink, line: &[u8]) -> bool {
    report.bytes() == line
}

fn run_row<R: Threads + Sync>(
    rt: &R,
    alloc: Global,
    row: &Row,
    crew: &mut Vec<Hand>,
    report: &mut MemSink,
) -> Result<bool, OutOfMemory> {
    for part in &row.parts {
        crew.push(hand(alloc, part)?)?;
    }
    let code = run_crew(rt, alloc, row.line, crew, report)?;
    Ok(code == row.code && has_reported(report, row.report) && are_as(crew, &row.parts))
}

/// Whether the crew of a row ends as the row says.
fn ends_so<R: Threads + Sync>(rt: &R, alloc: Global, row: &Row) -> Result<bool, OutOfMemory> {
    let mut report = MemSink::new(alloc, 64, none(alloc))?;
    let mut crew = Vec::new(alloc);
    run_row(rt, alloc, row, &mut crew, &mut report)
}

#[test]
fn three_threads_serve(rt: HostRuntime) -> Result<(), Fail> {
    for row in ROWS {
        let is_so = ends_so(&rt, rt.alloc(), &row).ok().ok_or("memory")?;
        assert!(rt; is_so, "{:?}", row.line);
    }
    Ok(())
}

#[test]
fn other_numbers_of_threads_are_no_command(rt: HostRuntime) -> Result<(), Fail> {
    for line in NO_CREWS {
        let is_usage = is_usage(rt.alloc(), line).ok().ok_or("memory")?;
        assert!(rt; is_usage, "{line:?}");
    }
    Ok(())
}
