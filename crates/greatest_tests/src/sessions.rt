//! The longest frame, the greatest session, and as many sessions as a server may hold.
use framed_transport::FrameBuf;
use gate_base::{OutOfMemory, Word};
use gate_idl::open as open_idl;
use gate_memory::{
    Fails, FanSteps, HubStep, HubSteps, MemFan, MemFiles, MemHub, MemSink, MemSource,
};
use gate_run::run;
use protocol_traits::Proto;
use session_core::Silent;
use session_judge::{Setup, open};
use std::alloc::Global;
use std::test::*;
use type_tables::Schema;

/// The most bytes of a frame that a buffer may be opened for.
const LONGEST: usize = 2_147_483_647;

/// The most bytes of a frame of a session.
const LIMIT: usize = 16_777_215;

/// The most calls that may be open in a session.
const CALLS: usize = 65_536;

/// How many clients connect: as many as the server may hold sessions.
const CLIENTS: u32 = 1_024;

/// A server that may hold the most sessions.
const SERVER: &[u8] =
    b"serve compact json 127.0.0.1:1 127.0.0.1:2 --sessions 1024 --calls 1 --limit 1024";

#[test]
fn the_longest_frame_has_room(rt: HostRuntime) -> Result<(), Fail> {
    let frames = FrameBuf::open(rt.alloc(), LONGEST).ok().ok_or("memory")?;
    assert_eq!(rt; frames.room(), LONGEST + 4);
    Ok(())
}

/// A schema of which nothing is declared.
fn nothing_declared(alloc: Global) -> Result<Schema, OutOfMemory> {
    let mut files = MemFiles::new(alloc, Fails::new(alloc))?;
    files.put(b"root", b"")?;
    open_idl(alloc, &mut files, b"root").ok().ok_or(OutOfMemory)
}

#[test]
fn the_greatest_session_is_opened(rt: HostRuntime) -> Result<(), Fail> {
    let schema = nothing_declared(rt.alloc()).ok().ok_or("memory")?;
    let setup = Setup {
        schema: &schema,
        service: None,
        client: Proto::Compact,
        upstream: Proto::Json,
        limit: LIMIT,
        calls: CALLS,
    };
    let mut session = open(rt.alloc(), &setup).ok().ok_or("memory")?;
    assert_eq!(rt;
        session.take_client(b"\0\0\0\x09\x82\x21\x01\x04ping\0", &mut Silent),
        13
    );
    Ok(())
}

/// A hub in memory to which so many clients connect.
fn crowded_hub(alloc: Global, clients: u32) -> Result<MemHub, OutOfMemory> {
    let mut steps = HubSteps::new(alloc);
    for _ in 0..clients {
        steps.push(HubStep::Connect)?;
    }
    MemHub::new(alloc, steps, 1)
}

/// What a server writes while all these clients are connected, and its status.
fn serve_crowd(alloc: Global, line: &[u8]) -> Result<(u8, MemSink), OutOfMemory> {
    let mut words = Vec::new(alloc);
    for word in line.split(|byte| *byte == b' ') {
        words.push(Word::new(alloc, word)?)?;
    }
    let mut files = MemFiles::new(alloc, Fails::new(alloc))?;
    let mut input = MemSource::new(alloc, b"", 1, Fails::new(alloc))?;
    let mut output = MemSink::new(alloc, 64, Fails::new(alloc))?;
    let mut report = MemSink::new(alloc, 64, Fails::new(alloc))?;
    let mut hub = crowded_hub(alloc, CLIENTS)?;
    let mut fan = MemFan::new(alloc, FanSteps::new(alloc), 1)?;
    let status = run(
        alloc,
        &words,
        &mut files,
        &mut input,
        &mut output,
        &mut report,
        &mut hub,
        &mut fan,
    );
    Ok((status.code, output))
}

/// How many lines end so.
fn lines_that_end(lines: &[u8], end: &[u8]) -> usize {
    lines
        .split(|byte| *byte == b'\n')
        .filter(|line| line.ends_with(end))
        .count()
}

#[test]
fn the_most_sessions_have_room(rt: HostRuntime) -> Result<(), Fail> {
    let (code, output) = serve_crowd(rt.alloc(), SERVER).ok().ok_or("memory")?;
    assert_eq!(rt; code, 0);
    assert_eq!(rt;
        lines_that_end(output.bytes(), b": left open"),
        CLIENTS as usize
    );
    Ok(())
}
