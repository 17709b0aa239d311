//! A hub over one whose peers send and take messages without lengths.
ghost use Rattle.std.specs.Prelude.{◌<◌, length};

use gate_base::{OutOfMemory, Text};
use gate_hub::{Began, Hub, HubNext, LinkGot, Side};
use gate_memory::{HubStep, HubSteps, MemHub};
use std::alloc::Global;
use std::test::*;
use stream_messages::{UnframedHub, Wire};

/// The longest message in bytes.
const LIMIT: usize = 1024;

/// What a client sends, what is read of that as frames, and the last answer.
struct Row {
    wire: Wire,
    sends: &'static [u8],
    ends: bool,
    frames: &'static [u8],
    last: LinkGot,
}

/// Two Binary calls `ping` 1 without arguments.
const TWO_CALLS: Row = Row {
    wire: Wire::Binary,
    sends: b"\x80\x01\0\x01\0\0\0\x04ping\0\0\0\x01\0\x80\x01\0\x01\0\0\0\x04ping\0\0\0\x01\0",
    ends: true,
    frames: b"\0\0\0\x11\x80\x01\0\x01\0\0\0\x04ping\0\0\0\x01\0\0\0\0\x11\x80\x01\0\x01\0\0\0\x04ping\0\0\0\x01\0",
    last: LinkGot::End,
};

/// A Compact call and the beginning of another.
const A_REST: Row = Row {
    wire: Wire::Compact,
    sends: b"\x82\x21\x01\x04ping\0\x82\x21",
    ends: false,
    frames: b"\0\0\0\x09\x82\x21\x01\x04ping\0",
    last: LinkGot::NotReady,
};

/// The same, and the end.
const AN_EARLY_END: Row = Row {
    wire: Wire::Compact,
    sends: b"\x82\x21\x01\x04ping\0\x82\x21",
    ends: true,
    frames: b"\0\0\0\x09\x82\x21\x01\x04ping\0\0",
    last: LinkGot::End,
};

/// A field of no kind ends the stream.
const A_BAD_KIND: Row = Row {
    wire: Wire::Binary,
    sends: b"\x80\x01\0\x01\0\0\0\x04ping\0\0\0\x01\x05\0\0\0",
    ends: false,
    frames: b"\0\0\0\x11\x80\x01\0\x01\0\0\0\x04ping\0\0\0\x01\x05\xFF\xFF\xFF\xFF",
    last: LinkGot::End,
};

const ROWS: [Row; 4] = [TWO_CALLS, A_REST, AN_EARLY_END, A_BAD_KIND];

/// A client that connects, sends these bytes, and may end.
fn steps(alloc: Global, sends: &[u8], ends: bool) -> Result<HubSteps, OutOfMemory> {
    let (session, side) = (0, Side::Client);
    let mut steps = HubSteps::new(alloc);
    steps.push(HubStep::Connect)?;
    let bytes = Text::new(alloc, sends)?;
    steps.push(HubStep::Arrive {
        session,
        side,
        bytes,
    })?;
    if ends {
        steps.push(HubStep::Finish { session, side })?;
    }
    Ok(steps)
}

/// Reads until nothing more comes.
fn read_all<H: Hub>(hub: &mut H, room: usize, read: &mut Vec<u8>) -> Result<LinkGot, OutOfMemory> {
    let mut piece = [0; 64];
    let room = room.clamp(1, 64);
    for _ in 0..1000 {
        match hub.read(0, Side::Client, &mut piece[..room]) {
            LinkGot::Bytes(count) => read.extend_from_slice(&piece[..count.min(64)])?,
            answer => return Ok(answer),
        }
    }
    Ok(LinkGot::Failed)
}

/// Whether a hub announces its session, and these frames are read of its client.
fn reads_so<H: Hub>(
    hub: &mut H,
    alloc: Global,
    room: usize,
    row: &Row,
) -> Result<bool, OutOfMemory> {
    let is_open = hub.start(alloc, b"a", b"b", 0, 1) == Began::Done
        && hub.next() == HubNext::Opened(0);
    for _ in 0..3 {
        hub.next();
    }
    let mut read = Vec::new(alloc);
    let last = read_all(hub, room, &mut read)?;
    Ok(is_open && read.as_slice() == row.frames && last == row.last)
}

/// The same over a hub whose client sends what the row tells, of which so many bytes move in a call.
fn is_read(alloc: Global, row: &Row, chunk: usize, room: usize) -> Result<bool, OutOfMemory>
    requires { 0 < chunk }
{
    let mut below = MemHub::new(alloc, steps(alloc, row.sends, row.ends)?, chunk)?;
    let mut hub = UnframedHub::over(&mut below, Some(row.wire), None, LIMIT);
    reads_so(&mut hub, alloc, room, row)
}

#[test]
fn frames_of_what_is_sent_are_read(rt: HostRuntime) -> Result<(), Fail> {
    for row in &ROWS {
        for (chunk, room) in [(1, 64), (64, 64), (64, 1), (3, 3)] {
            let is_read = is_read(rt.alloc(), row, chunk, room).ok().ok_or("memory")?;
            assert!(rt; is_read, "{chunk} and {room}");
        }
    }
    Ok(())
}
