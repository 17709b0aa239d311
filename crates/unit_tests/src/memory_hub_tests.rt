//! A hub in memory that does its steps.
use gate_base::{OutOfMemory, Text};
use gate_hub::{Began, Hub, HubNext, LinkGot, LinkPut, Side};
use gate_memory::{HubStep, HubSteps, MemHub};
use std::alloc::Global;
use std::test::*;

/// What the outside does: bytes and an end, more behind the end, room for one byte, a session that
/// is not there, a fault.
fn script(alloc: Global) -> Result<HubSteps, OutOfMemory> {
    let mut steps = HubSteps::new(alloc);
    let (client, upstream) = (Side::Client, Side::Upstream);
    steps.push(HubStep::Connect)?;
    steps.push(HubStep::Arrive {
        session: 0,
        side: client,
        bytes: Text::new(alloc, b"abc")?,
    })?;
    steps.push(HubStep::Finish {
        session: 0,
        side: client,
    })?;
    steps.push(HubStep::Arrive {
        session: 0,
        side: client,
        bytes: Text::new(alloc, b"d")?,
    })?;
    steps.push(HubStep::Room {
        session: 0,
        side: upstream,
        bytes: 1,
    })?;
    steps.push(HubStep::Break {
        session: 1,
        side: client,
    })?;
    steps.push(HubStep::BreakNext)?;
    Ok(steps)
}

/// Starts it, and takes an event for each step that makes one, the fault and the end.
fn tells_its_steps(hub: &mut MemHub, alloc: Global) -> bool {
    hub.start(alloc, b"a", b"b", 0, 1) == Began::Done
        && hub.next() == HubNext::Opened(0)
        && hub.next() == HubNext::Ready(0)
        && hub.next() == HubNext::Ready(0)
        && hub.next() == HubNext::Ready(0)
        && hub.next() == HubNext::Failed
        && hub.next() == HubNext::Stopped
}

/// The bytes that came, two at a time, and the end; nothing behind it.
fn reads_up_to_the_end(hub: &mut MemHub) -> bool {
    let mut into = [0; 4];
    hub.read(0, Side::Client, &mut into) == LinkGot::Bytes(2)
        && hub.read(0, Side::Client, &mut into) == LinkGot::Bytes(1)
        && hub.read(0, Side::Client, &mut into) == LinkGot::End
        && into == [b'c', b'b', 0, 0]
}

/// One byte, for which there is room.
fn writes_what_has_room(hub: &mut MemHub) -> bool {
    hub.write(0, Side::Upstream, b"xy") == LinkPut::Took(1)
        && hub.write(0, Side::Upstream, b"xy") == LinkPut::NotReady
        && hub.sent_to(0, Side::Upstream) == b"x".as_slice()
}

fn scripted(alloc: Global) -> Result<MemHub, OutOfMemory> {
    MemHub::new(alloc, script(alloc)?, 2)
}

fn does_its_steps(alloc: Global) -> Result<[bool; 3], OutOfMemory> {
    let mut hub = scripted(alloc)?;
    Ok([
        tells_its_steps(&mut hub, alloc),
        reads_up_to_the_end(&mut hub),
        writes_what_has_room(&mut hub),
    ])
}

#[test]
fn a_hub_does_its_steps(rt: HostRuntime) -> Result<(), Fail> {
    let done = does_its_steps(rt.alloc()).ok().ok_or("memory")?;
    assert_eq!(rt; done, [true; 3]);
    Ok(())
}
