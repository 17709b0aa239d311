//! A fan in memory that does its steps.
use gate_base::{OutOfMemory, Text};
use gate_fan::{Fan, Target};
use gate_hub::{Began, HubNext, LinkGot, LinkPut};
use gate_memory::{FanStep, FanSteps, MemFan};
use std::alloc::Global;
use std::test::*;

const CLIENT: usize = 0;

const FIRST: usize = 1;

const SECOND: usize = 2;

const NONE: usize = 3;

/// What the outside does: bytes of a target and its end, a port that isn't there, room for one byte at
/// another target, a fault of the client.
fn script(alloc: Global) -> Result<FanSteps, OutOfMemory> {
    let mut steps = FanSteps::new(alloc);
    steps.push(FanStep::Connect)?;
    steps.push(FanStep::Arrive {
        session: 0,
        port: SECOND,
        bytes: Text::new(alloc, b"abc")?,
    })?;
    steps.push(FanStep::Finish {
        session: 0,
        port: NONE,
    })?;
    steps.push(FanStep::Finish {
        session: 0,
        port: SECOND,
    })?;
    steps.push(FanStep::Room {
        session: 0,
        port: FIRST,
        bytes: 1,
    })?;
    steps.push(FanStep::Break {
        session: 0,
        port: CLIENT,
    })?;
    steps.push(FanStep::BreakNext)?;
    Ok(steps)
}

fn two_targets(alloc: Global) -> Result<[Target; 2], OutOfMemory> {
    Ok([
        Target {
            service: Text::new(alloc, b"Calc")?,
            address: Text::new(alloc, b"127.0.0.1:1")?,
        },
        Target {
            service: Text::new(alloc, b"Log")?,
            address: Text::new(alloc, b"127.0.0.1:2")?,
        },
    ])
}

fn started(alloc: Global) -> Result<MemFan, OutOfMemory> {
    let targets = two_targets(alloc)?;
    let mut fan = MemFan::new(alloc, script(alloc)?, 2)?;
    if fan.start(alloc, b"127.0.0.1:0", &targets, 0, 1) == Began::Done {
        Ok(fan)
    } else {
        Err(OutOfMemory)
    }
}

/// Each step shows at its port, and nowhere else.
fn does_its_steps(fan: &mut MemFan) -> bool {
    let mut into = [0; 3];
    fan.next() == HubNext::Opened(0)
        && fan.read(0, SECOND, &mut into) == LinkGot::NotReady
        && fan.next() == HubNext::Ready(0)
        && fan.read(0, FIRST, &mut into) == LinkGot::NotReady
        && fan.read(0, SECOND, &mut into) == LinkGot::Bytes(2)
        && fan.next() == HubNext::Ready(0)
        && fan.read(0, SECOND, &mut into) == LinkGot::Bytes(1)
        && fan.read(0, SECOND, &mut into) == LinkGot::End
        && fan.next() == HubNext::Ready(0)
}

/// What has room is written; then a port fails, and then the fan.
fn writes_what_has_room(fan: &mut MemFan) -> bool {
    fan.write(0, FIRST, b"xy") == LinkPut::Took(1)
        && fan.write(0, FIRST, b"y") == LinkPut::NotReady
        && fan.write(0, SECOND, b"z") == LinkPut::Took(1)
        && fan.next() == HubNext::Ready(0)
        && fan.write(0, CLIENT, b"z") == LinkPut::Failed
        && fan.next() == HubNext::Failed
        && fan.next() == HubNext::Stopped
}

fn was_sent_all(fan: &MemFan) -> bool {
    fan.sent_to(0, FIRST) == b"x".as_slice()
        && fan.sent_to(0, SECOND) == b"z".as_slice()
        && fan.sent_to(0, NONE) == b"".as_slice()
}

fn goes_by_its_script(alloc: Global) -> Result<[bool; 3], OutOfMemory> {
    let mut fan = started(alloc)?;
    Ok([
        does_its_steps(&mut fan),
        writes_what_has_room(&mut fan),
        was_sent_all(&fan),
    ])
}

#[test]
fn fan_does_its_steps_at_each_port(rt: HostRuntime) -> Result<(), Fail> {
    let done = goes_by_its_script(rt.alloc()).ok().ok_or("memory")?;
    assert_eq!(rt; done, [true; 3]);
    Ok(())
}

/// A port or a session that isn't there, a second start, and a session that is closed.
fn answers_wild_calls(fan: &mut MemFan, alloc: Global, targets: &[Target]) -> bool {
    let is_wild = fan.next() == HubNext::Opened(0)
        && fan.read(0, NONE, &mut [0]) == LinkGot::End
        && fan.write(1, CLIENT, b"a") == LinkPut::Failed
        && fan.start(alloc, b"", targets, 0, 1) == Began::Failed;
    fan.close(0);
    is_wild && fan.write(0, CLIENT, b"a") == LinkPut::Failed
}

fn is_called_wildly(alloc: Global) -> Result<bool, OutOfMemory> {
    let targets = two_targets(alloc)?;
    let mut fan = started(alloc)?;
    Ok(answers_wild_calls(&mut fan, alloc, &targets))
}

#[test]
fn fan_answers_wild_calls(rt: HostRuntime) -> Result<(), Fail> {
    assert!(rt; is_called_wildly(rt.alloc()).ok().ok_or("memory")?);
    Ok(())
}
