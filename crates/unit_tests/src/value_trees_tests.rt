//! A body gathered from its events, and events that end early.
use std::test::*;
use thrift_value::{Event, Kind};
use value_trees::{GatherFault, gather};

#[test]
fn gathers(rt: HostRuntime) -> Result<(), Fail> {
    let events = [
        Event::Field(1, Kind::I32),
        Event::I32(1),
        Event::Field(2, Kind::I32),
        Event::I32(-1),
        Event::Stop,
    ];
    let body = gather(rt.alloc(), &events).ok().ok_or("a body")?;
    assert_eq!(rt; body.as_slice().len(), 2);
    let broken = gather(rt.alloc(), &events[..4]).err();
    assert_eq!(rt; broken, Some(GatherFault::Broken(4)));
    Ok(())
}
