//! Frames with their events, faults and plain spellings, written out by hand from the protocol's specification.
ghost use Rattle.std.specs.Prelude.{◌<◌, ◌^◌, length};

use compact_protocol::CompactRead;
use protocol_traits::{Fault, Reason};
use std::test::Fail;
use thrift_value::{Event, Kind, MessageType};

/// The header of the call `ping` with number 1.
const PING: &[u8] = b"\x82\x21\x01\x04ping";

/// How many events a frame has, or its fault.
fn outcome(frame: &[u8]) -> Result<u32, Fault>
    requires { length frame.now < 2 ^ 31 }
{
    let mut reader = CompactRead::open(frame);
    reader.read_head()?;
    for count in 0..1000u32 {
        if let Err(fault) = reader.read() {
            if fault.reason != Reason::Trailing {
                return Err(fault);
            }
            reader.read_end()?;
            return Ok(count);
        }
    }
    Ok(1000)
}

#[test]
fn faults_stand_at_their_places(rt: HostRuntime) -> Result<(), Fail> {
    let rows: [(&[u8], &[u8], usize, Reason); 14] = [
        (b"\x82", b"", 1, Reason::Truncated),
        (b"\x81", b"", 0, Reason::BadVersion),
        (b"\x82\x22", b"", 1, Reason::BadVersion),
        (b"\x82\xa1", b"", 1, Reason::BadType),
        (b"\x82\x21\xff\xff\xff\xff\x1f", b"", 2, Reason::BadVarint),
        (PING, b"", 8, Reason::Truncated),
        (PING, b"\x00\x00", 9, Reason::Trailing),
        (PING, b"\x0e", 8, Reason::BadKind),
        (PING, b"\x10", 8, Reason::BadKind),
        (PING, b"\x05\xfe\xff\x03\x00\x15", 13, Reason::BadId),
        (PING, b"\x19\x11\x03", 10, Reason::BadBool),
        (PING, b"\x1b\x01\x0e", 10, Reason::BadKind),
        (
            PING,
            b"\x19\xf5\xff\xff\xff\xff\x07\x00",
            16,
            Reason::Truncated,
        ),
        (
            PING,
            b"\x19\xf5\xff\xff\xff\xff\x08\x00",
            10,
            Reason::BadSize,
        ),
    ];
    for (front, body, place, reason) in rows {
        let mut frame = Vec::new(rt.alloc());
        frame.extend_from_slice(front)?;
        frame.extend_from_slice(body)?;
        assert!(rt; frame.len() < 100);
        assert_eq!(rt; outcome(&frame), Err(Fault { place, reason }));
    }
    Ok(())
}

#[test]
fn what_lies_too_deep_is_told_first(rt: HostRuntime) -> Result<(), Fail> {
    let deep = Fault {
        place: 264,
        reason: Reason::TooDeep,
    };
    for (lists, want) in [(254, Ok(512)), (255, Err(deep))] {
        let mut frame = Vec::new(rt.alloc());
        frame.extend_from_slice(PING)?;
        for _ in 0..=lists {
            frame.extend_from_slice(b"\x19")?;
        }
        frame.extend_from_slice(b"\x05\x00")?;
        assert!(rt; frame.len() < 2000);
        assert_eq!(rt; outcome(&frame), want);
    }
    Ok(())
}

#[test]
fn free_forms_are_read(rt: HostRuntime) -> Result<(), Fail> {
    let frame =
        b"\x82\x21\x81\x80\x00\x01a\x12\x05\x05\x82\x00\x16\xff\xff\xff\xff\xff\xff\xff\xff\xff\x01\x1b\x80\x00\x00";
    let mut reader = CompactRead::open(frame);
    let head = reader.read_head()?;
    assert_eq!(rt; head.name, b"a".as_slice());
    assert_eq!(rt; (head.mtype, head.seq), (MessageType::Call, 1));
    assert_eq!(rt; reader.value_place(), 5);
    assert!(rt; matches!(reader.read()?, Event::Field(1, Kind::Bool)));
    assert!(rt; matches!(reader.read()?, Event::Bool(false)));
    assert!(rt; matches!(reader.read()?, Event::Field(-3, Kind::I32)));
    assert!(rt; matches!(reader.read()?, Event::I32(1)));
    assert_eq!(rt; reader.value_place(), 10);
    assert!(rt; matches!(reader.read()?, Event::Field(-2, Kind::I64)));
    assert!(rt; matches!(reader.read()?, Event::I64(i64::MIN)));
    assert!(rt; matches!(reader.read()?, Event::Field(-1, Kind::Map)));
    assert!(rt; matches!(reader.read()?, Event::EmptyMap));
    assert!(rt; matches!(reader.read()?, Event::Stop));
    assert_eq!(rt; reader.read_end(), Ok(()));
    Ok(())
}
