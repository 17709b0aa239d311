//! Frames with their events, faults and plain spellings, written out by hand from the protocol's specification.
ghost use Rattle.std.specs.Prelude.{◌<◌, ◌^◌, length};

use binary_protocol::{BinaryRead, BinaryWrite};
use gate_io::Out;
use protocol_traits::{Fault, Head, Hint, Mark, Reason, WireWrite};
use std::test::Fail;
use thrift_value::{Event, Kind, MessageType};

/// The header of the call `ping` with number 1.
const PING: &[u8] = b"\x80\x01\x00\x01\x00\x00\x00\x04ping\x00\x00\x00\x01";

/// How many events a frame has, or its fault.
fn outcome(frame: &[u8]) -> Result<u32, Fault>
    requires { length frame.now < 2 ^ 31 }
{
    let mut reader = BinaryRead::open(frame);
    reader.read_head()?;
    for count in 0..1000u32 {
        if let Err(fault) = reader.read() {
            return reader.read_end().map(|_| count).map_err(|_| fault);
        }
    }
    Ok(1000)
}

#[test]
fn faults_stand_at_their_places(rt: HostRuntime) -> Result<(), Fail> {
    let rows: [(&[u8], &[u8], usize, Reason); 16] = [
        (b"", b"", 0, Reason::Truncated),
        (b"\x80", b"", 1, Reason::Truncated),
        (b"\x81", b"", 0, Reason::BadVersion),
        (b"\x80\x02", b"", 0, Reason::BadVersion),
        (b"\x80\x01\x00\x05", b"", 3, Reason::BadType),
        (b"\x00\x00\x00\x01a\x00", b"", 5, Reason::BadType),
        (b"\x80\x01\x00\x01\xff", b"", 4, Reason::BadSize),
        (PING, b"", 16, Reason::Truncated),
        (PING, b"\x00\x00", 17, Reason::Trailing),
        (PING, b"\x05", 16, Reason::BadKind),
        (PING, b"\x02\x00\x01\x02", 19, Reason::BadBool),
        (
            PING,
            b"\x0f\x00\x01\x08\x7f\xff\xff\xff",
            24,
            Reason::Truncated,
        ),
        (
            PING,
            b"\x0f\x00\x01\x08\xff\xff\xff\xff",
            20,
            Reason::BadSize,
        ),
        (PING, b"\x0f\x00\x01\x00", 19, Reason::BadKind),
        (
            PING,
            b"\x0d\x00\x01\x00\x08\x00\x00\x01",
            21,
            Reason::BadSize,
        ),
        (PING, b"\x0d\x00\x01\x00\x08\x00\x00", 23, Reason::Truncated),
    ];
    for (front, body, place, reason) in rows {
        let mut frame = Vec::new(rt.alloc());
        frame.extend_from_slice(front)?;
        frame.extend_from_slice(body)?;
        assert!(rt; frame.len() < 100);
        assert_eq!(rt; outcome(&frame), Err(Fault { place, reason }));
    }
    Ok(())
}

#[test]
fn what_lies_too_deep_is_told_first(rt: HostRuntime) -> Result<(), Fail> {
    for (lists, want) in [
        (254, Ok(512)),
        (
            255,
            Err(Fault {
                place: 1294,
                reason: Reason::TooDeep,
            }),
        ),
    ] {
        let mut frame = Vec::new(rt.alloc());
        frame.extend_from_slice(PING)?;
        frame.extend_from_slice(b"\x0f\x00\x01")?;
        for _ in 0..lists {
            frame.extend_from_slice(b"\x0f\x00\x00\x00\x01")?;
        }
        if lists == 254 {
            frame.extend_from_slice(b"\x03\x00\x00\x00\x00\x00")?;
        }
        assert!(rt; frame.len() < 2000);
        assert_eq!(rt; outcome(&frame), want);
    }
    Ok(())
}

#[test]
fn both_headers_and_a_struct_as_key_are_read(rt: HostRuntime) -> Result<(), Fail> {
    let frame =
        b"\x00\x00\x00\x04ping\x01\x00\x00\x00\x01\x0d\x00\x02\x0c\x08\x00\x00\x00\x01\x08\x00\x01\x00\x00\x00\x05\x00\x00\x00\x00\x07\x00";
    let mut reader = BinaryRead::open(frame);
    let head = reader.read_head()?;
    assert_eq!(rt; head.name, b"ping".as_slice());
    assert_eq!(rt; (head.mtype, head.seq), (MessageType::Call, 1));
    assert!(rt; matches!(reader.read()?, Event::Field(2, Kind::Map)));
    assert!(rt; matches!(reader.read()?, Event::MapBegin(Kind::Struct, Kind::I32, 1)));
    assert!(rt; matches!(reader.read()?, Event::StructBegin));
    assert!(rt; matches!(reader.read()?, Event::Field(1, Kind::I32)));
    assert!(rt; matches!(reader.read()?, Event::I32(5)));
    assert!(rt; matches!(reader.read()?, Event::Stop));
    assert!(rt; matches!(reader.read()?, Event::I32(7)));
    assert_eq!(rt; reader.value_place(), 30);
    assert!(rt; matches!(reader.read()?, Event::End));
    assert!(rt; matches!(reader.read()?, Event::Stop));
    assert_eq!(rt; reader.read_end(), Ok(()));
    Ok(())
}

#[test]
fn events_are_written_plainly(rt: HostRuntime) -> Result<(), Fail> {
    let mark = Mark {
        hint: Hint::Unknown,
        key: Kind::Str,
        value: Kind::I32,
    };
    let Ok(mut out) = Out::open(rt.alloc(), 200) else {
        panic!(rt; "no memory");
    };
    let mut writer = BinaryWrite::open();
    let head = Head {
        name: b"a",
        mtype: MessageType::Call,
        seq: 2,
    };
    writer.head(&head, &mut out);
    writer.put(&Event::Field(-3, Kind::I64), mark, &mut out);
    writer.put(&Event::I64(i64::MIN), mark, &mut out);
    writer.put(&Event::Field(2, Kind::Set), mark, &mut out);
    writer.put(&Event::SetBegin(Kind::I16, 1), mark, &mut out);
    writer.put(&Event::I16(-2), mark, &mut out);
    writer.put(&Event::End, mark, &mut out);
    writer.put(&Event::Field(1, Kind::Map), mark, &mut out);
    writer.put(&Event::EmptyMap, mark, &mut out);
    writer.put(&Event::Stop, mark, &mut out);
    assert_eq!(rt;
        out.bytes(),
        b"\x80\x01\x00\x01\x00\x00\x00\x01a\x00\x00\x00\x02\x0a\xff\xfd\x80\x00\x00\x00\x00\x00\x00\x00\x0e\x00\x02\x06\x00\x00\x00\x01\xff\xfe\x0d\x00\x01\x0b\x08\x00\x00\x00\x00\x00".as_slice()
    );
    Ok(())
}
