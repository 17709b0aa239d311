//! Lines of a few messages.
use gate_base::OutOfMemory;
use gate_memory::{Fails, MemSink};
use message_show::{Shown, show};
use protocol_traits::{Fault, Proto, Reason};
use std::alloc::Global;
use std::test::*;
use type_tables::SchemaBuilder;

/// What is shown of a frame of which only a TApplicationException is declared, over an output whose writes take few bytes.
fn shown(alloc: Global, from: Proto, frame: &[u8]) -> Result<(Shown, MemSink), OutOfMemory> {
    let schema = SchemaBuilder::new(alloc)?.finish(0);
    let mut output = MemSink::new(alloc, 7, Fails::new(alloc))?;
    let mut room = [0; 128];
    if frame.len() > 128 {
        return Err(OutOfMemory);
    }
    let answer = show(&schema, None, from, frame, &mut room, &mut output);
    Ok((answer, output))
}

#[test]
fn lines(rt: HostRuntime) -> Result<(), Fail> {
    let rows: [(Proto, &[u8], &[u8]); 6] = [
        (
            Proto::Binary,
            b"\x80\x01\0\x01\0\0\0\x03add\0\0\0\x02\x08\0\x01\0\0\0\x01\x08\0\x02\xff\xff\xff\xff\0",
            b"call \"add\" 2 (1 i32 1, 2 i32 -1)\n",
        ),
        (
            Proto::Compact,
            b"\x82\x21\x01\x04ping\x19\x32\x01\x02\0\0",
            b"call \"ping\" 1 (1 list [bool| true, false, false])\n",
        ),
        (
            Proto::Binary,
            b"\x80\x01\0\x01\0\0\0\x04ping\0\0\0\x01\x10\0\x01\0\x01\x02\x03\x04\x05\x06\x07\x08\x09\x0a\x0b\x0c\x0d\x0e\x0f\0",
            b"call \"ping\" 1 (1 uuid 00010203-0405-0607-0809-0a0b0c0d0e0f)\n",
        ),
        (
            Proto::Json,
            b"[1,\"a\\\"\\u00e9\",4,-7,{\"1\":{\"map\":[\"i8\",\"rec\",2,{\"1\":{},\"2\":{\"3\":{\"dbl\":1.5}}}]},\"2\":{\"map\":[\"i8\",\"i8\",0,{}]}}]",
            b"oneway \"a\\\"\\xC3\\xA9\" -7 (1 map {i8,struct| 1: (), 2: (3 double 1.5)}, 2 map {})\n",
        ),
        (
            Proto::Json,
            b"[1,\"f\",3,0,{\"1\":{\"str\":\"no\"},\"2\":{\"i32\":6},\"1\":{\"i8\":5}}]",
            b"exception \"f\" 0 (1:message string \"no\", 2:type i32 6, 1 i8 5)\n",
        ),
        (
            Proto::Compact,
            b"\x82\x41\0\0\x17\x18\x2d\x44\x54\xfb\x21\x09\x40\x1a\x0d\0",
            b"reply \"\" 0 (1 double 0x400921FB54442D18, 2 set [uuid| ])\n",
        ),
    ];
    for (from, frame, line) in rows {
        let (answer, output) = shown(rt.alloc(), from, frame).ok().ok_or("memory")?;
        assert_eq!(rt; answer, Shown::Passed);
        assert_eq!(rt; output.bytes(), line);
    }
    Ok(())
}

#[test]
fn nothing_of_a_faulty_frame(rt: HostRuntime) -> Result<(), Fail> {
    let (answer, output) = shown(rt.alloc(), Proto::Json, b"[1,\"a\",1,1,{}] x")
        .ok()
        .ok_or("memory")?;
    let fault = Fault {
        place: 15,
        reason: Reason::Trailing,
    };
    assert_eq!(rt; answer, Shown::Refused(fault));
    assert_eq!(rt; output.bytes(), b"".as_slice());
    Ok(())
}
