//! The commands `check`, `convert`, `show` and `conform` on small inputs, in frames and on lines, and a body there and back.
ghost use Rattle.std.specs.Prelude.{◌≤◌, length};

use crate::outside::{Ending, Outside, ends_as, with_input};
use gate_base::OutOfMemory;
use std::alloc::Global;
use std::test::*;
use thrift_value::{Event, Kind};
use value_trees::{GatherFault, events_of, gather};

/// One call `ping` without arguments, framed.
const CALL: [u8; 21] = *b"\0\0\0\x11\x80\x01\0\x01\0\0\0\x04ping\0\0\0\x01\0";

/// The same in Compact.
const COMPACT: [u8; 13] = *b"\0\0\0\x09\x82\x21\x01\x04ping\0";

/// A call `ping` with the bytes `AB` in field 1, framed.
const BYTES: [u8; 30] =
    *b"\0\0\0\x1a\x80\x01\0\x01\0\0\0\x04ping\0\0\0\x01\x0b\0\x01\0\0\0\x02AB\0";

/// Whether a command ends so where `a.thrift` holds this text.
fn ends_with_idl(
    alloc: Global,
    line: &[u8],
    text: &[u8],
    outside: &mut Outside,
    ending: &Ending<'_>,
) -> Result<bool, OutOfMemory>
    requires { length text.now ≤ 16777216 }
{
    outside.files.put(b"a.thrift", text)?;
    ends_as(alloc, line, outside, ending)
}

/// The same with this input.
fn ends_so(
    alloc: Global,
    line: &[u8],
    text: &[u8],
    input: &[u8],
    ending: Ending<'_>,
) -> Result<bool, OutOfMemory>
    requires { length text.now ≤ 16777216 }
{
    let mut outside = with_input(alloc, input)?;
    ends_with_idl(alloc, line, text, &mut outside, &ending)
}

#[test]
fn the_smallest_call_is_converted(rt: HostRuntime) -> Result<(), Fail> {
    let ending = Ending {
        code: 0,
        output: &COMPACT,
        report: b"",
    };
    let line = b"convert binary compact";
    assert!(rt;
        ends_so(rt.alloc(), line, b"", &CALL, ending)
            .ok()
            .ok_or("memory")?
    );
    Ok(())
}

#[test]
fn a_refused_idl_is_told(rt: HostRuntime) -> Result<(), Fail> {
    let text = b"struct S { 1: i32 a, 1: i32 b }";
    let ending = Ending {
        code: 1,
        output: b"",
        report: b"a.thrift:21: I12 duplicate field id\n",
    };
    let line = b"check a.thrift";
    assert!(rt;
        ends_so(rt.alloc(), line, text, b"", ending)
            .ok()
            .ok_or("memory")?
    );
    Ok(())
}

#[test]
fn bytes_go_to_json_as_they_are_declared(rt: HostRuntime) -> Result<(), Fail> {
    let text = b"service S { void ping(1: binary b) }";
    let ending = Ending {
        code: 0,
        output: b"\0\0\0\x22[1,\"ping\",1,1,{\"1\":{\"str\":\"QUI\"}}]",
        report: b"",
    };
    let line = b"convert binary json --idl a.thrift";
    assert!(rt;
        ends_so(rt.alloc(), line, text, &BYTES, ending)
            .ok()
            .ok_or("memory")?
    );
    Ok(())
}

/// Whether the call `ping` is checked so by these declarations.
fn is_checked(alloc: Global, text: &[u8], ending: Ending<'_>) -> Result<bool, OutOfMemory>
    requires { length text.now ≤ 16777216 }
{
    let line = b"conform compact --idl a.thrift";
    ends_so(alloc, line, text, &COMPACT, ending)
}

#[test]
fn a_message_meets_its_declarations(rt: HostRuntime) -> Result<(), Fail> {
    let ending = Ending {
        code: 0,
        output: b"frame 1: meets\n",
        report: b"",
    };
    let text = b"service S { void ping() }";
    assert!(rt; is_checked(rt.alloc(), text, ending).ok().ok_or("memory")?);
    Ok(())
}

#[test]
fn a_breach_of_the_declarations_is_told(rt: HostRuntime) -> Result<(), Fail> {
    let ending = Ending {
        code: 1,
        output: b"",
        report: b"frame 1: at .: M1 unknown method\n",
    };
    let text = b"service Calc { string name() }";
    assert!(rt; is_checked(rt.alloc(), text, ending).ok().ok_or("memory")?);
    Ok(())
}

/// One byte more than the least limit, and no LF.
const LONG: [u8; 1025] = [b' '; 1025];

/// Messages with whitespace around them, and lines of nothing else; the last one has no LF.
const WITH_BLANK_LINES: &[u8] = b" \t\r\n[1,\"a\",1,1,{}]\r\n\n[1,\"b\", 4,2,{}]";

#[test]
fn messages_stand_on_lines(rt: HostRuntime) -> Result<(), Fail> {
    let ending = Ending {
        code: 0,
        output: b"[1,\"a\",1,1,{}]\n[1,\"b\",4,2,{}]\n",
        report: b"",
    };
    let line = b"convert json json --lines both";
    assert!(rt;
        ends_so(rt.alloc(), line, b"", WITH_BLANK_LINES, ending)
            .ok()
            .ok_or("memory")?
    );
    Ok(())
}

#[test]
fn a_refused_line_is_counted(rt: HostRuntime) -> Result<(), Fail> {
    let ending = Ending {
        code: 1,
        output: b"call \"a\" 1 ()\n",
        report: b"frame 1: at 1: G7 bad version\n",
    };
    let input = b"\n[]\n[1,\"a\",1,1,{}]\n";
    assert!(rt;
        ends_so(rt.alloc(), b"show json --lines in", b"", input, ending)
            .ok()
            .ok_or("memory")?
    );
    Ok(())
}

#[test]
fn a_line_is_at_most_as_long_as_the_limit(rt: HostRuntime) -> Result<(), Fail> {
    let ending = Ending {
        code: 3,
        output: b"",
        report: b"stream: frame 1: over 1024 bytes\n",
    };
    let line = b"convert json compact --lines in --limit 1024";
    assert!(rt;
        ends_so(rt.alloc(), line, b"", &LONG, ending)
            .ok()
            .ok_or("memory")?
    );
    Ok(())
}

#[test]
fn lines_are_shown_of_the_input_alone(rt: HostRuntime) -> Result<(), Fail> {
    let ending = Ending {
        code: 2,
        output: b"",
        report: b"usage: thrift_gate check|convert|show|serve|drill|help\n",
    };
    assert!(rt;
        ends_so(rt.alloc(), b"show json --lines both", b"", b"", ending)
            .ok()
            .ok_or("memory")?
    );
    Ok(())
}

#[test]
fn a_body_comes_back_from_its_events(rt: HostRuntime) -> Result<(), Fail> {
    let events = [
        Event::Field(1, Kind::I32),
        Event::I32(1),
        Event::Field(2, Kind::I32),
        Event::I32(-1),
        Event::Stop,
        Event::Stop,
    ];
    let body = gather(rt.alloc(), &events[..5]).ok().ok_or("a body")?;
    let told = events_of(rt.alloc(), &body).ok().ok_or("memory")?;
    assert_eq!(rt; told.len(), 5);
    assert!(rt; matches!(told[3], Event::I32(-1)));
    let early = gather(rt.alloc(), &events[..4]).err();
    assert_eq!(rt; early, Some(GatherFault::Broken(4)));
    let more = gather(rt.alloc(), &events).err();
    assert_eq!(rt; more, Some(GatherFault::Broken(5)));
    Ok(())
}
