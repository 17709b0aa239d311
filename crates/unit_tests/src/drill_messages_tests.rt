//! No message, and two seeds whose message is short: an empty list, and one item.
ghost use Rattle.std.specs.Prelude.{◌≤◌};

use drill_messages::{Drilled, Totals, drill};
use gate_base::OutOfMemory;
use gate_memory::{Fails, MemSink};
use std::alloc::Global;
use std::test::*;

const EMPTY: &[u8] = b"\0\0\0\x18\x80\x01\0\x01\0\0\0\x03put\0\0\0\0\x0f\0\x01\x0c\0\0\0\0\0";

const ITEM: &[u8] =
    b"\0\0\0\x55\x80\x01\0\x01\0\0\0\x03put\0\0\0\0\x0f\0\x01\x0c\0\0\0\x01\x0a\0\x01\x1b\x9f\xef\xce\xd1\x97\x8a\xe8\x0b\0\x02\0\0\0\x01a\x0b\0\x03\0\0\0\x01!\x0f\0\x04\x08\0\0\0\x01\xc4\xcd\xe9\x3c\x0d\0\x05\x0b\x02\0\0\0\x02\0\0\0\x01a\0\0\0\0\x01b\x01\0\0";

/// Whether these are the messages of a seed, and their lengths.
fn drills(
    alloc: Global,
    seed: u64,
    count: u64,
    written: &[u8],
    lengths: [u64; 3],
) -> Result<bool, OutOfMemory>
    requires { count ≤ 1000000 }
{
    let mut output = MemSink::new(alloc, 7, Fails::new(alloc))?;
    let [binary, compact, json] = lengths;
    let totals = Totals {
        binary,
        compact,
        json,
    };
    Ok(drill(alloc, seed, count, &mut output) == Drilled::Done(totals) && output.bytes() == written)
}

#[test]
fn short_messages(rt: HostRuntime) -> Result<(), Fail> {
    let alloc = rt.alloc();
    assert_eq!(rt; drills(alloc, 1, 0, b"", [0; 3]), Ok(true));
    assert_eq!(rt; drills(alloc, 5, 1, EMPTY, [24, 10, 37]), Ok(true));
    assert_eq!(rt; drills(alloc, 419, 1, ITEM, [85, 43, 178]), Ok(true));
    Ok(())
}
