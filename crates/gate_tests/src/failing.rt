//! Commands over an outside one of whose calls fails: each call in turn, up to the last that the command makes.
use crate::outside::{Ending, Outside, READ, WRITTEN, only, run_line, was_written, with_input};
use gate_base::OutOfMemory;
use gate_memory::{MemFiles, MemSink, MemSource};
use std::alloc::Global;
use std::test::*;

/// What fails.
#[derive(Clone, Copy, Debug)]
enum Failing {
    Read,
    Write,
    Report,
    Fetch,
}

/// A command, and what it does where nothing fails.
#[derive(Clone, Copy)]
struct Row {
    line: &'static [u8],
    input: &'static [u8],
    ending: Ending<'static>,
}

/// How a command ended one of whose calls failed.
#[derive(Clone, Copy, PartialEq, Eq)]
enum Cut {
    /// As one does where nothing fails: it doesn't make this call.
    Nowhere,
    /// What stood before the call was written, and nothing behind it.
    AtTheCall,
    Otherwise,
}

/// A call with two numbers.
const NUMBERS: Row = Row {
    line: b"convert binary compact --limit 1024",
    input: b"\0\0\0\x1e\x80\x01\0\x01\0\0\0\x03add\0\0\0\x02\x08\0\x01\0\0\0\x01\x08\0\x02\xff\xff\xff\xff\0",
    ending: Ending {
        code: 0,
        output: b"\0\0\0\x0c\x82\x21\x02\x03add\x15\x02\x15\x01\0",
        report: b"",
    },
};

/// A call of a declared method, by an IDL of two files.
const DECLARED: Row = Row {
    line: b"convert compact json --limit 1024 --idl calc.thrift",
    input: b"\0\0\0\x1b\x82\x21\x07\x09calculate\x15\x02\x1c\x15\x1e\x15\x14\x15\x04\x18\x01a\0\0",
    ending: Ending {
        code: 0,
        output: b"\0\0\0\x6d[1,\"calculate\",1,7,{\"1\":{\"i32\":1},\"2\":{\"rec\":{\"1\":{\"i32\":15},\"2\":{\"i32\":10},\"3\":{\"i32\":2},\"4\":{\"str\":\"a\"}}}}]",
        report: b"",
    },
};

/// A call with a string of which nothing is declared, which is refused.
const REFUSED: Row = Row {
    line: b"convert binary json --limit 1024",
    input: b"\0\0\0\x17\x80\x01\0\x01\0\0\0\x01f\0\0\0\x01\x0b\0\x01\0\0\0\x02AB\0",
    ending: Ending {
        code: 1,
        output: b"",
        report: b"frame 1: at 16: U2 unknown string\n",
    },
};

/// The same call, checked against its declarations.
const MEETING: Row = Row {
    line: b"conform compact --limit 1024 --idl calc.thrift",
    input: b"\0\0\0\x1b\x82\x21\x07\x09calculate\x15\x02\x1c\x15\x1e\x15\x14\x15\x04\x18\x01a\0\0",
    ending: Ending {
        code: 0,
        output: b"frame 1: meets\n",
        report: b"",
    },
};

/// The same with an operation that is no member of its enum.
const BREAKING: Row = Row {
    line: b"conform compact --limit 1024 --idl calc.thrift",
    input: b"\0\0\0\x1b\x82\x21\x07\x09calculate\x15\x02\x1c\x15\x1e\x15\x14\x15\x12\x18\x01a\0\0",
    ending: Ending {
        code: 1,
        output: b"",
        report: b"frame 1: at 2/3: M7 not a member\n",
    },
};

/// A call on a line of its own, behind an empty line.
const LINED: Row = Row {
    line: b"convert json json --limit 1024 --lines both",
    input: b"\n[1,\"ping\",1,1,{}]\n",
    ending: Ending {
        code: 0,
        output: b"[1,\"ping\",1,1,{}]\n",
        report: b"",
    },
};

/// The file that `calc.thrift` includes.
const SHARED_FILE: &[u8] =
    b"namespace * shared\nstruct SharedStruct { 1: i32 key  2: string value }\nservice SharedService { SharedStruct getStruct(1: i32 key) }\n";

const CALC_FILE: &[u8] =
    b"include \"shared.thrift\"\n/* numbers */\ntypedef i32 MyInteger\ntypedef MyInteger Count\nenum Operation { ADD = 1, SUBTRACT, MULTIPLY }\nunion Either { 1: Count n  2: string s }\nstruct Work { 1: Count num1 = 0, 2: Count num2, 3: Operation op,\n              4: optional string comment, 5: Either extra }\nexception InvalidOperation { 1: i32 whatOp, 2: string why }\nservice Calculator extends shared.SharedService {\n  void ping(),\n  i32 calculate(1: i32 logid, 2: Work w) throws (1: InvalidOperation ouch),\n  oneway void zip()  // no answer\n  i32 old(i32 a, i32 b)\n}\n";

/// Lets the call of this number fail.
fn fail(
    alloc: Global,
    row: &Row,
    failing: Failing,
    call: u64,
    outside: &mut Outside,
) -> Result<(), OutOfMemory> {
    let fails = only(alloc, call)?;
    match failing {
        Failing::Read => outside.input = MemSource::new(alloc, row.input, READ, fails)?,
        Failing::Write => outside.output = MemSink::new(alloc, WRITTEN, fails)?,
        Failing::Report => outside.report = MemSink::new(alloc, WRITTEN, fails)?,
        Failing::Fetch => outside.files = MemFiles::new(alloc, fails)?,
    }
    Ok(())
}

/// The front of some bytes that were written in so many calls.
fn front(bytes: &[u8], calls: u64) -> &[u8] {
    bytes
        .get(..(calls as usize).saturating_mul(WRITTEN))
        .unwrap_or(bytes)
}

/// Whether all of a row's frames were read in so many calls.
fn has_read_all(row: &Row, calls: u64) -> bool {
    (calls as usize).saturating_mul(READ) >= row.input.len()
}

/// Whether the row's command ended as one does whose call of this number failed.
fn is_cut_off(code: u8, outside: &Outside, row: &Row, failing: Failing, call: u64) -> bool {
    let (output, report) = (outside.output.bytes(), outside.report.bytes());
    let whole = row.ending;
    match failing {
        Failing::Read => {
            let is_whole = has_read_all(row, call);
            let told = report.strip_suffix(b"read fault\n".as_slice());
            code == 4
                && output
                    == (if is_whole {
                        whole.output
                    } else {
                        b"".as_slice()
                    })
                && told
                    == Some(if is_whole {
                        whole.report
                    } else {
                        b"".as_slice()
                    })
        }
        Failing::Write => code == 5 && output == front(whole.output, call) && report.is_empty(),
        Failing::Report => {
            code == 5 && output == whole.output && report == front(whole.report, call)
        }
        Failing::Fetch => { code == 6 && output.is_empty() && report == b"file fault\n".as_slice() }
    }
}

/// Where the row's command is cut off, of which the call of this number fails.
fn cut_in(
    alloc: Global,
    row: &Row,
    failing: Failing,
    call: u64,
    outside: &mut Outside,
) -> Result<Cut, OutOfMemory> {
    fail(alloc, row, failing, call, outside)?;
    outside.files.put(b"shared.thrift", SHARED_FILE)?;
    outside.files.put(b"calc.thrift", CALC_FILE)?;
    let code = run_line(alloc, row.line, outside)?;
    if code == row.ending.code && was_written(outside, &row.ending) {
        return Ok(Cut::Nowhere);
    }
    if is_cut_off(code, outside, row, failing, call) {
        return Ok(Cut::AtTheCall);
    }
    Ok(Cut::Otherwise)
}

/// The same over an outside of its own.
fn cut_alone(alloc: Global, row: &Row, failing: Failing, call: u64) -> Result<Cut, OutOfMemory> {
    let mut outside = with_input(alloc, row.input)?;
    cut_in(alloc, row, failing, call, &mut outside)
}

/// How many calls of this kind the command of a row makes, if it is cut off at each of them that fails.
fn calls_of(alloc: Global, row: &Row, failing: Failing) -> Result<Option<u64>, OutOfMemory> {
    for call in 0..100 {
        match cut_alone(alloc, row, failing, call)? {
            Cut::Nowhere => return Ok(Some(call)),
            Cut::AtTheCall => (),
            Cut::Otherwise => return Ok(None),
        }
    }
    Ok(None)
}

/// Whether the command of a row makes so many reads, writes of its output and of its report, and fetches, and is cut off at
/// each of them that fails.
fn is_cut_everywhere(alloc: Global, row: &Row, counts: [u64; 4]) -> Result<bool, OutOfMemory> {
    let [reads, writes, reports, fetches] = counts;
    Ok(
        calls_of(alloc, row, Failing::Read)? == Some(reads)
            && calls_of(alloc, row, Failing::Write)? == Some(writes)
            && calls_of(alloc, row, Failing::Report)? == Some(reports)
            && calls_of(alloc, row, Failing::Fetch)? == Some(fetches),
    )
}

#[test]
fn a_fault_cuts_off_what_follows(rt: HostRuntime) -> Result<(), Fail> {
    let rows = [
        (NUMBERS, [6, 4, 0, 0]),
        (DECLARED, [6, 23, 0, 2]),
        (REFUSED, [5, 0, 7, 0]),
        (MEETING, [6, 3, 0, 2]),
        (BREAKING, [6, 0, 7, 2]),
        (LINED, [4, 4, 0, 0]),
    ];
    for (row, counts) in rows {
        let is_cut = is_cut_everywhere(rt.alloc(), &row, counts)
            .ok()
            .ok_or("memory")?;
        assert!(rt; is_cut, "{:?}", row.line);
    }
    Ok(())
}
