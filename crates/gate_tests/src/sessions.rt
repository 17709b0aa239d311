//! Sessions by themselves: fed whole pieces or single bytes, while what is due is sent at once or byte by byte.
ghost use Rattle.std.specs.Prelude.{◌<◌};

use crate::outside::none;
use crate::serving::{
    ANSWERS, CALC, CALLS, NAMED, NAMED_ANSWERS, NAMED_PASSED, PASSED, THREE_REPLIES,
};
use gate_base::OutOfMemory;
use gate_hub::Side;
use gate_idl::open as open_idl;
use gate_memory::MemFiles;
use protocol_traits::Proto;
use session_core::{Halt, Judge, Outcome, Session, Silent};
use session_judge::{Setup, open};
use std::alloc::Global;
use std::test::*;
use type_tables::Schema;

/// The longest frame in bytes.
const LIMIT: usize = 1024;

/// How many calls may be open.
const OPEN_CALLS: usize = 1024;

/// The most that a session of this limit and so many open calls holds: 52 F + 16 P + 4,096.
const BOUND: usize = 73_728;

/// What comes of a side, and how many bytes the client and the upstream were sent once it came.
type Step = (Side, &'static [u8], usize, usize);

/// A session: what comes to it, which sides end behind that, all that each side is sent, and the outcome.
#[derive(Clone, Copy)]
struct Row {
    client: Proto,
    steps: &'static [Step],
    ends: &'static [Side],
    answers: &'static [u8],
    passed: &'static [u8],
    outcome: Option<Outcome>,
}

/// A call with a double is answered at once, and nothing goes to the upstream.
const REFUSED: Row = Row {
    client: Proto::Compact,
    steps: &[(
        Side::Client,
        b"\0\0\0\x12\x82\x21\x09\x04area\x17\x18\x2d\x44\x54\xfb\x21\x09\x40\0",
        26,
        0,
    )],
    ends: &[],
    answers: b"\0\0\0\x16\x82\x61\x09\x04area\x18\x09U1 double\x15\x0e\0",
    passed: b"",
    outcome: None,
};

/// A refused call is answered in its place, and nothing behind it is passed on before that.
const IN_PLACE: Row = Row {
    client: Proto::Compact,
    steps: &[
        (Side::Client, &CALLS, 0, 21),
        (Side::Upstream, b"\0\0\0\x11[1,\"ping\",2,1,{}]", 39, 42),
        (Side::Upstream, b"\0\0\0\x11[1,\"ping\",2,3,{}]", 52, 42),
    ],
    ends: &[Side::Upstream, Side::Client],
    answers: &ANSWERS,
    passed: &PASSED,
    outcome: Some(Outcome::Clean),
};

/// Calls by the names of services, a oneway one among them, and an answer too many.
const BY_NAME: Row = Row {
    client: Proto::Binary,
    steps: &[
        (Side::Client, &NAMED, 0, 118),
        (Side::Upstream, &THREE_REPLIES, 57, 118),
    ],
    ends: &[Side::Client],
    answers: NAMED_ANSWERS,
    passed: NAMED_PASSED,
    outcome: Some(Outcome::Unsolicited {
        answer: 3,
        calls: 2,
    }),
};

/// The upstream ends while a call is open.
const UNANSWERED: Row = Row {
    client: Proto::Compact,
    steps: &[(Side::Client, b"\0\0\0\x09\x82\x21\x01\x04ping\0", 0, 21)],
    ends: &[Side::Upstream],
    answers: b"",
    passed: b"\0\0\0\x11[1,\"ping\",1,1,{}]",
    outcome: Some(Outcome::UpstreamEnded(1)),
};

/// The client sends a reply.
const WRONG_WAY: Row = Row {
    client: Proto::Compact,
    steps: &[(Side::Client, b"\0\0\0\x09\x82\x41\x01\x04ping\0", 0, 0)],
    ends: &[],
    answers: b"",
    passed: b"",
    outcome: Some(Outcome::ClientFault(1, Halt::WrongWay)),
};

/// The client sends a length below 0.
const NO_LENGTH: Row = Row {
    client: Proto::Compact,
    steps: &[(Side::Client, b"\xff\xff\xff\xff", 0, 0)],
    ends: &[],
    answers: b"",
    passed: b"",
    outcome: Some(Outcome::ClientFault(1, Halt::TooLarge(-1))),
};

/// What was sent so far, and the most that the session held.
#[derive(Drop)]
struct Seen {
    client: Vec<u8>,
    upstream: Vec<u8>,
    held: usize,
}

/// Sends the front of what is due to a side, at most so many bytes, and says how many.
fn send<J: Judge>(
    session: &mut Session<J>,
    side: Side,
    sent: &mut Vec<u8>,
    most: usize,
) -> Result<usize, OutOfMemory> {
    let due = session.due(side);
    let count = due.len().min(most);
    sent.extend_from_slice(&due[..count])?;
    session.sent(side, count, &mut Silent);
    Ok(count)
}

/// Sends all that is due, at most so many bytes at a time.
fn drain<J: Judge>(
    session: &mut Session<J>,
    seen: &mut Seen,
    most: usize,
) -> Result<(), OutOfMemory> {
    seen.held = seen.held.max(session.held());
    for _ in 0..10_000 {
        let to_client = send(session, Side::Client, &mut seen.client, most)?;
        let to_upstream = send(session, Side::Upstream, &mut seen.upstream, most)?;
        if to_client == 0 && to_upstream == 0 {
            break;
        }
    }
    Ok(())
}

/// Takes bytes of a side in pieces, and sends what is due behind each.
fn feed<J: Judge>(
    session: &mut Session<J>,
    side: Side,
    bytes: &[u8],
    seen: &mut Seen,
    piece: usize,
    most: usize,
) -> Result<(), OutOfMemory>
    requires { 0 < piece }
{
    for part in bytes.chunks(piece) {
        match side {
            Side::Client => session.take_client(part, &mut Silent),
            Side::Upstream => session.take_upstream(part, &mut Silent),
        };
        drain(session, seen, most)?;
    }
    Ok(())
}

/// Whether each side was sent so many bytes of what the row tells.
fn was_sent(seen: &Seen, row: &Row, client: usize, upstream: usize) -> bool {
    Some(seen.client.as_slice()) == row.answers.get(..client)
        && Some(seen.upstream.as_slice()) == row.passed.get(..upstream)
}

/// Whether a session does what the row tells, fed in pieces of this size while so many bytes are sent at a time.
fn goes_so<J: Judge>(
    session: &mut Session<J>,
    seen: &mut Seen,
    row: &Row,
    piece: usize,
    most: usize,
) -> Result<bool, OutOfMemory>
    requires { 0 < piece }
{
    for (side, bytes, client, upstream) in row.steps {
        feed(session, *side, bytes, seen, piece, most)?;
        if !was_sent(seen, row, *client, *upstream) {
            return Ok(false);
        }
    }
    for side in row.ends {
        session.end(*side, &mut Silent);
    }
    Ok(
        seen.held <= BOUND
            && was_sent(seen, row, row.answers.len(), row.passed.len())
            && session.outcome() == row.outcome,
    )
}

/// The same of a session that is opened for it.
fn shows(
    alloc: Global,
    schema: &Schema,
    row: &Row,
    piece: usize,
    most: usize,
) -> Result<bool, OutOfMemory>
    requires { 0 < piece }
{
    let setup = Setup {
        schema,
        service: None,
        client: row.client,
        upstream: Proto::Json,
        limit: LIMIT,
        calls: OPEN_CALLS,
    };
    let mut session = open(alloc, &setup)?;
    let mut seen = Seen {
        client: Vec::new(alloc),
        upstream: Vec::new(alloc),
        held: 0,
    };
    goes_so(&mut session, &mut seen, row, piece, most)
}

/// The declarations of the service `Calc`.
fn declared(alloc: Global) -> Option<Schema> {
    let mut files = MemFiles::new(alloc, none(alloc)).ok()?;
    files.put(b"m.thrift", CALC).ok()?;
    open_idl(alloc, &mut files, b"m.thrift").ok()
}

/// Whether the session of each row shows what the row tells.
fn are_shown(
    alloc: Global,
    schema: &Schema,
    rows: &[Row],
    piece: usize,
    most: usize,
) -> Result<bool, OutOfMemory>
    requires { 0 < piece }
{
    let mut are_shown = true;
    for row in rows {
        let is_shown = shows(alloc, schema, row, piece, most)?;
        are_shown = are_shown && is_shown;
    }
    Ok(are_shown)
}

fn go_by_bytes_or_whole(alloc: Global, schema: &Schema) -> Result<bool, OutOfMemory> {
    let rows = [REFUSED, IN_PLACE, BY_NAME, UNANSWERED, WRONG_WAY, NO_LENGTH];
    Ok(
        are_shown(alloc, schema, &rows, 4096, 4096)?
            && are_shown(alloc, schema, &rows, 4096, 1)?
            && are_shown(alloc, schema, &rows, 1, 4096)?
            && are_shown(alloc, schema, &rows, 1, 1)?,
    )
}

#[test]
fn sessions_go_by_bytes_or_whole(rt: HostRuntime) -> Result<(), Fail> {
    let schema = declared(rt.alloc()).ok_or("a schema")?;
    let is_so = go_by_bytes_or_whole(rt.alloc(), &schema)
        .ok()
        .ok_or("memory")?;
    assert!(rt; is_so);
    Ok(())
}
