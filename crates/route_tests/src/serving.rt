//! Routed sessions over a fan in memory: what each port is sent, and how the session ends.
ghost use Rattle.std.specs.Prelude.{◌≡◌, ◌<◌, ◌≤◌, length, None};

use gate_base::{OutOfMemory, Text};
use gate_fan::{Fan, Target};
use gate_hub::{Began, Served};
use gate_memory::{Fails, FanStep, FanSteps, MemFan, MemSink};
use protocol_traits::Proto;
use refusal_teller::Untold;
use route_server::route_serve;
use session_judge::Setup;
use std::alloc::Global;
use std::test::*;
use type_tables::{Schema, SchemaBuilder};

/// What happens at the ports of a session.
#[derive(Clone, Copy)]
enum Event {
    Arrives(usize, &'static [u8]),
    Ends(usize),
    /// The next read or write fails.
    Breaks(usize),
    /// From now on nothing can be written.
    IsFull(usize),
}

/// What happens, what each port is sent, and the line of the session.
#[derive(Clone, Copy)]
struct Row {
    events: &'static [Event],
    sent: [&'static [u8]; 3],
    line: &'static [u8],
}

const NO_BYTES: &'static [u8] = b"";

const ANSWERS: &'static [u8] =
    b"\0\0\0\x0e\x80\x01\0\x02\0\0\0\x01a\0\0\0\x01\0\0\0\0\x0e\x80\x01\0\x02\0\0\0\x01b\0\0\0\x02\0";

const TO_CALC: &'static [u8] = b"\0\0\0\x06\x82\x21\x02\x01b\0";

const TO_LOG: &'static [u8] = b"\0\0\0\x06\x82\x21\x01\x01a\0";

/// The calls `Log:a` and `Calc:b`.
const CALLS: Event = Event::Arrives(
    0,
    b"\0\0\0\x12\x80\x01\0\x01\0\0\0\x05Log:a\0\0\0\x01\0\0\0\0\x13\x80\x01\0\x01\0\0\0\x06Calc:b\0\0\0\x02\0",
);

const OF_CALC: Event = Event::Arrives(1, b"\0\0\0\x06\x82\x41\x02\x01b\0");

const OF_LOG: Event = Event::Arrives(2, b"\0\0\0\x06\x82\x41\x01\x01a\0");

/// The exception that answers a call `a` that no target serves.
const NO_ROUTE_OF_A: &'static [u8] =
    b"\0\0\0\x27\x80\x01\0\x03\0\0\0\x01a\0\0\0\x03\x0b\0\x01\0\0\0\x0bV1 no route\x08\0\x02\0\0\0\x01\0";

/// How the answers of several targets come back.
const ANSWERED: [Row; 3] = [
    // The second call's target answers first.
    Row {
        events: &[CALLS, OF_CALC, OF_LOG, Event::Ends(0)],
        sent: [ANSWERS, TO_CALC, TO_LOG],
        line: b"session 0: clean\n",
    },
    // The first call's does.
    Row {
        events: &[
            CALLS,
            OF_LOG,
            OF_CALC,
            Event::Ends(2),
            Event::Ends(1),
            Event::Ends(0),
        ],
        sent: [ANSWERS, TO_CALC, TO_LOG],
        line: b"session 0: clean\n",
    },
    // An answer that comes before its call waits for it.
    Row {
        events: &[OF_LOG, CALLS, OF_CALC, Event::Ends(0)],
        sent: [ANSWERS, TO_CALC, TO_LOG],
        line: b"session 0: clean\n",
    },
];

/// To which target a name leads.
const NAMES: [Row; 5] = [
    // No target has the service.
    Row {
        events: &[
            Event::Arrives(0, b"\0\0\0\x10\x80\x01\0\x01\0\0\0\x03X:c\0\0\0\x03\0"),
            Event::Ends(0),
        ],
        sent: [
            b"\0\0\0\x27\x80\x01\0\x03\0\0\0\x01c\0\0\0\x03\x0b\0\x01\0\0\0\x0bV1 no route\x08\0\x02\0\0\0\x01\0",
            NO_BYTES,
            NO_BYTES,
        ],
        line: b"session 0: clean\n",
    },
    // The service is empty.
    Row {
        events: &[
            Event::Arrives(0, b"\0\0\0\x0f\x80\x01\0\x01\0\0\0\x02:a\0\0\0\x03\0"),
            Event::Ends(0),
        ],
        sent: [NO_ROUTE_OF_A, NO_BYTES, NO_BYTES],
        line: b"session 0: clean\n",
    },
    // There is none.
    Row {
        events: &[
            Event::Arrives(0, b"\0\0\0\x0e\x80\x01\0\x01\0\0\0\x01a\0\0\0\x03\0"),
            Event::Ends(0),
        ],
        sent: [NO_ROUTE_OF_A, NO_BYTES, NO_BYTES],
        line: b"session 0: clean\n",
    },
    // The first colon ends the service.
    Row {
        events: &[Event::Arrives(0, b"\0\0\0\x14\x80\x01\0\x01\0\0\0\x07Log:a:b\0\0\0\x01\0")],
        sent: [NO_BYTES, NO_BYTES, b"\0\0\0\x08\x82\x21\x01\x03a:b\0"],
        line: b"session 0: left open\n",
    },
    // The method is empty.
    Row {
        events: &[Event::Arrives(0, b"\0\0\0\x11\x80\x01\0\x01\0\0\0\x04Log:\0\0\0\x01\0")],
        sent: [NO_BYTES, NO_BYTES, b"\0\0\0\x05\x82\x21\x01\0\0"],
        line: b"session 0: left open\n",
    },
];

/// Targets that end, break, speak out of turn or never read, and a client that goes.
const BAD_PEERS: [Row; 7] = [
    // A target ends while its call is the oldest.
    Row {
        events: &[CALLS, OF_CALC, Event::Ends(2)],
        sent: [NO_BYTES, TO_CALC, TO_LOG],
        line: b"session 0: upstream 2 ended: open calls 1\n",
    },
    // A target ends whose call isn't the oldest.
    Row {
        events: &[CALLS, Event::Ends(1), OF_LOG],
        sent: [
            b"\0\0\0\x0e\x80\x01\0\x02\0\0\0\x01a\0\0\0\x01\0",
            TO_CALC,
            TO_LOG,
        ],
        line: b"session 0: upstream 1 ended: open calls 1\n",
    },
    // A target sends an answer too many.
    Row {
        events: &[CALLS, OF_LOG, OF_CALC, OF_CALC, Event::Ends(0)],
        sent: [ANSWERS, TO_CALC, TO_LOG],
        line: b"session 0: unsolicited: upstream 1: answer 2 to 1 calls\n",
    },
    // A target sends a call.
    Row {
        events: &[CALLS, Event::Arrives(2, TO_LOG)],
        sent: [NO_BYTES, TO_CALC, TO_LOG],
        line: b"session 0: upstream 2 fault: frame 1: wrong way\n",
    },
    // A target breaks that no call went to.
    Row {
        events: &[Event::Breaks(2), CALLS],
        sent: [NO_BYTES, NO_BYTES, NO_BYTES],
        line: b"session 0: link fault: upstream 2\n",
    },
    // A target never reads: what follows its call waits.
    Row {
        events: &[Event::IsFull(2), CALLS, OF_CALC, Event::Ends(0)],
        sent: [NO_BYTES, NO_BYTES, NO_BYTES],
        line: b"session 0: left open\n",
    },
    // The client breaks.
    Row {
        events: &[CALLS, OF_CALC, Event::Breaks(0), OF_LOG],
        sent: [NO_BYTES, TO_CALC, TO_LOG],
        line: b"session 0: link fault: client\n",
    },
];

fn target(alloc: Global, service: &[u8]) -> Result<Target, OutOfMemory> {
    Ok(Target {
        service: Text::new(alloc, service)?,
        address: Text::new(alloc, b"127.0.0.1:1")?,
    })
}

fn step(alloc: Global, event: Event) -> Result<FanStep, OutOfMemory> {
    let session = 0;
    Ok(match event {
        Event::Arrives(port, bytes) => FanStep::Arrive {
            session,
            port,
            bytes: Text::new(alloc, bytes)?,
        },
        Event::Ends(port) => FanStep::Finish { session, port },
        Event::Breaks(port) => FanStep::Break { session, port },
        Event::IsFull(port) => FanStep::Room {
            session,
            port,
            bytes: 0,
        },
    })
}

fn steps(alloc: Global, events: &[Event]) -> Result<FanSteps, OutOfMemory> {
    let mut steps = FanSteps::new(alloc);
    steps.push(FanStep::Connect)?;
    for event in events {
        steps.push(step(alloc, *event)?)?;
    }
    Ok(steps)
}

fn setup<'s>(schema: &'s Schema) -> Setup<'s>
    ensures { (result.limit ≡ 1024) × (result.calls ≡ 16) × (result.service ≡ None) }
{
    Setup {
        schema,
        service: None,
        client: Proto::Binary,
        upstream: Proto::Compact,
        limit: 1024,
        calls: 16,
    }
}

/// A schema in which nothing is declared.
fn undeclared(alloc: Global) -> Result<Schema, OutOfMemory> {
    Ok(SchemaBuilder::new(alloc)?.finish(0))
}

/// Starts the fan and serves its sessions, and says whether the server stops since no event will follow.
fn serves(
    alloc: Global,
    schema: &Schema,
    targets: &[Target],
    fan: &mut MemFan,
    output: &mut MemSink,
) -> bool
    requires some { 0 < length targets.now }
    requires few { length targets.now ≤ 16 }
{
    if fan.start(alloc, b"127.0.0.1:0", targets, 0, 1) != Began::Done {
        return false;
    }
    let served = route_serve(
        alloc,
        &setup(schema),
        targets,
        4,
        1000,
        &Untold,
        fan,
        output,
    );
    matches!(served, Served::Stopped)
}

/// Whether the ports were sent what the row tells, and its line was written.
fn is_as(fan: &MemFan, output: &MemSink, row: &Row) -> bool {
    output.bytes() == row.line
        && fan.sent_to(0, 0) == row.sent[0]
        && fan.sent_to(0, 1) == row.sent[1]
        && fan.sent_to(0, 2) == row.sent[2]
}

/// Whether a server over this fan shows what the row tells.
fn is_shown(
    alloc: Global,
    schema: &Schema,
    row: &Row,
    targets: &[Target],
    fan: &mut MemFan,
) -> Result<bool, OutOfMemory>
    requires some { 0 < length targets.now }
    requires few { length targets.now ≤ 16 }
{
    let mut output = MemSink::new(alloc, 4096, Fails::new(alloc))?;
    Ok(serves(alloc, schema, targets, fan, &mut output) && is_as(fan, &output, row))
}

/// The same over a fan that moves so many bytes in a call.
fn shows(alloc: Global, schema: &Schema, row: &Row, chunk: usize) -> Result<bool, OutOfMemory>
    requires { 0 < chunk }
{
    let targets = [target(alloc, b"Calc")?, target(alloc, b"Log")?];
    let mut fan = MemFan::new(alloc, steps(alloc, row.events)?, chunk)?;
    is_shown(alloc, schema, row, &targets, &mut fan)
}

/// Whether every row is shown, by calls of any size and by calls of a byte each.
fn all_shown(alloc: Global, rows: &[Row]) -> Result<bool, OutOfMemory> {
    let schema = undeclared(alloc)?;
    for row in rows {
        if !shows(alloc, &schema, row, 4096)? || !shows(alloc, &schema, row, 1)? {
            return Ok(false);
        }
    }
    Ok(true)
}

/// Sixteen targets, whose services are named by letters.
fn letters(alloc: Global) -> Result<Vec<Target>, OutOfMemory> {
    let mut targets = Vec::new(alloc);
    for letter in b'A'..=b'P' {
        targets.push(target(alloc, &[letter])?)?;
    }
    Ok(targets)
}

/// A fan whose one client sends a call of the service with this letter.
fn calling(alloc: Global, letter: u8) -> Result<MemFan, OutOfMemory> {
    let call = [
        0, 0, 0, 0x10, 0x80, 1, 0, 1, 0, 0, 0, 3, letter, b':', b'a', 0, 0, 0, 1, 0,
    ];
    let mut steps = steps(alloc, &[])?;
    steps.push(FanStep::Arrive {
        session: 0,
        port: 0,
        bytes: Text::new(alloc, &call)?,
    })?;
    MemFan::new(alloc, steps, 4096)
}

/// Whether the call reaches that port of a server over these targets.
fn is_reached(
    alloc: Global,
    schema: &Schema,
    targets: &[Target],
    fan: &mut MemFan,
    port: usize,
) -> Result<bool, OutOfMemory>
    requires some { 0 < length targets.now }
    requires few { length targets.now ≤ 16 }
{
    let mut output = MemSink::new(alloc, 4096, Fails::new(alloc))?;
    Ok(serves(alloc, schema, targets, fan, &mut output) && fan.sent_to(0, port) == TO_LOG)
}

/// Whether a call of the service with this letter reaches that port.
fn reaches(
    alloc: Global,
    schema: &Schema,
    targets: &[Target],
    letter: u8,
    port: usize,
) -> Result<bool, OutOfMemory> {
    if targets.is_empty() || targets.len() > 16 {
        return Ok(false);
    }
    let mut fan = calling(alloc, letter)?;
    is_reached(alloc, schema, targets, &mut fan, port)
}

/// Whether a call of the service of each of these targets reaches it.
fn all_reached(alloc: Global, schema: &Schema, targets: &[Target]) -> Result<bool, OutOfMemory> {
    let mut are_reached = true;
    for (at, letter) in (b'A'..=b'P').enumerate() {
        let is_reached = reaches(alloc, schema, targets, letter, at.saturating_add(1))?;
        are_reached = are_reached && is_reached;
    }
    Ok(are_reached)
}

fn sixteen_are_reached(alloc: Global) -> Result<bool, OutOfMemory> {
    let schema = undeclared(alloc)?;
    let targets = letters(alloc)?;
    all_reached(alloc, &schema, &targets)
}

#[test]
fn answers_come_back_in_the_order_of_the_calls(rt: HostRuntime) -> Result<(), Fail> {
    assert!(rt; all_shown(rt.alloc(), &ANSWERED).ok().ok_or("memory")?);
    Ok(())
}

#[test]
fn a_name_leads_to_its_target(rt: HostRuntime) -> Result<(), Fail> {
    assert!(rt; all_shown(rt.alloc(), &NAMES).ok().ok_or("memory")?);
    Ok(())
}

#[test]
fn a_bad_peer_ends_its_session(rt: HostRuntime) -> Result<(), Fail> {
    assert!(rt; all_shown(rt.alloc(), &BAD_PEERS).ok().ok_or("memory")?);
    Ok(())
}

#[test]
fn a_call_reaches_each_of_sixteen_targets(rt: HostRuntime) -> Result<(), Fail> {
    assert!(rt; sixteen_are_reached(rt.alloc()).ok().ok_or("memory")?);
    Ok(())
}
