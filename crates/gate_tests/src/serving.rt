//! The command `serve` over a hub in memory: what each side is sent, and how the session ends.
use crate::outside::{Ending, Outside, ends_as, only, with_input};
use crate::script::{Act, Shown, shows, with_acts};
use gate_base::OutOfMemory;
use gate_hub::Side;
use gate_memory::{HubStep, HubSteps, MemHub, MemSink};
use std::alloc::Global;
use std::test::*;

/// A server between a Compact client and a JSON upstream, of which nothing is declared.
pub const COMPACT_TO_JSON: &[u8] = b"serve compact json 127.0.0.1:1 127.0.0.1:2 --limit 1024";

/// What a Compact client sends: a call `ping` 1, one of number 2 with a double in it, and a call 3, framed.
pub const CALLS: [u8; 48] =
    *b"\0\0\0\x09\x82\x21\x01\x04ping\0\0\0\0\x12\x82\x21\x02\x04ping\x17\x18\x2d\x44\x54\xfb\x21\x09\x40\0\0\0\0\x09\x82\x21\x03\x04ping\0";

/// The answers of a JSON upstream to calls 1 and 3, framed.
pub const REPLIES: [u8; 42] = *b"\0\0\0\x11[1,\"ping\",2,1,{}]\0\0\0\x11[1,\"ping\",2,3,{}]";

/// What the client is sent: the answer to call 1, the refusal of call 2, and the answer to call 3, framed.
pub const ANSWERS: [u8; 52] =
    *b"\0\0\0\x09\x82\x41\x01\x04ping\0\0\0\0\x16\x82\x61\x02\x04ping\x18\x09U1 double\x15\x0e\0\0\0\0\x09\x82\x41\x03\x04ping\0";

/// What the upstream is sent: calls 1 and 3, framed.
pub const PASSED: [u8; 42] = *b"\0\0\0\x11[1,\"ping\",1,1,{}]\0\0\0\x11[1,\"ping\",1,3,{}]";

/// Methods of a service that is named before them, one of them oneway.
pub const CALC: &[u8] =
    b"service Calc { string name(), oneway void log(1: string s), i32 add(1: i32 a, 2: i32 b) }  service Other {}";

/// What a Binary client of it sends: calls `Calc:name` 1, `Calc:log` 2 and `Calc:add` 3, framed.
pub const NAMED: [u8; 98] =
    *b"\0\0\0\x16\x80\x01\0\x01\0\0\0\x09Calc:name\0\0\0\x01\0\0\0\0\x1d\x80\x01\0\x04\0\0\0\x08Calc:log\0\0\0\x02\x0b\0\x01\0\0\0\x01x\0\0\0\0\x23\x80\x01\0\x01\0\0\0\x08Calc:add\0\0\0\x03\x08\0\x01\0\0\0\x01\x08\0\x02\0\0\0\x02\0";

/// The answers to `name` and `add`, and one to no call.
pub const THREE_REPLIES: [u8; 103] =
    *b"\0\0\0\x21[1,\"name\",2,1,{\"0\":{\"str\":\"hi\"}}]\0\0\0\x1d[1,\"add\",2,3,{\"0\":{\"i32\":3}}]\0\0\0\x1d[1,\"add\",2,4,{\"0\":{\"i32\":4}}]";

/// What the client is sent: the answers to `name` and `add`, framed.
pub const NAMED_ANSWERS: &[u8] =
    b"\0\0\0\x1a\x80\x01\0\x02\0\0\0\x04name\0\0\0\x01\x0b\0\0\0\0\0\x02hi\0\0\0\0\x17\x80\x01\0\x02\0\0\0\x03add\0\0\0\x03\x08\0\0\0\0\0\x03\0";

/// What the upstream is sent: all three calls, framed.
pub const NAMED_PASSED: &[u8] =
    b"\0\0\0\x16[1,\"Calc:name\",1,1,{}]\0\0\0\x24[1,\"Calc:log\",4,2,{\"1\":{\"str\":\"x\"}}]\0\0\0\x30[1,\"Calc:add\",1,3,{\"1\":{\"i32\":1},\"2\":{\"i32\":2}}]";

/// The words of a server, what comes to its one session, and what that shows.
#[derive(Clone, Copy)]
struct Case {
    line: &'static [u8],
    acts: &'static [Act<'static>],
    shown: Shown<'static>,
}

/// A refused call is answered in its place, and both sides end.
const IN_PLACE: Case = Case {
    line: COMPACT_TO_JSON,
    acts: &[
        Act::Connects,
        Act::Sends(Side::Client, &CALLS),
        Act::Sends(Side::Upstream, &REPLIES),
        Act::Ends(Side::Upstream),
        Act::Ends(Side::Client),
    ],
    shown: Shown {
        client: &ANSWERS,
        upstream: &PASSED,
        ending: b"session 0: clean\n",
    },
};

/// Calls by the names of services, a oneway one among them, and an answer too many. The upstream is named, and the server listens
/// at an address of version 6.
const BY_NAME: Case = Case {
    line: b"serve binary json [::1]:1 orders:2 --idl m.thrift",
    acts: &[
        Act::Connects,
        Act::Sends(Side::Client, &NAMED),
        Act::Sends(Side::Upstream, &THREE_REPLIES),
        Act::Ends(Side::Client),
    ],
    shown: Shown {
        client: NAMED_ANSWERS,
        upstream: NAMED_PASSED,
        ending: b"session 0: unsolicited: answer 3 to 2 calls\n",
    },
};

/// The upstream ends while a call is open.
const UNANSWERED: Case = Case {
    line: COMPACT_TO_JSON,
    acts: &[
        Act::Connects,
        Act::Sends(Side::Client, b"\0\0\0\x09\x82\x21\x01\x04ping\0"),
        Act::Ends(Side::Upstream),
    ],
    shown: Shown {
        client: b"",
        upstream: b"\0\0\0\x11[1,\"ping\",1,1,{}]",
        ending: b"session 0: upstream ended: open calls 1\n",
    },
};

/// The client sends a reply.
const WRONG_WAY: Case = Case {
    line: COMPACT_TO_JSON,
    acts: &[
        Act::Connects,
        Act::Sends(Side::Client, b"\0\0\0\x09\x82\x41\x01\x04ping\0"),
    ],
    shown: Shown {
        client: b"",
        upstream: b"",
        ending: b"session 0: client fault: frame 1: wrong way\n",
    },
};

/// One call may be open: the second waits for the answer to the first.
const ONE_AT_A_TIME: Case = Case {
    line: b"serve compact compact 127.0.0.1:1 127.0.0.1:2 --calls 1",
    acts: &[
        Act::Connects,
        Act::Sends(
            Side::Client,
            b"\0\0\0\x09\x82\x21\x01\x04ping\0\0\0\0\x09\x82\x21\x01\x04ping\0",
        ),
    ],
    shown: Shown {
        client: b"",
        upstream: b"\0\0\0\x09\x82\x21\x01\x04ping\0",
        ending: b"session 0: left open\n",
    },
};

/// Two Binary calls without frames, to an upstream that frames Compact.
const WITHOUT_FRAMES: Case = Case {
    line: b"serve binary compact 127.0.0.1:1 127.0.0.1:2 --unframed client",
    acts: &[
        Act::Connects,
        Act::Sends(
            Side::Client,
            b"\x80\x01\0\x01\0\0\0\x04ping\0\0\0\x01\0\x80\x01\0\x01\0\0\0\x04ping\0\0\0\x01\0",
        ),
        Act::Sends(
            Side::Upstream,
            b"\0\0\0\x09\x82\x41\x01\x04ping\0\0\0\0\x09\x82\x41\x01\x04ping\0",
        ),
        Act::Ends(Side::Client),
    ],
    shown: Shown {
        client: b"\x80\x01\0\x02\0\0\0\x04ping\0\0\0\x01\0\x80\x01\0\x02\0\0\0\x04ping\0\0\0\x01\0",
        upstream: b"\0\0\0\x09\x82\x21\x01\x04ping\0\0\0\0\x09\x82\x21\x01\x04ping\0",
        ending: b"session 0: clean\n",
    },
};

/// A field of no kind in a call without a frame: the call is answered, and no end of it can be found.
const WITHOUT_AN_END: Case = Case {
    line: b"serve binary compact 127.0.0.1:1 127.0.0.1:2 --unframed client",
    acts: &[
        Act::Connects,
        Act::Sends(Side::Client, b"\x80\x01\0\x01\0\0\0\x04ping\0\0\0\x01\x05"),
    ],
    shown: Shown {
        client: b"\x80\x01\0\x03\0\0\0\x04ping\0\0\0\x01\x0b\0\x01\0\0\0\x0bG4 bad kind\x08\0\x02\0\0\0\x07\0",
        upstream: b"",
        ending: b"session 0: client fault: frame 2: length -1\n",
    },
};

/// An upstream whose answers have no frames.
const ANSWERS_WITHOUT_FRAMES: Case = Case {
    line: b"serve json compact 127.0.0.1:1 127.0.0.1:2 --unframed upstream",
    acts: &[
        Act::Connects,
        Act::Sends(Side::Client, b"\0\0\0\x11[1,\"ping\",1,1,{}]"),
        Act::Sends(Side::Upstream, b"\x82\x41\x01\x04ping\0"),
        Act::Ends(Side::Client),
    ],
    shown: Shown {
        client: b"\0\0\0\x11[1,\"ping\",2,1,{}]",
        upstream: b"\x82\x21\x01\x04ping\0",
        ending: b"session 0: clean\n",
    },
};

/// Two POSTs in one piece, each with a Binary call: the second is handed out after the answer to the first.
const POSTS: Case = Case {
    line: b"serve binary json 127.0.0.1:1 127.0.0.1:2 --front http",
    acts: &[
        Act::Connects,
        Act::Sends(
            Side::Client,
            b"POST /rpc HTTP/1.1\r\nHost: a\r\nContent-Length: 17\r\n\r\n\x80\x01\0\x01\0\0\0\x04ping\0\0\0\x01\0POST /rpc HTTP/1.1\r\nHost: a\r\nContent-Length: 17\r\n\r\n\x80\x01\0\x01\0\0\0\x04ping\0\0\0\x01\0",
        ),
        Act::Sends(Side::Upstream, b"\0\0\0\x11[1,\"ping\",2,1,{}]"),
        Act::Sends(Side::Upstream, b"\0\0\0\x11[1,\"ping\",2,1,{}]"),
        Act::Ends(Side::Client),
    ],
    shown: Shown {
        client: b"HTTP/1.1 200 OK\r\nContent-Type: application/x-thrift\r\nContent-Length: 17\r\n\r\n\x80\x01\0\x02\0\0\0\x04ping\0\0\0\x01\0HTTP/1.1 200 OK\r\nContent-Type: application/x-thrift\r\nContent-Length: 17\r\n\r\n\x80\x01\0\x02\0\0\0\x04ping\0\0\0\x01\0",
        upstream: b"\0\0\0\x11[1,\"ping\",1,1,{}]\0\0\0\x11[1,\"ping\",1,1,{}]",
        ending: b"session 0: clean\n",
    },
};

/// A GET is refused, and nothing is sent.
const GET: Case = Case {
    line: b"serve binary json 127.0.0.1:1 127.0.0.1:2 --front http",
    acts: &[
        Act::Connects,
        Act::Sends(Side::Client, b"GET / HTTP/1.1\r\nHost: a\r\n\r\n"),
    ],
    shown: Shown {
        client: b"",
        upstream: b"",
        ending: b"session 0: client fault: frame 1: length -1\n",
    },
};

/// A POST with a oneway message gets a response without content, before anything else is handed out; and the upstream has no frames.
const ONEWAY_POST: Case = Case {
    line: b"serve json compact 127.0.0.1:1 127.0.0.1:2 --front http --unframed upstream",
    acts: &[
        Act::Connects,
        Act::Sends(
            Side::Client,
            b"POST / HTTP/1.1\r\ncontent-length: 17\r\n\r\n[1,\"ping\",4,1,{}]POST / HTTP/1.0\r\nContent-Length: 17\r\n\r\n[1,\"ping\",1,1,{}]",
        ),
        Act::Sends(Side::Upstream, b"\x82\x41\x01\x04ping\0"),
    ],
    shown: Shown {
        client: b"HTTP/1.1 200 OK\r\nContent-Type: application/x-thrift\r\nContent-Length: 0\r\n\r\nHTTP/1.1 200 OK\r\nContent-Type: application/x-thrift\r\nContent-Length: 17\r\n\r\n[1,\"ping\",2,1,{}]",
        upstream: b"\x82\x81\x01\x04ping\0\x82\x21\x01\x04ping\0",
        ending: b"session 0: clean\n",
    },
};

/// The same server, which tells each refusal.
const TELLING: &[u8] = b"serve compact json 127.0.0.1:1 127.0.0.1:2 --limit 1024 --tell refused";

/// The refused call of number 2, between calls that pass, is told once.
const TOLD: Case = Case {
    line: TELLING,
    acts: &[
        Act::Connects,
        Act::Sends(Side::Client, &CALLS),
        Act::Sends(Side::Upstream, &REPLIES),
        Act::Ends(Side::Client),
    ],
    shown: Shown {
        client: &ANSWERS,
        upstream: &PASSED,
        ending: b"session 0: call 2 \"ping\" 2: at 9: U1 double\nsession 0: clean\n",
    },
};

/// A oneway message with a double is dropped.
const TOLD_OF_A_ONEWAY: Case = Case {
    line: TELLING,
    acts: &[
        Act::Connects,
        Act::Sends(
            Side::Client,
            b"\0\0\0\x12\x82\x81\x02\x04ping\x17\x18\x2d\x44\x54\xfb\x21\x09\x40\0",
        ),
        Act::Ends(Side::Client),
    ],
    shown: Shown {
        client: b"",
        upstream: b"",
        ending: b"session 0: call 1 \"ping\" 2: at 9: U1 double, dropped\nsession 0: clean\n",
    },
};

/// A string of which nothing is declared is refused in an answer.
const TOLD_OF_AN_ANSWER: Case = Case {
    line: TELLING,
    acts: &[
        Act::Connects,
        Act::Sends(Side::Client, b"\0\0\0\x09\x82\x21\x01\x04ping\0"),
        Act::Sends(
            Side::Upstream,
            b"\0\0\0\x21[1,\"ping\",2,1,{\"0\":{\"str\":\"hi\"}}]",
        ),
        Act::Ends(Side::Client),
    ],
    shown: Shown {
        client: b"\0\0\0\x1e\x82\x61\x01\x04ping\x18\x11U2 unknown string\x15\x0e\0",
        upstream: b"\0\0\0\x11[1,\"ping\",1,1,{}]",
        ending: b"session 0: answer 1 \"ping\" 1: at 26: U2 unknown string\nsession 0: clean\n",
    },
};

/// Of a name of 65 bytes 64 are told. The call is refused for a field of no kind.
const TOLD_OF_A_LONG_NAME: Case = Case {
    line: b"serve compact json 127.0.0.1:1 127.0.0.1:2 --tell refused",
    acts: &[
        Act::Connects,
        Act::Sends(
            Side::Client,
            b"\0\0\0\x46\x82\x81\x01\x41\"\n\x80aaaaaaaaaaaaaaaaaaaaaaaaaaaaaaaaaaaaaaaaaaaaaaaaaaaaaaaaaaaaab\x1e",
        ),
        Act::Ends(Side::Client),
    ],
    shown: Shown {
        client: b"",
        upstream: b"",
        ending: b"session 0: call 1 \"\\\"\\x0A\\x80aaaaaaaaaaaaaaaaaaaaaaaaaaaaaaaaaaaaaaaaaaaaaaaaaaaaaaaaaaaaa\".. 1: at 69: G4 bad kind, dropped\nsession 0: clean\n",
    },
};

/// Whether the session of each case shows what the case tells, moved by bytes and in pieces.
fn are_shown(alloc: Global, cases: &[Case]) -> Result<bool, OutOfMemory> {
    let mut are_shown = true;
    for case in cases {
        let by_bytes = shows(alloc, case.line, CALC, case.acts, 1, &case.shown)?;
        let in_pieces = shows(alloc, case.line, CALC, case.acts, 4096, &case.shown)?;
        are_shown = are_shown && by_bytes && in_pieces;
    }
    Ok(are_shown)
}

#[test]
fn sessions_are_served(rt: HostRuntime) -> Result<(), Fail> {
    let cases = [IN_PLACE, BY_NAME, UNANSWERED, WRONG_WAY, ONE_AT_A_TIME];
    assert!(rt; are_shown(rt.alloc(), &cases).ok().ok_or("memory")?);
    Ok(())
}

#[test]
fn peers_without_frames_are_served(rt: HostRuntime) -> Result<(), Fail> {
    let cases = [WITHOUT_FRAMES, WITHOUT_AN_END, ANSWERS_WITHOUT_FRAMES];
    assert!(rt; are_shown(rt.alloc(), &cases).ok().ok_or("memory")?);
    Ok(())
}

#[test]
fn clients_that_send_posts_are_served(rt: HostRuntime) -> Result<(), Fail> {
    let cases = [POSTS, GET, ONEWAY_POST];
    assert!(rt; are_shown(rt.alloc(), &cases).ok().ok_or("memory")?);
    Ok(())
}

#[test]
fn refusals_are_told(rt: HostRuntime) -> Result<(), Fail> {
    let cases = [
        TOLD,
        TOLD_OF_A_ONEWAY,
        TOLD_OF_AN_ANSWER,
        TOLD_OF_A_LONG_NAME,
    ];
    assert!(rt; are_shown(rt.alloc(), &cases).ok().ok_or("memory")?);
    Ok(())
}

/// An outside at which this happens, whose output fails at the first write.
fn with_a_broken_output(alloc: Global, acts: &[Act<'_>]) -> Result<Outside, OutOfMemory> {
    let output = MemSink::new(alloc, 64, only(alloc, 0)?)?;
    let mut outside = with_acts(alloc, acts, 4096)?;
    outside.output = output;
    Ok(outside)
}

/// Whether a server ends with a write fault that can't tell a refusal.
fn ends_untold(alloc: Global) -> Result<bool, OutOfMemory> {
    let mut outside = with_a_broken_output(alloc, TOLD.acts)?;
    ends_as(
        alloc,
        TELLING,
        &mut outside,
        &Ending {
            code: 5,
            output: b"",
            report: b"",
        },
    )
}

#[test]
fn a_refusal_that_cannot_be_told_ends_the_server(rt: HostRuntime) -> Result<(), Fail> {
    assert!(rt; ends_untold(rt.alloc()).ok().ok_or("memory")?);
    Ok(())
}

/// An outside with two connections.
fn crowd(alloc: Global) -> Result<Outside, OutOfMemory> {
    let mut steps = HubSteps::new(alloc);
    steps.push(HubStep::Connect)?;
    steps.push(HubStep::Connect)?;
    let hub = MemHub::new(alloc, steps, 1)?;
    let mut outside = with_input(alloc, b"")?;
    outside.hub = hub;
    Ok(outside)
}

/// Whether a server of one session tells of the second that it is one too many.
fn is_crowded(alloc: Global) -> Result<bool, OutOfMemory> {
    let mut outside = crowd(alloc)?;
    ends_as(
        alloc,
        b"serve binary compact 127.0.0.1:1 127.0.0.1:2 --sessions 1",
        &mut outside,
        &Ending {
            code: 0,
            output: b"session 1: full\nsession 0: left open\n",
            report: b"",
        },
    )
}

#[test]
fn one_session_too_many_is_full(rt: HostRuntime) -> Result<(), Fail> {
    assert!(rt; is_crowded(rt.alloc()).ok().ok_or("memory")?);
    Ok(())
}
