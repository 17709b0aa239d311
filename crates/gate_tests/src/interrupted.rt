//! One session over a hub in memory that is slow, breaks at each step, or ends at each byte.
use crate::script::{Act, Shown, shows};
use crate::serving::{ANSWERS, CALLS, COMPACT_TO_JSON, PASSED, REPLIES};
use gate_base::OutOfMemory;
use gate_hub::Side;
use std::alloc::Global;
use std::test::*;

/// Call 1 alone, as the upstream is sent it.
const FIRST_CALL: usize = 21;

/// The answer to call 1 alone.
const FIRST_REPLY: usize = 21;

/// A session whose sides take a byte more with each step, and the acts of it.
fn slow(alloc: Global) -> Result<Vec<Act<'static>>, OutOfMemory> {
    let mut acts = Vec::from_slice(
        alloc,
        &[
            Act::Connects,
            Act::HasRoom(Side::Client, 0),
            Act::HasRoom(Side::Upstream, 0),
            Act::Sends(Side::Client, &CALLS),
            Act::Sends(Side::Upstream, &REPLIES),
        ],
    )?;
    for _ in 0..ANSWERS.len() + PASSED.len() {
        acts.push(Act::HasRoom(Side::Client, 1))?;
        acts.push(Act::HasRoom(Side::Upstream, 1))?;
    }
    Ok(acts)
}

/// Whether a session with these acts is shown so.
fn is_shown(alloc: Global, acts: &[Act<'_>], shown: &Shown<'_>) -> Result<bool, OutOfMemory> {
    shows(alloc, COMPACT_TO_JSON, b"", acts, 4096, shown)
}

fn slow_sides_are_sent_all(alloc: Global) -> Result<bool, OutOfMemory> {
    let acts = slow(alloc)?;
    let shown = Shown {
        client: &ANSWERS,
        upstream: &PASSED,
        ending: b"session 0: left open\n",
    };
    is_shown(alloc, &acts, &shown)
}

#[test]
fn slow_sides_are_sent_the_same(rt: HostRuntime) -> Result<(), Fail> {
    assert!(rt; slow_sides_are_sent_all(rt.alloc()).ok().ok_or("memory")?);
    Ok(())
}

/// The first bytes of some, so many.
fn front(bytes: &[u8], count: usize) -> &[u8] {
    bytes.get(..count).unwrap_or(bytes)
}

/// The acts of a session, and how many bytes each side was sent before each of them.
const ACTS: [(Act<'static>, usize, usize); 4] = [
    (Act::Connects, 0, 0),
    (Act::Sends(Side::Client, &CALLS), 0, 0),
    (Act::Sends(Side::Upstream, &REPLIES), 0, 21),
    (Act::Ends(Side::Client), 52, 42),
];

/// The same acts, and before the one at a place a break of a side.
fn broken(alloc: Global, place: usize, side: Side) -> Result<Vec<Act<'static>>, OutOfMemory> {
    let mut acts = Vec::new(alloc);
    for (at, (act, _, _)) in ACTS.iter().enumerate() {
        if at == place {
            acts.push(Act::Breaks(side))?;
        }
        acts.push(*act)?;
    }
    Ok(acts)
}

/// The line of a session whose side broke.
fn link_fault(side: Side) -> &'static [u8] {
    match side {
        Side::Client => b"session 0: link fault: client\n",
        Side::Upstream => b"session 0: link fault: upstream\n",
    }
}

/// Whether a break before each act ends the session where it stands.
fn breaks_are_told(alloc: Global, side: Side) -> Result<bool, OutOfMemory> {
    let mut are_told = true;
    for (place, (_, client, upstream)) in ACTS.iter().enumerate().skip(1) {
        let acts = broken(alloc, place, side)?;
        let shown = Shown {
            client: front(&ANSWERS, *client),
            upstream: front(&PASSED, *upstream),
            ending: link_fault(side),
        };
        let is_told = is_shown(alloc, &acts, &shown)?;
        are_told = are_told && is_told;
    }
    Ok(are_told)
}

#[test]
fn a_break_ends_the_session_where_it_stands(rt: HostRuntime) -> Result<(), Fail> {
    for side in [Side::Client, Side::Upstream] {
        let are_told = breaks_are_told(rt.alloc(), side).ok().ok_or("memory")?;
        assert!(rt; are_told, "{side:?}");
    }
    Ok(())
}

/// What a session shows whose client ends behind so many bytes of its calls; those that were passed on are answered.
fn shown_of_client(cut: usize) -> Shown<'static> {
    let (answers, passed) = match cut {
        0..13 => (0, 0),
        13..35 => (13, FIRST_CALL),
        35..48 => (39, FIRST_CALL),
        _ => (ANSWERS.len(), PASSED.len()),
    };
    Shown {
        client: front(&ANSWERS, answers),
        upstream: front(&PASSED, passed),
        ending: match cut {
            0 | 13 | 35 | 48 => b"session 0: clean\n",
            1..13 => b"session 0: client fault: frame 1: ended inside\n",
            14..35 => b"session 0: client fault: frame 2: ended inside\n",
            _ => b"session 0: client fault: frame 3: ended inside\n",
        },
    }
}

/// The answers to the calls that are passed on of so many bytes.
fn replies_to(cut: usize) -> &'static [u8] {
    match cut {
        0..13 => b"",
        13..48 => front(&REPLIES, FIRST_REPLY),
        _ => &REPLIES,
    }
}

fn client_may_end_at(alloc: Global, cut: usize) -> Result<bool, OutOfMemory> {
    let acts = [
        Act::Connects,
        Act::Sends(Side::Client, front(&CALLS, cut)),
        Act::Ends(Side::Client),
        Act::Sends(Side::Upstream, replies_to(cut)),
    ];
    is_shown(alloc, &acts, &shown_of_client(cut))
}

#[test]
fn a_client_may_end_at_each_byte(rt: HostRuntime) -> Result<(), Fail> {
    for cut in 0..=CALLS.len() {
        let is_so = client_may_end_at(rt.alloc(), cut).ok().ok_or("memory")?;
        assert!(rt; is_so, "{cut}");
    }
    Ok(())
}

/// What a session shows whose upstream ends behind so many bytes of its answers.
fn shown_of_upstream(cut: usize) -> Shown<'static> {
    let (answers, passed) = match cut {
        0..21 => (0, FIRST_CALL),
        21..42 => (39, PASSED.len()),
        _ => (ANSWERS.len(), PASSED.len()),
    };
    Shown {
        client: front(&ANSWERS, answers),
        upstream: front(&PASSED, passed),
        ending: match cut {
            0 | 21 => b"session 0: upstream ended: open calls 1\n",
            42 => b"session 0: clean\n",
            1..21 => b"session 0: upstream fault: frame 1: ended inside\n",
            _ => b"session 0: upstream fault: frame 2: ended inside\n",
        },
    }
}

fn upstream_may_end_at(alloc: Global, cut: usize) -> Result<bool, OutOfMemory> {
    let acts = [
        Act::Connects,
        Act::Sends(Side::Client, &CALLS),
        Act::Sends(Side::Upstream, front(&REPLIES, cut)),
        Act::Ends(Side::Upstream),
        Act::Ends(Side::Client),
    ];
    is_shown(alloc, &acts, &shown_of_upstream(cut))
}

#[test]
fn an_upstream_may_end_at_each_byte(rt: HostRuntime) -> Result<(), Fail> {
    for cut in 0..=REPLIES.len() {
        let is_so = upstream_may_end_at(rt.alloc(), cut).ok().ok_or("memory")?;
        assert!(rt; is_so, "{cut}");
    }
    Ok(())
}
