//! One turn of a session: rounds of writes and reads, until nothing moves.
ghost use Rattle.std.specs.Prelude.{◌≡◌, ◌<◌, ◌≤◌, ◌⊎◌, [], length, take, true, is_some, None, Some, Ok, IfOk, IfErr};
ghost use Rattle.gate_hub.specs.Hubs.{Later};
ghost use Rattle.session_core.specs.Session.{HoldsWithin, due_to, room_of, and_sent, and_ended};
ghost use Rattle.proxy_server.specs.Calling.{piece_length, LinkRose};
ghost use Rattle.proxy_server.specs.Matching.{IsSame, and_received, MatchesOn};
ghost use Rattle.proxy_server.specs.Turning.{IsQuiet, EndsAs, KeepsMarks, wanted, to_fill, most_behind, write_waits, read_waits, TurnGoesInOrder, Calls, to_write, room_in, to_read, other};

use crate::turn_end::Turn;
use crate::waiting::Waits;
use gate_hub::{Hub, LinkGot, LinkPut, Side};
use session_core::{Judge, Notes, Outcome, Session};

/// At most so many bytes are read or written by a call.
pub const PIECE: usize = 4096;

/// At most so many bytes of a side are read by a call while something is due to the other: fewer than a write moves, so
/// that what a session holds doesn't pile up.
const PIECE_BEHIND: usize = 3072;

/// After so many calls that moved bytes or brought an end, the turn is over.
const MOST_MOVES: u32 = 16;

/// One turn of session k, which is open and matches what the hub tells of it.
///
/// It goes in rounds: a write to the client, one to the upstream, a read of the upstream and one of the client, each of
/// at most 4,096 bytes. A write is left out where nothing is due, a read where there is no room or the side has ended,
/// and either once it answered in this turn that it isn't ready. A call that fails is the last, and ends the turn with
/// `Outcome::LinkFault`. It takes no memory: the session keeps its rooms, and holds no more than it may, before and after.
pub fn turn<H: Hub, J: Judge, N: Notes>(
    session: &mut Session<J>,
    hub: &mut H,
    k: u64,
    notes: &mut N,
) -> Turn
    ensures turned { TurnGoesInOrder J.rules k (N.tells notes.old notes.new) (H.tells hub.old) session.old (H.tells hub.new) session.new result }
    ensures ending { EndsAs session.new.outcome result }
    ensures same { IsSame J session.old session.new }
    ensures holds { HoldsWithin session.old × HoldsWithin session.new }
    ensures later { Later (H.counts hub.old) (H.counts hub.new) }
    ensures kept { H.kept hub.new ≡ H.kept hub.old }
    ensures cause { (side : Side) → result ≡ Turn.Ended (Outcome.LinkFault side) →
        LinkRose (H.counts hub.old) (H.counts hub.new) k side }
{
    let mut piece = [0; PIECE];
    turn_with(session, hub, k, &mut piece, notes)
}

/// The same with a piece for what is read, which is filled once for many turns. What it holds before makes no difference.
pub fn turn_with<H: Hub, J: Judge, N: Notes>(
    session: &mut Session<J>,
    hub: &mut H,
    k: u64,
    piece: &mut [u8],
    notes: &mut N,
) -> Turn
    requires { length piece.old ≡ piece_length }
    ensures turned { TurnGoesInOrder J.rules k (N.tells notes.old notes.new) (H.tells hub.old) session.old (H.tells hub.new) session.new result }
    ensures ending { EndsAs session.new.outcome result }
    ensures same { IsSame J session.old session.new }
    ensures holds { HoldsWithin session.old × HoldsWithin session.new }
    ensures later { Later (H.counts hub.old) (H.counts hub.new) }
    ensures kept { H.kept hub.new ≡ H.kept hub.old }
    ensures cause { (side : Side) → result ≡ Turn.Ended (Outcome.LinkFault side) →
        LinkRose (H.counts hub.old) (H.counts hub.new) k side }
    ensures piece { length piece.new ≡ piece_length }
{
    let mut waits = Waits {
        client_write: false,
        client_read: false,
        upstream_write: false,
        upstream_read: false,
    };
    let mut moved = 0;
    while moved < MOST_MOVES {
        if let Some(outcome) = session.outcome() {
            return Turn::Ended(outcome);
        }
        match round(session, hub, k, &mut waits, piece, notes) {
            Err(side) => return Turn::Ended(Outcome::LinkFault(side)),
            Ok(0) => return Turn::Settled,
            Ok(count) => moved += count,
        }
    }
    match session.outcome() {
        Some(outcome) => Turn::Ended(outcome),
        None => Turn::More,
    }
}

/// Writes to both sides and reads both, and answers how many calls moved something, or the side whose call failed.
fn round<H: Hub, J: Judge, N: Notes>(
    session: &mut Session<J>,
    hub: &mut H,
    k: u64,
    waits: &mut Waits,
    piece: &mut [u8],
    notes: &mut N,
) -> Result<u32, Side>
    requires { length piece.old ≡ piece_length }
    ensures goes { Calls J.rules k wanted (N.tells notes.old notes.new)
        (H.tells hub.old) session.old waits.old (H.tells hub.new) session.new waits.new result }
    ensures idle { wanted waits.old session.old ≡ None → (session.new ≡ session.old) × (waits.new ≡ waits.old) }
    ensures same { IsSame J session.old session.new }
    ensures holds { HoldsWithin session.new }
    ensures later { Later (H.counts hub.old) (H.counts hub.new) }
    ensures kept { H.kept hub.new ≡ H.kept hub.old }
    ensures cause { IfErr result (LinkRose (H.counts hub.old) (H.counts hub.new) k) }
    ensures quiet { result ≡ Ok 0 →
        (session.new ≡ session.old) × IsQuiet session.new.limit session.new.standing session.new.outcome waits.new }
    ensures few { IfOk result (λ n. n ≤ 4) }
    ensures piece { length piece.new ≡ length piece.old }
{
    let written = write(session, hub, k, Side::Client, waits, notes)?;
    let passed_on = write(session, hub, k, Side::Upstream, waits, notes)?;
    let answered = read_behind(session, hub, k, Side::Upstream, waits, piece, notes)?;
    let taken = read_behind(session, hub, k, Side::Client, waits, piece, notes)?;
    Ok(written + passed_on + answered + taken)
}

fn other(side: Side) -> Side
    ensures { result ≡ other side }
{
    match side {
        Side::Client => Side::Upstream,
        Side::Upstream => Side::Client,
    }
}

/// How many bytes a call may read of a side, where these are due to the other.
fn most_read(due_to_other: &[u8]) -> usize
    ensures { result ≡ most_behind due_to_other.now }
{
    if due_to_other.is_empty() {
        PIECE
    } else {
        PIECE_BEHIND
    }
}

/// Reads a side, in a smaller piece while something is due to the other. A side that isn't ready is asked about before all
/// else: in most rounds neither is.
#[inline(always)]
fn read_behind<H: Hub, J: Judge, N: Notes>(
    session: &mut Session<J>,
    hub: &mut H,
    k: u64,
    side: Side,
    waits: &mut Waits,
    piece: &mut [u8],
    notes: &mut N,
) -> Result<u32, Side>
    requires { length piece.old ≡ piece_length }
    ensures goes { Calls J.rules k (to_read side) (N.tells notes.old notes.new)
        (H.tells hub.old) session.old waits.old (H.tells hub.new) session.new waits.new result }
    ensures idle { to_read side waits.old session.old ≡ None → (session.new ≡ session.old) × (waits.new ≡ waits.old) }
    ensures same { IsSame J session.old session.new }
    ensures holds { HoldsWithin session.new }
    ensures later { Later (H.counts hub.old) (H.counts hub.new) }
    ensures kept { H.kept hub.new ≡ H.kept hub.old }
    ensures cause { IfErr result (LinkRose (H.counts hub.old) (H.counts hub.new) k) }
    ensures quiet { result ≡ Ok 0 →
        (session.new ≡ session.old) × ((room_in session.new side ≡ 0) ⊎ (read_waits waits.new side ≡ true)) }
    ensures marks { KeepsMarks waits.old waits.new }
    ensures few { IfOk result (λ n. n ≤ 1) }
    ensures piece { length piece.new ≡ length piece.old }
{
    let due = session.due(other(side));
    if waits.read(side) {
        return Ok(0);
    }
    let most = most_read(due);
    read(session, hub, k, side, waits, &mut piece[..most], notes)
}

/// Writes what is due to a side.
#[inline(always)]
fn write<H: Hub, J: Judge, N: Notes>(
    session: &mut Session<J>,
    hub: &mut H,
    k: u64,
    side: Side,
    waits: &mut Waits,
    notes: &mut N,
) -> Result<u32, Side>
    ensures goes { Calls J.rules k (to_write side) (N.tells notes.old notes.new)
        (H.tells hub.old) session.old waits.old (H.tells hub.new) session.new waits.new result }
    ensures idle { to_write side waits.old session.old ≡ None → (session.new ≡ session.old) × (waits.new ≡ waits.old) }
    ensures same { IsSame J session.old session.new }
    ensures holds { HoldsWithin session.new }
    ensures later { Later (H.counts hub.old) (H.counts hub.new) }
    ensures kept { H.kept hub.new ≡ H.kept hub.old }
    ensures cause { IfErr result (LinkRose (H.counts hub.old) (H.counts hub.new) k) }
    ensures quiet { result ≡ Ok 0 →
        (session.new ≡ session.old) × ((due_to side session.new.standing ≡ []) ⊎ (write_waits waits.new side ≡ true)) }
    ensures marks { KeepsMarks waits.old waits.new }
    ensures few { IfOk result (λ n. n ≤ 1) }
{
    let due = session.due(side);
    if due.is_empty() || waits.write(side) {
        return Ok(0);
    }
    let count = due.len().min(PIECE);
    match hub.write(k, side, &due[..count]) {
        LinkPut::Took(count) => {
            pass_on(session, side, count, notes);
            Ok(1)
        }
        LinkPut::NotReady => {
            waits.mark_write(side);
            Ok(0)
        }
        LinkPut::Failed => Err(side),
    }
}

/// Reads what the session has room for.
#[inline(never)]
fn read<H: Hub, J: Judge, N: Notes>(
    session: &mut Session<J>,
    hub: &mut H,
    k: u64,
    side: Side,
    waits: &mut Waits,
    piece: &mut [u8],
    notes: &mut N,
) -> Result<u32, Side>
    requires some { 0 < length piece.old }
    requires few { length piece.old ≤ piece_length }
    ensures goes { Calls J.rules k (to_fill piece.old side) (N.tells notes.old notes.new)
        (H.tells hub.old) session.old waits.old (H.tells hub.new) session.new waits.new result }
    ensures idle { to_fill piece.old side waits.old session.old ≡ None → (session.new ≡ session.old) × (waits.new ≡ waits.old) }
    ensures same { IsSame J session.old session.new }
    ensures holds { HoldsWithin session.new }
    ensures later { Later (H.counts hub.old) (H.counts hub.new) }
    ensures kept { H.kept hub.new ≡ H.kept hub.old }
    ensures cause { IfErr result (LinkRose (H.counts hub.old) (H.counts hub.new) k) }
    ensures quiet { result ≡ Ok 0 →
        (session.new ≡ session.old) × ((room_in session.new side ≡ 0) ⊎ (read_waits waits.new side ≡ true)) }
    ensures marks { KeepsMarks waits.old waits.new }
    ensures few { IfOk result (λ n. n ≤ 1) }
    ensures piece { length piece.new ≡ length piece.old }
{
    let room = session.room(side).min(piece.len());
    if room == 0 || waits.read(side) {
        return Ok(0);
    }
    match hub.read(k, side, &mut piece[..room]) {
        LinkGot::Bytes(count) => {
            give(session, side, &piece[..count], notes);
            Ok(1)
        }
        LinkGot::End => {
            finish(session, side, notes);
            Ok(1)
        }
        LinkGot::NotReady => {
            waits.mark_read(side);
            Ok(0)
        }
        LinkGot::Failed => Err(side),
    }
}

/// Gives the session bytes of a side that it has room for.
fn give<J: Judge, N: Notes>(session: &mut Session<J>, side: Side, bytes: &[u8], notes: &mut N)
    requires room { length bytes.now ≤ room_of session.old.limit session.old.standing (is_some session.old.outcome) side }
    ensures matches { MatchesOn J.rules session.old session.new (N.tells notes.old notes.new) (λ h. and_received side h bytes.now) }
    ensures same { IsSame J session.old session.new }
    ensures holds { HoldsWithin session.new }
{
    match side {
        Side::Client => session.take_client(bytes, notes),
        Side::Upstream => session.take_upstream(bytes, notes),
    };
}

/// So many bytes that were due to a side were sent to it.
#[inline(always)]
fn pass_on<J: Judge, N: Notes>(session: &mut Session<J>, side: Side, count: usize, notes: &mut N)
    requires due { count ≤ length (due_to side session.old.standing) }
    ensures matches { MatchesOn J.rules session.old session.new (N.tells notes.old notes.new)
        (λ h. and_sent side h (take count (due_to side session.old.standing))) }
    ensures same { IsSame J session.old session.new }
    ensures holds { HoldsWithin session.new }
{
    session.sent(side, count, notes);
}

/// A side has ended.
fn finish<J: Judge, N: Notes>(session: &mut Session<J>, side: Side, notes: &mut N)
    ensures matches { MatchesOn J.rules session.old session.new (N.tells notes.old notes.new) (λ h. and_ended side h) }
    ensures same { IsSame J session.old session.new }
    ensures holds { HoldsWithin session.new }
{
    session.end(side, notes);
}
