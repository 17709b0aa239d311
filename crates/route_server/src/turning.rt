//! One turn of a routed connection: rounds of writes and reads, until nothing moves.
ghost use Rattle.std.specs.Prelude.{◌≡◌, ◌*◌, ◌<◌, ◌≤◌, ℕ, length, take, is_some, None, Ok, IfOk, IfErr};
ghost use Rattle.gate_fan.specs.Fans.{Later};
ghost use Rattle.service_router.specs.Standing.{due_to, room_of, and_received, and_sent, and_ended};
ghost use Rattle.service_router.specs.Router.{IsSame, HoldsWithin, targets_of};
ghost use Rattle.route_server.specs.Calling.{piece_length, LinkRose};
ghost use Rattle.route_server.specs.Matching.{MatchesOn};
ghost use Rattle.route_server.specs.Turning.{TurnGoesInOrder, EndsAs, Calls, to_write, to_read, first_port, wanted, KeepsMarks, IsWritten, IsRead, AllDone, IsQuiet};

use crate::turn_end::RouteTurn;
use crate::waiting::{MOST_PORTS, Waits};
use gate_fan::Fan;
use gate_hub::{LinkGot, LinkPut};
use service_router::{RouteOutcome, Router};
use session_core::Notes;

/// At most so many bytes are read or written by a call.
const PIECE: usize = 4096;

/// After so many calls that moved bytes or brought an end, the turn is over.
const MOST_MOVES: u32 = 16;

/// One turn of session k, which is open and matches what the fan tells of it.
///
/// It goes in rounds: a write to each port and then a read of each, through the ports in order, each of at most 4,096 bytes. A
/// write is left out where nothing is due, a read where there is no room or the port has ended, and either once it answered in
/// this turn that it isn't ready. A call that fails is the last, and ends the turn with `RouteOutcome::LinkFault`. It takes no
/// memory: the router keeps its rooms, and holds no more than it may.
pub fn route_turn<M: Fan, N: Notes>(
    router: &mut Router<'_>,
    fan: &mut M,
    k: u64,
    notes: &mut N,
) -> RouteTurn
    requires targets { M.target_count fan.old ≡ targets_of router.old }
    ensures turned { TurnGoesInOrder k (N.tells notes.old notes.new) (M.tells fan.old) router.old (M.tells fan.new) router.new result }
    ensures ending { EndsAs router.new.outcome result }
    ensures same { IsSame router.old router.new }
    ensures holds { HoldsWithin router.new }
    ensures later { Later (M.counts fan.old) (M.counts fan.new) }
    ensures targets { M.target_count fan.new ≡ M.target_count fan.old }
    ensures cause { (port : ℕ) → result ≡ RouteTurn.Ended (RouteOutcome.LinkFault port) →
        LinkRose (M.counts fan.old) (M.counts fan.new) k port }
{
    let mut waits = Waits::none();
    let mut piece = [0; PIECE];
    let mut moved = 0;
    'rounds: while moved < MOST_MOVES {
        if let Some(outcome) = router.outcome() {
            return RouteTurn::Ended(outcome);
        }
        match round(router, fan, k, &mut waits, &mut piece, notes) {
            Err(port) => return RouteTurn::Ended(RouteOutcome::LinkFault(port)),
            Ok(0) => return RouteTurn::Settled,
            Ok(count) => moved += count,
        }
    }
    match router.outcome() {
        Some(outcome) => RouteTurn::Ended(outcome),
        None => RouteTurn::More,
    }
}

/// Writes to each port and reads each, and answers how many calls moved something, or the port whose call failed.
fn round<M: Fan, N: Notes>(
    router: &mut Router<'_>,
    fan: &mut M,
    k: u64,
    waits: &mut Waits,
    piece: &mut [u8],
    notes: &mut N,
) -> Result<u32, usize>
    requires piece { length piece.old ≡ piece_length }
    requires targets { M.target_count fan.old ≡ targets_of router.old }
    ensures goes { Calls k wanted (N.tells notes.old notes.new)
        (M.tells fan.old) router.old waits.old (M.tells fan.new) router.new waits.new result }
    ensures idle { wanted waits.old router.old ≡ None → (router.new ≡ router.old) × (waits.new ≡ waits.old) }
    ensures same { IsSame router.old router.new }
    ensures holds { HoldsWithin router.new }
    ensures later { Later (M.counts fan.old) (M.counts fan.new) }
    ensures targets { M.target_count fan.new ≡ M.target_count fan.old }
    ensures cause { IfErr result (LinkRose (M.counts fan.old) (M.counts fan.new) k) }
    ensures quiet { result ≡ Ok 0 → (router.new ≡ router.old) × IsQuiet router.new waits.new }
    ensures few { IfOk result (λ n. n ≤ 2 * MOST_PORTS) }
    ensures piece { length piece.new ≡ length piece.old }
{
    let written = write_all(router, fan, k, waits, notes)?;
    let taken = read_all(router, fan, k, waits, piece, notes)?;
    Ok(written + taken)
}

/// Writes to each port in order.
fn write_all<M: Fan, N: Notes>(
    router: &mut Router<'_>,
    fan: &mut M,
    k: u64,
    waits: &mut Waits,
    notes: &mut N,
) -> Result<u32, usize>
    requires targets { M.target_count fan.old ≡ targets_of router.old }
    ensures goes { Calls k (first_port to_write) (N.tells notes.old notes.new)
        (M.tells fan.old) router.old waits.old (M.tells fan.new) router.new waits.new result }
    ensures idle { first_port to_write waits.old router.old ≡ None → (router.new ≡ router.old) × (waits.new ≡ waits.old) }
    ensures same { IsSame router.old router.new }
    ensures holds { HoldsWithin router.new }
    ensures later { Later (M.counts fan.old) (M.counts fan.new) }
    ensures targets { M.target_count fan.new ≡ M.target_count fan.old }
    ensures cause { IfErr result (LinkRose (M.counts fan.old) (M.counts fan.new) k) }
    ensures quiet { result ≡ Ok 0 → (router.new ≡ router.old) × AllDone IsWritten router.new waits.new }
    ensures marks { KeepsMarks waits.old waits.new }
    ensures few { IfOk result (λ n. n ≤ MOST_PORTS) }
{
    let mut moved = 0;
    let mut port = 0;
    'ports: while port <= router.targets() {
        let count = write(router, fan, k, port, waits, notes)?;
        moved += count;
        port += 1;
    }
    Ok(moved)
}

/// Reads each port in order.
fn read_all<M: Fan, N: Notes>(
    router: &mut Router<'_>,
    fan: &mut M,
    k: u64,
    waits: &mut Waits,
    piece: &mut [u8],
    notes: &mut N,
) -> Result<u32, usize>
    requires piece { length piece.old ≡ piece_length }
    requires targets { M.target_count fan.old ≡ targets_of router.old }
    ensures goes { Calls k (first_port to_read) (N.tells notes.old notes.new)
        (M.tells fan.old) router.old waits.old (M.tells fan.new) router.new waits.new result }
    ensures idle { first_port to_read waits.old router.old ≡ None → (router.new ≡ router.old) × (waits.new ≡ waits.old) }
    ensures same { IsSame router.old router.new }
    ensures holds { HoldsWithin router.new }
    ensures later { Later (M.counts fan.old) (M.counts fan.new) }
    ensures targets { M.target_count fan.new ≡ M.target_count fan.old }
    ensures cause { IfErr result (LinkRose (M.counts fan.old) (M.counts fan.new) k) }
    ensures quiet { result ≡ Ok 0 → (router.new ≡ router.old) × AllDone IsRead router.new waits.new }
    ensures marks { KeepsMarks waits.old waits.new }
    ensures few { IfOk result (λ n. n ≤ MOST_PORTS) }
    ensures piece { length piece.new ≡ length piece.old }
{
    let mut moved = 0;
    let mut port = 0;
    'ports: while port <= router.targets() {
        let count = read(router, fan, k, port, waits, piece, notes)?;
        moved += count;
        port += 1;
    }
    Ok(moved)
}

/// Writes what is due to a port.
fn write<M: Fan, N: Notes>(
    router: &mut Router<'_>,
    fan: &mut M,
    k: u64,
    port: usize,
    waits: &mut Waits,
    notes: &mut N,
) -> Result<u32, usize>
    requires port { port ≤ targets_of router.old }
    requires few { port < MOST_PORTS }
    requires targets { M.target_count fan.old ≡ targets_of router.old }
    ensures goes { Calls k (to_write port) (N.tells notes.old notes.new)
        (M.tells fan.old) router.old waits.old (M.tells fan.new) router.new waits.new result }
    ensures idle { to_write port waits.old router.old ≡ None → (router.new ≡ router.old) × (waits.new ≡ waits.old) }
    ensures same { IsSame router.old router.new }
    ensures holds { HoldsWithin router.new }
    ensures later { Later (M.counts fan.old) (M.counts fan.new) }
    ensures targets { M.target_count fan.new ≡ M.target_count fan.old }
    ensures cause { IfErr result (LinkRose (M.counts fan.old) (M.counts fan.new) k) }
    ensures quiet { result ≡ Ok 0 → (router.new ≡ router.old) × IsWritten port router.new waits.new }
    ensures marks { KeepsMarks waits.old waits.new }
    ensures few { IfOk result (λ n. n ≤ 1) }
{
    let due = router.due(port);
    if due.is_empty() || waits.write(port) {
        return Ok(0);
    }
    let count = due.len().min(PIECE);
    match fan.write(k, port, &due[..count]) {
        LinkPut::Took(count) => {
            pass_on(router, port, count, notes);
            Ok(1)
        }
        LinkPut::NotReady => {
            waits.mark_write(port);
            Ok(0)
        }
        LinkPut::Failed => Err(port),
    }
}

/// Reads what the router has room for of a port.
fn read<M: Fan, N: Notes>(
    router: &mut Router<'_>,
    fan: &mut M,
    k: u64,
    port: usize,
    waits: &mut Waits,
    piece: &mut [u8],
    notes: &mut N,
) -> Result<u32, usize>
    requires port { port ≤ targets_of router.old }
    requires few { port < MOST_PORTS }
    requires piece { length piece.old ≡ piece_length }
    requires targets { M.target_count fan.old ≡ targets_of router.old }
    ensures goes { Calls k (to_read port) (N.tells notes.old notes.new)
        (M.tells fan.old) router.old waits.old (M.tells fan.new) router.new waits.new result }
    ensures idle { to_read port waits.old router.old ≡ None → (router.new ≡ router.old) × (waits.new ≡ waits.old) }
    ensures same { IsSame router.old router.new }
    ensures holds { HoldsWithin router.new }
    ensures later { Later (M.counts fan.old) (M.counts fan.new) }
    ensures targets { M.target_count fan.new ≡ M.target_count fan.old }
    ensures cause { IfErr result (LinkRose (M.counts fan.old) (M.counts fan.new) k) }
    ensures quiet { result ≡ Ok 0 → (router.new ≡ router.old) × IsRead port router.new waits.new }
    ensures marks { KeepsMarks waits.old waits.new }
    ensures few { IfOk result (λ n. n ≤ 1) }
    ensures piece { length piece.new ≡ length piece.old }
{
    let room = router.room(port).min(PIECE);
    if room == 0 || waits.read(port) {
        return Ok(0);
    }
    match fan.read(k, port, &mut piece[..room]) {
        LinkGot::Bytes(count) => {
            give(router, port, &piece[..count], notes);
            Ok(1)
        }
        LinkGot::End => {
            finish(router, port, notes);
            Ok(1)
        }
        LinkGot::NotReady => {
            waits.mark_read(port);
            Ok(0)
        }
        LinkGot::Failed => Err(port),
    }
}

/// Gives the router bytes of a port that it has room for.
fn give<N: Notes>(router: &mut Router<'_>, port: usize, bytes: &[u8], notes: &mut N)
    requires port { port ≤ targets_of router.old }
    requires room { length bytes.now ≤ room_of router.old.limit router.old.standing (is_some router.old.outcome) port }
    ensures matches { MatchesOn router.old router.new (N.tells notes.old notes.new) (λ h. and_received port h bytes.now) }
    ensures same { IsSame router.old router.new }
    ensures holds { HoldsWithin router.new }
{
    router.take(port, bytes, notes);
}

/// So many bytes that were due to a port were sent to it.
fn pass_on<N: Notes>(router: &mut Router<'_>, port: usize, count: usize, notes: &mut N)
    requires due { count ≤ length (due_to port router.old.standing) }
    ensures matches { MatchesOn router.old router.new (N.tells notes.old notes.new)
        (λ h. and_sent port h (take count (due_to port router.old.standing))) }
    ensures same { IsSame router.old router.new }
    ensures holds { HoldsWithin router.new }
{
    router.sent(port, count, notes);
}

/// A port has ended.
fn finish<N: Notes>(router: &mut Router<'_>, port: usize, notes: &mut N)
    requires port { port ≤ targets_of router.old }
    ensures matches { MatchesOn router.old router.new (N.tells notes.old notes.new) (λ h. and_ended port h) }
    ensures same { IsSame router.old router.new }
    ensures holds { HoldsWithin router.new }
{
    router.end(port, notes);
}
