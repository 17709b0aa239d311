//! The service of all routed sessions until the fan stops.
ghost use Rattle.std.specs.Prelude.{◌≡◌, ◌⊎◌, ◌≤◌, [], length, IfSome};
ghost use Rattle.gate_base.specs.Causes.{Rose};
ghost use Rattle.gate_fan.specs.Fans.{Later};
ghost use Rattle.route_server.specs.Steps.{CanRoute, ServesBy, setting_by, served_by, first_wrote, seen};

use crate::lines::LINE_ROOM;
use crate::server::{End, Server, Terms};
use gate_fan::{Fan, Target};
use gate_hub::Served;
use gate_io::{Out, Sink, Wrote};
use refusal_teller::RefusalLines;
use session_judge::Setup;
use std::alloc::Global;

/// Serves until the fan stops or fails, a line can't be written or the budget of `events` is spent.
///
/// The fan was started with as many targets and `next` was not called. `next` is called only when every open session is settled.
/// A session that is announced while `sessions` are open is closed as full, one whose memory is not found as having none; each
/// other one is turned until it is settled or has ended. One line is written for each session as soon as it is closed, before the
/// fan is asked again, and at the end one for each that is still open, by rising number. Of each frame that is refused the line
/// that `lines` makes is written at the step that refuses it, so before the session's own. Nothing is written after a write that
/// failed; where the fan had failed or the budget was spent before it, the answer stays so.
///
/// `Stopped`, `HubFault`: `next` answered so. `Budget`: its answers that named a session and the turns that ended with `More`
/// have reached `events`; the last session that was named may be unsettled. `WriteFault`: the output's count rose.
/// `OutOfMemory`: the memory for the server was not found, before the first event.
pub fn route_serve<M: Fan, O: Sink, L: RefusalLines>(
    alloc: Global,
    setup: &Setup<'_>,
    targets: &[Target],
    sessions: usize,
    events: u64,
    lines: &L,
    fan: &mut M,
    output: &mut O,
) -> Served
    requires good { CanRoute setup.now targets.now }
    requires targets { M.target_count fan.old ≡ length targets.now }
    ensures serves { let set = setting_by setup.now targets.now sessions events in
        ServesBy set (L.text lines.now) (seen M.Fan O.Sink fan.old output.old fan.new output.new) result }
    ensures later { Later (M.counts fan.old) (M.counts fan.new) }
    ensures output_later { O.faults output.old ≤ O.faults output.new }
    ensures hub_fault { result ≡ Served.HubFault → Rose (M.counts fan.old).faults (M.counts fan.new).faults }
    ensures write_fault { result ≡ Served.WriteFault → Rose (O.faults output.old) (O.faults output.new) }
{
    let terms = Terms {
        setup: *setup,
        targets,
        sessions,
        events,
    };
    let Some(mut server) = open_server(alloc, terms, lines.room()) else {
        return Served::OutOfMemory;
    };
    let ending = server.attend(alloc, lines, fan, output);
    let wrote = server.leave(written_so_far(ending), fan, output);
    served(ending, wrote)
}

/// A server that holds no session. Its lines have at least so much room.
fn open_server<'s>(alloc: Global, terms: Terms<'s>, room: usize) -> Option<Server<'s>>
    ensures empty { IfSome result (λ s. (s.terms ≡ terms.entry) × (s.sessions.items ≡ []) × (LINE_ROOM ≤ s.line.room) × (s.spent ≡ 0)) }
    ensures room { IfSome result (λ s. room ≤ s.line.room) }
{
    let Ok(sessions) = Vec::with_capacity(alloc, terms.sessions) else {
        return None;
    };
    match Out::open(alloc, LINE_ROOM.max(room)) {
        Ok(line) => Some(Server {
            terms,
            sessions,
            line,
            spent: 0,
        }),
        Err(_) => None,
    }
}

/// Whether each line so far was written.
fn written_so_far(ending: End) -> Wrote
    ensures { result ≡ first_wrote ending }
{
    match ending {
        End::WriteFault | End::Unwritten(_) => Wrote::Failed,
        End::Stopped | End::HubFault | End::Budget(_) => Wrote::All,
    }
}

/// What is answered: a write that failed is told where nothing else was met before.
fn served(ending: End, wrote: Wrote) -> Served
    ensures { result ≡ served_by ending wrote }
{
    match ending {
        End::HubFault => Served::HubFault,
        End::Budget(_) => Served::Budget,
        End::WriteFault | End::Unwritten(_) => Served::WriteFault,
        End::Stopped => match wrote {
            Wrote::All => Served::Stopped,
            Wrote::Failed => Served::WriteFault,
        },
    }
}
