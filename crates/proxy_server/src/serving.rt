//! The service of all sessions until the hub stops.
ghost use Rattle.std.specs.Prelude.{◌≡◌, ◌⊎◌, ◌≤◌, [], IfSome};
ghost use Rattle.gate_base.specs.Causes.{Rose};
ghost use Rattle.gate_hub.specs.Hubs.{Later};
ghost use Rattle.proxy_server.specs.Steps.{AreGood, Serves, served_by, first_wrote, ServesBy, seen};

use crate::judges::Judges;
use crate::lines::LINE_ROOM;
use crate::server::{End, Limits, Server};
use gate_hub::{Hub, Served};
use gate_io::{Out, Sink, Wrote};
use refusal_teller::RefusalLines;
use session_core::Judge;
use std::alloc::Global;

/// Serves until the hub stops or fails, a line can't be written or the budget of `limits.events` is spent.
///
/// The hub was started and `next` was not called. `next` is called only when every open session is settled. A session that
/// is announced while `limits.sessions` are open is closed as full, one whose memory is not found as having none; each other
/// one is turned until it is settled or has ended. One line is written for each session as soon as it is closed, before the
/// hub is asked again, and at the end one for each that is still open, by rising number. Of each frame that is refused the
/// line that `lines` makes is written at the step that refuses it, so before the session's own. Nothing is written after a
/// write that failed; where the hub had failed or the budget was spent before it, the answer stays so.
///
/// `Stopped`, `HubFault`: `next` answered so. `Budget`: its answers that named a session and the turns that ended with `More`
/// have reached `limits.events`; the last session that was named may be unsettled. `WriteFault`: the output's count rose.
/// `OutOfMemory`: the memory for the server was not found, before the first event.
pub fn serve<J: Judge, P: Judges<J>, H: Hub, O: Sink, L: RefusalLines>(
    alloc: Global,
    judges: &P,
    limits: Limits,
    lines: &L,
    hub: &mut H,
    output: &mut O,
) -> Served
    requires good { AreGood limits (P.longest judges.now) }
    ensures serves { ServesBy J.rules (P.rules judges.now) limits (L.text lines.now)
        (seen H.Hub O.Sink hub.old output.old hub.new output.new) result }
    ensures later { Later (H.counts hub.old) (H.counts hub.new) }
    ensures kept { H.kept hub.new ≡ H.kept hub.old }
    ensures output_later { O.faults output.old ≤ O.faults output.new }
    ensures hub_fault { result ≡ Served.HubFault → Rose (H.counts hub.old).faults (H.counts hub.new).faults }
    ensures write_fault { result ≡ Served.WriteFault → Rose (O.faults output.old) (O.faults output.new) }
{
    let Some(mut server) = open_server::<J>(alloc, limits, lines.room()) else {
        return Served::OutOfMemory;
    };
    let ending = server.attend(alloc, judges, lines, hub, output);
    let wrote = server.leave(written_so_far(ending), hub, output);
    served(ending, wrote)
}

/// A server that holds no session. Its lines have at least so much room.
fn open_server<J: Judge>(alloc: Global, limits: Limits, room: usize) -> Option<Server<J>>
    ensures empty { IfSome result (λ s. (s.limits ≡ limits) × (s.sessions.items ≡ []) × (LINE_ROOM ≤ s.line.room) × (s.spent ≡ 0)) }
    ensures room { IfSome result (λ s. room ≤ s.line.room) }
{
    let Ok(sessions) = Vec::with_capacity(alloc, limits.sessions) else {
        return None;
    };
    match Out::open(alloc, LINE_ROOM.max(room)) {
        Ok(line) => Some(Server {
            limits,
            sessions,
            line,
            spent: 0,
        }),
        Err(_) => None,
    }
}

/// Whether each line so far was written.
fn written_so_far(ending: End) -> Wrote
    ensures { result ≡ first_wrote ending }
{
    match ending {
        End::WriteFault | End::Unwritten(_) => Wrote::Failed,
        End::Stopped | End::HubFault | End::Budget(_) => Wrote::All,
    }
}

/// What is answered: a write that failed is told where nothing else was met before.
fn served(ending: End, wrote: Wrote) -> Served
    ensures { result ≡ served_by ending wrote }
{
    match ending {
        End::HubFault => Served::HubFault,
        End::Budget(_) => Served::Budget,
        End::WriteFault | End::Unwritten(_) => Served::WriteFault,
        End::Stopped => match wrote {
            Wrote::All => Served::Stopped,
            Wrote::Failed => Served::WriteFault,
        },
    }
}
