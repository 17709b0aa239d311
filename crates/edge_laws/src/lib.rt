//! Laws of the server over sockets, from its command to the streams of its sessions.
//!
//! Each law is the contract of a function that does nothing. The code rests on none of them.
#![tactic(auto)]

ghost use Rattle.gate_hub.specs.Meaning.{Meaning};
ghost use Rattle.run_laws.specs.Undisturbed.{ServerRun, IsRunOf};
ghost use Rattle.mio_edge.specs.Telling.{HubTells};
ghost use Rattle.stream_laws.specs.Sessions.{IsCommanded, IsOverFrames, IsServed};
ghost use Rattle.edge_laws.specs.Closed.{IsSentLater, HubsWind};
ghost use Rattle.edge_laws.specs.Streams.{HaveOwnStreams, ReadsAreNamed, WritesAreNamed};

use gate_hub::Hub;
use mio_edge::{MioHub, Network};
use stream_laws::a_session_carries_messages;

/// What a server carries whose hub is the one over sockets, over a network whose streams tell: in each session, the messages of the law
/// `a_session_carries_messages` of the crate stream_laws.
pub fn a_session_over_sockets_carries_messages<W: Network>()
    ensures { (x : ServerRun _) → IsCommanded x → IsRunOf ⟦<MioHub<W> as Hub>⟧ x → IsOverFrames x.serving → IsServed (HubTells W.is_telling W.Stream.tells) x }
{
    a_session_carries_messages::<MioHub<W>>();
}

/// What a session that is open received and was sent at a side is what its own stream had and took: the stream gave that and then what its
/// port holds still, and took a front of it. A read or write failed only where the stream did, or where there is none. A side without a stream
/// has received and was sent nothing.
pub fn an_open_session_has_its_own_streams<W: Network>()
    ensures { (hub : MioHub W W.Stream) (m : Meaning) → HubTells W.is_telling W.Stream.tells hub m → HaveOwnStreams W.Stream.tells hub m }
{}

/// No session is forgotten. An open one of which a side was answered, since it was named, that it isn't ready to be read stands among those
/// that are to have a turn, or nothing is there to be read: no report since the last read of its stream says so.
pub fn a_session_that_waits_to_read_is_named<W: Network>()
    ensures { (hub : MioHub W W.Stream) (m : Meaning) → HubTells W.is_telling W.Stream.tells hub m → ReadsAreNamed W.Stream.tells hub m }
{}

/// The same of writes.
pub fn a_session_that_waits_to_write_is_named<W: Network>()
    ensures { (hub : MioHub W W.Stream) (m : Meaning) → HubTells W.is_telling W.Stream.tells hub m → WritesAreNamed W.Stream.tells hub m }
{}

/// What was written to a session before it was closed is sent still, or was: where the hub has closed it, and then its closed sessions have
/// gone on, the session stands there still, and at each side its stream has taken a front of what was written and the rest waits; or it was let
/// go when its stream had taken all of that, or had failed, or there was none.
pub fn what_was_written_before_a_close_is_sent<W: Network>()
    ensures { (a b c : MioHub W W.Stream) (m : Meaning) → HubTells W.is_telling W.Stream.tells a m → IsSentLater W.is_telling W.Stream.tells a b c m }
{}

/// That closed sessions go on, as each call of the hub has it, holds over several calls.
pub fn closed_sessions_go_on_over_calls<W: Network>()
    ensures { (a b c : MioHub W W.Stream) → HubsWind W.Stream.tells a b → HubsWind W.Stream.tells b c → HubsWind W.Stream.tells a c }
{}
