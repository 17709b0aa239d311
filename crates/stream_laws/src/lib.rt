//! Laws of what a command does, in the words of the grammars.
//!
//! Each law is the contract of a function that does nothing. The code rests on none of them.
#![tactic(auto)]

ghost use Rattle.std.specs.Prelude.{◌≡◌, List, ℕ, length};
ghost use Rattle.thrift_value.specs.Trees.{Message};
ghost use Rattle.protocol_traits.specs.declared.proto.Proto.{Proto};
ghost use Rattle.protocol_traits.specs.declared.proto.Proto.TheVariants.{Json};
ghost use Rattle.type_tables.specs.Declarations.{Declarations};
ghost use Rattle.translate_verdicts.specs.declared.route.Route.{Route};
ghost use Rattle.verdict_laws.specs.Rounds.{plain_in};
ghost use Rattle.line_transport.specs.Cuts.{IsMessage};
ghost use Rattle.gate_words.specs.declared.peers.Sides.{Sides};
ghost use Rattle.gate_streams.specs.Handling.{outputs};
ghost use Rattle.gate_start.specs.Streams.{Streams};
ghost use Rattle.gate_streams.specs.Outcome.{Streamed};
ghost use Rattle.gate_streams.specs.Terms.{Terms};
ghost use Rattle.run_laws.specs.Undisturbed.{ServerRun, IsRunOf};
ghost use Rattle.gate_start.specs.declared.status.Ending.{Ending};
ghost use Rattle.gate_streams.specs.declared.task.Doing.TheVariants.{Convert};
ghost use Rattle.stream_laws.specs.Covering.{Converts, Shows, Conforms, TellsInput, GivesConverted, GivesListed, GivesConformed};
ghost use Rattle.stream_laws.specs.Posts.{IsOverPosts, IsServedByPosts};
ghost use Rattle.stream_laws.specs.Sessions.{IsCommanded, IsOverFrames, IsUnframed, IsServed, IsServedOver};
ghost use Rattle.stream_laws.specs.Streams.{GiveAll, AreFrames, IsCutBack, WritesLines};

use conform_laws::a_frame_is_checked_by_its_grammar;
use framed_transport::{a_stream_is_split, frame_stands_at_the_front};
use gate_hub::Hub;
use gate_io::Source;
use http_laws::told_clients_are_served;
use session_laws::a_server_carries_messages;
use show_laws::a_frame_is_shown_by_its_grammar;
use unframed_laws::wrapped_sides_are_framed;

/// What is written of frames that are converted between two protocols, or from one to itself, is the frames, or the lines, of the plain spellings of the messages
/// that they spell, in order; a frame that spells none of depth at most 256 which the other protocol holds gives nothing. So many frames stood before.
pub fn frames_are_converted_by_their_grammar()
    ensures { (k : Terms) (p q : Proto) (n : ℕ) (frames : List (List ℕ)) → AreFrames p frames → k.doing ≡ Convert p q → GiveAll k p q frames (outputs k n frames) }
{}

/// No plain spelling of a message in JSON has an LF in it, and none is blank. So what is written on lines is read as the same messages again: it is cut into
/// the plain spellings of the messages that the frames carry, in order, where the limit is as long as each.
pub fn written_lines_are_cut_back()
    ensures unbroken { (d : Declarations) (route : Route) (m : Message) → IsMessage (length (plain_in Json d route m)) (plain_in Json d route m) }
    ensures cut { (k : Terms) (p : Proto) (n : ℕ) (frames : List (List ℕ)) → AreFrames p frames → WritesLines k p → IsCutBack k p frames (outputs k n frames) }
{}

/// What is written and reported of a stream that is converted between two protocols, or from one to itself: of each frame, or line, in order, the frame or line of
/// the plain spelling of its message, or a line with the place and the cause for which it can't go on. The input tells what is left of it.
pub fn a_stream_is_converted_by_its_grammar<I: Source>()
    ensures { (k : Terms) (p q : Proto) (a b : Streams) (e : Ending) → Converts k p q → TellsInput I.Source a → Streamed k a b e → GivesConverted k p q a b e }
{}

/// What is written and reported of a stream that is shown: of each frame, in order, the line of its message, or a line
/// with the fault that stands in it. The input tells what is left of it.
pub fn a_stream_is_shown_by_its_grammar<I: Source>()
    ensures { (k : Terms) (from : Proto) (a b : Streams) (e : Ending) → Shows k from → TellsInput I.Source a → Streamed k a b e → GivesListed k from a b e }
{
    a_frame_is_shown_by_its_grammar();
}

/// What is written and reported of a stream that is checked against an IDL: of each frame, in order, that its message
/// meets what is declared of it, or a line with the first way in which it doesn't and where, or one with the fault that stands in the frame.
/// The input tells what is left of it.
pub fn a_stream_is_checked_by_its_grammar<I: Source>()
    ensures { (k : Terms) (from : Proto) (a b : Streams) (e : Ending) → Conforms k from → TellsInput I.Source a → Streamed k a b e → GivesConformed k from a b e }
{
    a_frame_is_checked_by_its_grammar();
}

/// What a server carries that starts by its words and whose clients send no POSTs: in each session that the hub announced, each side was sent a front of the frames that
/// spell, in its protocol, the other side's messages, in order and with the same names, types, sequence numbers and values; each refused call
/// or reply was answered in its place by an exception with its sequence number that tells the cause. The session's line says how it ended.
/// One that came to an end was sent all that was due, and one that was left open all that the calls allow, where both sides can be written
/// to and the budget isn't spent.
pub fn a_session_carries_messages<H: Hub>()
    ensures { (x : ServerRun H) → IsCommanded x → IsRunOf H.Hub x → IsOverFrames x.serving → IsServed H.tells x }
{
    a_server_carries_messages::<H>();
}

/// The same of a server of whose peers some send messages without frames: over each session that the hub announced there is one of which all
/// of this is so. What was read there of a side without frames is a front of the frames of the messages that the hub received of it, and all of
/// them where the last read was not ready or found the end; what the hub sent to it is what was written there, without the lengths. Where the
/// end of a message can't be found, those frames end with what shows that, and with the length -1.
pub fn a_session_without_frames_carries_messages<H: Hub>()
    ensures { (x : ServerRun H) (sides : Sides) → IsCommanded x → IsRunOf H.Hub x → IsUnframed sides x.serving → IsServedOver sides H.tells x }
{
    frame_stands_at_the_front();
    a_stream_is_split();
    wrapped_sides_are_framed();
}

/// The same of a server whose clients send each message as the body of a POST: over each session that the hub announced there is one of which
/// all of this is so. What was read there of the client is a front of the frames of the bodies of the POSTs that the hub received of it, at most
/// one body ahead of the responses. What the hub sent to it is the responses with the answers that were written there, in the order of the
/// POSTs, and a front of the next one. Where a request is refused, those frames end with the length -1. An upstream without frames is as there.
pub fn a_session_over_posts_carries_messages<H: Hub>()
    ensures { (x : ServerRun H) → IsCommanded x → IsRunOf H.Hub x → IsOverPosts x.serving → IsServedByPosts H.tells x }
{
    frame_stands_at_the_front();
    a_stream_is_split();
    told_clients_are_served();
    wrapped_sides_are_framed();
}
