//! Laws of a session between a client and an upstream, in the words of the grammars.
//!
//! Each law is the contract of a function that does nothing. The code rests on none of them.
#![tactic(auto)]

ghost use Rattle.std.specs.Prelude.{◌<◌, List, ℕ};
ghost use Rattle.protocol_traits.specs.Heads.{Header};
ghost use Rattle.translate_verdicts.specs.declared.verdict.Cause.{Cause};
ghost use Rattle.protocol_pairs.specs.Pairs.{answered};
ghost use Rattle.gate_hub.specs.declared.hub.Served.{Served};
ghost use Rattle.session_core.specs.declared.outcome.Outcome.{Outcome};
ghost use Rattle.session_laws.specs.Saying.{Passage, IsHeadedBy, AnswerSpells};
ghost use Rattle.session_laws.specs.Carrying.{Session, HasCarried, IsPaid, HasCarriedAll, EndsWith, HasEndedWith};
ghost use Rattle.session_laws.specs.Serving.{ServerTerms, Moment, AreCovered, ServesOn, CarriesOn};

use framed_transport::{a_stream_is_split, frame_stands_at_the_front};
use gate_hub::Hub;

/// The answer to a refused message is the plain spelling of an exception with its sequence number and its name without the service
/// before it. Field 1 of the exception is the text of the cause, field 2 the type 7, a protocol error.
pub fn an_answer_spells_an_exception()
    ensures { (p : Passage) (frame : List ℕ) (header : Header) (cause : Cause) → IsHeadedBy p header frame → AnswerSpells p frame header cause }
{}

/// What each side of a session was sent is a front of what all frames of the other give.
pub fn what_was_sent_was_said()
    ensures { (x : Session) → HasCarried x }
{
    frame_stands_at_the_front();
    a_stream_is_split();
}

/// Where a session is at rest with no outcome and all that was due was sent, each side was sent all that the order of the calls and the
/// most of them that may be open allow.
pub fn all_that_was_due_was_said()
    ensures { (x : Session) → 0 < x.max_calls → IsPaid x → HasCarriedAll x }
{
    frame_stands_at_the_front();
    a_stream_is_split();
}

/// Where a session has an outcome of its own, each side was sent all that was due for the frames that were taken, and the outcome says
/// which frame, length or end was met behind them.
pub fn an_outcome_says_why()
    ensures { (x : Session) (o : Outcome) → 0 < x.max_calls → EndsWith x o → HasEndedWith x o }
{
    frame_stands_at_the_front();
    a_stream_is_split();
}

/// A server carries messages. For each meaning of a hub that has started there is one when the server has ended, in which each session that
/// was announced has a line that says how it ended, and a course that goes with it: each side was sent a front of the frames that spell, in
/// its protocol, the other side's messages, in order. A refused call or reply is answered in its place by an exception, and a refused oneway
/// message is left out. A session that came to an end was sent all that was due for the frames that were taken, and its outcome says which
/// frame, length or end was met. One that was left open was sent all that the order of the calls and the most of them that may be open
/// allow, where both sides can be written to and the budget isn't spent.
pub fn a_server_carries_messages<H: Hub>()
    ensures { (k : ServerTerms) (a b : Moment H) (result : Served) → AreCovered k → ServesOn H.Hub k a b result → CarriesOn H.Hub k a b result }
{
    frame_stands_at_the_front();
    a_stream_is_split();
}
