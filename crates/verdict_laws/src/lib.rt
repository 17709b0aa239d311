//! Laws of the verdict on a frame: what the grammars of the protocols say of it.
//!
//! Each law is the contract of a function that does nothing. The code rests on none of them.
#![tactic(auto)]

ghost use Rattle.std.specs.Prelude.{◌≡◌, ◌<◌, ◌^◌, List, length, ℕ};
ghost use Rattle.protocol_traits.specs.declared.fault.Fault.{Fault};
ghost use Rattle.protocol_traits.specs.declared.proto.Proto.{Proto};
ghost use Rattle.type_tables.specs.Declarations.{Declarations};
ghost use Rattle.translate_verdicts.specs.declared.route.Route.{Route};
ghost use Rattle.gate_base.specs.Bytes.{AreBytes};
ghost use Rattle.verdict_laws.specs.Rounds.{IsOfBytes, Spelling, IsShortOfBytes, IsHeldBy, GoesRound};
ghost use Rattle.verdict_laws.specs.Verdicts.{IsBinaryVerdict, IsCompactVerdict, JsonFault, IsJsonVerdict};

/// A frame of Binary, for any protocol, passes with the plain spelling of the message that it spells, or is refused with the first thing in
/// that message that the protocol can't hold, or with the one fault that stands in the frame, unread where no front of it is a whole header.
pub fn a_binary_frame_is_judged_by_its_grammar()
    ensures { (d : Declarations) (route : Route) (to : Proto) (frame : List ℕ) → AreBytes frame → IsBinaryVerdict d route to frame }
{}

/// The same for a frame of Compact.
pub fn a_compact_frame_is_judged_by_its_grammar()
    ensures { (d : Declarations) (route : Route) (to : Proto) (frame : List ℕ) → AreBytes frame → IsCompactVerdict d route to frame }
{}

/// The same for a frame of JSON of less than 2^31 bytes. Its strings are spelled by what is declared of their positions; the fault stands there
/// by the messages that begin with the frame, and in the first part that is called for and doesn't stand.
pub fn a_json_frame_is_judged_by_its_grammar()
    ensures { (d : Declarations) (route : Route) (to : Proto) (frame : List ℕ) → length frame < 2 ^ 31 → IsJsonVerdict d route to frame }
{}

/// A frame of JSON has one fault at most, whatever is known of its body by the header at its front.
pub fn a_json_frame_has_one_fault()
    ensures { (d : Declarations) (route : Route) (frame : List ℕ) (f g : Fault) → JsonFault d route frame f → JsonFault d route frame g → f ≡ g }
{}

/// A frame that spells a message of depth at most 256 which another protocol holds, or the same one, passes to that protocol with the message's
/// plain spelling, which spells that message and is at most 24 times as long and 256 bytes; and that passes back with the plain spelling in the
/// protocol from which it came. So a plain spelling that goes to the other protocol and back is itself. Binary and Compact hold every message
/// that one of them spells; to JSON or from it a frame passes so that consists of bytes, and of JSON has less than 2^31.
pub fn a_message_passes_there_and_back()
    ensures always { (d : Declarations) (route : Route) (from to : Proto) (s : Spelling d route from) → IsOfBytes from → IsOfBytes to → GoesRound to s }
    ensures holds { (d : Declarations) (route : Route) (from to : Proto) (s : Spelling d route from) → IsOfBytes from → IsOfBytes to → IsHeldBy to s }
    ensures held { (d : Declarations) (route : Route) (from to : Proto) (s : Spelling d route from) → IsShortOfBytes s → IsHeldBy to s → GoesRound to s }
{}
