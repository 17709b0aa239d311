//! Laws of unframed messages: what `stream_messages` finds of a front of a stream is what the grammars of the protocols say of it.
//!
//! Each law is the contract of a function that does nothing. The code rests on none of them.
#![tactic(auto)]

ghost use Rattle.std.specs.Prelude.{◌≡◌, List, ℕ, Option, length};
ghost use Rattle.gate_base.specs.Bytes.{AreBytes};
ghost use Rattle.gate_hub.specs.Meaning.{Meaning};
ghost use Rattle.protocol_traits.specs.declared.fault.Reason.TheVariants as reasons;
ghost use Rattle.binary_laws.specs.Faults.{IsWhole, StandsAt, FaultAt};
ghost use Rattle.compact_laws.specs.Faults.{IsWhole as IsWholeCompact, StandsAt as StandsAtCompact, FaultAt as FaultAtCompact};
ghost use Rattle.stream_messages.specs.declared.lanes.Wrapping.{Wrapping};
ghost use Rattle.stream_messages.specs.declared.scan.Wire.TheVariants as wires;
ghost use Rattle.stream_messages.specs.declared.scan.Wire.{Wire};
ghost use Rattle.stream_messages.specs.declared.slots.Slots.{Slots};
ghost use Rattle.stream_messages.specs.Fronts.{Found, whole, cut, bad, IsFront};
ghost use Rattle.stream_messages.specs.Telling.{Tells};
ghost use Rattle.unframed_laws.specs.Cutting.{IsCutBefore, HasFault, Pieces, ArePieces};
ghost use Rattle.unframed_laws.specs.Wrapped.{IsLimited, AreSidesTold};

use stream_messages::a_stream_is_cut;

/// Of a front of a stream at most one thing is found, in either protocol.
pub fn one_thing_is_found()
    ensures { (wire : Wire) (found other : Found) (front : List ℕ) → IsFront wire found front → IsFront wire other front → found ≡ other }
{}

/// In the Binary protocol a front is found whole exactly where it spells a message of depth at most 256, and cut exactly where it begins
/// a message, spells none, and calls for no value that 256 levels lie around. Where each shorter front is found cut, it is found bad
/// exactly where it has another fault than that something trails: it begins no message, or it calls at its end for such a value.
pub fn a_binary_front_is_found_by_the_grammar()
    ensures whole { (front : List ℕ) → AreBytes front → IsFront wires.Binary whole front → IsWhole front }
    ensures is_whole { (front : List ℕ) → IsWhole front → IsFront wires.Binary whole front }
    ensures cut { (front : List ℕ) → AreBytes front → IsFront wires.Binary cut front → StandsAt reasons.Truncated front (length front) }
    ensures is_cut { (front : List ℕ) → AreBytes front → StandsAt reasons.Truncated front (length front) → IsFront wires.Binary cut front }
    ensures bad { (front : List ℕ) → AreBytes front → IsCutBefore wires.Binary front → IsFront wires.Binary bad front → HasFault FaultAt front }
    ensures is_bad { (front : List ℕ) → AreBytes front → HasFault FaultAt front → IsFront wires.Binary bad front }
{}

/// In the Compact protocol a front is found whole exactly where it spells a message of depth at most 256, and cut exactly where it begins
/// a message, spells none, and calls for no value that 256 levels lie around. Where each shorter front is found cut, it is found bad
/// exactly where it has another fault than that something trails: it begins no message, or it calls at its end for such a value.
pub fn a_compact_front_is_found_by_the_grammar()
    ensures whole { (front : List ℕ) → AreBytes front → IsFront wires.Compact whole front → IsWholeCompact front }
    ensures is_whole { (front : List ℕ) → IsWholeCompact front → IsFront wires.Compact whole front }
    ensures cut { (front : List ℕ) → AreBytes front → IsFront wires.Compact cut front → StandsAtCompact reasons.Truncated front (length front) }
    ensures is_cut { (front : List ℕ) → AreBytes front → StandsAtCompact reasons.Truncated front (length front) → IsFront wires.Compact cut front }
    ensures bad { (front : List ℕ) → AreBytes front → IsCutBefore wires.Compact front → IsFront wires.Compact bad front → HasFault FaultAtCompact front }
    ensures is_bad { (front : List ℕ) → AreBytes front → HasFault FaultAtCompact front → IsFront wires.Compact bad front }
{}

/// A stream is cut into whole messages and a tail in one way at most.
pub fn a_stream_is_cut_in_one_way()
    ensures { (wire : Wire) (limit : ℕ) (stream : List ℕ) (x y : Pieces) → ArePieces wire limit stream x → ArePieces wire limit stream y → x ≡ y }
{}

/// Over each session that the hub below tells to be announced, a wrapping hub tells of a side without lengths: what was read of it is a
/// front of the frames of what the hub below received, and all of them where the last read was not ready or found the end; what the hub
/// below sent to it is what was written, without the lengths. A side that is passed through received and sent the same.
pub fn wrapped_sides_are_framed()
    ensures { (w : Wrapping) (slots : Option Slots) (below told : Meaning) → IsLimited w → Tells w slots below told → AreSidesTold w below told }
{
    a_stream_is_cut();
}
