//! Laws of what is found of a frame by its declarations, in the words of the grammars and of trees.
//!
//! Each law is the contract of a function that does nothing. The code rests on none of them.
#![tactic(auto)]

ghost use Rattle.std.specs.Prelude.{◌<◌, ◌^◌, List, length, ℕ, Option};
ghost use Rattle.type_tables.specs.declared.declared.ServiceId.{ServiceId};
ghost use Rattle.type_tables.specs.Declarations.{Declarations};
ghost use Rattle.gate_base.specs.Bytes.{AreBytes};
ghost use Rattle.conform_laws.specs.Checkings.{ChecksBinary, ChecksCompact, ChecksJson};

/// A frame is found to meet its declarations exactly where the message that it spells meets them, and else its first breach is told; where it
/// spells no message, the one fault that stands in it is told, and whether a whole header stands before it. A frame of JSON has less than 2^31 bytes.
pub fn a_frame_is_checked_by_its_grammar()
    ensures binary { (d : Declarations) (service : Option ServiceId) (frame : List ℕ) → AreBytes frame → ChecksBinary d service frame }
    ensures compact { (d : Declarations) (service : Option ServiceId) (frame : List ℕ) → AreBytes frame → ChecksCompact d service frame }
    ensures json { (d : Declarations) (service : Option ServiceId) (frame : List ℕ) → length frame < 2 ^ 31 → ChecksJson d service frame }
{}
