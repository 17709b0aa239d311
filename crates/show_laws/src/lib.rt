//! Laws of what is shown of a frame, in the words of the grammars.
//!
//! Each law is the contract of a function that does nothing. The code rests on none of them.
#![tactic(auto)]

ghost use Rattle.std.specs.Prelude.{◌<◌, ◌^◌, List, length, ℕ, Option};
ghost use Rattle.type_tables.specs.declared.declared.ServiceId.{ServiceId};
ghost use Rattle.type_tables.specs.Declarations.{Declarations};
ghost use Rattle.message_show.specs.Shown.{shown};
ghost use Rattle.gate_base.specs.Bytes.{AreBytes};
ghost use Rattle.show_laws.specs.Showings.{IsBinaryShowing, IsCompactShowing, IsJsonShowing};

/// What is shown of a frame is the line of the message that it spells, or the one fault that stands in it, and whether a whole header stands
/// before it. What is declared gives the fields their names, and tells of JSON how strings are spelled; a frame of JSON has less than 2^31 bytes.
pub fn a_frame_is_shown_by_its_grammar()
    ensures binary { (d : Declarations) (service : Option ServiceId) (frame : List ℕ) → AreBytes frame → IsBinaryShowing d service frame }
    ensures compact { (d : Declarations) (service : Option ServiceId) (frame : List ℕ) → AreBytes frame → IsCompactShowing d service frame }
    ensures json { (d : Declarations) (service : Option ServiceId) (frame : List ℕ) → length frame < 2 ^ 31 → IsJsonShowing d service frame }
{}
