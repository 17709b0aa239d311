//! What holds of the definitions.
ghost use Rattle.std.specs.Prelude.{◌≡◌, List, Option};
ghost use Rattle.idl_names.specs.Files.{FileTree};
ghost use Rattle.idl_consts.specs.Told.{Told, IsTold};

/// Of the values of all files no two faults are told, nor a fault and none.
pub fn one_answer()
    ensures { (d : List FileTree) (a b : Option Told) → IsTold d 0 d a → IsTold d 0 d b → a ≡ b }
{}
