//! What the types of a schema are, in the words of what names mean.
ghost use Rattle.std.specs.Prelude.{◌≡◌, ℕ, List, Some};
ghost use Rattle.idl_document.specs.Trees.{TypeTree};
ghost use Rattle.idl_names.specs.Files.{FileTree};
ghost use Rattle.idl_names.specs.Targets.{TargetTree, target_of};
ghost use Rattle.idl_schema.specs.Meant.{HasMeaning};

/// A type of a text is what its typedefs lead to: the enum or the struct with its number, or what is written out, there or
/// in the last typedef, with the number that the first of its parts takes where it is written.
pub fn typedefs_are_followed()
    ensures { (files : List FileTree) (file base : ℕ) (tree : TypeTree) (t : TargetTree) → target_of files file tree ≡ Some t → HasMeaning files file base tree t }
{}
