//! Laws of the check of an IDL: what it answers is what the texts of the files are by the grammar. Each law is the contract
//! of a function that does nothing. No code rests on them.
#![tactic(auto)]

ghost use Rattle.std.specs.Prelude.{ℕ, List, Option, Err};
ghost use Rattle.idl_names.specs.Files.{FileTree};
ghost use Rattle.idl_files.specs.declared.fault.LoadError.TheVariants.{NoTables};
ghost use Rattle.idl_files.specs.Answers.{WhereTold};
ghost use Rattle.idl_files.specs.Walk.{walked};
ghost use Rattle.idl_resolve.specs.Loads.{Loads};
ghost use Rattle.idl_laws.specs.LookUps.{AreDotless};
ghost use Rattle.gate_idl.specs.Opening.{IsOpened, Opened};
ghost use Rattle.gate_run.specs.Running.{Obeys};
ghost use Rattle.gate_start.specs.Outside.{Outside};
ghost use Rattle.gate_start.specs.declared.status.Ending.{Ending};
ghost use Rattle.gate_words.specs.declared.command.Command.TheVariants.{Check};
ghost use Rattle.check_laws.specs.Answers.{IsAnswered, SaysWhatIs};
ghost use Rattle.check_laws.specs.Held.{AreHeld, IsWalked};

/// The files that a root leads to are each the document of the text that is held under their name; or the walk breaks off at a
/// text with the very fault that the text has.
pub fn files_are_their_texts()
    ensures { (holds : List ℕ → Option (List ℕ)) (root : List ℕ) → IsWalked holds (walked holds root) }
{}

/// No service of such files has a name with a dot, so a name that means one is cut at the right place.
pub fn services_have_no_dots()
    ensures { (holds : List ℕ → Option (List ℕ)) (files : List FileTree) → AreHeld holds files → AreDotless files }
{}

/// So an IDL that a command opens is what its texts declare, or is refused for what is wrong with them.
pub fn an_opened_idl_is_its_texts()
    ensures { (holds : List ℕ → Option (List ℕ)) (root : List ℕ) (answer : Opened) → IsOpened holds root answer → IsAnswered holds answer }
{}

/// And the command `check`, where the files tell what they hold, writes how much good texts declare, or reports what is wrong;
/// or a file could not be read, or memory was not found.
pub fn a_check_says_what_the_texts_are()
    ensures { (file : List ℕ) (x y : Outside) (ending : Ending) → Obeys (Check file) x y ending
        → WhereTold x.holds (λ holds. SaysWhatIs holds x.streams y.streams ending) }
{}

/// So files that keep all rules have a schema, unless memory is wanting: loading never comes to declarations that tables can't
/// have.
pub fn lawful_texts_have_a_schema()
    ensures { (holds : List ℕ → Option (List ℕ)) (root : List ℕ) → Loads holds root (Err NoTables) → ⊥ }
{}
