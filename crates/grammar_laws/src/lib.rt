//! Laws of the IDL's grammar: which tokens are a document, which document they are, and which fault is told where they are
//! none. Each law is the contract of a function that does nothing. No code rests on them.
#![tactic(auto)]

ghost use Rattle.std.specs.Prelude.{◌≡◌, ℕ, List};
ghost use Rattle.idl_parser.specs.Documents.{Parsed, parsed};
ghost use Rattle.idl_parser.specs.Seen.{Seen};
ghost use Rattle.grammar_laws.specs.Faults.{IsDocument, IsFaultPlace, IsFaultAt};
ghost use Rattle.grammar_laws.specs.Parsing.{DerivesParsed, FaultsLookNoFurther, IsOneDocument, IsText, ParsesDerived, RefusesDeeper, TellsFirstDepth, TellsFirstFault};

/// Tokens from which the grammar derives a document are parsed as that document, all of them, where its types and values
/// nest no deeper than 64.
pub fn derived_is_parsed()
    ensures { ParsesDerived }
{}

/// Where they nest deeper, the parser tells that, at the type or value that first opens a level too many.
pub fn deeper_is_refused()
    ensures { RefusesDeeper }
{}

/// What is parsed is derived by the grammar, with all the tokens.
pub fn parsed_is_derived()
    ensures { DerivesParsed }
{}

/// The grammar derives one document from tokens at most, however deep it nests.
pub fn one_document()
    ensures { IsOneDocument }
{}

/// A fault depends on the tokens before it and on the one where it stands, and on none behind.
pub fn a_fault_looks_no_further()
    ensures { FaultsLookNoFurther }
{}

/// A syntax fault is told at the first token that continues no document: those before it begin one, and those with it begin
/// none. At the text's end it is told where the tokens begin a document and are none.
pub fn the_first_fault_is_told()
    ensures { TellsFirstFault }
{}

/// A type or value that nests too deep is told where the first level too many is opened: what stands before it begins a
/// document that nests no deeper than 64, and with it all that begins nests deeper.
pub fn the_first_depth_is_told()
    ensures { TellsFirstDepth }
{}

/// A text is what the parser says of it: the document of its tokens, the first syntax fault, the first level too many, or a
/// lexical fault.
pub fn texts_are_parsed()
    ensures { (text : List ℕ) → IsText text (parsed text) }
{}

/// And it is nothing else.
pub fn a_text_is_one_thing()
    ensures { (text : List ℕ) (a b : Parsed) → IsText text a → IsText text b → a ≡ b }
{}

/// Tokens have one first token at most that continues no document.
pub fn one_fault()
    ensures { (tokens : List Seen) (m n : ℕ) → IsFaultPlace tokens m → IsFaultPlace tokens n → m ≡ n }
{}

/// So a text has one offset at most where it is refused for its syntax.
pub fn one_offset()
    ensures { (edge : ℕ) (tokens : List Seen) (a b : ℕ) → IsFaultAt edge tokens a → IsFaultAt edge tokens b → a ≡ b }
{}

/// The tokens of a document have none.
pub fn documents_have_no_fault()
    ensures { (tokens : List Seen) (n : ℕ) → IsDocument tokens → IsFaultPlace tokens n → ⊥ }
{}
