//! Laws of the IDL's lexis: a text is cut as the Apache Thrift IDL grammar says, into whitespace, comments and tokens, each token the longest
//! that fits, and the fault that is told is the one at the first place from which nothing fits.
//!
//! Each law is the contract of a function that does nothing. The code rests on none of them.
#![tactic(auto)]

ghost use Rattle.std.specs.Prelude.{◌≡◌, ◌↔◌, ◌⊎◌, ℕ, ◌+◌, ◌≤◌, List, [], length, Result, Ok, Err};
ghost use Rattle.std.specs.Global.{Vec};
ghost use Rattle.idl_lexer.specs.Grammar.{Lexes};
ghost use Rattle.idl_lexer.specs.Tokens.{tokens_of, Gives};
ghost use Rattle.idl_lexer.specs.declared.token.Token.{Token};
ghost use Rattle.idl_lexer.specs.declared.token.TokenForm.{TokenForm};
ghost use Rattle.idl_lexer.specs.declared.token.LexReason.TheVariants as reasons;
ghost use Rattle.idl_lexer.specs.declared.token.LexError.{LexError};
ghost use Rattle.idl_lexer.specs.declared.token.LexFault.{LexFault};
ghost use Rattle.lexis_laws.specs.Cutting.{StandsIn, Cuts, CutsUpTo, Agree};
ghost use Rattle.lexis_laws.specs.Faults.{IsFaultOf, IsLexed, HasBigNumber, fault_at};

/// What is read of a text is a cutting of it, and each cutting is what is read.
pub fn a_text_is_cut_as_it_is_read()
    ensures sound { (text : List ℕ) (tokens : List Token) → tokens_of text ≡ Ok tokens → Lexes 0 text tokens }
    ensures whole { (text : List ℕ) (tokens : List Token) → Lexes 0 text tokens → tokens_of text ≡ Ok tokens }
{}

/// What `lex` returns of a text, by its clause, is the tokens of its cutting, or the fault that stands there; or memory ran out.
pub fn what_is_returned_is_lexed()
    ensures { (text : List ℕ) (result : Result (Vec Token) LexError) → Gives result (tokens_of text) → IsLexed text result }
{}

/// A text has one cutting at most.
pub fn a_text_is_cut_in_one_way()
    ensures { (text : List ℕ) (xs ys : List Token) → Lexes 0 text xs → Lexes 0 text ys → xs ≡ ys }
{}

/// At a place one token stands at most: the longest that fits there has one form, and a whole number one value.
pub fn one_token_stands_at_a_place()
    ensures { (text bytes front : List ℕ) (form other : TokenForm) → StandsIn text form bytes → StandsIn text other front → (form ≡ other) × (bytes ≡ front) }
{}

/// A cutting of a text is a cutting up to its end.
pub fn a_cutting_goes_up_to_the_end()
    ensures { (text : List ℕ) (tokens : List Token) → Lexes 0 text tokens ↔ Cuts 0 text tokens (length text) [] }
{}

/// The fault that is told of a text is the one that stands there: up to its offset the text is cut, and from there on it is cut no further,
/// for that reason. It is the first: no cutting goes beyond its offset.
pub fn the_fault_that_stands_there()
    ensures stands { (text : List ℕ) (fault : LexFault) → tokens_of text ≡ Err fault → IsFaultOf text fault }
    ensures told { (text : List ℕ) (fault : LexFault) → IsFaultOf text fault → tokens_of text ≡ Err fault }
    ensures first { (text behind : List ℕ) (tokens : List Token) (place : ℕ) (fault : LexFault) → Cuts 0 text tokens place behind
        → IsFaultOf text fault → place ≤ fault.offset }
{}

/// Each text has a cutting or a fault, never both, and one fault at most.
pub fn a_text_is_cut_or_has_one_fault()
    ensures either { (text : List ℕ) → ((tokens : List Token) × Lexes 0 text tokens) ⊎ ((fault : LexFault) × IsFaultOf text fault) }
    ensures never_both { (text : List ℕ) (tokens : List Token) (fault : LexFault) → Lexes 0 text tokens → IsFaultOf text fault → ⊥ }
    ensures one { (text : List ℕ) (fault other : LexFault) → IsFaultOf text fault → IsFaultOf text other → fault ≡ other }
{}

/// What is cut of a text up to some place depends on the bytes up to there and on three bytes behind alone: a token looks no further.
pub fn a_token_looks_no_further()
    ensures { (text other behind : List ℕ) (tokens : List Token) (place : ℕ) → Cuts 0 text tokens place behind
        → Agree (place + 3) text other → CutsUpTo other tokens place }
{}

/// A bad byte is told by the bytes up to it and three from it on, and a number that is too big by its own bytes and three behind, whatever
/// stands further on.
pub fn a_fault_looks_no_further()
    ensures bad_byte { (text other : List ℕ) (at : ℕ) → IsFaultOf text (fault_at at reasons.BadByte)
        → Agree (at + 3) text other → IsFaultOf other (fault_at at reasons.BadByte) }
    ensures big_number { (text other bytes : List ℕ) (at : ℕ) → HasBigNumber text at bytes
        → Agree (at + (length bytes + 3)) text other → IsFaultOf other (fault_at at reasons.BigNumber) }
{}
