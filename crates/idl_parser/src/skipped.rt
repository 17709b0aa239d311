//! Parts that are read and have no meaning: notes, and the types of other languages.
ghost use Rattle.std.specs.Prelude.{◌≡◌, ◌≤◌, length};
ghost use Rattle.idl_parser.specs.Cpp.{literal_at, id_at, cpp_at, equal_at};
ghost use Rattle.idl_parser.specs.Lexemes.{IsWithin, IsUpTo};
ghost use Rattle.idl_parser.specs.Marks.{round_close};
ghost use Rattle.idl_parser.specs.Notes.{not_closed, note_at, one_note, notes_at, nothing};
ghost use Rattle.idl_parser.specs.Run.{run};

use crate::fault::Fault;
use crate::marks::{mark_at, sep_len};
use crate::tokens::{Lexeme, Tokens};
use crate::words::Keyword;

/// One literal.
#[tactic(auto, unfolding(crate::specs::Cpp::literal_at))]
pub(crate) fn literal_at(tokens: &Tokens<'_>) -> Result<((), usize), Fault>
    ensures within { IsWithin (length tokens.now.list) result }
    ensures exact { result ≡ literal_at tokens.now.edge tokens.now.list }
{
    match tokens.lexeme() {
        Lexeme::Literal => Ok(((), 1)),
        _ => Err(Fault::Syntax(tokens.at())),
    }
}

/// One word that is no keyword.
#[tactic(auto, unfolding(crate::specs::Cpp::id_at))]
pub(crate) fn id_at(tokens: &Tokens<'_>) -> Result<((), usize), Fault>
    ensures within { IsWithin (length tokens.now.list) result }
    ensures exact { result ≡ id_at tokens.now.edge tokens.now.list }
{
    match tokens.lexeme() {
        Lexeme::Name => Ok(((), 1)),
        _ => Err(Fault::Syntax(tokens.at())),
    }
}

/// `cpp_type` and a literal, where that word stands.
#[tactic(auto, unfolding(crate::specs::Cpp::cpp_at))]
pub(crate) fn cpp_at(tokens: &Tokens<'_>) -> Result<((), usize), Fault>
    ensures within { IsUpTo (length tokens.now.list) result }
    ensures exact { result ≡ cpp_at tokens.now.edge tokens.now.list }
{
    match tokens.lexeme() {
        Lexeme::Keyword(Keyword::CppType) => {
            let (_, used) = literal_at(&tokens.rest(1))?;
            Ok(((), 1 + used))
        }
        _ => Ok(((), 0)),
    }
}

// `=` and a literal, where that mark stands.
#[tactic(auto, unfolding(crate::specs::Cpp::equal_at))]
fn equal_at(tokens: &Tokens<'_>) -> Result<((), usize), Fault>
    ensures within { IsUpTo (length tokens.now.list) result }
    ensures exact { result ≡ equal_at tokens.now.edge tokens.now.list }
{
    if !tokens.stands(b'=') {
        return Ok(((), 0));
    }
    let (_, used) = literal_at(&tokens.rest(1))?;
    Ok(((), 1 + used))
}

// A note: a name, a literal where one is given, and a separator where one stands.
#[tactic(auto, unfolding(crate::specs::Notes::note_at))]
fn note_at(tokens: &Tokens<'_>) -> Result<((), usize), Fault>
    ensures within { IsWithin (length tokens.now.list) result }
    ensures exact { result ≡ note_at tokens.now.edge tokens.now.list }
{
    let (_, n) = id_at(tokens)?;
    let (_, used) = equal_at(&tokens.rest(n))?;
    let n = n + used;
    let more = sep_len(&tokens.rest(n));
    Ok(((), n + more))
}

// Notes as long as none is closed.
fn run_notes(tokens: &Tokens<'_>) -> Result<((), usize), Fault>
    ensures within { IsUpTo (length tokens.now.list) result }
    ensures exact { nothing result ≡ run (not_closed round_close) (one_note tokens.now.edge) tokens.now.edge tokens.now.list 0 }
{
    let mut n = 0;
    'items: loop {
        let rest = tokens.rest(n);
        if rest.stands(b')') {
            return Ok(((), n));
        }
        match note_at(&rest) {
            Ok((_, used)) => n += used,
            Err(fault) => return Err(fault),
        }
    }
}

/// Notes in round brackets, where one stands.
#[tactic(auto, unfolding(crate::specs::Notes::notes_at))]
pub(crate) fn notes_at(tokens: &Tokens<'_>) -> Result<((), usize), Fault>
    ensures within { IsUpTo (length tokens.now.list) result }
    ensures exact { result ≡ notes_at tokens.now.edge tokens.now.list }
{
    if !tokens.stands(b'(') {
        return Ok(((), 0));
    }
    let n = 1 + run_notes(&tokens.rest(1))?.1;
    let n = n + mark_at(&tokens.rest(n), b')')?.1;
    Ok(((), n))
}
