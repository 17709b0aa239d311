//! The members of enums.
ghost use Rattle.std.specs.Prelude.{◌≡◌, ◌≤◌, length};
ghost use Rattle.idl_parser.specs.Declarations.{int_at, number_at, member_at, members_in, one_member};
ghost use Rattle.idl_parser.specs.Lexemes.{Gives, IsWithin, IsUpTo, itself};
ghost use Rattle.idl_parser.specs.Marks.{curly_close};
ghost use Rattle.idl_parser.specs.Notes.{not_closed};
ghost use Rattle.idl_parser.specs.Run.{run};

use crate::fault::{Fault, Stop};
use crate::marks::mark_at;
use crate::names::{body_end_at, name_at, tail_at};
use crate::tokens::{Lexeme, Tokens};
use idl_document::{Member, Name, Seq};
use std::alloc::Global;

/// Members in curly brackets, and notes.
#[tactic(auto, unfolding(crate::specs::Declarations::members_in))]
pub(crate) fn members_in(alloc: Global, tokens: &Tokens<'_>) -> Result<(Seq<Member>, usize), Stop>
    ensures within { IsWithin (length tokens.now.list) result }
    ensures exact { Gives itself result (members_in tokens.now.edge tokens.now.list) }
{
    let (_, n) = mark_at(tokens, b'{')?;
    let (list, used) = run_members(alloc, &tokens.rest(n))?;
    let n = n + used;
    let n = n + body_end_at(&tokens.rest(n))?.1;
    Ok((list, n))
}

// Members as long as the enum is not closed.
fn run_members(alloc: Global, tokens: &Tokens<'_>) -> Result<(Seq<Member>, usize), Stop>
    ensures within { IsUpTo (length tokens.now.list) result }
    ensures exact { Gives itself result (run (not_closed curly_close) (one_member tokens.now.edge) tokens.now.edge tokens.now.list 0) }
{
    let mut list = Seq::new(alloc);
    let mut n = 0;
    'items: loop {
        let rest = tokens.rest(n);
        if rest.stands(b'}') {
            return Ok((list, n));
        }
        match member_at(alloc, &rest) {
            Ok((member, used)) => {
                list.push(member)?;
                n += used;
            }
            Err(stop) => return Err(stop),
        }
    }
}

#[tactic(auto, unfolding(crate::specs::Declarations::member_at))]
fn member_at(alloc: Global, tokens: &Tokens<'_>) -> Result<(Member, usize), Stop>
    ensures within { IsWithin (length tokens.now.list) result }
    ensures exact { Gives itself result (member_at tokens.now.edge tokens.now.list) }
{
    let (name, n) = name_at(alloc, tokens)?;
    let (value, used) = number_at(&tokens.rest(n))?;
    let n = n + used;
    let n = n + tail_at(&tokens.rest(n))?.1;
    Ok((member(name, value), n))
}

fn member(name: Name, value: Option<i64>) -> Member
    ensures { result ≡ record { name = name; value = value } }
{
    Member { name, value }
}

// `=` and a whole number, where that mark stands.
#[tactic(auto, unfolding(crate::specs::Declarations::number_at))]
fn number_at(tokens: &Tokens<'_>) -> Result<(Option<i64>, usize), Fault>
    ensures within { IsUpTo (length tokens.now.list) result }
    ensures exact { result ≡ number_at tokens.now.edge tokens.now.list }
{
    if !tokens.stands(b'=') {
        return Ok((None, 0));
    }
    let (value, used) = int_at(&tokens.rest(1))?;
    Ok((Some(value), 1 + used))
}

#[tactic(auto, unfolding(crate::specs::Declarations::int_at))]
fn int_at(tokens: &Tokens<'_>) -> Result<(i64, usize), Fault>
    ensures within { IsWithin (length tokens.now.list) result }
    ensures exact { result ≡ int_at tokens.now.edge tokens.now.list }
{
    match tokens.lexeme() {
        Lexeme::Int(value) => Ok((value, 1)),
        _ => Err(Fault::Syntax(tokens.at())),
    }
}
