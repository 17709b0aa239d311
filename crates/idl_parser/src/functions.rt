//! The methods of services.
ghost use Rattle.std.specs.Prelude.{◌≡◌, ◌≤◌, length, option_map};
ghost use Rattle.idl_parser.specs.Functions.{oneway_at, returns_at, throws_at, last_throws_at, field_lists_at, field_lists_tree, signature_at, signature_tree, function_at, functions_in, one_function};
ghost use Rattle.idl_document.specs.Trees.{function_tree, function_trees, field_trees, type_tree};
ghost use Rattle.idl_parser.specs.Lexemes.{Gives, IsWithin, IsUpTo};
ghost use Rattle.idl_parser.specs.Marks.{curly_close};
ghost use Rattle.idl_parser.specs.Notes.{not_closed};
ghost use Rattle.idl_parser.specs.Run.{run};

use crate::fault::{Fault, Stop};
use crate::fields::fields_in;
use crate::marks::mark_at;
use crate::names::{body_end_at, name_at, tail_at};
use crate::tokens::{Lexeme, Tokens};
use crate::types::{MOST_LEVELS, type_at};
use crate::words::Keyword;
use idl_document::{FieldDecl, Function, Name, Seq, TypeExpr};
use std::alloc::Global;

// The name of a method, with its arguments and exceptions.
#[derive(Drop)]
struct Signature {
    name: Name,
    lists: FieldLists,
}

// The arguments of a method, and the exceptions that it throws.
#[derive(Drop)]
struct FieldLists {
    args: Seq<FieldDecl>,
    throws: Seq<FieldDecl>,
}

/// Methods in curly brackets, and notes.
#[tactic(auto, unfolding(crate::specs::Functions::functions_in))]
pub(crate) fn functions_in(
    alloc: Global,
    tokens: &Tokens<'_>,
) -> Result<(Seq<Function>, usize), Stop>
    ensures within { IsWithin (length tokens.now.list) result }
    ensures exact { Gives function_trees result (functions_in tokens.now.edge tokens.now.list) }
{
    let (_, n) = mark_at(tokens, b'{')?;
    let (list, used) = run_functions(alloc, &tokens.rest(n))?;
    let n = n + used;
    let n = n + body_end_at(&tokens.rest(n))?.1;
    Ok((list, n))
}

// Methods as long as the service is not closed.
fn run_functions(alloc: Global, tokens: &Tokens<'_>) -> Result<(Seq<Function>, usize), Stop>
    ensures within { IsUpTo (length tokens.now.list) result }
    ensures exact { Gives function_trees result (run (not_closed curly_close) (one_function tokens.now.edge) tokens.now.edge tokens.now.list 0) }
{
    let mut list = Seq::new(alloc);
    let mut n = 0;
    'items: loop {
        let rest = tokens.rest(n);
        if rest.stands(b'}') {
            return Ok((list, n));
        }
        match function_at(alloc, &rest) {
            Ok((function, used)) => {
                list.push(function)?;
                n += used;
            }
            Err(stop) => return Err(stop),
        }
    }
}

#[tactic(auto, unfolding(crate::specs::Functions::function_at))]
fn function_at(alloc: Global, tokens: &Tokens<'_>) -> Result<(Function, usize), Stop>
    ensures within { IsWithin (length tokens.now.list) result }
    ensures exact { Gives function_tree result (function_at tokens.now.edge tokens.now.list) }
{
    let (oneway, n) = oneway_at(tokens)?;
    let (returns, used) = returns_at(alloc, &tokens.rest(n))?;
    let n = n + used;
    let (signature, used) = signature_at(alloc, &tokens.rest(n))?;
    Ok((function(oneway, returns, signature), n + used))
}

fn function(oneway: Option<usize>, returns: Option<TypeExpr>, signature: Signature) -> Function
    ensures { result ≡ record { oneway = oneway; returns = returns; name = signature.name; args = signature.lists.args; throws = signature.lists.throws } }
{
    Function {
        oneway,
        returns,
        name: signature.name,
        args: signature.lists.args,
        throws: signature.lists.throws,
    }
}

// What stands behind the type that a method returns.
#[tactic(auto, unfolding(crate::specs::Functions::signature_at))]
fn signature_at(alloc: Global, tokens: &Tokens<'_>) -> Result<(Signature, usize), Stop>
    ensures within { IsWithin (length tokens.now.list) result }
    ensures exact { Gives signature_tree result (signature_at tokens.now.edge tokens.now.list) }
{
    let (name, n) = name_at(alloc, tokens)?;
    let (lists, used) = field_lists_at(alloc, &tokens.rest(n))?;
    Ok((signature_of(name, lists), n + used))
}

fn signature_of(name: Name, lists: FieldLists) -> Signature
    ensures { result ≡ record { name = name; lists = lists } }
{
    Signature { name, lists }
}

// What stands behind a method's name.
#[tactic(auto, unfolding(crate::specs::Functions::field_lists_at))]
fn field_lists_at(alloc: Global, tokens: &Tokens<'_>) -> Result<(FieldLists, usize), Stop>
    ensures within { IsWithin (length tokens.now.list) result }
    ensures exact { Gives field_lists_tree result (field_lists_at tokens.now.edge tokens.now.list) }
{
    let (args, n) = fields_in(alloc, tokens, b'(', b')')?;
    let (throws, used) = last_throws_at(alloc, &tokens.rest(n))?;
    Ok((field_lists(args, throws), n + used))
}

fn field_lists(args: Seq<FieldDecl>, throws: Seq<FieldDecl>) -> FieldLists
    ensures { result ≡ record { args = args; throws = throws } }
{
    FieldLists { args, throws }
}

// What a method throws, with the notes and the separator that end it.
#[tactic(auto, unfolding(crate::specs::Functions::last_throws_at))]
fn last_throws_at(alloc: Global, tokens: &Tokens<'_>) -> Result<(Seq<FieldDecl>, usize), Stop>
    ensures within { IsUpTo (length tokens.now.list) result }
    ensures exact { Gives field_trees result (last_throws_at tokens.now.edge tokens.now.list) }
{
    let (throws, n) = throws_at(alloc, tokens)?;
    let n = n + tail_at(&tokens.rest(n))?.1;
    Ok((throws, n))
}

// The word `oneway` with its offset, where it stands.
#[tactic(auto, unfolding(crate::specs::Functions::oneway_at))]
fn oneway_at(tokens: &Tokens<'_>) -> Result<(Option<usize>, usize), Fault>
    ensures within { IsUpTo (length tokens.now.list) result }
    ensures exact { result ≡ oneway_at tokens.now.edge tokens.now.list }
{
    match tokens.lexeme() {
        Lexeme::Keyword(Keyword::Oneway) => Ok((Some(tokens.at()), 1)),
        _ => Ok((None, 0)),
    }
}

// A type, or `void`.
#[tactic(auto, unfolding(crate::specs::Functions::returns_at))]
fn returns_at(alloc: Global, tokens: &Tokens<'_>) -> Result<(Option<TypeExpr>, usize), Stop>
    ensures within { IsWithin (length tokens.now.list) result }
    ensures exact { Gives (option_map type_tree) result (returns_at tokens.now.edge tokens.now.list) }
{
    match tokens.lexeme() {
        Lexeme::Keyword(Keyword::Void) => Ok((None, 1)),
        _ => {
            let (ty, n) = type_at(alloc, tokens, MOST_LEVELS)?;
            Ok((Some(ty), n))
        }
    }
}

// `throws` and fields in round brackets, where that word stands.
#[tactic(auto, unfolding(crate::specs::Functions::throws_at))]
fn throws_at(alloc: Global, tokens: &Tokens<'_>) -> Result<(Seq<FieldDecl>, usize), Stop>
    ensures within { IsUpTo (length tokens.now.list) result }
    ensures exact { Gives field_trees result (throws_at tokens.now.edge tokens.now.list) }
{
    match tokens.lexeme() {
        Lexeme::Keyword(Keyword::Throws) => {
            let (fields, used) = fields_in(alloc, &tokens.rest(1), b'(', b')')?;
            Ok((fields, 1 + used))
        }
        _ => Ok((Seq::new(alloc), 0)),
    }
}
