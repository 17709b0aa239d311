//! Fields.
ghost use Rattle.std.specs.Prelude.{◌≡◌, ◌≤◌, length, option_map, Some};
ghost use Rattle.idl_parser.specs.Fields.{given_at, asked_at, typed_at, preset_at, last_preset_at, named_preset_at, named_preset_tree, field_at, fields_in, one_field};
ghost use Rattle.idl_document.specs.Trees.{field_tree, field_trees, type_tree};
ghost use Rattle.idl_document.specs.Items.{items_of_value};
ghost use Rattle.idl_parser.specs.Lexemes.{Gives, IsWithin, IsUpTo};
ghost use Rattle.idl_parser.specs.Notes.{not_closed};
ghost use Rattle.idl_parser.specs.Run.{run};

use crate::fault::{Fault, Stop};
use crate::marks::mark_at;
use crate::names::{name_at, tail_at};
use crate::tokens::{Lexeme, Tokens};
use crate::types::{MOST_LEVELS, type_at};
use crate::values::value_at;
use crate::words::Keyword;
use idl_document::{Asked, FieldDecl, Name, Seq, TypeExpr, ValueExpr};
use std::alloc::Global;

/// Fields between two marks.
#[tactic(auto, unfolding(crate::specs::Fields::fields_in))]
pub(crate) fn fields_in(
    alloc: Global,
    tokens: &Tokens<'_>,
    opening: u8,
    closing: u8,
) -> Result<(Seq<FieldDecl>, usize), Stop>
    ensures within { IsWithin (length tokens.now.list) result }
    ensures exact { Gives field_trees result (fields_in opening closing tokens.now.edge tokens.now.list) }
{
    let (_, n) = mark_at(tokens, opening)?;
    let (list, used) = run_fields(alloc, &tokens.rest(n), closing)?;
    let n = n + used;
    let n = n + mark_at(&tokens.rest(n), closing)?.1;
    Ok((list, n))
}

// Fields as long as this mark does not close them.
fn run_fields(
    alloc: Global,
    tokens: &Tokens<'_>,
    closing: u8,
) -> Result<(Seq<FieldDecl>, usize), Stop>
    ensures within { IsUpTo (length tokens.now.list) result }
    ensures exact { Gives field_trees result (run (not_closed closing) (one_field tokens.now.edge) tokens.now.edge tokens.now.list 0) }
{
    let mut list = Seq::new(alloc);
    let mut n = 0;
    'items: loop {
        let rest = tokens.rest(n);
        if rest.stands(closing) {
            return Ok((list, n));
        }
        match field_at(alloc, &rest) {
            Ok((field, used)) => {
                list.push(field)?;
                n += used;
            }
            Err(stop) => return Err(stop),
        }
    }
}

fn given_here(at: usize, id: i64) -> Option<(usize, i64)>
    ensures { result ≡ Some (at, id) }
{
    Some((at, id))
}

// An id with its offset, where one is given.
#[tactic(auto, unfolding(crate::specs::Fields::given_at))]
fn given_at(tokens: &Tokens<'_>) -> Result<(Option<(usize, i64)>, usize), Fault>
    ensures within { IsUpTo (length tokens.now.list) result }
    ensures exact { result ≡ given_at tokens.now.edge tokens.now.list }
{
    match tokens.lexeme() {
        Lexeme::Int(id) => {
            let n = 1 + mark_at(&tokens.rest(1), b':')?.1;
            Ok((given_here(tokens.at(), id), n))
        }
        _ => Ok((None, 0)),
    }
}

#[tactic(auto, unfolding(crate::specs::Fields::asked_at))]
fn asked_at(tokens: &Tokens<'_>) -> Result<(Asked, usize), Fault>
    ensures within { IsUpTo (length tokens.now.list) result }
    ensures exact { result ≡ asked_at tokens.now.list }
{
    match tokens.lexeme() {
        Lexeme::Keyword(Keyword::Required) => Ok((Asked::Required, 1)),
        Lexeme::Keyword(Keyword::Optional) => Ok((Asked::Optional, 1)),
        _ => Ok((Asked::Default, 0)),
    }
}

// A type, and a mark & where it stands.
#[tactic(auto, unfolding(crate::specs::Fields::typed_at))]
fn typed_at(alloc: Global, tokens: &Tokens<'_>) -> Result<(TypeExpr, usize), Stop>
    ensures within { IsWithin (length tokens.now.list) result }
    ensures exact { Gives type_tree result (typed_at tokens.now.edge tokens.now.list) }
{
    let (ty, n) = type_at(alloc, tokens, MOST_LEVELS)?;
    if tokens.rest(n).stands(b'&') {
        return Ok((ty, n + 1));
    }
    Ok((ty, n))
}

#[tactic(auto, unfolding(crate::specs::Fields::preset_at))]
fn preset_at(alloc: Global, tokens: &Tokens<'_>) -> Result<(Option<ValueExpr>, usize), Stop>
    ensures within { IsUpTo (length tokens.now.list) result }
    ensures exact { Gives (option_map items_of_value) result (preset_at tokens.now.edge tokens.now.list) }
{
    if !tokens.stands(b'=') {
        return Ok((None, 0));
    }
    let (value, used) = value_at(alloc, &tokens.rest(1), MOST_LEVELS)?;
    Ok((Some(value), 1 + used))
}

// The name of a field, and its preset.
#[derive(Drop)]
struct NamedPreset {
    name: Name,
    preset: Option<ValueExpr>,
}

#[tactic(auto, unfolding(crate::specs::Fields::field_at))]
fn field_at(alloc: Global, tokens: &Tokens<'_>) -> Result<(FieldDecl, usize), Stop>
    ensures within { IsWithin (length tokens.now.list) result }
    ensures exact { Gives field_tree result (field_at tokens.now.edge tokens.now.list) }
{
    let (id, n) = given_at(tokens)?;
    let (asked, used) = asked_at(&tokens.rest(n))?;
    let n = n + used;
    let (ty, used) = typed_at(alloc, &tokens.rest(n))?;
    let n = n + used;
    let (named, used) = named_preset_at(alloc, &tokens.rest(n))?;
    Ok((field(id, asked, ty, named), n + used))
}

fn field(id: Option<(usize, i64)>, asked: Asked, ty: TypeExpr, named: NamedPreset) -> FieldDecl
    ensures { result ≡ record { id = id; asked = asked; ty = ty; name = named.name; preset = named.preset } }
{
    FieldDecl {
        id,
        asked,
        ty,
        name: named.name,
        preset: named.preset,
    }
}

// What stands behind a field's type.
#[tactic(auto, unfolding(crate::specs::Fields::named_preset_at))]
fn named_preset_at(alloc: Global, tokens: &Tokens<'_>) -> Result<(NamedPreset, usize), Stop>
    ensures within { IsWithin (length tokens.now.list) result }
    ensures exact { Gives named_preset_tree result (named_preset_at tokens.now.edge tokens.now.list) }
{
    let (name, n) = name_at(alloc, tokens)?;
    let (preset, used) = last_preset_at(alloc, &tokens.rest(n))?;
    Ok((named_preset(name, preset), n + used))
}

fn named_preset(name: Name, preset: Option<ValueExpr>) -> NamedPreset
    ensures { result ≡ record { name = name; preset = preset } }
{
    NamedPreset { name, preset }
}

// A preset, where one stands, with the notes and the separator that end a field.
#[tactic(auto, unfolding(crate::specs::Fields::last_preset_at))]
fn last_preset_at(alloc: Global, tokens: &Tokens<'_>) -> Result<(Option<ValueExpr>, usize), Stop>
    ensures within { IsUpTo (length tokens.now.list) result }
    ensures exact { Gives (option_map items_of_value) result (last_preset_at tokens.now.edge tokens.now.list) }
{
    let (preset, n) = preset_at(alloc, tokens)?;
    let n = n + tail_at(&tokens.rest(n))?.1;
    Ok((preset, n))
}
