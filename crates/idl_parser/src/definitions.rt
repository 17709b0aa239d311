//! Declarations.
ghost use Rattle.std.specs.Prelude.{◌≡◌, ◌≤◌, ◌<◌, length};
ghost use Rattle.idl_parser.specs.Declarations.{extends_at, const_at, named_value_at, named_value_tree, equal_value_at, typedef_at, enum_at, struct_at, struct_body_at, service_at, service_body_at, service_body_tree, declared_at, definition_at, one_definition};
ghost use Rattle.idl_document.specs.Items.{items_of_value};
ghost use Rattle.idl_document.specs.Trees.{definition_tree, definition_trees, field_trees};
ghost use Rattle.idl_parser.specs.Lexemes.{is_left, Gives, IsWithin, IsUpTo, itself};
ghost use Rattle.idl_parser.specs.Run.{run};

use crate::fault::{Fault, Stop};
use crate::fields::fields_in;
use crate::functions::functions_in;
use crate::marks::{mark_at, sep_len};
use crate::members::members_in;
use crate::names::{name_at, noted_name_at, path_at};
use crate::skipped::notes_at;
use crate::tokens::{Lexeme, Tokens};
use crate::types::{MOST_LEVELS, type_at};
use crate::values::value_at;
use crate::words::Keyword;
use idl_document::{Definition, FieldDecl, Function, Kin, Name, Seq, ValueExpr};
use std::alloc::Global;

// The name of a constant, and its value.
#[derive(Drop)]
struct NamedValue {
    name: Name,
    value: ValueExpr,
}

// The service that a service extends, and its methods.
#[derive(Drop)]
struct ServiceBody {
    base: Option<Name>,
    functions: Seq<Function>,
}

/// Declarations up to the end of the tokens.
pub(crate) fn definitions(
    alloc: Global,
    tokens: &Tokens<'_>,
) -> Result<(Seq<Definition>, usize), Stop>
    ensures within { IsUpTo (length tokens.now.list) result }
    ensures exact { Gives definition_trees result (run is_left (one_definition tokens.now.edge) tokens.now.edge tokens.now.list 0) }
{
    let mut list = Seq::new(alloc);
    let mut n = 0;
    'items: loop {
        let rest = tokens.rest(n);
        if !rest.is_left() {
            return Ok((list, n));
        }
        match definition_at(alloc, &rest) {
            Ok((definition, used)) => {
                list.push(definition)?;
                n += used;
            }
            Err(stop) => return Err(stop),
        }
    }
}

#[tactic(auto, unfolding(crate::specs::Declarations::definition_at))]
fn definition_at(alloc: Global, tokens: &Tokens<'_>) -> Result<(Definition, usize), Stop>
    ensures within { IsWithin (length tokens.now.list) result }
    ensures exact { Gives definition_tree result (definition_at tokens.now.edge tokens.now.list) }
{
    let (definition, n) = declared_at(alloc, tokens)?;
    let more = sep_len(&tokens.rest(n));
    Ok((definition, n + more))
}

#[tactic(auto, unfolding(crate::specs::Declarations::declared_at))]
fn declared_at(alloc: Global, tokens: &Tokens<'_>) -> Result<(Definition, usize), Stop>
    ensures within { IsWithin (length tokens.now.list) result }
    ensures exact { Gives definition_tree result (declared_at tokens.now.edge tokens.now.list) }
{
    match tokens.lexeme() {
        Lexeme::Keyword(Keyword::Const) => const_at(alloc, tokens),
        Lexeme::Keyword(Keyword::Typedef) => typedef_at(alloc, tokens),
        Lexeme::Keyword(Keyword::Enum) => enum_at(alloc, tokens),
        Lexeme::Keyword(Keyword::Struct) => struct_at(alloc, tokens, Kin::Struct),
        Lexeme::Keyword(Keyword::Union) => struct_at(alloc, tokens, Kin::Union),
        Lexeme::Keyword(Keyword::Exception) => struct_at(alloc, tokens, Kin::Exception),
        Lexeme::Keyword(Keyword::Service) => service_at(alloc, tokens),
        _ => Err(Stop::Fault(Fault::Syntax(tokens.at()))),
    }
}

#[tactic(auto, unfolding(crate::specs::Declarations::const_at))]
fn const_at(alloc: Global, tokens: &Tokens<'_>) -> Result<(Definition, usize), Stop>
    requires { 0 < length tokens.now.list }
    ensures within { IsWithin (length tokens.now.list) result }
    ensures exact { Gives definition_tree result (const_at tokens.now.edge tokens.now.list) }
{
    let (ty, used) = type_at(alloc, &tokens.rest(1), MOST_LEVELS)?;
    let n = 1 + used;
    let (named, used) = named_value_at(alloc, &tokens.rest(n))?;
    Ok((Definition::Const(named.name, ty, named.value), n + used))
}

// What stands behind a constant's type.
#[tactic(auto, unfolding(crate::specs::Declarations::named_value_at))]
fn named_value_at(alloc: Global, tokens: &Tokens<'_>) -> Result<(NamedValue, usize), Stop>
    ensures within { IsWithin (length tokens.now.list) result }
    ensures exact { Gives named_value_tree result (named_value_at tokens.now.edge tokens.now.list) }
{
    let (name, n) = name_at(alloc, tokens)?;
    let (value, used) = equal_value_at(alloc, &tokens.rest(n))?;
    Ok((named_value(name, value), n + used))
}

fn named_value(name: Name, value: ValueExpr) -> NamedValue
    ensures { result ≡ record { name = name; value = value } }
{
    NamedValue { name, value }
}

// `=` and a value.
#[tactic(auto, unfolding(crate::specs::Declarations::equal_value_at))]
fn equal_value_at(alloc: Global, tokens: &Tokens<'_>) -> Result<(ValueExpr, usize), Stop>
    ensures within { IsWithin (length tokens.now.list) result }
    ensures exact { Gives items_of_value result (equal_value_at tokens.now.edge tokens.now.list) }
{
    let (_, n) = mark_at(tokens, b'=')?;
    let (value, used) = value_at(alloc, &tokens.rest(n), MOST_LEVELS)?;
    Ok((value, n + used))
}

#[tactic(auto, unfolding(crate::specs::Declarations::typedef_at))]
fn typedef_at(alloc: Global, tokens: &Tokens<'_>) -> Result<(Definition, usize), Stop>
    requires { 0 < length tokens.now.list }
    ensures within { IsWithin (length tokens.now.list) result }
    ensures exact { Gives definition_tree result (typedef_at tokens.now.edge tokens.now.list) }
{
    let (ty, used) = type_at(alloc, &tokens.rest(1), MOST_LEVELS)?;
    let n = 1 + used;
    let (name, used) = noted_name_at(alloc, &tokens.rest(n))?;
    Ok((Definition::Typedef(name, ty), n + used))
}

#[tactic(auto, unfolding(crate::specs::Declarations::enum_at))]
fn enum_at(alloc: Global, tokens: &Tokens<'_>) -> Result<(Definition, usize), Stop>
    requires { 0 < length tokens.now.list }
    ensures within { IsWithin (length tokens.now.list) result }
    ensures exact { Gives definition_tree result (enum_at tokens.now.edge tokens.now.list) }
{
    let (name, used) = name_at(alloc, &tokens.rest(1))?;
    let n = 1 + used;
    let (members, used) = members_in(alloc, &tokens.rest(n))?;
    Ok((Definition::Enum(name, members), n + used))
}

#[tactic(auto, unfolding(crate::specs::Declarations::struct_at))]
fn struct_at(alloc: Global, tokens: &Tokens<'_>, kin: Kin) -> Result<(Definition, usize), Stop>
    requires { 0 < length tokens.now.list }
    ensures within { IsWithin (length tokens.now.list) result }
    ensures exact { Gives definition_tree result (struct_at kin tokens.now.edge tokens.now.list) }
{
    let (name, used) = name_at(alloc, &tokens.rest(1))?;
    let n = 1 + used;
    let (fields, used) = struct_body_at(alloc, &tokens.rest(n))?;
    Ok((Definition::Struct(kin, name, fields), n + used))
}

// Fields in curly brackets, and notes.
#[tactic(auto, unfolding(crate::specs::Declarations::struct_body_at))]
fn struct_body_at(alloc: Global, tokens: &Tokens<'_>) -> Result<(Seq<FieldDecl>, usize), Stop>
    ensures within { IsWithin (length tokens.now.list) result }
    ensures exact { Gives field_trees result (struct_body_at tokens.now.edge tokens.now.list) }
{
    let (fields, n) = fields_in(alloc, tokens, b'{', b'}')?;
    let n = n + notes_at(&tokens.rest(n))?.1;
    Ok((fields, n))
}

#[tactic(auto, unfolding(crate::specs::Declarations::service_at))]
fn service_at(alloc: Global, tokens: &Tokens<'_>) -> Result<(Definition, usize), Stop>
    requires { 0 < length tokens.now.list }
    ensures within { IsWithin (length tokens.now.list) result }
    ensures exact { Gives definition_tree result (service_at tokens.now.edge tokens.now.list) }
{
    let (name, used) = name_at(alloc, &tokens.rest(1))?;
    let n = 1 + used;
    let (body, used) = service_body_at(alloc, &tokens.rest(n))?;
    Ok((
        Definition::Service(name, body.base, body.functions),
        n + used,
    ))
}

// What stands behind a service's name.
#[tactic(auto, unfolding(crate::specs::Declarations::service_body_at))]
fn service_body_at(alloc: Global, tokens: &Tokens<'_>) -> Result<(ServiceBody, usize), Stop>
    ensures within { IsWithin (length tokens.now.list) result }
    ensures exact { Gives service_body_tree result (service_body_at tokens.now.edge tokens.now.list) }
{
    let (base, n) = extends_at(alloc, tokens)?;
    let (functions, used) = functions_in(alloc, &tokens.rest(n))?;
    Ok((service_body(base, functions), n + used))
}

fn service_body(base: Option<Name>, functions: Seq<Function>) -> ServiceBody
    ensures { result ≡ record { base = base; functions = functions } }
{
    ServiceBody { base, functions }
}

// `extends` and a name, where that word stands.
#[tactic(auto, unfolding(crate::specs::Declarations::extends_at))]
fn extends_at(alloc: Global, tokens: &Tokens<'_>) -> Result<(Option<Name>, usize), Stop>
    ensures within { IsUpTo (length tokens.now.list) result }
    ensures exact { Gives itself result (extends_at tokens.now.edge tokens.now.list) }
{
    match tokens.lexeme() {
        Lexeme::Keyword(Keyword::Extends) => {
            let (base, used) = path_at(alloc, &tokens.rest(1))?;
            Ok((Some(base), 1 + used))
        }
        _ => Ok((None, 0)),
    }
}
