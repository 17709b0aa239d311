//! Constant values.
ghost use Rattle.std.specs.Prelude.{◌≡◌, ◌≤◌, ◌<◌, ◌-◌, length};
ghost use Rattle.idl_document.specs.Items.{items_of_value, items_of_pair};
ghost use Rattle.idl_parser.specs.Lexemes.{Gives, IsWithin, IsUpTo, itself};
ghost use Rattle.idl_parser.specs.Marks.{square_close};
ghost use Rattle.idl_parser.specs.Notes.{not_closed};
ghost use Rattle.idl_parser.specs.Run.{run};
ghost use Rattle.idl_parser.specs.Values.{value_at, value_step, list_of, map_of, element_of, pair_of, key_at, pairs_of};

use crate::fault::{Fault, Stop};
use crate::marks::{mark_at, sep_len};
use crate::tokens::{Lexeme, Tokens};
use gate_base::Text;
use idl_document::{Pair, PairList, ValueExpr, ValueForm, ValueList};
use std::alloc::Global;

/// A value at the front of the tokens, with so many levels left below it.
#[cycle(values)]
pub(crate) fn value_at(
    alloc: Global,
    tokens: &Tokens<'_>,
    levels: usize,
) -> Result<(ValueExpr, usize), Stop>
    ensures within { IsWithin (length tokens.now.list) result }
    ensures exact { Gives items_of_value result (value_at levels tokens.now.edge tokens.now.list) }
{
    value_step(alloc, tokens, levels)
}

fn value_here(at: usize, form: ValueForm) -> ValueExpr
    ensures { result ≡ record { at = at; form = form } }
{
    ValueExpr { at, form }
}

#[cycle(values)]
#[tactic(auto, unfolding(crate::specs::Values::value_step))]
fn value_step(alloc: Global, tokens: &Tokens<'_>, levels: usize) -> Result<(ValueExpr, usize), Stop>
    ensures within { IsWithin (length tokens.now.list) result }
    ensures exact { Gives items_of_value result (value_step levels tokens.now.edge tokens.now.list) }
{
    let at = tokens.at();
    match tokens.lexeme() {
        Lexeme::Int(value) => Ok((value_here(at, ValueForm::Int(value)), 1)),
        Lexeme::Double => {
            let word = Text::new(alloc, tokens.word())?;
            Ok((value_here(at, ValueForm::Double(word)), 1))
        }
        Lexeme::Literal => {
            let word = Text::new(alloc, tokens.word())?;
            Ok((value_here(at, ValueForm::Literal(word)), 1))
        }
        Lexeme::Name => {
            let word = Text::new(alloc, tokens.word())?;
            Ok((value_here(at, ValueForm::Named(word)), 1))
        }
        Lexeme::Mark(mark) => {
            if mark == b'[' {
                if levels == 0 {
                    return Err(Stop::Fault(Fault::Nested(at)));
                }
                return list_of(alloc, tokens, levels);
            }
            if mark == b'{' {
                if levels == 0 {
                    return Err(Stop::Fault(Fault::Nested(at)));
                }
                return map_of(alloc, tokens, levels);
            }
            Err(Stop::Fault(Fault::Syntax(at)))
        }
        Lexeme::Keyword(_) => Err(Stop::Fault(Fault::Syntax(at))),
        Lexeme::End => Err(Stop::Fault(Fault::Syntax(at))),
    }
}

// Behind the mark that opens a list.
#[cycle(values)]
#[tactic(auto, unfolding(crate::specs::Values::list_of))]
fn list_of(alloc: Global, tokens: &Tokens<'_>, levels: usize) -> Result<(ValueExpr, usize), Stop>
    requires mark { 0 < length tokens.now.list }
    requires level { 0 < levels }
    ensures within { IsWithin (length tokens.now.list) result }
    ensures exact { Gives items_of_value result (list_of (value_at (levels - 1) tokens.now.edge) tokens.now.edge tokens.now.list) }
{
    let at = tokens.at();
    let (items, used) = elements(alloc, &tokens.rest(1), levels)?;
    let n = 1 + used;
    let n = n + mark_at(&tokens.rest(n), b']')?.1;
    Ok((value_here(at, ValueForm::List(items)), n))
}

// Elements as long as the list is not closed.
#[cycle(values)]
fn elements(alloc: Global, tokens: &Tokens<'_>, levels: usize) -> Result<(ValueList, usize), Stop>
    requires level { 0 < levels }
    ensures within { IsUpTo (length tokens.now.list) result }
    ensures exact { Gives itself result (run (not_closed square_close) (element_of (value_at (levels - 1) tokens.now.edge)) tokens.now.edge tokens.now.list 0) }
{
    let mut list = ValueList::new(alloc);
    let mut n = 0;
    'items: loop {
        let rest = tokens.rest(n);
        if rest.stands(b']') {
            return Ok((list, n));
        }
        match element_of(alloc, &rest, levels) {
            Ok((value, used)) => {
                list.push(value)?;
                n += used;
            }
            Err(stop) => return Err(stop),
        }
    }
}

#[cycle(values)]
#[tactic(auto, unfolding(crate::specs::Values::element_of))]
fn element_of(alloc: Global, tokens: &Tokens<'_>, levels: usize) -> Result<(ValueExpr, usize), Stop>
    requires level { 0 < levels }
    ensures within { IsWithin (length tokens.now.list) result }
    ensures exact { Gives items_of_value result (element_of (value_at (levels - 1) tokens.now.edge) tokens.now.list) }
{
    let (value, n) = value_at(alloc, tokens, levels - 1)?;
    let more = sep_len(&tokens.rest(n));
    Ok((value, n + more))
}

// Behind the mark that opens a map.
#[cycle(values)]
#[tactic(auto, unfolding(crate::specs::Values::map_of))]
fn map_of(alloc: Global, tokens: &Tokens<'_>, levels: usize) -> Result<(ValueExpr, usize), Stop>
    requires mark { 0 < length tokens.now.list }
    requires level { 0 < levels }
    ensures within { IsWithin (length tokens.now.list) result }
    ensures exact { Gives items_of_value result (map_of (value_at (levels - 1) tokens.now.edge) tokens.now.edge tokens.now.list) }
{
    let at = tokens.at();
    let (items, used) = pairs(alloc, &tokens.rest(1), levels)?;
    let n = 1 + used;
    let n = n + mark_at(&tokens.rest(n), b'}')?.1;
    Ok((value_here(at, ValueForm::Map(items)), n))
}

// Pairs as long as the map is not closed.
#[cycle(values)]
fn pairs(alloc: Global, tokens: &Tokens<'_>, levels: usize) -> Result<(PairList, usize), Stop>
    requires level { 0 < levels }
    ensures within { IsUpTo (length tokens.now.list) result }
    ensures exact { Gives itself result (pairs_of (value_at (levels - 1) tokens.now.edge) tokens.now.edge tokens.now.list) }
{
    let mut list = PairList::new(alloc);
    let mut n = 0;
    'items: loop {
        let rest = tokens.rest(n);
        if rest.stands(b'}') {
            return Ok((list, n));
        }
        match pair_of(alloc, &rest, levels) {
            Ok((pair, used)) => {
                list.push(pair)?;
                n += used;
            }
            Err(stop) => return Err(stop),
        }
    }
}

#[cycle(values)]
#[tactic(auto, unfolding(crate::specs::Values::pair_of))]
fn pair_of(alloc: Global, tokens: &Tokens<'_>, levels: usize) -> Result<(Pair, usize), Stop>
    requires level { 0 < levels }
    ensures within { IsWithin (length tokens.now.list) result }
    ensures exact { Gives items_of_pair result (pair_of (value_at (levels - 1) tokens.now.edge) tokens.now.edge tokens.now.list) }
{
    let (key, n) = key_at(alloc, tokens, levels)?;
    let (value, used) = element_of(alloc, &tokens.rest(n), levels)?;
    Ok((pair_here(key, value), n + used))
}

// A key, and the colon behind it.
#[cycle(values)]
#[tactic(auto, unfolding(crate::specs::Values::key_at))]
fn key_at(alloc: Global, tokens: &Tokens<'_>, levels: usize) -> Result<(ValueExpr, usize), Stop>
    requires level { 0 < levels }
    ensures within { IsWithin (length tokens.now.list) result }
    ensures exact { Gives items_of_value result (key_at (value_at (levels - 1) tokens.now.edge) tokens.now.edge tokens.now.list) }
{
    let (key, n) = value_at(alloc, tokens, levels - 1)?;
    let n = n + mark_at(&tokens.rest(n), b':')?.1;
    Ok((key, n))
}

fn pair_here(key: ValueExpr, value: ValueExpr) -> Pair
    ensures { result ≡ record { key = key; value = value } }
{
    Pair { key, value }
}
