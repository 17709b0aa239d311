//! The keys of a struct's value.
ghost use Rattle.std.specs.Prelude.{◌≡◌, ◌<◌, ◌-◌, ℕ, Option, Result, IfSome, option_map, option_copied};
ghost use Rattle.idl_document.specs.Trees.{definition_tree, field_trees, type_tree};
ghost use Rattle.idl_document.specs.Items.{items_of_value};
ghost use Rattle.idl_consts.specs.Keys.{fields_in, field_named, field_type, constant_items, literal_by, spot_literal, named_literal, literal_at, written_literal, key_by_text, key_by_name, key_answer, NamedLiterals};
ghost use Rattle.idl_names.specs.Targets.{definition_count};
ghost use Rattle.idl_consts.specs.Pieces.{item_of, key_meant};
ghost use Rattle.idl_consts.specs.Views.{files_of, found_tree};

use crate::fitting::is_truth;
use crate::members::any_member;
use crate::pieces::Piece;
use crate::row::ConstRow;
use crate::types::{TypeRef, definition};
use crate::view::View;
use idl_document::{Definition, FieldDecl, TypeExpr, ValueExpr, ValueForm};
use idl_names::{Scope, Spot};

/// The type of the field that a key names, in the struct at a spot, or why it names none.
pub fn key_answer<'d>(
    view: &View<'_, 'd>,
    file: u32,
    spot: Spot,
    key: &Piece<'d>,
) -> Result<TypeRef<'d>, ConstRow>
    ensures { key_meant (files_of view.now) result ≡ key_answer (files_of view.now) file spot (item_of key.now) }
{
    match key {
        Piece::Literal(_, text) => { field_type(view, spot, ConstRow::UnknownField, text) }
        Piece::Named(_, word) => key_by_name(view, file, spot, word),
        _ => Err(ConstRow::WrongForm),
    }
}

/// What a field of the struct at a spot is, or the row where there is none of this name.
#[tactic(auto, unfolding(crate::specs::Keys::field_type))]
fn field_type<'d>(
    view: &View<'_, 'd>,
    spot: Spot,
    row: ConstRow,
    word: &[u8],
) -> Result<TypeRef<'d>, ConstRow>
    ensures { key_meant (files_of view.now) result ≡ field_type (files_of view.now) spot row word.now }
{
    match field_named(fields_in(definition(view, spot)), word) {
        Some(ty) => Ok(TypeRef {
            file: spot.file,
            ty,
            left: view.names.definition_count(),
        }),
        None => Err(row),
    }
}

fn fields_in<'d>(definition: Option<&'d Definition>) -> &'d [FieldDecl]
    ensures { field_trees result.now ≡ fields_in (option_map definition_tree (option_copied definition.entry)) }
{
    match definition {
        Some(Definition::Struct(_, _, fields)) => fields.as_slice(),
        _ => &[],
    }
}

fn field_named<'d>(fields: &'d [FieldDecl], word: &[u8]) -> Option<&'d TypeExpr>
    ensures { option_map type_tree (option_copied result) ≡ field_named (field_trees fields.now) word.now }
{
    for field in fields {
        if field.name.text.as_slice() == word {
            return Some(&field.ty);
        }
    }
    None
}

/// A name stands for its constant's literal.
#[tactic(auto, unfolding(crate::specs::Keys::key_by_name))]
fn key_by_name<'d>(
    view: &View<'_, 'd>,
    file: u32,
    spot: Spot,
    word: &[u8],
) -> Result<TypeRef<'d>, ConstRow>
    ensures { key_meant (files_of view.now) result ≡ key_by_name (files_of view.now) file spot word.now }
{
    if is_truth(word) {
        return Err(ConstRow::WrongForm);
    }
    if let Some(constant) = view.names.look_up(file, Scope::Constants, word) {
        return key_by_text(view, spot, literal_at(view, constant));
    }
    match any_member(view, file, word) {
        Some(_) => Err(ConstRow::WrongForm),
        None => Err(ConstRow::UnknownConstant),
    }
}

fn key_by_text<'d>(
    view: &View<'_, 'd>,
    spot: Spot,
    text: Option<&[u8]>,
) -> Result<TypeRef<'d>, ConstRow>
    ensures { key_meant (files_of view.now) result ≡ key_by_text (files_of view.now) spot (option_copied text.entry) }
{
    match text {
        Some(text) => field_type(view, spot, ConstRow::WrongForm, text),
        None => Err(ConstRow::WrongForm),
    }
}

/// What a constant is written as.
#[derive(Clone, Copy)]
pub enum Written<'d> {
    Literal(&'d [u8]),
    Name(&'d [u8]),
    Other,
}

/// The literal that the constant at a spot stands for, through names too.
fn literal_at<'d>(view: &View<'_, 'd>, spot: Spot) -> Option<&'d [u8]>
    ensures { option_copied result ≡ literal_at (files_of view.now) (definition_count (files_of view.now)) spot }
{
    let mut at = spot;
    let mut left = view.names.definition_count();
    'chain: loop {
        match written_as(definition(view, at)) {
            Written::Literal(text) => return Some(text),
            Written::Name(word) => {
                at = constant_of(view, left, at.file, word)?;
                left -= 1;
            }
            Written::Other => return None,
        }
    }
}

fn written_as<'d>(definition: Option<&'d Definition>) -> Written<'d>
    ensures { (again : NamedLiterals) (file : ℕ) → written_literal again file result ≡ literal_by again file (constant_items (found_tree definition.entry)) }
{
    match definition {
        Some(Definition::Const(_, _, value)) => written_value(value),
        _ => Written::Other,
    }
}

fn written_value(value: &ValueExpr) -> Written<'_>
    ensures { (again : NamedLiterals) (file : ℕ) → written_literal again file result ≡ literal_by again file (items_of_value value.now) }
{
    match &value.form {
        ValueForm::Literal(text) => Written::Literal(text.as_slice()),
        ValueForm::Named(word) => Written::Name(word.as_slice()),
        _ => Written::Other,
    }
}

/// The constant that a name stands for, where a name may still be followed.
fn constant_of(view: &View<'_, '_>, left: usize, file: u32, word: &[u8]) -> Option<Spot>
    ensures literal { let d = files_of view.now in spot_literal d (named_literal d (left - 1)) result ≡ named_literal d left file word.now }
    ensures some { IfSome result (λ s. 0 < left) }
{
    if left == 0 || is_truth(word) {
        return None;
    }
    view.names.look_up(file, Scope::Constants, word)
}
