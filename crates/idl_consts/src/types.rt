//! What a written type means, one step at a time.
ghost use Rattle.std.specs.Prelude.{◌≡◌, ◌+◌, List, option_copied, option_map};
ghost use Rattle.idl_document.specs.Trees.{definition_tree, type_tree};
ghost use Rattle.idl_names.specs.Files.{FileTree};
ghost use Rattle.idl_consts.specs.Meant.{definition_of, type_by, named_type, meant_at, meant_by, meant_next, left_below, defined_type};
ghost use Rattle.idl_consts.specs.Views.{files_of, found_tree};

use crate::view::View;
use idl_document::{BaseWord, Definition, TypeExpr, TypeForm};
use idl_names::{Scope, Spot, definition_at};

/// A type, the place of the file in which it is written, and how many typedefs may be followed.
#[derive(Clone, Copy)]
pub struct TypeRef<'d> {
    pub file: u32,
    pub ty: &'d TypeExpr,
    pub left: usize,
}

/// What a type is, with its parts still as they are written.
#[derive(Clone, Copy)]
pub enum Shape<'d> {
    Base(BaseWord),
    Enum(Spot),
    /// A struct, a union or an exception.
    Struct(Spot),
    Map(TypeRef<'d>, TypeRef<'d>),
    /// A set or a list.
    Sequence(TypeRef<'d>),
    Unknown,
}

/// A shape, or the target of a typedef.
#[derive(Clone, Copy)]
pub enum Step<'d> {
    Done(Shape<'d>),
    Next(TypeRef<'d>),
}

/// The definition at a spot.
pub fn definition<'d>(view: &View<'_, 'd>, spot: Spot) -> Option<&'d Definition>
    ensures { option_map definition_tree (option_copied result) ≡ definition_of (files_of view.now) spot }
{
    definition_at(view.names.files, spot)
}

/// What a type is.
pub fn resolve<'d>(view: &View<'_, 'd>, start: TypeRef<'d>) -> Shape<'d>
    ensures { meant_by (files_of view.now) result ≡ meant_at (files_of view.now) start.entry }
{
    let mut at = start;
    'chain: loop {
        match resolve_once(view, at) {
            Step::Done(shape) => return shape,
            Step::Next(target) => at = target,
        }
    }
}

fn resolve_once<'d>(view: &View<'_, 'd>, at: TypeRef<'d>) -> Step<'d>
    ensures meant { meant_next (files_of view.now) result ≡ meant_at (files_of view.now) at.entry }
    ensures fewer { left_below at.entry.left result }
{
    match &at.ty.form {
        TypeForm::Base(word) => Step::Done(Shape::Base(*word)),
        TypeForm::Named(name) => named(view, at.file, name.as_slice(), at.left),
        TypeForm::Map(key, value) => Step::Done(Shape::Map(part(at, key), part(at, value))),
        TypeForm::Set(element) => Step::Done(Shape::Sequence(part(at, element))),
        TypeForm::List(element) => Step::Done(Shape::Sequence(part(at, element))),
    }
}

/// A part of a type.
fn part<'d>(whole: TypeRef<'d>, ty: &'d TypeExpr) -> TypeRef<'d>
    ensures file { result.file ≡ whole.entry.file }
    ensures ty { result.ty.now ≡ ty.now }
    ensures left { result.left ≡ whole.entry.left }
{
    TypeRef {
        file: whole.file,
        ty,
        left: whole.left,
    }
}

fn named<'d>(view: &View<'_, 'd>, file: u32, name: &[u8], left: usize) -> Step<'d>
    ensures meant { meant_next (files_of view.now) result ≡ named_type (files_of view.now) left file name.now }
    ensures fewer { left_below left result }
{
    if left == 0 {
        return Step::Done(Shape::Unknown);
    }
    match view.names.look_up(file, Scope::Types, name) {
        Some(spot) => resolved(view, spot, left - 1),
        None => Step::Done(Shape::Unknown),
    }
}

/// What a definition is, behind the typedefs that are names alone.
fn resolved<'d>(view: &View<'_, 'd>, spot: Spot, left: usize) -> Step<'d>
    ensures meant { meant_next (files_of view.now) result ≡ defined_type (named_type (files_of view.now) left) spot (definition_of (files_of view.now) spot) }
    ensures fewer { left_below (left + 1) result }
{
    let resolved_alias = view.typedefs.resolve_chain(spot, left);
    defined(
        resolved_alias.spot,
        definition(view, resolved_alias.spot),
        resolved_alias.left,
    )
}

fn defined<'d>(spot: Spot, definition: Option<&'d Definition>, left: usize) -> Step<'d>
    ensures meant { (d : List FileTree) → meant_next d result ≡ defined_type (named_type d left) spot (found_tree definition.entry) }
    ensures fewer { left_below (left + 1) result }
{
    match definition {
        Some(Definition::Typedef(_, ty)) => Step::Next(TypeRef {
            file: spot.file,
            ty,
            left,
        }),
        Some(Definition::Enum(_, _)) => Step::Done(Shape::Enum(spot)),
        Some(Definition::Struct(_, _, _)) => Step::Done(Shape::Struct(spot)),
        _ => Step::Done(Shape::Unknown),
    }
}
