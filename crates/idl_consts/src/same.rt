//! Types that are written in the same words.
ghost use Rattle.std.specs.Prelude.{◌≡◌, ℕ, List, IsTrue};
ghost use Rattle.idl_document.specs.Trees.{type_tree};
ghost use Rattle.idl_names.specs.Files.{FileTree};
ghost use Rattle.idl_consts.specs.Meant.{meant_at, meant_by, type_by, NamedTypes};
ghost use Rattle.idl_consts.specs.Views.{files_of};
ghost use Rattle.idl_consts.specs.Words.{words_of, AreOneWord, IsSameRef};

use crate::fitting::same_spot;
use crate::types::{Shape, TypeRef, resolve};
use crate::view::View;
use idl_document::{TypeExpr, TypeForm};
use idl_names::Spot;

/// Whether two types are one by their words: types of one file, or the same word of the language.
pub fn same_ref(a: TypeRef<'_>, b: TypeRef<'_>) -> bool
    ensures meant { IsTrue result → ((d : List FileTree) → meant_at d a.entry ≡ meant_at d b.entry) }
    ensures same { IsSameRef a.entry b.entry → IsTrue result }
    ensures word { AreOneWord (type_tree a.entry.ty.now) (type_tree b.entry.ty.now) → IsTrue result }
{
    same_word(a.ty, b.ty) || (a.file == b.file && a.left == b.left && same_type(a.ty, b.ty))
}

/// Whether two types are one: by their words, or by what their typedefs stand for.
///
/// A yes is sure. Types that are one may get a no, as where their parts are one by typedefs alone: only time rests on it.
pub fn same_meaning(view: &View<'_, '_>, a: TypeRef<'_>, b: TypeRef<'_>) -> bool
    ensures meant { IsTrue result → meant_at (files_of view.now) a.entry ≡ meant_at (files_of view.now) b.entry }
    ensures same { IsSameRef a.entry b.entry → IsTrue result }
{
    same_ref(a, b) || same_shape(&resolve(view, a), &resolve(view, b))
}

fn same_shape(a: &Shape<'_>, b: &Shape<'_>) -> bool
    ensures { IsTrue result → ((d : List FileTree) → meant_by d a.now ≡ meant_by d b.now) }
{
    match (a, b) {
        (Shape::Base(word), Shape::Base(other)) => *word == *other,
        (Shape::Enum(spot), Shape::Enum(other)) => is_spot(*spot, *other),
        (Shape::Struct(spot), Shape::Struct(other)) => is_spot(*spot, *other),
        (Shape::Map(key, value), Shape::Map(other_key, other_value)) => {
            same_ref(*key, *other_key) && same_ref(*value, *other_value)
        }
        (Shape::Sequence(element), Shape::Sequence(other)) => same_ref(*element, *other),
        _ => false,
    }
}

/// Whether two spots are one.
pub fn is_spot(spot: Spot, other: Spot) -> bool
    ensures yes { IsTrue result → spot ≡ other }
    ensures no { spot ≡ other → IsTrue result }
{
    same_spot(spot, other)
}

/// Whether two types are the same word of the language.
fn same_word(a: &TypeExpr, b: &TypeExpr) -> bool
    ensures word { AreOneWord (type_tree a.now) (type_tree b.now) → IsTrue result }
    ensures meant { IsTrue result → ((named other : NamedTypes) (file place : ℕ) → type_by named file (type_tree a.now) ≡ type_by other place (type_tree b.now)) }
{
    match (&a.form, &b.form) {
        (TypeForm::Base(word), TypeForm::Base(other)) => *word == *other,
        _ => false,
    }
}

/// Whether two types are written in the same words.
fn same_type(a: &TypeExpr, b: &TypeExpr) -> bool
    ensures words { words_of (type_tree a.now) ≡ words_of (type_tree b.now) → IsTrue result }
    ensures meant { IsTrue result → ((named : NamedTypes) (file : ℕ) → type_by named file (type_tree a.now) ≡ type_by named file (type_tree b.now)) }
{
    match (&a.form, &b.form) {
        (TypeForm::Base(word), TypeForm::Base(other)) => *word == *other,
        (TypeForm::Named(name), TypeForm::Named(other)) => name.as_slice() == other.as_slice(),
        (TypeForm::Map(key, value), TypeForm::Map(other_key, other_value)) => {
            same_type(key, other_key) && same_type(value, other_value)
        }
        (TypeForm::Set(element), TypeForm::Set(other)) => same_type(element, other),
        (TypeForm::List(element), TypeForm::List(other)) => same_type(element, other),
        _ => false,
    }
}
