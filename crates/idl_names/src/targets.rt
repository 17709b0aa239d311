//! Typedefs followed to what they stand for.
ghost use Rattle.std.specs.Prelude.{◌≡◌, ◌<◌, ◌^◌, length, slice_get, option_copied, option_map};
ghost use Rattle.idl_document.specs.Trees.{definition_tree, type_tree};
ghost use Rattle.idl_names.specs.Files.{file_trees};
ghost use Rattle.idl_names.specs.Targets.{definition_at, spot_step, type_step, target_of};
ghost use Rattle.idl_names.specs.Told.{step_tree, target_tree};

use crate::documents::{FileDoc, Spot};
use crate::meaning::file_at;
use crate::names::Names;
use idl_document::{Definition, Kin, TypeExpr, TypeForm};
use idl_rules::Scope;

/// What a type is, where its typedefs are followed.
#[derive(Clone, Copy)]
pub enum Target<'d> {
    /// A type with a word of its own, or a container, as it is written in the file at this place.
    Written(u32, &'d TypeExpr),
    Enum(Spot),
    Struct(Kin, Spot),
}

/// An end, or the type of a typedef in its own file.
#[derive(Clone, Copy)]
enum Step<'d> {
    End(Target<'d>),
    Typedef(u32, &'d TypeExpr),
}

/// The definition at a spot.
pub fn definition_at(files: &[FileDoc], spot: Spot) -> Option<&Definition>
    ensures { option_map definition_tree (option_copied result) ≡ definition_at (file_trees files.now) spot }
{
    let found = file_at(files, spot.file)?;
    definition_in(found, spot.definition)
}

fn definition_in(file: &FileDoc, place: u32) -> Option<&Definition>
    ensures { option_copied result ≡ slice_get file.now.document.definitions place }
{
    file.document.definitions.as_slice().get(place as usize)
}

fn spot_step(files: &[FileDoc], spot: Spot) -> Option<Step<'_>>
    ensures { option_map step_tree result ≡ spot_step (file_trees files.now) spot }
{
    match definition_at(files, spot)? {
        Definition::Typedef(_, ty) => Some(Step::Typedef(spot.file, ty)),
        Definition::Enum(_, _) => Some(Step::End(Target::Enum(spot))),
        Definition::Struct(kin, _, _) => Some(Step::End(Target::Struct(*kin, spot))),
        Definition::Const(_, _, _) => None,
        Definition::Service(_, _, _) => None,
    }
}

fn type_step<'d>(names: &Names<'d>, file: u32, ty: &'d TypeExpr) -> Option<Step<'d>>
    ensures { option_map step_tree result ≡ type_step (file_trees names.now.files.now) file (type_tree ty.now) }
{
    match &ty.form {
        TypeForm::Named(word) => {
            let spot = names.look_up(file, Scope::Types, word.as_slice())?;
            spot_step(names.files, spot)
        }
        TypeForm::Base(_) => Some(Step::End(Target::Written(file, ty))),
        TypeForm::Map(_, _) => Some(Step::End(Target::Written(file, ty))),
        TypeForm::Set(_) => Some(Step::End(Target::Written(file, ty))),
        TypeForm::List(_) => Some(Step::End(Target::Written(file, ty))),
    }
}

/// What a type is that is written in the file at this place. A typedef is followed in its own file.
///
/// `None`: a name on the way means no type, or the typedefs lead round. It takes no memory.
pub fn resolve_type<'d>(names: &Names<'d>, file: u32, ty: &'d TypeExpr) -> Option<Target<'d>>
    ensures { option_map target_tree result ≡ target_of (file_trees names.now.files.now) file (type_tree ty.now) }
{
    let mut file = file;
    let mut ty = ty;
    let mut left = names.definition_count() + 1;
    'typedefs: while left > 0 {
        match type_step(names, file, ty)? {
            Step::End(target) => return Some(target),
            Step::Typedef(other, aliased) => {
                file = other;
                ty = aliased;
            }
        }
        left -= 1;
    }
    None
}
