//! The values of all files, each judged against its type.
ghost use Rattle.std.specs.Prelude.{◌≡◌, ◌<◌, ◌^◌, IfOk, length, option_copied, Option};
ghost use Rattle.idl_document.specs.Trees.{definition_tree, definition_trees, function_trees, field_trees, type_tree, field_tree};
ghost use Rattle.idl_document.specs.Items.{items_of_value};
ghost use Rattle.idl_names.specs.Files.{file_trees};
ghost use Rattle.idl_consts.specs.Following.{IsFirst};
ghost use Rattle.idl_consts.specs.Knowing.{IsSound};
ghost use Rattle.idl_consts.specs.Pieces.{chained, ending};
ghost use Rattle.idl_consts.specs.Told.{lesser, is_before, presets, function_values, definition_values, all_values, IsLeast, IsReady, Answers, asked_course, preset_of};
ghost use Rattle.idl_consts.specs.Views.{files_of};

use crate::follow::name_row;
use crate::knowing::Known;
use crate::row::{ConstError, ConstFault, ConstRow};
use crate::survey::{ConstRef, survey_value};
use crate::types::TypeRef;
use crate::view::View;
use gate_base::{OutOfMemory, Text};
use idl_document::{Definition, FieldDecl, Function, TypeExpr, ValueExpr};
use idl_names::{Documents, FileDoc, Names};
use std::alloc::Global;

/// An offset in a file in bytes, and why the value there is refused.
type Fault = (usize, ConstRow);

/// Whether each constant and each preset fits its type, or the first one that does not.
///
/// The values are those of constants and the presets of fields, arguments and exceptions. The fault that is told is that
/// of the first file that has one, there the one with the least offset, and at one offset the lower row. The rules of
/// what fits are those of the Apache Thrift IDL. `OutOfMemory`: the memory for the check was not found.
pub fn check_documents(alloc: Global, documents: &Documents) -> Result<(), ConstError>
    requires { IsReady (file_trees documents.now) }
    ensures { Answers (file_trees documents.now) result }
{
    let names = Names::build(alloc, documents)?;
    let view = View::new(alloc, &names)?;
    check_files(alloc, &view)
}

fn check_files(alloc: Global, view: &View<'_, '_>) -> Result<(), ConstError>
    requires { IsReady (files_of view.now) }
    ensures { Answers (files_of view.now) result }
{
    let files = view.names.files;
    let mut known = Known::new(alloc, files, view.names.definition_count())?;
    for (place, file) in files.iter().enumerate() {
        if let Some((offset, row)) = file_fault(alloc, view, &mut known, place as u32, file)? {
            return Err(ConstError::Idl(ConstFault {
                file: Text::new(alloc, file.name.as_slice())?,
                offset,
                row,
            }));
        }
    }
    Ok(())
}

/// The fault that is told of a file.
fn file_fault<'d>(
    alloc: Global,
    view: &View<'_, 'd>,
    known: &mut Known,
    place: u32,
    file: &'d FileDoc,
) -> Result<Option<Fault>, OutOfMemory>
    requires known { IsSound (files_of view.now) known.old }
    ensures told { IfOk result (λ told. IsLeast (files_of view.now) place None (all_values (definition_trees file.now.document.definitions)) told) }
    ensures known { IsSound (files_of view.now) known.new }
{
    let mut least = None;
    for definition in file.document.definitions.as_slice() {
        least = definition_fault(alloc, view, known, place, definition, least)?;
    }
    Ok(least)
}

fn definition_fault<'d>(
    alloc: Global,
    view: &View<'_, 'd>,
    known: &mut Known,
    place: u32,
    definition: &'d Definition,
    before: Option<Fault>,
) -> Result<Option<Fault>, OutOfMemory>
    requires known { IsSound (files_of view.now) known.old }
    ensures told { IfOk result (λ told. IsLeast (files_of view.now) place before (definition_values (definition_tree definition.now)) told) }
    ensures known { IsSound (files_of view.now) known.new }
{
    match definition {
        Definition::Const(_, ty, value) => {
            let first = value_fault(alloc, view, known, place, ty, value)?;
            Ok(lesser(before, first))
        }
        Definition::Struct(_, _, fields) => {
            presets_fault(alloc, view, known, place, fields.as_slice(), before)
        }
        Definition::Service(_, _, functions) => {
            functions_fault(alloc, view, known, place, functions.as_slice(), before)
        }
        Definition::Typedef(_, _) | Definition::Enum(_, _) => Ok(before),
    }
}

fn functions_fault<'d>(
    alloc: Global,
    view: &View<'_, 'd>,
    known: &mut Known,
    place: u32,
    functions: &'d [Function],
    before: Option<Fault>,
) -> Result<Option<Fault>, OutOfMemory>
    requires known { IsSound (files_of view.now) known.old }
    ensures told { IfOk result (λ told. IsLeast (files_of view.now) place before (function_values (function_trees functions.now)) told) }
    ensures known { IsSound (files_of view.now) known.new }
{
    let mut least = before;
    for function in functions {
        let args = presets_fault(alloc, view, known, place, function.args.as_slice(), least)?;
        least = presets_fault(alloc, view, known, place, function.throws.as_slice(), args)?;
    }
    Ok(least)
}

fn presets_fault<'d>(
    alloc: Global,
    view: &View<'_, 'd>,
    known: &mut Known,
    place: u32,
    fields: &'d [FieldDecl],
    before: Option<Fault>,
) -> Result<Option<Fault>, OutOfMemory>
    requires known { IsSound (files_of view.now) known.old }
    ensures told { IfOk result (λ told. IsLeast (files_of view.now) place before (presets (field_trees fields.now)) told) }
    ensures known { IsSound (files_of view.now) known.new }
{
    let mut least = before;
    for field in fields {
        least = preset_fault(alloc, view, known, place, field, least)?;
    }
    Ok(least)
}

fn preset_fault<'d>(
    alloc: Global,
    view: &View<'_, 'd>,
    known: &mut Known,
    place: u32,
    field: &'d FieldDecl,
    before: Option<Fault>,
) -> Result<Option<Fault>, OutOfMemory>
    requires known { IsSound (files_of view.now) known.old }
    ensures told { IfOk result (IsLeast (files_of view.now) place before (preset_of (field_tree field.now))) }
    ensures known { IsSound (files_of view.now) known.new }
{
    match &field.preset {
        Some(value) => {
            let first = value_fault(alloc, view, known, place, &field.ty, value)?;
            Ok(lesser(before, first))
        }
        None => Ok(before),
    }
}

/// The first fault of a value that is written in a file for this type.
fn value_fault<'d>(
    alloc: Global,
    view: &View<'_, 'd>,
    known: &mut Known,
    place: u32,
    ty: &'d TypeExpr,
    value: &'d ValueExpr,
) -> Result<Option<Fault>, OutOfMemory>
    requires known { IsSound (files_of view.now) known.old }
    ensures told { let d = files_of view.now in IfOk result (IsFirst d (asked_course d place (type_tree ty.now, items_of_value value.now))) }
    ensures known { IsSound (files_of view.now) known.new }
{
    let written = TypeRef {
        file: place,
        ty,
        left: view.names.definition_count(),
    };
    let survey = survey_value(alloc, view, place, written, value)?;
    names_fault(
        alloc,
        view,
        known,
        survey.references.as_slice(),
        survey.fault,
    )
}

/// The first of the names through which something is refused, or the fault that stands behind them.
fn names_fault<'d>(
    alloc: Global,
    view: &View<'_, 'd>,
    known: &mut Known,
    names: &[ConstRef<'d>],
    fault: Option<Fault>,
) -> Result<Option<Fault>, OutOfMemory>
    requires known { IsSound (files_of view.now) known.old }
    ensures told { IfOk result (λ told. IsFirst (files_of view.now) (chained (files_of view.now) names.now (ending fault)) told) }
    ensures known { IsSound (files_of view.now) known.new }
{
    for name in names {
        if let Some(row) = name_row(alloc, view, known, *name)? {
            return Ok(Some((name.at, row)));
        }
    }
    Ok(fault)
}

/// The fault that is told of two.
fn lesser(before: Option<Fault>, other: Option<Fault>) -> Option<Fault>
    ensures { result ≡ lesser before other }
{
    match (before, other) {
        (None, other) => other,
        (Some(before), None) => Some(before),
        (Some(before), Some(other)) => {
            if is_before(other, before) {
                Some(other)
            } else {
                Some(before)
            }
        }
    }
}

fn is_before(one: Fault, other: Fault) -> bool
    ensures { result ≡ is_before one other }
{
    if one.0 < other.0 {
        true
    } else if other.0 < one.0 {
        false
    } else {
        one.1.rank() < other.1.rank()
    }
}
