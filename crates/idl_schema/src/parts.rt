//! The types that are parts of others.
ghost use Rattle.std.specs.Prelude.{◌≡◌, IfOk, OnOk, length};
ghost use Rattle.idl_document.specs.Trees.{type_tree};
ghost use Rattle.type_tables.specs.Declarations.{with_type, with_fields};
ghost use Rattle.idl_schema.specs.Indexes.{files_of};
ghost use Rattle.idl_schema.specs.Types.{with_parts, with_pair, with_element, ty_in, AreWithin};

use crate::index::SchemaIndex;
use crate::numbers::{parts, small, sum};
use gate_base::OutOfMemory;
use idl_document::{TypeExpr, TypeForm};
use type_tables::{SchemaBuilder, Ty};

/// The number of the next type that is a part of another.
pub(crate) fn next_part(builder: &SchemaBuilder) -> Result<u32, OutOfMemory>
    ensures { IfOk result (λ n. n ≡ length builder.now.types) }
{
    small(builder.type_count())
}

fn add_part(builder: &mut SchemaBuilder, ty: Ty) -> Result<(), OutOfMemory>
    ensures { OnOk result (builder.new ≡ with_type builder.old ty) }
{
    if !builder.has_room() {
        return Err(OutOfMemory);
    }
    builder.ty(ty)?;
    Ok(())
}

/// Adds the parts of a type of the file at this place.
#[cycle(parts)]
pub(crate) fn add_parts(
    builder: &mut SchemaBuilder,
    index: &SchemaIndex<'_, '_>,
    file: u32,
    tree: &TypeExpr,
) -> Result<(), OutOfMemory>
    ensures { OnOk result (builder.new ≡ with_parts (ty_in (files_of index.now) file) builder.old (type_tree tree.now)) }
{
    match &tree.form {
        TypeForm::Base(_) => Ok(()),
        TypeForm::Named(_) => Ok(()),
        TypeForm::Map(key, value) => add_pair(builder, index, file, key, value),
        TypeForm::Set(element) => add_element(builder, index, file, element),
        TypeForm::List(element) => add_element(builder, index, file, element),
    }
}

// The two types within a map, and their parts.
#[cycle(parts)]
fn add_pair(
    builder: &mut SchemaBuilder,
    index: &SchemaIndex<'_, '_>,
    file: u32,
    key: &TypeExpr,
    value: &TypeExpr,
) -> Result<(), OutOfMemory>
    ensures { OnOk result (builder.new ≡ with_pair (ty_in (files_of index.now) file) builder.old (type_tree key.now) (type_tree value.now)) }
{
    let base = next_part(builder)?;
    let found = types_within(index, file, base, key, value)?;
    add_part(builder, found.0)?;
    add_part(builder, found.1)?;
    add_parts(builder, index, file, key)?;
    add_parts(builder, index, file, value)
}

// The types of a map's key and value, where `base` is the number of the first of its parts.
fn types_within(
    index: &SchemaIndex<'_, '_>,
    file: u32,
    base: u32,
    key: &TypeExpr,
    value: &TypeExpr,
) -> Result<(Ty, Ty), OutOfMemory>
    ensures { IfOk result (AreWithin (ty_in (files_of index.now) file) base (type_tree key.now) (type_tree value.now)) }
{
    let inner = sum(base, 2)?;
    let behind = sum(inner, parts(key)?)?;
    let key_ty = index.type_of(file, inner, key)?;
    let value_ty = index.type_of(file, behind, value)?;
    Ok((key_ty, value_ty))
}

// The type within a set or a list, and its parts.
#[cycle(parts)]
fn add_element(
    builder: &mut SchemaBuilder,
    index: &SchemaIndex<'_, '_>,
    file: u32,
    element: &TypeExpr,
) -> Result<(), OutOfMemory>
    ensures { OnOk result (builder.new ≡ with_element (ty_in (files_of index.now) file) builder.old (type_tree element.now)) }
{
    let inner = sum(next_part(builder)?, 1)?;
    let ty = index.type_of(file, inner, element)?;
    add_part(builder, ty)?;
    add_parts(builder, index, file, element)
}
