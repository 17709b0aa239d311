//! The fields of a struct, of the arguments of a method or of what it throws.
ghost use Rattle.std.specs.Prelude.{◌≡◌, ◌++◌, ◌∷◌, [], ◌<◌, ◌^◌, IfOk, OnOk, FitsSigned, None, true, length, pos, codes};
ghost use Rattle.std.specs.Int.{w16};
ghost use Rattle.idl_document.specs.Trees.{field_tree, field_trees, type_tree};
ghost use Rattle.idl_rules.specs.Ids.{id_of};
ghost use Rattle.type_tables.specs.Fields.{place_of};
ghost use Rattle.idl_schema.specs.Kept.{AreFree};
ghost use Rattle.idl_schema.specs.Fields.{field_of, need_of, fields_from, success, with_fields_types, with_returns_types};
ghost use Rattle.idl_schema.specs.Numbers.{option_tree};
ghost use Rattle.idl_schema.specs.Indexes.{files_of};
ghost use Rattle.idl_schema.specs.Types.{ty_in};

use crate::index::SchemaIndex;
use crate::parts::{add_parts, next_part};
use gate_base::{OutOfMemory, Text};
use idl_document::{Asked, FieldDecl, TypeExpr};
use idl_rules::{count_on, field_id};
use std::alloc::Global;
use type_tables::{AddFault, FieldInfo, FieldList, Need, SchemaBuilder, Ty};

/// Adds the parts of the types of these fields, and puts the fields behind those of a list.
pub(crate) fn add_fields(
    alloc: Global,
    builder: &mut SchemaBuilder,
    index: &SchemaIndex<'_, '_>,
    file: u32,
    list: FieldList,
    fields: &[FieldDecl],
) -> Result<FieldList, OutOfMemory>
    requires { AreFree list 0 (field_trees fields.now) }
    ensures list { IfOk result (λ l. l ≡ list ++ fields_from (ty_in (files_of index.now) file) 0 (length builder.old.types) (field_trees fields.now)) }
    ensures types { OnOk result (builder.new ≡ with_fields_types (ty_in (files_of index.now) file) builder.old (field_trees fields.now)) }
{
    let mut list = list;
    let mut before = 0;
    for field in fields {
        let base = next_part(builder)?;
        let ty = index.type_of(file, base, &field.ty)?;
        push_field(alloc, &mut list, before, field, ty)?;
        add_parts(builder, index, file, &field.ty)?;
        before = count_on(before, field);
    }
    Ok(list)
}

fn push_field(
    alloc: Global,
    list: &mut FieldList,
    before: usize,
    field: &FieldDecl,
    ty: Ty,
) -> Result<(), OutOfMemory>
    requires before { before < 2 ^ 63 }
    requires fits { (id_of before (field_tree field.now)).fits ≡ true }
    requires free { place_of (id_of before (field_tree field.now)).id list.old ≡ None }
    ensures { OnOk result (list.new ≡ list.old ++ field_of before (field_tree field.now) ty ∷ []) }
{
    let id = field_id(before, field).id;
    let name = Text::new(alloc, field.name.text.as_slice())?;
    push(list, id, name, ty, need_of(field.asked))
}

fn push(list: &mut FieldList, id: i64, name: Text, ty: Ty, need: Need) -> Result<(), OutOfMemory>
    requires short { FitsSigned w16 id }
    requires free { place_of id list.old ≡ None }
    ensures { OnOk result (list.new ≡ list.old ++ record { id = id; name = name; ty = ty; need = need } ∷ []) }
{
    if !list.has_room() {
        return Err(OutOfMemory);
    }
    let id = short_id(id);
    match list.push(FieldInfo { id, name, ty, need }) {
        Ok(()) => Ok(()),
        Err(AddFault::OutOfMemory) => Err(OutOfMemory),
        Err(AddFault::Duplicate(_)) => unreachable!(),
    }
}

fn short_id(id: i64) -> i16
    requires { FitsSigned w16 id }
    ensures { result ≡ id }
{
    id as i16
}

/// The field of a result, where there is one. The parts of its type are added.
pub(crate) fn add_success(
    alloc: Global,
    builder: &mut SchemaBuilder,
    index: &SchemaIndex<'_, '_>,
    file: u32,
    returns: &Option<TypeExpr>,
) -> Result<FieldList, OutOfMemory>
    ensures list { IfOk result (λ l. l ≡ success (ty_in (files_of index.now) file) (length builder.old.types) (option_tree returns.now)) }
    ensures types { OnOk result (builder.new ≡ with_returns_types (ty_in (files_of index.now) file) builder.old (option_tree returns.now)) }
{
    match returns {
        Some(tree) => {
            let base = next_part(builder)?;
            let ty = index.type_of(file, base, tree)?;
            add_parts(builder, index, file, tree)?;
            success(alloc, ty)
        }
        None => Ok(FieldList::new(alloc)),
    }
}

fn success(alloc: Global, ty: Ty) -> Result<FieldList, OutOfMemory>
    ensures { IfOk result (λ l. l ≡ record { id = pos 0; name = codes "success"; ty = ty; need = Need.Optional } ∷ []) }
{
    let mut list = FieldList::new(alloc);
    let name = Text::new(alloc, b"success")?;
    push(&mut list, 0, name, ty, Need::Optional)?;
    Ok(list)
}

fn need_of(asked: Asked) -> Need
    ensures { result ≡ need_of asked }
{
    match asked {
        Asked::Required => Need::Required,
        Asked::Optional => Need::Optional,
        Asked::Default => Need::Default,
    }
}
