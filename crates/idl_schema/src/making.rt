//! The schema of the files of an IDL.
ghost use Rattle.std.specs.Prelude.{◌≡◌, [], IfOk, IsOk, OnOk, IsOkUnless, false, map};
ghost use Rattle.idl_document.specs.Trees.{definition_tree, definition_trees, function_trees};
ghost use Rattle.idl_rules.specs.Rules.{all_inner, inner_refusals, methods_refusals};
ghost use Rattle.idl_rules.specs.Values.{is_outside, member_values, value_refusals};
ghost use Rattle.idl_names.specs.Files.{file_trees};
ghost use Rattle.type_tables.specs.Declarations.{with_enum, with_files};
ghost use Rattle.type_tables.specs.Known.{IsClosed};
ghost use Rattle.idl_schema.specs.Adding.{firsts};
ghost use Rattle.idl_schema.specs.Fields.{form_of};
ghost use Rattle.idl_schema.specs.Kept.{AreNew, KeepRules};
ghost use Rattle.idl_schema.specs.Schema.{declarations_of};
ghost use Rattle.idl_schema.specs.Shares.{share, shares, files_shares, with_share, prefix_of, root_name, service_share, with_service};
ghost use Rattle.idl_schema.specs.Stands.{CanStand, IsUnless};
ghost use Rattle.idl_schema.specs.Indexes.{files_of};

use crate::fault::NoSchema;
use crate::fields::add_fields;
use crate::index::SchemaIndex;
use crate::methods::{add_methods, add_struct, add_structs};
use crate::numbers::small;
use crate::parts::add_parts;
use gate_base::{OutOfMemory, Text};
use idl_document::{Definition, Function, Kin, Member, Name};
use idl_names::{FileDoc, Names};
use idl_rules::{member_value, number_after};
use std::alloc::Global;
use type_tables::{AddFault, FieldList, Form, Schema, SchemaBuilder};

/// The schema of the files of an IDL. Files count in their order, and their definitions in the order of the text. Struct 0
/// is the built-in TApplicationException; then each struct, union and exception takes one number of a struct, and each
/// method two, for its arguments and its result.
///
/// `OutOfMemory`: the memory for it was not found, or more things of a kind are declared than 32 bits count. `NoTables`: a
/// name means nothing, or two services have one name in the root file; no files that keep the rules are so.
#[tactic(auto, unfolding(crate::specs::Schema::declarations_of))]
pub fn schema_by(alloc: Global, names: &Names<'_>) -> Result<Schema, NoSchema>
    requires { KeepRules (file_trees names.now.files.now) }
    ensures exact { IfOk result (λ s. s ≡ declarations_of (file_trees names.now.files.now)) }
    ensures unless { CanStand (declarations_of (file_trees names.now.files.now)) → IsOkUnless result NoSchema.OutOfMemory }
{
    let index = SchemaIndex::new(alloc, names)?;
    let mut builder = SchemaBuilder::new(alloc)?;
    add_files(alloc, &mut builder, &index, names.files)?;
    finished(builder, names.files.len())
}

// Files that keep the rules of an IDL have names for all that is meant.
fn finished(builder: SchemaBuilder, files: usize) -> Result<Schema, NoSchema>
    ensures exact { IfOk result (λ s. s ≡ with_files builder files) }
    ensures closed { IsClosed builder → IsOk result }
{
    if !builder.is_closed() {
        return Err(NoSchema::NoTables);
    }
    Ok(builder.finish(files as u64))
}

fn add_files(
    alloc: Global,
    builder: &mut SchemaBuilder,
    index: &SchemaIndex<'_, '_>,
    files: &[FileDoc],
) -> Result<(), NoSchema>
    requires { KeepRules (file_trees files.now) }
    ensures exact { OnOk result (builder.new ≡ with_share builder.old (files_shares (files_of index.now) 0 (firsts builder.old) (file_trees files.now))) }
    ensures unless { IsUnless builder.old (files_shares (files_of index.now) 0 (firsts builder.old) (file_trees files.now)) result }
{
    for (at, file) in files.iter().enumerate() {
        let place = small(at)?;
        let prefix = index.prefix_of(alloc, place)?;
        add_definitions(
            alloc,
            builder,
            index,
            place,
            &prefix,
            file.document.definitions.as_slice(),
        )?;
    }
    Ok(())
}

fn add_definitions(
    alloc: Global,
    builder: &mut SchemaBuilder,
    index: &SchemaIndex<'_, '_>,
    file: u32,
    prefix: &Option<Text>,
    definitions: &[Definition],
) -> Result<(), NoSchema>
    requires prefix { prefix.now ≡ prefix_of (files_of index.now) file }
    requires kept { all_inner (definition_trees definitions.now) ≡ [] }
    ensures exact { OnOk result (builder.new ≡ with_share builder.old (shares (files_of index.now) file (firsts builder.old) (definition_trees definitions.now))) }
    ensures unless { IsUnless builder.old (shares (files_of index.now) file (firsts builder.old) (definition_trees definitions.now)) result }
{
    for definition in definitions {
        add_definition(alloc, builder, index, file, prefix, definition)?;
    }
    Ok(())
}

fn add_definition(
    alloc: Global,
    builder: &mut SchemaBuilder,
    index: &SchemaIndex<'_, '_>,
    file: u32,
    prefix: &Option<Text>,
    definition: &Definition,
) -> Result<(), NoSchema>
    requires prefix { prefix.now ≡ prefix_of (files_of index.now) file }
    requires kept { inner_refusals (definition_tree definition.now) ≡ [] }
    ensures exact { OnOk result (builder.new ≡ with_share builder.old (share (files_of index.now) file (firsts builder.old) (definition_tree definition.now))) }
    ensures unless { IsUnless builder.old (share (files_of index.now) file (firsts builder.old) (definition_tree definition.now)) result }
{
    match definition {
        Definition::Const(_, _, _) => Ok(()),
        Definition::Typedef(_, ty) => Ok(add_parts(builder, index, file, ty)?),
        Definition::Enum(_, members) => Ok(add_enum(alloc, builder, members.as_slice())?),
        Definition::Struct(kin, _, fields) => {
            let none = FieldList::new(alloc);
            let list = add_fields(alloc, builder, index, file, none, fields.as_slice())?;
            Ok(add_struct(builder, form_of(*kin), list)?)
        }
        Definition::Service(name, base, functions) => {
            let name = root_name(alloc, prefix, name.text.as_slice())?;
            add_service(
                alloc,
                builder,
                index,
                file,
                name,
                base,
                functions.as_slice(),
            )
        }
    }
}

fn form_of(kin: Kin) -> Form
    ensures { result ≡ form_of kin }
{
    match kin {
        Kin::Struct => Form::Struct,
        Kin::Union => Form::Union,
        Kin::Exception => Form::Exception,
    }
}

fn add_enum(
    alloc: Global,
    builder: &mut SchemaBuilder,
    members: &[Member],
) -> Result<(), OutOfMemory>
    requires { value_refusals members.now ≡ [] }
    ensures { OnOk result (builder.new ≡ with_enum builder.old (map (λ v. v.1) (member_values members.now))) }
{
    let values = values(alloc, members)?;
    if !builder.has_room() {
        return Err(OutOfMemory);
    }
    builder.add_enum(values.as_slice())?;
    Ok(())
}

fn values(alloc: Global, members: &[Member]) -> Result<Vec<i32>, OutOfMemory>
    requires { value_refusals members.now ≡ [] }
    ensures { IfOk result (λ values. values.items ≡ map (λ v. v.1) (member_values members.now)) }
{
    let mut values = Vec::new(alloc);
    let mut next = 0i64;
    for member in members {
        let value = member_value(next, member);
        values.push(short_value(value))?;
        next = number_after(value);
    }
    Ok(values)
}

fn short_value(value: i64) -> i32
    requires { is_outside value ≡ false }
    ensures { result ≡ value }
{
    value as i32
}

// The name of a service in the root file, where it has one.
fn root_name(alloc: Global, prefix: &Option<Text>, name: &[u8]) -> Result<Option<Text>, OutOfMemory>
    ensures { IfOk result (λ text. text ≡ root_name prefix.now name.now) }
{
    match prefix {
        Some(prefix) => {
            let mut bytes = Vec::from_slice(alloc, prefix.as_slice())?;
            bytes.extend_from_slice(name)?;
            Ok(Some(Text::new(alloc, bytes.as_slice())?))
        }
        None => Ok(None),
    }
}

fn add_service(
    alloc: Global,
    builder: &mut SchemaBuilder,
    index: &SchemaIndex<'_, '_>,
    file: u32,
    name: Option<Text>,
    base: &Option<Name>,
    functions: &[Function],
) -> Result<(), NoSchema>
    requires new { AreNew [] (function_trees functions.now) }
    requires kept { methods_refusals (function_trees functions.now) ≡ [] }
    ensures exact { OnOk result (builder.new ≡ with_service builder.old (files_of index.now) file name base.now (function_trees functions.now)) }
    ensures unless { IsUnless builder.old (service_share (files_of index.now) file (firsts builder.old) name base.now (function_trees functions.now)) result }
{
    let first = small(builder.struct_count())?;
    if !builder.has_room() {
        return Err(NoSchema::OutOfMemory);
    }
    let service = match builder.add_service(name, index.base_of(file, base)) {
        Ok(service) => service,
        Err(AddFault::OutOfMemory) => return Err(NoSchema::OutOfMemory),
        Err(AddFault::Duplicate(_)) => return Err(NoSchema::NoTables),
    };
    add_structs(alloc, builder, index, file, functions)?;
    Ok(add_methods(alloc, builder, service, first, functions)?)
}
