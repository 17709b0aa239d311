//! The methods of a service, and the structs that their arguments and results travel as.
ghost use Rattle.std.specs.Prelude.{◌≡◌, ◌<◌, [], None, OnOk, length};
ghost use Rattle.idl_document.specs.Trees.{function_tree, function_trees};
ghost use Rattle.idl_rules.specs.Rules.{method_refusals, methods_refusals};
ghost use Rattle.type_tables.specs.Declarations.{with_fields, with_method};
ghost use Rattle.type_tables.specs.Names.{name_place};
ghost use Rattle.type_tables.specs.Services.{methods_of};
ghost use Rattle.idl_schema.specs.Adding.{with_methods};
ghost use Rattle.idl_schema.specs.Methods.{with_args, with_result, with_all_structs, methods_from, method_info};
ghost use Rattle.idl_schema.specs.Indexes.{files_of};
ghost use Rattle.idl_schema.specs.Kept.{AreNew};
ghost use Rattle.idl_schema.specs.Types.{ty_in};

use crate::fields::{add_fields, add_success};
use crate::index::SchemaIndex;
use crate::numbers::sum;
use gate_base::{OutOfMemory, Text};
use idl_document::Function;
use std::alloc::Global;
use type_tables::{AddFault, FieldList, Form, MethodInfo, SchemaBuilder, ServiceId, StructId};

/// Adds a struct with its fields.
pub(crate) fn add_struct(
    builder: &mut SchemaBuilder,
    form: Form,
    fields: FieldList,
) -> Result<(), OutOfMemory>
    ensures { OnOk result (builder.new ≡ with_fields builder.old form fields) }
{
    if !builder.has_room() {
        return Err(OutOfMemory);
    }
    builder.add_struct(form, fields)?;
    Ok(())
}

/// Adds two structs for each method.
pub(crate) fn add_structs(
    alloc: Global,
    builder: &mut SchemaBuilder,
    index: &SchemaIndex<'_, '_>,
    file: u32,
    methods: &[Function],
) -> Result<(), OutOfMemory>
    requires { methods_refusals (function_trees methods.now) ≡ [] }
    ensures { OnOk result (builder.new ≡ with_all_structs (ty_in (files_of index.now) file) builder.old (function_trees methods.now)) }
{
    for method in methods {
        add_args(alloc, builder, index, file, method)?;
        add_result(alloc, builder, index, file, method)?;
    }
    Ok(())
}

fn add_args(
    alloc: Global,
    builder: &mut SchemaBuilder,
    index: &SchemaIndex<'_, '_>,
    file: u32,
    method: &Function,
) -> Result<(), OutOfMemory>
    requires { method_refusals (function_tree method.now) ≡ [] }
    ensures { OnOk result (builder.new ≡ with_args (ty_in (files_of index.now) file) builder.old (function_tree method.now)) }
{
    let none = FieldList::new(alloc);
    let fields = add_fields(alloc, builder, index, file, none, method.args.as_slice())?;
    add_struct(builder, Form::Args, fields)
}

fn add_result(
    alloc: Global,
    builder: &mut SchemaBuilder,
    index: &SchemaIndex<'_, '_>,
    file: u32,
    method: &Function,
) -> Result<(), OutOfMemory>
    requires { method_refusals (function_tree method.now) ≡ [] }
    ensures { OnOk result (builder.new ≡ with_result (ty_in (files_of index.now) file) builder.old (function_tree method.now)) }
{
    let success = add_success(alloc, builder, index, file, &method.returns)?;
    let fields = add_fields(
        alloc,
        builder,
        index,
        file,
        success,
        method.throws.as_slice(),
    )?;
    add_struct(builder, Form::Result, fields)
}

/// Adds the methods of a service, where the structs of the first begin with this number.
pub(crate) fn add_methods(
    alloc: Global,
    builder: &mut SchemaBuilder,
    service: ServiceId,
    first: u32,
    methods: &[Function],
) -> Result<(), OutOfMemory>
    requires known { service.0 < length builder.old.services }
    requires new { AreNew (methods_of builder.old.services service.0) (function_trees methods.now) }
    ensures { OnOk result (builder.new ≡ with_methods builder.old service.0 (methods_from first (function_trees methods.now))) }
{
    let mut n = first;
    for method in methods {
        add_method(alloc, builder, service, n, method)?;
        n = sum(n, 2)?;
    }
    Ok(())
}

fn add_method(
    alloc: Global,
    builder: &mut SchemaBuilder,
    service: ServiceId,
    first: u32,
    method: &Function,
) -> Result<(), OutOfMemory>
    requires known { service.0 < length builder.old.services }
    requires new { name_place method.now.name.text (methods_of builder.old.services service.0) ≡ None }
    ensures { OnOk result (builder.new ≡ with_method builder.old service.0 method.now.name.text (method_info first (function_tree method.now))) }
{
    let name = Text::new(alloc, method.name.text.as_slice())?;
    let info = MethodInfo {
        args: StructId(first),
        result: StructId(sum(first, 1)?),
        oneway: method.oneway.is_some(),
    };
    match builder.add_method(service, name, info) {
        Ok(()) => Ok(()),
        Err(AddFault::OutOfMemory) => Err(OutOfMemory),
        Err(AddFault::Duplicate(_)) => unreachable!(),
    }
}
