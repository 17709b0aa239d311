//! The numbers of what is declared: file by file, in the order of the text.
ghost use Rattle.std.specs.Prelude.{◌≡◌, ◌+◌, ◌*◌, IfOk, length};
ghost use Rattle.idl_document.specs.Trees.{definition_tree, definition_trees, function_tree, function_trees, field_trees, type_tree};
ghost use Rattle.idl_names.specs.Files.{file_trees};
ghost use Rattle.idl_schema.specs.Numbers.{parts, fields_parts, returns_parts, method_parts, methods_parts, after, after_service, after_all, numbers_in, numbers_of, start, option_tree};

use gate_base::OutOfMemory;
use idl_document::{Definition, FieldDecl, Function, Seq, TypeExpr, TypeForm};
use idl_names::FileDoc;
use std::alloc::Global;

/// The first numbers that a definition takes.
#[derive(Clone, Copy)]
pub(crate) struct First {
    pub(crate) structs: u32,
    pub(crate) enums: u32,
    pub(crate) services: u32,
    pub(crate) types: u32,
}

/// The sum of two numbers. There is no memory for more things than 32 bits count.
pub(crate) fn sum(m: u32, n: u32) -> Result<u32, OutOfMemory>
    ensures { IfOk result (λ s. s ≡ m + n) }
{
    match m.checked_add(n) {
        Some(s) => Ok(s),
        None => Err(OutOfMemory),
    }
}

/// A number of things in 32 bits.
pub(crate) fn small(n: usize) -> Result<u32, OutOfMemory>
    ensures { IfOk result (λ s. s ≡ n) }
{
    if n > 4294967295 {
        return Err(OutOfMemory);
    }
    Ok(n as u32)
}

/// How many types are parts of a type.
pub(crate) fn parts(tree: &TypeExpr) -> Result<u32, OutOfMemory>
    ensures { IfOk result (λ n. n ≡ parts (type_tree tree.now)) }
{
    match &tree.form {
        TypeForm::Base(_) => Ok(0),
        TypeForm::Named(_) => Ok(0),
        TypeForm::Map(key, value) => {
            let keys = sum(2, parts(key)?)?;
            sum(keys, parts(value)?)
        }
        TypeForm::Set(element) => sum(1, parts(element)?),
        TypeForm::List(element) => sum(1, parts(element)?),
    }
}

fn fields_parts(fields: &[FieldDecl]) -> Result<u32, OutOfMemory>
    ensures { IfOk result (λ n. n ≡ fields_parts (field_trees fields.now)) }
{
    let mut n = 0;
    for field in fields {
        n = sum(n, parts(&field.ty)?)?;
    }
    Ok(n)
}

fn returns_parts(returns: &Option<TypeExpr>) -> Result<u32, OutOfMemory>
    ensures { IfOk result (λ n. n ≡ returns_parts (option_tree returns.now)) }
{
    match returns {
        Some(tree) => parts(tree),
        None => Ok(0),
    }
}

fn method_parts(method: &Function) -> Result<u32, OutOfMemory>
    ensures { IfOk result (λ n. n ≡ method_parts (function_tree method.now)) }
{
    let args = fields_parts(method.args.as_slice())?;
    let n = sum(args, returns_parts(&method.returns)?)?;
    sum(n, fields_parts(method.throws.as_slice())?)
}

fn methods_parts(methods: &[Function]) -> Result<u32, OutOfMemory>
    ensures { IfOk result (λ n. n ≡ methods_parts (function_trees methods.now)) }
{
    let mut n = 0;
    for method in methods {
        n = sum(n, method_parts(method)?)?;
    }
    Ok(n)
}

/// The first numbers of the next definition.
fn after(first: First, definition: &Definition) -> Result<First, OutOfMemory>
    ensures { IfOk result (λ n. n ≡ after first (definition_tree definition.now)) }
{
    match definition {
        Definition::Const(_, _, _) => Ok(first),
        Definition::Typedef(_, ty) => behind_types(first, parts(ty)?),
        Definition::Enum(_, _) => behind_enum(first),
        Definition::Struct(_, _, fields) => {
            behind_struct(behind_types(first, fields_parts(fields.as_slice())?)?)
        }
        Definition::Service(_, _, functions) => behind_service(first, functions.as_slice()),
    }
}

/// The first numbers behind so many types.
fn behind_types(first: First, count: u32) -> Result<First, OutOfMemory>
    ensures { IfOk result (λ n. n ≡ record first { types = first.types + count }) }
{
    let types = sum(first.types, count)?;
    Ok(First { types, ..first })
}

fn behind_enum(first: First) -> Result<First, OutOfMemory>
    ensures { IfOk result (λ n. n ≡ record first { enums = first.enums + 1 }) }
{
    let enums = sum(first.enums, 1)?;
    Ok(First { enums, ..first })
}

fn behind_struct(first: First) -> Result<First, OutOfMemory>
    ensures { IfOk result (λ n. n ≡ record first { structs = first.structs + 1 }) }
{
    let structs = sum(first.structs, 1)?;
    Ok(First { structs, ..first })
}

/// The first numbers behind a service: a struct for the arguments and one for the result of each method.
fn behind_service(first: First, methods: &[Function]) -> Result<First, OutOfMemory>
    ensures { IfOk result (λ n. n ≡ after_service first (function_trees methods.now)) }
{
    let first = behind_types(first, methods_parts(methods)?)?;
    let structs = sum(first.structs, twice(methods.len())?)?;
    let services = sum(first.services, 1)?;
    Ok(First {
        structs,
        services,
        ..first
    })
}

fn twice(n: usize) -> Result<u32, OutOfMemory>
    ensures { IfOk result (λ m. m ≡ 2 * n) }
{
    let n = small(n)?;
    sum(n, n)
}

// The first numbers of each definition of a file, and those of the next file.
fn numbers_in(
    alloc: Global,
    first: First,
    definitions: &[Definition],
) -> Result<(Seq<First>, First), OutOfMemory>
    ensures { let trees = definition_trees definitions.now in IfOk result (λ r. (r.0 ≡ numbers_in first trees) × (r.1 ≡ after_all first trees)) }
{
    let mut n = first;
    let mut list = Seq::new(alloc);
    for definition in definitions {
        list.push(n)?;
        n = after(n, definition)?;
    }
    Ok((list, n))
}

/// The first numbers of each definition, file by file.
#[tactic(auto, unfolding(crate::specs::Numbers::numbers_of))]
pub(crate) fn numbers_of(alloc: Global, files: &[FileDoc]) -> Result<Seq<Seq<First>>, OutOfMemory>
    ensures { IfOk result (λ numbers. numbers ≡ numbers_of (file_trees files.now)) }
{
    let mut n = start();
    let mut list = Seq::new(alloc);
    for file in files {
        let (row, next) = numbers_in(alloc, n, file.document.definitions.as_slice())?;
        list.push(row)?;
        n = next;
    }
    Ok(list)
}

// Struct 0 is the built-in one.
fn start() -> First
    ensures { result ≡ start }
{
    First {
        structs: 1,
        enums: 0,
        services: 0,
        types: 0,
    }
}
