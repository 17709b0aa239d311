//! What the names of a file may not be.
ghost use Rattle.std.specs.Prelude.{◌≡◌, ◌<◌, ◌^◌, length, if◌then◌else◌, option_map};
ghost use Rattle.idl_document.specs.Trees.{definition_tree, definition_trees, function_tree, function_trees, field_trees, type_tree};
ghost use Rattle.idl_rules.specs.Order.{lesser, least_of};
ghost use Rattle.idl_names.specs.Refusals.{base_refusals, cycle_refusals, definition_refusals, definitions_refusals, fields_refusals, function_refusals, functions_refusals, is_known, is_other, is_refused, is_round, leads_round, name_refusals, returned_refusals, throws_refusals, thrown_refusals, type_refusals, word_refusals, is_refused_type, files_of};
ghost use Rattle.idl_names.specs.Told.{target_tree};

use crate::cycles::Cycles;
use crate::documents::Spot;
use crate::meaning::file_at;
use crate::names::Names;
use crate::targets::{Target, resolve_type};
use idl_document::{Definition, FieldDecl, Function, Kin, Name, TypeExpr, TypeForm};
use idl_rules::{IdlRow, Least, Scope};

/// Notes a name that this scope has not: as unknown, where no scope has it.
fn check_word(
    names: &Names<'_>,
    file: u32,
    scope: Scope,
    row: IdlRow,
    at: usize,
    word: &[u8],
    least: &mut Least,
)
    ensures { least.new ≡ lesser least.old (least_of (word_refusals (files_of names.now) file scope row at word.now)) }
{
    let refused = names.look_up(file, scope, word).is_none();
    let row = absent_row(names, file, row, word);
    least.note_when(refused, at, row);
}

fn absent_row(names: &Names<'_>, file: u32, row: IdlRow, word: &[u8]) -> IdlRow
    ensures { result ≡ (if is_known (files_of names.now) file word.now then row else IdlRow.UnknownName) }
{
    if is_known(names, file, word) {
        row
    } else {
        IdlRow::UnknownName
    }
}

fn is_known(names: &Names<'_>, file: u32, word: &[u8]) -> bool
    ensures { result ≡ is_known (files_of names.now) file word.now }
{
    names.look_up(file, Scope::Types, word).is_some()
        || names.look_up(file, Scope::Constants, word).is_some()
        || names.look_up(file, Scope::Services, word).is_some()
}

fn check_type(names: &Names<'_>, file: u32, ty: &TypeExpr, least: &mut Least)
    ensures { least.new ≡ lesser least.old (least_of (type_refusals (files_of names.now) file (type_tree ty.now))) }
{
    match &ty.form {
        TypeForm::Base(_) => {}
        TypeForm::Named(word) => {
            let word = word.as_slice();
            check_word(
                names,
                file,
                Scope::Types,
                IdlRow::NotAType,
                ty.at,
                word,
                least,
            );
        }
        TypeForm::Map(key, value) => {
            check_type(names, file, key, least);
            check_type(names, file, value, least);
        }
        TypeForm::Set(element) => check_type(names, file, element, least),
        TypeForm::List(element) => check_type(names, file, element, least),
    }
}

fn check_fields(names: &Names<'_>, file: u32, fields: &[FieldDecl], least: &mut Least)
    ensures { least.new ≡ lesser least.old (least_of (fields_refusals (files_of names.now) file (field_trees fields.now))) }
{
    for field in fields {
        check_type(names, file, &field.ty, least);
    }
}

fn is_round(names: &Names<'_>, cycles: &Cycles, file: u32, ty: &TypeExpr) -> bool
    ensures { result ≡ is_round (files_of names.now) cycles.now file (type_tree ty.now) }
{
    match &ty.form {
        TypeForm::Named(word) => leads_round(
            cycles,
            names.look_up(file, Scope::Types, word.as_slice()),
        ),
        TypeForm::Base(_) => false,
        TypeForm::Map(_, _) => false,
        TypeForm::Set(_) => false,
        TypeForm::List(_) => false,
    }
}

fn leads_round(cycles: &Cycles, spot: Option<Spot>) -> bool
    ensures { result ≡ leads_round cycles.now spot }
{
    match spot {
        None => false,
        Some(spot) => !cycles.at(spot).is_absent(),
    }
}

fn is_other(target: Option<Target<'_>>) -> bool
    ensures { result ≡ is_other (option_map target_tree target.entry) }
{
    match target {
        None => false,
        Some(Target::Struct(Kin::Exception, _)) => false,
        Some(Target::Struct(Kin::Struct, _)) => true,
        Some(Target::Struct(Kin::Union, _)) => true,
        Some(Target::Enum(_)) => true,
        Some(Target::Written(_, _)) => true,
    }
}

// Only an exception is thrown.
fn is_refused(names: &Names<'_>, cycles: &Cycles, file: u32, ty: &TypeExpr) -> bool
    ensures { result ≡ is_refused_type (files_of names.now) cycles.now file (type_tree ty.now) }
{
    if is_round(names, cycles, file, ty) {
        false
    } else {
        is_other(resolve_type(names, file, ty))
    }
}

fn check_thrown(names: &Names<'_>, cycles: &Cycles, file: u32, ty: &TypeExpr, least: &mut Least)
    ensures { least.new ≡ lesser least.old (least_of (thrown_refusals (files_of names.now) cycles.now file (type_tree ty.now))) }
{
    let refused = is_refused(names, cycles, file, ty);
    least.note_when(refused, ty.at, IdlRow::NotAnException);
}

fn check_throws(
    names: &Names<'_>,
    cycles: &Cycles,
    file: u32,
    fields: &[FieldDecl],
    least: &mut Least,
)
    ensures { least.new ≡ lesser least.old (least_of (throws_refusals (files_of names.now) cycles.now file (field_trees fields.now))) }
{
    for field in fields {
        check_type(names, file, &field.ty, least);
        check_thrown(names, cycles, file, &field.ty, least);
    }
}

fn check_returned(names: &Names<'_>, file: u32, function: &Function, least: &mut Least)
    ensures { least.new ≡ lesser least.old (least_of (returned_refusals (files_of names.now) file (function_tree function.now).returns)) }
{
    if let Some(ty) = &function.returns {
        check_type(names, file, ty, least);
    }
}

fn check_function(
    names: &Names<'_>,
    cycles: &Cycles,
    file: u32,
    function: &Function,
    least: &mut Least,
)
    ensures { least.new ≡ lesser least.old (least_of (function_refusals (files_of names.now) cycles.now file (function_tree function.now))) }
{
    check_returned(names, file, function, least);
    check_fields(names, file, function.args.as_slice(), least);
    check_throws(names, cycles, file, function.throws.as_slice(), least);
}

fn check_functions(
    names: &Names<'_>,
    cycles: &Cycles,
    file: u32,
    functions: &[Function],
    least: &mut Least,
)
    ensures { least.new ≡ lesser least.old (least_of (functions_refusals (files_of names.now) cycles.now file (function_trees functions.now))) }
{
    for function in functions {
        check_function(names, cycles, file, function, least);
    }
}

fn check_base(names: &Names<'_>, file: u32, base: &Option<Name>, least: &mut Least)
    ensures { least.new ≡ lesser least.old (least_of (base_refusals (files_of names.now) file base.now)) }
{
    if let Some(name) = base {
        let word = name.text.as_slice();
        check_word(
            names,
            file,
            Scope::Services,
            IdlRow::NotAService,
            name.at,
            word,
            least,
        );
    }
}

fn check_cycle(cycles: &Cycles, spot: Spot, name: &Name, row: IdlRow, least: &mut Least)
    ensures { least.new ≡ lesser least.old (least_of (cycle_refusals cycles.now spot name.now row)) }
{
    let refused = cycles.at(spot).is_on();
    least.note_when(refused, name.at, row);
}

fn check_definition(
    names: &Names<'_>,
    cycles: &Cycles,
    spot: Spot,
    definition: &Definition,
    least: &mut Least,
)
    ensures { least.new ≡ lesser least.old (least_of (definition_refusals (files_of names.now) cycles.now spot (definition_tree definition.now))) }
{
    match definition {
        Definition::Const(_, ty, _) => check_type(names, spot.file, ty, least),
        Definition::Typedef(name, ty) => {
            check_type(names, spot.file, ty, least);
            check_cycle(cycles, spot, name, IdlRow::TypedefCycle, least);
        }
        Definition::Enum(_, _) => {}
        Definition::Struct(_, _, fields) => check_fields(
            names,
            spot.file,
            fields.as_slice(),
            least,
        ),
        Definition::Service(name, base, functions) => {
            check_base(names, spot.file, base, least);
            check_functions(names, cycles, spot.file, functions.as_slice(), least);
            check_cycle(cycles, spot, name, IdlRow::ServiceCycle, least);
        }
    }
}

fn check_definitions(
    names: &Names<'_>,
    cycles: &Cycles,
    file: u32,
    definitions: &[Definition],
    least: &mut Least,
)
    requires { length definitions.now < 2 ^ 32 }
    ensures { least.new ≡ lesser least.old (least_of (definitions_refusals (files_of names.now) cycles.now file 0 (definition_trees definitions.now))) }
{
    for (place, definition) in definitions.iter().enumerate() {
        let spot = Spot {
            file,
            definition: place as u32,
        };
        check_definition(names, cycles, spot, definition, least);
    }
}

/// Notes what the names of one file are refused for: a name that its scope has not, a thrown type that is known not to be an
/// exception, and each typedef and each service that leads to itself.
///
/// A thrown type is not asked for where it leads into a cycle or has no meaning, which is refused by itself.
pub fn check_names(names: &Names<'_>, cycles: &Cycles, file: u32, least: &mut Least)
    ensures { least.new ≡ lesser least.old (least_of (name_refusals (files_of names.now) cycles.now file)) }
{
    if let Some(found) = file_at(names.files, file) {
        check_definitions(
            names,
            cycles,
            file,
            found.document.definitions.as_slice(),
            least,
        );
    }
}
