//! The first refusal of what files declare, and their schema.
ghost use Rattle.std.specs.Prelude.{◌≡◌, ◌<◌, ◌^◌, length, IfOk};
ghost use Rattle.idl_names.specs.Files.{file_tree, file_trees};
ghost use Rattle.idl_names.specs.Meaning.{HasFewDefinitions};
ghost use Rattle.idl_rules.specs.Order.{least_of};
ghost use Rattle.idl_resolve.specs.Loads.{Resolves};
ghost use Rattle.idl_resolve.specs.Refused.{file_refusals, first_refusal};

use gate_base::{OutOfMemory, Text};
use idl_files::LoadError;
use idl_names::{Cycles, Documents, FileDoc, Names, check_names};
use idl_rules::{IdlFault, IdlRow, Least, check_rules};
use idl_schema::{NoSchema, schema_by};
use std::alloc::Global;
use type_tables::Schema;

/// The schema of these files, or the first refusal of what they declare.
pub(crate) fn resolve(alloc: Global, documents: &Documents) -> Result<Schema, LoadError>
    requires few { HasFewDefinitions (file_trees documents.now) }
    requires few_files { length documents.now < 2 ^ 32 }
    ensures { Resolves (file_trees documents.now) result }
{
    let names = Names::build(alloc, documents)?;
    let cycles = Cycles::find(alloc, &names)?;
    match first_refusal(alloc, &names, &cycles)? {
        Some(fault) => Err(LoadError::Idl(fault)),
        None => match schema_by(alloc, &names) {
            Ok(schema) => Ok(schema),
            Err(NoSchema::OutOfMemory) => Err(LoadError::OutOfMemory),
            Err(NoSchema::NoTables) => Err(LoadError::NoTables),
        },
    }
}

// The first refusal of these files.
#[tactic(auto, unfolding(crate::specs::Refused::first_refusal))]
fn first_refusal(
    alloc: Global,
    names: &Names<'_>,
    cycles: &Cycles,
) -> Result<Option<IdlFault>, OutOfMemory>
    requires { length names.now.files.now < 2 ^ 32 }
    ensures { IfOk result (λ found. found ≡ first_refusal (file_trees names.now.files.now) cycles.now) }
{
    for (place, file) in names.files.iter().enumerate() {
        if let Some((offset, row)) = file_refusal(alloc, names, cycles, place as u32, file)? {
            let file = Text::new(alloc, file.name.as_slice())?;
            return Ok(Some(IdlFault { file, offset, row }));
        }
    }
    Ok(None)
}

// The refusal of one file that is told.
fn file_refusal(
    alloc: Global,
    names: &Names<'_>,
    cycles: &Cycles,
    place: u32,
    file: &FileDoc,
) -> Result<Option<(usize, IdlRow)>, OutOfMemory>
    ensures { IfOk result (λ found. found ≡ least_of (file_refusals (file_trees names.now.files.now) cycles.now place (file_tree file.now))) }
{
    let mut least = Least::new();
    check_rules(alloc, &file.document, &mut least)?;
    check_names(names, cycles, place, &mut least);
    Ok(least.found())
}
