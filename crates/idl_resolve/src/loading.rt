//! An IDL with its schema.
ghost use Rattle.std.specs.Prelude.{◌≡◌, ◌≤◌, ℕ, List, Option, Some, IfOk};
ghost use Rattle.idl_files.specs.Answers.{HasCause};
ghost use Rattle.idl_resolve.specs.Loads.{IsResolved, Loads};

use crate::resolving::resolve;
use gate_io::Files;
use idl_files::{LoadError, read_files};
use idl_names::Documents;
use std::alloc::Global;
use type_tables::Schema;

/// The files of an IDL, and the schema of what they declare.
#[derive(Drop)]
pub struct Loaded {
    pub schema: Schema,
    pub documents: Documents,
}

/// Loads an IDL: the root file, what it leads to, and the schema of what these files declare.
///
/// `Idl`: the first refusal, told under the name of its file. Reading goes depth first, and its refusals go before those of
/// what is declared. `FileFault`: a fetch failed. `OutOfMemory`: memory was not found, or more things of a kind are declared
/// than 32 bits count. `NoTables`: tables can't have what is declared; texts that keep the rules never come to that.
pub fn load<F: Files>(alloc: Global, files: &mut F, root: &[u8]) -> Result<Loaded, LoadError>
    ensures exact { (holds : List ℕ → Option (List ℕ)) → F.holds files.old ≡ Some holds → Loads holds root.now result }
    ensures resolved { IfOk result IsResolved }
    ensures same { F.holds files.new ≡ F.holds files.old }
    ensures later { F.faults files.old ≤ F.faults files.new }
    ensures cause { HasCause result (F.faults files.old) (F.faults files.new) }
{
    let documents = read_files(alloc, files, root)?;
    match resolve(alloc, &documents) {
        Ok(schema) => Ok(Loaded { schema, documents }),
        Err(error) => Err(error),
    }
}
