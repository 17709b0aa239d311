//! An IDL from its files.
ghost use Rattle.std.specs.Prelude.{◌≡◌, ◌≤◌, Some, ℕ, List, Option};
ghost use Rattle.idl_names.specs.Files.{file_trees};
ghost use Rattle.idl_consts.specs.Told.{Answers};
ghost use Rattle.idl_resolve.specs.Loads.{IsResolved};
ghost use Rattle.gate_idl.specs.Opening.{Opens, Checks, HasCause, IsOpened, stop_by};

use crate::refusal::{ErrorCode, Refusal};
use gate_io::Files;
use idl_consts::{ConstError, check_documents};
use idl_resolve::{LoadError, Loaded, load};
use std::alloc::Global;
use type_tables::Schema;

/// Why a command has no IDL to go by.
#[derive(Drop)]
pub enum Stop {
    /// A file is refused.
    Refused(Refusal),
    /// A fetch failed.
    FileFault,
    OutOfMemory,
}

/// What the root file and all that it includes declare.
///
/// The first refusal is told: of a file that can't be loaded, else of a declaration, else of a constant or a preset.
/// `FileFault`: a fetch failed. `OutOfMemory`: memory was not found.
pub fn open<F: Files>(alloc: Global, files: &mut F, root: &[u8]) -> Result<Schema, Stop>
    ensures told { (holds : List ℕ → Option (List ℕ)) → F.holds files.old ≡ Some holds → Opens (IsOpened holds root.now) result }
    ensures same { F.holds files.new ≡ F.holds files.old }
    ensures later { F.faults files.old ≤ F.faults files.new }
    ensures cause { HasCause result (F.faults files.old) (F.faults files.new) }
{
    match load(alloc, files, root) {
        Ok(loaded) => schema_of(alloc, loaded),
        Err(error) => Err(stop_by(error)),
    }
}

// Why files that are not loaded stop a command.
fn stop_by(error: LoadError) -> Stop
    ensures { result ≡ stop_by error }
{
    match error {
        LoadError::Idl(fault) => Stop::Refused(Refusal {
            file: fault.file,
            offset: fault.offset,
            row: ErrorCode::Declared(fault.row),
        }),
        LoadError::FileFault => Stop::FileFault,
        LoadError::OutOfMemory => Stop::OutOfMemory,
        LoadError::NoTables => Stop::OutOfMemory,
    }
}

// The schema, where all values fit.
fn schema_of(alloc: Global, loaded: Loaded) -> Result<Schema, Stop>
    requires { IsResolved loaded }
    ensures { Checks (file_trees loaded.documents) loaded.schema result }
{
    match check_consts(alloc, &loaded) {
        Ok(()) => Ok(loaded.schema),
        Err(ConstError::Idl(fault)) => Err(Stop::Refused(Refusal {
            file: fault.file,
            offset: fault.offset,
            row: ErrorCode::Value(fault.row),
        })),
        Err(ConstError::OutOfMemory) => Err(Stop::OutOfMemory),
    }
}

/// Whether each constant and each preset of a loaded IDL fits its type, or the first that does not.
///
/// `OutOfMemory`: the memory for the check was not found.
pub fn check_consts(alloc: Global, loaded: &Loaded) -> Result<(), ConstError>
    requires { IsResolved loaded.now }
    ensures { Answers (file_trees loaded.now.documents) result }
{
    check_documents(alloc, &loaded.documents)
}
