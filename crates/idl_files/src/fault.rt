//! Why files were not loaded.
ghost use Rattle.idl_files.specs.Answers.{Refuses};
ghost use Rattle.idl_files.specs.Walk.{refusal};

use gate_base::{OutOfMemory, Text};
use idl_rules::{IdlFault, IdlRow};
use std::alloc::{AllocError, AllocFailed, Global};
use std::fmt;
use std::fmt::{Debug, Formatter, Write};
use thiserror::Error;

/// Why an IDL was not loaded.
#[derive(Drop, Error)]
pub enum LoadError {
    /// A file is refused.
    #[error("an IDL file is refused")]
    Idl(IdlFault),
    /// A fetch failed.
    #[error("a file could not be read")]
    FileFault,
    #[error("no memory")]
    OutOfMemory,
    /// Tables can't have what the files declare. Reading files never answers this.
    #[error("no tables")]
    NoTables,
}

impl Debug for LoadError {
    fn fmt<W: Write>(&self, f: &mut Formatter<W>) -> fmt::Result {
        match self {
            LoadError::Idl(fault) => f
                .debug_tuple("Idl")
                .field(&fault.row)
                .field(&fault.offset)
                .finish(),
            LoadError::FileFault => f.write_str("FileFault"),
            LoadError::OutOfMemory => f.write_str("OutOfMemory"),
            LoadError::NoTables => f.write_str("NoTables"),
        }
    }
}

impl From<OutOfMemory> for LoadError {
    ghost use Rattle.std.specs.Prelude.{◌≡◌};
    ghost use Rattle.idl_files.specs.declared.fault.LoadError.TheVariants.{OutOfMemory};

    ghost from_gives = { λ _ e. e ≡ OutOfMemory };

    fn from(_error: OutOfMemory) -> LoadError {
        LoadError::OutOfMemory
    }
}

impl From<AllocError> for LoadError {
    ghost use Rattle.std.specs.Prelude.{◌≡◌};
    ghost use Rattle.idl_files.specs.declared.fault.LoadError.TheVariants.{OutOfMemory};

    ghost from_gives = { λ _ e. e ≡ OutOfMemory };

    fn from(_error: AllocError) -> LoadError {
        LoadError::OutOfMemory
    }
}

impl<T: Drop> From<AllocFailed<T>> for LoadError {
    ghost use Rattle.std.specs.Prelude.{◌≡◌};
    ghost use Rattle.idl_files.specs.declared.fault.LoadError.TheVariants.{OutOfMemory};

    ghost from_gives = { λ _ e. e ≡ OutOfMemory };

    fn from(_failed: AllocFailed<T>) -> LoadError {
        LoadError::OutOfMemory
    }
}

/// A refusal at an offset in the file of this name.
pub(crate) fn refused(alloc: Global, file: &[u8], at: usize, row: IdlRow) -> LoadError
    ensures { Refuses result (refusal file.now at row) }
{
    match Text::new(alloc, file) {
        Ok(file) => LoadError::Idl(IdlFault {
            file,
            offset: at,
            row,
        }),
        Err(OutOfMemory) => LoadError::OutOfMemory,
    }
}
