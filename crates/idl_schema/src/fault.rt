//! Why there is no schema.
use gate_base::OutOfMemory;

/// Why the files of an IDL have no schema.
#[derive(Clone, Copy)]
pub enum NoSchema {
    /// The memory for the tables was not found, or more things of a kind are declared than 32 bits count.
    OutOfMemory,
    /// Tables can't have what is declared: a name means nothing, or two services have one name in the root file.
    NoTables,
}

impl From<OutOfMemory> for NoSchema {
    ghost use Rattle.std.specs.Prelude.{◌≡◌};
    ghost use Rattle.idl_schema.specs.declared.fault.NoSchema.TheVariants.{OutOfMemory};

    ghost from_gives = { λ _ e. e ≡ OutOfMemory };

    fn from(_error: OutOfMemory) -> NoSchema {
        NoSchema::OutOfMemory
    }
}
