//! The names and ids that stood before.
ghost use Rattle.std.specs.Prelude.{◌≡◌, ◌∷◌, [], IfOk, OnOk};
ghost use Rattle.idl_rules.specs.Doubles.{is_among, IsSame};
ghost use Rattle.idl_rules.specs.Ids.{is_id_among, IsSameIds};

use gate_base::OutOfMemory;
use indexmap::IndexSet;
use std::alloc::Global;
use std::marker::Model;

/// Names, each once.
#[derive(Drop)]
pub(crate) struct NameSet<'a> {
    names: IndexSet<&'a [u8]>,
}

impl<'a> Model for NameSet<'a> {
    ghost use Rattle.std.specs.Prelude.{List, ℕ, map};

    ghost Value = { List (List ℕ) };

    ghost view = { λ s. map (λ n. n.now) s.names.keys };
}

impl<'a> NameSet<'a> {
    /// The empty set. Takes no memory.
    pub(crate) fn new(alloc: Global) -> NameSet<'a>
        ensures { result ≡ [] }
    {
        NameSet {
            names: IndexSet::new(alloc),
        }
    }

    /// Whether the name was there. It is there from now on.
    pub(crate) fn insert(&mut self, name: &'a [u8]) -> Result<bool, OutOfMemory>
        ensures told { IfOk result (λ again. again ≡ is_among name.now self.old) }
        ensures kept { OnOk result (IsSame self.new (name.now ∷ self.old)) }
    {
        let (_, new) = self.names.insert_full(name)?;
        Ok(!new)
    }
}

/// Ids, each once.
#[derive(Drop)]
pub(crate) struct IdSet {
    ids: IndexSet<i64>,
}

impl Model for IdSet {
    ghost use Rattle.std.specs.Prelude.{List, ℤ};

    ghost Value = { List ℤ };

    ghost view = { λ s. s.ids.keys };
}

impl IdSet {
    /// The empty set. Takes no memory.
    pub(crate) fn new(alloc: Global) -> IdSet
        ensures { result ≡ [] }
    {
        IdSet {
            ids: IndexSet::new(alloc),
        }
    }

    /// Whether the id was there. It is there from now on.
    pub(crate) fn insert(&mut self, id: i64) -> Result<bool, OutOfMemory>
        ensures told { IfOk result (λ again. again ≡ is_id_among id self.old) }
        ensures kept { OnOk result (IsSameIds self.new (id ∷ self.old)) }
    {
        let (_, new) = self.ids.insert_full(id)?;
        Ok(!new)
    }
}
