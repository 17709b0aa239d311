//! Things found by their names, in the order of their declaration.
ghost use Rattle.std.specs.Prelude.{◌≡◌, ◌++◌, ◌∷◌, [], OnErr, OnOk, None, length, option_copied, option_map, slice_get};
ghost use Rattle.type_tables.specs.Names.{value_of, name_place};

use gate_base::{OutOfMemory, Text};
use indexmap::IndexMap;
use std::alloc::Global;
use std::marker::Model;

/// Things under names, no name twice.
#[derive(Drop)]
pub(crate) struct NameTable<T: Drop> {
    entries: IndexMap<Vec<u8>, T>,
}

impl<T: Drop> Model for NameTable<T> {
    ghost use Rattle.std.specs.Prelude.{List, ℕ};
    ghost use Rattle.type_tables.specs.Names.{named};

    ghost Value = { List (List ℕ × T) };

    ghost view = { λ t. named t.entries.entries };
}

impl<T: Copy + Drop> NameTable<T> {
    pub(crate) fn new(alloc: Global) -> NameTable<T>
        ensures { result ≡ [] }
    {
        NameTable {
            entries: IndexMap::new(alloc),
        }
    }

    /// The thing of this name.
    pub(crate) fn find(&self, name: &[u8]) -> Option<T>
        ensures { result ≡ value_of name.now self.now }
    {
        self.entries.get(name).copied()
    }

    /// The place of the thing of this name.
    pub(crate) fn place(&self, name: &[u8]) -> Option<usize>
        ensures { result ≡ name_place name.now self.now }
    {
        self.entries.get_index_of(name)
    }

    pub(crate) fn len(&self) -> usize
        ensures { result ≡ length self.now }
    {
        self.entries.len()
    }

    /// The thing at a place.
    pub(crate) fn at(&self, place: usize) -> Option<&T>
        ensures { option_copied result ≡ option_map (λ e. e.1) (slice_get self.now place) }
    {
        match self.entries.get_index(place) {
            Some((_, thing)) => Some(thing),
            None => None,
        }
    }

    /// Puts a thing with a new name last.
    pub(crate) fn push(&mut self, name: Text, thing: T) -> Result<(), OutOfMemory>
        requires { name_place name self.old ≡ None }
        ensures ok { OnOk result (self.new ≡ self.old ++ (name, thing) ∷ []) }
        ensures err { OnErr result (self.new ≡ self.old) }
    {
        self.entries.insert(name.into_bytes(), thing)?;
        Ok(())
    }
}
