//! Names, each with the place of the first thing that has it.
ghost use Rattle.std.specs.Prelude.{◌≡◌, ◌++◌, ◌∷◌, [], Some, None, OnOk, option_copied};
ghost use Rattle.idl_names.specs.Places.{noted, place_of};

use gate_base::OutOfMemory;
use indexmap::IndexMap;
use std::alloc::Global;
use std::marker::Model;

/// Names with their places, no name twice.
#[derive(Drop)]
pub(crate) struct Places {
    entries: IndexMap<Vec<u8>, usize>,
}

impl Model for Places {
    ghost use Rattle.std.specs.Prelude.{List, ℕ};
    ghost use Rattle.idl_names.specs.Places.{named};

    ghost Value = { List (List ℕ × ℕ) };

    ghost view = { λ p. named p.entries.entries };
}

impl Places {
    pub(crate) fn new(alloc: Global) -> Places
        ensures { result ≡ [] }
    {
        Places {
            entries: IndexMap::new(alloc),
        }
    }

    /// The place of this name.
    pub(crate) fn find(&self, name: &[u8]) -> Option<usize>
        ensures { result ≡ place_of name.now self.now }
    {
        self.entries.get(name).copied()
    }

    /// Notes the place of a name, unless the name has one.
    pub(crate) fn note(
        &mut self,
        alloc: Global,
        name: Option<&[u8]>,
        place: usize,
    ) -> Result<(), OutOfMemory>
        ensures { OnOk result (self.new ≡ noted self.old (option_copied name.entry) place) }
    {
        match name {
            None => Ok(()),
            Some(name) => self.note_name(alloc, name, place),
        }
    }

    fn note_name(&mut self, alloc: Global, name: &[u8], place: usize) -> Result<(), OutOfMemory>
        ensures { OnOk result (self.new ≡ noted self.old (Some name.now) place) }
    {
        match self.find(name) {
            Some(_) => Ok(()),
            None => self.push(alloc, name, place),
        }
    }

    fn push(&mut self, alloc: Global, name: &[u8], place: usize) -> Result<(), OutOfMemory>
        requires { place_of name.now self.old ≡ None }
        ensures { OnOk result (self.new ≡ self.old ++ (name.now, place) ∷ []) }
    {
        let key = Vec::from_slice(alloc, name)?;
        self.entries.insert(key, place)?;
        Ok(())
    }
}
