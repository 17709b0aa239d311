//! Files in memory.
ghost use Rattle.std.specs.Prelude.{◌≡◌, ◌≤◌, [], length, IfOk, IfSome, OnOk, OnErr, Some};
ghost use Rattle.gate_base.specs.Causes.{Rose};
ghost use Rattle.gate_io.specs.Fetching.{Fetches, IsShort, longest_file};
ghost use Rattle.gate_memory.specs.Files.{MemoryFetches, text_of, with_text};

use crate::Fails;
use gate_base::{OutOfMemory, Text};
use gate_io::{Fetched, Files};
use indexmap::IndexMap;
use std::alloc::Global;
use std::marker::Model;

/// Files in memory. They tell their bytes, and the calls of these numbers fail.
#[derive(Drop)]
pub struct MemFiles {
    texts: IndexMap<Vec<u8>, Text>,
    calls: u64,
    fail: Fails,
    faults: u64,
}

impl Model for MemFiles {
    ghost use Rattle.gate_memory.specs.Files.{FilesState, AllShort, by_name};

    ghost Value = { FilesState };

    ghost view = { λ f. record { texts = by_name f.texts.entries; calls = f.calls; fail = f.fail; faults = f.faults } };

    ghost invariant = { λ f. AllShort (by_name f.texts.entries) };
}

impl MemFiles {
    /// No file so far. `fail` has the numbers of the fetches that fail, counted from 0.
    ///
    /// `OutOfMemory`: none of its own is taken yet, so it does not come.
    pub fn new(alloc: Global, fail: Fails) -> Result<MemFiles, OutOfMemory>
        ensures { IfOk result (λ files. files ≡ record { texts = []; calls = 0; fail = fail; faults = 0 }) }
    {
        Ok(MemFiles {
            texts: IndexMap::new(alloc),
            calls: 0,
            fail,
            faults: 0,
        })
    }

    /// Gives the file of this name these bytes, in the place of those that it has, if it is there.
    ///
    /// `OutOfMemory`: the memory for a copy was not found, and the files are as they were.
    pub fn put(&mut self, name: &[u8], text: &[u8]) -> Result<(), OutOfMemory>
        requires { length text.now ≤ longest_file }
        ensures ok { OnOk result (self.new ≡ record self.old { texts = with_text self.old.texts name.now text.now }) }
        ensures err { OnErr result (self.new ≡ self.old) }
    {
        let alloc = *self.texts.allocator();
        let key = Vec::from_slice(alloc, name)?;
        let text = Text::new(alloc, text)?;
        self.texts.insert(key, text)?;
        Ok(())
    }

    // A copy of the bytes of the file of this name.
    fn copy_of(&self, alloc: Global, name: &[u8]) -> Result<Option<Text>, OutOfMemory>
        ensures copied { IfOk result (λ found. found ≡ text_of self.now.texts name.now) }
        ensures short { IfOk result (λ found. IfSome found (λ text. length text ≤ longest_file)) }
    {
        match self.texts.get(name) {
            Some(text) => Ok(Some(Text::new(alloc, text.as_slice())?)),
            None => Ok(None),
        }
    }
}

impl Files for MemFiles {
    ghost holds = { λ f. Some (text_of f.texts) };

    ghost faults = { λ f. f.faults };

    fn fetch(&mut self, alloc: Global, name: &[u8]) -> Fetched
        ensures same { Some (text_of self.new.texts) ≡ Some (text_of self.old.texts) }
        ensures bytes { Fetches (Some (text_of self.old.texts)) name.now result }
        ensures short { IsShort result }
        ensures later { self.old.faults ≤ self.new.faults }
        ensures cause { result ≡ Fetched.Failed → Rose self.old.faults self.new.faults }
        ensures steady { (result ≡ Fetched.Failed → ⊥) → self.new.faults ≡ self.old.faults }
        ensures exact { MemoryFetches self.old self.new name.now result }
    {
        if self.fail.as_slice().contains(&self.calls) {
            self.calls = self.calls.saturating_add(1);
            self.faults = self.faults.saturating_add(1);
            return Fetched::Failed;
        }
        match self.copy_of(alloc, name) {
            Ok(Some(text)) => {
                self.calls = self.calls.saturating_add(1);
                Fetched::Found(text)
            }
            Ok(None) => {
                self.calls = self.calls.saturating_add(1);
                Fetched::Absent
            }
            Err(OutOfMemory) => Fetched::OutOfMemory,
        }
    }
}
