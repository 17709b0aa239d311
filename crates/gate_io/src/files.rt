//! Files by their names.
ghost use Rattle.std.specs.Prelude.{◌≡◌, ◌≤◌, ℕ, List, Option};
ghost use Rattle.gate_base.specs.Causes.{Rose};
ghost use Rattle.gate_io.specs.Fetching.{Fetches, IsShort};

use gate_base::Text;
use std::alloc::Global;

/// What a fetch answers: the bytes of the file, that there is none of that name, that it failed, or
/// that the memory for the bytes was not found.
#[derive(Drop)]
pub enum Fetched {
    Found(Text),
    Absent,
    Failed,
    OutOfMemory,
}

/// Files by their names.
pub trait Files {
    /// The bytes of the file of each name, where the files tell them.
    ghost holds: { Self → Option (List ℕ → Option (List ℕ)) };

    /// How often it has failed. The count stands still at 2^64 - 1.
    ghost faults: { Self → ℕ };

    /// The bytes of the file of this name, at most 16,777,216 (`longest_file`) of them.
    ///
    /// `Absent`: there is no file of this name. `Failed`: the count of faults rose; else it stands as it was.
    fn fetch(&mut self, alloc: Global, name: &[u8]) -> Fetched
        ensures same { holds self.new ≡ holds self.old }
        ensures bytes { Fetches (holds self.old) name.now result }
        ensures short { IsShort result }
        ensures later { faults self.old ≤ faults self.new }
        ensures cause { result ≡ Fetched.Failed → Rose (faults self.old) (faults self.new) }
        ensures steady { (result ≡ Fetched.Failed → ⊥) → faults self.new ≡ faults self.old };
}
