//! The members of one enum, found by their numbers.
ghost use Rattle.std.specs.Prelude.{◌≡◌, ◌↔◌, IsTrue, IfOk, Contains};

use gate_base::OutOfMemory;
use std::alloc::Global;
use std::marker::Model;

/// The numbers of an enum's members, in the order of their declaration.
#[derive(Drop)]
pub struct MemberList {
    list: Vec<i32>,
    // The same numbers, rising.
    sorted: Vec<i32>,
}

impl Model for MemberList {
    ghost use Rattle.std.specs.Prelude.{List, ℤ};
    ghost use Rattle.type_tables.specs.Members.{IsOrdered};

    ghost Value = { List ℤ };

    ghost view = { λ m. m.list.items };

    ghost invariant = { λ m. IsOrdered m.list.items m.sorted.items };
}

impl MemberList {
    pub(crate) fn new(alloc: Global, members: &[i32]) -> Result<MemberList, OutOfMemory>
        ensures { IfOk result (λ list. list ≡ members.now) }
    {
        let list = Vec::from_slice(alloc, members)?;
        let mut sorted = Vec::from_slice(alloc, members)?;
        sorted.sort_unstable();
        Ok(MemberList { list, sorted })
    }

    /// Whether a member has this number.
    pub(crate) fn contains(&self, value: i32) -> bool
        ensures { IsTrue result ↔ Contains self.now value }
    {
        self.sorted.binary_search(&value).is_ok()
    }
}
