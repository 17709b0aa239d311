//! The names of services, and how many of them are the root file's own.
ghost use Rattle.std.specs.Prelude.{◌≡◌, [], None, OnOk, OnErr, length};
ghost use Rattle.type_tables.specs.Names.{value_of};
ghost use Rattle.type_tables.specs.Roots.{dotless, named_place, only, rooted, with_name};
ghost use Rattle.type_tables.specs.RootCount.{root_with};

use crate::declared::ServiceId;
use crate::names::NameTable;
use gate_base::{OutOfMemory, Text};
use std::alloc::Global;
use std::marker::Model;

/// How many services the root file declares.
#[derive(Clone, Copy)]
enum Root {
    None,
    One(ServiceId),
    Several,
}

/// The names that services have in the root file, no name twice.
#[derive(Drop)]
pub(crate) struct ServiceNames {
    table: NameTable<ServiceId>,
    root: Root,
}

impl Model for ServiceNames {
    ghost use Rattle.std.specs.Prelude.{List, ℕ};
    ghost use Rattle.type_tables.specs.declared.declared.ServiceId.{ServiceId};
    ghost use Rattle.type_tables.specs.RootCount.{IsRoot};

    ghost Value = { List (List ℕ × ServiceId) };

    ghost view = { λ s. s.table };

    ghost invariant = { λ s. IsRoot s.root s.table };
}

impl ServiceNames {
    pub(crate) fn new(alloc: Global) -> ServiceNames
        ensures { result ≡ [] }
    {
        ServiceNames {
            table: NameTable::new(alloc),
            root: Root::None,
        }
    }

    /// How many names there are.
    pub(crate) fn len(&self) -> usize
        ensures { result ≡ length self.now }
    {
        self.table.len()
    }

    /// The service of this name.
    pub(crate) fn find(&self, name: &[u8]) -> Option<ServiceId>
        ensures { result ≡ value_of name.now self.now }
    {
        self.table.find(name)
    }

    /// The number of the service of this name, where one is given.
    pub(crate) fn number(&self, name: &Option<Text>) -> Option<usize>
        ensures { result ≡ named_place name.now self.now }
    {
        let name = name.as_ref()?;
        let service = self.find(name.as_slice())?;
        Some(service.0 as usize)
    }

    /// The root file's service, where it declares exactly one.
    pub(crate) fn only(&self) -> Option<ServiceId>
        ensures { result ≡ only (rooted self.now) }
    {
        match self.root {
            Root::One(service) => Some(service),
            Root::None => None,
            Root::Several => None,
        }
    }

    /// Puts a new name last, where one is given.
    pub(crate) fn add(&mut self, name: Option<Text>, service: ServiceId) -> Result<(), OutOfMemory>
        requires { named_place name self.old ≡ None }
        ensures ok { OnOk result (self.new ≡ with_name self.old name service) }
        ensures err { OnErr result (self.new ≡ self.old) }
    {
        match name {
            Some(name) => self.push(name, service),
            None => Ok(()),
        }
    }

    fn push(&mut self, name: Text, service: ServiceId) -> Result<(), OutOfMemory>
        requires { value_of name self.old ≡ None }
        ensures ok { OnOk result (self.new ≡ with_name self.old (Some name) service) }
        ensures err { OnErr result (self.new ≡ self.old) }
    {
        let root = root_with(self.root, name.as_slice(), service);
        self.table.push(name, service)?;
        self.root = root;
        Ok(())
    }
}

fn is_dotless(name: &[u8]) -> bool
    ensures { result ≡ dotless name.now }
{
    !name.contains(&b'.')
}

// With one service more, which counts where its name has no dot.
fn root_with(root: Root, name: &[u8], service: ServiceId) -> Root
    ensures { result ≡ root_with root name.now service }
{
    if is_dotless(name) {
        match root {
            Root::None => Root::One(service),
            Root::One(_) => Root::Several,
            Root::Several => Root::Several,
        }
    } else {
        root
    }
}
