//! The services, with their names and their methods.
ghost use Rattle.std.specs.Prelude.{◌≡◌, ◌<◌, ◌+◌, ◌^◌, [], length, IfOk, nat_lt, option_copied, slice_get};
ghost use Rattle.type_tables.specs.Adding.{Adds};
ghost use Rattle.type_tables.specs.Names.{value_of, name_place};
ghost use Rattle.type_tables.specs.Roots.{only, rooted, named_place};
ghost use Rattle.type_tables.specs.Services.{methods_of, method_in, with_service, with_method};

use crate::declared::{AddFault, MethodInfo, ServiceId};
use crate::names::NameTable;
use crate::roots::ServiceNames;
use gate_base::Text;
use std::alloc::Global;
use std::marker::Model;

/// A service: the one that it extends, and its own methods.
#[derive(Drop)]
pub struct ServiceDecl {
    pub(crate) base: Option<ServiceId>,
    pub(crate) methods: NameTable<MethodInfo>,
}

/// The services in the order of their numbers, and the names that they have in the root file.
#[derive(Drop)]
pub(crate) struct ServiceList {
    list: Vec<ServiceDecl>,
    names: ServiceNames,
}

impl Model for ServiceList {
    ghost use Rattle.type_tables.specs.Services.{ServiceLists};

    ghost Value = { ServiceLists };

    ghost view = { λ s. record { list = s.list.items; names = s.names } };
}

impl ServiceList {
    pub(crate) fn new(alloc: Global) -> ServiceList
        ensures { result ≡ record { list = []; names = [] } }
    {
        ServiceList {
            list: Vec::new(alloc),
            names: ServiceNames::new(alloc),
        }
    }

    pub(crate) fn len(&self) -> usize
        ensures { result ≡ length self.now.list }
    {
        self.list.len()
    }

    pub(crate) fn as_slice(&self) -> &[ServiceDecl]
        ensures { result.now ≡ self.now.list }
    {
        self.list.as_slice()
    }

    /// Whether some service has a name in the root file.
    #[inline(always)]
    pub(crate) fn is_named(&self) -> bool
        ensures { result ≡ nat_lt 0 (length self.now.names) }
    {
        self.names.len() > 0
    }

    /// The service of this name.
    pub(crate) fn find(&self, name: &[u8]) -> Option<ServiceId>
        ensures { result ≡ value_of name.now self.now.names }
    {
        self.names.find(name)
    }

    /// The root file's service, where it declares exactly one.
    pub(crate) fn only(&self) -> Option<ServiceId>
        ensures { result ≡ only (rooted self.now.names) }
    {
        self.names.only()
    }

    /// The own method of this name, else the nearest inherited one.
    pub(crate) fn method(&self, service: ServiceId, name: &[u8]) -> Option<MethodInfo>
        ensures { result ≡ method_in self.now.list service name.now }
    {
        method_in(self.list.as_slice(), service, name)
    }

    /// Adds a service without methods behind the others. The growths come first.
    pub(crate) fn add(
        &mut self,
        alloc: Global,
        name: Option<Text>,
        base: Option<ServiceId>,
    ) -> Result<ServiceId, AddFault>
        requires { length self.old.list + 1 < 2 ^ 32 }
        ensures number { IfOk result (λ s. s.0 ≡ length self.old.list) }
        ensures adds { Adds (named_place name self.old.names) self.old self.new (λ s. with_service self.old name base) result }
    {
        if let Some(first) = self.names.number(&name) {
            return Err(AddFault::Duplicate(first));
        }
        let service = ServiceId(self.list.len() as u32);
        if self.list.reserve(1).is_err() {
            return Err(AddFault::OutOfMemory);
        }
        if self.names.add(name, service).is_err() {
            return Err(AddFault::OutOfMemory);
        }
        let methods = NameTable::new(alloc);
        self.list.push_reserved(ServiceDecl { base, methods });
        Ok(service)
    }

    /// Adds a method behind the others of a service.
    pub(crate) fn add_method(
        &mut self,
        service: ServiceId,
        name: Text,
        method: MethodInfo,
    ) -> Result<(), AddFault>
        requires { service.0 < length self.old.list }
        ensures { Adds (name_place name (methods_of self.old.list service.0)) self.old self.new (λ u. with_method self.old service.0 name method) result }
    {
        let methods = &mut self.list[service.0 as usize].methods;
        if let Some(first) = methods.place(name.as_slice()) {
            return Err(AddFault::Duplicate(first));
        }
        if methods.push(name, method).is_err() {
            return Err(AddFault::OutOfMemory);
        }
        Ok(())
    }
}

fn method_in(services: &[ServiceDecl], service: ServiceId, name: &[u8]) -> Option<MethodInfo>
    ensures { result ≡ method_in services.now service name.now }
{
    let mut asked = Some(service);
    'bases: for _ in 0..services.len() {
        let Some(base) = asked else {
            return None;
        };
        let Some(decl) = service_at(services, base) else {
            return None;
        };
        if let Some(method) = decl.methods.find(name) {
            return Some(method);
        }
        asked = decl.base;
    }
    None
}

fn service_at(services: &[ServiceDecl], service: ServiceId) -> Option<&ServiceDecl>
    ensures { option_copied result ≡ slice_get services.now service.0 }
{
    services.get(service.0 as usize)
}
