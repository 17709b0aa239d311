//! Whether each number in the tables is one of their own.
ghost use Rattle.std.specs.Prelude.{◌↔◌, ◌<◌, IsTrue, length};
ghost use Rattle.std.specs.List.{All};
ghost use Rattle.type_tables.specs.Known.{IsKnown, IsKnownMethod, IsKnownBase, IsClosed, KnowsMethods};

use crate::declared::{FieldInfo, MethodInfo, ServiceId, Ty};
use crate::fields::FieldList;
use crate::names::NameTable;
use crate::services::ServiceDecl;
use crate::tables::{StructDecl, Tables};

/// Whether each number that was handed in is one of these tables.
pub(crate) fn is_closed(tables: &Tables) -> bool
    ensures closed { IsTrue result → IsClosed tables.now }
    ensures all { IsClosed tables.now → IsTrue result }
{
    if !types_closed(tables, tables.types.as_slice()) {
        return false;
    }
    if !structs_closed(tables, tables.structs.as_slice()) {
        return false;
    }
    services_closed(tables, tables.services.as_slice())
}

fn knows(tables: &Tables, ty: Ty) -> bool
    ensures { IsTrue result ↔ IsKnown tables.now ty }
{
    match ty {
        Ty::Enum(e) => (e.0 as usize) < tables.enums.len(),
        Ty::Struct(s) => (s.0 as usize) < tables.structs.len(),
        Ty::Map(key, value) => has_part(tables, key.0) && has_part(tables, value.0),
        Ty::Set(element) => has_part(tables, element.0),
        Ty::List(element) => has_part(tables, element.0),
        _ => true,
    }
}

fn has_part(tables: &Tables, part: u32) -> bool
    ensures { IsTrue result ↔ (part < length tables.now.types) }
{
    (part as usize) < tables.types.len()
}

fn types_closed(tables: &Tables, types: &[Ty]) -> bool
    ensures { IsTrue result ↔ All (IsKnown tables.now) types.now }
{
    for ty in types {
        if !knows(tables, *ty) {
            return false;
        }
    }
    true
}

fn structs_closed(tables: &Tables, structs: &[StructDecl]) -> bool
    ensures { IsTrue result ↔ All (λ s. All (λ f. IsKnown tables.now f.ty) s.fields) structs.now }
{
    for decl in structs {
        if !fields_closed(tables, &decl.fields) {
            return false;
        }
    }
    true
}

fn fields_closed(tables: &Tables, fields: &FieldList) -> bool
    ensures { IsTrue result ↔ All (λ f. IsKnown tables.now f.ty) fields.now }
{
    for field in fields.as_slice() {
        if !knows(tables, field.ty) {
            return false;
        }
    }
    true
}

fn services_closed(tables: &Tables, services: &[ServiceDecl]) -> bool
    ensures methods { IsTrue result → All (λ s. KnowsMethods tables.now s.methods) services.now }
    ensures bases { IsTrue result → All (λ s. IsKnownBase tables.now s.base) services.now }
    ensures closed { let d = tables.now in All (λ s. KnowsMethods d s.methods) services.now → All (λ s. IsKnownBase d s.base) services.now → IsTrue result }
{
    for decl in services {
        if !service_closed(tables, decl) {
            return false;
        }
    }
    true
}

fn service_closed(tables: &Tables, service: &ServiceDecl) -> bool
    ensures methods { IsTrue result → KnowsMethods tables.now service.now.methods }
    ensures bases { IsTrue result → IsKnownBase tables.now service.now.base }
    ensures closed { KnowsMethods tables.now service.now.methods → IsKnownBase tables.now service.now.base → IsTrue result }
{
    if !knows_base(tables, service.base) {
        return false;
    }
    methods_closed(tables, &service.methods)
}

fn knows_base(tables: &Tables, base: Option<ServiceId>) -> bool
    ensures { IsTrue result ↔ IsKnownBase tables.now base }
{
    match base {
        Some(base) => (base.0 as usize) < tables.services.len(),
        None => true,
    }
}

fn methods_closed(tables: &Tables, methods: &NameTable<MethodInfo>) -> bool
    ensures { IsTrue result ↔ KnowsMethods tables.now methods.now }
{
    for at in 0..methods.len() {
        if let Some(method) = methods.at(at) {
            if !knows_method(tables, *method) {
                return false;
            }
        }
    }
    true
}

fn knows_method(tables: &Tables, method: MethodInfo) -> bool
    ensures { IsTrue result ↔ IsKnownMethod tables.now method }
{
    let structs = tables.structs.len();
    (method.args.0 as usize) < structs && (method.result.0 as usize) < structs
}
