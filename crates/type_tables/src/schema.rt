//! A finished schema, and what it knows.
ghost use Rattle.std.specs.Prelude.{◌≡◌, ◌↔◌, ◌<◌, IsTrue, IfSome, Contains, count_by, length, option_copied, slice_get, nat_lt, Some};
ghost use Rattle.type_tables.specs.Declarations.{with_files};
ghost use Rattle.type_tables.specs.Fields.{field_in};
ghost use Rattle.type_tables.specs.Known.{IsBuilt, IsClosed, IsKnown, IsKnownMethod, failure_struct};
ghost use Rattle.type_tables.specs.Names.{value_of};
ghost use Rattle.type_tables.specs.Roots.{only, rooted};
ghost use Rattle.type_tables.specs.Services.{method_in};
ghost use Rattle.type_tables.specs.Structs.{fields_of, members_of, form_at, declared_structs, is_declared_form, widest, greater};

use crate::declared::{Counts, EnumId, FieldInfo, Form, MethodInfo, ServiceId, StructId, Ty, TyId};
use crate::tables::{StructDecl, Tables};
use std::marker::Model;

/// What an IDL declares. No call takes memory; a number that is handed in is one of this schema's.
#[derive(Drop)]
pub struct Schema {
    tables: Tables,
}

impl Model for Schema {
    ghost use Rattle.type_tables.specs.Declarations.{Declarations};
    ghost use Rattle.type_tables.specs.Known.{IsFinished};

    ghost Value = { Declarations };

    ghost view = { λ s. s.tables };

    ghost invariant = { λ s. IsFinished s.tables };
}

impl Schema {
    pub(crate) fn of(tables: Tables, files: u64) -> Schema
        requires built { IsBuilt tables }
        requires closed { IsClosed tables }
        ensures { result ≡ with_files tables files }
    {
        let mut tables = tables;
        tables.set_files(files);
        Schema { tables }
    }

    /// Whether a struct has this number.
    pub fn has_struct(&self, s: StructId) -> bool
        ensures { result ≡ nat_lt s.0 (length self.now.structs) }
    {
        (s.0 as usize) < self.tables.structs.len()
    }

    /// The field of a struct that has this id.
    #[inline(always)]
    pub fn field(&self, s: StructId, id: i16) -> Option<&FieldInfo>
        requires { s.0 < length self.now.structs }
        ensures value { option_copied result ≡ field_in id (fields_of self.now.structs s.0) }
        ensures known { IfSome result (λ f. IsKnown self.now f.now.ty) }
    {
        self.tables.structs[s.0 as usize].fields.find(id)
    }

    /// The field of a struct at a place, in the order of declaration.
    pub fn field_at(&self, s: StructId, place: usize) -> Option<&FieldInfo>
        requires { s.0 < length self.now.structs }
        ensures value { option_copied result ≡ slice_get (fields_of self.now.structs s.0) place }
        ensures known { IfSome result (λ f. IsKnown self.now f.now.ty) }
    {
        self.tables.structs[s.0 as usize].fields.at(place)
    }

    /// What a struct is the list of fields of.
    pub fn form(&self, s: StructId) -> Form
        requires { s.0 < length self.now.structs }
        ensures { Some result ≡ form_at self.now.structs s.0 }
    {
        self.tables.structs[s.0 as usize].form
    }

    /// Whether an enum has a member of this number.
    pub fn member(&self, e: EnumId, value: i32) -> bool
        requires { e.0 < length self.now.enums }
        ensures { IsTrue result ↔ Contains (members_of self.now.enums e.0) value }
    {
        self.tables.enums[e.0 as usize].contains(value)
    }

    /// A type that is a part of another.
    pub fn ty(&self, t: TyId) -> Ty
        requires { t.0 < length self.now.types }
        ensures value { Some result ≡ slice_get self.now.types t.0 }
        ensures known { IsKnown self.now result }
    {
        self.tables.types[t.0 as usize]
    }

    /// Whether some name means a service in the root file.
    #[inline(always)]
    pub fn names_services(&self) -> bool
        ensures { result ≡ nat_lt 0 (length self.now.names) }
    {
        self.tables.services.is_named()
    }

    /// The service that this name means in the root file, as `Name` or `p.Name`.
    pub fn service(&self, name: &[u8]) -> Option<ServiceId>
        ensures value { result ≡ value_of name.now self.now.names }
        ensures known { IfSome result (λ s. s.0 < length self.now.services) }
    {
        self.tables.services.find(name)
    }

    /// The root file's service, where it declares exactly one.
    pub fn only_service(&self) -> Option<ServiceId>
        ensures value { result ≡ only (rooted self.now.names) }
        ensures known { IfSome result (λ s. s.0 < length self.now.services) }
    {
        self.tables.services.only()
    }

    /// The own method of this name, else the nearest inherited one.
    pub fn method(&self, s: ServiceId, name: &[u8]) -> Option<MethodInfo>
        requires { s.0 < length self.now.services }
        ensures value { result ≡ method_in self.now.services s name.now }
        ensures known { IfSome result (IsKnownMethod self.now) }
    {
        self.tables.services.method(s, name)
    }

    /// The built-in TApplicationException.
    pub fn failure(&self) -> StructId
        ensures number { result.0 ≡ 0 }
        ensures known { result.0 < length self.now.structs }
        ensures value { slice_get self.now.structs result.0 ≡ Some failure_struct }
    {
        let _ = &self.tables;
        StructId(0)
    }

    /// How much is declared. The built-in struct doesn't count.
    pub fn counts(&self) -> Counts
        ensures files { result.files ≡ self.now.files }
        ensures structs { result.structs ≡ declared_structs self.now.structs }
        ensures services { result.services ≡ length self.now.services }
    {
        Counts {
            files: self.tables.files,
            structs: declared_structs(self.tables.structs.as_slice()),
            services: self.tables.services.len() as u64,
        }
    }

    /// The greatest number of fields of one struct.
    pub fn width(&self) -> usize
        ensures { result ≡ widest self.now.structs }
    {
        widest(self.tables.structs.as_slice())
    }
}

fn declared_structs(structs: &[StructDecl]) -> u64
    ensures { result ≡ declared_structs structs.now }
{
    match structs {
        [_, rest @ ..] => declared_in(rest) as u64,
        [] => 0,
    }
}

fn declared_in(structs: &[StructDecl]) -> usize
    ensures { result ≡ count_by (λ t. is_declared_form t.form) structs.now }
{
    structs.iter().filter(|decl| is_declared(decl.form)).count()
}

fn is_declared(form: Form) -> bool
    ensures { result ≡ is_declared_form form }
{
    matches!(form, Form::Struct | Form::Union | Form::Exception)
}

fn widest(structs: &[StructDecl]) -> usize
    ensures { result ≡ widest structs.now }
{
    let mut most = 0;
    for decl in structs {
        most = greater(most, decl.fields.len());
    }
    most
}

fn greater(m: usize, n: usize) -> usize
    ensures { result ≡ greater m n }
{
    if m < n { n } else { m }
}
