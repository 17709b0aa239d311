//! What builds a schema: each thing is added with the number that it then has.
ghost use Rattle.std.specs.Prelude.{◌≡◌, ◌↔◌, IsTrue, ◌<◌, ◌+◌, ◌^◌, IfOk, OnOk, OnErr, length};
ghost use Rattle.type_tables.specs.Adding.{Adds};
ghost use Rattle.type_tables.specs.Declarations.{HasRoom, nothing, with_type, with_enum, with_struct, with_fields, with_field, with_service, with_method, with_files};
ghost use Rattle.type_tables.specs.Fields.{place_of};
ghost use Rattle.type_tables.specs.Known.{built_in, IsClosed};
ghost use Rattle.type_tables.specs.Names.{name_place};
ghost use Rattle.type_tables.specs.Roots.{named_place};
ghost use Rattle.type_tables.specs.Services.{methods_of};
ghost use Rattle.type_tables.specs.Structs.{fields_of};

use crate::closing;
use crate::declared::{
    AddFault, EnumId, FieldInfo, Form, MethodInfo, Need, ServiceId, StructId, Ty, TyId,
};
use crate::fields::FieldList;
use crate::schema::Schema;
use crate::tables::Tables;
use gate_base::{OutOfMemory, Text};
use std::alloc::Global;
use std::marker::Model;

/// A schema that is being built. A call that finds no memory, or a duplicate, leaves it as it was.
#[derive(Drop)]
pub struct SchemaBuilder {
    alloc: Global,
    tables: Tables,
}

impl Model for SchemaBuilder {
    ghost use Rattle.type_tables.specs.Declarations.{HasRoom, Declarations};
    ghost use Rattle.type_tables.specs.Known.{IsBuilt};

    ghost Value = { Declarations };

    ghost view = { λ b. b.tables };

    ghost invariant = { λ b. IsBuilt b.tables };
}

impl SchemaBuilder {
    /// A schema that has the built-in TApplicationException alone, as struct 0.
    pub fn new(alloc: Global) -> Result<SchemaBuilder, OutOfMemory>
        ensures { IfOk result (λ b. b ≡ built_in) }
    {
        let mut tables = Tables::new(alloc);
        declare_failure(alloc, &mut tables)?;
        Ok(SchemaBuilder { alloc, tables })
    }

    /// Adds a type that is a part of another.
    pub fn ty(&mut self, t: Ty) -> Result<TyId, OutOfMemory>
        requires { length self.old.types + 1 < 2 ^ 32 }
        ensures number { IfOk result (λ id. id.0 ≡ length self.old.types) }
        ensures ok { OnOk result (self.new ≡ with_type self.old t) }
        ensures err { OnErr result (self.new ≡ self.old) }
    {
        self.tables.add_type(t)
    }

    /// Adds a struct without fields, and tells the number that it takes.
    pub fn slot(&mut self, form: Form) -> Result<StructId, OutOfMemory>
        requires { length self.old.structs + 1 < 2 ^ 32 }
        ensures number { IfOk result (λ id. id.0 ≡ length self.old.structs) }
        ensures ok { OnOk result (self.new ≡ with_struct self.old form) }
        ensures err { OnErr result (self.new ≡ self.old) }
    {
        self.tables.add_struct(self.alloc, form)
    }

    /// Adds a struct with all its fields.
    pub fn add_struct(&mut self, form: Form, fields: FieldList) -> Result<StructId, OutOfMemory>
        requires { length self.old.structs + 1 < 2 ^ 32 }
        ensures number { IfOk result (λ id. id.0 ≡ length self.old.structs) }
        ensures ok { OnOk result (self.new ≡ with_fields self.old form fields) }
        ensures err { OnErr result (self.new ≡ self.old) }
    {
        self.tables.add_fields(form, fields)
    }

    /// Adds an enum with the numbers of its members.
    pub fn add_enum(&mut self, members: &[i32]) -> Result<EnumId, OutOfMemory>
        requires { length self.old.enums + 1 < 2 ^ 32 }
        ensures number { IfOk result (λ id. id.0 ≡ length self.old.enums) }
        ensures ok { OnOk result (self.new ≡ with_enum self.old members.now) }
        ensures err { OnErr result (self.new ≡ self.old) }
    {
        self.tables.add_enum(self.alloc, members)
    }

    /// Adds a service without methods, under the name that it has in the root file, if it has one: `Name` for one of the
    /// root file, `p.Name` for one of an included file.
    ///
    /// `Duplicate` tells the number of the service that has this name.
    pub fn add_service(
        &mut self,
        name: Option<Text>,
        base: Option<ServiceId>,
    ) -> Result<ServiceId, AddFault>
        requires { length self.old.services + 1 < 2 ^ 32 }
        ensures number { IfOk result (λ id. id.0 ≡ length self.old.services) }
        ensures adds { Adds (named_place name self.old.names) self.old self.new (λ s. with_service self.old name base) result }
    {
        self.tables.add_service(self.alloc, name, base)
    }

    /// Adds a field to a struct. `Duplicate` tells the place of the field that has this id.
    pub fn add_field(&mut self, s: StructId, f: FieldInfo) -> Result<(), AddFault>
        // The built-in struct is no one's to change.
        requires given { 0 < s.0 }
        requires known { s.0 < length self.old.structs }
        requires few { length (fields_of self.old.structs s.0) + 1 < 2 ^ 32 }
        ensures { Adds (place_of f.id (fields_of self.old.structs s.0)) self.old self.new (λ u. with_field self.old s.0 f) result }
    {
        self.tables.add_field(s, f)
    }

    /// Adds a method to a service. `Duplicate` tells the place of the method that has this name.
    pub fn add_method(&mut self, s: ServiceId, name: Text, m: MethodInfo) -> Result<(), AddFault>
        requires { s.0 < length self.old.services }
        ensures { Adds (name_place name (methods_of self.old.services s.0)) self.old self.new (λ u. with_method self.old s.0 name m) result }
    {
        self.tables.add_method(s, name, m)
    }

    /// Whether there is room for one more of each kind of things.
    pub fn has_room(&self) -> bool
        ensures types { IsTrue result → length self.now.types + 1 < 2 ^ 32 }
        ensures enums { IsTrue result → length self.now.enums + 1 < 2 ^ 32 }
        ensures structs { IsTrue result → length self.now.structs + 1 < 2 ^ 32 }
        ensures services { IsTrue result → length self.now.services + 1 < 2 ^ 32 }
        ensures full { HasRoom self.now → IsTrue result }
    {
        self.tables.has_room()
    }

    /// How many types are parts of others.
    pub fn type_count(&self) -> usize
        ensures { result ≡ length self.now.types }
    {
        self.tables.types.len()
    }

    /// How many structs there are, the built-in one with them.
    pub fn struct_count(&self) -> usize
        ensures { result ≡ length self.now.structs }
    {
        self.tables.structs.len()
    }

    /// Whether each number that was handed in is one of this schema's. Takes no memory.
    pub fn is_closed(&self) -> bool
        ensures { IsTrue result ↔ IsClosed self.now }
    {
        closing::is_closed(&self.tables)
    }

    /// The schema of so many files. Takes no memory.
    pub fn finish(self, files: u64) -> Schema
        requires { IsClosed self }
        ensures { result ≡ with_files self files }
    {
        Schema::of(self.tables, files)
    }
}

// Declares the built-in TApplicationException, where nothing is declared.
fn declare_failure(alloc: Global, tables: &mut Tables) -> Result<(), OutOfMemory>
    requires { tables.old ≡ nothing }
    ensures { OnOk result (tables.new ≡ built_in) }
{
    let failure = tables.add_struct(alloc, Form::Exception)?;
    let message = field(1, Text::new(alloc, b"message")?, Ty::Text);
    if tables.add_field(failure, message).is_err() {
        return Err(OutOfMemory);
    }
    let kind = field(2, Text::new(alloc, b"type")?, Ty::I32);
    if tables.add_field(failure, kind).is_err() {
        return Err(OutOfMemory);
    }
    Ok(())
}

fn field(id: i16, name: Text, ty: Ty) -> FieldInfo
    ensures { result ≡ record { id = id; name = name; ty = ty; need = Need.Default } }
{
    FieldInfo {
        id,
        name,
        ty,
        need: Need::Default,
    }
}
