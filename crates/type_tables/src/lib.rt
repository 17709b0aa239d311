//! What an IDL declares, in tables: types, enums, structs with their fields and services with their methods.
//! A `SchemaBuilder` takes the declarations one by one, and a `Schema` answers the look-ups of those who read and write
//! messages. Contracts see a schema as its lists of declarations, and each look-up answers by these lists.
#![tactic(auto)]

mod builder;
mod closing;
mod declared;
mod fields;
mod members;
mod names;
mod roots;
mod schema;
mod services;
mod tables;

pub use builder::SchemaBuilder;
pub use declared::{
    AddFault, Counts, EnumId, FieldInfo, Form, MethodInfo, Need, ServiceId, StructId, Ty, TyId,
};
pub use fields::FieldList;
pub use schema::Schema;
