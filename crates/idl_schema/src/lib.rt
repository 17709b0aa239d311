//! The schema of the files of an IDL: their structs, enums, services and types in tables, with the numbers that they take
//! file by file and in the order of the text.
//!
//! A typedef stands for what it leads to. A type that is a part of another takes a number where it stands in the text, so
//! what a typedef leads to is entered once, however often it is named.
#![tactic(auto)]

mod fault;
mod fields;
mod index;
mod laws;
mod making;
mod methods;
mod numbers;
mod parts;
mod types;

pub use fault::NoSchema;
pub use laws::typedefs_are_followed;
pub use making::schema_by;
