//! The document of an IDL text: its declarations in order, with the offset of each name, type, id and value.
//!
//! The parser makes documents, and all other crates of the IDL only read them. Contracts see a document as a tree,
//! without where its parts lie in memory.
#![tactic(auto)]

mod document;
mod seq;
mod value;

pub use document::{
    Asked, BaseWord, Definition, Document, FieldDecl, Function, Kin, Member, Name, TypeExpr,
    TypeForm,
};
pub use seq::Seq;
pub use value::{Pair, PairList, ValueExpr, ValueForm, ValueList};
