//! Whether the values of an IDL fit their types, after the Apache Thrift IDL: constants, and the presets of fields, of
//! arguments and of what is thrown.
//!
//! The course of a value is the names in it that stand for constants, up to the first thing that is refused. A name stands
//! for its constant's value, judged for the type at the name's place; names that lead on for ever are a cycle. Names are
//! followed in a loop, and what is found through a constant is kept, so that each is looked through once.
#![tactic(auto)]

mod check;
mod fitting;
mod follow;
mod keys;
mod knowing;
mod laws;
mod members;
mod pieces;
mod row;
mod same;
mod survey;
mod types;
mod view;

pub use check::check_documents;
pub use laws::one_answer;
pub use row::{ConstError, ConstFault, ConstRow};
