//! The parser of an IDL text, after the Apache Thrift IDL grammar: from the text to its document, or to its first fault.
//!
//! The parser goes down the grammar with one token of look-ahead. What it sees of a text is a list: of each token its
//! offset, what it says to the grammar, and its word. Each part of the grammar is a scan of that list.
#![tactic(auto)]

mod definitions;
mod fault;
mod fields;
mod functions;
mod headers;
mod marks;
mod members;
mod names;
mod parsing;
mod skipped;
mod tokens;
mod types;
mod values;
mod words;

pub use fault::ParseError;
pub use parsing::parse;
