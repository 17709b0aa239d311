//! The tokens of an IDL text, after the Apache Thrift IDL grammar: words, numbers, literals and marks, with blanks and
//! comments between. Each token is the longest that fits; it names the bytes of the text that it stands on, and copies none.
#![tactic(auto)]

mod lexing;
mod number;
mod piece;
mod run;
mod token;

pub use lexing::lex;
pub use token::{LexError, LexFault, LexReason, Token, TokenForm};
