//! A message that goes on in its own protocol: looked through item by item (elements of one length at once), and left as its bytes were copied.
//!
//! The body's bytes are copied at once, to the same places of the output. A walk through the frame finds each item spelled
//! as the protocol's writer spells it, so the copy is the translation. Only the kinds of an empty map may differ: they are
//! laid anew. What is spelled otherwise, or at fault, is left to the ways that write each item.
#![tactic(auto)]

mod body;
mod leaves;
mod message;
mod pairs;

pub use message::{lay_kept, lay_kept_declared, pass_kept};
