//! Thrift's kinds and events: the words that every protocol and the IDL share.
//!
//! No protocol is known here. A message's body, read or written one piece at a time, is a list of events. The trees
//! that they mean stand in specs/ alone, for the grammars and the laws; `value_trees` has them as values.
#![tactic(auto)]

mod event;
mod kind;

pub use event::Event;
pub use kind::{Kind, MessageType};
