//! The pairs of protocols, chosen in one place.
//!
//! A frame of one protocol is judged for another; which reader and which writer that takes is decided here and nowhere
//! else. `judged` is the verdict on a frame for two protocols, in the words of the readers' and writers' own rules.
#![tactic(auto)]

mod answers;
mod known_pairs;
mod methods;
mod pairs;

pub use answers::answer;
pub use known_pairs::{
    BinaryKept, BinaryToCompact, BinaryToJson, CompactKept, CompactToBinary, CompactToJson,
    DeclaredKept, DeclaredToBinary, JsonToBinary, JsonToCompact, Pair,
};
pub use methods::{served, translate_method};
pub use pairs::{translate, translate_by_events, translate_quickly};
