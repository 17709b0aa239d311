//! The files of an IDL: the root file and all that it includes, each fetched, read and parsed once, at its first mention.
//!
//! The walk goes depth first, and its first refusal is told: a text that is no document, a file that is missing, one that
//! includes itself in the end, or more than 256 files.
#![tactic(auto)]

mod fault;
mod list;
mod mentions;
mod names;
mod segments;
mod walk;

pub use fault::LoadError;
pub use walk::read_files;
