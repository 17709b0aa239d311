//! An IDL from its root file: all files that it leads to, the first refusal of what they declare, and the schema of what
//! they mean.
//!
//! The files are read first, and the first refusal of that walk is told. Then they are asked in the order in which they were
//! first fetched, and of the first one that declares what it may not the refusal with the least offset is told.
#![tactic(auto)]

mod loading;
mod resolving;

pub use idl_files::LoadError;
pub use idl_names::{Documents, FileDoc, Scope, Spot, look_up};
pub use idl_rules::{IdlFault, IdlRow};
pub use loading::{Loaded, load};
