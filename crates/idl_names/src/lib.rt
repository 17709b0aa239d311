//! What a name of an IDL means: the definition that it leads to, in its own file or in one that this file includes; what a
//! typedef stands for; and what the names of a file are refused for.
//!
//! Each file has three scopes, after the Apache Thrift IDL: types, constants and services. A name is looked up in the scope
//! of the place where it stands, and may be meant before it is declared. `look_up` needs no memory and walks over a file;
//! `Names` enters the names of all files once.
#![tactic(auto)]

mod cycles;
mod documents;
mod leading;
mod marking;
mod marks;
mod meaning;
mod names;
mod paths;
mod places;
mod refusals;
mod sources;
mod spot_set;
mod targets;

pub use cycles::{Cycle, Cycles};
pub use documents::{Documents, FileDoc, Spot};
pub use idl_rules::Scope;
pub use meaning::look_up;
pub use names::Names;
pub use paths::{base_name, last_place};
pub use refusals::check_names;
pub use targets::{Target, definition_at, resolve_type};
