//! Where typedefs of typedefs end. A typedef may be written as the name of another one; each such chain is walked once, so
//! that its end is found at once from then on, however long it is and however many names begin at it.
#![tactic(auto)]

mod typedefs;
mod walk;

pub use typedefs::{ResolvedAlias, Typedefs};
