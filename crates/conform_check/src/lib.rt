//! Whether a message meets what an IDL declares of it.
//!
//! A `Check` goes through a frame event by event, beside the reader, and keeps the first place where the message breaks its
//! declarations: a method, a field or a kind that isn't declared, a field twice, a required one that is missing, a union without
//! exactly one field, a number that is no member of its enum, a `string` that isn't UTF-8. A fault of the frame goes before all of
//! these. No tree is built, and no memory is taken behind `open`.
#![tactic(auto)]

mod breach;
mod check;
mod fields;
mod looking;
mod step;
mod texts;
mod trail;
mod values;

pub use breach::{Breach, Checked};
pub use check::Check;
pub use step::Step;
pub use texts::breach_text;
