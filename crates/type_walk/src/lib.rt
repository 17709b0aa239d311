//! What an IDL declares of each place in a message's body.
//!
//! A `Walk` follows the events of a body and knows the declared type of the value that stands next: so a string of JSON
//! is read as text or as base64, and an empty map is written with the kinds that are declared. A type is known as long
//! as each step down from the body had the kind that is declared there. No memory is taken. Who goes through a body by a call
//! for each struct and container needs no walk: a `Level` is what is declared inside one, and `in_struct` and its like lead
//! there.
#![tactic(auto)]

mod levels;
mod open;
mod types;
mod undeclared;
mod walk;
mod walking;

pub use levels::Level;
pub use types::{
    called_for, declared_in, declared_type, has_kind, hint_at, in_list, in_map, in_set, in_struct,
    mark_at,
};
pub use undeclared::Undeclared;
pub use walk::Walk;
pub use walking::Walking;
