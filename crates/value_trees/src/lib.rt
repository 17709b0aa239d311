//! Values as trees, the events that they are told by, and the body that is gathered from events.
//!
//! Tests and laws speak of them. The program goes from event to event, and holds no tree.
#![tactic(auto)]

mod depth;
mod events;
mod gathering;
mod laws;
mod level;
mod value;

pub use events::events_of;
pub use gathering::{GatherFault, gather};
pub use laws::{
    a_body_is_gathered, what_is_gathered_is_a_body, what_is_not_refused_begins_a_body,
    what_is_refused_begins_no_body,
};
pub use value::{Blob, Field, Fields, Items, Message, Pairs, Value};
