//! What a protocol is to the gateway: a reader that turns a frame into events and names each fault with its place, and
//! a writer that turns events into bytes.
//!
//! The rules of a reader stand in `ReadRules`, which has no code: what each call answers and the reader after it. Code
//! that is generic over readers and writers is proved from these rules and their laws alone.
#![tactic(auto)]

mod fault;
mod following;
mod form_traits;
mod forms;
mod nest;
mod proto;
mod traits;

pub use fault::{Bar, Fault, Reason, fault_at};
pub use following::{follow, follow_in};
pub use form_traits::{FormRead, FormWrite, UUID, WIDE};
pub use forms::{Container, Decoded, Lead, Opening, Pairs, Span, Stand};
pub use nest::{DEPTH, Nest, Slot};
pub use proto::{Head, Hint, Mark, Proto};
pub use traits::{ReadRules, WireRead, WireWrite};
