//! The Compact protocol of Apache Thrift: a reader and a writer by the traits of `protocol_traits`.
//!
//! `CompactRead` turns a frame into a header and events and names each fault with its place, `CompactWrite` appends
//! their shortest spelling. Neither takes memory.
#![tactic(auto)]

mod forms;
mod numbers;
mod protocol;
mod read_forms;
mod reader;
mod scan;
mod values;
mod write_forms;
mod writer;

pub use forms::{id_from, lead_of};
pub use reader::CompactRead;
pub use scan::next_id;
pub use writer::{CompactWrite, short_step};
