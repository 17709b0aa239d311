//! Messages that follow one another without lengths, as buffered transports of Apache Thrift send them: where each of them ends.
//!
//! A `Scan` goes through a message byte by byte, and in the Binary protocol over a header or a field at once where it is there
//! whole. Of what it has read it keeps which values are open, of which kind the next one is, and how far the item has come that the
//! last piece ended in.
#![tactic(auto)]

mod binary;
mod codes;
mod compact;
mod fields;
mod framer;
mod gathering;
mod hub;
mod lane;
mod lanes;
mod laws;
mod levels;
mod parts;
mod scan;
mod search;
mod slots;
mod stripper;

pub use hub::UnframedHub;
pub use laws::a_stream_is_cut;
pub use scan::{Cut, Scan, Wire};
