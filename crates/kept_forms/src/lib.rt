//! What of a message that goes on in its own protocol stands there as the protocol's writer would lay it.
//!
//! By `FormKeep` a protocol's quick reader tells of the header and of each item whether its bytes are the very ones that the
//! writer would lay, so that they may be copied with all around them. The Binary protocol leaves no choice but in the header
//! and in an empty map; the Compact protocol leaves some, and only those bytes are looked at.
#![tactic(auto)]

mod binary;
mod compact;
mod keeping;
mod renewing;
mod shortest;

pub use keeping::FormKeep;
