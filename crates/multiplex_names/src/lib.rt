//! A method's name with the name of its service before it, and the method that such a name means.
//!
//! After Apache Thrift's TMultiplexedProtocol: one connection serves several services, and a call names its service and
//! its method with a colon between them.
#![tactic(auto)]

mod looking;
mod parts;

pub use looking::find;
pub use parts::split;
