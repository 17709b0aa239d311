//! The bytes of the gateway: where they come from and where they go, files, and a buffer whose room
//! is taken once.
//!
//! Each object of the outside counts its faults, and a call answers that it failed only where its
//! count rose. A source tells the bytes that are left, a sink those that were written, and files
//! those of each name, where they can: the objects in memory do, and the real ones tell nothing.
#![tactic(auto)]

mod buffer;
mod byte_streams;
mod disk;
mod files;
mod std_streams;
mod writing;

pub use buffer::Out;
pub use byte_streams::{Got, Put, Sink, Source};
pub use disk::DiskFiles;
pub use files::{Fetched, Files};
pub use std_streams::{StdSink, StdSource};
pub use writing::{Wrote, flush, write_all};
