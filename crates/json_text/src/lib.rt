//! The words of JSON texts: whitespace, integers, numbers, strings and base64 strings, over slices and without memory.
#![tactic(auto)]

mod blob;
mod blob_write;
mod escape;
mod int;
mod lay;
mod number;
mod places;
mod run;
mod scanned;
mod text;
mod write;

pub use blob::read_blob;
pub use blob_write::{lay_blob, write_blob};
pub use int::read_int;
pub use lay::{lay_int, lay_text, lay_utf8};
pub use number::read_number;
pub use places::{plain_int, plain_small_int, plain_text};
pub use run::skip_white;
pub use scanned::Scan;
pub use text::read_text;
pub use write::{write_int, write_text};
