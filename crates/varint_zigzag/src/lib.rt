//! Variable-length numbers of seven bits a byte, the low ones first, and signed numbers folded onto unsigned ones, as
//! the Compact protocol of Apache Thrift spells its integers.
#![tactic(auto)]

mod cells;
mod fault;
mod laws;
mod places;
mod reading;
mod standing;
mod writing;
mod zigzag;

pub use cells::{put_size, put_u32, put_u64};
pub use fault::VarFault;
pub use laws::{folded_and_back, one_front, shortest_is_least};
pub use places::{read_size_at, read_u16_at, read_u32_at, read_u64_at};
pub use reading::{read_u16, read_u32, read_u64};
pub use standing::{shortest_u16_at, shortest_u32_at, shortest_u64_at};
pub use writing::{write_u32, write_u64};
pub use zigzag::{unzigzag32, unzigzag64, zigzag32, zigzag64};
