//! Messages that are drawn from a number, for trying the gateway on: the same number always gives the same ones.
//!
//! Each is a call of the service that this IDL declares, with sequence numbers from 0:
//!
//! ```text
//! struct Item { 1: i64 id, 2: string name, 3: binary raw, 4: list<i32> marks, 5: map<string,bool> flags }
//! service Drill { void put(1: list<Item> items) }
//! ```
#![tactic(auto)]

mod draws;
mod drilling;
mod item;
mod making;
mod putting;
mod rooms;
mod sizes;
mod totals;

pub use drilling::{Drilled, drill};
pub use totals::Totals;
