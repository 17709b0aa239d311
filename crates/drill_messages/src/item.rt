//! The items that a message puts.
ghost use Rattle.std.specs.Str.{IsAscii};

use crate::sizes::{MOST_FLAGS, MOST_LETTERS, MOST_MARKS, MOST_RAW};
use arrayvec::ArrayVec;

/// An `Item` of the IDL. Its flags have the keys `a`, `b` and `c`, in this order.
#[derive(Drop)]
pub struct Item {
    pub id: i64,
    pub name: ArrayVec<u8, MOST_LETTERS>,
    pub raw: ArrayVec<u8, MOST_RAW>,
    /// Numbers that mean nothing: they fill a list.
    pub marks: ArrayVec<i32, MOST_MARKS>,
    pub flags: ArrayVec<bool, MOST_FLAGS>,
    pub ghost text: { IsAscii name.items },
}

impl Default for Item {
    fn default() -> Self {
        Item {
            id: 0,
            name: ArrayVec::new(),
            raw: ArrayVec::new(),
            marks: ArrayVec::new(),
            flags: ArrayVec::new(),
        }
    }
}
