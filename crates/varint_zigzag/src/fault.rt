//! Why no number was read.

/// Why no number was read.
#[derive(Clone, Copy, Debug, PartialEq, Eq)]
pub enum VarFault {
    /// The bytes end inside what can still become a number.
    Short,
    /// However the bytes go on, no front of them is a number.
    Bad,
}
