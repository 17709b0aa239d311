//! How far a way through a message has come.

/// The places behind what was taken: in the frame, and in the cells.
#[derive(Clone, Copy)]
pub struct Reach {
    pub read: usize,
    pub written: usize,
}
