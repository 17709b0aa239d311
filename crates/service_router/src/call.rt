//! What a router keeps of an open call.
use session_core::Call;

/// An open call.
#[derive(Clone, Copy)]
pub struct OpenCall {
    /// What is kept of its method.
    pub call: Call,
    /// The target that it went to, from 0.
    pub target: usize,
}
