//! What comes next at a session's front.

/// What comes next at a session's front.
#[derive(Clone, Copy)]
pub(crate) enum Stage {
    /// The head of a request, of which the beginning is held, if anything.
    Head,
    /// The body of a request whose head was let go: so many bytes, and so many of its frame were handed out. `last`: the
    /// connection ends behind its response.
    Body {
        size: usize,
        given: usize,
        last: bool,
    },
    /// The length of the answer, of which so many bytes were written.
    Answer {
        length: [u8; 4],
        have: usize,
        last: bool,
    },
    /// The content of an answer of so many bytes, of which none was written. So many bytes of the response's head were sent.
    Response {
        size: u32,
        sent: usize,
        last: bool,
    },
    /// So many more bytes of an answer. The response's head was sent.
    Content {
        left: usize,
        last: bool,
    },
    /// A response without content, of which so many bytes were sent.
    Empty {
        sent: usize,
        last: bool,
    },
    /// Nothing: the body ends the session.
    Missing,
    /// The mark behind a bad request, of which so many bytes were handed out.
    Mark {
        given: usize,
    },
    /// The byte that tells an end inside a request.
    Early,
    /// The end.
    Over,
}
