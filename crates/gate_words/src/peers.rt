//! How the peers of a server send their messages.
ghost use Rattle.std.specs.Prelude.{◌≡◌};
ghost use Rattle.gate_words.specs.Peers.{sides_of, front_of, has_client, has_upstream};

/// Sides of a server.
#[derive(Clone, Copy)]
pub enum Sides {
    Client,
    Upstream,
    Both,
}

impl Sides {
    /// Whether the client's side is one of them.
    pub fn has_client(self) -> bool
        ensures { result ≡ has_client self }
    {
        matches!(self, Sides::Client | Sides::Both)
    }

    /// Whether the upstream's side is one of them.
    pub fn has_upstream(self) -> bool
        ensures { result ≡ has_upstream self }
    {
        matches!(self, Sides::Upstream | Sides::Both)
    }
}

/// What the clients of a server wrap each message in: a frame, or the body of an HTTP request.
#[derive(Clone, Copy)]
pub enum Front {
    Framed,
    Http,
}

/// The sides that a word names.
#[tactic(auto, unfolding(crate::specs::Peers::sides_of))]
pub fn read_sides(word: &[u8]) -> Option<Sides>
    ensures { result ≡ sides_of word.now }
{
    if word == b"client".as_slice() {
        Some(Sides::Client)
    } else if word == b"upstream".as_slice() {
        Some(Sides::Upstream)
    } else if word == b"both".as_slice() {
        Some(Sides::Both)
    } else {
        None
    }
}

/// The front that a word names.
#[tactic(auto, unfolding(crate::specs::Peers::front_of))]
pub fn read_front(word: &[u8]) -> Option<Front>
    ensures { result ≡ front_of word.now }
{
    if word == b"http".as_slice() {
        Some(Front::Http)
    } else if word == b"framed".as_slice() {
        Some(Front::Framed)
    } else {
        None
    }
}
