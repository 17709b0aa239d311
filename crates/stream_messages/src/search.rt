//! The search for the end of a message in the bytes of a stream that are held.
ghost use Rattle.std.specs.Prelude.{◌≡◌, ◌<◌, ◌+◌, ◌^◌, ℕ, List};
ghost use Rattle.stream_messages.specs.Searching.{Searches, Finds};

use crate::scan::{Cut, Scan, Wire};

/// What bytes of a stream begin with.
#[derive(Clone, Copy)]
pub enum Front {
    /// The beginning of a message, or nothing.
    Open,
    /// A message, of so many bytes.
    Message(usize),
    /// So many bytes with which no message begins, or which call at their end for a value that lies too deep.
    Refused(usize),
    /// As many bytes of one message as the limit allows.
    Over,
}

/// A scan of the message with which the bytes begin that are held, and how many of them it has read.
#[derive(Drop)]
pub struct Search {
    wire: Wire,
    limit: usize,
    scan: Scan,
    scanned: usize,
}

impl Search {
    /// Before the first byte of a message of at most `limit` bytes.
    pub fn start(wire: Wire, limit: usize) -> Search
        requires some { 0 < limit }
        ensures wire { (result.wire ≡ wire) × (result.limit ≡ limit) }
        ensures searches { (held : List ℕ) → Searches result held }
    {
        Search {
            wire,
            limit,
            scan: Scan::start(wire, limit),
            scanned: 0,
        }
    }

    /// Goes on in the bytes that are held, from those that were scanned. Behind the end of a message, or what ends the stream, it begins
    /// anew.
    pub fn go_on(&mut self, held: &[u8]) -> Front
        requires some { 0 < self.old.limit }
        requires searches { Searches self.old held.now }
        ensures finds { Finds self.old held.now result self.new }
    {
        match self.scan.feed(&held[self.scanned..]) {
            Cut::More => {
                self.scanned = held.len();
                Front::Open
            }
            Cut::Whole(more) => Front::Message(self.begin_behind(more)),
            Cut::Bad(more) => Front::Refused(self.begin_behind(more)),
            Cut::Over(_) => {
                self.restart();
                Front::Over
            }
        }
    }

    /// Begins anew behind the bytes that were scanned and so many more, and says how many these are.
    fn begin_behind(&mut self, more: usize) -> usize
        requires some { 0 < self.old.limit }
        requires fits { self.old.scanned + more < 2 ^ 64 }
        ensures count { result ≡ self.old.scanned + more }
        ensures wire { (self.new.wire ≡ self.old.wire) × (self.new.limit ≡ self.old.limit) }
        ensures searches { (held : List ℕ) → Searches self.new held }
    {
        let count = self.scanned + more;
        self.restart();
        count
    }

    /// Begins anew.
    pub fn restart(&mut self)
        requires some { 0 < self.old.limit }
        ensures wire { (self.new.wire ≡ self.old.wire) × (self.new.limit ≡ self.old.limit) }
        ensures searches { (held : List ℕ) → Searches self.new held }
    {
        self.scan.restart(self.wire, self.limit);
        self.scanned = 0;
    }
}
