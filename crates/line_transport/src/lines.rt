//! What has come of a stream of lines and is not taken yet.
ghost use Rattle.std.specs.Prelude.{◌≡◌, ◌+◌, ◌-◌, ◌^◌, ◌<◌, ◌≤◌, [], ◌∷◌, ◌++◌, ℕ, List, length, slice_index, true, IfOk, Some};
ghost use Rattle.gate_base.specs.Causes.{Rose};
ghost use Rattle.framed_transport.specs.Held.{Held, Receives};
ghost use Rattle.line_transport.specs.Buffers.{Tells, PassesBlank};
ghost use Rattle.line_transport.specs.Front.{line_front, behind, whole_size, is_blank_front};
ghost use Rattle.line_transport.specs.Lines.{line_length, ended, is_blank};

use crate::transport::{Excess, Next};
use gate_base::OutOfMemory;
use gate_io::{Got, Out, Source};
use json_text::skip_white;
use memchr::memchr;
use std::alloc::Global;
use std::marker::Model;

/// A line has the room of a frame: so many bytes more than the limit.
const LENGTH: usize = 4;

/// The length of the LF behind a line.
const FEED: usize = 1;

/// The bytes of a stream that have come and are not taken, at most a line of the limit and four bytes. Only `open` takes
/// memory. No byte is searched for an LF twice.
#[derive(Drop)]
pub struct LineBuf {
    bytes: Out,
    limit: usize,
    /// Among so many bytes at the front there is no LF.
    searched: usize,
}

impl Model for LineBuf {
    ghost use Rattle.std.specs.Prelude.{◌≡◌, ◌<◌, ◌≤◌, ◌+◌, ◌^◌};
    ghost use Rattle.framed_transport.specs.Held.{Held};
    ghost use Rattle.line_transport.specs.Lines.{line_length};

    ghost Value = { Held };

    ghost view = { λ b. record { held = b.bytes.bytes; limit = b.limit } };

    ghost invariant = { λ b. (b.bytes.room ≡ b.limit + 4) × (b.limit < 2 ^ 31) × (b.searched ≤ line_length b.bytes.bytes) };
}

impl LineBuf {
    /// Nothing is held, and there is room for a line of `limit` bytes and four more. The limit must be below 2^31.
    ///
    /// `OutOfMemory`: the room was not found.
    pub fn open(alloc: Global, limit: usize) -> Result<LineBuf, OutOfMemory>
        requires { limit < 2 ^ 31 }
        ensures { IfOk result (λ buffer. buffer ≡ record { held = []; limit = limit }) }
    {
        Ok(LineBuf {
            bytes: Out::open(alloc, limit + LENGTH)?,
            limit,
            searched: 0,
        })
    }

    /// How many bytes are held.
    pub fn held(&self) -> usize
        ensures count { result ≡ length self.now.held }
        ensures within { result ≤ self.now.limit + 4 }
    {
        self.bytes.bytes().len()
    }

    /// Reads once from a source into the room that is left, at most `most` bytes. Both must be some.
    ///
    /// The answer is the source's. At `Bytes(n)` its n bytes are held too, else no more than before.
    #[tactic(auto, using(crate::proofs::Searching::searched_on))]
    pub fn read_from<I: Source>(&mut self, input: &mut I, most: usize) -> Got
        requires room { length self.old.held < self.old.limit + 4 }
        requires most { 0 < most }
        ensures bytes { Receives (I.left input.old) (I.left input.new) self.old self.new most result }
        ensures later { I.faults input.old ≤ I.faults input.new }
        ensures cause { result ≡ Got.Failed → Rose (I.faults input.old) (I.faults input.new) }
    {
        self.bytes.read_from(input, most)
    }

    /// What stands at the front.
    ///
    /// `Exceeds`: more bytes than the limit are held, and no LF is among the first of them. `NeedMore`: it isn't so, and no
    /// LF is held.
    pub fn line(&self) -> Next<'_>
        ensures exact { Tells result (line_front self.now.limit self.now.held) }
    {
        next_of(self.bytes.bytes(), self.searched, self.limit)
    }

    /// Lets the line at the front go with its LF, which must be a whole one of `size` bytes, as `line` told it.
    pub fn drop_whole(&mut self, size: usize)
        requires { whole_size (line_front self.old.limit self.old.held) ≡ Some size }
        ensures { self.new ≡ record self.old { held = behind self.old.held (line_front self.old.limit self.old.held) } }
    {
        self.bytes.drop_front(size + FEED);
        self.searched = 0;
    }

    // The same where a line may stand. Where none does, nothing changes.
    fn drop_line(&mut self)
        ensures { self.new ≡ record self.old { held = behind self.old.held (line_front self.old.limit self.old.held) } }
    {
        if let Next::Message(line) = self.line() {
            let size = line.len();
            self.drop_whole(size);
        }
    }

    /// Lets the blank lines at the front go.
    pub fn pass_over(&mut self)
        ensures { PassesBlank self.old self.new }
    {
        'lines: while self.finds_blank() {
            self.drop_line();
        }
    }

    // Searches for the first LF, and says whether what stands before it is blank.
    fn finds_blank(&mut self) -> bool
        ensures same { self.new ≡ self.old }
        ensures found { result ≡ is_blank_front (line_front self.old.limit self.old.held) }
    {
        self.searched = length_from(self.bytes.bytes(), self.searched);
        match self.line() {
            Next::Message(line) => is_blank(line),
            Next::NeedMore => false,
            Next::Exceeds(_) => false,
        }
    }

    /// Appends an LF, for which there must be room.
    pub fn end(&mut self)
        requires { length self.old.held < self.old.limit + 4 }
        ensures { self.new ≡ record self.old { held = ended self.old.held } }
    {
        self.bytes.push_byte(b'\n');
    }
}

// Whether a line is nothing but whitespace.
#[tactic(auto, unfolding(crate::specs::Lines::is_blank))]
fn is_blank(line: &[u8]) -> bool
    ensures { result ≡ is_blank line.now }
{
    skip_white(line, 0) == line.len()
}

// What stands at the front of some bytes, of which so many have no LF.
fn next_of(held: &[u8], searched: usize, limit: usize) -> Next<'_>
    requires { searched ≤ line_length held.now }
    ensures exact { Tells result (line_front limit held.now) }
{
    let length = length_from(held, searched);
    if length > limit {
        return Next::Exceeds(Excess::Line);
    }
    if length == held.len() {
        return Next::NeedMore;
    }
    Next::Message(&held[..length])
}

// Whether an LF stands at a place.
fn is_feed_at(held: &[u8], at: usize) -> bool
    ensures within { result ≡ true → at < length held.now }
    ensures feed { result ≡ true → slice_index held.now at ≡ 10 }
{
    at < held.len() && held[at] == b'\n'
}

// How many bytes stand before the first LF, or how many there are, where so many are known to have none.
#[tactic(auto, using(crate::proofs::Searching::searched_within))]
fn length_from(held: &[u8], searched: usize) -> usize
    requires { searched ≤ line_length held.now }
    ensures value { result ≡ line_length held.now }
    ensures within { result ≤ length held.now }
{
    if is_feed_at(held, searched) {
        return searched;
    }
    match memchr(b'\n', &held[searched..]) {
        Some(more) => searched + more,
        None => held.len(),
    }
}
