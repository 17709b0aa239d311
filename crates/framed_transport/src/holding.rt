//! What has come of a stream and is not taken yet.
ghost use Rattle.std.specs.Prelude.{◌≡◌, ◌+◌, ◌-◌, ◌^◌, ◌<◌, ◌≤◌, [], ◌++◌, ℕ, List, length, take, drop, min, IfOk, Some};
ghost use Rattle.gate_base.specs.Causes.{Rose};
ghost use Rattle.framed_transport.specs.Frames.{IsCut};
ghost use Rattle.framed_transport.specs.Front.{front, behind, whole_size, Part, Whole};
ghost use Rattle.framed_transport.specs.Next.{Tells};
ghost use Rattle.framed_transport.specs.Held.{Receives};

use gate_base::OutOfMemory;
use gate_io::{Got, Out, Source};
use std::alloc::Global;
use std::marker::Model;

/// A frame's length takes so many bytes.
const LENGTH: usize = 4;

/// What stands at the front of the bytes that are held.
#[derive(Clone, Copy)]
pub enum Next<'a> {
    /// A whole frame, without its length.
    Frame(&'a [u8]),
    /// Less than a whole frame.
    NeedMore,
    /// A length that is negative or above the limit.
    TooLarge(i32),
}

/// The bytes of a stream that have come and are not taken, at most a frame of the limit with its
/// length. Only `open` takes memory.
#[derive(Drop)]
pub struct FrameBuf {
    bytes: Out,
    limit: usize,
}

impl Model for FrameBuf {
    ghost use Rattle.std.specs.Prelude.{◌≡◌, ◌<◌, ◌+◌, ◌^◌};
    ghost use Rattle.framed_transport.specs.Held.{Held};

    ghost Value = { Held };

    ghost view = { λ b. record { held = b.bytes.bytes; limit = b.limit } };

    ghost invariant = { λ b. (b.bytes.room ≡ b.limit + 4) × (b.limit < 2 ^ 31) };
}

impl FrameBuf {
    /// Nothing is held, and there is room for a frame of `limit` bytes with its length. The limit
    /// must be below 2^31.
    ///
    /// `OutOfMemory`: the room was not found.
    pub fn open(alloc: Global, limit: usize) -> Result<FrameBuf, OutOfMemory>
        requires { limit < 2 ^ 31 }
        ensures { IfOk result (λ buffer. buffer ≡ record { held = []; limit = limit }) }
    {
        Ok(FrameBuf {
            bytes: Out::open(alloc, limit + LENGTH)?,
            limit,
        })
    }

    /// How many bytes are held.
    pub fn held(&self) -> usize
        ensures count { result ≡ length self.now.held }
        ensures within { result ≤ self.now.limit + 4 }
    {
        self.bytes.bytes().len()
    }

    /// The bytes that are held.
    #[inline(always)]
    pub fn bytes(&self) -> &[u8]
        ensures { result.now ≡ self.now.held }
    {
        self.bytes.bytes()
    }

    /// How many more bytes can be held.
    pub fn room(&self) -> usize
        ensures room { result + length self.now.held ≡ self.now.limit + 4 }
    {
        self.bytes.spare()
    }

    /// Takes as many of the bytes as there is room for, and says how many.
    pub fn feed(&mut self, bytes: &[u8]) -> usize
        ensures count { result ≡ min (length bytes.now) (self.old.limit + 4 - length self.old.held) }
        ensures held { self.new ≡ record self.old { held = self.old.held ++ take result bytes.now } }
    {
        let count = bytes.len().min(self.bytes.spare());
        self.bytes.push(&bytes[..count]);
        count
    }

    /// Reads once from a source into the room that is left, at most `most` bytes. Both must be some.
    ///
    /// The answer is the source's. At `Bytes(n)` its n bytes are held too, else no more than before.
    pub fn read_from<I: Source>(&mut self, input: &mut I, most: usize) -> Got
        requires room { length self.old.held < self.old.limit + 4 }
        requires most { 0 < most }
        ensures bytes { Receives (I.left input.old) (I.left input.new) self.old self.new most result }
        ensures later { I.faults input.old ≤ I.faults input.new }
        ensures cause { result ≡ Got.Failed → Rose (I.faults input.old) (I.faults input.new) }
    {
        self.bytes.read_from(input, most)
    }

    /// What stands at the front.
    ///
    /// `TooLarge(n)`: four bytes are held, and the length n that they spell is negative or above the
    /// limit. `NeedMore`: it isn't so, and no whole frame is held.
    pub fn frame(&self) -> Next<'_>
        ensures exact { Tells result (front self.now.limit self.now.held) }
        ensures cut { (frame rest : List ℕ) → front self.now.limit self.now.held ≡ Whole frame rest → IsCut self.now.limit self.now.held frame rest }
        ensures room { front self.now.limit self.now.held ≡ Part → length self.now.held < self.now.limit + 4 }
    {
        next_of(self.bytes.bytes(), self.limit)
    }

    /// Lets the frame at the front go, which must be a whole one of `size` bytes, as `frame` told it.
    #[inline]
    pub fn drop_whole(&mut self, size: usize)
        requires { whole_size (front self.old.limit self.old.held) ≡ Some size }
        ensures { self.new ≡ record self.old { held = behind self.old.held (front self.old.limit self.old.held) } }
    {
        self.bytes.drop_front(size + LENGTH);
    }

    /// Lets the first bytes go, so many as there must be.
    #[inline]
    pub fn let_go(&mut self, count: usize)
        requires { count ≤ length self.old.held }
        ensures { self.new ≡ record self.old { held = drop count self.old.held } }
    {
        self.bytes.drop_front(count);
    }

    /// Lets the frame at the front go. Where none stands there, nothing changes.
    pub fn drop_frame(&mut self)
        ensures { self.new ≡ record self.old { held = behind self.old.held (front self.old.limit self.old.held) } }
    {
        if let Next::Frame(frame) = self.frame() {
            let size = frame.len();
            self.drop_whole(size);
        }
    }
}

/// What stands at the front of some bytes, as a buffer with this limit tells it of those that it holds.
#[inline(always)]
#[tactic(auto, unfolding(crate::specs::Front::front))]
pub fn next_of(held: &[u8], limit: usize) -> Next<'_>
    requires { limit < 2 ^ 31 }
    ensures exact { Tells result (front limit held.now) }
    ensures cut { (frame rest : List ℕ) → front limit held.now ≡ Whole frame rest → IsCut limit held.now frame rest }
{
    let Some((four, rest)) = held.split_first_chunk::<4>() else {
        return Next::NeedMore;
    };
    let length = u32::from_be_bytes(*four);
    if length as usize > limit {
        return Next::TooLarge(length.cast_signed());
    }
    if rest.len() < length as usize {
        return Next::NeedMore;
    }
    Next::Frame(&rest[..length as usize])
}
