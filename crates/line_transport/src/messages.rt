//! What has come of a stream of frames or of lines and is not taken yet.
ghost use Rattle.std.specs.Prelude.{◌≡◌, ◌+◌, ◌-◌, ◌^◌, ◌<◌, ◌≤◌, [], ◌++◌, ℕ, List, length, drop, IfOk, IfSome, Some};
ghost use Rattle.gate_base.specs.Causes.{Rose};
ghost use Rattle.line_transport.specs.Buffers.{Tells, TellsFrame, Receives, PassesOver, front_of};
ghost use Rattle.line_transport.specs.Cuts.{IsCut, at_end};
ghost use Rattle.line_transport.specs.Front.{Whole, Part, behind, whole_size};
ghost use Rattle.line_transport.specs.declared.transport.Transport.TheVariants.{Frames};

use crate::lines::LineBuf;
use crate::transport::{Excess, Next, Transport};
use framed_transport::{FrameBuf, Next as NextFrame, next_of};
use gate_base::OutOfMemory;
use gate_io::{Got, Source};
use std::alloc::Global;
use std::marker::Model;

/// The buffer of each kind.
#[derive(Drop)]
pub enum Kind {
    Frames(FrameBuf),
    Lines(LineBuf),
}

/// The bytes of a stream that have come and are not taken, at most a message of the limit with its length. Only `open`
/// takes memory.
#[derive(Drop)]
pub struct MessageBuf {
    kind: Kind,
}

/// Clauses see how messages stand on the stream, what is held, and the limit.
impl Model for MessageBuf {
    ghost use Rattle.line_transport.specs.Buffers.{Incoming, incoming};

    ghost Value = { Incoming };

    ghost view = { λ b. incoming b.kind };
}

impl MessageBuf {
    /// Nothing is held, and there is room for a message of `limit` bytes and four more. The limit must be below 2^31.
    ///
    /// `OutOfMemory`: the room was not found.
    pub fn open(
        alloc: Global,
        transport: Transport,
        limit: usize,
    ) -> Result<MessageBuf, OutOfMemory>
        requires { limit < 2 ^ 31 }
        ensures { IfOk result (λ buffer. buffer ≡ record { transport = transport; held = []; limit = limit }) }
    {
        let kind = match transport {
            Transport::Frames => Kind::Frames(FrameBuf::open(alloc, limit)?),
            Transport::Lines => Kind::Lines(LineBuf::open(alloc, limit)?),
        };
        Ok(MessageBuf { kind })
    }

    /// How many bytes are held.
    pub fn held(&self) -> usize
        ensures count { result ≡ length self.now.held }
        ensures within { result ≤ self.now.limit + 4 }
    {
        match &self.kind {
            Kind::Frames(frames) => frames.held(),
            Kind::Lines(lines) => lines.held(),
        }
    }

    /// Reads once from a source into the room that is left, at most `most` bytes. Both must be some.
    ///
    /// The answer is the source's. At `Bytes(n)` its n bytes are held too, else no more than before.
    pub fn read_from<I: Source>(&mut self, input: &mut I, most: usize) -> Got
        requires room { length self.old.held < self.old.limit + 4 }
        requires most { 0 < most }
        ensures bytes { Receives (I.left input.old) (I.left input.new) self.old self.new most result }
        ensures later { I.faults input.old ≤ I.faults input.new }
        ensures cause { result ≡ Got.Failed → Rose (I.faults input.old) (I.faults input.new) }
    {
        match &mut self.kind {
            Kind::Frames(frames) => frames.read_from(input, most),
            Kind::Lines(lines) => lines.read_from(input, most),
        }
    }

    /// Lets what is passed over go where it stands at the front: blank lines.
    #[inline(always)]
    pub fn pass_over(&mut self)
        ensures { PassesOver self.old self.new }
    {
        match &mut self.kind {
            Kind::Frames(_) => (),
            Kind::Lines(lines) => lines.pass_over(),
        }
    }

    /// What stands at the front.
    ///
    /// `Exceeds`: a frame's length is negative or above the limit, or a line is longer. `NeedMore`: it isn't so, and no whole
    /// message is held.
    #[inline]
    pub fn message(&self) -> Next<'_>
        ensures exact { Tells result (front_of self.now) }
        ensures cut { (message rest : List ℕ) → front_of self.now ≡ Whole message rest → IsCut self.now.transport self.now.limit self.now.held message rest }
        ensures room { front_of self.now ≡ Part → length self.now.held < self.now.limit + 4 }
    {
        match &self.kind {
            Kind::Frames(frames) => of_frame(frames.frame()),
            Kind::Lines(lines) => lines.line(),
        }
    }

    /// Lets the message at the front go, which must be a whole one of `size` bytes, as `message` told it. Its length isn't read
    /// and its LF not searched for again.
    #[inline]
    pub fn drop_whole(&mut self, size: usize)
        requires { whole_size (front_of self.old) ≡ Some size }
        ensures { self.new ≡ record self.old { held = behind self.old.held (front_of self.old) } }
    {
        match &mut self.kind {
            Kind::Frames(frames) => frames.drop_whole(size),
            Kind::Lines(lines) => lines.drop_whole(size),
        }
    }

    /// The bytes that are held, where they are frames.
    #[inline]
    pub fn frames(&self) -> Option<&[u8]>
        ensures held { IfSome result (λ held. held.now ≡ self.now.held) }
        ensures frames { IfSome result (λ held. self.now.transport ≡ Frames) }
    {
        match &self.kind {
            Kind::Frames(frames) => Some(frames.bytes()),
            Kind::Lines(_) => None,
        }
    }

    /// Lets the first bytes go, so many as there must be, where they are frames.
    #[inline]
    pub fn drop_frames(&mut self, count: usize)
        requires frames { self.old.transport ≡ Frames }
        requires within { count ≤ length self.old.held }
        ensures { self.new ≡ record self.old { held = drop count self.old.held } }
    {
        match &mut self.kind {
            Kind::Frames(frames) => frames.let_go(count),
            Kind::Lines(_) => (),
        }
    }

    /// The input is at its end: an LF stands for the one that the last line lacks, for which there must be room.
    pub fn end(&mut self)
        requires { length self.old.held < self.old.limit + 4 }
        ensures { self.new ≡ record self.old { held = at_end self.old.transport self.old.held } }
    {
        match &mut self.kind {
            Kind::Frames(_) => (),
            Kind::Lines(lines) => lines.end(),
        }
    }
}

/// The whole frame at the front of some bytes, without its length. None: no whole frame within the limit stands there.
#[inline(always)]
pub fn whole_frame(held: &[u8], limit: usize) -> Option<&[u8]>
    requires { limit < 2 ^ 31 }
    ensures cut { IfSome result (λ frame. IsCut Frames limit held.now frame.now (drop (4 + length frame.now) held.now)) }
{
    match next_of(held, limit) {
        NextFrame::Frame(frame) => Some(frame),
        NextFrame::NeedMore => None,
        NextFrame::TooLarge(_) => None,
    }
}

// A frame as a message.
fn of_frame(next: NextFrame<'_>) -> Next<'_>
    ensures { TellsFrame next.entry result }
{
    match next {
        NextFrame::Frame(frame) => Next::Message(frame),
        NextFrame::NeedMore => Next::NeedMore,
        NextFrame::TooLarge(length) => Next::Exceeds(Excess::Length(length)),
    }
}
