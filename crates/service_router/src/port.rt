//! What a router holds of one port.
ghost use Rattle.std.specs.Prelude.{◌≡◌, ◌+◌, ◌-◌, ◌^◌, ◌<◌, ◌≤◌, length, take, min, ℕ, List, IfOk};
ghost use Rattle.framed_transport.specs.Frames.{IsCut};
ghost use Rattle.framed_transport.specs.Front.{front, is_part, Whole};
ghost use Rattle.framed_transport.specs.Next.{Tells};
ghost use Rattle.session_core.specs.Working.{ends_step};
ghost use Rattle.service_router.specs.Standing.{silent};
ghost use Rattle.service_router.specs.Steps.{holds_frame};
ghost use Rattle.service_router.specs.Inboxes.{fed, ended, without_frame};

use framed_transport::{FrameBuf, Next};
use gate_base::OutOfMemory;
use session_core::{Halt, SessionStep};
use std::alloc::Global;
use std::marker::Model;

/// The bytes of one port that came and aren't taken.
#[derive(Drop)]
pub struct Port {
    frames: FrameBuf,
    ended: bool,
    /// How many of its frames were taken.
    taken: u64,
}

impl Model for Port {
    ghost use Rattle.service_router.specs.Standing.{Inbox};

    ghost Value = { Inbox };

    ghost view = { λ p. record { limit = p.frames.limit; held = p.frames.held; ended = p.ended; taken = p.taken } };
}

impl Port {
    /// Nothing is held. Want of memory is the one error.
    pub fn open(alloc: Global, limit: usize) -> Result<Port, OutOfMemory>
        requires { limit < 2 ^ 31 }
        ensures { IfOk result (λ p. p ≡ silent limit) }
    {
        Ok(Port {
            frames: FrameBuf::open(alloc, limit)?,
            ended: false,
            taken: 0,
        })
    }

    /// What stands at the front.
    pub fn frame(&self) -> Next<'_>
        ensures exact { Tells result (front self.now.limit self.now.held) }
        ensures cut { (frame rest : List ℕ) → front self.now.limit self.now.held ≡ Whole frame rest → IsCut self.now.limit self.now.held frame rest }
    {
        self.frames.frame()
    }

    /// Whether the port ends while a call to it is the oldest.
    pub fn ends(&self) -> SessionStep
        ensures { result ≡ ends_step (is_part (front self.now.limit self.now.held)) self.now.ended }
    {
        match self.frames.frame() {
            Next::NeedMore if self.ended => SessionStep::Halts(Halt::Inside),
            _ => SessionStep::Waits,
        }
    }

    /// Whether more than a part of a frame is held.
    pub fn holds_frame(&self) -> bool
        ensures { result ≡ holds_frame self.now }
    {
        !matches!(self.frames.frame(), Next::NeedMore)
    }

    /// Takes as many of these bytes as there is room for, and says how many.
    pub fn feed(&mut self, bytes: &[u8]) -> usize
        ensures count { result ≡ min (length bytes.now) (self.old.limit + 4 - length self.old.held) }
        ensures fed { self.new ≡ fed self.old (take result bytes.now) }
    {
        self.frames.feed(bytes)
    }

    /// Lets its front frame go, and counts it.
    pub fn take_frame(&mut self)
        ensures { self.new ≡ without_frame self.old }
    {
        self.frames.drop_frame();
        self.taken = self.taken.saturating_add(1);
    }

    /// It sends nothing more.
    pub fn end(&mut self)
        ensures { self.new ≡ ended self.old }
    {
        self.ended = true;
    }

    pub fn has_ended(&self) -> bool
        ensures { result ≡ self.now.ended }
    {
        self.ended
    }

    /// How many of its frames were taken.
    pub fn taken(&self) -> u64
        ensures { result ≡ self.now.taken }
    {
        self.taken
    }

    /// How many bytes are held.
    pub fn held(&self) -> usize
        ensures count { result ≡ length self.now.held }
        ensures within { result ≤ self.now.limit + 4 }
    {
        self.frames.held()
    }

    /// How many more bytes can be held.
    pub fn room(&self) -> usize
        ensures { result + length self.now.held ≡ self.now.limit + 4 }
    {
        self.frames.room()
    }
}
