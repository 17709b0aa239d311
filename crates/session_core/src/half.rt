//! What a session holds of one side.
ghost use Rattle.std.specs.Prelude.{◌≡◌, ◌+◌, ◌-◌, ◌^◌, ◌<◌, ◌≤◌, length, take, min, IfOk, Some};
ghost use Rattle.framed_transport.specs.Front.{front, whole_size};
ghost use Rattle.session_core.specs.Steps.{is_none};
ghost use Rattle.session_core.specs.Halves.{opened, fed, let_go, without_frame};
ghost use Rattle.session_core.specs.Rooms.{due_room};

use framed_transport::FrameBuf;
use gate_base::OutOfMemory;
use gate_io::Out;
use std::alloc::Global;

/// What a session holds of one side.
#[derive(Drop)]
pub struct Half {
    /// The bytes that came of it and aren't taken.
    pub held: FrameBuf,
    /// The bytes that are due to it.
    pub due: Out,
    /// Whether it sends nothing more.
    pub ended: bool,
    /// How many of its frames were taken.
    pub count: u64,
}

impl Half {
    /// Takes the memory of a side whose frames have at most so many bytes.
    ///
    /// `OutOfMemory`: it was not found.
    pub fn open(alloc: Global, limit: usize) -> Result<Half, OutOfMemory>
        requires { limit < 2 ^ 24 }
        ensures { IfOk result (λ half. half ≡ opened limit) }
    {
        Ok(Half {
            held: FrameBuf::open(alloc, limit)?,
            due: Out::open(alloc, due_room(limit))?,
            ended: false,
            count: 0,
        })
    }

    /// Whether nothing is due to it.
    pub fn is_paid(&self) -> bool
        ensures { result ≡ is_none self.now.due.bytes }
    {
        self.due.bytes().is_empty()
    }

    /// Takes as many of these bytes as there is room for, and says how many.
    pub fn feed(&mut self, bytes: &[u8]) -> usize
        ensures count { result ≡ min (length bytes.now) (self.old.held.limit + 4 - length self.old.held.held) }
        ensures fed { self.new ≡ fed self.old (take result bytes.now) }
    {
        self.held.feed(bytes)
    }

    /// Lets so many of the bytes go that were due to it.
    pub fn let_go(&mut self, n: usize)
        requires { n ≤ length self.old.due.bytes }
        ensures { self.new ≡ let_go self.old n }
    {
        self.due.drop_front(n);
    }

    /// Lets its front frame go, which must be a whole one of `size` bytes, and counts it.
    pub fn take_frame(&mut self, size: usize)
        requires { whole_size (front self.old.held.limit self.old.held.held) ≡ Some size }
        ensures { self.new ≡ without_frame self.old }
    {
        self.held.drop_whole(size);
        self.count = self.count.saturating_add(1);
    }
}

/// The room for what is due to a side: what is written for a frame of `limit` bytes, in any protocol, with its length.
pub fn due_room(limit: usize) -> usize
    requires { limit < 2 ^ 24 }
    ensures { result ≡ due_room limit }
{
    24 * limit + 260
}
