//! A queue of places whose room is taken once.
ghost use Rattle.std.specs.Prelude.{◌≡◌, ◌≢◌, ◌++◌, [], drop, true, false, None, option_to_list, IfOk};
ghost use Rattle.std.specs.VecDeque.{deque_len, deque_capacity};
ghost use Rattle.mio_edge.specs.Turns.{HasRoom, Pushes};

use gate_base::OutOfMemory;
use std::alloc::Global;
use std::collections::VecDeque;

/// The places of some sessions, in order. Each stands in it once at most, so it never grows.
#[derive(Drop)]
pub(crate) struct Queue {
    places: VecDeque<usize>,
}

impl Queue {
    /// An empty queue with room for so many places.
    pub(crate) fn open(alloc: Global, room: usize) -> Result<Queue, OutOfMemory>
        ensures empty { IfOk result (λ queue. queue.places.items ≡ []) }
        ensures room { IfOk result (λ queue. deque_capacity queue.places ≡ room) }
    {
        Ok(Queue {
            places: VecDeque::with_capacity(alloc, room)?,
        })
    }

    /// Puts a place last, and says whether there was room.
    pub(crate) fn push(&mut self, place: usize) -> bool
        ensures pushed { result ≡ true → Pushes place self.old self.new }
        ensures kept { result ≡ false → self.new ≡ self.old }
        ensures room { HasRoom self.old → result ≡ true }
    {
        self.places.len() < self.places.capacity() && self.places.push_back(place).is_ok()
    }

    /// Takes the first place.
    pub(crate) fn pop(&mut self) -> Option<usize>
        ensures first { self.old.places.items ≡ option_to_list result ++ self.new.places.items }
        ensures rest { self.new.places.items ≡ drop 1 self.old.places.items }
        ensures none { result ≡ None → self.old.places.items ≡ [] }
        ensures room { deque_capacity self.new.places ≡ deque_capacity self.old.places }
    {
        self.places.pop_front()
    }

    pub(crate) fn len(&self) -> usize
        ensures { result ≡ deque_len self.now.places }
    {
        self.places.len()
    }

    pub(crate) fn is_empty(&self) -> bool
        ensures none { result ≡ true → self.now.places.items ≡ [] }
        ensures some { result ≡ false → self.now.places.items ≢ [] }
    {
        self.places.is_empty()
    }
}
