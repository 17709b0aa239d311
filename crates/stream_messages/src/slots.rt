//! The slots of the open sessions, in the order of their numbers.
ghost use Rattle.std.specs.Prelude.{◌≡◌, ◌<◌, ◌^◌, length, None, Some, IfSome, IfOk};
ghost use Rattle.gate_base.specs.Causes.{Rose};
ghost use Rattle.gate_hub.specs.Hubs.{Later, GotWithin, TookWithin, LinkReads, LinkWrites};
ghost use Rattle.stream_messages.specs.declared.lanes.Wrapping.{Wrapping};
ghost use Rattle.stream_messages.specs.declared.slots.Slot.{Slot};
ghost use Rattle.stream_messages.specs.Slots.{AllSpare, AreReady, Admits, Releases, GoesInSlot, IsRising, IsAt, HasNone};

use crate::lanes::{Lanes, Wrapping};
use gate_base::OutOfMemory;
use gate_hub::{Hub, LinkGot, LinkPut, Side};
use std::alloc::Global;

/// The sides of the open session with this number.
#[derive(Drop)]
pub struct Slot {
    number: u64,
    lanes: Box<Lanes>,
}

/// The slots of the open sessions by rising numbers, and those that are free.
#[derive(Drop)]
pub struct Slots {
    open: Vec<Slot>,
    spare: Vec<Box<Lanes>>,
}

impl Slots {
    /// So many free slots. Only this takes memory.
    ///
    /// `OutOfMemory`: it was not found.
    pub fn open(alloc: Global, wrapping: Wrapping, count: usize) -> Result<Slots, OutOfMemory>
        requires some { 0 < wrapping.limit }
        requires limit { wrapping.limit < 2 ^ 31 }
        ensures { IfOk result (AllSpare wrapping count) }
    {
        let open = Vec::with_capacity(alloc, count)?;
        let mut spare = Vec::with_capacity(alloc, count)?;
        while spare.len() < count {
            let lanes = Lanes::open(alloc, wrapping)?;
            spare.push_reserved(Box::new(alloc, lanes)?);
        }
        Ok(Slots { open, spare })
    }

    /// Gives a session that was opened a free slot, if there is one. Its number is above those of all open ones.
    pub fn admit(&mut self, number: u64)
        ensures { (w : Wrapping) → AreReady w self.old → AreReady w self.new × Admits w number self.old self.new }
    {
        if self.open.len() == self.open.capacity() {
            return;
        }
        let Some(mut lanes) = self.spare.pop() else {
            return;
        };
        lanes.restart();
        self.open.push_reserved(Slot { number, lanes });
    }

    /// Takes the slot of a session back, if it has one.
    pub fn release(&mut self, number: u64)
        ensures { (w : Wrapping) → AreReady w self.old → Releases number self.old self.new }
    {
        let Some(at) = find(self.open.as_slice(), number) else {
            return;
        };
        let slot = self.open.remove(at);
        if self.spare.len() < self.spare.capacity() {
            self.spare.push_reserved(slot.lanes);
        }
    }

    /// Reads from a side of a session into a slice that isn't empty; None where the session has no slot.
    pub fn read<H: Hub>(
        &mut self,
        hub: &mut H,
        number: u64,
        side: Side,
        into: &mut [u8],
    ) -> Option<LinkGot>
        requires { 0 < length into.old }
        ensures within { IfSome result (GotWithin into.new) }
        ensures size { length into.new ≡ length into.old }
        ensures goes { IfSome result (λ got. GoesInSlot (H.tells hub.old) (H.tells hub.new) number side (LinkReads into.new got) self.old self.new) }
        ensures none { result ≡ None → (IsRising self.old.open.items → HasNone self.old.open.items number) × (self.new ≡ self.old) × (hub.new ≡ hub.old) }
        ensures later { Later (H.counts hub.old) (H.counts hub.new) }
        ensures kept { H.kept hub.new ≡ H.kept hub.old }
        ensures cause { result ≡ Some LinkGot.Failed → Rose ((H.counts hub.old).link_faults number side) ((H.counts hub.new).link_faults number side) }
        ensures wait { result ≡ Some LinkGot.NotReady → Rose ((H.counts hub.old).waits number side) ((H.counts hub.new).waits number side) }
    {
        let at = find(self.open.as_slice(), number)?;
        let slot = &mut self.open[at];
        Some(slot.lanes.read(hub, number, side, into))
    }

    /// Writes the front of a slice that isn't empty to a side of a session; None where the session has no slot.
    pub fn write<H: Hub>(
        &mut self,
        hub: &mut H,
        number: u64,
        side: Side,
        from: &[u8],
    ) -> Option<LinkPut>
        requires { 0 < length from.now }
        ensures within { IfSome result (TookWithin from.now) }
        ensures goes { IfSome result (λ put. GoesInSlot (H.tells hub.old) (H.tells hub.new) number side (LinkWrites from.now put) self.old self.new) }
        ensures none { result ≡ None → (IsRising self.old.open.items → HasNone self.old.open.items number) × (self.new ≡ self.old) × (hub.new ≡ hub.old) }
        ensures later { Later (H.counts hub.old) (H.counts hub.new) }
        ensures kept { H.kept hub.new ≡ H.kept hub.old }
        ensures cause { result ≡ Some LinkPut.Failed → Rose ((H.counts hub.old).link_faults number side) ((H.counts hub.new).link_faults number side) }
        ensures wait { result ≡ Some LinkPut.NotReady → Rose ((H.counts hub.old).waits number side) ((H.counts hub.new).waits number side) }
    {
        let at = find(self.open.as_slice(), number)?;
        let slot = &mut self.open[at];
        Some(slot.lanes.write(hub, number, side, from))
    }
}

/// The place of the slot of a session.
fn find(slots: &[Slot], number: u64) -> Option<usize>
    ensures within { IfSome result (λ at. at < length slots.now) }
    ensures found { IfSome result (λ at. (slot : Slot) × IsAt slots.now number at slot) }
    ensures none { result ≡ None → IsRising slots.now → HasNone slots.now number }
{
    let mut low = 0;
    let mut high = slots.len();
    while low < high {
        let middle = low + (high - low) / 2;
        let at = slots[middle].number;
        if at == number {
            return Some(middle);
        }
        if at < number {
            low = middle + 1;
        } else {
            high = middle;
        }
    }
    None
}
