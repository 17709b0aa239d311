//! A hub over another one, of which one side or both have messages without lengths.
ghost use Rattle.std.specs.Prelude.{◌≡◌, ◌≢◌, ◌⊎◌, ◌<◌, ◌^◌, ℕ, length, false, None, Some, IfSome};
ghost use Rattle.gate_base.specs.Causes.{Rose};
ghost use Rattle.gate_hub.specs.Meaning.{Meaning, IsOpen};
ghost use Rattle.gate_hub.specs.Hubs.{Leads, Later, NotStarted, HasStarted, StartLeads, NextLeads, ReadLeads, WriteLeads, CloseLeads, GotWithin, TookWithin, LinkReads, LinkWrites, started_with};
ghost use Rattle.stream_messages.specs.declared.lanes.Wrapping.{Wrapping};
ghost use Rattle.stream_messages.specs.Laws.{bytes_over};
ghost use Rattle.stream_messages.specs.Telling.{Follows, GoesInSlots, HasNoSlot, GivesBack};
ghost use Rattle.stream_messages.specs.Telling.{TellsFresh, TellsOver, counts_over};

use crate::lanes::Wrapping;
use crate::scan::Wire;
use crate::slots::Slots;
use gate_hub::{Began, Hub, HubNext, LinkGot, LinkPut, Side};
use std::alloc::Global;

/// A hub whose wrapped sides are read and written in frames, while the hub below receives and sends their messages without lengths.
///
/// A message is handed out when its last byte has come, with its length before it. Behind one whose end can't be found comes the length
/// -1, and then the end of the side. Of a side that ended inside a message the byte 0 tells, and then the end.
///
/// It takes memory in `start` alone: `sessions + 1` slots, each with a buffer of `limit` bytes for each wrapped side. A session that is
/// opened while all slots are taken has none: its reads and writes fail, and count as faults of both its sides.
#[derive(Drop)]
pub struct UnframedHub<'h, H> {
    inner: &'h mut H,
    wrapping: Wrapping,
    slots: Option<Slots>,
    missing: u64,
    ghost limits: { (0 < wrapping.limit) × (wrapping.limit < 2 ^ 31) },
}

impl<'h, H: Hub> UnframedHub<'h, H> {
    /// Over a hub that hasn't been started, with messages of at most `limit` bytes. A side with None is passed through.
    pub fn over(
        inner: &'h mut H,
        client: Option<Wire>,
        upstream: Option<Wire>,
        limit: usize,
    ) -> UnframedHub<'h, H>
        requires some { 0 < limit }
        requires limit { limit < 2 ^ 31 }
        ensures same_reference { result.inner.ghost_name ≡ inner.entry.ghost_name }
        ensures wrapping { result.wrapping ≡ record { client = client; upstream = upstream; limit = limit } }
        ensures fresh { (result.inner.now ≡ inner.old) × (result.slots ≡ None) × (result.missing ≡ 0) }
        ensures tells { TellsFresh (H.tells inner.old) (TellsOver (H.tells result.inner.now) result.wrapping result.slots) }
        ensures counts { counts_over (H.counts result.inner.now) result.missing ≡ counts_over (H.counts inner.old) 0 }
    {
        let wrapping = Wrapping {
            client,
            upstream,
            limit,
        };
        UnframedHub {
            inner,
            wrapping,
            slots: None,
            missing: 0,
        }
    }

    /// The hub below; the slots are let go.
    pub fn into_inner(self) -> &'h mut H
        ensures same_reference { result.ghost_name ≡ self.entry.inner.ghost_name }
        ensures now { result.now ≡ self.entry.inner.now }
    {
        let UnframedHub { inner, slots, .. } = self;
        drop(slots);
        inner
    }
}

impl<H: Hub> Hub for UnframedHub<'_, H> {
    ghost tells = { λ hub. TellsOver (H.tells hub.inner.now) hub.wrapping hub.slots };

    ghost counts = { λ hub. counts_over (H.counts hub.inner.now) hub.missing };

    ghost Kept = { ℕ × Wrapping × H.Kept };

    ghost kept = { λ hub. (hub.inner.ghost_name, hub.wrapping, H.kept hub.inner.now) };

    fn start(
        &mut self,
        alloc: Global,
        listen: &[u8],
        upstream: &[u8],
        accept: u64,
        sessions: usize,
    ) -> Began {
        let Some(count) = sessions.checked_add(1) else {
            return Began::OutOfMemory;
        };
        let Ok(slots) = Slots::open(alloc, self.wrapping, count) else {
            return Began::OutOfMemory;
        };
        match self.inner.start(alloc, listen, upstream, accept, sessions) {
            Began::Done => {
                self.slots = Some(slots);
                Began::Done
            }
            Began::Failed => Began::Failed,
            Began::NotFound(at) => Began::NotFound(at),
            Began::OutOfMemory => Began::OutOfMemory,
        }
    }

    fn next(&mut self) -> HubNext {
        let event = self.inner.next();
        follow(&mut self.slots, event);
        event
    }

    fn read(&mut self, k: u64, side: Side, into: &mut [u8]) -> LinkGot {
        match read(&mut self.slots, self.inner, k, side, into) {
            Some(got) => got,
            None => {
                self.missing = self.missing.saturating_add(1);
                LinkGot::Failed
            }
        }
    }

    fn write(&mut self, k: u64, side: Side, from: &[u8]) -> LinkPut {
        match write(&mut self.slots, self.inner, k, side, from) {
            Some(put) => put,
            None => {
                self.missing = self.missing.saturating_add(1);
                LinkPut::Failed
            }
        }
    }

    fn close(&mut self, k: u64) {
        release(&mut self.slots, k);
        self.inner.close(k);
    }

    ghost bytes = { λ hub. bytes_over (H.tells hub.inner.now) hub.wrapping hub.slots (H.bytes hub.inner.now) };
}

/// Gives a session that was opened a slot, if one is free.
fn follow(slots: &mut Option<Slots>, event: HubNext)
    ensures { Follows event slots.old slots.new }
{
    if let HubNext::Opened(k) = event
        && let Some(slots) = slots
    {
        slots.admit(k);
    }
}

/// Reads from a side of a session; None where the session has no slot.
fn read<H: Hub>(
    slots: &mut Option<Slots>,
    hub: &mut H,
    k: u64,
    side: Side,
    into: &mut [u8],
) -> Option<LinkGot>
    requires { 0 < length into.old }
    ensures within { IfSome result (GotWithin into.new) }
    ensures goes { IfSome result (λ got. GoesInSlots (H.tells hub.old) (H.tells hub.new) k side (LinkReads into.new got) slots.old slots.new) }
    ensures none { result ≡ None → HasNoSlot k slots.old × (slots.new ≡ slots.old) × (hub.new ≡ hub.old) }
    ensures later { Later (H.counts hub.old) (H.counts hub.new) }
    ensures kept { H.kept hub.new ≡ H.kept hub.old }
    ensures cause { result ≡ Some LinkGot.Failed → Rose ((H.counts hub.old).link_faults k side) ((H.counts hub.new).link_faults k side) }
    ensures wait { result ≡ Some LinkGot.NotReady → Rose ((H.counts hub.old).waits k side) ((H.counts hub.new).waits k side) }
{
    match slots {
        Some(slots) => slots.read(hub, k, side, into),
        None => None,
    }
}

/// Writes to a side of a session; None where the session has no slot.
fn write<H: Hub>(
    slots: &mut Option<Slots>,
    hub: &mut H,
    k: u64,
    side: Side,
    from: &[u8],
) -> Option<LinkPut>
    requires { 0 < length from.now }
    ensures within { IfSome result (TookWithin from.now) }
    ensures goes { IfSome result (λ put. GoesInSlots (H.tells hub.old) (H.tells hub.new) k side (LinkWrites from.now put) slots.old slots.new) }
    ensures none { result ≡ None → HasNoSlot k slots.old × (slots.new ≡ slots.old) × (hub.new ≡ hub.old) }
    ensures later { Later (H.counts hub.old) (H.counts hub.new) }
    ensures kept { H.kept hub.new ≡ H.kept hub.old }
    ensures cause { result ≡ Some LinkPut.Failed → Rose ((H.counts hub.old).link_faults k side) ((H.counts hub.new).link_faults k side) }
    ensures wait { result ≡ Some LinkPut.NotReady → Rose ((H.counts hub.old).waits k side) ((H.counts hub.new).waits k side) }
{
    match slots {
        Some(slots) => slots.write(hub, k, side, from),
        None => None,
    }
}

/// Takes the slot of a session back, if it has one.
fn release(slots: &mut Option<Slots>, k: u64)
    ensures { GivesBack k slots.old slots.new }
{
    if let Some(slots) = slots {
        slots.release(k);
    }
}
