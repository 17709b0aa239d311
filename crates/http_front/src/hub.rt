//! A hub over another one, whose clients send each message as the body of a POST.
ghost use Rattle.std.specs.Prelude.{◌≡◌, ◌<◌, ◌≤◌, ◌^◌, ℕ, length, true, false, None, All, IfSome};
ghost use Rattle.gate_base.specs.Causes.{Rose, one_more};
ghost use Rattle.gate_hub.specs.Meaning.{Meaning, IsOpen};
ghost use Rattle.gate_hub.specs.Hubs.{Leads, Later, NotStarted, HasStarted, StartLeads, NextLeads, ReadLeads, WriteLeads, CloseLeads, GotWithin, TookWithin, started_with};
ghost use Rattle.http_front.specs.Counting.{with_own};
ghost use Rattle.http_front.specs.Fronts.{Reading};
ghost use Rattle.http_front.specs.Laws.{bytes_over};
ghost use Rattle.http_front.specs.Moving.{WroteWithin};
ghost use Rattle.http_front.specs.Serving.{GaveWithin};
ghost use Rattle.http_front.specs.Slots.{IsMarked, IsUnmarked, HasNone};
ghost use Rattle.http_front.specs.Telling.{open_slots, stops, Follows, Gave, Wrote, HasNoSlot, GivesBack, TellsFresh, TellsOver};

use crate::answers::Written;
use crate::replies::Rules;
use crate::slots::{Given, Slots};
use gate_hub::{Began, Hub, HubNext, LinkGot, LinkPut, Side};
use protocol_traits::Proto;
use std::alloc::Global;
use type_tables::{Schema, ServiceId};

/// A hub whose clients speak HTTP to the hub below, and are read and written in frames.
///
/// One POST is in work at a time in each session. The upstream's side is passed through.
#[derive(Drop)]
pub struct HttpHub<'h, H> {
    inner: &'h mut H,
    rules: Rules<'h>,
    slots: Option<Slots>,
    /// Whether `next` has answered that it stopped.
    stopped: bool,
    /// What was counted besides: calls on a session without a slot and writes that answer nothing, and reads of a client that is
    /// held back.
    strays: u64,
    waits: u64,
}

impl<'h, H: Hub> HttpHub<'h, H> {
    /// Over a hub that hasn't been started, for clients of this protocol and bodies of at most `limit` bytes. Names without a
    /// service before them are those of `service`, which is one of the schema's.
    pub fn over(
        inner: &'h mut H,
        schema: &'h Schema,
        service: Option<ServiceId>,
        client: Proto,
        limit: usize,
    ) -> HttpHub<'h, H>
        requires service { IfSome service (λ s. s.0 < length schema.now.services) }
        requires limit { limit < 2 ^ 31 }
        ensures same_reference { result.inner.ghost_name ≡ inner.entry.ghost_name }
        ensures rules { result.rules ≡ record { declared = schema.now; service = service; client = client; limit = limit } }
        ensures fresh { (result.inner.now ≡ inner.old) × (result.slots ≡ None) × (result.stopped ≡ false) }
        ensures uncounted { (result.strays ≡ 0) × (result.waits ≡ 0) }
        ensures tells { TellsFresh (H.tells inner.old) (TellsOver (H.tells result.inner.now) result.rules result.slots result.stopped) }
        ensures counts { with_own (H.counts result.inner.now) result.strays result.waits ≡ with_own (H.counts inner.old) 0 0 }
    {
        HttpHub {
            inner,
            rules: Rules::new(schema, service, client, limit),
            slots: None,
            stopped: false,
            strays: 0,
            waits: 0,
        }
    }

    /// The hub below; the slots are let go.
    pub fn into_inner(self) -> &'h mut H
        ensures same_reference { result.ghost_name ≡ self.entry.inner.ghost_name }
        ensures now { result.now ≡ self.entry.inner.now }
    {
        let HttpHub { inner, slots, .. } = self;
        drop(slots);
        inner
    }
}

impl<H: Hub> Hub for HttpHub<'_, H> {
    ghost tells = { λ hub. TellsOver (H.tells hub.inner.now) hub.rules hub.slots hub.stopped };

    ghost counts = { λ hub. with_own (H.counts hub.inner.now) hub.strays hub.waits };

    ghost Kept = { ℕ × Reading × H.Kept };

    ghost kept = { λ hub. (hub.inner.ghost_name, hub.rules, H.kept hub.inner.now) };

    #[tactic(auto, using(crate::proofs::Counted::later_both, crate::proofs::Counted::rose_below, crate::proofs::Counted::later_same))]
    fn start(
        &mut self,
        alloc: Global,
        listen: &[u8],
        upstream: &[u8],
        accept: u64,
        sessions: usize,
    ) -> Began {
        let Some(count) = sessions.checked_add(1) else {
            return Began::OutOfMemory;
        };
        let Ok(slots) = Slots::open(alloc, count, self.rules.limit()) else {
            return Began::OutOfMemory;
        };
        match self.inner.start(alloc, listen, upstream, accept, sessions) {
            Began::Done => {
                self.slots = Some(slots);
                Began::Done
            }
            Began::Failed => Began::Failed,
            Began::NotFound(at) => Began::NotFound(at),
            Began::OutOfMemory => Began::OutOfMemory,
        }
    }

    #[tactic(auto, using(crate::proofs::Counted::later_both, crate::proofs::Counted::rose_below, crate::proofs::Counted::later_same))]
    fn next(&mut self) -> HubNext {
        if self.stopped {
            return HubNext::Stopped;
        }
        if let Some(k) = least_marked(&mut self.slots) {
            return HubNext::Ready(k);
        }
        let event = self.inner.next();
        follow(&mut self.slots, event);
        self.stopped = stops(event);
        event
    }

    #[tactic(auto, using(crate::proofs::Counted::later_both, crate::proofs::Counted::rose_below, crate::proofs::Counted::rose_own, crate::proofs::Counted::later_same))]
    fn read(&mut self, k: u64, side: Side, into: &mut [u8]) -> LinkGot {
        match side {
            Side::Client => match read(&mut self.slots, self.inner, k, &self.rules, into) {
                Given::Got(got) => got,
                Given::Held => {
                    self.waits = self.waits.saturating_add(1);
                    LinkGot::NotReady
                }
                Given::Stray => {
                    self.strays = self.strays.saturating_add(1);
                    LinkGot::Failed
                }
            },
            Side::Upstream if has_slot(&self.slots, k) => self.inner.read(k, Side::Upstream, into),
            Side::Upstream => {
                self.strays = self.strays.saturating_add(1);
                LinkGot::Failed
            }
        }
    }

    #[tactic(auto, using(crate::proofs::Counted::later_both, crate::proofs::Counted::rose_below, crate::proofs::Counted::rose_own, crate::proofs::Counted::later_same))]
    fn write(&mut self, k: u64, side: Side, from: &[u8]) -> LinkPut {
        match side {
            Side::Client => match write(&mut self.slots, self.inner, k, from) {
                Written::Put(put) => put,
                Written::Stray => {
                    self.strays = self.strays.saturating_add(1);
                    LinkPut::Failed
                }
            },
            Side::Upstream if has_slot(&self.slots, k) => self.inner.write(k, Side::Upstream, from),
            Side::Upstream => {
                self.strays = self.strays.saturating_add(1);
                LinkPut::Failed
            }
        }
    }

    #[tactic(auto, using(crate::proofs::Counted::later_both, crate::proofs::Counted::later_same))]
    fn close(&mut self, k: u64) {
        release(&mut self.slots, k);
        self.inner.close(k);
    }

    ghost bytes = { λ hub. bytes_over (H.tells hub.inner.now) hub.rules hub.slots hub.stopped (H.bytes hub.inner.now) };
}

/// Gives a session that was opened a slot, if one is free.
fn follow(slots: &mut Option<Slots>, event: HubNext)
    ensures { Follows event slots.old slots.new }
{
    if let HubNext::Opened(k) = event
        && let Some(slots) = slots
    {
        slots.admit(k);
    }
}

/// Whether it is the last event.
fn stops(event: HubNext) -> bool
    ensures { result ≡ stops event }
{
    matches!(event, HubNext::Stopped)
}

/// The least session that is marked.
fn least_marked(slots: &mut Option<Slots>) -> Option<u64>
    ensures same { slots.new ≡ slots.old }
    ensures marked { IfSome result (IsMarked (open_slots slots.old)) }
    ensures none { result ≡ None → All IsUnmarked (open_slots slots.old) }
{
    match slots {
        Some(slots) => slots.least_marked(),
        None => None,
    }
}

/// Whether a session has a slot.
fn has_slot(slots: &Option<Slots>, k: u64) -> bool
    ensures has { result ≡ true → HasNone (open_slots slots.now) k → ⊥ }
    ensures none { result ≡ false → HasNoSlot k slots.now }
{
    match slots {
        Some(slots) => slots.has(k),
        None => false,
    }
}

/// Reads from the client of a session.
fn read<H: Hub>(
    slots: &mut Option<Slots>,
    inner: &mut H,
    k: u64,
    rules: &Rules<'_>,
    into: &mut [u8],
) -> Given
    requires { 0 < length into.old }
    ensures within { GaveWithin into.new result }
    ensures goes { Gave (H.tells inner.old) (H.tells inner.new) rules.now k into.new result slots.old slots.new }
    ensures stray { result ≡ Given.Stray → inner.new ≡ inner.old }
    ensures later { Later (H.counts inner.old) (H.counts inner.new) }
    ensures kept { H.kept inner.new ≡ H.kept inner.old }
    ensures cause { result ≡ Given.Got LinkGot.Failed → Rose ((H.counts inner.old).link_faults k Side.Client) ((H.counts inner.new).link_faults k Side.Client) }
    ensures wait { result ≡ Given.Got LinkGot.NotReady → Rose ((H.counts inner.old).waits k Side.Client) ((H.counts inner.new).waits k Side.Client) }
{
    match slots {
        Some(slots) => slots.read(inner, k, rules, into),
        None => Given::Stray,
    }
}

/// Writes to the client of a session.
fn write<H: Hub>(slots: &mut Option<Slots>, inner: &mut H, k: u64, from: &[u8]) -> Written
    requires { 0 < length from.now }
    ensures within { WroteWithin from.now result }
    ensures goes { (r : Reading) → Wrote (H.tells inner.old) (H.tells inner.new) r k from.now result slots.old slots.new }
    ensures stray { result ≡ Written.Stray → inner.new ≡ inner.old }
    ensures later { Later (H.counts inner.old) (H.counts inner.new) }
    ensures kept { H.kept inner.new ≡ H.kept inner.old }
    ensures cause { result ≡ Written.Put LinkPut.Failed → Rose ((H.counts inner.old).link_faults k Side.Client) ((H.counts inner.new).link_faults k Side.Client) }
    ensures wait { result ≡ Written.Put LinkPut.NotReady → Rose ((H.counts inner.old).waits k Side.Client) ((H.counts inner.new).waits k Side.Client) }
{
    match slots {
        Some(slots) => slots.write(inner, k, from),
        None => Written::Stray,
    }
}

/// Takes the slot of a session back, if it has one.
fn release(slots: &mut Option<Slots>, k: u64)
    ensures { GivesBack k slots.old slots.new }
{
    if let Some(slots) = slots {
        slots.release(k);
    }
}
