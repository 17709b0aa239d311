//! One side of a session of the hub in memory.
ghost use Rattle.std.specs.Prelude.{◌≡◌, ◌<◌, ◌≤◌, length, Some, None, IfOk, OnErr};
ghost use Rattle.gate_base.specs.Causes.{one_more};
ghost use Rattle.gate_hub.specs.Hubs.{LinkReads, LinkWrites, GotWithin, TookWithin};
ghost use Rattle.gate_memory.specs.Link.{MemoryLinkReads, MemoryLinkWrites, Grows, MakesChange, changed_by, new_link_state, unasked_link};

use gate_base::OutOfMemory;
use gate_hub::{LinkGot, LinkPut};
use std::alloc::Global;
use std::marker::Model;

/// What a step does to a side.
#[derive(Clone, Copy)]
pub enum Change<'a> {
    Arrive(&'a [u8]),
    Finish,
    Room(u64),
    Break,
}

/// What came of a step.
#[derive(Clone, Copy)]
pub enum Passed {
    Performed,
    Over,
}

/// A side: what arrived and how much of it was read, what was sent, and what is to come of the next calls.
#[derive(Drop)]
pub struct MemLink {
    arrived: Vec<u8>,
    place: usize,
    sent: Vec<u8>,
    ended: bool,
    last_read: Option<LinkGot>,
    last_write: Option<LinkPut>,
    finished: bool,
    breaks: bool,
    room: u64,
    faults: u64,
    waits: u64,
}

impl Model for MemLink {
    ghost use Rattle.std.specs.Prelude.{◌≤◌, length, take, drop};
    ghost use Rattle.gate_memory.specs.Link.{LinkState};

    ghost Value = { LinkState };

    ghost view = { λ l. record {
      told = record { received = take l.place l.arrived.items; sent = l.sent.items; ended = l.ended; last_read = l.last_read; last_write = l.last_write };
      ahead = drop l.place l.arrived.items;
      finished = l.finished;
      breaks = l.breaks;
      room = l.room;
      faults = l.faults;
      waits = l.waits;
    } };

    ghost invariant = { λ l. l.place ≤ length l.arrived.items };
}

impl MemLink {
    /// A side that nothing came from or went to. It takes no memory.
    pub fn new(alloc: Global) -> MemLink
        ensures { result ≡ new_link_state }
    {
        MemLink {
            arrived: Vec::new(alloc),
            place: 0,
            sent: Vec::new(alloc),
            ended: false,
            last_read: None,
            last_write: None,
            finished: false,
            breaks: false,
            room: u64::MAX,
            faults: 0,
            waits: 0,
        }
    }

    /// Reads what arrived, at most `chunk` bytes.
    pub fn read(&mut self, into: &mut [u8], chunk: usize) -> LinkGot
        requires room { 0 < length into.old }
        requires chunk { 0 < chunk }
        ensures within { GotWithin into.new result }
        ensures told { LinkReads into.new result self.old.told self.new.told }
        ensures exact { MemoryLinkReads chunk into.new result self.old self.new }
        ensures faults_later { self.old.faults ≤ self.new.faults }
        ensures waits_later { self.old.waits ≤ self.new.waits }
    {
        if self.ended {
            return self.got(LinkGot::End);
        }
        if self.breaks {
            self.breaks = false;
            self.faults = self.faults.saturating_add(1);
            return self.got(LinkGot::Failed);
        }
        let rest = self.arrived.len() - self.place;
        if rest == 0 && self.finished {
            self.ended = true;
            return self.got(LinkGot::End);
        }
        if rest == 0 {
            self.waits = self.waits.saturating_add(1);
            return self.got(LinkGot::NotReady);
        }
        let count = rest.min(chunk).min(into.len());
        into[..count].copy_from_slice(&self.arrived[self.place..self.place + count]);
        self.place += count;
        self.got(LinkGot::Bytes(count))
    }

    // Keeps the answer.
    fn got(&mut self, answer: LinkGot) -> LinkGot
        ensures result { result ≡ answer }
        ensures kept { self.new ≡ record self.old { told = record (self.old.told) { last_read = Some answer } } }
    {
        self.last_read = Some(answer);
        answer
    }

    /// Takes what there is room for, at most `chunk` bytes; a growth that finds no memory is counted.
    pub fn write(&mut self, from: &[u8], chunk: usize, refused: &mut u64) -> LinkPut
        requires some { 0 < length from.now }
        requires chunk { 0 < chunk }
        ensures within { TookWithin from.now result }
        ensures told { LinkWrites from.now result self.old.told self.new.told }
        ensures exact { MemoryLinkWrites chunk from.now result self.old self.new refused.old refused.new }
        ensures faults_later { self.old.faults ≤ self.new.faults }
        ensures waits_later { self.old.waits ≤ self.new.waits }
    {
        if self.breaks {
            self.breaks = false;
            return self.fails();
        }
        if self.room == 0 {
            self.waits = self.waits.saturating_add(1);
            return self.put(LinkPut::NotReady);
        }
        let count = (from.len().min(chunk) as u64).min(self.room);
        if self
            .sent
            .extend_from_slice(&from[..count as usize])
            .is_err()
        {
            *refused = refused.saturating_add(1);
            return self.fails();
        }
        self.room -= count;
        self.put(LinkPut::Took(count as usize))
    }

    // Counts a fault of a write.
    fn fails(&mut self) -> LinkPut
        ensures result { result ≡ LinkPut.Failed }
        ensures kept { self.new ≡ record self.old { told = record (self.old.told) { last_write = Some LinkPut.Failed }; faults = one_more self.old.faults } }
    {
        self.faults = self.faults.saturating_add(1);
        self.put(LinkPut::Failed)
    }

    // Keeps the answer.
    fn put(&mut self, answer: LinkPut) -> LinkPut
        ensures result { result ≡ answer }
        ensures kept { self.new ≡ record self.old { told = record (self.old.told) { last_write = Some answer } } }
    {
        self.last_write = Some(answer);
        answer
    }

    /// The bytes that were sent to it.
    pub fn sent(&self) -> &[u8]
        ensures { result.now ≡ self.now.told.sent }
    {
        self.sent.as_slice()
    }

    /// An event has named its session.
    pub fn forget_answers(&mut self)
        ensures { self.new ≡ unasked_link self.old }
    {
        self.last_read = None;
        self.last_write = None;
    }

    /// Does what a step says of the side. It answers whether the step is passed over.
    pub fn perform(&mut self, change: Change<'_>) -> Result<Passed, OutOfMemory>
        ensures done { IfOk result (λ passed. MakesChange (changed_by change.entry self.old) self.old self.new passed) }
        ensures err { OnErr result ((self.new ≡ self.old) × Grows change.entry × (changed_by change.entry self.old ≡ None → ⊥)) }
    {
        match change {
            Change::Arrive(_) if self.finished => return Ok(Passed::Over),
            Change::Arrive(bytes) => self.arrived.extend_from_slice(bytes)?,
            Change::Finish => self.finished = true,
            Change::Room(bytes) => self.room = bytes,
            Change::Break => self.breaks = true,
        }
        Ok(Passed::Performed)
    }
}
