//! A hub in memory, which does what a list of steps says.
ghost use Rattle.std.specs.Prelude.{◌≡◌, ◌≢◌, ◌<◌, ◌≤◌, ◌++◌, ◌∷◌, [], ℕ, length, true, false, Some, None, Ok, IfOk, OnOk, OnErr};
ghost use Rattle.gate_base.specs.Causes.{Rose, one_more};
ghost use Rattle.gate_hub.specs.Meaning.{IsOpen, link_of, reopened};
ghost use Rattle.gate_hub.specs.Hubs.{Leads, Later, AtSide, LinkReads, LinkWrites, NotStarted, HasStarted, StartLeads, NextLeads, ReadLeads, WriteLeads, CloseLeads, GotWithin, TookWithin, started_with};
ghost use Rattle.gate_memory.specs.Hub.{TellsHub, new_hub, hub_counts, session_at, is_open_at, told_of, mem_link_of, NoCountFell, PerformsStep, Brings, Steps, StepsBy, step_of, ready, NeedsMemory, changed_session, MakesSession, AtMemSide, StartDoes, NextDoes, ReadDoes, WriteDoes, CloseDoes};
ghost use Rattle.gate_memory.specs.Laws.{hub_bytes};
ghost use Rattle.gate_memory.specs.Link.{ReadsLink, WritesLink, changed_by, Grows};

use crate::link::{Change, MemLink, Passed};
use crate::steps::{HubStep, HubSteps};
use gate_base::{OutOfMemory, Text};
use gate_hub::{Began, Hub, HubNext, LinkGot, LinkPut, Side};
use std::alloc::Global;
use std::marker::Model;

/// A session: its two sides, and whether it was closed.
#[derive(Drop)]
pub struct MemSession {
    closed: bool,
    client: MemLink,
    upstream: MemLink,
}

impl MemSession {
    // Reads a side.
    fn read(&mut self, side: Side, into: &mut [u8], chunk: usize) -> LinkGot
        requires room { 0 < length into.old }
        requires chunk { 0 < chunk }
        ensures within { GotWithin into.new result }
        ensures told { AtSide side (LinkReads into.new result) (told_of self.old) (told_of self.new) }
        ensures exact { AtMemSide side (ReadsLink chunk into.new result) self.old self.new }
        ensures later { NoCountFell self.old self.new }
        ensures cause { result ≡ LinkGot.Failed → Rose (mem_link_of self.old side).faults (mem_link_of self.new side).faults }
        ensures wait { result ≡ LinkGot.NotReady → Rose (mem_link_of self.old side).waits (mem_link_of self.new side).waits }
    {
        match side {
            Side::Client => self.client.read(into, chunk),
            Side::Upstream => self.upstream.read(into, chunk),
        }
    }

    // Writes to a side.
    fn write(&mut self, side: Side, from: &[u8], chunk: usize, refused: &mut u64) -> LinkPut
        requires some { 0 < length from.now }
        requires chunk { 0 < chunk }
        ensures within { TookWithin from.now result }
        ensures told { AtSide side (LinkWrites from.now result) (told_of self.old) (told_of self.new) }
        ensures exact { AtMemSide side (WritesLink chunk from.now result refused.old refused.new) self.old self.new }
        ensures later { NoCountFell self.old self.new }
        ensures cause { result ≡ LinkPut.Failed → Rose (mem_link_of self.old side).faults (mem_link_of self.new side).faults }
        ensures wait { result ≡ LinkPut.NotReady → Rose (mem_link_of self.old side).waits (mem_link_of self.new side).waits }
    {
        match side {
            Side::Client => self.client.write(from, chunk, refused),
            Side::Upstream => self.upstream.write(from, chunk, refused),
        }
    }

    // Does what a step says of a side: then an event names it.
    fn perform(&mut self, side: Side, change: Change<'_>) -> Result<Passed, OutOfMemory>
        ensures performed { result ≡ Ok Passed.Performed → (told_of self.new ≡ reopened (told_of self.old)) × NoCountFell self.old self.new }
        ensures done { IfOk result (λ passed. MakesSession (changed_session side (changed_by change.entry) self.old) self.old self.new passed) }
        ensures err { OnErr result ((self.new ≡ self.old) × Grows change.entry × (changed_session side (changed_by change.entry) self.old ≡ None → ⊥)) }
    {
        let passed = match side {
            Side::Client => self.client.perform(change)?,
            Side::Upstream => self.upstream.perform(change)?,
        };
        if let Passed::Performed = passed {
            self.client.forget_answers();
            self.upstream.forget_answers();
        }
        Ok(passed)
    }
}

/// What `start` was given.
#[derive(Drop)]
pub struct StartedWith {
    listen: Text,
    upstream: Text,
    accept: u64,
    sessions: usize,
}

/// A hub in memory. It tells its one meaning.
#[derive(Drop)]
pub struct MemHub {
    alloc: Global,
    steps: HubSteps,
    place: usize,
    chunk: usize,
    sessions: Vec<MemSession>,
    started: Option<StartedWith>,
    last_event: Option<HubNext>,
    events: u64,
    faults: u64,
    strays: u64,
    refused: u64,
}

impl Model for MemHub {
    ghost use Rattle.std.specs.Prelude.{◌≡◌, ◌≤◌, ◌<◌, Some, length, drop, option_map};
    ghost use Rattle.gate_memory.specs.Hub.{HubState, started_of};
    ghost use Rattle.gate_hub.specs.declared.hub.HubNext.TheVariants as event;

    ghost Value = { HubState };

    ghost view = { λ h. record {
      steps = drop h.place h.steps;
      chunk = h.chunk;
      sessions = h.sessions.items;
      started = option_map started_of h.started;
      last_event = h.last_event;
      events = h.events;
      faults = h.faults;
      strays = h.strays;
      refused = h.refused;
    } };

    ghost invariant = { λ h. (h.place ≤ length h.steps) × (0 < h.chunk) × (h.last_event ≡ Some event.Stopped → h.place ≡ length h.steps) };
}

// What came of a step at the sessions.
#[derive(Clone, Copy)]
enum Performed {
    Opened(u64),
    Ready(u64),
    Broke,
    PassedOver,
    Refused,
}

// What came of a step.
#[derive(Clone, Copy)]
enum Stepped {
    Over,
    Event(HubNext),
}

// Does what a step says to the sessions.
#[tactic(auto, unfolding(crate::specs::Hub::step_of))]
fn perform(step: &HubStep, sessions: &mut Vec<MemSession>, alloc: Global) -> Performed
    ensures told { PerformsStep sessions.old.items sessions.new.items result }
    ensures exact { Brings (step_of step.now sessions.old.items) (NeedsMemory step.now) sessions.new.items result }
{
    match step {
        HubStep::Connect => connect(sessions, alloc),
        HubStep::Arrive {
            session,
            side,
            bytes,
        } => change(sessions, *session, *side, Change::Arrive(bytes.as_slice())),
        HubStep::Finish { session, side } => change(sessions, *session, *side, Change::Finish),
        HubStep::Room {
            session,
            side,
            bytes,
        } => change(sessions, *session, *side, Change::Room(*bytes)),
        HubStep::Break { session, side } => change(sessions, *session, *side, Change::Break),
        HubStep::BreakNext => Performed::Broke,
    }
}

// Opens the next session.
#[tactic(auto, unfolding(crate::specs::Hub::step_of))]
fn connect(sessions: &mut Vec<MemSession>, alloc: Global) -> Performed
    ensures told { PerformsStep sessions.old.items sessions.new.items result }
    ensures exact { Brings (step_of HubStep.Connect sessions.old.items) (NeedsMemory HubStep.Connect) sessions.new.items result }
{
    let k = sessions.len() as u64;
    let session = MemSession {
        closed: false,
        client: MemLink::new(alloc),
        upstream: MemLink::new(alloc),
    };
    match sessions.push(session) {
        Ok(()) => Performed::Opened(k),
        Err(_) => Performed::Refused,
    }
}

// Changes a side of a session that is open.
fn change(sessions: &mut Vec<MemSession>, k: u64, side: Side, change: Change<'_>) -> Performed
    ensures told { PerformsStep sessions.old.items sessions.new.items result }
    ensures exact { Brings (ready k side (changed_by change.entry) sessions.old.items) (Grows change.entry) sessions.new.items result }
{
    if !is_open(sessions.as_slice(), k) {
        return Performed::PassedOver;
    }
    match sessions[k as usize].perform(side, change) {
        Ok(Passed::Performed) => Performed::Ready(k),
        Ok(Passed::Over) => Performed::PassedOver,
        Err(_) => Performed::Refused,
    }
}

// Whether the session was announced and isn't closed.
fn is_open(sessions: &[MemSession], k: u64) -> bool
    ensures { result ≡ is_open_at sessions.now k }
{
    match sessions.get(k as usize) {
        None => false,
        Some(session) => !session.closed,
    }
}

impl MemHub {
    /// A hub that does these steps, and moves at most `chunk` bytes, at least one, in a call.
    ///
    /// `OutOfMemory`: none of its own is taken yet, so it does not come.
    pub fn new(alloc: Global, steps: HubSteps, chunk: usize) -> Result<MemHub, OutOfMemory>
        requires { 0 < chunk }
        ensures { IfOk result (λ hub. hub ≡ new_hub steps chunk) }
    {
        Ok(MemHub {
            alloc,
            steps,
            place: 0,
            chunk,
            sessions: Vec::new(alloc),
            started: None,
            last_event: None,
            events: 0,
            faults: 0,
            strays: 0,
            refused: 0,
        })
    }

    /// The growths of its own that found no memory.
    pub fn refused(&self) -> u64
        ensures { result ≡ self.now.refused }
    {
        self.refused
    }

    /// The bytes that were sent to a side: none of a session that was never announced.
    pub fn sent_to(&self, k: u64, side: Side) -> &[u8]
        ensures { result.now ≡ (link_of (session_at self.now.sessions k) side).sent }
    {
        match self.sessions.get(k as usize) {
            None => &[],
            Some(session) => match side {
                Side::Client => session.client.sent(),
                Side::Upstream => session.upstream.sent(),
            },
        }
    }

    // Whether the session was announced and isn't closed.
    fn is_open(&self, k: u64) -> bool
        ensures { result ≡ is_open_at self.now.sessions k }
    {
        is_open(self.sessions.as_slice(), k)
    }

    // Does the next step.
    fn step(&mut self) -> Stepped
        requires some { 0 < length self.old.steps }
        ensures steps { Steps self.old self.new result }
        ensures exact { StepsBy self.old self.new result }
        ensures later { Later (hub_counts self.old) (hub_counts self.new) }
        ensures cause { result ≡ Stepped.Event HubNext.Failed → Rose self.old.faults self.new.faults }
    {
        let steps = self.steps.as_slice();
        let performed = perform(&steps[self.place], &mut self.sessions, self.alloc);
        self.place += 1;
        match performed {
            Performed::PassedOver => Stepped::Over,
            Performed::Opened(k) => self.comes(HubNext::Opened(k)),
            Performed::Ready(k) => self.comes(HubNext::Ready(k)),
            Performed::Broke => self.fails(),
            Performed::Refused => {
                self.refused = self.refused.saturating_add(1);
                self.fails()
            }
        }
    }

    // An event has come.
    fn comes(&mut self, event: HubNext) -> Stepped
        requires { event ≢ HubNext.Stopped }
        ensures result { result ≡ Stepped.Event event }
        ensures after { self.new ≡ record self.old { last_event = Some event; events = one_more self.old.events } }
    {
        self.last_event = Some(event);
        self.events = self.events.saturating_add(1);
        Stepped::Event(event)
    }

    // A fault of `next`.
    fn fails(&mut self) -> Stepped
        ensures result { result ≡ Stepped.Event HubNext.Failed }
        ensures after { self.new ≡ record self.old { last_event = Some HubNext.Failed; faults = one_more self.old.faults } }
        ensures later { self.old.faults ≤ self.new.faults }
    {
        self.last_event = Some(HubNext::Failed);
        self.faults = self.faults.saturating_add(1);
        Stepped::Event(HubNext::Failed)
    }
}

impl Hub for MemHub {
    ghost tells = { TellsHub };

    ghost counts = { hub_counts };

    ghost kept = { λ _. tt };

    fn start(
        &mut self,
        alloc: Global,
        listen: &[u8],
        upstream: &[u8],
        accept: u64,
        sessions: usize,
    ) -> Began
        ensures leads { Leads (TellsHub self.old) (TellsHub self.new) NotStarted (StartLeads (started_with listen.now upstream.now accept sessions) result) }
        ensures later { Later (hub_counts self.old) (hub_counts self.new) }
        ensures cause { result ≡ Began.Failed → Rose (hub_counts self.old).faults (hub_counts self.new).faults }
        ensures unfound { (at : ℕ) → result ≡ Began.NotFound at → Rose (hub_counts self.old).faults (hub_counts self.new).faults }
        ensures exact { StartDoes (started_with listen.now upstream.now accept sessions) result self.old self.new }
    {
        let (Ok(listen), Ok(upstream)) = (Text::new(alloc, listen), Text::new(alloc, upstream))
        else {
            return Began::OutOfMemory;
        };
        self.started = Some(StartedWith {
            listen,
            upstream,
            accept,
            sessions,
        });
        Began::Done
    }

    fn next(&mut self) -> HubNext
        ensures leads { Leads (TellsHub self.old) (TellsHub self.new) HasStarted (NextLeads result) }
        ensures later { Later (hub_counts self.old) (hub_counts self.new) }
        ensures cause { result ≡ HubNext.Failed → Rose (hub_counts self.old).faults (hub_counts self.new).faults }
        ensures exact { NextDoes self.old.steps self.old self.new result }
    {
        while self.place < self.steps.as_slice().len() {
            match self.step() {
                Stepped::Over => (),
                Stepped::Event(event) => return event,
            }
        }
        self.last_event = Some(HubNext::Stopped);
        HubNext::Stopped
    }

    fn read(&mut self, k: u64, side: Side, into: &mut [u8]) -> LinkGot
        requires { 0 < length into.old }
        ensures within { GotWithin into.new result }
        ensures leads { Leads (TellsHub self.old) (TellsHub self.new) (IsOpen k) (ReadLeads k side (length into.old) into.new result) }
        ensures later { Later (hub_counts self.old) (hub_counts self.new) }
        ensures cause { result ≡ LinkGot.Failed → Rose ((hub_counts self.old).link_faults k side) ((hub_counts self.new).link_faults k side) }
        ensures wait { result ≡ LinkGot.NotReady → Rose ((hub_counts self.old).waits k side) ((hub_counts self.new).waits k side) }
        ensures exact { ReadDoes (is_open_at self.old.sessions k) k side into.new result self.old self.new }
    {
        if !self.is_open(k) {
            return LinkGot::End;
        }
        self.sessions[k as usize].read(side, into, self.chunk)
    }

    fn write(&mut self, k: u64, side: Side, from: &[u8]) -> LinkPut
        requires { 0 < length from.now }
        ensures within { TookWithin from.now result }
        ensures leads { Leads (TellsHub self.old) (TellsHub self.new) (IsOpen k) (WriteLeads k side from.now result) }
        ensures later { Later (hub_counts self.old) (hub_counts self.new) }
        ensures cause { result ≡ LinkPut.Failed → Rose ((hub_counts self.old).link_faults k side) ((hub_counts self.new).link_faults k side) }
        ensures wait { result ≡ LinkPut.NotReady → Rose ((hub_counts self.old).waits k side) ((hub_counts self.new).waits k side) }
        ensures exact { WriteDoes (is_open_at self.old.sessions k) k side from.now result self.old self.new }
    {
        if !self.is_open(k) {
            self.strays = self.strays.saturating_add(1);
            return LinkPut::Failed;
        }
        self.sessions[k as usize].write(side, from, self.chunk, &mut self.refused)
    }

    fn close(&mut self, k: u64)
        ensures leads { Leads (TellsHub self.old) (TellsHub self.new) (IsOpen k) (CloseLeads k) }
        ensures later { Later (hub_counts self.old) (hub_counts self.new) }
        ensures exact { CloseDoes (is_open_at self.old.sessions k) k self.old self.new }
    {
        if self.is_open(k) {
            self.sessions[k as usize].closed = true;
        }
    }

    ghost bytes = { hub_bytes };
}
