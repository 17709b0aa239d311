//! A fan in memory, which does what a list of steps says.
ghost use Rattle.std.specs.Prelude.{◌≡◌, ◌≢◌, ◌<◌, ◌^◌, ℕ, length, true, false, Some, None, IfOk};
ghost use Rattle.gate_base.specs.Causes.{Rose, one_more};
ghost use Rattle.gate_hub.specs.Hubs.{GotWithin, TookWithin};
ghost use Rattle.gate_fan.specs.Meaning.{IsOpen};
ghost use Rattle.gate_fan.specs.Fans.{Leads, Later, HasPort, NotStarted, HasStarted, StartLeads, NextLeads, ReadLeads, WriteLeads, CloseLeads, started_with};
ghost use Rattle.gate_memory.specs.FanPorts.{port_of};
ghost use Rattle.gate_memory.specs.Fan.{TellsFan, FanState, new_fan, targets_of, fan_counts, session_at, is_open_at, has_port_at, HavePorts, Brings, StepsBy, step_of, ready, NeedsMemory, new_fan_session, StartDoes, NextDoes, ReadDoes, WriteDoes, CloseDoes};
ghost use Rattle.gate_memory.specs.FanLaws.{fan_bytes, fan_targets};
ghost use Rattle.gate_memory.specs.Link.{changed_by, Grows};

use crate::fan_session::FanSession;
use crate::fan_steps::{FanStep, FanSteps};
use crate::link::{Change, Passed};
use gate_base::{OutOfMemory, Text};
use gate_fan::{Fan, Target};
use gate_hub::{Began, HubNext, LinkGot, LinkPut};
use std::alloc::Global;
use std::marker::Model;

/// What `start` was given.
#[derive(Drop)]
pub struct StartedWith {
    listen: Text,
    targets: Vec<Target>,
    accept: u64,
    sessions: usize,
}

/// A fan in memory. It tells its one meaning.
///
/// It is started once, before the first event: a later start fails.
#[derive(Drop)]
pub struct MemFan {
    alloc: Global,
    steps: FanSteps,
    place: usize,
    chunk: usize,
    sessions: Vec<FanSession>,
    started: Option<StartedWith>,
    last_event: Option<HubNext>,
    events: u64,
    faults: u64,
    strays: u64,
    refused: u64,
}

impl Model for MemFan {
    ghost use Rattle.std.specs.Prelude.{◌≡◌, ◌≤◌, ◌<◌, Some, length, drop, option_map};
    ghost use Rattle.gate_memory.specs.Fan.{FanState, HavePorts, started_of, targets_in};
    ghost use Rattle.gate_hub.specs.declared.hub.HubNext.TheVariants as event;

    ghost Value = { FanState };

    ghost view = { λ f. record {
      steps = drop f.place f.steps;
      chunk = f.chunk;
      sessions = f.sessions.items;
      started = option_map started_of f.started;
      last_event = f.last_event;
      events = f.events;
      faults = f.faults;
      strays = f.strays;
      refused = f.refused;
    } };

    ghost invariant = { λ f. (f.place ≤ length f.steps) × (0 < f.chunk) × (f.last_event ≡ Some event.Stopped → f.place ≡ length f.steps)
        × HavePorts (targets_in (option_map started_of f.started)) f.sessions.items };
}

// What came of a step at the sessions.
#[derive(Clone, Copy)]
enum Performed {
    Opened(u64),
    Ready(u64),
    Broke,
    PassedOver,
    Refused,
}

// What came of a step.
#[derive(Clone, Copy)]
enum Stepped {
    Over,
    Event(HubNext),
}

// Does what a step says to the sessions, each of which has so many targets.
#[tactic(auto, unfolding(crate::specs::Fan::step_of))]
fn perform(
    step: &FanStep,
    targets: usize,
    sessions: &mut Vec<FanSession>,
    alloc: Global,
) -> Performed
    ensures exact { Brings (step_of targets step.now sessions.old.items) (NeedsMemory step.now) sessions.old.items sessions.new.items result }
    ensures ports { HavePorts targets sessions.old.items → HavePorts targets sessions.new.items }
{
    match step {
        FanStep::Connect => connect(targets, sessions, alloc),
        FanStep::Arrive {
            session,
            port,
            bytes,
        } => change(sessions, *session, *port, Change::Arrive(bytes.as_slice())),
        FanStep::Finish { session, port } => change(sessions, *session, *port, Change::Finish),
        FanStep::Room {
            session,
            port,
            bytes,
        } => change(sessions, *session, *port, Change::Room(*bytes)),
        FanStep::Break { session, port } => change(sessions, *session, *port, Change::Break),
        FanStep::BreakNext => Performed::Broke,
    }
}

// Opens the next session.
#[tactic(auto, unfolding(crate::specs::Fan::step_of))]
fn connect(targets: usize, sessions: &mut Vec<FanSession>, alloc: Global) -> Performed
    ensures exact { Brings (step_of targets FanStep.Connect sessions.old.items) (NeedsMemory FanStep.Connect) sessions.old.items sessions.new.items result }
{
    let k = sessions.len() as u64;
    let Ok(session) = FanSession::open(alloc, targets) else {
        return Performed::Refused;
    };
    match sessions.push(session) {
        Ok(()) => Performed::Opened(k),
        Err(_) => Performed::Refused,
    }
}

// Changes a port of a session that is open.
fn change(sessions: &mut Vec<FanSession>, k: u64, port: usize, change: Change<'_>) -> Performed
    ensures exact { Brings (ready k port (changed_by change.entry) sessions.old.items) (Grows change.entry) sessions.old.items sessions.new.items result }
    ensures ports { (targets : ℕ) → HavePorts targets sessions.old.items → HavePorts targets sessions.new.items }
{
    if !has_port(sessions.as_slice(), k, port) {
        return Performed::PassedOver;
    }
    match sessions[k as usize].perform(port, change) {
        Ok(Passed::Performed) => Performed::Ready(k),
        Ok(Passed::Over) => Performed::PassedOver,
        Err(_) => Performed::Refused,
    }
}

// Whether the session is open and has the port.
fn has_port(sessions: &[FanSession], k: u64, port: usize) -> bool
    ensures { result ≡ has_port_at sessions.now k port }
{
    match sessions.get(k as usize) {
        None => false,
        Some(session) => session.has_port(port),
    }
}

// A copy of the targets.
fn copied(alloc: Global, targets: &[Target]) -> Result<Vec<Target>, OutOfMemory>
    ensures { IfOk result (λ copy. copy.items ≡ targets.now) }
{
    let mut copy = Vec::new(alloc);
    for target in targets {
        copy.push(copied_one(alloc, target)?)?;
    }
    Ok(copy)
}

// A copy of a target.
fn copied_one(alloc: Global, target: &Target) -> Result<Target, OutOfMemory>
    ensures { IfOk result (λ copy. copy ≡ target.now) }
{
    let service = Text::new(alloc, target.service.as_slice())?;
    let address = Text::new(alloc, target.address.as_slice())?;
    Ok(Target { service, address })
}

impl MemFan {
    /// A fan that does these steps, and moves at most `chunk` bytes, at least one, in a call.
    ///
    /// `OutOfMemory`: none of its own is taken yet, so it does not come.
    pub fn new(alloc: Global, steps: FanSteps, chunk: usize) -> Result<MemFan, OutOfMemory>
        requires { 0 < chunk }
        ensures { IfOk result (λ fan. fan ≡ new_fan steps chunk) }
    {
        Ok(MemFan {
            alloc,
            steps,
            place: 0,
            chunk,
            sessions: Vec::new(alloc),
            started: None,
            last_event: None,
            events: 0,
            faults: 0,
            strays: 0,
            refused: 0,
        })
    }

    /// The growths of its own that found no memory.
    pub fn refused(&self) -> u64
        ensures { result ≡ self.now.refused }
    {
        self.refused
    }

    /// The bytes that were sent to a port: none of a session that was never announced, or to a port that it hasn't.
    pub fn sent_to(&self, k: u64, port: usize) -> &[u8]
        ensures { result.now ≡ ((session_at self.now.sessions k).link port).sent }
    {
        match self.sessions.get(k as usize) {
            None => &[],
            Some(session) => session.sent(port),
        }
    }

    // How many targets it was started with.
    fn targets(&self) -> usize
        ensures { result ≡ targets_of self.now }
    {
        match &self.started {
            None => 0,
            Some(started) => started.targets.len(),
        }
    }

    // Whether the session was announced and isn't closed.
    fn is_open(&self, k: u64) -> bool
        ensures { result ≡ is_open_at self.now.sessions k }
    {
        match self.sessions.get(k as usize) {
            None => false,
            Some(session) => !session.is_closed(),
        }
    }

    // Whether the session is open and has the port.
    fn has_port(&self, k: u64, port: usize) -> bool
        ensures { result ≡ has_port_at self.now.sessions k port }
    {
        has_port(self.sessions.as_slice(), k, port)
    }

    // Does the next step.
    fn step(&mut self) -> Stepped
        requires some { 0 < length self.old.steps }
        ensures exact { StepsBy self.old self.new result }
        ensures shorter { length self.new.steps < length self.old.steps }
        ensures range { self.old.faults < 2 ^ 64 }
    {
        let targets = self.targets();
        let steps = self.steps.as_slice();
        let performed = perform(&steps[self.place], targets, &mut self.sessions, self.alloc);
        self.place += 1;
        match performed {
            Performed::PassedOver => Stepped::Over,
            Performed::Opened(k) => self.comes(HubNext::Opened(k)),
            Performed::Ready(k) => self.comes(HubNext::Ready(k)),
            Performed::Broke => self.fails(),
            Performed::Refused => {
                self.refused = self.refused.saturating_add(1);
                self.fails()
            }
        }
    }

    // An event has come.
    fn comes(&mut self, event: HubNext) -> Stepped
        requires { event ≢ HubNext.Stopped }
        ensures result { result ≡ Stepped.Event event }
        ensures after { self.new ≡ record self.old { last_event = Some event; events = one_more self.old.events } }
    {
        self.last_event = Some(event);
        self.events = self.events.saturating_add(1);
        Stepped::Event(event)
    }

    // A fault of `next`.
    fn fails(&mut self) -> Stepped
        ensures result { result ≡ Stepped.Event HubNext.Failed }
        ensures after { self.new ≡ record self.old { last_event = Some HubNext.Failed; faults = one_more self.old.faults } }
    {
        self.last_event = Some(HubNext::Failed);
        self.faults = self.faults.saturating_add(1);
        Stepped::Event(HubNext::Failed)
    }
}

impl Fan for MemFan {
    ghost tells = { TellsFan };

    ghost counts = { fan_counts };

    ghost target_count = { targets_of };

    fn start(
        &mut self,
        alloc: Global,
        listen: &[u8],
        targets: &[Target],
        accept: u64,
        sessions: usize,
    ) -> Began
        ensures leads { Leads (TellsFan self.old) (TellsFan self.new) NotStarted (StartLeads (started_with listen.now targets.now accept sessions) result) }
        ensures targets { result ≡ Began.Done → targets_of self.new ≡ length targets.now }
        ensures later { Later (fan_counts self.old) (fan_counts self.new) }
        ensures cause { result ≡ Began.Failed → Rose (fan_counts self.old).faults (fan_counts self.new).faults }
        ensures unfound { (at : ℕ) → result ≡ Began.NotFound at → Rose (fan_counts self.old).faults (fan_counts self.new).faults }
        ensures place { (at : ℕ) → result ≡ Began.NotFound at → at < length targets.now }
        ensures exact { StartDoes (started_with listen.now targets.now accept sessions) result self.old self.new }
    {
        if self.started.is_some() || self.last_event.is_some() || !self.sessions.is_empty() {
            self.faults = self.faults.saturating_add(1);
            return Began::Failed;
        }
        let (Ok(listen), Ok(targets)) = (Text::new(alloc, listen), copied(alloc, targets)) else {
            return Began::OutOfMemory;
        };
        self.started = Some(StartedWith {
            listen,
            targets,
            accept,
            sessions,
        });
        Began::Done
    }

    fn next(&mut self) -> HubNext
        ensures leads { Leads (TellsFan self.old) (TellsFan self.new) HasStarted (NextLeads result) }
        ensures targets { targets_of self.new ≡ targets_of self.old }
        ensures later { Later (fan_counts self.old) (fan_counts self.new) }
        ensures cause { result ≡ HubNext.Failed → Rose (fan_counts self.old).faults (fan_counts self.new).faults }
        ensures exact { NextDoes self.old.steps self.old self.new result }
    {
        while self.place < self.steps.as_slice().len() {
            match self.step() {
                Stepped::Over => (),
                Stepped::Event(event) => return event,
            }
        }
        self.last_event = Some(HubNext::Stopped);
        HubNext::Stopped
    }

    fn read(&mut self, k: u64, port: usize, into: &mut [u8]) -> LinkGot
        requires { 0 < length into.old }
        ensures within { GotWithin into.new result }
        ensures leads { Leads (TellsFan self.old) (TellsFan self.new) (HasPort k port (targets_of self.old)) (ReadLeads k port (length into.old) into.new result) }
        ensures targets { targets_of self.new ≡ targets_of self.old }
        ensures later { Later (fan_counts self.old) (fan_counts self.new) }
        ensures cause { result ≡ LinkGot.Failed → Rose ((fan_counts self.old).link_faults k port) ((fan_counts self.new).link_faults k port) }
        ensures wait { result ≡ LinkGot.NotReady → Rose ((fan_counts self.old).waits k port) ((fan_counts self.new).waits k port) }
        ensures exact { ReadDoes (has_port_at self.old.sessions k port) k port into.new result self.old self.new }
    {
        if !self.has_port(k, port) {
            return LinkGot::End;
        }
        self.sessions[k as usize].read(port, into, self.chunk)
    }

    fn write(&mut self, k: u64, port: usize, from: &[u8]) -> LinkPut
        requires { 0 < length from.now }
        ensures within { TookWithin from.now result }
        ensures leads { Leads (TellsFan self.old) (TellsFan self.new) (HasPort k port (targets_of self.old)) (WriteLeads k port from.now result) }
        ensures targets { targets_of self.new ≡ targets_of self.old }
        ensures later { Later (fan_counts self.old) (fan_counts self.new) }
        ensures cause { result ≡ LinkPut.Failed → Rose ((fan_counts self.old).link_faults k port) ((fan_counts self.new).link_faults k port) }
        ensures wait { result ≡ LinkPut.NotReady → Rose ((fan_counts self.old).waits k port) ((fan_counts self.new).waits k port) }
        ensures exact { WriteDoes (has_port_at self.old.sessions k port) k port from.now result self.old self.new }
    {
        if !self.has_port(k, port) {
            self.strays = self.strays.saturating_add(1);
            return LinkPut::Failed;
        }
        self.sessions[k as usize].write(port, from, self.chunk, &mut self.refused)
    }

    fn close(&mut self, k: u64)
        ensures leads { Leads (TellsFan self.old) (TellsFan self.new) (IsOpen k) (CloseLeads k) }
        ensures targets { targets_of self.new ≡ targets_of self.old }
        ensures later { Later (fan_counts self.old) (fan_counts self.new) }
        ensures exact { CloseDoes (is_open_at self.old.sessions k) k self.old self.new }
    {
        if self.is_open(k) {
            self.sessions[k as usize].close();
        }
    }

    ghost bytes = { fan_bytes };

    ghost told_targets = { fan_targets };
}
