//! One session of the fan in memory: its ports.
ghost use Rattle.std.specs.Prelude.{◌≡◌, ◌<◌, length, map, None, true, false, IfOk, OnErr};
ghost use Rattle.gate_hub.specs.Hubs.{GotWithin, TookWithin};
ghost use Rattle.gate_memory.specs.Link.{ReadsLink, WritesLink, changed_by, Grows, unasked_link};
ghost use Rattle.gate_memory.specs.FanPorts.{port_of, has_port, new_ports, changed_session, MakesSession, PortDoes, NoPortFell};

use crate::link::{Change, MemLink, Passed};
use gate_base::OutOfMemory;
use gate_hub::{LinkGot, LinkPut};
use std::alloc::Global;
use std::marker::Model;

/// A session: its ports, and whether it was closed.
#[derive(Drop)]
pub struct FanSession {
    closed: bool,
    ports: Vec<MemLink>,
}

impl Model for FanSession {
    ghost use Rattle.gate_memory.specs.FanPorts.{SessionState};

    ghost Value = { SessionState };

    ghost view = { λ s. record { closed = s.closed; ports = s.ports.items } };
}

impl FanSession {
    /// A session of a client and so many targets, over which nothing went.
    ///
    /// `OutOfMemory`: the memory for its ports was not found.
    pub fn open(alloc: Global, targets: usize) -> Result<FanSession, OutOfMemory>
        ensures { IfOk result (λ session. session ≡ record { closed = false; ports = new_ports targets }) }
    {
        Ok(FanSession {
            closed: false,
            ports: open_ports(alloc, targets)?,
        })
    }

    /// Whether it is open and has such a port.
    pub fn has_port(&self, port: usize) -> bool
        ensures { result ≡ has_port self.now port }
    {
        !self.closed && port < self.ports.len()
    }

    /// Whether it was closed.
    pub fn is_closed(&self) -> bool
        ensures { result ≡ self.now.closed }
    {
        self.closed
    }

    /// Marks it as closed.
    pub fn close(&mut self)
        ensures { self.new ≡ record self.old { closed = true } }
    {
        self.closed = true;
    }

    /// The bytes that were sent to a port: none where there is no such port.
    pub fn sent(&self, port: usize) -> &[u8]
        ensures { result.now ≡ (port_of self.now port).told.sent }
    {
        match self.ports.get(port) {
            None => &[],
            Some(link) => link.sent(),
        }
    }

    /// Reads a port.
    pub fn read(&mut self, port: usize, into: &mut [u8], chunk: usize) -> LinkGot
        requires room { 0 < length into.old }
        requires chunk { 0 < chunk }
        requires port { has_port self.old port ≡ true }
        ensures within { GotWithin into.new result }
        ensures exact { PortDoes port (ReadsLink chunk into.new result) self.old self.new }
        ensures later { NoPortFell self.old self.new }
    {
        self.ports[port].read(into, chunk)
    }

    /// Writes to a port.
    pub fn write(&mut self, port: usize, from: &[u8], chunk: usize, refused: &mut u64) -> LinkPut
        requires some { 0 < length from.now }
        requires chunk { 0 < chunk }
        requires port { has_port self.old port ≡ true }
        ensures within { TookWithin from.now result }
        ensures exact { PortDoes port (WritesLink chunk from.now result refused.old refused.new) self.old self.new }
        ensures later { NoPortFell self.old self.new }
    {
        self.ports[port].write(from, chunk, refused)
    }

    /// Does what a step says of a port: then an event names it.
    pub fn perform(&mut self, port: usize, change: Change<'_>) -> Result<Passed, OutOfMemory>
        requires port { has_port self.old port ≡ true }
        ensures done { IfOk result (λ passed. MakesSession (changed_session port (changed_by change.entry) self.old) self.old self.new passed) }
        ensures err { OnErr result ((self.new ≡ self.old) × Grows change.entry × (changed_session port (changed_by change.entry) self.old ≡ None → ⊥)) }
    {
        let passed = self.ports[port].perform(change)?;
        if let Passed::Performed = passed {
            forget_answers(&mut self.ports);
        }
        Ok(passed)
    }
}

// The ports of a client and so many targets.
fn open_ports(alloc: Global, targets: usize) -> Result<Vec<MemLink>, OutOfMemory>
    ensures { IfOk result (λ ports. ports.items ≡ new_ports targets) }
{
    let mut ports = Vec::new(alloc);
    'ports: while ports.len() <= targets {
        ports.push(MemLink::new(alloc))?;
    }
    Ok(ports)
}

// An event has named the session of these ports.
fn forget_answers(ports: &mut [MemLink])
    ensures { ports.new ≡ map unasked_link ports.old }
{
    for port in ports.iter_mut() {
        port.forget_answers();
    }
}
