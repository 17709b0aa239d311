//! The fan over sockets: sessions with several targets. It tells no content, and counts what
//! failed and what wasn't ready.
ghost use Rattle.std.specs.Prelude.{◌≡◌, ◌<◌, ◌≤◌, ◌⊎◌, ℕ, length, IfOk};
ghost use Rattle.gate_base.specs.Causes.{Rose};
ghost use Rattle.gate_fan.specs.Fans.{HasStarted, Later, Leads, NextLeads, NotStarted, StartLeads, started_with};
ghost use Rattle.gate_hub.specs.declared.hub.Began.TheVariants as began;
ghost use Rattle.gate_hub.specs.declared.hub.HubNext.TheVariants as event;
ghost use Rattle.mio_edge.specs.Counting.{fan_counts};
ghost use Rattle.mio_edge.specs.Numbers.{AllAnnounced, Numbers};
ghost use Rattle.mio_edge.specs.Targets.{LeadsSessions, ListensAt, words_of};

use crate::Sockets;
use crate::hub::SideCounts;
use crate::mio_network::MioNetwork;
use crate::network::Network;
use gate_base::{OutOfMemory, Text};
use gate_fan::{Fan, Target};
use gate_hub::{Began, HubNext, LinkGot, LinkPut};
use std::alloc::Global;
use std::net::Net;

/// A fan over the sockets of a network.
///
/// A session is connected to a target when the first byte is to be sent to it. Until then reads of that
/// port answer that it isn't ready, and a target that is dead ends only the sessions that call it.
///
/// It reserves `sessions + 1` places in `start`, each with two buffers for each of its ports, and takes no
/// memory after it.
#[derive(Drop)]
pub struct MioFan<W: Network> {
    sockets: Sockets<W>,
    targets: usize,
    links: SideCounts,
}

impl<'n, N: Net> MioFan<MioNetwork<'n, N>> {
    /// A fan over the system's sockets that hasn't started. Its counts are 0.
    pub fn new(net: &'n N) -> MioFan<MioNetwork<'n, N>>
        ensures faults { result.sockets.faults ≡ 0 }
        ensures links { result.links ≡ record { faults = 0; waits = 0 } }
        ensures targets { result.targets ≡ 0 }
    {
        MioFan::over(MioNetwork::new(net))
    }
}

impl<W: Network> MioFan<W> {
    /// A fan over this network that hasn't started. Its counts are 0.
    pub fn over(network: W) -> MioFan<W>
        ensures faults { result.sockets.faults ≡ 0 }
        ensures links { result.links ≡ record { faults = 0; waits = 0 } }
        ensures targets { result.targets ≡ 0 }
    {
        MioFan {
            sockets: Sockets::on_demand(network),
            targets: 0,
            links: SideCounts {
                faults: 0,
                waits: 0,
            },
        }
    }

    // Counts a fault of a port.
    fn count_fault(&mut self)
        ensures later { Later (fan_counts self.old.sockets.faults self.old.links) (fan_counts self.new.sockets.faults self.new.links) }
        ensures cause { Rose self.old.links.faults self.new.links.faults }
        ensures targets { self.new.targets ≡ self.old.targets }
    {
        self.links.faults = self.links.faults.saturating_add(1);
    }

    // Counts an answer of a port that it isn't ready.
    fn count_wait(&mut self)
        ensures later { Later (fan_counts self.old.sockets.faults self.old.links) (fan_counts self.new.sockets.faults self.new.links) }
        ensures cause { Rose self.old.links.waits self.new.links.waits }
        ensures targets { self.new.targets ≡ self.old.targets }
    {
        self.links.waits = self.links.waits.saturating_add(1);
    }
}

impl<W: Network> Fan for MioFan<W> {
    ghost tells = { λ _ _. ⊥ };

    ghost counts = { λ f. fan_counts f.sockets.faults f.links };

    ghost target_count = { λ f. f.targets };

    fn start(
        &mut self,
        alloc: Global,
        listen: &[u8],
        targets: &[Target],
        accept: u64,
        sessions: usize,
    ) -> Began
        ensures leads { Leads (λ _. ⊥) (λ _. ⊥) NotStarted (StartLeads (started_with listen.now targets.now accept sessions) result) }
        ensures targets { result ≡ began.Done → self.new.targets ≡ length targets.now }
        ensures later { Later (fan_counts self.old.sockets.faults self.old.links) (fan_counts self.new.sockets.faults self.new.links) }
        ensures cause { result ≡ began.Failed → Rose self.old.sockets.faults self.new.sockets.faults }
        ensures unfound { (at : ℕ) → result ≡ began.NotFound at → Rose self.old.sockets.faults self.new.sockets.faults }
        ensures place { (at : ℕ) → result ≡ began.NotFound at → at < length targets.now }
        ensures accept { result ≡ began.Done → self.new.sockets.accept ≡ accept }
        ensures each { result ≡ began.Done → LeadsSessions W.names (words_of targets.now) self.new.sockets.serving.listening }
        ensures listens { result ≡ began.Done → ListensAt W.listens listen.now self.new.sockets.network }
    {
        let Ok(addresses) = addresses_of(alloc, targets) else {
            return Began::OutOfMemory;
        };
        self.targets = targets.len();
        self.sockets
            .start(alloc, listen, addresses.as_slice(), accept, sessions)
    }

    fn next(&mut self) -> HubNext
        ensures leads { Leads (λ _. ⊥) (λ _. ⊥) HasStarted (NextLeads result) }
        ensures targets { self.new.targets ≡ self.old.targets }
        ensures later { Later (fan_counts self.old.sockets.faults self.old.links) (fan_counts self.new.sockets.faults self.new.links) }
        ensures cause { result ≡ event.Failed → Rose self.old.sockets.faults self.new.sockets.faults }
        ensures numbers { Numbers W.is_shared result self.old.sockets.serving.announced self.new.sockets.serving.announced }
        ensures stopped { result ≡ event.Stopped → AllAnnounced self.new.sockets.accept self.new.sockets.serving.announced ⊎ W.is_shared }
    {
        self.sockets.next()
    }

    fn read(&mut self, k: u64, port: usize, into: &mut [u8]) -> LinkGot {
        let got = self.sockets.read(k, port, into);
        match got {
            LinkGot::Failed => self.count_fault(),
            LinkGot::NotReady => self.count_wait(),
            LinkGot::Bytes(_) | LinkGot::End => (),
        }
        got
    }

    fn write(&mut self, k: u64, port: usize, from: &[u8]) -> LinkPut {
        let put = self.sockets.write(k, port, from);
        match put {
            LinkPut::Failed => self.count_fault(),
            LinkPut::NotReady => self.count_wait(),
            LinkPut::Took(_) => (),
        }
        put
    }

    fn close(&mut self, k: u64) {
        self.sockets.close(k);
    }

    ghost bytes = { λ fan m told. absurd told };

    ghost told_targets = { λ fan m told. absurd told };
}

// Copies of the targets' addresses.
fn addresses_of(alloc: Global, targets: &[Target]) -> Result<Vec<Text>, OutOfMemory>
    ensures { IfOk result (λ addresses. addresses.items ≡ words_of targets.now) }
{
    let mut addresses = Vec::with_capacity(alloc, targets.len())?;
    for target in targets {
        addresses.push(Text::new(alloc, target.address.as_slice())?)?;
    }
    Ok(addresses)
}
