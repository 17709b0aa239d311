//! A network in memory.
ghost use Rattle.std.specs.Prelude.{◌≡◌, ◌<◌, ◌-◌, ◌^◌, ⊤, [], false, Some, IfOk, IfSome};
ghost use Rattle.std.specs.Net.Socket.{socket_port};
ghost use Rattle.std.specs.declared.net.socket_addr.SocketAddr.{SocketAddr};
ghost use Rattle.mio_edge.specs.Wire.{Stays, IfCame, new_wire};
ghost use Rattle.mio_edge.specs.Numbers.{Passes, IfNumbered};
ghost use Rattle.mio_edge.specs.declared.network.Accepted.TheVariants as accepted;
ghost use Rattle.edge_memory.specs.Streams.{TellsStream};

use crate::MemStream;
use gate_base::OutOfMemory;
use gate_hub::Began;
use mio_edge::{Accepted, Handing, Network, Readiness, Reports, Waited};
use std::alloc::Global;
use std::net::{IpAddr, Ipv4Addr, SocketAddr};
use std::time::Duration;

/// What each connection is reported to be: a read or a write finds whether it is.
const READY: Readiness = Readiness {
    is_readable: true,
    is_writable: true,
    is_closing: false,
    has_failed: false,
};

/// A network whose streams tell all, alone at its address. Each wait reports all of its connections.
#[derive(Drop)]
pub struct MemNetwork {
    alloc: Global,
    clients: Vec<Vec<u8>>,
    targets: Vec<Vec<u8>>,
    room: usize,
    tokens: Vec<usize>,
    is_listening: bool,
}

impl MemNetwork {
    /// A network to which clients connect that send these bytes, the last first, and whose targets send
    /// those, the last first. Each stream takes so many bytes, and ends behind what it sends.
    pub fn new(
        alloc: Global,
        clients: Vec<Vec<u8>>,
        targets: Vec<Vec<u8>>,
        room: usize,
    ) -> MemNetwork
        ensures peers { (result.clients ≡ clients) × (result.targets ≡ targets) × (result.room ≡ room) }
        ensures quiet { (result.tokens.items ≡ []) × (result.is_listening ≡ false) }
    {
        MemNetwork {
            alloc,
            clients,
            targets,
            room,
            tokens: Vec::new(alloc),
            is_listening: false,
        }
    }
}

impl Network for MemNetwork {
    type Stream = MemStream;

    ghost is_telling = { ⊤ };

    ghost is_shared = { ⊥ };

    ghost names = { λ _ port address. socket_port address ≡ port };

    // Each name is known: a connection is to the next target whatever its address.
    fn look_up(&mut self, _name: &[u8], port: u16) -> Option<SocketAddr>
        ensures { (address : SocketAddr) → result ≡ Some address → socket_port address ≡ port }
    {
        Some(SocketAddr::new(IpAddr::V4(Ipv4Addr::LOCALHOST), port))
    }

    fn listen(&mut self, _alloc: Global, _address: SocketAddr, _sessions: usize) -> Began {
        self.is_listening = true;
        Began::Done
    }

    fn stop_listening(&mut self) {
        self.is_listening = false;
    }

    fn accept(&mut self, next: u64, _has_place: bool) -> Accepted<MemStream>
        requires { next < 2 ^ 64 - 1 }
        ensures came { ⊤ → IfCame result (λ stream. TellsStream stream new_wire) }
        ensures number { IfNumbered result (λ k. Passes ⊥ next k × (k < 2 ^ 64 - 1)) }
        ensures handed { result ≡ accepted.Handed → ⊥ }
    {
        match self.clients.pop() {
            Some(sends) => came(MemStream::new(self.alloc, &sends, true, self.room), next),
            None => Accepted::Nothing,
        }
    }

    fn has_fellows(&self) -> bool {
        false
    }

    fn handing(&self) -> Handing {
        Handing::Never
    }

    fn may_accept(&self) -> bool {
        true
    }

    fn is_left(&self) -> bool {
        false
    }

    fn free_place(&mut self) {}

    fn connect(&mut self, _target: SocketAddr) -> Option<MemStream>
        ensures { ⊤ → IfSome result (λ stream. TellsStream stream new_wire) }
    {
        let sends = self.targets.pop()?;
        MemStream::new(self.alloc, &sends, true, self.room).ok()
    }

    fn watch(&mut self, stream: &mut MemStream, token: usize) -> bool
        ensures { Stays (TellsStream stream.old) (TellsStream stream.new) }
    {
        self.tokens.push(token).is_ok()
    }

    fn wait<R: Reports>(&mut self, _timeout: Option<Duration>, reports: &mut R) -> Waited
        ensures { R.goes reports.old reports.new }
    {
        for token in &self.tokens {
            reports.report(*token, READY);
        }
        if self.is_listening && !self.clients.is_empty() {
            return Waited::Connection;
        }
        if self.tokens.is_empty() {
            return Waited::Nothing;
        }
        Waited::News
    }

    ghost alone = { λ telling shared. shared };
}

// The connection of this number that came, if there was memory for it.
fn came(stream: Result<MemStream, OutOfMemory>, number: u64) -> Accepted<MemStream>
    requires told { IfOk stream (λ stream. TellsStream stream new_wire) }
    requires below { number < 2 ^ 64 - 1 }
    ensures came { IfCame result (λ stream. TellsStream stream new_wire) }
    ensures number { IfNumbered result (λ k. Passes ⊥ number k × (k < 2 ^ 64 - 1)) }
    ensures handed { result ≡ accepted.Handed → ⊥ }
{
    match stream {
        Ok(stream) => Accepted::Came { stream, number },
        Err(_) => Accepted::Failed,
    }
}
