//! The system's network: its listener, its connections and its poll. It tells nothing, and is alone at its address.
ghost use Rattle.std.specs.Prelude.{◌≡◌};

use crate::network::{Accepted, Handing, Network, Reports, Waited};
use crate::polling::{NotAccepted, Polling, accept_from, look_up};
use gate_hub::Began;
use mio::net::{TcpListener, TcpStream};
use std::alloc::Global;
use std::net::{Net, SocketAddr};
use std::time::Duration;

/// The system's network. It has no listener and no connections before it listens.
#[derive(Drop)]
pub struct MioNetwork<'n, N> {
    net: &'n N,
    polling: Option<Polling>,
    listener: Option<TcpListener>,
}

impl<'n, N: Net> MioNetwork<'n, N> {
    pub(crate) fn new(net: &'n N) -> MioNetwork<'n, N> {
        MioNetwork {
            net,
            polling: None,
            listener: None,
        }
    }
}

impl<N: Net> Network for MioNetwork<'_, N> {
    type Stream = TcpStream;

    ghost is_telling = { ⊥ };

    ghost is_shared = { ⊥ };

    fn look_up(&mut self, name: &[u8], port: u16) -> Option<SocketAddr> {
        look_up(self.net, name, port)
    }

    fn listen(&mut self, alloc: Global, address: SocketAddr, _sessions: usize) -> Began {
        let polling = match Polling::open(self.net, alloc) {
            Ok(Some(polling)) => polling,
            Ok(None) => return Began::Failed,
            Err(_) => return Began::OutOfMemory,
        };
        let Ok(mut listener) = TcpListener::bind(self.net, address) else {
            return Began::Failed;
        };
        if !polling.listen(&mut listener) {
            return Began::Failed;
        }
        self.polling = Some(polling);
        self.listener = Some(listener);
        Began::Done
    }

    fn stop_listening(&mut self) {
        self.listener = None;
    }

    fn accept(&mut self, next: u64, _has_place: bool) -> Accepted<TcpStream> {
        let Some(listener) = &self.listener else {
            return Accepted::Nothing;
        };
        match accept_from(listener) {
            Ok(stream) => Accepted::Came {
                stream,
                number: next,
            },
            Err(NotAccepted::Nothing) => Accepted::Nothing,
            Err(NotAccepted::Gone) => Accepted::Gone,
            Err(NotAccepted::Failed) => Accepted::Failed,
        }
    }

    fn has_fellows(&self) -> bool {
        false
    }

    fn handing(&self) -> Handing {
        Handing::Never
    }

    fn may_accept(&self) -> bool {
        true
    }

    fn is_left(&self) -> bool {
        false
    }

    fn free_place(&mut self) {}

    fn connect(&mut self, target: SocketAddr) -> Option<TcpStream> {
        TcpStream::connect(self.net, target).ok()
    }

    fn watch(&mut self, stream: &mut TcpStream, token: usize) -> bool {
        match &self.polling {
            Some(polling) => polling.watch(stream, token),
            None => false,
        }
    }

    fn wait<R: Reports>(&mut self, timeout: Option<Duration>, reports: &mut R) -> Waited
        ensures { R.goes reports.old reports.new }
    {
        match &mut self.polling {
            Some(polling) => polling.wait(timeout, reports),
            None => Waited::Failed,
        }
    }

    ghost alone = { λ telling shared. shared };
}
