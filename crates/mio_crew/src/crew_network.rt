//! The network under one of several servers at an address.
ghost use Rattle.std.specs.Prelude.{◌≡◌, ◌<◌, ◌-◌, ◌^◌, ⊤, ℕ};
ghost use Rattle.mio_edge.specs.Numbers.{Passes, IfNumbered};

use crate::crew::Crew;
use crate::ring::{Inbox, Outbox};
use gate_hub::Began;
use mio::net::{TcpListener, TcpStream};
use mio_edge::{Accepted, Handing, Network, NotAccepted, Polling, Reports, Waited, accept_from};
use std::alloc::Global;
use std::net::{Net, SocketAddr};
use std::sync::Arc;
use std::time::Duration;

/// The system's network under one of several servers at an address. It tells nothing.
///
/// One of them accepts the connections, and the others are handed some of them. The names of targets are known that were found when
/// the crew was opened.
#[derive(Drop)]
pub struct CrewNetwork<'n, N> {
    net: &'n N,
    crew: Arc<Crew, Global>,
    /// The server's seat in the crew.
    seat: usize,
    polling: Polling,
    /// Of the one that accepts, once it listens.
    listener: Option<TcpListener>,
    /// Of the one that accepts: the ways to the others, in the order of their seats, which are the first ones.
    outboxes: Vec<Outbox>,
    /// Of one that is handed connections.
    inbox: Option<Inbox>,
    /// Connections may come still.
    may_accept: bool,
}

impl<'n, N: Net> CrewNetwork<'n, N> {
    /// The network of the server in this seat, by which no connections come yet.
    pub(crate) fn new(
        net: &'n N,
        alloc: Global,
        crew: Arc<Crew, Global>,
        seat: usize,
        polling: Polling,
    ) -> CrewNetwork<'n, N> {
        CrewNetwork {
            net,
            crew,
            seat,
            polling,
            listener: None,
            outboxes: Vec::new(alloc),
            inbox: None,
            may_accept: true,
        }
    }

    /// Has connections handed to it.
    pub(crate) fn receive_by(&mut self, inbox: Inbox) {
        self.inbox = Some(inbox);
    }

    /// Has it hand connections on.
    pub(crate) fn hand_by(&mut self, outboxes: Vec<Outbox>) {
        self.outboxes = outboxes;
    }

    // Accepts the next connection, and hands it on where another server has more places.
    fn accept_new(&mut self, next: u64, has_place: bool) -> Accepted<TcpStream>
        requires { next < 2 ^ 64 - 1 }
        ensures { IfNumbered result (λ k. Passes ⊤ next k × (k < 2 ^ 64 - 1)) }
    {
        let fellow = self.roomiest(has_place);
        if fellow.is_none() && !has_place {
            return Accepted::Failed;
        }
        let Some(listener) = &self.listener else {
            return Accepted::Nothing;
        };
        match accept_from(listener) {
            Ok(stream) => self.give(fellow, next, stream),
            Err(NotAccepted::Nothing) => Accepted::Nothing,
            Err(NotAccepted::Gone) => Accepted::Gone,
            Err(NotAccepted::Failed) => Accepted::Failed,
        }
    }

    // The server that has the most places, if that isn't this one. One whose ring is full has none.
    fn roomiest(&mut self, has_place: bool) -> Option<usize> {
        let mut most = if has_place {
            self.crew.free_places(self.seat)
        } else {
            0
        };
        let mut chosen = None;
        for fellow in 0..self.outboxes.len() {
            let free = self.crew.free_places(fellow);
            if free > most && self.has_room(fellow) {
                most = free;
                chosen = Some(fellow);
            }
        }
        chosen
    }

    // Whether a connection can be handed to this server.
    fn has_room(&mut self, fellow: usize) -> bool {
        match self.outboxes.get_mut(fellow) {
            Some(outbox) => outbox.has_room(),
            None => false,
        }
    }

    // Hands a connection to this server, or keeps it.
    fn give(&mut self, fellow: Option<usize>, number: u64, stream: TcpStream) -> Accepted<TcpStream>
        requires { number < 2 ^ 64 - 1 }
        ensures { IfNumbered result (λ k. Passes ⊤ number k × (k < 2 ^ 64 - 1)) }
    {
        match self.hand(fellow, number, stream) {
            Ok(()) => Accepted::Handed,
            Err(stream) => {
                self.crew.take_place(self.seat);
                Accepted::Came { stream, number }
            }
        }
    }

    // Hands a connection to this server. It comes back where that can't be.
    fn hand(
        &mut self,
        fellow: Option<usize>,
        number: u64,
        stream: TcpStream,
    ) -> Result<(), TcpStream>
        requires { number < 2 ^ 64 - 1 }
    {
        let Some(fellow) = fellow else {
            return Err(stream);
        };
        let Some(outbox) = self.outboxes.get_mut(fellow) else {
            return Err(stream);
        };
        let handed = outbox.hand(number, stream);
        if handed.is_ok() {
            self.crew.take_place(fellow);
            self.crew.wake(fellow);
        }
        handed
    }

    // Takes the next connection that was handed over. Once none is any more, connections don't come.
    fn accept_handed(&mut self, next: u64) -> Accepted<TcpStream>
        ensures { IfNumbered result (λ k. Passes ⊤ next k × (k < 2 ^ 64 - 1)) }
    {
        let Some(inbox) = &mut self.inbox else {
            return Accepted::Nothing;
        };
        // Asked before, lest one that is handed over in between be passed over.
        let is_closed = inbox.is_closed();
        let Some((number, stream)) = inbox.take() else {
            return self.wait_for_handed(is_closed);
        };
        // Always so: the numbers rise, and the next one is that of the last session.
        if number < next {
            return Accepted::Gone;
        }
        Accepted::Came { stream, number }
    }

    // None was handed over.
    fn wait_for_handed(&mut self, is_closed: bool) -> Accepted<TcpStream>
        ensures { IfNumbered result (λ k. ⊥) }
    {
        if !is_closed {
            return Accepted::Nothing;
        }
        self.may_accept = false;
        Accepted::Gone
    }

    // Whether a server that is handed connections has a place.
    fn has_roomy_fellow(&self) -> bool {
        for fellow in 0..self.outboxes.len() {
            if self.crew.free_places(fellow) > 0 {
                return true;
            }
        }
        false
    }
}

impl<N: Net> Network for CrewNetwork<'_, N> {
    type Stream = TcpStream;

    ghost is_telling = { ⊥ };

    ghost is_shared = { ⊤ };

    fn look_up(&mut self, name: &[u8], port: u16) -> Option<SocketAddr> {
        self.crew.address_of(name, port)
    }

    fn listen(&mut self, _alloc: Global, address: SocketAddr, sessions: usize) -> Began {
        if self.inbox.is_none() {
            let Ok(mut listener) = TcpListener::bind(self.net, address) else {
                return Began::Failed;
            };
            if !self.polling.listen(&mut listener) {
                return Began::Failed;
            }
            self.listener = Some(listener);
        }
        self.crew.open_places(self.seat, sessions);
        Began::Done
    }

    fn stop_listening(&mut self) {
        self.listener = None;
        self.inbox = None;
        let has_fellows = !self.outboxes.is_empty();
        self.outboxes.clear();
        if has_fellows {
            self.crew.wake_all();
        }
    }

    fn accept(&mut self, next: u64, has_place: bool) -> Accepted<TcpStream> {
        if self.inbox.is_none() {
            return self.accept_new(next, has_place);
        }
        if !has_place {
            return Accepted::Failed;
        }
        self.accept_handed(next)
    }

    fn has_fellows(&self) -> bool {
        true
    }

    fn handing(&self) -> Handing {
        if self.inbox.is_some() {
            return Handing::Never;
        }
        if self.has_roomy_fellow() {
            return Handing::Now;
        }
        Handing::Later
    }

    fn may_accept(&self) -> bool {
        self.may_accept
    }

    fn is_left(&self) -> bool {
        self.crew.has_left()
    }

    fn free_place(&mut self) {
        self.crew.free_place(self.seat);
    }

    fn connect(&mut self, target: SocketAddr) -> Option<TcpStream> {
        TcpStream::connect(self.net, target).ok()
    }

    fn watch(&mut self, stream: &mut TcpStream, token: usize) -> bool {
        self.polling.watch(stream, token)
    }

    fn wait<R: Reports>(&mut self, timeout: Option<Duration>, reports: &mut R) -> Waited
        ensures { R.goes reports.old reports.new }
    {
        self.polling.wait(timeout, reports)
    }

    ghost alone = { λ telling shared. telling };
}
