//! The system's poll: what is watched by it, and the wait for what comes.
ghost use Rattle.std.specs.Prelude.{◌≡◌};

use crate::network::{Readiness, Reports, Waited};
use gate_base::OutOfMemory;
use mio::event::Event;
use mio::net::{TcpListener, TcpStream};
use mio::{Events, Interest, Poll, Token, Waker};
use std::alloc::Global;
use std::io::ErrorKind;
use std::net::{Net, SocketAddr, ToSocketAddrs};
use std::time::Duration;

/// What is reported by this token is that a connection may wait: by the listener, or by one who has accepted it.
const CONNECTION: Token = Token(usize::MAX);

/// At most so many events are taken at a time.
const MOST_EVENTS: usize = 1024;

/// A poll, and room for what it reports.
#[derive(Drop)]
pub struct Polling {
    poll: Poll,
    events: Events<Global>,
}

impl Polling {
    /// A poll by which nothing is watched: none where the system refuses one.
    ///
    /// `OutOfMemory`: the memory for its events was not found.
    pub fn open<N: Net>(net: &N, alloc: Global) -> Result<Option<Polling>, OutOfMemory> {
        let events = Events::with_capacity(alloc, MOST_EVENTS)?;
        match Poll::new(net) {
            Ok(poll) => Ok(Some(Polling { poll, events })),
            Err(_) => Ok(None),
        }
    }

    /// Has it reported that a connection waits to be accepted from this listener. It says whether that is possible.
    pub fn listen(&self, listener: &mut TcpListener) -> bool {
        let registry = self.poll.registry();
        registry
            .register(listener, CONNECTION, Interest::READABLE)
            .is_ok()
    }

    /// By which another thread has it reported that a connection may wait: none where the system refuses one.
    pub fn waker(&self) -> Option<Waker> {
        Waker::new(self.poll.registry(), CONNECTION).ok()
    }

    /// Has what comes of a connection reported by this token. It says whether that is possible.
    pub fn watch(&self, stream: &mut TcpStream, token: usize) -> bool {
        let _ = stream.set_nodelay(true);
        let both = Interest::READABLE | Interest::WRITABLE;
        let registry = self.poll.registry();
        registry.register(stream, Token(token), both).is_ok()
    }

    /// Waits until something comes, for so long at most, and reports it. Each readiness is reported once, when it begins.
    pub fn wait<R: Reports>(&mut self, timeout: Option<Duration>, reports: &mut R) -> Waited
        ensures { R.goes reports.old reports.new }
    {
        if self.poll.poll(&mut self.events, timeout).is_err() {
            return Waited::Failed;
        }
        let mut waited = Waited::Nothing;
        for event in &self.events {
            if event.token() == CONNECTION {
                waited = Waited::Connection;
            } else {
                reports.report(event.token().0, readiness(*event));
                waited = with_news(waited);
            }
        }
        waited
    }
}

/// Why no connection was accepted.
#[derive(Clone, Copy)]
pub enum NotAccepted {
    /// None waits.
    Nothing,
    /// It was gone already. Another may wait.
    Gone,
    /// Something else failed, and is to be tried again later.
    Failed,
}

/// Accepts the next connection that waits.
pub fn accept_from(listener: &TcpListener) -> Result<TcpStream, NotAccepted> {
    match listener.accept() {
        Ok((stream, _)) => Ok(stream),
        Err(error) => Err(not_accepted(error.kind())),
    }
}

/// The first address that the system knows for a host's name, with this port: none where it knows none.
pub fn look_up<N: Net>(net: &N, name: &[u8], port: u16) -> Option<SocketAddr> {
    let name = str::from_utf8(name).ok()?;
    (name, port).to_socket_addrs(net).ok()?.next()
}

fn not_accepted(kind: ErrorKind) -> NotAccepted {
    match kind {
        ErrorKind::WouldBlock => NotAccepted::Nothing,
        ErrorKind::ConnectionAborted | ErrorKind::Interrupted => NotAccepted::Gone,
        _ => NotAccepted::Failed,
    }
}

// What a wait answers once something was reported besides.
fn with_news(waited: Waited) -> Waited {
    match waited {
        Waited::Nothing => Waited::News,
        _ => waited,
    }
}

// What an event says of a connection.
fn readiness(event: Event) -> Readiness {
    Readiness {
        is_readable: event.is_readable(),
        is_writable: event.is_writable(),
        is_closing: event.is_read_closed(),
        has_failed: event.is_error(),
    }
}
