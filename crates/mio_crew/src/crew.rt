//! What the servers at an address share.
use gate_base::Text;
use mio::Waker;
use std::net::SocketAddr;
use std::sync::atomic::{AtomicBool, AtomicI64, Ordering};

/// What the servers at an address share. Each has a seat, by which it is named.
#[derive(Drop)]
pub(crate) struct Crew {
    /// One of them has ended before its time.
    has_left: AtomicBool,
    seats: Vec<Seat>,
    hosts: Vec<Host>,
}

/// What the others see of a server.
#[derive(Drop)]
pub(crate) struct Seat {
    /// How many more sessions it may be given: none before it listens, and less than none where it has taken more.
    free: AtomicI64,
    /// Ends its wait. It stands here as long as any of them, lest a wake be lost.
    waker: Waker,
}

/// The address that was found for the name of a target.
#[derive(Drop)]
pub(crate) struct Host {
    pub(crate) name: Text,
    pub(crate) port: u16,
    pub(crate) address: SocketAddr,
}

impl Seat {
    /// The seat of a server that doesn't listen yet.
    pub(crate) fn new(waker: Waker) -> Seat {
        Seat {
            free: AtomicI64::new(0),
            waker,
        }
    }
}

impl Crew {
    /// Servers of which none has left, in these seats.
    pub(crate) fn new(seats: Vec<Seat>, hosts: Vec<Host>) -> Crew {
        Crew {
            has_left: AtomicBool::new(false),
            seats,
            hosts,
        }
    }

    /// Lets a server be given so many sessions.
    pub(crate) fn open_places(&self, seat: usize, count: usize) {
        if let Some(seat) = self.seats.get(seat) {
            let count = i64::try_from(count).unwrap_or(i64::MAX);
            seat.free.store(count, Ordering::SeqCst);
        }
    }

    /// Notes that a server is given a session.
    pub(crate) fn take_place(&self, seat: usize) {
        if let Some(seat) = self.seats.get(seat) {
            seat.free.fetch_sub(1, Ordering::SeqCst);
        }
    }

    /// Notes that a session of a server is closed.
    pub(crate) fn free_place(&self, seat: usize) {
        if let Some(seat) = self.seats.get(seat) {
            seat.free.fetch_add(1, Ordering::SeqCst);
        }
    }

    /// How many more sessions a server may be given: at least 0.
    pub(crate) fn free_places(&self, seat: usize) -> i64 {
        match self.seats.get(seat) {
            Some(seat) => seat.free.load(Ordering::SeqCst).max(0),
            None => 0,
        }
    }

    /// Ends a server's wait.
    pub(crate) fn wake(&self, seat: usize) {
        if let Some(seat) = self.seats.get(seat) {
            let _ = seat.waker.wake();
        }
    }

    /// Ends each server's wait.
    pub(crate) fn wake_all(&self) {
        for seat in &self.seats {
            let _ = seat.waker.wake();
        }
    }

    /// Has all servers end.
    pub(crate) fn leave(&self) {
        self.has_left.store(true, Ordering::SeqCst);
        self.wake_all();
    }

    /// Whether one of them has ended before its time.
    pub(crate) fn has_left(&self) -> bool {
        self.has_left.load(Ordering::SeqCst)
    }

    /// The address that was found for a name with this port.
    pub(crate) fn address_of(&self, name: &[u8], port: u16) -> Option<SocketAddr> {
        for host in &self.hosts {
            if host.port == port && host.name.as_slice() == name {
                return Some(host.address);
            }
        }
        None
    }
}
