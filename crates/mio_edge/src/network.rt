//! What the sockets of a server stand on: a listener, connections to targets, and the wait for what comes of them.
ghost use Rattle.std.specs.Prelude.{◌≡◌, ◌<◌, ◌-◌, ◌^◌, ℕ, List, true, false, Some, IfSome};
ghost use Rattle.std.specs.declared.net.socket_addr.SocketAddr.{SocketAddr};
ghost use Rattle.gate_hub.specs.declared.hub.Began.TheVariants as began;
ghost use Rattle.mio_edge.specs.Wire.{Stays, IfCame, new_wire};
ghost use Rattle.mio_edge.specs.Numbers.{Passes, IfNumbered};
ghost use Rattle.mio_edge.specs.declared.network.Readiness.{Readiness};

use crate::Stream;
use gate_hub::Began;
use std::alloc::Global;
use std::net::SocketAddr;
use std::time::Duration;

/// What an accept answers.
#[derive(Drop)]
pub enum Accepted<S: Drop> {
    /// A connection, and the number that its session gets.
    Came { stream: S, number: u64 },
    /// The connection of the next number, which another server at the address serves.
    Handed,
    /// None waits.
    Nothing,
    /// There was none in the end: it was gone before it was accepted, say. Another may wait.
    Gone,
    /// It failed, for want of descriptors, say.
    Failed,
}

/// Whether a connection that finds no place here may be handed on to another server at the address.
#[derive(Clone, Copy, PartialEq, Eq)]
pub enum Handing {
    /// It waits for a place here.
    Never,
    /// No other has a place now. That one has it again isn't reported.
    Later,
    /// Another has a place.
    Now,
}

/// What a wait answers: that it failed, that nothing came, that something was reported, or that a
/// connection waits to be accepted besides.
#[derive(Clone, Copy, PartialEq, Eq)]
pub enum Waited {
    Failed,
    Nothing,
    News,
    Connection,
}

/// What is reported of a connection.
#[derive(Clone, Copy)]
pub struct Readiness {
    pub is_readable: bool,
    pub is_writable: bool,
    /// The peer will send no more.
    pub is_closing: bool,
    pub has_failed: bool,
}

/// To whom a wait reports.
pub trait Reports {
    /// What reports may do to it.
    ghost goes: { Self → Self → Type 0 };

    /// What a report at this token does to it.
    ghost notes: { ℕ → Readiness → Self → Self → Type 0 };

    /// Something came of the connection that is watched by this token.
    fn report(&mut self, token: usize, news: Readiness)
        ensures goes { goes self.old self.new }
        ensures notes { notes token news self.old self.new };

    /// No report does nothing.
    ghost stays: { (a : Self) → goes a a };

    /// Reports may follow each other.
    ghost follows: { (a b c : Self) → goes a b → goes b c → goes a c };
}

/// A network: at most one listener, and connections of which it reports.
///
/// It may be one of several whose servers share an address. Each has sessions of its own; their connections are numbered
/// together, in the order in which they were accepted.
pub trait Network: Drop {
    type Stream: Stream;

    /// Its streams tell what goes over them.
    ghost is_telling: { Type 0 };

    /// It is one of several at an address.
    ghost is_shared: { Type 0 };

    /// Which addresses it may know for a host's name and a port: any, unless it says more.
    ghost names: { List ℕ → ℕ → SocketAddr → Type 0 } = { λ _ _ _. Unit {0} };

    /// It listens at this address, as far as it tells that.
    ghost listens: { Self → SocketAddr → Type 0 } = { λ _ _. Unit {0} };

    /// The first address that is known for a host's name, with this port: none where none is known.
    fn look_up(&mut self, name: &[u8], port: u16) -> Option<SocketAddr>
        ensures { (address : SocketAddr) → result ≡ Some address → names name.now port address };

    /// Begins to listen at an address, for so many sessions at a time.
    ///
    /// `Failed`: the system refused.
    fn listen(&mut self, alloc: Global, address: SocketAddr, sessions: usize) -> Began
        ensures { result ≡ began.Done → listens self.new address };

    /// Lets the listener go: later connections are refused. The others at the address get no more from here.
    fn stop_listening(&mut self);

    /// Accepts the next connection that waits, where `next` is the next number. Nothing went over it. `has_place`: the
    /// caller has a place for it; without one it can only be handed on.
    fn accept(&mut self, next: u64, has_place: bool) -> Accepted<Self::Stream>
        requires { next < 2 ^ 64 - 1 }
        ensures came { is_telling → IfCame result (λ stream. Self.Stream.tells stream new_wire) }
        ensures number { IfNumbered result (λ k. Passes is_shared next k × (k < 2 ^ 64 - 1)) }
        ensures handed { result ≡ Accepted.Handed → is_shared };

    /// Whether it is one of several at an address.
    fn has_fellows(&self) -> bool
        ensures shared { result ≡ true → is_shared }
        ensures all { is_shared → result ≡ true };

    /// Whether a connection that finds no place here may be handed on.
    fn handing(&self) -> Handing;

    /// Whether connections may come still.
    fn may_accept(&self) -> bool
        ensures { result ≡ false → is_shared };

    /// Whether another server at the address has ended before its time, so that this one is to end too.
    fn is_left(&self) -> bool
        ensures { result ≡ true → is_shared };

    /// A session over it was closed, so its place may be given to another.
    fn free_place(&mut self);

    /// Begins a connection to a target: none where that is refused at once. Nothing went over it.
    fn connect(&mut self, target: SocketAddr) -> Option<Self::Stream>
        ensures { is_telling → IfSome result (λ stream. Self.Stream.tells stream new_wire) };

    /// Has what comes of a connection reported by this token. It says whether that is possible.
    fn watch(&mut self, stream: &mut Self::Stream, token: usize) -> bool
        ensures { Stays (Self.Stream.tells stream.old) (Self.Stream.tells stream.new) };

    /// Waits until something comes, for so long at most, and reports it. Each readiness is reported once, when it begins.
    fn wait<R: Reports>(&mut self, timeout: Option<Duration>, reports: &mut R) -> Waited
        ensures { R.goes reports.old reports.new };

    /// One that tells is alone at its address.
    ghost alone: { is_telling → is_shared → ⊥ };
}
