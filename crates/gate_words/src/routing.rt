//! The command that routes.
ghost use Rattle.std.specs.Prelude.{◌≡◌, ◌<◌, ◌≤◌, ◌^◌, IfOk, IfSome};
ghost use Rattle.gate_words.specs.Commands.{IsInRange};
ghost use Rattle.gate_words.specs.Options.{IsInRange as AreInRange};
ghost use Rattle.gate_words.specs.Routing.{route_of, route_at, route_with, route_as, routed_part_of, is_routed_within_memory, routed_bytes};

use crate::command::{Command, proto};
use crate::limits::{
    BUFFER_BYTES, DEFAULT_CALLS, DEFAULT_LIMIT, DEFAULT_SESSIONS, DEFAULT_THREADS, HELD_BY_PORT,
    HELD_BY_ROUTER, MOST_EVENTS, MOST_HELD, MOST_SESSIONS, MOST_TARGETS, ROUTED_CALL_BYTES,
    SESSION_BYTES,
};
use crate::options::{Declared, Options, read_options};
use crate::shares::share;
use crate::targets::{Targets, read_targets};
use gate_base::{OutOfMemory, Text, Word};
use peer_addresses::can_listen_at;
use protocol_traits::Proto;
use std::alloc::Global;

/// A server that leads the calls of each service to a target of its own.
#[derive(Drop)]
pub struct Routing {
    /// The protocol of the clients.
    pub client: Proto,
    /// The protocol of all targets.
    pub upstream: Proto,
    /// The address at which it listens.
    pub listen: Text,
    /// The services and their addresses.
    pub targets: Targets,
    /// The most bytes of a frame.
    pub limit: u32,
    /// The most sessions at a time.
    pub sessions: u32,
    /// The connections after which it ends; 0 for none.
    pub accept: u64,
    /// The events after which it ends.
    pub events: u64,
    /// The most open calls of a session.
    pub calls: u32,
    /// The threads that serve, each its own part of the sessions.
    pub threads: u32,
    /// Whether each refusal is told.
    pub tells_refusals: bool,
}

impl Routing {
    /// The same router with the sessions of the thread at this place, counted from 0, where so many threads share them.
    ///
    /// `OutOfMemory`: the memory for a copy of the addresses was not found.
    pub fn part_of(&self, alloc: Global, threads: usize, at: usize) -> Result<Routing, OutOfMemory>
        requires some { 0 < threads }
        requires few { self.now.sessions ≤ MOST_SESSIONS }
        ensures { IfOk result (λ part. part ≡ routed_part_of self.now threads at) }
    {
        Ok(Routing {
            client: self.client,
            upstream: self.upstream,
            listen: Text::new(alloc, self.listen.as_slice())?,
            targets: self.targets.copy(alloc)?,
            limit: self.limit,
            sessions: share(self.sessions, threads, at),
            accept: self.accept,
            events: self.events,
            calls: self.calls,
            threads: self.threads,
            tells_refusals: self.tells_refusals,
        })
    }
}

/// The address and targets of a router, and the protocols on both sides.
#[derive(Drop)]
struct RouteEnds {
    client: Proto,
    upstream: Proto,
    listen: Text,
    targets: Targets,
}

// CLIENT UPSTREAM LISTEN TARGETS, and options
pub fn route(alloc: Global, words: &[Word]) -> Result<Option<Command>, OutOfMemory>
    ensures value { IfOk result (λ named. named ≡ route_of words.now) }
    ensures range { IfOk result (λ named. IfSome named IsInRange) }
{
    let Some((client, words)) = words.split_first() else {
        return Ok(None);
    };
    let Some((upstream, words)) = words.split_first() else {
        return Ok(None);
    };
    match (proto(client.as_slice()), proto(upstream.as_slice())) {
        (Some(client), Some(upstream)) => route_at(alloc, client, upstream, words),
        _ => Ok(None),
    }
}

// LISTEN TARGETS, and options
fn route_at(
    alloc: Global,
    client: Proto,
    upstream: Proto,
    words: &[Word],
) -> Result<Option<Command>, OutOfMemory>
    ensures value { IfOk result (λ named. named ≡ route_at client upstream words.now) }
    ensures range { IfOk result (λ named. IfSome named IsInRange) }
{
    let Some((listen, words)) = words.split_first() else {
        return Ok(None);
    };
    let Some((word, words)) = words.split_first() else {
        return Ok(None);
    };
    if !can_listen_at(listen.as_slice()) {
        return Ok(None);
    }
    let Some(targets) = read_targets(alloc, word.as_slice())? else {
        return Ok(None);
    };
    let ends = RouteEnds {
        client,
        upstream,
        listen: Text::new(alloc, listen.as_slice())?,
        targets,
    };
    route_with(alloc, ends, words)
}

// The router with these options.
fn route_with(
    alloc: Global,
    ends: RouteEnds,
    words: &[Word],
) -> Result<Option<Command>, OutOfMemory>
    ensures value { IfOk result (λ named. named ≡ route_with ends words.now) }
    ensures range { IfOk result (λ named. IfSome named IsInRange) }
{
    match read_options(alloc, words)? {
        Some(options) => Ok(route_as(ends, options)),
        None => Ok(None),
    }
}

fn route_as(ends: RouteEnds, options: Options) -> Option<Command>
    requires range { AreInRange options }
    ensures value { result ≡ route_as ends options }
    ensures range { IfSome result IsInRange }
{
    if options.is_for_one_upstream() {
        return None;
    }
    let routing = Routing {
        client: ends.client,
        upstream: ends.upstream,
        listen: ends.listen,
        targets: ends.targets,
        limit: options.limit.unwrap_or(DEFAULT_LIMIT),
        sessions: options.sessions.unwrap_or(DEFAULT_SESSIONS),
        accept: options.accept.unwrap_or(0),
        events: options.events.unwrap_or(MOST_EVENTS),
        calls: options.calls.unwrap_or(DEFAULT_CALLS),
        threads: options.threads.unwrap_or(DEFAULT_THREADS),
        tells_refusals: options.tells_refusals,
    };
    let declared = Declared {
        idl: options.idl,
        service: None,
    };
    if routing.threads <= routing.sessions && is_within_memory(&routing) {
        Some(Command::Route(routing, declared))
    } else {
        None
    }
}

// Whether all sessions together hold at most so many bytes.
fn is_within_memory(routing: &Routing) -> bool
    ensures { result ≡ is_routed_within_memory routing.now }
{
    let targets = routing.targets.as_slice().len();
    let session = routed_bytes(targets, routing.limit, routing.calls);
    (routing.sessions as u128) * session <= MOST_HELD as u128
}

// The most bytes that a session with so many targets holds.
fn routed_bytes(targets: usize, limit: u32, calls: u32) -> u128
    requires { targets ≤ MOST_TARGETS }
    ensures value { result ≡ routed_bytes targets limit calls }
    ensures small { result < 2 ^ 64 }
{
    let port = (HELD_BY_PORT as u128) * (limit as u128) + BUFFER_BYTES as u128;
    (targets as u128 + 1) * port
        + (HELD_BY_ROUTER as u128) * (limit as u128)
        + (ROUTED_CALL_BYTES as u128) * (calls as u128)
        + SESSION_BYTES as u128
}
