//! The command that serves.
ghost use Rattle.std.specs.Prelude.{◌≡◌, ◌<◌, ◌≤◌, ◌^◌, IfOk, IfSome};
ghost use Rattle.gate_words.specs.Commands.{IsInRange, CanCount};
ghost use Rattle.gate_words.specs.Options.{IsInRange as AreInRange};
ghost use Rattle.gate_words.specs.Serving.{serve_of, serve_at, serve_with, serve_as, serving_of, part_of, can_serve, speaks_unframed_json, wraps_twice, is_within_memory, session_bytes, unframed_bytes, http_bytes};

use crate::command::{Command, proto};
use crate::limits::{
    CALL_BYTES, DEFAULT_CALLS, DEFAULT_LIMIT, DEFAULT_SESSIONS, DEFAULT_THREADS, HEAD_BYTES,
    HELD_FRAMES, MOST_EVENTS, MOST_HELD, MOST_SESSIONS, SESSION_BYTES, UNFRAMED_FRAMES,
};
use crate::lines::is_json;
use crate::options::{Declared, Options, read_options};
use crate::peers::{Front, Sides};
use crate::shares::share;
use gate_base::{OutOfMemory, Text, Word};
use peer_addresses::{can_connect_to, can_listen_at};
use protocol_traits::Proto;
use std::alloc::Global;

/// A server between clients and an upstream.
#[derive(Drop)]
pub struct Serving {
    /// The protocol of the clients.
    pub client: Proto,
    /// The protocol of the upstream.
    pub upstream: Proto,
    /// The address at which it listens.
    pub listen: Text,
    /// The address of the upstream.
    pub target: Text,
    /// The most bytes of a frame.
    pub limit: u32,
    /// The most sessions at a time.
    pub sessions: u32,
    /// The connections after which it ends; 0 for none.
    pub accept: u64,
    /// The events after which it ends.
    pub events: u64,
    /// The most open calls of a session.
    pub calls: u32,
    /// The threads that serve, each its own part of the sessions.
    pub threads: u32,
    /// Whether each refusal is told.
    pub tells_refusals: bool,
    /// The sides whose messages stand in no frames.
    pub unframed: Option<Sides>,
    /// What the clients wrap each message in.
    pub front: Front,
}

impl Serving {
    /// The same server with the sessions of the thread at this place, counted from 0, where so many threads share them.
    ///
    /// `OutOfMemory`: the memory for a copy of the addresses was not found.
    pub fn part_of(&self, alloc: Global, threads: usize, at: usize) -> Result<Serving, OutOfMemory>
        requires some { 0 < threads }
        requires few { self.now.sessions ≤ MOST_SESSIONS }
        ensures { IfOk result (λ part. part ≡ part_of self.now threads at) }
    {
        Ok(Serving {
            client: self.client,
            upstream: self.upstream,
            listen: Text::new(alloc, self.listen.as_slice())?,
            target: Text::new(alloc, self.target.as_slice())?,
            limit: self.limit,
            sessions: share(self.sessions, threads, at),
            accept: self.accept,
            events: self.events,
            calls: self.calls,
            threads: self.threads,
            tells_refusals: self.tells_refusals,
            unframed: self.unframed,
            front: self.front,
        })
    }
}

/// The addresses of a server, and the protocols on both sides.
#[derive(Drop)]
struct Ends {
    client: Proto,
    upstream: Proto,
    listen: Text,
    target: Text,
}

// CLIENT UPSTREAM LISTEN TARGET, and options
pub fn serve(alloc: Global, words: &[Word]) -> Result<Option<Command>, OutOfMemory>
    ensures value { IfOk result (λ named. named ≡ serve_of words.now) }
    ensures range { IfOk result (λ named. IfSome named IsInRange) }
{
    let Some((client, words)) = words.split_first() else {
        return Ok(None);
    };
    let Some((upstream, words)) = words.split_first() else {
        return Ok(None);
    };
    match (proto(client.as_slice()), proto(upstream.as_slice())) {
        (Some(client), Some(upstream)) => serve_at(alloc, client, upstream, words),
        _ => Ok(None),
    }
}

// LISTEN TARGET, and options
fn serve_at(
    alloc: Global,
    client: Proto,
    upstream: Proto,
    words: &[Word],
) -> Result<Option<Command>, OutOfMemory>
    ensures value { IfOk result (λ named. named ≡ serve_at client upstream words.now) }
    ensures range { IfOk result (λ named. IfSome named IsInRange) }
{
    let Some((listen, words)) = words.split_first() else {
        return Ok(None);
    };
    let Some((target, words)) = words.split_first() else {
        return Ok(None);
    };
    if !can_listen_at(listen.as_slice()) || !can_connect_to(target.as_slice()) {
        return Ok(None);
    }
    let ends = Ends {
        client,
        upstream,
        listen: Text::new(alloc, listen.as_slice())?,
        target: Text::new(alloc, target.as_slice())?,
    };
    serve_with(alloc, ends, words)
}

// The server with these options.
fn serve_with(alloc: Global, ends: Ends, words: &[Word]) -> Result<Option<Command>, OutOfMemory>
    ensures value { IfOk result (λ named. named ≡ serve_with ends words.now) }
    ensures range { IfOk result (λ named. IfSome named IsInRange) }
{
    match read_options(alloc, words)? {
        Some(options) => Ok(serve_as(ends, options)),
        None => Ok(None),
    }
}

fn serve_as(ends: Ends, options: Options) -> Option<Command>
    requires range { AreInRange options }
    ensures value { result ≡ serve_as ends options }
    ensures range { IfSome result IsInRange }
{
    if options.lines.is_some() {
        return None;
    }
    let serving = serving_of(ends, &options);
    let declared = Declared {
        idl: options.idl,
        service: options.service,
    };
    if serving.threads <= serving.sessions && can_serve(&serving) {
        Some(Command::Serve(serving, declared))
    } else {
        None
    }
}

// The server between these ends, with what stands where an option is missing.
fn serving_of(ends: Ends, options: &Options) -> Serving
    requires range { AreInRange options.now }
    ensures value { result ≡ serving_of ends options.now }
    ensures range { result.threads ≤ result.sessions → CanCount result }
{
    Serving {
        client: ends.client,
        upstream: ends.upstream,
        listen: ends.listen,
        target: ends.target,
        limit: options.limit.unwrap_or(DEFAULT_LIMIT),
        sessions: options.sessions.unwrap_or(DEFAULT_SESSIONS),
        accept: options.accept.unwrap_or(0),
        events: options.events.unwrap_or(MOST_EVENTS),
        calls: options.calls.unwrap_or(DEFAULT_CALLS),
        threads: options.threads.unwrap_or(DEFAULT_THREADS),
        tells_refusals: options.tells_refusals,
        unframed: options.unframed,
        front: options.front.unwrap_or(Front::Framed),
    }
}

// Whether such peers can be served, and the memory that the words ask for can be counted.
fn can_serve(serving: &Serving) -> bool
    ensures { result ≡ can_serve serving.now }
{
    !speaks_unframed_json(serving) && !wraps_twice(serving) && is_within_memory(serving)
}

// Whether a side without frames speaks JSON: nothing tells where such a message ends before its last byte is judged.
fn speaks_unframed_json(serving: &Serving) -> bool
    ensures { result ≡ speaks_unframed_json serving.now }
{
    match serving.unframed {
        Some(sides) => {
            (sides.has_client() && is_json(serving.client))
                || (sides.has_upstream() && is_json(serving.upstream))
        }
        None => false,
    }
}

// Whether the clients would send messages both without frames and as bodies of HTTP.
fn wraps_twice(serving: &Serving) -> bool
    ensures { result ≡ wraps_twice serving.now }
{
    match (serving.unframed, serving.front) {
        (Some(sides), Front::Http) => sides.has_client(),
        _ => false,
    }
}

// Whether all sessions together hold at most so many bytes.
fn is_within_memory(serving: &Serving) -> bool
    ensures { result ≡ is_within_memory serving.now }
{
    let sessions = (serving.sessions as u128) * session_bytes(serving.limit, serving.calls);
    sessions + unframed_bytes(serving) + http_bytes(serving) <= MOST_HELD as u128
}

// The most bytes that a session holds.
fn session_bytes(limit: u32, calls: u32) -> u128
    ensures value { result ≡ session_bytes limit calls }
    ensures small { result < 2 ^ 64 }
{
    (HELD_FRAMES as u128) * (limit as u128)
        + (CALL_BYTES as u128) * (calls as u128)
        + SESSION_BYTES as u128
}

// The bytes that find the ends of messages without frames.
fn unframed_bytes(serving: &Serving) -> u128
    ensures value { result ≡ unframed_bytes serving.now }
    ensures small { result < 2 ^ 96 }
{
    match serving.unframed {
        Some(_) => {
            (UNFRAMED_FRAMES as u128) * (serving.sessions as u128 + 1) * (serving.limit as u128)
        }
        None => 0,
    }
}

// The bytes that take requests of HTTP.
fn http_bytes(serving: &Serving) -> u128
    ensures value { result ≡ http_bytes serving.now }
    ensures small { result < 2 ^ 96 }
{
    let limit = serving.limit as u128;
    match serving.front {
        Front::Http => (serving.sessions as u128 + 1) * (limit + HEAD_BYTES as u128) + limit,
        Front::Framed => 0,
    }
}
