//! The options of a command.
ghost use Rattle.std.specs.Prelude.{◌≡◌, ◌≤◌, IfOk, IfSome};
ghost use Rattle.gate_words.specs.Options.{no_options, options_of, with_option, with_server_option, with_peers, with_idl, with_service, with_limit, with_sessions, with_accept, with_events, with_calls, with_threads, with_tell, with_unframed, with_front, with_lines, limit_of, names_refusals, is_server_alone, is_for_one_upstream, IsInRange};

use crate::limits::{
    GREATEST_LIMIT, LEAST_LIMIT, MOST_ACCEPTED, MOST_CALLS, MOST_EVENTS, MOST_SESSIONS,
    MOST_THREADS,
};
use crate::lines::{LineSides, read_line_sides};
use crate::peers::{Front, Sides, read_front, read_sides};
use decimal_words::number_within;
use gate_base::{OutOfMemory, Text, Word};
use std::alloc::Global;

/// What a command says of declarations: the file of an IDL, and the service whose methods are meant where a name has no prefix.
#[derive(Drop)]
pub struct Declared {
    pub idl: Option<Text>,
    pub service: Option<Text>,
}

/// What the options say, each where it stands.
#[derive(Drop)]
pub struct Options {
    pub idl: Option<Text>,
    pub service: Option<Text>,
    pub limit: Option<u32>,
    pub sessions: Option<u32>,
    pub accept: Option<u64>,
    pub events: Option<u64>,
    pub calls: Option<u32>,
    pub threads: Option<u32>,
    /// Whether each refusal is told.
    pub tells_refusals: bool,
    pub unframed: Option<Sides>,
    pub front: Option<Front>,
    pub lines: Option<LineSides>,
}

impl Options {
    fn none() -> Options
        ensures value { result ≡ no_options }
        ensures range { IsInRange result }
    {
        Options {
            idl: None,
            service: None,
            limit: None,
            sessions: None,
            accept: None,
            events: None,
            calls: None,
            threads: None,
            tells_refusals: false,
            unframed: None,
            front: None,
            lines: None,
        }
    }

    // With this option besides, unless its name is unknown, it stands already, or its value can't be meant.
    #[tactic(auto, unfolding(crate::specs::Options::with_option))]
    fn with(self, alloc: Global, name: &[u8], value: &[u8]) -> Result<Option<Options>, OutOfMemory>
        requires range { IsInRange self }
        ensures value { IfOk result (λ options. options ≡ with_option self name.now value.now) }
        ensures range { IfOk result (λ options. IfSome options IsInRange) }
    {
        if name == b"--idl".as_slice() {
            self.with_idl(alloc, value)
        } else if name == b"--service".as_slice() {
            self.with_service(alloc, value)
        } else if name == b"--limit".as_slice() {
            Ok(self.with_limit(value))
        } else if name == b"--lines".as_slice() {
            Ok(self.with_lines(value))
        } else {
            Ok(self.with_server_option(name, value))
        }
    }

    // The same for the options that a server alone has.
    #[tactic(auto, unfolding(crate::specs::Options::with_server_option))]
    fn with_server_option(self, name: &[u8], value: &[u8]) -> Option<Options>
        requires range { IsInRange self }
        ensures value { result ≡ with_server_option self name.now value.now }
        ensures range { IfSome result IsInRange }
    {
        if name == b"--sessions".as_slice() {
            self.with_sessions(value)
        } else if name == b"--accept".as_slice() {
            self.with_accept(value)
        } else if name == b"--events".as_slice() {
            self.with_events(value)
        } else if name == b"--calls".as_slice() {
            self.with_calls(value)
        } else if name == b"--threads".as_slice() {
            self.with_threads(value)
        } else if name == b"--tell".as_slice() {
            self.with_tell(value)
        } else {
            self.with_peers(name, value)
        }
    }

    // The same for the options of a server that tell how its peers send their messages.
    #[tactic(auto, unfolding(crate::specs::Options::with_peers))]
    fn with_peers(self, name: &[u8], value: &[u8]) -> Option<Options>
        requires range { IsInRange self }
        ensures value { result ≡ with_peers self name.now value.now }
        ensures range { IfSome result IsInRange }
    {
        if name == b"--unframed".as_slice() {
            self.with_unframed(value)
        } else if name == b"--front".as_slice() {
            self.with_front(value)
        } else {
            None
        }
    }

    fn with_idl(self, alloc: Global, value: &[u8]) -> Result<Option<Options>, OutOfMemory>
        requires range { IsInRange self }
        ensures value { IfOk result (λ options. options ≡ with_idl self value.now) }
        ensures range { IfOk result (λ options. IfSome options IsInRange) }
    {
        if self.idl.is_some() || value.is_empty() {
            return Ok(None);
        }
        let idl = Some(Text::new(alloc, value)?);
        Ok(Some(Options { idl, ..self }))
    }

    fn with_service(self, alloc: Global, value: &[u8]) -> Result<Option<Options>, OutOfMemory>
        requires range { IsInRange self }
        ensures value { IfOk result (λ options. options ≡ with_service self value.now) }
        ensures range { IfOk result (λ options. IfSome options IsInRange) }
    {
        if self.service.is_some() || value.is_empty() {
            return Ok(None);
        }
        let service = Some(Text::new(alloc, value)?);
        Ok(Some(Options { service, ..self }))
    }

    fn with_limit(self, value: &[u8]) -> Option<Options>
        requires range { IsInRange self }
        ensures value { result ≡ with_limit self value.now }
        ensures range { IfSome result IsInRange }
    {
        if self.limit.is_some() {
            return None;
        }
        match limit_of(value) {
            Some(limit) => Some(Options {
                limit: Some(limit),
                ..self
            }),
            None => None,
        }
    }

    fn with_lines(self, value: &[u8]) -> Option<Options>
        requires range { IsInRange self }
        ensures value { result ≡ with_lines self value.now }
        ensures range { IfSome result IsInRange }
    {
        if self.lines.is_some() {
            return None;
        }
        match read_line_sides(value) {
            Some(lines) => Some(Options {
                lines: Some(lines),
                ..self
            }),
            None => None,
        }
    }

    fn with_sessions(self, value: &[u8]) -> Option<Options>
        requires range { IsInRange self }
        ensures value { result ≡ with_sessions self value.now }
        ensures range { IfSome result IsInRange }
    {
        if self.sessions.is_some() {
            return None;
        }
        match number_within(1, MOST_SESSIONS as u64, value) {
            Some(sessions) => Some(Options {
                sessions: Some(sessions as u32),
                ..self
            }),
            None => None,
        }
    }

    fn with_accept(self, value: &[u8]) -> Option<Options>
        requires range { IsInRange self }
        ensures value { result ≡ with_accept self value.now }
        ensures range { IfSome result IsInRange }
    {
        if self.accept.is_some() {
            return None;
        }
        match number_within(0, MOST_ACCEPTED, value) {
            Some(accept) => Some(Options {
                accept: Some(accept),
                ..self
            }),
            None => None,
        }
    }

    fn with_events(self, value: &[u8]) -> Option<Options>
        requires range { IsInRange self }
        ensures value { result ≡ with_events self value.now }
        ensures range { IfSome result IsInRange }
    {
        if self.events.is_some() {
            return None;
        }
        match number_within(1, MOST_EVENTS, value) {
            Some(events) => Some(Options {
                events: Some(events),
                ..self
            }),
            None => None,
        }
    }

    fn with_calls(self, value: &[u8]) -> Option<Options>
        requires range { IsInRange self }
        ensures value { result ≡ with_calls self value.now }
        ensures range { IfSome result IsInRange }
    {
        if self.calls.is_some() {
            return None;
        }
        match number_within(1, MOST_CALLS as u64, value) {
            Some(calls) => Some(Options {
                calls: Some(calls as u32),
                ..self
            }),
            None => None,
        }
    }

    fn with_threads(self, value: &[u8]) -> Option<Options>
        requires range { IsInRange self }
        ensures value { result ≡ with_threads self value.now }
        ensures range { IfSome result IsInRange }
    {
        if self.threads.is_some() {
            return None;
        }
        match number_within(1, MOST_THREADS as u64, value) {
            Some(threads) => Some(Options {
                threads: Some(threads as u32),
                ..self
            }),
            None => None,
        }
    }

    fn with_tell(self, value: &[u8]) -> Option<Options>
        requires range { IsInRange self }
        ensures value { result ≡ with_tell self value.now }
        ensures range { IfSome result IsInRange }
    {
        if self.tells_refusals || !names_refusals(value) {
            return None;
        }
        Some(Options {
            tells_refusals: true,
            ..self
        })
    }

    fn with_unframed(self, value: &[u8]) -> Option<Options>
        requires range { IsInRange self }
        ensures value { result ≡ with_unframed self value.now }
        ensures range { IfSome result IsInRange }
    {
        if self.unframed.is_some() {
            return None;
        }
        match read_sides(value) {
            Some(unframed) => Some(Options {
                unframed: Some(unframed),
                ..self
            }),
            None => None,
        }
    }

    fn with_front(self, value: &[u8]) -> Option<Options>
        requires range { IsInRange self }
        ensures value { result ≡ with_front self value.now }
        ensures range { IfSome result IsInRange }
    {
        if self.front.is_some() {
            return None;
        }
        match read_front(value) {
            Some(front) => Some(Options {
                front: Some(front),
                ..self
            }),
            None => None,
        }
    }

    /// Whether an option stands that a server alone has.
    pub fn is_server_alone(&self) -> bool
        ensures { result ≡ is_server_alone self.now }
    {
        self.sessions.is_some()
            || self.accept.is_some()
            || self.events.is_some()
            || self.calls.is_some()
            || self.threads.is_some()
            || self.tells_refusals
            || self.unframed.is_some()
            || self.front.is_some()
    }

    /// Whether an option stands that a router doesn't have: its services are its targets, and its peers send frames and no lines.
    pub fn is_for_one_upstream(&self) -> bool
        ensures { result ≡ is_for_one_upstream self.now }
    {
        self.service.is_some()
            || self.unframed.is_some()
            || self.front.is_some()
            || self.lines.is_some()
    }
}

// Whether a word names the frames that are refused: of others nothing is told.
#[tactic(auto, unfolding(crate::specs::Options::names_refusals))]
fn names_refusals(value: &[u8]) -> bool
    ensures { result ≡ names_refusals value.now }
{
    value == b"refused".as_slice()
}

// The frame limit that a word spells.
#[tactic(auto, unfolding(crate::specs::Options::limit_of))]
fn limit_of(value: &[u8]) -> Option<u32>
    ensures value { result ≡ limit_of value.now }
    ensures bounds { IfSome result (λ limit. (LEAST_LIMIT ≤ limit) × (limit ≤ GREATEST_LIMIT)) }
{
    match number_within(LEAST_LIMIT as u64, GREATEST_LIMIT as u64, value) {
        Some(limit) => Some(limit as u32),
        None => None,
    }
}

/// What these words say as options, or that they are none.
pub fn read_options(alloc: Global, words: &[Word]) -> Result<Option<Options>, OutOfMemory>
    ensures value { IfOk result (λ options. options ≡ options_of no_options words.now) }
    ensures range { IfOk result (λ options. IfSome options IsInRange) }
{
    let mut options = Options::none();
    let mut left = words;
    'options: while let Some((name, values)) = left.split_first() {
        let Some((value, rest)) = values.split_first() else {
            return Ok(None);
        };
        match options.with(alloc, name.as_slice(), value.as_slice())? {
            Some(more) => options = more,
            None => return Ok(None),
        }
        left = rest;
    }
    Ok(Some(options))
}
