//! The commands, read from their words.
ghost use Rattle.std.specs.Prelude.{◌≡◌, ◌≤◌, IfOk, IfSome};
ghost use Rattle.gate_words.specs.Protos.{proto_of};
ghost use Rattle.gate_words.specs.Commands.{command, check_of, convert_of, convert_with, convert_as, show_of, show_with, show_as, conform_of, conform_with, conform_as, drill_of, drill_as, help_of, IsInRange};
ghost use Rattle.gate_words.specs.Options.{IsInRange as AreInRange};

use crate::limits::{DEFAULT_LIMIT, MOST_MESSAGES};
use crate::lines::{can_convert, can_show, input_of, output_of};
use crate::options::{Declared, Options, read_options};
use crate::routing::{Routing, route};
use crate::serving::{Serving, serve};
use decimal_words::{number, number_within};
use gate_base::{OutOfMemory, Text, Word};
use line_transport::Transport;
use protocol_traits::Proto;
use std::alloc::Global;

/// A conversion of a stream of messages, each of at most `limit` bytes, with how they stand on both sides.
#[derive(Clone, Copy)]
pub struct Conversion {
    pub from: Proto,
    pub to: Proto,
    pub limit: usize,
    pub input: Transport,
    pub output: Transport,
}

/// The showing of a stream of messages, each of at most `limit` bytes, with how they stand on it.
#[derive(Clone, Copy)]
pub struct Showing {
    pub from: Proto,
    pub limit: usize,
    pub input: Transport,
}

/// The judging of a stream of frames, each of at most `limit` bytes, by what their messages are declared to be.
#[derive(Clone, Copy)]
pub struct Conforming {
    pub from: Proto,
    pub limit: usize,
}

/// The making of so many messages from a number.
#[derive(Clone, Copy)]
pub struct Drilling {
    pub seed: u64,
    pub count: u64,
}

/// What the words of a command name.
#[derive(Drop)]
pub enum Command {
    /// `check FILE`
    Check(Text),
    /// `convert FROM TO [--idl FILE] [--service NAME] [--limit F] [--lines SIDE]`
    Convert(Conversion, Declared),
    /// `show FROM [--idl FILE] [--service NAME] [--limit F] [--lines SIDE]`
    Show(Showing, Declared),
    /// `serve CLIENT UPSTREAM LISTEN TARGET [--idl FILE] [--service NAME] [--limit F] [--sessions N] [--accept C] [--events E] [--calls P] [--unframed SIDE] [--front KIND] [--threads N] [--tell refused]`
    Serve(Serving, Declared),
    /// `route CLIENT UPSTREAM LISTEN TARGETS [--idl FILE] [--limit F] [--sessions N] [--accept C] [--events E] [--calls P] [--threads N] [--tell refused]`
    Route(Routing, Declared),
    /// `conform FROM --idl FILE [--service NAME] [--limit F]`
    Conform(Conforming, Declared),
    /// `drill SEED COUNT`
    Drill(Drilling),
    /// `help`
    Help,
}

/// The command that these words name, or that they name none.
///
/// `OutOfMemory`: the memory for a copy of a name was not found.
#[tactic(auto, unfolding(crate::specs::Commands::command))]
pub fn read_command(alloc: Global, words: &[Word]) -> Result<Option<Command>, OutOfMemory>
    ensures value { IfOk result (λ named. named ≡ command words.now) }
    ensures range { IfOk result (λ named. IfSome named IsInRange) }
{
    let Some((name, rest)) = words.split_first() else {
        return Ok(None);
    };
    if name.as_slice() == b"check".as_slice() {
        check(alloc, rest)
    } else if name.as_slice() == b"convert".as_slice() {
        convert(alloc, rest)
    } else if name.as_slice() == b"serve".as_slice() {
        serve(alloc, rest)
    } else if name.as_slice() == b"route".as_slice() {
        route(alloc, rest)
    } else if name.as_slice() == b"show".as_slice() {
        show(alloc, rest)
    } else if name.as_slice() == b"conform".as_slice() {
        conform(alloc, rest)
    } else if name.as_slice() == b"drill".as_slice() {
        Ok(drill(rest))
    } else if name.as_slice() == b"help".as_slice() {
        Ok(help(rest))
    } else {
        Ok(None)
    }
}

// check FILE
fn check(alloc: Global, words: &[Word]) -> Result<Option<Command>, OutOfMemory>
    ensures value { IfOk result (λ named. named ≡ check_of words.now) }
    ensures range { IfOk result (λ named. IfSome named IsInRange) }
{
    let [file] = words else {
        return Ok(None);
    };
    if file.as_slice().is_empty() {
        return Ok(None);
    }
    Ok(Some(Command::Check(Text::new(alloc, file.as_slice())?)))
}

// convert FROM TO, and options
fn convert(alloc: Global, words: &[Word]) -> Result<Option<Command>, OutOfMemory>
    ensures value { IfOk result (λ named. named ≡ convert_of words.now) }
    ensures range { IfOk result (λ named. IfSome named IsInRange) }
{
    let Some((from, words)) = words.split_first() else {
        return Ok(None);
    };
    let Some((to, words)) = words.split_first() else {
        return Ok(None);
    };
    match (proto(from.as_slice()), proto(to.as_slice())) {
        (Some(from), Some(to)) => convert_with(alloc, from, to, words),
        _ => Ok(None),
    }
}

// The conversion with these options.
fn convert_with(
    alloc: Global,
    from: Proto,
    to: Proto,
    words: &[Word],
) -> Result<Option<Command>, OutOfMemory>
    ensures value { IfOk result (λ named. named ≡ convert_with from to words.now) }
    ensures range { IfOk result (λ named. IfSome named IsInRange) }
{
    match read_options(alloc, words)? {
        Some(options) => Ok(convert_as(from, to, options)),
        None => Ok(None),
    }
}

fn convert_as(from: Proto, to: Proto, options: Options) -> Option<Command>
    requires range { AreInRange options }
    ensures value { result ≡ convert_as from to options }
    ensures range { IfSome result IsInRange }
{
    if options.is_server_alone() || !can_convert(from, to, options.lines) {
        return None;
    }
    let conversion = Conversion {
        from,
        to,
        limit: options.limit.unwrap_or(DEFAULT_LIMIT) as usize,
        input: input_of(options.lines),
        output: output_of(options.lines),
    };
    let declared = Declared {
        idl: options.idl,
        service: options.service,
    };
    Some(Command::Convert(conversion, declared))
}

// show FROM, and options
fn show(alloc: Global, words: &[Word]) -> Result<Option<Command>, OutOfMemory>
    ensures value { IfOk result (λ named. named ≡ show_of words.now) }
    ensures range { IfOk result (λ named. IfSome named IsInRange) }
{
    let Some((from, words)) = words.split_first() else {
        return Ok(None);
    };
    match proto(from.as_slice()) {
        Some(from) => show_with(alloc, from, words),
        None => Ok(None),
    }
}

// The showing with these options.
fn show_with(alloc: Global, from: Proto, words: &[Word]) -> Result<Option<Command>, OutOfMemory>
    ensures value { IfOk result (λ named. named ≡ show_with from words.now) }
    ensures range { IfOk result (λ named. IfSome named IsInRange) }
{
    match read_options(alloc, words)? {
        Some(options) => Ok(show_as(from, options)),
        None => Ok(None),
    }
}

fn show_as(from: Proto, options: Options) -> Option<Command>
    requires range { AreInRange options }
    ensures value { result ≡ show_as from options }
    ensures range { IfSome result IsInRange }
{
    if options.is_server_alone() || !can_show(from, options.lines) {
        return None;
    }
    let showing = Showing {
        from,
        limit: options.limit.unwrap_or(DEFAULT_LIMIT) as usize,
        input: input_of(options.lines),
    };
    let declared = Declared {
        idl: options.idl,
        service: options.service,
    };
    Some(Command::Show(showing, declared))
}

// conform FROM --idl FILE, and options
fn conform(alloc: Global, words: &[Word]) -> Result<Option<Command>, OutOfMemory>
    ensures value { IfOk result (λ named. named ≡ conform_of words.now) }
    ensures range { IfOk result (λ named. IfSome named IsInRange) }
{
    let Some((from, words)) = words.split_first() else {
        return Ok(None);
    };
    match proto(from.as_slice()) {
        Some(from) => conform_with(alloc, from, words),
        None => Ok(None),
    }
}

// The judging with these options.
fn conform_with(alloc: Global, from: Proto, words: &[Word]) -> Result<Option<Command>, OutOfMemory>
    ensures value { IfOk result (λ named. named ≡ conform_with from words.now) }
    ensures range { IfOk result (λ named. IfSome named IsInRange) }
{
    match read_options(alloc, words)? {
        Some(options) => Ok(conform_as(from, options)),
        None => Ok(None),
    }
}

fn conform_as(from: Proto, options: Options) -> Option<Command>
    requires range { AreInRange options }
    ensures value { result ≡ conform_as from options }
    ensures range { IfSome result IsInRange }
{
    if options.is_server_alone() || options.lines.is_some() || options.idl.is_none() {
        return None;
    }
    let conforming = Conforming {
        from,
        limit: options.limit.unwrap_or(DEFAULT_LIMIT) as usize,
    };
    let declared = Declared {
        idl: options.idl,
        service: options.service,
    };
    Some(Command::Conform(conforming, declared))
}

// drill SEED COUNT
fn drill(words: &[Word]) -> Option<Command>
    ensures value { result ≡ drill_of words.now }
    ensures range { IfSome result IsInRange }
{
    let (seed, words) = words.split_first()?;
    let (count, words) = words.split_first()?;
    if !words.is_empty() {
        return None;
    }
    drill_as(
        number(seed.as_slice()),
        number_within(0, MOST_MESSAGES, count.as_slice()),
    )
}

fn drill_as(seed: Option<u64>, count: Option<u64>) -> Option<Command>
    requires few { IfSome count (λ n. n ≤ MOST_MESSAGES) }
    ensures value { result ≡ drill_as seed count }
    ensures range { IfSome result IsInRange }
{
    match (seed, count) {
        (Some(seed), Some(count)) => Some(Command::Drill(Drilling { seed, count })),
        _ => None,
    }
}

// help
fn help(words: &[Word]) -> Option<Command>
    ensures value { result ≡ help_of words.now }
    ensures range { IfSome result IsInRange }
{
    if words.is_empty() {
        Some(Command::Help)
    } else {
        None
    }
}

/// The protocol of this name.
#[tactic(auto, unfolding(crate::specs::Protos::proto_of))]
pub fn proto(word: &[u8]) -> Option<Proto>
    ensures { result ≡ proto_of word.now }
{
    if word == b"binary".as_slice() {
        Some(Proto::Binary)
    } else if word == b"compact".as_slice() {
        Some(Proto::Compact)
    } else if word == b"json".as_slice() {
        Some(Proto::Json)
    } else {
        None
    }
}
