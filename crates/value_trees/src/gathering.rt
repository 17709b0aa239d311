//! A body gathered from its events.
ghost use Rattle.std.specs.Prelude.{◌≡◌, ◌<◌, ◌^◌, [], ◌∷◌, ◌++◌, map, length, IfOk, IsTrue, ◌↔◌, reverse};
ghost use Rattle.thrift_value.specs.Items.{item_of};
ghost use Rattle.value_trees.specs.Gathering.{settled, turned, started, step, onward, run, at_first, over, body_at, IsRefused, StopsAt};
ghost use Rattle.value_trees.specs.Stands.{stand_of};

use crate::level::{Level, LevelChange, Start, begun_by};
use crate::{Fields, Value};
use gate_base::OutOfMemory;
use std::alloc::Global;
use thrift_value::Event;

/// Why a body can't be gathered.
#[derive(Clone, Copy, Debug, PartialEq, Eq)]
pub enum GatherFault {
    /// The events before this place begin a body's events, and those up to and with it don't. It is the number of
    /// the events where they end early.
    Broken(usize),
    OutOfMemory,
}

impl From<OutOfMemory> for GatherFault {
    ghost use Rattle.std.specs.Prelude.{◌≡◌};
    ghost use Rattle.value_trees.specs.declared.gathering.GatherFault.TheVariants as faults;

    ghost from_gives = { λ _ fault. fault ≡ faults.OutOfMemory };

    fn from(_fault: OutOfMemory) -> GatherFault {
        GatherFault::OutOfMemory
    }
}

/// The body whose events these are.
///
/// Each value has the kind that was announced for it, each container as many values as it announced, and a map at
/// least one pair; a size and the length of a text are below 2^31. Nothing recurses, however deep the body is.
/// `run` goes event by event over what is open; the laws say what that means in the words of whole bodies.
pub fn gather(alloc: Global, events: &[Event<'_>]) -> Result<Fields, GatherFault>
    ensures whole { IfOk result (λ body. run at_first (map item_of events.now) ≡ over body) }
    ensures broken { (place : _) → result ≡ Err (GatherFault.Broken place) → StopsAt (map item_of events.now) place }
{
    let mut state = first(alloc)?;
    for (place, event) in events.iter().enumerate() {
        let next = after(alloc, state, event)?;
        if next.is_refused() {
            return Err(GatherFault::Broken(place));
        }
        state = next;
    }
    match body_of(state) {
        Some(body) => Ok(body),
        None => Err(GatherFault::Broken(events.len())),
    }
}

/// How far the events have come.
#[derive(Drop)]
enum State {
    /// What is open, the innermost last.
    Going(Vec<Level>),
    /// The whole body was gathered.
    Over(Fields),
    /// No body's events begin so.
    Refused,
}

impl State {
    fn is_refused(&self) -> bool
        ensures { IsTrue result ↔ IsRefused (stand_of self.now) }
    {
        match self {
            State::Refused => true,
            _ => false,
        }
    }
}

/// The body, where it is whole.
fn body_of(state: State) -> Option<Fields>
    ensures { result ≡ body_at (stand_of state) }
{
    match state {
        State::Going(_levels) => None,
        State::Over(body) => Some(body),
        State::Refused => None,
    }
}

/// No event was taken yet.
fn first(alloc: Global) -> Result<State, OutOfMemory>
    ensures { IfOk result (λ state. stand_of state ≡ at_first) }
{
    let mut levels = Vec::new(alloc);
    levels.push(Level::Fields(Fields::new(alloc)))?;
    Ok(State::Going(levels))
}

/// One more event. After the whole body none may follow.
fn after(alloc: Global, state: State, event: &Event<'_>) -> Result<State, OutOfMemory>
    ensures { IfOk result (λ now. stand_of now ≡ onward (stand_of state) (item_of event.now)) }
{
    match state {
        State::Going(levels) => step(alloc, levels, event),
        State::Over(_body) => Ok(State::Refused),
        State::Refused => Ok(State::Refused),
    }
}

/// One more event where a struct or container is open.
fn step(alloc: Global, mut levels: Vec<Level>, event: &Event<'_>) -> Result<State, OutOfMemory>
    ensures { IfOk result (λ state. stand_of state ≡ step (reverse levels.items) (item_of event.now)) }
{
    let Some(top) = levels.pop() else {
        return Ok(State::Refused);
    };
    begin(begun_by(alloc, event)?, event, top, levels)
}

fn begin(
    start: Start,
    event: &Event<'_>,
    top: Level,
    levels: Vec<Level>,
) -> Result<State, OutOfMemory>
    ensures { IfOk result (λ state. stand_of state ≡ started start (item_of event.now) top (reverse levels.items)) }
{
    match start {
        Start::Whole(value) => match with(levels, top) {
            Ok(levels) => settle(value, levels),
            Err(fault) => {
                let_go(value);
                Err(fault)
            }
        },
        Start::Opens(kind, level) => {
            if !top.wants(kind) {
                let_go(top);
                let_go(level);
                return Ok(State::Refused);
            }
            match with(levels, top) {
                Ok(levels) => Ok(State::Going(with(levels, level)?)),
                Err(fault) => {
                    let_go(level);
                    Err(fault)
                }
            }
        }
        Start::Nothing => go_on(top.turned(event), levels),
    }
}

/// One more level, the innermost.
fn with(mut levels: Vec<Level>, level: Level) -> Result<Vec<Level>, OutOfMemory>
    ensures { IfOk result (λ more. more.items ≡ levels.items ++ level ∷ []) }
{
    levels.push(level)?;
    Ok(levels)
}

/// Drops what is given up. It is a call, so that the drop of each variant is written out, and proved, in one place.
fn let_go<T: Drop>(_given_up: T) {}

fn go_on(turn: LevelChange, mut levels: Vec<Level>) -> Result<State, OutOfMemory>
    ensures { IfOk result (λ state. stand_of state ≡ turned turn (reverse levels.items)) }
{
    match turn {
        LevelChange::Named(level) => {
            levels.push(level)?;
            Ok(State::Going(levels))
        }
        LevelChange::Closed(value) => settle(value, levels),
        LevelChange::Neither => Ok(State::Refused),
    }
}

/// Puts a whole value where it belongs.
fn settle(value: Value, mut levels: Vec<Level>) -> Result<State, OutOfMemory>
    ensures { IfOk result (λ state. stand_of state ≡ settled value (reverse levels.items)) }
{
    let Some(top) = levels.pop() else {
        return Ok(over(value));
    };
    if !top.wants(value.kind()) {
        let_go(top);
        let_go(value);
        return Ok(State::Refused);
    }
    levels.push(top.put(value)?)?;
    Ok(State::Going(levels))
}

/// The body, where the value is its struct.
fn over(value: Value) -> State
    ensures { stand_of result ≡ settled value [] }
{
    match value {
        Value::Struct(fields) => State::Over(fields),
        _other => State::Refused,
    }
}
