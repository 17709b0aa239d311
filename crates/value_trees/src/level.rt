//! A struct or container that is open while a body is gathered from its events.
ghost use Rattle.std.specs.Prelude.{◌≡◌, true, IfOk};
ghost use Rattle.thrift_value.specs.Items.{item_of};
ghost use Rattle.thrift_value.specs.Kinds.{rank_of};
ghost use Rattle.value_trees.specs.Gathering.{wants, put, turn_of, start_of};

use crate::{Blob, Field, Fields, Items, Pairs, Value};
use gate_base::OutOfMemory;
use std::alloc::Global;
use thrift_value::{Event, Kind};

/// A size or a number of bytes is below this.
const SIZE_LIMIT: u32 = 0x8000_0000;

/// What was gathered of an open struct or container.
#[derive(Drop)]
pub(crate) enum Level {
    /// The fields so far.
    Fields(Fields),
    /// The fields so far, and the id and kind of the one whose value comes next.
    Named(Fields, i16, Kind),
    /// How many elements are to come, and those so far.
    Set(Kind, u32, Items),
    /// How many elements are to come, and those so far.
    List(Kind, u32, Items),
    /// How many pairs are to come, and those so far.
    Map(Kind, Kind, u32, Pairs),
    /// How many pairs are to come after this one, those so far, and the key of this one.
    Keyed(Kind, Kind, u32, Pairs, Value),
}

/// What an event begins.
#[derive(Drop)]
pub(crate) enum Start {
    /// A value that is whole at once.
    Whole(Value),
    /// A struct or container, with the kind that it has.
    Opens(Kind, Level),
    Nothing,
}

/// What an event that begins no value does to a level.
#[derive(Drop)]
pub(crate) enum LevelChange {
    /// It names the struct's next field.
    Named(Level),
    /// It ends the struct or container.
    Closed(Value),
    Neither,
}

fn rank(kind: Kind) -> u8
    ensures { result ≡ rank_of kind }
{
    match kind {
        Kind::Bool => 0,
        Kind::I8 => 1,
        Kind::I16 => 2,
        Kind::I32 => 3,
        Kind::I64 => 4,
        Kind::Double => 5,
        Kind::Str => 6,
        Kind::Struct => 7,
        Kind::Map => 8,
        Kind::Set => 9,
        Kind::List => 10,
        Kind::Uuid => 11,
    }
}

impl Level {
    /// It calls for a value of this kind.
    pub(crate) fn wants(&self, kind: Kind) -> bool
        ensures { result ≡ wants self.now kind }
    {
        match self {
            Level::Fields(_) => false,
            Level::Named(_, _, wanted) => rank(*wanted) == rank(kind),
            Level::Set(wanted, left, _) | Level::List(wanted, left, _) => {
                0 < *left && rank(*wanted) == rank(kind)
            }
            Level::Map(key, _, left, _) => 0 < *left && rank(*key) == rank(kind),
            Level::Keyed(_, value, _, _, _) => rank(*value) == rank(kind),
        }
    }

    /// The level with the value that it called for.
    pub(crate) fn put(self, value: Value) -> Result<Level, OutOfMemory>
        requires { (kind : _) × (wants self kind ≡ true) }
        ensures { IfOk result (λ level. level ≡ put self value) }
    {
        match self {
            Level::Fields(fields) => Ok(Level::Fields(fields)),
            Level::Named(mut fields, id, _) => {
                fields.push(Field { id, value })?;
                Ok(Level::Fields(fields))
            }
            Level::Set(kind, left, mut items) => {
                items.push(value)?;
                Ok(Level::Set(kind, left - 1, items))
            }
            Level::List(kind, left, mut items) => {
                items.push(value)?;
                Ok(Level::List(kind, left - 1, items))
            }
            Level::Map(key, kind, left, pairs) => Ok(Level::Keyed(
                key,
                kind,
                left - 1,
                pairs,
                value,
            )),
            Level::Keyed(key, kind, left, mut pairs, first) => {
                pairs.push((first, value))?;
                Ok(Level::Map(key, kind, left, pairs))
            }
        }
    }

    /// What an event that begins no value does to the level.
    pub(crate) fn turned(self, event: &Event<'_>) -> LevelChange
        ensures { result ≡ turn_of self (item_of event.now) }
    {
        match (self, event) {
            (Level::Fields(fields), Event::Field(id, kind)) => {
                LevelChange::Named(Level::Named(fields, *id, *kind))
            }
            (Level::Fields(fields), Event::Stop) => LevelChange::Closed(Value::Struct(fields)),
            (Level::Set(kind, 0, items), Event::End) => LevelChange::Closed(Value::Set(
                kind, items,
            )),
            (Level::List(kind, 0, items), Event::End) => LevelChange::Closed(Value::List(
                kind, items,
            )),
            (Level::Map(key, value, 0, pairs), Event::End) => {
                LevelChange::Closed(Value::Map(key, value, pairs))
            }
            _ => LevelChange::Neither,
        }
    }
}

/// What an event begins. Want of memory is the one error.
pub(crate) fn begun_by(alloc: Global, event: &Event<'_>) -> Result<Start, OutOfMemory>
    ensures { IfOk result (λ start. start ≡ start_of (item_of event.now)) }
{
    let start = match event {
        Event::Bool(truth) => Start::Whole(Value::Bool(*truth)),
        Event::I8(n) => Start::Whole(Value::I8(*n)),
        Event::I16(n) => Start::Whole(Value::I16(*n)),
        Event::I32(n) => Start::Whole(Value::I32(*n)),
        Event::I64(n) => Start::Whole(Value::I64(*n)),
        Event::Double(bytes) => Start::Whole(Value::Double(*bytes)),
        Event::Str(bytes) if bytes.len() < SIZE_LIMIT as usize => {
            Start::Whole(Value::Str(Blob::from_slice(alloc, bytes)?))
        }
        Event::NumberText(bytes) => Start::Whole(Value::NumberText(Blob::from_slice(
            alloc, bytes,
        )?)),
        Event::UnknownText(bytes) if bytes.len() < SIZE_LIMIT as usize => {
            Start::Whole(Value::UnknownText(Blob::from_slice(alloc, bytes)?))
        }
        Event::StructBegin => Start::Opens(Kind::Struct, Level::Fields(Fields::new(alloc))),
        Event::EmptyMap => Start::Whole(Value::EmptyMap),
        Event::MapBegin(key, value, size) if 0 < *size && *size < SIZE_LIMIT => {
            Start::Opens(
                Kind::Map,
                Level::Map(*key, *value, *size, Pairs::new(alloc)),
            )
        }
        Event::SetBegin(kind, size) if *size < SIZE_LIMIT => {
            Start::Opens(Kind::Set, Level::Set(*kind, *size, Items::new(alloc)))
        }
        Event::ListBegin(kind, size) if *size < SIZE_LIMIT => {
            Start::Opens(Kind::List, Level::List(*kind, *size, Items::new(alloc)))
        }
        Event::Uuid(bytes) => Start::Whole(Value::Uuid(*bytes)),
        _ => Start::Nothing,
    };
    Ok(start)
}
