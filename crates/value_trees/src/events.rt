//! The events of a body, in order.
ghost use Rattle.std.specs.Prelude.{◌≡◌, ◌<◌, ◌^◌, ◌∷◌, map, length, IfOk, IfSome};
ghost use Rattle.thrift_value.specs.Items.{item_of};
ghost use Rattle.thrift_value.specs.Trees.{items_of, items_of_members, AreMembers, IsValue};
ghost use Rattle.value_trees.specs.Views.{tree_of};
ghost use Rattle.value_trees.specs.Telling.{items_left, left_in, items_of_next, IsRest, AreRests, IsNext, TellsMore};

use crate::{Field, Fields, Value};
use gate_base::OutOfMemory;
use std::alloc::Global;
use thrift_value::Event;

/// The events of a body: those of its fields and one last `Stop`.
///
/// The body's values are what the kinds say. Want of memory is the one error. Nothing recurses, however deep the
/// body is: the structs and containers that are open stand in a list.
pub fn events_of<'m>(alloc: Global, body: &'m Fields) -> Result<Vec<Event<'m>>, OutOfMemory>
    requires { AreMembers body.now }
    ensures { IfOk result (λ events. map item_of events.items ≡ items_of_members body.now) }
{
    let mut telling = Telling {
        told: Vec::new(alloc),
        waiting: Vec::new(alloc),
    };
    telling.waiting.push(Rest::Fields(body.as_slice()))?;
    while let Some(rest) = telling.waiting.pop() {
        telling.tell(rest)?;
    }
    Ok(telling.told)
}

/// What is left to tell of an open struct or container.
#[derive(Clone, Copy)]
enum Rest<'m> {
    Fields(&'m [Field]),
    Elements(&'m [Value]),
    Pairs(&'m [(Value, Value)]),
    /// The value of a pair whose key was told, and the pairs after it.
    Paired(&'m Value, &'m [(Value, Value)]),
}

/// The events told so far, and what is left, the innermost last.
#[derive(Drop)]
struct Telling<'m> {
    told: Vec<Event<'m>>,
    waiting: Vec<Rest<'m>>,
}

impl<'m> Telling<'m> {
    /// Tells the next value or end of what is left of the innermost.
    fn tell(&mut self, rest: Rest<'m>) -> Result<(), OutOfMemory>
        requires rest { IsRest rest }
        requires rests { AreRests self.old.waiting.items }
        ensures told { IfOk result (λ _. TellsMore self.old self.new (items_left rest.entry)) }
        ensures more { IfOk result (λ _. length self.old.told.items < length self.new.told.items) }
        ensures rests { IfOk result (λ _. AreRests self.new.waiting.items) }
    {
        match next_of(rest) {
            Next::Ends(end) => self.told.push(end)?,
            Next::Field(head, value, rest) => {
                self.waiting.push(rest)?;
                self.told.push(head)?;
                self.begin(value)?;
            }
            Next::Value(value, rest) => {
                self.waiting.push(rest)?;
                self.begin(value)?;
            }
        }
        Ok(())
    }

    /// Tells a value, or begins to, and leaves the rest of it open.
    fn begin(&mut self, value: &'m Value) -> Result<(), OutOfMemory>
        requires value { IsValue (tree_of value.now) }
        requires rests { AreRests self.old.waiting.items }
        ensures told { IfOk result (λ _. TellsMore self.old self.new (items_of (tree_of value.now))) }
        ensures more { IfOk result (λ _. length self.old.told.items < length self.new.told.items) }
        ensures rests { IfOk result (λ _. AreRests self.new.waiting.items) }
    {
        let (event, rest) = split(value);
        self.told.push(event)?;
        if let Some(rest) = rest {
            self.waiting.push(rest)?;
        }
        Ok(())
    }
}

/// What comes first in an open struct or container, and what is left after it.
#[derive(Clone, Copy)]
enum Next<'m> {
    Ends(Event<'m>),
    Field(Event<'m>, &'m Value, Rest<'m>),
    Value(&'m Value, Rest<'m>),
}

fn next_of<'m>(rest: Rest<'m>) -> Next<'m>
    requires { IsRest rest }
    ensures told { items_of_next result ≡ items_left rest.entry }
    ensures values { IsNext result }
{
    match rest {
        Rest::Fields([]) => Next::Ends(Event::Stop),
        Rest::Fields([first, rest @ ..]) => {
            let head = Event::Field(first.id, first.value.kind());
            Next::Field(head, &first.value, Rest::Fields(rest))
        }
        Rest::Elements([]) => Next::Ends(Event::End),
        Rest::Elements([first, rest @ ..]) => Next::Value(first, Rest::Elements(rest)),
        Rest::Pairs([]) => Next::Ends(Event::End),
        Rest::Pairs([first, rest @ ..]) => Next::Value(&first.0, Rest::Paired(&first.1, rest)),
        Rest::Paired(value, rest) => Next::Value(value, Rest::Pairs(rest)),
    }
}

/// The event that a value begins with, and what is left of the value behind it.
fn split<'m>(value: &'m Value) -> (Event<'m>, Option<Rest<'m>>)
    requires { IsValue (tree_of value.now) }
    ensures told { item_of result.0 ∷ left_in result.1 ≡ items_of (tree_of value.now) }
    ensures rest { IfSome result.1 (λ rest. IsRest rest) }
{
    match value {
        Value::Bool(truth) => (Event::Bool(*truth), None),
        Value::I8(n) => (Event::I8(*n), None),
        Value::I16(n) => (Event::I16(*n), None),
        Value::I32(n) => (Event::I32(*n), None),
        Value::I64(n) => (Event::I64(*n), None),
        Value::Double(bytes) => (Event::Double(*bytes), None),
        Value::Str(text) => (Event::Str(text.as_slice()), None),
        Value::Struct(fields) => (Event::StructBegin, Some(Rest::Fields(fields.as_slice()))),
        Value::EmptyMap => (Event::EmptyMap, None),
        Value::Map(key, value, pairs) => {
            let pairs = pairs.as_slice();
            (
                Event::MapBegin(*key, *value, pairs.len() as u32),
                Some(Rest::Pairs(pairs)),
            )
        }
        Value::Set(kind, items) => {
            let items = items.as_slice();
            (
                Event::SetBegin(*kind, items.len() as u32),
                Some(Rest::Elements(items)),
            )
        }
        Value::List(kind, items) => {
            let items = items.as_slice();
            (
                Event::ListBegin(*kind, items.len() as u32),
                Some(Rest::Elements(items)),
            )
        }
        Value::NumberText(text) => (Event::NumberText(text.as_slice()), None),
        Value::UnknownText(text) => (Event::UnknownText(text.as_slice()), None),
        Value::Uuid(bytes) => (Event::Uuid(*bytes), None),
    }
}
