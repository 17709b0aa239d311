//! What is open in a body, of which something is declared or not.
ghost use Rattle.std.specs.Prelude.{◌≡◌, ◌<◌, ◌≤◌, ◌∷◌, Some, length};
ghost use Rattle.thrift_value.specs.Items.{item_of, field};
ghost use Rattle.protocol_traits.specs.Follow.{depth_after};
ghost use Rattle.type_tables.specs.Declarations.{Declarations};
ghost use Rattle.type_walk.specs.Positions.{after, called_for, entered, in_list, in_map, in_set, in_struct, passed, standing};
ghost use Rattle.type_walk.specs.Stack.{first_of, rest_of};
ghost use Rattle.type_walk.specs.Known.{IsKnownLevel, IsSound, shaded, position_of};
ghost use Rattle.protocol_traits.specs.declared.nest.TheConstants.{DEPTH};

use crate::levels::{Level, Levels};
use crate::types::{called_for, declared_in, declared_type, in_list, in_map, in_set, in_struct};
use thrift_value::{Event, Kind};
use type_tables::{Schema, Ty};

/// The open structs and containers, and the declared type of the value that stands next.
#[derive(Drop)]
pub struct OpenLevels {
    pub next: Ty,
    pub known: Levels,
    /// How many levels are open inside the known ones, of which nothing is known.
    pub unknown: usize,
}

impl OpenLevels {
    /// Goes past an event.
    #[inline(always)]
    pub fn pass(&mut self, schema: &Schema, event: &Event<'_>)
        requires sound { IsSound schema.now self.old }
        requires open { 0 < length (shaded self.old.unknown self.old.known) }
        requires shallow { depth_after (item_of event.now) (length (shaded self.old.unknown self.old.known)) ≤ DEPTH }
        ensures after { position_of schema.now self.new ≡ after (position_of schema.now self.old) (item_of event.now) }
        ensures sound { IsSound schema.now self.new }
    {
        if self.unknown > 0 {
            self.pass_unknown(schema, event);
        } else {
            self.pass_known(schema, event);
        }
    }

    /// Goes past a field.
    #[inline(always)]
    fn announce(&mut self, schema: &Schema, id: i16, kind: Kind)
        requires sound { IsSound schema.now self.old }
        requires all { self.old.unknown ≡ 0 }
        requires open { 0 < length self.old.known }
        ensures after { position_of schema.now self.new ≡ after (position_of schema.now self.old) (field id kind) }
        ensures sound { IsSound schema.now self.new }
    {
        self.next = declared_type(declared_in(schema, self.known.innermost(), id, kind));
    }

    #[inline(always)]
    fn pass_unknown(&mut self, schema: &Schema, event: &Event<'_>)
        requires sound { IsSound schema.now self.old }
        requires below { 0 < self.old.unknown }
        requires shallow { depth_after (item_of event.now) (length (shaded self.old.unknown self.old.known)) ≤ DEPTH }
        ensures after { position_of schema.now self.new ≡ after (position_of schema.now self.old) (item_of event.now) }
        ensures sound { IsSound schema.now self.new }
    {
        match *event {
            Event::Stop | Event::End => self.leave_unknown(schema),
            Event::StructBegin
            | Event::MapBegin(_, _, _)
            | Event::SetBegin(_, _)
            | Event::ListBegin(_, _) => self.unknown += 1,
            _ => {}
        }
    }

    /// Closes a level of which nothing is known.
    fn leave_unknown(&mut self, schema: &Schema)
        requires sound { IsSound schema.now self.old }
        requires below { 0 < self.old.unknown }
        ensures after { position_of schema.now self.new ≡ standing schema.now (rest_of (shaded self.old.unknown self.old.known)) }
        ensures sound { IsSound schema.now self.new }
    {
        self.unknown -= 1;
        if self.unknown == 0 {
            self.next = called_for(self.known.top());
        }
    }

    #[inline(always)]
    fn pass_known(&mut self, schema: &Schema, event: &Event<'_>)
        requires sound { IsSound schema.now self.old }
        requires all { self.old.unknown ≡ 0 }
        requires open { 0 < length self.old.known }
        requires shallow { depth_after (item_of event.now) (length self.old.known) ≤ DEPTH }
        ensures after { position_of schema.now self.new ≡ after (position_of schema.now self.old) (item_of event.now) }
        ensures sound { IsSound schema.now self.new }
    {
        match *event {
            Event::Field(id, kind) => self.announce(schema, id, kind),
            Event::Stop | Event::End => self.leave(schema),
            Event::StructBegin => self.enter_struct(schema),
            Event::MapBegin(key, value, _) => self.enter_map(schema, key, value),
            Event::SetBegin(kind, _) => self.enter_set(schema, kind),
            Event::ListBegin(kind, _) => self.enter_list(schema, kind),
            _ => self.spend(schema),
        }
    }

    /// A struct has begun where a value was called for.
    fn enter_struct(&mut self, schema: &Schema)
        requires sound { IsSound schema.now self.old }
        requires all { self.old.unknown ≡ 0 }
        requires open { 0 < length self.old.known }
        requires shallow { length self.old.known < DEPTH }
        ensures after { position_of schema.now self.new ≡ entered (position_of schema.now self.old) (in_struct self.old.next) }
        ensures sound { IsSound schema.now self.new }
    {
        self.enter(schema, in_struct(self.next));
    }

    /// A map with parts of these kinds has begun where a value was called for.
    fn enter_map(&mut self, schema: &Schema, key: Kind, value: Kind)
        requires sound { IsSound schema.now self.old }
        requires all { self.old.unknown ≡ 0 }
        requires open { 0 < length self.old.known }
        requires shallow { length self.old.known < DEPTH }
        ensures after { position_of schema.now self.new ≡ entered (position_of schema.now self.old) (in_map schema.now self.old.next key value) }
        ensures sound { IsSound schema.now self.new }
    {
        self.enter(schema, in_map(schema, self.next, key, value));
    }

    /// A set of this kind has begun where a value was called for.
    fn enter_set(&mut self, schema: &Schema, kind: Kind)
        requires sound { IsSound schema.now self.old }
        requires all { self.old.unknown ≡ 0 }
        requires open { 0 < length self.old.known }
        requires shallow { length self.old.known < DEPTH }
        ensures after { position_of schema.now self.new ≡ entered (position_of schema.now self.old) (in_set schema.now self.old.next kind) }
        ensures sound { IsSound schema.now self.new }
    {
        self.enter(schema, in_set(schema, self.next, kind));
    }

    /// A list of this kind has begun where a value was called for.
    fn enter_list(&mut self, schema: &Schema, kind: Kind)
        requires sound { IsSound schema.now self.old }
        requires all { self.old.unknown ≡ 0 }
        requires open { 0 < length self.old.known }
        requires shallow { length self.old.known < DEPTH }
        ensures after { position_of schema.now self.new ≡ entered (position_of schema.now self.old) (in_list schema.now self.old.next kind) }
        ensures sound { IsSound schema.now self.new }
    {
        self.enter(schema, in_list(schema, self.next, kind));
    }

    /// A struct or container has begun where a value was called for.
    #[inline(always)]
    fn enter(&mut self, schema: &Schema, level: Level)
        requires sound { IsSound schema.now self.old }
        requires known { IsKnownLevel schema.now level }
        requires all { self.old.unknown ≡ 0 }
        requires open { 0 < length self.old.known }
        requires shallow { length self.old.known < DEPTH }
        ensures after { position_of schema.now self.new ≡ entered (position_of schema.now self.old) level }
        ensures sound { IsSound schema.now self.new }
    {
        self.spend(schema);
        match level {
            Level::Unknown => {
                self.unknown = 1;
                self.next = Ty::Unknown;
            }
            _ => {
                self.next = called_for(Some(&level));
                self.known.push(level);
            }
        }
    }

    /// Closes the innermost level.
    fn leave(&mut self, schema: &Schema)
        requires sound { IsSound schema.now self.old }
        requires all { self.old.unknown ≡ 0 }
        requires open { 0 < length self.old.known }
        ensures after { position_of schema.now self.new ≡ standing schema.now (rest_of self.old.known) }
        ensures sound { IsSound schema.now self.new }
        ensures all { self.new.unknown ≡ 0 }
    {
        self.known.pop();
        self.next = called_for(self.known.top());
    }

    /// A value has come. Most stand in a struct, so that is asked first.
    #[inline(always)]
    fn spend(&mut self, schema: &Schema)
        requires sound { IsSound schema.now self.old }
        requires all { self.old.unknown ≡ 0 }
        requires open { 0 < length self.old.known }
        ensures levels { self.new.known ≡ passed self.old.known }
        ensures after { position_of schema.now self.new ≡ standing schema.now (passed self.old.known) }
        ensures sound { IsSound schema.now self.new }
        ensures all { self.new.unknown ≡ 0 }
    {
        match self.known.innermost() {
            Level::Fields(_) => self.next = Ty::Unknown,
            _ => self.spend_part(schema),
        }
    }

    /// A part of a container has come: after a key comes its value, after that the next key.
    #[inline(always)]
    fn spend_part(&mut self, schema: &Schema)
        requires sound { IsSound schema.now self.old }
        requires all { self.old.unknown ≡ 0 }
        requires open { 0 < length self.old.known }
        ensures levels { self.new.known ≡ passed self.old.known }
        ensures after { position_of schema.now self.new ≡ standing schema.now (passed self.old.known) }
        ensures sound { IsSound schema.now self.new }
        ensures all { self.new.unknown ≡ 0 }
    {
        match *self.known.innermost() {
            Level::Keys(key, value) => {
                self.known.set_top(Level::Values(key, value));
                self.next = value;
            }
            Level::Values(key, value) => {
                self.known.set_top(Level::Keys(key, value));
                self.next = key;
            }
            Level::Elements(element) => self.next = element,
            Level::Fields(_) | Level::Unknown => self.next = Ty::Unknown,
        }
    }
}
