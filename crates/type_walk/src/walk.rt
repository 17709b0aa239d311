//! The walk through a body.
ghost use Rattle.std.specs.Prelude.{◌≡◌, ◌<◌, ◌≤◌, ◌↔◌, IsTrue, IfSome, length};
ghost use Rattle.thrift_value.specs.Items.{item_of};
ghost use Rattle.protocol_traits.specs.Follow.{depth_after};
ghost use Rattle.type_tables.specs.Known.{IsKnown};
ghost use Rattle.type_walk.specs.Positions.{start, hint_of, mark_of, after, inside_of};
ghost use Rattle.protocol_traits.specs.declared.nest.TheConstants.{DEPTH};

use crate::levels::{Level, Levels};
use crate::open::OpenLevels;
use crate::types::{hint_at, mark_at};
use protocol_traits::{Hint, Mark};
use std::marker::Model;
use thrift_value::Event;
use type_tables::{Schema, StructId, Ty};

/// A walk through a body: what is declared of the value that stands next.
///
/// The struct of a body, the fields that a struct declares and the types of a container's parts are those of the IDL.
/// Below a place of which nothing is declared, or where another kind stands than the declared one, nothing is known.
#[derive(Drop)]
pub struct Walk<'s> {
    schema: &'s Schema,
    here: OpenLevels,
}

/// Clauses see the declarations, the open levels and the declared type of what stands next.
impl<'s> Model for Walk<'s> {
    ghost use Rattle.type_walk.specs.Positions.{Position};
    ghost use Rattle.type_walk.specs.Known.{IsSound, position_of};

    ghost Value = { Position };

    ghost view = { λ w. position_of w.schema.now w.here };

    ghost invariant = { λ w. IsSound w.schema.now w.here };
}

impl<'s> Walk<'s> {
    /// At the beginning of a body of this struct, or of one of which nothing is declared.
    pub fn start(schema: &'s Schema, body: Option<StructId>) -> Walk<'s>
        requires { IfSome body (λ s. s.0 < length schema.now.structs) }
        ensures { result ≡ start schema.now body }
    {
        let here = match body {
            Some(s) => OpenLevels {
                next: Ty::Unknown,
                known: Levels::one(Level::Fields(s)),
                unknown: 0,
            },
            None => OpenLevels {
                next: Ty::Unknown,
                known: Levels::none(),
                unknown: 1,
            },
        };
        Walk { schema, here }
    }

    /// Whether the body goes on.
    #[inline(always)]
    pub fn is_open(&self) -> bool
        ensures { IsTrue result ↔ 0 < length self.now.levels }
    {
        self.here.unknown > 0 || self.here.known.top().is_some()
    }

    /// How a string that stands next is read.
    #[inline(always)]
    pub fn hint(&self) -> Hint
        ensures { result ≡ hint_of self.now }
    {
        hint_at(self.here.next)
    }

    /// The declared type of the value that stands next; `Ty::Unknown` where a field comes first.
    #[inline(always)]
    pub fn next(&self) -> Ty
        ensures value { result ≡ self.now.next }
        ensures known { IsKnown self.now.schema result }
    {
        self.here.next
    }

    /// The declared struct of the struct in which the next event stands; None where it is unknown or the event stands
    /// in a container.
    pub fn inside(&self) -> Option<StructId>
        ensures value { result ≡ inside_of self.now }
        ensures known { IfSome result (λ s. s.0 < length self.now.schema.structs) }
    {
        if self.here.unknown > 0 {
            return None;
        }
        match self.here.known.top() {
            Some(Level::Fields(s)) => Some(*s),
            _ => None,
        }
    }

    /// Goes past an event, and says what is known where it stands. At most `DEPTH` levels are open.
    #[inline(always)]
    pub fn step(&mut self, event: &Event<'_>) -> Mark
        requires open { 0 < length self.old.levels }
        requires shallow { depth_after (item_of event.now) (length self.old.levels) ≤ DEPTH }
        ensures mark { result ≡ mark_of self.old (item_of event.now) }
        ensures after { self.new ≡ after self.old (item_of event.now) }
        ensures schema { self.new.schema ≡ self.old.schema }
        ensures depth { length self.new.levels ≡ depth_after (item_of event.now) (length self.old.levels) }
    {
        let mark = mark_at(self.schema, self.here.next);
        self.here.pass(self.schema, event);
        mark
    }
}
