//! The walk through a body of which nothing is declared.
ghost use Rattle.std.specs.Prelude.{◌≡◌, ◌<◌, ◌≤◌, ◌↔◌, IsTrue, None, length};
ghost use Rattle.thrift_value.specs.Items.{item_of};
ghost use Rattle.protocol_traits.specs.Follow.{depth_after};
ghost use Rattle.type_walk.specs.Positions.{start, hint_of, mark_of, after};
ghost use Rattle.protocol_traits.specs.declared.nest.TheConstants.{DEPTH};

use protocol_traits::{Hint, Mark};
use std::marker::Model;
use thrift_value::{Event, Kind};
use type_tables::Schema;

/// A walk through a body of which nothing is declared: it only counts what is open.
///
/// It answers what a `Walk` does that starts without a struct, and is quicker to make.
#[derive(Drop)]
pub struct Undeclared<'s> {
    schema: &'s Schema,
    levels: usize,
}

/// Clauses see a position of which nothing is known.
impl<'s> Model for Undeclared<'s> {
    ghost use Rattle.std.specs.Prelude.{◌≤◌};
    ghost use Rattle.type_walk.specs.Positions.{Position};
    ghost use Rattle.type_walk.specs.Known.{unknown_at};
    ghost use Rattle.protocol_traits.specs.declared.nest.TheConstants.{DEPTH};

    ghost Value = { Position };

    ghost view = { λ w. unknown_at w.schema.now w.levels };

    ghost invariant = { λ w. w.levels ≤ DEPTH };
}

impl<'s> Undeclared<'s> {
    /// At the beginning of a body.
    pub fn start(schema: &'s Schema) -> Undeclared<'s>
        ensures { result ≡ start schema.now None }
    {
        Undeclared { schema, levels: 1 }
    }

    /// Whether the body goes on.
    #[inline(always)]
    #[tactic(auto, using(crate::proofs::Unknown::length_unknown))]
    pub fn is_open(&self) -> bool
        ensures { IsTrue result ↔ 0 < length self.now.levels }
    {
        self.levels > 0
    }

    /// How a string that stands next is read.
    #[inline(always)]
    pub fn hint(&self) -> Hint
        ensures { result ≡ hint_of self.now }
    {
        let _ = &self.levels;
        Hint::Unknown
    }

    /// Goes past an event, and says what is known where it stands. At most `DEPTH` levels are open.
    #[inline(always)]
    #[tactic(auto, using(crate::proofs::Unknown::unknown_after, crate::proofs::Unknown::length_unknown))]
    pub fn step(&mut self, event: &Event<'_>) -> Mark
        requires open { 0 < length self.old.levels }
        requires shallow { depth_after (item_of event.now) (length self.old.levels) ≤ DEPTH }
        ensures mark { result ≡ mark_of self.old (item_of event.now) }
        ensures after { self.new ≡ after self.old (item_of event.now) }
        ensures depth { length self.new.levels ≡ depth_after (item_of event.now) (length self.old.levels) }
    {
        self.levels = levels_after(event, self.levels);
        Mark {
            hint: Hint::Unknown,
            key: Kind::I8,
            value: Kind::I8,
        }
    }
}

/// How many levels are open behind an event.
#[inline(always)]
fn levels_after(event: &Event<'_>, levels: usize) -> usize
    requires { levels ≤ DEPTH }
    ensures { result ≡ depth_after (item_of event.now) levels }
{
    match *event {
        Event::Stop | Event::End => levels.saturating_sub(1),
        Event::StructBegin
        | Event::MapBegin(_, _, _)
        | Event::SetBegin(_, _)
        | Event::ListBegin(_, _) => levels + 1,
        _ => levels,
    }
}
