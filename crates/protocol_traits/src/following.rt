//! How an event changes the open levels. Every reader and writer follows by it.
ghost use Rattle.std.specs.Prelude.{◌≡◌, ◌<◌, ◌≤◌, ◌∷◌, List, Some, length};
ghost use Rattle.thrift_value.specs.Items.{item_of};
ghost use Rattle.protocol_traits.specs.declared.nest.Slot.{Slot};
ghost use Rattle.protocol_traits.specs.declared.nest.TheConstants.{DEPTH};
ghost use Rattle.protocol_traits.specs.Stack.{first_of};
ghost use Rattle.protocol_traits.specs.Follow.{after, spent, depth_after};

use crate::{Nest, Slot};
use thrift_value::Event;

/// Takes the levels from before an event to after it.
#[inline(always)]
pub fn follow(nest: &mut Nest, event: &Event<'_>)
    requires begun { 0 < length nest.old }
    requires shallow { depth_after (item_of event.now) (length nest.old) ≤ DEPTH }
    ensures { nest.new ≡ after (item_of event.now) nest.old }
{
    let Some(level) = nest.top() else {
        unreachable!()
    };
    follow_in(nest, level, event);
}

/// `follow` where the innermost level is known.
#[inline(always)]
pub fn follow_in(nest: &mut Nest, level: Slot, event: &Event<'_>)
    requires known { first_of nest.old ≡ Some level }
    requires shallow { depth_after (item_of event.now) (length nest.old) ≤ DEPTH }
    ensures { nest.new ≡ after (item_of event.now) nest.old }
{
    match *event {
        Event::Field(id, kind) => nest.set_top(Slot::Value(kind, id)),
        Event::Stop | Event::End => nest.pop(),
        Event::StructBegin => open(nest, level, Slot::Fields(0)),
        Event::MapBegin(key, value, size) => open(nest, level, Slot::Keys(key, value, size)),
        Event::SetBegin(kind, size) | Event::ListBegin(kind, size) => {
            open(nest, level, Slot::Elements(kind, size));
        }
        _ => nest.set_top(spent_in(level)),
    }
}

/// A value that is itself a level has begun.
#[inline(always)]
fn open(nest: &mut Nest, level: Slot, slot: Slot)
    requires known { first_of nest.old ≡ Some level }
    requires shallow { length nest.old < DEPTH }
    ensures { nest.new ≡ slot ∷ spent nest.old }
{
    nest.set_top(spent_in(level));
    nest.push(slot);
}

/// A level when the value that it called for has come.
#[inline(always)]
fn spent_in(level: Slot) -> Slot
    ensures { (up : List Slot) → spent (level ∷ up) ≡ result ∷ up }
{
    match level {
        Slot::Fields(last) => Slot::Fields(last),
        Slot::Value(_, id) => Slot::Fields(id),
        Slot::Elements(kind, left) => Slot::Elements(kind, left.saturating_sub(1)),
        Slot::Keys(key, value, left) => Slot::Values(key, value, left),
        Slot::Values(key, value, left) => Slot::Keys(key, value, left.saturating_sub(1)),
    }
}
