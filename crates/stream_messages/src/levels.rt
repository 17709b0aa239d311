//! The open levels where an item ends: which value was called for, and which is called for next.
ghost use Rattle.std.specs.Prelude.{◌≡◌, ◌∷◌, List};
ghost use Rattle.protocol_traits.specs.Follow.{spent};
ghost use Rattle.protocol_traits.specs.Stack.{rest_of};
ghost use Rattle.protocol_traits.specs.declared.nest.Slot.{Slot};
ghost use Rattle.stream_messages.specs.Levels.{kind_called, nests, has_ended, is_field, closed, opened, settles, opens, puts};

use crate::parts::Next;
use protocol_traits::{DEPTH, Nest, Slot};
use thrift_value::Kind;

/// What is called for behind an item.
#[derive(Clone, Copy)]
pub enum Settled {
    /// Nothing: the message is whole.
    Whole,
    /// A byte of the item that the innermost level calls for.
    Item,
    /// A value that lies deeper than `DEPTH` levels.
    TooDeep,
}

/// Goes over what has no bytes behind an item: the ends of containers, the begin of a struct, and in the Compact protocol the
/// value of a bool field, which `told` says to have stood in the field's byte.
pub fn settle(nest: &mut Nest, told: bool) -> Settled
    ensures { (result, nest.new) ≡ settles told nest.old }
{
    close_ended(nest);
    open_next(nest, told)
}

/// Closes the containers of which nothing is left.
fn close_ended(nest: &mut Nest)
    ensures { nest.new ≡ closed nest.old }
{
    while let Some(level) = nest.top() {
        if !has_ended(level) {
            return;
        }
        nest.pop();
    }
}

/// Opens a struct where one is called for, and passes over a bool that was told.
#[tactic(auto, unfolding(crate::specs::Levels::opened))]
fn open_next(nest: &mut Nest, told: bool) -> Settled
    ensures { (result, nest.new) ≡ opened told nest.old }
{
    let Some(level) = nest.top() else {
        return Settled::Whole;
    };
    let Some(kind) = kind_called(level) else {
        return Settled::Item;
    };
    if nests(kind) && nest.depth() >= DEPTH {
        return Settled::TooDeep;
    }
    match kind {
        Kind::Struct => {
            nest.set_top(spent_in(level));
            nest.push(Slot::Fields(0));
        }
        Kind::Bool if told && is_field(level) => nest.set_top(spent_in(level)),
        _ => (),
    }
    Settled::Item
}

/// Whether nothing is left of a container.
#[inline(always)]
fn has_ended(level: Slot) -> bool
    ensures { result ≡ has_ended level }
{
    matches!(level, Slot::Elements(_, 0) | Slot::Keys(_, _, 0))
}

/// Whether the value of a field is called for.
#[inline(always)]
fn is_field(level: Slot) -> bool
    ensures { result ≡ is_field level }
{
    matches!(level, Slot::Value(_, _))
}

/// The kind of the value that a level calls for; None where that is a field or a struct's end.
#[inline(always)]
pub fn kind_called(level: Slot) -> Option<Kind>
    ensures { result ≡ kind_called level }
{
    match level {
        Slot::Fields(_) => None,
        Slot::Value(kind, _) | Slot::Elements(kind, _) | Slot::Keys(kind, _, _) => Some(kind),
        Slot::Values(_, kind, _) => Some(kind),
    }
}

/// Whether a value of this kind is one level more.
#[inline(always)]
fn nests(kind: Kind) -> bool
    ensures { result ≡ nests kind }
{
    matches!(kind, Kind::Struct | Kind::Map | Kind::Set | Kind::List)
}

/// A level when the value that it called for has come.
#[inline(always)]
fn spent_in(level: Slot) -> Slot
    ensures { (up : List Slot) → spent (level ∷ up) ≡ result ∷ up }
{
    match level {
        Slot::Fields(last) => Slot::Fields(last),
        Slot::Value(_, id) => Slot::Fields(id),
        Slot::Elements(kind, left) => Slot::Elements(kind, left.saturating_sub(1)),
        Slot::Keys(key, value, left) => Slot::Values(key, value, left),
        Slot::Values(key, value, left) => Slot::Keys(key, value, left.saturating_sub(1)),
    }
}

/// A value without levels has come where the innermost level called for it.
#[inline(always)]
pub fn spend(nest: &mut Nest)
    ensures { nest.new ≡ spent nest.old }
{
    if let Some(level) = nest.top() {
        nest.set_top(spent_in(level));
    }
}

/// A value that is a level has begun where the innermost level called for it.
pub fn open(nest: &mut Nest, slot: Slot) -> Next
    ensures { (result, nest.new) ≡ opens slot nest.old }
{
    let Some(level) = nest.top() else {
        return Next::Bad;
    };
    if nest.depth() >= DEPTH {
        return Next::Bad;
    }
    nest.set_top(spent_in(level));
    nest.push(slot);
    Next::Ended
}

/// The innermost level is this now, where one is open.
#[inline(always)]
pub fn put(nest: &mut Nest, slot: Slot)
    ensures { nest.new ≡ puts slot nest.old }
{
    if nest.depth() > 0 {
        nest.set_top(slot);
    }
}

/// The innermost level is closed, where one is open.
#[inline(always)]
pub fn pop(nest: &mut Nest)
    ensures { nest.new ≡ rest_of nest.old }
{
    if nest.depth() > 0 {
        nest.pop();
    }
}
