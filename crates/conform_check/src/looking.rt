//! What stands against an event where it stands, and what is open behind it.
ghost use Rattle.std.specs.Prelude.{◌≡◌, ◌<◌, ◌≤◌, ◌∷◌, None, length, true};
ghost use Rattle.thrift_value.specs.Items.{item_of, field, stop};
ghost use Rattle.protocol_traits.specs.Follow.{depth_after};
ghost use Rattle.type_tables.specs.Structs.{widest};
ghost use Rattle.conform_check.specs.Inside.{advanced, closed, inside_after, opened, top_step};
ghost use Rattle.conform_check.specs.Breaches.{at, breach_unless, found_in};
ghost use Rattle.conform_check.specs.Fitting.{AreFitting};

use crate::breach::{Breach, Found};
use crate::fields::{field_breach, stop_breach};
use crate::step::Step;
use crate::trail::Trail;
use crate::values::{list_agrees, map_agrees, number_agrees, set_agrees, text_agrees};
use thrift_value::{Event, Kind};
use type_tables::Schema;
use type_walk::Walk;

/// What stands against an event at the walk's place. Where nothing does, the trail goes past it.
#[inline(always)]
pub(crate) fn look(
    schema: &Schema,
    walk: &Walk<'_>,
    trail: &mut Trail,
    event: &Event<'_>,
) -> Option<Found>
    requires schema { walk.now.schema ≡ schema.now }
    requires width { trail.old.width ≡ widest schema.now.structs }
    requires open { 0 < length walk.now.levels }
    requires shallow { depth_after (item_of event.now) (length walk.now.levels) ≤ 256 }
    requires same { length trail.old.levels ≡ length walk.now.levels }
    requires fitting { AreFitting schema.now walk.now.levels trail.old.levels }
    ensures found { result ≡ found_in walk.now trail.old.levels (item_of event.now) }
    ensures passed { result ≡ None → trail.new.levels ≡ inside_after (item_of event.now) trail.old.levels }
    ensures kept { (result ≡ None → ⊥) → trail.new ≡ trail.old }
    ensures width { trail.new.width ≡ trail.old.width }
{
    match *event {
        Event::Field(id, kind) => look_at_field(schema, walk, trail, id, kind),
        Event::Stop => look_at_stop(schema, walk, trail),
        Event::End => {
            trail.close();
            None
        }
        Event::StructBegin => begin(trail, true, Step::Field(0)),
        Event::MapBegin(key, value, _) => {
            let agrees = map_agrees(schema, walk.next(), key, value);
            begin(trail, agrees, Step::Key(0))
        }
        Event::SetBegin(kind, _) => {
            let agrees = set_agrees(schema, walk.next(), kind);
            begin(trail, agrees, Step::Item(0))
        }
        Event::ListBegin(kind, _) => {
            let agrees = list_agrees(schema, walk.next(), kind);
            begin(trail, agrees, Step::Item(0))
        }
        Event::I32(number) => {
            let agrees = number_agrees(schema, walk.next(), number);
            pass(trail, agrees, Breach::NotMember)
        }
        Event::Str(bytes) | Event::UnknownText(bytes) => {
            pass(trail, text_agrees(walk.next(), bytes), Breach::NotText)
        }
        _ => pass(trail, true, Breach::WrongKind),
    }
}

/// Goes past a field.
#[inline(always)]
fn look_at_field(
    schema: &Schema,
    walk: &Walk<'_>,
    trail: &mut Trail,
    id: i16,
    kind: Kind,
) -> Option<Found>
    requires schema { walk.now.schema ≡ schema.now }
    requires width { trail.old.width ≡ widest schema.now.structs }
    requires fitting { AreFitting schema.now walk.now.levels trail.old.levels }
    requires same { length trail.old.levels ≡ length walk.now.levels }
    requires open { 0 < length trail.old.levels }
    ensures found { result ≡ found_in walk.now trail.old.levels (field id kind) }
    ensures passed { result ≡ None → trail.new.levels ≡ inside_after (field id kind) trail.old.levels }
    ensures kept { (result ≡ None → ⊥) → trail.new ≡ trail.old }
    ensures width { trail.new.width ≡ trail.old.width }
{
    let before = trail.stood(id);
    match field_breach(schema, walk.inside(), id, kind, before) {
        Some(breach) => Some(Found {
            breach,
            last: Some(Step::Field(id)),
        }),
        None => {
            trail.announce(id);
            None
        }
    }
}

/// Goes past the end of a struct.
fn look_at_stop(schema: &Schema, walk: &Walk<'_>, trail: &mut Trail) -> Option<Found>
    requires schema { walk.now.schema ≡ schema.now }
    requires width { trail.old.width ≡ widest schema.now.structs }
    requires open { 0 < length trail.old.levels }
    ensures found { result ≡ found_in walk.now trail.old.levels stop }
    ensures passed { result ≡ None → trail.new.levels ≡ closed trail.old.levels }
    ensures kept { (result ≡ None → ⊥) → trail.new ≡ trail.old }
    ensures width { trail.new.width ≡ trail.old.width }
{
    let found = stop_breach(schema, trail.width(), walk.inside(), trail.ids());
    if found.is_none() {
        trail.close();
    }
    found
}

/// Goes past the beginning of a struct or container whose parts agree with what is declared, and whose first value stands here.
#[inline(always)]
fn begin(trail: &mut Trail, agrees: bool, first: Step) -> Option<Found>
    requires open { 0 < length trail.old.levels }
    requires shallow { length trail.old.levels < 256 }
    ensures found { result ≡ at (top_step trail.old.levels) (breach_unless agrees Breach.WrongKind) }
    ensures passed { result ≡ None → trail.new.levels ≡ opened first ∷ trail.old.levels }
    ensures kept { (result ≡ None → ⊥) → trail.new ≡ trail.old }
    ensures width { trail.new.width ≡ trail.old.width }
{
    if !agrees {
        return Some(Found {
            breach: Breach::WrongKind,
            last: Some(trail.step()),
        });
    }
    trail.open(first);
    None
}

/// Goes past a value that agrees with what is declared, or tells how it breaks it.
#[inline(always)]
fn pass(trail: &mut Trail, agrees: bool, breach: Breach) -> Option<Found>
    requires open { 0 < length trail.old.levels }
    ensures found { result ≡ at (top_step trail.old.levels) (breach_unless agrees breach) }
    ensures passed { result ≡ None → trail.new.levels ≡ advanced trail.old.levels }
    ensures kept { (result ≡ None → ⊥) → trail.new ≡ trail.old }
    ensures width { trail.new.width ≡ trail.old.width }
{
    if !agrees {
        return Some(Found {
            breach,
            last: Some(trail.step()),
        });
    }
    trail.advance();
    None
}
