//! The marks before an item, and the item that a level calls for.
ghost use Rattle.std.specs.Prelude.{◌≡◌, ℕ, ◌+◌, ◌≤◌, ◌<◌, ◌^◌, length, drop, IfOk};
ghost use Rattle.protocol_traits.specs.Steps.{seen};
ghost use Rattle.json_protocol.specs.Scan.{IsWithin, Keeps, scan_of};
ghost use Rattle.json_protocol.specs.Reading.{lead_by, lead_pairs, lead_fields, lead_key, lead_at, fields_at, item_in, led, led_scan};

use crate::opening::Opening;
use crate::room::Room;
use crate::scan::{gap_from, mark_from};
use crate::value::{end_at, first_at, next_at, value_in};
use protocol_traits::{Fault, Hint, Slot, fault_at};
use thrift_value::Event;

/// The item that the innermost of so many levels calls for, with the place where it begins behind its marks.
pub fn led<'f>(
    depth: usize,
    opening: Opening,
    hint: Hint,
    slot: Slot,
    bytes: &'f [u8],
    room: &mut Room<'f>,
) -> Result<((Event<'f>, usize), usize), Fault>
    requires room { length bytes.now ≤ room.old }
    requires size { length bytes.now < 2 ^ 62 }
    ensures within { IsWithin (length bytes.now) result }
    ensures exact { seen led_scan result ≡ led depth opening hint slot bytes.now (lead_at opening slot bytes.now) }
    ensures room { Keeps (length bytes.now) room.old room.new result }
{
    let (_, lead) = lead_at(opening, slot, bytes)?;
    match item_in(depth, opening, hint, slot, &bytes[lead..], room) {
        Ok((event, taken)) => Ok(((event, lead), lead + taken)),
        Err(f) => Err(fault_at(lead + f.place, f.reason)),
    }
}

/// The marks and the whitespace before the item that a level calls for.
#[tactic(auto, unfolding(crate::specs::Reading::lead_at))]
fn lead_at(opening: Opening, slot: Slot, bytes: &[u8]) -> Result<((), usize), Fault>
    ensures within { IsWithin (length bytes.now) result }
    ensures exact { result ≡ lead_at opening slot bytes.now }
{
    match slot {
        Slot::Fields(_) => lead_fields(opening, bytes),
        Slot::Value(_, _) | Slot::Values(_, _, _) => lead_by(b':', bytes),
        Slot::Elements(_, 0) => Ok(((), gap_from(bytes, 0))),
        Slot::Elements(_, _) => lead_by(b',', bytes),
        Slot::Keys(_, _, 0) => lead_by(b'}', bytes),
        Slot::Keys(_, _, _) => lead_key(opening, bytes),
    }
}

/// Before a field or the end of a struct: the brace of the body, nothing, or the brace that closes the value before.
#[tactic(auto, unfolding(crate::specs::Reading::lead_fields))]
fn lead_fields(opening: Opening, bytes: &[u8]) -> Result<((), usize), Fault>
    ensures within { IsWithin (length bytes.now) result }
    ensures exact { result ≡ lead_fields opening bytes.now }
{
    match opening {
        Opening::Body => lead_by(b'{', bytes),
        Opening::New => Ok(((), gap_from(bytes, 0))),
        Opening::Old => lead_by(b'}', bytes),
    }
}

/// Before a key: a comma, and before the first the brace of the pairs.
#[tactic(auto, unfolding(crate::specs::Reading::lead_key))]
fn lead_key(opening: Opening, bytes: &[u8]) -> Result<((), usize), Fault>
    ensures within { IsWithin (length bytes.now) result }
    ensures exact { result ≡ lead_key opening bytes.now }
{
    match opening {
        Opening::Old => lead_by(b',', bytes),
        Opening::Body | Opening::New => lead_pairs(bytes),
    }
}

/// A comma and a brace, and the whitespace behind them.
#[tactic(auto, unfolding(crate::specs::Reading::lead_pairs))]
fn lead_pairs(bytes: &[u8]) -> Result<((), usize), Fault>
    ensures within { IsWithin (length bytes.now) result }
    ensures exact { result ≡ lead_pairs bytes.now }
{
    let (_, taken) = mark_from(b',', bytes, 0)?;
    let (_, taken) = mark_from(b'{', bytes, taken)?;
    Ok(((), gap_from(bytes, taken)))
}

/// A mark behind whitespace, and the whitespace behind it.
fn lead_by(mark: u8, bytes: &[u8]) -> Result<((), usize), Fault>
    ensures within { IsWithin (length bytes.now) result }
    ensures exact { result ≡ lead_by mark bytes.now }
{
    let (_, taken) = mark_from(mark, bytes, 0)?;
    Ok(((), gap_from(bytes, taken)))
}

#[tactic(auto, unfolding(crate::specs::Reading::item_in))]
fn item_in<'f>(
    depth: usize,
    opening: Opening,
    hint: Hint,
    slot: Slot,
    bytes: &'f [u8],
    room: &mut Room<'f>,
) -> Result<(Event<'f>, usize), Fault>
    requires room { length bytes.now ≤ room.old }
    requires size { length bytes.now < 2 ^ 62 }
    ensures within { IsWithin (length bytes.now) result }
    ensures exact { seen scan_of result ≡ item_in depth opening hint slot bytes.now }
    ensures room { Keeps (length bytes.now) room.old room.new result }
{
    match slot {
        Slot::Fields(_) => fields_at(opening, bytes),
        Slot::Elements(_, 0) | Slot::Keys(_, _, 0) => end_at(bytes),
        Slot::Value(kind, _) | Slot::Elements(kind, _) | Slot::Values(_, kind, _) => {
            value_in(depth, false, hint, kind, bytes, room)
        }
        Slot::Keys(kind, _, _) => value_in(depth, true, hint, kind, bytes, room),
    }
}

fn fields_at(opening: Opening, bytes: &[u8]) -> Result<(Event<'_>, usize), Fault>
    ensures within { IsWithin (length bytes.now) result }
    ensures exact { seen scan_of result ≡ fields_at opening bytes.now }
{
    match opening {
        Opening::Old => next_at(bytes),
        Opening::Body | Opening::New => first_at(bytes),
    }
}
