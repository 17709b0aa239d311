//! One item of a body or a header at the front of a slice, with the number of bytes that it takes.
ghost use Rattle.std.specs.Prelude.{◌≡◌, ◌≤◌, ◌<◌, ◌^◌, length, IfOk};
ghost use Rattle.thrift_value.specs.Items.{item_of};
ghost use Rattle.protocol_traits.specs.Room.{IsSized};
ghost use Rattle.protocol_traits.specs.Steps.{seen};
ghost use Rattle.compact_protocol.specs.Codes.{type_of};
ghost use Rattle.compact_protocol.specs.Scan.{scan_of, IsWithin, next_id, field_at, long_field, flag_of, field_value, next_of, item_in, type_at, front_at};

use crate::numbers::{id_behind, varint32_behind};
use crate::values::{kind_of, value_in};
use protocol_traits::{Fault, Reason, Slot, fault_at};
use thrift_value::{Event, Kind, MessageType};

/// The item that the innermost of so many levels calls for, where the last field's byte told this flag.
#[tactic(auto, unfolding(crate::specs::Scan::item_in))]
#[inline(always)]
pub fn item_in(
    depth: usize,
    slot: Slot,
    flag: bool,
    bytes: &[u8],
) -> Result<(Event<'_>, usize), Fault>
    ensures within { IsWithin (length bytes.now) result }
    ensures exact { seen scan_of result ≡ item_in depth slot flag bytes.now }
    ensures sized { length bytes.now < 2 ^ 31 → IfOk result (λ x. IsSized (item_of x.0)) }
{
    match slot {
        Slot::Fields(last) => field_at(last, bytes),
        Slot::Value(kind, _) => field_value(depth, kind, flag, bytes),
        Slot::Elements(kind, left) => next_of(depth, kind, left, bytes),
        Slot::Keys(key, _, left) => next_of(depth, key, left, bytes),
        Slot::Values(_, value, _) => value_in(depth, value, bytes),
    }
}

/// What the byte of a bool field tells of its value.
#[tactic(auto, unfolding(crate::specs::Scan::flag_of))]
#[inline(always)]
pub fn flag_of(bytes: &[u8]) -> bool
    ensures { result ≡ flag_of bytes.now }
{
    if bytes.is_empty() {
        return false;
    }
    bytes[0] % 16 == 1
}

#[tactic(auto, unfolding(crate::specs::Scan::field_at))]
#[inline(always)]
fn field_at(last: i16, bytes: &[u8]) -> Result<(Event<'_>, usize), Fault>
    ensures within { IsWithin (length bytes.now) result }
    ensures exact { seen scan_of result ≡ field_at last bytes.now }
    ensures sized { length bytes.now < 2 ^ 31 → IfOk result (λ x. IsSized (item_of x.0)) }
{
    if bytes.is_empty() {
        return Err(fault_at(0, Reason::Truncated));
    }
    if bytes[0] == 0 {
        return Ok((Event::Stop, 1));
    }
    let Some(kind) = kind_of(bytes[0] % 16) else {
        return Err(fault_at(0, Reason::BadKind));
    };
    let step = bytes[0] / 16;
    if step == 0 {
        return long_field(kind, bytes);
    }
    match next_id(last, step) {
        Some(id) => Ok((Event::Field(id, kind), 1)),
        None => Err(fault_at(0, Reason::BadId)),
    }
}

/// The id that lies so much above the last, if there is one.
#[inline(always)]
pub fn next_id(last: i16, step: u8) -> Option<i16>
    ensures { result ≡ next_id last step }
{
    last.checked_add(i16::from(step))
}

/// A field whose id stands behind its byte in full.
#[inline(always)]
#[tactic(auto, unfolding(crate::specs::Scan::long_field))]
fn long_field(kind: Kind, bytes: &[u8]) -> Result<(Event<'_>, usize), Fault>
    requires { 1 ≤ length bytes.now }
    ensures within { IsWithin (length bytes.now) result }
    ensures exact { seen scan_of result ≡ long_field kind bytes.now }
{
    let (id, taken) = id_behind(bytes, 1)?;
    Ok((Event::Field(id, kind), taken))
}

/// The value of a field: a bool's was told by the field's byte.
#[tactic(auto, unfolding(crate::specs::Scan::field_value))]
#[inline(always)]
fn field_value(
    depth: usize,
    kind: Kind,
    flag: bool,
    bytes: &[u8],
) -> Result<(Event<'_>, usize), Fault>
    ensures within { IsWithin (length bytes.now) result }
    ensures exact { seen scan_of result ≡ field_value depth kind flag bytes.now }
{
    if matches!(kind, Kind::Bool) {
        return Ok((Event::Bool(flag), 0));
    }
    value_in(depth, kind, bytes)
}

/// The next of the elements or keys that are left, or the end.
#[tactic(auto, unfolding(crate::specs::Scan::next_of))]
#[inline(always)]
fn next_of(depth: usize, kind: Kind, left: u32, bytes: &[u8]) -> Result<(Event<'_>, usize), Fault>
    ensures within { IsWithin (length bytes.now) result }
    ensures exact { seen scan_of result ≡ next_of depth kind left bytes.now }
{
    if left == 0 {
        return Ok((Event::End, 0));
    }
    value_in(depth, kind, bytes)
}

/// The type and the sequence number of a header.
#[tactic(auto, unfolding(crate::specs::Scan::front_at))]
pub fn front_at(bytes: &[u8]) -> Result<((MessageType, i32), usize), Fault>
    ensures within { IsWithin (length bytes.now) result }
    ensures exact { result ≡ front_at bytes.now }
{
    let (mtype, taken) = type_at(bytes)?;
    let (number, taken) = varint32_behind(bytes, taken)?;
    Ok(((mtype, number.cast_signed()), taken))
}

/// The protocol's byte, the version and the type.
#[tactic(auto, unfolding(crate::specs::Scan::type_at))]
fn type_at(bytes: &[u8]) -> Result<(MessageType, usize), Fault>
    ensures within { IsWithin (length bytes.now) result }
    ensures exact { result ≡ type_at bytes.now }
{
    if bytes.is_empty() {
        return Err(fault_at(0, Reason::Truncated));
    }
    if bytes[0] != 0x82 {
        return Err(fault_at(0, Reason::BadVersion));
    }
    if bytes.len() < 2 {
        return Err(fault_at(1, Reason::Truncated));
    }
    if bytes[1] % 32 != 1 {
        return Err(fault_at(1, Reason::BadVersion));
    }
    match type_of(bytes[1] / 32) {
        Some(mtype) => Ok((mtype, 2)),
        None => Err(fault_at(1, Reason::BadType)),
    }
}

/// The type with this number.
#[inline(always)]
pub fn type_of(code: u8) -> Option<MessageType>
    ensures { result ≡ type_of code }
{
    match code {
        1 => Some(MessageType::Call),
        2 => Some(MessageType::Reply),
        3 => Some(MessageType::Exception),
        4 => Some(MessageType::Oneway),
        _ => None,
    }
}
