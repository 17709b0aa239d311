//! One item at the front of a slice, with the number of bytes that it takes. The place of a fault counts from the item's.
ghost use Rattle.std.specs.Prelude.{◌≡◌, ◌≤◌, ◌+◌, ◌^◌, ◌<◌, drop, length};
ghost use Rattle.thrift_value.specs.Items.{item_of};
ghost use Rattle.protocol_traits.specs.Steps.{seen};
ghost use Rattle.binary_protocol.specs.Scan.{scan_of, string_scan, shifted, IsWithin, field_at, bool_at, i8_at, i16_at, i32_at, i64_at, double_at, uuid_at, size_begun, size_at, is_zero_at, zero_at, string_at, text_at, elements_at, set_at, list_at, map_item, map_of, is_bad_kind, map_at, value_at, nests, value_in, called_for, item_called, item_in};

use crate::codes::kind_of_code;
use protocol_traits::{DEPTH, Fault, Reason, Slot, fault_at};
use thrift_value::{Event, Kind};

/// What a level calls for.
pub enum Called {
    /// A field, or the end of the struct.
    Field,
    /// Nothing more: the end of a container, which has no bytes.
    End,
    /// A value of this kind.
    Value(Kind),
}

/// The item that the innermost of so many levels calls for.
#[inline(always)]
pub fn item_in(depth: usize, slot: Slot, bytes: &[u8]) -> Result<(Event<'_>, usize), Fault>
    ensures within { IsWithin (length bytes.now) result }
    ensures exact { seen scan_of result ≡ item_in depth slot bytes.now }
{
    match called_for(slot) {
        Called::Field => field_at(bytes),
        Called::End => Ok((Event::End, 0)),
        Called::Value(kind) => value_in(depth, kind, bytes),
    }
}

#[inline(always)]
fn called_for(slot: Slot) -> Called
    ensures { result ≡ called_for slot }
{
    match slot {
        Slot::Fields(_) => Called::Field,
        Slot::Value(kind, _) => Called::Value(kind),
        Slot::Elements(_, 0) | Slot::Keys(_, _, 0) => Called::End,
        Slot::Elements(kind, _) => Called::Value(kind),
        Slot::Keys(key, _, _) => Called::Value(key),
        Slot::Values(_, value, _) => Called::Value(value),
    }
}

/// The bytes end inside an item that more bytes could still make good.
#[inline(always)]
pub fn cut(bytes: &[u8]) -> Fault
    ensures { result ≡ record { place = length bytes.now; reason = Reason.Truncated } }
{
    fault_at(bytes.len(), Reason::Truncated)
}

/// A field's kind and id, or the end of the struct.
#[inline(always)]
#[tactic(auto, unfolding(crate::specs::Scan::field_at))]
fn field_at(bytes: &[u8]) -> Result<(Event<'_>, usize), Fault>
    ensures within { IsWithin (length bytes.now) result }
    ensures exact { seen scan_of result ≡ field_at bytes.now }
{
    if bytes.is_empty() {
        return Err(cut(bytes));
    }
    if bytes[0] == 0 {
        return Ok((Event::Stop, 1));
    }
    let Some(kind) = kind_of_code(bytes[0]) else {
        return Err(fault_at(0, Reason::BadKind));
    };
    if bytes.len() < 3 {
        return Err(cut(bytes));
    }
    let id = i16::from_be_bytes([bytes[1], bytes[2]]);
    Ok((Event::Field(id, kind), 3))
}

/// A value inside so many levels.
#[inline(always)]
#[tactic(auto, unfolding(crate::specs::Scan::value_in))]
fn value_in(depth: usize, kind: Kind, bytes: &[u8]) -> Result<(Event<'_>, usize), Fault>
    ensures within { IsWithin (length bytes.now) result }
    ensures exact { seen scan_of result ≡ value_in depth kind bytes.now }
{
    if nests(kind) && depth >= DEPTH {
        return Err(fault_at(0, Reason::TooDeep));
    }
    value_at(kind, bytes)
}

/// Whether a value of this kind is one level more.
#[inline(always)]
fn nests(kind: Kind) -> bool
    ensures { result ≡ nests kind }
{
    matches!(kind, Kind::Struct | Kind::Map | Kind::Set | Kind::List)
}

/// A value, or the beginning of one that has parts.
#[inline(always)]
#[tactic(auto, unfolding(crate::specs::Scan::value_at))]
fn value_at(kind: Kind, bytes: &[u8]) -> Result<(Event<'_>, usize), Fault>
    ensures within { IsWithin (length bytes.now) result }
    ensures exact { seen scan_of result ≡ value_at kind bytes.now }
{
    match kind {
        Kind::Bool => bool_at(bytes),
        Kind::I8 => i8_at(bytes),
        Kind::I16 => i16_at(bytes),
        Kind::I32 => i32_at(bytes),
        Kind::I64 => i64_at(bytes),
        Kind::Double => double_at(bytes),
        Kind::Str => text_at(bytes),
        Kind::Struct => Ok((Event::StructBegin, 0)),
        Kind::Map => map_at(bytes),
        Kind::Set => set_at(bytes),
        Kind::List => list_at(bytes),
        Kind::Uuid => uuid_at(bytes),
    }
}

#[inline(always)]
#[tactic(auto, unfolding(crate::specs::Scan::bool_at))]
fn bool_at(bytes: &[u8]) -> Result<(Event<'_>, usize), Fault>
    ensures within { IsWithin (length bytes.now) result }
    ensures exact { seen scan_of result ≡ bool_at bytes.now }
{
    if bytes.is_empty() {
        return Err(cut(bytes));
    }
    match bytes[0] {
        0 => Ok((Event::Bool(false), 1)),
        1 => Ok((Event::Bool(true), 1)),
        _ => Err(fault_at(0, Reason::BadBool)),
    }
}

#[inline(always)]
#[tactic(auto, unfolding(crate::specs::Scan::i8_at))]
fn i8_at(bytes: &[u8]) -> Result<(Event<'_>, usize), Fault>
    ensures within { IsWithin (length bytes.now) result }
    ensures exact { seen scan_of result ≡ i8_at bytes.now }
{
    if bytes.is_empty() {
        return Err(cut(bytes));
    }
    Ok((Event::I8(i8::from_be_bytes([bytes[0]])), 1))
}

#[inline(always)]
#[tactic(auto, unfolding(crate::specs::Scan::i16_at))]
fn i16_at(bytes: &[u8]) -> Result<(Event<'_>, usize), Fault>
    ensures within { IsWithin (length bytes.now) result }
    ensures exact { seen scan_of result ≡ i16_at bytes.now }
{
    if bytes.len() < 2 {
        return Err(cut(bytes));
    }
    let value = i16::from_be_bytes([bytes[0], bytes[1]]);
    Ok((Event::I16(value), 2))
}

#[inline(always)]
#[tactic(auto, unfolding(crate::specs::Scan::i32_at))]
fn i32_at(bytes: &[u8]) -> Result<(Event<'_>, usize), Fault>
    ensures within { IsWithin (length bytes.now) result }
    ensures exact { seen scan_of result ≡ i32_at bytes.now }
{
    if bytes.len() < 4 {
        return Err(cut(bytes));
    }
    let value = i32::from_be_bytes([bytes[0], bytes[1], bytes[2], bytes[3]]);
    Ok((Event::I32(value), 4))
}

#[inline(always)]
#[tactic(auto, unfolding(crate::specs::Scan::i64_at))]
fn i64_at(bytes: &[u8]) -> Result<(Event<'_>, usize), Fault>
    ensures within { IsWithin (length bytes.now) result }
    ensures exact { seen scan_of result ≡ i64_at bytes.now }
{
    if bytes.len() < 8 {
        return Err(cut(bytes));
    }
    let value = i64::from_be_bytes([
        bytes[0], bytes[1], bytes[2], bytes[3], bytes[4], bytes[5], bytes[6], bytes[7],
    ]);
    Ok((Event::I64(value), 8))
}

#[inline(always)]
#[tactic(auto, unfolding(crate::specs::Scan::double_at))]
fn double_at(bytes: &[u8]) -> Result<(Event<'_>, usize), Fault>
    ensures within { IsWithin (length bytes.now) result }
    ensures exact { seen scan_of result ≡ double_at bytes.now }
{
    match bytes.split_first_chunk::<8>() {
        Some((eight, _)) => Ok((Event::Double(*eight), 8)),
        None => Err(cut(bytes)),
    }
}

#[inline(always)]
#[tactic(auto, unfolding(crate::specs::Scan::uuid_at))]
fn uuid_at(bytes: &[u8]) -> Result<(Event<'_>, usize), Fault>
    ensures within { IsWithin (length bytes.now) result }
    ensures exact { seen scan_of result ≡ uuid_at bytes.now }
{
    match bytes.split_first_chunk::<16>() {
        Some((sixteen, _)) => Ok((Event::Uuid(*sixteen), 16)),
        None => Err(cut(bytes)),
    }
}

/// A size or length.
#[inline(always)]
#[tactic(auto, unfolding(crate::specs::Scan::size_at))]
fn size_at(bytes: &[u8]) -> Result<(u32, usize), Fault>
    ensures within { IsWithin (length bytes.now) result }
    ensures exact { result ≡ size_at bytes.now }
{
    if bytes.len() < 4 {
        return Err(size_begun(bytes));
    }
    let size = u32::from_be_bytes([bytes[0], bytes[1], bytes[2], bytes[3]]);
    if size >= 0x8000_0000 {
        return Err(fault_at(0, Reason::BadSize));
    }
    Ok((size, 4))
}

/// What is wrong with a size of fewer than four bytes: the first of them tells its sign.
fn size_begun(bytes: &[u8]) -> Fault
    requires { length bytes.now < 4 }
    ensures { Err result ≡ size_begun bytes.now }
{
    if !bytes.is_empty() && bytes[0] >= 0x80 {
        return fault_at(0, Reason::BadSize);
    }
    cut(bytes)
}

/// A size that has to be 0.
#[tactic(auto, unfolding(crate::specs::Scan::zero_at))]
fn zero_at(bytes: &[u8]) -> Result<(u32, usize), Fault>
    ensures within { IsWithin (length bytes.now) result }
    ensures exact { result ≡ zero_at bytes.now }
{
    let front = is_zero_at(bytes, 0) & is_zero_at(bytes, 1);
    let back = is_zero_at(bytes, 2) & is_zero_at(bytes, 3);
    if !(front & back) {
        return Err(fault_at(0, Reason::BadSize));
    }
    if bytes.len() < 4 {
        return Err(cut(bytes));
    }
    Ok((0, 4))
}

/// Whether this byte is 0 or doesn't stand there.
#[inline(always)]
fn is_zero_at(bytes: &[u8], at: usize) -> bool
    ensures { result ≡ is_zero_at bytes.now at }
{
    bytes.len() <= at || bytes[at] == 0
}

/// A length and so many bytes.
#[inline(always)]
#[tactic(auto, unfolding(crate::specs::Scan::string_at))]
pub fn string_at(bytes: &[u8]) -> Result<(&[u8], usize), Fault>
    ensures within { IsWithin (length bytes.now) result }
    ensures exact { seen string_scan result ≡ string_at bytes.now }
{
    let (size, _) = size_at(bytes)?;
    let end = size as usize + 4;
    if bytes.len() < end {
        return Err(cut(bytes));
    }
    Ok((&bytes[4..end], end))
}

#[inline(always)]
#[tactic(auto, unfolding(crate::specs::Scan::text_at))]
fn text_at(bytes: &[u8]) -> Result<(Event<'_>, usize), Fault>
    ensures within { IsWithin (length bytes.now) result }
    ensures exact { seen scan_of result ≡ text_at bytes.now }
{
    let (text, taken) = string_at(bytes)?;
    Ok((Event::Str(text), taken))
}

#[inline(always)]
#[tactic(auto, unfolding(crate::specs::Scan::set_at))]
fn set_at(bytes: &[u8]) -> Result<(Event<'_>, usize), Fault>
    ensures within { IsWithin (length bytes.now) result }
    ensures exact { seen scan_of result ≡ set_at bytes.now }
{
    let ((kind, size), taken) = elements_at(bytes)?;
    Ok((Event::SetBegin(kind, size), taken))
}

#[inline(always)]
#[tactic(auto, unfolding(crate::specs::Scan::list_at))]
fn list_at(bytes: &[u8]) -> Result<(Event<'_>, usize), Fault>
    ensures within { IsWithin (length bytes.now) result }
    ensures exact { seen scan_of result ≡ list_at bytes.now }
{
    let ((kind, size), taken) = elements_at(bytes)?;
    Ok((Event::ListBegin(kind, size), taken))
}

/// The kind of a list's or set's elements, and their number.
#[inline(always)]
#[tactic(auto, unfolding(crate::specs::Scan::elements_at))]
fn elements_at(bytes: &[u8]) -> Result<((Kind, u32), usize), Fault>
    ensures within { IsWithin (length bytes.now) result }
    ensures exact { result ≡ elements_at bytes.now }
{
    if bytes.is_empty() {
        return Err(cut(bytes));
    }
    let Some(kind) = kind_of_code(bytes[0]) else {
        return Err(fault_at(0, Reason::BadKind));
    };
    match size_at(&bytes[1..]) {
        Ok((size, taken)) => Ok(((kind, size), 1 + taken)),
        Err(f) => Err(fault_at(1 + f.place, f.reason)),
    }
}

/// A map's kinds and the number of its pairs. The empty map's kinds say nothing.
#[inline(always)]
#[tactic(auto, unfolding(crate::specs::Scan::map_at))]
fn map_at(bytes: &[u8]) -> Result<(Event<'_>, usize), Fault>
    ensures within { IsWithin (length bytes.now) result }
    ensures exact { seen scan_of result ≡ map_at bytes.now }
{
    if bytes.is_empty() {
        return Err(cut(bytes));
    }
    if is_bad_kind(bytes[0]) {
        return Err(fault_at(0, Reason::BadKind));
    }
    if bytes.len() < 2 {
        return Err(cut(bytes));
    }
    if is_bad_kind(bytes[1]) {
        return Err(fault_at(1, Reason::BadKind));
    }
    match map_of(kind_of_code(bytes[0]), kind_of_code(bytes[1]), &bytes[2..]) {
        Ok((event, taken)) => Ok((event, 2 + taken)),
        Err(f) => Err(fault_at(2 + f.place, f.reason)),
    }
}

/// Whether a map's kind byte is neither 0 nor a kind's.
#[inline(always)]
fn is_bad_kind(code: u8) -> bool
    ensures { result ≡ is_bad_kind code }
{
    kind_of_code(code).is_none() && code != 0
}

/// What stands behind a map's kind bytes: pairs need both kinds.
#[inline(always)]
fn map_of(key: Option<Kind>, value: Option<Kind>, bytes: &[u8]) -> Result<(Event<'_>, usize), Fault>
    ensures within { IsWithin (length bytes.now) result }
    ensures exact { seen scan_of result ≡ map_of key value bytes.now }
{
    match (key, value) {
        (Some(key), Some(value)) => {
            let (size, taken) = size_at(bytes)?;
            Ok((map_item(key, value, size), taken))
        }
        _ => {
            let (_, taken) = zero_at(bytes)?;
            Ok((Event::EmptyMap, taken))
        }
    }
}

#[inline(always)]
fn map_item<'a>(key: Kind, value: Kind, size: u32) -> Event<'a>
    ensures { item_of result ≡ map_item key value size }
{
    if size == 0 {
        return Event::EmptyMap;
    }
    Event::MapBegin(key, value, size)
}
