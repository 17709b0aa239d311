//! A value at the front of a slice, with the number of bytes that it takes.
ghost use Rattle.std.specs.Prelude.{◌≡◌, ◌+◌, ◌≤◌, ◌<◌, drop, length};
ghost use Rattle.protocol_traits.specs.Steps.{seen};
ghost use Rattle.compact_protocol.specs.Codes.{kind_of};
ghost use Rattle.compact_protocol.specs.Scan.{scan_of, IsWithin, shifted, bool_at, i8_at, i16_at, i32_at, i64_at, double_at, text_at, uuid_at, elements_at, set_at, list_at, kinds_at, map_at, value_at, value_in, opens};

use crate::numbers::{id_at, size_at, size_behind, string_at, varint32_at, varint64_at};
use protocol_traits::{DEPTH, Fault, Reason, fault_at};
use thrift_value::{Event, Kind};
use varint_zigzag::{unzigzag32, unzigzag64};

/// The kind that a number stands for. Both 1 and 2 mean bool.
#[inline(always)]
pub fn kind_of(code: u8) -> Option<Kind>
    ensures { result ≡ kind_of code }
{
    match code {
        1 | 2 => Some(Kind::Bool),
        3 => Some(Kind::I8),
        4 => Some(Kind::I16),
        5 => Some(Kind::I32),
        6 => Some(Kind::I64),
        7 => Some(Kind::Double),
        8 => Some(Kind::Str),
        9 => Some(Kind::List),
        10 => Some(Kind::Set),
        11 => Some(Kind::Map),
        12 => Some(Kind::Struct),
        13 => Some(Kind::Uuid),
        _ => None,
    }
}

/// A value inside so many levels, or `TooDeep` before every other fault.
#[tactic(auto, unfolding(crate::specs::Scan::value_in))]
#[inline(always)]
pub fn value_in(depth: usize, kind: Kind, bytes: &[u8]) -> Result<(Event<'_>, usize), Fault>
    ensures within { IsWithin (length bytes.now) result }
    ensures exact { seen scan_of result ≡ value_in depth kind bytes.now }
{
    if opens(kind) && depth >= DEPTH {
        return Err(fault_at(0, Reason::TooDeep));
    }
    value_at(kind, bytes)
}

/// Does a value of this kind open a level?
#[inline(always)]
fn opens(kind: Kind) -> bool
    ensures { result ≡ opens kind }
{
    matches!(kind, Kind::Struct | Kind::Map | Kind::Set | Kind::List)
}

/// A value of this kind, whatever it lies in.
#[tactic(auto, unfolding(crate::specs::Scan::value_at))]
#[inline(always)]
fn value_at(kind: Kind, bytes: &[u8]) -> Result<(Event<'_>, usize), Fault>
    ensures within { IsWithin (length bytes.now) result }
    ensures exact { seen scan_of result ≡ value_at kind bytes.now }
{
    match kind {
        Kind::Bool => bool_at(bytes),
        Kind::I8 => i8_at(bytes),
        Kind::I16 => i16_at(bytes),
        Kind::I32 => i32_at(bytes),
        Kind::I64 => i64_at(bytes),
        Kind::Double => double_at(bytes),
        Kind::Str => text_at(bytes),
        Kind::Struct => Ok((Event::StructBegin, 0)),
        Kind::Map => map_at(bytes),
        Kind::Set => set_at(bytes),
        Kind::List => list_at(bytes),
        Kind::Uuid => uuid_at(bytes),
    }
}

/// A bool in a container. The number 0 for false is what some writers give.
#[tactic(auto, unfolding(crate::specs::Scan::bool_at))]
#[inline(always)]
fn bool_at(bytes: &[u8]) -> Result<(Event<'_>, usize), Fault>
    ensures within { IsWithin (length bytes.now) result }
    ensures exact { seen scan_of result ≡ bool_at bytes.now }
{
    if bytes.is_empty() {
        return Err(fault_at(0, Reason::Truncated));
    }
    match bytes[0] {
        1 => Ok((Event::Bool(true), 1)),
        2 => Ok((Event::Bool(false), 1)),
        0 => Ok((Event::Bool(false), 1)),
        _ => Err(fault_at(0, Reason::BadBool)),
    }
}

#[tactic(auto, unfolding(crate::specs::Scan::i8_at))]
#[inline(always)]
fn i8_at(bytes: &[u8]) -> Result<(Event<'_>, usize), Fault>
    ensures within { IsWithin (length bytes.now) result }
    ensures exact { seen scan_of result ≡ i8_at bytes.now }
{
    if bytes.is_empty() {
        return Err(fault_at(0, Reason::Truncated));
    }
    Ok((Event::I8(i8::from_be_bytes([bytes[0]])), 1))
}

#[tactic(auto, unfolding(crate::specs::Scan::i16_at))]
#[inline(always)]
fn i16_at(bytes: &[u8]) -> Result<(Event<'_>, usize), Fault>
    ensures within { IsWithin (length bytes.now) result }
    ensures exact { seen scan_of result ≡ i16_at bytes.now }
{
    let (value, taken) = id_at(bytes)?;
    Ok((Event::I16(value), taken))
}

#[tactic(auto, unfolding(crate::specs::Scan::i32_at))]
#[inline(always)]
fn i32_at(bytes: &[u8]) -> Result<(Event<'_>, usize), Fault>
    ensures within { IsWithin (length bytes.now) result }
    ensures exact { seen scan_of result ≡ i32_at bytes.now }
{
    let (number, taken) = varint32_at(bytes)?;
    Ok((Event::I32(unzigzag32(number)), taken))
}

#[tactic(auto, unfolding(crate::specs::Scan::i64_at))]
#[inline(always)]
fn i64_at(bytes: &[u8]) -> Result<(Event<'_>, usize), Fault>
    ensures within { IsWithin (length bytes.now) result }
    ensures exact { seen scan_of result ≡ i64_at bytes.now }
{
    let (number, taken) = varint64_at(bytes)?;
    Ok((Event::I64(unzigzag64(number)), taken))
}

/// Eight bytes, little endian.
#[tactic(auto, unfolding(crate::specs::Scan::double_at))]
#[inline(always)]
fn double_at(bytes: &[u8]) -> Result<(Event<'_>, usize), Fault>
    ensures within { IsWithin (length bytes.now) result }
    ensures exact { seen scan_of result ≡ double_at bytes.now }
{
    let Some((little, _)) = bytes.split_first_chunk::<8>() else {
        return Err(fault_at(bytes.len(), Reason::Truncated));
    };
    let mut big = *little;
    big.reverse();
    Ok((Event::Double(big), 8))
}

#[tactic(auto, unfolding(crate::specs::Scan::text_at))]
#[inline(always)]
fn text_at(bytes: &[u8]) -> Result<(Event<'_>, usize), Fault>
    ensures within { IsWithin (length bytes.now) result }
    ensures exact { seen scan_of result ≡ text_at bytes.now }
{
    let (text, taken) = string_at(bytes)?;
    Ok((Event::Str(text), taken))
}

#[tactic(auto, unfolding(crate::specs::Scan::uuid_at))]
#[inline(always)]
fn uuid_at(bytes: &[u8]) -> Result<(Event<'_>, usize), Fault>
    ensures within { IsWithin (length bytes.now) result }
    ensures exact { seen scan_of result ≡ uuid_at bytes.now }
{
    match bytes.split_first_chunk::<16>() {
        Some((uuid, _)) => Ok((Event::Uuid(*uuid), 16)),
        None => Err(fault_at(bytes.len(), Reason::Truncated)),
    }
}

/// The kind and the number of the elements of a list or a set.
#[tactic(auto, unfolding(crate::specs::Scan::elements_at))]
#[inline(always)]
fn elements_at(bytes: &[u8]) -> Result<((Kind, u32), usize), Fault>
    ensures within { IsWithin (length bytes.now) result }
    ensures exact { result ≡ elements_at bytes.now }
{
    if bytes.is_empty() {
        return Err(fault_at(0, Reason::Truncated));
    }
    let Some(kind) = kind_of(bytes[0] % 16) else {
        return Err(fault_at(0, Reason::BadKind));
    };
    let short = bytes[0] / 16;
    if short < 15 {
        return Ok(((kind, u32::from(short)), 1));
    }
    let (size, taken) = size_behind(bytes, 1)?;
    Ok(((kind, size), taken))
}

#[tactic(auto, unfolding(crate::specs::Scan::set_at))]
#[inline(always)]
fn set_at(bytes: &[u8]) -> Result<(Event<'_>, usize), Fault>
    ensures within { IsWithin (length bytes.now) result }
    ensures exact { seen scan_of result ≡ set_at bytes.now }
{
    let ((kind, size), taken) = elements_at(bytes)?;
    Ok((Event::SetBegin(kind, size), taken))
}

#[tactic(auto, unfolding(crate::specs::Scan::list_at))]
#[inline(always)]
fn list_at(bytes: &[u8]) -> Result<(Event<'_>, usize), Fault>
    ensures within { IsWithin (length bytes.now) result }
    ensures exact { seen scan_of result ≡ list_at bytes.now }
{
    let ((kind, size), taken) = elements_at(bytes)?;
    Ok((Event::ListBegin(kind, size), taken))
}

/// The kinds of the keys and the values of a map with pairs.
#[tactic(auto, unfolding(crate::specs::Scan::kinds_at))]
#[inline(always)]
fn kinds_at(bytes: &[u8]) -> Result<((Kind, Kind), usize), Fault>
    ensures within { IsWithin (length bytes.now) result }
    ensures exact { result ≡ kinds_at bytes.now }
{
    if bytes.is_empty() {
        return Err(fault_at(0, Reason::Truncated));
    }
    let Some(key) = kind_of(bytes[0] / 16) else {
        return Err(fault_at(0, Reason::BadKind));
    };
    let Some(value) = kind_of(bytes[0] % 16) else {
        return Err(fault_at(0, Reason::BadKind));
    };
    Ok(((key, value), 1))
}

#[inline(always)]
fn kinds_behind(bytes: &[u8], at: usize) -> Result<((Kind, Kind), usize), Fault>
    requires { at ≤ length bytes.now }
    ensures within { IsWithin (length bytes.now) result }
    ensures exact { result ≡ shifted at (kinds_at (drop at bytes.now)) }
{
    match kinds_at(&bytes[at..]) {
        Ok((kinds, taken)) => Ok((kinds, at + taken)),
        Err(f) => Err(fault_at(at + f.place, f.reason)),
    }
}

/// The head of a map. An empty one tells no kinds.
#[tactic(auto, unfolding(crate::specs::Scan::map_at))]
#[inline(always)]
fn map_at(bytes: &[u8]) -> Result<(Event<'_>, usize), Fault>
    ensures within { IsWithin (length bytes.now) result }
    ensures exact { seen scan_of result ≡ map_at bytes.now }
{
    let (size, taken) = size_at(bytes)?;
    if size == 0 {
        return Ok((Event::EmptyMap, taken));
    }
    let ((key, value), taken) = kinds_behind(bytes, taken)?;
    Ok((Event::MapBegin(key, value, size), taken))
}
