//! Fields, values and ends at the front of a slice.
ghost use Rattle.std.specs.Prelude.{◌≡◌, ℕ, ◌+◌, ◌≤◌, ◌<◌, ◌^◌, drop, length, IfOk};
ghost use Rattle.protocol_traits.specs.Steps.{seen};
ghost use Rattle.json_protocol.specs.Scan.{IsWithin, Keeps, scan_of, further};
ghost use Rattle.json_protocol.specs.Words.{string_in};
ghost use Rattle.json_protocol.specs.Values.{field_at, first_at, next_at, bool_at, i8_at, i16_at, i32_at, i64_at, double_at, struct_at, size_in, sequence_at, list_at, set_at, map_head_at, no_pairs_at, map_at, end_at, value_at, opens, value_in};

use crate::room::Room;
use crate::scan::{gap_from, mark_at, mark_from};
use crate::word::{double_in, int_in, kind_from, quoted_int_in, whole_in};
use protocol_traits::{DEPTH, Fault, Hint, Reason, fault_at};
use thrift_value::{Event, Kind};

/// A value of a kind, in quotes where it is a number or bool and a key. A level deeper than `DEPTH` is refused before
/// its first byte is looked at.
#[tactic(auto, unfolding(crate::specs::Values::value_in))]
pub fn value_in<'f>(
    depth: usize,
    key: bool,
    hint: Hint,
    kind: Kind,
    bytes: &'f [u8],
    room: &mut Room<'f>,
) -> Result<(Event<'f>, usize), Fault>
    requires room { length bytes.now ≤ room.old }
    requires size { length bytes.now < 2 ^ 62 }
    ensures within { IsWithin (length bytes.now) result }
    ensures exact { seen scan_of result ≡ value_in depth key hint kind bytes.now }
    ensures room { Keeps (length bytes.now) room.old room.new result }
{
    if opens(kind) && depth >= DEPTH {
        return Err(fault_at(0, Reason::TooDeep));
    }
    value_at(key, hint, kind, bytes, room)
}

fn opens(kind: Kind) -> bool
    ensures { result ≡ opens kind }
{
    matches!(kind, Kind::Struct | Kind::Map | Kind::Set | Kind::List)
}

#[tactic(auto, unfolding(crate::specs::Values::value_at))]
fn value_at<'f>(
    key: bool,
    hint: Hint,
    kind: Kind,
    bytes: &'f [u8],
    room: &mut Room<'f>,
) -> Result<(Event<'f>, usize), Fault>
    requires room { length bytes.now ≤ room.old }
    requires size { length bytes.now < 2 ^ 62 }
    ensures within { IsWithin (length bytes.now) result }
    ensures exact { seen scan_of result ≡ value_at key hint kind bytes.now }
    ensures room { Keeps (length bytes.now) room.old room.new result }
{
    match kind {
        Kind::Bool => bool_at(key, bytes),
        Kind::I8 => i8_at(key, bytes),
        Kind::I16 => i16_at(key, bytes),
        Kind::I32 => i32_at(key, bytes),
        Kind::I64 => i64_at(key, bytes),
        Kind::Double => double_at(key, bytes),
        Kind::Str => string_in(hint, bytes, room),
        Kind::Struct => struct_at(bytes),
        Kind::Map => map_at(bytes),
        Kind::Set => set_at(bytes),
        Kind::List => list_at(bytes),
        Kind::Uuid => Err(fault_at(0, Reason::BadKind)),
    }
}

#[tactic(auto, unfolding(crate::specs::Words::string_in))]
fn string_in<'f>(
    hint: Hint,
    bytes: &'f [u8],
    room: &mut Room<'f>,
) -> Result<(Event<'f>, usize), Fault>
    requires room { length bytes.now ≤ room.old }
    requires size { length bytes.now < 2 ^ 62 }
    ensures within { IsWithin (length bytes.now) result }
    ensures exact { seen scan_of result ≡ string_in hint bytes.now }
    ensures room { Keeps (length bytes.now) room.old room.new result }
{
    match hint {
        Hint::Text => {
            let (text, taken) = room.text(bytes)?;
            Ok((Event::Str(text), taken))
        }
        Hint::Blob => {
            let (blob, taken) = room.blob(bytes)?;
            Ok((Event::Str(blob), taken))
        }
        Hint::Unknown => {
            let (text, taken) = room.text(bytes)?;
            Ok((Event::UnknownText(text), taken))
        }
    }
}

/// What stands behind the brace of a struct: a field or its end.
#[tactic(auto, unfolding(crate::specs::Values::first_at))]
pub fn first_at(bytes: &[u8]) -> Result<(Event<'_>, usize), Fault>
    ensures within { IsWithin (length bytes.now) result }
    ensures exact { seen scan_of result ≡ first_at bytes.now }
{
    if bytes.is_empty() {
        return Err(fault_at(0, Reason::Truncated));
    }
    match bytes[0] {
        b'}' => Ok((Event::Stop, 1)),
        b'"' => field_at(bytes),
        _ => Err(fault_at(0, Reason::BadToken)),
    }
}

/// What stands behind the brace that closes a field's value: a comma and a field, or the end of the struct.
#[tactic(auto, unfolding(crate::specs::Values::next_at))]
pub fn next_at(bytes: &[u8]) -> Result<(Event<'_>, usize), Fault>
    ensures within { IsWithin (length bytes.now) result }
    ensures exact { seen scan_of result ≡ next_at bytes.now }
{
    if bytes.is_empty() {
        return Err(fault_at(0, Reason::Truncated));
    }
    match bytes[0] {
        b'}' => Ok((Event::Stop, 1)),
        b',' => field_from(bytes, 1),
        _ => Err(fault_at(0, Reason::BadToken)),
    }
}

fn field_from(bytes: &[u8], at: usize) -> Result<(Event<'_>, usize), Fault>
    requires { at ≤ length bytes.now }
    ensures within { IsWithin (length bytes.now) result }
    ensures exact { seen scan_of result ≡ further at field_at bytes.now }
{
    let at = gap_from(bytes, at);
    match field_at(&bytes[at..]) {
        Ok((event, taken)) => Ok((event, at + taken)),
        Err(f) => Err(fault_at(at + f.place, f.reason)),
    }
}

/// A field: its id in quotes, and its kind in the brace that holds its value.
#[tactic(auto, unfolding(crate::specs::Values::field_at))]
fn field_at(bytes: &[u8]) -> Result<(Event<'_>, usize), Fault>
    ensures within { IsWithin (length bytes.now) result }
    ensures exact { seen scan_of result ≡ field_at bytes.now }
{
    let (id, taken) = quoted_int_in(Reason::BadId, -32768, 32767, bytes)?;
    let (_, taken) = mark_from(b':', bytes, taken)?;
    let (_, taken) = mark_from(b'{', bytes, taken)?;
    let (kind, taken) = kind_from(bytes, taken)?;
    Ok((Event::Field(id as i16, kind), taken))
}

#[tactic(auto, unfolding(crate::specs::Values::bool_at))]
fn bool_at(key: bool, bytes: &[u8]) -> Result<(Event<'_>, usize), Fault>
    ensures within { IsWithin (length bytes.now) result }
    ensures exact { seen scan_of result ≡ bool_at key bytes.now }
{
    let (flag, taken) = whole_in(key, Reason::BadBool, 0, 1, bytes)?;
    Ok((Event::Bool(flag > 0), taken))
}

#[tactic(auto, unfolding(crate::specs::Values::i8_at))]
fn i8_at(key: bool, bytes: &[u8]) -> Result<(Event<'_>, usize), Fault>
    ensures within { IsWithin (length bytes.now) result }
    ensures exact { seen scan_of result ≡ i8_at key bytes.now }
{
    let (value, taken) = whole_in(key, Reason::BadNumber, -128, 127, bytes)?;
    Ok((Event::I8(value as i8), taken))
}

#[tactic(auto, unfolding(crate::specs::Values::i16_at))]
fn i16_at(key: bool, bytes: &[u8]) -> Result<(Event<'_>, usize), Fault>
    ensures within { IsWithin (length bytes.now) result }
    ensures exact { seen scan_of result ≡ i16_at key bytes.now }
{
    let (value, taken) = whole_in(key, Reason::BadNumber, -32768, 32767, bytes)?;
    Ok((Event::I16(value as i16), taken))
}

#[tactic(auto, unfolding(crate::specs::Values::i32_at))]
fn i32_at(key: bool, bytes: &[u8]) -> Result<(Event<'_>, usize), Fault>
    ensures within { IsWithin (length bytes.now) result }
    ensures exact { seen scan_of result ≡ i32_at key bytes.now }
{
    let (value, taken) = whole_in(key, Reason::BadNumber, -2147483648, 2147483647, bytes)?;
    Ok((Event::I32(value as i32), taken))
}

#[tactic(auto, unfolding(crate::specs::Values::i64_at))]
fn i64_at(key: bool, bytes: &[u8]) -> Result<(Event<'_>, usize), Fault>
    ensures within { IsWithin (length bytes.now) result }
    ensures exact { seen scan_of result ≡ i64_at key bytes.now }
{
    let (value, taken) = whole_in(
        key,
        Reason::BadNumber,
        -9223372036854775808,
        9223372036854775807,
        bytes,
    )?;
    Ok((Event::I64(value), taken))
}

#[tactic(auto, unfolding(crate::specs::Values::double_at))]
fn double_at(key: bool, bytes: &[u8]) -> Result<(Event<'_>, usize), Fault>
    ensures within { IsWithin (length bytes.now) result }
    ensures exact { seen scan_of result ≡ double_at key bytes.now }
{
    let (text, taken) = double_in(key, bytes)?;
    Ok((Event::NumberText(text), taken))
}

#[tactic(auto, unfolding(crate::specs::Values::struct_at))]
fn struct_at(bytes: &[u8]) -> Result<(Event<'_>, usize), Fault>
    ensures within { IsWithin (length bytes.now) result }
    ensures exact { seen scan_of result ≡ struct_at bytes.now }
{
    let (_, taken) = mark_at(b'{', bytes)?;
    Ok((Event::StructBegin, taken))
}

#[tactic(auto, unfolding(crate::specs::Values::list_at))]
fn list_at(bytes: &[u8]) -> Result<(Event<'_>, usize), Fault>
    ensures within { IsWithin (length bytes.now) result }
    ensures exact { seen scan_of result ≡ list_at bytes.now }
{
    let ((kind, size), taken) = sequence_at(bytes)?;
    Ok((Event::ListBegin(kind, size), taken))
}

#[tactic(auto, unfolding(crate::specs::Values::set_at))]
fn set_at(bytes: &[u8]) -> Result<(Event<'_>, usize), Fault>
    ensures within { IsWithin (length bytes.now) result }
    ensures exact { seen scan_of result ≡ set_at bytes.now }
{
    let ((kind, size), taken) = sequence_at(bytes)?;
    Ok((Event::SetBegin(kind, size), taken))
}

/// A map with pairs up to its size, or a map without pairs as a whole.
#[tactic(auto, unfolding(crate::specs::Values::map_at))]
fn map_at(bytes: &[u8]) -> Result<(Event<'_>, usize), Fault>
    ensures within { IsWithin (length bytes.now) result }
    ensures exact { seen scan_of result ≡ map_at bytes.now }
{
    let (((key, value), size), taken) = map_head_at(bytes)?;
    if size == 0 {
        return no_pairs_at(bytes, taken);
    }
    Ok((Event::MapBegin(key, value, size), taken))
}

/// The end of a container.
#[tactic(auto, unfolding(crate::specs::Values::end_at))]
pub fn end_at(bytes: &[u8]) -> Result<(Event<'_>, usize), Fault>
    ensures within { IsWithin (length bytes.now) result }
    ensures exact { seen scan_of result ≡ end_at bytes.now }
{
    let (_, taken) = mark_at(b']', bytes)?;
    Ok((Event::End, taken))
}

/// A bracket, a kind, a comma and a size.
#[tactic(auto, unfolding(crate::specs::Values::sequence_at))]
fn sequence_at(bytes: &[u8]) -> Result<((Kind, u32), usize), Fault>
    ensures within { IsWithin (length bytes.now) result }
    ensures exact { result ≡ sequence_at bytes.now }
{
    let (_, taken) = mark_at(b'[', bytes)?;
    let (kind, taken) = kind_from(bytes, taken)?;
    let (_, taken) = mark_from(b',', bytes, taken)?;
    let (size, taken) = size_from(bytes, taken)?;
    Ok(((kind, size), taken))
}

/// A bracket, two kinds and a size, with commas between them.
#[tactic(auto, unfolding(crate::specs::Values::map_head_at))]
fn map_head_at(bytes: &[u8]) -> Result<(((Kind, Kind), u32), usize), Fault>
    ensures within { IsWithin (length bytes.now) result }
    ensures exact { result ≡ map_head_at bytes.now }
{
    let (_, taken) = mark_at(b'[', bytes)?;
    let (key, taken) = kind_from(bytes, taken)?;
    let (_, taken) = mark_from(b',', bytes, taken)?;
    let (value, taken) = kind_from(bytes, taken)?;
    let (_, taken) = mark_from(b',', bytes, taken)?;
    let (size, taken) = size_from(bytes, taken)?;
    Ok((((key, value), size), taken))
}

/// Behind the size of a map without pairs: a comma, its braces and its bracket.
#[tactic(auto, unfolding(crate::specs::Values::no_pairs_at))]
fn no_pairs_at(bytes: &[u8], at: usize) -> Result<(Event<'_>, usize), Fault>
    requires { at ≤ length bytes.now }
    ensures within { IsWithin (length bytes.now) result }
    ensures exact { seen scan_of result ≡ no_pairs_at at bytes.now }
{
    let (_, taken) = mark_from(b',', bytes, at)?;
    let (_, taken) = mark_from(b'{', bytes, taken)?;
    let (_, taken) = mark_from(b'}', bytes, taken)?;
    let (_, taken) = mark_from(b']', bytes, taken)?;
    Ok((Event::EmptyMap, taken))
}

fn size_from(bytes: &[u8], at: usize) -> Result<(u32, usize), Fault>
    requires { at ≤ length bytes.now }
    ensures within { IsWithin (length bytes.now) result }
    ensures exact { result ≡ further at size_in bytes.now }
{
    let at = gap_from(bytes, at);
    match int_in(Reason::BadSize, 0, 2147483647, &bytes[at..]) {
        Ok((size, taken)) => Ok((size as u32, at + taken)),
        Err(f) => Err(fault_at(at + f.place, f.reason)),
    }
}
