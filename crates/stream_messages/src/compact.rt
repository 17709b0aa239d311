//! One byte of a message in the Compact protocol.
ghost use Rattle.std.specs.Prelude.{◌≡◌, ◌<◌, ◌^◌};
ghost use Rattle.varint_zigzag.specs.Zigzag.{unfolded};
ghost use Rattle.stream_messages.specs.Compact.{step_of, begin, version, is_wide, passed, passed_end, number_of, numbered, size_read, id_read, kinds_of, field_of, field_behind, value_of, wide, set_of, list_of};

use crate::codes::{compact_kind, message_type};
use crate::levels::{open, pop, put, spend};
use crate::parts::{CompactPart, CompactPassed, CompactSized, Next, Part, any_or_end};
use protocol_traits::{Nest, Slot};
use thrift_value::Kind;

/// The protocol's byte.
const PROTOCOL: u8 = 0x82;

/// A byte so great isn't the last of its varint. The low seven bits of each count, the next byte's so much more often.
const MORE: u8 = 0x80;

/// The fourth byte of a varint counts so often, and a fifth one is the last of a number that is needed.
const FOURTH: u32 = 1 << 21;

/// A size or length is less.
const SIZES: u32 = 1 << 31;

/// A byte of what has begun.
#[tactic(auto, unfolding(crate::specs::Compact::step_of))]
pub fn step(part: CompactPart, nest: &mut Nest, byte: u8) -> Next
    ensures { (result, nest.new) ≡ step_of part byte nest.old }
{
    match part {
        CompactPart::Start => begin(byte),
        CompactPart::Version => version(byte),
        CompactPart::Passed(of, most, width) => passed(of, most, width, nest, byte),
        CompactPart::Number(of, width, unit, sum) => number(of, width, unit, sum, nest, byte),
        CompactPart::Kinds(pairs) => kinds(pairs, nest, byte),
    }
}

/// The protocol's byte.
fn begin(byte: u8) -> Next
    ensures { result ≡ begin byte }
{
    if byte == PROTOCOL {
        return Next::Part(Part::Compact(CompactPart::Version));
    }
    Next::Bad
}

/// The version 1 in the low five bits, and the message type in the high three.
fn version(byte: u8) -> Next
    ensures { result ≡ version byte }
{
    if byte % 32 != 1 {
        return Next::Bad;
    }
    match message_type(byte / 32) {
        Some(_) => Next::Part(Part::Compact(CompactPart::Passed(CompactPassed::Sequence, 5, 32))),
        None => Next::Bad,
    }
}

/// Whether the low seven bits of a byte are more than so many bits hold.
#[inline(always)]
fn is_wide(byte: u8, width: u8) -> bool
    ensures { result ≡ is_wide byte width }
{
    byte % MORE >= 1 << width.min(7)
}

/// A byte of a varint whose number isn't needed.
#[tactic(auto, unfolding(crate::specs::Compact::passed))]
fn passed(of: CompactPassed, most: u8, width: u8, nest: &mut Nest, byte: u8) -> Next
    ensures { (result, nest.new) ≡ passed of most width byte nest.old }
{
    if is_wide(byte, width) {
        return Next::Bad;
    }
    if byte < MORE {
        return passed_end(of, nest);
    }
    if most <= 1 {
        return Next::Bad;
    }
    let behind = CompactPart::Passed(of, most - 1, width.saturating_sub(7));
    Next::Part(Part::Compact(behind))
}

/// Behind the sequence number comes the name's length.
fn passed_end(of: CompactPassed, nest: &mut Nest) -> Next
    ensures { (result, nest.new) ≡ passed_end of nest.old }
{
    match of {
        CompactPassed::Sequence => {
            Next::Part(Part::Compact(CompactPart::Number(CompactSized::Name, 32, 1, 0)))
        }
        CompactPassed::Value => {
            spend(nest);
            Next::Ended
        }
    }
}

/// A byte of a varint: it counts so often, and is added to what the bytes before make.
#[tactic(auto, unfolding(crate::specs::Compact::number_of))]
fn number(of: CompactSized, width: u8, unit: u32, sum: u32, nest: &mut Nest, byte: u8) -> Next
    ensures { (result, nest.new) ≡ number_of of width unit sum byte nest.old }
{
    if is_wide(byte, width) {
        return Next::Bad;
    }
    let sum = u64::from(sum) + u64::from(unit) * u64::from(byte % MORE);
    let Ok(sum) = u32::try_from(sum) else {
        return Next::Bad;
    };
    if byte < MORE {
        return numbered(of, sum, nest);
    }
    if unit > FOURTH {
        return Next::Bad;
    }
    let behind = CompactPart::Number(of, width.saturating_sub(7), unit * 128, sum);
    Next::Part(Part::Compact(behind))
}

/// A number has been read.
#[tactic(auto, unfolding(crate::specs::Compact::numbered))]
fn numbered(of: CompactSized, number: u32, nest: &mut Nest) -> Next
    ensures { (result, nest.new) ≡ numbered of number nest.old }
{
    if let CompactSized::Id(kind) = of {
        return id_read(kind, number, nest);
    }
    if number >= SIZES {
        return Next::Bad;
    }
    size_read(of, number, nest)
}

/// A field's id has been read, folded: its value is called for.
#[tactic(auto, unfolding(crate::specs::Compact::id_read))]
fn id_read(kind: Kind, number: u32, nest: &mut Nest) -> Next
    ensures { (result, nest.new) ≡ id_read kind number nest.old }
{
    let Ok(number) = u16::try_from(number) else {
        return Next::Bad;
    };
    put(nest, Slot::Value(kind, unfolded(number)));
    Next::Ended
}

/// The signed number that a folded one of 16 bits stands for.
#[inline(always)]
fn unfolded(number: u16) -> i16
    ensures { result ≡ unfolded number }
{
    let half = (number / 2) as i16;
    if number % 2 == 0 { half } else { -half - 1 }
}

/// A size or length has been read.
#[tactic(auto, unfolding(crate::specs::Compact::size_read))]
fn size_read(of: CompactSized, number: u32, nest: &mut Nest) -> Next
    ensures { (result, nest.new) ≡ size_read of number nest.old }
{
    match of {
        CompactSized::Name => any_or_end(number),
        CompactSized::Text => {
            spend(nest);
            any_or_end(number)
        }
        CompactSized::Set(kind) | CompactSized::List(kind) => {
            open(nest, Slot::Elements(kind, number))
        }
        CompactSized::Map if number == 0 => {
            spend(nest);
            Next::Ended
        }
        CompactSized::Map => Next::Part(Part::Compact(CompactPart::Kinds(number))),
        CompactSized::Id(_) => Next::Bad,
    }
}

/// The kinds of a map with so many pairs.
#[tactic(auto, unfolding(crate::specs::Compact::kinds_of))]
fn kinds(pairs: u32, nest: &mut Nest, byte: u8) -> Next
    ensures { (result, nest.new) ≡ kinds_of pairs byte nest.old }
{
    match (compact_kind(byte / 16), compact_kind(byte % 16)) {
        (Some(key), Some(value)) => open(nest, Slot::Keys(key, value, pairs)),
        _ => Next::Bad,
    }
}

/// The first byte of a field behind the one with this id, or the end of the struct.
#[tactic(auto, unfolding(crate::specs::Compact::field_of))]
pub fn field(last: i16, nest: &mut Nest, byte: u8) -> Next
    ensures { (result, nest.new) ≡ field_of last byte nest.old }
{
    if byte == 0 {
        pop(nest);
        return Next::Ended;
    }
    let Some(kind) = compact_kind(byte % 16) else {
        return Next::Bad;
    };
    field_behind(last, kind, byte / 16, nest)
}

/// The id of a field lies so much above the last, or it follows in full.
#[tactic(auto, unfolding(crate::specs::Compact::field_behind))]
fn field_behind(last: i16, kind: Kind, above: u8, nest: &mut Nest) -> Next
    requires { above < 16 }
    ensures { (result, nest.new) ≡ field_behind last kind above nest.old }
{
    if above == 0 {
        let id = CompactPart::Number(CompactSized::Id(kind), 16, 1, 0);
        return Next::Part(Part::Compact(id));
    }
    match last.checked_add(i16::from(above)) {
        Some(id) => {
            put(nest, Slot::Value(kind, id));
            Next::Ended
        }
        None => Next::Bad,
    }
}

/// The first byte of a value of this kind. A struct has none of its own.
#[tactic(auto, unfolding(crate::specs::Compact::value_of))]
pub fn value(kind: Kind, nest: &mut Nest, byte: u8) -> Next
    ensures { (result, nest.new) ≡ value_of kind byte nest.old }
{
    match kind {
        Kind::Bool if byte > 2 => Next::Bad,
        Kind::Bool | Kind::I8 => wide(nest, 1),
        Kind::Double => wide(nest, 8),
        Kind::Uuid => wide(nest, 16),
        Kind::I16 => passed(CompactPassed::Value, 5, 16, nest, byte),
        Kind::I32 => passed(CompactPassed::Value, 5, 32, nest, byte),
        Kind::I64 => passed(CompactPassed::Value, 10, 64, nest, byte),
        Kind::Str => number(CompactSized::Text, 32, 1, 0, nest, byte),
        Kind::Map => number(CompactSized::Map, 32, 1, 0, nest, byte),
        Kind::Struct => Next::Bad,
        Kind::Set => set(nest, byte),
        Kind::List => list(nest, byte),
    }
}

/// A value of so many bytes, whatever they are, has begun.
fn wide(nest: &mut Nest, bytes: u32) -> Next
    requires { 0 < bytes }
    ensures { (result, nest.new) ≡ wide bytes nest.old }
{
    spend(nest);
    any_or_end(bytes - 1)
}

/// The first byte of a set: the kind of its elements, and their number where it is less than 15.
#[tactic(auto, unfolding(crate::specs::Compact::set_of))]
fn set(nest: &mut Nest, byte: u8) -> Next
    ensures { (result, nest.new) ≡ set_of byte nest.old }
{
    match compact_kind(byte % 16) {
        Some(kind) if byte < 0xF0 => open(nest, Slot::Elements(kind, u32::from(byte / 16))),
        Some(kind) => Next::Part(Part::Compact(CompactPart::Number(
            CompactSized::Set(kind),
            32,
            1,
            0,
        ))),
        None => Next::Bad,
    }
}

/// The first byte of a list, which is as a set's.
#[tactic(auto, unfolding(crate::specs::Compact::list_of))]
fn list(nest: &mut Nest, byte: u8) -> Next
    ensures { (result, nest.new) ≡ list_of byte nest.old }
{
    match compact_kind(byte % 16) {
        Some(kind) if byte < 0xF0 => open(nest, Slot::Elements(kind, u32::from(byte / 16))),
        Some(kind) => Next::Part(Part::Compact(CompactPart::Number(
            CompactSized::List(kind),
            32,
            1,
            0,
        ))),
        None => Next::Bad,
    }
}
