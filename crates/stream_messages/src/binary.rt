//! One byte of a message in the Binary protocol.
ghost use Rattle.std.specs.Prelude.{◌≡◌, ◌<◌, ◌^◌};
ghost use Rattle.stream_messages.specs.Binary.{step_of, begin, on_if, strict_type, old_type, name_behind, size_of, sized, field_of, id_end, value_of, wide, set_of, list_of, key_kind, value_kind, no_pairs};

use crate::codes::{binary_kind, message_type};
use crate::levels::{open, pop, put, spend};
use crate::parts::{BinaryPart, BinarySized, Next, Part, any_or_end};
use protocol_traits::{Nest, Slot};
use thrift_value::Kind;

/// The least byte that begins a negative number, or a version.
const SIGN: u8 = 0x80;

/// The bytes of a size or a length.
const SIZE_BYTES: u8 = 4;

/// So great a number passes 2^31 - 1 with one byte more.
const TOO_GREAT: u32 = 1 << 23;

/// A byte of what has begun.
#[tactic(auto, unfolding(crate::specs::Binary::step_of))]
pub fn step(part: BinaryPart, nest: &mut Nest, byte: u8) -> Next
    ensures { (result, nest.new) ≡ step_of part byte nest.old }
{
    match part {
        BinaryPart::Start => begin(nest, byte),
        BinaryPart::Version => on_if(byte == 1, BinaryPart::Unused),
        BinaryPart::Unused => on_if(true, BinaryPart::StrictType),
        BinaryPart::StrictType => strict_type(byte),
        BinaryPart::OldName(left) => name_behind(left.saturating_sub(1)),
        BinaryPart::OldType => old_type(byte),
        BinaryPart::Size(of, left, number) => size(of, left, number, nest, byte),
        BinaryPart::Id(kind) => on_if(true, BinaryPart::IdEnd(kind, byte)),
        BinaryPart::IdEnd(kind, high) => id_end(kind, high, nest, byte),
        BinaryPart::ValueKind(key) => value_kind(key, byte),
        BinaryPart::NoPairs(left) => no_pairs(left, nest, byte),
    }
}

/// The header's first byte, which tells its form.
#[tactic(auto, unfolding(crate::specs::Binary::begin))]
fn begin(nest: &mut Nest, byte: u8) -> Next
    ensures { (result, nest.new) ≡ begin byte nest.old }
{
    if byte < SIGN {
        return size(BinarySized::OldName, SIZE_BYTES, 0, nest, byte);
    }
    on_if(byte == SIGN, BinaryPart::Version)
}

/// This part follows, if the byte was right.
#[inline(always)]
fn on_if(right: bool, part: BinaryPart) -> Next
    ensures { result ≡ on_if right part }
{
    if right {
        Next::Part(Part::Binary(part))
    } else {
        Next::Bad
    }
}

/// The message type behind a version.
fn strict_type(byte: u8) -> Next
    ensures { result ≡ strict_type byte }
{
    let name = BinaryPart::Size(BinarySized::StrictName, SIZE_BYTES, 0);
    on_if(message_type(byte).is_some(), name)
}

/// The message type behind an old header's name.
fn old_type(byte: u8) -> Next
    ensures { result ≡ old_type byte }
{
    match message_type(byte) {
        Some(_) => any_or_end(4),
        None => Next::Bad,
    }
}

/// Behind so many bytes that are left of an old header's name comes the type.
fn name_behind(left: u32) -> Next
    ensures { result ≡ name_behind left }
{
    if left == 0 {
        return on_if(true, BinaryPart::OldType);
    }
    on_if(true, BinaryPart::OldName(left))
}

/// A byte of a size or length, of which so many bytes are left with it.
#[tactic(auto, unfolding(crate::specs::Binary::size_of))]
fn size(of: BinarySized, left: u8, number: u32, nest: &mut Nest, byte: u8) -> Next
    ensures { (result, nest.new) ≡ size_of of left number byte nest.old }
{
    if left >= SIZE_BYTES && byte >= SIGN {
        return Next::Bad;
    }
    if number >= TOO_GREAT {
        return Next::Bad;
    }
    let number = number * 256 + u32::from(byte);
    if left <= 1 {
        return sized(of, number, nest);
    }
    on_if(true, BinaryPart::Size(of, left - 1, number))
}

/// A size or length has been read.
#[tactic(auto, unfolding(crate::specs::Binary::sized))]
fn sized(of: BinarySized, number: u32, nest: &mut Nest) -> Next
    requires { number < 2 ^ 31 }
    ensures { (result, nest.new) ≡ sized of number nest.old }
{
    match of {
        BinarySized::StrictName => any_or_end(number + 4),
        BinarySized::OldName => name_behind(number),
        BinarySized::Text => {
            spend(nest);
            any_or_end(number)
        }
        BinarySized::Set(kind) | BinarySized::List(kind) => {
            open(nest, Slot::Elements(kind, number))
        }
        BinarySized::Map(_, _) if number == 0 => {
            spend(nest);
            Next::Ended
        }
        BinarySized::Map(key, value) => open(nest, Slot::Keys(key, value, number)),
    }
}

/// The first byte of a field, or the end of the struct.
#[tactic(auto, unfolding(crate::specs::Binary::field_of))]
pub fn field(nest: &mut Nest, byte: u8) -> Next
    ensures { (result, nest.new) ≡ field_of byte nest.old }
{
    if byte == 0 {
        pop(nest);
        return Next::Ended;
    }
    match binary_kind(byte) {
        Some(kind) => on_if(true, BinaryPart::Id(kind)),
        None => Next::Bad,
    }
}

/// The second byte of a field's id: its value is called for.
#[tactic(auto, unfolding(crate::specs::Binary::id_end))]
fn id_end(kind: Kind, high: u8, nest: &mut Nest, low: u8) -> Next
    ensures { (result, nest.new) ≡ id_end kind high low nest.old }
{
    put(nest, Slot::Value(kind, i16::from_be_bytes([high, low])));
    Next::Ended
}

/// The first byte of a value of this kind. A struct has none of its own.
#[tactic(auto, unfolding(crate::specs::Binary::value_of))]
pub fn value(kind: Kind, nest: &mut Nest, byte: u8) -> Next
    ensures { (result, nest.new) ≡ value_of kind byte nest.old }
{
    match kind {
        Kind::Bool if byte > 1 => Next::Bad,
        Kind::Bool | Kind::I8 => wide(nest, 1),
        Kind::I16 => wide(nest, 2),
        Kind::I32 => wide(nest, 4),
        Kind::I64 | Kind::Double => wide(nest, 8),
        Kind::Uuid => wide(nest, 16),
        Kind::Str => size(BinarySized::Text, SIZE_BYTES, 0, nest, byte),
        Kind::Struct => Next::Bad,
        Kind::Set => set_of(byte),
        Kind::List => list_of(byte),
        Kind::Map => key_kind(byte),
    }
}

/// A value of so many bytes, whatever they are, has begun.
fn wide(nest: &mut Nest, bytes: u32) -> Next
    requires { 0 < bytes }
    ensures { (result, nest.new) ≡ wide bytes nest.old }
{
    spend(nest);
    any_or_end(bytes - 1)
}

/// The kind of a set's elements.
fn set_of(byte: u8) -> Next
    ensures { result ≡ set_of byte }
{
    match binary_kind(byte) {
        Some(kind) => on_if(
            true,
            BinaryPart::Size(BinarySized::Set(kind), SIZE_BYTES, 0),
        ),
        None => Next::Bad,
    }
}

/// The kind of a list's elements.
fn list_of(byte: u8) -> Next
    ensures { result ≡ list_of byte }
{
    match binary_kind(byte) {
        Some(kind) => on_if(
            true,
            BinaryPart::Size(BinarySized::List(kind), SIZE_BYTES, 0),
        ),
        None => Next::Bad,
    }
}

/// The kind of a map's keys, or 0.
fn key_kind(byte: u8) -> Next
    ensures { result ≡ key_kind byte }
{
    match binary_kind(byte) {
        Some(kind) => on_if(true, BinaryPart::ValueKind(Some(kind))),
        None => on_if(byte == 0, BinaryPart::ValueKind(None)),
    }
}

/// The kind of a map's values, or 0. Where a kind is missing, the size has to be 0.
fn value_kind(key: Option<Kind>, byte: u8) -> Next
    ensures { result ≡ value_kind key byte }
{
    match (key, binary_kind(byte)) {
        (Some(key), Some(value)) => {
            let pairs = BinarySized::Map(key, value);
            on_if(true, BinaryPart::Size(pairs, SIZE_BYTES, 0))
        }
        (_, Some(_)) => on_if(true, BinaryPart::NoPairs(SIZE_BYTES)),
        (_, None) => on_if(byte == 0, BinaryPart::NoPairs(SIZE_BYTES)),
    }
}

/// A byte of the size of a map without pairs.
#[tactic(auto, unfolding(crate::specs::Binary::no_pairs))]
fn no_pairs(left: u8, nest: &mut Nest, byte: u8) -> Next
    ensures { (result, nest.new) ≡ no_pairs left byte nest.old }
{
    if byte != 0 {
        return Next::Bad;
    }
    if left > 1 {
        return on_if(true, BinaryPart::NoPairs(left - 1));
    }
    spend(nest);
    Next::Ended
}
