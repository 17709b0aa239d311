//! The words of a line, and its digits.
ghost use Rattle.std.specs.Prelude.{◌≡◌, ◌+◌, ◌*◌, ◌≤◌, ◌<◌, ◌++◌, ◌∷◌, [], length, flat_map, codes};
ghost use Rattle.message_show.specs.Texts.{is_plain, kind_word, type_word, bool_word, upper_digit, lower_digit, upper_byte, lower_byte, double_text, dashed, uuid_text};

use crate::line::{Line, NUMBER_ROOM, ROOM};
use itoa::{Buffer, Integer};
use thrift_value::{Kind, MessageType};

/// The word of a kind.
#[tactic(auto, unfolding(crate::specs::Texts::kind_word))]
pub fn kind_word(kind: Kind) -> &'static [u8]
    ensures text { result.now ≡ kind_word kind }
    ensures short { length result.now ≤ 6 }
{
    match kind {
        Kind::Bool => b"bool",
        Kind::I8 => b"i8",
        Kind::I16 => b"i16",
        Kind::I32 => b"i32",
        Kind::I64 => b"i64",
        Kind::Double => b"double",
        Kind::Str => b"string",
        Kind::Struct => b"struct",
        Kind::Map => b"map",
        Kind::Set => b"set",
        Kind::List => b"list",
        Kind::Uuid => b"uuid",
    }
}

/// The word of a message's type.
#[tactic(auto, unfolding(crate::specs::Texts::type_word))]
pub fn type_word(mtype: MessageType) -> &'static [u8]
    ensures text { result.now ≡ type_word mtype }
    ensures short { length result.now ≤ 9 }
{
    match mtype {
        MessageType::Call => b"call",
        MessageType::Reply => b"reply",
        MessageType::Exception => b"exception",
        MessageType::Oneway => b"oneway",
    }
}

/// The word of a bool.
#[tactic(auto, unfolding(crate::specs::Texts::bool_word))]
pub fn bool_word(value: bool) -> &'static [u8]
    ensures text { result.now ≡ bool_word value }
    ensures short { length result.now ≤ 5 }
{
    if value { b"true" } else { b"false" }
}

/// Appends a number in digits.
#[inline(always)]
pub fn push_number<'c, I: Integer>(line: Line<'c>, number: I) -> Line<'c>
    requires { length line.bytes + NUMBER_ROOM ≤ ROOM }
    ensures text { result ≡ record line.entry { bytes = line.entry.bytes ++ I.text number } }
    ensures short { length result.bytes ≤ length line.entry.bytes + NUMBER_ROOM }
{
    let mut digits = Buffer::new();
    line.push(digits.format(number).as_bytes())
}

/// Two digits of a byte, A to F for 10 to 15.
#[inline(always)]
#[tactic(auto, unfolding(crate::specs::Texts::upper_byte, crate::specs::Texts::upper_digit))]
pub fn upper_byte(byte: u8) -> [u8; 2]
    ensures { result ≡ upper_byte byte }
{
    [upper_digit(byte / 16), upper_digit(byte % 16)]
}

#[inline(always)]
#[tactic(auto, unfolding(crate::specs::Texts::upper_digit))]
fn upper_digit(n: u8) -> u8
    requires { n < 16 }
    ensures { result ≡ upper_digit n }
{
    if n < 10 { n + b'0' } else { n + 55 }
}

/// Two digits of a byte, a to f for 10 to 15.
#[inline(always)]
#[tactic(auto, unfolding(crate::specs::Texts::lower_byte, crate::specs::Texts::lower_digit))]
fn lower_byte(byte: u8) -> [u8; 2]
    ensures { result ≡ lower_byte byte }
{
    [lower_digit(byte / 16), lower_digit(byte % 16)]
}

#[inline(always)]
#[tactic(auto, unfolding(crate::specs::Texts::lower_digit))]
fn lower_digit(n: u8) -> u8
    requires { n < 16 }
    ensures { result ≡ lower_digit n }
{
    if n < 10 { n + b'0' } else { n + 87 }
}

/// Appends a double.
#[tactic(auto, unfolding(crate::specs::Texts::double_text))]
pub fn push_double<'c>(line: Line<'c>, bytes: &[u8; 8]) -> Line<'c>
    requires { length line.bytes + 18 ≤ ROOM }
    ensures { result ≡ record line.entry { bytes = line.entry.bytes ++ double_text bytes.now } }
{
    push_upper(line.push(b"0x"), bytes)
}

fn push_upper<'c>(line: Line<'c>, bytes: &[u8]) -> Line<'c>
    requires { length line.bytes + 2 * length bytes.now ≤ ROOM }
    ensures { result ≡ record line.entry { bytes = line.entry.bytes ++ flat_map upper_byte bytes.now } }
{
    let mut line = line;
    for byte in bytes {
        line = line.push(&upper_byte(*byte));
    }
    line
}

/// Appends a uuid.
#[tactic(auto, unfolding(crate::specs::Texts::uuid_text))]
pub fn push_uuid<'c>(line: Line<'c>, bytes: [u8; 16]) -> Line<'c>
    requires { length line.bytes + 36 ≤ ROOM }
    ensures { result ≡ record line.entry { bytes = line.entry.bytes ++ uuid_text bytes } }
{
    let line = push_dashed(line, &bytes[..4]);
    let line = push_dashed(line, &bytes[4..6]);
    let line = push_dashed(line, &bytes[6..8]);
    let line = push_dashed(line, &bytes[8..10]);
    push_lower(line, &bytes[10..])
}

#[tactic(auto, unfolding(crate::specs::Texts::dashed))]
fn push_dashed<'c>(line: Line<'c>, bytes: &[u8]) -> Line<'c>
    requires { length line.bytes + 2 * length bytes.now + 1 ≤ ROOM }
    ensures text { result ≡ record line.entry { bytes = line.entry.bytes ++ dashed bytes.now } }
    ensures short { length result.bytes ≡ length line.entry.bytes + 2 * length bytes.now + 1 }
{
    push_lower(line, bytes).push(b"-")
}

fn push_lower<'c>(line: Line<'c>, bytes: &[u8]) -> Line<'c>
    requires { length line.bytes + 2 * length bytes.now ≤ ROOM }
    ensures text { result ≡ record line.entry { bytes = line.entry.bytes ++ flat_map lower_byte bytes.now } }
    ensures short { length result.bytes ≡ length line.entry.bytes + 2 * length bytes.now }
{
    let mut line = line;
    for byte in bytes {
        line = line.push(&lower_byte(*byte));
    }
    line
}
