//! One item at the front of some bytes, by value. None says nothing of the bytes.
ghost use Rattle.std.specs.Prelude.{◌≡◌, ◌≤◌, ◌+◌, ◌-◌, ◌^◌, ◌<◌, drop, take, length, slice_index, Ok, IfSome};
ghost use Rattle.std.specs.Int.{w64, to_be_bytes};
ghost use Rattle.thrift_value.specs.declared.kind.Kind.{Kind};
ghost use Rattle.thrift_value.specs.Items.{bool_value, i8_value, i16_value, i32_value, i64_value, double_value};
ghost use Rattle.protocol_traits.specs.Forms.{lead_item, pairs_item};
ghost use Rattle.binary_protocol.specs.Scan.{field_at, bool_at, i8_at, i16_at, i32_at, i64_at, double_at, size_at, string_at, elements_at, map_at, is_bad_kind};
ghost use Rattle.binary_protocol.specs.Heads.{head_at, header_scan, seq_at, type_at, version_at};
ghost use Rattle.binary_protocol.specs.Forms.{Finds, IsGood, lead_of};

use crate::codes::{code_of_kind, kind_of_code, type_of_code};
use cell_writes::SHORT;
use protocol_traits::{Head, Lead, Pairs};
use thrift_value::{Kind, MessageType};

/// The version that stands in front of the strict form.
const VERSION: u16 = 0x8001;

/// A header of the strict form has so many bytes around its name: the version and the type, the name's length, and the sequence number.
const AROUND_NAME: usize = 12;

/// A field's kind and id or the end of the struct, at a place of a frame, and the place behind it.
#[inline(always)]
pub fn lead_from(frame: &[u8], at: usize) -> Option<(Lead, i16, usize)>
    requires { at ≤ length frame.now }
    ensures within { IfSome result (λ x. (at ≤ x.2) × (x.2 ≤ length frame.now)) }
    ensures found { IfSome result (λ x. IsGood x.0 → Finds (drop at frame.now) (field_at (drop at frame.now)) (lead_item x.0 x.1) (x.2 - at)) }
{
    let behind = at + 3;
    if behind <= frame.len() {
        let bytes = &frame[at..behind];
        let id = i16::from_be_bytes([bytes[1], bytes[2]]);
        let (lead, taken) = lead_of(bytes[0]);
        return Some((lead, id, at + taken));
    }
    if at < frame.len() && frame[at] == 0 {
        return Some((Lead::Stop, 0, at + 1));
    }
    None
}

/// What a field's first byte stands for, and how many bytes it begins.
#[inline(always)]
fn lead_of(code: u8) -> (Lead, usize)
    ensures told { result ≡ lead_of code }
    ensures few { result.1 ≤ 3 }
{
    match code {
        0 => (Lead::Stop, 1),
        2 => (Lead::Bool, 3),
        3 => (Lead::I8, 3),
        4 => (Lead::Double, 3),
        6 => (Lead::I16, 3),
        8 => (Lead::I32, 3),
        10 => (Lead::I64, 3),
        11 => (Lead::Str, 3),
        12 => (Lead::Struct, 3),
        13 => (Lead::Map, 3),
        14 => (Lead::Set, 3),
        15 => (Lead::List, 3),
        16 => (Lead::Uuid, 3),
        _ => (Lead::Bad, 3),
    }
}

/// A header of the strict form, and the number of its bytes.
#[inline(always)]
pub fn head_front(bytes: &[u8]) -> Option<(Head<'_>, usize)>
    ensures { IfSome result (λ x. head_at bytes.now ≡ Ok (header_scan x)) }
{
    let size = name_front(bytes)?;
    let mtype = version_front(bytes)?;
    let behind = 8 + size;
    let seq = seq_front(&bytes[behind..])?;
    let name = &bytes[8..behind];
    Some((Head { name, mtype, seq }, behind + 4))
}

/// The length of a header's name, behind which a sequence number still fits.
#[inline(always)]
fn name_front(bytes: &[u8]) -> Option<usize>
    ensures { IfSome result (λ n. Finds (drop 4 bytes.now) (string_at (drop 4 bytes.now)) (take n (drop 4 (drop 4 bytes.now))) (n + 4)) }
{
    if bytes.len() < AROUND_NAME {
        return None;
    }
    let size = u32::from_be_bytes([bytes[4], bytes[5], bytes[6], bytes[7]]);
    if size >= 0x8000_0000 || size as usize > bytes.len() - AROUND_NAME {
        return None;
    }
    Some(size as usize)
}

/// The version, the unused byte and the type of the strict form, in four bytes.
#[inline(always)]
fn version_front(bytes: &[u8]) -> Option<MessageType>
    ensures found { IfSome result (λ t. version_at bytes.now ≡ Ok (t, 4)) }
    ensures strict { IfSome result (λ t. slice_index bytes.now 0 ≡ 128) }
    ensures long { IfSome result (λ t. 4 ≤ length bytes.now) }
{
    if bytes.len() < 4 || u16::from_be_bytes([bytes[0], bytes[1]]) != VERSION {
        return None;
    }
    let mtype = type_front(&bytes[3..])?;
    Some(mtype)
}

/// A message type, in one byte.
#[inline(always)]
#[tactic(auto, unfolding(crate::specs::Heads::type_at))]
fn type_front(bytes: &[u8]) -> Option<MessageType>
    ensures { IfSome result (λ t. type_at bytes.now ≡ Ok (t, 1)) }
{
    if bytes.is_empty() {
        return None;
    }
    let mtype = type_of_code(bytes[0])?;
    Some(mtype)
}

/// A sequence number, in four bytes.
#[inline(always)]
#[tactic(auto, unfolding(crate::specs::Heads::seq_at))]
fn seq_front(bytes: &[u8]) -> Option<i32>
    ensures { IfSome result (λ n. Finds bytes.now (seq_at bytes.now) n 4) }
{
    if bytes.len() < 4 {
        return None;
    }
    Some(i32::from_be_bytes([bytes[0], bytes[1], bytes[2], bytes[3]]))
}

/// A bool, in one byte.
#[inline(always)]
#[tactic(auto, unfolding(crate::specs::Scan::bool_at))]
pub fn bool_front(bytes: &[u8]) -> Option<bool>
    ensures { IfSome result (λ b. Finds bytes.now (bool_at bytes.now) (bool_value b) 1) }
{
    if bytes.is_empty() {
        return None;
    }
    if bytes[0] > 1 {
        return None;
    }
    Some(bytes[0] == 1)
}

/// An i8, in one byte.
#[inline(always)]
#[tactic(auto, unfolding(crate::specs::Scan::i8_at))]
pub fn i8_front(bytes: &[u8]) -> Option<i8>
    ensures { IfSome result (λ n. Finds bytes.now (i8_at bytes.now) (i8_value n) 1) }
{
    if bytes.is_empty() {
        return None;
    }
    Some(i8::from_be_bytes([bytes[0]]))
}

/// An i16, at a place of a frame, and the place behind it.
#[inline(always)]
#[tactic(auto, unfolding(crate::specs::Scan::i16_at))]
pub fn i16_from(frame: &[u8], at: usize) -> Option<(i16, usize)>
    requires { at ≤ length frame.now }
    ensures place { IfSome result (λ x. x.1 ≡ at + 2) }
    ensures found { IfSome result (λ x. Finds (drop at frame.now) (i16_at (drop at frame.now)) (i16_value x.0) 2) }
{
    let behind = at + 2;
    if behind > frame.len() {
        return None;
    }
    let bytes = &frame[at..behind];
    Some((i16::from_be_bytes([bytes[0], bytes[1]]), behind))
}

/// An i32, likewise.
#[inline(always)]
#[tactic(auto, unfolding(crate::specs::Scan::i32_at))]
pub fn i32_from(frame: &[u8], at: usize) -> Option<(i32, usize)>
    requires { at ≤ length frame.now }
    ensures place { IfSome result (λ x. x.1 ≡ at + 4) }
    ensures found { IfSome result (λ x. Finds (drop at frame.now) (i32_at (drop at frame.now)) (i32_value x.0) 4) }
{
    let behind = at + 4;
    if behind > frame.len() {
        return None;
    }
    let bytes = &frame[at..behind];
    Some((
        i32::from_be_bytes([bytes[0], bytes[1], bytes[2], bytes[3]]),
        behind,
    ))
}

/// An i64, likewise.
#[inline(always)]
#[tactic(auto, unfolding(crate::specs::Scan::i64_at))]
pub fn i64_from(frame: &[u8], at: usize) -> Option<(i64, usize)>
    requires { at ≤ length frame.now }
    ensures place { IfSome result (λ x. x.1 ≡ at + 8) }
    ensures found { IfSome result (λ x. Finds (drop at frame.now) (i64_at (drop at frame.now)) (i64_value x.0) 8) }
{
    let behind = at + 8;
    if behind > frame.len() {
        return None;
    }
    let bytes = &frame[at..behind];
    Some((
        i64::from_be_bytes([
            bytes[0], bytes[1], bytes[2], bytes[3], bytes[4], bytes[5], bytes[6], bytes[7],
        ]),
        behind,
    ))
}

/// A double's eight bytes, as the number that they make big endian.
#[inline(always)]
#[tactic(auto, unfolding(crate::specs::Scan::double_at))]
pub fn double_from(frame: &[u8], at: usize) -> Option<(u64, usize)>
    requires { at ≤ length frame.now }
    ensures place { IfSome result (λ x. x.1 ≡ at + 8) }
    ensures found { IfSome result (λ x. Finds (drop at frame.now) (double_at (drop at frame.now)) (double_value (to_be_bytes w64 x.0)) 8) }
{
    let behind = at + 8;
    if behind > frame.len() {
        return None;
    }
    let bytes = &frame[at..behind];
    Some((
        u64::from_be_bytes([
            bytes[0], bytes[1], bytes[2], bytes[3], bytes[4], bytes[5], bytes[6], bytes[7],
        ]),
        behind,
    ))
}

/// Where a text of a frame begins and ends whose length stands at a place.
#[inline(always)]
#[tactic(auto, unfolding(crate::specs::Scan::string_at, crate::specs::Scan::size_at))]
pub fn text_from(frame: &[u8], at: usize) -> Option<(usize, usize)>
    requires { at ≤ length frame.now }
    ensures place { IfSome result (λ x. (x.0 ≡ at + 4) × (x.0 ≤ x.1)) }
    ensures found { IfSome result (λ x. Finds (drop at frame.now) (string_at (drop at frame.now)) (take (x.1 - x.0) (drop x.0 frame.now)) (x.1 - at)) }
{
    // Not by `size_from`: with one call more in line the compiler would make a call of each struct, list and map that is kept.
    let begin = at + 4;
    if begin > frame.len() {
        return None;
    }
    let bytes = &frame[at..begin];
    let size = u32::from_be_bytes([bytes[0], bytes[1], bytes[2], bytes[3]]);
    if size >= 0x8000_0000 {
        return None;
    }
    let behind = begin + size as usize;
    if behind > frame.len() {
        return None;
    }
    Some((begin, behind))
}

/// The same of a text that has at most `SHORT` bytes and stands no closer to the frame's end: two comparisons, by which it is copied, too.
#[inline(always)]
#[tactic(auto, unfolding(crate::specs::Scan::string_at, crate::specs::Scan::size_at))]
pub fn short_text_from(frame: &[u8], at: usize) -> Option<(usize, usize)>
    requires { at ≤ length frame.now }
    ensures place { IfSome result (λ x. (x.0 ≡ at + 4) × (x.0 ≤ x.1)) }
    ensures found { IfSome result (λ x. Finds (drop at frame.now) (string_at (drop at frame.now)) (take (x.1 - x.0) (drop x.0 frame.now)) (x.1 - at)) }
{
    let begin = at + 4;
    if begin + SHORT > frame.len() {
        return None;
    }
    let bytes = &frame[at..begin];
    let size = u32::from_be_bytes([bytes[0], bytes[1], bytes[2], bytes[3]]) as usize;
    if size > SHORT {
        return None;
    }
    Some((begin, begin + size))
}

/// A size or length at a place of a frame, and the place behind it.
#[inline(always)]
#[tactic(auto, unfolding(crate::specs::Scan::size_at))]
fn size_from(frame: &[u8], at: usize) -> Option<(u32, usize)>
    requires { at ≤ length frame.now + 2 }
    ensures place { IfSome result (λ x. x.1 ≡ at + 4) }
    ensures within { IfSome result (λ x. x.1 ≤ length frame.now) }
    ensures found { IfSome result (λ x. Finds (drop at frame.now) (size_at (drop at frame.now)) x.0 4) }
{
    let behind = at + 4;
    if behind > frame.len() {
        return None;
    }
    let bytes = &frame[at..behind];
    let size = u32::from_be_bytes([bytes[0], bytes[1], bytes[2], bytes[3]]);
    if size >= 0x8000_0000 {
        return None;
    }
    Some((size, behind))
}

/// What stands before the elements of a list or set, in five bytes, and the place behind it.
#[inline(always)]
pub fn elements_from(frame: &[u8], at: usize) -> Option<(Kind, u32, usize)>
    requires { at ≤ length frame.now }
    ensures place { IfSome result (λ x. x.2 ≡ at + 5) }
    ensures found { IfSome result (λ x. Finds (drop at frame.now) (elements_at (drop at frame.now)) (x.0, x.1) 5) }
{
    let (size, behind) = size_from(frame, at + 1)?;
    let kind = kind_of_code(frame[at])?;
    Some((kind, size, behind))
}

/// The kinds and the number of a map's pairs, in six bytes, and the place behind them. An empty map may have the byte 0 in the place of a kind.
#[inline(always)]
pub fn pairs_from(frame: &[u8], at: usize) -> Option<Pairs>
    requires { at ≤ length frame.now }
    ensures place { IfSome result (λ x. x.behind ≡ at + 6) }
    ensures found { IfSome result (λ x. Finds (drop at frame.now) (map_at (drop at frame.now)) (pairs_item x.key x.value x.size) 6) }
{
    let (size, behind) = size_from(frame, at + 2)?;
    if size == 0 {
        return blank_from(frame, at, behind);
    }
    // Most keys are strings: behind this test the machine's code for their values asks for no key.
    if frame[at] == code_of_kind(Kind::Str) {
        let value = kind_of_code(frame[at + 1])?;
        return Some(Pairs {
            key: Kind::Str,
            value,
            size,
            behind,
        });
    }
    let key = kind_of_code(frame[at])?;
    let value = kind_of_code(frame[at + 1])?;
    Some(Pairs {
        key,
        value,
        size,
        behind,
    })
}

/// An empty map. Its kinds mean nothing, but each is 0 or a kind's.
#[inline(always)]
fn blank_from(frame: &[u8], at: usize, behind: usize) -> Option<Pairs>
    requires place { behind ≡ at + 6 }
    requires size { Finds (drop (at + 2) frame.now) (size_at (drop (at + 2) frame.now)) 0 4 }
    ensures place { IfSome result (λ x. x.behind ≡ at + 6) }
    ensures found { IfSome result (λ x. Finds (drop at frame.now) (map_at (drop at frame.now)) (pairs_item x.key x.value x.size) 6) }
{
    if is_bad_kind(frame[at]) || is_bad_kind(frame[at + 1]) {
        return None;
    }
    Some(Pairs {
        key: Kind::Bool,
        value: Kind::Bool,
        size: 0,
        behind,
    })
}

/// A map's kind byte that is neither 0 nor a kind's.
#[inline(always)]
fn is_bad_kind(code: u8) -> bool
    ensures { result ≡ is_bad_kind code }
{
    code != 0 && kind_of_code(code).is_none()
}
