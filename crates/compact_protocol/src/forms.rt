//! One item at a place of a frame, by value, and the place behind it. None says nothing of the frame.
ghost use Rattle.std.specs.Prelude.{◌≡◌, ◌≤◌, ◌<◌, ◌+◌, ◌^◌, drop, length, IfSome};
ghost use Rattle.std.specs.Int.{w64, to_be_bytes};
ghost use Rattle.varint_zigzag.specs.Zigzag.{unfolded};
ghost use Rattle.thrift_value.specs.declared.kind.Kind.{Kind};
ghost use Rattle.thrift_value.specs.Items.{bool_value, i8_value, i16_value, i32_value, i64_value, double_value};
ghost use Rattle.protocol_traits.specs.Forms.{lead_item, pairs_item};
ghost use Rattle.compact_protocol.specs.Codes.{kind_of};
ghost use Rattle.compact_protocol.specs.Scan.{field_at, bool_at, i8_at, id_at, double_at, size_at, string_at, elements_at, value_at, type_at, front_at, shifted};
ghost use Rattle.compact_protocol.specs.Forms.{Finds, IsGood, lead_of_kind};

use crate::scan::{next_id, type_of};
use crate::values::kind_of;
use crate::writer::code_of;
use cell_writes::SHORT;
use protocol_traits::{Lead, Pairs};
use thrift_value::{Kind, MessageType};
use varint_zigzag::{read_size_at, read_u16_at, read_u32_at, read_u64_at, unzigzag32, unzigzag64};

/// A header's type and sequence number, and the place behind them.
#[inline(always)]
pub fn front_from(frame: &[u8]) -> Option<(MessageType, i32, usize)>
    ensures found { IfSome result (λ x. front_at frame.now ≡ Ok ((x.0, x.1), x.2)) }
    ensures within { IfSome result (λ x. x.2 ≤ length frame.now) }
{
    let mtype = type_front(frame)?;
    let (number, behind) = read_u32_at(frame, 2)?;
    Some((mtype, number.cast_signed(), behind))
}

/// The protocol's byte, the version and the type, in two bytes.
#[inline(always)]
#[tactic(auto, unfolding(crate::specs::Scan::type_at))]
fn type_front(frame: &[u8]) -> Option<MessageType>
    ensures found { IfSome result (λ t. type_at frame.now ≡ Ok (t, 2)) }
    ensures long { IfSome result (λ t. 2 ≤ length frame.now) }
{
    if frame.len() < 2 || frame[0] != 0x82 || frame[1] % 32 != 1 {
        return None;
    }
    let mtype = type_of(frame[1] / 32)?;
    Some(mtype)
}

/// A header's name at a place, and the place behind it.
#[inline(always)]
pub fn name_from(frame: &[u8], at: usize) -> Option<(&[u8], usize)>
    requires { at ≤ length frame.now }
    ensures { IfSome result (λ x. shifted at (string_at (drop at frame.now)) ≡ Ok (x.0.now, x.1)) }
{
    let (size, begin) = size_from(frame, at)?;
    if frame.len() - begin < size as usize {
        return None;
    }
    let behind = begin + size as usize;
    Some((&frame[begin..behind], behind))
}

/// A field's kind and id or the end of the struct, behind a field with this id.
#[inline(always)]
pub fn lead_from(frame: &[u8], at: usize, last: i16) -> Option<(Lead, i16, usize)>
    requires { at ≤ length frame.now }
    ensures { IfSome result (λ x. IsGood x.0 → Finds frame.now at (field_at last) (lead_item x.0 x.1) x.2) }
{
    if at >= frame.len() {
        return None;
    }
    let byte = frame[at];
    let step = byte / 16;
    if step > 0 {
        let id = next_id(last, step)?;
        return Some((lead_of(byte % 16), id, at + 1));
    }
    if byte == 0 {
        return Some((Lead::Stop, 0, at + 1));
    }
    let (id, behind) = id_from(frame, at + 1)?;
    Some((lead_of(byte), id, behind))
}

/// What a kind's number stands for in front of a field: `Bad` where it is no kind's.
#[inline(always)]
pub fn lead_of(code: u8) -> Lead
    ensures { result ≡ lead_of_kind (kind_of code) }
{
    match code {
        1 | 2 => Lead::Bool,
        3 => Lead::I8,
        4 => Lead::I16,
        5 => Lead::I32,
        6 => Lead::I64,
        7 => Lead::Double,
        8 => Lead::Str,
        9 => Lead::List,
        10 => Lead::Set,
        11 => Lead::Map,
        12 => Lead::Struct,
        13 => Lead::Uuid,
        _ => Lead::Bad,
    }
}

/// A bool that is no field's, in one byte.
#[inline(always)]
#[tactic(auto, unfolding(crate::specs::Scan::bool_at))]
pub fn bool_front(bytes: &[u8]) -> Option<bool>
    ensures { IfSome result (λ b. (bool_at bytes.now ≡ Ok (bool_value b, 1)) × (1 ≤ length bytes.now)) }
{
    if bytes.is_empty() {
        return None;
    }
    if bytes[0] > 2 {
        return None;
    }
    Some(bytes[0] == 1)
}

/// An i8, in one byte.
#[inline(always)]
#[tactic(auto, unfolding(crate::specs::Scan::i8_at))]
pub fn i8_front(bytes: &[u8]) -> Option<i8>
    ensures { IfSome result (λ n. (i8_at bytes.now ≡ Ok (i8_value n, 1)) × (1 ≤ length bytes.now)) }
{
    if bytes.is_empty() {
        return None;
    }
    Some(i8::from_be_bytes([bytes[0]]))
}

/// A double's eight bytes, as the number that they make big endian.
#[inline(always)]
pub fn double_front(bytes: &[u8]) -> Option<u64>
    ensures { IfSome result (λ n. (double_at bytes.now ≡ Ok (double_value (to_be_bytes w64 n), 8)) × (8 ≤ length bytes.now)) }
{
    if bytes.len() < 8 {
        return None;
    }
    Some(u64::from_le_bytes([
        bytes[0], bytes[1], bytes[2], bytes[3], bytes[4], bytes[5], bytes[6], bytes[7],
    ]))
}

/// The signed number that a folded one of 16 bits stands for.
#[inline(always)]
fn unzigzag16(number: u16) -> i16
    ensures { result ≡ unfolded number }
{
    let half = (number / 2) as i16;
    if number % 2 == 0 { half } else { -half - 1 }
}

/// A field's id that stands in full, a signed number of 16 bits, and the place behind it.
#[inline(always)]
pub fn id_from(frame: &[u8], at: usize) -> Option<(i16, usize)>
    requires { at ≤ length frame.now }
    ensures { IfSome result (λ x. Finds frame.now at id_at x.0 x.1) }
{
    let (number, behind) = read_u16_at(frame, at)?;
    Some((unzigzag16(number), behind))
}

/// An i16.
#[inline(always)]
pub fn i16_from(frame: &[u8], at: usize) -> Option<(i16, usize)>
    requires { at ≤ length frame.now }
    ensures { IfSome result (λ x. Finds frame.now at (value_at Kind.I16) (i16_value x.0) x.1) }
{
    let (number, behind) = read_u16_at(frame, at)?;
    Some((unzigzag16(number), behind))
}

/// An i32.
#[inline(always)]
pub fn i32_from(frame: &[u8], at: usize) -> Option<(i32, usize)>
    requires { at ≤ length frame.now }
    ensures { IfSome result (λ x. Finds frame.now at (value_at Kind.I32) (i32_value x.0) x.1) }
{
    let (number, behind) = read_u32_at(frame, at)?;
    Some((unzigzag32(number), behind))
}

/// An i64.
#[inline(always)]
pub fn i64_from(frame: &[u8], at: usize) -> Option<(i64, usize)>
    requires { at ≤ length frame.now }
    ensures { IfSome result (λ x. Finds frame.now at (value_at Kind.I64) (i64_value x.0) x.1) }
{
    let (number, behind) = read_u64_at(frame, at)?;
    Some((unzigzag64(number), behind))
}

/// A size or length.
#[inline(always)]
pub fn size_from(frame: &[u8], at: usize) -> Option<(u32, usize)>
    requires { at ≤ length frame.now }
    ensures found { IfSome result (λ x. Finds frame.now at size_at x.0 x.1) }
    ensures small { IfSome result (λ x. x.0 < 2 ^ 31) }
{
    let (size, behind) = read_size_at(frame, at)?;
    if size >= 1 << 31 {
        return None;
    }
    Some((size, behind))
}

/// The size of a text of at most `SHORT` bytes that stands no closer to the frame's end, in one byte: two comparisons, by which the text is
/// copied, too.
#[inline(always)]
pub fn short_size_from(frame: &[u8], at: usize) -> Option<u8>
    requires { at ≤ length frame.now }
    ensures found { IfSome result (λ size. Finds frame.now at size_at size (at + 1)) }
    ensures within { IfSome result (λ size. at + 1 + size ≤ length frame.now) }
{
    let begin = at + 1;
    if begin + SHORT > frame.len() {
        return None;
    }
    let size = frame[at];
    if size as usize > SHORT {
        return None;
    }
    Some(size)
}

/// The kind and the number of the elements of a list or a set.
#[inline(always)]
pub fn elements_from(frame: &[u8], at: usize) -> Option<(Kind, u32, usize)>
    requires { at ≤ length frame.now }
    ensures { IfSome result (λ x. Finds frame.now at elements_at (x.0, x.1) x.2) }
{
    if at >= frame.len() {
        return None;
    }
    let byte = frame[at];
    let kind = kind_of(byte % 16)?;
    let short = byte / 16;
    if short < 15 {
        return Some((kind, u32::from(short), at + 1));
    }
    let (size, behind) = size_from(frame, at + 1)?;
    Some((kind, size, behind))
}

/// The number and the kinds of a map's pairs.
#[inline(always)]
pub fn pairs_from(frame: &[u8], at: usize) -> Option<Pairs>
    requires { at ≤ length frame.now }
    ensures found { IfSome result (λ x. Finds frame.now at (value_at Kind.Map) (pairs_item x.key x.value x.size) x.behind) }
    ensures long { IfSome result (λ x. 0 < x.size → at + 2 ≤ x.behind) }
{
    let (size, mid) = size_from(frame, at)?;
    if size == 0 {
        return Some(Pairs {
            key: Kind::Bool,
            value: Kind::Bool,
            size,
            behind: mid,
        });
    }
    if mid >= frame.len() {
        return None;
    }
    // Most keys are strings: behind this test the machine's code for their values asks for no key.
    if frame[mid] / 16 == code_of(Kind::Str) {
        let value = kind_of(frame[mid] % 16)?;
        return Some(Pairs {
            key: Kind::Str,
            value,
            size,
            behind: mid + 1,
        });
    }
    let key = kind_of(frame[mid] / 16)?;
    let value = kind_of(frame[mid] % 16)?;
    Some(Pairs {
        key,
        value,
        size,
        behind: mid + 1,
    })
}
