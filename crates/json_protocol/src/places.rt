//! The words of plain TJSON at a place of a frame, by value: no whitespace, and a byte behind. `None` says nothing of the
//! frame.
ghost use Rattle.std.specs.Prelude.{◌≡◌, ℤ, ◌≤◌, ◌<◌, ◌+◌, ◌++◌, ◌≤ℤ◌, ◌∷◌, [], false, length, IfSome, slice_index};
ghost use Rattle.std.specs.Int.{w32, from_le_bytes};
ghost use Rattle.protocol_traits.specs.declared.fault.Reason.{Reason};
ghost use Rattle.protocol_traits.specs.Forms.{IsPast};
ghost use Rattle.json_text.specs.Scan.{is_white};
ghost use Rattle.json_protocol.specs.Words.{kind_at, quoted_int_in, whole_in};
ghost use Rattle.json_protocol.specs.Writing.{kind_name};
ghost use Rattle.json_protocol.specs.WriteForms.{stand_key};
ghost use Rattle.json_protocol.specs.ReadForms.{Finds, IsMark, Leads, SizeFound, Valued};

use crate::lay::stand_key;
use json_text::{plain_int, plain_small_int};
use protocol_traits::Stand;
use thrift_value::Kind;

/// The names of three letters with the quote behind them, as numbers that their bytes make little endian.
const I16_WORD: u32 = 0x2236_3169;

const I32_WORD: u32 = 0x2232_3369;

const I64_WORD: u32 = 0x2234_3669;

const DOUBLE_WORD: u32 = 0x226C_6264;

const STR_WORD: u32 = 0x2272_7473;

const STRUCT_WORD: u32 = 0x2263_6572;

const MAP_WORD: u32 = 0x2270_616D;

const SET_WORD: u32 = 0x2274_6573;

const LIST_WORD: u32 = 0x2274_736C;

/// The place behind a mark, where a byte stands.
#[inline(always)]
pub fn behind_mark(frame: &[u8], at: usize, mark: u8) -> Option<usize>
    requires { at ≤ length frame.now }
    ensures { IfSome result (λ x. IsMark frame.now at mark x) }
{
    if frame.len() - at < 2 || frame[at] != mark {
        return None;
    }
    Some(at + 1)
}

/// The place of a value, behind the marks before it.
#[inline(always)]
pub fn value_place(frame: &[u8], at: usize, stand: Stand) -> Option<usize>
    requires { at ≤ length frame.now }
    ensures { IfSome result (λ x. Leads stand frame.now at x) }
{
    match stand {
        Stand::Field | Stand::Value => behind_mark(frame, at, b':'),
        Stand::Element | Stand::Key => behind_mark(frame, at, b','),
        Stand::FirstKey => behind_mark(frame, behind_mark(frame, at, b',')?, b'{'),
    }
}

/// An integer of a range, behind the marks before it and in quotes where it is a key.
#[inline(always)]
pub fn whole_value(
    frame: &[u8],
    at: usize,
    stand: Stand,
    low: i64,
    high: i64,
) -> Option<(i64, usize)>
    requires { at ≤ length frame.now }
    ensures range { IfSome result (λ x. (low ≤ℤ x.0) × (x.0 ≤ℤ high)) }
    ensures past { IfSome result (λ x. IsPast at frame.now x.1) }
    ensures found { IfSome result (λ x. (reason : Reason) → Valued frame.now at stand (whole_in (stand_key stand) reason low high) x.0 x.1) }
{
    let begin = value_place(frame, at, stand)?;
    let (value, behind) = number_at(frame, begin, stand_key(stand))?;
    if value < low || high < value {
        return None;
    }
    Some((value, behind))
}

/// An integer, in quotes where it is a key.
#[inline(always)]
fn number_at(frame: &[u8], at: usize, key: bool) -> Option<(i64, usize)>
    requires { at ≤ length frame.now }
    ensures solid { IfSome result (λ x. is_white (slice_index frame.now at) ≡ false) }
    ensures found { IfSome result (λ x. (reason : Reason) (low high : ℤ) → low ≤ℤ x.0 → x.0 ≤ℤ high → Finds frame.now at (whole_in key reason low high) x.0 x.1) }
{
    if key {
        return quoted_int(frame, at);
    }
    plain_int(frame, at)
}

/// An integer in quotes.
#[inline(always)]
pub fn quoted_int(frame: &[u8], at: usize) -> Option<(i64, usize)>
    requires { at ≤ length frame.now }
    ensures quote { IfSome result (λ x. slice_index frame.now at ≡ 34) }
    ensures found { IfSome result (λ x. (reason : Reason) (low high : ℤ) → low ≤ℤ x.0 → x.0 ≤ℤ high → Finds frame.now at (quoted_int_in reason low high) x.0 x.1) }
{
    let begin = behind_mark(frame, at, b'"')?;
    let (value, end) = plain_int(frame, begin)?;
    let behind = behind_mark(frame, end, b'"')?;
    Some((value, behind))
}

/// The same of an id, which mostly has one digit.
#[inline(always)]
pub fn quoted_id(frame: &[u8], at: usize) -> Option<(i64, usize)>
    requires { at ≤ length frame.now }
    ensures quote { IfSome result (λ x. slice_index frame.now at ≡ 34) }
    ensures found { IfSome result (λ x. (reason : Reason) (low high : ℤ) → low ≤ℤ x.0 → x.0 ≤ℤ high → Finds frame.now at (quoted_int_in reason low high) x.0 x.1) }
{
    let begin = behind_mark(frame, at, b'"')?;
    let (value, end) = plain_small_int(frame, begin)?;
    let behind = behind_mark(frame, end, b'"')?;
    Some((value, behind))
}

/// A size behind a comma.
#[inline(always)]
pub fn size_behind(frame: &[u8], at: usize) -> Option<(u32, usize)>
    requires { at ≤ length frame.now }
    ensures { IfSome result (λ x. SizeFound frame.now at x.0 x.1) }
{
    let begin = behind_mark(frame, at, b',')?;
    let (size, behind) = plain_int(frame, begin)?;
    if size < 0 || size > 2_147_483_647 {
        return None;
    }
    Some((size as u32, behind))
}

/// A kind by its name in quotes.
#[inline(always)]
pub fn kind_word(frame: &[u8], at: usize) -> Option<(Kind, usize)>
    requires { at ≤ length frame.now }
    ensures quote { IfSome result (λ x. slice_index frame.now at ≡ 34) }
    ensures found { IfSome result (λ x. Finds frame.now at kind_at x.0 x.1) }
{
    if frame.len() - at < 6 || frame[at] != b'"' {
        return None;
    }
    let word = u32::from_le_bytes([frame[at + 1], frame[at + 2], frame[at + 3], frame[at + 4]]);
    match long_name(word) {
        Some(kind) => Some((kind, at + 5)),
        None => short_kind(frame, at),
    }
}

/// The kind whose name of three letters these four bytes spell, with the quote behind it.
#[inline(always)]
fn long_name(word: u32) -> Option<Kind>
    ensures { IfSome result (λ kind. (word ≡ from_le_bytes w32 (kind_name kind ++ 34 ∷ [])) × (length (kind_name kind) ≡ 3)) }
{
    match word {
        I16_WORD => Some(Kind::I16),
        I32_WORD => Some(Kind::I32),
        I64_WORD => Some(Kind::I64),
        DOUBLE_WORD => Some(Kind::Double),
        STR_WORD => Some(Kind::Str),
        STRUCT_WORD => Some(Kind::Struct),
        MAP_WORD => Some(Kind::Map),
        SET_WORD => Some(Kind::Set),
        LIST_WORD => Some(Kind::List),
        _ => None,
    }
}

/// A kind whose name has two letters.
#[inline(always)]
fn short_kind(frame: &[u8], at: usize) -> Option<(Kind, usize)>
    requires room { at + 6 ≤ length frame.now }
    requires quote { slice_index frame.now at ≡ 34 }
    ensures { IfSome result (λ x. Finds frame.now at kind_at x.0 x.1) }
{
    if frame[at + 3] != b'"' {
        return None;
    }
    if frame[at + 1] == b't' && frame[at + 2] == b'f' {
        return Some((Kind::Bool, at + 4));
    }
    if frame[at + 1] == b'i' && frame[at + 2] == b'8' {
        return Some((Kind::I8, at + 4));
    }
    None
}
