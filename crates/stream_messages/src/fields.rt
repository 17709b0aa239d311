//! Headers and fields of the Binary protocol whose bytes have all come: each is passed over at once.
//!
//! What isn't plain good, or not all there, is left to the steps from byte to byte.
ghost use Rattle.std.specs.Prelude.{◌≡◌, ◌+◌, ◌*◌, ◌^◌, ◌≤◌, ◌<◌, length, drop, IfSome, Some, Ok};
ghost use Rattle.binary_protocol.specs.Codes.{kind_of_code};
ghost use Rattle.binary_protocol.specs.Scan.{size_at};
ghost use Rattle.stream_messages.specs.declared.scan.Wire.TheVariants.{Binary};
ghost use Rattle.stream_messages.specs.Fields.{Spans, width, IsHead, IsValue, AreElements, IsField, IsHeader};

use crate::codes::{binary_kind, message_type};
use protocol_traits::{DEPTH, Nest, Slot};
use thrift_value::Kind;

/// The first byte of a header with a version, and the second one.
const VERSION: [u8; 2] = [0x80, 1];

/// So many bytes stand before the length of a header's name, and so many behind the name.
const AROUND_NAME: usize = 4;

/// The kind and the id of a field have so many bytes.
const FIELD_HEAD: usize = 3;

/// A size or a length has so many bytes.
const SIZE_BYTES: usize = 4;

/// The kind and the number of elements have so many bytes.
const ELEMENTS_HEAD: usize = 5;

/// A size or length is less.
const SIZES: u32 = 1 << 31;

/// A field with its value: its id, and how many bytes it has.
#[derive(Clone, Copy)]
pub struct Field {
    pub id: i16,
    pub size: usize,
}

/// Passes over the fields with which these bytes begin, and says how many bytes they have.
pub fn pass_fields(nest: &mut Nest, bytes: &[u8]) -> usize
    ensures within { result ≤ length bytes.now }
    ensures spans { Spans Binary bytes.now nest.old result nest.new }
{
    let mut at = 0;
    'fields: while let Some(field) = whole_field(nest, &bytes[at..]) {
        nest.set_top(Slot::Fields(field.id));
        at += field.size;
    }
    at
}

/// The field with which these bytes begin, where a field may stand.
fn whole_field(nest: &Nest, bytes: &[u8]) -> Option<Field>
    ensures { IfSome result (IsField nest.now bytes.now) }
{
    let (kind, id) = field_head(nest, bytes)?;
    let size = value_size(kind, &bytes[FIELD_HEAD..])?;
    Some(Field {
        id,
        size: FIELD_HEAD + size,
    })
}

/// The kind and the id of a field, where one may stand.
fn field_head(nest: &Nest, bytes: &[u8]) -> Option<(Kind, i16)>
    ensures { IfSome result (λ x. IsHead nest.now bytes.now x.0 x.1) }
{
    if bytes.len() < FIELD_HEAD || nest.depth() >= DEPTH {
        return None;
    }
    let Some(Slot::Fields(_)) = nest.top() else {
        return None;
    };
    let kind = binary_kind(bytes[0])?;
    Some((kind, i16::from_be_bytes([bytes[1], bytes[2]])))
}

/// The bytes of a value of this kind.
fn value_size(kind: Kind, bytes: &[u8]) -> Option<usize>
    ensures { IfSome result (IsValue kind bytes.now) }
{
    match kind {
        Kind::Str => text_size(bytes),
        Kind::List => elements_size(bytes),
        Kind::Set => elements_size(bytes),
        Kind::Bool => bool_size(bytes),
        _ => plain_size(kind, bytes),
    }
}

/// The bytes of a value whose bytes may be any.
#[inline(always)]
fn plain_size(kind: Kind, bytes: &[u8]) -> Option<usize>
    ensures { IfSome result (IsValue kind bytes.now) }
{
    let size = width(kind);
    if size == 0 || bytes.len() < size {
        return None;
    }
    Some(size)
}

/// How many bytes a value of a kind has, where they may be any; 0 for the other kinds.
#[inline(always)]
fn width(kind: Kind) -> usize
    ensures { result ≡ width kind }
{
    match kind {
        Kind::I8 => 1,
        Kind::I16 => 2,
        Kind::I32 => 4,
        Kind::I64 | Kind::Double => 8,
        Kind::Uuid => 16,
        _ => 0,
    }
}

/// The byte of a bool.
#[inline(always)]
fn bool_size(bytes: &[u8]) -> Option<usize>
    ensures { IfSome result (IsValue Kind.Bool bytes.now) }
{
    if bytes.is_empty() || bytes[0] > 1 {
        return None;
    }
    Some(1)
}

/// A size or length.
#[inline(always)]
#[tactic(auto, unfolding(binary_protocol::specs::Scan::size_at))]
fn size_front(bytes: &[u8]) -> Option<usize>
    ensures within { IfSome result (λ n. SIZE_BYTES ≤ length bytes.now) }
    ensures reads { IfSome result (λ n. size_at bytes.now ≡ Ok (n, SIZE_BYTES)) }
    ensures small { IfSome result (λ n. n < 2 ^ 31) }
{
    if bytes.len() < SIZE_BYTES {
        return None;
    }
    let size = u32::from_be_bytes([bytes[0], bytes[1], bytes[2], bytes[3]]);
    if size >= SIZES {
        return None;
    }
    Some(size as usize)
}

/// The bytes of a text with its length.
#[inline(always)]
fn text_size(bytes: &[u8]) -> Option<usize>
    ensures { IfSome result (IsValue Kind.Str bytes.now) }
{
    let size = size_front(bytes)?;
    if bytes.len() - SIZE_BYTES < size {
        return None;
    }
    Some(SIZE_BYTES + size)
}

/// The bytes of a list or set of values whose bytes may be any.
fn elements_size(bytes: &[u8]) -> Option<usize>
    ensures { IfSome result (AreElements bytes.now) }
{
    if bytes.is_empty() {
        return None;
    }
    let wide = width(binary_kind(bytes[0])?);
    let count = size_front(&bytes[1..])?;
    let size = count.checked_mul(wide)?.checked_add(ELEMENTS_HEAD)?;
    if wide == 0 || bytes.len() < size {
        return None;
    }
    Some(size)
}

/// The bytes of the header with which these begin, where it has a version.
pub fn header_size(bytes: &[u8]) -> Option<usize>
    ensures { IfSome result (IsHeader bytes.now) }
{
    if bytes.len() < AROUND_NAME || bytes[0] != VERSION[0] || bytes[1] != VERSION[1] {
        return None;
    }
    message_type(bytes[3])?;
    let name = size_front(&bytes[AROUND_NAME..])?;
    let size = AROUND_NAME + SIZE_BYTES + name + AROUND_NAME;
    if bytes.len() < size {
        return None;
    }
    Some(size)
}
