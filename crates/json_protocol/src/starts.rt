//! The beginnings and ends of structs, fields and containers in plain TJSON, at a place of a frame. `None` says nothing of
//! the frame.
ghost use Rattle.std.specs.Prelude.{◌≡◌, ℤ, pos, ◌≤◌, ◌<◌, length, IfSome, slice_index};
ghost use Rattle.thrift_value.specs.Items.{field};
ghost use Rattle.protocol_traits.specs.Forms.{lead_item};
ghost use Rattle.protocol_traits.specs.declared.fault.Reason.{Reason};
ghost use Rattle.json_protocol.specs.Words.{quoted_int_in};
ghost use Rattle.json_protocol.specs.Values.{field_at, i16_low, sequence_at, map_head_at};
ghost use Rattle.json_protocol.specs.ReadForms.{Finds, IsStop, FieldLeads, Separates, Ends, EndsMap};

use crate::places::{behind_mark, kind_word, quoted_id, size_behind};
use protocol_traits::{Container, Lead, Opening, Pairs};
use thrift_value::Kind;

/// The place behind the brace before a field or the end of a struct: of the body, or of the value before.
#[inline(always)]
pub fn lead_place(frame: &[u8], at: usize, opening: Opening) -> Option<usize>
    requires { at ≤ length frame.now }
    ensures within { IfSome result (λ x. (at ≤ x) × (x < length frame.now)) }
    ensures leads { IfSome result (λ x. FieldLeads opening frame.now at x) }
{
    match opening {
        Opening::Body => behind_mark(frame, at, b'{'),
        Opening::New => if at < frame.len() { Some(at) } else { None },
        Opening::Old => behind_mark(frame, at, b'}'),
    }
}

/// The place behind the end of a struct. The bracket that ends the frame closes the message, and is taken with it.
#[inline(always)]
pub fn behind_stop(frame: &[u8], at: usize) -> Option<usize>
    requires { at < length frame.now }
    ensures { IfSome result (λ x. IsStop frame.now at x) }
{
    let behind = at + 1;
    if behind == frame.len() {
        return None;
    }
    if behind + 1 == frame.len() && frame[behind] == b']' {
        return Some(frame.len());
    }
    Some(behind)
}

/// The place of a field, behind the comma that separates it from the field before.
#[inline(always)]
pub fn field_place(frame: &[u8], at: usize, opening: Opening) -> Option<usize>
    requires { at < length frame.now }
    ensures { IfSome result (λ x. Separates opening frame.now at x) }
{
    match opening {
        Opening::Body | Opening::New => Some(at),
        Opening::Old => behind_mark(frame, at, b','),
    }
}

/// A field: its id in quotes, and its kind in the brace that holds its value.
#[inline(always)]
pub fn field_head(frame: &[u8], at: usize) -> Option<(i16, Kind, usize)>
    requires { at ≤ length frame.now }
    ensures quote { IfSome result (λ x. slice_index frame.now at ≡ 34) }
    ensures found { IfSome result (λ x. Finds frame.now at field_at (field x.0 x.1) x.2) }
{
    let (id, behind) = field_id(frame, at)?;
    let brace = behind_mark(frame, behind, b':')?;
    let name = behind_mark(frame, brace, b'{')?;
    let (kind, behind) = kind_word(frame, name)?;
    Some((id, kind, behind))
}

/// A field's id in quotes.
#[inline(always)]
fn field_id(frame: &[u8], at: usize) -> Option<(i16, usize)>
    requires { at ≤ length frame.now }
    ensures quote { IfSome result (λ x. slice_index frame.now at ≡ 34) }
    ensures found { IfSome result (λ x. Finds frame.now at (quoted_int_in Reason.BadId i16_low (pos 32767)) x.0 x.1) }
{
    let (id, behind) = quoted_id(frame, at)?;
    if id < -32768 {
        return None;
    }
    if id > 32767 {
        return None;
    }
    Some((id as i16, behind))
}

/// The lead of a field whose value has this kind.
#[inline(always)]
pub fn lead_of(kind: Kind) -> Lead
    ensures { (id : ℤ) → lead_item result id ≡ field id kind }
{
    match kind {
        Kind::Bool => Lead::Bool,
        Kind::I8 => Lead::I8,
        Kind::I16 => Lead::I16,
        Kind::I32 => Lead::I32,
        Kind::I64 => Lead::I64,
        Kind::Double => Lead::Double,
        Kind::Str => Lead::Str,
        Kind::Struct => Lead::Struct,
        Kind::Map => Lead::Map,
        Kind::Set => Lead::Set,
        Kind::List => Lead::List,
        Kind::Uuid => Lead::Uuid,
    }
}

/// The kind and the number of the elements of a list or set.
#[inline(always)]
pub fn sequence_start(frame: &[u8], at: usize) -> Option<(Kind, u32, usize)>
    requires { at ≤ length frame.now }
    ensures bracket { IfSome result (λ x. slice_index frame.now at ≡ 91) }
    ensures found { IfSome result (λ x. Finds frame.now at sequence_at (x.0, x.1) x.2) }
{
    let name = behind_mark(frame, at, b'[')?;
    let (kind, behind) = kind_word(frame, name)?;
    let (size, behind) = size_behind(frame, behind)?;
    Some((kind, size, behind))
}

/// The kinds and the number of the pairs of a map.
#[inline(always)]
pub fn pairs_start(frame: &[u8], at: usize) -> Option<Pairs>
    requires { at ≤ length frame.now }
    ensures bracket { IfSome result (λ x. slice_index frame.now at ≡ 91) }
    ensures found { IfSome result (λ x. Finds frame.now at map_head_at ((x.key, x.value), x.size) x.behind) }
{
    let name = behind_mark(frame, at, b'[')?;
    let (key, behind) = kind_word(frame, name)?;
    let next = behind_mark(frame, behind, b',')?;
    let (value, behind) = kind_word(frame, next)?;
    let (size, behind) = size_behind(frame, behind)?;
    Some(Pairs {
        key,
        value,
        size,
        behind,
    })
}

/// The place behind the end of a map without pairs, from behind its size.
#[inline(always)]
pub fn no_pairs_behind(frame: &[u8], at: usize) -> Option<usize>
    requires { at ≤ length frame.now }
    ensures { IfSome result (λ x. EndsMap frame.now at x) }
{
    let brace = behind_mark(frame, at, b',')?;
    let last = behind_mark(frame, brace, b'{')?;
    let bracket = behind_mark(frame, last, b'}')?;
    let behind = behind_mark(frame, bracket, b']')?;
    Some(behind)
}

/// The place behind the end of a container.
#[inline(always)]
pub fn behind_container(frame: &[u8], at: usize, container: Container) -> Option<usize>
    requires { at ≤ length frame.now }
    ensures { IfSome result (λ x. Ends container frame.now at x) }
{
    match container {
        Container::Map => behind_mark(frame, behind_mark(frame, at, b'}')?, b']'),
        Container::Set | Container::List => behind_mark(frame, at, b']'),
    }
}
