//! The reader's quick forms: one item at a place of a frame, by value.
ghost use Rattle.std.specs.Prelude.{◌≡◌, ◌+◌, ◌≤◌, ◌<◌, ◌^◌, length, take, true, false, IfSome};
ghost use Rattle.thrift_value.specs.declared.kind.Kind.{Kind};
ghost use Rattle.thrift_value.specs.Items.{bool_value, i8_value, i16_value, i32_value, i64_value, text, struct_begin, end, uuid_value};
ghost use Rattle.protocol_traits.specs.declared.forms.Container.{Container};
ghost use Rattle.protocol_traits.specs.declared.forms.Lead.{Lead};
ghost use Rattle.protocol_traits.specs.declared.forms.Opening.{Opening};
ghost use Rattle.protocol_traits.specs.declared.proto.Hint.{Hint};
ghost use Rattle.protocol_traits.specs.Forms.{elements_item, container_kind, pairs_item, part, double_item, IsPast, StepsLead, StepsFlag, StepsValue, StepsText, StepsInto, StepsEnd, ReadsHead};
ghost use Rattle.protocol_traits.specs.Heads.{header_of};
ghost use Rattle.json_text.specs.declared.scanned.Scan.TheVariants.{Whole};
ghost use Rattle.json_protocol.specs.Reading.{begun, reads};
ghost use Rattle.json_protocol.specs.Head.{reads_head};
ghost use Rattle.json_protocol.specs.Values.{value_at};
ghost use Rattle.json_protocol.specs.Words.{string_in};
ghost use Rattle.json_protocol.specs.WriteForms.{stand_key};
ghost use Rattle.json_protocol.specs.ReadForms.{Finds, Valued, stands_at, whole_ends};

use crate::head::front_of;
use crate::places::{behind_mark, value_place, whole_value};
use crate::reader::JsonRead;
use crate::starts::{
    behind_container, behind_stop, field_head, field_place, lead_of, lead_place, no_pairs_behind,
    pairs_start, sequence_start,
};
use json_text::{Scan, plain_text, read_blob, read_text};
use protocol_traits::{
    Container, Decoded, FormRead, Head, Hint, Lead, Opening, Pairs, Span, Stand, UUID,
};
use thrift_value::Kind;

impl<'f> FormRead for JsonRead<'f> {
    ghost hinted = { true };

    ghost ended = { whole_ends };

    #[inline(always)]
    fn is_hinted() -> bool
        ensures { result ≡ true }
    {
        true
    }

    #[inline(always)]
    fn front<'a>(frame: &'a [u8], room: &'a mut [u8]) -> Option<(Head<'a>, usize)>
        requires size { length frame.now < 2 ^ 31 }
        requires room { length frame.now ≤ length room.old }
        ensures reads { IfSome result (λ x. ReadsHead stands_at (reads_head (begun frame.now)) frame.now (header_of x.0) x.1) }
        ensures sized { IfSome result (λ x. length x.0.name.now < 2 ^ 31) }
        ensures place { IfSome result (λ x. (length x.0.name.now ≤ x.1) × (x.1 ≤ length frame.now)) }
    {
        let (head, behind) = front_of(frame, room)?;
        Some((head, behind))
    }

    #[inline(always)]
    fn next_field(
        frame: &[u8],
        at: usize,
        opening: Opening,
        last: i16,
    ) -> Option<(Lead, i16, usize)>
        requires { at ≤ length frame.now }
        ensures past { IfSome result (λ x. (x.0 ≡ Lead.Bad → ⊥) → IsPast at frame.now x.2) }
        ensures steps { IfSome result (λ x. StepsLead reads stands_at frame.now at opening last x.0 x.1 x.2) }
    {
        let begin = lead_place(frame, at, opening)?;
        if frame[begin] == b'}' {
            let behind = behind_stop(frame, begin)?;
            return Some((Lead::Stop, 0, behind));
        }
        let place = field_place(frame, begin, opening)?;
        let (id, kind, behind) = field_head(frame, place)?;
        Some((lead_of(kind), id, behind))
    }

    #[inline(always)]
    fn flag(frame: &[u8], at: usize, behind: usize, opening: Opening) -> Option<(bool, usize)>
        requires { IsPast at frame.now behind }
        ensures past { IfSome result (λ x. IsPast at frame.now x.1) }
        ensures steps { IfSome result (λ x. StepsFlag reads stands_at frame.now at opening behind x.0 x.1) }
    {
        let (value, behind) = whole_value(frame, behind, Stand::Field, 0, 1)?;
        Some((value > 0, behind))
    }

    #[inline(always)]
    fn bool(frame: &[u8], at: usize, stand: Stand) -> Option<(bool, usize)>
        requires place { at ≤ length frame.now }
        requires apart { stand ≡ Stand.Field → ⊥ }
        ensures past { IfSome result (λ x. IsPast at frame.now x.1) }
        ensures steps { IfSome result (λ x. StepsValue reads stands_at frame.now at stand Kind.Bool (bool_value x.0) x.1) }
    {
        let (value, behind) = whole_value(frame, at, stand, 0, 1)?;
        Some((value > 0, behind))
    }

    #[inline(always)]
    fn i8(frame: &[u8], at: usize, stand: Stand) -> Option<(i8, usize)>
        requires { at ≤ length frame.now }
        ensures past { IfSome result (λ x. IsPast at frame.now x.1) }
        ensures steps { IfSome result (λ x. StepsValue reads stands_at frame.now at stand Kind.I8 (i8_value x.0) x.1) }
    {
        let (value, behind) = whole_value(frame, at, stand, -128, 127)?;
        Some((value as i8, behind))
    }

    #[inline(always)]
    fn i16(frame: &[u8], at: usize, stand: Stand) -> Option<(i16, usize)>
        requires { at ≤ length frame.now }
        ensures past { IfSome result (λ x. IsPast at frame.now x.1) }
        ensures steps { IfSome result (λ x. StepsValue reads stands_at frame.now at stand Kind.I16 (i16_value x.0) x.1) }
    {
        let (value, behind) = whole_value(frame, at, stand, -32768, 32767)?;
        Some((value as i16, behind))
    }

    #[inline(always)]
    fn i32(frame: &[u8], at: usize, stand: Stand) -> Option<(i32, usize)>
        requires { at ≤ length frame.now }
        ensures past { IfSome result (λ x. IsPast at frame.now x.1) }
        ensures steps { IfSome result (λ x. StepsValue reads stands_at frame.now at stand Kind.I32 (i32_value x.0) x.1) }
    {
        let (value, behind) = whole_value(frame, at, stand, -2147483648, 2147483647)?;
        Some((value as i32, behind))
    }

    #[inline(always)]
    fn i64(frame: &[u8], at: usize, stand: Stand) -> Option<(i64, usize)>
        requires { at ≤ length frame.now }
        ensures past { IfSome result (λ x. IsPast at frame.now x.1) }
        ensures steps { IfSome result (λ x. StepsValue reads stands_at frame.now at stand Kind.I64 (i64_value x.0) x.1) }
    {
        let (value, behind) = whole_value(
            frame,
            at,
            stand,
            -9223372036854775808,
            9223372036854775807,
        )?;
        Some((value, behind))
    }

    #[inline(always)]
    fn double(_frame: &[u8], _at: usize, _stand: Stand) -> Option<(u64, usize)>
        requires { _at ≤ length _frame.now }
        ensures past { IfSome result (λ x. IsPast _at _frame.now x.1) }
        ensures steps { IfSome result (λ x. StepsValue reads stands_at _frame.now _at _stand Kind.Double (double_item x.0) x.1) }
    {
        None
    }

    #[inline(always)]
    fn uuid(_frame: &[u8], _at: usize, _stand: Stand) -> Option<Span>
        requires { _at ≤ length _frame.now }
        ensures past { IfSome result (λ x. IsPast _at _frame.now x.behind) }
        ensures part { IfSome result (λ x. (x.begin + UUID ≡ x.end) × (x.end ≤ x.behind)) }
        ensures steps { IfSome result (λ x. StepsValue reads stands_at _frame.now _at _stand Kind.Uuid (uuid_value (part _frame.now x.begin x.end)) x.behind) }
    {
        None
    }

    #[inline(always)]
    fn text(frame: &[u8], at: usize, stand: Stand, hint: Hint) -> Option<Span>
        requires { at ≤ length frame.now }
        ensures past { IfSome result (λ x. IsPast at frame.now x.behind) }
        ensures part { IfSome result (λ x. (at < x.begin) × (x.begin ≤ x.end) × (x.end ≤ x.behind)) }
        ensures steps { IfSome result (λ x. StepsText reads stands_at true hint frame.now at stand (part frame.now x.begin x.end) x.behind) }
    {
        if means_text(hint) {
            let span = plain_string(frame, at, stand)?;
            return Some(span);
        }
        None
    }

    #[inline(always)]
    fn short_text(frame: &[u8], at: usize, stand: Stand, hint: Hint) -> Option<Span>
        requires { at ≤ length frame.now }
        ensures past { IfSome result (λ x. IsPast at frame.now x.behind) }
        ensures part { IfSome result (λ x. (at < x.begin) × (x.begin ≤ x.end) × (x.end ≤ x.behind)) }
        ensures steps { IfSome result (λ x. StepsText reads stands_at true hint frame.now at stand (part frame.now x.begin x.end) x.behind) }
    {
        None
    }

    #[inline(always)]
    fn decode_text(
        frame: &[u8],
        at: usize,
        stand: Stand,
        hint: Hint,
        room: &mut [u8],
    ) -> Option<Decoded>
        requires place { at ≤ length frame.now }
        requires size { length frame.now < 2 ^ 31 }
        requires room { length frame.now ≤ length room.old + at }
        ensures kept { length room.new ≡ length room.old }
        ensures past { IfSome result (λ x. IsPast at frame.now x.behind) }
        ensures shorter { IfSome result (λ x. at + x.size + 1 ≤ x.behind) }
        ensures steps { IfSome result (λ x. StepsText reads stands_at true hint frame.now at stand (take x.size room.new) x.behind) }
    {
        let begin = value_place(frame, at, stand)?;
        if frame[begin] != b'"' {
            return None;
        }
        let text = decode_string(frame, begin, hint, room)?;
        Some(text)
    }

    #[inline(always)]
    fn struct_begin(frame: &[u8], at: usize, stand: Stand) -> Option<usize>
        requires { at ≤ length frame.now }
        ensures within { IfSome result (λ x. (at ≤ x) × (x ≤ length frame.now)) }
        ensures steps { IfSome result (λ x. StepsInto reads stands_at frame.now at stand Kind.Struct struct_begin x) }
    {
        let place = value_place(frame, at, stand)?;
        let behind = behind_mark(frame, place, b'{')?;
        Some(behind)
    }

    #[inline(always)]
    fn elements(
        frame: &[u8],
        at: usize,
        stand: Stand,
        container: Container,
    ) -> Option<(Kind, u32, usize)>
        requires place { at ≤ length frame.now }
        requires no_map { container ≡ Container.Map → ⊥ }
        ensures past { IfSome result (λ x. IsPast at frame.now x.2) }
        ensures steps { IfSome result (λ x. StepsInto reads stands_at frame.now at stand (container_kind container) (elements_item container x.0 x.1) x.2) }
    {
        let place = value_place(frame, at, stand)?;
        let (kind, size, behind) = sequence_start(frame, place)?;
        Some((kind, size, behind))
    }

    #[inline(always)]
    fn pairs(frame: &[u8], at: usize, stand: Stand) -> Option<Pairs>
        requires { at ≤ length frame.now }
        ensures past { IfSome result (λ x. IsPast at frame.now x.behind) }
        ensures long { IfSome result (λ x. 0 < x.size → at + 2 ≤ x.behind) }
        ensures steps { IfSome result (λ x. StepsInto reads stands_at frame.now at stand Kind.Map (pairs_item x.key x.value x.size) x.behind) }
    {
        let place = value_place(frame, at, stand)?;
        let pairs = pairs_start(frame, place)?;
        if pairs.size > 0 {
            return Some(pairs);
        }
        let behind = no_pairs_behind(frame, pairs.behind)?;
        Some(Pairs { behind, ..pairs })
    }

    #[inline(always)]
    fn end(frame: &[u8], at: usize, container: Container) -> Option<usize>
        requires { at ≤ length frame.now }
        ensures within { IfSome result (λ x. (at ≤ x) × (x ≤ length frame.now)) }
        ensures steps { IfSome result (λ x. StepsEnd reads stands_at frame.now at container x) }
    {
        let behind = behind_container(frame, at, container)?;
        Some(behind)
    }
}

/// Whether a string is read as text.
#[inline(always)]
fn means_text(hint: Hint) -> bool
    ensures { result ≡ true → hint ≡ Hint.Text }
{
    matches!(hint, Hint::Text)
}

/// A string of text without escapes.
#[inline(always)]
fn plain_string(frame: &[u8], at: usize, stand: Stand) -> Option<Span>
    requires { at ≤ length frame.now }
    ensures past { IfSome result (λ x. IsPast at frame.now x.behind) }
    ensures part { IfSome result (λ x. (at < x.begin) × (x.begin ≤ x.end) × (x.end ≤ x.behind)) }
    ensures found { IfSome result (λ x. Valued frame.now at stand (value_at (stand_key stand) Hint.Text Kind.Str) (text (part frame.now x.begin x.end)) x.behind) }
{
    let place = value_place(frame, at, stand)?;
    let end = plain_text(frame, place)?;
    let behind = behind_mark(frame, end, b'"')?;
    Some(Span {
        begin: place + 1,
        end,
        behind,
    })
}

/// A string that is known to be text or bytes, decoded to the front of the room.
fn decode_string(frame: &[u8], at: usize, hint: Hint, room: &mut [u8]) -> Option<Decoded>
    requires place { at ≤ length frame.now }
    requires size { length frame.now < 2 ^ 31 }
    requires room { length frame.now ≤ length room.old + at }
    ensures kept { length room.new ≡ length room.old }
    ensures shorter { IfSome result (λ x. at + x.size ≤ x.behind) }
    ensures found { IfSome result (λ x. Finds frame.now at (string_in hint) (text (take x.size room.new)) x.behind) }
{
    match hint {
        Hint::Text => {
            let text = inside(frame, read_text(frame, at, room))?;
            Some(text)
        }
        Hint::Blob => {
            let blob = inside(frame, read_blob(frame, at, room))?;
            Some(blob)
        }
        Hint::Unknown => None,
    }
}

/// What was decoded, where a byte stands behind its spelling.
fn inside(frame: &[u8], scan: Scan<usize>) -> Option<Decoded>
    ensures { IfSome result (λ x. (scan ≡ Whole x.size x.behind) × (x.behind < length frame.now)) }
{
    match scan {
        Scan::Whole(size, behind) if behind < frame.len() => Some(Decoded { size, behind }),
        _ => None,
    }
}
