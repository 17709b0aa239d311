//! The reader's quick forms: one item at a place of a frame, by value.
ghost use Rattle.std.specs.Prelude.{◌≡◌, ◌+◌, ◌≤◌, ◌<◌, ◌^◌, length, take, false, IfSome};
ghost use Rattle.thrift_value.specs.declared.kind.Kind.{Kind};
ghost use Rattle.thrift_value.specs.Items.{bool_value, i8_value, i16_value, i32_value, i64_value, text, struct_begin, end, uuid_value};
ghost use Rattle.protocol_traits.specs.declared.forms.Container.{Container};
ghost use Rattle.protocol_traits.specs.declared.forms.Lead.{Lead};
ghost use Rattle.protocol_traits.specs.declared.forms.Opening.{Opening};
ghost use Rattle.protocol_traits.specs.declared.proto.Hint.{Hint};
ghost use Rattle.protocol_traits.specs.Forms.{elements_item, container_kind, pairs_item, part, double_item, IsPast, StepsLead, StepsFlag, StepsValue, StepsText, StepsInto, StepsEnd, ReadsHead};
ghost use Rattle.protocol_traits.specs.Heads.{header_of};
ghost use Rattle.binary_protocol.specs.Reading.{begun, reads_head};
ghost use Rattle.binary_protocol.specs.Forms.{stands_at, next_read, whole_ends};

use crate::forms::{
    bool_front, double_from, elements_from, head_front, i8_front, i16_from, i32_from, i64_from,
    lead_from, pairs_from, short_text_from, text_from,
};
use crate::reader::BinaryRead;
use protocol_traits::{
    Container, Decoded, FormRead, Head, Hint, Lead, Opening, Pairs, Span, Stand, UUID,
};
use thrift_value::Kind;

/// The end of a struct. A frame whose last byte is another one has no whole message, so the quick way leaves it at once.
const STOP: u8 = 0;

impl<'f> FormRead for BinaryRead<'f> {
    ghost hinted = { false };

    ghost ended = { whole_ends };

    #[inline(always)]
    fn is_hinted() -> bool
        ensures { result ≡ false }
    {
        false
    }

    #[inline(always)]
    fn front<'a>(frame: &'a [u8], _room: &'a mut [u8]) -> Option<(Head<'a>, usize)>
        requires size { length frame.now < 2 ^ 31 }
        requires room { length frame.now ≤ length _room.old }
        ensures reads { IfSome result (λ x. ReadsHead stands_at (reads_head (begun frame.now)) frame.now (header_of x.0) x.1) }
        ensures sized { IfSome result (λ x. length x.0.name.now < 2 ^ 31) }
        ensures place { IfSome result (λ x. (length x.0.name.now ≤ x.1) × (x.1 ≤ length frame.now)) }
    {
        if frame.is_empty() || frame[frame.len() - 1] != STOP {
            return None;
        }
        let (head, taken) = head_front(frame)?;
        Some((head, taken))
    }

    #[inline(always)]
    fn next_field(
        frame: &[u8],
        at: usize,
        opening: Opening,
        last: i16,
    ) -> Option<(Lead, i16, usize)>
        requires { at ≤ length frame.now }
        ensures past { IfSome result (λ x. (x.0 ≡ Lead.Bad → ⊥) → IsPast at frame.now x.2) }
        ensures steps { IfSome result (λ x. StepsLead next_read stands_at frame.now at opening last x.0 x.1 x.2) }
    {
        lead_from(frame, at)
    }

    #[inline(always)]
    fn flag(frame: &[u8], at: usize, behind: usize, opening: Opening) -> Option<(bool, usize)>
        requires { IsPast at frame.now behind }
        ensures past { IfSome result (λ x. IsPast at frame.now x.1) }
        ensures steps { IfSome result (λ x. StepsFlag next_read stands_at frame.now at opening behind x.0 x.1) }
    {
        let value = bool_front(&frame[behind..])?;
        Some((value, behind + 1))
    }

    #[inline(always)]
    fn bool(frame: &[u8], at: usize, stand: Stand) -> Option<(bool, usize)>
        requires place { at ≤ length frame.now }
        requires apart { stand ≡ Stand.Field → ⊥ }
        ensures past { IfSome result (λ x. IsPast at frame.now x.1) }
        ensures steps { IfSome result (λ x. StepsValue next_read stands_at frame.now at stand Kind.Bool (bool_value x.0) x.1) }
    {
        let value = bool_front(&frame[at..])?;
        Some((value, at + 1))
    }

    #[inline(always)]
    fn i8(frame: &[u8], at: usize, stand: Stand) -> Option<(i8, usize)>
        requires { at ≤ length frame.now }
        ensures past { IfSome result (λ x. IsPast at frame.now x.1) }
        ensures steps { IfSome result (λ x. StepsValue next_read stands_at frame.now at stand Kind.I8 (i8_value x.0) x.1) }
    {
        let value = i8_front(&frame[at..])?;
        Some((value, at + 1))
    }

    #[inline(always)]
    fn i16(frame: &[u8], at: usize, stand: Stand) -> Option<(i16, usize)>
        requires { at ≤ length frame.now }
        ensures past { IfSome result (λ x. IsPast at frame.now x.1) }
        ensures steps { IfSome result (λ x. StepsValue next_read stands_at frame.now at stand Kind.I16 (i16_value x.0) x.1) }
    {
        i16_from(frame, at)
    }

    #[inline(always)]
    fn i32(frame: &[u8], at: usize, stand: Stand) -> Option<(i32, usize)>
        requires { at ≤ length frame.now }
        ensures past { IfSome result (λ x. IsPast at frame.now x.1) }
        ensures steps { IfSome result (λ x. StepsValue next_read stands_at frame.now at stand Kind.I32 (i32_value x.0) x.1) }
    {
        i32_from(frame, at)
    }

    #[inline(always)]
    fn i64(frame: &[u8], at: usize, stand: Stand) -> Option<(i64, usize)>
        requires { at ≤ length frame.now }
        ensures past { IfSome result (λ x. IsPast at frame.now x.1) }
        ensures steps { IfSome result (λ x. StepsValue next_read stands_at frame.now at stand Kind.I64 (i64_value x.0) x.1) }
    {
        i64_from(frame, at)
    }

    #[inline(always)]
    fn double(frame: &[u8], at: usize, stand: Stand) -> Option<(u64, usize)>
        requires { at ≤ length frame.now }
        ensures past { IfSome result (λ x. IsPast at frame.now x.1) }
        ensures steps { IfSome result (λ x. StepsValue next_read stands_at frame.now at stand Kind.Double (double_item x.0) x.1) }
    {
        double_from(frame, at)
    }

    #[inline(always)]
    fn uuid(frame: &[u8], at: usize, stand: Stand) -> Option<Span>
        requires { at ≤ length frame.now }
        ensures past { IfSome result (λ x. IsPast at frame.now x.behind) }
        ensures part { IfSome result (λ x. (x.begin + UUID ≡ x.end) × (x.end ≤ x.behind)) }
        ensures steps { IfSome result (λ x. StepsValue next_read stands_at frame.now at stand Kind.Uuid (uuid_value (part frame.now x.begin x.end)) x.behind) }
    {
        if frame.len() - at < UUID {
            return None;
        }
        let behind = at + UUID;
        Some(Span {
            begin: at,
            end: behind,
            behind,
        })
    }

    #[inline(always)]
    fn text(frame: &[u8], at: usize, stand: Stand, hint: Hint) -> Option<Span>
        requires { at ≤ length frame.now }
        ensures past { IfSome result (λ x. IsPast at frame.now x.behind) }
        ensures part { IfSome result (λ x. (at < x.begin) × (x.begin ≤ x.end) × (x.end ≤ x.behind)) }
        ensures steps { IfSome result (λ x. StepsText next_read stands_at false hint frame.now at stand (part frame.now x.begin x.end) x.behind) }
    {
        let (begin, behind) = text_from(frame, at)?;
        Some(Span {
            begin,
            end: behind,
            behind,
        })
    }

    #[inline(always)]
    fn short_text(frame: &[u8], at: usize, stand: Stand, hint: Hint) -> Option<Span>
        requires { at ≤ length frame.now }
        ensures past { IfSome result (λ x. IsPast at frame.now x.behind) }
        ensures part { IfSome result (λ x. (at < x.begin) × (x.begin ≤ x.end) × (x.end ≤ x.behind)) }
        ensures steps { IfSome result (λ x. StepsText next_read stands_at false hint frame.now at stand (part frame.now x.begin x.end) x.behind) }
    {
        let (begin, behind) = short_text_from(frame, at)?;
        Some(Span {
            begin,
            end: behind,
            behind,
        })
    }

    #[inline(always)]
    fn decode_text(
        frame: &[u8],
        at: usize,
        stand: Stand,
        hint: Hint,
        room: &mut [u8],
    ) -> Option<Decoded>
        requires place { at ≤ length frame.now }
        requires size { length frame.now < 2 ^ 31 }
        requires room { length frame.now ≤ length room.old + at }
        ensures kept { length room.new ≡ length room.old }
        ensures past { IfSome result (λ x. IsPast at frame.now x.behind) }
        ensures shorter { IfSome result (λ x. at + x.size + 1 ≤ x.behind) }
        ensures steps { IfSome result (λ x. StepsText next_read stands_at false hint frame.now at stand (take x.size room.new) x.behind) }
    {
        None
    }

    #[inline(always)]
    fn struct_begin(frame: &[u8], at: usize, stand: Stand) -> Option<usize>
        requires { at ≤ length frame.now }
        ensures within { IfSome result (λ x. (at ≤ x) × (x ≤ length frame.now)) }
        ensures steps { IfSome result (λ x. StepsInto next_read stands_at frame.now at stand Kind.Struct struct_begin x) }
    {
        Some(at)
    }

    #[inline(always)]
    fn elements(
        frame: &[u8],
        at: usize,
        stand: Stand,
        container: Container,
    ) -> Option<(Kind, u32, usize)>
        requires place { at ≤ length frame.now }
        requires no_map { container ≡ Container.Map → ⊥ }
        ensures past { IfSome result (λ x. IsPast at frame.now x.2) }
        ensures steps { IfSome result (λ x. StepsInto next_read stands_at frame.now at stand (container_kind container) (elements_item container x.0 x.1) x.2) }
    {
        elements_from(frame, at)
    }

    #[inline(always)]
    fn pairs(frame: &[u8], at: usize, stand: Stand) -> Option<Pairs>
        requires { at ≤ length frame.now }
        ensures past { IfSome result (λ x. IsPast at frame.now x.behind) }
        ensures long { IfSome result (λ x. 0 < x.size → at + 2 ≤ x.behind) }
        ensures steps { IfSome result (λ x. StepsInto next_read stands_at frame.now at stand Kind.Map (pairs_item x.key x.value x.size) x.behind) }
    {
        pairs_from(frame, at)
    }

    #[inline(always)]
    fn end(frame: &[u8], at: usize, container: Container) -> Option<usize>
        requires { at ≤ length frame.now }
        ensures within { IfSome result (λ x. (at ≤ x) × (x ≤ length frame.now)) }
        ensures steps { IfSome result (λ x. StepsEnd next_read stands_at frame.now at container x) }
    {
        Some(at)
    }
}
