//! The Binary protocol spells every item in one way, but for an empty map, whose kinds mean nothing: what is read stands
//! as its writer would lay it, and nothing is compared. A header has two forms, and the one that is written a byte that
//! means nothing: these are looked at.
ghost use Rattle.std.specs.Prelude.{◌≡◌, ◌+◌, ◌≤◌, ◌<◌, ◌^◌, length, take, drop, true, IfSome};
ghost use Rattle.thrift_value.specs.declared.kind.Kind.{Kind};
ghost use Rattle.protocol_traits.specs.declared.forms.Container.{Container};
ghost use Rattle.protocol_traits.specs.declared.forms.Lead.{Lead};
ghost use Rattle.protocol_traits.specs.declared.forms.Stand.{Stand};
ghost use Rattle.protocol_traits.specs.Forms.{IsPast, ReadsHead, SpellsNoPairs};
ghost use Rattle.protocol_traits.specs.Heads.{header_of};
ghost use Rattle.binary_protocol.specs.Forms.{stands_at as reader_at};
ghost use Rattle.binary_protocol.specs.Plain.{bar as own_bar, plain_head};
ghost use Rattle.binary_protocol.specs.Reading.{begun, reads_head};
ghost use Rattle.binary_protocol.specs.WriteForms.{stands_at as writer_at};
ghost use Rattle.kept_forms.specs.InBinary.{own_plain, KeepsElements, KeepsEnd, KeepsFlag, KeepsLead, KeepsPairs, KeepsRun, KeepsStruct, KeepsValue, width_of};

use crate::keeping::FormKeep;
use crate::renewing::renew;
use binary_protocol::{BinaryRead, BinaryWrite};
use protocol_traits::{Container, FormRead, Head, Hint, Lead, Mark, Opening, Pairs, Stand, UUID};
use thrift_value::Kind;

/// A header begins with so many bytes for its version and type.
const FRONT: usize = 4;

/// The first byte of a header that tells its version. The old form, which tells none, isn't written.
const VERSIONED: u8 = 0x80;

/// What is written for a header's third byte, which means nothing.
const UNUSED: u8 = 0;

impl<'f> FormKeep<BinaryWrite> for BinaryRead<'f> {
    #[inline(always)]
    fn keep_front<'a>(frame: &'a [u8], room: &'a mut [u8]) -> Option<(Head<'a>, usize)>
        requires size { length frame.now < 2 ^ 31 }
        requires room { length frame.now ≤ length room.old }
        ensures reads { IfSome result (λ x. ReadsHead reader_at (reads_head (begun frame.now)) frame.now (header_of x.0) x.1) }
        ensures place { IfSome result (λ x. (length x.0.name.now ≤ x.1) × (x.1 ≤ length frame.now)) }
        ensures own { IfSome result (λ x. take x.1 frame.now ≡ plain_head (header_of x.0)) }
    {
        let front = BinaryRead::front(frame, room)?;
        if frame.len() < FRONT || frame[0] != VERSIONED || frame[2] != UNUSED {
            return None;
        }
        Some(front)
    }

    #[inline(always)]
    fn keep_next(frame: &[u8], at: usize, opening: Opening, last: i16) -> Option<(Lead, i16, usize)>
        requires { at ≤ length frame.now }
        ensures past { IfSome result (λ x. (x.0 ≡ Lead.Bad → ⊥) → IsPast at frame.now x.2) }
        ensures keeps { IfSome result (λ x. KeepsLead frame.now at opening last x.0 x.1 x.2) }
    {
        BinaryRead::next_field(frame, at, opening, last)
    }

    #[inline(always)]
    fn keep_flag(
        frame: &[u8],
        at: usize,
        behind: usize,
        opening: Opening,
        last: i16,
        id: i16,
    ) -> Option<usize>
        requires { IsPast at frame.now behind }
        ensures past { IfSome result (λ x. IsPast at frame.now x) }
        ensures keeps { IfSome result (λ x. KeepsFlag frame.now at opening last id behind x) }
    {
        let (_, end) = BinaryRead::flag(frame, at, behind, opening)?;
        Some(end)
    }

    #[inline(always)]
    fn keep_bool(frame: &[u8], at: usize, stand: Stand) -> Option<usize>
        requires place { at ≤ length frame.now }
        requires apart { stand ≡ Stand.Field → ⊥ }
        ensures past { IfSome result (λ x. IsPast at frame.now x) }
        ensures keeps { IfSome result (λ x. KeepsValue frame.now at stand Kind.Bool x) }
    {
        let (_, behind) = BinaryRead::bool(frame, at, stand)?;
        Some(behind)
    }

    #[inline(always)]
    fn keep_i8(frame: &[u8], at: usize, stand: Stand) -> Option<usize>
        requires { at ≤ length frame.now }
        ensures past { IfSome result (λ x. IsPast at frame.now x) }
        ensures keeps { IfSome result (λ x. KeepsValue frame.now at stand Kind.I8 x) }
    {
        let (_, behind) = BinaryRead::i8(frame, at, stand)?;
        Some(behind)
    }

    #[inline(always)]
    fn keep_i16(frame: &[u8], at: usize, stand: Stand) -> Option<usize>
        requires { at ≤ length frame.now }
        ensures past { IfSome result (λ x. IsPast at frame.now x) }
        ensures keeps { IfSome result (λ x. KeepsValue frame.now at stand Kind.I16 x) }
    {
        let (_, behind) = BinaryRead::i16(frame, at, stand)?;
        Some(behind)
    }

    #[inline(always)]
    fn keep_i32(frame: &[u8], at: usize, stand: Stand) -> Option<usize>
        requires { at ≤ length frame.now }
        ensures past { IfSome result (λ x. IsPast at frame.now x) }
        ensures keeps { IfSome result (λ x. KeepsValue frame.now at stand Kind.I32 x) }
    {
        let (_, behind) = BinaryRead::i32(frame, at, stand)?;
        Some(behind)
    }

    #[inline(always)]
    fn keep_i64(frame: &[u8], at: usize, stand: Stand) -> Option<usize>
        requires { at ≤ length frame.now }
        ensures past { IfSome result (λ x. IsPast at frame.now x) }
        ensures keeps { IfSome result (λ x. KeepsValue frame.now at stand Kind.I64 x) }
    {
        let (_, behind) = BinaryRead::i64(frame, at, stand)?;
        Some(behind)
    }

    #[inline(always)]
    fn keep_double(frame: &[u8], at: usize, stand: Stand) -> Option<usize>
        requires { at ≤ length frame.now }
        ensures past { IfSome result (λ x. IsPast at frame.now x) }
        ensures keeps { IfSome result (λ x. KeepsValue frame.now at stand Kind.Double x) }
    {
        let (_, behind) = BinaryRead::double(frame, at, stand)?;
        Some(behind)
    }

    #[inline(always)]
    fn keep_uuid(frame: &[u8], at: usize, stand: Stand) -> Option<usize>
        requires { at ≤ length frame.now }
        ensures past { IfSome result (λ x. IsPast at frame.now x) }
        ensures keeps { IfSome result (λ x. KeepsValue frame.now at stand Kind.Uuid x) }
    {
        let span = BinaryRead::uuid(frame, at, stand)?;
        Some(span.behind)
    }

    #[inline(always)]
    fn keep_text(frame: &[u8], at: usize, stand: Stand) -> Option<usize>
        requires { at ≤ length frame.now }
        ensures past { IfSome result (λ x. IsPast at frame.now x) }
        ensures keeps { IfSome result (λ x. KeepsValue frame.now at stand Kind.Str x) }
    {
        let span = BinaryRead::text(frame, at, stand, Hint::Unknown)?;
        Some(span.behind)
    }

    #[inline(always)]
    fn keep_run(frame: &[u8], at: usize, kind: Kind, size: u32) -> Option<usize>
        requires { at ≤ length frame.now }
        ensures place { IfSome result (λ x. (at ≤ x) × (x ≤ length frame.now)) }
        ensures keeps { IfSome result (λ x. KeepsRun frame.now at kind size x) }
    {
        let width = width_of(kind)?;
        let taken = width * size as usize;
        if frame.len() - at < taken {
            return None;
        }
        Some(at + taken)
    }

    #[inline(always)]
    fn keep_struct(frame: &[u8], at: usize, stand: Stand) -> Option<usize>
        requires { at ≤ length frame.now }
        ensures within { IfSome result (λ x. (at ≤ x) × (x ≤ length frame.now)) }
        ensures keeps { IfSome result (λ x. KeepsStruct frame.now at stand x) }
    {
        BinaryRead::struct_begin(frame, at, stand)
    }

    #[inline(always)]
    fn keep_elements(
        frame: &[u8],
        at: usize,
        stand: Stand,
        container: Container,
    ) -> Option<(Kind, u32, usize)>
        requires place { at ≤ length frame.now }
        requires no_map { container ≡ Container.Map → ⊥ }
        ensures past { IfSome result (λ x. IsPast at frame.now x.2) }
        ensures keeps { IfSome result (λ x. KeepsElements frame.now at stand container x.0 x.1 x.2) }
    {
        BinaryRead::elements(frame, at, stand, container)
    }

    #[inline(always)]
    fn keep_pairs(frame: &[u8], at: usize, stand: Stand) -> Option<Pairs>
        requires { at ≤ length frame.now }
        ensures past { IfSome result (λ x. IsPast at frame.now x.behind) }
        ensures keeps { IfSome result (λ x. KeepsPairs frame.now at stand x) }
    {
        BinaryRead::pairs(frame, at, stand)
    }

    #[inline(always)]
    fn renew_no_pairs(cells: &mut [u8], at: usize, behind: usize, stand: Stand, known: Mark) -> bool
        requires { IsPast at cells.old behind }
        ensures kept { length cells.new ≡ length cells.old }
        ensures rest { drop behind cells.new ≡ drop behind cells.old }
        ensures spells { result ≡ true → SpellsNoPairs own_bar own_plain writer_at true known cells.old at cells.new behind stand }
    {
        renew::<BinaryWrite>(cells, at, behind, stand, known)
    }

    #[inline(always)]
    fn keep_end(frame: &[u8], at: usize, container: Container) -> Option<usize>
        requires { at ≤ length frame.now }
        ensures within { IfSome result (λ x. (at ≤ x) × (x ≤ length frame.now)) }
        ensures keeps { IfSome result (λ x. KeepsEnd frame.now at container x) }
    {
        BinaryRead::end(frame, at, container)
    }
}

/// How many bytes a value of a kind takes, where any so many bytes are one. A bool has one byte, but not each byte is a bool.
#[inline(always)]
fn width_of(kind: Kind) -> Option<usize>
    ensures exact { result ≡ width_of kind }
    ensures few { IfSome result (λ width. width ≤ UUID) }
{
    match kind {
        Kind::I8 => Some(1),
        Kind::I16 => Some(2),
        Kind::I32 => Some(4),
        Kind::I64 | Kind::Double => Some(8),
        Kind::Uuid => Some(UUID),
        _ => None,
    }
}
