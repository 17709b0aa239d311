//! The Compact protocol leaves a choice where a number may be padded, a field's id or a size may stand in full, and a bool
//! and its kind have two codes: these are looked at, and nothing else is compared.
ghost use Rattle.std.specs.Prelude.{◌≡◌, ◌+◌, ◌-◌, ◌≤◌, ◌<◌, ◌%◌, ◌/◌, ◌^◌, length, take, drop, true, false, IfSome, Some, None};
ghost use Rattle.thrift_value.specs.declared.kind.Kind.{Kind};
ghost use Rattle.protocol_traits.specs.declared.forms.Container.{Container};
ghost use Rattle.protocol_traits.specs.declared.forms.Lead.{Lead};
ghost use Rattle.protocol_traits.specs.declared.forms.Stand.{Stand};
ghost use Rattle.protocol_traits.specs.Forms.{IsPast, ReadsHead, SpellsNoPairs};
ghost use Rattle.protocol_traits.specs.Heads.{header_of};
ghost use Rattle.varint_zigzag.specs.Places.{found_at};
ghost use Rattle.varint_zigzag.specs.Varint.{varint_at};
ghost use Rattle.compact_protocol.specs.Forms.{stands_at as reader_at};
ghost use Rattle.compact_protocol.specs.Plain.{short_step, head_spelling};
ghost use Rattle.compact_protocol.specs.Reading.{begun, reads_head};
ghost use Rattle.compact_protocol.specs.WriteForms.{stands_at as writer_at};
ghost use Rattle.kept_forms.specs.InCompact.{own_bar, own_plain, KeepsElements, KeepsEnd, KeepsFlag, KeepsLead, KeepsPairs, KeepsRun, KeepsStruct, KeepsValue};
ghost use Rattle.kept_forms.specs.Shortest.{AreShortest, IsOwnFront, IsOwnHead, IsOwnId, IsOwnSize, IsTight};

use crate::keeping::FormKeep;
use crate::renewing::renew;
use crate::shortest::is_tight;
use compact_protocol::{CompactRead, CompactWrite, id_from, lead_of, next_id, short_step};
use protocol_traits::{Container, FormRead, Head, Lead, Mark, Opening, Pairs, Stand, UUID};
use thrift_value::Kind;
use varint_zigzag::{
    read_u16_at, read_u32_at, read_u64_at, shortest_u16_at, shortest_u32_at, shortest_u64_at,
};

/// The bytes of a double.
const DOUBLE: usize = 8;

/// The byte that is written for false; true has 1. A byte 0 is read as false too.
const FALSE: u8 = 2;

/// The code of a bool's kind that is read in the head of a container, but not written.
const OTHER_BOOL: u8 = 2;

/// From this byte on a field's head tells its id by its step from the one before. In a lower one, but 0, it stands in full.
const STEPS: u8 = 16;

/// A list or set of as many elements has its size in full.
const MANY: u32 = 15;

/// So many bytes of a header stand in front of its sequence number.
const SEQUENCE: usize = 2;

/// The name of a header begins behind so many bytes at least: one is the sequence number's, and one the name's length's.
const NAME: usize = 4;

impl<'f> FormKeep<CompactWrite> for CompactRead<'f> {
    #[inline(always)]
    fn keep_front<'a>(frame: &'a [u8], room: &'a mut [u8]) -> Option<(Head<'a>, usize)>
        requires size { length frame.now < 2 ^ 31 }
        requires room { length frame.now ≤ length room.old }
        ensures reads { IfSome result (λ x. ReadsHead reader_at (reads_head (begun frame.now)) frame.now (header_of x.0) x.1) }
        ensures place { IfSome result (λ x. (length x.0.name.now ≤ x.1) × (x.1 ≤ length frame.now)) }
        ensures own { IfSome result (λ x. take x.1 frame.now ≡ head_spelling (header_of x.0)) }
    {
        let (head, behind) = CompactRead::front(frame, room)?;
        if !is_own_front(frame, behind - head.name.len()) {
            return None;
        }
        Some((head, behind))
    }

    // `next_field` reads the same, but looks the kind up first. With the question about the id between that and the arms of who calls, LLVM
    // makes a table of numbers and a second jump of one; so here the kind is looked up last.
    #[inline(always)]
    fn keep_next(frame: &[u8], at: usize, opening: Opening, last: i16) -> Option<(Lead, i16, usize)>
        requires { at ≤ length frame.now }
        ensures past { IfSome result (λ x. (x.0 ≡ Lead.Bad → ⊥) → IsPast at frame.now x.2) }
        ensures keeps { IfSome result (λ x. KeepsLead frame.now at opening last x.0 x.1 x.2) }
    {
        if at >= frame.len() {
            return None;
        }
        let byte = frame[at];
        let short = at + 1;
        if byte >= STEPS {
            let id = next_id(last, byte / STEPS)?;
            return Some((lead_of(byte % STEPS), id, short));
        }
        if byte == 0 {
            return Some((Lead::Stop, 0, short));
        }
        let (id, behind) = id_from(frame, short)?;
        if !is_long_id(frame, at, behind, last, id) {
            return None;
        }
        Some((lead_of(byte), id, behind))
    }

    // Asks about the id once more, since no clause tells what `keep_next` found.
    #[inline(always)]
    fn keep_flag(
        frame: &[u8],
        at: usize,
        behind: usize,
        opening: Opening,
        last: i16,
        id: i16,
    ) -> Option<usize>
        requires { IsPast at frame.now behind }
        ensures past { IfSome result (λ x. IsPast at frame.now x) }
        ensures keeps { IfSome result (λ x. KeepsFlag frame.now at opening last id behind x) }
    {
        if !is_own_id(frame, at, behind, last, id) {
            return None;
        }
        Some(behind)
    }

    #[inline(always)]
    fn keep_bool(frame: &[u8], at: usize, stand: Stand) -> Option<usize>
        requires place { at ≤ length frame.now }
        requires apart { stand ≡ Stand.Field → ⊥ }
        ensures past { IfSome result (λ x. IsPast at frame.now x) }
        ensures keeps { IfSome result (λ x. KeepsValue frame.now at stand Kind.Bool x) }
    {
        if at >= frame.len() || frame[at] == 0 || frame[at] > FALSE {
            return None;
        }
        Some(at + 1)
    }

    #[inline(always)]
    fn keep_i8(frame: &[u8], at: usize, stand: Stand) -> Option<usize>
        requires { at ≤ length frame.now }
        ensures past { IfSome result (λ x. IsPast at frame.now x) }
        ensures keeps { IfSome result (λ x. KeepsValue frame.now at stand Kind.I8 x) }
    {
        if at >= frame.len() {
            return None;
        }
        Some(at + 1)
    }

    #[inline(always)]
    fn keep_i16(frame: &[u8], at: usize, stand: Stand) -> Option<usize>
        requires { at ≤ length frame.now }
        ensures past { IfSome result (λ x. IsPast at frame.now x) }
        ensures keeps { IfSome result (λ x. KeepsValue frame.now at stand Kind.I16 x) }
    {
        match shortest_u16_at(frame, at) {
            Some(count) => Some(at + count),
            None => rest_i16(frame, at, stand),
        }
    }

    #[inline(always)]
    fn keep_i32(frame: &[u8], at: usize, stand: Stand) -> Option<usize>
        requires { at ≤ length frame.now }
        ensures past { IfSome result (λ x. IsPast at frame.now x) }
        ensures keeps { IfSome result (λ x. KeepsValue frame.now at stand Kind.I32 x) }
    {
        match shortest_u32_at(frame, at) {
            Some(count) => Some(at + count),
            None => rest_i32(frame, at, stand),
        }
    }

    #[inline(always)]
    fn keep_i64(frame: &[u8], at: usize, stand: Stand) -> Option<usize>
        requires { at ≤ length frame.now }
        ensures past { IfSome result (λ x. IsPast at frame.now x) }
        ensures keeps { IfSome result (λ x. KeepsValue frame.now at stand Kind.I64 x) }
    {
        match shortest_u64_at(frame, at) {
            Some(count) => Some(at + count),
            None => rest_i64(frame, at, stand),
        }
    }

    #[inline(always)]
    fn keep_double(frame: &[u8], at: usize, stand: Stand) -> Option<usize>
        requires { at ≤ length frame.now }
        ensures past { IfSome result (λ x. IsPast at frame.now x) }
        ensures keeps { IfSome result (λ x. KeepsValue frame.now at stand Kind.Double x) }
    {
        if frame.len() - at < DOUBLE {
            return None;
        }
        Some(at + DOUBLE)
    }

    #[inline(always)]
    fn keep_uuid(frame: &[u8], at: usize, stand: Stand) -> Option<usize>
        requires { at ≤ length frame.now }
        ensures past { IfSome result (λ x. IsPast at frame.now x) }
        ensures keeps { IfSome result (λ x. KeepsValue frame.now at stand Kind.Uuid x) }
    {
        if frame.len() - at < UUID {
            return None;
        }
        Some(at + UUID)
    }

    #[inline(always)]
    fn keep_text(frame: &[u8], at: usize, stand: Stand) -> Option<usize>
        requires { at ≤ length frame.now }
        ensures past { IfSome result (λ x. IsPast at frame.now x) }
        ensures keeps { IfSome result (λ x. KeepsValue frame.now at stand Kind.Str x) }
    {
        let (size, begin) = tight_size(frame, at)?;
        if size >= 1 << 31 || frame.len() - begin < size as usize {
            return None;
        }
        Some(begin + size as usize)
    }

    /// Nothing is passed over at once: nearly all kinds have values of several lengths.
    #[inline(always)]
    fn keep_run(frame: &[u8], at: usize, kind: Kind, size: u32) -> Option<usize>
        requires { at ≤ length frame.now }
        ensures place { IfSome result (λ x. (at ≤ x) × (x ≤ length frame.now)) }
        ensures keeps { IfSome result (λ x. KeepsRun frame.now at kind size x) }
    {
        None
    }

    #[inline(always)]
    fn keep_struct(frame: &[u8], at: usize, stand: Stand) -> Option<usize>
        requires { at ≤ length frame.now }
        ensures within { IfSome result (λ x. (at ≤ x) × (x ≤ length frame.now)) }
        ensures keeps { IfSome result (λ x. KeepsStruct frame.now at stand x) }
    {
        Some(at)
    }

    #[inline(always)]
    fn keep_elements(
        frame: &[u8],
        at: usize,
        stand: Stand,
        container: Container,
    ) -> Option<(Kind, u32, usize)>
        requires place { at ≤ length frame.now }
        requires no_map { container ≡ Container.Map → ⊥ }
        ensures past { IfSome result (λ x. IsPast at frame.now x.2) }
        ensures keeps { IfSome result (λ x. KeepsElements frame.now at stand container x.0 x.1 x.2) }
    {
        let (kind, size, behind) = CompactRead::elements(frame, at, stand, container)?;
        if frame[at] % 16 == OTHER_BOOL || !is_own_size(frame, at, behind, size) {
            return None;
        }
        Some((kind, size, behind))
    }

    #[inline(always)]
    fn keep_pairs(frame: &[u8], at: usize, stand: Stand) -> Option<Pairs>
        requires { at ≤ length frame.now }
        ensures past { IfSome result (λ x. IsPast at frame.now x.behind) }
        ensures keeps { IfSome result (λ x. KeepsPairs frame.now at stand x) }
    {
        let pairs = CompactRead::pairs(frame, at, stand)?;
        if pairs.size == 0 {
            return Some(pairs);
        }
        if !is_own_head(frame, at, pairs.behind) {
            return None;
        }
        Some(pairs)
    }

    #[inline(always)]
    fn renew_no_pairs(cells: &mut [u8], at: usize, behind: usize, stand: Stand, known: Mark) -> bool
        requires { IsPast at cells.old behind }
        ensures kept { length cells.new ≡ length cells.old }
        ensures rest { drop behind cells.new ≡ drop behind cells.old }
        ensures spells { result ≡ true → SpellsNoPairs own_bar own_plain writer_at false known cells.old at cells.new behind stand }
    {
        renew::<CompactWrite>(cells, at, behind, stand, known)
    }

    #[inline(always)]
    fn keep_end(frame: &[u8], at: usize, container: Container) -> Option<usize>
        requires { at ≤ length frame.now }
        ensures within { IfSome result (λ x. (at ≤ x) × (x ≤ length frame.now)) }
        ensures keeps { IfSome result (λ x. KeepsEnd frame.now at container x) }
    {
        Some(at)
    }
}

/// Whether the two numbers in front of a header's name, which was read from a place on, have no more bytes than they need.
#[inline(always)]
fn is_own_front(frame: &[u8], begin: usize) -> bool
    requires { begin ≤ length frame.now }
    ensures { result ≡ true → IsOwnFront frame.now begin }
{
    begin <= NAME || are_shortest(frame)
}

// A header's sequence number and its name's length, where one of them has two bytes or more.
#[inline(always)]
fn are_shortest(frame: &[u8]) -> bool
    requires { 2 ≤ length frame.now }
    ensures { result ≡ true → AreShortest frame.now 2 }
{
    match shortest_u32_at(frame, SEQUENCE) {
        Some(count) => tight_size(frame, SEQUENCE + count).is_some(),
        None => false,
    }
}

/// Whether a field's id that was read between two places stands as the writer spells it: in the field's byte, or in full
/// and short where the byte can't tell it.
#[inline(always)]
fn is_own_id(frame: &[u8], at: usize, behind: usize, last: i16, id: i16) -> bool
    requires { at ≤ length frame.now }
    ensures { result ≡ true → IsOwnId frame.now at behind last id }
{
    behind <= at + 1 || is_long_id(frame, at, behind, last, id)
}

// An id that stands in full.
#[inline(never)]
fn is_long_id(frame: &[u8], at: usize, behind: usize, last: i16, id: i16) -> bool
    requires { at + 1 < behind }
    ensures { result ≡ true → (short_step last id ≡ None) × IsTight frame.now (at + 1) behind }
{
    if short_step(last, id).is_some() || behind > frame.len() {
        return false;
    }
    is_tight(frame, at + 1, behind)
}

/// Whether the size of a list or set that was read between two places stands as the writer spells it: in the first byte,
/// or in full and short where the byte can't tell it.
#[inline(always)]
fn is_own_size(frame: &[u8], at: usize, behind: usize, size: u32) -> bool
    requires { IsPast at frame.now behind }
    ensures { result ≡ true → IsOwnSize frame.now at behind size }
{
    behind == at + 1 || size >= MANY && is_tight(frame, at + 1, behind)
}

/// Whether the size and the kinds of a map's pairs stand as the writer spells them.
#[inline(always)]
fn is_own_head(frame: &[u8], at: usize, behind: usize) -> bool
    requires within { behind ≤ length frame.now }
    requires order { at + 2 ≤ behind }
    ensures { result ≡ true → IsOwnHead frame.now at behind }
{
    let kinds = frame[behind - 1];
    kinds / 16 != OTHER_BOOL && kinds % 16 != OTHER_BOOL && is_tight(frame, at, behind - 1)
}

/// A size or length that stands by its shortest bytes, and the place behind it. Nearly all have one byte.
#[inline(always)]
fn tight_size(frame: &[u8], at: usize) -> Option<(u32, usize)>
    requires { at ≤ length frame.now }
    ensures within { IfSome result (λ x. x.1 ≤ length frame.now) }
    ensures exact { IfSome result (λ x. Some x ≡ found_at at (varint_at 5 32 (drop at frame.now))) }
    ensures tight { IfSome result (λ x. IsTight frame.now at x.1) }
{
    if at < frame.len() && frame[at] < 128 {
        return Some((u32::from(frame[at]), at + 1));
    }
    long_size(frame, at)
}

// A size of two bytes or more.
#[inline(never)]
fn long_size(frame: &[u8], at: usize) -> Option<(u32, usize)>
    requires { at ≤ length frame.now }
    ensures within { IfSome result (λ x. x.1 ≤ length frame.now) }
    ensures exact { IfSome result (λ x. Some x ≡ found_at at (varint_at 5 32 (drop at frame.now))) }
    ensures tight { IfSome result (λ x. IsTight frame.now at x.1) }
{
    let (size, behind) = read_u32_at(frame, at)?;
    if !is_tight(frame, at, behind) {
        return None;
    }
    Some((size, behind))
}

// An i16 near the end of the frame, or one that is padded or long.
#[inline(never)]
fn rest_i16(frame: &[u8], at: usize, stand: Stand) -> Option<usize>
    requires { at ≤ length frame.now }
    ensures past { IfSome result (λ x. IsPast at frame.now x) }
    ensures keeps { IfSome result (λ x. KeepsValue frame.now at stand Kind.I16 x) }
{
    let (_, behind) = read_u16_at(frame, at)?;
    if !is_tight(frame, at, behind) {
        return None;
    }
    Some(behind)
}

// An i32 near the end of the frame, or one that is padded or long.
#[inline(never)]
fn rest_i32(frame: &[u8], at: usize, stand: Stand) -> Option<usize>
    requires { at ≤ length frame.now }
    ensures past { IfSome result (λ x. IsPast at frame.now x) }
    ensures keeps { IfSome result (λ x. KeepsValue frame.now at stand Kind.I32 x) }
{
    let (_, behind) = read_u32_at(frame, at)?;
    if !is_tight(frame, at, behind) {
        return None;
    }
    Some(behind)
}

// An i64 near the end of the frame, or one that is padded or long.
#[inline(never)]
fn rest_i64(frame: &[u8], at: usize, stand: Stand) -> Option<usize>
    requires { at ≤ length frame.now }
    ensures past { IfSome result (λ x. IsPast at frame.now x) }
    ensures keeps { IfSome result (λ x. KeepsValue frame.now at stand Kind.I64 x) }
{
    let (_, behind) = read_u64_at(frame, at)?;
    if !is_tight(frame, at, behind) {
        return None;
    }
    Some(behind)
}
