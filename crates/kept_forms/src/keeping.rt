//! The header or one item of a frame that goes on in its own protocol: read, and its bytes are those that the writer would
//! lay.
ghost use Rattle.std.specs.Prelude.{◌≡◌, ◌+◌, ◌≤◌, ◌<◌, ◌^◌, length, take, drop, true, IfSome};
ghost use Rattle.thrift_value.specs.declared.kind.Kind.{Kind};
ghost use Rattle.protocol_traits.specs.declared.forms.Container.{Container};
ghost use Rattle.protocol_traits.specs.declared.forms.Lead.{Lead};
ghost use Rattle.protocol_traits.specs.declared.forms.Stand.{Stand};
ghost use Rattle.protocol_traits.specs.Forms.{IsPast, ReadsHead, SpellsNoPairs};
ghost use Rattle.protocol_traits.specs.Heads.{header_of};
ghost use Rattle.kept_forms.specs.Keeping.{KeepsElements, KeepsEnd, KeepsFlag, KeepsLead, KeepsPairs, KeepsRun, KeepsStruct, KeepsValue};

use protocol_traits::{Container, FormRead, FormWrite, Head, Lead, Mark, Opening, Pairs, Stand};
use thrift_value::Kind;

/// A protocol's quick reader that tells which bytes its protocol's quick writer would lay as they stand. Each call reads one
/// item at a place of a frame (`keep_run` many), and answers the place behind it; `None` says nothing of the frame: the item may be at fault,
/// or spelled in a way that the writer doesn't choose.
pub trait FormKeep<W: FormWrite>: FormRead {
    /// The header at the beginning of a frame, and the place behind it, where the body begins.
    /// `room` is at least as long as the frame.
    fn keep_front<'f>(frame: &'f [u8], room: &'f mut [u8]) -> Option<(Head<'f>, usize)>
        requires size { length frame.now < 2 ^ 31 }
        requires room { length frame.now ≤ length room.old }
        ensures reads { IfSome result (λ x. ReadsHead Self.stands_at (Self.reads_head (Self.begun frame.now)) frame.now (header_of x.0) x.1) }
        ensures place { IfSome result (λ x. (length x.0.name.now ≤ x.1) × (x.1 ≤ length frame.now)) }
        ensures own { IfSome result (λ x. take x.1 frame.now ≡ W.plain_head (header_of x.0)) };

    /// What stands next in a struct, a field's id, and the place behind.
    fn keep_next(frame: &[u8], at: usize, opening: Opening, last: i16) -> Option<(Lead, i16, usize)>
        requires { at ≤ length frame.now }
        ensures past { IfSome result (λ x. (x.0 ≡ Lead.Bad → ⊥) → IsPast at frame.now x.2) }
        ensures keeps { IfSome result (λ x. KeepsLead Self.reads Self.stands_at W.bar W.plain W.stands_at frame.now at opening last x.0 x.1 x.2) };

    /// A bool field whose id was read between these places.
    fn keep_flag(
        frame: &[u8],
        at: usize,
        behind: usize,
        opening: Opening,
        last: i16,
        id: i16,
    ) -> Option<usize>
        requires { IsPast at frame.now behind }
        ensures past { IfSome result (λ x. IsPast at frame.now x) }
        ensures keeps { IfSome result (λ x. KeepsFlag Self.reads Self.stands_at W.bar W.plain W.stands_at W.after frame.now at opening last id behind x) };

    /// A bool that is no field's.
    fn keep_bool(frame: &[u8], at: usize, stand: Stand) -> Option<usize>
        requires place { at ≤ length frame.now }
        requires apart { stand ≡ Stand.Field → ⊥ }
        ensures past { IfSome result (λ x. IsPast at frame.now x) }
        ensures keeps { IfSome result (λ x. KeepsValue Self.reads Self.stands_at W.bar W.plain W.stands_at frame.now at stand Kind.Bool x) };

    fn keep_i8(frame: &[u8], at: usize, stand: Stand) -> Option<usize>
        requires { at ≤ length frame.now }
        ensures past { IfSome result (λ x. IsPast at frame.now x) }
        ensures keeps { IfSome result (λ x. KeepsValue Self.reads Self.stands_at W.bar W.plain W.stands_at frame.now at stand Kind.I8 x) };

    fn keep_i16(frame: &[u8], at: usize, stand: Stand) -> Option<usize>
        requires { at ≤ length frame.now }
        ensures past { IfSome result (λ x. IsPast at frame.now x) }
        ensures keeps { IfSome result (λ x. KeepsValue Self.reads Self.stands_at W.bar W.plain W.stands_at frame.now at stand Kind.I16 x) };

    fn keep_i32(frame: &[u8], at: usize, stand: Stand) -> Option<usize>
        requires { at ≤ length frame.now }
        ensures past { IfSome result (λ x. IsPast at frame.now x) }
        ensures keeps { IfSome result (λ x. KeepsValue Self.reads Self.stands_at W.bar W.plain W.stands_at frame.now at stand Kind.I32 x) };

    fn keep_i64(frame: &[u8], at: usize, stand: Stand) -> Option<usize>
        requires { at ≤ length frame.now }
        ensures past { IfSome result (λ x. IsPast at frame.now x) }
        ensures keeps { IfSome result (λ x. KeepsValue Self.reads Self.stands_at W.bar W.plain W.stands_at frame.now at stand Kind.I64 x) };

    fn keep_double(frame: &[u8], at: usize, stand: Stand) -> Option<usize>
        requires { at ≤ length frame.now }
        ensures past { IfSome result (λ x. IsPast at frame.now x) }
        ensures keeps { IfSome result (λ x. KeepsValue Self.reads Self.stands_at W.bar W.plain W.stands_at frame.now at stand Kind.Double x) };

    fn keep_uuid(frame: &[u8], at: usize, stand: Stand) -> Option<usize>
        requires { at ≤ length frame.now }
        ensures past { IfSome result (λ x. IsPast at frame.now x) }
        ensures keeps { IfSome result (λ x. KeepsValue Self.reads Self.stands_at W.bar W.plain W.stands_at frame.now at stand Kind.Uuid x) };

    /// A string.
    fn keep_text(frame: &[u8], at: usize, stand: Stand) -> Option<usize>
        requires { at ≤ length frame.now }
        ensures past { IfSome result (λ x. IsPast at frame.now x) }
        ensures keeps { IfSome result (λ x. KeepsValue Self.reads Self.stands_at W.bar W.plain W.stands_at frame.now at stand Kind.Str x) };

    /// So many elements of a list or set, of a kind whose values all have one length and are all kept: passed over at once. `None`
    /// of other kinds, and where the frame is too short.
    fn keep_run(frame: &[u8], at: usize, kind: Kind, size: u32) -> Option<usize>
        requires { at ≤ length frame.now }
        ensures place { IfSome result (λ x. (at ≤ x) × (x ≤ length frame.now)) }
        ensures keeps { IfSome result (λ x. KeepsRun Self.reads Self.stands_at W.bar W.plain W.stands_at frame.now at kind size x) };

    /// The beginning of a struct. It may have no bytes.
    fn keep_struct(frame: &[u8], at: usize, stand: Stand) -> Option<usize>
        requires { at ≤ length frame.now }
        ensures within { IfSome result (λ x. (at ≤ x) × (x ≤ length frame.now)) }
        ensures keeps { IfSome result (λ x. KeepsStruct Self.reads Self.stands_at W.bar W.plain W.stands_at frame.now at stand x) };

    /// The beginning of a list or set: the kind of its elements and their number.
    fn keep_elements(
        frame: &[u8],
        at: usize,
        stand: Stand,
        container: Container,
    ) -> Option<(Kind, u32, usize)>
        requires place { at ≤ length frame.now }
        requires no_map { container ≡ Container.Map → ⊥ }
        ensures past { IfSome result (λ x. IsPast at frame.now x.2) }
        ensures keeps { IfSome result (λ x. KeepsElements Self.reads Self.stands_at W.bar W.plain W.stands_at frame.now at stand container x.0 x.1 x.2) };

    /// The beginning of a map, or an empty one, which may be spelled with other kinds.
    fn keep_pairs(frame: &[u8], at: usize, stand: Stand) -> Option<Pairs>
        requires { at ≤ length frame.now }
        ensures past { IfSome result (λ x. IsPast at frame.now x.behind) }
        ensures keeps { IfSome result (λ x. KeepsPairs Self.reads Self.stands_at W.bar W.plain W.stands_at frame.now at stand x) };

    /// Lays an empty map over cells between these places, and no others, if it has as many bytes. Where writing depends on the
    /// position, `known` is what it says.
    fn renew_no_pairs(cells: &mut [u8], at: usize, behind: usize, stand: Stand, known: Mark) -> bool
        requires { IsPast at cells.old behind }
        ensures kept { length cells.new ≡ length cells.old }
        ensures rest { drop behind cells.new ≡ drop behind cells.old }
        ensures spells { result ≡ true → SpellsNoPairs W.bar W.plain W.stands_at W.marked known cells.old at cells.new behind stand };

    /// The end of a container. It may have no bytes.
    fn keep_end(frame: &[u8], at: usize, container: Container) -> Option<usize>
        requires { at ≤ length frame.now }
        ensures within { IfSome result (λ x. (at ≤ x) × (x ≤ length frame.now)) }
        ensures keeps { IfSome result (λ x. KeepsEnd Self.reads Self.stands_at W.bar W.plain W.stands_at frame.now at container x) };
}
