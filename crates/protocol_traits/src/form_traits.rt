//! A protocol's quick reader and quick writer: one call an item, by value, and no fault told.
//!
//! The quick way is right where it answers. What isn't plain good is left to `WireRead` and `WireWrite`.
ghost use Rattle.std.specs.Prelude.{◌≡◌, ℕ, pos, ◌+◌, ◌-◌, ◌≤◌, ◌<◌, ◌^◌, List, [], ◌∷◌, ◌++◌, length, take, Bool, Option, None, Ok, IfSome};
ghost use Rattle.thrift_value.specs.declared.kind.Kind.{Kind};
ghost use Rattle.thrift_value.specs.Items.{Item, field, stop, bool_value, i8_value, i16_value, i32_value, i64_value, text, struct_begin, empty_map, map_begin, end, uuid_value};
ghost use Rattle.protocol_traits.specs.declared.forms.Container.{Container};
ghost use Rattle.protocol_traits.specs.declared.forms.Lead.{Lead};
ghost use Rattle.protocol_traits.specs.declared.forms.Opening.{Opening};
ghost use Rattle.protocol_traits.specs.declared.nest.Slot.{Slot};
ghost use Rattle.protocol_traits.specs.declared.nest.Slot.TheVariants.{Fields};
ghost use Rattle.protocol_traits.specs.declared.proto.Hint.{Hint};
ghost use Rattle.protocol_traits.specs.declared.proto.Mark.{Mark};
ghost use Rattle.protocol_traits.specs.Heads.{header_of};
ghost use Rattle.protocol_traits.specs.Steps.{told};
ghost use Rattle.protocol_traits.specs.Follow.{after as levels_after};
ghost use Rattle.protocol_traits.specs.Forms.{elements_item, container_kind, pairs_item, part, double_item, uuid_item, text_weight, opening_after, IsPast, StepsLead, StepsFlag, StepsValue, StepsText, StepsInto, StepsEnd, ReadsHead, SpellsField, SpellsFlag, SpellsStop, SpellsValue, SpellsText, SpellsElements, SpellsNoPairs, SpellsEnd};
ghost use Rattle.protocol_traits.specs.Room.{head_weight, weight};

use crate::forms::{Container, Decoded, Lead, Opening, Pairs, Span, Stand};
use crate::{Head, Hint, Mark, ReadRules, WireWrite};
use thrift_value::Kind;

/// How many cells behind a place an item other than a text may write to: its spelling, and what a wide copy overwrites
/// behind it.
pub const WIDE: usize = 64;

/// The bytes of a uuid.
pub const UUID: usize = 16;

/// A protocol's quick reader. Each call reads one item at a place of a frame, and answers the place behind it; `None`
/// says nothing of the frame.
pub trait FormRead: ReadRules {
    /// Whether how a string is read depends on its position.
    ghost hinted: { Bool };

    /// Whether how a string is read depends on its position.
    fn is_hinted() -> bool
        ensures { result ≡ hinted };

    /// The header at the beginning of a frame, and the place behind it, where the body begins.
    /// `room` is at least as long as the frame. A name that doesn't lie in the frame as it is meant stands there.
    fn front<'f>(frame: &'f [u8], room: &'f mut [u8]) -> Option<(Head<'f>, usize)>
        requires size { length frame.now < 2 ^ 31 }
        requires room { length frame.now ≤ length room.old }
        ensures reads { IfSome result (λ x. ReadsHead Self.stands_at (Self.reads_head (Self.begun frame.now)) frame.now (header_of x.0) x.1) }
        ensures sized { IfSome result (λ x. length x.0.name.now < 2 ^ 31) }
        ensures place { IfSome result (λ x. (length x.0.name.now ≤ x.1) × (x.1 ≤ length frame.now)) };

    /// What stands next in a struct, a field's id, and the place behind.
    fn next_field(
        frame: &[u8],
        at: usize,
        opening: Opening,
        last: i16,
    ) -> Option<(Lead, i16, usize)>
        requires { at ≤ length frame.now }
        ensures past { IfSome result (λ x. (x.0 ≡ Lead.Bad → ⊥) → IsPast at frame.now x.2) }
        ensures steps { IfSome result (λ x. StepsLead Self.reads Self.stands_at frame.now at opening last x.0 x.1 x.2) };

    /// The value of a bool field that stands between these places.
    fn flag(frame: &[u8], at: usize, behind: usize, opening: Opening) -> Option<(bool, usize)>
        requires { IsPast at frame.now behind }
        ensures past { IfSome result (λ x. IsPast at frame.now x.1) }
        ensures steps { IfSome result (λ x. StepsFlag Self.reads Self.stands_at frame.now at opening behind x.0 x.1) };

    /// A bool that is no field's.
    fn bool(frame: &[u8], at: usize, stand: Stand) -> Option<(bool, usize)>
        requires place { at ≤ length frame.now }
        requires apart { stand ≡ Stand.Field → ⊥ }
        ensures past { IfSome result (λ x. IsPast at frame.now x.1) }
        ensures steps { IfSome result (λ x. StepsValue Self.reads Self.stands_at frame.now at stand Kind.Bool (bool_value x.0) x.1) };

    fn i8(frame: &[u8], at: usize, stand: Stand) -> Option<(i8, usize)>
        requires { at ≤ length frame.now }
        ensures past { IfSome result (λ x. IsPast at frame.now x.1) }
        ensures steps { IfSome result (λ x. StepsValue Self.reads Self.stands_at frame.now at stand Kind.I8 (i8_value x.0) x.1) };

    fn i16(frame: &[u8], at: usize, stand: Stand) -> Option<(i16, usize)>
        requires { at ≤ length frame.now }
        ensures past { IfSome result (λ x. IsPast at frame.now x.1) }
        ensures steps { IfSome result (λ x. StepsValue Self.reads Self.stands_at frame.now at stand Kind.I16 (i16_value x.0) x.1) };

    fn i32(frame: &[u8], at: usize, stand: Stand) -> Option<(i32, usize)>
        requires { at ≤ length frame.now }
        ensures past { IfSome result (λ x. IsPast at frame.now x.1) }
        ensures steps { IfSome result (λ x. StepsValue Self.reads Self.stands_at frame.now at stand Kind.I32 (i32_value x.0) x.1) };

    fn i64(frame: &[u8], at: usize, stand: Stand) -> Option<(i64, usize)>
        requires { at ≤ length frame.now }
        ensures past { IfSome result (λ x. IsPast at frame.now x.1) }
        ensures steps { IfSome result (λ x. StepsValue Self.reads Self.stands_at frame.now at stand Kind.I64 (i64_value x.0) x.1) };

    /// The eight bytes of a double, as the number that they make big endian.
    fn double(frame: &[u8], at: usize, stand: Stand) -> Option<(u64, usize)>
        requires { at ≤ length frame.now }
        ensures past { IfSome result (λ x. IsPast at frame.now x.1) }
        ensures steps { IfSome result (λ x. StepsValue Self.reads Self.stands_at frame.now at stand Kind.Double (double_item x.0) x.1) };

    /// The sixteen bytes of a uuid, which lie in the frame from the place on that is answered first.
    fn uuid(frame: &[u8], at: usize, stand: Stand) -> Option<Span>
        requires { at ≤ length frame.now }
        ensures past { IfSome result (λ x. IsPast at frame.now x.behind) }
        ensures part { IfSome result (λ x. (x.begin + UUID ≡ x.end) × (x.end ≤ x.behind)) }
        ensures steps { IfSome result (λ x. StepsValue Self.reads Self.stands_at frame.now at stand Kind.Uuid (uuid_value (part frame.now x.begin x.end)) x.behind) };

    /// A string that lies in the frame as it is meant. Where reading depends on the position, `hint` is what it says.
    fn text(frame: &[u8], at: usize, stand: Stand, hint: Hint) -> Option<Span>
        requires { at ≤ length frame.now }
        ensures past { IfSome result (λ x. IsPast at frame.now x.behind) }
        ensures part { IfSome result (λ x. (at < x.begin) × (x.begin ≤ x.end) × (x.end ≤ x.behind)) }
        ensures steps { IfSome result (λ x. StepsText Self.reads Self.stands_at hinted hint frame.now at stand (part frame.now x.begin x.end) x.behind) };

    /// The same of a string that is short and stands apart from the frame's end, where fewer comparisons tell that than any string asks for.
    fn short_text(frame: &[u8], at: usize, stand: Stand, hint: Hint) -> Option<Span>
        requires { at ≤ length frame.now }
        ensures past { IfSome result (λ x. IsPast at frame.now x.behind) }
        ensures part { IfSome result (λ x. (at < x.begin) × (x.begin ≤ x.end) × (x.end ≤ x.behind)) }
        ensures steps { IfSome result (λ x. StepsText Self.reads Self.stands_at hinted hint frame.now at stand (part frame.now x.begin x.end) x.behind) };

    /// A string that doesn't lie in the frame as it is meant: its bytes come to the front of the room, which is as long as
    /// what is left of the frame. Where reading depends on the position, `hint` is what it says.
    fn decode_text(
        frame: &[u8],
        at: usize,
        stand: Stand,
        hint: Hint,
        room: &mut [u8],
    ) -> Option<Decoded>
        requires place { at ≤ length frame.now }
        requires size { length frame.now < 2 ^ 31 }
        requires room { length frame.now ≤ length room.old + at }
        ensures kept { length room.new ≡ length room.old }
        ensures past { IfSome result (λ x. IsPast at frame.now x.behind) }
        ensures shorter { IfSome result (λ x. at + x.size + 1 ≤ x.behind) }
        ensures steps { IfSome result (λ x. StepsText Self.reads Self.stands_at hinted hint frame.now at stand (take x.size room.new) x.behind) };

    /// The beginning of a struct. It may have no bytes.
    fn struct_begin(frame: &[u8], at: usize, stand: Stand) -> Option<usize>
        requires { at ≤ length frame.now }
        ensures within { IfSome result (λ x. (at ≤ x) × (x ≤ length frame.now)) }
        ensures steps { IfSome result (λ x. StepsInto Self.reads Self.stands_at frame.now at stand Kind.Struct struct_begin x) };

    /// The beginning of a list or set: the kind of its elements and their number.
    fn elements(
        frame: &[u8],
        at: usize,
        stand: Stand,
        container: Container,
    ) -> Option<(Kind, u32, usize)>
        requires place { at ≤ length frame.now }
        requires no_map { container ≡ Container.Map → ⊥ }
        ensures past { IfSome result (λ x. IsPast at frame.now x.2) }
        ensures steps { IfSome result (λ x. StepsInto Self.reads Self.stands_at frame.now at stand (container_kind container) (elements_item container x.0 x.1) x.2) };

    /// The beginning of a map, or an empty one. Where there are pairs it has two bytes at least.
    fn pairs(frame: &[u8], at: usize, stand: Stand) -> Option<Pairs>
        requires { at ≤ length frame.now }
        ensures past { IfSome result (λ x. IsPast at frame.now x.behind) }
        ensures long { IfSome result (λ x. 0 < x.size → at + 2 ≤ x.behind) }
        ensures steps { IfSome result (λ x. StepsInto Self.reads Self.stands_at frame.now at stand Kind.Map (pairs_item x.key x.value x.size) x.behind) };

    /// The end of a container. It may have no bytes.
    fn end(frame: &[u8], at: usize, container: Container) -> Option<usize>
        requires { at ≤ length frame.now }
        ensures within { IfSome result (λ x. (at ≤ x) × (x ≤ length frame.now)) }
        ensures steps { IfSome result (λ x. StepsEnd Self.reads Self.stands_at frame.now at container x) };

    /// Behind the body, at the end of the frame, the message is whole.
    ghost ended: { (s : Self) (frame : List ℕ) (opening : Opening) → Self.stands_at s frame (length frame) opening [] → told (Self.reads_end s) ≡ Ok tt };
}

/// A protocol's quick writer. Each call writes one item into the cells from a place on, and answers the place behind it.
/// The cells behind that may be overwritten, to `WIDE` behind where the item began, or behind a text.
pub trait FormWrite: WireWrite {
    /// Whether how a string is written depends on its position.
    ghost hinted: { Bool };

    /// Whether how an empty map is written depends on its position.
    ghost marked: { Bool };

    /// Whether how a string is written depends on its position.
    fn is_hinted() -> bool
        ensures { result ≡ hinted };

    /// Whether how an empty map is written depends on its position.
    fn is_marked() -> bool
        ensures { result ≡ marked };

    /// A header.
    fn front(cells: &mut [u8], to: usize, head: &Head<'_>) -> usize
        requires sized { length head.now.name.now < 2 ^ 31 }
        requires taken { Self.name_bar head.now.name.now ≡ None }
        requires room { to + (head_weight (length head.now.name.now) + WIDE) ≤ length cells.old }
        ensures kept { length cells.new ≡ length cells.old }
        ensures short { result ≤ to + head_weight (length head.now.name.now) }
        ensures spells { take result cells.new ≡ take to cells.old ++ Self.plain_head (header_of head.now) };

    /// A field's id and kind, where its value is no bool.
    fn field(cells: &mut [u8], to: usize, opening: Opening, last: i16, id: i16, kind: Kind) -> usize
        requires room { to + WIDE ≤ length cells.old }
        requires apart { kind ≡ Kind.Bool → ⊥ }
        ensures kept { length cells.new ≡ length cells.old }
        ensures short { result ≤ to + weight (field id kind) }
        ensures spells { SpellsField Self.bar Self.plain Self.stands_at cells.old to cells.new result opening last (field id kind) };

    /// A bool field.
    fn flag(cells: &mut [u8], to: usize, opening: Opening, last: i16, id: i16, value: bool) -> usize
        requires { to + WIDE ≤ length cells.old }
        ensures kept { length cells.new ≡ length cells.old }
        ensures short { result ≤ to + (weight (field id Kind.Bool) + weight (bool_value value)) }
        ensures spells { SpellsFlag Self.bar Self.plain Self.stands_at Self.after cells.old to cells.new result opening last id value };

    /// The end of a struct that is the innermost of so many levels.
    fn stop(cells: &mut [u8], to: usize, opening: Opening, depth: usize) -> usize
        requires { to + WIDE ≤ length cells.old }
        ensures kept { length cells.new ≡ length cells.old }
        ensures short { result ≤ to + weight stop }
        ensures spells { SpellsStop Self.bar Self.plain Self.stands_at cells.old to cells.new result opening depth };

    /// A bool that is no field's.
    fn bool(cells: &mut [u8], to: usize, stand: Stand, value: bool) -> usize
        requires room { to + WIDE ≤ length cells.old }
        requires apart { stand ≡ Stand.Field → ⊥ }
        ensures kept { length cells.new ≡ length cells.old }
        ensures short { result ≤ to + weight (bool_value value) }
        ensures spells { SpellsValue Self.bar Self.plain Self.stands_at cells.old to cells.new result stand Kind.Bool (bool_value value) };

    fn i8(cells: &mut [u8], to: usize, stand: Stand, value: i8) -> usize
        requires { to + WIDE ≤ length cells.old }
        ensures kept { length cells.new ≡ length cells.old }
        ensures short { result ≤ to + weight (i8_value value) }
        ensures spells { SpellsValue Self.bar Self.plain Self.stands_at cells.old to cells.new result stand Kind.I8 (i8_value value) };

    fn i16(cells: &mut [u8], to: usize, stand: Stand, value: i16) -> usize
        requires { to + WIDE ≤ length cells.old }
        ensures kept { length cells.new ≡ length cells.old }
        ensures short { result ≤ to + weight (i16_value value) }
        ensures spells { SpellsValue Self.bar Self.plain Self.stands_at cells.old to cells.new result stand Kind.I16 (i16_value value) };

    fn i32(cells: &mut [u8], to: usize, stand: Stand, value: i32) -> usize
        requires { to + WIDE ≤ length cells.old }
        ensures kept { length cells.new ≡ length cells.old }
        ensures short { result ≤ to + weight (i32_value value) }
        ensures spells { SpellsValue Self.bar Self.plain Self.stands_at cells.old to cells.new result stand Kind.I32 (i32_value value) };

    fn i64(cells: &mut [u8], to: usize, stand: Stand, value: i64) -> usize
        requires { to + WIDE ≤ length cells.old }
        ensures kept { length cells.new ≡ length cells.old }
        ensures short { result ≤ to + weight (i64_value value) }
        ensures spells { SpellsValue Self.bar Self.plain Self.stands_at cells.old to cells.new result stand Kind.I64 (i64_value value) };

    /// A double, by the number that its bytes make big endian. `None`: the protocol can't hold it.
    fn double(cells: &mut [u8], to: usize, stand: Stand, value: u64) -> Option<usize>
        requires { to + WIDE ≤ length cells.old }
        ensures kept { length cells.new ≡ length cells.old }
        ensures short { IfSome result (λ x. x ≤ to + weight (double_item value)) }
        ensures spells { IfSome result (λ x. SpellsValue Self.bar Self.plain Self.stands_at cells.old to cells.new x stand Kind.Double (double_item value)) };

    /// A uuid whose bytes lie in a frame. `None`: the protocol can't hold it.
    fn uuid(cells: &mut [u8], to: usize, stand: Stand, frame: &[u8], begin: usize) -> Option<usize>
        requires room { to + WIDE ≤ length cells.old }
        requires bytes { begin + UUID ≤ length frame.now }
        ensures kept { length cells.new ≡ length cells.old }
        ensures short { IfSome result (λ x. x ≤ to + weight (uuid_item frame.now begin)) }
        ensures spells { IfSome result (λ x. SpellsValue Self.bar Self.plain Self.stands_at cells.old to cells.new x stand Kind.Uuid (uuid_item frame.now begin)) };

    /// A string that lies in a frame. `None`: the protocol can't hold it, or the quick way doesn't write it.
    fn text(
        cells: &mut [u8],
        to: usize,
        stand: Stand,
        hint: Hint,
        frame: &[u8],
        begin: usize,
        end: usize,
    ) -> Option<usize>
        requires room { to + (text_weight (end - begin) + WIDE) ≤ length cells.old }
        requires size { length frame.now < 2 ^ 31 }
        requires order { begin ≤ end }
        requires bytes { end ≤ length frame.now }
        ensures kept { length cells.new ≡ length cells.old }
        ensures short { IfSome result (λ x. x ≤ to + text_weight (end - begin)) }
        ensures spells { IfSome result (λ x. SpellsText Self.bar Self.plain Self.stands_at hinted hint cells.old to cells.new x stand (part frame.now begin end)) };

    /// The beginning of a struct. It may have no bytes.
    fn struct_begin(cells: &mut [u8], to: usize, stand: Stand) -> usize
        requires { to + WIDE ≤ length cells.old }
        ensures kept { length cells.new ≡ length cells.old }
        ensures short { result ≤ to + weight struct_begin }
        ensures spells { SpellsValue Self.bar Self.plain Self.stands_at cells.old to cells.new result stand Kind.Struct struct_begin };

    /// The beginning of a list or set. `None`: the protocol can't hold it.
    fn elements(
        cells: &mut [u8],
        to: usize,
        stand: Stand,
        container: Container,
        kind: Kind,
        size: u32,
    ) -> Option<usize>
        requires room { to + WIDE ≤ length cells.old }
        requires no_map { container ≡ Container.Map → ⊥ }
        ensures kept { length cells.new ≡ length cells.old }
        ensures short { IfSome result (λ x. x ≤ to + weight (elements_item container kind size)) }
        ensures spells { IfSome result (λ x. SpellsElements Self.bar Self.plain Self.stands_at cells.old to cells.new x stand container kind size) };

    /// The beginning of a map with pairs. `None`: the protocol can't hold it.
    fn pairs(
        cells: &mut [u8],
        to: usize,
        stand: Stand,
        key: Kind,
        value: Kind,
        size: u32,
    ) -> Option<usize>
        requires room { to + WIDE ≤ length cells.old }
        requires some { 0 < size }
        ensures kept { length cells.new ≡ length cells.old }
        ensures short { IfSome result (λ x. x ≤ to + weight (map_begin key value size)) }
        ensures spells { IfSome result (λ x. SpellsValue Self.bar Self.plain Self.stands_at cells.old to cells.new x stand Kind.Map (map_begin key value size)) };

    /// An empty map. Where writing depends on the position, `known` is what it says.
    fn no_pairs(cells: &mut [u8], to: usize, stand: Stand, known: Mark) -> usize
        requires { to + WIDE ≤ length cells.old }
        ensures kept { length cells.new ≡ length cells.old }
        ensures short { result ≤ to + weight empty_map }
        ensures spells { SpellsNoPairs Self.bar Self.plain Self.stands_at marked known cells.old to cells.new result stand };

    /// The end of a container. It may have no bytes.
    fn end(cells: &mut [u8], to: usize, container: Container) -> usize
        requires { to + WIDE ≤ length cells.old }
        ensures kept { length cells.new ≡ length cells.old }
        ensures short { result ≤ to + weight end }
        ensures spells { SpellsEnd Self.bar Self.plain Self.stands_at cells.old to cells.new result container };

    /// At the beginning the writer stands in the body.
    ghost starts_at: { Self.stands_at Self.begun Opening.Body (Fields (pos 0) ∷ []) };

    /// It goes on standing in the levels as items are written.
    ghost goes_on: { (t : Self) (opening : Opening) (nest : List Slot) (item : Item) (mark : Mark) → 0 < length nest
        → Self.stands_at t opening nest → Self.stands_at (Self.after t item mark) (opening_after item) (levels_after item nest) };
}
