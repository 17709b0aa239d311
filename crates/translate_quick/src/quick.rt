//! The quick way through a body: its fields, elements and pairs from the frame into cells, by a call for each struct and
//! container.
ghost use Rattle.std.specs.Prelude.{◌≡◌, ◌+◌, ◌≤◌, ◌<◌, ◌^◌, length, Some, IfSome};
ghost use Rattle.thrift_value.specs.declared.kind.Kind.{Kind};
ghost use Rattle.thrift_value.specs.Items.{field};
ghost use Rattle.protocol_traits.specs.declared.forms.Container.{Container};
ghost use Rattle.protocol_traits.specs.declared.forms.Lead.{Lead};
ghost use Rattle.protocol_traits.specs.declared.forms.Stand.{Stand};
ghost use Rattle.protocol_traits.specs.Forms.{IsPast, container_kind};
ghost use Rattle.translate_quick.specs.Levels.{FoundList};
ghost use Rattle.translate_known.specs.Quick.{Grows, HasRoom, Informs, TookElements, TookField, TookFields, TookLead, TookMap, TookPairs, TookRun, TookValue, reached};

use crate::fields::{BEFORE_FIELD, is_hinted, take_plain_field};
use crate::leaves::{
    AROUND, BoolLeaf, DoubleLeaf, I8Leaf, I16Leaf, I32Leaf, I64Leaf, UuidLeaf, take_leaf,
    take_short_text,
};
use crate::lists::{take_leaf_list, take_text_list};
use crate::pairs::{call_text_map, take_text_map};
use crate::runs::take_rare_leaves;
use protocol_traits::{Container, DEPTH, FormRead, FormWrite, Lead, Opening, Pairs, Stand};
use thrift_value::Kind;
use translate_known::{Known, Reach, container_kind, mark_for, sequence_kind, sequence_of};
use type_tables::Schema;

/// The most cells that the end of a container takes.
pub const END: usize = 2;

/// What the end of a struct leaves of the cells for its last byte.
const BEHIND_STOP: usize = 8;

/// Takes the fields of an open struct of which this is known, to its end: answers the place behind it in the frame, and
/// moves `into` to the one in the cells. Two words and a place to write to go in registers; `Reach`, with what says
/// that there is one, would go through memory.
#[cycle(body)]
pub fn take_fields<R: FormRead, W: FormWrite, K: Known>(
    known: K,
    schema: &Schema,
    frame: &[u8],
    from: usize,
    cells: &mut [u8],
    into: &mut usize,
    opening: Opening,
    depth: usize,
) -> Option<usize>
    requires known { K.sound known schema.now }
    requires informed { Informs K.tells R.hinted W.hinted }
    requires size { length frame.now < 2 ^ 31 }
    requires place { from ≤ length frame.now }
    requires room { HasRoom BEFORE_FIELD frame.now from cells.old into.old }
    requires shallow { depth ≤ DEPTH }
    ensures kept { length cells.new ≡ length cells.old }
    ensures past { IfSome result (λ read. IsPast from frame.now read) }
    ensures grows { IfSome result (λ read. Grows from into.old read (into.new + BEHIND_STOP)) }
    ensures takes { TookFields R.ReadRules W.WireWrite (K.means known) schema.now depth frame.now from opening cells.old into.old cells.new result into.new }
{
    let mut last = 0;
    let mut opening = opening;
    let mut at = from;
    let mut to = *into;
    // Each arm calls its own function and goes round the loop by itself: a function of all of them would be too long to stand in line.
    'fields: loop {
        let (lead, id, behind) = R::next_field(frame, at, opening, last)?;
        match lead {
            Lead::Stop => {
                let written = W::stop(cells, to, opening, depth);
                *into = written;
                return Some(behind);
            }
            Lead::Bad => {
                // A way out of its own: joined with the one above, it would be a test a field more.
                *into = to;
                return None;
            }
            Lead::Struct => {
                let reach = take_struct_field::<R, W, K>(
                    known, schema, frame, at, cells, to, opening, last, id, behind, depth,
                )?;
                at = reach.read;
                to = reach.written;
                last = id;
                opening = Opening::Old;
                continue 'fields;
            }
            Lead::Map => {
                let reach = take_map_field::<R, W, K>(
                    known, schema, frame, at, cells, to, opening, last, id, behind, depth,
                )?;
                at = reach.read;
                to = reach.written;
                last = id;
                opening = Opening::Old;
                continue 'fields;
            }
            Lead::Set | Lead::List => {
                let reach = take_list_field::<R, W, K>(
                    known, schema, frame, at, cells, to, opening, last, lead, id, behind, depth,
                )?;
                at = reach.read;
                to = reach.written;
                last = id;
                opening = Opening::Old;
                continue 'fields;
            }
            _ => {
                let reach = take_plain_field::<R, W, K>(
                    known, schema, frame, at, cells, to, opening, last, lead, id, behind,
                )?;
                at = reach.read;
                to = reach.written;
                last = id;
                opening = Opening::Old;
                continue 'fields;
            }
        }
    }
}

/// Takes a field whose value is a struct.
#[cycle(body)]
#[inline(always)]
fn take_struct_field<R: FormRead, W: FormWrite, K: Known>(
    known: K,
    schema: &Schema,
    frame: &[u8],
    at: usize,
    cells: &mut [u8],
    to: usize,
    opening: Opening,
    last: i16,
    id: i16,
    behind: usize,
    depth: usize,
) -> Option<Reach>
    requires known { K.sound known schema.now }
    requires informed { Informs K.tells R.hinted W.hinted }
    requires size { length frame.now < 2 ^ 31 }
    requires place { IsPast at frame.now behind }
    requires room { HasRoom BEFORE_FIELD frame.now at cells.old to }
    requires shallow { depth ≤ DEPTH }
    ensures kept { length cells.new ≡ length cells.old }
    ensures past { IfSome result (λ x. IsPast at frame.now x.read) }
    ensures grows { IfSome result (λ x. Grows at to x.read x.written) }
    ensures takes { TookField R.ReadRules W.WireWrite (K.means known) schema.now depth frame.now at opening last Kind.Struct id behind cells.old to cells.new result }
{
    let next = known.field(schema, id, Kind::Struct);
    let value = W::field(cells, to, opening, last, id, Kind::Struct);
    let stand = Stand::Field;
    take_struct::<R, W, K>(next, schema, frame, behind, cells, value, stand, depth)
}

/// Takes a field whose value is a map.
#[cycle(body)]
#[inline(always)]
fn take_map_field<R: FormRead, W: FormWrite, K: Known>(
    known: K,
    schema: &Schema,
    frame: &[u8],
    at: usize,
    cells: &mut [u8],
    to: usize,
    opening: Opening,
    last: i16,
    id: i16,
    behind: usize,
    depth: usize,
) -> Option<Reach>
    requires known { K.sound known schema.now }
    requires informed { Informs K.tells R.hinted W.hinted }
    requires size { length frame.now < 2 ^ 31 }
    requires place { IsPast at frame.now behind }
    requires room { HasRoom BEFORE_FIELD frame.now at cells.old to }
    requires shallow { depth ≤ DEPTH }
    ensures kept { length cells.new ≡ length cells.old }
    ensures past { IfSome result (λ x. IsPast at frame.now x.read) }
    ensures grows { IfSome result (λ x. Grows at to x.read x.written) }
    ensures takes { TookField R.ReadRules W.WireWrite (K.means known) schema.now depth frame.now at opening last Kind.Map id behind cells.old to cells.new result }
{
    let next = known.field(schema, id, Kind::Map);
    let value = W::field(cells, to, opening, last, id, Kind::Map);
    let mut written = value;
    let stand = Stand::Field;
    let read = take_map::<R, W, K>(
        next,
        schema,
        frame,
        behind,
        cells,
        &mut written,
        stand,
        depth,
    )?;
    Some(Reach { read, written })
}

/// Takes a field whose value is a list or set. Other leads are none.
#[cycle(body)]
#[inline(always)]
fn take_list_field<R: FormRead, W: FormWrite, K: Known>(
    known: K,
    schema: &Schema,
    frame: &[u8],
    at: usize,
    cells: &mut [u8],
    to: usize,
    opening: Opening,
    last: i16,
    lead: Lead,
    id: i16,
    behind: usize,
    depth: usize,
) -> Option<Reach>
    requires known { K.sound known schema.now }
    requires informed { Informs K.tells R.hinted W.hinted }
    requires size { length frame.now < 2 ^ 31 }
    requires place { IsPast at frame.now behind }
    requires room { HasRoom BEFORE_FIELD frame.now at cells.old to }
    requires shallow { depth ≤ DEPTH }
    ensures kept { length cells.new ≡ length cells.old }
    ensures past { IfSome result (λ x. IsPast at frame.now x.read) }
    ensures grows { IfSome result (λ x. Grows at to x.read x.written) }
    ensures takes { TookLead R.ReadRules W.WireWrite (K.means known) schema.now depth frame.now at opening last lead id behind cells.old to cells.new result }
{
    let container = sequence_of(lead)?;
    let kind = container_kind(container);
    let next = known.field(schema, id, kind);
    let value = W::field(cells, to, opening, last, id, kind);
    let stand = Stand::Field;
    take_list::<R, W, K>(
        next, schema, frame, behind, cells, value, stand, container, depth,
    )
}

/// Takes a struct or container of which this is known, inside so many levels. Other kinds are none.
#[cycle(body)]
#[inline(always)]
fn take_level<R: FormRead, W: FormWrite, K: Known>(
    known: K,
    schema: &Schema,
    frame: &[u8],
    at: usize,
    cells: &mut [u8],
    to: usize,
    stand: Stand,
    kind: Kind,
    depth: usize,
) -> Option<Reach>
    requires known { K.sound known schema.now }
    requires informed { Informs K.tells R.hinted W.hinted }
    requires size { length frame.now < 2 ^ 31 }
    requires place { at ≤ length frame.now }
    requires room { HasRoom AROUND frame.now at cells.old to }
    requires shallow { depth ≤ DEPTH }
    ensures kept { length cells.new ≡ length cells.old }
    ensures past { IfSome result (λ x. IsPast at frame.now x.read) }
    ensures grows { IfSome result (λ x. Grows at to x.read x.written) }
    ensures takes { TookValue R.ReadRules W.WireWrite (K.means known) schema.now depth frame.now at stand kind cells.old to cells.new result }
{
    match kind {
        Kind::Struct => take_struct::<R, W, K>(known, schema, frame, at, cells, to, stand, depth),
        Kind::Map => {
            let mut written = to;
            let read = take_map::<R, W, K>(
                known,
                schema,
                frame,
                at,
                cells,
                &mut written,
                stand,
                depth,
            )?;
            Some(Reach { read, written })
        }
        _ => {
            let container = sequence_kind(kind)?;
            take_list::<R, W, K>(known, schema, frame, at, cells, to, stand, container, depth)
        }
    }
}

/// The same by a call, for what stands in a container: answers the place behind it in the frame, and moves `to`.
#[cycle(body)]
#[inline(never)]
fn call_level<R: FormRead, W: FormWrite, K: Known>(
    known: K,
    schema: &Schema,
    frame: &[u8],
    at: usize,
    cells: &mut [u8],
    to: &mut usize,
    stand: Stand,
    kind: Kind,
    depth: usize,
) -> Option<usize>
    requires known { K.sound known schema.now }
    requires informed { Informs K.tells R.hinted W.hinted }
    requires size { length frame.now < 2 ^ 31 }
    requires place { at ≤ length frame.now }
    requires room { HasRoom AROUND frame.now at cells.old to.old }
    requires shallow { depth ≤ DEPTH }
    ensures kept { length cells.new ≡ length cells.old }
    ensures past { IfSome result (λ read. IsPast at frame.now read) }
    ensures grows { IfSome result (λ read. Grows at to.old read to.new) }
    ensures takes { TookValue R.ReadRules W.WireWrite (K.means known) schema.now depth frame.now at stand kind cells.old to.old cells.new (reached result to.new) }
{
    let reach = take_level::<R, W, K>(known, schema, frame, at, cells, *to, stand, kind, depth)?;
    *to = reach.written;
    Some(reach.read)
}

/// Takes a value of which this is known, inside so many levels. A bool is no field's.
#[cycle(body)]
#[inline(always)]
fn take_value<R: FormRead, W: FormWrite, K: Known>(
    known: K,
    schema: &Schema,
    frame: &[u8],
    at: usize,
    cells: &mut [u8],
    to: usize,
    stand: Stand,
    kind: Kind,
    depth: usize,
) -> Option<Reach>
    requires known { K.sound known schema.now }
    requires informed { Informs K.tells R.hinted W.hinted }
    requires size { length frame.now < 2 ^ 31 }
    requires place { at ≤ length frame.now }
    requires room { HasRoom AROUND frame.now at cells.old to }
    requires apart { kind ≡ Kind.Bool → stand ≡ Stand.Field → ⊥ }
    requires shallow { depth ≤ DEPTH }
    ensures kept { length cells.new ≡ length cells.old }
    ensures past { IfSome result (λ x. IsPast at frame.now x.read) }
    ensures grows { IfSome result (λ x. Grows at to x.read x.written) }
    ensures takes { TookValue R.ReadRules W.WireWrite (K.means known) schema.now depth frame.now at stand kind cells.old to cells.new result }
{
    match kind {
        Kind::Str => take_short_text::<R, W>(frame, at, cells, to, stand, known.hint()),
        Kind::Struct | Kind::Map | Kind::Set | Kind::List => take_inner::<R, W, K>(
            known, schema, frame, at, cells, to, stand, kind, depth,
        ),
        _ => take_leaf::<R, W>(frame, at, cells, to, stand, kind),
    }
}

/// Takes a struct or container that stands in a container. Other kinds are none.
#[cycle(body)]
#[inline(always)]
fn take_inner<R: FormRead, W: FormWrite, K: Known>(
    known: K,
    schema: &Schema,
    frame: &[u8],
    at: usize,
    cells: &mut [u8],
    to: usize,
    stand: Stand,
    kind: Kind,
    depth: usize,
) -> Option<Reach>
    requires known { K.sound known schema.now }
    requires informed { Informs K.tells R.hinted W.hinted }
    requires size { length frame.now < 2 ^ 31 }
    requires place { at ≤ length frame.now }
    requires room { HasRoom AROUND frame.now at cells.old to }
    requires shallow { depth ≤ DEPTH }
    ensures kept { length cells.new ≡ length cells.old }
    ensures past { IfSome result (λ x. IsPast at frame.now x.read) }
    ensures grows { IfSome result (λ x. Grows at to x.read x.written) }
    ensures takes { TookValue R.ReadRules W.WireWrite (K.means known) schema.now depth frame.now at stand kind cells.old to cells.new result }
{
    match kind {
        Kind::Struct => take_struct::<R, W, K>(known, schema, frame, at, cells, to, stand, depth),
        Kind::Map | Kind::Set | Kind::List => {
            let mut written = to;
            let read = call_level::<R, W, K>(
                known,
                schema,
                frame,
                at,
                cells,
                &mut written,
                stand,
                kind,
                depth,
            )?;
            Some(Reach { read, written })
        }
        _ => None,
    }
}

/// Takes a struct inside so many levels.
#[cycle(body)]
#[inline(always)]
fn take_struct<R: FormRead, W: FormWrite, K: Known>(
    known: K,
    schema: &Schema,
    frame: &[u8],
    at: usize,
    cells: &mut [u8],
    to: usize,
    stand: Stand,
    depth: usize,
) -> Option<Reach>
    requires known { K.sound known schema.now }
    requires informed { Informs K.tells R.hinted W.hinted }
    requires size { length frame.now < 2 ^ 31 }
    requires place { at ≤ length frame.now }
    requires room { HasRoom AROUND frame.now at cells.old to }
    requires shallow { depth ≤ DEPTH }
    ensures kept { length cells.new ≡ length cells.old }
    ensures past { IfSome result (λ x. IsPast at frame.now x.read) }
    ensures grows { IfSome result (λ x. Grows at to x.read x.written) }
    ensures takes { TookValue R.ReadRules W.WireWrite (K.means known) schema.now depth frame.now at stand Kind.Struct cells.old to cells.new result }
{
    if depth >= DEPTH {
        return None;
    }
    let inside = R::struct_begin(frame, at, stand)?;
    let mut written = W::struct_begin(cells, to, stand);
    let read = take_fields::<R, W, K>(
        known,
        schema,
        frame,
        inside,
        cells,
        &mut written,
        Opening::New,
        depth + 1,
    )?;
    Some(Reach { read, written })
}

/// Takes a list or set inside so many levels.
#[cycle(body)]
#[inline(always)]
fn take_list<R: FormRead, W: FormWrite, K: Known>(
    known: K,
    schema: &Schema,
    frame: &[u8],
    at: usize,
    cells: &mut [u8],
    to: usize,
    stand: Stand,
    container: Container,
    depth: usize,
) -> Option<Reach>
    requires known { K.sound known schema.now }
    requires informed { Informs K.tells R.hinted W.hinted }
    requires size { length frame.now < 2 ^ 31 }
    requires place { at ≤ length frame.now }
    requires room { HasRoom AROUND frame.now at cells.old to }
    requires no_map { container ≡ Container.Map → ⊥ }
    requires shallow { depth ≤ DEPTH }
    ensures kept { length cells.new ≡ length cells.old }
    ensures past { IfSome result (λ x. IsPast at frame.now x.read) }
    ensures grows { IfSome result (λ x. Grows at to x.read x.written) }
    ensures takes { TookValue R.ReadRules W.WireWrite (K.means known) schema.now depth frame.now at stand (container_kind container) cells.old to cells.new result }
{
    if depth >= DEPTH {
        return None;
    }
    let (kind, size, read) = R::elements(frame, at, stand, container)?;
    // Each arm writes a kind that is known when the code is built.
    match kind {
        Kind::I32 => Some(take_leaf_list::<R, W, I32Leaf>(
            frame, at, read, cells, to, stand, container, size,
        )?),
        Kind::Str => Some(take_text_list::<R, W, K>(
            known, schema, frame, at, read, cells, to, stand, container, size,
        )?),
        _ => Some(take_other_list::<R, W, K>(
            known, schema, frame, at, read, cells, to, stand, container, kind, size, depth,
        )?),
    }
}

/// Takes a list or set of other kinds that was read to its elements, inside so many levels.
#[cycle(body)]
#[inline(always)]
fn take_other_list<R: FormRead, W: FormWrite, K: Known>(
    known: K,
    schema: &Schema,
    frame: &[u8],
    at: usize,
    behind: usize,
    cells: &mut [u8],
    to: usize,
    stand: Stand,
    container: Container,
    kind: Kind,
    size: u32,
    depth: usize,
) -> Option<Reach>
    requires known { K.sound known schema.now }
    requires informed { Informs K.tells R.hinted W.hinted }
    requires size { length frame.now < 2 ^ 31 }
    requires place { IsPast at frame.now behind }
    requires found { FoundList R.ReadRules frame.now at stand container kind size behind }
    requires room { HasRoom AROUND frame.now at cells.old to }
    requires no_map { container ≡ Container.Map → ⊥ }
    requires shallow { depth < DEPTH }
    ensures kept { length cells.new ≡ length cells.old }
    ensures past { IfSome result (λ x. IsPast at frame.now x.read) }
    ensures grows { IfSome result (λ x. Grows at to x.read x.written) }
    ensures takes { TookValue R.ReadRules W.WireWrite (K.means known) schema.now depth frame.now at stand (container_kind container) cells.old to cells.new result }
{
    let written = W::elements(cells, to, stand, container, kind, size)?;
    let element = known.element(schema, container, kind);
    take_elements::<R, W, K>(
        element,
        schema,
        frame,
        behind,
        cells,
        written,
        container,
        kind,
        size,
        depth + 1,
    )
}

/// Takes the elements of an open list or set, of which this is known, to its end.
#[cycle(body)]
#[inline(always)]
fn take_elements<R: FormRead, W: FormWrite, K: Known>(
    known: K,
    schema: &Schema,
    frame: &[u8],
    from: usize,
    cells: &mut [u8],
    into: usize,
    container: Container,
    kind: Kind,
    size: u32,
    depth: usize,
) -> Option<Reach>
    requires known { K.sound known schema.now }
    requires informed { Informs K.tells R.hinted W.hinted }
    requires size { length frame.now < 2 ^ 31 }
    requires place { from ≤ length frame.now }
    requires room { HasRoom AROUND frame.now from cells.old into }
    requires no_map { container ≡ Container.Map → ⊥ }
    requires shallow { depth ≤ DEPTH }
    ensures kept { length cells.new ≡ length cells.old }
    ensures place { IfSome result (λ x. (from ≤ x.read) × (x.read ≤ length frame.now)) }
    ensures grows { IfSome result (λ x. Grows from (into + END) x.read x.written) }
    ensures takes { TookElements R.ReadRules W.WireWrite (K.means known) schema.now depth frame.now from kind size cells.old into cells.new result }
{
    let reach = take_run::<R, W, K>(known, schema, frame, from, cells, into, kind, size, depth)?;
    let read = R::end(frame, reach.read, container)?;
    let written = W::end(cells, reach.written, container);
    Some(Reach { read, written })
}

/// Takes so many elements of a kind. Which kind it is is asked once, for it is a constant in each loop. Those that have lists of their own
/// are none.
#[cycle(body)]
#[inline(always)]
fn take_run<R: FormRead, W: FormWrite, K: Known>(
    known: K,
    schema: &Schema,
    frame: &[u8],
    at: usize,
    cells: &mut [u8],
    to: usize,
    kind: Kind,
    size: u32,
    depth: usize,
) -> Option<Reach>
    requires known { K.sound known schema.now }
    requires informed { Informs K.tells R.hinted W.hinted }
    requires size { length frame.now < 2 ^ 31 }
    requires place { at ≤ length frame.now }
    requires room { HasRoom AROUND frame.now at cells.old to }
    requires shallow { depth ≤ DEPTH }
    ensures kept { length cells.new ≡ length cells.old }
    ensures place { IfSome result (λ x. (at ≤ x.read) × (x.read ≤ length frame.now)) }
    ensures grows { IfSome result (λ x. Grows at to x.read x.written) }
    ensures takes { TookRun R.ReadRules W.WireWrite (K.means known) schema.now depth frame.now at kind size cells.old to cells.new result }
{
    match kind {
        Kind::Bool => take_rare_leaves::<R, W, BoolLeaf>(frame, at, cells, to, size),
        Kind::I8 => take_rare_leaves::<R, W, I8Leaf>(frame, at, cells, to, size),
        Kind::I16 => take_rare_leaves::<R, W, I16Leaf>(frame, at, cells, to, size),
        Kind::Double => take_rare_leaves::<R, W, DoubleLeaf>(frame, at, cells, to, size),
        Kind::Uuid => take_rare_leaves::<R, W, UuidLeaf>(frame, at, cells, to, size),
        Kind::I64 => take_rare_leaves::<R, W, I64Leaf>(frame, at, cells, to, size),
        Kind::I32 | Kind::Str => None,
        Kind::Struct | Kind::Map | Kind::Set | Kind::List => take_levels::<R, W, K>(
            known, schema, frame, at, cells, to, kind, size, depth,
        ),
    }
}

/// Takes so many elements that are structs or containers, by a call: most lists are of others. Other kinds are none.
#[cycle(body)]
#[inline(never)]
fn take_levels<R: FormRead, W: FormWrite, K: Known>(
    known: K,
    schema: &Schema,
    frame: &[u8],
    from: usize,
    cells: &mut [u8],
    into: usize,
    kind: Kind,
    size: u32,
    depth: usize,
) -> Option<Reach>
    requires known { K.sound known schema.now }
    requires informed { Informs K.tells R.hinted W.hinted }
    requires size { length frame.now < 2 ^ 31 }
    requires place { from ≤ length frame.now }
    requires room { HasRoom AROUND frame.now from cells.old into }
    requires shallow { depth ≤ DEPTH }
    ensures kept { length cells.new ≡ length cells.old }
    ensures place { IfSome result (λ x. (from ≤ x.read) × (x.read ≤ length frame.now)) }
    ensures grows { IfSome result (λ x. Grows from into x.read x.written) }
    ensures takes { TookRun R.ReadRules W.WireWrite (K.means known) schema.now depth frame.now from kind size cells.old into cells.new result }
{
    let mut at = from;
    let mut to = into;
    'elements: for i in 0..size {
        let reach = take_inner::<R, W, K>(
            known,
            schema,
            frame,
            at,
            cells,
            to,
            Stand::Element,
            kind,
            depth,
        )?;
        at = reach.read;
        to = reach.written;
    }
    Some(Reach {
        read: at,
        written: to,
    })
}

/// Takes a map inside so many levels: answers the place behind it in the frame, and moves `to` to the one in the cells. Most maps have a
/// loop of their own, where nothing asks for a hint.
#[cycle(body)]
#[inline(always)]
fn take_map<R: FormRead, W: FormWrite, K: Known>(
    known: K,
    schema: &Schema,
    frame: &[u8],
    at: usize,
    cells: &mut [u8],
    to: &mut usize,
    stand: Stand,
    depth: usize,
) -> Option<usize>
    requires known { K.sound known schema.now }
    requires informed { Informs K.tells R.hinted W.hinted }
    requires size { length frame.now < 2 ^ 31 }
    requires place { at ≤ length frame.now }
    requires room { HasRoom AROUND frame.now at cells.old to.old }
    requires shallow { depth ≤ DEPTH }
    ensures kept { length cells.new ≡ length cells.old }
    ensures past { IfSome result (λ read. IsPast at frame.now read) }
    ensures grows { IfSome result (λ read. Grows at to.old read to.new) }
    ensures takes { TookMap R.ReadRules W.WireWrite (K.means known) schema.now depth frame.now at stand cells.old to.old cells.new result to.new }
{
    if depth >= DEPTH {
        return None;
    }
    let pairs = R::pairs(frame, at, stand)?;
    if pairs.size == 0 {
        let mark = mark_for::<W, K>(known, schema)?;
        let written = W::no_pairs(cells, *to, stand, mark);
        *to = written;
        return Some(pairs.behind);
    }
    if !is_hinted::<R, W>() {
        if let Kind::Str = pairs.key {
            match pairs.value {
                Kind::Bool => return take_text_map::<R, W, BoolLeaf>(
                    frame, at, cells, to, stand, pairs,
                ),
                Kind::I32 => return call_text_map::<R, W, I32Leaf>(
                    frame, at, cells, to, stand, pairs,
                ),
                Kind::I64 => return call_text_map::<R, W, I64Leaf>(
                    frame, at, cells, to, stand, pairs,
                ),
                _ => {}
            }
        }
    }
    let written = W::pairs(cells, *to, stand, pairs.key, pairs.value, pairs.size)?;
    let key = known.key(schema, pairs.key, pairs.value);
    let value = known.value(schema, pairs.key, pairs.value);
    let reach = take_pairs::<R, W, K>(key, value, schema, frame, cells, written, pairs, depth + 1)?;
    *to = reach.written;
    Some(reach.read)
}

/// Takes the pairs of an open map, of whose keys and values this is known, to its end. It is a call but where `take_map` does nothing else.
#[cycle(body)]
fn take_pairs<R: FormRead, W: FormWrite, K: Known>(
    key: K,
    value: K,
    schema: &Schema,
    frame: &[u8],
    cells: &mut [u8],
    into: usize,
    pairs: Pairs,
    depth: usize,
) -> Option<Reach>
    requires key { K.sound key schema.now }
    requires value { K.sound value schema.now }
    requires informed { Informs K.tells R.hinted W.hinted }
    requires size { length frame.now < 2 ^ 31 }
    requires place { pairs.behind ≤ length frame.now }
    requires room { HasRoom AROUND frame.now pairs.behind cells.old into }
    requires shallow { depth ≤ DEPTH }
    ensures kept { length cells.new ≡ length cells.old }
    ensures place { IfSome result (λ x. (pairs.behind ≤ x.read) × (x.read ≤ length frame.now)) }
    ensures grows { IfSome result (λ x. Grows pairs.behind (into + END) x.read x.written) }
    ensures takes { TookPairs R.ReadRules W.WireWrite (K.means key) (K.means value) schema.now depth frame.now pairs cells.old into cells.new result }
{
    let mut stand = Stand::FirstKey;
    let mut at = pairs.behind;
    let mut to = into;
    'pairs: for i in 0..pairs.size {
        let before = take_value::<R, W, K>(
            key, schema, frame, at, cells, to, stand, pairs.key, depth,
        )?;
        let behind = take_value::<R, W, K>(
            value,
            schema,
            frame,
            before.read,
            cells,
            before.written,
            Stand::Value,
            pairs.value,
            depth,
        )?;
        at = behind.read;
        to = behind.written;
        stand = Stand::Key;
    }
    let read = R::end(frame, at, Container::Map)?;
    let written = W::end(cells, to, Container::Map);
    Some(Reach { read, written })
}
