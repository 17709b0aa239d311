//! A body that goes on in its own protocol: looked through, and kept as its bytes were copied, by a call for each struct and
//! container that stands in one.
//!
//! From the place on that the walk has reached, the cells are a copy of the frame, so one number is the place in both.
ghost use Rattle.std.specs.Prelude.{◌≡◌, ◌≤◌, length, drop, true, Some, IfSome};
ghost use Rattle.thrift_value.specs.declared.kind.Kind.{Kind};
ghost use Rattle.protocol_traits.specs.declared.forms.Container.{Container};
ghost use Rattle.protocol_traits.specs.declared.forms.Stand.{Stand};
ghost use Rattle.protocol_traits.specs.Forms.{IsPast, SpellsNoPairs, container_kind};
ghost use Rattle.kept_messages.specs.Kept.{KeptElements, KeptField, KeptFields, KeptLead, KeptPairs, KeptRun, KeptValue, Mirrors};

use crate::leaves::{keep_leaf, keep_leaf_field, keep_leaf_run};
use crate::pairs::{are_leaf_pairs, keep_leaf_pairs};
use kept_forms::FormKeep;
use protocol_traits::{Container, DEPTH, FormWrite, Lead, Mark, Opening, Pairs, Stand};
use thrift_value::Kind;
use translate_known::{Known, container_kind, mark_for, sequence_kind, sequence_of};
use type_tables::Schema;

/// Keeps the fields of an open struct of which this is known, to its end: answers the place behind it.
#[cycle(body)]
#[inline(always)]
pub fn keep_fields<R: FormKeep<W>, W: FormWrite, K: Known>(
    known: K,
    schema: &Schema,
    frame: &[u8],
    from: usize,
    cells: &mut [u8],
    opening: Opening,
    depth: usize,
) -> Option<usize>
    requires known { K.sound known schema.now }
    requires place { from ≤ length frame.now }
    requires mirrors { Mirrors cells.old from frame.now }
    requires shallow { depth ≤ DEPTH }
    ensures past { IfSome result (λ x. IsPast from frame.now x) }
    ensures mirrors { IfSome result (λ x. Mirrors cells.new x frame.now) }
    ensures keeps { KeptFields R.ReadRules W.WireWrite (K.means known) schema.now depth frame.now from opening cells.old cells.new result }
{
    let mut to = from;
    if walk_fields::<R, W, K>(known, schema, frame, from, cells, &mut to, opening, depth) {
        return Some(to);
    }
    None
}

/// The same by a call: answers whether all were kept, and moves `to` to the place behind. A bool costs each way out of the loop
/// less than an `Option` of a place.
#[cycle(body)]
fn walk_fields<R: FormKeep<W>, W: FormWrite, K: Known>(
    known: K,
    schema: &Schema,
    frame: &[u8],
    from: usize,
    cells: &mut [u8],
    to: &mut usize,
    opening: Opening,
    depth: usize,
) -> bool
    requires known { K.sound known schema.now }
    requires place { from ≤ length frame.now }
    requires mirrors { Mirrors cells.old from frame.now }
    requires shallow { depth ≤ DEPTH }
    ensures past { result ≡ true → IsPast from frame.now to.new }
    ensures mirrors { result ≡ true → Mirrors cells.new to.new frame.now }
    ensures keeps { result ≡ true → KeptFields R.ReadRules W.WireWrite (K.means known) schema.now depth frame.now from opening cells.old cells.new (Some to.new) }
{
    let mut last = 0;
    let mut opening = opening;
    let mut at = from;
    'fields: loop {
        let Some((lead, id, behind)) = R::keep_next(frame, at, opening, last) else {
            return false;
        };
        if let Lead::Stop = lead {
            *to = behind;
            return true;
        }
        if let Lead::Bad = lead {
            // A way out of its own: joined with the others, it would be a test a field more.
            *to = at;
            return false;
        }
        let Some(next) = keep_field::<R, W, K>(
            known, schema, frame, at, cells, opening, last, lead, id, behind, depth,
        ) else {
            return false;
        };
        at = next;
        last = id;
        opening = Opening::Old;
    }
}

/// Keeps a field whose lead is kept. The end of the struct is none.
#[cycle(body)]
#[inline(always)]
fn keep_field<R: FormKeep<W>, W: FormWrite, K: Known>(
    known: K,
    schema: &Schema,
    frame: &[u8],
    at: usize,
    cells: &mut [u8],
    opening: Opening,
    last: i16,
    lead: Lead,
    id: i16,
    behind: usize,
    depth: usize,
) -> Option<usize>
    requires known { K.sound known schema.now }
    requires place { IsPast at frame.now behind }
    requires lead { KeptLead R.ReadRules W.WireWrite frame.now at opening last lead id behind }
    requires mirrors { Mirrors cells.old at frame.now }
    requires shallow { depth ≤ DEPTH }
    ensures past { IfSome result (λ x. IsPast at frame.now x) }
    ensures mirrors { IfSome result (λ x. Mirrors cells.new x frame.now) }
    ensures keeps { KeptField R.ReadRules W.WireWrite (K.means known) schema.now depth frame.now at opening last lead id behind cells.old cells.new result }
{
    match lead {
        Lead::Struct | Lead::Map | Lead::Set | Lead::List => Some(keep_level_field::<R, W, K>(
            known, schema, frame, at, cells, opening, last, lead, id, behind, depth,
        )?),
        _ => Some(keep_leaf_field::<R, W>(frame, at, opening, last, lead, id, behind)?),
    }
}

/// Keeps a field whose value is a struct or container, where its lead is kept. Other leads are none.
#[cycle(body)]
#[inline(always)]
fn keep_level_field<R: FormKeep<W>, W: FormWrite, K: Known>(
    known: K,
    schema: &Schema,
    frame: &[u8],
    at: usize,
    cells: &mut [u8],
    opening: Opening,
    last: i16,
    lead: Lead,
    id: i16,
    behind: usize,
    depth: usize,
) -> Option<usize>
    requires known { K.sound known schema.now }
    requires place { IsPast at frame.now behind }
    requires lead { KeptLead R.ReadRules W.WireWrite frame.now at opening last lead id behind }
    requires mirrors { Mirrors cells.old at frame.now }
    requires shallow { depth ≤ DEPTH }
    ensures past { IfSome result (λ x. IsPast at frame.now x) }
    ensures mirrors { IfSome result (λ x. Mirrors cells.new x frame.now) }
    ensures keeps { KeptField R.ReadRules W.WireWrite (K.means known) schema.now depth frame.now at opening last lead id behind cells.old cells.new result }
{
    let stand = Stand::Field;
    match lead {
        Lead::Struct => {
            let next = known.field(schema, id, Kind::Struct);
            Some(keep_struct::<R, W, K>(next, schema, frame, behind, cells, stand, depth)?)
        }
        Lead::Map => {
            let next = known.field(schema, id, Kind::Map);
            Some(keep_map::<R, W, K>(next, schema, frame, behind, cells, stand, depth)?)
        }
        _ => {
            let container = sequence_of(lead)?;
            let next = known.field(schema, id, container_kind(container));
            Some(keep_list::<R, W, K>(next, schema, frame, behind, cells, stand, container, depth)?)
        }
    }
}

/// Keeps a value of which this is known, inside so many levels. A bool is no field's.
#[cycle(body)]
#[inline(always)]
fn keep_value<R: FormKeep<W>, W: FormWrite, K: Known>(
    known: K,
    schema: &Schema,
    frame: &[u8],
    at: usize,
    cells: &mut [u8],
    stand: Stand,
    kind: Kind,
    depth: usize,
) -> Option<usize>
    requires known { K.sound known schema.now }
    requires place { at ≤ length frame.now }
    requires mirrors { Mirrors cells.old at frame.now }
    requires shallow { depth ≤ DEPTH }
    requires apart { kind ≡ Kind.Bool → stand ≡ Stand.Field → ⊥ }
    ensures past { IfSome result (λ x. IsPast at frame.now x) }
    ensures mirrors { IfSome result (λ x. Mirrors cells.new x frame.now) }
    ensures keeps { KeptValue R.ReadRules W.WireWrite (K.means known) schema.now depth frame.now at stand kind cells.old cells.new result }
{
    match kind {
        Kind::Struct | Kind::Map | Kind::Set | Kind::List => {
            keep_inner::<R, W, K>(known, schema, frame, at, cells, stand, kind, depth)
        }
        _ => keep_leaf::<R, W>(frame, at, stand, kind),
    }
}

/// Keeps a struct or container that stands in a container. Other kinds are none.
#[cycle(body)]
#[inline(always)]
fn keep_inner<R: FormKeep<W>, W: FormWrite, K: Known>(
    known: K,
    schema: &Schema,
    frame: &[u8],
    at: usize,
    cells: &mut [u8],
    stand: Stand,
    kind: Kind,
    depth: usize,
) -> Option<usize>
    requires known { K.sound known schema.now }
    requires place { at ≤ length frame.now }
    requires mirrors { Mirrors cells.old at frame.now }
    requires shallow { depth ≤ DEPTH }
    ensures past { IfSome result (λ x. IsPast at frame.now x) }
    ensures mirrors { IfSome result (λ x. Mirrors cells.new x frame.now) }
    ensures keeps { KeptValue R.ReadRules W.WireWrite (K.means known) schema.now depth frame.now at stand kind cells.old cells.new result }
{
    match kind {
        Kind::Struct => keep_struct::<R, W, K>(known, schema, frame, at, cells, stand, depth),
        Kind::Map | Kind::Set | Kind::List => {
            call_level::<R, W, K>(known, schema, frame, at, cells, stand, kind, depth)
        }
        _ => None,
    }
}

/// Keeps a container by a call. Other kinds are none.
#[cycle(body)]
#[inline(never)]
fn call_level<R: FormKeep<W>, W: FormWrite, K: Known>(
    known: K,
    schema: &Schema,
    frame: &[u8],
    at: usize,
    cells: &mut [u8],
    stand: Stand,
    kind: Kind,
    depth: usize,
) -> Option<usize>
    requires known { K.sound known schema.now }
    requires place { at ≤ length frame.now }
    requires mirrors { Mirrors cells.old at frame.now }
    requires shallow { depth ≤ DEPTH }
    ensures past { IfSome result (λ x. IsPast at frame.now x) }
    ensures mirrors { IfSome result (λ x. Mirrors cells.new x frame.now) }
    ensures keeps { KeptValue R.ReadRules W.WireWrite (K.means known) schema.now depth frame.now at stand kind cells.old cells.new result }
{
    match kind {
        Kind::Map => keep_map::<R, W, K>(known, schema, frame, at, cells, stand, depth),
        _ => {
            let container = sequence_kind(kind)?;
            keep_list::<R, W, K>(known, schema, frame, at, cells, stand, container, depth)
        }
    }
}

/// Keeps a struct inside so many levels.
#[cycle(body)]
#[inline(always)]
fn keep_struct<R: FormKeep<W>, W: FormWrite, K: Known>(
    known: K,
    schema: &Schema,
    frame: &[u8],
    at: usize,
    cells: &mut [u8],
    stand: Stand,
    depth: usize,
) -> Option<usize>
    requires known { K.sound known schema.now }
    requires place { at ≤ length frame.now }
    requires mirrors { Mirrors cells.old at frame.now }
    requires shallow { depth ≤ DEPTH }
    ensures past { IfSome result (λ x. IsPast at frame.now x) }
    ensures mirrors { IfSome result (λ x. Mirrors cells.new x frame.now) }
    ensures keeps { KeptValue R.ReadRules W.WireWrite (K.means known) schema.now depth frame.now at stand Kind.Struct cells.old cells.new result }
{
    if depth >= DEPTH {
        return None;
    }
    let inside = R::keep_struct(frame, at, stand)?;
    keep_fields::<R, W, K>(known, schema, frame, inside, cells, Opening::New, depth + 1)
}

/// Keeps a list or set inside so many levels.
#[cycle(body)]
#[inline(always)]
fn keep_list<R: FormKeep<W>, W: FormWrite, K: Known>(
    known: K,
    schema: &Schema,
    frame: &[u8],
    at: usize,
    cells: &mut [u8],
    stand: Stand,
    container: Container,
    depth: usize,
) -> Option<usize>
    requires known { K.sound known schema.now }
    requires place { at ≤ length frame.now }
    requires mirrors { Mirrors cells.old at frame.now }
    requires shallow { depth ≤ DEPTH }
    requires no_map { container ≡ Container.Map → ⊥ }
    ensures past { IfSome result (λ x. IsPast at frame.now x) }
    ensures mirrors { IfSome result (λ x. Mirrors cells.new x frame.now) }
    ensures keeps { KeptValue R.ReadRules W.WireWrite (K.means known) schema.now depth frame.now at stand (container_kind container) cells.old cells.new result }
{
    if depth >= DEPTH {
        return None;
    }
    let (kind, size, inside) = R::keep_elements(frame, at, stand, container)?;
    let element = known.element(schema, container, kind);
    keep_elements::<R, W, K>(
        element,
        schema,
        frame,
        inside,
        cells,
        container,
        kind,
        size,
        depth + 1,
    )
}

/// Keeps the elements of an open list or set, of which this is known, to its end.
#[cycle(body)]
#[inline(always)]
fn keep_elements<R: FormKeep<W>, W: FormWrite, K: Known>(
    known: K,
    schema: &Schema,
    frame: &[u8],
    at: usize,
    cells: &mut [u8],
    container: Container,
    kind: Kind,
    size: u32,
    depth: usize,
) -> Option<usize>
    requires known { K.sound known schema.now }
    requires place { at ≤ length frame.now }
    requires mirrors { Mirrors cells.old at frame.now }
    requires shallow { depth ≤ DEPTH }
    requires no_map { container ≡ Container.Map → ⊥ }
    ensures place { IfSome result (λ x. (at ≤ x) × (x ≤ length frame.now)) }
    ensures mirrors { IfSome result (λ x. Mirrors cells.new x frame.now) }
    ensures keeps { KeptElements R.ReadRules W.WireWrite (K.means known) schema.now depth frame.now at kind size cells.old cells.new result }
{
    let behind = keep_run::<R, W, K>(known, schema, frame, at, cells, kind, size, depth)?;
    R::keep_end(frame, behind, container)
}

/// Keeps so many elements of a kind.
#[cycle(body)]
#[inline(always)]
fn keep_run<R: FormKeep<W>, W: FormWrite, K: Known>(
    known: K,
    schema: &Schema,
    frame: &[u8],
    at: usize,
    cells: &mut [u8],
    kind: Kind,
    size: u32,
    depth: usize,
) -> Option<usize>
    requires known { K.sound known schema.now }
    requires place { at ≤ length frame.now }
    requires mirrors { Mirrors cells.old at frame.now }
    requires shallow { depth ≤ DEPTH }
    ensures place { IfSome result (λ x. (at ≤ x) × (x ≤ length frame.now)) }
    ensures mirrors { IfSome result (λ x. Mirrors cells.new x frame.now) }
    ensures keeps { KeptRun R.ReadRules W.WireWrite (K.means known) schema.now depth frame.now at kind size cells.old cells.new result }
{
    match kind {
        Kind::Struct | Kind::Map | Kind::Set | Kind::List => {
            keep_levels::<R, W, K>(known, schema, frame, at, cells, kind, size, depth)
        }
        _ => keep_leaf_run::<R, W>(frame, at, kind, size),
    }
}

/// Keeps so many elements that are structs or containers. Other kinds are none.
#[cycle(body)]
#[inline(always)]
fn keep_levels<R: FormKeep<W>, W: FormWrite, K: Known>(
    known: K,
    schema: &Schema,
    frame: &[u8],
    from: usize,
    cells: &mut [u8],
    kind: Kind,
    size: u32,
    depth: usize,
) -> Option<usize>
    requires known { K.sound known schema.now }
    requires place { from ≤ length frame.now }
    requires mirrors { Mirrors cells.old from frame.now }
    requires shallow { depth ≤ DEPTH }
    ensures place { IfSome result (λ x. (from ≤ x) × (x ≤ length frame.now)) }
    ensures mirrors { IfSome result (λ x. Mirrors cells.new x frame.now) }
    ensures keeps { KeptRun R.ReadRules W.WireWrite (K.means known) schema.now depth frame.now from kind size cells.old cells.new result }
{
    let mut at = from;
    'elements: for i in 0..size {
        let stand = Stand::Element;
        at = keep_inner::<R, W, K>(known, schema, frame, at, cells, stand, kind, depth)?;
    }
    Some(at)
}

/// Keeps a map inside so many levels. The kinds of an empty one are laid as they are declared.
#[cycle(body)]
#[inline(always)]
fn keep_map<R: FormKeep<W>, W: FormWrite, K: Known>(
    known: K,
    schema: &Schema,
    frame: &[u8],
    at: usize,
    cells: &mut [u8],
    stand: Stand,
    depth: usize,
) -> Option<usize>
    requires known { K.sound known schema.now }
    requires place { at ≤ length frame.now }
    requires mirrors { Mirrors cells.old at frame.now }
    requires shallow { depth ≤ DEPTH }
    ensures past { IfSome result (λ x. IsPast at frame.now x) }
    ensures mirrors { IfSome result (λ x. Mirrors cells.new x frame.now) }
    ensures keeps { KeptValue R.ReadRules W.WireWrite (K.means known) schema.now depth frame.now at stand Kind.Map cells.old cells.new result }
{
    if depth >= DEPTH {
        return None;
    }
    let pairs = R::keep_pairs(frame, at, stand)?;
    if pairs.size == 0 {
        let mark = mark_for::<W, K>(known, schema)?;
        return renewed::<R, W>(cells, at, pairs.behind, stand, mark);
    }
    let key = known.key(schema, pairs.key, pairs.value);
    let value = known.value(schema, pairs.key, pairs.value);
    keep_pairs::<R, W, K>(key, value, schema, frame, cells, pairs, depth + 1)
}

/// Lays an empty map over cells between these places: answers the second of them.
#[inline(always)]
fn renewed<R: FormKeep<W>, W: FormWrite>(
    cells: &mut [u8],
    at: usize,
    behind: usize,
    stand: Stand,
    known: Mark,
) -> Option<usize>
    requires { IsPast at cells.old behind }
    ensures place { IfSome result (λ x. x ≡ behind) }
    ensures kept { length cells.new ≡ length cells.old }
    ensures rest { drop behind cells.new ≡ drop behind cells.old }
    ensures spells { IfSome result (λ x. SpellsNoPairs W.bar W.plain W.stands_at W.marked known cells.old at cells.new behind stand) }
{
    if R::renew_no_pairs(cells, at, behind, stand, known) {
        return Some(behind);
    }
    None
}

/// Keeps the pairs of an open map, of whose keys and values this is known, to its end. Those of most maps by their own loop, others by a call.
#[cycle(body)]
#[inline(always)]
fn keep_pairs<R: FormKeep<W>, W: FormWrite, K: Known>(
    key: K,
    value: K,
    schema: &Schema,
    frame: &[u8],
    cells: &mut [u8],
    pairs: Pairs,
    depth: usize,
) -> Option<usize>
    requires key { K.sound key schema.now }
    requires value { K.sound value schema.now }
    requires place { pairs.behind ≤ length frame.now }
    requires mirrors { Mirrors cells.old pairs.behind frame.now }
    requires shallow { depth ≤ DEPTH }
    ensures place { IfSome result (λ x. (pairs.behind ≤ x) × (x ≤ length frame.now)) }
    ensures mirrors { IfSome result (λ x. Mirrors cells.new x frame.now) }
    ensures keeps { KeptPairs R.ReadRules W.WireWrite (K.means key) (K.means value) schema.now depth frame.now pairs cells.old cells.new result }
{
    if are_leaf_pairs(pairs.key, pairs.value) {
        return Some(keep_leaf_pairs::<R, W>(frame, pairs)?);
    }
    call_pairs::<R, W, K>(key, value, schema, frame, cells, pairs, depth)
}

/// The same pair by pair, whatever their kinds.
#[cycle(body)]
#[inline(never)]
fn call_pairs<R: FormKeep<W>, W: FormWrite, K: Known>(
    key: K,
    value: K,
    schema: &Schema,
    frame: &[u8],
    cells: &mut [u8],
    pairs: Pairs,
    depth: usize,
) -> Option<usize>
    requires key { K.sound key schema.now }
    requires value { K.sound value schema.now }
    requires place { pairs.behind ≤ length frame.now }
    requires mirrors { Mirrors cells.old pairs.behind frame.now }
    requires shallow { depth ≤ DEPTH }
    ensures place { IfSome result (λ x. (pairs.behind ≤ x) × (x ≤ length frame.now)) }
    ensures mirrors { IfSome result (λ x. Mirrors cells.new x frame.now) }
    ensures keeps { KeptPairs R.ReadRules W.WireWrite (K.means key) (K.means value) schema.now depth frame.now pairs cells.old cells.new result }
{
    let mut stand = Stand::FirstKey;
    let mut at = pairs.behind;
    'pairs: for i in 0..pairs.size {
        let turn = keep_value::<R, W, K>(key, schema, frame, at, cells, stand, pairs.key, depth)?;
        let stand_behind = Stand::Value;
        at = keep_value::<R, W, K>(
            value,
            schema,
            frame,
            turn,
            cells,
            stand_behind,
            pairs.value,
            depth,
        )?;
        stand = Stand::Key;
    }
    R::keep_end(frame, at, Container::Map)
}
