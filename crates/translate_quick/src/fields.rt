//! Fields whose values are no levels: what announces a value, and the value.
ghost use Rattle.std.specs.Prelude.{◌≡◌, ◌<◌, ◌^◌, length, true, false, Some, IfSome};
ghost use Rattle.thrift_value.specs.declared.kind.Kind.{Kind};
ghost use Rattle.thrift_value.specs.Items.{field};
ghost use Rattle.protocol_traits.specs.declared.forms.Container.{Container};
ghost use Rattle.protocol_traits.specs.declared.forms.Lead.{Lead};
ghost use Rattle.protocol_traits.specs.Forms.{IsPast};
ghost use Rattle.type_tables.specs.declared.declared.Ty.{Ty};
ghost use Rattle.type_walk.specs.Positions.{field_type, hint_at, in_struct};
ghost use Rattle.translate_known.specs.Quick.{Grows, HasRoom, Informs, TookLeafField, TookPlainField, TookTextField};

use crate::leaves::{DoubleLeaf, I8Leaf, I16Leaf, I32Leaf, I64Leaf, Leaf, UuidLeaf, take_text};
use protocol_traits::{Container, FormRead, FormWrite, Hint, Lead, Opening, Stand};
use thrift_value::Kind;
use translate_known::{Known, Reach};
use type_tables::Schema;

/// How many cells are left behind those for what is left of the frame, before a field. The beginning of a struct has taken
/// some of those before a value.
pub const BEFORE_FIELD: usize = 122;

/// Takes a field whose value is no level, as its lead tells. Other leads are none. Each arm asks whether it took its field: asked once
/// behind the match, it would be a test a field that the compiler doesn't lead the arms past.
#[inline(always)]
pub fn take_plain_field<R: FormRead, W: FormWrite, K: Known>(
    known: K,
    schema: &Schema,
    frame: &[u8],
    at: usize,
    cells: &mut [u8],
    to: usize,
    opening: Opening,
    last: i16,
    lead: Lead,
    id: i16,
    behind: usize,
) -> Option<Reach>
    requires known { K.sound known schema.now }
    requires informed { Informs K.tells R.hinted W.hinted }
    requires size { length frame.now < 2 ^ 31 }
    requires place { IsPast at frame.now behind }
    requires room { HasRoom BEFORE_FIELD frame.now at cells.old to }
    ensures kept { length cells.new ≡ length cells.old }
    ensures past { IfSome result (λ x. IsPast at frame.now x.read) }
    ensures grows { IfSome result (λ x. Grows at to x.read x.written) }
    ensures takes { TookPlainField R.ReadRules W.WireWrite (K.means known) schema.now frame.now at opening last lead id behind cells.old to cells.new result }
{
    match lead {
        Lead::Bool => Some(take_flag::<R, W>(frame, at, cells, to, opening, last, id, behind)?),
        Lead::I8 => Some(take_leaf_field::<R, W, I8Leaf>(
            frame, at, cells, to, opening, last, id, behind,
        )?),
        Lead::I16 => Some(take_leaf_field::<R, W, I16Leaf>(
            frame, at, cells, to, opening, last, id, behind,
        )?),
        Lead::I32 => Some(take_leaf_field::<R, W, I32Leaf>(
            frame, at, cells, to, opening, last, id, behind,
        )?),
        Lead::I64 => Some(take_leaf_field::<R, W, I64Leaf>(
            frame, at, cells, to, opening, last, id, behind,
        )?),
        Lead::Double => Some(take_leaf_field::<R, W, DoubleLeaf>(
            frame, at, cells, to, opening, last, id, behind,
        )?),
        Lead::Uuid => Some(take_leaf_field::<R, W, UuidLeaf>(
            frame, at, cells, to, opening, last, id, behind,
        )?),
        Lead::Str => Some(take_text_field::<R, W, K>(
            known, schema, frame, at, cells, to, opening, last, id, behind,
        )?),
        _ => None,
    }
}

/// Takes a bool field.
#[inline(always)]
fn take_flag<R: FormRead, W: FormWrite>(
    frame: &[u8],
    at: usize,
    cells: &mut [u8],
    to: usize,
    opening: Opening,
    last: i16,
    id: i16,
    behind: usize,
) -> Option<Reach>
    requires place { IsPast at frame.now behind }
    requires room { HasRoom BEFORE_FIELD frame.now at cells.old to }
    ensures kept { length cells.new ≡ length cells.old }
    ensures past { IfSome result (λ x. IsPast at frame.now x.read) }
    ensures grows { IfSome result (λ x. Grows at to x.read x.written) }
    ensures takes { TookLeafField R.ReadRules W.WireWrite frame.now at opening last Kind.Bool id behind cells.old to cells.new result }
{
    let (value, read) = R::flag(frame, at, behind, opening)?;
    let written = W::flag(cells, to, opening, last, id, value);
    Some(Reach { read, written })
}

/// Takes a field of a kind that is neither a bool nor a string nor a level.
#[inline(always)]
fn take_leaf_field<R: FormRead, W: FormWrite, L: Leaf>(
    frame: &[u8],
    at: usize,
    cells: &mut [u8],
    to: usize,
    opening: Opening,
    last: i16,
    id: i16,
    behind: usize,
) -> Option<Reach>
    requires place { IsPast at frame.now behind }
    requires room { HasRoom BEFORE_FIELD frame.now at cells.old to }
    requires apart { L.kind ≡ Kind.Bool → ⊥ }
    ensures kept { length cells.new ≡ length cells.old }
    ensures past { IfSome result (λ x. IsPast at frame.now x.read) }
    ensures grows { IfSome result (λ x. Grows at to x.read x.written) }
    ensures takes { TookLeafField R.ReadRules W.WireWrite frame.now at opening last L.kind id behind cells.old to cells.new result }
{
    let value = W::field(cells, to, opening, last, id, L::own_kind());
    L::take::<R, W>(frame, behind, cells, value, Stand::Field)
}

/// Takes a string field.
#[inline(always)]
fn take_text_field<R: FormRead, W: FormWrite, K: Known>(
    known: K,
    schema: &Schema,
    frame: &[u8],
    at: usize,
    cells: &mut [u8],
    to: usize,
    opening: Opening,
    last: i16,
    id: i16,
    behind: usize,
) -> Option<Reach>
    requires known { K.sound known schema.now }
    requires informed { Informs K.tells R.hinted W.hinted }
    requires size { length frame.now < 2 ^ 31 }
    requires place { IsPast at frame.now behind }
    requires room { HasRoom BEFORE_FIELD frame.now at cells.old to }
    ensures kept { length cells.new ≡ length cells.old }
    ensures past { IfSome result (λ x. IsPast at frame.now x.read) }
    ensures grows { IfSome result (λ x. Grows at to x.read x.written) }
    ensures takes { TookTextField R.ReadRules W.WireWrite (K.means known) schema.now frame.now at opening last id behind cells.old to cells.new result }
{
    let hint = text_hint::<R, W, K>(known, schema, id);
    let value = W::field(cells, to, opening, last, id, Kind::Str);
    take_text::<R, W>(frame, behind, cells, value, Stand::Field, hint)
}

/// How the string of a field is read, where reading or writing it depends on that.
#[inline(always)]
fn text_hint<R: FormRead, W: FormWrite, K: Known>(known: K, schema: &Schema, id: i16) -> Hint
    requires known { K.sound known schema.now }
    requires informed { Informs K.tells R.hinted W.hinted }
    ensures reads { (ty : Ty) → K.means known ty → R.hinted ≡ true → hint_at (field_type schema.now (Some (in_struct ty)) id Kind.Str) ≡ result }
    ensures writes { (ty : Ty) → K.means known ty → W.hinted ≡ true → hint_at (field_type schema.now (Some (in_struct ty)) id Kind.Str) ≡ result }
{
    if is_hinted::<R, W>() {
        return known.field(schema, id, Kind::Str).hint();
    }
    Hint::Unknown
}

/// Whether reading or writing a string depends on what is declared.
#[inline(always)]
pub fn is_hinted<R: FormRead, W: FormWrite>() -> bool
    ensures reads { result ≡ false → R.hinted ≡ false }
    ensures writes { result ≡ false → W.hinted ≡ false }
{
    if R::is_hinted() {
        return true;
    }
    W::is_hinted()
}
