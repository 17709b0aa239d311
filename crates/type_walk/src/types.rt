//! The declared types at one step down from a struct or container.
ghost use Rattle.std.specs.Prelude.{◌≡◌, IfSome, None, Some, option_copied};
ghost use Rattle.thrift_value.specs.Kinds.{rank_of};
ghost use Rattle.type_tables.specs.Declarations.{Declarations};
ghost use Rattle.type_tables.specs.Kinds.{kind_of};
ghost use Rattle.type_tables.specs.Known.{IsKnown};
ghost use Rattle.type_walk.specs.Known.{IsKnownLevel};
ghost use Rattle.type_walk.specs.Positions.{under, field_type, type_at, in_struct, in_map, in_set, in_list, called_for, mark_at, hint_at, filler, declared_in, declared_type, of_kind, has_kind};

use crate::levels::Level;
use protocol_traits::{Hint, Mark};
use thrift_value::Kind;
use type_tables::{FieldInfo, Schema, StructId, Ty, TyId};

/// The field with this id that a level declares, if its values have the kind that is announced.
#[inline(always)]
#[tactic(auto, using(crate::proofs::Sound::declared_types))]
pub fn declared_in<'s>(
    schema: &'s Schema,
    level: &Level,
    id: i16,
    kind: Kind,
) -> Option<&'s FieldInfo>
    requires { IsKnownLevel schema.now level.now }
    ensures value { option_copied result ≡ declared_in schema.now (Some level.now) id kind }
    ensures typed { declared_type (option_copied result) ≡ field_type schema.now (Some level.now) id kind }
    ensures known { IfSome result (λ f. IsKnown schema.now f.now.ty) }
{
    match level {
        Level::Fields(s) => of_kind(schema.field(*s, id), kind),
        _ => None,
    }
}

#[inline(always)]
fn of_kind(field: Option<&FieldInfo>, kind: Kind) -> Option<&FieldInfo>
    ensures value { option_copied result ≡ of_kind kind (option_copied field.entry) }
    ensures known { (d : Declarations) → IfSome field.entry (λ f. IsKnown d f.now.ty) → IfSome result (λ f. IsKnown d f.now.ty) }
{
    match field {
        Some(field) => {
            if has_kind(field.ty, kind) {
                Some(field)
            } else {
                None
            }
        }
        None => None,
    }
}

/// The type of a field, where one is declared.
#[inline(always)]
pub fn declared_type(field: Option<&FieldInfo>) -> Ty
    ensures { result ≡ declared_type (option_copied field.entry) }
{
    match field {
        Some(field) => field.ty,
        None => Ty::Unknown,
    }
}

/// Whether values of this type have this kind.
#[inline(always)]
#[tactic(auto, using(crate::proofs::Sound::rank_short))]
pub fn has_kind(ty: Ty, kind: Kind) -> bool
    ensures { result ≡ has_kind (kind_of ty) kind }
{
    own_rank(ty) == rank(kind)
}

/// What a struct of this type is inside.
#[inline(always)]
pub fn in_struct(ty: Ty) -> Level
    ensures value { result ≡ in_struct ty }
    ensures known { (d : Declarations) → IsKnown d ty → IsKnownLevel d result }
{
    match ty {
        Ty::Struct(s) => Level::Fields(s),
        _ => Level::Unknown,
    }
}

/// What a map of this type is inside, where its begin tells these kinds.
pub fn in_map(schema: &Schema, ty: Ty, key_kind: Kind, value_kind: Kind) -> Level
    requires { IsKnown schema.now ty }
    ensures value { result ≡ in_map schema.now ty key_kind value_kind }
    ensures known { IsKnownLevel schema.now result }
{
    match ty {
        Ty::Map(key, value) => {
            let key = under(schema.ty(key), key_kind);
            let value = under(schema.ty(value), value_kind);
            Level::Keys(key, value)
        }
        _ => Level::Unknown,
    }
}

/// What a set of this type is inside, where its begin tells this kind.
pub fn in_set(schema: &Schema, ty: Ty, kind: Kind) -> Level
    requires { IsKnown schema.now ty }
    ensures value { result ≡ in_set schema.now ty kind }
    ensures known { IsKnownLevel schema.now result }
{
    match ty {
        Ty::Set(element) => Level::Elements(under(schema.ty(element), kind)),
        _ => Level::Unknown,
    }
}

/// What a list of this type is inside, where its begin tells this kind.
pub fn in_list(schema: &Schema, ty: Ty, kind: Kind) -> Level
    requires { IsKnown schema.now ty }
    ensures value { result ≡ in_list schema.now ty kind }
    ensures known { IsKnownLevel schema.now result }
{
    match ty {
        Ty::List(element) => Level::Elements(under(schema.ty(element), kind)),
        _ => Level::Unknown,
    }
}

/// The type of the value that an innermost level calls for.
#[inline(always)]
pub fn called_for(level: Option<&Level>) -> Ty
    ensures value { result ≡ called_for (option_copied level.entry) }
    ensures known { (d : Declarations) → IfSome (option_copied level.entry) (IsKnownLevel d) → IsKnown d result }
{
    match level {
        Some(Level::Elements(element)) => *element,
        Some(Level::Keys(key, _)) => *key,
        Some(Level::Values(_, value)) => *value,
        Some(Level::Fields(_) | Level::Unknown) | None => Ty::Unknown,
    }
}

/// What is known at a position of this type.
#[inline(always)]
pub fn mark_at(schema: &Schema, ty: Ty) -> Mark
    requires { IsKnown schema.now ty }
    ensures { result ≡ mark_at schema.now ty }
{
    match ty {
        Ty::Map(key, value) => map_mark(schema, key, value),
        _ => Mark {
            hint: hint_at(ty),
            key: Kind::I8,
            value: Kind::I8,
        },
    }
}

fn map_mark(schema: &Schema, key: TyId, value: TyId) -> Mark
    requires { IsKnown schema.now (Ty.Map key value) }
    ensures { result ≡ mark_at schema.now (Ty.Map key value) }
{
    Mark {
        hint: Hint::Unknown,
        key: filler(schema.ty(key).kind()),
        value: filler(schema.ty(value).kind()),
    }
}

/// How a string of this type is read.
#[inline(always)]
pub fn hint_at(ty: Ty) -> Hint
    ensures { result ≡ hint_at ty }
{
    match ty {
        Ty::Text => Hint::Text,
        Ty::Blob => Hint::Blob,
        _ => Hint::Unknown,
    }
}

fn filler(kind: Option<Kind>) -> Kind
    ensures { result ≡ filler kind }
{
    match kind {
        Some(kind) => kind,
        None => Kind::I8,
    }
}

/// The declared type, where a value of this kind stands.
#[inline(always)]
fn under(ty: Ty, kind: Kind) -> Ty
    ensures value { result ≡ under ty kind }
    ensures known { (d : Declarations) → IsKnown d ty → IsKnown d result }
{
    if has_kind(ty, kind) { ty } else { Ty::Unknown }
}

/// The number of the kind of a declared type's values; of `Unknown`, which has none, a number that no kind has. One look-up
/// in a table, and no jump by the type for each field.
#[inline(always)]
fn own_rank(ty: Ty) -> u8
    ensures some { IfSome (kind_of ty) (λ own. result ≡ rank_of own) }
    ensures none { kind_of ty ≡ None → result ≡ 12 }
{
    match ty {
        Ty::Unknown => 12,
        Ty::Bool => rank(Kind::Bool),
        Ty::I8 => rank(Kind::I8),
        Ty::I16 => rank(Kind::I16),
        Ty::I32 => rank(Kind::I32),
        Ty::I64 => rank(Kind::I64),
        Ty::Double => rank(Kind::Double),
        Ty::Text => rank(Kind::Str),
        Ty::Blob => rank(Kind::Str),
        Ty::Enum(_) => rank(Kind::I32),
        Ty::Struct(_) => rank(Kind::Struct),
        Ty::Map(_, _) => rank(Kind::Map),
        Ty::Set(_) => rank(Kind::Set),
        Ty::List(_) => rank(Kind::List),
        Ty::Uuid => rank(Kind::Uuid),
    }
}

/// A number for each kind.
#[inline(always)]
fn rank(kind: Kind) -> u8
    ensures { result ≡ rank_of kind }
{
    kind as u8
}
