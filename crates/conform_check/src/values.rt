//! Whether leaves and the parts of containers agree with what is declared.
ghost use Rattle.std.specs.Prelude.{◌≡◌, ◌<◌, length};
ghost use Rattle.std.specs.List.{list_any};
ghost use Rattle.std.specs.Ordering.{int_eq};
ghost use Rattle.std.specs.Str.{is_utf8};
ghost use Rattle.type_tables.specs.Known.{IsKnown};
ghost use Rattle.type_tables.specs.Structs.{members_of};
ghost use Rattle.conform_check.specs.Breaches.{list_agrees, map_agrees, number_agrees, set_agrees, text_agrees};

use thrift_value::Kind;
use type_tables::{EnumId, Schema, Ty};
use type_walk::has_kind;

/// Whether a map of this type has parts of these kinds.
pub(crate) fn map_agrees(schema: &Schema, ty: Ty, key_kind: Kind, value_kind: Kind) -> bool
    requires { IsKnown schema.now ty }
    ensures { result ≡ map_agrees schema.now ty key_kind value_kind }
{
    match ty {
        Ty::Map(key, value) => {
            has_kind(schema.ty(key), key_kind) && has_kind(schema.ty(value), value_kind)
        }
        _ => false,
    }
}

/// Whether a set of this type has elements of this kind.
pub(crate) fn set_agrees(schema: &Schema, ty: Ty, kind: Kind) -> bool
    requires { IsKnown schema.now ty }
    ensures { result ≡ set_agrees schema.now ty kind }
{
    match ty {
        Ty::Set(element) => has_kind(schema.ty(element), kind),
        _ => false,
    }
}

/// Whether a list of this type has elements of this kind.
pub(crate) fn list_agrees(schema: &Schema, ty: Ty, kind: Kind) -> bool
    requires { IsKnown schema.now ty }
    ensures { result ≡ list_agrees schema.now ty kind }
{
    match ty {
        Ty::List(element) => has_kind(schema.ty(element), kind),
        _ => false,
    }
}

/// Whether a number may stand where a value of this type is declared: where it is an enum's, it is one of the members.
#[inline(always)]
pub(crate) fn number_agrees(schema: &Schema, ty: Ty, number: i32) -> bool
    requires { IsKnown schema.now ty }
    ensures { result ≡ number_agrees schema.now ty number }
{
    match ty {
        Ty::Enum(e) => is_member(schema, e, number),
        _ => true,
    }
}

/// Whether an enum has a member of this number.
#[inline(always)]
fn is_member(schema: &Schema, e: EnumId, number: i32) -> bool
    requires { e.0 < length schema.now.enums }
    ensures { result ≡ list_any (λ member. int_eq member number) (members_of schema.now.enums e.0) }
{
    schema.member(e, number)
}

/// Whether bytes may stand where a string of this type is declared: where it is a `string`, they are UTF-8.
#[inline(always)]
pub(crate) fn text_agrees(ty: Ty, bytes: &[u8]) -> bool
    ensures { result ≡ text_agrees ty bytes.now }
{
    match ty {
        Ty::Text => is_text(bytes),
        _ => true,
    }
}

fn is_text(bytes: &[u8]) -> bool
    ensures { result ≡ is_utf8 bytes.now }
{
    match simdutf8::compat::from_utf8(bytes) {
        Ok(_) => true,
        Err(_) => false,
    }
}
