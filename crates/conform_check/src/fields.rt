//! Whether the fields of a struct are those that it declares.
ghost use Rattle.std.specs.Prelude.{◌≡◌, ◌<◌, true, Some, length, option_copied, IfSome};
ghost use Rattle.type_tables.specs.Structs.{fields_of, widest};
ghost use Rattle.conform_check.specs.Breaches.{declared_for, field_breach, is_complete, is_missing, is_required, missing, stop_breach, stood};

use crate::breach::{Breach, Found};
use crate::step::Step;
use thrift_value::Kind;
use type_tables::{FieldInfo, Form, Need, Schema, StructId};
use type_walk::has_kind;

/// What stands against a field in a struct, where one with its id stood before or not.
#[inline(always)]
pub(crate) fn field_breach(
    schema: &Schema,
    inside: Option<StructId>,
    id: i16,
    kind: Kind,
    before: bool,
) -> Option<Breach>
    requires { IfSome inside (λ s. s.0 < length schema.now.structs) }
    ensures { result ≡ field_breach (declared_for schema.now inside id) kind before }
{
    match declared_for(schema, inside, id) {
        Some(field) => {
            if !has_kind(field.ty, kind) {
                return Some(Breach::WrongKind);
            }
            if before { Some(Breach::Repeated) } else { None }
        }
        None => Some(Breach::UnknownField),
    }
}

/// The field that a struct declares for an id.
#[inline(always)]
fn declared_for(schema: &Schema, inside: Option<StructId>, id: i16) -> Option<&FieldInfo>
    requires { IfSome inside (λ s. s.0 < length schema.now.structs) }
    ensures { option_copied result ≡ declared_for schema.now inside id }
{
    match inside {
        Some(s) => schema.field(s, id),
        None => None,
    }
}

/// What stands against the end of a struct in which the fields of these ids stood.
///
/// `width` is the greatest number of fields of one struct of the schema.
pub(crate) fn stop_breach(
    schema: &Schema,
    width: usize,
    inside: Option<StructId>,
    seen: &[i16],
) -> Option<Found>
    requires inside { IfSome inside (λ s. s.0 < length schema.now.structs) }
    requires width { width ≡ widest schema.now.structs }
    ensures { result ≡ stop_breach schema.now inside seen.now }
{
    let Some(s) = inside else {
        return None;
    };
    if let Some(id) = missing(schema, width, s, seen) {
        return Some(Found {
            breach: Breach::Missing,
            last: Some(Step::Field(id)),
        });
    }
    if is_complete(schema.form(s), seen) {
        return None;
    }
    Some(Found {
        breach: Breach::Union,
        last: None,
    })
}

/// Whether a struct of this form may end.
fn is_complete(form: Form, seen: &[i16]) -> bool
    ensures { result ≡ is_complete (Some form) seen.now }
{
    match form {
        Form::Union => seen.len() == 1,
        _ => true,
    }
}

/// The id of the first required field that didn't stand.
fn missing(schema: &Schema, width: usize, s: StructId, seen: &[i16]) -> Option<i16>
    requires known { s.0 < length schema.now.structs }
    requires width { width ≡ widest schema.now.structs }
    ensures { result ≡ missing (fields_of schema.now.structs s.0) seen.now }
{
    // Fields mostly stand in the order of their declaration, so each is looked for where it then is.
    let mut next = 0;
    for place in 0..width {
        let Some(field) = schema.field_at(s, place) else {
            return None;
        };
        if stands_at(seen, next, field) {
            next += 1;
        } else if is_missing(field, seen) {
            return id_of(field);
        }
    }
    None
}

fn id_of(field: &FieldInfo) -> Option<i16>
    ensures { result ≡ Some field.now.id }
{
    Some(field.id)
}

/// Whether the id of a field is at this place.
#[inline(always)]
fn stands_at(seen: &[i16], place: usize, field: &FieldInfo) -> bool
    ensures stood { result ≡ true → stood field.now.id seen.now ≡ true }
    ensures within { result ≡ true → place < length seen.now }
{
    place < seen.len() && seen[place] == field.id
}

/// Whether a field is required and didn't stand.
fn is_missing(field: &FieldInfo, seen: &[i16]) -> bool
    ensures { result ≡ is_missing field.now seen.now }
{
    is_required(field.need) && !seen.contains(&field.id)
}

fn is_required(need: Need) -> bool
    ensures { result ≡ is_required need }
{
    matches!(need, Need::Required)
}
