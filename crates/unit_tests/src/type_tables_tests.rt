//! A struct whose fields are declared in no order of ids.
use gate_base::Text;
use std::alloc::Global;
use std::test::*;
use type_tables::{FieldInfo, FieldList, Form, Need, Schema, SchemaBuilder, StructId, Ty};

/// A schema whose last struct has fields with the ids 5, 1 and -1, in this order.
fn schema(alloc: Global) -> Option<(Schema, StructId)> {
    let mut fields = FieldList::new(alloc);
    for id in [5i16, 1, -1] {
        if !fields.has_room() {
            return None;
        }
        let field = FieldInfo {
            id,
            name: Text::new(alloc, b"a").ok()?,
            ty: Ty::Bool,
            need: Need::Default,
        };
        fields.push(field).ok()?;
    }
    let mut builder = SchemaBuilder::new(alloc).ok()?;
    if !builder.has_room() {
        return None;
    }
    let s = builder.add_struct(Form::Struct, fields).ok()?;
    if !builder.is_closed() {
        return None;
    }
    Some((builder.finish(1), s))
}

fn id_of(field: Option<&FieldInfo>) -> Option<i16> {
    match field {
        Some(field) => Some(field.id),
        None => None,
    }
}

#[test]
fn fields_are_found_by_id_and_by_place(rt: HostRuntime) -> Result<(), Fail> {
    let (schema, s) = schema(rt.alloc()).ok_or("schema")?;
    if !schema.has_struct(s) {
        panic!(rt; "no struct");
    }
    for (place, id) in [(0usize, 5i16), (1, 1), (2, -1)] {
        assert_eq!(rt; id_of(schema.field(s, id)), Some(id));
        assert_eq!(rt; id_of(schema.field_at(s, place)), Some(id));
    }
    assert_eq!(rt; id_of(schema.field(s, 2)), None);
    assert_eq!(rt; id_of(schema.field_at(s, 3)), None);
    Ok(())
}
