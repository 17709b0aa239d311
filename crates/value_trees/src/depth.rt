//! How deep structs and containers lie in one another.
ghost use Rattle.std.specs.Prelude.{◌≡◌, ◌<◌, ◌^◌};
ghost use Rattle.thrift_value.specs.Trees.{kind_of, depth_of, depth_of_members, depth_of_trees, depth_of_pairs};
ghost use Rattle.value_trees.specs.Views.{tree_of, trees_of, members_of, pairs_of};

use crate::{Field, Value};
use thrift_value::Kind;

impl Value {
    /// The kind of the value. Loose number text counts as a double, loose text as a string.
    pub fn kind(&self) -> Kind
        ensures { result ≡ kind_of (tree_of self.now) }
    {
        match self {
            Value::Bool(_) => Kind::Bool,
            Value::I8(_) => Kind::I8,
            Value::I16(_) => Kind::I16,
            Value::I32(_) => Kind::I32,
            Value::I64(_) => Kind::I64,
            Value::Double(_) | Value::NumberText(_) => Kind::Double,
            Value::Str(_) | Value::UnknownText(_) => Kind::Str,
            Value::Struct(_) => Kind::Struct,
            Value::EmptyMap | Value::Map(_, _, _) => Kind::Map,
            Value::Set(_, _) => Kind::Set,
            Value::List(_, _) => Kind::List,
            Value::Uuid(_) => Kind::Uuid,
        }
    }

    /// 0 for a value that is no struct, map, set or list, else 1 more than the greatest depth inside.
    #[cycle(depth)]
    pub fn depth(&self) -> u32
        requires { depth_of (tree_of self.now) < 2 ^ 32 }
        ensures { result ≡ depth_of (tree_of self.now) }
    {
        match self {
            Value::Struct(fields) => 1 + deepest_field(fields.as_slice()),
            Value::EmptyMap => 1,
            Value::Map(_, _, pairs) => 1 + deepest_pair(pairs.as_slice()),
            Value::Set(_, items) => 1 + deepest(items.as_slice()),
            Value::List(_, items) => 1 + deepest(items.as_slice()),
            _ => 0,
        }
    }
}

#[cycle(depth)]
fn deepest_field(fields: &[Field]) -> u32
    requires { depth_of_members (members_of fields.now) < 2 ^ 32 }
    ensures { result ≡ depth_of_members (members_of fields.now) }
{
    let mut most = 0;
    for field in fields {
        most = most.max(field.value.depth());
    }
    most
}

#[cycle(depth)]
fn deepest(values: &[Value]) -> u32
    requires { depth_of_trees (trees_of values.now) < 2 ^ 32 }
    ensures { result ≡ depth_of_trees (trees_of values.now) }
{
    let mut most = 0;
    for value in values {
        most = most.max(value.depth());
    }
    most
}

#[cycle(depth)]
fn deepest_pair(pairs: &[(Value, Value)]) -> u32
    requires { depth_of_pairs (pairs_of pairs.now) < 2 ^ 32 }
    ensures { result ≡ depth_of_pairs (pairs_of pairs.now) }
{
    let mut most = 0;
    for pair in pairs {
        most = most.max(pair.0.depth()).max(pair.1.depth());
    }
    most
}
