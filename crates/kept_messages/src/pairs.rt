//! The pairs of a map whose keys are strings and whose values are bools, numbers or strings, as most maps' are: which kind a value has
//! is asked once a map, and not once a pair. They touch no cells.
ghost use Rattle.std.specs.Prelude.{◌≡◌, ◌≤◌, length, true, IfSome};
ghost use Rattle.thrift_value.specs.declared.kind.Kind.{Kind};
ghost use Rattle.kept_messages.specs.Kept.{KeptLeafPairs};

use crate::leaves::{BoolLeaf, DoubleLeaf, I32Leaf, I64Leaf, Leaf, TextLeaf};
use kept_forms::FormKeep;
use protocol_traits::{Container, FormWrite, Pairs, Stand};
use thrift_value::Kind;

/// Whether a map of these kinds has strings for keys, and for values what `keep_leaf_pairs` keeps: the kinds that are common. With all of
/// them the loops would be too long to stand in line with a map's beginning.
#[inline(always)]
pub fn are_leaf_pairs(key: Kind, value: Kind) -> bool
    ensures { result ≡ true → key ≡ Kind.Str }
{
    match key {
        Kind::Str => matches!(
            value,
            Kind::Bool | Kind::I32 | Kind::I64 | Kind::Double | Kind::Str
        ),
        _ => false,
    }
}

/// Keeps the pairs of such a map to its end: answers the place behind it. Of other values none.
#[inline(always)]
pub fn keep_leaf_pairs<R: FormKeep<W>, W: FormWrite>(frame: &[u8], pairs: Pairs) -> Option<usize>
    requires texts { pairs.key ≡ Kind.Str }
    requires place { pairs.behind ≤ length frame.now }
    ensures place { IfSome result (λ x. (pairs.behind ≤ x) × (x ≤ length frame.now)) }
    ensures keeps { KeptLeafPairs R.ReadRules W.WireWrite frame.now pairs result }
{
    match pairs.value {
        Kind::Bool => keep_text_pairs::<R, W, BoolLeaf>(frame, pairs),
        Kind::I32 => keep_text_pairs::<R, W, I32Leaf>(frame, pairs),
        Kind::I64 => keep_text_pairs::<R, W, I64Leaf>(frame, pairs),
        Kind::Double => keep_text_pairs::<R, W, DoubleLeaf>(frame, pairs),
        Kind::Str => keep_text_pairs::<R, W, TextLeaf>(frame, pairs),
        _ => None,
    }
}

/// The same for values of the leaf's kind.
#[inline(always)]
fn keep_text_pairs<R: FormKeep<W>, W: FormWrite, V: Leaf>(
    frame: &[u8],
    pairs: Pairs,
) -> Option<usize>
    requires texts { pairs.key ≡ Kind.Str }
    requires values { pairs.value ≡ V.kind }
    requires place { pairs.behind ≤ length frame.now }
    ensures place { IfSome result (λ x. (pairs.behind ≤ x) × (x ≤ length frame.now)) }
    ensures keeps { KeptLeafPairs R.ReadRules W.WireWrite frame.now pairs result }
{
    let mut stand = Stand::FirstKey;
    let mut at = pairs.behind;
    'pairs: for i in 0..pairs.size {
        let value = R::keep_text(frame, at, stand)?;
        at = V::keep::<R, W>(frame, value, Stand::Value)?;
        stand = Stand::Key;
    }
    R::keep_end(frame, at, Container::Map)
}
