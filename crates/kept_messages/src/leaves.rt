//! Values that are no levels, and fields and runs of them. They touch no cells.
ghost use Rattle.std.specs.Prelude.{◌≡◌, ◌≤◌, length, IfSome};
ghost use Rattle.thrift_value.specs.declared.kind.Kind.{Kind};
ghost use Rattle.protocol_traits.specs.declared.forms.Stand.{Stand};
ghost use Rattle.protocol_traits.specs.Forms.{IsPast};
ghost use Rattle.kept_messages.specs.Kept.{KeptLead, KeptLeaf, KeptLeafField, KeptLeaves};

use kept_forms::FormKeep;
use protocol_traits::{FormWrite, Lead, Opening, Stand};
use thrift_value::Kind;

/// A kind whose values are no levels, as a type, so that what looks through a run of them is made once for each kind and
/// holds no other's code.
pub trait Leaf {
    /// The kind.
    ghost kind: { Kind };

    /// The kind.
    fn own_kind() -> Kind
        ensures { result ≡ kind };

    /// Keeps a value: answers the place behind it. A bool is no field's.
    fn keep<R: FormKeep<W>, W: FormWrite>(frame: &[u8], at: usize, stand: Stand) -> Option<usize>
        requires place { at ≤ length frame.now }
        requires apart { kind ≡ Kind.Bool → stand ≡ Stand.Field → ⊥ }
        ensures past { IfSome result (λ x. IsPast at frame.now x) }
        ensures keeps { KeptLeaf R.ReadRules W.WireWrite frame.now at stand kind result };
}

/// Keeps a value of a kind that is no level's: answers the place behind it. A bool is no field's. Each arm asks whether it kept
/// its value: asked once behind the match, it would be a test a value that the compiler doesn't lead the arms past.
#[inline(always)]
pub fn keep_leaf<R: FormKeep<W>, W: FormWrite>(
    frame: &[u8],
    at: usize,
    stand: Stand,
    kind: Kind,
) -> Option<usize>
    requires place { at ≤ length frame.now }
    requires apart { kind ≡ Kind.Bool → stand ≡ Stand.Field → ⊥ }
    ensures past { IfSome result (λ x. IsPast at frame.now x) }
    ensures keeps { KeptLeaf R.ReadRules W.WireWrite frame.now at stand kind result }
{
    match kind {
        Kind::Bool => Some(R::keep_bool(frame, at, stand)?),
        Kind::I8 => Some(R::keep_i8(frame, at, stand)?),
        Kind::I16 => Some(R::keep_i16(frame, at, stand)?),
        Kind::I32 => Some(R::keep_i32(frame, at, stand)?),
        Kind::I64 => Some(R::keep_i64(frame, at, stand)?),
        Kind::Double => Some(R::keep_double(frame, at, stand)?),
        Kind::Str => Some(R::keep_text(frame, at, stand)?),
        Kind::Uuid => Some(R::keep_uuid(frame, at, stand)?),
        Kind::Struct | Kind::Map | Kind::Set | Kind::List => None,
    }
}

/// Keeps a field whose value is no level, where its lead is kept: answers the place behind it. Other leads are none. Each
/// arm asks whether it kept its field, as those of a value do.
#[inline(always)]
pub fn keep_leaf_field<R: FormKeep<W>, W: FormWrite>(
    frame: &[u8],
    at: usize,
    opening: Opening,
    last: i16,
    lead: Lead,
    id: i16,
    behind: usize,
) -> Option<usize>
    requires place { IsPast at frame.now behind }
    requires lead { KeptLead R.ReadRules W.WireWrite frame.now at opening last lead id behind }
    ensures past { IfSome result (λ x. IsPast at frame.now x) }
    ensures keeps { KeptLeafField R.ReadRules W.WireWrite frame.now at opening last lead id behind result }
{
    match lead {
        Lead::Bool => Some(R::keep_flag(frame, at, behind, opening, last, id)?),
        Lead::I8 => Some(R::keep_i8(frame, behind, Stand::Field)?),
        Lead::I16 => Some(R::keep_i16(frame, behind, Stand::Field)?),
        Lead::I32 => Some(R::keep_i32(frame, behind, Stand::Field)?),
        Lead::I64 => Some(R::keep_i64(frame, behind, Stand::Field)?),
        Lead::Double => Some(R::keep_double(frame, behind, Stand::Field)?),
        Lead::Str => Some(R::keep_text(frame, behind, Stand::Field)?),
        Lead::Uuid => Some(R::keep_uuid(frame, behind, Stand::Field)?),
        _ => None,
    }
}

/// Keeps so many elements of a kind that is no level's: answers the place behind them. Which kind it is is asked once, for
/// it is a constant in each loop.
#[inline(always)]
pub fn keep_leaf_run<R: FormKeep<W>, W: FormWrite>(
    frame: &[u8],
    at: usize,
    kind: Kind,
    size: u32,
) -> Option<usize>
    requires place { at ≤ length frame.now }
    ensures place { IfSome result (λ x. (at ≤ x) × (x ≤ length frame.now)) }
    ensures keeps { KeptLeaves R.ReadRules W.WireWrite frame.now at kind size result }
{
    match kind {
        Kind::Bool => keep_leaves::<R, W, BoolLeaf>(frame, at, size),
        Kind::I8 => keep_leaves::<R, W, I8Leaf>(frame, at, size),
        Kind::I16 => keep_leaves::<R, W, I16Leaf>(frame, at, size),
        Kind::I32 => keep_leaves::<R, W, I32Leaf>(frame, at, size),
        Kind::I64 => keep_leaves::<R, W, I64Leaf>(frame, at, size),
        Kind::Double => keep_leaves::<R, W, DoubleLeaf>(frame, at, size),
        Kind::Str => keep_leaves::<R, W, TextLeaf>(frame, at, size),
        Kind::Uuid => keep_leaves::<R, W, UuidLeaf>(frame, at, size),
        Kind::Struct | Kind::Map | Kind::Set | Kind::List => None,
    }
}

/// Keeps so many elements of the leaf's kind: answers the place behind them. Where all have one length they are passed
/// over at once.
#[inline(always)]
fn keep_leaves<R: FormKeep<W>, W: FormWrite, L: Leaf>(
    frame: &[u8],
    from: usize,
    size: u32,
) -> Option<usize>
    requires place { from ≤ length frame.now }
    ensures place { IfSome result (λ x. (from ≤ x) × (x ≤ length frame.now)) }
    ensures keeps { KeptLeaves R.ReadRules W.WireWrite frame.now from L.kind size result }
{
    if let Some(behind) = R::keep_run(frame, from, L::own_kind(), size) {
        return Some(behind);
    }
    let mut at = from;
    'elements: for i in 0..size {
        at = L::keep::<R, W>(frame, at, Stand::Element)?;
    }
    Some(at)
}

/// A bool that is no field's.
pub struct BoolLeaf;

impl Leaf for BoolLeaf {
    ghost kind = { Kind.Bool };

    #[inline(always)]
    fn own_kind() -> Kind {
        Kind::Bool
    }

    #[inline(always)]
    fn keep<R: FormKeep<W>, W: FormWrite>(frame: &[u8], at: usize, stand: Stand) -> Option<usize> {
        R::keep_bool(frame, at, stand)
    }
}

/// An i8.
pub struct I8Leaf;

impl Leaf for I8Leaf {
    ghost kind = { Kind.I8 };

    #[inline(always)]
    fn own_kind() -> Kind {
        Kind::I8
    }

    #[inline(always)]
    fn keep<R: FormKeep<W>, W: FormWrite>(frame: &[u8], at: usize, stand: Stand) -> Option<usize> {
        R::keep_i8(frame, at, stand)
    }
}

/// An i16.
pub struct I16Leaf;

impl Leaf for I16Leaf {
    ghost kind = { Kind.I16 };

    #[inline(always)]
    fn own_kind() -> Kind {
        Kind::I16
    }

    #[inline(always)]
    fn keep<R: FormKeep<W>, W: FormWrite>(frame: &[u8], at: usize, stand: Stand) -> Option<usize> {
        R::keep_i16(frame, at, stand)
    }
}

/// An i32.
pub struct I32Leaf;

impl Leaf for I32Leaf {
    ghost kind = { Kind.I32 };

    #[inline(always)]
    fn own_kind() -> Kind {
        Kind::I32
    }

    #[inline(always)]
    fn keep<R: FormKeep<W>, W: FormWrite>(frame: &[u8], at: usize, stand: Stand) -> Option<usize> {
        R::keep_i32(frame, at, stand)
    }
}

/// An i64.
pub struct I64Leaf;

impl Leaf for I64Leaf {
    ghost kind = { Kind.I64 };

    #[inline(always)]
    fn own_kind() -> Kind {
        Kind::I64
    }

    #[inline(always)]
    fn keep<R: FormKeep<W>, W: FormWrite>(frame: &[u8], at: usize, stand: Stand) -> Option<usize> {
        R::keep_i64(frame, at, stand)
    }
}

/// A double.
pub struct DoubleLeaf;

impl Leaf for DoubleLeaf {
    ghost kind = { Kind.Double };

    #[inline(always)]
    fn own_kind() -> Kind {
        Kind::Double
    }

    #[inline(always)]
    fn keep<R: FormKeep<W>, W: FormWrite>(frame: &[u8], at: usize, stand: Stand) -> Option<usize> {
        R::keep_double(frame, at, stand)
    }
}

/// A string.
pub struct TextLeaf;

impl Leaf for TextLeaf {
    ghost kind = { Kind.Str };

    #[inline(always)]
    fn own_kind() -> Kind {
        Kind::Str
    }

    #[inline(always)]
    fn keep<R: FormKeep<W>, W: FormWrite>(frame: &[u8], at: usize, stand: Stand) -> Option<usize> {
        R::keep_text(frame, at, stand)
    }
}

/// A uuid.
pub struct UuidLeaf;

impl Leaf for UuidLeaf {
    ghost kind = { Kind.Uuid };

    #[inline(always)]
    fn own_kind() -> Kind {
        Kind::Uuid
    }

    #[inline(always)]
    fn keep<R: FormKeep<W>, W: FormWrite>(frame: &[u8], at: usize, stand: Stand) -> Option<usize> {
        R::keep_uuid(frame, at, stand)
    }
}
