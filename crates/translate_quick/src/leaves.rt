//! Values that are no levels, each read and written by one form.
ghost use Rattle.std.specs.Prelude.{◌≡◌, ◌+◌, ◌-◌, ◌*◌, ◌≤◌, ◌<◌, ◌^◌, length, IfSome};
ghost use Rattle.thrift_value.specs.declared.kind.Kind.{Kind};
ghost use Rattle.protocol_traits.specs.declared.forms.Stand.{Stand};
ghost use Rattle.protocol_traits.specs.Forms.{IsPast, StepsText, part};
ghost use Rattle.translate_known.specs.Quick.{Grows, HasRoom, TookLeaf, TookText};

use protocol_traits::{FormRead, FormWrite, Hint, Span, Stand};
use thrift_value::Kind;
use translate_known::Reach;

/// How many cells are left behind those for what is left of the frame, before a value.
pub const AROUND: usize = 128;

/// A kind whose values are neither strings nor levels, as a type, so that what takes such values is made once for each kind
/// and holds no other's code.
pub trait Leaf {
    /// The kind.
    ghost kind: { Kind };

    /// The kind.
    fn own_kind() -> Kind
        ensures { result ≡ kind };

    /// Takes a value. A bool is no field's.
    fn take<R: FormRead, W: FormWrite>(
        frame: &[u8],
        at: usize,
        cells: &mut [u8],
        to: usize,
        stand: Stand,
    ) -> Option<Reach>
        requires place { at ≤ length frame.now }
        requires room { HasRoom AROUND frame.now at cells.old to }
        requires apart { kind ≡ Kind.Bool → stand ≡ Stand.Field → ⊥ }
        ensures kept { length cells.new ≡ length cells.old }
        ensures past { IfSome result (λ x. IsPast at frame.now x.read) }
        ensures grows { IfSome result (λ x. Grows at to x.read x.written) }
        ensures takes { TookLeaf R.ReadRules W.WireWrite frame.now at stand kind cells.old to cells.new result };
}

/// Takes a value of a kind that is neither a string nor a level. A bool is no field's.
#[inline(always)]
pub fn take_leaf<R: FormRead, W: FormWrite>(
    frame: &[u8],
    at: usize,
    cells: &mut [u8],
    to: usize,
    stand: Stand,
    kind: Kind,
) -> Option<Reach>
    requires place { at ≤ length frame.now }
    requires room { HasRoom AROUND frame.now at cells.old to }
    requires apart { kind ≡ Kind.Bool → stand ≡ Stand.Field → ⊥ }
    ensures kept { length cells.new ≡ length cells.old }
    ensures past { IfSome result (λ x. IsPast at frame.now x.read) }
    ensures grows { IfSome result (λ x. Grows at to x.read x.written) }
    ensures takes { TookLeaf R.ReadRules W.WireWrite frame.now at stand kind cells.old to cells.new result }
{
    match kind {
        Kind::Bool => BoolLeaf::take::<R, W>(frame, at, cells, to, stand),
        Kind::I8 => I8Leaf::take::<R, W>(frame, at, cells, to, stand),
        Kind::I16 => I16Leaf::take::<R, W>(frame, at, cells, to, stand),
        Kind::I32 => I32Leaf::take::<R, W>(frame, at, cells, to, stand),
        Kind::I64 => I64Leaf::take::<R, W>(frame, at, cells, to, stand),
        Kind::Double => DoubleLeaf::take::<R, W>(frame, at, cells, to, stand),
        Kind::Uuid => UuidLeaf::take::<R, W>(frame, at, cells, to, stand),
        Kind::Str | Kind::Struct | Kind::Map | Kind::Set | Kind::List => None,
    }
}

/// A bool that is no field's.
pub struct BoolLeaf;

impl Leaf for BoolLeaf {
    ghost kind = { Kind.Bool };

    #[inline(always)]
    fn own_kind() -> Kind {
        Kind::Bool
    }

    #[inline(always)]
    fn take<R: FormRead, W: FormWrite>(
        frame: &[u8],
        at: usize,
        cells: &mut [u8],
        to: usize,
        stand: Stand,
    ) -> Option<Reach> {
        let (value, read) = R::bool(frame, at, stand)?;
        let written = W::bool(cells, to, stand, value);
        Some(Reach { read, written })
    }
}

/// An i8.
pub struct I8Leaf;

impl Leaf for I8Leaf {
    ghost kind = { Kind.I8 };

    #[inline(always)]
    fn own_kind() -> Kind {
        Kind::I8
    }

    #[inline(always)]
    fn take<R: FormRead, W: FormWrite>(
        frame: &[u8],
        at: usize,
        cells: &mut [u8],
        to: usize,
        stand: Stand,
    ) -> Option<Reach> {
        let (value, read) = R::i8(frame, at, stand)?;
        let written = W::i8(cells, to, stand, value);
        Some(Reach { read, written })
    }
}

/// An i16.
pub struct I16Leaf;

impl Leaf for I16Leaf {
    ghost kind = { Kind.I16 };

    #[inline(always)]
    fn own_kind() -> Kind {
        Kind::I16
    }

    #[inline(always)]
    fn take<R: FormRead, W: FormWrite>(
        frame: &[u8],
        at: usize,
        cells: &mut [u8],
        to: usize,
        stand: Stand,
    ) -> Option<Reach> {
        let (value, read) = R::i16(frame, at, stand)?;
        let written = W::i16(cells, to, stand, value);
        Some(Reach { read, written })
    }
}

/// An i32.
pub struct I32Leaf;

impl Leaf for I32Leaf {
    ghost kind = { Kind.I32 };

    #[inline(always)]
    fn own_kind() -> Kind {
        Kind::I32
    }

    #[inline(always)]
    fn take<R: FormRead, W: FormWrite>(
        frame: &[u8],
        at: usize,
        cells: &mut [u8],
        to: usize,
        stand: Stand,
    ) -> Option<Reach> {
        let (value, read) = R::i32(frame, at, stand)?;
        let written = W::i32(cells, to, stand, value);
        Some(Reach { read, written })
    }
}

/// An i64.
pub struct I64Leaf;

impl Leaf for I64Leaf {
    ghost kind = { Kind.I64 };

    #[inline(always)]
    fn own_kind() -> Kind {
        Kind::I64
    }

    #[inline(always)]
    fn take<R: FormRead, W: FormWrite>(
        frame: &[u8],
        at: usize,
        cells: &mut [u8],
        to: usize,
        stand: Stand,
    ) -> Option<Reach> {
        let (value, read) = R::i64(frame, at, stand)?;
        let written = W::i64(cells, to, stand, value);
        Some(Reach { read, written })
    }
}

/// A double.
pub struct DoubleLeaf;

impl Leaf for DoubleLeaf {
    ghost kind = { Kind.Double };

    #[inline(always)]
    fn own_kind() -> Kind {
        Kind::Double
    }

    #[inline(always)]
    fn take<R: FormRead, W: FormWrite>(
        frame: &[u8],
        at: usize,
        cells: &mut [u8],
        to: usize,
        stand: Stand,
    ) -> Option<Reach> {
        let (value, read) = R::double(frame, at, stand)?;
        let written = W::double(cells, to, stand, value)?;
        Some(Reach { read, written })
    }
}

/// A uuid.
pub struct UuidLeaf;

impl Leaf for UuidLeaf {
    ghost kind = { Kind.Uuid };

    #[inline(always)]
    fn own_kind() -> Kind {
        Kind::Uuid
    }

    #[inline]
    fn take<R: FormRead, W: FormWrite>(
        frame: &[u8],
        at: usize,
        cells: &mut [u8],
        to: usize,
        stand: Stand,
    ) -> Option<Reach> {
        let span = R::uuid(frame, at, stand)?;
        let written = W::uuid(cells, to, stand, frame, span.begin)?;
        Some(Reach {
            read: span.behind,
            written,
        })
    }
}

/// Takes a string. Where reading or writing depends on the position, `hint` is what it says.
#[inline(always)]
pub fn take_text<R: FormRead, W: FormWrite>(
    frame: &[u8],
    at: usize,
    cells: &mut [u8],
    to: usize,
    stand: Stand,
    hint: Hint,
) -> Option<Reach>
    requires place { at ≤ length frame.now }
    requires room { HasRoom AROUND frame.now at cells.old to }
    requires size { length frame.now < 2 ^ 31 }
    ensures kept { length cells.new ≡ length cells.old }
    ensures past { IfSome result (λ x. IsPast at frame.now x.read) }
    ensures grows { IfSome result (λ x. Grows at to x.read x.written) }
    ensures takes { TookText R.ReadRules W.WireWrite R.hinted W.hinted hint frame.now at stand cells.old to cells.new result }
{
    if let Some(span) = R::short_text(frame, at, stand, hint) {
        return lay_span::<R, W>(frame, at, cells, to, stand, hint, span);
    }
    match R::text(frame, at, stand, hint) {
        Some(span) => lay_span::<R, W>(frame, at, cells, to, stand, hint, span),
        None => take_decoded::<R, W>(frame, at, cells, to, stand, hint),
    }
}

/// The same where no more code may stand in line than a short string asks for: any other one goes by a call.
#[inline(always)]
pub fn take_short_text<R: FormRead, W: FormWrite>(
    frame: &[u8],
    at: usize,
    cells: &mut [u8],
    to: usize,
    stand: Stand,
    hint: Hint,
) -> Option<Reach>
    requires place { at ≤ length frame.now }
    requires room { HasRoom AROUND frame.now at cells.old to }
    requires size { length frame.now < 2 ^ 31 }
    ensures kept { length cells.new ≡ length cells.old }
    ensures past { IfSome result (λ x. IsPast at frame.now x.read) }
    ensures grows { IfSome result (λ x. Grows at to x.read x.written) }
    ensures takes { TookText R.ReadRules W.WireWrite R.hinted W.hinted hint frame.now at stand cells.old to cells.new result }
{
    if let Some(span) = R::short_text(frame, at, stand, hint) {
        return lay_span::<R, W>(frame, at, cells, to, stand, hint, span);
    }
    call_text::<R, W>(frame, at, cells, to, stand, hint)
}

#[inline(never)]
fn call_text<R: FormRead, W: FormWrite>(
    frame: &[u8],
    at: usize,
    cells: &mut [u8],
    to: usize,
    stand: Stand,
    hint: Hint,
) -> Option<Reach>
    requires place { at ≤ length frame.now }
    requires room { HasRoom AROUND frame.now at cells.old to }
    requires size { length frame.now < 2 ^ 31 }
    ensures kept { length cells.new ≡ length cells.old }
    ensures past { IfSome result (λ x. IsPast at frame.now x.read) }
    ensures grows { IfSome result (λ x. Grows at to x.read x.written) }
    ensures takes { TookText R.ReadRules W.WireWrite R.hinted W.hinted hint frame.now at stand cells.old to cells.new result }
{
    take_text::<R, W>(frame, at, cells, to, stand, hint)
}

/// Writes a string that was found in the frame. What was asked of a short one holds here, too, so the compiler asks nothing twice.
#[inline(always)]
fn lay_span<R: FormRead, W: FormWrite>(
    frame: &[u8],
    at: usize,
    cells: &mut [u8],
    to: usize,
    stand: Stand,
    hint: Hint,
    span: Span,
) -> Option<Reach>
    requires place { at ≤ length frame.now }
    requires room { HasRoom AROUND frame.now at cells.old to }
    requires size { length frame.now < 2 ^ 31 }
    requires past { IsPast at frame.now span.behind }
    requires part { (at < span.begin) × (span.begin ≤ span.end) × (span.end ≤ span.behind) }
    requires found { StepsText R.ReadRules.reads R.ReadRules.stands_at R.hinted hint frame.now at stand (part frame.now span.begin span.end) span.behind }
    ensures kept { length cells.new ≡ length cells.old }
    ensures past { IfSome result (λ x. IsPast at frame.now x.read) }
    ensures grows { IfSome result (λ x. Grows at to x.read x.written) }
    ensures takes { TookText R.ReadRules W.WireWrite R.hinted W.hinted hint frame.now at stand cells.old to cells.new result }
{
    let written = W::text(cells, to, stand, hint, frame, span.begin, span.end)?;
    Some(Reach {
        read: span.behind,
        written,
    })
}

/// Takes a string that is decoded first, into cells behind those that its spelling may take.
#[inline]
fn take_decoded<R: FormRead, W: FormWrite>(
    frame: &[u8],
    at: usize,
    cells: &mut [u8],
    to: usize,
    stand: Stand,
    hint: Hint,
) -> Option<Reach>
    requires place { at ≤ length frame.now }
    requires room { HasRoom AROUND frame.now at cells.old to }
    requires size { length frame.now < 2 ^ 31 }
    ensures kept { length cells.new ≡ length cells.old }
    ensures past { IfSome result (λ x. IsPast at frame.now x.read) }
    ensures grows { IfSome result (λ x. Grows at to x.read x.written) }
    ensures takes { TookText R.ReadRules W.WireWrite R.hinted W.hinted hint frame.now at stand cells.old to cells.new result }
{
    let apart = to + 6 * (frame.len() - at) + AROUND;
    let (front, room) = cells.split_at_mut(apart);
    let text = R::decode_text(frame, at, stand, hint, room)?;
    let decoded = &room[..frame.len() - at];
    let written = W::text(front, to, stand, hint, decoded, 0, text.size)?;
    Some(Reach {
        read: text.behind,
        written,
    })
}
