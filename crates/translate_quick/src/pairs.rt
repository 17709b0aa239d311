//! Maps whose keys are strings and whose values have a kind that is no level and no string, between protocols that ask for no hint: their
//! kinds are asked for once a map, and each is known when the code is built.
ghost use Rattle.std.specs.Prelude.{◌≡◌, ◌+◌, ◌≤◌, ◌<◌, ◌^◌, length, true, false, IfSome};
ghost use Rattle.thrift_value.specs.declared.kind.Kind.{Kind};
ghost use Rattle.protocol_traits.specs.declared.forms.Stand.{Stand};
ghost use Rattle.protocol_traits.specs.Forms.{IsPast, StepsInto, pairs_item};
ghost use Rattle.translate_known.specs.Quick.{Grows, HasRoom, reached};
ghost use Rattle.translate_quick.specs.Levels.{TookLeafLevel, TookLeafPairs};

use crate::leaves::{AROUND, Leaf, take_short_text};
use crate::quick::END;
use protocol_traits::{Container, FormRead, FormWrite, Hint, Pairs, Stand};
use thrift_value::Kind;
use translate_known::Reach;

/// Takes a map of such kinds that was read to its pairs and has some: answers the place behind it in the frame, and moves `to` to the one in
/// the cells.
#[inline(always)]
pub fn take_text_map<R: FormRead, W: FormWrite, L: Leaf>(
    frame: &[u8],
    at: usize,
    cells: &mut [u8],
    to: &mut usize,
    stand: Stand,
    pairs: Pairs,
) -> Option<usize>
    requires reads { R.hinted ≡ false }
    requires writes { W.hinted ≡ false }
    requires texts { pairs.key ≡ Kind.Str }
    requires values { pairs.value ≡ L.kind }
    requires some { 0 < pairs.size }
    requires size { length frame.now < 2 ^ 31 }
    requires place { IsPast at frame.now pairs.behind }
    requires long { at + 2 ≤ pairs.behind }
    requires found { StepsInto R.ReadRules.reads R.ReadRules.stands_at frame.now at stand Kind.Map (pairs_item pairs.key pairs.value pairs.size) pairs.behind }
    requires room { HasRoom AROUND frame.now at cells.old to.old }
    ensures kept { length cells.new ≡ length cells.old }
    ensures past { IfSome result (λ read. IsPast at frame.now read) }
    ensures grows { IfSome result (λ read. Grows at to.old read to.new) }
    ensures takes { TookLeafLevel R.ReadRules W.WireWrite frame.now at stand Kind.Map cells.old to.old cells.new (reached result to.new) }
{
    let written = W::pairs(cells, *to, stand, Kind::Str, L::own_kind(), pairs.size)?;
    let reach = take_text_pairs::<R, W, L>(frame, cells, written, pairs)?;
    *to = reach.written;
    Some(reach.read)
}

/// The same by a call, for kinds of values whose loop would be too long to stand in line.
#[inline(never)]
pub fn call_text_map<R: FormRead, W: FormWrite, L: Leaf>(
    frame: &[u8],
    at: usize,
    cells: &mut [u8],
    to: &mut usize,
    stand: Stand,
    pairs: Pairs,
) -> Option<usize>
    requires reads { R.hinted ≡ false }
    requires writes { W.hinted ≡ false }
    requires texts { pairs.key ≡ Kind.Str }
    requires values { pairs.value ≡ L.kind }
    requires some { 0 < pairs.size }
    requires size { length frame.now < 2 ^ 31 }
    requires place { IsPast at frame.now pairs.behind }
    requires long { at + 2 ≤ pairs.behind }
    requires found { StepsInto R.ReadRules.reads R.ReadRules.stands_at frame.now at stand Kind.Map (pairs_item pairs.key pairs.value pairs.size) pairs.behind }
    requires room { HasRoom AROUND frame.now at cells.old to.old }
    ensures kept { length cells.new ≡ length cells.old }
    ensures past { IfSome result (λ read. IsPast at frame.now read) }
    ensures grows { IfSome result (λ read. Grows at to.old read to.new) }
    ensures takes { TookLeafLevel R.ReadRules W.WireWrite frame.now at stand Kind.Map cells.old to.old cells.new (reached result to.new) }
{
    take_text_map::<R, W, L>(frame, at, cells, to, stand, pairs)
}

/// Takes the pairs of such a map to its end.
#[inline(always)]
fn take_text_pairs<R: FormRead, W: FormWrite, L: Leaf>(
    frame: &[u8],
    cells: &mut [u8],
    into: usize,
    pairs: Pairs,
) -> Option<Reach>
    requires reads { R.hinted ≡ false }
    requires writes { W.hinted ≡ false }
    requires texts { pairs.key ≡ Kind.Str }
    requires values { pairs.value ≡ L.kind }
    requires size { length frame.now < 2 ^ 31 }
    requires place { pairs.behind ≤ length frame.now }
    requires room { HasRoom AROUND frame.now pairs.behind cells.old into }
    ensures kept { length cells.new ≡ length cells.old }
    ensures place { IfSome result (λ x. (pairs.behind ≤ x.read) × (x.read ≤ length frame.now)) }
    ensures grows { IfSome result (λ x. Grows pairs.behind (into + END) x.read x.written) }
    ensures takes { TookLeafPairs R.ReadRules W.WireWrite frame.now pairs cells.old into cells.new result }
{
    let mut stand = Stand::FirstKey;
    let mut at = pairs.behind;
    let mut to = into;
    'pairs: for i in 0..pairs.size {
        let key = take_short_text::<R, W>(frame, at, cells, to, stand, Hint::Unknown)?;
        let value = L::take::<R, W>(frame, key.read, cells, key.written, Stand::Value)?;
        at = value.read;
        to = value.written;
        stand = Stand::Key;
    }
    let read = R::end(frame, at, Container::Map)?;
    let written = W::end(cells, to, Container::Map);
    Some(Reach { read, written })
}
