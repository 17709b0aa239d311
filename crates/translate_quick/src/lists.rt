//! Lists and sets of numbers and of strings that were read to their elements: what announces them is written with a kind that is known when
//! the code is built.
ghost use Rattle.std.specs.Prelude.{◌≡◌, ◌≤◌, ◌<◌, ◌^◌, length, IfSome};
ghost use Rattle.thrift_value.specs.declared.kind.Kind.{Kind};
ghost use Rattle.protocol_traits.specs.declared.forms.Container.{Container};
ghost use Rattle.protocol_traits.specs.Forms.{IsPast, container_kind};
ghost use Rattle.translate_known.specs.Quick.{Grows, HasRoom, Informs};
ghost use Rattle.translate_quick.specs.Levels.{FoundList, TookLeafLevel, TookTextList};

use crate::leaves::{AROUND, Leaf};
use crate::runs::{take_leaves, take_texts};
use protocol_traits::{Container, FormRead, FormWrite, Stand};
use thrift_value::Kind;
use translate_known::{Known, Reach};
use type_tables::Schema;

/// Takes a list or set whose elements have a leaf's kind.
#[inline(always)]
pub fn take_leaf_list<R: FormRead, W: FormWrite, L: Leaf>(
    frame: &[u8],
    at: usize,
    behind: usize,
    cells: &mut [u8],
    to: usize,
    stand: Stand,
    container: Container,
    size: u32,
) -> Option<Reach>
    requires place { IsPast at frame.now behind }
    requires found { FoundList R.ReadRules frame.now at stand container L.kind size behind }
    requires room { HasRoom AROUND frame.now at cells.old to }
    requires no_map { container ≡ Container.Map → ⊥ }
    ensures kept { length cells.new ≡ length cells.old }
    ensures past { IfSome result (λ x. IsPast at frame.now x.read) }
    ensures grows { IfSome result (λ x. Grows at to x.read x.written) }
    ensures takes { TookLeafLevel R.ReadRules W.WireWrite frame.now at stand (container_kind container) cells.old to cells.new result }
{
    let into = W::elements(cells, to, stand, container, L::own_kind(), size)?;
    let reach = take_leaves::<R, W, L>(frame, behind, cells, into, size)?;
    let read = R::end(frame, reach.read, container)?;
    let written = W::end(cells, reach.written, container);
    Some(Reach { read, written })
}

/// Takes a list or set of strings of which this is known.
#[inline(always)]
pub fn take_text_list<R: FormRead, W: FormWrite, K: Known>(
    known: K,
    schema: &Schema,
    frame: &[u8],
    at: usize,
    behind: usize,
    cells: &mut [u8],
    to: usize,
    stand: Stand,
    container: Container,
    size: u32,
) -> Option<Reach>
    requires known { K.sound known schema.now }
    requires informed { Informs K.tells R.hinted W.hinted }
    requires size { length frame.now < 2 ^ 31 }
    requires place { IsPast at frame.now behind }
    requires found { FoundList R.ReadRules frame.now at stand container Kind.Str size behind }
    requires room { HasRoom AROUND frame.now at cells.old to }
    requires no_map { container ≡ Container.Map → ⊥ }
    ensures kept { length cells.new ≡ length cells.old }
    ensures past { IfSome result (λ x. IsPast at frame.now x.read) }
    ensures grows { IfSome result (λ x. Grows at to x.read x.written) }
    ensures takes { TookTextList R.ReadRules W.WireWrite (K.means known) schema.now frame.now at stand (container_kind container) cells.old to cells.new result }
{
    let into = W::elements(cells, to, stand, container, Kind::Str, size)?;
    let element = known.element(schema, container, Kind::Str);
    let hint = element.hint();
    let reach = take_texts::<R, W>(frame, behind, cells, into, hint, size)?;
    let read = R::end(frame, reach.read, container)?;
    let written = W::end(cells, reach.written, container);
    Some(Reach { read, written })
}
