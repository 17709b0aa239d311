//! Elements of a list or set that are no levels, one after another.
ghost use Rattle.std.specs.Prelude.{◌≡◌, ◌≤◌, ◌<◌, ◌^◌, length, IfSome};
ghost use Rattle.translate_known.specs.Quick.{Grows, HasRoom, TookLeaves, TookTexts, reached};

use crate::leaves::{AROUND, Leaf, take_short_text};
use protocol_traits::{FormRead, FormWrite, Hint, Stand};
use translate_known::Reach;

/// Takes so many elements of a kind that is neither a string nor a level.
#[inline(always)]
pub fn take_leaves<R: FormRead, W: FormWrite, L: Leaf>(
    frame: &[u8],
    from: usize,
    cells: &mut [u8],
    into: usize,
    size: u32,
) -> Option<Reach>
    requires place { from ≤ length frame.now }
    requires room { HasRoom AROUND frame.now from cells.old into }
    ensures kept { length cells.new ≡ length cells.old }
    ensures place { IfSome result (λ x. (from ≤ x.read) × (x.read ≤ length frame.now)) }
    ensures grows { IfSome result (λ x. Grows from into x.read x.written) }
    ensures takes { TookLeaves R.ReadRules W.WireWrite frame.now from L.kind size cells.old into cells.new result }
{
    let mut at = from;
    let mut to = into;
    'elements: for i in 0..size {
        let reach = L::take::<R, W>(frame, at, cells, to, Stand::Element)?;
        at = reach.read;
        to = reach.written;
    }
    Some(Reach {
        read: at,
        written: to,
    })
}

/// The same by a call, for kinds that are rare in lists.
#[inline(always)]
pub fn take_rare_leaves<R: FormRead, W: FormWrite, L: Leaf>(
    frame: &[u8],
    from: usize,
    cells: &mut [u8],
    into: usize,
    size: u32,
) -> Option<Reach>
    requires place { from ≤ length frame.now }
    requires room { HasRoom AROUND frame.now from cells.old into }
    ensures kept { length cells.new ≡ length cells.old }
    ensures place { IfSome result (λ x. (from ≤ x.read) × (x.read ≤ length frame.now)) }
    ensures grows { IfSome result (λ x. Grows from into x.read x.written) }
    ensures takes { TookLeaves R.ReadRules W.WireWrite frame.now from L.kind size cells.old into cells.new result }
{
    let mut written = into;
    let read = call_leaves::<R, W, L>(frame, from, cells, &mut written, size)?;
    Some(Reach { read, written })
}

/// Answers the place behind the elements in the frame, and moves `into` to the one in the cells.
#[inline(never)]
fn call_leaves<R: FormRead, W: FormWrite, L: Leaf>(
    frame: &[u8],
    from: usize,
    cells: &mut [u8],
    into: &mut usize,
    size: u32,
) -> Option<usize>
    requires place { from ≤ length frame.now }
    requires room { HasRoom AROUND frame.now from cells.old into.old }
    ensures kept { length cells.new ≡ length cells.old }
    ensures place { IfSome result (λ read. (from ≤ read) × (read ≤ length frame.now)) }
    ensures grows { IfSome result (λ read. Grows from into.old read into.new) }
    ensures takes { TookLeaves R.ReadRules W.WireWrite frame.now from L.kind size cells.old into.old cells.new (reached result into.new) }
{
    let reach = take_leaves::<R, W, L>(frame, from, cells, *into, size)?;
    *into = reach.written;
    Some(reach.read)
}

/// Takes so many strings. Where reading or writing depends on the position, `hint` is what it says.
#[inline(always)]
pub fn take_texts<R: FormRead, W: FormWrite>(
    frame: &[u8],
    from: usize,
    cells: &mut [u8],
    into: usize,
    hint: Hint,
    size: u32,
) -> Option<Reach>
    requires size { length frame.now < 2 ^ 31 }
    requires place { from ≤ length frame.now }
    requires room { HasRoom AROUND frame.now from cells.old into }
    ensures kept { length cells.new ≡ length cells.old }
    ensures place { IfSome result (λ x. (from ≤ x.read) × (x.read ≤ length frame.now)) }
    ensures grows { IfSome result (λ x. Grows from into x.read x.written) }
    ensures takes { TookTexts R.ReadRules W.WireWrite R.hinted W.hinted hint frame.now from size cells.old into cells.new result }
{
    let mut at = from;
    let mut to = into;
    'elements: for i in 0..size {
        let reach = take_short_text::<R, W>(frame, at, cells, to, Stand::Element, hint)?;
        at = reach.read;
        to = reach.written;
    }
    Some(Reach {
        read: at,
        written: to,
    })
}
