//! What stands before an item in its level, and what closes the level.
ghost use Rattle.std.specs.Prelude.{◌≡◌, ◌+◌, ◌≤◌, ◌++◌, ◌∷◌, [], Some, length};
ghost use Rattle.message_show.specs.Line.{comma, mark_before, closing};

use crate::line::{Line, ROOM};
use protocol_traits::Slot;

/// Appends what stands before a field, an element, a key or a value: the first of its level has no comma.
#[inline(always)]
#[tactic(auto, unfolding(crate::specs::Line::colon), using(crate::proofs::Told::same_line))]
pub fn push_lead<'c>(line: Line<'c>, level: Slot, first: bool) -> Line<'c>
    requires { length line.bytes + 2 ≤ ROOM }
    ensures text { result ≡ record line.entry { bytes = line.entry.bytes ++ mark_before first (Some level) } }
    ensures short { length result.bytes ≤ length line.entry.bytes + 2 }
{
    match level {
        Slot::Values(_, _, _) => line.push(b": "),
        Slot::Value(_, _) => line,
        Slot::Fields(_) | Slot::Elements(_, _) | Slot::Keys(_, _, _) => push_comma(line, first),
    }
}

#[inline(always)]
#[tactic(auto, unfolding(crate::specs::Line::comma), using(crate::proofs::Told::same_line))]
fn push_comma<'c>(line: Line<'c>, first: bool) -> Line<'c>
    requires { length line.bytes + 2 ≤ ROOM }
    ensures text { result ≡ record line.entry { bytes = line.entry.bytes ++ comma first } }
    ensures short { length result.bytes ≤ length line.entry.bytes + 2 }
{
    if first { line } else { line.push(b", ") }
}

/// What closes a container.
#[inline(always)]
#[tactic(auto, unfolding(crate::specs::Line::brace, crate::specs::Line::bracket))]
pub fn closing(level: Slot) -> u8
    ensures { result ∷ [] ≡ closing (Some level) }
{
    match level {
        Slot::Keys(_, _, _) => b'}',
        Slot::Fields(_) | Slot::Value(_, _) | Slot::Elements(_, _) | Slot::Values(_, _, _) => b']',
    }
}
