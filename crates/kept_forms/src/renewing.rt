//! An empty map that stands in the cells, laid anew.
ghost use Rattle.std.specs.Prelude.{◌≡◌, ◌+◌, ◌≤◌, ◌<◌, length, drop, true};
ghost use Rattle.protocol_traits.specs.Forms.{IsPast, SpellsNoPairs};

use protocol_traits::{FormWrite, Mark, Stand, WIDE};

/// Lays an empty map over the cells between two places, and no others, if it has as many bytes.
#[inline(always)]
pub fn renew<W: FormWrite>(
    cells: &mut [u8],
    at: usize,
    behind: usize,
    stand: Stand,
    known: Mark,
) -> bool
    requires { IsPast at cells.old behind }
    ensures kept { length cells.new ≡ length cells.old }
    ensures rest { drop behind cells.new ≡ drop behind cells.old }
    ensures spells { result ≡ true → SpellsNoPairs W.bar W.plain W.stands_at W.marked known cells.old at cells.new behind stand }
{
    let mut own = [0; WIDE];
    let size = W::no_pairs(&mut own, 0, stand, known);
    if behind - at != size {
        return false;
    }
    cells[at..behind].copy_from_slice(&own[..size]);
    true
}
