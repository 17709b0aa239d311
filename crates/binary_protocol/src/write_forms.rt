//! The writer's quick forms: one item laid into the cells, by value.
ghost use Rattle.std.specs.Prelude.{◌≡◌, ◌≤◌, ◌+◌, ◌∷◌, ◌++◌, false, true, length, take};
ghost use Rattle.binary_protocol.specs.Codes.{code_of_kind};
ghost use Rattle.binary_protocol.specs.Grammar.{size as size_of};
ghost use Rattle.binary_protocol.specs.WriteForms.{goes_on, starts_at};

use crate::codes::code_of_kind;
use crate::writer::{BinaryWrite, lay_head};
use cell_writes::{lay, lay_fixed, lay_part};
use protocol_traits::{Container, FormWrite, Head, Hint, Mark, Opening, Stand, UUID};
use thrift_value::Kind;

impl FormWrite for BinaryWrite {
    ghost hinted = { false };

    ghost marked = { true };

    ghost starts_at = { starts_at };

    ghost goes_on = { goes_on };

    #[inline(always)]
    fn is_hinted() -> bool {
        false
    }

    #[inline(always)]
    fn is_marked() -> bool {
        true
    }

    #[inline(always)]
    fn front(cells: &mut [u8], to: usize, head: &Head<'_>) -> usize {
        lay_head(cells, to, head)
    }

    #[inline(always)]
    fn field(
        cells: &mut [u8],
        to: usize,
        _opening: Opening,
        _last: i16,
        id: i16,
        kind: Kind,
    ) -> usize {
        let to = lay(cells, to, &[code_of_kind(kind)]);
        lay(cells, to, &id.to_be_bytes())
    }

    #[inline(always)]
    fn flag(
        cells: &mut [u8],
        to: usize,
        _opening: Opening,
        _last: i16,
        id: i16,
        value: bool,
    ) -> usize {
        let to = lay(cells, to, &[code_of_kind(Kind::Bool)]);
        let to = lay(cells, to, &id.to_be_bytes());
        lay(cells, to, &[value as u8])
    }

    #[inline(always)]
    fn stop(cells: &mut [u8], to: usize, _opening: Opening, _depth: usize) -> usize {
        lay(cells, to, &[0])
    }

    #[inline(always)]
    fn bool(cells: &mut [u8], to: usize, _stand: Stand, value: bool) -> usize {
        lay(cells, to, &[value as u8])
    }

    #[inline(always)]
    fn i8(cells: &mut [u8], to: usize, _stand: Stand, value: i8) -> usize {
        lay(cells, to, &value.to_be_bytes())
    }

    #[inline(always)]
    fn i16(cells: &mut [u8], to: usize, _stand: Stand, value: i16) -> usize {
        lay(cells, to, &value.to_be_bytes())
    }

    #[inline(always)]
    fn i32(cells: &mut [u8], to: usize, _stand: Stand, value: i32) -> usize {
        lay(cells, to, &value.to_be_bytes())
    }

    #[inline(always)]
    fn i64(cells: &mut [u8], to: usize, _stand: Stand, value: i64) -> usize {
        lay(cells, to, &value.to_be_bytes())
    }

    #[inline(always)]
    fn double(cells: &mut [u8], to: usize, _stand: Stand, value: u64) -> Option<usize> {
        Some(lay(cells, to, &value.to_be_bytes()))
    }

    #[inline(always)]
    fn uuid(
        cells: &mut [u8],
        to: usize,
        _stand: Stand,
        frame: &[u8],
        begin: usize,
    ) -> Option<usize> {
        Some(lay_fixed::<UUID>(cells, to, frame, begin))
    }

    #[inline(always)]
    fn text(
        cells: &mut [u8],
        to: usize,
        _stand: Stand,
        _hint: Hint,
        frame: &[u8],
        begin: usize,
        end: usize,
    ) -> Option<usize> {
        let size = (end - begin) as u32;
        let to = lay(cells, to, &size.to_be_bytes());
        Some(lay_part(cells, to, frame, begin, end))
    }

    #[inline(always)]
    fn struct_begin(_cells: &mut [u8], to: usize, _stand: Stand) -> usize {
        to
    }

    #[inline(always)]
    fn elements(
        cells: &mut [u8],
        to: usize,
        _stand: Stand,
        _container: Container,
        kind: Kind,
        size: u32,
    ) -> Option<usize> {
        let to = lay(cells, to, &[code_of_kind(kind)]);
        Some(lay(cells, to, &size.to_be_bytes()))
    }

    #[inline(always)]
    fn pairs(
        cells: &mut [u8],
        to: usize,
        _stand: Stand,
        key: Kind,
        value: Kind,
        size: u32,
    ) -> Option<usize> {
        Some(lay_pairs(cells, to, key, value, size))
    }

    #[inline(always)]
    fn no_pairs(cells: &mut [u8], to: usize, _stand: Stand, known: Mark) -> usize {
        lay_pairs(cells, to, known.key, known.value, 0)
    }

    #[inline(always)]
    fn end(_cells: &mut [u8], to: usize, _container: Container) -> usize {
        to
    }
}

/// Lays what stands before the pairs of a map.
#[inline(always)]
fn lay_pairs(cells: &mut [u8], to: usize, key: Kind, value: Kind, size: u32) -> usize
    requires { to + 6 ≤ length cells.old }
    ensures laid { take result cells.new ≡ take to cells.old ++ (code_of_kind key ∷ code_of_kind value ∷ size_of size) }
    ensures place { result ≡ to + 6 }
{
    let to = lay(cells, to, &[code_of_kind(key), code_of_kind(value)]);
    lay(cells, to, &size.to_be_bytes())
}
