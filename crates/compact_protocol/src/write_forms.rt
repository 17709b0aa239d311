//! The writer's quick forms: one item laid into the cells, by value.
ghost use Rattle.std.specs.Prelude.{◌≡◌, ◌≤◌, ◌<◌, ◌+◌, ◌*◌, ◌%◌, ◌^◌, ◌∷◌, ◌++◌, [], false, length, take};
ghost use Rattle.protocol_traits.specs.Heads.{header_of};
ghost use Rattle.varint_zigzag.specs.Varint.{shortest};
ghost use Rattle.varint_zigzag.specs.Zigzag.{folded};
ghost use Rattle.compact_protocol.specs.Codes.{code_of};
ghost use Rattle.compact_protocol.specs.Plain.{field_spelling, elements_spelling, head_spelling};
ghost use Rattle.compact_protocol.specs.WriteForms.{starts_at, goes_on};

use crate::writer::{CompactWrite, code_of, flag_code, short_step, type_code};
use cell_writes::{lay, lay_fixed, lay_part, lay_short};
use protocol_traits::{Container, FormWrite, Head, Hint, Mark, Opening, Stand, UUID};
use thrift_value::Kind;
use varint_zigzag::{put_size, put_u32, put_u64, zigzag32, zigzag64};

/// So many cells are free for a header besides its name's: it takes at most twelve, and its numbers are laid eight cells
/// at a time.
const AROUND_NAME: usize = 16;

#[tactic(auto, unfolding(crate::specs::Plain::spelling, crate::specs::Plain::string_spelling))]
impl FormWrite for CompactWrite {
    ghost hinted = { false };

    ghost marked = { false };

    ghost starts_at = { starts_at };

    ghost goes_on = { goes_on };

    #[inline(always)]
    fn is_hinted() -> bool {
        false
    }

    #[inline(always)]
    fn is_marked() -> bool {
        false
    }

    #[inline(always)]
    fn front(cells: &mut [u8], to: usize, head: &Head<'_>) -> usize {
        lay_head(cells, to, head)
    }

    #[inline(always)]
    fn field(
        cells: &mut [u8],
        to: usize,
        _opening: Opening,
        last: i16,
        id: i16,
        kind: Kind,
    ) -> usize {
        lay_field(cells, to, last, id, code_of(kind))
    }

    #[inline(always)]
    fn flag(
        cells: &mut [u8],
        to: usize,
        _opening: Opening,
        last: i16,
        id: i16,
        value: bool,
    ) -> usize {
        lay_field(cells, to, last, id, flag_code(value))
    }

    #[inline(always)]
    fn stop(cells: &mut [u8], to: usize, _opening: Opening, _depth: usize) -> usize {
        lay(cells, to, &[0])
    }

    #[inline(always)]
    fn bool(cells: &mut [u8], to: usize, _stand: Stand, value: bool) -> usize {
        lay(cells, to, &[flag_code(value)])
    }

    #[inline(always)]
    fn i8(cells: &mut [u8], to: usize, _stand: Stand, value: i8) -> usize {
        lay(cells, to, &[value.cast_unsigned()])
    }

    #[inline(always)]
    fn i16(cells: &mut [u8], to: usize, _stand: Stand, value: i16) -> usize {
        put_u32(cells, to, zigzag32(i32::from(value)))
    }

    #[inline(always)]
    fn i32(cells: &mut [u8], to: usize, _stand: Stand, value: i32) -> usize {
        put_u32(cells, to, zigzag32(value))
    }

    #[inline(always)]
    fn i64(cells: &mut [u8], to: usize, _stand: Stand, value: i64) -> usize {
        put_u64(cells, to, zigzag64(value))
    }

    #[inline(always)]
    fn double(cells: &mut [u8], to: usize, _stand: Stand, value: u64) -> Option<usize> {
        Some(lay(cells, to, &value.to_le_bytes()))
    }

    #[inline(always)]
    fn uuid(
        cells: &mut [u8],
        to: usize,
        _stand: Stand,
        frame: &[u8],
        begin: usize,
    ) -> Option<usize> {
        Some(lay_fixed::<UUID>(cells, to, frame, begin))
    }

    #[inline(always)]
    fn text(
        cells: &mut [u8],
        to: usize,
        _stand: Stand,
        _hint: Hint,
        frame: &[u8],
        begin: usize,
        end: usize,
    ) -> Option<usize> {
        let to = put_size(cells, to, (end - begin) as u32);
        Some(lay_part(cells, to, frame, begin, end))
    }

    #[inline(always)]
    fn struct_begin(_cells: &mut [u8], to: usize, _stand: Stand) -> usize {
        to
    }

    #[inline(always)]
    fn elements(
        cells: &mut [u8],
        to: usize,
        _stand: Stand,
        _container: Container,
        kind: Kind,
        size: u32,
    ) -> Option<usize> {
        Some(lay_elements(cells, to, kind, size))
    }

    #[inline(always)]
    fn pairs(
        cells: &mut [u8],
        to: usize,
        _stand: Stand,
        key: Kind,
        value: Kind,
        size: u32,
    ) -> Option<usize> {
        let to = put_size(cells, to, size);
        Some(lay(cells, to, &[16 * code_of(key) + code_of(value)]))
    }

    #[inline(always)]
    fn no_pairs(cells: &mut [u8], to: usize, _stand: Stand, _known: Mark) -> usize {
        lay(cells, to, &[0])
    }

    #[inline(always)]
    fn end(_cells: &mut [u8], to: usize, _container: Container) -> usize {
        to
    }
}

/// Lays a header into the cells from a place on, and gives the place behind it.
#[inline(always)]
#[tactic(auto, unfolding(crate::specs::Plain::head_spelling, crate::specs::Plain::string_spelling))]
fn lay_head(cells: &mut [u8], to: usize, head: &Head<'_>) -> usize
    requires size { length head.now.name.now < 2 ^ 31 }
    requires room { to + (length head.now.name.now + AROUND_NAME) ≤ length cells.old }
    ensures laid { take result cells.new ≡ take to cells.old ++ head_spelling (header_of head.now) }
    ensures short { result ≤ to + (length head.now.name.now + AROUND_NAME) }
{
    let to = lay(cells, to, &[0x82, 32 * type_code(head.mtype) + 1]);
    let to = put_u32(cells, to, head.seq.cast_unsigned());
    let to = put_size(cells, to, head.name.len() as u32);
    lay_short(cells, to, head.name)
}

/// Lays a field's byte, and its id where it lies no 1 to 15 above the last.
#[inline(always)]
#[tactic(auto, unfolding(crate::specs::Plain::field_spelling))]
fn lay_field(cells: &mut [u8], to: usize, last: i16, id: i16, code: u8) -> usize
    requires code { code < 16 }
    requires room { to + 9 ≤ length cells.old }
    ensures laid { take result cells.new ≡ take to cells.old ++ field_spelling last id code }
    ensures short { result ≤ to + 6 }
{
    match short_step(last, id) {
        Some(step) => lay(cells, to, &[16 * step + code]),
        None => lay_long_field(cells, to, id, code),
    }
}

/// Lays a field's kind, and its id in full.
#[cold]
#[inline(never)]
fn lay_long_field(cells: &mut [u8], to: usize, id: i16, code: u8) -> usize
    requires { to + 9 ≤ length cells.old }
    ensures laid { take result cells.new ≡ take to cells.old ++ code ∷ shortest (folded id % 65536) }
    ensures short { result ≤ to + 6 }
{
    let to = lay(cells, to, &[code]);
    put_u32(cells, to, zigzag32(i32::from(id)) % 65536)
}

/// Lays the kind and the number of the elements of a list or a set.
#[inline(always)]
#[tactic(auto, unfolding(crate::specs::Plain::elements_spelling))]
fn lay_elements(cells: &mut [u8], to: usize, kind: Kind, size: u32) -> usize
    requires { to + 9 ≤ length cells.old }
    ensures laid { take result cells.new ≡ take to cells.old ++ elements_spelling kind size }
    ensures short { result ≤ to + 6 }
{
    let code = code_of(kind);
    if size < 15 {
        return lay(cells, to, &[16 * size as u8 + code]);
    }
    let to = lay(cells, to, &[240 + code]);
    put_u32(cells, to, size)
}
