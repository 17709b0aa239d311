//! The writer's quick forms: one item laid into the cells, by value.
ghost use Rattle.std.specs.Prelude.{◌≡◌, ◌+◌, ◌*◌, ◌≤◌, ◌∷◌, ◌++◌, true, length, take, IfSome};
ghost use Rattle.std.specs.Str.{is_utf8};
ghost use Rattle.json_text.specs.Blob.{blob_spelling};
ghost use Rattle.json_text.specs.Plain.{text_spelling};
ghost use Rattle.json_protocol.specs.Writing.{flag, kinds_spelling, sequence_spelling, stop_spelling};
ghost use Rattle.json_protocol.specs.WriteForms.{starts_at, goes_on, stand_lead};

use crate::lay::{
    container_end, flag_word, lay_both, lay_field, lay_marks, lay_name, lay_whole, stand_key,
    stand_lead, stop_marks,
};
use crate::put::type_digit;
use crate::writer::{JsonWrite, is_uuid};
use cell_writes::lay;
use json_text::{lay_blob, lay_int, lay_text, lay_utf8};
use protocol_traits::{Container, FormWrite, Head, Hint, Mark, Opening, Stand};
use thrift_value::Kind;

impl FormWrite for JsonWrite {
    ghost hinted = { true };

    ghost marked = { true };

    ghost starts_at = { starts_at };

    ghost goes_on = { goes_on };

    #[inline(always)]
    fn is_hinted() -> bool {
        true
    }

    #[inline(always)]
    fn is_marked() -> bool {
        true
    }

    #[inline(always)]
    fn front(cells: &mut [u8], to: usize, head: &Head<'_>) -> usize {
        let name = lay(cells, to, b"[1,");
        let (behind, _) = lay_utf8(cells, name, head.name, head.name.len());
        let digit = lay_both(cells, behind, b",", type_digit(head.mtype));
        let number = lay(cells, digit, b",");
        let end = lay_int(cells, number, i64::from(head.seq));
        lay(cells, end, b",")
    }

    #[inline(always)]
    fn field(
        cells: &mut [u8],
        to: usize,
        opening: Opening,
        _last: i16,
        id: i16,
        kind: Kind,
    ) -> usize {
        lay_field(cells, to, opening, i64::from(id), kind)
    }

    #[inline(always)]
    fn flag(
        cells: &mut [u8],
        to: usize,
        opening: Opening,
        _last: i16,
        id: i16,
        value: bool,
    ) -> usize {
        let to = lay_field(cells, to, opening, i64::from(id), Kind::Bool);
        lay(cells, to, flag_value(value))
    }

    #[inline(always)]
    fn stop(cells: &mut [u8], to: usize, opening: Opening, depth: usize) -> usize {
        lay_both(cells, to, stop_marks(opening), stop_word(depth))
    }

    #[inline(always)]
    fn bool(cells: &mut [u8], to: usize, stand: Stand, value: bool) -> usize {
        lay_both(
            cells,
            to,
            stand_lead(stand),
            flag_word(stand_key(stand), value),
        )
    }

    #[inline(always)]
    fn i8(cells: &mut [u8], to: usize, stand: Stand, value: i8) -> usize {
        lay_whole(cells, to, stand, i64::from(value))
    }

    #[inline(always)]
    fn i16(cells: &mut [u8], to: usize, stand: Stand, value: i16) -> usize {
        lay_whole(cells, to, stand, i64::from(value))
    }

    #[inline(always)]
    fn i32(cells: &mut [u8], to: usize, stand: Stand, value: i32) -> usize {
        lay_whole(cells, to, stand, i64::from(value))
    }

    #[inline(always)]
    fn i64(cells: &mut [u8], to: usize, stand: Stand, value: i64) -> usize {
        lay_whole(cells, to, stand, value)
    }

    #[inline(always)]
    fn double(_cells: &mut [u8], _to: usize, _stand: Stand, _value: u64) -> Option<usize> {
        None
    }

    #[inline(always)]
    fn uuid(
        _cells: &mut [u8],
        _to: usize,
        _stand: Stand,
        _frame: &[u8],
        _begin: usize,
    ) -> Option<usize> {
        None
    }

    #[inline(always)]
    fn text(
        cells: &mut [u8],
        to: usize,
        stand: Stand,
        hint: Hint,
        frame: &[u8],
        begin: usize,
        end: usize,
    ) -> Option<usize> {
        match hint {
            Hint::Text => lay_string(cells, to, stand, &frame[begin..], end - begin),
            Hint::Blob => Some(lay_base64(cells, to, stand, &frame[begin..end])),
            Hint::Unknown => None,
        }
    }

    #[inline(always)]
    fn struct_begin(cells: &mut [u8], to: usize, stand: Stand) -> usize {
        lay_both(cells, to, stand_lead(stand), b"{")
    }

    #[inline(always)]
    fn elements(
        cells: &mut [u8],
        to: usize,
        stand: Stand,
        _container: Container,
        kind: Kind,
        size: u32,
    ) -> Option<usize> {
        if is_uuid(kind) {
            return None;
        }
        let to = lay_marks(cells, to, stand_lead(stand));
        Some(lay_sequence(cells, to, kind, size))
    }

    #[inline(always)]
    fn pairs(
        cells: &mut [u8],
        to: usize,
        stand: Stand,
        key: Kind,
        value: Kind,
        size: u32,
    ) -> Option<usize> {
        if is_uuid(key) || is_uuid(value) {
            return None;
        }
        let to = lay_kinds(cells, to, stand, key, value);
        Some(lay_int(cells, to, i64::from(size)))
    }

    #[inline(always)]
    fn no_pairs(cells: &mut [u8], to: usize, stand: Stand, known: Mark) -> usize {
        let to = lay_kinds(cells, to, stand, known.key, known.value);
        lay(cells, to, b"0,{}]")
    }

    #[inline(always)]
    fn end(cells: &mut [u8], to: usize, container: Container) -> usize {
        lay(cells, to, container_end(container))
    }
}

/// A bool field's value with the mark before it.
#[inline(always)]
fn flag_value(value: bool) -> &'static [u8]
    ensures word { result.now ≡ 58 ∷ flag value }
    ensures few { length result.now ≤ 2 }
{
    if value { b":1" } else { b":0" }
}

/// The end of a struct that is the innermost of so many levels. The last one closes the message too.
#[inline(always)]
fn stop_word(depth: usize) -> &'static [u8]
    ensures word { result.now ≡ stop_spelling depth }
    ensures few { length result.now ≤ 2 }
{
    if depth == 1 { b"}]" } else { b"}" }
}

/// Lays a text, the first bytes of some so many, with the marks before it. `None` where it is no UTF-8.
#[inline(always)]
fn lay_string(cells: &mut [u8], to: usize, stand: Stand, bytes: &[u8], size: usize) -> Option<usize>
    requires size { size ≤ length bytes.now }
    requires room { to + (6 * size + 5 + 32) ≤ length cells.old }
    ensures utf8 { IfSome result (λ x. is_utf8 (take size bytes.now) ≡ true) }
    ensures laid { IfSome result (λ x. take x cells.new ≡ take to cells.old ++ (stand_lead stand ++ text_spelling (take size bytes.now))) }
    ensures short { IfSome result (λ x. x ≤ to + (6 * size + 5)) }
{
    let to = lay_marks(cells, to, stand_lead(stand));
    lay_text(cells, to, bytes, size)
}

/// Lays a base64 string with the marks before it.
fn lay_base64(cells: &mut [u8], to: usize, stand: Stand, bytes: &[u8]) -> usize
    requires { to + (6 * length bytes.now + 5) ≤ length cells.old }
    ensures laid { take result cells.new ≡ take to cells.old ++ (stand_lead stand ++ blob_spelling bytes.now) }
    ensures short { result ≤ to + (6 * length bytes.now + 5) }
{
    let to = lay_marks(cells, to, stand_lead(stand));
    lay_blob(cells, to, bytes)
}

/// Lays the kind and the number of the elements of a list or a set.
#[inline(always)]
fn lay_sequence(cells: &mut [u8], to: usize, kind: Kind, size: u32) -> usize
    requires { to + 28 ≤ length cells.old }
    ensures laid { take result cells.new ≡ take to cells.old ++ sequence_spelling kind size }
    ensures short { result ≤ to + 17 }
{
    let name = lay(cells, to, b"[");
    let behind = lay_name(cells, name, kind);
    let number = lay(cells, behind, b",");
    lay_int(cells, number, i64::from(size))
}

/// Lays the kinds of a map's keys and values with the marks before them.
#[inline(always)]
fn lay_kinds(cells: &mut [u8], to: usize, stand: Stand, key: Kind, value: Kind) -> usize
    requires { to + 15 ≤ length cells.old }
    ensures laid { take result cells.new ≡ take to cells.old ++ (stand_lead stand ++ kinds_spelling key value) }
    ensures short { result ≤ to + 15 }
{
    let begin = lay_marks(cells, to, stand_lead(stand));
    let first = lay(cells, begin, b"[");
    let behind = lay_name(cells, first, key);
    let second = lay(cells, behind, b",");
    let end = lay_name(cells, second, value);
    lay(cells, end, b",")
}
