//! The pieces of plain TJSON laid into cells from a place on.
ghost use Rattle.std.specs.Prelude.{◌≡◌, ℤ, pos, ◌+◌, ◌≤◌, ◌≤ℤ◌, ◌<ℤ◌, ◌∷◌, [], ◌++◌, length, take};
ghost use Rattle.std.specs.Fmt.{signed_decimal};
ghost use Rattle.json_protocol.specs.Writing.{quoted, kind_name, number, flag, field_spelling};
ghost use Rattle.json_protocol.specs.WriteForms.{stand_lead, stand_key, field_marks, stop_marks, end_marks};

use cell_writes::lay;
use json_text::lay_int;
use protocol_traits::{Container, Opening, Stand};
use thrift_value::Kind;

/// The marks before a value.
#[inline(always)]
pub fn stand_lead(stand: Stand) -> &'static [u8]
    ensures marks { result.now ≡ stand_lead stand }
    ensures few { length result.now ≤ 2 }
{
    match stand {
        Stand::Field | Stand::Value => b":",
        Stand::Element | Stand::Key => b",",
        Stand::FirstKey => b",{",
    }
}

/// Whether a number that stands there is in quotes.
#[inline(always)]
pub fn stand_key(stand: Stand) -> bool
    ensures { result ≡ stand_key stand }
{
    matches!(stand, Stand::FirstKey | Stand::Key)
}

/// The marks before a field.
#[inline(always)]
fn field_marks(opening: Opening) -> &'static [u8]
    ensures marks { result.now ≡ field_marks opening }
    ensures few { length result.now ≤ 2 }
{
    match opening {
        Opening::Body => b"{",
        Opening::New => b"",
        Opening::Old => b"},",
    }
}

/// The marks before the end of a struct.
#[inline(always)]
pub fn stop_marks(opening: Opening) -> &'static [u8]
    ensures marks { result.now ≡ stop_marks opening }
    ensures few { length result.now ≤ 1 }
{
    match opening {
        Opening::Body => b"{",
        Opening::New => b"",
        Opening::Old => b"}",
    }
}

/// The end of a container, with the mark before it.
#[inline(always)]
pub fn container_end(container: Container) -> &'static [u8]
    ensures { result.now ≡ end_marks container ++ 93 ∷ [] }
{
    match container {
        Container::Map => b"}]",
        Container::Set | Container::List => b"]",
    }
}

/// A kind's name in quotes.
#[inline(always)]
fn quoted_name(kind: Kind) -> &'static [u8]
    ensures name { result.now ≡ quoted (kind_name kind) }
    ensures few { length result.now ≤ 5 }
    ensures some { 4 ≤ length result.now }
{
    match kind {
        Kind::Bool => b"\"tf\"",
        Kind::I8 => b"\"i8\"",
        Kind::I16 => b"\"i16\"",
        Kind::I32 => b"\"i32\"",
        Kind::I64 => b"\"i64\"",
        Kind::Double => b"\"dbl\"",
        Kind::Str => b"\"str\"",
        Kind::Struct => b"\"rec\"",
        Kind::Map => b"\"map\"",
        Kind::Set => b"\"set\"",
        Kind::List => b"\"lst\"",
        Kind::Uuid => b"\"i8\"",
    }
}

/// A bool, in quotes where it is a key.
#[inline(always)]
pub fn flag_word(key: bool, value: bool) -> &'static [u8]
    ensures word { result.now ≡ number key (flag value) }
    ensures few { length result.now ≤ 3 }
{
    match (key, value) {
        (false, false) => b"0",
        (false, true) => b"1",
        (true, false) => b"\"0\"",
        (true, true) => b"\"1\"",
    }
}

/// Lays marks. How many there are is often not known when the code is built, so they are stored byte by byte.
#[inline(always)]
pub fn lay_marks(cells: &mut [u8], to: usize, marks: &[u8]) -> usize
    requires few { length marks.now ≤ 2 }
    requires room { to + length marks.now ≤ length cells.old }
    ensures laid { take result cells.new ≡ take to cells.old ++ marks.now }
    ensures place { result ≡ to + length marks.now }
{
    match *marks {
        [] => to,
        [only] => lay(cells, to, &[only]),
        [first, second, ..] => lay(cells, to, &[first, second]),
    }
}

/// Lays a kind's name in quotes. It has four or five bytes, and which is often not known when the code is built, so each number of bytes
/// has a copy of its own.
#[inline(always)]
pub fn lay_name(cells: &mut [u8], to: usize, kind: Kind) -> usize
    requires { to + 5 ≤ length cells.old }
    ensures laid { take result cells.new ≡ take to cells.old ++ quoted (kind_name kind) }
    ensures short { result ≤ to + 5 }
{
    match *quoted_name(kind) {
        [quote, first, second, end] => lay(cells, to, &[quote, first, second, end]),
        [quote, first, second, third, end] => lay(cells, to, &[quote, first, second, third, end]),
        _ => to,
    }
}

/// Lays marks and what stands behind them.
#[inline]
pub fn lay_both(cells: &mut [u8], to: usize, marks: &[u8], word: &[u8]) -> usize
    requires few { length marks.now ≤ 2 }
    requires room { to + (length marks.now + length word.now) ≤ length cells.old }
    ensures laid { take result cells.new ≡ take to cells.old ++ (marks.now ++ word.now) }
    ensures place { result ≡ to + (length marks.now + length word.now) }
{
    let to = lay_marks(cells, to, marks);
    lay(cells, to, word)
}

/// Lays an integer in quotes.
#[inline(never)]
fn lay_quoted(cells: &mut [u8], to: usize, value: i64) -> usize
    requires { to + 22 ≤ length cells.old }
    ensures laid { take result cells.new ≡ take to cells.old ++ quoted (signed_decimal value) }
    ensures place { result ≡ to + (length (signed_decimal value) + 2) }
    ensures short { result ≤ to + 22 }
{
    let to = lay(cells, to, b"\"");
    let to = lay_int(cells, to, value);
    lay(cells, to, b"\"")
}

/// Lays an integer, in quotes where it is a key.
#[inline(always)]
fn lay_number(cells: &mut [u8], to: usize, key: bool, value: i64) -> usize
    requires { to + 22 ≤ length cells.old }
    ensures laid { take result cells.new ≡ take to cells.old ++ number key (signed_decimal value) }
    ensures short { result ≤ to + (length (signed_decimal value) + 2) }
{
    if key {
        lay_quoted(cells, to, value)
    } else {
        lay_int(cells, to, value)
    }
}

/// Lays an integer with the marks before it.
#[inline(always)]
pub fn lay_whole(cells: &mut [u8], to: usize, stand: Stand, value: i64) -> usize
    requires { to + 24 ≤ length cells.old }
    ensures laid { take result cells.new ≡ take to cells.old ++ (stand_lead stand ++ number (stand_key stand) (signed_decimal value)) }
    ensures short { result ≤ to + (length (signed_decimal value) + 4) }
{
    let to = lay_marks(cells, to, stand_lead(stand));
    lay_number(cells, to, stand_key(stand), value)
}

/// Lays a field's id and kind, without the marks before them.
#[inline(always)]
fn lay_head(cells: &mut [u8], to: usize, id: i64, kind: Kind) -> usize
    requires { to + 29 ≤ length cells.old }
    ensures laid { take result cells.new ≡ take to cells.old ++ field_spelling id kind }
    ensures short { result ≤ to + (length (signed_decimal id) + 9) }
{
    if 0 <= id && id < 10 {
        return lay_short_head(cells, to, id, kind);
    }
    let to = lay_quoted(cells, to, id);
    lay_both(cells, to, b":{", quoted_name(kind))
}

/// The same for an id of one digit.
#[inline(always)]
fn lay_short_head(cells: &mut [u8], to: usize, id: i64, kind: Kind) -> usize
    requires room { to + 10 ≤ length cells.old }
    requires digit { (pos 0 ≤ℤ id) × (id <ℤ pos 10) }
    ensures laid { take result cells.new ≡ take to cells.old ++ field_spelling id kind }
    ensures short { result ≤ to + 10 }
{
    let name = lay(cells, to, &[b'"', b'0' + id as u8, b'"', b':', b'{']);
    lay(cells, name, quoted_name(kind))
}

/// Lays a field's id and kind with the marks before them.
#[inline(always)]
pub fn lay_field(cells: &mut [u8], to: usize, opening: Opening, id: i64, kind: Kind) -> usize
    requires { to + 31 ≤ length cells.old }
    ensures laid { take result cells.new ≡ take to cells.old ++ (field_marks opening ++ field_spelling id kind) }
    ensures short { result ≤ to + (length (signed_decimal id) + 11) }
{
    let to = lay_marks(cells, to, field_marks(opening));
    lay_head(cells, to, id, kind)
}
