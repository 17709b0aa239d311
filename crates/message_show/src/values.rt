//! The texts of events.
ghost use Rattle.std.specs.Prelude.{IfSome, Some, List, option_copied, ◌≡◌, ◌+◌, ◌≤◌, ◌<◌, ◌++◌, ◌∷◌, [], length, flat_map, take, slice_index, false};
ghost use Rattle.std.specs.Fmt.{signed_decimal};
ghost use Rattle.thrift_value.specs.Items.{item_of};
ghost use Rattle.protocol_traits.specs.declared.nest.Slot.{Slot};
ghost use Rattle.protocol_traits.specs.Stack.{first_of};
ghost use Rattle.message_show.specs.Inside.{IsSound, Passes};
ghost use Rattle.message_show.specs.Texts.{is_plain, upper_byte, byte_text, quoted};
ghost use Rattle.message_show.specs.Line.{value_text, closing, item_text, field_name, name_text, kind_text, map_text, list_text, field_piece};
ghost use Rattle.message_show.specs.Pieces.{TellsTo};

use crate::levels::{closing, push_lead};
use crate::line::{EVENT_ROOM, Line, NUMBER_ROOM, ROOM, SPARE};
use crate::open_level::{LevelStep, OpenLevel};
use crate::texts::{bool_word, kind_word, push_double, push_number, push_uuid};
use gate_io::Sink;
use protocol_traits::Slot;
use thrift_value::{Event, Kind};
use type_tables::{FieldInfo, Schema};

/// So many bytes of a long string are told at once.
const PIECE: usize = 512;

/// Tells a value, or the beginning of one.
#[inline(always)]
#[tactic(auto, unfolding(crate::specs::Line::struct_text, crate::specs::Line::empty_map_text), using(crate::proofs::Told::tells_behind))]
pub fn tell_value<'c, O: Sink>(event: &Event<'_>, line: Line<'c>, out: &mut O) -> Line<'c>
    requires { length line.bytes + EVENT_ROOM ≤ ROOM }
    ensures told { TellsTo O.written O.faults out.old out.new line.entry result (value_text (item_of event.now)) }
{
    match *event {
        Event::Bool(value) => line.push(bool_word(value)),
        Event::I8(value) => push_number(line, value),
        Event::I16(value) => push_number(line, value),
        Event::I32(value) => push_number(line, value),
        Event::I64(value) => push_number(line, value),
        Event::Double(bytes) => push_double(line, &bytes),
        Event::Uuid(bytes) => push_uuid(line, bytes),
        Event::Str(bytes) => tell_string(bytes, line, out),
        Event::UnknownText(bytes) => tell_string(bytes, line, out),
        Event::NumberText(bytes) => line.put(bytes, out),
        Event::StructBegin => line.push_byte(b'('),
        Event::EmptyMap => line.push(b"{}"),
        Event::MapBegin(key, value, _) => push_map(line, key, value),
        Event::SetBegin(kind, _) => push_list(line, kind),
        Event::ListBegin(kind, _) => push_list(line, kind),
        Event::Field(_, _) => line,
        Event::Stop => line,
        Event::End => line,
    }
}

#[tactic(auto, unfolding(crate::specs::Line::map_text))]
pub fn push_map<'c>(line: Line<'c>, key: Kind, value: Kind) -> Line<'c>
    requires { length line.bytes + EVENT_ROOM ≤ ROOM }
    ensures { result ≡ record line.entry { bytes = line.entry.bytes ++ map_text key value } }
{
    line.push(b"{")
        .push(kind_word(key))
        .push(b",")
        .push(kind_word(value))
        .push(b"| ")
}

#[tactic(auto, unfolding(crate::specs::Line::list_text))]
pub fn push_list<'c>(line: Line<'c>, kind: Kind) -> Line<'c>
    requires { length line.bytes + EVENT_ROOM ≤ ROOM }
    ensures { result ≡ record line.entry { bytes = line.entry.bytes ++ list_text kind } }
{
    line.push(b"[").push(kind_word(kind)).push(b"| ")
}

/// Tells a field: its id, its name where it is declared, and its kind.
#[inline(always)]
pub fn tell_field<'c, O: Sink>(
    level: Slot,
    first: bool,
    id: i16,
    field: Option<&FieldInfo>,
    kind: Kind,
    line: Line<'c>,
    out: &mut O,
) -> Line<'c>
    requires { length line.bytes + SPARE ≤ ROOM }
    ensures told { TellsTo O.written O.faults out.old out.new line.entry result (field_piece level first id (option_copied field.entry) kind) }
{
    let line = tell_number(id, field, push_lead(line, level, first), out);
    push_kind(line.make_room(out), kind)
}

/// Tells a field's id, and its name where it is declared. Most ids are small and most names short.
#[inline(always)]
fn tell_number<'c, O: Sink>(
    id: i16,
    field: Option<&FieldInfo>,
    line: Line<'c>,
    out: &mut O,
) -> Line<'c>
    requires { length line.bytes + EVENT_ROOM ≤ ROOM }
    ensures told { TellsTo O.written O.faults out.old out.new line.entry result (signed_decimal id ++ name_text (field_name (option_copied field.entry))) }
{
    match short_name(id, field, &line) {
        Some((digit, name)) => line.push_named(digit, name),
        None => tell_name(field, push_id(line, id), out),
    }
}

/// The digit of an id and its field's name, where it is declared, if the id has one digit and the name fits behind what waits.
#[inline(always)]
fn short_name<'n>(id: i16, field: Option<&'n FieldInfo>, line: &Line<'_>) -> Option<(u8, &'n [u8])>
    ensures digit { IfSome result (λ r. signed_decimal id ≡ r.0 ∷ []) }
    ensures name { IfSome result (λ r. field_name (option_copied field.entry) ≡ Some r.1.now) }
    ensures fits { IfSome result (λ r. length line.now.bytes + (length r.1.now + 2) ≤ ROOM) }
{
    let digit = one_digit(id)?;
    let name = field?.name.as_slice();
    if line.has_room_for(name.len()) {
        Some((digit, name))
    } else {
        None
    }
}

/// Appends a field's id. Most ids are small.
#[inline(always)]
fn push_id<'c>(line: Line<'c>, id: i16) -> Line<'c>
    requires { length line.bytes + NUMBER_ROOM ≤ ROOM }
    ensures text { result ≡ record line.entry { bytes = line.entry.bytes ++ signed_decimal id } }
    ensures short { length result.bytes ≤ length line.entry.bytes + NUMBER_ROOM }
{
    match one_digit(id) {
        Some(digit) => line.push_byte(digit),
        None => push_number(line, id),
    }
}

/// The text of a number of one digit.
#[inline(always)]
#[tactic(auto, using(crate::proofs::Items::small_id))]
fn one_digit(id: i16) -> Option<u8>
    ensures { IfSome result (λ digit. signed_decimal id ≡ digit ∷ []) }
{
    if id < 0 {
        return None;
    }
    if id > 9 {
        return None;
    }
    Some(b'0' + id as u8)
}

/// Appends a kind between spaces: each of these texts has a length of its own, which is known where it is copied.
#[inline(always)]
#[tactic(auto, unfolding(crate::specs::Line::kind_text, crate::specs::Texts::kind_word))]
fn push_kind<'c>(line: Line<'c>, kind: Kind) -> Line<'c>
    requires { length line.bytes + EVENT_ROOM ≤ ROOM }
    ensures { result ≡ record line.entry { bytes = line.entry.bytes ++ kind_text kind } }
{
    match kind {
        Kind::Bool => line.push(b" bool "),
        Kind::I8 => line.push(b" i8 "),
        Kind::I16 => line.push(b" i16 "),
        Kind::I32 => line.push(b" i32 "),
        Kind::I64 => line.push(b" i64 "),
        Kind::Double => line.push(b" double "),
        Kind::Str => line.push(b" string "),
        Kind::Struct => line.push(b" struct "),
        Kind::Map => line.push(b" map "),
        Kind::Set => line.push(b" set "),
        Kind::List => line.push(b" list "),
        Kind::Uuid => line.push(b" uuid "),
    }
}

/// Tells a colon and the name of a field, where it is declared.
#[inline(always)]
fn tell_name<'c, O: Sink>(field: Option<&FieldInfo>, line: Line<'c>, out: &mut O) -> Line<'c>
    requires { length line.bytes + 1 ≤ ROOM }
    ensures told { TellsTo O.written O.faults out.old out.new line.entry result (name_text (field_name (option_copied field.entry))) }
{
    match field {
        Some(field) => line.push_byte(b':').put(field.name.as_slice(), out),
        None => line,
    }
}

/// Tells a string between quotes.
#[tactic(auto, unfolding(crate::specs::Texts::quoted))]
pub fn tell_string<'c, O: Sink>(bytes: &[u8], line: Line<'c>, out: &mut O) -> Line<'c>
    ensures told { TellsTo O.written O.faults out.old out.new line.entry result (quoted bytes.now) }
{
    if line.has_room_for(bytes.len()) {
        line.push_byte(b'"').push_printed(bytes).push_byte(b'"')
    } else {
        tell_long(bytes, line, out)
    }
}

/// The same for a string that may not fit behind what waits.
#[inline(never)]
#[tactic(auto, unfolding(crate::specs::Texts::quoted))]
fn tell_long<'c, O: Sink>(bytes: &[u8], line: Line<'c>, out: &mut O) -> Line<'c>
    ensures told { TellsTo O.written O.faults out.old out.new line.entry result (quoted bytes.now) }
{
    let line = tell_bytes(bytes, line.make_room(out).push_byte(b'"'), out);
    line.make_room(out).push_byte(b'"')
}

/// Tells the bytes of a string, piece by piece.
fn tell_bytes<'c, O: Sink>(bytes: &[u8], line: Line<'c>, out: &mut O) -> Line<'c>
    ensures told { TellsTo O.written O.faults out.old out.new line.entry result (flat_map byte_text bytes.now) }
{
    let mut line = line;
    let mut at = 0;
    while at < bytes.len() {
        let end = bytes.len().min(at + PIECE);
        line = tell_piece(&bytes[at..end], line, out);
        at = end;
    }
    line
}

/// Tells so few bytes that they fit where nothing waits.
fn tell_piece<'c, O: Sink>(bytes: &[u8], line: Line<'c>, out: &mut O) -> Line<'c>
    requires { length bytes.now ≤ PIECE }
    ensures told { TellsTo O.written O.faults out.old out.new line.entry result (flat_map byte_text bytes.now) }
{
    if line.has_room_for(bytes.len()) {
        line.push_printed(bytes)
    } else {
        line.flush(out).push_printed(bytes)
    }
}
