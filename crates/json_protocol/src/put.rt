//! What is written for one event: the marks before it, and its own spelling.
ghost use Rattle.std.specs.Prelude.{◌≡◌, ℤ, pos, ◌+◌, ◌≤◌, ◌<◌, ◌^◌, ◌∷◌, [], ◌++◌, length, true};
ghost use Rattle.std.specs.Fmt.{signed_decimal};
ghost use Rattle.thrift_value.specs.Items.{item_of};
ghost use Rattle.protocol_traits.specs.Stack.{first_of};
ghost use Rattle.protocol_traits.specs.Heads.{header_of};
ghost use Rattle.json_protocol.specs.Writing.{kind_name, flag, number, field_lead, stop_lead, end_lead, value_lead, lead, is_key, string_spelling, field_spelling, stop_spelling, sequence_spelling, kinds_spelling, spelling, type_digit, plain_head};

use crate::opening::Opening;
use gate_io::Out;
use json_text::{write_blob, write_int, write_text};
use protocol_traits::{Head, Hint, Mark, Slot};
use thrift_value::{Event, Kind, MessageType};

/// The header, up to the comma behind the sequence number.
pub fn put_head(head: &Head<'_>, out: &mut Out)
    requires { length out.old.bytes + length (plain_head (header_of head.now)) ≤ out.old.room }
    ensures { out.new ≡ record out.old { bytes = out.old.bytes ++ plain_head (header_of head.now) } }
{
    out.push(b"[1,");
    write_text(head.name, out);
    out.push(b",");
    out.push(type_digit(head.mtype));
    out.push(b",");
    write_int(head.seq as i64, out);
    out.push(b",");
}

/// The marks before an event.
pub fn lead(opening: Opening, top: Option<Slot>, event: &Event<'_>) -> &'static [u8]
    ensures { result.now ≡ lead opening top (item_of event.now) }
{
    match *event {
        Event::Field(_, _) => field_lead(opening, top),
        Event::Stop => stop_lead(opening, top),
        Event::End => end_lead(top),
        Event::Double(_) | Event::NumberText(_) | Event::UnknownText(_) | Event::Uuid(_) => b"",
        _ => value_lead(opening, top),
    }
}

/// The event itself, as a key or not.
pub fn put_item(depth: usize, key: bool, event: &Event<'_>, mark: Mark, out: &mut Out)
    requires { length out.old.bytes + length (spelling depth key (item_of event.now) mark) ≤ out.old.room }
    ensures { out.new ≡ record out.old { bytes = out.old.bytes ++ spelling depth key (item_of event.now) mark } }
{
    match *event {
        Event::Field(id, kind) => put_field(id, kind, out),
        Event::Stop => put_stop(depth, out),
        Event::Bool(value) => put_flag(key, value, out),
        Event::I8(value) => put_number(key, value as i64, out),
        Event::I16(value) => put_number(key, value as i64, out),
        Event::I32(value) => put_number(key, value as i64, out),
        Event::I64(value) => put_number(key, value, out),
        Event::Str(bytes) => put_string(bytes, mark.hint, out),
        Event::StructBegin => out.push(b"{"),
        Event::EmptyMap => put_empty_map(mark.key, mark.value, out),
        Event::MapBegin(key_kind, value, size) => put_map(key_kind, value, size, out),
        Event::SetBegin(kind, size) => put_sequence(kind, size, out),
        Event::ListBegin(kind, size) => put_sequence(kind, size, out),
        Event::End => out.push(b"]"),
        Event::Double(_) | Event::NumberText(_) | Event::UnknownText(_) | Event::Uuid(_) => {}
    }
}

pub fn is_key(top: Option<Slot>) -> bool
    ensures { result ≡ is_key top }
{
    matches!(top, Some(Slot::Keys(_, _, _)))
}

fn field_lead(opening: Opening, top: Option<Slot>) -> &'static [u8]
    ensures { result.now ≡ field_lead opening top }
{
    match (opening, top) {
        (Opening::Body, Some(Slot::Fields(_))) => b"{",
        (Opening::Old, Some(Slot::Fields(_))) => b"},",
        _ => b"",
    }
}

fn stop_lead(opening: Opening, top: Option<Slot>) -> &'static [u8]
    ensures { result.now ≡ stop_lead opening top }
{
    match (opening, top) {
        (Opening::Body, Some(Slot::Fields(_))) => b"{",
        (Opening::Old, Some(Slot::Fields(_))) => b"}",
        _ => b"",
    }
}

fn end_lead(top: Option<Slot>) -> &'static [u8]
    ensures { result.now ≡ end_lead top }
{
    match top {
        Some(Slot::Keys(_, _, _)) => b"}",
        _ => b"",
    }
}

fn value_lead(opening: Opening, top: Option<Slot>) -> &'static [u8]
    ensures { result.now ≡ value_lead opening top }
{
    match (opening, top) {
        (_, Some(Slot::Value(_, _))) => b":",
        (_, Some(Slot::Elements(_, _))) => b",",
        (Opening::Old, Some(Slot::Keys(_, _, _))) => b",",
        (_, Some(Slot::Keys(_, _, _))) => b",{",
        (_, Some(Slot::Values(_, _, _))) => b":",
        _ => b"",
    }
}

fn kind_name(kind: Kind) -> &'static [u8]
    ensures { result.now ≡ kind_name kind }
{
    match kind {
        Kind::Bool => b"tf",
        Kind::I8 => b"i8",
        Kind::I16 => b"i16",
        Kind::I32 => b"i32",
        Kind::I64 => b"i64",
        Kind::Double => b"dbl",
        Kind::Str => b"str",
        Kind::Struct => b"rec",
        Kind::Map => b"map",
        Kind::Set => b"set",
        Kind::List => b"lst",
        Kind::Uuid => b"i8",
    }
}

pub fn type_digit(mtype: MessageType) -> &'static [u8]
    ensures digit { result.now ≡ type_digit mtype }
    ensures one { length result.now ≡ 1 }
{
    match mtype {
        MessageType::Call => b"1",
        MessageType::Reply => b"2",
        MessageType::Exception => b"3",
        MessageType::Oneway => b"4",
    }
}

fn put_field(id: i16, kind: Kind, out: &mut Out)
    requires { length out.old.bytes + length (field_spelling id kind) ≤ out.old.room }
    ensures { out.new ≡ record out.old { bytes = out.old.bytes ++ field_spelling id kind } }
{
    out.push(b"\"");
    write_int(id as i64, out);
    out.push(b"\":{\"");
    out.push(kind_name(kind));
    out.push(b"\"");
}

fn put_stop(depth: usize, out: &mut Out)
    requires { length out.old.bytes + length (stop_spelling depth) ≤ out.old.room }
    ensures { out.new ≡ record out.old { bytes = out.old.bytes ++ stop_spelling depth } }
{
    if depth == 1 {
        out.push(b"}]");
    } else {
        out.push(b"}");
    }
}

fn put_flag(key: bool, value: bool, out: &mut Out)
    requires { length out.old.bytes + length (number key (flag value)) ≤ out.old.room }
    ensures { out.new ≡ record out.old { bytes = out.old.bytes ++ number key (flag value) } }
{
    match (key, value) {
        (false, false) => out.push(b"0"),
        (false, true) => out.push(b"1"),
        (true, false) => out.push(b"\"0\""),
        (true, true) => out.push(b"\"1\""),
    }
}

fn put_number(key: bool, value: i64, out: &mut Out)
    requires { length out.old.bytes + length (number key (signed_decimal value)) ≤ out.old.room }
    ensures { out.new ≡ record out.old { bytes = out.old.bytes ++ number key (signed_decimal value) } }
{
    if key {
        put_quoted(value, out);
    } else {
        write_int(value, out);
    }
}

fn put_quoted(value: i64, out: &mut Out)
    requires { length out.old.bytes + length (number true (signed_decimal value)) ≤ out.old.room }
    ensures { out.new ≡ record out.old { bytes = out.old.bytes ++ number true (signed_decimal value) } }
{
    out.push(b"\"");
    write_int(value, out);
    out.push(b"\"");
}

fn put_string(bytes: &[u8], hint: Hint, out: &mut Out)
    requires { length out.old.bytes + length (string_spelling bytes.now hint) ≤ out.old.room }
    ensures { out.new ≡ record out.old { bytes = out.old.bytes ++ string_spelling bytes.now hint } }
{
    match hint {
        Hint::Blob => write_blob(bytes, out),
        Hint::Text | Hint::Unknown => write_text(bytes, out),
    }
}

fn put_empty_map(key: Kind, value: Kind, out: &mut Out)
    requires { length out.old.bytes + length (kinds_spelling key value ++ 48 ∷ 44 ∷ 123 ∷ 125 ∷ 93 ∷ []) ≤ out.old.room }
    ensures { out.new ≡ record out.old { bytes = out.old.bytes ++ (kinds_spelling key value ++ 48 ∷ 44 ∷ 123 ∷ 125 ∷ 93 ∷ []) } }
{
    put_kinds(key, value, out);
    out.push(b"0,{}]");
}

fn put_map(key: Kind, value: Kind, size: u32, out: &mut Out)
    requires { length out.old.bytes + length (kinds_spelling key value ++ signed_decimal (pos size)) ≤ out.old.room }
    ensures { out.new ≡ record out.old { bytes = out.old.bytes ++ (kinds_spelling key value ++ signed_decimal (pos size)) } }
{
    put_kinds(key, value, out);
    write_int(size as i64, out);
}

fn put_kinds(key: Kind, value: Kind, out: &mut Out)
    requires { length out.old.bytes + length (kinds_spelling key value) ≤ out.old.room }
    ensures { out.new ≡ record out.old { bytes = out.old.bytes ++ kinds_spelling key value } }
{
    out.push(b"[\"");
    out.push(kind_name(key));
    out.push(b"\",\"");
    out.push(kind_name(value));
    out.push(b"\",");
}

fn put_sequence(kind: Kind, size: u32, out: &mut Out)
    requires { length out.old.bytes + length (sequence_spelling kind size) ≤ out.old.room }
    ensures { out.new ≡ record out.old { bytes = out.old.bytes ++ sequence_spelling kind size } }
{
    out.push(b"[\"");
    out.push(kind_name(kind));
    out.push(b"\",");
    write_int(size as i64, out);
}
