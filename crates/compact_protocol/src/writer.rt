//! The writer: the open levels, and what is kept of a bool field until its value comes.
ghost use Rattle.std.specs.Prelude.{◌≡◌, ◌+◌, ◌*◌, ◌≤◌, ◌<◌, ◌^◌, ◌++◌, length, reverse, IfSome};
ghost use Rattle.thrift_value.specs.Items.{item_of};
ghost use Rattle.protocol_traits.specs.declared.nest.TheConstants.{DEPTH};
ghost use Rattle.protocol_traits.specs.Follow.{depth_after};
ghost use Rattle.protocol_traits.specs.Heads.{header_of};
ghost use Rattle.protocol_traits.specs.Room.{IsSized};
ghost use Rattle.compact_protocol.specs.Codes.{code_of, flag_code, type_code};
ghost use Rattle.compact_protocol.specs.Plain.{short_step, field_spelling, bool_spelling, last_of, elements_spelling, string_spelling, head_spelling};

use gate_io::Out;
use protocol_traits::{Head, Nest, Slot, follow};
use std::marker::Model;
use thrift_value::{Event, Kind, MessageType};
use varint_zigzag::{write_u32, write_u64, zigzag32, zigzag64};

/// A writer of one message in the Compact protocol.
#[derive(Drop)]
pub struct CompactWrite {
    nest: Nest,
    /// The id before that of the field that was begun last.
    before: i16,
}

/// Clauses see the open levels and the id before the last.
impl Model for CompactWrite {
    ghost use Rattle.std.specs.Prelude.{◌≤◌, length};
    ghost use Rattle.protocol_traits.specs.declared.nest.TheConstants.{DEPTH};
    ghost use Rattle.compact_protocol.specs.Plain.{Writer};

    ghost Value = { Writer };

    ghost view = { λ w. record { nest = w.nest; before = w.before } };

    ghost invariant = { λ w. length w.nest ≤ DEPTH };
}

impl CompactWrite {
    ghost use Rattle.compact_protocol.specs.Plain.{begun, spelling, follows};

    /// The writer before the header.
    pub fn open() -> CompactWrite
        ensures { result ≡ begun }
    {
        CompactWrite {
            nest: Nest::new(Slot::Fields(0)),
            before: 0,
        }
    }

    /// Appends an event's shortest spelling. That of a bool field comes with its value.
    #[inline(always)]
    pub fn put_event(&mut self, event: &Event<'_>, out: &mut Out)
        requires sized { IsSized (item_of event.now) }
        requires begun { 0 < length self.old.nest }
        requires shallow { depth_after (item_of event.now) (length self.old.nest) ≤ DEPTH }
        requires room { length out.old.bytes + length (spelling self.old (item_of event.now)) ≤ out.old.room }
        ensures out { out.new ≡ record out.old { bytes = out.old.bytes ++ spelling self.old (item_of event.now) } }
        ensures state { self.new ≡ follows self.old (item_of event.now) }
    {
        self.spell(event, out);
        if let Event::Field(_, _) = *event {
            self.before = self.last_id();
        }
        follow(&mut self.nest, event);
    }

    #[inline(always)]
    #[tactic(auto, unfolding(crate::specs::Plain::spelling))]
    fn spell(&self, event: &Event<'_>, out: &mut Out)
        requires sized { IsSized (item_of event.now) }
        requires room { length out.old.bytes + length (spelling self.now (item_of event.now)) ≤ out.old.room }
        ensures { out.new ≡ record out.old { bytes = out.old.bytes ++ spelling self.now (item_of event.now) } }
    {
        match *event {
            Event::Field(_, Kind::Bool) => {}
            Event::Field(id, kind) => put_field(self.last_id(), id, code_of(kind), out),
            Event::Bool(value) => self.put_bool(value, out),
            Event::Stop | Event::EmptyMap => out.push_byte(0),
            Event::I8(value) => out.push_byte(value.cast_unsigned()),
            Event::I16(value) => write_u32(zigzag32(i32::from(value)), out),
            Event::I32(value) => write_u32(zigzag32(value), out),
            Event::I64(value) => write_u64(zigzag64(value), out),
            Event::Double(value) => put_double(value, out),
            Event::Str(bytes) => put_string(bytes, out),
            Event::MapBegin(key, value, size) => {
                write_u32(size, out);
                out.push_byte(16 * code_of(key) + code_of(value));
            }
            Event::SetBegin(kind, size) | Event::ListBegin(kind, size) => {
                put_elements(kind, size, out);
            }
            Event::Uuid(value) => out.push_array(value),
            Event::StructBegin | Event::End | Event::NumberText(_) | Event::UnknownText(_) => {}
        }
    }

    /// A bool in a struct stands in its field's byte.
    #[inline(always)]
    fn put_bool(&self, value: bool, out: &mut Out)
        requires { length out.old.bytes + length (bool_spelling self.now.before self.now.nest value) ≤ out.old.room }
        ensures { out.new ≡ record out.old { bytes = out.old.bytes ++ bool_spelling self.now.before self.now.nest value } }
    {
        let code = flag_code(value);
        match self.nest.top() {
            Some(Slot::Value(_, id)) => put_field(self.before, id, code, out),
            _ => out.push_byte(code),
        }
    }

    /// The id of the last field of the innermost struct.
    #[inline(always)]
    fn last_id(&self) -> i16
        ensures { result ≡ last_of self.now.nest }
    {
        match self.nest.top() {
            Some(Slot::Fields(last)) => last,
            _ => 0,
        }
    }
}

/// Appends a header's shortest spelling.
#[tactic(auto, unfolding(crate::specs::Plain::head_spelling))]
pub fn put_head(head: &Head<'_>, out: &mut Out)
    requires size { length head.now.name.now < 2 ^ 31 }
    requires room { length out.old.bytes + length (head_spelling (header_of head.now)) ≤ out.old.room }
    ensures { out.new ≡ record out.old { bytes = out.old.bytes ++ head_spelling (header_of head.now) } }
{
    out.push_array([0x82, 32 * type_code(head.mtype) + 1]);
    write_u32(head.seq.cast_unsigned(), out);
    put_string(head.name, out);
}

/// Appends a field's byte, and its id where it lies no 1 to 15 above the last.
#[inline(always)]
#[tactic(auto, unfolding(crate::specs::Plain::field_spelling))]
fn put_field(last: i16, id: i16, code: u8, out: &mut Out)
    requires code { code < 16 }
    requires room { length out.old.bytes + length (field_spelling last id code) ≤ out.old.room }
    ensures { out.new ≡ record out.old { bytes = out.old.bytes ++ field_spelling last id code } }
{
    match short_step(last, id) {
        Some(step) => out.push_byte(16 * step + code),
        None => {
            out.push_byte(code);
            write_u32(zigzag32(i32::from(id)) % 65536, out);
        }
    }
}

/// What an id lies above the last, where a field's byte can tell it.
#[inline(always)]
#[tactic(auto, unfolding(crate::specs::Plain::short_step))]
pub fn short_step(last: i16, id: i16) -> Option<u8>
    ensures exact { result ≡ short_step last id }
    ensures bound { IfSome result (λ step. step < 16) }
{
    let step = i32::from(id) - i32::from(last);
    if 0 < step {
        if step < 16 {
            return Some(step as u8);
        }
    }
    None
}

#[inline(always)]
#[tactic(auto, unfolding(crate::specs::Plain::string_spelling))]
fn put_string(bytes: &[u8], out: &mut Out)
    requires size { length bytes.now < 2 ^ 31 }
    requires room { length out.old.bytes + length (string_spelling bytes.now) ≤ out.old.room }
    ensures { out.new ≡ record out.old { bytes = out.old.bytes ++ string_spelling bytes.now } }
{
    write_u32(bytes.len() as u32, out);
    out.push(bytes);
}

/// Appends a double's eight bytes, little endian.
#[inline(always)]
fn put_double(big: [u8; 8], out: &mut Out)
    requires { length out.old.bytes + 8 ≤ out.old.room }
    ensures { out.new ≡ record out.old { bytes = out.old.bytes ++ reverse big } }
{
    let mut little = big;
    little.reverse();
    out.push_array(little);
}

/// Appends the kind and the number of the elements of a list or a set.
#[inline(always)]
#[tactic(auto, unfolding(crate::specs::Plain::elements_spelling))]
fn put_elements(kind: Kind, size: u32, out: &mut Out)
    requires { length out.old.bytes + length (elements_spelling kind size) ≤ out.old.room }
    ensures { out.new ≡ record out.old { bytes = out.old.bytes ++ elements_spelling kind size } }
{
    let code = code_of(kind);
    if size < 15 {
        out.push_byte(16 * size as u8 + code);
    } else {
        out.push_byte(240 + code);
        write_u32(size, out);
    }
}

/// The number that stands for a kind; in a container 1 stands for bool.
#[inline(always)]
pub fn code_of(kind: Kind) -> u8
    ensures code { result ≡ code_of kind }
    ensures bound { result < 14 }
{
    match kind {
        Kind::Bool => 1,
        Kind::I8 => 3,
        Kind::I16 => 4,
        Kind::I32 => 5,
        Kind::I64 => 6,
        Kind::Double => 7,
        Kind::Str => 8,
        Kind::List => 9,
        Kind::Set => 10,
        Kind::Map => 11,
        Kind::Struct => 12,
        Kind::Uuid => 13,
    }
}

/// The number that stands for a bool.
#[inline(always)]
pub fn flag_code(value: bool) -> u8
    ensures code { result ≡ flag_code value }
    ensures bound { result < 16 }
{
    if value { 1 } else { 2 }
}

/// The number that stands for a message type.
#[inline(always)]
pub fn type_code(mtype: MessageType) -> u8
    ensures code { result ≡ type_code mtype }
    ensures bound { result < 5 }
{
    match mtype {
        MessageType::Call => 1,
        MessageType::Reply => 2,
        MessageType::Exception => 3,
        MessageType::Oneway => 4,
    }
}
