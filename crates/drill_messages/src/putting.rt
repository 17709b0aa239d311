//! A message, event by event, by the writer of any protocol.
ghost use Rattle.std.specs.Prelude.{◌≡◌, ◌≤◌, ◌<◌, ◌+◌, pos, None, [], ◌∷◌, ◌++◌, length};
ghost use Rattle.std.specs.List.{flat_map};
ghost use Rattle.std.specs.Str.{IsAscii};
ghost use Rattle.thrift_value.specs.Items.{item_of, end};
ghost use Rattle.protocol_traits.specs.Heads.{header_of};
ghost use Rattle.protocol_traits.specs.Follow.{depth_after};
ghost use Rattle.protocol_traits.specs.Room.{weight, IsSized};
ghost use Rattle.drill_messages.specs.Events.{other, id_events, name_events, raw_events, numbers, marks_events, pairs, flags_events, item_events, call};
ghost use Rattle.drill_messages.specs.Spellings.{spelled};
ghost use Rattle.drill_messages.specs.Views.{fields_of, all_fields, events_of};
ghost use Rattle.drill_messages.specs.Writers.{TakesAll, Writes, IsAppended};

use crate::item::Item;
use crate::sizes::{
    FLAGS_ROOM, ID_ROOM, ITEM_ROOM, ITEMS_ROOM, MARKS_ROOM, MESSAGE_ROOM, MOST_FLAGS, MOST_ITEMS,
    MOST_LETTERS, MOST_MARKS, MOST_MESSAGES, MOST_RAW, NAME_ROOM, NUMBERS_ROOM, PAIRS_ROOM,
    RAW_ROOM,
};
use gate_io::Out;
use protocol_traits::{Head, Hint, Mark, WireWrite};
use thrift_value::{Event, Kind, MessageType};

/// Nothing about the position matters to the event.
const OTHER: Mark = Mark {
    hint: Hint::Unknown,
    key: Kind::I8,
    value: Kind::I8,
};

const TEXT: Mark = Mark {
    hint: Hint::Text,
    key: Kind::I8,
    value: Kind::I8,
};

const BYTES: Mark = Mark {
    hint: Hint::Blob,
    key: Kind::I8,
    value: Kind::I8,
};

const FLAGS: Mark = Mark {
    hint: Hint::Unknown,
    key: Kind::Str,
    value: Kind::Bool,
};

/// Appends a call of `put` with these items.
pub fn put_message<W: WireWrite>(seq: u64, items: &[Item], out: &mut Out)
    requires seq { seq < MOST_MESSAGES }
    requires takes { TakesAll W.name_bar W.bar }
    requires few { length items.now ≤ MOST_ITEMS }
    requires room { length out.old.bytes + MESSAGE_ROOM ≤ out.old.room }
    ensures out { let body = spelled W.plain W.after W.begun (events_of items.now) in
        IsAppended out.old out.new (W.plain_head (call (pos seq)) ++ body) }
    ensures short { length out.new.bytes ≤ length out.old.bytes + MESSAGE_ROOM }
{
    let mut writer = W::over();
    writer.head(&call(seq), out);
    put_event(&Event::Field(1, Kind::List), OTHER, &mut writer, out);
    put_event(
        &Event::ListBegin(Kind::Struct, items.len() as u32),
        OTHER,
        &mut writer,
        out,
    );
    put_items(items, &mut writer, out);
    put_event(&Event::End, OTHER, &mut writer, out);
    put_event(&Event::Stop, OTHER, &mut writer, out);
}

/// The header of a call of `put`.
fn call(seq: u64) -> Head<'static>
    requires { seq < MOST_MESSAGES }
    ensures head { header_of result ≡ call (pos seq) }
    ensures name { length result.name.now ≡ 3 }
{
    Head {
        name: b"put",
        mtype: MessageType::Call,
        seq: seq as i32,
    }
}

fn put_items<W: WireWrite>(items: &[Item], writer: &mut W, out: &mut Out)
    requires takes { TakesAll W.name_bar W.bar }
    requires few { length items.now ≤ MOST_ITEMS }
    requires open { W.depth writer.old ≡ 2 }
    requires room { length out.old.bytes + ITEMS_ROOM ≤ out.old.room }
    ensures written { Writes W.plain W.after writer.old out.old writer.new out.new (flat_map item_events (all_fields items.now)) }
    ensures depth { W.depth writer.new ≡ 2 }
    ensures short { length out.new.bytes ≤ length out.old.bytes + ITEMS_ROOM }
{
    for item in items {
        put_item(item, writer, out);
    }
}

fn put_item<W: WireWrite>(item: &Item, writer: &mut W, out: &mut Out)
    requires takes { TakesAll W.name_bar W.bar }
    requires open { W.depth writer.old ≡ 2 }
    requires room { length out.old.bytes + ITEM_ROOM ≤ out.old.room }
    ensures written { Writes W.plain W.after writer.old out.old writer.new out.new (item_events (fields_of item.now)) }
    ensures depth { W.depth writer.new ≡ 2 }
    ensures short { length out.new.bytes ≤ length out.old.bytes + ITEM_ROOM }
{
    put_event(&Event::StructBegin, OTHER, writer, out);
    put_id(item.id, writer, out);
    put_name(&item.name, writer, out);
    put_raw(&item.raw, writer, out);
    put_marks(&item.marks, writer, out);
    put_flags(&item.flags, writer, out);
    put_event(&Event::Stop, OTHER, writer, out);
}

#[inline(always)]
fn put_id<W: WireWrite>(id: i64, writer: &mut W, out: &mut Out)
    requires takes { TakesAll W.name_bar W.bar }
    requires open { W.depth writer.old ≡ 3 }
    requires room { length out.old.bytes + ID_ROOM ≤ out.old.room }
    ensures written { Writes W.plain W.after writer.old out.old writer.new out.new (id_events id) }
    ensures depth { W.depth writer.new ≡ 3 }
    ensures short { length out.new.bytes ≤ length out.old.bytes + ID_ROOM }
{
    put_event(&Event::Field(1, Kind::I64), OTHER, writer, out);
    put_event(&Event::I64(id), OTHER, writer, out);
}

#[inline(always)]
fn put_name<W: WireWrite>(name: &[u8], writer: &mut W, out: &mut Out)
    requires takes { TakesAll W.name_bar W.bar }
    requires text { IsAscii name.now }
    requires few { length name.now ≤ MOST_LETTERS }
    requires open { W.depth writer.old ≡ 3 }
    requires room { length out.old.bytes + NAME_ROOM ≤ out.old.room }
    ensures written { Writes W.plain W.after writer.old out.old writer.new out.new (name_events name.now) }
    ensures depth { W.depth writer.new ≡ 3 }
    ensures short { length out.new.bytes ≤ length out.old.bytes + NAME_ROOM }
{
    put_event(&Event::Field(2, Kind::Str), OTHER, writer, out);
    put_event(&Event::Str(name), TEXT, writer, out);
}

#[inline(always)]
fn put_raw<W: WireWrite>(raw: &[u8], writer: &mut W, out: &mut Out)
    requires takes { TakesAll W.name_bar W.bar }
    requires few { length raw.now ≤ MOST_RAW }
    requires open { W.depth writer.old ≡ 3 }
    requires room { length out.old.bytes + RAW_ROOM ≤ out.old.room }
    ensures written { Writes W.plain W.after writer.old out.old writer.new out.new (raw_events raw.now) }
    ensures depth { W.depth writer.new ≡ 3 }
    ensures short { length out.new.bytes ≤ length out.old.bytes + RAW_ROOM }
{
    put_event(&Event::Field(3, Kind::Str), OTHER, writer, out);
    put_event(&Event::Str(raw), BYTES, writer, out);
}

#[inline(always)]
fn put_marks<W: WireWrite>(marks: &[i32], writer: &mut W, out: &mut Out)
    requires takes { TakesAll W.name_bar W.bar }
    requires few { length marks.now ≤ MOST_MARKS }
    requires open { W.depth writer.old ≡ 3 }
    requires room { length out.old.bytes + MARKS_ROOM ≤ out.old.room }
    ensures written { Writes W.plain W.after writer.old out.old writer.new out.new (marks_events marks.now) }
    ensures depth { W.depth writer.new ≡ 3 }
    ensures short { length out.new.bytes ≤ length out.old.bytes + MARKS_ROOM }
{
    put_event(&Event::Field(4, Kind::List), OTHER, writer, out);
    put_event(
        &Event::ListBegin(Kind::I32, marks.len() as u32),
        OTHER,
        writer,
        out,
    );
    put_numbers(marks, writer, out);
}

#[inline(always)]
fn put_numbers<W: WireWrite>(marks: &[i32], writer: &mut W, out: &mut Out)
    requires takes { TakesAll W.name_bar W.bar }
    requires few { length marks.now ≤ MOST_MARKS }
    requires open { W.depth writer.old ≡ 4 }
    requires room { length out.old.bytes + NUMBERS_ROOM ≤ out.old.room }
    ensures written { Writes W.plain W.after writer.old out.old writer.new out.new (numbers marks.now ++ (end, other) ∷ []) }
    ensures depth { W.depth writer.new ≡ 3 }
    ensures short { length out.new.bytes ≤ length out.old.bytes + NUMBERS_ROOM }
{
    for mark in marks {
        put_event(&Event::I32(*mark), OTHER, writer, out);
    }
    put_event(&Event::End, OTHER, writer, out);
}

#[inline(always)]
fn put_flags<W: WireWrite>(flags: &[bool], writer: &mut W, out: &mut Out)
    requires takes { TakesAll W.name_bar W.bar }
    requires few { length flags.now ≤ MOST_FLAGS }
    requires open { W.depth writer.old ≡ 3 }
    requires room { length out.old.bytes + FLAGS_ROOM ≤ out.old.room }
    ensures written { Writes W.plain W.after writer.old out.old writer.new out.new (flags_events flags.now) }
    ensures depth { W.depth writer.new ≡ 3 }
    ensures short { length out.new.bytes ≤ length out.old.bytes + FLAGS_ROOM }
{
    put_event(&Event::Field(5, Kind::Map), OTHER, writer, out);
    if flags.is_empty() {
        put_event(&Event::EmptyMap, FLAGS, writer, out);
        return;
    }
    put_event(
        &Event::MapBegin(Kind::Str, Kind::Bool, flags.len() as u32),
        OTHER,
        writer,
        out,
    );
    put_pairs(flags, writer, out);
}

#[inline(always)]
fn put_pairs<W: WireWrite>(flags: &[bool], writer: &mut W, out: &mut Out)
    requires takes { TakesAll W.name_bar W.bar }
    requires few { length flags.now ≤ MOST_FLAGS }
    requires open { W.depth writer.old ≡ 4 }
    requires room { length out.old.bytes + PAIRS_ROOM ≤ out.old.room }
    ensures written { Writes W.plain W.after writer.old out.old writer.new out.new (pairs 97 flags.now ++ (end, other) ∷ []) }
    ensures depth { W.depth writer.new ≡ 3 }
    ensures short { length out.new.bytes ≤ length out.old.bytes + PAIRS_ROOM }
{
    let mut key = b'a';
    for flag in flags {
        put_event(&Event::Str(&[key]), TEXT, writer, out);
        put_event(&Event::Bool(*flag), OTHER, writer, out);
        key += 1;
    }
    put_event(&Event::End, OTHER, writer, out);
}

/// Appends one event.
#[inline(always)]
fn put_event<W: WireWrite>(event: &Event<'_>, mark: Mark, writer: &mut W, out: &mut Out)
    requires sized { IsSized (item_of event.now) }
    requires taken { W.bar (item_of event.now) mark ≡ None }
    requires open { 0 < W.depth writer.old }
    requires shallow { W.depth writer.old ≤ 4 }
    requires room { length out.old.bytes + weight (item_of event.now) ≤ out.old.room }
    ensures written { Writes W.plain W.after writer.old out.old writer.new out.new ((item_of event.now, mark) ∷ []) }
    ensures depth { W.depth writer.new ≡ depth_after (item_of event.now) (W.depth writer.old) }
    ensures short { length out.new.bytes ≤ length out.old.bytes + weight (item_of event.now) }
{
    writer.put(event, mark, out);
}
