//! A pass through a frame: its line, or the fault that stands in it.
ghost use Rattle.std.specs.Prelude.{◌≡◌, ◌≤◌, ◌<◌, ◌^◌, ◌+◌, ◌++◌, ◌∷◌, [], suc, pos, IfSome, Some, IfOk, Ok, length};
ghost use Rattle.gate_base.specs.Causes.{Rose};
ghost use Rattle.protocol_traits.specs.declared.nest.Slot.TheVariants.{Fields};
ghost use Rattle.protocol_traits.specs.Heads.{header_of};
ghost use Rattle.type_tables.specs.Declarations.{Declarations};
ghost use Rattle.type_walk.specs.declared.levels.Level.{Level};
ghost use Rattle.message_show.specs.declared.open_level.LevelStep.{LevelStep};
ghost use Rattle.type_walk.specs.Known.{IsKnownLevel};
ghost use Rattle.type_walk.specs.Positions.{start, struct_level};
ghost use Rattle.translate_verdicts.specs.declared.route.Route.TheVariants.{ByName};
ghost use Rattle.message_show.specs.Inside.{IsSound, IsSpent, at, behind, begins, depth_behind};
ghost use Rattle.message_show.specs.Line.{type_text, sequence_text, head_text, line_end};
ghost use Rattle.message_show.specs.Pieces.{TellsTo};
ghost use Rattle.message_show.specs.Turns.{TellsLine, TellsBody, TellsLevel, TellsEvent};
ghost use Rattle.message_show.specs.Shown.{IsService, Finds, FindsBody, shown_in};

use crate::checking::Checked;
use crate::events::Events;
use crate::levels::{closing, push_lead};
use crate::line::{Line, ROOM};
use crate::open_level::{LevelStep, OpenLevel};
use crate::texts::{push_number, type_word};
use crate::values::{push_list, push_map, tell_field, tell_string, tell_value};
use gate_io::Sink;
use protocol_traits::{Fault, Head, Slot, WireRead};
use thrift_value::{Event, MessageType};
use translate_verdicts::{Route, body_struct};
use type_tables::{Schema, ServiceId, StructId};
use type_walk::{Level, hint_at, in_list, in_map, in_set, in_struct};

/// Tells the line of a frame, and says whether the frame is a message.
pub fn tell<'c, 'f, R: WireRead<'f> + Events, O: Sink>(
    schema: &Schema,
    service: Option<ServiceId>,
    frame: &'f [u8],
    room: &'f mut [u8],
    line: Line<'c>,
    out: &mut O,
) -> (Line<'c>, Checked)
    requires service { IsService schema.now service }
    requires room { length frame.now ≤ length room.old }
    requires size { length frame.now < 2 ^ 31 }
    ensures found { Finds R.ReadRules schema.now service frame.now result.1 }
    ensures told { TellsLine O.Sink (shown_in R.ReadRules schema.now service frame.now) out.old line.entry out.new result.0 }
{
    let mut reader = R::over(frame, room);
    let (line, body) = match reader.head() {
        Ok(head) => {
            let body = body_struct(schema, Route::ByName(service), &head);
            (tell_head(&head, line, out), body)
        }
        Err(fault) => return (line, Checked::Unread(fault)),
    };
    let (line, found) = tell_body(schema, body, &mut reader, line, out);
    (line.make_room(out).push(b"\n"), found)
}

/// Tells a header and the body's parenthesis.
fn tell_head<'c, O: Sink>(head: &Head<'_>, line: Line<'c>, out: &mut O) -> Line<'c>
    ensures { TellsTo O.written O.faults out.old out.new line.entry result (head_text (header_of head.now)) }
{
    let line = tell_string(head.name, push_type(line.make_room(out), head.mtype), out);
    push_sequence(line.make_room(out), head.seq)
}

#[tactic(auto, unfolding(crate::specs::Line::type_text))]
fn push_type<'c>(line: Line<'c>, mtype: MessageType) -> Line<'c>
    requires { length line.bytes + 20 ≤ ROOM }
    ensures { result ≡ record line.entry { bytes = line.entry.bytes ++ type_text mtype } }
{
    line.push(type_word(mtype)).push(b" ")
}

#[tactic(auto, unfolding(crate::specs::Line::sequence_text))]
fn push_sequence<'c>(line: Line<'c>, seq: i32) -> Line<'c>
    requires { length line.bytes + 50 ≤ ROOM }
    ensures { result ≡ record line.entry { bytes = line.entry.bytes ++ sequence_text seq } }
{
    push_number(line.push(b" "), seq).push(b" (")
}

/// Tells a body of this struct, if any, and says how the message ends.
fn tell_body<'c, 'f, R: WireRead<'f> + Events, O: Sink>(
    schema: &Schema,
    body: Option<StructId>,
    reader: &mut R,
    line: Line<'c>,
    out: &mut O,
) -> (Line<'c>, Checked)
    requires known { IfSome body (λ s. s.0 < length schema.now.structs) }
    requires begins { R.nest reader.old ≡ Fields (pos 0) ∷ [] }
    ensures found { FindsBody R.ReadRules reader.old (start schema.now body) result.1 }
    ensures told { TellsBody R.ReadRules O.Sink reader.old (start schema.now body) out.old line.entry out.new result.0 }
{
    let (line, told) = tell_level(reader, schema, body_level(body), line, out);
    match told {
        Ok(()) => {}
        Err(fault) => return (line, Checked::Refused(by_fields(&fault))),
    }
    match reader.finish() {
        Ok(()) => (line, Checked::Message),
        Err(fault) => (line, Checked::Refused(fault)),
    }
}

/// What is declared inside a body of this struct, if any.
fn body_level(body: Option<StructId>) -> Level
    ensures value { result ≡ struct_level body }
    ensures known { (d : Declarations) → IfSome body (λ s. s.0 < length d.structs) → IsKnownLevel d result }
{
    match body {
        Some(declared) => Level::Fields(declared),
        None => Level::Unknown,
    }
}

/// Tells what stands in an open struct or container, of which this is declared, to its end. It calls itself for each struct and
/// container that stands in this one, at most `DEPTH` deep, since a reader opens no more.
fn tell_level<'c, R: Events, O: Sink>(
    reader: &mut R,
    schema: &Schema,
    known: Level,
    line: Line<'c>,
    out: &mut O,
) -> (Line<'c>, Result<(), Fault>)
    requires open { 0 < R.depth reader.old }
    requires known { IsKnownLevel schema.now known }
    ensures turned { TellsLevel R.ReadRules O.Sink schema.now known reader.old out.old line.entry reader.new out.new result }
    ensures depth { IfOk result.1 (λ u. R.depth reader.old ≡ suc (R.depth reader.new)) }
    ensures falls { IfOk result.1 (λ u. R.ahead reader.new < R.ahead reader.old) }
{
    let mut here = OpenLevel::inside(known);
    let mut line = line;
    'turns: loop {
        let (told, turned) = event(reader, schema, &mut here, line, out);
        line = told;
        match turned {
            Ok(step) => match step {
                LevelStep::Open => {}
                LevelStep::Opened(inner) => {
                    let (told, ended) = tell_level(reader, schema, inner, line, out);
                    line = told;
                    match ended {
                        Ok(()) => {}
                        Err(fault) => return (line, Err(by_fields(&fault))),
                    }
                }
                LevelStep::Closed => return (line, Ok(())),
            },
            Err(fault) => return (line, Err(by_fields(&fault))),
        }
    }
}

/// Reads the next event and tells it. It has one caller, into which it is compiled.
#[inline(always)]
fn event<'c, R: Events, O: Sink>(
    reader: &mut R,
    schema: &Schema,
    here: &mut OpenLevel,
    line: Line<'c>,
    out: &mut O,
) -> (Line<'c>, Result<LevelStep, Fault>)
    requires open { 0 < R.depth reader.old }
    requires sound { IsSound schema.now here.old }
    ensures turned { TellsEvent R.ReadRules O.Sink schema.now reader.old here.old out.old line.entry reader.new here.new out.new result }
    ensures depth { IfOk result.1 (λ step. R.depth reader.new ≡ depth_behind step (R.depth reader.old)) }
    ensures sound { IfOk result.1 (λ step. IsSound schema.now here.new) }
    ensures spent { IfOk result.1 (λ step. IsSpent schema.now step here.new) }
    ensures falls { IfOk result.1 (λ step. R.ahead reader.new < R.ahead reader.old) }
{
    let Some(level) = reader.innermost() else {
        unreachable!()
    };
    let line = line.make_room(out);
    let first = here.first;
    let next = here.next;
    match reader.event_in(level, hint_at(next)) {
        Ok(event) => match event {
            Event::Field(id, kind) => {
                let found = here.announce(schema, id, kind);
                let line = tell_field(level, first, id, found, kind, line, out);
                (line, Ok(LevelStep::Open))
            }
            Event::Stop => (line.push_byte(b')'), Ok(LevelStep::Closed)),
            Event::End => (line.push_byte(closing(level)), Ok(LevelStep::Closed)),
            Event::StructBegin => {
                let line = push_lead(line, level, first).push_byte(b'(');
                (line, Ok(here.open(in_struct(next))))
            }
            Event::MapBegin(key, value, _) => {
                let line = push_map(push_lead(line, level, first), key, value);
                (line, Ok(here.open(in_map(schema, next, key, value))))
            }
            Event::SetBegin(kind, _) => {
                let line = push_list(push_lead(line, level, first), kind);
                (line, Ok(here.open(in_set(schema, next, kind))))
            }
            Event::ListBegin(kind, _) => {
                let line = push_list(push_lead(line, level, first), kind);
                (line, Ok(here.open(in_list(schema, next, kind))))
            }
            _ => {
                let line = tell_value(&event, push_lead(line, level, first), out);
                here.spend();
                (line, Ok(LevelStep::Open))
            }
        },
        Err(fault) => (line, Err(by_fields(&fault))),
    }
}

/// The same fault, copied by its fields. A copy of the whole would take along the bytes behind the reason, which mean nothing, by
/// two moves that overlap, and that at each event, whether or not there is a fault.
#[inline(always)]
fn by_fields(fault: &Fault) -> Fault
    ensures { result ≡ fault.now }
{
    Fault {
        place: fault.place,
        reason: fault.reason,
    }
}
