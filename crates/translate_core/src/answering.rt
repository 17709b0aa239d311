//! The answer to a message that is refused.
ghost use Rattle.std.specs.Prelude.{◌≡◌, ◌+◌, ◌≤◌, ◌^◌, ◌<◌, ◌++◌, [], length, None};
ghost use Rattle.thrift_value.specs.Items.{item_of, i32_value};
ghost use Rattle.protocol_traits.specs.declared.nest.TheConstants.{DEPTH};
ghost use Rattle.protocol_traits.specs.Follow.{depth_after};
ghost use Rattle.protocol_traits.specs.Heads.{header_of};
ghost use Rattle.protocol_traits.specs.Room.{head_weight, room_for, weight, IsSized};
ghost use Rattle.translate_verdicts.specs.Texts.{cause_text, failure_type};
ghost use Rattle.translate_core.specs.Answers.{mark, failure_items, TakesAll, method_name, spellable, spelled, answer_header, answer_in};

use gate_io::Out;
use multiplex_names::split;
use protocol_traits::{Head, Hint, Mark, WireRead, WireWrite};
use thrift_value::{Event, Kind, MessageType};
use translate_verdicts::Cause;

/// The type of a failure that lies in the method's name, UNKNOWN_METHOD of a TApplicationException.
const UNKNOWN_METHOD: i32 = 1;

/// The type of a failure that lies in what was sent, PROTOCOL_ERROR of a TApplicationException.
const PROTOCOL_ERROR: i32 = 7;

/// Appends the answer to a frame that is refused for this cause: an Exception message with its sequence number and its
/// method's name. Nothing is appended where the frame's header isn't whole.
///
/// `room` is the reader's, at least as long as the frame. A name that the writer's protocol can't hold is left empty.
pub fn answer<'f, R: WireRead<'f>, W: WireWrite>(
    frame: &'f [u8],
    room: &'f mut [u8],
    cause: &Cause,
    out: &mut Out,
)
    requires room { length frame.now ≤ length room.old }
    requires size { length frame.now < 2 ^ 31 }
    requires fits { length out.old.bytes + room_for (length frame.now) ≤ out.old.room }
    requires nameless { W.name_bar [] ≡ None }
    requires spellable { TakesAll W.bar (failure_items (cause_text cause.now) (failure_type cause.now)) }
    ensures out { out.new ≡ record out.old { bytes = out.old.bytes ++ answer_in R.ReadRules W.WireWrite frame.now cause.now } }
    ensures short { length out.new.bytes ≤ length out.old.bytes + room_for (length frame.now) }
{
    let mut reader = R::over(frame, room);
    match reader.head() {
        Ok(head) => {
            let mut writer = W::over();
            put_head(&mut writer, &head, out);
            put_failure(&mut writer, cause.text(), cause, out);
        }
        Err(_) => {}
    }
}

/// Writes the header of the answer to a message with this header.
fn put_head<W: WireWrite>(writer: &mut W, head: &Head<'_>, out: &mut Out)
    requires sized { length head.now.name.now < 2 ^ 31 }
    requires nameless { W.name_bar [] ≡ None }
    requires room { length out.old.bytes + head_weight (length head.now.name.now) ≤ out.old.room }
    ensures state { writer.new ≡ writer.old }
    ensures out { out.new ≡ record out.old { bytes = out.old.bytes ++ W.plain_head (answer_header W.name_bar (header_of head.now)) } }
    ensures short { length out.new.bytes ≤ length out.old.bytes + head_weight (length head.now.name.now) }
{
    let name = spellable::<W>(method_name(head));
    writer.head(&exception(name, head.seq), out);
}

/// The method's name, without its service's.
fn method_name<'a>(head: &Head<'a>) -> &'a [u8]
    ensures name { result.now ≡ method_name head.now.mtype head.now.name.now }
    ensures short { length result.now ≤ length head.now.name.now }
{
    match head.mtype {
        MessageType::Call | MessageType::Oneway => split(head.name).1,
        MessageType::Reply | MessageType::Exception => head.name,
    }
}

/// This name, or the empty one where it can't be written.
pub fn spellable<W: WireWrite>(name: &[u8]) -> &[u8]
    requires nameless { W.name_bar [] ≡ None }
    ensures name { result.now ≡ spellable W.name_bar name.now }
    ensures taken { W.name_bar result.now ≡ None }
    ensures short { length result.now ≤ length name.now }
{
    match W::takes_name(name) {
        Ok(()) => name,
        Err(_) => &[],
    }
}

fn exception(name: &[u8], seq: i32) -> Head<'_>
    ensures { header_of result ≡ record { name = name.now; mtype = MessageType.Exception; seq = seq } }
{
    Head {
        name,
        mtype: MessageType::Exception,
        seq,
    }
}

/// Writes the body that tells of a failure, by its message and its cause's type.
fn put_failure<W: WireWrite>(writer: &mut W, message: &[u8], cause: &Cause, out: &mut Out)
    requires open { W.depth writer.old ≡ 1 }
    requires short { length message.now ≤ 17 }
    requires spellable { TakesAll W.bar (failure_items message.now (failure_type cause.now)) }
    requires room { length out.old.bytes + 159 ≤ out.old.room }
    ensures out { out.new ≡ record out.old { bytes = out.old.bytes ++ spelled W.plain W.after writer.old (failure_items message.now (failure_type cause.now)) } }
    ensures short { length out.new.bytes ≤ length out.old.bytes + 159 }
{
    put_known(writer, &Event::Field(1, Kind::Str), Hint::Unknown, out);
    put_known(writer, &Event::Str(message), Hint::Text, out);
    put_known(writer, &Event::Field(2, Kind::I32), Hint::Unknown, out);
    put_type(writer, cause, out);
    put_known(writer, &Event::Stop, Hint::Unknown, out);
}

/// Writes the type that a cause has.
fn put_type<W: WireWrite>(writer: &mut W, cause: &Cause, out: &mut Out)
    requires taken { W.bar (i32_value (failure_type cause.now)) (mark Hint.Unknown) ≡ None }
    requires open { 0 < W.depth writer.old }
    requires shallow { W.depth writer.old ≤ DEPTH }
    requires room { length out.old.bytes + 15 ≤ out.old.room }
    ensures state { writer.new ≡ W.after writer.old (i32_value (failure_type cause.now)) (mark Hint.Unknown) }
    ensures depth { W.depth writer.new ≡ W.depth writer.old }
    ensures out { out.new ≡ record out.old { bytes = out.old.bytes ++ W.plain writer.old (i32_value (failure_type cause.now)) (mark Hint.Unknown) } }
    ensures short { length out.new.bytes ≤ length out.old.bytes + 15 }
{
    match cause {
        Cause::Grammar(_) => { put_known(writer, &Event::I32(PROTOCOL_ERROR), Hint::Unknown, out) }
        Cause::Barred { .. } => {
            put_known(writer, &Event::I32(PROTOCOL_ERROR), Hint::Unknown, out)
        }
        Cause::NoRoute => put_known(writer, &Event::I32(UNKNOWN_METHOD), Hint::Unknown, out),
    }
}

/// Writes one event of which this is known.
fn put_known<W: WireWrite>(writer: &mut W, event: &Event<'_>, hint: Hint, out: &mut Out)
    requires sized { IsSized (item_of event.now) }
    requires taken { W.bar (item_of event.now) (mark hint) ≡ None }
    requires open { 0 < W.depth writer.old }
    requires shallow { depth_after (item_of event.now) (W.depth writer.old) ≤ DEPTH }
    requires room { length out.old.bytes + weight (item_of event.now) ≤ out.old.room }
    ensures state { writer.new ≡ W.after writer.old (item_of event.now) (mark hint) }
    ensures depth { W.depth writer.new ≡ depth_after (item_of event.now) (W.depth writer.old) }
    ensures out { out.new ≡ record out.old { bytes = out.old.bytes ++ W.plain writer.old (item_of event.now) (mark hint) } }
    ensures short { length out.new.bytes ≤ length out.old.bytes + weight (item_of event.now) }
{
    let mark = Mark {
        hint,
        key: Kind::I8,
        value: Kind::I8,
    };
    writer.put(event, mark, out);
}
