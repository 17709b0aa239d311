//! The line of a refused frame.
ghost use Rattle.std.specs.Prelude.{◌≡◌, ◌+◌, ◌≤◌, ◌<◌, ◌^◌, ◌++◌, length, decimal};
ghost use Rattle.refusal_lines.specs.Lines.{session_text, port_text, sender_text, which_text, header_text, place_in, cause_line, read_text, end_text, refusal_text};

use crate::header::{Headed, read_header};
use crate::name::{NAME_ROOM, push_name};
use decimal_words::{NUMBER_ROOM, push_number};
use gate_hub::Side;
use gate_io::Out;
use itoa::Buffer;
use protocol_traits::Proto;
use session_core::Refusal;
use translate_verdicts::Cause;

/// The room for a line: fewer bytes than that.
pub const LINE_ROOM: usize = 512;

/// The room for a number of 64 bits.
const COUNT_ROOM: usize = 20;

/// The room for the number of a session and what stands around it.
const SESSION_ROOM: usize = 30;

/// The room for the port of an upstream.
const PORT_ROOM: usize = COUNT_ROOM + 1;

/// The room for whose frame it was.
const SENDER_ROOM: usize = PORT_ROOM + 7;

/// The room for whose frame it was, and its number.
const WHICH_ROOM: usize = SENDER_ROOM + COUNT_ROOM;

/// The room for a name and a sequence number.
const HEADER_ROOM: usize = NAME_ROOM + NUMBER_ROOM + 2;

/// The room for a place and a cause.
const CAUSE_ROOM: usize = 44;

/// The room for what stands behind the cause.
const END_ROOM: usize = 10;

/// Makes the line of a frame of this protocol that a session refused. The frame is read with the line's room.
#[tactic(auto, unfolding(crate::specs::Lines::refusal_text))]
pub fn put_refusal(line: &mut Out, from: Proto, session: u64, refusal: Refusal, frame: &[u8])
    requires room { length frame.now + LINE_ROOM ≤ line.old.room }
    requires size { length frame.now < 2 ^ 31 }
    ensures text { line.new ≡ record line.old { bytes = refusal_text from session refusal frame.now } }
    ensures short { length line.new.bytes < LINE_ROOM }
{
    line.clear();
    let header = read_header(from, frame, line.tail(frame.len()));
    line.clear();
    push_session(line, session);
    push_which(line, refusal.side, refusal.port, refusal.number);
    push_read(line, header, &refusal.cause);
    push_end(line, refusal.dropped);
}

/// Appends what a frame's header tells, and the cause with its place.
fn push_read(line: &mut Out, header: Option<Headed>, cause: &Cause)
    requires { length line.old.bytes + (HEADER_ROOM + CAUSE_ROOM) ≤ line.old.room }
    ensures text { line.new ≡ record line.old { bytes = line.old.bytes ++ read_text header cause.now } }
    ensures short { length line.new.bytes ≤ length line.old.bytes + (HEADER_ROOM + CAUSE_ROOM) }
{
    match header {
        Some(header) => {
            push_header(line, &header);
            push_cause(line, cause, header.place());
        }
        None => push_cause(line, cause, 0),
    }
}

/// Appends the name and the sequence number of a header.
#[tactic(auto, unfolding(crate::specs::Lines::header_text))]
fn push_header(line: &mut Out, header: &Headed)
    requires { length line.old.bytes + HEADER_ROOM ≤ line.old.room }
    ensures text { line.new ≡ record line.old { bytes = line.old.bytes ++ header_text header.now } }
    ensures short { length line.new.bytes ≤ length line.old.bytes + HEADER_ROOM }
{
    line.push(b" ");
    push_name(line, header.front(), header.is_longer());
    line.push(b" ");
    push_number(line, header.seq());
}

/// Appends a cause and its place: that of the name where no target serves what it asks for.
#[tactic(auto, unfolding(crate::specs::Lines::cause_line))]
fn push_cause(line: &mut Out, cause: &Cause, name_place: usize)
    requires { length line.old.bytes + CAUSE_ROOM ≤ line.old.room }
    ensures text { line.new ≡ record line.old { bytes = line.old.bytes ++ cause_line cause.now name_place } }
    ensures short { length line.new.bytes ≤ length line.old.bytes + CAUSE_ROOM }
{
    line.push(b": at ");
    push_count(line, place_in(cause, name_place) as u64);
    line.push(b": ");
    line.push(cause.text());
}

/// The place that is told of a cause.
fn place_in(cause: &Cause, name_place: usize) -> usize
    ensures { result ≡ place_in cause.now name_place }
{
    match cause {
        Cause::NoRoute => name_place,
        Cause::Grammar(_) | Cause::Barred { .. } => cause.place(),
    }
}

/// Appends the number of a session.
#[tactic(auto, unfolding(crate::specs::Lines::session_text))]
fn push_session(line: &mut Out, session: u64)
    requires { length line.old.bytes + SESSION_ROOM ≤ line.old.room }
    ensures text { line.new ≡ record line.old { bytes = line.old.bytes ++ session_text session } }
    ensures short { length line.new.bytes ≤ length line.old.bytes + SESSION_ROOM }
{
    line.push(b"session ");
    push_count(line, session);
    line.push(b": ");
}

/// Appends whose frame it was, and its number.
#[tactic(auto, unfolding(crate::specs::Lines::which_text))]
fn push_which(line: &mut Out, side: Side, port: u32, number: u64)
    requires { length line.old.bytes + WHICH_ROOM ≤ line.old.room }
    ensures text { line.new ≡ record line.old { bytes = line.old.bytes ++ which_text side port number } }
    ensures short { length line.new.bytes ≤ length line.old.bytes + WHICH_ROOM }
{
    push_sender(line, side, port);
    push_count(line, number);
}

/// Appends whose frame it was.
#[tactic(auto, unfolding(crate::specs::Lines::sender_text))]
fn push_sender(line: &mut Out, side: Side, port: u32)
    requires { length line.old.bytes + SENDER_ROOM ≤ line.old.room }
    ensures text { line.new ≡ record line.old { bytes = line.old.bytes ++ sender_text side port } }
    ensures short { length line.new.bytes ≤ length line.old.bytes + SENDER_ROOM }
{
    match side {
        Side::Client => line.push(b"call "),
        Side::Upstream => {
            line.push(b"answer ");
            push_port(line, port);
        }
    }
}

/// Appends the port of an upstream, where there are several.
#[tactic(auto, unfolding(crate::specs::Lines::port_text))]
fn push_port(line: &mut Out, port: u32)
    requires { length line.old.bytes + PORT_ROOM ≤ line.old.room }
    ensures text { line.new ≡ record line.old { bytes = line.old.bytes ++ port_text port } }
    ensures short { length line.new.bytes ≤ length line.old.bytes + PORT_ROOM }
{
    if port != 0 {
        push_count(line, port as u64);
        line.push(b":");
    }
}

/// Appends whether nothing goes back, and ends the line.
#[tactic(auto, unfolding(crate::specs::Lines::end_text))]
fn push_end(line: &mut Out, dropped: bool)
    requires { length line.old.bytes + END_ROOM ≤ line.old.room }
    ensures text { line.new ≡ record line.old { bytes = line.old.bytes ++ end_text dropped } }
    ensures short { length line.new.bytes ≤ length line.old.bytes + END_ROOM }
{
    if dropped {
        line.push(b", dropped\n");
    } else {
        line.push(b"\n");
    }
}

/// Appends a number in decimal digits.
fn push_count(line: &mut Out, number: u64)
    requires { length line.old.bytes + COUNT_ROOM ≤ line.old.room }
    ensures text { line.new ≡ record line.old { bytes = line.old.bytes ++ decimal number } }
    ensures short { length line.new.bytes ≤ length line.old.bytes + COUNT_ROOM }
{
    let mut digits = Buffer::new();
    line.push(digits.format(number).as_bytes());
}
