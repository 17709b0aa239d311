//! The line of a session that has ended, or was left open.
ghost use Rattle.std.specs.Prelude.{◌≡◌, ◌+◌, ◌≤◌, ◌++◌, length};
ghost use Rattle.proxy_server.specs.Lines.{halt_text, side_text, open_calls_text, unsolicited_text, link_fault_text, outcome_text, ending_text, line_text};

use decimal_words::push_number;
use gate_hub::Side;
use gate_io::Out;
use session_core::{Halt, Outcome};
use translate_verdicts::Cause;

/// The room for a line.
pub const LINE_ROOM: usize = 192;

/// The room for how a session ended.
const OUTCOME_ROOM: usize = 130;

/// The room for why a side halted.
const HALT_ROOM: usize = 62;

/// The room for the name of a side.
const SIDE_ROOM: usize = 8;

/// Makes the line of session `number`: how it ended, or that it was left open.
#[tactic(auto, unfolding(crate::specs::Lines::line_text))]
pub fn put_line(line: &mut Out, number: u64, ending: Option<Outcome>)
    requires { LINE_ROOM ≤ line.old.room }
    ensures { line.new ≡ record line.old { bytes = line_text number ending } }
{
    line.clear();
    line.push(b"session ");
    push_number(line, number);
    line.push(b": ");
    push_ending(line, ending);
    line.push(b"\n");
}

/// Appends how a session ended.
#[tactic(auto, unfolding(crate::specs::Lines::ending_text))]
fn push_ending(line: &mut Out, ending: Option<Outcome>)
    requires { length line.old.bytes + OUTCOME_ROOM ≤ line.old.room }
    ensures text { line.new ≡ record line.old { bytes = line.old.bytes ++ ending_text ending } }
    ensures short { length line.new.bytes ≤ length line.old.bytes + OUTCOME_ROOM }
{
    match ending {
        None => line.push(b"left open"),
        Some(outcome) => push_outcome(line, outcome),
    }
}

/// Appends the outcome of a session.
#[tactic(auto, unfolding(crate::specs::Lines::outcome_text))]
fn push_outcome(line: &mut Out, outcome: Outcome)
    requires { length line.old.bytes + OUTCOME_ROOM ≤ line.old.room }
    ensures text { line.new ≡ record line.old { bytes = line.old.bytes ++ outcome_text outcome } }
    ensures short { length line.new.bytes ≤ length line.old.bytes + OUTCOME_ROOM }
{
    match outcome {
        Outcome::Clean => line.push(b"clean"),
        Outcome::ClientFault(frame, halt) => {
            line.push(b"client fault: frame ");
            push_number(line, frame);
            line.push(b": ");
            push_halt(line, halt);
        }
        Outcome::UpstreamFault(frame, halt) => {
            line.push(b"upstream fault: frame ");
            push_number(line, frame);
            line.push(b": ");
            push_halt(line, halt);
        }
        Outcome::UpstreamEnded(calls) => push_open_calls(line, calls),
        Outcome::Unsolicited { answer, calls } => push_unsolicited(line, answer, calls),
        Outcome::LinkFault(side) => push_link_fault(line, side),
        Outcome::Full => line.push(b"full"),
        Outcome::NoMemory => line.push(b"no memory"),
    }
}

/// Appends that the upstream ended with so many calls open.
#[tactic(auto, unfolding(crate::specs::Lines::open_calls_text))]
fn push_open_calls(line: &mut Out, calls: u64)
    requires { length line.old.bytes + OUTCOME_ROOM ≤ line.old.room }
    ensures text { line.new ≡ record line.old { bytes = line.old.bytes ++ open_calls_text calls } }
    ensures short { length line.new.bytes ≤ length line.old.bytes + OUTCOME_ROOM }
{
    line.push(b"upstream ended: open calls ");
    push_number(line, calls);
}

/// Appends that the upstream answered more than it was asked.
#[tactic(auto, unfolding(crate::specs::Lines::unsolicited_text))]
fn push_unsolicited(line: &mut Out, answer: u64, calls: u64)
    requires { length line.old.bytes + OUTCOME_ROOM ≤ line.old.room }
    ensures text { line.new ≡ record line.old { bytes = line.old.bytes ++ unsolicited_text answer calls } }
    ensures short { length line.new.bytes ≤ length line.old.bytes + OUTCOME_ROOM }
{
    line.push(b"unsolicited: answer ");
    push_number(line, answer);
    line.push(b" to ");
    push_number(line, calls);
    line.push(b" calls");
}

/// Appends that a call on a side failed.
#[tactic(auto, unfolding(crate::specs::Lines::link_fault_text))]
fn push_link_fault(line: &mut Out, side: Side)
    requires { length line.old.bytes + OUTCOME_ROOM ≤ line.old.room }
    ensures text { line.new ≡ record line.old { bytes = line.old.bytes ++ link_fault_text side } }
    ensures short { length line.new.bytes ≤ length line.old.bytes + OUTCOME_ROOM }
{
    line.push(b"link fault: ");
    line.push(side_name(side));
}

/// The name of a side.
#[tactic(auto, unfolding(crate::specs::Lines::side_text))]
fn side_name(side: Side) -> &'static [u8]
    ensures text { result.now ≡ side_text side }
    ensures short { length result.now ≤ SIDE_ROOM }
{
    match side {
        Side::Client => b"client",
        Side::Upstream => b"upstream",
    }
}

/// Appends why a side halted.
#[tactic(auto, unfolding(crate::specs::Lines::halt_text))]
fn push_halt(line: &mut Out, halt: Halt)
    requires { length line.old.bytes + HALT_ROOM ≤ line.old.room }
    ensures text { line.new ≡ record line.old { bytes = line.old.bytes ++ halt_text halt } }
    ensures short { length line.new.bytes ≤ length line.old.bytes + HALT_ROOM }
{
    match halt {
        Halt::Unread(fault) => {
            line.push(b"at ");
            push_number(line, fault.place);
            line.push(b": ");
            line.push(Cause::Grammar(fault).text());
        }
        Halt::WrongWay => line.push(b"wrong way"),
        Halt::TooLarge(length) => {
            line.push(b"length ");
            push_number(line, length);
        }
        Halt::Inside => line.push(b"ended inside"),
    }
}
