//! The line of a routed connection that has ended, or was left open.
ghost use Rattle.std.specs.Prelude.{◌≡◌, ◌+◌, ◌≤◌, ◌++◌, length};
ghost use Rattle.route_server.specs.Lines.{halt_text, fault_text, upstream_text, open_calls_text, unsolicited_text, port_text, link_fault_text, outcome_text, ending_text, line_text};

use decimal_words::push_number;
use gate_io::Out;
use service_router::RouteOutcome;
use session_core::Halt;
use translate_verdicts::Cause;

/// The room for a line.
pub const LINE_ROOM: usize = 224;

/// The room for how a session ended.
const OUTCOME_ROOM: usize = 170;

/// The room for why a port halted.
const HALT_ROOM: usize = 62;

/// The room for a frame's number and why it halts its port.
const FAULT_ROOM: usize = 118;

/// The room for the name of a port.
const PORT_ROOM: usize = 50;

/// Makes the line of session `number`: how it ended, or that it was left open.
#[tactic(auto, unfolding(crate::specs::Lines::line_text))]
pub fn put_line(line: &mut Out, number: u64, ending: Option<RouteOutcome>)
    requires { LINE_ROOM ≤ line.old.room }
    ensures { line.new ≡ record line.old { bytes = line_text number ending } }
{
    line.clear();
    line.push(b"session ");
    push_number(line, number);
    line.push(b": ");
    push_ending(line, ending);
    line.push(b"\n");
}

/// Appends how a session ended.
#[tactic(auto, unfolding(crate::specs::Lines::ending_text))]
fn push_ending(line: &mut Out, ending: Option<RouteOutcome>)
    requires { length line.old.bytes + OUTCOME_ROOM ≤ line.old.room }
    ensures text { line.new ≡ record line.old { bytes = line.old.bytes ++ ending_text ending } }
    ensures short { length line.new.bytes ≤ length line.old.bytes + OUTCOME_ROOM }
{
    match ending {
        None => line.push(b"left open"),
        Some(outcome) => push_outcome(line, outcome),
    }
}

/// Appends the outcome of a session.
#[tactic(auto, unfolding(crate::specs::Lines::outcome_text))]
fn push_outcome(line: &mut Out, outcome: RouteOutcome)
    requires { length line.old.bytes + OUTCOME_ROOM ≤ line.old.room }
    ensures text { line.new ≡ record line.old { bytes = line.old.bytes ++ outcome_text outcome } }
    ensures short { length line.new.bytes ≤ length line.old.bytes + OUTCOME_ROOM }
{
    match outcome {
        RouteOutcome::Clean => line.push(b"clean"),
        RouteOutcome::ClientFault(frame, halt) => {
            line.push(b"client");
            push_fault(line, frame, halt);
        }
        RouteOutcome::UpstreamFault(port, frame, halt) => {
            push_upstream(line, port);
            push_fault(line, frame, halt);
        }
        RouteOutcome::UpstreamEnded(port, calls) => push_open_calls(line, port, calls),
        RouteOutcome::Unsolicited {
            port,
            answer,
            calls,
        } => push_unsolicited(line, port, answer, calls),
        RouteOutcome::LinkFault(port) => push_link_fault(line, port),
        RouteOutcome::Full => line.push(b"full"),
        RouteOutcome::NoMemory => line.push(b"no memory"),
    }
}

/// Appends which frame is at fault, and why.
#[tactic(auto, unfolding(crate::specs::Lines::fault_text))]
fn push_fault(line: &mut Out, frame: u64, halt: Halt)
    requires { length line.old.bytes + FAULT_ROOM ≤ line.old.room }
    ensures text { line.new ≡ record line.old { bytes = line.old.bytes ++ fault_text frame halt } }
    ensures short { length line.new.bytes ≤ length line.old.bytes + FAULT_ROOM }
{
    line.push(b" fault: frame ");
    push_number(line, frame);
    line.push(b": ");
    push_halt(line, halt);
}

/// Appends that the target at a port ended with so many calls to it open.
#[tactic(auto, unfolding(crate::specs::Lines::open_calls_text))]
fn push_open_calls(line: &mut Out, port: usize, calls: u64)
    requires { length line.old.bytes + OUTCOME_ROOM ≤ line.old.room }
    ensures text { line.new ≡ record line.old { bytes = line.old.bytes ++ open_calls_text port calls } }
    ensures short { length line.new.bytes ≤ length line.old.bytes + OUTCOME_ROOM }
{
    push_upstream(line, port);
    line.push(b" ended: open calls ");
    push_number(line, calls);
}

/// Appends that the target at a port answered more than it was asked.
#[tactic(auto, unfolding(crate::specs::Lines::unsolicited_text))]
fn push_unsolicited(line: &mut Out, port: usize, answer: u64, calls: u64)
    requires { length line.old.bytes + OUTCOME_ROOM ≤ line.old.room }
    ensures text { line.new ≡ record line.old { bytes = line.old.bytes ++ unsolicited_text port answer calls } }
    ensures short { length line.new.bytes ≤ length line.old.bytes + OUTCOME_ROOM }
{
    line.push(b"unsolicited: ");
    push_upstream(line, port);
    line.push(b": answer ");
    push_number(line, answer);
    line.push(b" to ");
    push_number(line, calls);
    line.push(b" calls");
}

/// Appends that a call on a port failed.
#[tactic(auto, unfolding(crate::specs::Lines::link_fault_text))]
fn push_link_fault(line: &mut Out, port: usize)
    requires { length line.old.bytes + OUTCOME_ROOM ≤ line.old.room }
    ensures text { line.new ≡ record line.old { bytes = line.old.bytes ++ link_fault_text port } }
    ensures short { length line.new.bytes ≤ length line.old.bytes + OUTCOME_ROOM }
{
    line.push(b"link fault: ");
    push_port(line, port);
}

/// Appends the name of a port.
#[tactic(auto, unfolding(crate::specs::Lines::port_text))]
fn push_port(line: &mut Out, port: usize)
    requires { length line.old.bytes + PORT_ROOM ≤ line.old.room }
    ensures text { line.new ≡ record line.old { bytes = line.old.bytes ++ port_text port } }
    ensures short { length line.new.bytes ≤ length line.old.bytes + PORT_ROOM }
{
    if port == 0 {
        line.push(b"client");
    } else {
        push_upstream(line, port);
    }
}

/// Appends the name of a target's port.
#[tactic(auto, unfolding(crate::specs::Lines::upstream_text))]
fn push_upstream(line: &mut Out, port: usize)
    requires { length line.old.bytes + PORT_ROOM ≤ line.old.room }
    ensures text { line.new ≡ record line.old { bytes = line.old.bytes ++ upstream_text port } }
    ensures short { length line.new.bytes ≤ length line.old.bytes + PORT_ROOM }
{
    line.push(b"upstream ");
    push_number(line, port as u64);
}

/// Appends why a port halted.
#[tactic(auto, unfolding(crate::specs::Lines::halt_text))]
fn push_halt(line: &mut Out, halt: Halt)
    requires { length line.old.bytes + HALT_ROOM ≤ line.old.room }
    ensures text { line.new ≡ record line.old { bytes = line.old.bytes ++ halt_text halt } }
    ensures short { length line.new.bytes ≤ length line.old.bytes + HALT_ROOM }
{
    match halt {
        Halt::Unread(fault) => {
            line.push(b"at ");
            push_number(line, fault.place);
            line.push(b": ");
            line.push(Cause::Grammar(fault).text());
        }
        Halt::WrongWay => line.push(b"wrong way"),
        Halt::TooLarge(length) => {
            line.push(b"length ");
            push_number(line, length);
        }
        Halt::Inside => line.push(b"ended inside"),
    }
}
