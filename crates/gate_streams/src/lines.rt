//! The lines of the report, and those of the output that say of a frame that it meets what is declared of it.
ghost use Rattle.std.specs.Prelude.{◌≡◌, ◌+◌, ◌*◌, ◌≤◌, ◌++◌, length, decimal, codes};
ghost use Rattle.std.specs.List.{flat_map};
ghost use Rattle.conform_check.specs.Checking.{broken};
ghost use Rattle.gate_streams.specs.Lines.{refusal_text, too_large_text, over_text, excess_text, left_text, meets_text, step_text, next_text, path_text, breach_line};

use conform_check::{Breach, Step, breach_text};
use decimal_words::push_number;
use gate_io::Out;
use line_transport::Excess;
use protocol_traits::DEPTH;

/// The room for each line of the report. The longest tells a breach whose path has a step for each of the levels of a message.
pub const LINE_ROOM: usize = 12_800;

/// The room for a line of the output.
pub const MEETS_ROOM: usize = 64;

/// The room for a step of a path, with the mark before it.
const STEP_ROOM: usize = 48;

/// The longest text of a cause.
const LONGEST_CAUSE: usize = 17;

/// Appends that a frame was refused, at which place of it, and why.
#[tactic(auto, unfolding(crate::specs::Lines::refusal_text))]
pub fn refusal(lines: &mut Out, number: u64, place: usize, cause: &[u8])
    requires room { length lines.old.bytes + LINE_ROOM ≤ lines.old.room }
    requires short { length cause.now ≤ LONGEST_CAUSE }
    ensures { lines.new ≡ record lines.old { bytes = lines.old.bytes ++ refusal_text number place cause.now } }
{
    lines.push(b"frame ");
    push_number(lines, number);
    lines.push(b": at ");
    push_number(lines, place);
    lines.push(b": ");
    lines.push(cause);
    lines.push(b"\n");
}

/// Appends that the message of a frame meets what is declared of it.
#[tactic(auto, unfolding(crate::specs::Lines::meets_text))]
pub fn meets(page: &mut Out, number: u64)
    requires { length page.old.bytes + MEETS_ROOM ≤ page.old.room }
    ensures { page.new ≡ record page.old { bytes = page.old.bytes ++ meets_text number } }
{
    page.push(b"frame ");
    push_number(page, number);
    page.push(b": meets\n");
}

/// Appends how the message of a frame breaks what is declared of it, and at which place in it.
#[tactic(auto, unfolding(crate::specs::Lines::breach_line))]
pub fn breach(lines: &mut Out, number: u64, path: &[Step], breach: Breach)
    requires room { length lines.old.bytes + LINE_ROOM ≤ lines.old.room }
    requires short { length path.now ≤ DEPTH }
    ensures { lines.new ≡ record lines.old { bytes = lines.old.bytes ++ breach_line number (broken breach path.now) } }
{
    lines.push(b"frame ");
    push_number(lines, number);
    lines.push(b": at ");
    push_path(lines, path);
    lines.push(b": ");
    lines.push(breach_text(breach));
    lines.push(b"\n");
}

// Appends the steps of a path.
#[tactic(auto, unfolding(crate::specs::Lines::path_text))]
fn push_path(lines: &mut Out, path: &[Step])
    requires room { length lines.old.bytes + STEP_ROOM * DEPTH + STEP_ROOM ≤ lines.old.room }
    requires short { length path.now ≤ DEPTH }
    ensures text { lines.new ≡ record lines.old { bytes = lines.old.bytes ++ path_text path.now } }
    ensures within { length lines.new.bytes ≤ length lines.old.bytes + STEP_ROOM * DEPTH + STEP_ROOM }
{
    match path.split_first() {
        Some((first, rest)) => {
            push_step(lines, *first);
            push_steps(lines, rest);
        }
        None => lines.push(b"."),
    }
}

// Appends each step behind a mark.
fn push_steps(lines: &mut Out, steps: &[Step])
    requires { length lines.old.bytes + STEP_ROOM * length steps.now ≤ lines.old.room }
    ensures text { lines.new ≡ record lines.old { bytes = lines.old.bytes ++ flat_map next_text steps.now } }
    ensures within { length lines.new.bytes ≤ length lines.old.bytes + STEP_ROOM * length steps.now }
{
    'steps: for step in steps {
        lines.push(b"/");
        push_step(lines, *step);
    }
}

// Appends a step: a field's id, or the place of a value in its container.
#[tactic(auto, unfolding(crate::specs::Lines::step_text))]
fn push_step(lines: &mut Out, step: Step)
    requires { length lines.old.bytes + STEP_ROOM ≤ lines.old.room + 1 }
    ensures text { lines.new ≡ record lines.old { bytes = lines.old.bytes ++ step_text step } }
    ensures within { length lines.new.bytes + 1 ≤ length lines.old.bytes + STEP_ROOM }
{
    match step {
        Step::Field(id) => push_number(lines, id),
        Step::Item(place) => push_place(lines, b"item[", place),
        Step::Key(place) => push_place(lines, b"key[", place),
        Step::Part(place) => push_place(lines, b"value[", place),
    }
}

// Appends a place in brackets, behind the word and its bracket.
fn push_place(lines: &mut Out, word: &[u8], place: u32)
    requires room { length lines.old.bytes + STEP_ROOM ≤ lines.old.room + 1 }
    requires short { length word.now ≤ 6 }
    ensures text { lines.new ≡ record lines.old { bytes = lines.old.bytes ++ word.now ++ decimal place ++ codes "]" } }
    ensures within { length lines.new.bytes + 1 ≤ length lines.old.bytes + STEP_ROOM }
{
    lines.push(word);
    push_number(lines, place);
    lines.push(b"]");
}

/// Says that the length of the next frame is negative or above the limit.
#[tactic(auto, unfolding(crate::specs::Lines::too_large_text))]
fn too_large(line: &mut Out, number: u64, length: i32)
    requires { LINE_ROOM ≤ line.old.room }
    ensures { line.new ≡ record line.old { bytes = too_large_text number length } }
{
    line.clear();
    line.push(b"stream: frame ");
    push_number(line, number);
    line.push(b": length ");
    push_number(line, length);
    line.push(b"\n");
}

/// Says that the next line is longer than so many bytes.
#[tactic(auto, unfolding(crate::specs::Lines::over_text))]
fn over(line: &mut Out, number: u64, limit: usize)
    requires { LINE_ROOM ≤ line.old.room }
    ensures { line.new ≡ record line.old { bytes = over_text number limit } }
{
    line.clear();
    line.push(b"stream: frame ");
    push_number(line, number);
    line.push(b": over ");
    push_number(line, limit);
    line.push(b" bytes\n");
}

/// Says how the next frame or line is too large.
pub fn excess(line: &mut Out, number: u64, limit: usize, excess: Excess)
    requires { LINE_ROOM ≤ line.old.room }
    ensures { line.new ≡ record line.old { bytes = excess_text limit number excess } }
{
    match excess {
        Excess::Length(length) => too_large(line, number, length),
        Excess::Line => over(line, number, limit),
    }
}

/// Says that bytes are left that are no whole frame.
#[tactic(auto, unfolding(crate::specs::Lines::left_text))]
pub fn left(line: &mut Out, frames: u64, count: usize)
    requires { LINE_ROOM ≤ line.old.room }
    ensures { line.new ≡ record line.old { bytes = left_text frames count } }
{
    line.clear();
    line.push(b"stream: ");
    push_number(line, count);
    line.push(b" bytes after frame ");
    push_number(line, frames);
    line.push(b"\n");
}
