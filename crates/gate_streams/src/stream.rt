//! The work on a whole stream, from its first byte to its ending: the bytes that are held, the frames so far, and what
//! waits to be written.
//!
//! What comes of the frames is gathered, and written where no whole frame is held or the room for the next one might not
//! do: the output first, and then the lines of the report.
ghost use Rattle.std.specs.Prelude.{◌≡◌, ◌+◌, ◌<◌, ◌≤◌, [], ℕ, None, Some, length, IfOk, IfErr, OnOk};
ghost use Rattle.gate_base.specs.Causes.{Rose};
ghost use Rattle.line_transport.specs.Buffers.{CountsNext};
ghost use Rattle.line_transport.specs.Front.{front, Exceeds};
ghost use Rattle.gate_start.specs.Calls.{OnStreams};
ghost use Rattle.gate_streams.specs.Outcome.{Streamed};
ghost use Rattle.gate_streams.specs.Progress.{HasRisen};
ghost use Rattle.gate_streams.specs.declared.task.Doing.TheVariants.{Convert};
ghost use Rattle.gate_streams.specs.Working.{IsReady, IsCounted, IsFlushed, IsStart, IsWaiting, Closes, TakesFrom, Gathers, HandlesHeld, DrainsHeld, EndsOn, FinishesOn, ConcludesOn, Processes, WritesBothOn, MakesRoomOn};

use crate::convert::pass_sent;
use crate::frame::{WriteFault, handle};
use crate::handler::Handler;
use crate::lines::{self, LINE_ROOM};
use crate::run::{convert_run, framed_room};
use crate::task::Task;
use gate_base::OutOfMemory;
use gate_io::{Got, Out, Sink, Source, Wrote, flush, write_all};
use gate_start::{Ending, Page, end_with};
use gate_words::GREATEST_LIMIT;
use line_transport::{Excess, MessageBuf, Next, Transport};
use protocol_pairs::{
    BinaryKept, BinaryToCompact, BinaryToJson, CompactKept, CompactToBinary, CompactToJson,
    DeclaredKept, DeclaredToBinary, JsonToBinary, JsonToCompact, Pair,
};
use protocol_traits::Proto;
use std::alloc::Global;
use translate_known::Habit;

/// At most so many bytes are read.
pub const MOST_BYTES: u64 = (1 << 63) - 1;

/// The room for lines of the report that wait to be written.
const LINES_ROOM: usize = 16_384;

/// So many cells of the page are lent for a run of frames at the most: all that were asked for are made.
const RUN_ROOM: usize = 65_536;

/// The work on a stream.
#[derive(Drop)]
pub struct Work<'s> {
    /// What handles each frame.
    handler: Handler<'s>,
    /// The bytes that were read and not handled.
    inbox: MessageBuf,
    /// What waits for the output.
    page: Page,
    /// The lines that wait for the report.
    lines: Out,
    /// How many bytes were read.
    taken: u64,
    /// How many frames were handled.
    number: u64,
    /// Whether one of them did not pass.
    refused: bool,
}

/// The stream on which a write failed.
#[derive(Clone, Copy)]
pub enum Broken {
    Output,
    Report,
}

/// Does with the frames of the input what the task says: writes what comes of them to the output, and reports each that
/// does not pass.
pub fn stream<I: Source, O: Sink, E: Sink>(
    alloc: Global,
    task: &Task<'_>,
    input: &mut I,
    output: &mut O,
    report: &mut E,
) -> Ending
    requires { task.now.limit ≤ GREATEST_LIMIT }
    ensures streamed { OnStreams I.Source O.Sink E.Sink (Streamed task.now) input.old output.old report.old input.new output.new report.new result }
    ensures input_later { I.faults input.old ≤ I.faults input.new }
    ensures output_later { O.faults output.old ≤ O.faults output.new }
    ensures report_later { E.faults report.old ≤ E.faults report.new }
{
    let Ok(mut room) = vec![in alloc; 0; task.limit()] else {
        return end_with(report, Ending::OutOfMemory);
    };
    match Work::open(alloc, task) {
        Ok(mut work) => work.run(task, &mut room, input, output, report),
        Err(OutOfMemory) => end_with(report, Ending::OutOfMemory),
    }
}

// Reports the last line of the ending, if it has one.
fn close<E: Sink>(report: &mut E, ending: Ending) -> Ending
    ensures ending { result ≡ ending }
    ensures closed { Closes ending (E.written report.old) (E.written report.new) (E.faults report.old) (E.faults report.new) }
    ensures later { E.faults report.old ≤ E.faults report.new }
{
    match ending {
        Ending::ReadFault => end_with(report, Ending::ReadFault),
        Ending::BudgetSpent => end_with(report, Ending::BudgetSpent),
        _ => ending,
    }
}

impl<'s> Work<'s> {
    /// Takes all the memory of the work but the readers' room, below 25 times the limit and 17,000 bytes, and what a check needs.
    ///
    /// `OutOfMemory`: it was not found.
    pub fn open(alloc: Global, task: &Task<'s>) -> Result<Work<'s>, OutOfMemory>
        requires { task.now.limit ≤ GREATEST_LIMIT }
        ensures ready { IfOk result (λ work. IsReady task.now work) }
        ensures start { IfOk result (λ work. IsStart work) }
    {
        Ok(Work {
            inbox: MessageBuf::open(alloc, task.input(), task.limit())?,
            page: Page::open(alloc, framed_room(task.limit()))?,
            lines: Out::open(alloc, LINES_ROOM)?,
            handler: Handler::open(alloc, task)?,
            taken: 0,
            number: 0,
            refused: false,
        })
    }

    /// Goes through a whole stream from its first byte, and reports the last line of the ending. `room` is the readers'.
    pub fn run<I: Source, O: Sink, E: Sink>(
        &mut self,
        task: &Task<'_>,
        room: &mut [u8],
        input: &mut I,
        output: &mut O,
        report: &mut E,
    ) -> Ending
        requires limit { task.now.limit ≤ GREATEST_LIMIT }
        requires room { task.now.limit ≤ length room.old }
        requires ready { IsReady task.now self.old }
        requires start { IsStart self.old }
        ensures streamed { OnStreams I.Source O.Sink E.Sink (Streamed task.now) input.old output.old report.old input.new output.new report.new result }
        ensures input_later { I.faults input.old ≤ I.faults input.new }
        ensures output_later { O.faults output.old ≤ O.faults output.new }
        ensures report_later { E.faults report.old ≤ E.faults report.new }
    {
        match self.process(task, room, input, output, report) {
            Ok(ending) => close(report, ending),
            Err(_) => Ending::WriteFault,
        }
    }

    /// Reads to the end or to a fault, and handles each frame. `room` is the readers'.
    ///
    /// An error names the stream on which a write failed.
    pub fn process<I: Source, O: Sink, E: Sink>(
        &mut self,
        task: &Task<'_>,
        room: &mut [u8],
        input: &mut I,
        output: &mut O,
        report: &mut E,
    ) -> Result<Ending, Broken>
        requires limit { task.now.limit ≤ GREATEST_LIMIT }
        requires room { task.now.limit ≤ length room.old }
        requires ready { IsReady task.now self.old }
        requires counted { IsCounted self.old }
        requires flushed { IsFlushed self.old }
        requires waiting { IsWaiting task.now self.old.inbox.held }
        ensures ended { Processes I.Source O.Sink E.Sink task.now self.old input.old output.old report.old self.new input.new output.new report.new result }
        ensures input_later { I.faults input.old ≤ I.faults input.new }
        ensures later { O.faults output.old ≤ O.faults output.new }
        ensures report_later { E.faults report.old ≤ E.faults report.new }
        ensures read_fault { IfOk result (λ ending. ending ≡ Ending.ReadFault → Rose (I.faults input.old) (I.faults input.new)) }
        ensures cause { IfErr result (λ broken. HasRisen broken (O.faults output.old) (O.faults output.new) (E.faults report.old) (E.faults report.new)) }
    {
        'pieces: while self.taken < MOST_BYTES {
            match self.take(task, input) {
                Got::Failed => return Ok(Ending::ReadFault),
                Got::End => return self.finish(task, room, output, report),
                Got::Bytes(_) => match self.drain(task, room, output, report) {
                    Ok(None) => (),
                    Ok(Some(excess)) => return self.exceed(task, excess, report),
                    Err(broken) => return Err(broken),
                },
            }
        }
        Ok(Ending::BudgetSpent)
    }

    // Reads once, and holds what came.
    fn take<I: Source>(&mut self, task: &Task<'_>, input: &mut I) -> Got
        requires ready { IsReady task.now self.old }
        requires waiting { IsWaiting task.now self.old.inbox.held }
        requires budget { self.old.taken < MOST_BYTES }
        ensures ready { IsReady task.now self.new }
        ensures page { self.new.page ≡ self.old.page }
        ensures lines { self.new.lines ≡ self.old.lines }
        ensures taken { TakesFrom I.Source task.now self.old input.old self.new input.new result }
        ensures later { I.faults input.old ≤ I.faults input.new }
        ensures cause { result ≡ Got.Failed → Rose (I.faults input.old) (I.faults input.new) }
    {
        let most = (MOST_BYTES - self.taken) as usize;
        match self.inbox.read_from(input, most) {
            Got::Bytes(count) => {
                self.taken += count as u64;
                Got::Bytes(count)
            }
            Got::End => Got::End,
            Got::Failed => Got::Failed,
        }
    }

    // Handles each whole frame that is held, and writes what was gathered of them. Tells where the next one is too large.
    fn drain<O: Sink, E: Sink>(
        &mut self,
        task: &Task<'_>,
        room: &mut [u8],
        output: &mut O,
        report: &mut E,
    ) -> Result<Option<Excess>, Broken>
        requires limit { task.now.limit ≤ GREATEST_LIMIT }
        requires room { task.now.limit ≤ length room.old }
        requires ready { IsReady task.now self.old }
        requires flushed { IsFlushed self.old }
        ensures ready { IsReady task.now self.new }
        ensures flushed { OnOk result (IsFlushed self.new) }
        ensures drained { DrainsHeld O.Sink E.Sink task.now self.old output.old report.old self.new output.new report.new result }
        ensures later { O.faults output.old ≤ O.faults output.new }
        ensures report_later { E.faults report.old ≤ E.faults report.new }
        ensures cause { IfErr result (λ broken. HasRisen broken (O.faults output.old) (O.faults output.new) (E.faults report.old) (E.faults report.new)) }
    {
        match self.handle_frames(task, room, output, report) {
            Ok(excess) => match flush_both(&mut self.page, &mut self.lines, output, report) {
                Ok(()) => Ok(excess),
                Err(broken) => Err(broken),
            },
            Err(broken) => Err(broken),
        }
    }

    // Handles each whole frame that is held. What there is room for is gathered. Tells where the next one is too large.
    fn handle_frames<O: Sink, E: Sink>(
        &mut self,
        task: &Task<'_>,
        room: &mut [u8],
        output: &mut O,
        report: &mut E,
    ) -> Result<Option<Excess>, Broken>
        requires limit { task.now.limit ≤ GREATEST_LIMIT }
        requires room { task.now.limit ≤ length room.old }
        requires ready { IsReady task.now self.old }
        requires flushed { IsFlushed self.old }
        ensures ready { IsReady task.now self.new }
        ensures handled { HandlesHeld O.Sink E.Sink task.now self.old output.old report.old self.new output.new report.new result }
        ensures later { O.faults output.old ≤ O.faults output.new }
        ensures report_later { E.faults report.old ≤ E.faults report.new }
        ensures cause { IfErr result (λ broken. HasRisen broken (O.faults output.old) (O.faults output.new) (E.faults report.old) (E.faults report.new)) }
    {
        // Kept from one run of frames that pass to the next, so that refused ones are soon begun with their types, too.
        let mut habit = Habit::new();
        'frames: loop {
            let tried = self.pass_frames(task, room, &mut habit);
            self.inbox.pass_over();
            let frame = match self.inbox.message() {
                Next::NeedMore => return Ok(None),
                Next::Exceeds(excess) => return Ok(Some(excess)),
                Next::Message(frame) => frame,
            };
            let size = frame.len();
            let wanted = framed_room(size);
            match make_room(&mut self.page, &mut self.lines, wanted, output, report) {
                Ok(()) => (),
                Err(broken) => return Err(broken),
            }
            let number = self.number + 1;
            let passed = match handle(
                task,
                &mut self.handler,
                frame,
                tried,
                number,
                room,
                &mut self.page,
                &mut self.lines,
                output,
            ) {
                Ok(passed) => passed,
                Err(WriteFault) => return Err(Broken::Output),
            };
            self.number = number;
            self.refused |= !passed;
            self.inbox.drop_whole(size);
        }
    }

    // Converts the frames at the front as long as they pass by the quick way and there is room for what is written of them.
    // True: the next one stands there and doesn't go that way.
    #[inline(never)]
    fn pass_frames(&mut self, task: &Task<'_>, room: &mut [u8], habit: &mut Habit) -> bool
        requires limit { task.now.limit ≤ GREATEST_LIMIT }
        requires room { task.now.limit ≤ length room.old }
        requires ready { IsReady task.now self.old }
        ensures ready { IsReady task.now self.new }
        ensures gathered { Gathers task.now self.old self.new }
        ensures fewer { length self.new.inbox.held ≤ length self.old.inbox.held }
    {
        let Handler::Convert { from, to } = self.handler else {
            return false;
        };
        self.inbox.pass_over();
        'frames: loop {
            let Next::Message(frame) = self.inbox.message() else {
                return false;
            };
            let size = frame.len();
            if framed_room(size) > self.page.spare() {
                return false;
            }
            if !pass_sent(task, from, to, frame, room, habit, &mut self.page.out) {
                return true;
            }
            self.number += 1;
            self.inbox.drop_whole(size);
            self.inbox.pass_over();
            // Behind a frame that passed others are likely to: where each is refused none is gone through once more.
            self.run_frames(task, from, to, room, habit);
        }
    }

    // Converts frames at the front in the loop of their pair, where it has one: as long as they pass, and there are cells for
    // what is written of them.
    #[inline(always)]
    fn run_frames(
        &mut self,
        task: &Task<'_>,
        from: Proto,
        to: Proto,
        room: &mut [u8],
        habit: &Habit,
    )
        requires limit { task.now.limit ≤ GREATEST_LIMIT }
        requires room { task.now.limit ≤ length room.old }
        requires ready { IsReady task.now self.old }
        requires doing { task.now.doing ≡ Convert from to }
        requires counts { CountsNext self.old.inbox }
        ensures ready { IsReady task.now self.new }
        ensures gathered { Gathers task.now self.old self.new }
        ensures fewer { length self.new.inbox.held ≤ length self.old.inbox.held }
        ensures counts { CountsNext self.new.inbox }
    {
        let is_typed = habit.typed > 0;
        if is_typed && task.names_services() {
            return;
        }
        match (from, to) {
            (Proto::Binary, Proto::Compact) => self.run_as::<BinaryToCompact>(task, room),
            (Proto::Compact, Proto::Compact) => self.run_as::<CompactKept>(task, room),
            (Proto::Binary, Proto::Binary) => {
                if is_typed {
                    self.run_as::<DeclaredKept>(task, room);
                } else {
                    self.run_as::<BinaryKept>(task, room);
                }
            }
            (Proto::Compact, Proto::Binary) => {
                if is_typed {
                    self.run_as::<DeclaredToBinary>(task, room);
                } else {
                    self.run_as::<CompactToBinary>(task, room);
                }
            }
            (Proto::Binary, Proto::Json) => self.run_as::<BinaryToJson>(task, room),
            (Proto::Compact, Proto::Json) => self.run_as::<CompactToJson>(task, room),
            (Proto::Json, Proto::Binary) => self.run_as::<JsonToBinary>(task, room),
            (Proto::Json, Proto::Compact) => self.run_as::<JsonToCompact>(task, room),
            (Proto::Json, Proto::Json) => (),
        }
    }

    // The same for a pair of protocols.
    #[inline(never)]
    fn run_as<P: Pair>(&mut self, task: &Task<'_>, room: &mut [u8])
        requires limit { task.now.limit ≤ GREATEST_LIMIT }
        requires room { task.now.limit ≤ length room.old }
        requires ready { IsReady task.now self.old }
        requires doing { task.now.doing ≡ Convert P.from P.to }
        requires counts { CountsNext self.old.inbox }
        ensures ready { IsReady task.now self.new }
        ensures gathered { Gathers task.now self.old self.new }
        ensures fewer { length self.new.inbox.held ≤ length self.old.inbox.held }
        ensures counts { CountsNext self.new.inbox }
    {
        let Transport::Frames = task.output() else {
            return;
        };
        let Some(held) = self.inbox.frames() else {
            return;
        };
        let before = self.page.out.bytes().len();
        let count = self.page.spare().min(RUN_ROOM);
        let cells = self.page.out.tail(count);
        let run = convert_run::<P>(task, held, room, cells);
        self.page.out.cut(before + run.written);
        self.inbox.drop_frames(run.read);
        self.number += run.frames;
    }

    // Ends the work at the end of the input: handles the last line where it has no LF.
    fn finish<O: Sink, E: Sink>(
        &mut self,
        task: &Task<'_>,
        room: &mut [u8],
        output: &mut O,
        report: &mut E,
    ) -> Result<Ending, Broken>
        requires limit { task.now.limit ≤ GREATEST_LIMIT }
        requires room { task.now.limit ≤ length room.old }
        requires ready { IsReady task.now self.old }
        requires counted { IsCounted self.old }
        requires flushed { IsFlushed self.old }
        requires waiting { IsWaiting task.now self.old.inbox.held }
        ensures ended { FinishesOn O.Sink E.Sink task.now self.old output.old report.old self.new output.new report.new result }
        ensures later { O.faults output.old ≤ O.faults output.new }
        ensures report_later { E.faults report.old ≤ E.faults report.new }
        ensures no_read_fault { IfOk result (λ ending. ending ≡ Ending.ReadFault → ⊥) }
        ensures cause { IfErr result (λ broken. HasRisen broken (O.faults output.old) (O.faults output.new) (E.faults report.old) (E.faults report.new)) }
    {
        self.inbox.end();
        match self.drain(task, room, output, report) {
            Ok(None) => self.conclude(task, report),
            Ok(Some(excess)) => self.exceed(task, excess, report),
            Err(broken) => Err(broken),
        }
    }

    // Ends the work where the input is at its end and all of it was handled, but for a frame that isn't whole.
    fn conclude<E: Sink>(&mut self, task: &Task<'_>, report: &mut E) -> Result<Ending, Broken>
        requires ready { IsReady task.now self.old }
        requires waiting { IsWaiting task.now self.old.inbox.held }
        ensures ended { ConcludesOn E.Sink self.old report.old self.new report.new result }
        ensures later { E.faults report.old ≤ E.faults report.new }
        ensures no_read_fault { IfOk result (λ ending. ending ≡ Ending.ReadFault → ⊥) }
        ensures cause { (before now : ℕ) → IfErr result (λ broken. HasRisen broken before now (E.faults report.old) (E.faults report.new)) }
    {
        let count = self.inbox.held();
        if count > 0 {
            lines::left(&mut self.lines, self.number, count);
            return match write_all(report, self.lines.bytes()) {
                Wrote::All => Ok(Ending::StreamFault),
                Wrote::Failed => Err(Broken::Report),
            };
        }
        if self.refused {
            Ok(Ending::Refused)
        } else {
            Ok(Ending::Done)
        }
    }

    // Ends the work at a length that is too large, or at a line that is longer than the limit.
    fn exceed<E: Sink>(
        &mut self,
        task: &Task<'_>,
        excess: Excess,
        report: &mut E,
    ) -> Result<Ending, Broken>
        requires ready { IsReady task.now self.old }
        requires large { front task.now.input task.now.limit self.old.inbox.held ≡ Exceeds excess }
        ensures ended { EndsOn E.Sink task.now self.old report.old self.new report.new result }
        ensures later { E.faults report.old ≤ E.faults report.new }
        ensures no_read_fault { IfOk result (λ ending. ending ≡ Ending.ReadFault → ⊥) }
        ensures cause { (before now : ℕ) → IfErr result (λ broken. HasRisen broken before now (E.faults report.old) (E.faults report.new)) }
    {
        lines::excess(&mut self.lines, self.number + 1, task.limit(), excess);
        match write_all(report, self.lines.bytes()) {
            Wrote::All => Ok(Ending::StreamFault),
            Wrote::Failed => Err(Broken::Report),
        }
    }
}

// Writes what was gathered, where there isn't so much room for the output or room for a line.
fn make_room<O: Sink, E: Sink>(
    page: &mut Page,
    lines: &mut Out,
    wanted: usize,
    output: &mut O,
    report: &mut E,
) -> Result<(), Broken>
    requires lines { LINE_ROOM ≤ lines.old.room }
    ensures wanted { OnOk result (wanted ≤ page.old.out.room → length page.new.out.bytes + wanted ≤ page.new.out.room) }
    ensures line { OnOk result (length lines.new.bytes + LINE_ROOM ≤ lines.new.room) }
    ensures made { MakesRoomOn O.Sink E.Sink result page.old lines.old output.old report.old page.new lines.new output.new report.new }
    ensures room { page.new.out.room ≡ page.old.out.room }
    ensures lines_room { lines.new.room ≡ lines.old.room }
    ensures later { O.faults output.old ≤ O.faults output.new }
    ensures report_later { E.faults report.old ≤ E.faults report.new }
    ensures cause { IfErr result (λ broken. HasRisen broken (O.faults output.old) (O.faults output.new) (E.faults report.old) (E.faults report.new)) }
{
    if wanted <= page.spare() && LINE_ROOM <= lines.spare() {
        return Ok(());
    }
    flush_both(page, lines, output, report)
}

// Writes what was gathered for the output, and then what was gathered for the report: no frame is reported before all that
// is written of the frames up to it.
fn flush_both<O: Sink, E: Sink>(
    page: &mut Page,
    lines: &mut Out,
    output: &mut O,
    report: &mut E,
) -> Result<(), Broken>
    ensures both { WritesBothOn O.Sink E.Sink result page.old lines.old output.old report.old output.new report.new }
    ensures page { OnOk result (page.new.out.bytes ≡ []) }
    ensures lines { OnOk result (lines.new.bytes ≡ []) }
    ensures room { page.new.out.room ≡ page.old.out.room }
    ensures lines_room { lines.new.room ≡ lines.old.room }
    ensures later { O.faults output.old ≤ O.faults output.new }
    ensures report_later { E.faults report.old ≤ E.faults report.new }
    ensures cause { IfErr result (λ broken. HasRisen broken (O.faults output.old) (O.faults output.new) (E.faults report.old) (E.faults report.new)) }
{
    match page.flush(output) {
        Wrote::All => (),
        Wrote::Failed => return Err(Broken::Output),
    }
    match flush(lines, report) {
        Wrote::All => Ok(()),
        Wrote::Failed => Err(Broken::Report),
    }
}
