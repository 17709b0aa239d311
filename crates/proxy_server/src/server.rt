//! A server at work: its open sessions, the line that it writes, and how much of its budget is spent.
ghost use Rattle.std.specs.Prelude.{◌≡◌, ℕ, ⊤, ◌+◌, ◌^◌, Option, ◌⊎◌, ◌<◌, ◌≤◌, length, None, Some, Ok, Err, IfSome};
ghost use Rattle.std.specs.List.{remove};
ghost use Rattle.gate_base.specs.Causes.{Rose};
ghost use Rattle.gate_hub.specs.Hubs.{Later};
ghost use Rattle.gate_hub.specs.declared.hub.HubNext.{HubNext};
ghost use Rattle.proxy_server.specs.Lines.{line_text};
ghost use Rattle.proxy_server.specs.Serving.{SpendsBy, left_lines};
ghost use Rattle.refusal_teller.specs.Tells.{Writes, WritesBehind};
ghost use Rattle.session_core.specs.Session.{HoldsWithin};
ghost use Rattle.proxy_server.specs.Matching.{IsSame};
ghost use Rattle.proxy_server.specs.Calling.{piece_length, LinkRose};
ghost use Rattle.proxy_server.specs.Turning.{EndsAs};
ghost use Rattle.proxy_server.specs.Steps.{AreGood, IsCarriedOn, WorkEnds, StepEnds, IsRefusedAs, served_by, seen, TurnsTelling, Steps, Attends, Admits, Refuses, Finishes, Settles, Resumes, IsPutLast, LeavesMore, WritesLeft};

use crate::judges::Judges;
use crate::lines::{LINE_ROOM, put_line};
use crate::table::{OpenSession, find, open_session};
use crate::turn_end::Turn;
use crate::turning::PIECE;
use gate_hub::{Hub, HubNext, Side};
use gate_io::{Out, Sink, Wrote, write_all};
use refusal_teller::{RefusalLines, Teller};
use session_core::{Judge, Outcome, Session};
use std::alloc::Global;

/// How much a server takes on.
#[derive(Clone, Copy)]
pub struct Limits {
    /// The most bytes of a frame, below 2^24.
    pub frame: usize,
    /// The most open calls of a session, from 1 to 65,536.
    pub calls: usize,
    /// The most sessions that are open at a time.
    pub sessions: usize,
    /// Once so many events have named a session and turns have ended with `More`, together, the server stops.
    pub events: u64,
}

/// Why a server's work ends.
#[derive(Clone, Copy)]
pub enum End {
    /// No event will follow.
    Stopped,
    /// The hub failed.
    HubFault,
    /// The line of a session that ended could not be written.
    WriteFault,
    /// The line of a frame of the session at this place could not be written. The session goes on.
    Unwritten(usize),
    /// The budget is spent, and the session at this place, if one is there, goes on.
    Budget(usize),
}

/// A server at work. No session of it is unsettled while it waits for an event.
#[derive(Drop)]
pub struct Server<J: Judge> {
    pub limits: Limits,
    pub sessions: Vec<OpenSession<J>>,
    pub line: Out,
    pub spent: u64,
}

/// Writes a line.
pub fn tell<O: Sink>(line: &mut Out, output: &mut O, number: u64, ending: Option<Outcome>) -> Wrote
    requires { LINE_ROOM ≤ line.old.room }
    ensures room { line.new.room ≡ line.old.room }
    ensures line { Writes result (O.written output.old) (O.written output.new) (line_text number ending) }
    ensures later { O.faults output.old ≤ O.faults output.new }
    ensures cause { result ≡ Wrote.Failed → Rose (O.faults output.old) (O.faults output.new) }
{
    put_line(line, number, ending);
    write_all(output, line.bytes())
}

/// Writes a line where no write has failed before.
fn tell_behind<O: Sink>(
    wrote: Wrote,
    line: &mut Out,
    output: &mut O,
    number: u64,
    ending: Option<Outcome>,
) -> Wrote
    requires { LINE_ROOM ≤ line.old.room }
    ensures room { line.new.room ≡ line.old.room }
    ensures line { WritesBehind wrote result (O.written output.old) (O.written output.new) (line_text number ending) }
    ensures none { wrote ≡ Wrote.Failed → (result ≡ Wrote.Failed) × (output.new ≡ output.old) }
    ensures later { O.faults output.old ≤ O.faults output.new }
    ensures cause { result ≡ Wrote.Failed → (wrote ≡ Wrote.Failed) ⊎ Rose (O.faults output.old) (O.faults output.new) }
{
    match wrote {
        Wrote::All => tell(line, output, number, ending),
        Wrote::Failed => Wrote::Failed,
    }
}

/// One turn of a session, with the lines of its refused frames, and whether each was written.
fn turn_telling<J: Judge, H: Hub, O: Sink, L: RefusalLines>(
    session: &mut OpenSession<J>,
    lines: &L,
    hub: &mut H,
    output: &mut O,
    line: &mut Out,
    piece: &mut [u8],
) -> (Turn, Wrote)
    requires room { L.room lines.now ≤ line.old.room }
    requires piece { length piece.old ≡ piece_length }
    ensures turned { TurnsTelling J.rules (L.text lines.now) session.old
        (seen H.Hub O.Sink hub.old output.old hub.new output.new) session.new result.0 result.1 }
    ensures number { session.new.number ≡ session.old.number }
    ensures ending { EndsAs session.new.session.outcome result.0 }
    ensures same { IsSame J session.old.session session.new.session }
    ensures holds { HoldsWithin session.new.session }
    ensures room { line.new.room ≡ line.old.room }
    ensures later { Later (H.counts hub.old) (H.counts hub.new) }
    ensures kept { H.kept hub.new ≡ H.kept hub.old }
    ensures cause { (side : Side) → result.0 ≡ Turn.Ended (Outcome.LinkFault side) →
        LinkRose (H.counts hub.old) (H.counts hub.new) session.old.number side }
    ensures output_later { O.faults output.old ≤ O.faults output.new }
    ensures unwritten { result.1 ≡ Wrote.Failed → Rose (O.faults output.old) (O.faults output.new) }
    ensures piece { length piece.new ≡ piece_length }
{
    let mut teller = Teller::over(output, line, lines, session.number());
    let turn = session.turn(hub, piece, &mut teller);
    (turn, teller.end())
}

/// The work goes on where the line of a session that ended was written.
fn after_line(wrote: Wrote) -> Result<(), End>
    ensures all { wrote ≡ Wrote.All → (x : ⊤) × (result ≡ Ok x) }
    ensures failed { wrote ≡ Wrote.Failed → result ≡ Err End.WriteFault }
{
    match wrote {
        Wrote::All => Ok(()),
        Wrote::Failed => Err(End::WriteFault),
    }
}

/// The work goes on where each line of the session at a place was written.
fn after_turn(wrote: Wrote, at: usize) -> Result<(), End>
    ensures all { wrote ≡ Wrote.All → (x : ⊤) × (result ≡ Ok x) }
    ensures failed { wrote ≡ Wrote.Failed → result ≡ Err (End.Unwritten at) }
{
    match wrote {
        Wrote::All => Ok(()),
        Wrote::Failed => Err(End::Unwritten(at)),
    }
}

impl<J: Judge> Server<J> {
    /// Takes events until the hub stops or fails, a line can't be written or the budget is spent.
    pub fn attend<H: Hub, O: Sink, P: Judges<J>, L: RefusalLines>(
        &mut self,
        alloc: Global,
        judges: &P,
        lines: &L,
        hub: &mut H,
        output: &mut O,
    ) -> End
        requires room { LINE_ROOM ≤ self.old.line.room }
        requires lines { L.room lines.now ≤ self.old.line.room }
        requires budget { self.old.spent ≤ self.old.limits.events }
        requires good { AreGood self.old.limits (P.longest judges.now) }
        ensures room { self.new.line.room ≡ self.old.line.room }
        ensures goes { Attends J.rules (P.rules judges.now) (L.text lines.now) self.old
            (seen H.Hub O.Sink hub.old output.old hub.new output.new) self.new result }
        ensures spends { SpendsBy (served_by result Wrote.All) self.new.spent self.old.limits.events }
        ensures later { Later (H.counts hub.old) (H.counts hub.new) }
        ensures kept { H.kept hub.new ≡ H.kept hub.old }
        ensures output_later { O.faults output.old ≤ O.faults output.new }
        ensures hub_cause { result ≡ End.HubFault → Rose (H.counts hub.old).faults (H.counts hub.new).faults }
        ensures cause { result ≡ End.WriteFault → Rose (O.faults output.old) (O.faults output.new) }
        ensures unwritten { (at : ℕ) → result ≡ End.Unwritten at → Rose (O.faults output.old) (O.faults output.new) }
    {
        let events = self.limits.events;
        let mut piece = [0; PIECE];
        'serving: while self.spent < events {
            match self.step(alloc, judges, lines, &mut piece, hub, output) {
                Ok(()) => (),
                Err(ending) => return ending,
            }
        }
        End::Budget(self.sessions.len())
    }

    /// Closes the sessions that are open still, and writes the line of each until one can't be written.
    pub fn leave<H: Hub, O: Sink>(&mut self, first: Wrote, hub: &mut H, output: &mut O) -> Wrote
        requires room { LINE_ROOM ≤ self.old.line.room }
        ensures lines { first ≡ Wrote.All → Writes result (O.written output.old) (O.written output.new) (left_lines self.old.sessions.items) }
        ensures none { first ≡ Wrote.Failed → (result ≡ Wrote.Failed) × (output.new ≡ output.old) }
        ensures same { self.new.sessions ≡ self.old.sessions }
        ensures keeps { LeavesMore J.rules self.old.sessions.items (H.tells hub.old) (H.tells hub.new) 0 (length self.old.sessions.items) }
        ensures later { Later (H.counts hub.old) (H.counts hub.new) }
        ensures kept { H.kept hub.new ≡ H.kept hub.old }
        ensures output_later { O.faults output.old ≤ O.faults output.new }
        ensures cause { result ≡ Wrote.Failed → (first ≡ Wrote.Failed) ⊎ Rose (O.faults output.old) (O.faults output.new) }
    {
        let mut wrote = first;
        let mut at = 0;
        'leaving: while at < self.sessions.len() {
            wrote = self.leave_at(at, wrote, hub, output);
            at += 1;
        }
        wrote
    }

    /// Closes the session at a place, and writes its line where no write has failed.
    fn leave_at<H: Hub, O: Sink>(
        &mut self,
        at: usize,
        wrote: Wrote,
        hub: &mut H,
        output: &mut O,
    ) -> Wrote
        requires room { LINE_ROOM ≤ self.old.line.room }
        requires within { at < length self.old.sessions.items }
        ensures lines { wrote ≡ Wrote.All → WritesLeft self.old.sessions.items at result (O.written output.old) (O.written output.new) }
        ensures none { wrote ≡ Wrote.Failed → (result ≡ Wrote.Failed) × (output.new ≡ output.old) }
        ensures same { (self.new.sessions ≡ self.old.sessions) × (self.new.line.room ≡ self.old.line.room) }
        ensures keeps { LeavesMore J.rules self.old.sessions.items (H.tells hub.old) (H.tells hub.new) at (at + 1) }
        ensures later { Later (H.counts hub.old) (H.counts hub.new) }
        ensures kept { H.kept hub.new ≡ H.kept hub.old }
        ensures output_later { O.faults output.old ≤ O.faults output.new }
        ensures cause { result ≡ Wrote.Failed → (wrote ≡ Wrote.Failed) ⊎ Rose (O.faults output.old) (O.faults output.new) }
    {
        let number = self.sessions[at].number();
        hub.close(number);
        match wrote {
            Wrote::All => tell(&mut self.line, output, number, None),
            Wrote::Failed => Wrote::Failed,
        }
    }

    /// Closes a session that is not opened, and writes its line.
    fn refuse<H: Hub, O: Sink>(
        &mut self,
        number: u64,
        outcome: Outcome,
        hub: &mut H,
        output: &mut O,
    ) -> Result<(), End>
        requires room { LINE_ROOM ≤ self.old.line.room }
        requires outcome { IsRefusedAs outcome (length self.old.sessions.items) self.old.limits.sessions }
        ensures same { (self.new.sessions ≡ self.old.sessions) × (self.new.limits ≡ self.old.limits) }
        ensures room { self.new.line.room ≡ self.old.line.room }
        ensures spent { self.new.spent ≡ self.old.spent }
        ensures ends { WorkEnds result self.new.spent self.old.limits.events }
        ensures goes { Refuses J.rules number self.old (seen H.Hub O.Sink hub.old output.old hub.new output.new) self.new result }
        ensures later { Later (H.counts hub.old) (H.counts hub.new) }
        ensures kept { H.kept hub.new ≡ H.kept hub.old }
        ensures output_later { O.faults output.old ≤ O.faults output.new }
        ensures written { (at : ℕ) → result ≡ Err (End.Unwritten at) → ⊥ }
        ensures cause { result ≡ Err End.WriteFault → Rose (O.faults output.old) (O.faults output.new) }
    {
        hub.close(number);
        after_line(tell(&mut self.line, output, number, Some(outcome)))
    }

    /// Closes the session at a place, which has ended, and writes its line where no write has failed. Where it ended by a
    /// fault of a side, that was counted since `from`.
    fn finish<H: Hub, O: Sink>(
        &mut self,
        at: usize,
        outcome: Outcome,
        wrote: Wrote,
        hub: &mut H,
        output: &mut O,
    ) -> Result<(), End>
        requires room { LINE_ROOM ≤ self.old.line.room }
        requires within { at < length self.old.sessions.items }
        ensures same { (self.new.limits ≡ self.old.limits) × (self.new.line.room ≡ self.old.line.room) }
        ensures spent { self.new.spent ≡ self.old.spent }
        ensures ends { WorkEnds result self.new.spent self.old.limits.events }
        ensures goes { Finishes J.rules at outcome wrote self.old (seen H.Hub O.Sink hub.old output.old hub.new output.new) self.new result }
        ensures later { Later (H.counts hub.old) (H.counts hub.new) }
        ensures kept { H.kept hub.new ≡ H.kept hub.old }
        ensures output_later { O.faults output.old ≤ O.faults output.new }
        ensures cause { result ≡ Err End.WriteFault → (wrote ≡ Wrote.Failed) ⊎ Rose (O.faults output.old) (O.faults output.new) }
        ensures written { (at : ℕ) → result ≡ Err (End.Unwritten at) → ⊥ }
    {
        let number = self.sessions[at].number();
        drop(self.sessions.remove(at));
        hub.close(number);
        after_line(tell_behind(wrote, &mut self.line, output, number, Some(outcome)))
    }

    /// Turns the session at a place until it is settled or has ended, or the budget is spent.
    fn settle<H: Hub, O: Sink, L: RefusalLines>(
        &mut self,
        at: usize,
        lines: &L,
        piece: &mut [u8],
        hub: &mut H,
        output: &mut O,
    ) -> Result<(), End>
        requires room { LINE_ROOM ≤ self.old.line.room }
        requires lines { L.room lines.now ≤ self.old.line.room }
        requires budget { self.old.spent ≤ self.old.limits.events }
        requires within { at < length self.old.sessions.items }
        requires piece { length piece.old ≡ piece_length }
        ensures carried { IsCarriedOn self.old.limits self.new.limits self.old.line.room self.new.line.room self.old.spent self.new.spent }
        ensures ends { WorkEnds result self.new.spent self.old.limits.events }
        ensures goes { Settles J.rules (L.text lines.now) at self.old (seen H.Hub O.Sink hub.old output.old hub.new output.new) self.new result }
        ensures later { Later (H.counts hub.old) (H.counts hub.new) }
        ensures kept { H.kept hub.new ≡ H.kept hub.old }
        ensures output_later { O.faults output.old ≤ O.faults output.new }
        ensures cause { result ≡ Err End.WriteFault → Rose (O.faults output.old) (O.faults output.new) }
        ensures unwritten { (k : ℕ) → result ≡ Err (End.Unwritten k) → Rose (O.faults output.old) (O.faults output.new) }
        ensures piece { length piece.new ≡ piece_length }
    {
        let events = self.limits.events;
        'turns: while self.spent < events {
            let (turn, wrote) = turn_telling(
                &mut self.sessions[at],
                lines,
                hub,
                output,
                &mut self.line,
                piece,
            );
            match turn {
                Turn::Settled => return after_turn(wrote, at),
                Turn::Ended(outcome) => return self.finish(at, outcome, wrote, hub, output),
                Turn::More => self.spent += 1,
            }
            after_turn(wrote, at)?;
        }
        Err(End::Budget(at))
    }

    /// Opens a session that was announced and turns it, or closes it.
    fn admit<H: Hub, O: Sink, P: Judges<J>, L: RefusalLines>(
        &mut self,
        alloc: Global,
        judges: &P,
        lines: &L,
        number: u64,
        piece: &mut [u8],
        hub: &mut H,
        output: &mut O,
    ) -> Result<(), End>
        requires room { LINE_ROOM ≤ self.old.line.room }
        requires lines { L.room lines.now ≤ self.old.line.room }
        requires budget { self.old.spent ≤ self.old.limits.events }
        requires good { AreGood self.old.limits (P.longest judges.now) }
        requires piece { length piece.old ≡ piece_length }
        ensures carried { IsCarriedOn self.old.limits self.new.limits self.old.line.room self.new.line.room self.old.spent self.new.spent }
        ensures ends { WorkEnds result self.new.spent self.old.limits.events }
        ensures goes { Admits J.rules (P.rules judges.now) (L.text lines.now) number self.old
            (seen H.Hub O.Sink hub.old output.old hub.new output.new) self.new result }
        ensures later { Later (H.counts hub.old) (H.counts hub.new) }
        ensures kept { H.kept hub.new ≡ H.kept hub.old }
        ensures output_later { O.faults output.old ≤ O.faults output.new }
        ensures cause { result ≡ Err End.WriteFault → Rose (O.faults output.old) (O.faults output.new) }
        ensures unwritten { (k : ℕ) → result ≡ Err (End.Unwritten k) → Rose (O.faults output.old) (O.faults output.new) }
        ensures piece { length piece.new ≡ piece_length }
    {
        if self.sessions.len() >= self.limits.sessions {
            return self.refuse(number, Outcome::Full, hub, output);
        }
        let Ok(session) = open_session(alloc, judges, self.limits) else {
            return self.refuse(number, Outcome::NoMemory, hub, output);
        };
        match self.hold(number, session) {
            Some(at) => self.settle(at, lines, piece, hub, output),
            None => self.refuse(number, Outcome::NoMemory, hub, output),
        }
    }

    /// Puts a session last, and says where, or none where the memory for it was not found.
    fn hold(&mut self, number: u64, session: Session<J>) -> Option<usize>
        ensures same { (self.new.limits ≡ self.old.limits) × (self.new.line ≡ self.old.line) × (self.new.spent ≡ self.old.spent) }
        ensures some { IfSome result (IsPutLast self.old.sessions.items number session self.new.sessions.items) }
        ensures none { result ≡ None → self.new.sessions.items ≡ self.old.sessions.items }
    {
        let at = self.sessions.len();
        match self.sessions.push(OpenSession::new(number, session)) {
            Ok(()) => Some(at),
            Err(_) => None,
        }
    }

    /// Turns a session that an event names.
    fn resume<H: Hub, O: Sink, L: RefusalLines>(
        &mut self,
        lines: &L,
        number: u64,
        piece: &mut [u8],
        hub: &mut H,
        output: &mut O,
    ) -> Result<(), End>
        requires room { LINE_ROOM ≤ self.old.line.room }
        requires lines { L.room lines.now ≤ self.old.line.room }
        requires budget { self.old.spent ≤ self.old.limits.events }
        requires piece { length piece.old ≡ piece_length }
        ensures carried { IsCarriedOn self.old.limits self.new.limits self.old.line.room self.new.line.room self.old.spent self.new.spent }
        ensures ends { WorkEnds result self.new.spent self.old.limits.events }
        ensures goes { Resumes J.rules (L.text lines.now) number self.old (seen H.Hub O.Sink hub.old output.old hub.new output.new) self.new result }
        ensures later { Later (H.counts hub.old) (H.counts hub.new) }
        ensures kept { H.kept hub.new ≡ H.kept hub.old }
        ensures output_later { O.faults output.old ≤ O.faults output.new }
        ensures cause { result ≡ Err End.WriteFault → Rose (O.faults output.old) (O.faults output.new) }
        ensures unwritten { (k : ℕ) → result ≡ Err (End.Unwritten k) → Rose (O.faults output.old) (O.faults output.new) }
        ensures piece { length piece.new ≡ piece_length }
    {
        match find(self.sessions.as_slice(), number) {
            Some(at) => self.settle(at, lines, piece, hub, output),
            None => Ok(()),
        }
    }

    /// Takes the next event, and turns the session that it names. Every open session is settled before.
    pub fn step<H: Hub, O: Sink, P: Judges<J>, L: RefusalLines>(
        &mut self,
        alloc: Global,
        judges: &P,
        lines: &L,
        piece: &mut [u8],
        hub: &mut H,
        output: &mut O,
    ) -> Result<(), End>
        requires room { LINE_ROOM ≤ self.old.line.room }
        requires lines { L.room lines.now ≤ self.old.line.room }
        requires budget { self.old.spent < self.old.limits.events }
        requires range { self.old.limits.events < 2 ^ 64 }
        requires good { AreGood self.old.limits (P.longest judges.now) }
        requires piece { length piece.old ≡ piece_length }
        ensures carried { IsCarriedOn self.old.limits self.new.limits self.old.line.room self.new.line.room self.old.spent self.new.spent }
        ensures ends { StepEnds result self.old.spent self.new.spent self.old.limits.events }
        ensures goes { Steps J.rules (P.rules judges.now) (L.text lines.now) self.old
            (seen H.Hub O.Sink hub.old output.old hub.new output.new) self.new result }
        ensures later { Later (H.counts hub.old) (H.counts hub.new) }
        ensures kept { H.kept hub.new ≡ H.kept hub.old }
        ensures output_later { O.faults output.old ≤ O.faults output.new }
        ensures hub_cause { result ≡ Err End.HubFault → Rose (H.counts hub.old).faults (H.counts hub.new).faults }
        ensures cause { result ≡ Err End.WriteFault → Rose (O.faults output.old) (O.faults output.new) }
        ensures unwritten { (k : ℕ) → result ≡ Err (End.Unwritten k) → Rose (O.faults output.old) (O.faults output.new) }
        ensures piece { length piece.new ≡ piece_length }
    {
        match hub.next() {
            HubNext::Stopped => Err(End::Stopped),
            HubNext::Failed => Err(End::HubFault),
            HubNext::Opened(number) => {
                self.spent += 1;
                self.admit(alloc, judges, lines, number, piece, hub, output)
            }
            HubNext::Ready(number) => {
                self.spent += 1;
                self.resume(lines, number, piece, hub, output)
            }
        }
    }
}
