//! A server at work: its open sessions, the line that it writes, and how much of its budget is spent.
ghost use Rattle.std.specs.Prelude.{◌≡◌, ⊤, ◌+◌, ◌^◌, Option, ◌⊎◌, ◌<◌, ◌≤◌, ℕ, length, None, Some, Ok, Err, IfSome};
ghost use Rattle.std.specs.List.{remove};
ghost use Rattle.gate_base.specs.Causes.{Rose};
ghost use Rattle.gate_fan.specs.Fans.{Later};
ghost use Rattle.gate_hub.specs.declared.hub.HubNext.{HubNext};
ghost use Rattle.route_server.specs.Lines.{line_text};
ghost use Rattle.route_server.specs.Serving.{HaveTargets, SpendsBy, left_lines};
ghost use Rattle.refusal_teller.specs.Tells.{Writes, WritesBehind};
ghost use Rattle.service_router.specs.Router.{IsSame, HoldsWithin, targets_of};
ghost use Rattle.route_server.specs.Calling.{LinkRose};
ghost use Rattle.route_server.specs.Turning.{EndsAs};
ghost use Rattle.route_server.specs.Steps.{AreGood, IsCarriedOn, WorkEnds, StepEnds, IsRefusedAs, served_by, seen, TurnsTelling, Steps, Attends, Admits, Refuses, Finishes, Settles, Resumes, IsPutLast, LeavesMore, WritesLeft};

use crate::lines::{LINE_ROOM, put_line};
use crate::table::{OpenSession, find, open_session};
use crate::turn_end::RouteTurn;
use gate_fan::{Fan, Target};
use gate_hub::HubNext;
use gate_io::{Out, Sink, Wrote, write_all};
use refusal_teller::{RefusalLines, Teller};
use service_router::{RouteOutcome, Router};
use session_judge::Setup;
use std::alloc::Global;

/// How the sessions of a server are opened, and how much it takes on.
#[derive(Clone, Copy)]
pub struct Terms<'s> {
    /// With what each session is opened.
    pub setup: Setup<'s>,
    /// Whom the calls of each service go to.
    pub targets: &'s [Target],
    /// The most sessions that are open at a time.
    pub sessions: usize,
    /// Once so many events have named a session and turns have ended with `More`, together, the server stops.
    pub events: u64,
}

/// Why a server's work ends.
#[derive(Clone, Copy)]
pub enum End {
    /// No event will follow.
    Stopped,
    /// The fan failed.
    HubFault,
    /// The line of a session that ended could not be written.
    WriteFault,
    /// The line of a frame of the session at this place could not be written. The session goes on.
    Unwritten(usize),
    /// The budget is spent, and the session at this place, if one is there, goes on.
    Budget(usize),
}

/// A server at work. No session of it is unsettled while it waits for an event.
#[derive(Drop)]
pub struct Server<'s> {
    pub terms: Terms<'s>,
    pub sessions: Vec<OpenSession<'s>>,
    pub line: Out,
    pub spent: u64,
}

/// Writes a line.
pub fn tell<O: Sink>(
    line: &mut Out,
    output: &mut O,
    number: u64,
    ending: Option<RouteOutcome>,
) -> Wrote
    requires { LINE_ROOM ≤ line.old.room }
    ensures room { line.new.room ≡ line.old.room }
    ensures line { Writes result (O.written output.old) (O.written output.new) (line_text number ending) }
    ensures later { O.faults output.old ≤ O.faults output.new }
    ensures cause { result ≡ Wrote.Failed → Rose (O.faults output.old) (O.faults output.new) }
{
    put_line(line, number, ending);
    write_all(output, line.bytes())
}

/// Writes a line where no write has failed before.
fn tell_behind<O: Sink>(
    wrote: Wrote,
    line: &mut Out,
    output: &mut O,
    number: u64,
    ending: Option<RouteOutcome>,
) -> Wrote
    requires { LINE_ROOM ≤ line.old.room }
    ensures room { line.new.room ≡ line.old.room }
    ensures line { WritesBehind wrote result (O.written output.old) (O.written output.new) (line_text number ending) }
    ensures none { wrote ≡ Wrote.Failed → (result ≡ Wrote.Failed) × (output.new ≡ output.old) }
    ensures later { O.faults output.old ≤ O.faults output.new }
    ensures cause { result ≡ Wrote.Failed → (wrote ≡ Wrote.Failed) ⊎ Rose (O.faults output.old) (O.faults output.new) }
{
    match wrote {
        Wrote::All => tell(line, output, number, ending),
        Wrote::Failed => Wrote::Failed,
    }
}

/// One turn of a session, with the lines of its refused frames, and whether each was written.
fn turn_telling<M: Fan, O: Sink, L: RefusalLines>(
    session: &mut OpenSession<'_>,
    lines: &L,
    fan: &mut M,
    output: &mut O,
    line: &mut Out,
) -> (RouteTurn, Wrote)
    requires room { L.room lines.now ≤ line.old.room }
    requires targets { M.target_count fan.old ≡ targets_of session.old.router }
    ensures turned { TurnsTelling (L.text lines.now) session.old
        (seen M.Fan O.Sink fan.old output.old fan.new output.new) session.new result.0 result.1 }
    ensures number { session.new.number ≡ session.old.number }
    ensures ending { EndsAs session.new.router.outcome result.0 }
    ensures same { IsSame session.old.router session.new.router }
    ensures holds { HoldsWithin session.new.router }
    ensures room { line.new.room ≡ line.old.room }
    ensures later { Later (M.counts fan.old) (M.counts fan.new) }
    ensures targets { M.target_count fan.new ≡ M.target_count fan.old }
    ensures cause { (port : ℕ) → result.0 ≡ RouteTurn.Ended (RouteOutcome.LinkFault port) →
        LinkRose (M.counts fan.old) (M.counts fan.new) session.old.number port }
    ensures output_later { O.faults output.old ≤ O.faults output.new }
    ensures unwritten { result.1 ≡ Wrote.Failed → Rose (O.faults output.old) (O.faults output.new) }
{
    let mut teller = Teller::over(output, line, lines, session.number());
    let turn = session.turn(fan, &mut teller);
    (turn, teller.end())
}

/// The work goes on where the line of a session that ended was written.
fn after_line(wrote: Wrote) -> Result<(), End>
    ensures all { wrote ≡ Wrote.All → (x : ⊤) × (result ≡ Ok x) }
    ensures failed { wrote ≡ Wrote.Failed → result ≡ Err End.WriteFault }
{
    match wrote {
        Wrote::All => Ok(()),
        Wrote::Failed => Err(End::WriteFault),
    }
}

/// The work goes on where each line of the session at a place was written.
fn after_turn(wrote: Wrote, at: usize) -> Result<(), End>
    ensures all { wrote ≡ Wrote.All → (x : ⊤) × (result ≡ Ok x) }
    ensures failed { wrote ≡ Wrote.Failed → result ≡ Err (End.Unwritten at) }
{
    match wrote {
        Wrote::All => Ok(()),
        Wrote::Failed => Err(End::Unwritten(at)),
    }
}

impl<'s> Server<'s> {
    /// Takes events until the fan stops or fails, a line can't be written or the budget is spent.
    pub fn attend<M: Fan, O: Sink, L: RefusalLines>(
        &mut self,
        alloc: Global,
        lines: &L,
        fan: &mut M,
        output: &mut O,
    ) -> End
        requires room { LINE_ROOM ≤ self.old.line.room }
        requires lines { L.room lines.now ≤ self.old.line.room }
        requires targets { length self.old.terms.targets.now ≡ M.target_count fan.old }
        requires served { HaveTargets (M.target_count fan.old) self.old.sessions.items }
        requires budget { self.old.spent ≤ self.old.terms.events }
        requires good { AreGood self.old.terms }
        ensures room { self.new.line.room ≡ self.old.line.room }
        ensures goes { Attends (L.text lines.now) self.old (seen M.Fan O.Sink fan.old output.old fan.new output.new) self.new result }
        ensures spends { SpendsBy (served_by result Wrote.All) self.new.spent self.old.terms.events }
        ensures later { Later (M.counts fan.old) (M.counts fan.new) }
        ensures targets { M.target_count fan.new ≡ M.target_count fan.old }
        ensures served { HaveTargets (M.target_count fan.old) self.new.sessions.items }
        ensures output_later { O.faults output.old ≤ O.faults output.new }
        ensures hub_cause { result ≡ End.HubFault → Rose (M.counts fan.old).faults (M.counts fan.new).faults }
        ensures cause { result ≡ End.WriteFault → Rose (O.faults output.old) (O.faults output.new) }
        ensures unwritten { (at : ℕ) → result ≡ End.Unwritten at → Rose (O.faults output.old) (O.faults output.new) }
    {
        let events = self.terms.events;
        'serving: while self.spent < events {
            match self.step(alloc, lines, fan, output) {
                Ok(()) => (),
                Err(ending) => return ending,
            }
        }
        End::Budget(self.sessions.len())
    }

    /// Closes the sessions that are open still, and writes the line of each until one can't be written.
    pub fn leave<M: Fan, O: Sink>(&mut self, first: Wrote, fan: &mut M, output: &mut O) -> Wrote
        requires room { LINE_ROOM ≤ self.old.line.room }
        ensures lines { first ≡ Wrote.All → Writes result (O.written output.old) (O.written output.new) (left_lines self.old.sessions.items) }
        ensures none { first ≡ Wrote.Failed → (result ≡ Wrote.Failed) × (output.new ≡ output.old) }
        ensures same { self.new.sessions ≡ self.old.sessions }
        ensures keeps { LeavesMore self.old.sessions.items (M.tells fan.old) (M.tells fan.new) 0 (length self.old.sessions.items) }
        ensures later { Later (M.counts fan.old) (M.counts fan.new) }
        ensures targets { M.target_count fan.new ≡ M.target_count fan.old }
        ensures output_later { O.faults output.old ≤ O.faults output.new }
        ensures cause { result ≡ Wrote.Failed → (first ≡ Wrote.Failed) ⊎ Rose (O.faults output.old) (O.faults output.new) }
    {
        let mut wrote = first;
        let mut at = 0;
        'leaving: while at < self.sessions.len() {
            wrote = self.leave_at(at, wrote, fan, output);
            at += 1;
        }
        wrote
    }

    /// Closes the session at a place, and writes its line where no write has failed.
    fn leave_at<M: Fan, O: Sink>(
        &mut self,
        at: usize,
        wrote: Wrote,
        fan: &mut M,
        output: &mut O,
    ) -> Wrote
        requires room { LINE_ROOM ≤ self.old.line.room }
        requires within { at < length self.old.sessions.items }
        ensures lines { wrote ≡ Wrote.All → WritesLeft self.old.sessions.items at result (O.written output.old) (O.written output.new) }
        ensures none { wrote ≡ Wrote.Failed → (result ≡ Wrote.Failed) × (output.new ≡ output.old) }
        ensures same { (self.new.sessions ≡ self.old.sessions) × (self.new.line.room ≡ self.old.line.room) }
        ensures keeps { LeavesMore self.old.sessions.items (M.tells fan.old) (M.tells fan.new) at (at + 1) }
        ensures later { Later (M.counts fan.old) (M.counts fan.new) }
        ensures targets { M.target_count fan.new ≡ M.target_count fan.old }
        ensures output_later { O.faults output.old ≤ O.faults output.new }
        ensures cause { result ≡ Wrote.Failed → (wrote ≡ Wrote.Failed) ⊎ Rose (O.faults output.old) (O.faults output.new) }
    {
        let number = self.sessions[at].number();
        fan.close(number);
        match wrote {
            Wrote::All => tell(&mut self.line, output, number, None),
            Wrote::Failed => Wrote::Failed,
        }
    }

    /// Closes a session that is not opened, and writes its line.
    fn refuse<M: Fan, O: Sink>(
        &mut self,
        number: u64,
        outcome: RouteOutcome,
        fan: &mut M,
        output: &mut O,
    ) -> Result<(), End>
        requires room { LINE_ROOM ≤ self.old.line.room }
        requires outcome { IsRefusedAs outcome (length self.old.sessions.items) self.old.terms.sessions }
        ensures same { (self.new.sessions ≡ self.old.sessions) × (self.new.terms ≡ self.old.terms) }
        ensures room { self.new.line.room ≡ self.old.line.room }
        ensures spent { self.new.spent ≡ self.old.spent }
        ensures ends { WorkEnds result self.new.spent self.old.terms.events }
        ensures goes { Refuses number self.old (seen M.Fan O.Sink fan.old output.old fan.new output.new) self.new result }
        ensures later { Later (M.counts fan.old) (M.counts fan.new) }
        ensures targets { M.target_count fan.new ≡ M.target_count fan.old }
        ensures output_later { O.faults output.old ≤ O.faults output.new }
        ensures cause { result ≡ Err End.WriteFault → Rose (O.faults output.old) (O.faults output.new) }
        ensures written { (k : ℕ) → result ≡ Err (End.Unwritten k) → ⊥ }
    {
        fan.close(number);
        after_line(tell(&mut self.line, output, number, Some(outcome)))
    }

    /// Closes the session at a place, which has ended, and writes its line where no write has failed. Where it ended by a
    /// fault of a port, that was counted since `from`.
    fn finish<M: Fan, O: Sink>(
        &mut self,
        at: usize,
        outcome: RouteOutcome,
        wrote: Wrote,
        fan: &mut M,
        output: &mut O,
    ) -> Result<(), End>
        requires room { LINE_ROOM ≤ self.old.line.room }
        requires within { at < length self.old.sessions.items }
        ensures same { (self.new.terms ≡ self.old.terms) × (self.new.line.room ≡ self.old.line.room) }
        ensures spent { self.new.spent ≡ self.old.spent }
        ensures ends { WorkEnds result self.new.spent self.old.terms.events }
        ensures goes { Finishes at outcome wrote self.old (seen M.Fan O.Sink fan.old output.old fan.new output.new) self.new result }
        ensures later { Later (M.counts fan.old) (M.counts fan.new) }
        ensures targets { M.target_count fan.new ≡ M.target_count fan.old }
        ensures served { (n : ℕ) → HaveTargets n self.old.sessions.items → HaveTargets n self.new.sessions.items }
        ensures output_later { O.faults output.old ≤ O.faults output.new }
        ensures cause { result ≡ Err End.WriteFault → (wrote ≡ Wrote.Failed) ⊎ Rose (O.faults output.old) (O.faults output.new) }
        ensures written { (k : ℕ) → result ≡ Err (End.Unwritten k) → ⊥ }
    {
        let number = self.sessions[at].number();
        drop(self.sessions.remove(at));
        fan.close(number);
        after_line(tell_behind(wrote, &mut self.line, output, number, Some(outcome)))
    }

    /// Turns the session at a place until it is settled or has ended, or the budget is spent.
    fn settle<M: Fan, O: Sink, L: RefusalLines>(
        &mut self,
        at: usize,
        lines: &L,
        fan: &mut M,
        output: &mut O,
    ) -> Result<(), End>
        requires room { LINE_ROOM ≤ self.old.line.room }
        requires lines { L.room lines.now ≤ self.old.line.room }
        requires served { HaveTargets (M.target_count fan.old) self.old.sessions.items }
        requires budget { self.old.spent ≤ self.old.terms.events }
        requires within { at < length self.old.sessions.items }
        ensures carried { IsCarriedOn self.old.terms self.new.terms self.old.line.room self.new.line.room self.old.spent self.new.spent }
        ensures ends { WorkEnds result self.new.spent self.old.terms.events }
        ensures goes { Settles (L.text lines.now) at self.old (seen M.Fan O.Sink fan.old output.old fan.new output.new) self.new result }
        ensures later { Later (M.counts fan.old) (M.counts fan.new) }
        ensures targets { M.target_count fan.new ≡ M.target_count fan.old }
        ensures served { HaveTargets (M.target_count fan.old) self.new.sessions.items }
        ensures output_later { O.faults output.old ≤ O.faults output.new }
        ensures cause { result ≡ Err End.WriteFault → Rose (O.faults output.old) (O.faults output.new) }
        ensures unwritten { (k : ℕ) → result ≡ Err (End.Unwritten k) → Rose (O.faults output.old) (O.faults output.new) }
    {
        let events = self.terms.events;
        'turns: while self.spent < events {
            let (turn, wrote) = turn_telling(
                &mut self.sessions[at],
                lines,
                fan,
                output,
                &mut self.line,
            );
            match turn {
                RouteTurn::Settled => return after_turn(wrote, at),
                RouteTurn::Ended(outcome) => return self.finish(at, outcome, wrote, fan, output),
                RouteTurn::More => self.spent += 1,
            }
            after_turn(wrote, at)?;
        }
        Err(End::Budget(at))
    }

    /// Opens a session that was announced and turns it, or closes it.
    fn admit<M: Fan, O: Sink, L: RefusalLines>(
        &mut self,
        alloc: Global,
        lines: &L,
        number: u64,
        fan: &mut M,
        output: &mut O,
    ) -> Result<(), End>
        requires room { LINE_ROOM ≤ self.old.line.room }
        requires lines { L.room lines.now ≤ self.old.line.room }
        requires targets { length self.old.terms.targets.now ≡ M.target_count fan.old }
        requires served { HaveTargets (M.target_count fan.old) self.old.sessions.items }
        requires budget { self.old.spent ≤ self.old.terms.events }
        requires good { AreGood self.old.terms }
        ensures carried { IsCarriedOn self.old.terms self.new.terms self.old.line.room self.new.line.room self.old.spent self.new.spent }
        ensures ends { WorkEnds result self.new.spent self.old.terms.events }
        ensures goes { Admits (L.text lines.now) number self.old (seen M.Fan O.Sink fan.old output.old fan.new output.new) self.new result }
        ensures later { Later (M.counts fan.old) (M.counts fan.new) }
        ensures targets { M.target_count fan.new ≡ M.target_count fan.old }
        ensures served { HaveTargets (M.target_count fan.old) self.new.sessions.items }
        ensures output_later { O.faults output.old ≤ O.faults output.new }
        ensures cause { result ≡ Err End.WriteFault → Rose (O.faults output.old) (O.faults output.new) }
        ensures unwritten { (k : ℕ) → result ≡ Err (End.Unwritten k) → Rose (O.faults output.old) (O.faults output.new) }
    {
        if self.sessions.len() >= self.terms.sessions {
            return self.refuse(number, RouteOutcome::Full, fan, output);
        }
        let Ok(router) = open_session(alloc, &self.terms) else {
            return self.refuse(number, RouteOutcome::NoMemory, fan, output);
        };
        match self.hold(number, router) {
            Some(at) => self.settle(at, lines, fan, output),
            None => self.refuse(number, RouteOutcome::NoMemory, fan, output),
        }
    }

    /// Puts a session last, and says where, or none where the memory for it was not found.
    fn hold(&mut self, number: u64, router: Router<'s>) -> Option<usize>
        ensures same { (self.new.terms ≡ self.old.terms) × (self.new.line ≡ self.old.line) × (self.new.spent ≡ self.old.spent) }
        ensures some { IfSome result (IsPutLast self.old.sessions.items number router.entry self.new.sessions.items) }
        ensures none { result ≡ None → self.new.sessions.items ≡ self.old.sessions.items }
    {
        let at = self.sessions.len();
        match self.sessions.push(OpenSession::new(number, router)) {
            Ok(()) => Some(at),
            Err(_) => None,
        }
    }

    /// Turns a session that an event names.
    fn resume<M: Fan, O: Sink, L: RefusalLines>(
        &mut self,
        lines: &L,
        number: u64,
        fan: &mut M,
        output: &mut O,
    ) -> Result<(), End>
        requires room { LINE_ROOM ≤ self.old.line.room }
        requires lines { L.room lines.now ≤ self.old.line.room }
        requires served { HaveTargets (M.target_count fan.old) self.old.sessions.items }
        requires budget { self.old.spent ≤ self.old.terms.events }
        ensures carried { IsCarriedOn self.old.terms self.new.terms self.old.line.room self.new.line.room self.old.spent self.new.spent }
        ensures ends { WorkEnds result self.new.spent self.old.terms.events }
        ensures goes { Resumes (L.text lines.now) number self.old (seen M.Fan O.Sink fan.old output.old fan.new output.new) self.new result }
        ensures later { Later (M.counts fan.old) (M.counts fan.new) }
        ensures targets { M.target_count fan.new ≡ M.target_count fan.old }
        ensures served { HaveTargets (M.target_count fan.old) self.new.sessions.items }
        ensures output_later { O.faults output.old ≤ O.faults output.new }
        ensures cause { result ≡ Err End.WriteFault → Rose (O.faults output.old) (O.faults output.new) }
        ensures unwritten { (k : ℕ) → result ≡ Err (End.Unwritten k) → Rose (O.faults output.old) (O.faults output.new) }
    {
        match find(self.sessions.as_slice(), number) {
            Some(at) => self.settle(at, lines, fan, output),
            None => Ok(()),
        }
    }

    /// Takes the next event, and turns the session that it names. Every open session is settled before.
    pub fn step<M: Fan, O: Sink, L: RefusalLines>(
        &mut self,
        alloc: Global,
        lines: &L,
        fan: &mut M,
        output: &mut O,
    ) -> Result<(), End>
        requires room { LINE_ROOM ≤ self.old.line.room }
        requires lines { L.room lines.now ≤ self.old.line.room }
        requires targets { length self.old.terms.targets.now ≡ M.target_count fan.old }
        requires served { HaveTargets (M.target_count fan.old) self.old.sessions.items }
        requires budget { self.old.spent < self.old.terms.events }
        requires range { self.old.terms.events < 2 ^ 64 }
        requires good { AreGood self.old.terms }
        ensures carried { IsCarriedOn self.old.terms self.new.terms self.old.line.room self.new.line.room self.old.spent self.new.spent }
        ensures ends { StepEnds result self.old.spent self.new.spent self.old.terms.events }
        ensures goes { Steps (L.text lines.now) self.old (seen M.Fan O.Sink fan.old output.old fan.new output.new) self.new result }
        ensures later { Later (M.counts fan.old) (M.counts fan.new) }
        ensures targets { M.target_count fan.new ≡ M.target_count fan.old }
        ensures served { HaveTargets (M.target_count fan.old) self.new.sessions.items }
        ensures output_later { O.faults output.old ≤ O.faults output.new }
        ensures hub_cause { result ≡ Err End.HubFault → Rose (M.counts fan.old).faults (M.counts fan.new).faults }
        ensures cause { result ≡ Err End.WriteFault → Rose (O.faults output.old) (O.faults output.new) }
        ensures unwritten { (k : ℕ) → result ≡ Err (End.Unwritten k) → Rose (O.faults output.old) (O.faults output.new) }
    {
        match fan.next() {
            HubNext::Stopped => Err(End::Stopped),
            HubNext::Failed => Err(End::HubFault),
            HubNext::Opened(number) => {
                self.spent += 1;
                self.admit(alloc, lines, number, fan, output)
            }
            HubNext::Ready(number) => {
                self.spent += 1;
                self.resume(lines, number, fan, output)
            }
        }
    }
}
