//! What a session holds between two calls, and the steps that it takes.
//!
//! A step takes the whole frame at the front of a side. The upstream's frame goes first.
//!
//! | frame at the front of | and its verdict | is taken once | and then |
//! |---|---|---|---|
//! | the upstream | passed or refused reply | a call is open, nothing is due to the client | the oldest call closes, the reply or what tells its refusal is due to the client |
//! | the client | passed, with an answer | nothing is due to the upstream, a call may open | it is due to the upstream, and a call opens |
//! | the client | passed, without an answer | the same | it is due to the upstream |
//! | the client | refused, with an answer | besides, no call is open and nothing is due to the client | its answer is due to the client |
//! | the client | refused, without an answer | nothing is due to the upstream, a call may open | it is dropped |
//!
//! Where no step is left and nothing is due, the session has an outcome if one of these holds, in this order:
//!
//! | what is so | outcome |
//! |---|---|
//! | a call is open, the upstream has ended and nothing of it is held | `UpstreamEnded` |
//! | a call is open, the upstream's frame halts it or the upstream ended inside one | `UpstreamFault` |
//! | no call is open, the client's frame halts it or the client ended inside one | `ClientFault` |
//! | no call is open, the client has ended, a frame of the upstream is held | `Unsolicited` |
//! | no call is open, the client has ended | `Clean` |
//!
//! A session with an outcome takes nothing more.
ghost use Rattle.std.specs.Prelude.{◌≡◌, ◌+◌, ◌^◌, ◌<◌, ◌≤◌, [], ◌++◌, length, take, min, ◌-◌, ℕ, is_some, IfOk, true, not, ◌&&◌, Some, None, if◌then◌else◌};
ghost use Rattle.framed_transport.specs.Front.{front, whole_size, is_part, is_whole};
ghost use Rattle.session_core.specs.Rules.{Rules};
ghost use Rattle.session_core.specs.Standing.{Standing, History, begun};
ghost use Rattle.session_core.specs.Fits.{told};
ghost use Rattle.session_core.specs.Steps.{outcome_of, IsStill, is_none, by_upstream, by_client, at_end, Move, Waits};
ghost use Rattle.session_core.specs.Ends.{held_of, most_held};
ghost use Rattle.session_core.specs.Session.{due_to, and_came, and_sent, and_ended, room_of};
ghost use Rattle.session_core.specs.Halves.{fed, let_go, ended};
ghost use Rattle.session_core.specs.Working.{standing, limit_of, half_of, with_half, of_upstream_in, of_client_in, IsReady, Works, Keeps, IsSettledBy, FitsOn, IsSound, Comes, GoesOn, Cuts, ends_step, ending_of, IsFound, without_reply, without_call, ComesRefused, TakesNoMoreOf, told_of_reply, told_of_call};
ghost use Rattle.session_core.specs.Looks.{came, stopped, stopped_by};

use crate::framing::{answer_call, judge_client, judge_upstream, pass_call, pass_reply};
use crate::half::Half;
use crate::judge::{Call, CallLook, ClientJudged, Judge, UpstreamJudged};
use crate::notes::{Notes, note_call, note_reply};
use crate::outcome::{Halt, Outcome};
use circular_buffer::HeapCircularBuffer;
use framed_transport::{Next, frame_stands_at_the_front};
use gate_base::OutOfMemory;
use gate_hub::Side;
use std::alloc::Global;
use translate_verdicts::Cause;

/// So many calls may be open at the most.
pub const MOST_CALLS: usize = 65_536;

/// What a session holds, without its judge.
#[derive(Drop)]
pub struct State {
    client: Half,
    upstream: Half,
    /// The open calls, the oldest first.
    calls: HeapCircularBuffer<Call>,
    /// The verdict on the client's front frame, where it was judged and waits.
    known: Option<Waiting>,
    /// Why a side halts, where a look said that it does. It stands here so that what a look tells fits a register.
    halt: Halt,
    pub outcome: Option<Outcome>,
}

/// What came of a look at a side, where the session says why a side halts.
#[derive(Clone, Copy)]
pub enum Look {
    Waits,
    Halts,
    Takes,
}

/// Why no frame can be taken, where the session says why a side halts.
#[derive(Clone, Copy)]
pub enum Stop {
    Upstream,
    Client,
    Waits,
}

/// What came of a look at a side.
#[derive(Clone, Copy)]
pub enum SessionStep {
    Waits,
    Halts(Halt),
    Takes,
}

/// The stored verdict on the client's front frame, which waits, so that it is judged once.
#[derive(Clone, Copy)]
pub enum Waiting {
    Halts(Halt),
    Refused(Cause),
}

/// Why no frame can be taken.
#[derive(Clone, Copy)]
pub enum Standstill {
    Upstream(Halt),
    Client(Halt),
    Waits,
}

/// The number of the next frame behind so many.
fn next_of(count: u64) -> u64
    ensures { result ≡ told (count + 1) }
{
    count.saturating_add(1)
}

impl State {
    /// Takes all the memory of a session.
    ///
    /// `OutOfMemory`: it was not found.
    pub fn open(alloc: Global, limit: usize, max_calls: usize) -> Result<State, OutOfMemory>
        requires limit { limit < 2 ^ 24 }
        requires some { 0 < max_calls }
        requires few { max_calls ≤ MOST_CALLS }
        ensures ready { IfOk result (λ s. IsReady limit max_calls s) }
        ensures empty { IfOk result (λ s. standing s ≡ begun) }
        ensures open { IfOk result (λ s. s.outcome ≡ None) }
        ensures unknown { IfOk result (λ s. s.known ≡ None) }
    {
        Ok(State {
            client: Half::open(alloc, limit)?,
            upstream: Half::open(alloc, limit)?,
            calls: HeapCircularBuffer::with_capacity(alloc, max_calls)?,
            known: None,
            halt: Halt::WrongWay,
            outcome: None,
        })
    }

    /// What is held of a side.
    fn half(&self, side: Side) -> &Half
        ensures { result.now ≡ half_of side self.now }
    {
        match side {
            Side::Client => &self.client,
            Side::Upstream => &self.upstream,
        }
    }

    /// Takes the upstream's front frame for the oldest open call, once nothing is due to the client.
    fn upstream_step<J: Judge, N: Notes>(&mut self, judge: &mut J, notes: &mut N) -> Look
        requires works { Works (J.rules judge.old) (J.longest judge.old) self.old }
        ensures same { judge.new ≡ judge.old }
        ensures keeps { Keeps (J.rules judge.old) self.old self.new }
        ensures comes { Comes (came result self.new.halt) (of_upstream_in (J.rules judge.old) self.old) (standing self.old) (standing self.new) }
        ensures cut { result ≡ Look.Takes → Cuts self.old.upstream.held.limit self.old.upstream.held.held }
        ensures told { N.tells notes.old notes.new (told_of_reply (J.rules judge.old) self.old (came result self.new.halt)) }
    {
        if self.calls.is_empty() {
            return Look::Waits;
        }
        if !self.client.is_paid() {
            return self.upstream_ends();
        }
        match self.upstream.held.frame() {
            Next::NeedMore => self.upstream_ends(),
            Next::TooLarge(_) => self.reply_step(judge, notes),
            Next::Frame(frame) => {
                // (looked up here, as most looks find no frame)
                let Some(&call) = self.calls.front() else {
                    return Look::Waits;
                };
                if pass_reply(judge, call, frame, &mut self.client.due) {
                    let size = frame.len();
                    self.close_call(size);
                    return Look::Takes;
                }
                self.reply_step(judge, notes)
            }
        }
    }

    /// The same for a frame that a quick look doesn't pass.
    #[inline(never)]
    fn reply_step<J: Judge, N: Notes>(&mut self, judge: &mut J, notes: &mut N) -> Look
        requires works { Works (J.rules judge.old) (J.longest judge.old) self.old }
        ensures same { judge.new ≡ judge.old }
        ensures keeps { Keeps (J.rules judge.old) self.old self.new }
        ensures comes { Comes (came result self.new.halt) (of_upstream_in (J.rules judge.old) self.old) (standing self.old) (standing self.new) }
        ensures cut { result ≡ Look.Takes → Cuts self.old.upstream.held.limit self.old.upstream.held.held }
        ensures told { N.tells notes.old notes.new (told_of_reply (J.rules judge.old) self.old (came result self.new.halt)) }
    {
        if self.calls.is_empty() {
            return Look::Waits;
        }
        if !self.client.is_paid() {
            return self.upstream_ends();
        }
        match self.upstream.held.frame() {
            Next::NeedMore => self.upstream_ends(),
            Next::TooLarge(length) => {
                self.halt = Halt::TooLarge(length);
                Look::Halts
            }
            Next::Frame(frame) => {
                let Some(&call) = self.calls.front() else {
                    return Look::Waits;
                };
                match judge_upstream(judge, call, frame, &mut self.client.due) {
                    UpstreamJudged::Halts(halt) => {
                        self.client.due.cut(0);
                        self.halt = halt;
                        Look::Halts
                    }
                    UpstreamJudged::Answers(refused) => {
                        note_reply(notes, next_of(self.upstream.count), refused, frame);
                        let size = frame.len();
                        self.close_call(size);
                        Look::Takes
                    }
                }
            }
        }
    }

    /// Whether the upstream ends with a call open.
    fn upstream_ends(&mut self) -> Look
        ensures ends { came result self.new.halt ≡ ends_step (is_part (front self.old.upstream.held.limit self.old.upstream.held.held)) self.old.upstream.ended }
        ensures same { self.new ≡ record self.old { halt = self.new.halt } }
    {
        if !self.upstream.ended {
            return Look::Waits;
        }
        match self.upstream.held.frame() {
            Next::NeedMore => {
                self.halt = Halt::Inside;
                Look::Halts
            }
            _ => Look::Waits,
        }
    }

    /// Lets the upstream's front frame, a whole one of `size` bytes, and the oldest call go.
    fn close_call(&mut self, size: usize)
        requires { whole_size (front self.old.upstream.held.limit self.old.upstream.held.held) ≡ Some size }
        ensures stands { standing self.new ≡ without_reply self.old }
        ensures kept { (self.new.known ≡ self.old.known) × (self.new.client ≡ self.old.client) }
        ensures ready { (limit max_calls : ℕ) → IsReady limit max_calls self.old → IsReady limit max_calls self.new }
    {
        self.upstream.take_frame(size);
        self.calls.pop_front();
    }

    /// Takes the client's front frame, while nothing is due to the upstream and a call may open.
    fn client_step<J: Judge, N: Notes>(&mut self, judge: &mut J, notes: &mut N) -> Look
        requires works { Works (J.rules judge.old) (J.longest judge.old) self.old }
        ensures same { judge.new ≡ judge.old }
        ensures keeps { Keeps (J.rules judge.old) self.old self.new }
        ensures comes { Comes (came result self.new.halt) (of_client_in (J.rules judge.old) self.old) (standing self.old) (standing self.new) }
        ensures cut { result ≡ Look.Takes → Cuts self.old.client.held.limit self.old.client.held.held }
        ensures told { N.tells notes.old notes.new (told_of_call (J.rules judge.old) self.old (came result self.new.halt)) }
    {
        if !self.upstream.is_paid() || self.calls.len() >= self.calls.capacity() {
            return Look::Waits;
        }
        let Some(waiting) = self.known else {
            return self.call_step(judge, notes);
        };
        self.stored_step(judge, waiting, notes)
    }

    /// Continues with the client's front frame by its stored verdict.
    #[inline(never)]
    fn stored_step<J: Judge, N: Notes>(
        &mut self,
        judge: &mut J,
        waiting: Waiting,
        notes: &mut N,
    ) -> Look
        requires works { Works (J.rules judge.old) (J.longest judge.old) self.old }
        requires empty { self.old.upstream.due.bytes ≡ [] }
        requires few { length self.old.calls.items < self.old.calls.capacity }
        requires found { IsFound (J.rules judge.old) self.old.client.held.limit self.old.client.held.held waiting }
        ensures same { judge.new ≡ judge.old }
        ensures keeps { Keeps (J.rules judge.old) self.old self.new }
        ensures comes { Comes (came result self.new.halt) (of_client_in (J.rules judge.old) self.old) (standing self.old) (standing self.new) }
        ensures cut { result ≡ Look.Takes → Cuts self.old.client.held.limit self.old.client.held.held }
        ensures told { N.tells notes.old notes.new (told_of_call (J.rules judge.old) self.old (came result self.new.halt)) }
    {
        match waiting {
            Waiting::Halts(halt) => {
                self.halt = halt;
                Look::Halts
            }
            Waiting::Refused(cause) => self.answer_step(judge, cause, notes),
        }
    }

    /// Takes the client's front frame where a quick look passes it, and judges it else.
    fn call_step<J: Judge, N: Notes>(&mut self, judge: &mut J, notes: &mut N) -> Look
        requires works { Works (J.rules judge.old) (J.longest judge.old) self.old }
        requires unknown { self.old.known ≡ None }
        requires empty { self.old.upstream.due.bytes ≡ [] }
        requires few { length self.old.calls.items < self.old.calls.capacity }
        ensures same { judge.new ≡ judge.old }
        ensures keeps { Keeps (J.rules judge.old) self.old self.new }
        ensures comes { Comes (came result self.new.halt) (of_client_in (J.rules judge.old) self.old) (standing self.old) (standing self.new) }
        ensures cut { result ≡ Look.Takes → Cuts self.old.client.held.limit self.old.client.held.held }
        ensures told { N.tells notes.old notes.new (told_of_call (J.rules judge.old) self.old (came result self.new.halt)) }
    {
        match self.client.held.frame() {
            Next::NeedMore => Look::Waits,
            Next::TooLarge(_) => self.judge_step(judge, notes),
            Next::Frame(frame) => match pass_call(judge, frame, &mut self.upstream.due) {
                CallLook::Opens(call) => {
                    self.calls.push_back(call);
                    let size = frame.len();
                    self.count_frame(size);
                    Look::Takes
                }
                CallLook::Goes => {
                    let size = frame.len();
                    self.count_frame(size);
                    Look::Takes
                }
                CallLook::Nothing => self.judge_step(judge, notes),
            },
        }
    }

    /// Judges the client's front frame, and takes it or stores the verdict.
    #[inline(never)]
    fn judge_step<J: Judge, N: Notes>(&mut self, judge: &mut J, notes: &mut N) -> Look
        requires works { Works (J.rules judge.old) (J.longest judge.old) self.old }
        requires unknown { self.old.known ≡ None }
        requires empty { self.old.upstream.due.bytes ≡ [] }
        requires few { length self.old.calls.items < self.old.calls.capacity }
        ensures same { judge.new ≡ judge.old }
        ensures keeps { Keeps (J.rules judge.old) self.old self.new }
        ensures comes { Comes (came result self.new.halt) (of_client_in (J.rules judge.old) self.old) (standing self.old) (standing self.new) }
        ensures cut { result ≡ Look.Takes → Cuts self.old.client.held.limit self.old.client.held.held }
        ensures told { N.tells notes.old notes.new (told_of_call (J.rules judge.old) self.old (came result self.new.halt)) }
    {
        match self.client.held.frame() {
            Next::NeedMore => Look::Waits,
            Next::TooLarge(length) => {
                self.halt = Halt::TooLarge(length);
                Look::Halts
            }
            Next::Frame(frame) => match judge_client(judge, frame, &mut self.upstream.due) {
                ClientJudged::Opens(call) => {
                    self.calls.push_back(call);
                    let size = frame.len();
                    self.count_frame(size);
                    Look::Takes
                }
                ClientJudged::Goes => {
                    let size = frame.len();
                    self.count_frame(size);
                    Look::Takes
                }
                ClientJudged::Dropped(cause) => {
                    note_call(notes, next_of(self.client.count), cause, true, frame);
                    self.upstream.due.cut(0);
                    let size = frame.len();
                    self.count_frame(size);
                    Look::Takes
                }
                ClientJudged::Refused(cause) => {
                    self.upstream.due.cut(0);
                    self.known = Some(Waiting::Refused(cause));
                    self.answer_step(judge, cause, notes)
                }
                ClientJudged::Halts(halt) => {
                    self.upstream.due.cut(0);
                    self.known = Some(Waiting::Halts(halt));
                    self.halt = halt;
                    Look::Halts
                }
            },
        }
    }

    /// Lets the client's front frame go, a whole one of `size` bytes.
    fn count_frame(&mut self, size: usize)
        requires { whole_size (front self.old.client.held.limit self.old.client.held.held) ≡ Some size }
        ensures stands { standing self.new ≡ without_call self.old }
        ensures kept { self.new.known ≡ self.old.known }
        ensures ready { (limit max_calls : ℕ) → IsReady limit max_calls self.old → IsReady limit max_calls self.new }
    {
        self.client.take_frame(size);
    }

    /// Answers the client's front frame in its turn.
    #[inline(never)]
    fn answer_step<J: Judge, N: Notes>(
        &mut self,
        judge: &mut J,
        cause: Cause,
        notes: &mut N,
    ) -> Look
        requires works { Works (J.rules judge.old) (J.longest judge.old) self.old }
        requires found { IsFound (J.rules judge.old) self.old.client.held.limit self.old.client.held.held (Waiting.Refused cause) }
        ensures same { judge.new ≡ judge.old }
        ensures keeps { Keeps (J.rules judge.old) self.old self.new }
        ensures comes { ComesRefused (J.rules judge.old) cause self.old (came result self.new.halt) self.new }
        ensures told { N.tells notes.old notes.new (told_of_call (J.rules judge.old) self.old (came result self.new.halt)) }
    {
        if !self.calls.is_empty() || !self.client.is_paid() {
            return Look::Waits;
        }
        if let Next::Frame(frame) = self.client.held.frame() {
            answer_call(judge, frame, cause, &mut self.client.due);
            note_call(notes, next_of(self.client.count), cause, false, frame);
            let size = frame.len();
            self.count_frame(size);
            self.known = None;
            return Look::Takes;
        }
        Look::Waits
    }

    /// Takes a frame, or says why none can be taken.
    #[inline(never)]
    fn step<J: Judge, N: Notes>(&mut self, judge: &mut J, notes: &mut N) -> Option<Stop>
        requires works { Works (J.rules judge.old) (J.longest judge.old) self.old }
        ensures same { judge.new ≡ judge.old }
        ensures keeps { Keeps (J.rules judge.old) self.old self.new }
        ensures goes { GoesOn (J.rules judge.old) self.old self.new (N.tells notes.old notes.new) (stopped_by result self.new.halt) }
    {
        match self.upstream_step(judge, notes) {
            Look::Takes => None,
            Look::Halts => Some(Stop::Upstream),
            Look::Waits => match self.client_step(judge, notes) {
                Look::Takes => None,
                Look::Halts => Some(Stop::Client),
                Look::Waits => Some(Stop::Waits),
            },
        }
    }

    /// Takes all that can be taken, and says why no more can be.
    #[inline(always)]
    fn advance<J: Judge, N: Notes>(&mut self, judge: &mut J, notes: &mut N) -> Stop
        requires works { Works (J.rules judge.old) (J.longest judge.old) self.old }
        ensures same { judge.new ≡ judge.old }
        ensures keeps { Keeps (J.rules judge.old) self.old self.new }
        ensures still { IsStill (J.rules judge.old) (limit_of self.old) self.old.calls.capacity (standing self.new) }
        ensures ending { ending_of (limit_of self.old) (standing self.new) (stopped result self.new.halt) ≡
            outcome_of (J.rules judge.old) (limit_of self.old) self.old.calls.capacity (standing self.new) }
        ensures fits { FitsOn (J.rules judge.old) self.old self.new (N.tells notes.old notes.new) (λ h. h) }
    {
        'frames: loop {
            if let Some(stop) = self.step(judge, notes) {
                return stop;
            }
            if self.rests() {
                return Stop::Waits;
            }
        }
    }

    /// Whether it shows at once that no frame can be taken, as mostly after one was.
    #[inline(always)]
    fn rests(&self) -> bool
        ensures upstream { (rules : Rules) → result ≡ true → of_upstream_in rules self.now ≡ Waits }
        ensures client { (rules : Rules) → result ≡ true → of_client_in rules self.now ≡ Waits }
    {
        if self.upstream.ended || (self.client.is_paid() && self.upstream.held.held() >= 4) {
            return false;
        }
        !self.upstream.is_paid() || self.client.held.held() < 4
    }

    /// Whether something is due to a side: the session goes on then.
    fn owes(&self) -> bool
        ensures { result ≡ not (is_none self.now.client.due.bytes && is_none self.now.upstream.due.bytes) }
    {
        !self.client.is_paid() || !self.upstream.is_paid()
    }

    /// Keeps the outcome where no frame can be taken.
    #[inline(never)]
    fn keep_ending(&mut self, stop: Stop)
        requires { self.old.upstream.held.limit ≡ limit_of self.old }
        ensures { self.new ≡ record self.old { outcome = ending_of (limit_of self.old) (standing self.old) (stopped stop self.old.halt) } }
    {
        if self.owes() {
            self.outcome = None;
            return;
        }
        match stop {
            Stop::Upstream => self.outcome = Some(self.upstream_ending(self.halt)),
            Stop::Client => self.outcome = self.client_ending(self.halt),
            Stop::Waits => self.outcome = self.end_ending(),
        }
    }

    /// The outcome where the upstream halts.
    fn upstream_ending(&self, halt: Halt) -> Outcome
        ensures { result ≡ by_upstream halt (standing self.now) }
    {
        if self.upstream.ended && self.upstream.held.held() == 0 {
            Outcome::UpstreamEnded(self.calls.len() as u64)
        } else {
            Outcome::UpstreamFault(self.upstream.count.saturating_add(1), halt)
        }
    }

    /// The outcome where the client halts: none while a call is open.
    fn client_ending(&self, halt: Halt) -> Option<Outcome>
        ensures { result ≡ (if is_none self.now.calls.items then Some (Outcome.ClientFault (told (self.now.client.count + 1)) halt) else None) }
    {
        if self.calls.is_empty() {
            Some(Outcome::ClientFault(self.client.count.saturating_add(1), halt))
        } else {
            None
        }
    }

    /// The outcome where no frame waits: none while a call is open or the client may send more.
    fn end_ending(&self) -> Option<Outcome>
        requires { self.now.upstream.held.limit ≡ limit_of self.now }
        ensures { result ≡ (if is_none self.now.calls.items then by_client (limit_of self.now) (standing self.now) Waits else None) }
    {
        if !self.calls.is_empty() || !self.client.ended {
            return None;
        }
        if self.client.held.held() > 0 {
            let number = self.client.count.saturating_add(1);
            return Some(Outcome::ClientFault(number, Halt::Inside));
        }
        Some(self.clean_ending())
    }

    /// The outcome once the client has ended at a frame's end and each call was answered.
    fn clean_ending(&self) -> Outcome
        ensures { result ≡ at_end self.now.upstream.held.limit (standing self.now) }
    {
        match self.upstream.held.frame() {
            Next::NeedMore => Outcome::Clean,
            _ => Outcome::Unsolicited {
                answer: self.upstream.count.saturating_add(1),
                calls: self.upstream.count,
            },
        }
    }

    /// Takes all that can be taken, and keeps the outcome.
    #[inline(always)]
    pub fn settle<J: Judge, N: Notes>(&mut self, judge: &mut J, notes: &mut N)
        requires works { Works (J.rules judge.old) (J.longest judge.old) self.old }
        ensures same { judge.new ≡ judge.old }
        ensures keeps { Keeps (J.rules judge.old) self.old self.new }
        ensures settled { IsSettledBy (J.rules judge.old) self.old self.new }
        ensures fits { FitsOn (J.rules judge.old) self.old self.new (N.tells notes.old notes.new) (λ h. h) }
    {
        let stop = self.advance(judge, notes);
        if self.owes() && self.outcome.is_none() {
            return;
        }
        self.keep_ending(stop);
    }

    /// Takes bytes of a side, as long as there is room and no outcome.
    pub fn take<J: Judge, N: Notes>(
        &mut self,
        judge: &mut J,
        side: Side,
        bytes: &[u8],
        notes: &mut N,
    ) -> usize
        requires works { Works (J.rules judge.old) (J.longest judge.old) self.old }
        requires settled { IsSettledBy (J.rules judge.old) self.old self.old }
        ensures same { judge.new ≡ judge.old }
        ensures keeps { Keeps (J.rules judge.old) self.old self.new }
        ensures settled { IsSettledBy (J.rules judge.old) self.old self.new }
        ensures count { result ≤ length bytes.now }
        ensures fits { FitsOn (J.rules judge.old) self.old self.new (N.tells notes.old notes.new) (λ h. and_came side h (take result bytes.now)) }
        ensures fewer { result < length bytes.now → TakesNoMoreOf side self.old self.new }
        ensures whole { length bytes.now ≤ room_of (limit_of self.old) (standing self.old) (is_some self.old.outcome) side → result ≡ length bytes.now }
        ensures ended { (half_of side self.old).ended ≡ true → result ≡ 0 }
        ensures over { is_some self.old.outcome ≡ true → result ≡ 0 }
    {
        if self.half(side).ended || self.outcome.is_some() {
            return 0;
        }
        frame_stands_at_the_front();
        let mut taken = 0;
        'pieces: while taken < bytes.len()
            && self.outcome.is_none()
            && self.half(side).held.room() > 0
        {
            taken += self.feed(side, &bytes[taken..]);
            self.settle(judge, notes);
        }
        taken
    }

    /// Takes as many of these bytes of a side as there is room for, and says how many.
    fn feed(&mut self, side: Side, bytes: &[u8]) -> usize
        ensures count { let held = (half_of side self.old).held in result ≡ min (length bytes.now) (held.limit + 4 - length held.held) }
        ensures fed { self.new ≡ with_half side self.old (fed (half_of side self.old) (take result bytes.now)) }
    {
        match side {
            Side::Client => self.client.feed(bytes),
            Side::Upstream => self.upstream.feed(bytes),
        }
    }

    /// So many of the bytes that were due to a side were sent. While some are left, no more can be taken than before.
    #[inline(always)]
    pub fn sent<J: Judge, N: Notes>(&mut self, judge: &mut J, side: Side, n: usize, notes: &mut N)
        requires works { Works (J.rules judge.old) (J.longest judge.old) self.old }
        requires due { n ≤ length (half_of side self.old).due.bytes }
        requires settled { IsSettledBy (J.rules judge.old) self.old self.old }
        ensures same { judge.new ≡ judge.old }
        ensures keeps { Keeps (J.rules judge.old) self.old self.new }
        ensures settled { IsSettledBy (J.rules judge.old) self.old self.new }
        ensures fits { FitsOn (J.rules judge.old) self.old self.new (N.tells notes.old notes.new)
            (λ h. and_sent side h (take n (half_of side self.old).due.bytes)) }
    {
        self.let_go(side, n);
        if self.half(side).is_paid() {
            self.settle(judge, notes);
        }
    }

    /// Lets so many of the bytes go that were due to a side.
    fn let_go(&mut self, side: Side, n: usize)
        requires { n ≤ length (half_of side self.old).due.bytes }
        ensures { self.new ≡ with_half side self.old (let_go (half_of side self.old) n) }
    {
        match side {
            Side::Client => self.client.let_go(n),
            Side::Upstream => self.upstream.let_go(n),
        }
    }

    /// A side sends nothing more.
    pub fn end<J: Judge, N: Notes>(&mut self, judge: &mut J, side: Side, notes: &mut N)
        requires works { Works (J.rules judge.old) (J.longest judge.old) self.old }
        ensures same { judge.new ≡ judge.old }
        ensures keeps { Keeps (J.rules judge.old) self.old self.new }
        ensures settled { IsSettledBy (J.rules judge.old) self.old self.new }
        ensures fits { FitsOn (J.rules judge.old) self.old self.new (N.tells notes.old notes.new) (λ h. and_ended side h) }
    {
        self.mark_ended(side);
        self.settle(judge, notes);
    }

    fn mark_ended(&mut self, side: Side)
        ensures { self.new ≡ with_half side self.old (ended (half_of side self.old)) }
    {
        match side {
            Side::Client => self.client.ended = true,
            Side::Upstream => self.upstream.ended = true,
        }
    }

    /// How many bytes are held in all.
    pub fn held(&self) -> usize
        requires { IsSound self.now }
        ensures exact { result ≡ held_of (limit_of self.now) (standing self.now) self.now.outcome }
        ensures within { result ≤ most_held (limit_of self.now) self.now.calls.capacity }
    {
        let rooms = 2 * (self.client.held.held() + self.client.held.room() - 4);
        if self.outcome.is_some() {
            return rooms;
        }
        let held = self.client.held.held() + self.upstream.held.held();
        let due = self.client.due.bytes().len() + self.upstream.due.bytes().len();
        rooms + held + due + 16 * self.calls.len()
    }

    /// The bytes that are due to a side.
    pub fn due(&self, side: Side) -> &[u8]
        ensures bytes { result.now ≡ due_to side (standing self.now) }
        ensures within { length (half_of side self.now).due.bytes ≤ (half_of side self.now).due.room }
    {
        self.half(side).due.bytes()
    }

    /// How many more bytes of a side can be taken.
    pub fn room(&self, side: Side) -> usize
        requires { IsSound self.now }
        ensures { result ≡ room_of (limit_of self.now) (standing self.now) (is_some self.now.outcome) side }
    {
        let half = self.half(side);
        if half.ended || self.outcome.is_some() {
            0
        } else {
            half.held.room()
        }
    }
}
