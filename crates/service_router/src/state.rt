//! What a router holds between two calls, and the steps that it takes.
//!
//! A step takes the whole frame at the front of the oldest open call's target, or else at the client's, by the rules of a session
//! between these two. What is due to the targets is due to one of them: a frame of the client is taken only once nothing is due
//! to any target.
ghost use Rattle.std.specs.Prelude.{◌≡◌, ◌+◌, ◌*◌, ◌-◌, ◌^◌, ◌<◌, ◌≤◌, [], ◌++◌, ◌∷◌, length, take, drop, replicate, min, suc, ℕ, is_some, IfOk, IfSome, true, Some, None, if◌then◌else◌};
ghost use Rattle.std.specs.List.{position};
ghost use Rattle.session_core.specs.Fits.{told};
ghost use Rattle.session_core.specs.Steps.{is_none, by_upstream, by_client, Waits};
ghost use Rattle.session_core.specs.Working.{IsFound, ending_of};
ghost use Rattle.service_router.specs.Standing.{History, begun, silent, and_received, and_sent, and_ended, inbox_of, due_to, room_of};
ghost use Rattle.service_router.specs.Inboxes.{fed, ended, without_frame};
ghost use Rattle.service_router.specs.Steps.{as_session, outcome_of, IsStill, holds_frame, unasked, calls_to, by_port, with_port};
ghost use Rattle.service_router.specs.Ends.{TakesNoMore, bytes_held, most_held, held_of_all};
ghost use Rattle.service_router.specs.Judging.{rules_of};
ghost use Rattle.service_router.specs.Working.{standing, inbox_in, with_inbox_in, without_call, let_go_in, IsReady, IsSound, Works, Keeps, IsSettledBy, FitsOn, LooksUpIn, LooksDownIn, GoesOn};

use crate::call::OpenCall;
use crate::judge::RouteJudge;
use crate::noting::{note_answer, note_call};
use crate::outcome::RouteOutcome;
use crate::port::Port;
use crate::router::MOST_TARGETS;
use circular_buffer::HeapCircularBuffer;
use framed_transport::{Next, frame_stands_at_the_front};
use gate_base::OutOfMemory;
use gate_io::Out;
use session_core::{
    Call, ClientJudged, Halt, MOST_CALLS, Notes, SessionStep, Standstill, UpstreamJudged, Waiting,
    due_room,
};
use std::alloc::Global;
use translate_verdicts::Cause;

/// What a router holds, without its judge.
#[derive(Drop)]
pub struct State {
    client: Port,
    /// Those of the targets.
    ports: Vec<Port>,
    /// The bytes that are due to the client.
    to_client: Out,
    /// The bytes that are due to one of the targets, and which it is, from 0.
    to_upstream: Out,
    toward: usize,
    /// The open calls, the oldest first.
    calls: HeapCircularBuffer<OpenCall>,
    /// The verdict on the client's front frame, where it was judged and waits.
    known: Option<Waiting>,
    pub outcome: Option<RouteOutcome>,
}

impl State {
    /// Takes all the memory.
    ///
    /// `OutOfMemory`: it was not found.
    pub fn open(
        alloc: Global,
        limit: usize,
        max_calls: usize,
        targets: usize,
    ) -> Result<State, OutOfMemory>
        requires limit { limit < 2 ^ 24 }
        requires some { 0 < max_calls }
        requires few { max_calls ≤ MOST_CALLS }
        requires some_targets { 0 < targets }
        requires few_targets { targets ≤ MOST_TARGETS }
        ensures ready { IfOk result (λ s. IsReady limit max_calls targets s) }
        ensures empty { IfOk result (λ s. standing s ≡ begun limit targets) }
        ensures open { IfOk result (λ s. s.outcome ≡ None) }
        ensures unknown { IfOk result (λ s. s.known ≡ None) }
    {
        let calls = HeapCircularBuffer::with_capacity(alloc, max_calls)?;
        let (to_client, to_upstream) = open_outputs(alloc, due_room(limit))?;
        let (client, ports) = open_inboxes(alloc, limit, targets)?;
        Ok(State {
            client,
            ports,
            to_client,
            to_upstream,
            toward: 0,
            calls,
            known: None,
            outcome: None,
        })
    }

    /// How many targets there are.
    pub fn targets(&self) -> usize
        ensures { result ≡ length self.now.ports.items }
    {
        self.ports.len()
    }

    /// A port, the client's or that of a target.
    fn port(&self, port: usize) -> &Port
        requires { port ≤ length self.now.ports.items }
        ensures { result.now ≡ inbox_in port self.now }
    {
        match port {
            0 => &self.client,
            _ => &self.ports[port - 1],
        }
    }

    /// Takes the front frame of the oldest call's target, once nothing is due to the client.
    fn upstream_step<N: Notes>(&mut self, judge: &mut RouteJudge<'_>, notes: &mut N) -> SessionStep
        requires works { Works judge.old self.old }
        ensures same { judge.new ≡ judge.old }
        ensures keeps { Keeps judge.old self.old self.new }
        ensures comes { LooksUpIn judge.old self.old self.new (N.tells notes.old notes.new) result }
    {
        let Some(&open) = self.calls.front() else {
            return SessionStep::Waits;
        };
        let port = &self.ports[open.target];
        if !self.to_client.bytes().is_empty() {
            return port.ends();
        }
        match port.frame() {
            Next::NeedMore => port.ends(),
            Next::TooLarge(length) => SessionStep::Halts(Halt::TooLarge(length)),
            Next::Frame(frame) => match judge.upstream(open.call, frame, &mut self.to_client) {
                UpstreamJudged::Halts(halt) => {
                    self.to_client.cut(0);
                    SessionStep::Halts(halt)
                }
                UpstreamJudged::Answers(refused) => {
                    note_answer(notes, open.target, port.taken(), refused, frame);
                    self.close_call(open.target);
                    SessionStep::Takes
                }
            },
        }
    }

    /// Lets the front frame of a target and the oldest call go.
    fn close_call(&mut self, target: usize)
        requires known { target < length self.old.ports.items }
        ensures closed { self.new ≡ without_call target self.old }
    {
        self.ports[target].take_frame();
        self.calls.pop_front();
    }

    /// Takes the client's front frame, while nothing is due to a target and a call may open.
    fn client_step<N: Notes>(&mut self, judge: &mut RouteJudge<'_>, notes: &mut N) -> SessionStep
        requires works { Works judge.old self.old }
        ensures same { judge.new ≡ judge.old }
        ensures keeps { Keeps judge.old self.old self.new }
        ensures comes { LooksDownIn judge.old self.old self.new (N.tells notes.old notes.new) result }
    {
        if !self.to_upstream.bytes().is_empty() || self.calls.len() >= self.calls.capacity() {
            return SessionStep::Waits;
        }
        let Some(waiting) = self.known else {
            return self.judge_step(judge, notes);
        };
        self.stored_step(judge, waiting, notes)
    }

    /// Continues with the client's front frame by its stored verdict.
    fn stored_step<N: Notes>(
        &mut self,
        judge: &mut RouteJudge<'_>,
        waiting: Waiting,
        notes: &mut N,
    ) -> SessionStep
        requires works { Works judge.old self.old }
        requires empty { self.old.to_upstream.bytes ≡ [] }
        requires few { length self.old.calls.items < self.old.calls.capacity }
        requires found { IsFound (rules_of judge.old).judging self.old.client.limit self.old.client.held waiting }
        ensures same { judge.new ≡ judge.old }
        ensures keeps { Keeps judge.old self.old self.new }
        ensures comes { LooksDownIn judge.old self.old self.new (N.tells notes.old notes.new) result }
    {
        match waiting {
            Waiting::Halts(halt) => SessionStep::Halts(halt),
            Waiting::Refused(cause) => self.answer_step(judge, cause, notes),
        }
    }

    /// Judges the client's front frame, and takes it or stores the verdict.
    fn judge_step<N: Notes>(&mut self, judge: &mut RouteJudge<'_>, notes: &mut N) -> SessionStep
        requires works { Works judge.old self.old }
        requires empty { self.old.to_upstream.bytes ≡ [] }
        requires few { length self.old.calls.items < self.old.calls.capacity }
        ensures same { judge.new ≡ judge.old }
        ensures keeps { Keeps judge.old self.old self.new }
        ensures comes { LooksDownIn judge.old self.old self.new (N.tells notes.old notes.new) result }
    {
        match self.client.frame() {
            Next::NeedMore => SessionStep::Waits,
            Next::TooLarge(length) => SessionStep::Halts(Halt::TooLarge(length)),
            Next::Frame(frame) => {
                let routed = judge.client(frame, &mut self.to_upstream);
                match routed.judged {
                    ClientJudged::Opens(call) => {
                        self.open_call(call, routed.target);
                        SessionStep::Takes
                    }
                    ClientJudged::Goes => {
                        self.toward = routed.target;
                        self.count_frame();
                        SessionStep::Takes
                    }
                    ClientJudged::Dropped(cause) => {
                        note_call(notes, self.client.taken(), cause, true, frame);
                        self.to_upstream.cut(0);
                        self.count_frame();
                        SessionStep::Takes
                    }
                    ClientJudged::Refused(cause) => {
                        self.to_upstream.cut(0);
                        self.known = Some(Waiting::Refused(cause));
                        self.answer_step(judge, cause, notes)
                    }
                    ClientJudged::Halts(halt) => {
                        self.to_upstream.cut(0);
                        self.known = Some(Waiting::Halts(halt));
                        SessionStep::Halts(halt)
                    }
                }
            }
        }
    }

    /// Opens a call to a target, and lets the client's front frame go.
    fn open_call(&mut self, call: Call, target: usize)
        requires few { length self.old.calls.items < self.old.calls.capacity }
        ensures calls { self.new.calls.items ≡ self.old.calls.items ++ (record { call = call; target = target }) ∷ [] }
        ensures capacity { self.new.calls.capacity ≡ self.old.calls.capacity }
        ensures others { self.new ≡ record self.old { client = without_frame self.old.client; toward = target; calls = self.new.calls; known = None } }
    {
        self.toward = target;
        self.calls.push_back(OpenCall { call, target });
        self.count_frame();
    }

    /// Lets the client's front frame go.
    fn count_frame(&mut self)
        ensures { self.new ≡ record self.old { client = without_frame self.old.client; known = None } }
    {
        self.client.take_frame();
        self.known = None;
    }

    /// Answers the client's front frame in its turn.
    fn answer_step<N: Notes>(
        &mut self,
        judge: &mut RouteJudge<'_>,
        cause: Cause,
        notes: &mut N,
    ) -> SessionStep
        requires works { Works judge.old self.old }
        requires empty { self.old.to_upstream.bytes ≡ [] }
        requires few { length self.old.calls.items < self.old.calls.capacity }
        requires found { IsFound (rules_of judge.old).judging self.old.client.limit self.old.client.held (Waiting.Refused cause) }
        ensures same { judge.new ≡ judge.old }
        ensures keeps { Keeps judge.old self.old self.new }
        ensures comes { LooksDownIn judge.old self.old self.new (N.tells notes.old notes.new) result }
    {
        if !self.calls.is_empty() || !self.to_client.bytes().is_empty() {
            return SessionStep::Waits;
        }
        if let Next::Frame(frame) = self.client.frame() {
            judge.answer(frame, cause, &mut self.to_client);
            note_call(notes, self.client.taken(), cause, false, frame);
            self.count_frame();
            return SessionStep::Takes;
        }
        SessionStep::Waits
    }

    /// Takes a frame, or says why none can be taken.
    fn step<N: Notes>(&mut self, judge: &mut RouteJudge<'_>, notes: &mut N) -> Option<Standstill>
        requires works { Works judge.old self.old }
        ensures same { judge.new ≡ judge.old }
        ensures keeps { Keeps judge.old self.old self.new }
        ensures goes { GoesOn judge.old self.old self.new (N.tells notes.old notes.new) result }
    {
        match self.upstream_step(judge, notes) {
            SessionStep::Takes => None,
            SessionStep::Halts(halt) => Some(Standstill::Upstream(halt)),
            SessionStep::Waits => match self.client_step(judge, notes) {
                SessionStep::Takes => None,
                SessionStep::Halts(halt) => Some(Standstill::Client(halt)),
                SessionStep::Waits => Some(Standstill::Waits),
            },
        }
    }

    /// Takes all that can be taken, and answers the outcome.
    fn advance<N: Notes>(
        &mut self,
        judge: &mut RouteJudge<'_>,
        notes: &mut N,
    ) -> Option<RouteOutcome>
        requires works { Works judge.old self.old }
        ensures same { judge.new ≡ judge.old }
        ensures keeps { Keeps judge.old self.old self.new }
        ensures still { IsStill (rules_of judge.old).judging self.old.client.limit self.old.calls.capacity (standing self.new) }
        ensures outcome { result ≡ outcome_of (rules_of judge.old).judging self.old.client.limit self.old.calls.capacity (standing self.new) }
        ensures fits { FitsOn judge.old self.old self.new (N.tells notes.old notes.new) (λ h. h) }
    {
        'frames: loop {
            if let Some(standstill) = self.step(judge, notes) {
                return self.ending(standstill);
            }
        }
    }

    /// The outcome where no frame can be taken.
    fn ending(&self, standstill: Standstill) -> Option<RouteOutcome>
        requires ready { IsSound self.now }
        requires asked { (halt : Halt) → standstill ≡ Standstill.Upstream halt → 0 < length self.now.calls.items }
        ensures { result ≡ with_port (standing self.now) (ending_of self.now.client.limit (as_session (standing self.now)) standstill) }
    {
        if !self.to_client.bytes().is_empty() || !self.to_upstream.bytes().is_empty() {
            return None;
        }
        match standstill {
            Standstill::Upstream(halt) => self.upstream_ending(halt),
            Standstill::Client(halt) => self.client_ending(halt),
            Standstill::Waits => self.end_ending(),
        }
    }

    /// The outcome where the target of the oldest call halts.
    fn upstream_ending(&self, halt: Halt) -> Option<RouteOutcome>
        requires ready { IsSound self.now }
        requires asked { 0 < length self.now.calls.items }
        ensures { result ≡ Some (by_port (standing self.now) (by_upstream halt (as_session (standing self.now)))) }
    {
        let target = self.calls.front()?.target;
        let port = &self.ports[target];
        if port.has_ended() && port.held() == 0 {
            return Some(RouteOutcome::UpstreamEnded(target + 1, self.calls_to(target)));
        }
        Some(RouteOutcome::UpstreamFault(target + 1, port.taken().saturating_add(1), halt))
    }

    /// How many of the open calls went to a target.
    fn calls_to(&self, target: usize) -> u64
        ensures { result ≡ calls_to target self.now.calls.items }
    {
        self.calls
            .iter()
            .filter(|open| open.target == target)
            .count() as u64
    }

    /// The outcome where the client halts: none while a call is open.
    fn client_ending(&self, halt: Halt) -> Option<RouteOutcome>
        ensures { result ≡ (if is_none self.now.calls.items then Some (RouteOutcome.ClientFault (told (self.now.client.taken + 1)) halt) else None) }
    {
        if self.calls.is_empty() {
            Some(RouteOutcome::ClientFault(self.client.taken().saturating_add(1), halt))
        } else {
            None
        }
    }

    /// The outcome where no frame waits: none while a call is open or the client may send more.
    fn end_ending(&self) -> Option<RouteOutcome>
        requires ready { IsSound self.now }
        ensures { let s = standing self.now in
            result ≡ with_port s (if is_none s.calls then by_client self.now.client.limit (as_session s) Waits else None) }
    {
        if !self.calls.is_empty() || !self.client.has_ended() {
            return None;
        }
        if self.client.held() > 0 {
            let number = self.client.taken().saturating_add(1);
            return Some(RouteOutcome::ClientFault(number, Halt::Inside));
        }
        Some(self.clean_ending())
    }

    /// The outcome once the client has ended at a frame's end and each call was answered.
    fn clean_ending(&self) -> RouteOutcome
        ensures { result ≡ unasked self.now.ports.items }
    {
        match self.unasked_target() {
            Some(target) => {
                let calls = self.ports[target].taken();
                RouteOutcome::Unsolicited {
                    port: target + 1,
                    answer: calls.saturating_add(1),
                    calls,
                }
            }
            None => RouteOutcome::Clean,
        }
    }

    /// The first target of which a frame is held.
    fn unasked_target(&self) -> Option<usize>
        ensures exact { result ≡ position holds_frame self.now.ports.items }
        ensures within { IfSome result (λ at. at < length self.now.ports.items) }
    {
        self.ports.iter().position(|port| port.holds_frame())
    }

    /// Takes all that can be taken, and keeps the outcome.
    pub fn settle<N: Notes>(&mut self, judge: &mut RouteJudge<'_>, notes: &mut N)
        requires works { Works judge.old self.old }
        ensures same { judge.new ≡ judge.old }
        ensures keeps { Keeps judge.old self.old self.new }
        ensures settled { IsSettledBy judge.old self.old self.new }
        ensures fits { FitsOn judge.old self.old self.new (N.tells notes.old notes.new) (λ h. h) }
    {
        self.outcome = self.advance(judge, notes);
    }

    /// Takes bytes of a port, as long as there is room and no outcome.
    pub fn take<N: Notes>(
        &mut self,
        judge: &mut RouteJudge<'_>,
        port: usize,
        bytes: &[u8],
        notes: &mut N,
    ) -> usize
        requires works { Works judge.old self.old }
        requires settled { IsSettledBy judge.old self.old self.old }
        requires port { port ≤ length self.old.ports.items }
        ensures same { judge.new ≡ judge.old }
        ensures keeps { Keeps judge.old self.old self.new }
        ensures settled { IsSettledBy judge.old self.old self.new }
        ensures count { result ≤ length bytes.now }
        ensures fits { FitsOn judge.old self.old self.new (N.tells notes.old notes.new) (λ h. and_received port h (take result bytes.now)) }
        ensures fewer { result < length bytes.now →
            TakesNoMore self.old.client.limit (inbox_in port self.new).held (inbox_in port self.old).ended self.new.outcome }
        ensures whole { length bytes.now ≤ room_of self.old.client.limit (standing self.old) (is_some self.old.outcome) port → result ≡ length bytes.now }
        ensures ended { (inbox_in port self.old).ended ≡ true → result ≡ 0 }
        ensures over { is_some self.old.outcome ≡ true → result ≡ 0 }
    {
        if self.port(port).has_ended() || self.outcome.is_some() {
            return 0;
        }
        frame_stands_at_the_front();
        let mut taken = 0;
        'pieces: while taken < bytes.len() && self.outcome.is_none() && self.port(port).room() > 0 {
            taken += self.feed(port, &bytes[taken..]);
            self.settle(judge, notes);
        }
        taken
    }

    /// Takes as many of these bytes of a port as there is room for, and says how many.
    fn feed(&mut self, port: usize, bytes: &[u8]) -> usize
        requires { port ≤ length self.old.ports.items }
        ensures count { let inbox = inbox_in port self.old in result ≡ min (length bytes.now) (inbox.limit + 4 - length inbox.held) }
        ensures fed { self.new ≡ with_inbox_in port (fed (inbox_in port self.old) (take result bytes.now)) self.old }
    {
        if port == 0 {
            self.client.feed(bytes)
        } else {
            self.ports[port - 1].feed(bytes)
        }
    }

    /// So many of the bytes that were due to a port were sent. While some are left, no more can be taken than before.
    pub fn sent<N: Notes>(
        &mut self,
        judge: &mut RouteJudge<'_>,
        port: usize,
        n: usize,
        notes: &mut N,
    )
        requires works { Works judge.old self.old }
        requires due { n ≤ length (due_to port (standing self.old)) }
        requires settled { IsSettledBy judge.old self.old self.old }
        ensures same { judge.new ≡ judge.old }
        ensures keeps { Keeps judge.old self.old self.new }
        ensures settled { IsSettledBy judge.old self.old self.new }
        ensures fits { FitsOn judge.old self.old self.new (N.tells notes.old notes.new) (λ h. and_sent port h (take n (due_to port (standing self.old)))) }
    {
        self.let_go(port, n);
        if self.due(port).is_empty() {
            self.settle(judge, notes);
        }
    }

    /// Lets so many of the bytes go that were due to a port.
    fn let_go(&mut self, port: usize, n: usize)
        requires { n ≤ length (due_to port (standing self.old)) }
        ensures { self.new ≡ let_go_in port n self.old }
    {
        match port {
            0 => self.to_client.drop_front(n),
            _ if self.toward == port - 1 => self.to_upstream.drop_front(n),
            _ => {}
        }
    }

    /// A port sends nothing more.
    pub fn end<N: Notes>(&mut self, judge: &mut RouteJudge<'_>, port: usize, notes: &mut N)
        requires works { Works judge.old self.old }
        requires port { port ≤ length self.old.ports.items }
        ensures same { judge.new ≡ judge.old }
        ensures keeps { Keeps judge.old self.old self.new }
        ensures settled { IsSettledBy judge.old self.old self.new }
        ensures fits { FitsOn judge.old self.old self.new (N.tells notes.old notes.new) (λ h. and_ended port h) }
    {
        self.mark_ended(port);
        self.settle(judge, notes);
    }

    fn mark_ended(&mut self, port: usize)
        requires { port ≤ length self.old.ports.items }
        ensures { self.new ≡ with_inbox_in port (ended (inbox_in port self.old)) self.old }
    {
        if port == 0 {
            self.client.end();
        } else {
            self.ports[port - 1].end();
        }
    }

    /// How many bytes are held in all.
    pub fn held(&self) -> usize
        requires { IsSound self.now }
        ensures exact { result ≡ bytes_held self.now.client.limit (standing self.now) self.now.outcome }
        ensures within { result ≤ most_held self.now.client.limit self.now.calls.capacity (length self.now.ports.items) }
    {
        let rooms = 26 * (self.client.held() + self.client.room() - 4);
        if self.outcome.is_some() {
            return rooms;
        }
        let held = self.client.held() + self.held_of_all();
        let due = self.to_client.bytes().len() + self.to_upstream.bytes().len();
        rooms + held + due + 32 * self.calls.len()
    }

    /// The bytes held of all targets.
    fn held_of_all(&self) -> usize
        requires { IsSound self.now }
        ensures exact { result ≡ held_of_all self.now.ports.items }
        ensures within { result ≤ length self.now.ports.items * (self.now.client.limit + 4) }
    {
        let mut held = 0;
        'targets: for target in 0..self.ports.len() {
            held += self.ports[target].held();
        }
        held
    }

    /// The bytes that are due to a port.
    pub fn due(&self, port: usize) -> &[u8]
        ensures { result.now ≡ due_to port (standing self.now) }
    {
        match port {
            0 => self.to_client.bytes(),
            _ if self.toward == port - 1 => self.to_upstream.bytes(),
            _ => &[],
        }
    }

    /// How many more bytes of a port can be taken.
    pub fn room(&self, port: usize) -> usize
        requires ready { IsSound self.now }
        requires port { port ≤ length self.now.ports.items }
        ensures { result ≡ room_of self.now.client.limit (standing self.now) (is_some self.now.outcome) port }
    {
        let port = self.port(port);
        if port.has_ended() || self.outcome.is_some() {
            0
        } else {
            port.room()
        }
    }
}

/// What is held for the client and for the upstreams: both with so much room, and empty.
///
/// `OutOfMemory`: the memory for them was not found.
fn open_outputs(alloc: Global, room: usize) -> Result<(Out, Out), OutOfMemory>
    ensures to_client { IfOk result (λ made. (made.0.bytes ≡ []) × (made.0.room ≡ room)) }
    ensures to_upstream { IfOk result (λ made. (made.1.bytes ≡ []) × (made.1.room ≡ room)) }
{
    let to_client = Out::open(alloc, room)?;
    let to_upstream = Out::open(alloc, room)?;
    Ok((to_client, to_upstream))
}

/// What is held of the client, and of so many targets.
///
/// `OutOfMemory`: the memory for them was not found.
fn open_inboxes(
    alloc: Global,
    limit: usize,
    targets: usize,
) -> Result<(Port, Vec<Port>), OutOfMemory>
    requires limit { limit < 2 ^ 31 }
    ensures client { IfOk result (λ made. made.0 ≡ silent limit) }
    ensures ports { IfOk result (λ made. made.1.items ≡ replicate targets (silent limit)) }
{
    let client = Port::open(alloc, limit)?;
    let ports = open_ports(alloc, limit, targets)?;
    Ok((client, ports))
}

/// The ports of so many targets.
///
/// `OutOfMemory`: the memory for them was not found.
fn open_ports(alloc: Global, limit: usize, targets: usize) -> Result<Vec<Port>, OutOfMemory>
    requires limit { limit < 2 ^ 31 }
    ensures { IfOk result (λ ports. ports.items ≡ replicate targets (silent limit)) }
{
    let mut ports = Vec::with_capacity(alloc, targets)?;
    'targets: while ports.len() < targets {
        ports.push(Port::open(alloc, limit)?)?;
    }
    Ok(ports)
}
