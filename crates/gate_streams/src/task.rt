//! What is done with the messages of a stream, and by which declarations.
ghost use Rattle.std.specs.Prelude.{◌≡◌, ◌+◌, ◌^◌, ◌<◌, ◌≤◌, IfOk, IfSome, true, false, length, nat_lt, take};
ghost use Rattle.gate_base.specs.Causes.{Rose};
ghost use Rattle.translate_verdicts.specs.Judged.{IsJudged};
ghost use Rattle.translate_verdicts.specs.declared.verdict.HeadInfo.{HeadInfo};
ghost use Rattle.translate_verdicts.specs.declared.verdict.Verdict.TheVariants.{Passed};
ghost use Rattle.translate_known.specs.Laid.{IsLaid};
ghost use Rattle.message_show.specs.Shown.{IsShown};
ghost use Rattle.conform_check.specs.Checking.{IsChecked};
ghost use Rattle.gate_streams.specs.Rooms.{translated_room};
ghost use Rattle.gate_streams.specs.Terms.{terms, judged_by, shown_by, found_by};

use crate::conform::FrameCheck;
use conform_check::Checked;
use gate_base::OutOfMemory;
use gate_io::{Out, Sink};
use line_transport::Transport;
use message_show::{Shown, show};
use protocol_pairs::{Pair, translate_by_events, translate_quickly};
use protocol_traits::Proto;
use std::alloc::Global;
use std::marker::Model;
use translate_known::Habit;
use translate_verdicts::{Route, Verdict};
use type_tables::{Schema, ServiceId};

/// What is done with each frame.
#[derive(Clone, Copy)]
pub enum Doing {
    /// Its message is translated from one protocol to the other.
    Convert { from: Proto, to: Proto },
    /// Its message in this protocol is shown as a line.
    Show { from: Proto },
    /// Its message in this protocol is checked against what is declared of it.
    Conform { from: Proto },
}

/// What is done with each frame of a stream, with what is declared for its messages.
#[derive(Drop)]
pub struct Task<'s> {
    schema: &'s Schema,
    service: Option<ServiceId>,
    doing: Doing,
    limit: usize,
    input: Transport,
    output: Transport,
}

impl<'s> Model for Task<'s> {
    ghost use Rattle.std.specs.Prelude.{◌<◌, IfSome, length};
    ghost use Rattle.gate_streams.specs.Terms.{Terms, terms};

    ghost Value = { Terms };

    ghost view = { λ t. terms t.schema.now t.service t.doing t.limit t.input t.output };

    ghost invariant = { λ t. IfSome t.service (λ s. s.0 < length t.schema.now.services) };
}

impl<'s> Task<'s> {
    /// A task for messages of at most `limit` bytes, in which names without a service before them are those of this service
    /// of the schema, with how they stand on the input and on the output.
    pub fn new(
        schema: &'s Schema,
        service: Option<ServiceId>,
        doing: Doing,
        limit: usize,
        input: Transport,
        output: Transport,
    ) -> Task<'s>
        requires { IfSome service (λ s. s.0 < length schema.now.services) }
        ensures { result ≡ terms schema.now service doing limit input output }
    {
        Task {
            schema,
            service,
            doing,
            limit,
            input,
            output,
        }
    }

    /// The most bytes of a frame.
    pub fn limit(&self) -> usize
        ensures { result ≡ self.now.limit }
    {
        self.limit
    }

    /// How messages stand on the input.
    pub fn input(&self) -> Transport
        ensures { result ≡ self.now.input }
    {
        self.input
    }

    /// How messages stand on the output.
    pub fn output(&self) -> Transport
        ensures { result ≡ self.now.output }
    {
        self.output
    }

    /// What is done with a frame.
    pub fn doing(&self) -> Doing
        ensures { result ≡ self.now.doing }
    {
        self.doing
    }

    /// Whether a frame's translation was appended by the quick way. False: `out` is as it was, which says nothing of the
    /// frame. `habit` is kept from frame to frame.
    #[inline(always)]
    pub fn passes(
        &self,
        from: Proto,
        to: Proto,
        frame: &[u8],
        room: &mut [u8],
        habit: &mut Habit,
        out: &mut Out,
    ) -> bool
        requires room { length frame.now ≤ length room.old }
        requires size { length frame.now < 2 ^ 31 }
        requires fits { length out.old.bytes + translated_room (length frame.now) ≤ out.old.room }
        ensures left { result ≡ false → out.new ≡ out.old }
        ensures room { out.new.room ≡ out.old.room }
        ensures short { length out.new.bytes ≤ length out.old.bytes + translated_room (length frame.now) }
        ensures passes { result ≡ true → (info : HeadInfo) × IsJudged (Passed info) out.old.bytes out.new.bytes (judged_by self.now from to frame.now) }
    {
        let route = Route::ByName(self.service);
        translate_quickly::<bool>(self.schema, route, from, to, frame, room, habit, out)
    }

    /// Lays a frame's translation into the front of cells by the quick way of this pair, and answers how many it took. `None`
    /// says nothing of the frame.
    #[inline(always)]
    pub fn lay<P: Pair>(&self, frame: &[u8], room: &mut [u8], cells: &mut [u8]) -> Option<usize>
        requires room { length frame.now ≤ length room.old }
        requires size { length frame.now < 2 ^ 31 }
        requires cells { translated_room (length frame.now) ≤ length cells.old }
        ensures kept { length cells.new ≡ length cells.old }
        ensures short { IfSome result (λ n. n ≤ translated_room (length frame.now)) }
        ensures passes { IfSome result (λ n. IsLaid (take n cells.new) (judged_by self.now P.from P.to frame.now)) }
    {
        P::lay(self.schema, Route::ByName(self.service), frame, room, cells)
    }

    /// Whether some name means a service in the root file.
    #[inline(always)]
    pub fn names_services(&self) -> bool
        ensures { result ≡ nat_lt 0 (length self.now.declarations.names) }
    {
        self.schema.names_services()
    }

    /// Translates a frame that the quick way didn't pass to the end of `out`, or leaves `out` as it was.
    pub fn translate(
        &self,
        from: Proto,
        to: Proto,
        frame: &[u8],
        room: &mut [u8],
        out: &mut Out,
    ) -> Verdict
        requires room { length frame.now ≤ length room.old }
        requires size { length frame.now < 2 ^ 31 }
        requires fits { length out.old.bytes + translated_room (length frame.now) ≤ out.old.room }
        ensures exact { IsJudged result out.old.bytes out.new.bytes (judged_by self.now from to frame.now) }
        ensures room { out.new.room ≡ out.old.room }
        ensures short { length out.new.bytes ≤ length out.old.bytes + translated_room (length frame.now) }
    {
        let route = Route::ByName(self.service);
        translate_by_events(self.schema, route, from, to, frame, room, out)
    }

    /// Writes the line of a frame, or nothing where it is no message.
    pub fn show<O: Sink>(&self, from: Proto, frame: &[u8], room: &mut [u8], output: &mut O) -> Shown
        requires room { length frame.now ≤ length room.old }
        requires size { length frame.now < 2 ^ 31 }
        ensures exact { IsShown result (O.written output.old) (O.written output.new) (shown_by self.now from frame.now) }
        ensures later { O.faults output.old ≤ O.faults output.new }
        ensures cause { result ≡ Shown.WriteFault → Rose (O.faults output.old) (O.faults output.new) }
    {
        show(self.schema, self.service, from, frame, room, output)
    }

    /// A check of frames of this protocol by what is declared.
    ///
    /// `OutOfMemory`: the room for it was not found.
    pub fn open_check(&self, alloc: Global, from: Proto) -> Result<FrameCheck<'s>, OutOfMemory>
        ensures from { IfOk result (λ c. c.from ≡ from) }
        ensures schema { IfOk result (λ c. c.check.schema ≡ self.now.declarations) }
    {
        FrameCheck::open(alloc, self.schema, from)
    }

    /// What is found of a frame by a check that the task opened.
    pub fn check(&self, check: &mut FrameCheck<'_>, frame: &[u8], room: &mut [u8]) -> Checked
        requires schema { check.old.check.schema ≡ self.now.declarations }
        requires room { length frame.now ≤ length room.old }
        requires size { length frame.now < 2 ^ 31 }
        ensures exact { IsChecked result check.new.check.path (found_by self.now check.old.from frame.now) }
        ensures schema { check.new.check.schema ≡ check.old.check.schema }
        ensures from { check.new.from ≡ check.old.from }
    {
        check.find(self.service, frame, room)
    }
}
