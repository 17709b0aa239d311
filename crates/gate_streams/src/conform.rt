//! A frame that is checked: whether its message meets what is declared of it.
ghost use Rattle.std.specs.Prelude.{◌≡◌, ◌+◌, ◌^◌, ◌<◌, ◌≤◌, ◌++◌, IfOk, length};
ghost use Rattle.message_show.specs.Shown.{IsService};
ghost use Rattle.conform_check.specs.Checking.{IsChecked};
ghost use Rattle.gate_streams.specs.Findings.{finding};
ghost use Rattle.translate_verdicts.specs.declared.verdict.Cause.TheVariants.{Grammar};
ghost use Rattle.gate_streams.specs.Handling.{Fails, as_found, is_passed, bytes_for, line_for};
ghost use Rattle.gate_streams.specs.Terms.{found_by};

use crate::lines::{self, LINE_ROOM, MEETS_ROOM};
use crate::task::Task;
use binary_protocol::BinaryRead;
use compact_protocol::CompactRead;
use conform_check::{Check, Checked, Step};
use gate_base::OutOfMemory;
use gate_io::Out;
use json_protocol::JsonRead;
use protocol_traits::{DEPTH, Fault, Proto};
use std::alloc::Global;
use translate_verdicts::Cause;
use type_tables::{Schema, ServiceId};

/// A check of frames of one protocol.
#[derive(Drop)]
pub struct FrameCheck<'s> {
    pub from: Proto,
    pub check: Check<'s>,
}

impl<'s> FrameCheck<'s> {
    /// A check of frames of this protocol by this schema.
    ///
    /// `OutOfMemory`: the room for it was not found.
    pub fn open(
        alloc: Global,
        schema: &'s Schema,
        from: Proto,
    ) -> Result<FrameCheck<'s>, OutOfMemory>
        ensures from { IfOk result (λ c. c.from ≡ from) }
        ensures schema { IfOk result (λ c. c.check.schema ≡ schema.now) }
    {
        let check = Check::open(alloc, schema)?;
        Ok(FrameCheck { from, check })
    }

    /// What is found of a frame. Names without a service before them are those of `service`, which is of the schema.
    #[tactic(auto, unfolding(crate::specs::Findings::finding))]
    pub fn find(&mut self, service: Option<ServiceId>, frame: &[u8], room: &mut [u8]) -> Checked
        requires service { IsService self.old.check.schema service }
        requires room { length frame.now ≤ length room.old }
        requires size { length frame.now < 2 ^ 31 }
        ensures exact { IsChecked result self.new.check.path (finding self.old.check.schema service self.old.from frame.now) }
        ensures schema { self.new.check.schema ≡ self.old.check.schema }
        ensures from { self.new.from ≡ self.old.from }
    {
        match self.from {
            Proto::Binary => self.check.check::<BinaryRead>(service, frame, room),
            Proto::Compact => self.check.check::<CompactRead>(service, frame, room),
            Proto::Json => self.check.check::<JsonRead>(service, frame, room),
        }
    }

    /// The path of the breach that was found last.
    fn path(&self) -> &[Step]
        ensures path { result.now ≡ self.now.check.path }
        ensures short { length result.now ≤ DEPTH }
    {
        self.check.path()
    }
}

/// Writes that a frame's message meets what is declared of it, or reports how it doesn't or which fault stands in the frame. Answers whether it
/// meets it.
pub fn conform_frame(
    task: &Task<'_>,
    check: &mut FrameCheck<'_>,
    frame: &[u8],
    number: u64,
    room: &mut [u8],
    page: &mut Out,
    lines: &mut Out,
) -> bool
    requires schema { check.old.check.schema ≡ task.now.declarations }
    requires room { length frame.now ≤ length room.old }
    requires size { length frame.now < 2 ^ 31 }
    requires fits { length page.old.bytes + MEETS_ROOM ≤ page.old.room }
    requires line { length lines.old.bytes + LINE_ROOM ≤ lines.old.room }
    ensures passed { result ≡ is_passed (as_found (found_by task.now check.old.from frame.now)) }
    ensures written { page.new ≡ record page.old { bytes = page.old.bytes ++ bytes_for number (as_found (found_by task.now check.old.from frame.now)) } }
    ensures reported { lines.new ≡ record lines.old { bytes = lines.old.bytes ++ line_for number (as_found (found_by task.now check.old.from frame.now)) } }
    ensures schema { check.new.check.schema ≡ check.old.check.schema }
    ensures from { check.new.from ≡ check.old.from }
{
    match task.check(check, frame, room) {
        Checked::Meets => {
            lines::meets(page, number);
            true
        }
        Checked::Broken(breach) => {
            lines::breach(lines, number, check.path(), breach);
            false
        }
        Checked::Refused(fault) => {
            report(lines, number, fault);
            false
        }
        Checked::Unread(fault) => {
            report(lines, number, fault);
            false
        }
    }
}

// Reports the fault that stands in a frame.
fn report(lines: &mut Out, number: u64, fault: Fault)
    requires { length lines.old.bytes + LINE_ROOM ≤ lines.old.room }
    ensures { lines.new ≡ record lines.old { bytes = lines.old.bytes ++ line_for number (Fails (Grammar fault)) } }
{
    let cause = Cause::Grammar(fault);
    lines::refusal(lines, number, cause.place(), cause.text());
}
