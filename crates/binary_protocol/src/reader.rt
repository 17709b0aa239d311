//! The reader: a frame, a place in it and the open levels.
ghost use Rattle.std.specs.Prelude.{◌≡◌, ◌<◌, ◌≤◌, ◌+◌, ◌^◌, Some, length, IfOk};
ghost use Rattle.thrift_value.specs.Items.{item_of};
ghost use Rattle.protocol_traits.specs.declared.nest.TheConstants.{DEPTH};
ghost use Rattle.protocol_traits.specs.Heads.{header_of};
ghost use Rattle.protocol_traits.specs.Stack.{first_of};
ghost use Rattle.protocol_traits.specs.Follow.{depth_after};
ghost use Rattle.protocol_traits.specs.Room.{IsSized};
ghost use Rattle.protocol_traits.specs.Steps.{Answers};

use crate::head::{head_at, name_place};
use crate::scan::item_in;
use protocol_traits::{Fault, Head, Nest, Reason, Slot, fault_at, follow_in};
use std::marker::Model;
use thrift_value::Event;

/// A reader of the Binary protocol over one frame. Texts are lent from the frame.
#[derive(Drop)]
pub struct BinaryRead<'f> {
    frame: &'f [u8],
    place: usize,
    value: usize,
    nest: Nest,
}

/// Clauses see the frame, the places and the open levels.
impl<'f> Model for BinaryRead<'f> {
    ghost use Rattle.std.specs.Prelude.{◌<◌, ◌≤◌, ◌^◌, length};
    ghost use Rattle.binary_protocol.specs.Reading.{State};

    ghost Value = { State };

    ghost view = { λ r. record { frame = r.frame.now; place = r.place; value = r.value; nest = r.nest } };

    ghost invariant = { λ r. (r.place ≤ length r.frame.now) × (length r.frame.now < 2 ^ 31) };
}

impl<'f> BinaryRead<'f> {
    ghost use Rattle.binary_protocol.specs.Reading.{begun, reads, reads_head, reads_end};

    /// The reader before the header.
    #[inline(always)]
    pub fn open(frame: &'f [u8]) -> BinaryRead<'f>
        requires { length frame.now < 2 ^ 31 }
        ensures { result ≡ begun frame.now }
    {
        BinaryRead {
            frame,
            place: 0,
            value: 0,
            nest: Nest::new(Slot::Fields(0)),
        }
    }

    /// The header, or the fault that stands in it.
    #[tactic(auto, unfolding(crate::specs::Reading::reads_head))]
    pub fn read_head(&mut self) -> Result<Head<'f>, Fault>
        ensures exact { Answers header_of result self.new (reads_head self.old) }
        ensures sized { IfOk result (λ h. length h.name.now < 2 ^ 31) }
    {
        let frame = self.frame;
        let rest = &frame[self.place..];
        match head_at(rest) {
            Ok((head, taken)) => {
                self.value = self.place + name_place(rest);
                self.place += taken;
                self.nest.restart(Slot::Fields(0));
                Ok(head)
            }
            Err(f) => Err(fault_at(self.place + f.place, f.reason)),
        }
    }

    /// The next event of the body, or the fault that stands in it.
    #[inline(always)]
    pub fn read(&mut self) -> Result<Event<'f>, Fault>
        ensures exact { Answers item_of result self.new (reads self.old) }
        ensures sized { IfOk result (λ e. IsSized (item_of e)) }
        ensures shallow { IfOk result (λ e. depth_after (item_of e) (length self.old.nest) ≤ DEPTH) }
    {
        let Some(level) = self.nest.top() else {
            return Err(fault_at(self.place, Reason::Trailing));
        };
        self.read_in(level)
    }

    /// `read` where the innermost level is known, so that what depends on the level alone is settled by the caller.
    #[inline(always)]
    pub fn read_in(&mut self, level: Slot) -> Result<Event<'f>, Fault>
        requires level { first_of self.old.nest ≡ Some level }
        ensures exact { Answers item_of result self.new (reads self.old) }
        ensures sized { IfOk result (λ e. IsSized (item_of e)) }
        ensures shallow { IfOk result (λ e. depth_after (item_of e) (length self.old.nest) ≤ DEPTH) }
    {
        let frame = self.frame;
        let rest = &frame[self.place..];
        match item_in(self.nest.depth(), level, rest) {
            Ok((event, taken)) => {
                follow_in(&mut self.nest, level, &event);
                self.value = self.place;
                self.place += taken;
                Ok(event)
            }
            Err(f) => Err(fault_at(self.place + f.place, f.reason)),
        }
    }

    /// The innermost open level; None behind the body.
    #[inline(always)]
    pub fn open_level(&self) -> Option<Slot>
        ensures { result ≡ first_of self.now.nest }
    {
        self.nest.top()
    }

    /// Where the last item began; after the header, where the name began.
    #[inline(always)]
    pub fn value_place(&self) -> usize
        ensures { result ≡ self.now.value }
    {
        self.value
    }

    /// Whether the message is whole and nothing follows, or the fault that says otherwise.
    #[inline(always)]
    #[tactic(auto, unfolding(crate::specs::Reading::reads_end))]
    pub fn read_end(&mut self) -> Result<(), Fault>
        ensures { Answers (λ u. u) result self.new (reads_end self.old) }
    {
        if self.nest.depth() != 0 {
            return Err(fault_at(self.frame.len(), Reason::Truncated));
        }
        if self.place != self.frame.len() {
            return Err(fault_at(self.place, Reason::Trailing));
        }
        Ok(())
    }
}
