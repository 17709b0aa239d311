//! The reader: a frame, a place in it and the open levels.
ghost use Rattle.std.specs.Prelude.{◌≡◌, ◌≤◌, ◌<◌, ◌^◌, length, IfOk, false};
ghost use Rattle.thrift_value.specs.Items.{item_of};
ghost use Rattle.protocol_traits.specs.declared.nest.TheConstants.{DEPTH};
ghost use Rattle.protocol_traits.specs.Heads.{header_of};
ghost use Rattle.protocol_traits.specs.Stack.{first_of};
ghost use Rattle.protocol_traits.specs.Follow.{depth_after};
ghost use Rattle.protocol_traits.specs.Room.{IsSized};
ghost use Rattle.protocol_traits.specs.Steps.{Answers};

use crate::numbers::string_behind;
use crate::scan::{flag_of, front_at, item_in};
use protocol_traits::{Fault, Head, Nest, Reason, Slot, fault_at, follow};
use std::marker::Model;
use thrift_value::Event;

/// A reader of one frame of the Compact protocol.
#[derive(Drop)]
pub struct CompactRead<'f> {
    frame: &'f [u8],
    place: usize,
    value: usize,
    /// What the last item's byte tells if it began a bool field.
    flag: bool,
    nest: Nest,
}

/// Clauses see the frame, the places, the flag and the open levels.
impl<'f> Model for CompactRead<'f> {
    ghost use Rattle.std.specs.Prelude.{◌<◌, ◌≤◌, ◌^◌, length};
    ghost use Rattle.protocol_traits.specs.declared.nest.TheConstants.{DEPTH};
    ghost use Rattle.compact_protocol.specs.Reading.{State};

    ghost Value = { State };

    ghost view = { λ r. record { frame = r.frame.now; place = r.place; value = r.value; flag = r.flag; nest = r.nest } };

    ghost invariant = { λ r. (r.place ≤ length r.frame.now) × (length r.frame.now < 2 ^ 31) × (length r.nest ≤ DEPTH) };
}

impl<'f> CompactRead<'f> {
    ghost use Rattle.compact_protocol.specs.Reading.{begun, reads, reads_head, reads_end};

    /// The reader before the header.
    pub fn open(frame: &'f [u8]) -> CompactRead<'f>
        requires { length frame.now < 2 ^ 31 }
        ensures { result ≡ begun frame.now }
    {
        CompactRead {
            frame,
            place: 0,
            value: 0,
            flag: false,
            nest: Nest::new(Slot::Fields(0)),
        }
    }

    /// The header, or the fault that stands in it.
    #[tactic(auto, unfolding(crate::specs::Reading::reads_head))]
    pub fn read_head(&mut self) -> Result<Head<'f>, Fault>
        ensures exact { Answers header_of result self.new (reads_head self.old) }
        ensures sized { IfOk result (λ h. length h.name.now < 2 ^ 31) }
    {
        let frame = self.frame;
        let rest = &frame[self.place..];
        let ((mtype, seq), at) = match front_at(rest) {
            Ok(found) => found,
            Err(f) => return Err(fault_at(self.place + f.place, f.reason)),
        };
        match string_behind(rest, at) {
            Ok((name, taken)) => {
                self.value = self.place + at;
                self.place += taken;
                self.flag = false;
                self.nest.restart(Slot::Fields(0));
                Ok(Head { name, mtype, seq })
            }
            Err(f) => Err(fault_at(self.place + f.place, f.reason)),
        }
    }

    /// The next event of the body, or the fault that stands in it.
    #[inline(always)]
    pub fn read(&mut self) -> Result<Event<'f>, Fault>
        ensures exact { Answers item_of result self.new (reads self.old) }
        ensures sized { IfOk result (λ e. IsSized (item_of e)) }
        ensures shallow { IfOk result (λ e. depth_after (item_of e) (length self.old.nest) ≤ DEPTH) }
    {
        let frame = self.frame;
        let rest = &frame[self.place..];
        let slot = match self.nest.top() {
            Some(slot) => slot,
            None => return Err(fault_at(self.place, Reason::Trailing)),
        };
        match item_in(self.nest.depth(), slot, self.flag, rest) {
            Ok((event, taken)) => {
                follow(&mut self.nest, &event);
                self.flag = flag_of(rest);
                self.value = self.place;
                self.place += taken;
                Ok(event)
            }
            Err(f) => Err(fault_at(self.place + f.place, f.reason)),
        }
    }

    /// The innermost open level; None behind the body.
    #[inline(always)]
    pub fn open_level(&self) -> Option<Slot>
        ensures { result ≡ first_of self.now.nest }
    {
        self.nest.top()
    }

    /// Where the last value began; after the header, where the name began.
    #[inline(always)]
    pub fn value_place(&self) -> usize
        ensures { result ≡ self.now.value }
    {
        self.value
    }

    /// Whether the message is whole and nothing follows, or the fault that says otherwise.
    #[inline(always)]
    #[tactic(auto, unfolding(crate::specs::Reading::reads_end))]
    pub fn read_end(&mut self) -> Result<(), Fault>
        ensures { Answers (λ u. u) result self.new (reads_end self.old) }
    {
        if self.nest.depth() != 0 {
            return Err(fault_at(self.frame.len(), Reason::Truncated));
        }
        if self.place != self.frame.len() {
            return Err(fault_at(self.place, Reason::Trailing));
        }
        Ok(())
    }
}
