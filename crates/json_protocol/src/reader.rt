//! The reader: a frame, a place in it, the open levels and the room for its strings.
ghost use Rattle.std.specs.Prelude.{◌≡◌, ◌<◌, ◌≤◌, ◌+◌, ◌^◌, length, IfOk};
ghost use Rattle.thrift_value.specs.Items.{item_of};
ghost use Rattle.protocol_traits.specs.declared.nest.TheConstants.{DEPTH};
ghost use Rattle.protocol_traits.specs.Heads.{header_of};
ghost use Rattle.protocol_traits.specs.Steps.{Answers};
ghost use Rattle.protocol_traits.specs.Stack.{first_of};
ghost use Rattle.protocol_traits.specs.Follow.{depth_after};
ghost use Rattle.protocol_traits.specs.Room.{IsSized};
ghost use Rattle.json_protocol.specs.Head.{reads_head, reads_end};

use crate::head::{end_scan, head_at};
use crate::item::led;
use crate::opening::{Opening, opening_after};
use crate::room::Room;
use protocol_traits::{Fault, Head, Hint, Nest, Reason, Slot, fault_at, follow};
use std::marker::Model;
use thrift_value::Event;

/// A reader of TJSON over one frame.
#[derive(Drop)]
pub struct JsonRead<'f> {
    frame: &'f [u8],
    place: usize,
    value: usize,
    nest: Nest,
    opening: Opening,
    room: Room<'f>,
}

/// Clauses see the frame, the places in it and the open levels. The room is always as long as what is left of the frame.
impl<'f> Model for JsonRead<'f> {
    ghost use Rattle.std.specs.Prelude.{◌<◌, ◌≤◌, ◌+◌, ◌^◌, length};
    ghost use Rattle.protocol_traits.specs.declared.nest.TheConstants.{DEPTH};
    ghost use Rattle.json_protocol.specs.Reading.{State};

    ghost Value = { State };

    ghost view = { λ r. record { frame = r.frame.now; place = r.place; value = r.value; nest = r.nest; opening = r.opening } };

    ghost invariant = { λ r. (r.place ≤ length r.frame.now) × (length r.frame.now < 2 ^ 31) × (length r.nest ≤ DEPTH) × (length r.frame.now ≤ r.place + r.room) };
}

impl<'f> JsonRead<'f> {
    ghost use Rattle.json_protocol.specs.Reading.{State, reads, begun};

    pub(crate) fn open(frame: &'f [u8], room: &'f mut [u8]) -> JsonRead<'f>
        requires size { length frame.now < 2 ^ 31 }
        requires room { length frame.now ≤ length room.old }
        ensures { result ≡ begun frame.now }
    {
        JsonRead {
            frame,
            place: 0,
            value: 0,
            nest: Nest::new(Slot::Fields(0)),
            opening: Opening::Body,
            room: Room::new(room),
        }
    }

    pub(crate) fn read(&mut self, hint: Hint) -> Result<Event<'f>, Fault>
        ensures exact { Answers item_of result self.new (reads self.old hint) }
        ensures sized { IfOk result (λ e. IsSized (item_of e)) }
        ensures shallow { IfOk result (λ e. depth_after (item_of e) (length self.old.nest) ≤ DEPTH) }
    {
        let frame = self.frame;
        let slot = match self.nest.top() {
            Some(slot) => slot,
            None => return Err(fault_at(self.place, Reason::Trailing)),
        };
        match led(
            self.nest.depth(),
            self.opening,
            hint,
            slot,
            &frame[self.place..],
            &mut self.room,
        ) {
            Ok(((event, lead), taken)) => {
                follow(&mut self.nest, &event);
                self.opening = opening_after(&event);
                self.value = self.place + lead;
                self.place += taken;
                Ok(event)
            }
            Err(f) => Err(fault_at(self.place + f.place, f.reason)),
        }
    }

    pub(crate) fn open_level(&self) -> Option<Slot>
        ensures { result ≡ first_of self.now.nest }
    {
        self.nest.top()
    }

    /// After a fault nothing more is read: the place is the frame's end.
    #[tactic(auto, unfolding(crate::specs::Head::reads_head))]
    pub(crate) fn read_head(&mut self) -> Result<Head<'f>, Fault>
        ensures exact { Answers header_of result self.new (reads_head self.old) }
        ensures sized { IfOk result (λ h. length h.name.now < 2 ^ 31) }
    {
        let frame = self.frame;
        match head_at(&frame[self.place..], &mut self.room) {
            Ok(((head, start), taken)) => {
                self.value = self.place + start;
                self.place += taken;
                self.nest.restart(Slot::Fields(0));
                self.opening = Opening::Body;
                Ok(head)
            }
            Err(f) => {
                let place = self.place + f.place;
                self.place = frame.len();
                Err(fault_at(place, f.reason))
            }
        }
    }

    pub(crate) fn value_place(&self) -> usize
        ensures { result ≡ self.now.value }
    {
        self.value
    }

    #[tactic(auto, unfolding(crate::specs::Head::reads_end))]
    pub(crate) fn read_end(&mut self) -> Result<(), Fault>
        ensures { Answers (λ u. u) result self.new (reads_end self.old) }
    {
        match end_scan(&self.frame[self.place..]) {
            Ok(_) => Ok(()),
            Err(f) => Err(fault_at(self.place + f.place, f.reason)),
        }
    }
}
