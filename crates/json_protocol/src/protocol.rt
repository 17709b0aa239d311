//! The reader as a protocol's.
ghost use Rattle.std.specs.Prelude.{◌≡◌, length, refl};
ghost use Rattle.thrift_value.specs.Items.{item_of};
ghost use Rattle.protocol_traits.specs.Heads.{header_of};
ghost use Rattle.json_protocol.specs.Reading.{begun, reads, ahead};
ghost use Rattle.json_protocol.specs.Head.{reads_head, reads_end};
ghost use Rattle.json_protocol.specs.ReadForms.{stands_at};
ghost use Rattle.json_protocol.specs.Laws.{reads_pays, reads_nests, reads_follows, reads_head_pays, reads_head_opens, begins};

use crate::reader::JsonRead;
use protocol_traits::{Fault, Head, Hint, ReadRules, Slot, WireRead};
use thrift_value::Event;

impl<'f> JsonRead<'f> {
    /// The event for as long as the reader is lent.
    fn lend(&self, event: Event<'f>) -> Event<'_>
        ensures same { item_of result ≡ item_of event.entry }
    {
        event
    }

    fn lend_head(&self, head: Head<'f>) -> Head<'_>
        ensures same { header_of result ≡ header_of head.entry }
    {
        head
    }
}

impl<'f> ReadRules for JsonRead<'f> {
    ghost begun = { begun };

    ghost reads_head = { reads_head };

    ghost reads = { reads };

    ghost reads_end = { reads_end };

    ghost value_place = { λ s. s.value };

    ghost nest = { λ s. s.nest };

    ghost depth = { λ s. length s.nest };

    ghost stands_at = { stands_at };

    ghost ahead = { ahead };

    ghost head_pays = { reads_head_pays };

    ghost pays = { reads_pays };

    ghost nests = { reads_nests };

    ghost opens = { reads_head_opens };

    ghost follows = { reads_follows };

    ghost counts = { λ s. refl };

    ghost begins = { begins };
}

impl<'f> WireRead<'f> for JsonRead<'f> {
    fn over(frame: &'f [u8], room: &'f mut [u8]) -> Self {
        JsonRead::open(frame, room)
    }

    fn head(&mut self) -> Result<Head<'_>, Fault> {
        let head = self.read_head()?;
        Ok(self.lend_head(head))
    }

    fn next(&mut self, hint: Hint) -> Result<Event<'_>, Fault> {
        let event = self.read(hint)?;
        Ok(self.lend(event))
    }

    fn level(&self) -> Option<Slot> {
        self.open_level()
    }

    fn next_in(&mut self, _level: Slot, hint: Hint) -> Result<Event<'_>, Fault> {
        let event = self.read(hint)?;
        Ok(self.lend(event))
    }

    fn place(&self) -> usize {
        self.value_place()
    }

    fn finish(&mut self) -> Result<(), Fault> {
        self.read_end()
    }
}
