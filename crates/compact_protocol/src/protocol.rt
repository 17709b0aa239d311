//! The reader and the writer as a protocol's.
ghost use Rattle.std.specs.Prelude.{◌≡◌, None, length, refl};
ghost use Rattle.thrift_value.specs.Items.{item_of};
ghost use Rattle.protocol_traits.specs.Heads.{header_of};
ghost use Rattle.compact_protocol.specs.Reading.{begun, reads, reads_head, reads_end, ahead};
ghost use Rattle.compact_protocol.specs.Forms.{stands_at as reader_at};
ghost use Rattle.compact_protocol.specs.WriteForms.{stands_at as writer_at};
ghost use Rattle.compact_protocol.specs.Laws.{reads_pays, reads_nests, reads_follows, reads_head_pays, reads_head_opens, begins, light, light_head, follows_nests};
ghost use Rattle.compact_protocol.specs.Plain.{spelling, head_spelling, follows, bar, begun as begun_writing};

use crate::reader::CompactRead;
use crate::writer::{CompactWrite, put_head};
use gate_io::Out;
use protocol_traits::{Bar, Fault, Head, Hint, Mark, ReadRules, Slot, WireRead, WireWrite};
use thrift_value::Event;

impl<'f> CompactRead<'f> {
    /// The event for as long as the reader is lent.
    #[inline(always)]
    fn lend(&self, event: Event<'f>) -> Event<'_>
        ensures same { item_of result ≡ item_of event.entry }
    {
        event
    }

    /// The header for as long as the reader is lent.
    #[inline(always)]
    fn lend_head(&self, head: Head<'f>) -> Head<'_>
        ensures same { header_of result ≡ header_of head.entry }
    {
        head
    }
}

impl<'f> ReadRules for CompactRead<'f> {
    ghost begun = { begun };

    ghost reads_head = { reads_head };

    ghost reads = { λ s hint. reads s };

    ghost reads_end = { reads_end };

    ghost value_place = { λ s. s.value };

    ghost nest = { λ s. s.nest };

    ghost depth = { λ s. length s.nest };

    ghost stands_at = { reader_at };

    ghost ahead = { ahead };

    ghost head_pays = { reads_head_pays };

    ghost pays = { λ s hint. reads_pays s };

    ghost nests = { λ s hint. reads_nests s };

    ghost opens = { reads_head_opens };

    ghost follows = { λ s hint. reads_follows s };

    ghost counts = { λ s. refl };

    ghost begins = { begins };
}

impl<'f> WireRead<'f> for CompactRead<'f> {
    #[inline(always)]
    fn over(frame: &'f [u8], _room: &'f mut [u8]) -> Self {
        CompactRead::open(frame)
    }

    fn head(&mut self) -> Result<Head<'_>, Fault> {
        let head = self.read_head()?;
        Ok(self.lend_head(head))
    }

    #[inline(always)]
    fn next(&mut self, _hint: Hint) -> Result<Event<'_>, Fault> {
        let event = self.read()?;
        Ok(self.lend(event))
    }

    #[inline(always)]
    fn level(&self) -> Option<Slot> {
        self.open_level()
    }

    #[inline(always)]
    fn next_in(&mut self, _level: Slot, _hint: Hint) -> Result<Event<'_>, Fault> {
        let event = self.read()?;
        Ok(self.lend(event))
    }

    #[inline(always)]
    fn place(&self) -> usize {
        self.value_place()
    }

    fn finish(&mut self) -> Result<(), Fault> {
        self.read_end()
    }
}

impl WireWrite for CompactWrite {
    ghost begun = { begun_writing };

    ghost name_bar = { λ name. None };

    ghost bar = { λ item mark. bar item };

    ghost plain_head = { head_spelling };

    ghost plain = { λ w item mark. spelling w item };

    ghost after = { λ w item mark. follows w item };

    ghost depth = { λ w. length w.nest };

    ghost stands_at = { writer_at };

    ghost starts = { refl };

    ghost nests = { λ w item mark. follows_nests w item };

    ghost light_head = { light_head };

    ghost light = { λ w item mark. light w item };

    fn over() -> Self {
        CompactWrite::open()
    }

    fn takes_name(_name: &[u8]) -> Result<(), Bar> {
        Ok(())
    }

    #[inline(always)]
    fn takes(e: &Event<'_>, _mark: Mark) -> Result<(), Bar> {
        match *e {
            Event::NumberText(_) => Err(Bar::Double),
            Event::UnknownText(_) => Err(Bar::UnknownString),
            _ => Ok(()),
        }
    }

    fn head(&mut self, h: &Head<'_>, out: &mut Out) {
        put_head(h, out)
    }

    #[inline(always)]
    fn put(&mut self, e: &Event<'_>, _mark: Mark, out: &mut Out) {
        self.put_event(e, out)
    }
}
