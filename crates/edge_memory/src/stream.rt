//! A stream in memory.
ghost use Rattle.std.specs.Prelude.{◌≡◌, ◌<◌, length, IfOk};
ghost use Rattle.gate_hub.specs.Hubs.{GotWithin, TookWithin};
ghost use Rattle.mio_edge.specs.Wire.{Moves, WireReads, WireWrites, WireShuts, new_wire};
ghost use Rattle.edge_memory.specs.Streams.{TellsStream, new_stream, stream_bytes, stream_hears, breaking};

use gate_base::OutOfMemory;
use gate_hub::{LinkGot, LinkPut};
use mio_edge::Stream;
use std::alloc::Global;
use std::marker::Model;

/// A stream whose peer sent some bytes, and takes some.
#[derive(Drop)]
pub struct MemStream {
    arrived: Vec<u8>,
    place: usize,
    sent: Vec<u8>,
    room: usize,
    is_finished: bool,
    will_break: bool,
    has_ended: bool,
    has_failed: bool,
    is_shut: bool,
}

impl Model for MemStream {
    ghost use Rattle.std.specs.Prelude.{◌≤◌, false, length, take, drop};
    ghost use Rattle.edge_memory.specs.Streams.{StreamState};

    ghost Value = { StreamState };

    ghost view = { λ s. record {
      wire = record { received = take s.place s.arrived.items; sent = s.sent.items; ended = s.has_ended; failed = s.has_failed; shut = s.is_shut; readable = false; writable = false };
      ahead = drop s.place s.arrived.items;
      room = s.room;
      finished = s.is_finished;
      breaks = s.will_break;
    } };

    ghost invariant = { λ s. s.place ≤ length s.arrived.items };
}

impl MemStream {
    /// A stream from which these bytes come, and its end behind them where it is finished. It takes so
    /// many bytes.
    ///
    /// `OutOfMemory`: the memory for a copy of them was not found.
    pub fn new(
        alloc: Global,
        arrives: &[u8],
        is_finished: bool,
        room: usize,
    ) -> Result<MemStream, OutOfMemory>
        ensures exact { IfOk result (λ stream. stream ≡ new_stream arrives.now is_finished room) }
        ensures tells { IfOk result (λ stream. TellsStream stream new_wire) }
    {
        let mut arrived = Vec::with_capacity(alloc, arrives.len())?;
        arrived.extend_from_slice(arrives)?;
        Ok(MemStream {
            arrived,
            place: 0,
            sent: Vec::new(alloc),
            room,
            is_finished,
            will_break: false,
            has_ended: false,
            has_failed: false,
            is_shut: false,
        })
    }

    /// Has the next read or write fail.
    pub fn break_next(&mut self)
        ensures { self.new ≡ breaking self.old }
    {
        self.will_break = true;
    }

    /// The bytes that it took.
    pub fn sent(&self) -> &[u8]
        ensures { result.now ≡ self.now.wire.sent }
    {
        self.sent.as_slice()
    }
}

impl Stream for MemStream {
    ghost tells = { TellsStream };

    fn receive(&mut self, into: &mut [u8]) -> LinkGot
        requires { 0 < length into.old }
        ensures within { GotWithin into.new result }
        ensures moves { Moves (TellsStream self.old) (TellsStream self.new) (WireReads (length into.old) into.new result) }
    {
        if self.will_break {
            self.has_failed = true;
            return LinkGot::Failed;
        }
        let rest = self.arrived.len() - self.place;
        if rest == 0 && self.is_finished {
            self.has_ended = true;
            return LinkGot::End;
        }
        if rest == 0 {
            return LinkGot::NotReady;
        }
        let count = rest.min(into.len());
        into[..count].copy_from_slice(&self.arrived[self.place..self.place + count]);
        self.place += count;
        LinkGot::Bytes(count)
    }

    fn send(&mut self, from: &[u8]) -> LinkPut
        requires { 0 < length from.now }
        ensures within { TookWithin from.now result }
        ensures moves { Moves (TellsStream self.old) (TellsStream self.new) (WireWrites from.now result) }
    {
        let count = from.len().min(self.room);
        if !self.will_break && count == 0 {
            return LinkPut::NotReady;
        }
        if self.will_break || self.sent.extend_from_slice(&from[..count]).is_err() {
            self.has_failed = true;
            return LinkPut::Failed;
        }
        self.room -= count;
        LinkPut::Took(count)
    }

    fn shut(&mut self)
        ensures { Moves (TellsStream self.old) (TellsStream self.new) WireShuts }
    {
        self.is_shut = true;
    }

    ghost bytes = { stream_bytes };

    ghost hears = { stream_hears };
}
