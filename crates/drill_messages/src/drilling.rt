//! Making the messages and writing them.
ghost use Rattle.std.specs.Prelude.{◌≡◌, ◌≤◌, ◌+◌, [], length, IfSome};
ghost use Rattle.gate_base.specs.Causes.{Rose};
ghost use Rattle.drill_messages.specs.Messages.{messages};
ghost use Rattle.drill_messages.specs.Outcome.{stream_of, AreWritten};
ghost use Rattle.gate_io.specs.Fronts.{AppendsFront, Flushed};
ghost use Rattle.drill_messages.specs.Ends.{IfDone};
ghost use Rattle.drill_messages.specs.Rooms.{IsOpen};

use crate::Totals;
use crate::draws::Draws;
use crate::rooms::{Rooms, added, make_one, open};
use crate::sizes::{FRAME_ROOM, MOST_MESSAGES, STREAM_ROOM};
use gate_base::OutOfMemory;
use gate_io::{Out, Sink, Wrote, flush};
use std::alloc::Global;

/// What came of making messages.
#[derive(Clone, Copy, PartialEq, Eq)]
pub enum Drilled {
    /// All were written, and are so long.
    Done(Totals),
    /// The output failed behind a front of the messages.
    WriteFault,
    /// Memory was wanted and not found. Nothing was written.
    OutOfMemory,
}

/// Makes `count` messages from a seed, and writes the frame of each one's plain Binary spelling to the output, in order.
///
/// `WriteFault`: the output failed, and a front of these bytes was written. `OutOfMemory`: memory is taken before the
/// first message is made, and wasn't found.
pub fn drill<O: Sink>(alloc: Global, seed: u64, count: u64, output: &mut O) -> Drilled
    requires { count ≤ MOST_MESSAGES }
    ensures done { IfDone result (AreWritten (messages seed count) (O.written output.old) (O.written output.new)) }
    ensures front { AppendsFront (O.written output.old) (O.written output.new) (stream_of (messages seed count)) }
    ensures memory { result ≡ Drilled.OutOfMemory → output.new ≡ output.old }
    ensures later { O.faults output.old ≤ O.faults output.new }
    ensures cause { result ≡ Drilled.WriteFault → Rose (O.faults output.old) (O.faults output.new) }
{
    match open(alloc) {
        Ok(mut rooms) => match make_all(&mut rooms, seed, count, output) {
            Some(totals) => Drilled::Done(totals),
            None => Drilled::WriteFault,
        },
        Err(OutOfMemory) => Drilled::OutOfMemory,
    }
}

/// Makes and writes all messages, or gives up where the output fails.
fn make_all<O: Sink>(rooms: &mut Rooms, seed: u64, count: u64, output: &mut O) -> Option<Totals>
    requires count { count ≤ MOST_MESSAGES }
    requires open { IsOpen rooms.old }
    requires nothing { rooms.old.stream.bytes ≡ [] }
    ensures done { IfSome result (AreWritten (messages seed count) (O.written output.old) (O.written output.new)) }
    ensures front { AppendsFront (O.written output.old) (O.written output.new) (stream_of (messages seed count)) }
    ensures later { O.faults output.old ≤ O.faults output.new }
    ensures cause { result ≡ None → Rose (O.faults output.old) (O.faults output.new) }
{
    let mut draws = Draws::new(seed);
    let mut totals = Totals {
        binary: 0,
        compact: 0,
        json: 0,
    };
    for seq in 0..count {
        match make_room(&mut rooms.stream, output) {
            Wrote::All => (),
            Wrote::Failed => return None,
        }
        let lengths = make_one(rooms, &mut draws, seq);
        totals = added(totals, lengths);
    }
    match flush(&mut rooms.stream, output) {
        Wrote::All => Some(totals),
        Wrote::Failed => None,
    }
}

/// Writes what was gathered where there is no room for one message more.
fn make_room<O: Sink>(stream: &mut Out, output: &mut O) -> Wrote
    requires { stream.old.room ≡ STREAM_ROOM }
    ensures all { result ≡ Wrote.All → length stream.new.bytes + FRAME_ROOM ≤ STREAM_ROOM }
    ensures flushed { result ≡ Wrote.All → Flushed (O.written output.old) stream.old.bytes (O.written output.new) stream.new.bytes }
    ensures room { stream.new.room ≡ stream.old.room }
    ensures front { AppendsFront (O.written output.old) (O.written output.new) stream.old.bytes }
    ensures later { O.faults output.old ≤ O.faults output.new }
    ensures cause { result ≡ Wrote.Failed → Rose (O.faults output.old) (O.faults output.new) }
{
    if FRAME_ROOM <= stream.spare() {
        return Wrote::All;
    }
    flush(stream, output)
}
