//! A connection that is read and written without waiting.
ghost use Rattle.std.specs.Prelude.{◌<◌, length, Bool};
ghost use Rattle.gate_base.specs.Bytes.{AreBytes};
ghost use Rattle.gate_hub.specs.Hubs.{GotWithin, TookWithin};
ghost use Rattle.mio_edge.specs.Wire.{Wire, Moves, WireReads, WireWrites, WireShuts, heard};

use gate_hub::{LinkGot, LinkPut};

/// A connection to a peer. No call of it waits.
pub trait Stream: Drop {
    /// What it tells of what went over it: one meaning, or none where it knows nothing of that.
    ghost tells: { Self → Wire → Type 0 };

    /// Reads into a slice that isn't empty.
    ///
    /// `NotReady`: nothing came so far, or it isn't connected yet. `End`: the peer will send no more.
    fn receive(&mut self, into: &mut [u8]) -> LinkGot
        requires { 0 < length into.old }
        ensures within { GotWithin into.new result }
        ensures moves { Moves (tells self.old) (tells self.new) (WireReads (length into.old) into.new result) };

    /// Writes the front of a slice that isn't empty.
    ///
    /// `NotReady`: nothing is taken so far, or it isn't connected yet.
    fn send(&mut self, from: &[u8]) -> LinkPut
        requires { 0 < length from.now }
        ensures within { TookWithin from.now result }
        ensures moves { Moves (tells self.old) (tells self.new) (WireWrites from.now result) };

    /// Tells the peer that no more will come.
    fn shut(&mut self)
        ensures { Moves (tells self.old) (tells self.new) WireShuts };

    /// What it tells that was received consists of bytes.
    ghost bytes: { (stream : Self) (wire : Wire) → tells stream wire → AreBytes wire.received };

    /// That it is readable or writable may be reported at any time.
    ghost hears: { (stream : Self) (wire : Wire) (r w : Bool) → tells stream wire → tells stream (heard r w wire) };
}
