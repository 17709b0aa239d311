//! Writing all of some bytes, and what was gathered.
ghost use Rattle.std.specs.Prelude.{◌≡◌, ◌≤◌, []};
ghost use Rattle.std.specs.Io.KnownBytes.{Appends};
ghost use Rattle.gate_base.specs.Causes.{Rose};
ghost use Rattle.gate_io.specs.Fronts.{AppendsFront};

use crate::buffer::Out;
use crate::byte_streams::{Put, Sink};

/// What came of writing.
#[derive(Clone, Copy)]
pub enum Wrote {
    /// All bytes were written.
    All,
    /// The sink failed, and a front of the bytes was written.
    Failed,
}

/// Writes all bytes to a sink, or a front of them before it fails.
pub fn write_all<S: Sink>(sink: &mut S, bytes: &[u8]) -> Wrote
    ensures all { result ≡ Wrote.All → Appends (S.written sink.old) (S.written sink.new) bytes.now }
    ensures front { AppendsFront (S.written sink.old) (S.written sink.new) bytes.now }
    ensures later { S.faults sink.old ≤ S.faults sink.new }
    ensures cause { result ≡ Wrote.Failed → Rose (S.faults sink.old) (S.faults sink.new) }
{
    let mut at = 0;
    while at < bytes.len() {
        match sink.write(&bytes[at..]) {
            Put::Took(count) => at += count,
            Put::Failed => return Wrote::Failed,
        }
    }
    Wrote::All
}

/// Writes what was gathered for a sink, and empties the buffer. Where the sink fails, a front of
/// it was written and the buffer keeps all.
pub fn flush<S: Sink>(out: &mut Out, sink: &mut S) -> Wrote
    ensures all { result ≡ Wrote.All → (out.new.bytes ≡ []) × Appends (S.written sink.old) (S.written sink.new) out.old.bytes }
    ensures room { out.new.room ≡ out.old.room }
    ensures kept { result ≡ Wrote.Failed → out.new ≡ out.old }
    ensures front { AppendsFront (S.written sink.old) (S.written sink.new) out.old.bytes }
    ensures later { S.faults sink.old ≤ S.faults sink.new }
    ensures cause { result ≡ Wrote.Failed → Rose (S.faults sink.old) (S.faults sink.new) }
{
    match write_all(sink, out.bytes()) {
        Wrote::All => {
            out.clear();
            Wrote::All
        }
        Wrote::Failed => Wrote::Failed,
    }
}
