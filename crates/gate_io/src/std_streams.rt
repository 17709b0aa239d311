//! Streams of std. They tell what their readers and writers tell: those of slices and vectors all, and the standard
//! streams nothing.
ghost use Rattle.std.specs.Prelude.{◌≡◌, ◌<◌, ◌≤◌, length};
ghost use Rattle.gate_base.specs.Causes.{Rose};
ghost use Rattle.gate_io.specs.Reading.{Reads};
ghost use Rattle.gate_io.specs.Told.{known_bytes, known_are_bytes};

use crate::{Got, Put, Sink, Source};
use std::io::{ErrorKind, Read, Write};

/// A call that a signal interrupts is made so many times at most.
const MOST_TRIES: u32 = 1000;

/// A reader of std, such as the standard input.
#[derive(Drop)]
pub struct StdSource<R> {
    reader: R,
    faults: u64,
}

impl<R> StdSource<R> {
    /// The source of what this reader gives.
    pub fn new(reader: R) -> StdSource<R>
        ensures reader { result.reader ≡ reader }
        ensures faults { result.faults ≡ 0 }
    {
        StdSource { reader, faults: 0 }
    }
}

impl<R: Read> StdSource<R> {
    // Reads, by all that is known of the reader.
    fn take(&mut self, into: &mut [u8]) -> Got
        requires { 0 < length into.old }
        ensures bytes { Reads (R.remaining self.old.reader) (R.remaining self.new.reader) into.new result }
        ensures later { self.old.faults ≤ self.new.faults }
        ensures cause { result ≡ Got.Failed → Rose self.old.faults self.new.faults }
    {
        for _ in 0..MOST_TRIES {
            match self.reader.read(into) {
                Ok(0) => return Got::End,
                Ok(count) => return Got::Bytes(count),
                Err(error) if error.kind() == ErrorKind::Interrupted => (),
                Err(_) => break,
            }
        }
        self.faults = self.faults.saturating_add(1);
        Got::Failed
    }
}

impl<R: Read> Source for StdSource<R> {
    ghost left = { λ s. known_bytes (R.remaining s.reader) };

    ghost faults = { λ s. s.faults };

    #[tactic(auto, using(crate::specs::Told::known_reads))]
    fn read(&mut self, into: &mut [u8]) -> Got {
        self.take(into)
    }

    ghost bytes = { λ s. known_are_bytes (R.remaining s.reader) };
}

/// A writer of std, such as the standard output. A write that takes nothing is a fault.
#[derive(Drop)]
pub struct StdSink<W> {
    writer: W,
    faults: u64,
}

impl<W> StdSink<W> {
    /// The sink that writes to this writer.
    pub fn new(writer: W) -> StdSink<W>
        ensures writer { result.writer ≡ writer }
        ensures faults { result.faults ≡ 0 }
    {
        StdSink { writer, faults: 0 }
    }
}

impl<W: Write> Sink for StdSink<W> {
    ghost written = { λ s. W.contents s.writer };

    ghost faults = { λ s. s.faults };

    fn write(&mut self, from: &[u8]) -> Put {
        for _ in 0..MOST_TRIES {
            match self.writer.write(from) {
                Ok(count) if count > 0 => return Put::Took(count),
                Err(error) if error.kind() == ErrorKind::Interrupted => (),
                _ => break,
            }
        }
        self.faults = self.faults.saturating_add(1);
        Put::Failed
    }
}
