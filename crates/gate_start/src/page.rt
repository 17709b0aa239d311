//! Bytes that wait for the output.
ghost use Rattle.std.specs.Prelude.{◌≡◌, ◌+◌, ◌≤◌, [], IfOk, length, take};
ghost use Rattle.std.specs.Io.KnownBytes.{Appends};
ghost use Rattle.gate_base.specs.Causes.{Rose};
ghost use Rattle.gate_io.specs.Fronts.{AppendsFront};

use gate_base::OutOfMemory;
use gate_io::{Out, Put, Sink, Wrote, flush};
use std::alloc::Global;

/// Bytes that are gathered for the output. As a sink it fails where they don't fit.
#[derive(Drop)]
pub struct Page {
    pub out: Out,
    faults: u64,
}

impl Page {
    /// An empty page with room for so many bytes.
    ///
    /// `OutOfMemory`: the room was not found.
    pub fn open(alloc: Global, room: usize) -> Result<Page, OutOfMemory>
        ensures empty { IfOk result (λ page. page.out.bytes ≡ []) }
        ensures room { IfOk result (λ page. page.out.room ≡ room) }
    {
        Ok(Page {
            out: Out::open(alloc, room)?,
            faults: 0,
        })
    }

    /// How many bytes wait.
    pub fn len(&self) -> usize
        ensures { result ≡ length self.now.out.bytes }
    {
        self.out.bytes().len()
    }

    /// The room that is left, in bytes.
    pub fn spare(&self) -> usize
        ensures within { length self.now.out.bytes ≤ self.now.out.room }
        ensures spare { length self.now.out.bytes + result ≡ self.now.out.room }
    {
        self.out.spare()
    }

    /// Keeps the first bytes, so many as there must be.
    pub fn cut(&mut self, len: usize)
        requires { len ≤ length self.old.out.bytes }
        ensures bytes { self.new.out.bytes ≡ take len self.old.out.bytes }
        ensures room { self.new.out.room ≡ self.old.out.room }
        ensures faults { self.new.faults ≡ self.old.faults }
    {
        self.out.cut(len);
    }

    /// Writes all to the output, or a front before a fault.
    pub fn flush<O: Sink>(&mut self, output: &mut O) -> Wrote
        ensures all { result ≡ Wrote.All → (self.new.out.bytes ≡ []) × Appends (O.written output.old) (O.written output.new) self.old.out.bytes }
        ensures room { self.new.out.room ≡ self.old.out.room }
        ensures faults { self.new.faults ≡ self.old.faults }
        ensures front { AppendsFront (O.written output.old) (O.written output.new) self.old.out.bytes }
        ensures later { O.faults output.old ≤ O.faults output.new }
        ensures cause { result ≡ Wrote.Failed → Rose (O.faults output.old) (O.faults output.new) }
    {
        flush(&mut self.out, output)
    }
}

impl Sink for Page {
    ghost use Rattle.std.specs.Prelude.{Some};

    ghost written = { λ p. Some p.out.bytes };

    ghost faults = { λ p. p.faults };

    fn write(&mut self, from: &[u8]) -> Put {
        if from.len() > self.out.spare() {
            self.faults = self.faults.saturating_add(1);
            return Put::Failed;
        }
        self.out.push(from);
        Put::Took(from.len())
    }
}
