//! The end of a line that waits to be written.
ghost use Rattle.std.specs.Prelude.{◌≡◌, ◌+◌, ◌*◌, ◌<◌, ◌≤◌, ◌++◌, ◌∷◌, [], length, flat_map, take, not, false, true};
ghost use Rattle.message_show.specs.Pieces.{TellsTo};
ghost use Rattle.message_show.specs.Texts.{is_plain, byte_text};

use crate::printed::printed;
use gate_io::{Sink, Wrote, write_all};
use std::marker::Model;

/// How many bytes may wait.
pub const ROOM: usize = 4096;

/// At least so many bytes of room are made for an event.
pub const SPARE: usize = 128;

/// So many bytes serve for the text of an event but a string's and a name's, behind what leads it.
pub const EVENT_ROOM: usize = 120;

/// So many bytes serve for a number in digits.
pub const NUMBER_ROOM: usize = 40;

/// The buffer in which a line waits, and whether a write has failed.
#[derive(Drop)]
pub struct LineBuffer {
    bytes: [u8; ROOM],
    broken: bool,
}

impl LineBuffer {
    /// An empty one.
    pub fn new() -> LineBuffer
        ensures { result.broken ≡ false }
    {
        LineBuffer {
            bytes: [0; ROOM],
            broken: false,
        }
    }
}

/// What waits of a line, in a buffer that is lent to it. Once a write has failed nothing more is written.
///
/// It goes from call to call by value and is as large as two registers hold, so that how much waits need not be looked up in memory
/// for each piece.
#[derive(Drop)]
pub struct Line<'c> {
    buffer: &'c mut LineBuffer,
    len: usize,
}

/// Clauses see the bytes that wait and whether a write has failed.
impl<'c> Model for Line<'c> {
    ghost use Rattle.std.specs.Prelude.{◌≤◌, take};
    ghost use Rattle.message_show.specs.Pieces.{Waiting};
    ghost use Rattle.message_show.specs.declared.line.TheConstants.{ROOM};

    ghost Value = { Waiting };

    ghost view = { λ l. record { bytes = take l.len l.buffer.now.bytes; broken = l.buffer.now.broken } };

    ghost invariant = { λ l. l.len ≤ ROOM };
}

impl<'c> Line<'c> {
    /// Nothing waits.
    pub fn over(buffer: &'c mut LineBuffer) -> Line<'c>
        ensures { result ≡ record { bytes = []; broken = false } }
    {
        buffer.broken = false;
        Line { buffer, len: 0 }
    }

    /// Appends bytes, for which there must be room.
    #[inline(always)]
    pub fn push(mut self, piece: &[u8]) -> Line<'c>
        requires { length self.bytes + length piece.now ≤ ROOM }
        ensures { result ≡ record self.entry { bytes = self.entry.bytes ++ piece.now } }
    {
        let at = self.len;
        append(&mut self.buffer.bytes, at, piece);
        self.len += piece.len();
        self
    }

    /// Appends one byte, for which there must be room.
    #[inline(always)]
    pub fn push_byte(mut self, byte: u8) -> Line<'c>
        requires { length self.bytes + 1 ≤ ROOM }
        ensures { result ≡ record self.entry { bytes = self.entry.bytes ++ byte ∷ [] } }
    {
        let at = self.len;
        append_byte(&mut self.buffer.bytes, at, byte);
        self.len += 1;
        self
    }

    /// Appends a digit, a colon and a name, for which there must be room.
    #[inline(always)]
    pub fn push_named(mut self, digit: u8, name: &[u8]) -> Line<'c>
        requires { length self.bytes + (length name.now + 2) ≤ ROOM }
        ensures { result ≡ record self.entry { bytes = self.entry.bytes ++ digit ∷ 58 ∷ name.now } }
    {
        let at = self.len;
        append(&mut self.buffer.bytes, at, &[digit, b':']);
        append(&mut self.buffer.bytes, at + 2, name);
        self.len = at + 2 + name.len();
        self
    }

    /// Whether so many bytes fit, however they are printed, and four more.
    #[inline(always)]
    pub fn has_room_for(&self, count: usize) -> bool
        ensures { result ≡ true → length self.now.bytes + (4 * count + 4) ≤ ROOM }
    {
        (ROOM - self.len) / 4 > count
    }

    /// Appends bytes, each as it is printed, for which there must be room.
    #[inline(always)]
    pub fn push_printed(mut self, bytes: &[u8]) -> Line<'c>
        requires { length self.bytes + 4 * length bytes.now ≤ ROOM }
        ensures printed { result ≡ record self.entry { bytes = self.entry.bytes ++ flat_map byte_text bytes.now } }
        ensures short { length result.bytes ≤ length self.entry.bytes + 4 * length bytes.now }
    {
        let at = self.len;
        self.len = print_all(&mut self.buffer.bytes, at, bytes);
        self
    }

    /// Makes room for the texts of an event.
    #[inline(always)]
    pub fn make_room<O: Sink>(self, out: &mut O) -> Line<'c>
        ensures room { length result.bytes + SPARE ≤ ROOM }
        ensures told { TellsTo O.written O.faults out.old out.new self.entry result [] }
    {
        if ROOM - self.len >= SPARE {
            return self;
        }
        self.flush(out)
    }

    /// Appends bytes of any number.
    #[inline(always)]
    pub fn put<O: Sink>(self, piece: &[u8], out: &mut O) -> Line<'c>
        ensures told { TellsTo O.written O.faults out.old out.new self.entry result piece.now }
    {
        if piece.len() <= ROOM - self.len {
            self.push(piece)
        } else {
            self.put_long(piece, out)
        }
    }

    #[inline(never)]
    fn put_long<O: Sink>(self, piece: &[u8], out: &mut O) -> Line<'c>
        ensures told { TellsTo O.written O.faults out.old out.new self.entry result piece.now }
    {
        let line = self.flush(out);
        if piece.len() <= ROOM {
            line.push(piece)
        } else {
            line.pass(piece, out)
        }
    }

    /// Writes what waits.
    #[inline(never)]
    pub fn flush<O: Sink>(self, out: &mut O) -> Line<'c>
        ensures empty { result.bytes ≡ [] }
        ensures told { TellsTo O.written O.faults out.old out.new self.entry result [] }
    {
        if self.buffer.broken {
            return self.emptied(true);
        }
        match write_all(out, &self.buffer.bytes[..self.len]) {
            Wrote::All => self.emptied(false),
            Wrote::Failed => self.emptied(true),
        }
    }

    /// Nothing waits, and a write has failed or none has.
    #[inline(always)]
    fn emptied(mut self, broken: bool) -> Line<'c>
        ensures { result ≡ record { bytes = []; broken = broken } }
    {
        self.len = 0;
        self.buffer.broken = broken;
        self
    }

    /// Writes bytes before which none wait.
    fn pass<O: Sink>(self, piece: &[u8], out: &mut O) -> Line<'c>
        requires { self.bytes ≡ [] }
        ensures told { TellsTo O.written O.faults out.old out.new self.entry result piece.now }
    {
        if self.buffer.broken {
            return self;
        }
        match write_all(out, piece) {
            Wrote::All => self,
            Wrote::Failed => self.emptied(true),
        }
    }

    /// Whether no write has failed.
    pub fn is_whole(&self) -> bool
        ensures { result ≡ not self.now.broken }
    {
        !self.buffer.broken
    }
}

// Writes bytes behind so many, each as it is printed, and answers how many stand there then.
fn print_all(buffer: &mut [u8], len: usize, bytes: &[u8]) -> usize
    requires { len + 4 * length bytes.now ≤ length buffer.old }
    ensures printed { take result buffer.new ≡ take len buffer.old ++ flat_map byte_text bytes.now }
    ensures short { result ≤ len + 4 * length bytes.now }
{
    let mut at = len;
    for byte in bytes {
        at = print_byte(buffer, at, *byte);
    }
    at
}

#[inline(always)]
fn print_byte(buffer: &mut [u8], len: usize, byte: u8) -> usize
    requires { len + 4 ≤ length buffer.old }
    ensures printed { take result buffer.new ≡ take len buffer.old ++ byte_text byte }
    ensures short { result ≤ len + 4 }
{
    let (text, used) = printed(byte);
    append(buffer, len, &text);
    len + used
}

// Writes bytes behind those that wait.
#[inline(always)]
fn append(buffer: &mut [u8], len: usize, piece: &[u8])
    requires { len + length piece.now ≤ length buffer.old }
    ensures appended { take (len + length piece.now) buffer.new ≡ take len buffer.old ++ piece.now }
{
    buffer[len..len + piece.len()].copy_from_slice(piece);
}

#[inline(always)]
fn append_byte(buffer: &mut [u8], len: usize, byte: u8)
    requires { len < length buffer.old }
    ensures { take (len + 1) buffer.new ≡ take len buffer.old ++ byte ∷ [] }
{
    buffer[len] = byte;
}
