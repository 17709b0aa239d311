//! A byte buffer whose room is taken once: a window that moves along its cells.
ghost use Rattle.std.specs.Prelude.{◌≡◌, ◌+◌, ◌-◌, ◌≤◌, ◌<◌, [], ◌∷◌, ◌++◌, length, take, drop, IfOk, Option, List, ℕ};
ghost use Rattle.std.specs.Borrow.{sem};
ghost use Rattle.std.specs.Vec.{vec_capacity};
ghost use Rattle.gate_base.specs.Causes.{Rose};
ghost use Rattle.gate_io.specs.Buffer.{Buffer};
ghost use Rattle.gate_io.specs.Reading.{Fills, FillsCells};
ghost use Rattle.gate_io.specs.Tails.{LendsTail};

use crate::{Got, Source};
use gate_base::OutOfMemory;
use std::alloc::Global;
use std::marker::Model;

/// So many cells are made at the least where some are.
const LEAST_CELLS: usize = 1024;

/// So many bytes are asked of a source at the least, where the room has that many.
const LEAST_READ: usize = 65_536;

/// Bytes that are appended behind and let go in front. Only `open` and `open_whole` take memory.
///
/// The bytes are a window into the cells. Letting bytes go moves its start; they are moved to the
/// first cell only where no room is left behind them, or where they are fewer than the cells that
/// were let go. The cells are made as they are used, so a buffer costs nothing but what went
/// through it: its memory is taken at once and not touched.
#[derive(Drop)]
pub struct Out {
    cells: Vec<u8>,
    room: usize,
    start: usize,
    len: usize,
}

impl Model for Out {
    ghost use Rattle.std.specs.Prelude.{◌+◌, ◌≤◌, length, take, drop};
    ghost use Rattle.std.specs.Vec.{vec_capacity};
    ghost use Rattle.gate_io.specs.Buffer.{Buffer};

    ghost Value = { Buffer };

    ghost view = { λ o. record { bytes = take o.len (drop o.start o.cells.items); room = o.room } };

    ghost invariant = { λ o. (o.start + o.len ≤ length o.cells.items) × (length o.cells.items ≤ o.room) × (o.room ≤ vec_capacity o.cells) };
}

impl Out {
    /// An empty buffer with room for so many bytes.
    ///
    /// `OutOfMemory`: the room was not found.
    pub fn open(alloc: Global, room: usize) -> Result<Out, OutOfMemory>
        ensures { IfOk result (λ out. out ≡ record { bytes = []; room = room }) }
    {
        Ok(Out {
            cells: Vec::with_capacity(alloc, room)?,
            room,
            start: 0,
            len: 0,
        })
    }

    /// The same with all cells made, for one who wants each read to be offered the whole room.
    ///
    /// `OutOfMemory`: the room was not found.
    pub fn open_whole(alloc: Global, room: usize) -> Result<Out, OutOfMemory>
        ensures { IfOk result (λ out. out ≡ record { bytes = []; room = room }) }
    {
        let mut cells = Vec::with_capacity(alloc, room)?;
        cells.resize(room, 0)?;
        Ok(Out {
            cells,
            room,
            start: 0,
            len: 0,
        })
    }

    /// The bytes that it holds.
    #[inline]
    pub fn bytes(&self) -> &[u8]
        ensures bytes { result.now ≡ self.now.bytes }
        ensures within { length self.now.bytes ≤ self.now.room }
    {
        &self.cells[self.start..self.start + self.len]
    }

    /// The room that is left, in bytes.
    #[inline]
    pub fn spare(&self) -> usize
        ensures spare { result ≡ self.now.room - length self.now.bytes }
        ensures within { length self.now.bytes ≤ self.now.room }
    {
        self.room - self.len
    }

    /// Appends bytes, for which there must be room.
    #[inline(always)]
    pub fn push(&mut self, from: &[u8])
        requires { length self.old.bytes + length from.now ≤ self.old.room }
        ensures { self.new ≡ record self.old { bytes = self.old.bytes ++ from.now } }
    {
        self.start = make_cells(&mut self.cells, self.room, self.start, self.len, from.len());
        append(&mut self.cells, self.start, self.len, from);
        self.len += from.len();
    }

    /// Appends one byte, for which there must be room.
    #[inline(always)]
    pub fn push_byte(&mut self, byte: u8)
        requires { length self.old.bytes < self.old.room }
        ensures { self.new ≡ record self.old { bytes = self.old.bytes ++ byte ∷ [] } }
    {
        self.start = make_cells(&mut self.cells, self.room, self.start, self.len, 1);
        append_byte(&mut self.cells, self.start, self.len, byte);
        self.len += 1;
    }

    /// Appends a few bytes whose number is known, for which there must be room.
    #[inline(always)]
    pub fn push_array<const N: usize>(&mut self, from: [u8; N])
        requires { length self.old.bytes + N ≤ self.old.room }
        ensures { self.new ≡ record self.old { bytes = self.old.bytes ++ from.entry } }
    {
        self.push(&from);
    }

    /// Appends so many bytes, for which there must be room, and lends them to be written.
    ///
    /// What they hold before that is not told. `cut` lets those go that are not used.
    #[inline]
    pub fn tail(&mut self, count: usize) -> &mut [u8]
        requires { length self.old.bytes + count ≤ self.old.room }
        ensures* writes_back { sem 𝓛 (LendsTail self.entry result) }
        ensures size { length result.now ≡ count }
    {
        self.start = make_cells(&mut self.cells, self.room, self.start, self.len, count);
        let end = self.start + self.len;
        self.len += count;
        self.cells.slice_mut(end..end + count)
    }

    /// Replaces the four bytes from this place on, which must be there.
    pub fn patch(&mut self, at: usize, four: [u8; 4])
        requires { at + 4 ≤ length self.old.bytes }
        ensures { self.new ≡ record self.old { bytes = take at self.old.bytes ++ four ++ drop (at + 4) self.old.bytes } }
    {
        write_four(&mut self.cells, self.start, self.len, at, four);
    }

    /// Keeps the first bytes, so many as there must be.
    #[inline]
    pub fn cut(&mut self, len: usize)
        requires { len ≤ length self.old.bytes }
        ensures { self.new ≡ record self.old { bytes = take len self.old.bytes } }
    {
        self.len = len;
    }

    /// Lets all bytes go.
    #[inline]
    pub fn clear(&mut self)
        ensures { self.new ≡ record self.old { bytes = [] } }
    {
        self.start = 0;
        self.len = 0;
    }

    /// Lets the first bytes go, so many as there must be.
    #[inline]
    pub fn drop_front(&mut self, n: usize)
        requires { n ≤ length self.old.bytes }
        ensures { self.new ≡ record self.old { bytes = drop n self.old.bytes } }
    {
        if n == self.len {
            self.clear();
            return;
        }
        self.start += n;
        self.len -= n;
    }

    /// Reads once from a source into the room that is left, at most `most` bytes. Both must be some.
    ///
    /// The answer is the source's. At `Bytes(n)` its n bytes were appended, else none was.
    pub fn read_from<I: Source>(&mut self, input: &mut I, most: usize) -> Got
        requires room { length self.old.bytes < self.old.room }
        requires most { 0 < most }
        ensures bytes { Fills (I.left input.old) (I.left input.new) self.old self.new most result }
        ensures within { length self.new.bytes ≤ self.new.room }
        ensures later { I.faults input.old ≤ I.faults input.new }
        ensures cause { result ≡ Got.Failed → Rose (I.faults input.old) (I.faults input.new) }
    {
        let wanted = wanted(self.room - self.len, self.len);
        self.start = make_cells(&mut self.cells, self.room, self.start, self.len, wanted);
        let got = read_behind(&mut self.cells, self.start, self.len, input, most);
        if let Got::Bytes(count) = got {
            self.len += count;
        }
        got
    }
}

// Writes bytes behind the window.
#[inline(always)]
fn append(cells: &mut [u8], start: usize, len: usize, from: &[u8])
    requires tail { start + len + length from.now ≤ length cells.old }
    ensures appended { take (len + length from.now) (drop start cells.new) ≡ take len (drop start cells.old) ++ from.now }
{
    let end = start + len;
    cells[end..end + from.len()].copy_from_slice(from);
}

// Writes a byte behind the window.
#[inline(always)]
fn append_byte(cells: &mut [u8], start: usize, len: usize, byte: u8)
    requires tail { start + len < length cells.old }
    ensures appended { take (len + 1) (drop start cells.new) ≡ take len (drop start cells.old) ++ byte ∷ [] }
{
    cells[start + len] = byte;
}

// Writes four bytes within the window.
#[inline]
fn write_four(cells: &mut [u8], start: usize, len: usize, at: usize, four: [u8; 4])
    requires window { start + len ≤ length cells.old }
    requires inside { at + 4 ≤ len }
    ensures { let old = take len (drop start cells.old) in take len (drop start cells.new) ≡ take at old ++ four ++ drop (at + 4) old }
{
    let at = start + at;
    cells[at..at + 4].copy_from_slice(&four);
}

// Reads once into the cells behind the window, of which there are some.
#[inline]
fn read_behind<I: Source>(
    cells: &mut [u8],
    start: usize,
    len: usize,
    input: &mut I,
    most: usize,
) -> Got
    requires tail { start + len < length cells.old }
    requires most { 0 < most }
    ensures bytes { FillsCells start len (I.left input.old) (I.left input.new) cells.old cells.new most result }
    ensures later { I.faults input.old ≤ I.faults input.new }
    ensures cause { result ≡ Got.Failed → Rose (I.faults input.old) (I.faults input.new) }
{
    let end = start + len;
    let count = (cells.len() - end).min(most);
    input.read(&mut cells[end..end + count])
}

// How many cells a read is offered at the least: half of the room that is left, but no more than
// are held, or a piece of a fixed size.
#[inline]
fn wanted(spare: usize, held: usize) -> usize
    requires { 0 < spare }
    ensures some { 0 < result }
    ensures within { result ≤ spare }
{
    (spare - spare / 2).min(held.max(LEAST_READ))
}

// Makes so many cells behind the window, and gives its start: it may be moved to the first cell.
#[inline(always)]
fn make_cells(cells: &mut Vec<u8>, room: usize, start: usize, len: usize, count: usize) -> usize
    requires window { start + len ≤ length cells.old.items }
    requires room { len + count ≤ room }
    requires within { (length cells.old.items ≤ room) × (room ≤ vec_capacity cells.old) }
    ensures tail { result + len + count ≤ length cells.new.items }
    ensures kept { take len (drop result cells.new.items) ≡ take len (drop start cells.old.items) }
    ensures within { (length cells.new.items ≤ room) × (room ≤ vec_capacity cells.new) }
{
    if count <= cells.len() - len - start {
        return start;
    }
    make_more(cells, room, start, len, count)
}

// The same where there are too few. The window is moved where that costs less than the bytes that
// were let go since it was moved last, or where no room is left behind it.
#[cold]
#[inline(never)]
fn make_more(cells: &mut Vec<u8>, room: usize, start: usize, len: usize, count: usize) -> usize
    requires window { start + len ≤ length cells.old.items }
    requires room { len + count ≤ room }
    requires within { (length cells.old.items ≤ room) × (room ≤ vec_capacity cells.old) }
    ensures tail { result + len + count ≤ length cells.new.items }
    ensures kept { take len (drop result cells.new.items) ≡ take len (drop start cells.old.items) }
    ensures within { (length cells.new.items ≤ room) × (room ≤ vec_capacity cells.new) }
{
    if start < len && count <= room - len - start {
        make(cells, room, start + len + count);
        return start;
    }
    move_to_front(cells, start, len);
    make(cells, room, len + count);
    0
}

// Makes the first cells, so many at the least, and twice as many as there are where the room allows.
fn make(cells: &mut Vec<u8>, room: usize, count: usize)
    requires count { count ≤ room }
    requires within { (length cells.old.items ≤ room) × (room ≤ vec_capacity cells.old) }
    ensures many { count ≤ length cells.new.items }
    ensures kept { take (length cells.old.items) cells.new.items ≡ cells.old.items }
    ensures longer { length cells.old.items ≤ length cells.new.items }
    ensures within { (length cells.new.items ≤ room) × (room ≤ vec_capacity cells.new) }
{
    let more = cells.len().saturating_mul(2).max(LEAST_CELLS);
    let len = more.max(count).min(room);
    let Ok(()) = cells.resize(len, 0) else {
        unreachable!()
    };
}

// Moves the window to the first cell.
fn move_to_front(cells: &mut [u8], start: usize, len: usize)
    requires { start + len ≤ length cells.old }
    ensures { take len cells.new ≡ take len (drop start cells.old) }
{
    cells.copy_within(start..start + len, 0);
}
