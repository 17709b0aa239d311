//! Where messages that follow one another end.
ghost use Rattle.std.specs.Prelude.{◌≡◌, ◌<◌, ℕ, List, [], length, take};
ghost use Rattle.stream_messages.specs.Feeding.{HasRead, Answers, Passes, TakesOne};
ghost use Rattle.stream_messages.specs.Scanning.{begins, first_part, tells_bools, step_of, item_of, field_in, value_in, waits, settles_in, takes};

use crate::fields::{header_size, pass_fields};
use crate::levels::{Settled, settle};
use crate::parts::{BinaryPart, CompactPart, Next, Part, any_or_end};
use crate::{binary, compact};
use protocol_traits::{Nest, Slot};
use std::marker::Model;
use thrift_value::Kind;

/// The protocols whose messages tell their own end.
#[derive(Clone, Copy)]
pub enum Wire {
    Binary,
    Compact,
}

/// What came of a piece of a stream.
#[derive(Clone, Copy)]
pub enum Cut {
    /// The whole piece belongs to a message that doesn't end with it.
    More,
    /// The message ends behind so many bytes of the piece.
    Whole(usize),
    /// With the last of so many bytes of the piece no message begins as this one, or a value is called for that lies too deep.
    Bad(usize),
    /// With so many bytes of the piece the message has as many as the limit allows, and isn't whole.
    Over(usize),
}

/// What came of one byte.
#[derive(Clone, Copy)]
enum Taken {
    More,
    Whole,
    Bad,
    Over,
}

/// A message that is gone through, piece by piece.
#[derive(Drop)]
pub struct Scan {
    wire: Wire,
    limit: usize,
    taken: usize,
    part: Part,
    nest: Nest,
}

impl Model for Scan {
    ghost use Rattle.stream_messages.specs.Scanning.{Scanning};

    ghost Value = { Scanning };

    ghost view = { λ s. record { wire = s.wire; limit = s.limit; taken = s.taken; part = s.part; nest = s.nest } };
}

impl Scan {
    /// Before the first byte of a message of at most `limit` bytes.
    pub fn start(wire: Wire, limit: usize) -> Scan
        requires { 0 < limit }
        ensures begins { result ≡ begins wire limit }
        ensures read { HasRead result [] }
    {
        Scan {
            wire,
            limit,
            taken: 0,
            part: first_part(wire),
            nest: Nest::new(Slot::Fields(0)),
        }
    }

    /// Begins anew, before the first byte of a message of at most `limit` bytes.
    pub fn restart(&mut self, wire: Wire, limit: usize)
        requires { 0 < limit }
        ensures begins { self.new ≡ begins wire limit }
        ensures read { HasRead self.new [] }
    {
        self.wire = wire;
        self.limit = limit;
        self.taken = 0;
        self.part = first_part(wire);
        self.nest.restart(Slot::Fields(0));
    }

    /// Goes on with the bytes that came next. Every earlier answer was `More`.
    pub fn feed(&mut self, piece: &[u8]) -> Cut
        ensures { (front : List ℕ) → HasRead self.old front → Answers self.old front piece.now result self.new }
    {
        let mut at = 0;
        while at < piece.len() {
            at += self.pass(&piece[at..]);
            match self.read(piece[at]) {
                Taken::More => at += 1,
                Taken::Whole => return Cut::Whole(at + 1),
                Taken::Bad => return Cut::Bad(at + 1),
                Taken::Over => return Cut::Over(at + 1),
            }
        }
        Cut::More
    }

    // Passes over what is known to belong to the message, but not over the last byte, of the piece or of the limit.
    #[inline(always)]
    fn pass(&mut self, piece: &[u8]) -> usize
        requires { 0 < length piece.now }
        ensures within { result < length piece.now }
        ensures passes { (front : List ℕ) → HasRead self.old front → Passes self.old front (take result piece.now) self.new }
    {
        match (self.wire, self.part) {
            (_, Part::Any(left)) => self.pass_any(left, piece),
            (Wire::Binary, Part::Item) => self.pass_fields(piece),
            (Wire::Binary, Part::Binary(BinaryPart::Start)) => self.pass_header(piece),
            _ => 0,
        }
    }

    // Passes over bytes of any value.
    #[inline(always)]
    fn pass_any(&mut self, left: u32, piece: &[u8]) -> usize
        requires some { 0 < length piece.now }
        requires at { self.old.part ≡ Part.Any left }
        ensures within { result < length piece.now }
        ensures passes { (front : List ℕ) → HasRead self.old front → Passes self.old front (take result piece.now) self.new }
    {
        let room = self.limit.saturating_sub(self.taken);
        let most = (left as usize).min(room).min(piece.len());
        if most <= 1 {
            return 0;
        }
        let count = most - 1;
        self.taken += count;
        self.part = Part::Any(left - count as u32);
        count
    }

    // Passes over whole fields of a struct.
    fn pass_fields(&mut self, piece: &[u8]) -> usize
        requires some { 0 < length piece.now }
        requires at { (self.old.wire ≡ Wire.Binary) × (self.old.part ≡ Part.Item) }
        ensures within { result < length piece.now }
        ensures passes { (front : List ℕ) → HasRead self.old front → Passes self.old front (take result piece.now) self.new }
    {
        let room = self.limit.saturating_sub(self.taken).min(piece.len());
        let count = pass_fields(&mut self.nest, &piece[..room.saturating_sub(1)]);
        self.taken += count;
        count
    }

    // Passes over a whole header, and over whole fields behind it.
    fn pass_header(&mut self, piece: &[u8]) -> usize
        requires some { 0 < length piece.now }
        requires at { (self.old.wire ≡ Wire.Binary) × (self.old.part ≡ Part.Binary BinaryPart.Start) }
        ensures within { result < length piece.now }
        ensures passes { (front : List ℕ) → HasRead self.old front → Passes self.old front (take result piece.now) self.new }
    {
        let Some(Slot::Fields(_)) = self.nest.top() else {
            return 0;
        };
        let room = self.limit.saturating_sub(self.taken).min(piece.len());
        let Some(size) = header_size(&piece[..room.saturating_sub(1)]) else {
            return 0;
        };
        self.taken += size;
        self.part = Part::Item;
        size + self.pass_fields(&piece[size..])
    }

    // Goes on with one byte, in the words of the protocol's reader.
    fn read(&mut self, byte: u8) -> Taken
        ensures { (front : List ℕ) → HasRead self.old front → TakesOne self.old front byte result self.new }
    {
        self.take(byte)
    }

    // Goes on with one byte.
    fn take(&mut self, byte: u8) -> Taken
        ensures { (result, self.new) ≡ takes byte self.old }
    {
        self.taken = self.taken.saturating_add(1);
        match step(self.wire, self.part, &mut self.nest, byte) {
            Next::Part(part) => self.wait(part),
            Next::Bad => Taken::Bad,
            Next::Ended => self.settle(),
        }
    }

    // An item ended: what is called for behind it?
    fn settle(&mut self) -> Taken
        ensures { (result, self.new) ≡ settles_in self.old }
    {
        match settle(&mut self.nest, tells_bools(self.wire)) {
            Settled::Whole => Taken::Whole,
            Settled::TooDeep => Taken::Bad,
            Settled::Item => self.wait(Part::Item),
        }
    }

    // The next byte is part of this, if there may be one.
    fn wait(&mut self, part: Part) -> Taken
        ensures { (result, self.new) ≡ waits part self.old }
    {
        self.part = part;
        if self.taken >= self.limit {
            return Taken::Over;
        }
        Taken::More
    }
}

/// What the first byte of a message is part of.
fn first_part(wire: Wire) -> Part
    ensures { result ≡ first_part wire }
{
    match wire {
        Wire::Binary => Part::Binary(BinaryPart::Start),
        Wire::Compact => Part::Compact(CompactPart::Start),
    }
}

/// Whether a field's byte tells the value of a bool.
fn tells_bools(wire: Wire) -> bool
    ensures { result ≡ tells_bools wire }
{
    matches!(wire, Wire::Compact)
}

/// A byte of this part.
#[inline(always)]
fn step(wire: Wire, part: Part, nest: &mut Nest, byte: u8) -> Next
    ensures { (result, nest.new) ≡ step_of wire part byte nest.old }
{
    match part {
        Part::Item => item(wire, nest, byte),
        Part::Any(left) => any_or_end(left.saturating_sub(1)),
        Part::Binary(part) => binary::step(part, nest, byte),
        Part::Compact(part) => compact::step(part, nest, byte),
    }
}

/// The first byte of the item that the innermost level calls for.
fn item(wire: Wire, nest: &mut Nest, byte: u8) -> Next
    ensures { (result, nest.new) ≡ item_of wire byte nest.old }
{
    let Some(level) = nest.top() else {
        return Next::Bad;
    };
    match level {
        Slot::Fields(last) => field(wire, last, nest, byte),
        Slot::Value(kind, _) | Slot::Elements(kind, _) => value(wire, kind, nest, byte),
        Slot::Keys(kind, _, _) | Slot::Values(_, kind, _) => value(wire, kind, nest, byte),
    }
}

/// The first byte of a field behind the one with this id, or of a struct's end.
#[inline(always)]
fn field(wire: Wire, last: i16, nest: &mut Nest, byte: u8) -> Next
    ensures { (result, nest.new) ≡ field_in wire last byte nest.old }
{
    match wire {
        Wire::Binary => binary::field(nest, byte),
        Wire::Compact => compact::field(last, nest, byte),
    }
}

/// The first byte of a value of this kind.
#[inline(always)]
fn value(wire: Wire, kind: Kind, nest: &mut Nest, byte: u8) -> Next
    ensures { (result, nest.new) ≡ value_in wire kind byte nest.old }
{
    match wire {
        Wire::Binary => binary::value(kind, nest, byte),
        Wire::Compact => compact::value(kind, nest, byte),
    }
}
