//! The writer. What it writes rests on no earlier event; it only counts the open levels.
ghost use Rattle.std.specs.Prelude.{◌≡◌, ◌+◌, ◌≤◌, ◌<◌, ◌^◌, ◌∷◌, ◌++◌, length, take};
ghost use Rattle.thrift_value.specs.Items.{item_of};
ghost use Rattle.protocol_traits.specs.declared.nest.TheConstants.{DEPTH};
ghost use Rattle.protocol_traits.specs.Heads.{header_of};
ghost use Rattle.protocol_traits.specs.Follow.{depth_after};
ghost use Rattle.protocol_traits.specs.Room.{IsSized};
ghost use Rattle.binary_protocol.specs.Grammar.{size as size_of, string};
ghost use Rattle.binary_protocol.specs.Codes.{code_of_kind};
ghost use Rattle.binary_protocol.specs.Plain.{plain, plain_head};

use crate::codes::{code_of_kind, code_of_type};
use cell_writes::{lay, lay_short};
use gate_io::Out;
use protocol_traits::{Head, Mark};
use thrift_value::{Event, Kind};

/// The bytes of a strict header but for its name's.
const AROUND_NAME: usize = 12;

/// A writer of the Binary protocol, of one message.
#[derive(Drop)]
pub struct BinaryWrite {
    depth: usize,
}

impl BinaryWrite {
    /// The writer before the header.
    #[inline(always)]
    pub fn open() -> BinaryWrite
        ensures { result ≡ record { depth = 1 } }
    {
        BinaryWrite { depth: 1 }
    }

    /// Counts an event's levels.
    #[inline(always)]
    pub fn count(&mut self, event: &Event<'_>)
        requires open { 0 < self.old.depth }
        requires shallow { depth_after (item_of event.now) self.old.depth ≤ DEPTH }
        ensures { self.new ≡ record { depth = depth_after (item_of event.now) self.old.depth } }
    {
        match *event {
            Event::Stop | Event::End => self.depth -= 1,
            Event::StructBegin
            | Event::MapBegin(_, _, _)
            | Event::SetBegin(_, _)
            | Event::ListBegin(_, _) => self.depth += 1,
            _ => {}
        }
    }
}

/// Appends an event's plain spelling.
#[inline(always)]
pub fn put_event(event: &Event<'_>, mark: Mark, out: &mut Out)
    requires sized { IsSized (item_of event.now) }
    requires room { length out.old.bytes + length (plain (item_of event.now) mark) ≤ out.old.room }
    ensures { out.new ≡ record out.old { bytes = out.old.bytes ++ plain (item_of event.now) mark } }
{
    match *event {
        Event::Field(id, kind) => {
            let [high, low] = id.to_be_bytes();
            out.push(&[code_of_kind(kind), high, low]);
        }
        Event::Stop => out.push(&[0]),
        Event::Bool(flag) => out.push(&[flag as u8]),
        Event::I8(value) => out.push(&value.to_be_bytes()),
        Event::I16(value) => out.push(&value.to_be_bytes()),
        Event::I32(value) => out.push(&value.to_be_bytes()),
        Event::I64(value) => out.push(&value.to_be_bytes()),
        Event::Double(eight) => out.push(&eight),
        Event::Str(text) => put_string(text, out),
        Event::EmptyMap => put_map(mark.key, mark.value, 0, out),
        Event::MapBegin(key, value, size) => put_map(key, value, size, out),
        Event::SetBegin(kind, size) | Event::ListBegin(kind, size) => put_elements(kind, size, out),
        Event::Uuid(sixteen) => out.push(&sixteen),
        Event::StructBegin | Event::End | Event::NumberText(_) | Event::UnknownText(_) => {}
    }
}

/// Appends a length and so many bytes.
#[inline(always)]
fn put_string(bytes: &[u8], out: &mut Out)
    requires size { length bytes.now < 2 ^ 31 }
    requires room { length out.old.bytes + length (string bytes.now) ≤ out.old.room }
    ensures { out.new ≡ record out.old { bytes = out.old.bytes ++ string bytes.now } }
{
    out.push(&(bytes.len() as u32).to_be_bytes());
    out.push(bytes);
}

/// Appends what stands before the elements of a list or set.
#[inline(always)]
fn put_elements(kind: Kind, size: u32, out: &mut Out)
    requires room { length out.old.bytes + 5 ≤ out.old.room }
    ensures { out.new ≡ record out.old { bytes = out.old.bytes ++ (code_of_kind kind ∷ size_of size) } }
{
    let [a, b, c, d] = size.to_be_bytes();
    out.push(&[code_of_kind(kind), a, b, c, d]);
}

/// Appends what stands before the pairs of a map.
#[inline(always)]
fn put_map(key: Kind, value: Kind, size: u32, out: &mut Out)
    requires room { length out.old.bytes + 6 ≤ out.old.room }
    ensures { out.new ≡ record out.old { bytes = out.old.bytes ++ (code_of_kind key ∷ code_of_kind value ∷ size_of size) } }
{
    let [a, b, c, d] = size.to_be_bytes();
    out.push(&[code_of_kind(key), code_of_kind(value), a, b, c, d]);
}

/// Appends the strict header.
#[inline(always)]
pub fn put_head(head: &Head<'_>, out: &mut Out)
    requires size { length head.now.name.now < 2 ^ 31 }
    requires room { length out.old.bytes + length (plain_head (header_of head.now)) ≤ out.old.room }
    ensures { out.new ≡ record out.old { bytes = out.old.bytes ++ plain_head (header_of head.now) } }
{
    let cells = out.tail(head.name.len() + AROUND_NAME);
    lay_head(cells, 0, head);
}

/// Lays the strict header into the cells from a place on, and gives the place behind it.
#[inline(always)]
pub fn lay_head(cells: &mut [u8], to: usize, head: &Head<'_>) -> usize
    requires size { length head.now.name.now < 2 ^ 31 }
    requires room { to + (length head.now.name.now + AROUND_NAME) ≤ length cells.old }
    ensures laid { take result cells.new ≡ take to cells.old ++ plain_head (header_of head.now) }
    ensures place { result ≡ to + (length head.now.name.now + AROUND_NAME) }
{
    let [a, b, c, d] = (head.name.len() as u32).to_be_bytes();
    let code = code_of_type(head.mtype);
    let to = lay(cells, to, &[0x80, 1, 0, code, a, b, c, d]);
    let to = lay_short(cells, to, head.name);
    lay(cells, to, &head.seq.to_be_bytes())
}
