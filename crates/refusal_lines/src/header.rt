//! What is told of a frame's header.
ghost use Rattle.std.specs.Prelude.{◌≡◌, ◌≤◌, ◌<◌, ◌^◌, length, take};
ghost use Rattle.protocol_traits.specs.Heads.{header_of};
ghost use Rattle.translate_verdicts.specs.Body.{source_in};
ghost use Rattle.refusal_lines.specs.Headers.{headed_of, header_by, header_in};

use binary_protocol::BinaryRead;
use compact_protocol::CompactRead;
use json_protocol::JsonRead;
use protocol_traits::{Head, Proto, WireRead};
use std::marker::Model;

/// So many bytes of a name are told at the most.
pub const NAME_BYTES: usize = 64;

/// What is told of a header.
#[derive(Drop)]
pub(crate) struct Headed {
    front: [u8; NAME_BYTES],
    kept: usize,
    is_longer: bool,
    seq: i32,
    place: usize,
}

/// Clauses see the front of the name, whether it is longer, the sequence number and the name's place.
impl Model for Headed {
    ghost use Rattle.std.specs.Prelude.{◌≤◌, take};
    ghost use Rattle.refusal_lines.specs.Headers.{HeaderTold};
    ghost use Rattle.refusal_lines.specs.declared.header.TheConstants.{NAME_BYTES};

    ghost Value = { HeaderTold };

    ghost view = { λ h. record { front = take h.kept h.front; is_longer = h.is_longer; seq = h.seq; place = h.place } };

    ghost invariant = { λ h. h.kept ≤ NAME_BYTES };
}

impl Headed {
    /// What is told of a header whose name stands at this place.
    fn of(head: &Head<'_>, place: usize) -> Headed
        ensures { result ≡ headed_of (header_of head.now) place }
    {
        let name = front_of(head.name);
        let mut front = [0; NAME_BYTES];
        lay(&mut front, name);
        Headed {
            front,
            kept: name.len(),
            is_longer: head.name.len() > NAME_BYTES,
            seq: head.seq,
            place,
        }
    }

    /// The same at another place.
    fn at(self, place: usize) -> Headed
        ensures { result ≡ record self { place = place } }
    {
        Headed { place, ..self }
    }

    /// The name, or the front of a longer one.
    pub(crate) fn front(&self) -> &[u8]
        ensures front { result.now ≡ self.now.front }
        ensures short { length result.now ≤ NAME_BYTES }
    {
        &self.front[..self.kept]
    }

    /// Whether the name is longer.
    pub(crate) fn is_longer(&self) -> bool
        ensures { result ≡ self.now.is_longer }
    {
        self.is_longer
    }

    /// The sequence number.
    pub(crate) fn seq(&self) -> i32
        ensures { result ≡ self.now.seq }
    {
        self.seq
    }

    /// The name's place in the frame.
    pub(crate) fn place(&self) -> usize
        ensures { result ≡ self.now.place }
    {
        self.place
    }
}

/// A name, or the front of a longer one.
fn front_of(name: &[u8]) -> &[u8]
    ensures front { result.now ≡ take NAME_BYTES name.now }
    ensures short { length result.now ≤ NAME_BYTES }
{
    if name.len() > NAME_BYTES {
        &name[..NAME_BYTES]
    } else {
        name
    }
}

/// Lays bytes into the first cells.
fn lay(cells: &mut [u8], bytes: &[u8])
    requires { length bytes.now ≤ length cells.old }
    ensures laid { take (length bytes.now) cells.new ≡ bytes.now }
    ensures kept { length cells.new ≡ length cells.old }
{
    cells[..bytes.len()].copy_from_slice(bytes);
}

/// What is told of the header of a frame of this protocol, where it is whole.
///
/// `room` has at least as many bytes as the frame.
#[tactic(auto, unfolding(crate::specs::Headers::header_in))]
pub(crate) fn read_header(from: Proto, frame: &[u8], room: &mut [u8]) -> Option<Headed>
    requires room { length frame.now ≤ length room.old }
    requires size { length frame.now < 2 ^ 31 }
    ensures { result ≡ header_in from frame.now }
{
    match from {
        Proto::Binary => header_by::<BinaryRead>(frame, room),
        Proto::Compact => header_by::<CompactRead>(frame, room),
        Proto::Json => header_by::<JsonRead>(frame, room),
    }
}

/// The same for the reader of the frame's protocol.
fn header_by<'f, R: WireRead<'f>>(frame: &'f [u8], room: &'f mut [u8]) -> Option<Headed>
    requires room { length frame.now ≤ length room.old }
    requires size { length frame.now < 2 ^ 31 }
    ensures { result ≡ header_by (source_in R.ReadRules) frame.now }
{
    let mut reader = R::over(frame, room);
    let headed = match reader.head() {
        Ok(head) => Headed::of(&head, 0),
        Err(_) => return None,
    };
    Some(headed.at(reader.place()))
}
