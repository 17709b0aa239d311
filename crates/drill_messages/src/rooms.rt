//! One message: its frame behind those that wait, and its length in each protocol.
ghost use Rattle.std.specs.Prelude.{◌≡◌, ◌≤◌, ◌<◌, ◌+◌, ◌++◌, [], length, pos, IfOk};
ghost use Rattle.framed_transport.specs.Frames.{framed};
ghost use Rattle.drill_messages.specs.Events.{call, body_events};
ghost use Rattle.drill_messages.specs.Messages.{message, behind_message};
ghost use Rattle.drill_messages.specs.Spellings.{binary_of, spelled};
ghost use Rattle.drill_messages.specs.Views.{all_fields};
ghost use Rattle.drill_messages.specs.Writers.{TakesAll};
ghost use Rattle.drill_messages.specs.Rooms.{IsOpen, IsWithin, lengths_of, sum_of};

use crate::Totals;
use crate::draws::Draws;
use crate::item::Item;
use crate::making::draw_items;
use crate::putting::put_message;
use crate::sizes::{FRAME_ROOM, MESSAGE_ROOM, MOST_ITEMS, MOST_MESSAGES, STREAM_ROOM, TOTAL_ROOM};
use binary_protocol::BinaryWrite;
use compact_protocol::CompactWrite;
use framed_transport::{begin, close};
use gate_base::OutOfMemory;
use gate_io::Out;
use json_protocol::JsonWrite;
use protocol_traits::WireWrite;
use std::alloc::Global;

/// Where messages are spelled: the frames that wait to be written, and the last message in the other protocols.
#[derive(Drop)]
pub struct Rooms {
    pub stream: Out,
    pub compact: Out,
    pub json: Out,
}

/// The rooms, which take all the memory that making messages needs.
///
/// `OutOfMemory`: it was not found.
pub fn open(alloc: Global) -> Result<Rooms, OutOfMemory>
    ensures { IfOk result (λ rooms. IsOpen rooms × (rooms.stream.bytes ≡ [])) }
{
    Ok(Rooms {
        stream: Out::open(alloc, STREAM_ROOM)?,
        compact: Out::open(alloc, MESSAGE_ROOM)?,
        json: Out::open(alloc, MESSAGE_ROOM)?,
    })
}

/// Makes the next message, appends its frame to those that wait and says how long it is.
pub fn make_one(rooms: &mut Rooms, draws: &mut Draws, seq: u64) -> Totals
    requires seq { seq < MOST_MESSAGES }
    requires open { IsOpen rooms.old }
    requires room { length rooms.old.stream.bytes + FRAME_ROOM ≤ STREAM_ROOM }
    ensures open { IsOpen rooms.new }
    ensures stream { rooms.new.stream.bytes ≡ rooms.old.stream.bytes ++ framed (binary_of (message seq draws.old.state)) }
    ensures lengths { result ≡ lengths_of (message seq draws.old.state) }
    ensures within { IsWithin result MESSAGE_ROOM }
    ensures state { draws.new.state ≡ behind_message draws.old.state }
{
    let items = draw_items(draws);
    Totals {
        binary: put_frame(seq, &items, &mut rooms.stream),
        compact: length_in::<CompactWrite>(seq, &items, &mut rooms.compact),
        json: length_in::<JsonWrite>(seq, &items, &mut rooms.json),
    }
}

/// Appends the message's frame in the Binary protocol, and says how long the message is.
#[tactic(auto, unfolding(crate::specs::Spellings::binary_of))]
fn put_frame(seq: u64, items: &[Item], out: &mut Out) -> u64
    requires seq { seq < MOST_MESSAGES }
    requires few { length items.now ≤ MOST_ITEMS }
    requires room { length out.old.bytes + FRAME_ROOM ≤ out.old.room }
    requires small { out.old.room ≤ STREAM_ROOM }
    ensures out { out.new ≡ record out.old { bytes = out.old.bytes ++ framed (binary_of (record { seq = seq; items = all_fields items.now })) } }
    ensures length { result ≡ length (binary_of (record { seq = seq; items = all_fields items.now })) }
    ensures within { result ≤ MESSAGE_ROOM }
{
    let at = begin(out);
    put_message::<BinaryWrite>(seq, items, out);
    let length = out.bytes().len() - (at + 4);
    close(out, at);
    length as u64
}

/// How long the message is in a protocol.
fn length_in<W: WireWrite>(seq: u64, items: &[Item], room: &mut Out) -> u64
    requires seq { seq < MOST_MESSAGES }
    requires takes { TakesAll W.name_bar W.bar }
    requires few { length items.now ≤ MOST_ITEMS }
    requires room { MESSAGE_ROOM ≤ room.old.room }
    ensures room { room.new.room ≡ room.old.room }
    ensures length { result ≡ length (W.plain_head (call (pos seq)) ++ spelled W.plain W.after W.begun (body_events (all_fields items.now))) }
    ensures within { result ≤ MESSAGE_ROOM }
{
    room.clear();
    put_message::<W>(seq, items, room);
    room.bytes().len() as u64
}

/// Both together.
pub fn added(totals: Totals, more: Totals) -> Totals
    requires totals { IsWithin totals TOTAL_ROOM }
    requires more { IsWithin more MESSAGE_ROOM }
    ensures { result ≡ sum_of totals more }
{
    Totals {
        binary: totals.binary + more.binary,
        compact: totals.compact + more.compact,
        json: totals.json + more.json,
    }
}
