//! How bytes move between a connection, the buffers of its port and a caller.
ghost use Rattle.std.specs.Prelude.{◌≡◌, ◌<◌, ◌≤◌, ◌++◌, [], length, take};
ghost use Rattle.gate_hub.specs.Hubs.{TookWithin};
ghost use Rattle.mio_edge.specs.Wire.{Moves, WireReads, WireWrites};
ghost use Rattle.mio_edge.specs.Moving.{Receives, Sends, TakesIn};

use crate::Stream;
use gate_hub::{LinkGot, LinkPut};
use gate_io::Out;

/// Reads once into all the room of a buffer that is empty. It has some.
pub(crate) fn receive_from<S: Stream>(stream: &mut S, buffer: &mut Out) -> LinkGot
    requires empty { buffer.old.bytes ≡ [] }
    requires room { 0 < buffer.old.room }
    ensures some { Receives result buffer.old buffer.new }
    ensures moves { Moves (S.tells stream.old) (S.tells stream.new) (WireReads buffer.old.room buffer.new.bytes result) }
{
    let room = buffer.spare();
    let got = stream.receive(buffer.tail(room));
    match got {
        LinkGot::Bytes(count) => buffer.cut(count),
        LinkGot::NotReady | LinkGot::End | LinkGot::Failed => buffer.clear(),
    }
    got
}

/// Writes once what a buffer holds, which is something, and lets go what was taken.
pub(crate) fn send_from<S: Stream>(stream: &mut S, buffer: &mut Out) -> LinkPut
    requires some { 0 < length buffer.old.bytes }
    ensures front { Sends result buffer.old buffer.new }
    ensures moves { Moves (S.tells stream.old) (S.tells stream.new) (WireWrites buffer.old.bytes result) }
{
    let put = stream.send(buffer.bytes());
    if let LinkPut::Took(count) = put {
        buffer.drop_front(count);
    }
    put
}

/// Hands out the first of the bytes that are held, of which there are some.
pub(crate) fn hand_out(held: &mut Out, into: &mut [u8]) -> usize
    requires room { 0 < length into.old }
    requires held { 0 < length held.old.bytes }
    ensures some { 0 < result }
    ensures within { result ≤ length into.new }
    ensures bytes { take result into.new ++ held.new.bytes ≡ held.old.bytes }
    ensures room { held.new.room ≡ held.old.room }
{
    let count = held.bytes().len().min(into.len());
    into[..count].copy_from_slice(&held.bytes()[..count]);
    held.drop_front(count);
    count
}

/// Takes as many of the bytes as there is room for.
#[inline(always)]
pub(crate) fn take_in(held: &mut Out, from: &[u8]) -> LinkPut
    requires { 0 < length from.now }
    ensures within { TookWithin from.now result }
    ensures bytes { TakesIn result from.now held.old held.new }
    ensures full { result ≡ LinkPut.NotReady → held.old.room ≤ length held.old.bytes }
{
    let count = from.len().min(held.spare());
    if count == 0 {
        return LinkPut::NotReady;
    }
    held.push(&from[..count]);
    LinkPut::Took(count)
}
