//! A side of a session: one whose peer sends and takes messages without lengths, and which is read and written in frames.
ghost use Rattle.std.specs.Prelude.{◌≡◌, ◌<◌, ◌^◌, length, IfOk};
ghost use Rattle.gate_base.specs.Causes.{Rose};
ghost use Rattle.gate_hub.specs.Hubs.{Later, GotWithin, TookWithin, LinkReads, LinkWrites};
ghost use Rattle.stream_messages.specs.Framing.{IsIdle};
ghost use Rattle.stream_messages.specs.Lanes.{new_lane, FramesReads, StripsWrites, LaneGoes, Ends};

use crate::framer::{Behind, Framer};
use crate::gathering::gather;
use crate::scan::Wire;
use crate::stripper::Stripper;
use gate_base::OutOfMemory;
use gate_hub::{Hub, LinkGot, LinkPut, Side};
use std::alloc::Global;

/// Contents of fewer bytes are put together, so many at the most.
const GATHERED: usize = 1024;

/// What came of the side, as frames, and what is written to it, without their lengths.
#[derive(Drop)]
pub struct Lane {
    framer: Framer,
    stripper: Stripper,
}

impl Lane {
    /// A side of which nothing came, and to which nothing was written.
    ///
    /// `OutOfMemory`: the room for a message was not found.
    pub fn open(alloc: Global, wire: Wire, limit: usize) -> Result<Lane, OutOfMemory>
        requires some { 0 < limit }
        requires limit { limit < 2 ^ 31 }
        ensures { IfOk result (λ lane. lane ≡ new_lane wire limit) }
    {
        Ok(Lane {
            framer: Framer::open(alloc, wire, limit)?,
            stripper: Stripper::new(),
        })
    }

    /// As if nothing had come or been written.
    pub fn restart(&mut self)
        ensures { self.new ≡ new_lane self.old.framer.wire self.old.framer.limit }
    {
        self.framer.restart();
        self.stripper = Stripper::new();
    }

    /// Reads frames of a side of session k into a slice that isn't empty.
    pub fn read<H: Hub>(&mut self, hub: &mut H, k: u64, side: Side, into: &mut [u8]) -> LinkGot
        requires { 0 < length into.old }
        ensures within { GotWithin into.new result }
        ensures size { length into.new ≡ length into.old }
        ensures goes { LaneGoes (H.tells hub.old) (H.tells hub.new) self.old self.new k side (LinkReads into.new result) }
        ensures later { Later (H.counts hub.old) (H.counts hub.new) }
        ensures kept { H.kept hub.new ≡ H.kept hub.old }
        ensures cause { result ≡ LinkGot.Failed → Rose ((H.counts hub.old).link_faults k side) ((H.counts hub.new).link_faults k side) }
        ensures wait { result ≡ LinkGot.NotReady → Rose ((H.counts hub.old).waits k side) ((H.counts hub.new).waits k side) }
    {
        read_frames(&mut self.framer, hub, k, side, into)
    }

    /// Writes to a side of session k the front of a slice of frames, which isn't empty.
    ///
    /// What is passed on goes in one call of the hub, so a call that fails or isn't ready takes nothing.
    pub fn write<H: Hub>(&mut self, hub: &mut H, k: u64, side: Side, from: &[u8]) -> LinkPut
        requires { 0 < length from.now }
        ensures within { TookWithin from.now result }
        ensures goes { LaneGoes (H.tells hub.old) (H.tells hub.new) self.old self.new k side (LinkWrites from.now result) }
        ensures later { Later (H.counts hub.old) (H.counts hub.new) }
        ensures kept { H.kept hub.new ≡ H.kept hub.old }
        ensures cause { result ≡ LinkPut.Failed → Rose ((H.counts hub.old).link_faults k side) ((H.counts hub.new).link_faults k side) }
        ensures wait { result ≡ LinkPut.NotReady → Rose ((H.counts hub.old).waits k side) ((H.counts hub.new).waits k side) }
    {
        write_contents(&mut self.stripper, hub, k, side, from)
    }
}

/// Hands out what is known of whole messages, or else reads on.
fn read_frames<H: Hub>(
    framer: &mut Framer,
    hub: &mut H,
    k: u64,
    side: Side,
    into: &mut [u8],
) -> LinkGot
    requires { 0 < length into.old }
    ensures within { GotWithin into.new result }
    ensures size { length into.new ≡ length into.old }
    ensures goes { FramesReads (H.tells hub.old) (H.tells hub.new) framer.old framer.new k side into.new result }
    ensures later { Later (H.counts hub.old) (H.counts hub.new) }
    ensures kept { H.kept hub.new ≡ H.kept hub.old }
    ensures cause { result ≡ LinkGot.Failed → Rose ((H.counts hub.old).link_faults k side) ((H.counts hub.new).link_faults k side) }
    ensures wait { result ≡ LinkGot.NotReady → Rose ((H.counts hub.old).waits k side) ((H.counts hub.new).waits k side) }
{
    let count = framer.hand_out(into);
    if count > 0 {
        return LinkGot::Bytes(count);
    }
    match framer.behind() {
        Behind::Messages => read_on(framer, hub, k, side, into),
        // After a mark that is due its four bytes were handed out.
        Behind::Mark => LinkGot::End,
        Behind::Nothing => LinkGot::End,
        Behind::End => hub.read(k, side, into),
    }
}

/// Reads on until a message is whole, the side has ended, or it isn't ready.
fn read_on<H: Hub>(framer: &mut Framer, hub: &mut H, k: u64, side: Side, into: &mut [u8]) -> LinkGot
    requires some { 0 < length into.old }
    requires idle { IsIdle framer.old }
    requires messages { framer.old.behind ≡ Behind.Messages }
    ensures within { GotWithin into.new result }
    ensures size { length into.new ≡ length into.old }
    ensures goes { FramesReads (H.tells hub.old) (H.tells hub.new) framer.old framer.new k side into.new result }
    ensures later { Later (H.counts hub.old) (H.counts hub.new) }
    ensures kept { H.kept hub.new ≡ H.kept hub.old }
    ensures cause { result ≡ LinkGot.Failed → Rose ((H.counts hub.old).link_faults k side) ((H.counts hub.new).link_faults k side) }
    ensures wait { result ≡ LinkGot.NotReady → Rose ((H.counts hub.old).waits k side) ((H.counts hub.new).waits k side) }
{
    loop {
        match framer.fill(hub, k, side) {
            LinkGot::Bytes(_) => {
                let count = framer.hand_out(into);
                if count > 0 {
                    return LinkGot::Bytes(count);
                }
            }
            LinkGot::End => return end(framer, into),
            LinkGot::NotReady => return LinkGot::NotReady,
            LinkGot::Failed => return LinkGot::Failed,
        }
    }
}

/// The side has ended: where that was inside a message, a byte that says so is handed out.
fn end(framer: &mut Framer, into: &mut [u8]) -> LinkGot
    requires some { 0 < length into.old }
    requires idle { IsIdle framer.old }
    requires messages { framer.old.behind ≡ Behind.Messages }
    ensures within { GotWithin into.new result }
    ensures size { length into.new ≡ length into.old }
    ensures ends { Ends framer.old framer.new into.new result }
    ensures failed { result ≡ LinkGot.Failed → ⊥ }
    ensures waits { result ≡ LinkGot.NotReady → ⊥ }
{
    if framer.end() {
        return LinkGot::Bytes(framer.hand_out(into));
    }
    LinkGot::End
}

/// Passes on the contents of the frames in one call of the hub: a long one alone, and short ones together.
fn write_contents<H: Hub>(
    stripper: &mut Stripper,
    hub: &mut H,
    k: u64,
    side: Side,
    from: &[u8],
) -> LinkPut
    requires { 0 < length from.now }
    ensures within { TookWithin from.now result }
    ensures goes { StripsWrites (H.tells hub.old) (H.tells hub.new) stripper.old stripper.new k side from.now result }
    ensures later { Later (H.counts hub.old) (H.counts hub.new) }
    ensures kept { H.kept hub.new ≡ H.kept hub.old }
    ensures cause { result ≡ LinkPut.Failed → Rose ((H.counts hub.old).link_faults k side) ((H.counts hub.new).link_faults k side) }
    ensures wait { result ≡ LinkPut.NotReady → Rose ((H.counts hub.old).waits k side) ((H.counts hub.new).waits k side) }
{
    let (behind, head) = stripper.behind_length(from);
    let count = behind.left().min(from.len() - head);
    if count == 0 {
        *stripper = behind;
        return LinkPut::Took(head);
    }
    if head + count < from.len() && count < GATHERED {
        return write_gathered(stripper, hub, k, side, from);
    }
    match hub.write(k, side, &from[head..head + count]) {
        LinkPut::Took(taken) => {
            *stripper = behind.passed(taken);
            LinkPut::Took(head + taken)
        }
        LinkPut::NotReady => LinkPut::NotReady,
        LinkPut::Failed => LinkPut::Failed,
    }
}

/// Passes on what fits in a room of the contents of the frames, in one call of the hub.
fn write_gathered<H: Hub>(
    stripper: &mut Stripper,
    hub: &mut H,
    k: u64,
    side: Side,
    from: &[u8],
) -> LinkPut
    requires { 0 < length from.now }
    ensures within { TookWithin from.now result }
    ensures goes { StripsWrites (H.tells hub.old) (H.tells hub.new) stripper.old stripper.new k side from.now result }
    ensures later { Later (H.counts hub.old) (H.counts hub.new) }
    ensures kept { H.kept hub.new ≡ H.kept hub.old }
    ensures cause { result ≡ LinkPut.Failed → Rose ((H.counts hub.old).link_faults k side) ((H.counts hub.new).link_faults k side) }
    ensures wait { result ≡ LinkPut.NotReady → Rose ((H.counts hub.old).waits k side) ((H.counts hub.new).waits k side) }
{
    let mut room = [0; GATHERED];
    let all = gather(stripper, from, &mut room);
    if all.filled == 0 {
        *stripper = all.behind;
        return LinkPut::Took(all.taken);
    }
    match hub.write(k, side, &room[..all.filled]) {
        LinkPut::Took(count) if count == all.filled => {
            *stripper = all.behind;
            LinkPut::Took(all.taken)
        }
        LinkPut::Took(count) => {
            let sent = gather(stripper, from, &mut room[..count]);
            *stripper = sent.behind;
            LinkPut::Took(sent.taken)
        }
        LinkPut::NotReady => LinkPut::NotReady,
        LinkPut::Failed => LinkPut::Failed,
    }
}
