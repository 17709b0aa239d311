//! What came of a side without lengths, and is to be handed out as frames.
ghost use Rattle.std.specs.Prelude.{◌≡◌, ◌≢◌, ◌+◌, ◌<◌, ◌≤◌, ◌^◌, [], ◌∷◌, ◌++◌, true, false, length, take, drop, min, IfOk};
ghost use Rattle.std.specs.Int.{w32, to_be_bytes};
ghost use Rattle.gate_base.specs.Causes.{Rose};
ghost use Rattle.gate_hub.specs.Hubs.{Later};
ghost use Rattle.stream_messages.specs.Filling.{ReadsInto, Appends, TakesIn, count_of};
ghost use Rattle.stream_messages.specs.Framing.{new_framer, Gives, Keeps, KeepsEnded, IsIdle, IsOut};
ghost use Rattle.stream_messages.specs.Messages.{mark};

use crate::scan::Wire;
use crate::search::{Front, Search};
use gate_base::OutOfMemory;
use gate_hub::{Hub, LinkGot, Side};
use gate_io::Out;
use std::alloc::Global;
use std::marker::Model;

/// The length -1, which says that no end of a message can be found.
const MARK: [u8; 4] = [0xFF; 4];

/// The first byte of a length whose others never come, which says that the side ended inside a message.
const BROKEN_OFF: [u8; 4] = [0; 4];

/// A read asks for so many bytes at the least, where the limit leaves that many, and for as many as are held of the message.
const LEAST_READ: usize = 4096;

/// A length has so many bytes.
const LENGTH: usize = 4;

/// What comes behind the bytes that are to be handed out.
#[derive(Clone, Copy)]
pub enum Behind {
    /// Messages, of which none is known to be whole.
    Messages,
    /// The mark.
    Mark,
    /// Nothing, since the mark was the last.
    Nothing,
    /// Nothing, since the side ended inside a message.
    End,
}

/// What is to be handed out: the last bytes of four, so many, and behind them the first that are held.
#[derive(Clone, Copy)]
pub struct Due {
    head: [u8; LENGTH],
    head_left: usize,
    left: usize,
}

/// Nothing.
const NOTHING: Due = Due {
    head: MARK,
    head_left: 0,
    left: 0,
};

/// The bytes of a side that came and weren't handed out: first those of a message whose last byte has come, behind its length, or a mark;
/// behind them others of which no whole message is known.
///
/// Each byte is scanned once and handed out from the buffer in which it was read.
#[derive(Drop)]
pub struct Framer {
    bytes: Out,
    search: Search,
    due: Due,
    behind: Behind,
}

impl Model for Framer {
    ghost use Rattle.std.specs.Prelude.{◌≡◌, ◌<◌, ◌≤◌, ◌^◌, length, drop};
    ghost use Rattle.gate_base.specs.Causes.{Rose};
    ghost use Rattle.gate_hub.specs.Hubs.{Later};
    ghost use Rattle.stream_messages.specs.Filling.{ReadsInto, Appends, TakesIn, count_of};
    ghost use Rattle.stream_messages.specs.Framing.{FramerState, due_bytes};
    ghost use Rattle.stream_messages.specs.Searching.{Searches};

    ghost Value = { FramerState };

    ghost view = { λ f. record {
      wire = f.search.wire;
      limit = f.search.limit;
      due = due_bytes f.due f.bytes.bytes;
      fresh = drop f.due.left f.bytes.bytes;
      behind = f.behind;
    } };

    ghost invariant = { λ f. (0 < f.search.limit) × (f.search.limit < 2 ^ 31) × (f.bytes.room ≡ f.search.limit) × (f.due.head_left ≤ 4)
        × (f.due.left ≤ length f.bytes.bytes) × Searches f.search (drop f.due.left f.bytes.bytes) × (length f.due.head ≡ 4) };
}

impl Framer {
    /// Nothing came so far of a side with messages of at most `limit` bytes. Only this takes memory.
    ///
    /// `OutOfMemory`: the room for a message was not found.
    pub fn open(alloc: Global, wire: Wire, limit: usize) -> Result<Framer, OutOfMemory>
        requires some { 0 < limit }
        requires limit { limit < 2 ^ 31 }
        ensures { IfOk result (λ framer. framer ≡ new_framer wire limit) }
    {
        Ok(Framer {
            bytes: Out::open(alloc, limit)?,
            search: Search::start(wire, limit),
            due: NOTHING,
            behind: Behind::Messages,
        })
    }

    /// As if nothing had come.
    pub fn restart(&mut self)
        ensures { self.new ≡ new_framer self.old.wire self.old.limit }
    {
        self.search.restart();
        self.bytes.clear();
        self.due = NOTHING;
        self.behind = Behind::Messages;
    }

    /// What comes behind the bytes that are to be handed out.
    pub fn behind(&self) -> Behind
        ensures { result ≡ self.now.behind }
    {
        self.behind
    }

    /// Whether bytes are to be handed out.
    fn is_due(&self) -> bool
        ensures some { result ≡ true → 0 < length self.now.due }
        ensures none { result ≡ false → self.now.due ≡ [] }
    {
        self.due.head_left > 0 || self.due.left > 0
    }

    /// Hands out as frames what came, as far as whole messages are known and have room, and says how many bytes these are.
    pub fn hand_out(&mut self, into: &mut [u8]) -> usize
        ensures within { result ≤ length into.new }
        ensures size { length into.new ≡ length into.old }
        ensures stands { Gives self.old self.new (take result into.new) }
        ensures none { result ≡ 0 → 0 < length into.old → (self.new ≡ self.old) × IsIdle self.new }
        ensures some { 0 < length self.old.due → 0 < length into.old → 0 < result }
        ensures out { IsOut self.old → result ≡ 0 }
    {
        let mut count = 0;
        while count < into.len() {
            if !self.has_due() {
                return count;
            }
            count += self.take_due(&mut into[count..]);
        }
        count
    }

    /// Whether bytes are to be handed out, or what comes next can be made due.
    fn has_due(&mut self) -> bool
        ensures stands { Keeps self.old self.new }
        ensures some { result ≡ true → 0 < length self.new.due }
        ensures none { result ≡ false → (self.new ≡ self.old) × IsIdle self.new }
        ensures out { IsOut self.old → result ≡ false }
    {
        if self.is_due() {
            return true;
        }
        self.go_on()
    }

    /// Makes what comes next due, where that is known, and says so.
    fn go_on(&mut self) -> bool
        requires { self.old.due ≡ [] }
        ensures stands { Keeps self.old self.new }
        ensures some { result ≡ true → 0 < length self.new.due }
        ensures none { result ≡ false → (self.new ≡ self.old) × IsIdle self.new }
        ensures out { IsOut self.old → result ≡ false }
    {
        match self.behind {
            Behind::Messages => self.find(),
            Behind::Mark => self.give_mark(),
            Behind::Nothing | Behind::End => (),
        }
        self.is_due()
    }

    /// Scans the bytes that came last, up to the end of the message.
    fn find(&mut self)
        requires due { self.old.due ≡ [] }
        requires messages { self.old.behind ≡ Behind.Messages }
        ensures stands { Keeps self.old self.new }
        ensures none { self.new.due ≡ [] → (self.new ≡ self.old) × IsIdle self.new }
        ensures out { self.old.fresh ≡ [] → self.new.due ≡ [] }
    {
        match self.search.go_on(self.bytes.bytes()) {
            Front::Open => (),
            Front::Message(count) => self.due = message(count),
            Front::Refused(count) => {
                self.due = message(count);
                self.behind = Behind::Mark;
            }
            Front::Over => self.give_mark(),
        }
    }

    /// The mark is due, and nothing else comes.
    fn give_mark(&mut self)
        ensures { self.new ≡ record self.old { due = mark; fresh = []; behind = Behind.Nothing } }
    {
        self.search.restart();
        self.bytes.clear();
        self.due = Due {
            head: MARK,
            head_left: LENGTH,
            left: 0,
        };
        self.behind = Behind::Nothing;
    }

    /// Reads once from a side of session k, behind the bytes that came. Nothing is to be handed out before more has come.
    ///
    /// The answer is the hub's.
    pub fn fill<H: Hub>(&mut self, hub: &mut H, k: u64, side: Side) -> LinkGot
        requires idle { IsIdle self.old }
        requires messages { self.old.behind ≡ Behind.Messages }
        ensures read { ReadsInto (H.tells hub.old) (H.tells hub.new) k side result (TakesIn self.old self.new result) }
        ensures later { Later (H.counts hub.old) (H.counts hub.new) }
        ensures kept { H.kept hub.new ≡ H.kept hub.old }
        ensures cause { result ≡ LinkGot.Failed → Rose ((H.counts hub.old).link_faults k side) ((H.counts hub.new).link_faults k side) }
        ensures wait { result ≡ LinkGot.NotReady → Rose ((H.counts hub.old).waits k side) ((H.counts hub.new).waits k side) }
    {
        fill(&mut self.bytes, hub, k, side)
    }

    /// The side has ended. Where that was inside a message, a byte that says so is due.
    pub fn end(&mut self) -> bool
        requires idle { IsIdle self.old }
        requires messages { self.old.behind ≡ Behind.Messages }
        ensures stands { KeepsEnded self.old self.new }
        ensures inside { result ≡ true → (0 < length self.old.fresh) × (0 < length self.new.due) }
        ensures none { result ≡ false → (self.new ≡ self.old) × (self.old.fresh ≡ []) }
    {
        if self.bytes.bytes().is_empty() {
            return false;
        }
        self.give_early_end();
        true
    }

    /// A byte is due that says that the side ended inside a message, and nothing else comes.
    fn give_early_end(&mut self)
        ensures { self.new ≡ record self.old { due = 0 ∷ []; fresh = []; behind = Behind.End } }
    {
        self.search.restart();
        self.bytes.clear();
        self.due = Due {
            head: BROKEN_OFF,
            head_left: 1,
            left: 0,
        };
        self.behind = Behind::End;
    }

    /// Hands out the bytes that are due, as far as they have room.
    fn take_due(&mut self, into: &mut [u8]) -> usize
        ensures count { result ≡ min (length self.old.due) (length into.new) }
        ensures size { length into.new ≡ length into.old }
        ensures bytes { take result into.new ≡ take result self.old.due }
        ensures left { self.new ≡ record self.old { due = drop result self.old.due } }
    {
        let due = self.due;
        let head = due.head_left.min(into.len());
        let from = LENGTH - due.head_left;
        let count = due.left.min(into.len() - head);
        lay(
            &due.head[from..from + head],
            &self.bytes.bytes()[..count],
            into,
        );
        self.due.head_left -= head;
        self.due.left -= count;
        self.bytes.drop_front(count);
        head + count
    }
}

/// Writes both, one behind the other, to the front of a slice in which they have room.
fn lay(head: &[u8], body: &[u8], into: &mut [u8])
    requires { length head.now + length body.now ≤ length into.old }
    ensures { take (length head.now + length body.now) into.new ≡ head.now ++ body.now }
{
    into[..head.len()].copy_from_slice(head);
    into[head.len()..head.len() + body.len()].copy_from_slice(body);
}

/// The first bytes that are held, so many, behind their length.
fn message(count: usize) -> Due
    requires { count < 2 ^ 32 }
    ensures { result ≡ record { head = to_be_bytes w32 count; head_left = 4; left = count } }
{
    Due {
        head: (count as u32).to_be_bytes(),
        head_left: LENGTH,
        left: count,
    }
}

/// Reads once from a side of session k, behind the bytes that are held.
fn fill<H: Hub>(bytes: &mut Out, hub: &mut H, k: u64, side: Side) -> LinkGot
    requires room { length bytes.old.bytes < bytes.old.room }
    ensures read { ReadsInto (H.tells hub.old) (H.tells hub.new) k side result (Appends bytes.old bytes.new result) }
    ensures within { length bytes.new.bytes ≤ bytes.new.room }
    ensures later { Later (H.counts hub.old) (H.counts hub.new) }
    ensures kept { H.kept hub.new ≡ H.kept hub.old }
    ensures cause { result ≡ LinkGot.Failed → Rose ((H.counts hub.old).link_faults k side) ((H.counts hub.new).link_faults k side) }
    ensures wait { result ≡ LinkGot.NotReady → Rose ((H.counts hub.old).waits k side) ((H.counts hub.new).waits k side) }
{
    let held = bytes.bytes().len();
    let wanted = bytes.spare().min(held.max(LEAST_READ));
    let got = hub.read(k, side, bytes.tail(wanted));
    bytes.cut(held + count_of(got));
    got
}

/// How many bytes came by an answer.
fn count_of(got: LinkGot) -> usize
    ensures { result ≡ count_of got }
{
    match got {
        LinkGot::Bytes(count) => count,
        LinkGot::NotReady | LinkGot::End | LinkGot::Failed => 0,
    }
}
