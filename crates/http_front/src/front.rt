//! The front of one session: the client's bytes, and what comes next.
ghost use Rattle.std.specs.Prelude.{◌≡◌, ◌≢◌, ◌+◌, ◌-◌, ◌*◌, ◌≤◌, ◌<◌, ◌^◌, [], ◌++◌, length, take, drop, min, true, false, IfOk, ℕ};
ghost use Rattle.gate_base.specs.Causes.{Rose};
ghost use Rattle.gate_hub.specs.Hubs.{Later};
ghost use Rattle.http_front.specs.Heads.{head_limit};
ghost use Rattle.http_front.specs.Fronts.{Front as State, Reading, IsSound, IsOpenHead, IsWithin, new_front, wanted, ahead, holds_back, is_asking, behind_body, behind_mark, body_ended};
ghost use Rattle.http_front.specs.Reading.{FindsHead};
ghost use Rattle.http_front.specs.Moving.{Goes, Keeps, EndsFront, HandsOut, GrowsBy, ReadsMore, EndsHead};

use crate::copies::{LENGTH_BYTES, copy_frame, copy_from};
use crate::head::{HEAD_LIMIT, Head, MOST_FIELDS, find_head, refuses};
use crate::look::{Look, look_on};
use crate::replies::{Reply, Rules};
use crate::stage::Stage;
use gate_base::OutOfMemory;
use gate_hub::{Hub, LinkGot, Side};
use gate_io::Out;
use httparse::spans::HeaderSpan;
use std::alloc::Global;
use std::marker::Model;

/// The length -1, behind which nothing comes.
const MARK: [u8; 4] = [255; 4];

/// The byte that tells of an end inside a request.
const EARLY: [u8; 1] = [0];

/// The client's bytes that are held, and what comes next.
#[derive(Drop)]
pub(crate) struct Front {
    pub(crate) input: Out,
    /// The bytes of a body at the most.
    pub(crate) limit: usize,
    /// How far the end of a head was looked for, and in how many of the bytes.
    pub(crate) look: Look,
    pub(crate) seen: usize,
    pub(crate) stage: Stage,
}

impl Model for Front {
    ghost use Rattle.std.specs.Prelude.{◌≡◌, ◌+◌};
    ghost use Rattle.http_front.specs.Heads.{head_limit};
    ghost use Rattle.http_front.specs.Fronts.{Front as State, IsSound};

    ghost Value = { State };

    ghost view = { λ f. record { input = f.input.bytes; limit = f.limit; look = f.look; seen = f.seen; stage = f.stage } };

    ghost invariant = { λ f. (f.input.room ≡ f.limit + head_limit)
        × IsSound (record { input = f.input.bytes; limit = f.limit; look = f.look; seen = f.seen; stage = f.stage }) };
}

impl Front {
    /// The front of a session that nothing came of, for bodies of at most `limit` bytes.
    ///
    /// `OutOfMemory`: its room was not found.
    pub(crate) fn open(alloc: Global, limit: usize) -> Result<Front, OutOfMemory>
        requires { limit < 2 ^ 31 }
        ensures { IfOk result (λ f. f ≡ new_front limit) }
    {
        Ok(Front {
            input: Out::open(alloc, limit + HEAD_LIMIT)?,
            limit,
            look: Look::Before,
            seen: 0,
            stage: Stage::Head,
        })
    }

    /// Makes it the front of another session.
    pub(crate) fn clear(&mut self)
        ensures { self.new ≡ new_front self.old.limit }
    {
        self.begin_head();
        self.input.clear();
    }

    // A head comes next.
    fn begin_head(&mut self)
        ensures { self.new ≡ record self.old { look = Look.Before; seen = 0; stage = Stage.Head } }
    {
        self.look = Look::Before;
        self.seen = 0;
        self.stage = Stage::Head;
    }

    /// Reads the head at the front, where it is whole.
    pub(crate) fn settle(&mut self, fields: &mut [HeaderSpan])
        requires room { length fields.old ≡ MOST_FIELDS }
        ensures keeps { Keeps self.old self.new }
        ensures decided { IsOpenHead self.new.stage self.new.input }
        ensures asking { is_asking self.old.stage ≡ true → is_asking self.new.stage ≡ true }
        ensures limit { self.new.limit ≡ self.old.limit }
        ensures ahead { ahead self.new ≤ ahead self.old }
    {
        if let Stage::Head = self.stage {
            match self.head(fields) {
                Head::Part => (),
                Head::Bad => self.stage = Stage::Mark { given: 0 },
                Head::Post { size, body, last } => self.begin_body(size, body, last),
            }
        }
    }

    // What stands at the front. Its end is looked for in the bytes that came since.
    fn head(&mut self, fields: &mut [HeaderSpan]) -> Head
        requires room { length fields.old ≡ MOST_FIELDS }
        ensures finds { FindsHead self.old.limit self.old.input result }
        ensures same { (self.new.input ≡ self.old.input) × (self.new.limit ≡ self.old.limit) × (self.new.stage ≡ self.old.stage) }
    {
        let bytes = self.input.bytes();
        let end = bytes.len().min(HEAD_LIMIT);
        self.look = look_on(self.look, &bytes[self.seen..end]);
        self.seen = end;
        find_head(bytes, self.look, fields, self.limit)
    }

    // The head was read, and is let go.
    fn begin_body(&mut self, size: usize, body: usize, last: bool)
        requires held { size ≤ length self.old.input }
        requires body { body ≤ self.old.limit }
        ensures { self.new ≡ record self.old { input = drop size self.old.input; look = Look.Before; seen = 0; stage = Stage.Body body 0 last } }
    {
        self.input.drop_front(size);
        self.look = Look::Before;
        self.seen = 0;
        self.stage = Stage::Body {
            size: body,
            given: 0,
            last,
        };
    }

    /// How many bytes are to be read: some where nothing can be handed out before.
    pub(crate) fn wanted(&self) -> usize
        ensures { result ≡ wanted self.now }
    {
        let held = self.input.bytes().len();
        match self.stage {
            Stage::Head => HEAD_LIMIT.saturating_sub(held),
            Stage::Body { size, .. } => size.saturating_sub(held),
            _ => 0,
        }
    }

    /// Reads from the client once, at most `count` bytes.
    pub(crate) fn read_more<H: Hub>(&mut self, inner: &mut H, k: u64, count: usize) -> LinkGot
        requires some { 0 < count }
        requires few { count ≤ wanted self.old }
        ensures within { GrowsBy count self.old self.new result }
        ensures goes { Goes (H.tells inner.old) (H.tells inner.new) k (ReadsMore result self.old self.new) }
        ensures kept { H.kept inner.new ≡ H.kept inner.old }
        ensures later { Later (H.counts inner.old) (H.counts inner.new) }
        ensures cause { result ≡ LinkGot.Failed → Rose ((H.counts inner.old).link_faults k Side.Client) ((H.counts inner.new).link_faults k Side.Client) }
        ensures wait { result ≡ LinkGot.NotReady → Rose ((H.counts inner.old).waits k Side.Client) ((H.counts inner.new).waits k Side.Client) }
    {
        let held = self.input.bytes().len();
        let got = inner.read(k, Side::Client, self.input.tail(count));
        match got {
            LinkGot::Bytes(more) => self.input.cut(held + more),
            LinkGot::NotReady | LinkGot::End | LinkGot::Failed => self.input.cut(held),
        }
        got
    }

    /// The client has ended, and what stands at the front isn't whole.
    pub(crate) fn end(&mut self, fields: &mut [HeaderSpan])
        requires room { length fields.old ≡ MOST_FIELDS }
        requires front { IsOpenHead self.old.stage self.old.input }
        requires short { 0 < wanted self.old }
        ensures ends { EndsFront self.old self.new }
        ensures asking { is_asking self.new.stage ≡ true }
        ensures decided { IsOpenHead self.new.stage self.new.input }
        ensures limit { self.new.limit ≡ self.old.limit }
        ensures nothing { wanted self.new ≡ 0 }
    {
        match self.stage {
            Stage::Head => self.end_head(fields),
            Stage::Body { .. } => self.stage = Stage::Early,
            _ => (),
        }
    }

    // The client has ended, and a head isn't whole.
    fn end_head(&mut self, fields: &mut [HeaderSpan])
        requires room { length fields.old ≡ MOST_FIELDS }
        requires at { self.old.stage ≡ Stage.Head }
        requires front { IsOpenHead Stage.Head self.old.input }
        ensures ends { EndsFront self.old self.new }
        ensures asking { is_asking self.new.stage ≡ true }
        ensures decided { IsOpenHead self.new.stage self.new.input }
        ensures limit { self.new.limit ≡ self.old.limit }
        ensures nothing { wanted self.new ≡ 0 }
    {
        self.stage = self.end_of_head(fields);
    }

    // What comes behind the beginning of a head.
    fn end_of_head(&self, fields: &mut [HeaderSpan]) -> Stage
        requires room { length fields.old ≡ MOST_FIELDS }
        requires short { length self.now.input < head_limit }
        ensures { EndsHead self.now.input result }
    {
        let bytes = self.input.bytes();
        if bytes.is_empty() {
            return Stage::Over;
        }
        if refuses(bytes, fields) {
            return Stage::Mark { given: 0 };
        }
        Stage::Early
    }

    /// Whether nothing is read of the client so far: an answer is awaited, or the body that was handed out ends the session.
    pub(crate) fn holds_back(&self) -> bool
        ensures { result ≡ holds_back self.now.stage }
    {
        matches!(
            self.stage,
            Stage::Answer { .. } | Stage::Response { .. } | Stage::Content { .. } | Stage::Missing
        )
    }

    /// Whether nothing more is handed out.
    pub(crate) fn is_over(&self) -> bool
        ensures over { result ≡ true → self.now.stage ≡ Stage.Over }
        ensures on { result ≡ false → self.now.stage ≢ Stage.Over }
    {
        matches!(self.stage, Stage::Over)
    }

    /// Hands out what comes next of a frame. It is some bytes, unless the answer is 0.
    pub(crate) fn hand(&mut self, rules: &Rules<'_>, room: &mut [u8], into: &mut [u8]) -> usize
        requires room { self.old.limit ≤ length room.old }
        requires some { 0 < length into.old }
        requires whole { wanted self.old ≡ 0 }
        requires front { IsOpenHead self.old.stage self.old.input }
        requires asking { is_asking self.old.stage ≡ true }
        ensures within { result ≤ length into.new }
        ensures hands { HandsOut rules.now (take result into.new) self.old self.new }
        ensures none { result ≡ 0 → (self.new.stage ≡ Stage.Over) × (self.new ≡ self.old) }
        ensures limit { self.new.limit ≡ self.old.limit }
    {
        match self.stage {
            Stage::Body { size, given, last } => {
                self.hand_body(rules, room, into, size, given, last)
            }
            Stage::Mark { given } => self.hand_mark(into, given),
            Stage::Early => self.hand_early(into),
            _ => 0,
        }
    }

    // Hands out a body's frame. Behind its last byte comes the response.
    fn hand_body(
        &mut self,
        rules: &Rules<'_>,
        room: &mut [u8],
        into: &mut [u8],
        size: usize,
        given: usize,
        last: bool,
    ) -> usize
        requires at { self.old.stage ≡ Stage.Body size given last }
        requires whole { size ≤ length self.old.input }
        requires bounds { (size ≤ self.old.limit) × (given < size + LENGTH_BYTES) }
        requires room { self.old.limit ≤ length room.old }
        requires some { 0 < length into.old }
        ensures some { 0 < result }
        ensures within { result ≤ length into.new }
        ensures hands { HandsOut rules.now (take result into.new) self.old self.new }
        ensures limit { self.new.limit ≡ self.old.limit }
    {
        let count = copy_frame(&self.input.bytes()[..size], given, into);
        if given + count == size + LENGTH_BYTES {
            self.end_body(rules, room, size, last);
            return count;
        }
        self.stage = Stage::Body {
            size,
            given: given + count,
            last,
        };
        count
    }

    // The body was handed out, and is let go.
    fn end_body(&mut self, rules: &Rules<'_>, room: &mut [u8], size: usize, last: bool)
        requires whole { size ≤ length self.old.input }
        requires small { size ≤ self.old.limit }
        requires room { self.old.limit ≤ length room.old }
        ensures { self.new ≡ body_ended rules.now size last self.old }
    {
        let reply = rules.reply_to(&self.input.bytes()[..size], room);
        self.input.drop_front(size);
        self.look = Look::Before;
        self.seen = 0;
        self.stage = behind_body(reply, last);
    }

    // Hands out the mark.
    fn hand_mark(&mut self, into: &mut [u8], given: usize) -> usize
        requires at { self.old.stage ≡ Stage.Mark given }
        requires left { given < LENGTH_BYTES }
        requires some { 0 < length into.old }
        ensures some { 0 < result }
        ensures within { result ≤ length into.new }
        ensures hands { (r : Reading) → HandsOut r (take result into.new) self.old self.new }
        ensures limit { self.new.limit ≡ self.old.limit }
    {
        let count = copy_from(&MARK, given, into);
        self.stage = behind_mark(given + count);
        count
    }

    // Hands out the byte that tells of an end inside a request.
    fn hand_early(&mut self, into: &mut [u8]) -> usize
        requires at { self.old.stage ≡ Stage.Early }
        requires some { 0 < length into.old }
        ensures some { 0 < result }
        ensures within { result ≤ length into.new }
        ensures hands { (r : Reading) → HandsOut r (take result into.new) self.old self.new }
        ensures limit { self.new.limit ≡ self.old.limit }
    {
        let count = copy_from(&EARLY, 0, into);
        self.stage = Stage::Over;
        count
    }
}

// What comes where so many bytes of the mark were handed out.
fn behind_mark(given: usize) -> Stage
    ensures { result ≡ behind_mark given }
{
    if given == LENGTH_BYTES {
        return Stage::Over;
    }
    Stage::Mark { given }
}

// What comes behind a body.
fn behind_body(reply: Reply, last: bool) -> Stage
    ensures is { result ≡ behind_body reply last }
    ensures within { (limit : ℕ) → IsWithin limit result }
{
    match reply {
        Reply::Answer => Stage::Answer {
            length: [0; 4],
            have: 0,
            last,
        },
        Reply::Empty => Stage::Empty { sent: 0, last },
        Reply::Missing => Stage::Missing,
    }
}
