//! What is sent to the client: responses, with the answers that are written to it.
ghost use Rattle.std.specs.Prelude.{◌≡◌, ◌+◌, ◌-◌, ◌≤◌, ◌<◌, ◌^◌, ◌++◌, ℕ, true, false, [], length, take, drop, min};
ghost use Rattle.gate_base.specs.Causes.{Rose};
ghost use Rattle.gate_hub.specs.Hubs.{Later, TookWithin};
ghost use Rattle.http_front.specs.Fronts.{is_empty, is_answered, behind_length, behind_content, behind_response};
ghost use Rattle.http_front.specs.Replies.{response_head, IsLaid};
ghost use Rattle.http_front.specs.Moving.{Goes, Writes, Turns, SendsBelow, SendsUpTo, WroteWithin, PutsOn, WritesOn};

use crate::copies::LENGTH_BYTES;
use crate::front::Front;
use crate::replies::{RESPONSE_HEAD_ROOM, push_response_head};
use crate::stage::Stage;
use gate_hub::{Hub, LinkPut, Side};
use gate_io::Out;

/// The room in which a response's head is laid, with so much of its content that one write carries both.
pub(crate) const RESPONSE_ROOM: usize = RESPONSE_HEAD_ROOM + 4096;

/// What came of a write of an answer.
#[derive(Clone, Copy)]
pub(crate) enum Written {
    Put(LinkPut),
    /// No answer is awaited.
    Stray,
}

/// What came of a response without content.
#[derive(Clone, Copy)]
pub(crate) enum Sent {
    /// None waits to be sent.
    Whole,
    NotReady,
    Failed,
}

impl Front {
    /// Writes the front of an answer's frame, which isn't empty: its length is kept, and its content sent behind the head of a
    /// response.
    pub(crate) fn write<H: Hub>(
        &mut self,
        inner: &mut H,
        k: u64,
        from: &[u8],
        scratch: &mut Out,
    ) -> Written
        requires some { 0 < length from.now }
        requires room { RESPONSE_ROOM ≤ scratch.old.room }
        ensures within { WroteWithin from.now result }
        ensures goes { WritesOn (H.tells inner.old) (H.tells inner.new) k self.old self.new from.now result }
        ensures stray { result ≡ Written.Stray → inner.new ≡ inner.old }
        ensures over { self.old.stage ≡ Stage.Over → result ≡ Written.Stray }
        ensures room { scratch.new.room ≡ scratch.old.room }
        ensures limit { self.new.limit ≡ self.old.limit }
        ensures later { Later (H.counts inner.old) (H.counts inner.new) }
        ensures kept { H.kept inner.new ≡ H.kept inner.old }
        ensures cause { result ≡ Written.Put LinkPut.Failed → Rose ((H.counts inner.old).link_faults k Side.Client) ((H.counts inner.new).link_faults k Side.Client) }
        ensures wait { result ≡ Written.Put LinkPut.NotReady → Rose ((H.counts inner.old).waits k Side.Client) ((H.counts inner.new).waits k Side.Client) }
    {
        match self.stage {
            Stage::Answer { length, have, last } => {
                let taken = self.take_length(from, length, have, last);
                Written::Put(LinkPut::Took(taken))
            }
            Stage::Response { size, sent, last } => {
                Written::Put(self.send_head(inner, k, from, scratch, size, sent, last))
            }
            Stage::Content { left, last } => {
                Written::Put(self.send_content(inner, k, from, left, last))
            }
            _ => Written::Stray,
        }
    }

    // Keeps what comes of the length of an answer.
    fn take_length(&mut self, from: &[u8], so_far: [u8; 4], have: usize, last: bool) -> usize
        requires some { 0 < length from.now }
        requires at { self.old.stage ≡ Stage.Answer so_far have last }
        requires bounds { have < LENGTH_BYTES }
        ensures some { 0 < result }
        ensures within { result ≤ length from.now }
        ensures limit { self.new.limit ≡ self.old.limit }
        ensures writes { Writes (take result from.now) self.old self.new }
    {
        let more = (LENGTH_BYTES - have).min(from.len());
        let so_far = with_more(so_far, have, from, more);
        self.stage = behind_length(so_far, have + more, last);
        more
    }

    // Sends what is left of the head of a response, and content behind it.
    fn send_head<H: Hub>(
        &mut self,
        inner: &mut H,
        k: u64,
        from: &[u8],
        scratch: &mut Out,
        size: u32,
        sent: usize,
        last: bool,
    ) -> LinkPut
        requires some { 0 < length from.now }
        requires at { self.old.stage ≡ Stage.Response size sent last }
        requires head { sent ≤ length (response_head size) }
        requires content { 0 < size }
        requires room { RESPONSE_ROOM ≤ scratch.old.room }
        ensures within { TookWithin from.now result }
        ensures goes { PutsOn (H.tells inner.old) (H.tells inner.new) k self.old self.new from.now result }
        ensures room { scratch.new.room ≡ scratch.old.room }
        ensures limit { self.new.limit ≡ self.old.limit }
        ensures later { Later (H.counts inner.old) (H.counts inner.new) }
        ensures kept { H.kept inner.new ≡ H.kept inner.old }
        ensures cause { result ≡ LinkPut.Failed → Rose ((H.counts inner.old).link_faults k Side.Client) ((H.counts inner.new).link_faults k Side.Client) }
        ensures wait { result ≡ LinkPut.NotReady → Rose ((H.counts inner.old).waits k Side.Client) ((H.counts inner.new).waits k Side.Client) }
    {
        let head = lay_response(scratch, size, from, size as usize) - sent;
        scratch.drop_front(sent);
        let (count, put) = write_through(inner, k, scratch.bytes(), head);
        match put {
            LinkPut::Took(_) => {
                let content = count - head;
                self.stage = behind_content(size as usize - content, last);
                LinkPut::Took(content)
            }
            LinkPut::NotReady => {
                self.stage = Stage::Response {
                    size,
                    sent: sent + count,
                    last,
                };
                LinkPut::NotReady
            }
            LinkPut::Failed => {
                self.stage = Stage::Response {
                    size,
                    sent: sent + count,
                    last,
                };
                LinkPut::Failed
            }
        }
    }

    // Sends content behind a head that was sent.
    fn send_content<H: Hub>(
        &mut self,
        inner: &mut H,
        k: u64,
        from: &[u8],
        left: usize,
        last: bool,
    ) -> LinkPut
        requires some { 0 < length from.now }
        requires at { self.old.stage ≡ Stage.Content left last }
        requires left { 0 < left }
        ensures within { TookWithin from.now result }
        ensures goes { PutsOn (H.tells inner.old) (H.tells inner.new) k self.old self.new from.now result }
        ensures limit { self.new.limit ≡ self.old.limit }
        ensures later { Later (H.counts inner.old) (H.counts inner.new) }
        ensures kept { H.kept inner.new ≡ H.kept inner.old }
        ensures cause { result ≡ LinkPut.Failed → Rose ((H.counts inner.old).link_faults k Side.Client) ((H.counts inner.new).link_faults k Side.Client) }
        ensures wait { result ≡ LinkPut.NotReady → Rose ((H.counts inner.old).waits k Side.Client) ((H.counts inner.new).waits k Side.Client) }
    {
        let most = from.len().min(left);
        match inner.write(k, Side::Client, &from[..most]) {
            LinkPut::Took(count) => {
                self.stage = behind_content(left - count, last);
                LinkPut::Took(count)
            }
            LinkPut::NotReady => LinkPut::NotReady,
            LinkPut::Failed => LinkPut::Failed,
        }
    }

    /// Whether no answer is awaited.
    pub(crate) fn is_answered(&self) -> bool
        ensures { result ≡ is_answered self.now.stage }
    {
        !matches!(
            self.stage,
            Stage::Answer { .. } | Stage::Response { .. } | Stage::Content { .. }
        )
    }

    /// Sends what is left of a response without content, if one waits.
    pub(crate) fn send_empty<H: Hub>(&mut self, inner: &mut H, k: u64, scratch: &mut Out) -> Sent
        requires room { RESPONSE_ROOM ≤ scratch.old.room }
        ensures goes { Goes (H.tells inner.old) (H.tells inner.new) k (Turns self.old self.new) }
        ensures room { scratch.new.room ≡ scratch.old.room }
        ensures limit { self.new.limit ≡ self.old.limit }
        ensures later { Later (H.counts inner.old) (H.counts inner.new) }
        ensures kept { H.kept inner.new ≡ H.kept inner.old }
        ensures cause { result ≡ Sent.Failed → Rose ((H.counts inner.old).link_faults k Side.Client) ((H.counts inner.new).link_faults k Side.Client) }
        ensures wait { result ≡ Sent.NotReady → Rose ((H.counts inner.old).waits k Side.Client) ((H.counts inner.new).waits k Side.Client) }
        ensures stays { result ≡ Sent.NotReady → is_empty self.new.stage ≡ true }
        ensures empty { result ≡ Sent.Whole → is_empty self.new.stage ≡ false }
    {
        match self.stage {
            Stage::Empty { sent, last } => self.send_rest(inner, k, scratch, sent, last),
            _ => Sent::Whole,
        }
    }

    // Sends what is left of a response without content.
    fn send_rest<H: Hub>(
        &mut self,
        inner: &mut H,
        k: u64,
        scratch: &mut Out,
        sent: usize,
        last: bool,
    ) -> Sent
        requires at { self.old.stage ≡ Stage.Empty sent last }
        requires head { sent < length (response_head 0) }
        requires room { RESPONSE_ROOM ≤ scratch.old.room }
        ensures goes { Goes (H.tells inner.old) (H.tells inner.new) k (Turns self.old self.new) }
        ensures room { scratch.new.room ≡ scratch.old.room }
        ensures limit { self.new.limit ≡ self.old.limit }
        ensures later { Later (H.counts inner.old) (H.counts inner.new) }
        ensures kept { H.kept inner.new ≡ H.kept inner.old }
        ensures cause { result ≡ Sent.Failed → Rose ((H.counts inner.old).link_faults k Side.Client) ((H.counts inner.new).link_faults k Side.Client) }
        ensures wait { result ≡ Sent.NotReady → Rose ((H.counts inner.old).waits k Side.Client) ((H.counts inner.new).waits k Side.Client) }
        ensures stays { result ≡ Sent.NotReady → is_empty self.new.stage ≡ true }
        ensures empty { result ≡ Sent.Whole → is_empty self.new.stage ≡ false }
    {
        let left = lay_response(scratch, 0, &[], 0) - sent;
        scratch.drop_front(sent);
        let (count, put) = write_through(inner, k, scratch.bytes(), left - 1);
        match put {
            LinkPut::Took(_) => {
                self.stage = behind_response(last);
                Sent::Whole
            }
            LinkPut::NotReady => {
                self.stage = Stage::Empty {
                    sent: sent + count,
                    last,
                };
                Sent::NotReady
            }
            LinkPut::Failed => {
                self.stage = Stage::Empty {
                    sent: sent + count,
                    last,
                };
                Sent::Failed
            }
        }
    }
}

// What comes behind a length of which so many bytes came.
fn behind_length(length: [u8; 4], have: usize, last: bool) -> Stage
    requires { have ≤ LENGTH_BYTES }
    ensures { result ≡ behind_length length have last }
{
    if have < LENGTH_BYTES {
        return Stage::Answer { length, have, last };
    }
    let size = u32::from_be_bytes(length);
    if size == 0 {
        return Stage::Empty { sent: 0, last };
    }
    Stage::Response {
        size,
        sent: 0,
        last,
    }
}

// What comes where so many bytes of the content are left.
fn behind_content(left: usize, last: bool) -> Stage
    ensures { result ≡ behind_content left last }
{
    if left > 0 {
        return Stage::Content { left, last };
    }
    behind_response(last)
}

// What comes behind a response.
fn behind_response(last: bool) -> Stage
    ensures { result ≡ behind_response last }
{
    if last { Stage::Over } else { Stage::Head }
}

// A length with so many more of its bytes.
fn with_more(bytes: [u8; 4], have: usize, from: &[u8], more: usize) -> [u8; 4]
    requires room { have + more ≤ 4 }
    requires within { more ≤ length from.now }
    ensures { take (have + more) result ≡ take have bytes ++ take more from.now }
{
    let mut all = bytes;
    all[have..have + more].copy_from_slice(&from[..more]);
    all
}

// Lays the head of a response, and behind it as much of its content as there is room for, and answers the length of the head.
fn lay_response(scratch: &mut Out, size: u32, content: &[u8], most: usize) -> usize
    requires { RESPONSE_ROOM ≤ scratch.old.room }
    ensures head { result ≡ length (response_head size) }
    ensures some { 0 < result }
    ensures laid { IsLaid scratch.old scratch.new size content.now (min (length content.now) most) }
{
    scratch.clear();
    push_response_head(scratch, size);
    let head = scratch.bytes().len();
    let count = content.len().min(most).min(scratch.spare());
    scratch.push(&content[..count]);
    head
}

// Writes to the client until more than `least` of the bytes were sent, or it isn't ready or fails, and answers how many were
// sent, and the last answer.
#[tactic(auto, using(crate::proofs::Counted::later_on, crate::proofs::Counted::later_same, crate::proofs::Counted::rose_later))]
fn write_through<H: Hub>(inner: &mut H, k: u64, bytes: &[u8], least: usize) -> (usize, LinkPut)
    requires { least < length bytes.now }
    ensures within { SendsUpTo least bytes.now result.0 result.1 }
    ensures goes { Goes (H.tells inner.old) (H.tells inner.new) k (SendsBelow (take result.0 bytes.now)) }
    ensures later { Later (H.counts inner.old) (H.counts inner.new) }
    ensures kept { H.kept inner.new ≡ H.kept inner.old }
    ensures cause { result.1 ≡ LinkPut.Failed → Rose ((H.counts inner.old).link_faults k Side.Client) ((H.counts inner.new).link_faults k Side.Client) }
    ensures wait { result.1 ≡ LinkPut.NotReady → Rose ((H.counts inner.old).waits k Side.Client) ((H.counts inner.new).waits k Side.Client) }
{
    let mut sent = 0;
    'writes: loop {
        match inner.write(k, Side::Client, &bytes[sent..]) {
            LinkPut::Took(count) => {
                sent += count;
                if sent > least {
                    return (sent, LinkPut::Took(count));
                }
            }
            LinkPut::NotReady => return (sent, LinkPut::NotReady),
            LinkPut::Failed => return (sent, LinkPut::Failed),
        }
    }
}
