//! The slots of the open sessions, in the order of their numbers.
ghost use Rattle.std.specs.Prelude.{◌≡◌, ◌<◌, ◌≤◌, ◌^◌, [], length, true, false, None, All, IfOk, IfSome};
ghost use Rattle.gate_base.specs.Causes.{Rose};
ghost use Rattle.gate_hub.specs.Hubs.{Later};
ghost use Rattle.http_front.specs.declared.slots.Slot.{Slot};
ghost use Rattle.http_front.specs.Fronts.{Reading, wanted, is_asking, IsOpenHead};
ghost use Rattle.http_front.specs.Moving.{Goes, HandsOut, TurnsGiven, WritesOn, WroteWithin};
ghost use Rattle.http_front.specs.Slots.{Open, FrontHasLimit, IsMarked, IsUnmarked, IsRising, IsAt, HasNone, Admits, Releases};
ghost use Rattle.http_front.specs.Serving.{GaveWithin, given_bytes, StandsBehind, GaveIn, MarksIf, WroteIn};

use crate::answers::{RESPONSE_ROOM, Sent, Written};
use crate::asking::{Filled, fill};
use crate::front::Front;
use crate::head::MOST_FIELDS;
use crate::replies::Rules;
use crate::stage::Stage;
use gate_base::OutOfMemory;
use gate_hub::{Hub, LinkGot, LinkPut, Side};
use gate_io::Out;
use httparse::spans::{EMPTY_HEADER_SPAN, HeaderSpan};
use std::alloc::Global;
use std::marker::Model;

/// The front of the open session with this number. `marked`: its answer was written whole, and nothing was read since.
#[derive(Drop)]
pub(crate) struct Slot {
    number: u64,
    marked: bool,
    front: Front,
}

/// The rooms that the fronts share: for texts of a body of at most `limit` bytes, for the fields of a head, and for a response.
#[derive(Drop)]
pub(crate) struct Rooms {
    limit: usize,
    texts: Vec<u8>,
    fields: Vec<HeaderSpan>,
    response: Out,
}

impl Model for Rooms {
    ghost use Rattle.std.specs.Prelude.{◌≡◌, ◌≤◌, ℕ, length};
    ghost use Rattle.http_front.specs.declared.answers.TheConstants.{RESPONSE_ROOM};
    ghost use Rattle.http_front.specs.declared.head.TheConstants.{MOST_FIELDS};

    ghost Value = { ℕ };

    ghost view = { λ r. r.limit };

    ghost invariant = { λ r. (r.limit ≤ length r.texts.items) × (length r.fields.items ≡ MOST_FIELDS) × (RESPONSE_ROOM ≤ r.response.room) };
}

/// The slots of the open sessions by rising numbers, and the fronts that are free.
#[derive(Drop)]
pub(crate) struct Slots {
    open: Vec<Slot>,
    spare: Vec<Front>,
    rooms: Rooms,
    /// Whether some slot may be marked.
    marks: bool,
}

impl Model for Slots {
    ghost use Rattle.std.specs.Prelude.{◌≡◌, false, All};
    ghost use Rattle.http_front.specs.Slots.{Open, HasLimit, FrontHasLimit, IsUnmarked};

    ghost Value = { Open };

    ghost view = { λ s. record { slots = s.open.items; limit = s.rooms } };

    ghost invariant = { λ s. All (HasLimit s.rooms) s.open.items × All (FrontHasLimit s.rooms) s.spare.items
        × (s.marks ≡ false → All IsUnmarked s.open.items) };
}

/// What a read answers.
#[derive(Clone, Copy)]
pub(crate) enum Given {
    Got(LinkGot),
    /// The client waits for an answer, or is to be asked nothing.
    Held,
    /// The session has no slot.
    Stray,
}

impl Slots {
    /// So many free slots.
    ///
    /// `OutOfMemory`: their memory was not found.
    pub(crate) fn open(alloc: Global, count: usize, limit: usize) -> Result<Slots, OutOfMemory>
        requires { limit < 2 ^ 31 }
        ensures { IfOk result (λ slots. slots ≡ record { slots = []; limit = limit }) }
    {
        let spare = open_fronts(alloc, count, limit)?;
        Ok(Slots {
            open: Vec::with_capacity(alloc, count)?,
            spare,
            rooms: open_rooms(alloc, limit)?,
            marks: false,
        })
    }

    /// Gives a session that was opened a free slot, if there is one. Its number is above those of all open ones.
    pub(crate) fn admit(&mut self, number: u64)
        ensures { Admits number self.old self.new }
    {
        if self.open.len() == self.open.capacity() {
            return;
        }
        let Some(mut front) = self.spare.pop() else {
            return;
        };
        front.clear();
        self.open.push_reserved(Slot {
            number,
            marked: false,
            front,
        });
    }

    /// Takes the slot of a session back, if it has one.
    pub(crate) fn release(&mut self, number: u64)
        ensures { Releases number self.old self.new }
    {
        let Some(at) = find(&self.open, number) else {
            return;
        };
        let slot = self.open.remove(at);
        if self.spare.len() < self.spare.capacity() {
            self.spare.push_reserved(slot.front);
        }
    }

    /// The least session that is marked.
    pub(crate) fn least_marked(&mut self) -> Option<u64>
        ensures same { self.new ≡ self.old }
        ensures marked { IfSome result (IsMarked self.old.slots) }
        ensures none { result ≡ None → All IsUnmarked self.old.slots }
    {
        if !self.marks {
            return None;
        }
        let least = first_marked(&self.open);
        self.marks = least.is_some();
        least
    }

    /// Whether a session has a slot.
    pub(crate) fn has(&self, number: u64) -> bool
        ensures has { result ≡ true → HasNone self.now.slots number → ⊥ }
        ensures none { result ≡ false → IsRising self.now.slots → HasNone self.now.slots number }
    {
        match find(&self.open, number) {
            Some(_) => true,
            None => false,
        }
    }

    /// Reads from the client of a session into a slice that isn't empty. The mark is taken off.
    pub(crate) fn read<H: Hub>(
        &mut self,
        inner: &mut H,
        k: u64,
        rules: &Rules<'_>,
        into: &mut [u8],
    ) -> Given
        requires some { 0 < length into.old }
        ensures within { GaveWithin into.new result }
        ensures goes { GaveIn (H.tells inner.old) (H.tells inner.new) rules.now k into.new result self.old self.new }
        ensures stray { result ≡ Given.Stray → inner.new ≡ inner.old }
        ensures later { Later (H.counts inner.old) (H.counts inner.new) }
        ensures kept { H.kept inner.new ≡ H.kept inner.old }
        ensures cause { result ≡ Given.Got LinkGot.Failed → Rose ((H.counts inner.old).link_faults k Side.Client) ((H.counts inner.new).link_faults k Side.Client) }
        ensures wait { result ≡ Given.Got LinkGot.NotReady → Rose ((H.counts inner.old).waits k Side.Client) ((H.counts inner.new).waits k Side.Client) }
    {
        let Some(at) = find(&self.open, k) else {
            return Given::Stray;
        };
        let slot = &mut self.open[at];
        slot.marked = false;
        read(&mut slot.front, inner, k, &mut self.rooms, rules, into)
    }

    /// Writes the front of a slice that isn't empty to the client of a session. Behind an answer that is whole it is marked.
    pub(crate) fn write<H: Hub>(&mut self, inner: &mut H, k: u64, from: &[u8]) -> Written
        requires some { 0 < length from.now }
        ensures within { WroteWithin from.now result }
        ensures goes { (r : Reading) → WroteIn (H.tells inner.old) (H.tells inner.new) r k from.now result self.old self.new }
        ensures stray { result ≡ Written.Stray → inner.new ≡ inner.old }
        ensures later { Later (H.counts inner.old) (H.counts inner.new) }
        ensures kept { H.kept inner.new ≡ H.kept inner.old }
        ensures cause { result ≡ Written.Put LinkPut.Failed → Rose ((H.counts inner.old).link_faults k Side.Client) ((H.counts inner.new).link_faults k Side.Client) }
        ensures wait { result ≡ Written.Put LinkPut.NotReady → Rose ((H.counts inner.old).waits k Side.Client) ((H.counts inner.new).waits k Side.Client) }
    {
        let Some(at) = find(&self.open, k) else {
            return Written::Stray;
        };
        self.marks = true;
        let slot = &mut self.open[at];
        write(slot, inner, k, from, &mut self.rooms)
    }
}

/// So many fronts.
fn open_fronts(alloc: Global, count: usize, limit: usize) -> Result<Vec<Front>, OutOfMemory>
    requires { limit < 2 ^ 31 }
    ensures { IfOk result (λ fronts. All (FrontHasLimit limit) fronts.items) }
{
    let mut fronts = Vec::with_capacity(alloc, count)?;
    'fronts: for _ in 0..count {
        fronts.push(Front::open(alloc, limit)?)?;
    }
    Ok(fronts)
}

/// The least number that is marked.
fn first_marked(slots: &[Slot]) -> Option<u64>
    ensures marked { IfSome result (IsMarked slots.now) }
    ensures none { result ≡ None → All IsUnmarked slots.now }
{
    'slots: for slot in slots {
        if slot.marked {
            return Some(slot.number);
        }
    }
    None
}

/// The place of the slot of a session.
fn find(slots: &[Slot], number: u64) -> Option<usize>
    ensures within { IfSome result (λ at. at < length slots.now) }
    ensures found { IfSome result (λ at. (slot : Slot) × IsAt slots.now number at slot) }
    ensures none { result ≡ None → IsRising slots.now → HasNone slots.now number }
{
    let mut low = 0;
    let mut high = slots.len();
    'halves: while low < high {
        let middle = low + (high - low) / 2;
        let at = slots[middle].number;
        if at == number {
            return Some(middle);
        }
        if at < number {
            low = middle + 1;
        } else {
            high = middle;
        }
    }
    None
}

/// The rooms that fronts share, for bodies of at most `limit` bytes.
fn open_rooms(alloc: Global, limit: usize) -> Result<Rooms, OutOfMemory>
    ensures { IfOk result (λ rooms. rooms ≡ limit) }
{
    let mut texts = Vec::with_capacity(alloc, limit)?;
    texts.resize(limit, 0)?;
    let mut fields = Vec::with_capacity(alloc, MOST_FIELDS)?;
    fields.resize(MOST_FIELDS, EMPTY_HEADER_SPAN)?;
    Ok(Rooms {
        limit,
        texts,
        fields,
        response: Out::open(alloc, RESPONSE_ROOM)?,
    })
}

/// Reads from a client: a response without content goes out before anything is handed out.
#[tactic(auto, using(crate::proofs::Counted::later_on, crate::proofs::Counted::rose_later))]
fn read<H: Hub>(
    front: &mut Front,
    inner: &mut H,
    k: u64,
    rooms: &mut Rooms,
    rules: &Rules<'_>,
    into: &mut [u8],
) -> Given
    requires limit { front.old.limit ≡ rooms.old }
    requires some { 0 < length into.old }
    ensures within { GaveWithin into.new result }
    ensures goes { Goes (H.tells inner.old) (H.tells inner.new) k (TurnsGiven rules.now (given_bytes into.new result) front.old front.new) }
    ensures over { front.old.stage ≡ Stage.Over → result ≡ Given.Got LinkGot.End }
    ensures stands { StandsBehind result front.new }
    ensures limit { front.new.limit ≡ front.old.limit }
    ensures rooms { rooms.new ≡ rooms.old }
    ensures later { Later (H.counts inner.old) (H.counts inner.new) }
    ensures kept { H.kept inner.new ≡ H.kept inner.old }
    ensures cause { result ≡ Given.Got LinkGot.Failed → Rose ((H.counts inner.old).link_faults k Side.Client) ((H.counts inner.new).link_faults k Side.Client) }
    ensures wait { result ≡ Given.Got LinkGot.NotReady → Rose ((H.counts inner.old).waits k Side.Client) ((H.counts inner.new).waits k Side.Client) }
{
    if front.is_over() {
        return Given::Got(LinkGot::End);
    }
    match front.send_empty(inner, k, &mut rooms.response) {
        Sent::Whole => (),
        Sent::NotReady => return Given::Got(LinkGot::NotReady),
        Sent::Failed => return Given::Got(LinkGot::Failed),
    }
    if front.holds_back() {
        return Given::Held;
    }
    match fill(front, inner, k, &mut rooms.fields) {
        Filled::Enough => hand(front, rules, &mut rooms.texts, into),
        Filled::NotReady => Given::Got(LinkGot::NotReady),
        Filled::Failed => Given::Got(LinkGot::Failed),
    }
}

/// Hands out what there is.
fn hand(front: &mut Front, rules: &Rules<'_>, texts: &mut [u8], into: &mut [u8]) -> Given
    requires room { front.old.limit ≤ length texts.old }
    requires some { 0 < length into.old }
    requires whole { wanted front.old ≡ 0 }
    requires decided { IsOpenHead front.old.stage front.old.input }
    requires asking { is_asking front.old.stage ≡ true }
    ensures within { GaveWithin into.new result }
    ensures hands { HandsOut rules.now (given_bytes into.new result) front.old front.new }
    ensures stands { StandsBehind result front.new }
    ensures limit { front.new.limit ≡ front.old.limit }
    ensures calm { (result ≡ Given.Held → ⊥) × (result ≡ Given.Got LinkGot.Failed → ⊥) × (result ≡ Given.Got LinkGot.NotReady → ⊥) }
{
    match front.hand(rules, texts, into) {
        0 => Given::Got(LinkGot::End),
        count => Given::Got(LinkGot::Bytes(count)),
    }
}

/// Writes to a client. Behind an answer that is whole the slot is marked.
fn write<H: Hub>(slot: &mut Slot, inner: &mut H, k: u64, from: &[u8], rooms: &mut Rooms) -> Written
    requires some { 0 < length from.now }
    ensures within { WroteWithin from.now result }
    ensures goes { WritesOn (H.tells inner.old) (H.tells inner.new) k slot.old.front slot.new.front from.now result }
    ensures marks { MarksIf result slot.old slot.new }
    ensures number { slot.new.number ≡ slot.old.number }
    ensures stray { result ≡ Written.Stray → inner.new ≡ inner.old }
    ensures over { slot.old.front.stage ≡ Stage.Over → result ≡ Written.Stray }
    ensures limit { slot.new.front.limit ≡ slot.old.front.limit }
    ensures rooms { rooms.new ≡ rooms.old }
    ensures later { Later (H.counts inner.old) (H.counts inner.new) }
    ensures kept { H.kept inner.new ≡ H.kept inner.old }
    ensures cause { result ≡ Written.Put LinkPut.Failed → Rose ((H.counts inner.old).link_faults k Side.Client) ((H.counts inner.new).link_faults k Side.Client) }
    ensures wait { result ≡ Written.Put LinkPut.NotReady → Rose ((H.counts inner.old).waits k Side.Client) ((H.counts inner.new).waits k Side.Client) }
{
    match slot.front.write(inner, k, from, &mut rooms.response) {
        Written::Put(LinkPut::Took(count)) => {
            slot.marked = slot.front.is_answered();
            Written::Put(LinkPut::Took(count))
        }
        Written::Put(LinkPut::NotReady) => Written::Put(LinkPut::NotReady),
        Written::Put(LinkPut::Failed) => Written::Put(LinkPut::Failed),
        Written::Stray => Written::Stray,
    }
}
