//! A protocol's reader and writer.
ghost use Rattle.std.specs.Prelude.{◌≡◌, ℕ, pos, ◌+◌, ◌*◌, ◌≤◌, ◌^◌, ◌<◌, List, [], ◌∷◌, ◌++◌, length, Option, None, Some, IfOk, FitsSigned};
ghost use Rattle.std.specs.Int.{w32};
ghost use Rattle.std.specs.Borrow.{sem};
ghost use Rattle.std.specs.Io.BufRead.{Rests};
ghost use Rattle.thrift_value.specs.Items.{Item, item_of};
ghost use Rattle.protocol_traits.specs.declared.forms.Opening.{Opening};
ghost use Rattle.protocol_traits.specs.declared.proto.Hint.{Hint};
ghost use Rattle.protocol_traits.specs.declared.proto.Mark.{Mark};
ghost use Rattle.protocol_traits.specs.declared.fault.Bar.{Bar};
ghost use Rattle.protocol_traits.specs.Heads.{Header, header_of};
ghost use Rattle.protocol_traits.specs.declared.nest.Slot.{Slot};
ghost use Rattle.protocol_traits.specs.declared.nest.Slot.TheVariants.{Fields};
ghost use Rattle.protocol_traits.specs.declared.nest.TheConstants.{DEPTH};
ghost use Rattle.protocol_traits.specs.Stack.{first_of};
ghost use Rattle.protocol_traits.specs.Follow.{depth_after, after as levels_after};
ghost use Rattle.protocol_traits.specs.Steps.{Step, told, seen, Leaves, IsFree};
ghost use Rattle.protocol_traits.specs.Room.{weight, head_weight, IsSized};

use crate::{Bar, Fault, Head, Hint, Mark, Slot};
use gate_io::Out;
use thrift_value::Event;

/// The rules of a protocol's reader, as definitions, and their laws. It has no code.
pub trait ReadRules {
    /// The reader before the first call, over a frame.
    ghost begun: { List ℕ → Self };

    /// What `head` answers, and the reader after it.
    ghost reads_head: { Self → Step Self Header };

    /// What `next` answers, and the reader after it.
    ghost reads: { Self → Hint → Step Self Item };

    /// What `finish` answers, and the reader after it.
    ghost reads_end: { Self → Step Self (Unit {0}) };

    /// Where the value that was read last began.
    ghost value_place: { Self → ℕ };

    /// The open structs and containers, the innermost first.
    ghost nest: { Self → List Slot };

    /// How many levels are open.
    ghost depth: { Self → ℕ };

    /// The reader stands at this place of this frame, with so much read of the innermost of these levels.
    ghost stands_at: { Self → List ℕ → ℕ → Opening → List Slot → Type 0 };

    /// The most bytes that a writer may need for what may still be read. It falls with each item.
    ghost ahead: { Self → ℕ };

    ghost head_pays: { (s : Self) → IfOk (reads_head s) (λ x. (head_weight (length x.0.name) + ahead x.1 ≤ ahead s) × (depth x.1 ≡ 1)) };

    ghost pays: { (s : Self) (hint : Hint) → IfOk (reads s hint) (λ x. weight x.0 + ahead x.1 ≤ ahead s) };

    ghost nests: { (s : Self) (hint : Hint) → IfOk (reads s hint) (λ x. depth x.1 ≡ depth_after x.0 (depth s)) };

    /// Behind the header the body's struct is open alone.
    ghost opens: { (s : Self) → IfOk (reads_head s) (λ x. nest x.1 ≡ Fields (pos 0) ∷ []) };

    /// The levels follow each item.
    ghost follows: { (s : Self) (hint : Hint) → IfOk (reads s hint) (λ x. nest x.1 ≡ levels_after x.0 (nest s)) };

    ghost counts: { (s : Self) → depth s ≡ length (nest s) };

    ghost begins: { (frame : List ℕ) → ahead (begun frame) ≤ 24 * length frame + 64 };
}

/// A protocol's reader over one frame.
///
/// `head` is called first, then `next` up to the body's last `Stop`, then `finish`. After a fault it isn't called again.
pub trait WireRead<'f>: ReadRules + Sized + Drop {
    /// The reader before the header. `room` is where texts that are not spelled as they are meant are laid.
    fn over(frame: &'f [u8], room: &'f mut [u8]) -> Self
        requires room { length frame.now ≤ length room.old }
        requires size { length frame.now < 2 ^ 31 }
        ensures { result ≡ Self.begun frame.now };

    /// The header, or the fault that stands in it.
    fn head(&mut self) -> Result<Head<'_>, Fault>
        ensures answer { seen header_of result ≡ told (Self.reads_head self.old) }
        ensures sized { IfOk result (λ h. length h.name.now < 2 ^ 31) }
        ensures* after { sem 𝓛 (Rests Self.row self.entry (λ new. Leaves (Self.reads_head self.old) new)) };

    /// The next event of the body, or the fault that stands in it. `hint` says how a string is read if one stands next.
    fn next(&mut self, hint: Hint) -> Result<Event<'_>, Fault>
        ensures answer { seen item_of result ≡ told (Self.reads self.old hint) }
        ensures sized { IfOk result (λ e. IsSized (item_of e)) }
        ensures shallow { IfOk result (λ e. depth_after (item_of e) (Self.depth self.old) ≤ DEPTH) }
        ensures* after { sem 𝓛 (Rests Self.row self.entry (λ new. Leaves (Self.reads self.old hint) new)) };

    /// The innermost open level; None behind the body.
    fn level(&self) -> Option<Slot>
        ensures { result ≡ first_of (Self.nest self.now) };

    /// `next` where the innermost level is known, so that it isn't looked at again.
    fn next_in(&mut self, level: Slot, hint: Hint) -> Result<Event<'_>, Fault>
        requires level { first_of (Self.nest self.old) ≡ Some level }
        ensures answer { seen item_of result ≡ told (Self.reads self.old hint) }
        ensures sized { IfOk result (λ e. IsSized (item_of e)) }
        ensures shallow { IfOk result (λ e. depth_after (item_of e) (Self.depth self.old) ≤ DEPTH) }
        ensures* after { sem 𝓛 (Rests Self.row self.entry (λ new. Leaves (Self.reads self.old hint) new)) };

    /// Where the last value began; after `head`, where the name began.
    fn place(&self) -> usize
        ensures { result ≡ Self.value_place self.now };

    /// Whether the message is whole and nothing follows, or the fault that says otherwise.
    fn finish(&mut self) -> Result<(), Fault>
        ensures { seen (λ u. u) result ≡ told (Self.reads_end self.old) };
}

/// A protocol's writer of one message.
pub trait WireWrite: Sized + Drop {
    /// The writer before the header.
    ghost begun: { Self };

    /// Why a name can't be written.
    ghost name_bar: { List ℕ → Option Bar };

    /// Why an item can't be written where this is known of its position.
    ghost bar: { Item → Mark → Option Bar };

    /// The plain spelling of a header.
    ghost plain_head: { Header → List ℕ };

    /// The plain spelling of an item, with the marks before it.
    ghost plain: { Self → Item → Mark → List ℕ };

    /// The writer after an item.
    ghost after: { Self → Item → Mark → Self };

    /// How many levels are open.
    ghost depth: { Self → ℕ };

    /// The writer stands in these levels, with so much written of the innermost.
    ghost stands_at: { Self → Opening → List Slot → Type 0 };

    ghost starts: { depth begun ≡ 1 };

    ghost nests: { (s : Self) (item : Item) (mark : Mark) → 0 < depth s → depth (after s item mark) ≡ depth_after item (depth s) };

    ghost light_head: { (h : Header) → FitsSigned w32 h.seq → length (plain_head h) ≤ head_weight (length h.name) };

    ghost light: { (s : Self) (item : Item) (mark : Mark) → IsSized item → length (plain s item mark) ≤ weight item };

    fn over() -> Self
        ensures { result ≡ begun };

    /// Whether the protocol can hold this name.
    fn takes_name(name: &[u8]) -> Result<(), Bar>
        ensures { IsFree result (name_bar name.now) };

    /// Whether the protocol can hold this event where this is known of its position.
    fn takes(e: &Event<'_>, mark: Mark) -> Result<(), Bar>
        ensures { IsFree result (bar (item_of e.now) mark) };

    /// Appends a header. The body's struct is open behind it.
    fn head(&mut self, h: &Head<'_>, out: &mut Out)
        requires sized { length h.now.name.now < 2 ^ 31 }
        requires taken { name_bar h.now.name.now ≡ None }
        requires room { length out.old.bytes + length (plain_head (header_of h.now)) ≤ out.old.room }
        ensures out { out.new ≡ record out.old { bytes = out.old.bytes ++ plain_head (header_of h.now) } }
        ensures state { self.new ≡ self.old };

    /// Appends the next event of the body.
    fn put(&mut self, e: &Event<'_>, mark: Mark, out: &mut Out)
        requires sized { IsSized (item_of e.now) }
        requires taken { bar (item_of e.now) mark ≡ None }
        requires open { 0 < depth self.old }
        requires shallow { depth_after (item_of e.now) (depth self.old) ≤ DEPTH }
        requires room { length out.old.bytes + length (plain self.old (item_of e.now) mark) ≤ out.old.room }
        ensures out { out.new ≡ record out.old { bytes = out.old.bytes ++ plain self.old (item_of e.now) mark } }
        ensures state { self.new ≡ after self.old (item_of e.now) mark };
}
