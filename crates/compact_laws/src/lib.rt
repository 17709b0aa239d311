//! Laws of the Compact protocol: what `compact_protocol` reads is what the grammar spells.
//!
//! Each law is the contract of a function that does nothing. The code rests on none of them.
#![tactic(auto)]

ghost use Rattle.std.specs.Prelude.{◌≡◌, ◌<◌, ◌≤◌, ◌⊎◌, List, ℕ, ℤ, pos, [], ◌∷◌, ◌++◌, length, take, ◌≢◌};
ghost use Rattle.thrift_value.specs.Items.{Item};
ghost use Rattle.thrift_value.specs.Trees.{Message, Members, depth_of_members, items_of_members};
ghost use Rattle.protocol_traits.specs.Heads.{Header};
ghost use Rattle.protocol_traits.specs.declared.fault.Fault.{Fault};
ghost use Rattle.protocol_traits.specs.declared.fault.Reason.TheVariants as reasons;
ghost use Rattle.protocol_traits.specs.declared.nest.Slot.TheVariants as slots;
ghost use Rattle.compact_protocol.specs.Grammar.{CompactSpells, SpellsMembers};
ghost use Rattle.gate_base.specs.Bytes.{AreBytes};
ghost use Rattle.binary_laws.specs.Written.{IsMessage};
ghost use Rattle.compact_laws.specs.Called.{Part};
ghost use Rattle.compact_laws.specs.Faults.{IsWhole, with_item, FaultAt, IsPartAt, IsRefusedAt, IsInside, HasNone, IsBadPart, BeginsNone, ItemBeginsNone};
ghost use Rattle.compact_laws.specs.Fronts.{Leads};
ghost use Rattle.compact_laws.specs.Reads.{IsRead, IsReadAs};
ghost use Rattle.compact_laws.specs.Refused.{IsViable, IsRefused};
ghost use Rattle.compact_laws.specs.Written.{IsWritten};
ghost use Rattle.binary_laws.specs.Stated.{IsSpelled, NoMessage, IsRefusedAs, IsInItem};
ghost use Rattle.protocol_traits.specs.declared.nest.TheConstants.{DEPTH};

/// What the grammar spells is read: the header of the message, the items of its body and the end, for every message of depth
/// at most 256, of which its body is one level. The numbers may be padded, the fields and lists may have either form, and a
/// false bool in a container may be 0 or 2.
pub fn spelled_is_read()
    ensures { (m : Message) (bytes : List ℕ) → CompactSpells m bytes → depth_of_members m.body < DEPTH → IsReadAs m bytes }
{}

/// What is read is spelled: a frame of bytes that is read whole spells a message of depth at most 256, with that header and those
/// items.
pub fn read_is_spelled()
    ensures { (bytes : List ℕ) (header : Header) (items : List Item) → AreBytes bytes → IsRead bytes header items → IsSpelled CompactSpells bytes header items }
{}

/// What is written of a message spells it: the plain header and the plain spelling of each item of its body, each by the levels
/// and the last field id that the items before it leave, where none of them is barred.
pub fn written_is_spelled()
    ensures { (m : Message) (bytes : List ℕ) → IsMessage m → IsWritten m bytes → CompactSpells m bytes }
{}

/// Bytes spell one message at most, of any depth, and no spelling of a message is a proper front of another's.
pub fn one_message_is_spelled()
    ensures { (m n : Message) (front rest : List ℕ) → CompactSpells m front → CompactSpells n (front ++ rest) → (m ≡ n) × (rest ≡ []) }
{}

/// A frame that is refused as truncated is a front of a message, of any depth, and the place is its end.
pub fn truncated_is_viable()
    ensures { (bytes : List ℕ) (f : Fault) → AreBytes bytes → IsRefused bytes f → f.reason ≡ reasons.Truncated → (f.place ≡ length bytes) × IsViable bytes }
{}

/// A frame that is refused with another reason is refused so whatever comes behind, and so begins no message of depth at most 256.
pub fn refused_stays_refused()
    ensures refused { (bytes more : List ℕ) (f : Fault) → AreBytes bytes → IsRefused bytes f → f.reason ≢ reasons.Truncated → IsRefused (bytes ++ more) f }
    ensures none { (bytes more : List ℕ) (f : Fault) → AreBytes bytes → IsRefused bytes f → f.reason ≢ reasons.Truncated
        → NoMessage CompactSpells (bytes ++ more) }
{}

/// A message that lies deeper than 256 levels is refused as too deep.
pub fn deeper_is_too_deep()
    ensures { (m : Message) (bytes : List ℕ) → CompactSpells m bytes → DEPTH ≤ depth_of_members m.body → IsRefusedAs IsRefused reasons.TooDeep bytes }
{}

/// A frame that is refused, other than as truncated or as too deep, begins no message, of any depth.
pub fn refused_is_not_viable()
    ensures { (bytes : List ℕ) (f : Fault) → AreBytes bytes → IsRefused bytes f → f.reason ≢ reasons.Truncated → f.reason ≢ reasons.TooDeep → IsViable bytes → ⊥ }
{}

/// Each frame is read whole, as one header and one list of items, or it is refused with one fault, and never both.
pub fn each_frame_is_read_or_refused()
    ensures outcome { (bytes : List ℕ) → ((header : Header) × (items : List Item) × IsRead bytes header items) ⊎ ((f : Fault) × IsRefused bytes f) }
    ensures apart { (bytes : List ℕ) (header : Header) (items : List Item) (f : Fault) → IsRead bytes header items → IsRefused bytes f → ⊥ }
    ensures one_fault { (bytes : List ℕ) (f g : Fault) → IsRefused bytes f → IsRefused bytes g → f ≡ g }
    ensures one_reading { (bytes : List ℕ) (h k : Header) (xs ys : List Item) → IsRead bytes h xs → IsRead bytes k ys → (h ≡ k) × (xs ≡ ys) }
{}

/// The fault that refuses a frame is the one fault that stands there, with its place and its reason: a value is called for that lies
/// too deep, at the first such place; or, with none so far, the frame begins a message and ends before it does, or a message stands
/// before the place and a byte follows, or a part of a message is called for there and what begins there is none of it. Each frame of
/// bytes spells a message of depth at most 256 or has exactly one such fault, never both. What stands before the fault begins a
/// message, of any depth, and with the item at fault, as far as the frame has it, the frame begins none. What follows the item, or the
/// place of a value that lies too deep, tells nothing.
pub fn the_fault_that_stands_there()
    ensures stands { (bytes : List ℕ) (f : Fault) → AreBytes bytes → IsRefused bytes f → FaultAt bytes f }
    ensures refuses { (bytes : List ℕ) (f : Fault) → AreBytes bytes → FaultAt bytes f → IsRefused bytes f }
    ensures judged { (bytes : List ℕ) → AreBytes bytes → IsWhole bytes ⊎ ((f : Fault) × IsRefused bytes f × FaultAt bytes f) }
    ensures apart { (bytes : List ℕ) (f : Fault) → AreBytes bytes → FaultAt bytes f → IsWhole bytes → ⊥ }
    ensures one { (bytes : List ℕ) (f g : Fault) → AreBytes bytes → FaultAt bytes f → FaultAt bytes g → f ≡ g }
    ensures before { (bytes : List ℕ) (f : Fault) → AreBytes bytes → FaultAt bytes f → IsViable (take f.place bytes) }
    ensures behind { (bytes : List ℕ) (f : Fault) → AreBytes bytes → FaultAt bytes f → IsInItem f.reason → f.reason ≢ reasons.TooDeep → ItemBeginsNone bytes f }
    ensures item_tells { (bytes : List ℕ) (f : Fault) → AreBytes bytes → IsRefused bytes f → IsInItem f.reason → IsRefused (with_item f.reason bytes f.place) f }
{}

/// Where a part of a message is called for, with no value so far that lies too deep, the grammar alone tells whether it is at fault. If what
/// begins there is none of the part, the frame through the part, as far as it has it, begins no message, of any depth. If that begins none,
/// the frame is refused there, and not for what trails a message. Inside a part no other is called for, and no message ends.
pub fn a_part_at_fault_begins_no_message()
    ensures behind { (bytes : List ℕ) (place : ℕ) (part : Part) → IsPartAt part bytes place → IsBadPart part bytes place → BeginsNone part bytes place }
    ensures refused { (bytes : List ℕ) (place : ℕ) (part : Part) → IsPartAt part bytes place → BeginsNone part bytes place → IsRefusedAt bytes place }
    ensures inside { (bytes : List ℕ) (place later : ℕ) (part : Part) → IsPartAt part bytes place → IsInside part bytes place later → HasNone bytes later }
{}

/// A body is spelled item by item: the levels go on from item to item with bytes that spell it there, and behind the last none is open.
/// So a front of a body calls for what the levels behind its items go on with.
pub fn each_item_is_spelled()
    ensures { (ms : Members) (bytes : List ℕ) → SpellsMembers (pos 0) ms bytes → Leads (slots.Fields (pos 0) ∷ []) (items_of_members ms) bytes [] }
{}
