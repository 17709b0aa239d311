//! Laws of the Binary protocol: what `binary_protocol` reads is what the grammar spells.
//!
//! Each law is the contract of a function that does nothing. The code rests on none of them.
#![tactic(auto)]

ghost use Rattle.std.specs.Prelude.{◌≡◌, ◌<◌, ◌≤◌, ◌+◌, ◌⊎◌, List, ℕ, [], ◌++◌, length, ◌≢◌};
ghost use Rattle.thrift_value.specs.Trees.{Message, Members, depth_of_members, items_of_members};
ghost use Rattle.binary_protocol.specs.Grammar.{BinarySpells, SpellsMembers};
ghost use Rattle.protocol_traits.specs.Heads.{Header};
ghost use Rattle.thrift_value.specs.Items.{Item};
ghost use Rattle.protocol_traits.specs.declared.fault.Fault.{Fault};
ghost use Rattle.protocol_traits.specs.declared.fault.Reason.TheVariants as reasons;
ghost use Rattle.gate_base.specs.Bytes.{AreBytes};
ghost use Rattle.binary_laws.specs.Refused.{IsViable, IsRefused};
ghost use Rattle.binary_laws.specs.Reads.{IsRead, IsReadAs};
ghost use Rattle.binary_laws.specs.Called.{width_of_all};
ghost use Rattle.binary_laws.specs.Faults.{IsWhole, FaultAt, with_item};
ghost use Rattle.binary_laws.specs.Written.{IsMessage, IsWritten};
ghost use Rattle.binary_laws.specs.Stated.{IsSpelled, NoMessage, IsRefusedAs, IsInItem};
ghost use Rattle.protocol_traits.specs.declared.nest.TheConstants.{DEPTH};

/// What the grammar spells is read: the header of the message, the items of its body and the end, for every message of depth
/// at most 256, of which its body is one level.
pub fn spelled_is_read()
    ensures { (m : Message) (bytes : List ℕ) → BinarySpells m bytes → depth_of_members m.body < DEPTH → IsReadAs m bytes }
{}

/// What is read is spelled: a frame of bytes that is read whole spells a message of depth at most 256, with that header and those
/// items.
pub fn read_is_spelled()
    ensures { (bytes : List ℕ) (header : Header) (items : List Item) → AreBytes bytes → IsRead bytes header items → IsSpelled BinarySpells bytes header items }
{}

/// Bytes spell one message at most, of any depth, and no spelling of a message is a proper front of another's.
pub fn one_message_is_spelled()
    ensures { (m n : Message) (front rest : List ℕ) → BinarySpells m front → BinarySpells n (front ++ rest) → (m ≡ n) × (rest ≡ []) }
{}

/// A frame that is refused as truncated is a front of a message, of any depth, and the place is its end.
pub fn truncated_is_viable()
    ensures { (bytes : List ℕ) (f : Fault) → AreBytes bytes → IsRefused bytes f → f.reason ≡ reasons.Truncated → (f.place ≡ length bytes) × IsViable bytes }
{}

/// A frame that is refused with another reason is refused so whatever comes behind, and so begins no message of depth at most 256.
pub fn refused_stays_refused()
    ensures refused { (bytes more : List ℕ) (f : Fault) → AreBytes bytes → IsRefused bytes f → f.reason ≢ reasons.Truncated → IsRefused (bytes ++ more) f }
    ensures none { (bytes more : List ℕ) (f : Fault) → AreBytes bytes → IsRefused bytes f → f.reason ≢ reasons.Truncated
        → NoMessage BinarySpells (bytes ++ more) }
{}

/// A message that lies deeper than 256 levels is refused as too deep.
pub fn deeper_is_too_deep()
    ensures { (m : Message) (bytes : List ℕ) → BinarySpells m bytes → DEPTH ≤ depth_of_members m.body → IsRefusedAs IsRefused reasons.TooDeep bytes }
{}

/// A frame that is refused, other than as truncated or as too deep, begins no message, of any depth.
pub fn refused_is_not_viable()
    ensures { (bytes : List ℕ) (f : Fault) → AreBytes bytes → IsRefused bytes f → f.reason ≢ reasons.Truncated → f.reason ≢ reasons.TooDeep → IsViable bytes → ⊥ }
{}

/// Each frame is read whole, as one header and one list of items, or it is refused with one fault, and never both.
pub fn each_frame_is_read_or_refused()
    ensures outcome { (bytes : List ℕ) → ((header : Header) × (items : List Item) × IsRead bytes header items) ⊎ ((f : Fault) × IsRefused bytes f) }
    ensures apart { (bytes : List ℕ) (header : Header) (items : List Item) (f : Fault) → IsRead bytes header items → IsRefused bytes f → ⊥ }
    ensures one_fault { (bytes : List ℕ) (f g : Fault) → IsRefused bytes f → IsRefused bytes g → f ≡ g }
    ensures one_reading { (bytes : List ℕ) (h k : Header) (xs ys : List Item) → IsRead bytes h xs → IsRead bytes k ys → (h ≡ k) × (xs ≡ ys) }
{}

/// The fault that refuses a frame is the one fault that stands there, with its place and its reason: a value is called for that lies
/// too deep, at the first such place; or, with none so far, the frame begins a message and ends before it does, or a message stands
/// before the place and a byte follows, or an item of the reason's sort is called for there and with it the frame begins no message.
/// Each frame of bytes spells a message of depth at most 256 or has exactly one such fault, never both. What follows the item at
/// fault, or the place of a value that lies too deep, tells nothing.
pub fn the_fault_that_stands_there()
    ensures stands { (bytes : List ℕ) (f : Fault) → AreBytes bytes → IsRefused bytes f → FaultAt bytes f }
    ensures refuses { (bytes : List ℕ) (f : Fault) → AreBytes bytes → FaultAt bytes f → IsRefused bytes f }
    ensures judged { (bytes : List ℕ) → AreBytes bytes → IsWhole bytes ⊎ ((f : Fault) × IsRefused bytes f × FaultAt bytes f) }
    ensures apart { (bytes : List ℕ) (f : Fault) → AreBytes bytes → FaultAt bytes f → IsWhole bytes → ⊥ }
    ensures one { (bytes : List ℕ) (f g : Fault) → AreBytes bytes → FaultAt bytes f → FaultAt bytes g → f ≡ g }
    ensures item_tells { (bytes : List ℕ) (f : Fault) → AreBytes bytes → IsRefused bytes f → IsInItem f.reason → IsRefused (with_item f.reason bytes f.place) f }
{}

/// A body's spelling is as long as the spellings of its items together, one behind another. So the places of items in a spelling are
/// the sums of these widths behind the header.
pub fn each_item_has_its_width()
    ensures { (ms : Members) (bytes : List ℕ) → SpellsMembers ms bytes → length bytes ≡ width_of_all (items_of_members ms) }
{}

/// What is written of a message spells it: the plain header and the plain spelling of each item of its body, whatever is known of
/// their positions, where none of them is barred.
pub fn written_is_spelled()
    ensures { (m : Message) (bytes : List ℕ) → IsMessage m → IsWritten m bytes → BinarySpells m bytes }
{}
