//! Laws of the JSON protocol: what `json_protocol` reads is what the grammar of TJSON spells.
//!
//! Each law is the contract of a function that does nothing. The code rests on none of them.
#![tactic(auto)]

ghost use Rattle.std.specs.Prelude.{◌≡◌, ◌≢◌, ◌<◌, ◌≤◌, ◌^◌, ◌⊎◌, ◌++◌, length, List, ℕ};
ghost use Rattle.thrift_value.specs.Items.{Item};
ghost use Rattle.thrift_value.specs.Trees.{Message, depth_of_members, items_of_members};
ghost use Rattle.protocol_traits.specs.Heads.{Header};
ghost use Rattle.protocol_traits.specs.declared.fault.Fault.{Fault};
ghost use Rattle.protocol_traits.specs.declared.fault.Reason.TheVariants as reasons;
ghost use Rattle.json_text.specs.Grammar.{AreWhite};
ghost use Rattle.binary_laws.specs.Reads.{header_of_message};
ghost use Rattle.binary_laws.specs.Written.{IsMessage};
ghost use Rattle.json_laws.specs.Stated.{Known, JsonSpells, IsRead, IsReadWhole, IsReadAs, IsRefused, IsSpelled, SpellsItems, NoMessage, IsTooDeep, IsBad, StaysBad, StaysRefused, Begins, IsViable, IsCutShort, IsFirstBad, FirstTells};
ghost use Rattle.json_laws.specs.Faults.{FaultStands};
ghost use Rattle.json_laws.specs.Firsts.{FirstFault, IsWhole, FramePasses, MessagePasses};
ghost use Rattle.json_laws.specs.Written.{IsWritten};

/// What the grammar spells is read: the header of the message, the items of its body and the end, for every message of depth
/// at most 256, of which its body is one level. Any whitespace may stand before, between and after the tokens, strings and numbers
/// may have any of their spellings, and what an IDL declares of the body tells how its strings are spelled.
pub fn spelled_is_read()
    ensures { (k : Known) (m : Message) (bytes : List ℕ) → JsonSpells k m bytes → depth_of_members m.body < 256 → IsReadAs k m bytes }
{}

/// What is read is spelled: a frame of less than 2^31 bytes that is read whole spells a message of depth at most 256, with that header
/// and those items.
pub fn read_is_spelled()
    ensures { (k : Known) (bytes : List ℕ) (h : Header) (items : List Item) → length bytes < 2 ^ 31 → IsRead k bytes h items → IsSpelled k bytes h items }
{}

/// What is written of a message spells it: the plain header and the plain spelling of each item of its body, each by the levels that the
/// items before it leave and by what is declared of its position, where no bar refuses one and its strings consist of bytes. That is one
/// spelling, and where the message is of depth at most 256 it is read as that message.
pub fn written_is_spelled()
    ensures spells { (k : Known) (m : Message) (bytes : List ℕ) → IsMessage m → IsWritten k m bytes → JsonSpells k m bytes }
    ensures one { (k : Known) (m : Message) (a b : List ℕ) → IsWritten k m a → IsWritten k m b → a ≡ b }
    ensures again { (k : Known) (m : Message) (bytes : List ℕ) → IsMessage m → IsWritten k m bytes → depth_of_members m.body < 256 → IsReadAs k m bytes }
{}

/// A message is spelled item by item: behind its header the items of its body stand one behind another, each behind the marks that the open
/// levels call for and as what is declared of its position tells, and a bracket closes it. So an item stands where those before it and its
/// marks end.
pub fn each_item_is_spelled()
    ensures { (k : Known) (m : Message) (bytes : List ℕ) → JsonSpells k m bytes → length bytes < 2 ^ 31 → depth_of_members m.body < 256 → SpellsItems k m bytes }
{}

/// Bytes spell one message at most, of any depth, where the same is declared of its body. Of two spellings of messages one begins the
/// other only where they spell the same message and whitespace alone follows.
pub fn one_message_is_spelled()
    ensures { (k : Known) (m n : Message) (front rest : List ℕ) → JsonSpells k m front → JsonSpells k n (front ++ rest) → (m ≡ n) × AreWhite rest }
{}

/// A message that lies deeper than 256 levels, in a frame of less than 2^31 bytes, is refused as too deep.
pub fn deeper_is_too_deep()
    ensures { (k : Known) (m : Message) (bytes : List ℕ) → JsonSpells k m bytes → length bytes < 2 ^ 31 → 256 ≤ depth_of_members m.body → IsTooDeep k bytes }
{}

/// Each frame is read whole, as one header and one list of items, or it is refused with one fault, and never both. So a frame that is
/// refused spells no message of depth at most 256.
pub fn each_frame_is_read_or_refused()
    ensures outcome { (k : Known) (bytes : List ℕ) → IsReadWhole k bytes ⊎ ((f : Fault) × IsRefused k bytes f) }
    ensures apart { (k : Known) (bytes : List ℕ) (f : Fault) → IsReadWhole k bytes → IsRefused k bytes f → ⊥ }
    ensures one_fault { (k : Known) (bytes : List ℕ) (f g : Fault) → IsRefused k bytes f → IsRefused k bytes g → f ≡ g }
    ensures one_reading { (k : Known) (bytes : List ℕ) (h i : Header) (xs ys : List Item) → IsRead k bytes h xs → IsRead k bytes i ys → (h ≡ i) × (xs ≡ ys) }
    ensures none { (k : Known) (bytes : List ℕ) (f : Fault) → IsRefused k bytes f → NoMessage k bytes }
{}

/// A frame that is refused, other than as truncated, is refused whatever comes behind: with the same fault if that stands before the
/// frame's end, else for the same reason. So it begins no message of depth at most 256, and one that begins such a message and is none is
/// refused as truncated, which is said at the frame's end.
pub fn refused_stays_refused()
    ensures stays { (k : Known) (bytes more : List ℕ) (f : Fault) → IsBad k bytes f → StaysBad k bytes more f }
    ensures none { (k : Known) (bytes more : List ℕ) (f : Fault) → IsBad k bytes f → NoMessage k (bytes ++ more) }
    ensures front { (k : Known) (bytes : List ℕ) (f : Fault) → Begins k bytes → IsRefused k bytes f → f.reason ≡ reasons.Truncated }
    ensures cut { (k : Known) (bytes : List ℕ) (f : Fault) → IsRefused k bytes f → f.reason ≡ reasons.Truncated → f.place ≡ length bytes }
{}

/// A frame is refused as truncated exactly where some bytes behind it make it a message: one that is refused so begins a message, of any
/// depth, and the place is its end.
pub fn truncated_is_viable()
    ensures { (k : Known) (bytes : List ℕ) (f : Fault) → length bytes < 2 ^ 31 → IsRefused k bytes f → f.reason ≡ reasons.Truncated → IsCutShort k bytes f }
{}

/// A frame that is refused, other than as truncated or as too deep, begins no message, of any depth. So one that begins a message and is
/// none is refused as truncated, or as too deep.
pub fn refused_is_not_viable()
    ensures { (k : Known) (bytes : List ℕ) (f : Fault) → IsBad k bytes f → f.reason ≢ reasons.TooDeep → IsViable k bytes → ⊥ }
{}

/// The first byte that no message allows tells the fault. A frame that is refused, other than as truncated or as too deep, has one such
/// byte: what stands before it begins a message, of any depth, and with it none begins. What stands up to it, and it, is refused with the
/// same fault, which stands there or before it. So what follows tells nothing, and the frame is refused with the same fault whatever comes
/// behind it.
pub fn the_first_byte_tells()
    ensures tells { (k : Known) (bytes : List ℕ) (f : Fault) → length bytes < 2 ^ 31 → IsBad k bytes f → f.reason ≢ reasons.TooDeep → FirstTells k bytes f }
    ensures one { (k : Known) (bytes : List ℕ) (m n : ℕ) → IsFirstBad k bytes m → IsFirstBad k bytes n → m ≡ n }
    ensures stays { (k : Known) (bytes : List ℕ) (f : Fault) → length bytes < 2 ^ 31 → IsBad k bytes f → f.reason ≢ reasons.TooDeep → StaysRefused k bytes f }
{}

/// The fault that refuses a frame stands there, by the grammar. Truncated: some bytes behind the frame make it a message, of any depth, it
/// is none of depth at most 256, and the place is its end. Trailing: a message stands before the place, and behind it something that is no
/// whitespace. TooDeep: a struct, map, set or list is called for there, 256 levels lie around it, and no message of depth at most 256
/// begins with the frame. Else no message, of any depth, begins with it, and before the place stand the first tokens of a message, with
/// whitespace round them, which has next a token of the sort that the reason names: the version, a type, a kind's name, a field's id, a
/// size, a bool, a number, a string as text or as base64, or a token of one byte, as brackets, braces, commas and colons are. The place is where that token is
/// called for; in a string as text it is where the string itself is at fault. No whitespace stands where it is called for, nor a token of
/// that sort, but for a number, whose range hangs on what is announced; nor that very byte.
pub fn the_fault_that_stands_there()
    ensures { (k : Known) (bytes : List ℕ) (f : Fault) → length bytes < 2 ^ 31 → IsRefused k bytes f → FaultStands k bytes f }
{}

/// What is called for in a frame, part by part, is what the grammar spells: a frame of less than 2^31 bytes in which each part that is called
/// for stands, up to the end, spells the message of that header and those items, and each spelling of a message of depth at most 256 is such
/// a frame.
pub fn what_is_called_for_is_the_grammar()
    ensures spells { (k : Known) (bytes : List ℕ) (h : Header) (xs : List Item) → length bytes < 2 ^ 31 → FramePasses k bytes h xs → IsSpelled k bytes h xs }
    ensures passes { (k : Known) (m : Message) (bytes : List ℕ) → JsonSpells k m bytes → depth_of_members m.body < 256 → MessagePasses k bytes m }
{}

/// No other part of a bad frame is at fault. The fault that refuses a frame is the first part that is called for and doesn't stand, with its
/// place and its reason: each part before it stands, by what those before it announce, and with the bytes of the part, as far as the frame has
/// them, none begins there, whatever follows; or the frame ends inside it; or a value is called for that lies too deep; or something follows the
/// message. There is one such part at most, and a frame is refused with the fault that stands there and no other. Each frame of less than 2^31
/// bytes spells a message of depth at most 256 or has one such fault, never both, and that fault stands there by what messages begin with the
/// frame.
pub fn no_other_part_is_at_fault()
    ensures told { (k : Known) (bytes : List ℕ) (f : Fault) → IsRefused k bytes f → FirstFault k bytes f }
    ensures refuses { (k : Known) (bytes : List ℕ) (f : Fault) → FirstFault k bytes f → IsRefused k bytes f }
    ensures one { (k : Known) (bytes : List ℕ) (f g : Fault) → FirstFault k bytes f → FirstFault k bytes g → f ≡ g }
    ensures judged { (k : Known) (bytes : List ℕ) → length bytes < 2 ^ 31 → IsWhole k bytes ⊎ ((f : Fault) × FirstFault k bytes f) }
    ensures apart { (k : Known) (bytes : List ℕ) (f : Fault) → FirstFault k bytes f → IsWhole k bytes → ⊥ }
    ensures stands { (k : Known) (bytes : List ℕ) (f : Fault) → length bytes < 2 ^ 31 → FirstFault k bytes f → FaultStands k bytes f }
{}
