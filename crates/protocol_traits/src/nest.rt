//! The structs and containers of a body that are open, at most `DEPTH` of them, in a fixed place.
ghost use Rattle.std.specs.Prelude.{◌≡◌, ◌<◌, ◌≤◌, ◌+◌, ℕ, pos, List, [], ◌∷◌, length, replicate, slice_set};
ghost use Rattle.protocol_traits.specs.declared.nest.Slot.TheVariants.{Fields};
ghost use Rattle.protocol_traits.specs.declared.nest.Slot.{Slot};
ghost use Rattle.protocol_traits.specs.Stack.{first_of, rest_of};
ghost use Rattle.protocol_traits.specs.Places.{slot_at};

use std::marker::Model;
use thrift_value::Kind;

/// The greatest depth of a message; its body struct has depth 1.
pub const DEPTH: usize = 256;

/// Few messages are deeper than this, so no more places than these are made ready for each.
const NEAR: usize = 16;

const FAR: usize = DEPTH - NEAR;

/// What may come next at one open level.
#[derive(Clone, Copy)]
pub enum Slot {
    /// Of a struct: a field or the end. It has the id of the field before, 0 at the start.
    Fields(i16),
    /// Of a struct: the value of the field that was announced, of this kind, with the field's id.
    Value(Kind, i16),
    /// Of a list or set: so many more elements of this kind, then the end.
    Elements(Kind, u32),
    /// Of a map: so many more pairs of these kinds, a key first, then the end.
    Keys(Kind, Kind, u32),
    /// Of a map: the value of the pair whose key was read, and so many pairs in all are left with it.
    Values(Kind, Kind, u32),
}

/// The open levels.
///
/// The innermost lies apart, since nearly every event changes it alone. The deeper places are made ready only when a
/// message needs them, since a reader and a writer are made anew for each. type_walk's `Levels` has the same places over
/// again, since the language has no array of a type parameter.
#[derive(Drop)]
pub struct Nest {
    top: Slot,
    outer: Places,
    depth: usize,
}

/// Clauses see the open levels, the innermost first.
impl Model for Nest {
    ghost use Rattle.std.specs.Prelude.{◌≤◌, List};
    ghost use Rattle.protocol_traits.specs.declared.nest.Slot.{Slot};
    ghost use Rattle.protocol_traits.specs.declared.nest.TheConstants.{DEPTH};
    ghost use Rattle.protocol_traits.specs.Places.{nested};

    ghost Value = { List Slot };

    ghost view = { λ n. nested n.top n.outer n.depth };

    ghost invariant = { λ n. n.depth ≤ DEPTH };
}

impl Nest {
    /// One open level.
    pub fn new(outermost: Slot) -> Nest
        ensures { result ≡ outermost ∷ [] }
    {
        Nest {
            top: outermost,
            outer: Places {
                near: [Slot::Fields(0); NEAR],
                far: None,
            },
            depth: 1,
        }
    }

    /// One open level again, in place. The outer places keep what they hold, since each is written before it is read.
    #[inline(always)]
    pub fn restart(&mut self, outermost: Slot)
        ensures { self.new ≡ outermost ∷ [] }
    {
        self.top = outermost;
        self.depth = 1;
    }

    /// How many levels are open.
    #[inline(always)]
    pub fn depth(&self) -> usize
        ensures depth { result ≡ length self.now }
        ensures bound { result ≤ DEPTH }
    {
        self.depth
    }

    /// The innermost level.
    #[inline(always)]
    pub fn top(&self) -> Option<Slot>
        ensures { result ≡ first_of self.now }
    {
        if self.depth == 0 {
            return None;
        }
        Some(self.top)
    }

    /// Opens one more level inside.
    #[inline(always)]
    pub fn push(&mut self, slot: Slot)
        requires some { 0 < length self.old }
        requires room { length self.old < DEPTH }
        ensures { self.new ≡ slot ∷ self.old }
    {
        self.outer.set(self.depth - 1, self.top);
        self.top = slot;
        self.depth += 1;
    }

    /// Closes the innermost level.
    #[inline(always)]
    pub fn pop(&mut self)
        requires { 0 < length self.old }
        ensures { self.new ≡ rest_of self.old }
    {
        self.depth -= 1;
        if self.depth > 0 {
            self.top = self.outer.get(self.depth - 1);
        }
    }

    /// Puts another state in the place of the innermost level's.
    #[inline(always)]
    pub fn set_top(&mut self, slot: Slot)
        requires { 0 < length self.old }
        ensures { self.new ≡ slot ∷ rest_of self.old }
    {
        self.top = slot;
    }
}

/// The places of the outer levels, the outermost first. Where `far` is not made ready, its places hold `Slot::Fields(0)`.
#[derive(Drop)]
struct Places {
    near: [Slot; NEAR],
    far: Option<[Slot; FAR]>,
}

impl Places {
    #[inline(always)]
    fn get(&self, at: usize) -> Slot
        requires { at < DEPTH }
        ensures { result ≡ slot_at self.now at }
    {
        if at < NEAR {
            return self.near[at];
        }
        match &self.far {
            Some(far) => far[at - NEAR],
            None => Slot::Fields(0),
        }
    }

    #[inline(always)]
    fn set(&mut self, at: usize, slot: Slot)
        requires { at < DEPTH }
        ensures there { slot_at self.new at ≡ slot }
        ensures others { (i : ℕ) → (i ≡ at → ⊥) → slot_at self.new i ≡ slot_at self.old i }
    {
        if at < NEAR {
            self.near[at] = slot;
        } else {
            self.set_far(at - NEAR, slot);
        }
    }

    #[inline(never)]
    fn set_far(&mut self, at: usize, slot: Slot)
        requires { at < FAR }
        ensures there { slot_at self.new (at + NEAR) ≡ slot }
        ensures others { (i : ℕ) → (i ≡ at + NEAR → ⊥) → slot_at self.new i ≡ slot_at self.old i }
    {
        match &mut self.far {
            Some(far) => put(far, at, slot),
            None => {
                let mut far = blank();
                far[at] = slot;
                self.far = Some(far);
            }
        }
    }
}

/// Far places that were just made ready.
fn blank() -> [Slot; FAR]
    ensures { result ≡ replicate FAR (Fields (pos 0)) }
{
    [Slot::Fields(0); FAR]
}

/// Writes one far place.
#[inline(always)]
fn put(far: &mut [Slot; FAR], at: usize, slot: Slot)
    requires { at < FAR }
    ensures written { far.new ≡ slice_set far.old at slot }
    ensures places { length far.old ≡ FAR }
{
    far[at] = slot;
}
