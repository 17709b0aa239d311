//! The open structs and containers of which something is declared, at most `DEPTH` of them, in a fixed place.
ghost use Rattle.std.specs.Prelude.{◌≡◌, ◌<◌, ◌≤◌, ◌+◌, ℕ, Some, List, [], ◌∷◌, length, option_copied, replicate, slice_set};
ghost use Rattle.type_walk.specs.declared.levels.Level.TheVariants.{Unknown};
ghost use Rattle.type_walk.specs.declared.levels.Level.{Level};
ghost use Rattle.type_walk.specs.Stack.{first_of, rest_of};
ghost use Rattle.type_walk.specs.Places.{level_at};

use protocol_traits::DEPTH;
use std::marker::Model;
use type_tables::{StructId, Ty};

/// Few messages are deeper than this, so no more places than these are made ready for each.
const NEAR: usize = 16;

const FAR: usize = DEPTH - NEAR;

/// What is declared of what stands in an open struct or container.
#[derive(Clone, Copy)]
pub enum Level {
    /// Nothing.
    Unknown,
    /// It is this struct.
    Fields(StructId),
    /// The type of the elements of a list or set.
    Elements(Ty),
    /// The types of the keys and values of a map in which a key comes next.
    Keys(Ty, Ty),
    /// The types of the keys and values of a map in which a value comes next.
    Values(Ty, Ty),
}

/// The open levels.
///
/// The innermost lies apart, since most events change it alone. The deeper places are made ready only when a message
/// needs them. protocol_traits' `Nest` has the same places over again, since the language has no array of a type parameter.
#[derive(Drop)]
pub struct Levels {
    top: Level,
    outer: Places,
    depth: usize,
}

/// Clauses see the open levels, the innermost first.
impl Model for Levels {
    ghost use Rattle.std.specs.Prelude.{◌≤◌, List};
    ghost use Rattle.type_walk.specs.declared.levels.Level.{Level};
    ghost use Rattle.type_walk.specs.Places.{nested};
    ghost use Rattle.protocol_traits.specs.declared.nest.TheConstants.{DEPTH};

    ghost Value = { List Level };

    ghost view = { λ n. nested n.top n.outer n.depth };

    ghost invariant = { λ n. n.depth ≤ DEPTH };
}

impl Levels {
    /// One open level.
    pub fn one(outermost: Level) -> Levels
        ensures { result ≡ outermost ∷ [] }
    {
        Levels {
            top: outermost,
            outer: Places {
                near: [Level::Unknown; NEAR],
                far: None,
            },
            depth: 1,
        }
    }

    /// No open level.
    pub fn none() -> Levels
        ensures { result ≡ [] }
    {
        Levels {
            top: Level::Unknown,
            outer: Places {
                near: [Level::Unknown; NEAR],
                far: None,
            },
            depth: 0,
        }
    }

    /// The innermost level, where it lies: a level is large, and most events only look at it.
    #[inline(always)]
    pub fn top(&self) -> Option<&Level>
        ensures { option_copied result ≡ first_of self.now }
    {
        if self.depth == 0 {
            return None;
        }
        Some(&self.top)
    }

    /// The innermost of the open levels, where it lies.
    #[inline(always)]
    pub fn innermost(&self) -> &Level
        requires { 0 < length self.now }
        ensures { first_of self.now ≡ Some result.now }
    {
        // It lies apart, so that nothing needs to be asked of the depth, which the contract alone speaks of.
        let _ = &self.depth;
        &self.top
    }

    /// Opens one more level inside.
    #[inline(always)]
    pub fn push(&mut self, level: Level)
        requires some { 0 < length self.old }
        requires room { length self.old < DEPTH }
        ensures { self.new ≡ level ∷ self.old }
    {
        self.outer.set(self.depth - 1, self.top);
        self.top = level;
        self.depth += 1;
    }

    /// Closes the innermost level.
    #[inline(always)]
    pub fn pop(&mut self)
        requires { 0 < length self.old }
        ensures { self.new ≡ rest_of self.old }
    {
        self.depth -= 1;
        if self.depth > 0 {
            self.top = self.outer.get(self.depth - 1);
        }
    }

    /// Puts another state in the place of the innermost level's.
    #[inline(always)]
    pub fn set_top(&mut self, level: Level)
        requires { 0 < length self.old }
        ensures { self.new ≡ level ∷ rest_of self.old }
    {
        self.top = level;
    }
}

/// The places of the outer levels, the outermost first. Where `far` is not made ready, its places hold `Level::Unknown`.
#[derive(Drop)]
struct Places {
    near: [Level; NEAR],
    far: Option<[Level; FAR]>,
}

impl Places {
    #[inline(always)]
    fn get(&self, at: usize) -> Level
        requires { at < DEPTH }
        ensures { result ≡ level_at self.now at }
    {
        if at < NEAR {
            return self.near[at];
        }
        match &self.far {
            Some(far) => far[at - NEAR],
            None => Level::Unknown,
        }
    }

    #[inline(always)]
    fn set(&mut self, at: usize, level: Level)
        requires { at < DEPTH }
        ensures there { level_at self.new at ≡ level }
        ensures others { (i : ℕ) → (i ≡ at → ⊥) → level_at self.new i ≡ level_at self.old i }
    {
        if at < NEAR {
            self.near[at] = level;
        } else {
            self.set_far(at - NEAR, level);
        }
    }

    #[inline(never)]
    fn set_far(&mut self, at: usize, level: Level)
        requires { at < FAR }
        ensures there { level_at self.new (at + NEAR) ≡ level }
        ensures others { (i : ℕ) → (i ≡ at + NEAR → ⊥) → level_at self.new i ≡ level_at self.old i }
    {
        match &mut self.far {
            Some(far) => put(far, at, level),
            None => {
                let mut far = blank();
                far[at] = level;
                self.far = Some(far);
            }
        }
    }
}

/// Far places that were just made ready.
fn blank() -> [Level; FAR]
    ensures { result ≡ replicate FAR Unknown }
{
    [Level::Unknown; FAR]
}

/// Writes one far place.
#[inline(always)]
fn put(far: &mut [Level; FAR], at: usize, level: Level)
    requires { at < FAR }
    ensures written { far.new ≡ slice_set far.old at level }
    ensures places { length far.old ≡ FAR }
{
    far[at] = level;
}
