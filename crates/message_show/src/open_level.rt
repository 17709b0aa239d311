//! An open struct or container, and how an event takes it on.
ghost use Rattle.std.specs.Prelude.{◌≡◌, List, ◌∷◌, Some, true, false, length, suc, option_copied};
ghost use Rattle.thrift_value.specs.Items.{field};
ghost use Rattle.type_tables.specs.Declarations.{Declarations};
ghost use Rattle.type_tables.specs.Known.{IsKnown};
ghost use Rattle.type_walk.specs.Known.{IsKnownLevel};
ghost use Rattle.type_walk.specs.Positions.{called_for, declared_in, passed};
ghost use Rattle.message_show.specs.Inside.{IsSound, Passes};

use thrift_value::Kind;
use type_tables::{FieldInfo, Schema, Ty};
use type_walk::{Level, called_for, declared_in, declared_type};

/// An open struct or container: what is declared of what stands in it, the declared type of the value that comes next, and whether
/// nothing of it was told yet.
#[derive(Drop)]
pub struct OpenLevel {
    pub known: Level,
    pub next: Ty,
    pub first: bool,
}

/// What stands behind an event.
#[derive(Clone, Copy)]
pub enum LevelStep {
    /// More of the same level.
    Open,
    /// The beginning of a struct or container, in which this is declared.
    Opened(Level),
    /// What follows the level, which is at its end.
    Closed,
}

impl OpenLevel {
    /// At the beginning of a struct or container.
    #[inline(always)]
    pub fn inside(known: Level) -> OpenLevel
        ensures begun { result ≡ record { known = known; next = called_for (Some known); first = true } }
        ensures sound { (d : Declarations) → IsKnownLevel d known → IsSound d result }
    {
        OpenLevel {
            known,
            next: called_for(Some(&known)),
            first: true,
        }
    }

    /// Goes past a field, and tells its declaration where the struct declares its id with its kind.
    #[inline(always)]
    pub fn announce<'s>(&mut self, schema: &'s Schema, id: i16, kind: Kind) -> Option<&'s FieldInfo>
        requires sound { IsSound schema.now self.old }
        ensures value { option_copied result ≡ declared_in schema.now (Some self.old.known) id kind }
        ensures passed { Passes schema.now self.old self.new (field id kind) LevelStep.Open }
    {
        let found = declared_in(schema, &self.known, id, kind);
        self.next = declared_type(found);
        self.first = false;
        found
    }

    /// A struct or container has begun where a value was called for, and this is declared in it.
    #[inline(always)]
    pub fn open(&mut self, inner: Level) -> LevelStep
        ensures opened { result ≡ LevelStep.Opened inner }
        ensures levels { (up : List Level) → self.new.known ∷ up ≡ passed (self.old.known ∷ up) }
        ensures next { self.new.next ≡ called_for (Some self.new.known) }
        ensures first { self.new.first ≡ false }
        ensures sound { (d : Declarations) → IsSound d self.old → IsSound d self.new }
    {
        self.spend();
        LevelStep::Opened(inner)
    }

    /// A value has come: after a key comes its value, after that the next key.
    #[inline(always)]
    pub fn spend(&mut self)
        ensures levels { (up : List Level) → self.new.known ∷ up ≡ passed (self.old.known ∷ up) }
        ensures next { self.new.next ≡ called_for (Some self.new.known) }
        ensures first { self.new.first ≡ false }
        ensures sound { (d : Declarations) → IsSound d self.old → IsSound d self.new }
    {
        self.first = false;
        match self.known {
            Level::Keys(key, value) => {
                self.known = Level::Values(key, value);
                self.next = value;
            }
            Level::Values(key, value) => {
                self.known = Level::Keys(key, value);
                self.next = key;
            }
            Level::Elements(element) => self.next = element,
            Level::Fields(_) | Level::Unknown => self.next = Ty::Unknown,
        }
    }
}
