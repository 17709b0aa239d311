//! What the quick way knows of the type of a value.
ghost use Rattle.std.specs.Prelude.{◌≡◌, ⊤, Bool, true, false, Some, IfSome};
ghost use Rattle.type_tables.specs.declared.declared.Ty.{Ty};
ghost use Rattle.type_tables.specs.declared.declared.Ty.TheVariants.{Unknown};
ghost use Rattle.type_tables.specs.Declarations.{Declarations};
ghost use Rattle.type_tables.specs.Known.{IsKnown};
ghost use Rattle.type_walk.specs.Known.{IsKnownLevel};
ghost use Rattle.type_walk.specs.Positions.{field_type, hint_at, in_map, in_struct, called_for, mark_at};
ghost use Rattle.translate_known.specs.Quick.{in_elements, turned};

use protocol_traits::{Container, FormWrite, Hint, Mark};
use thrift_value::Kind;
use type_tables::{Schema, Ty};
use type_walk::{
    Level, called_for, declared_in, declared_type, hint_at, in_list, in_map, in_set, in_struct,
    mark_at,
};

/// What is known of the declared type of a value, or of the struct whose fields stand next.
pub trait Known: Copy {
    /// This may be known of a value of this type.
    ghost means: { Self → Ty → Type 0 };

    /// The numbers in it are this schema's.
    ghost sound: { Self → Declarations → Type 0 };

    /// Whether it says how a string is read.
    ghost tells: { Bool };

    /// Of the field with this id, where a value of this kind is announced.
    fn field(self, schema: &Schema, id: i16, kind: Kind) -> Self
        requires { sound self schema.now }
        ensures means { (ty : Ty) → means self ty → means result (field_type schema.now (Some (in_struct ty)) id kind) }
        ensures sound { sound result schema.now };

    /// Of the elements of a list or set, where this kind is announced.
    fn element(self, schema: &Schema, container: Container, kind: Kind) -> Self
        requires { sound self schema.now }
        ensures means { (ty : Ty) → means self ty → means result (called_for (Some (in_elements schema.now container ty kind))) }
        ensures sound { sound result schema.now };

    /// Of the keys of a map, where these kinds are announced.
    fn key(self, schema: &Schema, key: Kind, value: Kind) -> Self
        requires { sound self schema.now }
        ensures means { (ty : Ty) → means self ty → means result (called_for (Some (in_map schema.now ty key value))) }
        ensures sound { sound result schema.now };

    /// Of the values of a map, where these kinds are announced.
    fn value(self, schema: &Schema, key: Kind, value: Kind) -> Self
        requires { sound self schema.now }
        ensures means { (ty : Ty) → means self ty → means result (called_for (Some (turned (in_map schema.now ty key value)))) }
        ensures sound { sound result schema.now };

    /// How a string is read.
    fn hint(self) -> Hint
        ensures { (ty : Ty) → means self ty → tells ≡ true → hint_at ty ≡ result };

    /// What is known of an empty map, if this says so.
    fn mark(self, schema: &Schema) -> Option<Mark>
        requires { sound self schema.now }
        ensures { IfSome result (λ mark. (ty : Ty) → means self ty → mark_at schema.now ty ≡ mark) };
}

/// What an empty map is written by; none where that depends on the position, and nothing is known of it.
#[inline(always)]
pub fn mark_for<W: FormWrite, K: Known>(known: K, schema: &Schema) -> Option<Mark>
    requires { K.sound known schema.now }
    ensures { IfSome result (λ mark. (ty : Ty) → K.means known ty → W.marked ≡ true → mark_at schema.now ty ≡ mark) }
{
    if W::is_marked() {
        return known.mark(schema);
    }
    Some(unknown_mark())
}

/// Nothing. It is enough where neither reading nor writing depends on the position, and for each message without an empty map
/// where only writing one does.
#[derive(Clone, Copy)]
pub struct Nothing;

impl Known for Nothing {
    ghost means = { λ known ty. ⊤ };

    ghost sound = { λ known d. ⊤ };

    ghost tells = { false };

    #[inline(always)]
    fn field(self, _schema: &Schema, _id: i16, _kind: Kind) -> Self {
        self
    }

    #[inline(always)]
    fn element(self, _schema: &Schema, _container: Container, _kind: Kind) -> Self {
        self
    }

    #[inline(always)]
    fn key(self, _schema: &Schema, _key: Kind, _value: Kind) -> Self {
        self
    }

    #[inline(always)]
    fn value(self, _schema: &Schema, _key: Kind, _value: Kind) -> Self {
        self
    }

    #[inline(always)]
    fn hint(self) -> Hint {
        Hint::Unknown
    }

    #[inline(always)]
    fn mark(self, _schema: &Schema) -> Option<Mark> {
        None
    }
}

/// That no type is declared. So nothing is declared of what stands in it either.
#[derive(Clone, Copy)]
pub struct Undeclared;

impl Known for Undeclared {
    ghost means = { λ known ty. ty ≡ Unknown };

    ghost sound = { λ known d. ⊤ };

    ghost tells = { true };

    #[inline(always)]
    fn field(self, _schema: &Schema, _id: i16, _kind: Kind) -> Self {
        self
    }

    #[inline(always)]
    fn element(self, _schema: &Schema, _container: Container, _kind: Kind) -> Self {
        self
    }

    #[inline(always)]
    fn key(self, _schema: &Schema, _key: Kind, _value: Kind) -> Self {
        self
    }

    #[inline(always)]
    fn value(self, _schema: &Schema, _key: Kind, _value: Kind) -> Self {
        self
    }

    #[inline(always)]
    fn hint(self) -> Hint {
        Hint::Unknown
    }

    #[inline(always)]
    fn mark(self, _schema: &Schema) -> Option<Mark> {
        Some(unknown_mark())
    }
}

/// What is known of an empty map of which nothing is declared.
#[inline(always)]
fn unknown_mark() -> Mark
    ensures { (d : Declarations) → result ≡ mark_at d Unknown }
{
    Mark {
        hint: Hint::Unknown,
        key: Kind::I8,
        value: Kind::I8,
    }
}

/// The declared type itself.
#[derive(Clone, Copy)]
pub struct Declared(pub Ty);

impl Known for Declared {
    ghost means = { λ known ty. known.0 ≡ ty };

    ghost sound = { λ known d. IsKnown d known.0 };

    ghost tells = { true };

    #[inline(always)]
    fn field(self, schema: &Schema, id: i16, kind: Kind) -> Self {
        let level = in_struct(self.0);
        Declared(declared_type(declared_in(schema, &level, id, kind)))
    }

    fn element(self, schema: &Schema, container: Container, kind: Kind) -> Self {
        let level = match container {
            Container::Set => in_set(schema, self.0, kind),
            Container::List | Container::Map => in_list(schema, self.0, kind),
        };
        Declared(called_for(Some(&level)))
    }

    fn key(self, schema: &Schema, key: Kind, value: Kind) -> Self {
        Declared(called_for(Some(&in_map(schema, self.0, key, value))))
    }

    fn value(self, schema: &Schema, key: Kind, value: Kind) -> Self {
        let level = turn(in_map(schema, self.0, key, value));
        Declared(called_for(Some(&level)))
    }

    #[inline(always)]
    fn hint(self) -> Hint {
        hint_at(self.0)
    }

    #[inline(always)]
    fn mark(self, schema: &Schema) -> Option<Mark> {
        Some(mark_at(schema, self.0))
    }
}

/// The level of a map between a key and its value.
fn turn(level: Level) -> Level
    ensures value { result ≡ turned level }
    ensures known { (d : Declarations) → IsKnownLevel d level → IsKnownLevel d result }
{
    match level {
        Level::Keys(key, value) => Level::Values(key, value),
        other => other,
    }
}
