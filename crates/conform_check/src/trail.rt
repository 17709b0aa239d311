//! What is open while a body is checked: where the next value of each struct or container stands, and which fields stood in it.
ghost use Rattle.std.specs.Prelude.{◌≡◌, ◌<◌, ◌≤◌, ◌++◌, ◌∷◌, [], IfOk, length, int_lt, if◌then◌else◌};
ghost use Rattle.std.specs.Vec.{vec_capacity};
ghost use Rattle.conform_check.specs.Inside.{advanced, announced, closed, in_fields, next_step, opened, outer, path_to, top_step, top_seen};
ghost use Rattle.conform_check.specs.Breaches.{stood};

use crate::step::Step;
use gate_base::OutOfMemory;
use protocol_traits::DEPTH;
use std::alloc::Global;
use std::marker::Model;

/// One level: where its next value stands, and the ids of the fields that stood in it.
///
/// Nearly every message has its fields in the order of their ids, so the greatest of them answers for the others.
#[derive(Drop)]
struct Shelf {
    step: Step,
    ids: Vec<i16>,
    greatest: Greatest,
}

/// Clauses see the step and the ids, and for how many ids there is room.
impl Model for Shelf {
    ghost use Rattle.std.specs.Vec.{vec_capacity};
    ghost use Rattle.conform_check.specs.Fitting.{AreUpTo, Shelved};

    ghost Value = { Shelved };

    ghost view = { λ s. record { inside = record { step = s.step; seen = s.ids.items }; room = vec_capacity s.ids } };

    ghost invariant = { λ s. AreUpTo s.greatest.id s.ids.items };
}

impl Shelf {
    /// A level with room for so many ids.
    fn new(alloc: Global, room: usize) -> Result<Shelf, OutOfMemory>
        ensures { IfOk result (λ s. s.room ≡ room) }
    {
        Ok(Shelf {
            step: Step::Field(0),
            ids: Vec::with_capacity(alloc, room)?,
            greatest: Greatest { id: i16::MIN },
        })
    }

    /// Nothing stood in it, and its next value stands here.
    #[inline(always)]
    fn begin(&mut self, step: Step)
        ensures inside { self.new.inside ≡ opened step }
        ensures room { self.new.room ≡ self.old.room }
    {
        self.step = step;
        self.ids.clear();
        self.greatest = Greatest { id: i16::MIN };
    }

    #[inline(always)]
    fn step(&self) -> Step
        ensures { result ≡ self.now.inside.step }
    {
        self.step
    }

    #[inline(always)]
    fn ids(&self) -> &[i16]
        ensures { result.now ≡ self.now.inside.seen }
    {
        self.ids.as_slice()
    }

    #[inline(always)]
    fn advance(&mut self)
        ensures inside { self.new.inside ≡ record { step = next_step self.old.inside.step; seen = self.old.inside.seen } }
        ensures room { self.new.room ≡ self.old.room }
    {
        self.step = self.step.next();
    }

    /// Whether a field with this id stood in it.
    #[inline(always)]
    fn stood(&self, id: i16) -> bool
        ensures { result ≡ stood id self.now.inside.seen }
    {
        if self.greatest.is_below(id) {
            return false;
        }
        self.ids.contains(&id)
    }

    /// A field with this id stands in it, and its value comes next.
    #[inline(always)]
    fn announce(&mut self, id: i16)
        requires { length self.old.inside.seen < self.old.room }
        ensures inside { self.new.inside ≡ record { step = Step.Field id; seen = self.old.inside.seen ++ id ∷ [] } }
        ensures room { self.new.room ≡ self.old.room }
    {
        self.step = field(id);
        self.ids.push_reserved(id);
        self.greatest.raise(id);
    }
}

fn field(id: i16) -> Step
    ensures { result ≡ Step.Field id }
{
    Step::Field(id)
}

/// An id than which no other one in a struct is greater.
#[derive(Drop)]
struct Greatest {
    id: i16,
}

impl Greatest {
    #[inline(always)]
    fn is_below(&self, id: i16) -> bool
        ensures { result ≡ int_lt self.now.id id }
    {
        self.id < id
    }

    #[inline(always)]
    fn raise(&mut self, id: i16)
        ensures { self.new.id ≡ (if int_lt self.old.id id then id else self.old.id) }
    {
        if self.id < id {
            self.id = id;
        }
    }
}

/// The open levels. It has room for `DEPTH` of them, and takes no memory behind `new`.
#[derive(Drop)]
pub(crate) struct Trail {
    shelves: Vec<Shelf>,
    depth: usize,
    width: usize,
}

/// Clauses see the open levels, the innermost first, and for how many ids each has room.
impl Model for Trail {
    ghost use Rattle.std.specs.Prelude.{◌≤◌};
    ghost use Rattle.protocol_traits.specs.declared.nest.TheConstants.{DEPTH};
    ghost use Rattle.conform_check.specs.Fitting.{AreReady, Opened, first_levels};

    ghost Value = { Opened };

    ghost view = { λ t. record { levels = first_levels t.shelves.items t.depth; width = t.width } };

    ghost invariant = { λ t. (t.depth ≤ DEPTH) × AreReady t.shelves.items t.width };
}

impl Trail {
    /// Room for the ids of `DEPTH` structs of so many fields.
    pub(crate) fn new(alloc: Global, width: usize) -> Result<Trail, OutOfMemory>
        ensures { IfOk result (λ t. t.width ≡ width) }
    {
        let mut shelves = Vec::with_capacity(alloc, DEPTH)?;
        for _ in 0..DEPTH {
            shelves.push(Shelf::new(alloc, width)?)?;
        }
        Ok(Trail {
            shelves,
            depth: 0,
            width,
        })
    }

    /// One struct is open, in which nothing stood.
    pub(crate) fn restart(&mut self)
        ensures levels { self.new.levels ≡ in_fields ∷ [] }
        ensures width { self.new.width ≡ self.old.width }
    {
        self.depth = 0;
        self.open(Step::Field(0));
    }

    /// One more struct or container is open, whose first value stands here.
    #[inline(always)]
    pub(crate) fn open(&mut self, step: Step)
        requires { length self.old.levels < DEPTH }
        ensures levels { self.new.levels ≡ opened step ∷ self.old.levels }
        ensures width { self.new.width ≡ self.old.width }
    {
        self.shelves[self.depth].begin(step);
        self.depth += 1;
    }

    /// The innermost level is at its end, and where it stood the next value comes.
    #[inline(always)]
    pub(crate) fn close(&mut self)
        requires { 0 < length self.old.levels }
        ensures levels { self.new.levels ≡ closed self.old.levels }
        ensures width { self.new.width ≡ self.old.width }
    {
        self.depth -= 1;
        if self.depth > 0 {
            self.advance();
        }
    }

    /// A value has come.
    #[inline(always)]
    pub(crate) fn advance(&mut self)
        requires { 0 < length self.old.levels }
        ensures levels { self.new.levels ≡ advanced self.old.levels }
        ensures width { self.new.width ≡ self.old.width }
    {
        self.shelves[self.depth - 1].advance();
    }

    /// A field with this id stands in the innermost level.
    #[inline(always)]
    pub(crate) fn announce(&mut self, id: i16)
        requires open { 0 < length self.old.levels }
        requires room { length (top_seen self.old.levels) < self.old.width }
        ensures levels { self.new.levels ≡ announced id self.old.levels }
        ensures width { self.new.width ≡ self.old.width }
    {
        self.shelves[self.depth - 1].announce(id);
    }

    /// Where the next value of the innermost level stands.
    #[inline(always)]
    pub(crate) fn step(&self) -> Step
        requires { 0 < length self.now.levels }
        ensures { result ≡ top_step self.now.levels }
    {
        self.shelves[self.depth - 1].step()
    }

    /// Whether a field with this id stood in the innermost level.
    #[inline(always)]
    pub(crate) fn stood(&self, id: i16) -> bool
        requires { 0 < length self.now.levels }
        ensures { result ≡ stood id (top_seen self.now.levels) }
    {
        self.shelves[self.depth - 1].stood(id)
    }

    /// The ids of the fields that stood in the innermost level.
    #[inline(always)]
    pub(crate) fn ids(&self) -> &[i16]
        requires { 0 < length self.now.levels }
        ensures { result.now ≡ top_seen self.now.levels }
    {
        self.shelves[self.depth - 1].ids()
    }

    /// For how many ids each level has room.
    pub(crate) fn width(&self) -> usize
        ensures { result ≡ self.now.width }
    {
        self.width
    }

    /// Lays the path to the innermost level.
    pub(crate) fn lay_path(&self, path: &mut Vec<Step>)
        requires open { 0 < length self.now.levels }
        requires room { DEPTH ≤ vec_capacity path.old }
        ensures path { path.new.items ≡ path_to (outer self.now.levels) [] }
        ensures short { length path.new.items < DEPTH }
        ensures room { vec_capacity path.new ≡ vec_capacity path.old }
    {
        path.clear();
        for at in 0..self.depth - 1 {
            path.push_reserved(self.shelves[at].step());
        }
    }
}
