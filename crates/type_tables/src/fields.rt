//! The fields of one struct, in the order of their declaration, found by their ids.
ghost use Rattle.std.specs.Prelude.{◌≡◌, ◌↔◌, IsTrue, IfSome, Some, ◌++◌, ◌∷◌, ◌≤◌, ◌<◌, ◌+◌, ◌^◌, [], length, option_copied, slice_get, int_lt};
ghost use Rattle.type_tables.specs.Adding.{Adds};
ghost use Rattle.type_tables.specs.Fields.{rank, same_id, place_in, at_rank, place_of, at_place, Rising};

use crate::declared::{AddFault, FieldInfo};
use std::alloc::Global;
use std::marker::Model;

/// An id, and the place of its field.
#[derive(Clone, Copy)]
struct Place {
    id: i16,
    at: u32,
}

/// Fields in the order of their declaration, no id twice.
#[derive(Drop)]
pub struct FieldList {
    list: Vec<FieldInfo>,
    places: Vec<Place>,
}

impl Model for FieldList {
    ghost use Rattle.std.specs.Prelude.{List};
    ghost use Rattle.type_tables.specs.declared.declared.FieldInfo.{FieldInfo};
    ghost use Rattle.type_tables.specs.Fields.{IsIndex};

    ghost Value = { List FieldInfo };

    ghost view = { λ f. f.list.items };

    ghost invariant = { λ f. IsIndex f.list.items f.places.items };
}

impl FieldList {
    /// The empty list. Takes no memory.
    pub fn new(alloc: Global) -> FieldList
        ensures { result ≡ [] }
    {
        FieldList {
            list: Vec::new(alloc),
            places: Vec::new(alloc),
        }
    }

    pub(crate) fn len(&self) -> usize
        ensures { result ≡ length self.now }
    {
        self.list.len()
    }

    pub(crate) fn as_slice(&self) -> &[FieldInfo]
        ensures { result.now ≡ self.now }
    {
        self.list.as_slice()
    }

    /// Whether there is room for one more.
    pub fn has_room(&self) -> bool
        ensures { IsTrue result ↔ (length self.now + 1 < 2 ^ 32) }
    {
        self.list.len() < 4294967295
    }

    /// The place of the field with this id.
    #[inline(always)]
    pub(crate) fn place(&self, id: i16) -> Option<usize>
        ensures { result ≡ place_of id self.now }
    {
        place_in(self.places.as_slice(), id)
    }

    /// The field at a place.
    #[inline(always)]
    pub(crate) fn at(&self, place: usize) -> Option<&FieldInfo>
        ensures { option_copied result ≡ slice_get self.now place }
    {
        self.list.get(place)
    }

    /// The field with this id.
    #[inline(always)]
    pub(crate) fn find(&self, id: i16) -> Option<&FieldInfo>
        ensures { option_copied result ≡ at_place self.now (place_of id self.now) }
    {
        match self.place(id) {
            Some(place) => self.at(place),
            None => None,
        }
    }

    /// Adds a field behind the others. `Duplicate` tells the place of the field that has this id.
    pub fn push(&mut self, field: FieldInfo) -> Result<(), AddFault>
        requires { length self.old + 1 < 2 ^ 32 }
        ensures { Adds (place_of field.id self.old) self.old self.new (λ u. self.old ++ field ∷ []) result }
    {
        if let Some(first) = self.place(field.id) {
            return Err(AddFault::Duplicate(first));
        }
        // The growths come first.
        let at = self.list.len() as u32;
        let id = field.id;
        if self.list.reserve(1).is_err() {
            return Err(AddFault::OutOfMemory);
        }
        let rank = rank(self.places.as_slice(), id);
        if self.places.insert(rank, place_at(id, at)).is_err() {
            return Err(AddFault::OutOfMemory);
        }
        self.list.push_reserved(field);
        Ok(())
    }
}

fn place_at(id: i16, at: u32) -> Place
    ensures { result ≡ record { id = id; at = at } }
{
    Place { id, at }
}

fn is_below(place: &Place, id: i16) -> bool
    ensures { result ≡ int_lt place.now.id id }
{
    place.id < id
}

fn is_at(place: &Place, id: i16) -> bool
    ensures { result ≡ same_id place.now.id id }
{
    place.id == id
}

// How many ids are below this one.
fn rank(places: &[Place], id: i16) -> usize
    requires { Rising places.now }
    ensures value { result ≡ rank id places.now }
    ensures within { result ≤ length places.now }
{
    let mut low = 0;
    let mut high = places.len();
    while low < high {
        let middle = low + (high - low) / 2;
        if is_below(&places[middle], id) {
            low = middle + 1;
        } else {
            high = middle;
        }
    }
    low
}

fn at_rank(place: Option<&Place>, id: i16) -> Option<usize>
    ensures { result ≡ at_rank id (option_copied place.entry) }
{
    match place {
        Some(place) => {
            if is_at(place, id) {
                Some(place.at as usize)
            } else {
                None
            }
        }
        None => None,
    }
}

fn nth(places: &[Place], at: usize) -> Option<&Place>
    ensures { option_copied result ≡ slice_get places.now at }
{
    places.get(at)
}

// The place beside this id.
#[inline(always)]
fn place_in(places: &[Place], id: i16) -> Option<usize>
    requires { Rising places.now }
    ensures { result ≡ place_in id places.now }
{
    match numbered(places, id) {
        Some(place) => Some(place),
        None => searched(places, id),
    }
}

// The place beside this id where ids are numbered from 1 on, as those of most structs are.
#[inline(always)]
fn numbered(places: &[Place], id: i16) -> Option<usize>
    requires { Rising places.now }
    ensures { IfSome result (λ at. place_in id places.now ≡ Some at) }
{
    let guess = guess(id);
    if guess < places.len() && is_at(&places[guess], id) {
        return Some(places[guess].at as usize);
    }
    None
}

// How many ids are below this one where they are numbered from 1 on.
fn guess(id: i16) -> usize {
    if id > 0 { id as usize - 1 } else { 0 }
}

// The place beside this id, wherever it stands.
#[inline(never)]
fn searched(places: &[Place], id: i16) -> Option<usize>
    requires { Rising places.now }
    ensures { result ≡ place_in id places.now }
{
    at_rank(nth(places, rank(places, id)), id)
}
