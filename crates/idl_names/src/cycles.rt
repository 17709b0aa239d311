//! Typedefs and services that lead round.
ghost use Rattle.std.specs.Prelude.{◌≡◌, [], ◌<◌, ◌^◌, IfOk, length, slice_get, unwrap_or};
ghost use Rattle.idl_names.specs.Cycles.{IsTold, RowTells, TellsAny, TellsCycles, TellsRound, cycle_at, is_absent, is_on};
ghost use Rattle.idl_names.specs.Files.{file_trees};
ghost use Rattle.idl_names.specs.Marks.{AreMarked, no_marks};

use crate::documents::Spot;
use crate::leading::reach;
use crate::marking::mark_all;
use crate::marks::Marks;
use crate::names::Names;
use crate::spot_set::SpotSet;
use gate_base::OutOfMemory;
use std::alloc::Global;
use std::marker::Model;

/// How a definition stands to cycles: a typedef leads to what its type names, also within containers, and a service to the
/// one that it extends.
#[derive(Clone, Copy)]
pub enum Cycle {
    /// It leads into none.
    Absent,
    /// It leads into one, and not to itself.
    Ahead,
    /// It leads to itself.
    On,
}

/// How each definition of each file stands to cycles.
#[derive(Drop)]
pub struct Cycles {
    rows: Vec<CycleRow>,
}

/// The definitions of one file.
#[derive(Drop)]
struct CycleRow {
    list: Vec<Cycle>,
}

impl Model for CycleRow {
    ghost use Rattle.std.specs.Prelude.{List};
    ghost use Rattle.idl_names.specs.declared.cycles.Cycle.{Cycle};

    ghost Value = { List Cycle };

    ghost view = { λ r. r.list.items };
}

impl Model for Cycles {
    ghost use Rattle.std.specs.Prelude.{List};
    ghost use Rattle.idl_names.specs.declared.cycles.Cycle.{Cycle};

    ghost Value = { List (List Cycle) };

    ghost view = { λ c. c.rows.items };
}

impl Cycles {
    /// Finds how each definition of these files stands to cycles.
    ///
    /// `OutOfMemory`: the memory for it was not found.
    pub fn find(alloc: Global, names: &Names<'_>) -> Result<Cycles, OutOfMemory>
        ensures { IfOk result (λ cycles. TellsCycles (file_trees names.now.files.now) cycles) }
    {
        let mut marks = Marks::new(alloc);
        let cycles = Cycles::by_marks(alloc, names, &mut marks);
        marks.let_go();
        cycles
    }

    // The same, with no marks to begin with.
    fn by_marks(alloc: Global, names: &Names<'_>, marks: &mut Marks) -> Result<Cycles, OutOfMemory>
        requires { marks.old ≡ no_marks }
        ensures { IfOk result (λ cycles. TellsCycles (file_trees names.now.files.now) cycles) }
    {
        mark_all(alloc, names, marks)?;
        let mut rows = Vec::new(alloc);
        for (place, file) in names.files.iter().enumerate() {
            let count = file.document.definitions.as_slice().len();
            let row = row_of(alloc, names, marks, place as u32, count)?;
            rows.push(row)?;
        }
        Ok(Cycles { rows })
    }

    /// How the definition at a spot stands to cycles.
    pub fn at(&self, spot: Spot) -> Cycle
        ensures { result ≡ cycle_at self.now spot }
    {
        match self.rows.get(spot.file as usize) {
            None => Cycle::Absent,
            Some(row) => row.at(spot.definition),
        }
    }
}

impl CycleRow {
    fn at(&self, place: u32) -> Cycle
        ensures { result ≡ unwrap_or (slice_get self.now place) Cycle.Absent }
    {
        match self.list.get(place as usize) {
            None => Cycle::Absent,
            Some(cycle) => *cycle,
        }
    }
}

impl Cycle {
    pub(crate) fn is_on(self) -> bool
        ensures { result ≡ is_on self }
    {
        match self {
            Cycle::Absent => false,
            Cycle::Ahead => false,
            Cycle::On => true,
        }
    }

    pub(crate) fn is_absent(self) -> bool
        ensures { result ≡ is_absent self }
    {
        match self {
            Cycle::Absent => true,
            Cycle::Ahead => false,
            Cycle::On => false,
        }
    }
}

fn row_of(
    alloc: Global,
    names: &Names<'_>,
    marks: &Marks,
    file: u32,
    count: usize,
) -> Result<CycleRow, OutOfMemory>
    requires few { count < 2 ^ 32 }
    requires marked { AreMarked (file_trees names.now.files.now) marks.now }
    ensures { IfOk result (λ row. RowTells (file_trees names.now.files.now) file count row) }
{
    let mut list = Vec::new(alloc);
    for place in 0..count {
        let spot = Spot {
            file,
            definition: place as u32,
        };
        let cycle = cycle_of(alloc, names, marks, spot)?;
        list.push(cycle)?;
    }
    Ok(CycleRow { list })
}

fn cycle_of(
    alloc: Global,
    names: &Names<'_>,
    marks: &Marks,
    spot: Spot,
) -> Result<Cycle, OutOfMemory>
    requires { AreMarked (file_trees names.now.files.now) marks.now }
    ensures { IfOk result (λ cycle. IsTold (file_trees names.now.files.now) spot cycle) }
{
    if marks.absent.contains(spot) {
        return Ok(Cycle::Absent);
    }
    if marks.ahead.contains(spot) {
        return Ok(Cycle::Ahead);
    }
    if marks.on.contains(spot) {
        return Ok(Cycle::On);
    }
    walked(alloc, names, spot)
}

// The answer of a walk along all that a definition leads to, where it has no mark.
fn walked(alloc: Global, names: &Names<'_>, spot: Spot) -> Result<Cycle, OutOfMemory>
    ensures { IfOk result (λ cycle. IsTold (file_trees names.now.files.now) spot cycle) }
{
    let mut set = SpotSet::new(alloc);
    let cycle = walked_with(alloc, names, spot, &mut set);
    set.let_go();
    cycle
}

// The same, where the walk has an empty set to begin with.
fn walked_with(
    alloc: Global,
    names: &Names<'_>,
    spot: Spot,
    set: &mut SpotSet,
) -> Result<Cycle, OutOfMemory>
    requires { set.old ≡ [] }
    ensures { IfOk result (λ cycle. IsTold (file_trees names.now.files.now) spot cycle) }
{
    reach(alloc, names, spot, set)?;
    if set.contains(spot) {
        return Ok(Cycle::On);
    }
    if any_round(alloc, names, set)? {
        return Ok(Cycle::Ahead);
    }
    Ok(Cycle::Absent)
}

// Whether one of these leads to itself.
fn any_round(alloc: Global, names: &Names<'_>, set: &SpotSet) -> Result<bool, OutOfMemory>
    ensures { IfOk result (λ found. TellsAny (file_trees names.now.files.now) set.now found) }
{
    let mut i = 0;
    'spots: while let Some(spot) = set.get(i) {
        if is_round(alloc, names, spot)? {
            return Ok(true);
        }
        i += 1;
    }
    Ok(false)
}

// Whether a definition leads to itself.
fn is_round(alloc: Global, names: &Names<'_>, spot: Spot) -> Result<bool, OutOfMemory>
    ensures { IfOk result (λ round. TellsRound (file_trees names.now.files.now) spot round) }
{
    let mut set = SpotSet::new(alloc);
    let reached = reach(alloc, names, spot, &mut set);
    let round = set.contains(spot);
    set.let_go();
    reached?;
    Ok(round)
}
