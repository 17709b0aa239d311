//! How definitions stand to cycles, found in one walk.
//!
//! Each definition is asked after those that it leads to, but for those on a cycle with it. Then a walk from it meets known
//! definitions and its own cycles alone, and all that it passed is marked at once. The answers rest on no order: where
//! another one left a definition without a mark, a walk of its own would tell.
ghost use Rattle.std.specs.Prelude.{◌≡◌, List, [], false, OnOk};
ghost use Rattle.idl_names.specs.Cycles.{AreAmong};
ghost use Rattle.idl_names.specs.Files.{FileTree, file_trees};
ghost use Rattle.idl_names.specs.Marks.{AreCovered, AreMarked, Gains, IsBeyond, IsRound, is_covered, knows, no_marks};
ghost use Rattle.idl_names.specs.Sets.{Has, is_among};

use crate::documents::Spot;
use crate::leading::{leads_at_once, reach_fresh};
use crate::marks::Marks;
use crate::names::Names;
use crate::sources::{Sources, find_order};
use crate::spot_set::SpotSet;
use gate_base::OutOfMemory;
use std::alloc::Global;

/// Marks the definitions of all files, where none is marked yet.
pub(crate) fn mark_all(
    alloc: Global,
    names: &Names<'_>,
    marks: &mut Marks,
) -> Result<(), OutOfMemory>
    requires { marks.old ≡ no_marks }
    ensures { OnOk result (AreMarked (file_trees names.now.files.now) marks.new) }
{
    let mut sources = Sources::new(alloc);
    let mut order = Vec::new(alloc);
    mark_in_order(alloc, names, &mut sources, &mut order, marks)
}

// The same, with nothing in the sources and in the order to begin with.
fn mark_in_order(
    alloc: Global,
    names: &Names<'_>,
    sources: &mut Sources,
    order: &mut Vec<Spot>,
    marks: &mut Marks,
) -> Result<(), OutOfMemory>
    requires { marks.old ≡ no_marks }
    ensures { OnOk result (AreMarked (file_trees names.now.files.now) marks.new) }
{
    find_order(alloc, names, sources, order)?;
    for spot in order.as_slice() {
        mark(alloc, names, sources, *spot, marks)?;
    }
    Ok(())
}

// Marks a definition, and those on a cycle with it.
fn mark(
    alloc: Global,
    names: &Names<'_>,
    sources: &Sources,
    spot: Spot,
    marks: &mut Marks,
) -> Result<(), OutOfMemory>
    requires { AreMarked (file_trees names.now.files.now) marks.old }
    ensures { OnOk result (AreMarked (file_trees names.now.files.now) marks.new) }
{
    if marks.knows(spot) {
        return Ok(());
    }
    let mut set = SpotSet::new(alloc);
    let mut round = SpotSet::new(alloc);
    let marked = mark_with(alloc, names, sources, spot, &mut set, &mut round, marks);
    set.let_go();
    round.let_go();
    marked
}

// The same for one that is not known, with two empty sets to begin with.
fn mark_with(
    alloc: Global,
    names: &Names<'_>,
    sources: &Sources,
    spot: Spot,
    set: &mut SpotSet,
    round: &mut SpotSet,
    marks: &mut Marks,
) -> Result<(), OutOfMemory>
    requires fresh { knows marks.old spot ≡ false }
    requires marked { AreMarked (file_trees names.now.files.now) marks.old }
    requires none { set.old ≡ [] }
    requires no_round { round.old ≡ [] }
    ensures { OnOk result (AreMarked (file_trees names.now.files.now) marks.new) }
{
    reach_fresh(names, marks, spot, set)?;
    if set.contains(spot) {
        return mark_round(alloc, names, sources, spot, set, round, marks);
    }
    mark_line(spot, set, round, marks)
}

// Marks a definition that does not lead to itself.
fn mark_line(
    spot: Spot,
    set: &SpotSet,
    none: &SpotSet,
    marks: &mut Marks,
) -> Result<(), OutOfMemory>
    requires none { none.now ≡ [] }
    requires fresh { knows marks.old spot ≡ false }
    requires line { is_among spot set.now ≡ false }
    ensures { (files : List FileTree) → AreMarked files marks.old → IsBeyond files marks.old spot set.now → OnOk result (AreMarked files marks.new) }
{
    if !are_covered(set, marks, none) {
        return Ok(());
    }
    if are_among(set, &marks.absent) {
        return marks.absent.insert(spot);
    }
    marks.ahead.insert(spot)
}

// Marks those that one leads to and that lead back to it. They are put into an empty set first.
fn mark_round(
    alloc: Global,
    names: &Names<'_>,
    sources: &Sources,
    spot: Spot,
    set: &SpotSet,
    round: &mut SpotSet,
    marks: &mut Marks,
) -> Result<(), OutOfMemory>
    requires no_round { round.old ≡ [] }
    requires marked { AreMarked (file_trees names.now.files.now) marks.old }
    requires beyond { IsBeyond (file_trees names.now.files.now) marks.old spot set.now }
    requires round { Has set.now spot }
    ensures { OnOk result (AreMarked (file_trees names.now.files.now) marks.new) }
{
    find_round(alloc, names, sources, spot, set, round)?;
    if !are_covered(set, marks, round) {
        return Ok(());
    }
    marks.on.insert_all(round)
}

// Whether each of these is known, or among the others.
fn are_covered(spots: &SpotSet, marks: &Marks, others: &SpotSet) -> bool
    ensures { AreCovered spots.now marks.now others.now result }
{
    let mut i = 0;
    'spots: while let Some(spot) = spots.get(i) {
        if !is_covered(spot, marks, others) {
            return false;
        }
        i += 1;
    }
    true
}

fn is_covered(spot: Spot, marks: &Marks, others: &SpotSet) -> bool
    ensures { result ≡ is_covered marks.now others.now spot }
{
    marks.knows(spot) || others.contains(spot)
}

// Whether each of these is among the others.
fn are_among(spots: &SpotSet, others: &SpotSet) -> bool
    ensures { AreAmong spots.now others.now result }
{
    let mut i = 0;
    'spots: while let Some(spot) = spots.get(i) {
        if !others.contains(spot) {
            return false;
        }
        i += 1;
    }
    true
}

// Puts those in a set that lead to one of it into an empty set.
fn find_round(
    alloc: Global,
    names: &Names<'_>,
    sources: &Sources,
    from: Spot,
    set: &SpotSet,
    round: &mut SpotSet,
) -> Result<(), OutOfMemory>
    requires from { Has set.now from }
    requires no_round { round.old ≡ [] }
    ensures { OnOk result (IsRound (file_trees names.now.files.now) from set.now round.new) }
{
    round.insert(from)?;
    let mut i = 0;
    'spots: while let Some(spot) = round.get(i) {
        add_sources(alloc, names, sources.of(spot), spot, set, round)?;
        i += 1;
    }
    Ok(())
}

// Adds those of these that stand in a set and lead to a definition at once.
fn add_sources(
    alloc: Global,
    names: &Names<'_>,
    sources: &[Spot],
    to: Spot,
    set: &SpotSet,
    round: &mut SpotSet,
) -> Result<(), OutOfMemory>
    ensures { OnOk result (Gains (file_trees names.now.files.now) set.now to round.old round.new) }
{
    for source in sources {
        add_source(alloc, names, *source, to, set, round)?;
    }
    Ok(())
}

fn add_source(
    alloc: Global,
    names: &Names<'_>,
    source: Spot,
    to: Spot,
    set: &SpotSet,
    round: &mut SpotSet,
) -> Result<(), OutOfMemory>
    ensures { OnOk result (Gains (file_trees names.now.files.now) set.now to round.old round.new) }
{
    if round.contains(source) {
        return Ok(());
    }
    if !set.contains(source) {
        return Ok(());
    }
    let leads = leads_at_once(alloc, names, source, to)?;
    if !leads {
        return Ok(());
    }
    round.insert(source)
}
