//! The order in which definitions are asked how they stand to cycles. Only speed rests on it, and no answer.

use crate::documents::Spot;
use crate::leading::add_next;
use crate::names::Names;
use crate::spot_set::SpotSet;
use gate_base::OutOfMemory;
use std::alloc::Global;

/// For each definition those that lead to it at once.
#[derive(Drop)]
pub(crate) struct Sources {
    files: Vec<FileSources>,
    // All definitions, file by file.
    spots: Vec<Spot>,
}

/// The definitions of one file.
#[derive(Drop)]
struct FileSources {
    lists: Vec<SourceList>,
}

#[derive(Drop)]
struct SourceList {
    spots: Vec<Spot>,
}

/// A definition on the way from where a walk began, and how many of those that lead to it the walk has seen.
#[derive(Clone, Copy)]
struct Step {
    spot: Spot,
    seen: usize,
}

impl Sources {
    /// Nothing is noted. Takes no memory.
    pub(crate) fn new(alloc: Global) -> Sources {
        Sources {
            files: Vec::new(alloc),
            spots: Vec::new(alloc),
        }
    }

    /// Those that lead to a definition at once.
    pub(crate) fn of(&self, spot: Spot) -> &[Spot] {
        match self.list_at(spot) {
            None => &[],
            Some(list) => list.spots.as_slice(),
        }
    }

    fn list_at(&self, spot: Spot) -> Option<&SourceList> {
        let file = self.files.get(spot.file as usize)?;
        file.lists.get(spot.definition as usize)
    }

    // Makes room for all definitions.
    fn add_files(&mut self, alloc: Global, names: &Names<'_>) -> Result<(), OutOfMemory> {
        for (place, file) in names.files.iter().enumerate() {
            let count = file.document.definitions.as_slice().len();
            self.add_file(alloc, place as u32, count.min(u32::MAX as usize) as u32)?;
        }
        Ok(())
    }

    fn add_file(&mut self, alloc: Global, file: u32, count: u32) -> Result<(), OutOfMemory> {
        let mut lists = Vec::new(alloc);
        add_lists(alloc, file, count, &mut lists, &mut self.spots)?;
        self.files.push(FileSources { lists })?;
        Ok(())
    }

    // Notes each definition at those that it leads to.
    fn note_all(&mut self, alloc: Global, names: &Names<'_>) -> Result<(), OutOfMemory> {
        for spot in &self.spots {
            note(alloc, names, *spot, &mut self.files)?;
        }
        Ok(())
    }
}

fn add_lists(
    alloc: Global,
    file: u32,
    count: u32,
    lists: &mut Vec<SourceList>,
    spots: &mut Vec<Spot>,
) -> Result<(), OutOfMemory> {
    for definition in 0..count {
        lists.push(SourceList {
            spots: Vec::new(alloc),
        })?;
        spots.push(Spot { file, definition })?;
    }
    Ok(())
}

fn note(
    alloc: Global,
    names: &Names<'_>,
    from: Spot,
    files: &mut Vec<FileSources>,
) -> Result<(), OutOfMemory> {
    let mut next = SpotSet::new(alloc);
    let noted = note_next(names, from, &mut next, files);
    next.let_go();
    noted
}

fn note_next(
    names: &Names<'_>,
    from: Spot,
    next: &mut SpotSet,
    files: &mut Vec<FileSources>,
) -> Result<(), OutOfMemory> {
    add_next(names, from, next)?;
    let mut i = 0;
    'spots: while let Some(to) = next.get(i) {
        note_at(from, to, files)?;
        i += 1;
    }
    Ok(())
}

fn note_at(from: Spot, to: Spot, files: &mut Vec<FileSources>) -> Result<(), OutOfMemory> {
    let Some(file) = files.get_mut(to.file as usize) else {
        return Ok(());
    };
    let Some(list) = file.lists.get_mut(to.definition as usize) else {
        return Ok(());
    };
    list.spots.push(from)?;
    Ok(())
}

/// Finds for each definition those that lead to it at once, and puts all definitions in order, each behind those that it leads
/// to, but for those on a cycle with it: the order in which walks against the direction leave the definitions, turned round.
/// Both are empty to begin with.
pub(crate) fn find_order(
    alloc: Global,
    names: &Names<'_>,
    sources: &mut Sources,
    order: &mut Vec<Spot>,
) -> Result<(), OutOfMemory> {
    sources.add_files(alloc, names)?;
    sources.note_all(alloc, names)?;
    walk_all(alloc, sources, order)?;
    order.reverse();
    Ok(())
}

// Each definition that no walk from one before it met, behind those that lead to it.
fn walk_all(alloc: Global, sources: &Sources, order: &mut Vec<Spot>) -> Result<(), OutOfMemory> {
    let mut met = SpotSet::new(alloc);
    let mut way = Vec::new(alloc);
    let walked = walk_each(sources, &mut met, &mut way, order);
    met.let_go();
    walked
}

fn walk_each(
    sources: &Sources,
    met: &mut SpotSet,
    way: &mut Vec<Step>,
    order: &mut Vec<Spot>,
) -> Result<(), OutOfMemory> {
    for spot in &sources.spots {
        walk(sources, *spot, met, way, order)?;
    }
    Ok(())
}

// Those that lead to a definition and that were not met before, and then this one. The walk ends where no step is left; the
// bound is never met.
fn walk(
    sources: &Sources,
    from: Spot,
    met: &mut SpotSet,
    way: &mut Vec<Step>,
    order: &mut Vec<Spot>,
) -> Result<(), OutOfMemory> {
    go_to(from, met, way)?;
    for _ in 0..usize::MAX {
        match way.pop() {
            None => return Ok(()),
            Some(step) => go_on(sources, step, met, way, order)?,
        }
    }
    Ok(())
}

fn go_on(
    sources: &Sources,
    step: Step,
    met: &mut SpotSet,
    way: &mut Vec<Step>,
    order: &mut Vec<Spot>,
) -> Result<(), OutOfMemory> {
    let Some(source) = sources.of(step.spot).get(step.seen) else {
        order.push(step.spot)?;
        return Ok(());
    };
    way.push(Step {
        spot: step.spot,
        seen: step.seen.saturating_add(1),
    })?;
    go_to(*source, met, way)
}

// A step to a definition that was not met before.
fn go_to(spot: Spot, met: &mut SpotSet, way: &mut Vec<Step>) -> Result<(), OutOfMemory> {
    if met.contains(spot) {
        return Ok(());
    }
    met.insert(spot)?;
    way.push(Step { spot, seen: 0 })?;
    Ok(())
}
