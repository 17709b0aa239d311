//! What is refused through constants, so that each is looked through once.
ghost use Rattle.std.specs.Prelude.{◌≡◌, List, IfOk, IfSome, IsTrue, Some, slice_get};
ghost use Rattle.idl_names.specs.Files.{FileTree};
ghost use Rattle.idl_names.specs.Targets.{definition_count};
ghost use Rattle.idl_consts.specs.Knowing.{own_by, own_type, AreRows, IsOwnRow, IsSound};
ghost use Rattle.idl_consts.specs.Meant.{meant_at};
ghost use Rattle.idl_consts.specs.Views.{files_of, found_tree};

use crate::row::ConstRow;
use crate::same::{is_spot, same_meaning};
use crate::types::{TypeRef, definition};
use crate::view::View;
use gate_base::OutOfMemory;
use idl_document::Definition;
use idl_names::{FileDoc, Spot};
use std::alloc::Global;

/// Of each file the number of the definitions before it, and for each definition, if it is a constant, what is refused
/// through it where its own type is asked for, as far as it is known.
///
/// What is kept is right. That it is kept, and found again, is not proved: a constant of which nothing is found is looked
/// through again, so only time rests on it.
#[derive(Drop)]
pub struct Known {
    pub starts: Vec<usize>,
    pub rows: Vec<Option<(Spot, Option<ConstRow>)>>,
}

impl Known {
    /// Nothing is known yet of so many definitions.
    pub fn new(alloc: Global, files: &[FileDoc], limit: usize) -> Result<Known, OutOfMemory>
        ensures { IfOk result (λ known. (d : List FileTree) → IsSound d known) }
    {
        Ok(Known {
            starts: starts(alloc, files)?,
            rows: blank(alloc, limit)?,
        })
    }

    /// Where a spot stands in the list.
    fn place(&self, spot: Spot) -> usize {
        match self.starts.as_slice().get(spot.file as usize) {
            Some(start) => start.saturating_add(spot.definition as usize),
            None => usize::MAX,
        }
    }

    /// What is refused through the constant at a spot, as far as it is known.
    pub fn get(&self, spot: Spot) -> Option<Option<ConstRow>>
        ensures { (d : List FileTree) → IsSound d self.now → IfSome result (IsOwnRow d spot) }
    {
        match row_in(self.rows.as_slice(), self.place(spot)) {
            Some(Some((other, row))) => row_of(other, spot, row),
            _ => None,
        }
    }

    /// Keeps what is refused through the constant at a spot.
    pub fn put(&mut self, spot: Spot, row: Option<ConstRow>)
        ensures { (d : List FileTree) → IsSound d self.old → IsOwnRow d spot row → IsSound d self.new }
    {
        let place = self.place(spot);
        if place < self.rows.len() {
            self.rows[place] = Some((spot, row));
        }
    }
}

fn row_of(other: Spot, spot: Spot, row: Option<ConstRow>) -> Option<Option<ConstRow>>
    ensures found { other ≡ spot → result ≡ Some row }
    ensures own { (d : List FileTree) → IsOwnRow d other row → IfSome result (IsOwnRow d spot) }
{
    if is_spot(other, spot) {
        Some(row)
    } else {
        None
    }
}

fn starts(alloc: Global, files: &[FileDoc]) -> Result<Vec<usize>, OutOfMemory> {
    let mut starts = Vec::new(alloc);
    let mut total = 0usize;
    for file in files {
        starts.push(total)?;
        total = total.saturating_add(file.document.definitions.as_slice().len());
    }
    Ok(starts)
}

fn blank(alloc: Global, limit: usize) -> Result<Vec<Option<(Spot, Option<ConstRow>)>>, OutOfMemory>
    ensures { IfOk result (λ rows. (d : List FileTree) → AreRows d rows.items) }
{
    let mut rows = Vec::new(alloc);
    'rows: for _ in 0..limit {
        rows.push(None)?;
    }
    Ok(rows)
}

fn row_in(
    rows: &[Option<(Spot, Option<ConstRow>)>],
    place: usize,
) -> Option<Option<(Spot, Option<ConstRow>)>>
    ensures { result ≡ slice_get rows.now place }
{
    rows.get(place).copied()
}

/// Whether a type is that of the constant at a spot.
///
/// A yes is sure. After a no the constant is looked through for this type again, so only time rests on it.
pub fn is_own(view: &View<'_, '_>, spot: Spot, ty: TypeRef<'_>) -> bool
    ensures { IsTrue result → meant_at (files_of view.now) ty.entry ≡ own_type (files_of view.now) spot }
{
    match own_ref(definition(view, spot), view.names.definition_count(), spot) {
        Some(own) => same_meaning(view, ty, own),
        None => false,
    }
}

fn own_ref<'d>(definition: Option<&'d Definition>, limit: usize, spot: Spot) -> Option<TypeRef<'d>>
    ensures { (d : List FileTree) → limit ≡ definition_count d → IfSome result (λ t. meant_at d t ≡ own_by d spot (found_tree definition.entry)) }
{
    match definition {
        Some(Definition::Const(_, ty, _)) => Some(TypeRef {
            file: spot.file,
            ty,
            left: limit,
        }),
        _ => None,
    }
}
