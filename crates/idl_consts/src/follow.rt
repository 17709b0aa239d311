//! The names of a value followed to the values of their constants.
ghost use Rattle.std.specs.Prelude.{◌≡◌, ℕ, List, IfOk, IfSome, IsTrue, Ok, Some, option_copied, slice_get};
ghost use Rattle.idl_names.specs.declared.documents.Spot.{Spot};
ghost use Rattle.idl_names.specs.Files.{FileTree};
ghost use Rattle.idl_consts.specs.declared.row.ConstRow.{ConstRow};
ghost use Rattle.idl_consts.specs.Following.{IsRow, constant_course};
ghost use Rattle.idl_consts.specs.Knowing.{IsSound};
ghost use Rattle.idl_consts.specs.Meant.{Meant, meant_at};
ghost use Rattle.idl_consts.specs.Pieces.{course_of};
ghost use Rattle.idl_consts.specs.Trails.{IsFrame, IsTrail, IsNext, IsFollowing, IsLeaving, IsHalted, IsOf, IsHalfway, GoesOn, met, upcoming_fault, IsOnTrail};
ghost use Rattle.idl_consts.specs.Views.{files_of};

use crate::fitting::same_spot;
use crate::knowing::{Known, is_own};
use crate::row::ConstRow;
use crate::same::same_ref;
use crate::survey::{ConstRef, Survey, survey_value};
use crate::types::{TypeRef, definition};
use crate::view::View;
use gate_base::OutOfMemory;
use idl_document::Definition;
use idl_names::Spot;
use std::alloc::Global;
use std::mem;

/// The value of a constant where a type is asked for, and how many of its names were taken.
#[derive(Drop)]
pub struct Frame<'d> {
    pub constant: Spot,
    pub ty: TypeRef<'d>,
    pub survey: Survey<'d>,
    pub next: usize,
}

/// Values of which each waits for a name to be followed, and the value of the last name.
#[derive(Drop)]
pub struct Trail<'d> {
    pub outer: Vec<Frame<'d>>,
    pub top: Frame<'d>,
}

/// What stands next in a value.
#[derive(Clone, Copy)]
pub enum Upcoming<'d> {
    Name(ConstRef<'d>),
    Fault(usize, ConstRow),
    Nothing,
}

/// The row of a name that stands for a constant, or None where nothing is refused through it.
///
/// The names are followed in a loop, however long the chain is. `OutOfMemory` is the answer too where more names were
/// followed than memory could hold.
pub fn name_row<'d>(
    alloc: Global,
    view: &View<'_, 'd>,
    known: &mut Known,
    name: ConstRef<'d>,
) -> Result<Option<ConstRow>, OutOfMemory>
    requires known { IsSound (files_of view.now) known.old }
    ensures row { IfOk result (λ row. IsRow (files_of view.now) name.entry.constant (meant_at (files_of view.now) name.entry.ty) row) }
    ensures known { IsSound (files_of view.now) known.new }
{
    let mut trail = begin(alloc, view, name)?;
    'names: for _ in 0..u64::MAX {
        if let Some(row) = go_on(alloc, view, known, &mut trail)? {
            return Ok(settle(view, known, &mut trail, name, row));
        }
    }
    Err(OutOfMemory)
}

fn begin<'d>(
    alloc: Global,
    view: &View<'_, 'd>,
    name: ConstRef<'d>,
) -> Result<Trail<'d>, OutOfMemory>
    ensures { IfOk result (λ trail. IsTrail (files_of view.now) name.entry.constant (meant_at (files_of view.now) name.entry.ty) trail) }
{
    let top = open_frame(alloc, view, name)?;
    Ok(Trail {
        outer: Vec::new(alloc),
        top,
    })
}

/// The value of the constant that a name stands for.
fn open_frame<'d>(
    alloc: Global,
    view: &View<'_, 'd>,
    name: ConstRef<'d>,
) -> Result<Frame<'d>, OutOfMemory>
    ensures whole { IfOk result (IsFrame (files_of view.now)) }
    ensures constant { IfOk result (λ f. f.constant ≡ name.entry.constant) }
    ensures ty { IfOk result (λ f. f.ty ≡ name.entry.ty) }
{
    let survey = constant_survey(alloc, view, name.constant, name.ty)?;
    Ok(Frame {
        constant: name.constant,
        ty: name.ty,
        survey,
        next: 0,
    })
}

#[tactic(auto, unfolding(crate::specs::Following::constant_course))]
fn constant_survey<'d>(
    alloc: Global,
    view: &View<'_, 'd>,
    constant: Spot,
    ty: TypeRef<'d>,
) -> Result<Survey<'d>, OutOfMemory>
    ensures { IfOk result (λ s. course_of (files_of view.now) s ≡ constant_course (files_of view.now) constant (meant_at (files_of view.now) ty.entry)) }
{
    match definition(view, constant) {
        Some(Definition::Const(_, _, value)) => {
            survey_value(alloc, view, constant.file, ty, value)
        }
        _ => Ok(Survey {
            references: Vec::new(alloc),
            fault: None,
        }),
    }
}

/// Goes on by one name, or tells the row of the name at the beginning.
fn go_on<'d>(
    alloc: Global,
    view: &View<'_, 'd>,
    known: &mut Known,
    trail: &mut Trail<'d>,
) -> Result<Option<Option<ConstRow>>, OutOfMemory>
    requires known { IsSound (files_of view.now) known.old }
    requires top { IsFrame (files_of view.now) trail.old.top }
    ensures goes { let d = files_of view.now in IfOk result (λ done. (s : Spot) (m : Meant) → IsTrail d s m trail.old → GoesOn d s m done trail.new) }
    ensures known { IsSound (files_of view.now) known.new }
{
    match take_next(&mut trail.top) {
        Upcoming::Name(name) => meet_name(alloc, view, known, trail, name),
        Upcoming::Fault(_, row) => Ok(Some(Some(row))),
        Upcoming::Nothing => {
            keep(view, known, &trail.top, None);
            Ok(leave(trail))
        }
    }
}

/// Takes what stands next from a frame.
fn take_next<'d>(frame: &mut Frame<'d>) -> Upcoming<'d>
    ensures { (d : List FileTree) → IsNext d frame.old result frame.new }
{
    let next = frame.next;
    match reference_at(frame.survey.references.as_slice(), next) {
        Some(name) => {
            frame.next = next + 1;
            Upcoming::Name(name)
        }
        None => fault_next(frame.survey.fault),
    }
}

fn reference_at<'d>(references: &[ConstRef<'d>], next: usize) -> Option<ConstRef<'d>>
    ensures { result ≡ slice_get references.now next }
{
    references.get(next).copied()
}

fn fault_next<'d>(fault: Option<(usize, ConstRow)>) -> Upcoming<'d>
    ensures { result ≡ upcoming_fault fault }
{
    match fault {
        Some((at, row)) => Upcoming::Fault(at, row),
        None => Upcoming::Nothing,
    }
}

/// Meets a name that stands in the innermost value: what is known of it, or else it is followed.
fn meet_name<'d>(
    alloc: Global,
    view: &View<'_, 'd>,
    known: &Known,
    trail: &mut Trail<'d>,
    name: ConstRef<'d>,
) -> Result<Option<Option<ConstRow>>, OutOfMemory>
    requires known { IsSound (files_of view.now) known.now }
    ensures { let d = files_of view.now in IfOk result (λ row. (s : Spot) (m : Meant) → IsFollowing d s m trail.old name.entry → GoesOn d s m row trail.new) }
{
    match known_row(view, known, name) {
        Some(row) => Ok(met(row)),
        None => follow_name(alloc, view, trail, name),
    }
}

fn met(row: Option<ConstRow>) -> Option<Option<ConstRow>>
    ensures { result ≡ met row }
{
    match row {
        Some(row) => Some(Some(row)),
        None => None,
    }
}

/// Follows a name that stands in the innermost value.
fn follow_name<'d>(
    alloc: Global,
    view: &View<'_, 'd>,
    trail: &mut Trail<'d>,
    name: ConstRef<'d>,
) -> Result<Option<Option<ConstRow>>, OutOfMemory>
    ensures cycle { IsHalfway name.entry trail.old → result ≡ Ok (Some (Some ConstRow.CycleOfConstants)) }
    ensures goes { let d = files_of view.now in IfOk result (λ row. (s : Spot) (m : Meant) → IsFollowing d s m trail.old name.entry → GoesOn d s m row trail.new) }
{
    if comes_again(trail, name) {
        return Ok(Some(Some(ConstRow::CycleOfConstants)));
    }
    let inner = open_frame(alloc, view, name)?;
    let waiting = mem::replace(&mut trail.top, inner);
    trail.outer.push(waiting)?;
    Ok(None)
}

/// What is refused through a name, as far as it is known.
fn known_row(view: &View<'_, '_>, known: &Known, name: ConstRef<'_>) -> Option<Option<ConstRow>>
    requires known { IsSound (files_of view.now) known.now }
    ensures { IfSome result (IsRow (files_of view.now) name.entry.constant (meant_at (files_of view.now) name.entry.ty)) }
{
    if is_own(view, name.constant, name.ty) {
        known.get(name.constant)
    } else {
        None
    }
}

/// Keeps what is refused through a constant, where its own type was asked for.
fn keep(view: &View<'_, '_>, known: &mut Known, frame: &Frame<'_>, row: Option<ConstRow>)
    requires known { IsSound (files_of view.now) known.old }
    requires row { IsRow (files_of view.now) frame.now.constant (meant_at (files_of view.now) frame.now.ty) row }
    ensures { IsSound (files_of view.now) known.new }
{
    if is_own(view, frame.constant, frame.ty) {
        known.put(frame.constant, row)
    }
}

/// The row of the name at the beginning. Where something is refused, it is so through each name of the trail.
fn settle<'d>(
    view: &View<'_, 'd>,
    known: &mut Known,
    trail: &mut Trail<'d>,
    name: ConstRef<'d>,
    row: Option<ConstRow>,
) -> Option<ConstRow>
    requires known { IsSound (files_of view.now) known.old }
    requires done { GoesOn (files_of view.now) name.constant (meant_at (files_of view.now) name.ty) (Some row) trail.old }
    ensures row { IsRow (files_of view.now) name.entry.constant (meant_at (files_of view.now) name.entry.ty) result }
    ensures known { IsSound (files_of view.now) known.new }
{
    match row {
        Some(row) => {
            unwind(view, known, trail, name, row);
            Some(row)
        }
        None => None,
    }
}

/// Keeps what is refused through each name of a trail.
fn unwind<'d>(
    view: &View<'_, 'd>,
    known: &mut Known,
    trail: &mut Trail<'d>,
    name: ConstRef<'d>,
    row: ConstRow,
)
    requires known { IsSound (files_of view.now) known.old }
    requires halted { IsHalted (files_of view.now) name.constant (meant_at (files_of view.now) name.ty) trail.old row }
    ensures { IsSound (files_of view.now) known.new }
{
    keep(view, known, &trail.top, Some(row));
    'frames: while let Some(frame) = trail.outer.pop() {
        trail.top = frame;
        keep(view, known, &trail.top, Some(row));
    }
}

/// Leaves the innermost value, in which nothing is refused.
fn leave(trail: &mut Trail<'_>) -> Option<Option<ConstRow>>
    ensures { (d : List FileTree) → (s : Spot) (m : Meant) → IsLeaving d s m trail.old → GoesOn d s m result trail.new }
{
    match trail.outer.pop() {
        Some(frame) => {
            trail.top = frame;
            None
        }
        None => Some(None),
    }
}

/// Whether a name stands for a constant whose value waits for it already, where the same type is asked for.
///
/// Only the value half way up is compared. Where names lead in a circle, it is found so before twice as many values wait as
/// there are different ones among them; that it is found is not proved. If it were not, names would be followed until memory
/// ends.
fn comes_again(trail: &Trail<'_>, name: ConstRef<'_>) -> bool
    ensures half { IsHalfway name.entry trail.now → IsTrue result }
    ensures among { IsTrue result → ((d : List FileTree) → IsOnTrail d name.entry trail.now) }
{
    let half = (trail.outer.len() + 1) / 2;
    match frame_at(trail.outer.as_slice(), half) {
        Some(frame) => is_of(frame, name),
        None => is_of(&trail.top, name),
    }
}

fn frame_at<'t, 'd>(frames: &'t [Frame<'d>], place: usize) -> Option<&'t Frame<'d>>
    ensures { option_copied result ≡ slice_get frames.now place }
{
    frames.get(place)
}

fn is_of(frame: &Frame<'_>, name: ConstRef<'_>) -> bool
    ensures constant { IsTrue result → name.entry.constant ≡ frame.now.constant }
    ensures ty { IsTrue result → ((d : List FileTree) → meant_at d name.entry.ty ≡ meant_at d frame.now.ty) }
    ensures same { IsOf name.entry frame.now → IsTrue result }
{
    same_spot(name.constant, frame.constant) && same_ref(name.ty, frame.ty)
}
