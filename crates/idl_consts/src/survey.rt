//! The survey of one value: the names in it that stand for constants, up to the first thing that is refused.
ghost use Rattle.std.specs.Prelude.{◌≡◌, List, IfOk, [], ◌∷◌, map};
ghost use Rattle.idl_document.specs.Items.{items_of_value};
ghost use Rattle.idl_names.specs.Files.{FileTree};
ghost use Rattle.idl_consts.specs.Course.{Context, answered, opened_list, opened_map, key_move, inner_move, item_move, offset_of, course};
ghost use Rattle.idl_consts.specs.Meant.{meant_at, meant_by};
ghost use Rattle.idl_consts.specs.Pieces.{item_of, context_of, move_of, course_of, key_meant, Takes, Surveys, piece_move};
ghost use Rattle.idl_consts.specs.Views.{files_of};

use crate::fitting::{Answer, double_answer, literal_answer, named_answer, whole_answer};
use crate::keys::key_answer;
use crate::pieces::{Piece, append_pieces};
use crate::row::ConstRow;
use crate::types::{Shape, TypeRef, resolve};
use crate::view::View;
use gate_base::OutOfMemory;
use idl_document::ValueExpr;
use idl_names::Spot;
use std::alloc::Global;

/// A name that stands for a constant where a value of a type is asked for.
#[derive(Clone, Copy)]
pub struct ConstRef<'d> {
    pub at: usize,
    pub constant: Spot,
    pub ty: TypeRef<'d>,
}

/// The names of a value in order, and behind them what is refused first.
#[derive(Drop)]
pub struct Survey<'d> {
    pub references: Vec<ConstRef<'d>>,
    pub fault: Option<(usize, ConstRow)>,
}

/// What is asked for next in an open list, map or struct.
#[derive(Clone, Copy)]
pub enum OpenValue<'d> {
    Elements(TypeRef<'d>),
    Keys(TypeRef<'d>, TypeRef<'d>),
    Values(TypeRef<'d>, TypeRef<'d>),
    Names(Spot),
    FieldValue(Spot, TypeRef<'d>),
}

/// What one piece leads to.
#[derive(Clone, Copy)]
pub enum SurveyStep<'d> {
    Fails(usize, ConstRow),
    Reference(ConstRef<'d>, OpenValue<'d>),
    Goes(OpenValue<'d>),
    /// The outer one and the inner one.
    Opens(OpenValue<'d>, OpenValue<'d>),
    Closes,
}

/// Surveys a value that is written in a file, where a value of this type is asked for.
#[tactic(auto, unfolding(crate::specs::Course::course))]
pub fn survey_value<'d>(
    alloc: Global,
    view: &View<'_, 'd>,
    file: u32,
    ty: TypeRef<'d>,
    value: &'d ValueExpr,
) -> Result<Survey<'d>, OutOfMemory>
    ensures { let d = files_of view.now in IfOk result (λ s. course_of d s ≡ course d file (meant_at d ty.entry) (items_of_value value.now)) }
{
    let mut pieces = Vec::new(alloc);
    append_pieces(value, &mut pieces)?;
    let mut levels = Vec::new(alloc);
    levels.push(OpenValue::Elements(ty))?;
    let mut references = Vec::new(alloc);
    let fault = survey_pieces(view, file, pieces.as_slice(), &mut levels, &mut references)?;
    Ok(Survey { references, fault })
}

/// Surveys pieces where so much is open, behind these names.
fn survey_pieces<'d>(
    view: &View<'_, 'd>,
    file: u32,
    pieces: &[Piece<'d>],
    levels: &mut Vec<OpenValue<'d>>,
    references: &mut Vec<ConstRef<'d>>,
) -> Result<Option<(usize, ConstRow)>, OutOfMemory>
    ensures { let d = files_of view.now in IfOk result (Surveys d file references.old.items levels.old.items pieces.now references.new.items) }
{
    for piece in pieces {
        let Some(top) = levels.pop() else {
            return Ok(None);
        };
        let turn = turn_at(view, file, top, piece);
        let fault = take(turn, references, levels)?;
        if fault.is_some() {
            return Ok(fault);
        }
    }
    Ok(None)
}

/// Takes a turn: what is refused by it, or else the names and what is open behind it.
fn take<'d>(
    turn: SurveyStep<'d>,
    references: &mut Vec<ConstRef<'d>>,
    levels: &mut Vec<OpenValue<'d>>,
) -> Result<Option<(usize, ConstRow)>, OutOfMemory>
    ensures { IfOk result (λ fault. (d : List FileTree) → Takes d turn.entry references.old.items levels.old.items fault references.new.items levels.new.items) }
{
    match turn {
        SurveyStep::Fails(at, row) => Ok(Some((at, row))),
        SurveyStep::Reference(reference, next) => {
            references.push(reference)?;
            levels.push(next)?;
            Ok(None)
        }
        SurveyStep::Goes(next) => {
            levels.push(next)?;
            Ok(None)
        }
        SurveyStep::Opens(outer, inner) => {
            levels.push(outer)?;
            levels.push(inner)?;
            Ok(None)
        }
        SurveyStep::Closes => Ok(None),
    }
}

/// What a piece leads to where `top` is the innermost that is open.
fn turn_at<'d>(
    view: &View<'_, 'd>,
    file: u32,
    top: OpenValue<'d>,
    piece: &Piece<'d>,
) -> SurveyStep<'d>
    ensures { let d = files_of view.now in (up : List Context) → move_of d up result ≡ item_move d file (context_of d top.entry) up (item_of piece.now) }
{
    match piece {
        Piece::ListEnd | Piece::MapEnd => SurveyStep::Closes,
        _ => inner_turn(view, file, top, piece),
    }
}

fn inner_turn<'d>(
    view: &View<'_, 'd>,
    file: u32,
    top: OpenValue<'d>,
    piece: &Piece<'d>,
) -> SurveyStep<'d>
    ensures { let d = files_of view.now in (up : List Context) → move_of d up result ≡ inner_move d file (context_of d top.entry) up (item_of piece.now) }
{
    match top {
        OpenValue::Elements(ty) => value_turn(view, file, ty, piece, OpenValue::Elements(ty)),
        OpenValue::Keys(key, value) => {
            value_turn(view, file, key, piece, OpenValue::Values(key, value))
        }
        OpenValue::Values(key, value) => {
            value_turn(view, file, value, piece, OpenValue::Keys(key, value))
        }
        OpenValue::Names(spot) => {
            key_turn(key_answer(view, file, spot, piece), offset(piece), spot)
        }
        OpenValue::FieldValue(spot, ty) => {
            value_turn(view, file, ty, piece, OpenValue::Names(spot))
        }
    }
}

fn key_turn<'d>(key: Result<TypeRef<'d>, ConstRow>, at: usize, spot: Spot) -> SurveyStep<'d>
    ensures { (d : List FileTree) → (up : List Context) → move_of d up result ≡ key_move (key_meant d key.entry) at spot up }
{
    match key {
        Ok(ty) => SurveyStep::Goes(OpenValue::FieldValue(spot, ty)),
        Err(row) => SurveyStep::Fails(at, row),
    }
}

fn offset(piece: &Piece<'_>) -> usize
    ensures { result ≡ offset_of (item_of piece.now) }
{
    match piece {
        Piece::Whole(at, _) => *at,
        Piece::Double(at, _) => *at,
        Piece::Literal(at, _) => *at,
        Piece::Named(at, _) => *at,
        Piece::ListBegin(at) => *at,
        Piece::MapBegin(at) => *at,
        Piece::ListEnd | Piece::MapEnd => 0,
    }
}

/// The first piece of a value of this type, behind which `next` is open.
fn value_turn<'d>(
    view: &View<'_, 'd>,
    file: u32,
    ty: TypeRef<'d>,
    piece: &Piece<'d>,
    next: OpenValue<'d>,
) -> SurveyStep<'d>
    ensures { let d = files_of view.now in (up : List Context) → move_of d up result ≡ piece_move d file ty.entry next.entry up piece.now }
{
    let shape = resolve(view, ty);
    match piece {
        Piece::Whole(at, number) => answer_turn(whole_answer(&shape, *number), *at, ty, next),
        Piece::Double(at, _) => answer_turn(double_answer(&shape), *at, ty, next),
        Piece::Literal(at, text) => answer_turn(literal_answer(&shape, text), *at, ty, next),
        Piece::Named(at, word) => {
            answer_turn(named_answer(view, file, &shape, word), *at, ty, next)
        }
        Piece::ListBegin(at) => list_turn(shape, *at, next),
        Piece::MapBegin(at) => map_turn(shape, *at, next),
        Piece::ListEnd | Piece::MapEnd => SurveyStep::Goes(next),
    }
}

fn answer_turn<'d>(
    answer: Answer,
    at: usize,
    ty: TypeRef<'d>,
    next: OpenValue<'d>,
) -> SurveyStep<'d>
    ensures { (d : List FileTree) → (up : List Context) → move_of d up result ≡ answered answer at (meant_at d ty.entry) (context_of d next.entry ∷ up) }
{
    match answer {
        Answer::Fits => SurveyStep::Goes(next),
        Answer::Refused(row) => SurveyStep::Fails(at, row),
        Answer::StandsFor(constant) => SurveyStep::Reference(ConstRef { at, constant, ty }, next),
    }
}

fn list_turn<'d>(shape: Shape<'d>, at: usize, next: OpenValue<'d>) -> SurveyStep<'d>
    ensures { (d : List FileTree) → (up : List Context) → move_of d up result ≡ opened_list (meant_by d shape.entry) at (context_of d next.entry ∷ up) }
{
    match shape {
        Shape::Sequence(element) => SurveyStep::Opens(next, OpenValue::Elements(element)),
        _ => SurveyStep::Fails(at, ConstRow::WrongForm),
    }
}

fn map_turn<'d>(shape: Shape<'d>, at: usize, next: OpenValue<'d>) -> SurveyStep<'d>
    ensures { (d : List FileTree) → (up : List Context) → move_of d up result ≡ opened_map (meant_by d shape.entry) at (context_of d next.entry ∷ up) }
{
    match shape {
        Shape::Map(key, value) => SurveyStep::Opens(next, OpenValue::Keys(key, value)),
        Shape::Struct(spot) => SurveyStep::Opens(next, OpenValue::Names(spot)),
        _ => SurveyStep::Fails(at, ConstRow::WrongForm),
    }
}
