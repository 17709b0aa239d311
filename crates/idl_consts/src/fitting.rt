//! What may stand where a value of a type is asked for.
ghost use Rattle.std.specs.Prelude.{◌≡◌, ℤ, List, if◌then◌else◌};
ghost use Rattle.idl_names.specs.Files.{FileTree};
ghost use Rattle.idl_consts.specs.Fitting.{in_range, integer_answer, number_answer, whole_answer, double_answer, literal_answer, is_hex, fits_letter, fits_template, is_uuid, is_truth, truth_answer, is_own_member, same_spot, member_answer, constant_answer, named_answer};
ghost use Rattle.idl_consts.specs.Meant.{meant_by};
ghost use Rattle.idl_consts.specs.declared.fitting.Answer.{Answer};
ghost use Rattle.idl_consts.specs.declared.row.ConstRow.{ConstRow};
ghost use Rattle.idl_consts.specs.Views.{files_of};

use crate::members::{any_member, member_of};
use crate::row::ConstRow;
use crate::types::Shape;
use crate::view::View;
use idl_document::BaseWord;
use idl_names::{Scope, Spot};

/// Whether a value fits, is refused, or is a name that stands for a constant's value.
#[derive(Clone, Copy)]
pub enum Answer {
    Fits,
    Refused(ConstRow),
    StandsFor(Spot),
}

fn in_range(low: i64, high: i64, number: i64) -> Answer
    ensures { result ≡ in_range low high number }
{
    if number < low || high < number {
        Answer::Refused(ConstRow::OutOfRange)
    } else {
        Answer::Fits
    }
}

fn integer_answer(word: BaseWord, number: i64) -> Answer
    ensures { result ≡ integer_answer word number }
{
    match word {
        BaseWord::I8 => in_range(-128, 127, number),
        BaseWord::I16 => in_range(-32768, 32767, number),
        BaseWord::I32 => in_range(-2147483648, 2147483647, number),
        BaseWord::I64 => Answer::Fits,
        BaseWord::Bool | BaseWord::Double | BaseWord::Text | BaseWord::Blob | BaseWord::Uuid =>
            Answer::Refused(ConstRow::WrongForm),
    }
}

fn number_answer(word: BaseWord, number: i64) -> Answer
    ensures { result ≡ number_answer word number }
{
    match word {
        BaseWord::Bool => in_range(0, 1, number),
        BaseWord::Double => Answer::Fits,
        _ => integer_answer(word, number),
    }
}

/// A number where a value of this shape is asked for.
pub fn whole_answer(shape: &Shape<'_>, number: i64) -> Answer
    ensures { (d : List FileTree) → result ≡ whole_answer (meant_by d shape.now) number }
{
    match shape {
        Shape::Base(word) => number_answer(*word, number),
        Shape::Enum(_) => in_range(-2147483648, 2147483647, number),
        _ => Answer::Refused(ConstRow::WrongForm),
    }
}

/// A number with a fraction or an exponent.
pub fn double_answer(shape: &Shape<'_>) -> Answer
    ensures { (d : List FileTree) → result ≡ double_answer (meant_by d shape.now) }
{
    match shape {
        Shape::Base(BaseWord::Double) => Answer::Fits,
        _ => Answer::Refused(ConstRow::WrongForm),
    }
}

/// A literal.
pub fn literal_answer(shape: &Shape<'_>, text: &[u8]) -> Answer
    ensures { (d : List FileTree) → result ≡ literal_answer (meant_by d shape.now) text.now }
{
    match shape {
        Shape::Base(BaseWord::Text | BaseWord::Blob) => Answer::Fits,
        Shape::Base(BaseWord::Uuid) => uuid_answer(text),
        _ => Answer::Refused(ConstRow::WrongForm),
    }
}

fn uuid_answer(text: &[u8]) -> Answer
    ensures { result ≡ (if is_uuid text.now then Answer.Fits else Answer.Refused ConstRow.WrongForm) }
{
    if is_uuid(text) {
        Answer::Fits
    } else {
        Answer::Refused(ConstRow::WrongForm)
    }
}

/// The text form of a uuid by RFC 9562: digits of either case, in groups of 8, 4, 4, 4 and 12, in brackets or not.
#[tactic(auto, unfolding(crate::specs::Fitting::is_uuid))]
fn is_uuid(text: &[u8]) -> bool
    ensures { result ≡ is_uuid text.now }
{
    fits_template(b"xxxxxxxx-xxxx-xxxx-xxxx-xxxxxxxxxxxx", text)
        || fits_template(b"{xxxxxxxx-xxxx-xxxx-xxxx-xxxxxxxxxxxx}", text)
}

fn fits_template(template: &[u8], text: &[u8]) -> bool
    ensures { result ≡ fits_template template.now text.now }
{
    let mut rest = text;
    for letter in template {
        match rest.split_first() {
            Some((first, more)) => {
                if !fits_letter(*letter, *first) {
                    return false;
                }
                rest = more;
            }
            None => return false,
        }
    }
    rest.is_empty()
}

fn fits_letter(letter: u8, byte: u8) -> bool
    ensures { result ≡ fits_letter letter byte }
{
    if letter == b'x' {
        is_hex(byte)
    } else {
        letter == byte
    }
}

fn is_hex(byte: u8) -> bool
    ensures { result ≡ is_hex byte }
{
    (47 < byte && byte < 58) || (64 < byte && byte < 71) || (96 < byte && byte < 103)
}

/// A name where a value of this shape is asked for: true and false, then a member of the enum that is asked for, then a
/// constant, then a member of any enum.
pub fn named_answer(view: &View<'_, '_>, file: u32, shape: &Shape<'_>, word: &[u8]) -> Answer
    ensures { result ≡ named_answer (files_of view.now) file (meant_by (files_of view.now) shape.now) word.now }
{
    if is_truth(word) {
        return truth_answer(shape);
    }
    if is_own_member(view, shape, word) {
        return Answer::Fits;
    }
    match view.names.look_up(file, Scope::Constants, word) {
        Some(spot) => Answer::StandsFor(spot),
        None => member_answer(shape, any_member(view, file, word)),
    }
}

/// The words of a bool.
pub fn is_truth(word: &[u8]) -> bool
    ensures { result ≡ is_truth word.now }
{
    word == b"true".as_slice() || word == b"false".as_slice()
}

fn truth_answer(shape: &Shape<'_>) -> Answer
    ensures { (d : List FileTree) → result ≡ truth_answer (meant_by d shape.now) }
{
    match shape {
        Shape::Base(BaseWord::Bool) => Answer::Fits,
        _ => Answer::Refused(ConstRow::WrongForm),
    }
}

fn is_own_member(view: &View<'_, '_>, shape: &Shape<'_>, word: &[u8]) -> bool
    ensures { result ≡ is_own_member (files_of view.now) (meant_by (files_of view.now) shape.now) word.now }
{
    match shape {
        Shape::Enum(spot) => member_of(view, *spot, word).is_some(),
        _ => false,
    }
}

/// A member of an enum by the enum's name.
fn member_answer(shape: &Shape<'_>, found: Option<(Spot, i64)>) -> Answer
    ensures { (d : List FileTree) → result ≡ member_answer (meant_by d shape.now) found }
{
    let Some((other, number)) = found else {
        return Answer::Refused(ConstRow::UnknownConstant);
    };
    match shape {
        Shape::Base(word) => integer_answer(*word, number),
        Shape::Enum(spot) => own_answer(*spot, other),
        _ => Answer::Refused(ConstRow::WrongForm),
    }
}

fn own_answer(spot: Spot, other: Spot) -> Answer
    ensures { result ≡ (if same_spot spot other then Answer.Fits else Answer.Refused ConstRow.WrongForm) }
{
    if same_spot(spot, other) {
        Answer::Fits
    } else {
        Answer::Refused(ConstRow::WrongForm)
    }
}

/// Whether two spots are one.
pub fn same_spot(spot: Spot, other: Spot) -> bool
    ensures { result ≡ same_spot spot other }
{
    spot.file == other.file && spot.definition == other.definition
}
