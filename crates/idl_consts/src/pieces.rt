//! The pieces of a value one after another.
ghost use Rattle.std.specs.Prelude.{◌≡◌, ◌++◌, ◌∷◌, [], OnOk, map};
ghost use Rattle.idl_document.specs.Item.{list_begin, list_end, map_begin, map_end};
ghost use Rattle.idl_document.specs.Items.{items_of_value, items_of_values, items_of_pairs};
ghost use Rattle.idl_consts.specs.declared.pieces.Piece.{Piece};
ghost use Rattle.idl_consts.specs.Pieces.{item_of};

use gate_base::OutOfMemory;
use idl_document::{Pair, ValueExpr, ValueForm};

/// One piece of a value with the offset of its first byte. The pieces of a list are those of its values, the pieces of a
/// map those of each key and its value in turn.
#[derive(Clone, Copy)]
pub enum Piece<'d> {
    Whole(usize, i64),
    Double(usize, &'d [u8]),
    Literal(usize, &'d [u8]),
    Named(usize, &'d [u8]),
    ListBegin(usize),
    ListEnd,
    MapBegin(usize),
    MapEnd,
}

fn whole<'d>(at: usize, number: i64) -> Piece<'d>
    ensures { result ≡ Piece.Whole at number }
{
    Piece::Whole(at, number)
}

fn push<'d>(pieces: &mut Vec<Piece<'d>>, piece: Piece<'d>) -> Result<(), OutOfMemory>
    ensures { OnOk result (pieces.new.items ≡ pieces.old.items ++ piece.entry ∷ []) }
{
    pieces.push(piece)?;
    Ok(())
}

/// Appends the pieces of a value. A value is nested no deeper than the parser lets it be.
#[cycle(pieces)]
pub fn append_pieces<'d>(
    value: &'d ValueExpr,
    pieces: &mut Vec<Piece<'d>>,
) -> Result<(), OutOfMemory>
    ensures { OnOk result (map item_of pieces.new.items ≡ map item_of pieces.old.items ++ items_of_value value.now) }
{
    match &value.form {
        ValueForm::Int(number) => push(pieces, whole(value.at, *number)),
        ValueForm::Double(text) => push(pieces, Piece::Double(value.at, text.as_slice())),
        ValueForm::Literal(text) => push(pieces, Piece::Literal(value.at, text.as_slice())),
        ValueForm::Named(word) => push(pieces, Piece::Named(value.at, word.as_slice())),
        ValueForm::List(values) => append_list(value.at, values.as_slice(), pieces),
        ValueForm::Map(pairs) => append_map(value.at, pairs.as_slice(), pieces),
    }
}

#[cycle(pieces)]
fn append_list<'d>(
    at: usize,
    values: &'d [ValueExpr],
    pieces: &mut Vec<Piece<'d>>,
) -> Result<(), OutOfMemory>
    ensures { OnOk result (map item_of pieces.new.items ≡ map item_of pieces.old.items ++ (list_begin at ∷ (items_of_values values.now ++ list_end ∷ []))) }
{
    push(pieces, Piece::ListBegin(at))?;
    append_values(values, pieces)?;
    push(pieces, Piece::ListEnd)?;
    Ok(())
}

#[cycle(pieces)]
fn append_map<'d>(
    at: usize,
    pairs: &'d [Pair],
    pieces: &mut Vec<Piece<'d>>,
) -> Result<(), OutOfMemory>
    ensures { OnOk result (map item_of pieces.new.items ≡ map item_of pieces.old.items ++ (map_begin at ∷ (items_of_pairs pairs.now ++ map_end ∷ []))) }
{
    push(pieces, Piece::MapBegin(at))?;
    append_pairs(pairs, pieces)?;
    push(pieces, Piece::MapEnd)?;
    Ok(())
}

#[cycle(pieces)]
fn append_values<'d>(
    values: &'d [ValueExpr],
    pieces: &mut Vec<Piece<'d>>,
) -> Result<(), OutOfMemory>
    ensures { OnOk result (map item_of pieces.new.items ≡ map item_of pieces.old.items ++ items_of_values values.now) }
{
    for value in values {
        append_pieces(value, pieces)?;
    }
    Ok(())
}

#[cycle(pieces)]
fn append_pairs<'d>(pairs: &'d [Pair], pieces: &mut Vec<Piece<'d>>) -> Result<(), OutOfMemory>
    ensures { OnOk result (map item_of pieces.new.items ≡ map item_of pieces.old.items ++ items_of_pairs pairs.now) }
{
    for pair in pairs {
        append_pieces(&pair.key, pieces)?;
        append_pieces(&pair.value, pieces)?;
    }
    Ok(())
}
