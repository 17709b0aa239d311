//! The members of enums by their names.
ghost use Rattle.std.specs.Prelude.{◌≡◌, pos, option_map, option_copied};
ghost use Rattle.idl_document.specs.Trees.{definition_tree};
ghost use Rattle.idl_consts.specs.Fitting.{after_number, number_by, number_from, members_in, member_of, any_member, with_spot};
ghost use Rattle.idl_consts.specs.Views.{files_of};

use crate::types::definition;
use crate::view::View;
use idl_document::{Definition, Member};
use idl_names::{Scope, Spot, last_place};

/// The number of the member of this name, of the enum at a spot.
#[tactic(auto, unfolding(crate::specs::Fitting::member_of))]
pub fn member_of(view: &View<'_, '_>, spot: Spot, word: &[u8]) -> Option<i64>
    ensures { result ≡ member_of (files_of view.now) spot word.now }
{
    number_of(members_in(definition(view, spot)), word)
}

fn members_in<'d>(definition: Option<&'d Definition>) -> &'d [Member]
    ensures { result.now ≡ members_in (option_map definition_tree (option_copied definition.entry)) }
{
    match definition {
        Some(Definition::Enum(_, members)) => members.as_slice(),
        _ => &[],
    }
}

fn number_of(members: &[Member], word: &[u8]) -> Option<i64>
    ensures { result ≡ number_from (pos 0) members.now word.now }
{
    let mut next = 0i64;
    for member in members {
        let number = number_by(member.value, next);
        if member.name.text.as_slice() == word {
            return Some(number);
        }
        next = after_number(number);
    }
    None
}

fn number_by(value: Option<i64>, next: i64) -> i64
    ensures { result ≡ number_by value next }
{
    match value {
        Some(number) => number,
        None => next,
    }
}

fn after_number(number: i64) -> i64
    ensures { result ≡ after_number number }
{
    if number < 9223372036854775807 {
        number + 1
    } else {
        number
    }
}

/// A member of any enum, and the enum: the enum's name stands before the last dot.
#[tactic(auto, unfolding(crate::specs::Fitting::any_member))]
pub fn any_member(view: &View<'_, '_>, file: u32, word: &[u8]) -> Option<(Spot, i64)>
    ensures { result ≡ any_member (files_of view.now) file word.now }
{
    match last_place(word, b'.') {
        Some(dot) => match view.names.look_up(file, Scope::Types, &word[..dot]) {
            Some(spot) => with_spot(spot, member_of(view, spot, &word[dot + 1..])),
            None => None,
        },
        None => None,
    }
}

fn with_spot(spot: Spot, number: Option<i64>) -> Option<(Spot, i64)>
    ensures { result ≡ with_spot spot number }
{
    match number {
        Some(number) => Some((spot, number)),
        None => None,
    }
}
