//! The items of a message, drawn one after another.
ghost use Rattle.std.specs.Prelude.{◌≡◌, ◌≤◌, ◌%◌, length};
ghost use Rattle.drill_messages.specs.Draws.{stepped, draw};
ghost use Rattle.drill_messages.specs.Messages.{item, items, behind_item, behind_message};
ghost use Rattle.drill_messages.specs.Views.{fields_of, all_fields};

use crate::draws::Draws;
use crate::item::Item;
use crate::sizes::MOST_ITEMS;
use arrayvec::ArrayVec;

/// The next item.
#[inline]
#[tactic(auto, unfolding(crate::specs::Messages::item, crate::specs::Messages::behind_item))]
fn draw_item(draws: &mut Draws) -> Item
    ensures drawn { fields_of result ≡ item draws.old.state }
    ensures state { draws.new.state ≡ behind_item draws.old.state }
{
    let id = draws.id();
    let name = draws.letters();
    let raw = draws.bytes();
    let marks = draws.marks();
    let flags = draws.flags();
    Item {
        id,
        name,
        raw,
        marks,
        flags,
    }
}

/// The items of the next message.
pub fn draw_items(draws: &mut Draws) -> ArrayVec<Item, MOST_ITEMS>
    ensures drawn { all_fields result.items ≡ items (draw draws.old.state % 8) (stepped draws.old.state) }
    ensures state { draws.new.state ≡ behind_message draws.old.state }
{
    let count = draws.draw() % 8;
    let mut items = ArrayVec::new();
    for place in 0..count {
        items.push(draw_item(draws));
    }
    items
}
