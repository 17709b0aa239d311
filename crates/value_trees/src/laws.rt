//! Which events are a body's, in the words of whole bodies. Each law is the contract of a function that does nothing.
ghost use Rattle.std.specs.Prelude.{◌≡◌, List};
ghost use Rattle.thrift_value.specs.Items.{Item};
ghost use Rattle.thrift_value.specs.Trees.{Members, items_of_members, AreMembers};
ghost use Rattle.value_trees.specs.Gathering.{run, at_first, over, IsRefused};
ghost use Rattle.value_trees.specs.Bodies.{IsBody, BeginsBody, AreInRange};

/// What events are gathered to is the body whose events they are.
pub fn what_is_gathered_is_a_body()
    ensures { (items : List Item) (fields : Members) → AreInRange items → run at_first items ≡ over fields → IsBody items fields }
{}

/// Events that are not refused begin the events of a body.
pub fn what_is_not_refused_begins_a_body()
    ensures { (items : List Item) → AreInRange items → (IsRefused (run at_first items) → ⊥) → BeginsBody items }
{}

/// The events of a body are gathered to it.
pub fn a_body_is_gathered()
    ensures { (fields : Members) → AreMembers fields → run at_first (items_of_members fields) ≡ over fields }
{}

/// Events that are refused begin the events of no body.
pub fn what_is_refused_begins_no_body()
    ensures { (items : List Item) → IsRefused (run at_first items) → BeginsBody items → ⊥ }
{}
