//! What follows a body, whether or not its struct is declared.
ghost use Rattle.std.specs.Prelude.{◌≡◌, ◌<◌, ◌≤◌, ◌↔◌, IsTrue, length};
ghost use Rattle.thrift_value.specs.Items.{item_of};
ghost use Rattle.protocol_traits.specs.Follow.{depth_after};
ghost use Rattle.type_walk.specs.Positions.{Position, hint_of, mark_of, after};
ghost use Rattle.protocol_traits.specs.declared.nest.TheConstants.{DEPTH};

use crate::undeclared::Undeclared;
use crate::walk::Walk;
use protocol_traits::{Hint, Mark};
use thrift_value::Event;

/// What follows a body from event to event. It takes no memory.
pub trait Walking: Drop {
    /// The position that it is at.
    ghost at: { Self → Position };

    /// Whether the body goes on.
    fn is_open(&self) -> bool
        ensures { IsTrue result ↔ 0 < length (at self.now).levels };

    /// How a string that stands next is read.
    fn hint(&self) -> Hint
        ensures { result ≡ hint_of (at self.now) };

    /// Goes past an event, and says what is known where it stands. At most `DEPTH` levels are open.
    fn step(&mut self, event: &Event<'_>) -> Mark
        requires open { 0 < length (at self.old).levels }
        requires shallow { depth_after (item_of event.now) (length (at self.old).levels) ≤ DEPTH }
        ensures mark { result ≡ mark_of (at self.old) (item_of event.now) }
        ensures after { at self.new ≡ after (at self.old) (item_of event.now) }
        ensures depth { length (at self.new).levels ≡ depth_after (item_of event.now) (length (at self.old).levels) };
}

impl<'s> Walking for Walk<'s> {
    ghost at = { λ position. position };

    #[inline(always)]
    fn is_open(&self) -> bool {
        Walk::is_open(self)
    }

    #[inline(always)]
    fn hint(&self) -> Hint {
        Walk::hint(self)
    }

    #[inline(always)]
    fn step(&mut self, event: &Event<'_>) -> Mark {
        Walk::step(self, event)
    }
}

impl<'s> Walking for Undeclared<'s> {
    ghost at = { λ position. position };

    #[inline(always)]
    fn is_open(&self) -> bool {
        Undeclared::is_open(self)
    }

    #[inline(always)]
    fn hint(&self) -> Hint {
        Undeclared::hint(self)
    }

    #[inline(always)]
    fn step(&mut self, event: &Event<'_>) -> Mark {
        Undeclared::step(self, event)
    }
}
