//! The events of a body, whatever its protocol.
ghost use Rattle.std.specs.Prelude.{◌≡◌, ◌≤◌, Some, IfOk};
ghost use Rattle.std.specs.Borrow.{sem};
ghost use Rattle.std.specs.Io.BufRead.{Rests};
ghost use Rattle.thrift_value.specs.Items.{item_of};
ghost use Rattle.protocol_traits.specs.Follow.{depth_after};
ghost use Rattle.protocol_traits.specs.Stack.{first_of};
ghost use Rattle.protocol_traits.specs.Steps.{told, seen, Leaves};

use binary_protocol::BinaryRead;
use compact_protocol::CompactRead;
use json_protocol::JsonRead;
use protocol_traits::{Fault, Hint, ReadRules, Slot, WireRead};
use thrift_value::Event;

/// A reader in the middle of a body. It names no lifetime, so that a function over it can call itself.
pub trait Events: ReadRules {
    /// The innermost open level; None behind the body.
    fn innermost(&self) -> Option<Slot>
        ensures { result ≡ first_of (Self.nest self.now) };

    /// The next event, where the innermost level is known, or the fault that stands in it.
    fn event_in(&mut self, level: Slot, hint: Hint) -> Result<Event<'_>, Fault>
        requires level { first_of (Self.nest self.old) ≡ Some level }
        ensures answer { seen item_of result ≡ told (Self.reads self.old hint) }
        ensures* after { sem 𝓛 (Rests Self.row self.entry (λ new. Leaves (Self.reads self.old hint) new)) };
}

impl<'f> Events for BinaryRead<'f> {
    #[inline(always)]
    fn innermost(&self) -> Option<Slot> {
        self.level()
    }

    #[inline(always)]
    fn event_in(&mut self, level: Slot, hint: Hint) -> Result<Event<'_>, Fault> {
        self.next_in(level, hint)
    }
}

impl<'f> Events for CompactRead<'f> {
    #[inline(always)]
    fn innermost(&self) -> Option<Slot> {
        self.level()
    }

    #[inline(always)]
    fn event_in(&mut self, level: Slot, hint: Hint) -> Result<Event<'_>, Fault> {
        self.next_in(level, hint)
    }
}

impl<'f> Events for JsonRead<'f> {
    #[inline(always)]
    fn innermost(&self) -> Option<Slot> {
        self.level()
    }

    #[inline(always)]
    fn event_in(&mut self, level: Slot, hint: Hint) -> Result<Event<'_>, Fault> {
        self.next_in(level, hint)
    }
}
