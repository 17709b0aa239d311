//! What was read or written of the innermost level.
ghost use Rattle.std.specs.Prelude.{◌≡◌};
ghost use Rattle.thrift_value.specs.Items.{item_of};
ghost use Rattle.json_protocol.specs.Reading.{opening_after};

use thrift_value::Event;

/// What was read or written of the innermost level.
#[derive(Clone, Copy)]
pub enum Opening {
    /// Of the body: nothing, not even its brace.
    Body,
    /// Its begin and no more.
    New,
    /// A field, an element or a key at least, or it was outer to a level that is closed.
    Old,
}

pub fn opening_after(event: &Event<'_>) -> Opening
    ensures { result ≡ opening_after (item_of event.now) }
{
    match *event {
        Event::StructBegin
        | Event::MapBegin(_, _, _)
        | Event::SetBegin(_, _)
        | Event::ListBegin(_, _) => Opening::New,
        _ => Opening::Old,
    }
}
