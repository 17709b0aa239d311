//! The writer: the open levels, and what was written of the innermost.
ghost use Rattle.std.specs.Prelude.{◌≡◌, ◌+◌, ◌≤◌, ◌<◌, ◌^◌, ◌∷◌, [], ◌++◌, length, refl};
ghost use Rattle.std.specs.Str.{is_utf8};
ghost use Rattle.thrift_value.specs.Items.{item_of};
ghost use Rattle.protocol_traits.specs.Steps.{IsFree};
ghost use Rattle.protocol_traits.specs.Stack.{first_of};
ghost use Rattle.protocol_traits.specs.Heads.{header_of};
ghost use Rattle.protocol_traits.specs.Follow.{depth_after};
ghost use Rattle.json_protocol.specs.Writing.{string_bar, is_uuid, kind_bar, bar, name_bar, begun, after, plain, plain_head};
ghost use Rattle.json_protocol.specs.WriteForms.{stands_at};
ghost use Rattle.json_protocol.specs.Weights.{plain_nests, light_head, light};

use crate::opening::{Opening, opening_after};
use crate::put::{is_key, lead, put_head, put_item};
use gate_io::Out;
use protocol_traits::{Bar, Head, Hint, Mark, Nest, Slot, WireWrite, follow};
use std::marker::Model;
use thrift_value::{Event, Kind};

/// A writer of TJSON in its plain spelling.
#[derive(Drop)]
pub struct JsonWrite {
    nest: Nest,
    opening: Opening,
}

/// Clauses see the open levels and what was written of the innermost.
impl Model for JsonWrite {
    ghost use Rattle.std.specs.Prelude.{◌≤◌, length};
    ghost use Rattle.protocol_traits.specs.declared.nest.TheConstants.{DEPTH};
    ghost use Rattle.json_protocol.specs.Writing.{Writer};

    ghost Value = { Writer };

    ghost view = { λ w. record { nest = w.nest; opening = w.opening } };

    ghost invariant = { λ w. length w.nest ≤ DEPTH };
}

impl WireWrite for JsonWrite {
    ghost begun = { begun };

    ghost name_bar = { name_bar };

    ghost bar = { bar };

    ghost plain_head = { plain_head };

    ghost plain = { plain };

    ghost after = { after };

    ghost depth = { λ w. length w.nest };

    ghost stands_at = { stands_at };

    ghost starts = { refl };

    ghost nests = { plain_nests };

    ghost light_head = { light_head };

    ghost light = { light };

    fn over() -> Self {
        JsonWrite {
            nest: Nest::new(Slot::Fields(0)),
            opening: Opening::Body,
        }
    }

    fn takes_name(name: &[u8]) -> Result<(), Bar> {
        if is_text(name) {
            return Ok(());
        }
        Err(Bar::NotUtf8)
    }

    fn takes(e: &Event<'_>, mark: Mark) -> Result<(), Bar> {
        match *e {
            Event::Double(_) | Event::NumberText(_) => Err(Bar::Double),
            Event::Str(bytes) => takes_string(bytes, mark.hint),
            Event::UnknownText(_) => Err(Bar::UnknownString),
            Event::Uuid(_) => Err(Bar::Uuid),
            Event::MapBegin(key, value, _) => takes_kind(is_uuid(key) || is_uuid(value)),
            Event::SetBegin(kind, _) => takes_kind(is_uuid(kind)),
            Event::ListBegin(kind, _) => takes_kind(is_uuid(kind)),
            _ => Ok(()),
        }
    }

    fn head(&mut self, h: &Head<'_>, out: &mut Out) {
        put_head(h, out);
    }

    fn put(&mut self, e: &Event<'_>, mark: Mark, out: &mut Out) {
        let top = self.nest.top();
        out.push(lead(self.opening, top, e));
        put_item(self.nest.depth(), is_key(top), e, mark, out);
        follow(&mut self.nest, e);
        self.opening = opening_after(e);
    }
}

/// Whether bytes are UTF-8.
pub fn is_text(bytes: &[u8]) -> bool
    ensures { result ≡ is_utf8 bytes.now }
{
    match simdutf8::basic::from_utf8(bytes) {
        Ok(_) => true,
        Err(_) => false,
    }
}

fn takes_string(bytes: &[u8], hint: Hint) -> Result<(), Bar>
    ensures { IsFree result (string_bar bytes.now hint) }
{
    match hint {
        Hint::Text => if is_text(bytes) {
            Ok(())
        } else {
            Err(Bar::NotUtf8)
        },
        Hint::Blob => Ok(()),
        Hint::Unknown => Err(Bar::UnknownString),
    }
}

fn takes_kind(uuid: bool) -> Result<(), Bar>
    ensures { IsFree result (kind_bar uuid) }
{
    if uuid { Err(Bar::Uuid) } else { Ok(()) }
}

pub fn is_uuid(kind: Kind) -> bool
    ensures { result ≡ is_uuid kind }
{
    matches!(kind, Kind::Uuid)
}
