//! A pass through a frame that tells nothing: whether it is a message.
ghost use Rattle.std.specs.Prelude.{refl, ◌≡◌, ◌≤◌, ◌<◌, ◌^◌, IfSome, length};
ghost use Rattle.protocol_traits.specs.declared.proto.Hint.{Hint};
ghost use Rattle.type_walk.specs.Positions.{Position, start};
ghost use Rattle.translate_verdicts.specs.declared.route.Route.TheVariants.{ByName};
ghost use Rattle.message_show.specs.Shown.{IsService, Finds, FindsBody};

use binary_protocol::BinaryRead;
use compact_protocol::CompactRead;
use protocol_traits::{Fault, Hint, ReadRules, WireRead};
use translate_verdicts::{Route, body_struct};
use type_tables::{Schema, ServiceId, StructId};
use type_walk::{Undeclared, Walk, Walking};

/// What a frame was found to be.
#[derive(Clone, Copy)]
pub enum Checked {
    Message,
    Refused(Fault),
    Unread(Fault),
}

/// A reader that reads a string alike whatever is declared of its position.
pub trait HintIndependent: ReadRules {
    ghost alike: { (s : Self) (a b : Hint) → Self.ReadRules.reads s a ≡ Self.ReadRules.reads s b };
}

impl<'f> HintIndependent for BinaryRead<'f> {
    ghost alike = { λ s a b. refl };
}

impl<'f> HintIndependent for CompactRead<'f> {
    ghost alike = { λ s a b. refl };
}

/// Whether a frame is a message, or the fault that stands in it. Nothing declared is looked at.
pub fn check_undeclared<'f, R: WireRead<'f> + HintIndependent>(
    schema: &Schema,
    service: Option<ServiceId>,
    frame: &'f [u8],
    room: &'f mut [u8],
) -> Checked
    requires room { length frame.now ≤ length room.old }
    requires size { length frame.now < 2 ^ 31 }
    ensures { Finds R.ReadRules schema.now service frame.now result }
{
    let mut reader = R::over(frame, room);
    match reader.head() {
        Ok(_) => {}
        Err(fault) => return Checked::Unread(fault),
    }
    check_any(schema, &mut reader)
}

/// Whether the rest of a message follows, whatever its body's struct, or the fault that stands in it.
fn check_any<'f, R: WireRead<'f> + HintIndependent>(schema: &Schema, reader: &mut R) -> Checked
    requires begins { R.depth reader.old ≡ 1 }
    ensures { (position : Position) → FindsBody R.ReadRules reader.old position result }
{
    let mut walk = Undeclared::start(schema);
    'events: while walk.is_open() {
        match reader.next(Hint::Unknown) {
            Ok(event) => {
                walk.step(&event);
            }
            Err(fault) => return Checked::Refused(fault),
        }
    }
    match reader.finish() {
        Ok(()) => Checked::Message,
        Err(fault) => Checked::Refused(fault),
    }
}

/// Whether a frame is a message, or the fault that stands in it.
pub fn check<'f, R: WireRead<'f>>(
    schema: &Schema,
    service: Option<ServiceId>,
    frame: &'f [u8],
    room: &'f mut [u8],
) -> Checked
    requires service { IsService schema.now service }
    requires room { length frame.now ≤ length room.old }
    requires size { length frame.now < 2 ^ 31 }
    ensures { Finds R.ReadRules schema.now service frame.now result }
{
    let mut reader = R::over(frame, room);
    let body = match reader.head() {
        Ok(head) => body_struct(schema, Route::ByName(service), &head),
        Err(fault) => return Checked::Unread(fault),
    };
    check_body(schema, body, &mut reader)
}

/// Whether a body of this struct, if any, and the end of a message follow.
fn check_body<'f, R: WireRead<'f>>(
    schema: &Schema,
    body: Option<StructId>,
    reader: &mut R,
) -> Checked
    requires known { IfSome body (λ s. s.0 < length schema.now.structs) }
    requires begins { R.depth reader.old ≡ 1 }
    ensures { FindsBody R.ReadRules reader.old (start schema.now body) result }
{
    if body.is_none() {
        let mut walk = Undeclared::start(schema);
        return check_by(reader, &mut walk);
    }
    check_declared(schema, body, reader)
}

/// The same where the body's struct is declared. A walk is large, so only this function has one.
#[inline(never)]
fn check_declared<'f, R: WireRead<'f>>(
    schema: &Schema,
    body: Option<StructId>,
    reader: &mut R,
) -> Checked
    requires known { IfSome body (λ s. s.0 < length schema.now.structs) }
    requires begins { R.depth reader.old ≡ 1 }
    ensures { FindsBody R.ReadRules reader.old (start schema.now body) result }
{
    let mut walk = Walk::start(schema, body);
    check_by(reader, &mut walk)
}

/// Whether the rest of a message follows, or the fault that stands in it.
fn check_by<'f, R: WireRead<'f>, K: Walking>(reader: &mut R, walk: &mut K) -> Checked
    requires begins { R.depth reader.old ≡ 1 }
    requires walks { length (K.at walk.old).levels ≡ 1 }
    ensures { FindsBody R.ReadRules reader.old (K.at walk.old) result }
{
    'events: while walk.is_open() {
        match reader.next(walk.hint()) {
            Ok(event) => {
                walk.step(&event);
            }
            Err(fault) => return Checked::Refused(fault),
        }
    }
    match reader.finish() {
        Ok(()) => Checked::Message,
        Err(fault) => Checked::Refused(fault),
    }
}
