//! A message that goes on in its own protocol, into the output.
ghost use Rattle.std.specs.Prelude.{◌≡◌, ◌+◌, ◌≤◌, ◌<◌, ◌^◌, length, take, true, false, IfSome};
ghost use Rattle.protocol_traits.specs.Heads.{header_of};
ghost use Rattle.protocol_traits.specs.Room.{room_for};
ghost use Rattle.translate_verdicts.specs.Routes.{IsKnownRoute};
ghost use Rattle.translate_verdicts.specs.Judged.{judged_frame};
ghost use Rattle.translate_known.specs.Laid.{IsLaid};
ghost use Rattle.translate_known.specs.Quick.{PassedBody, PassesBody, PassedMessage, PassesMessage};

use crate::body::keep_fields;
use gate_io::Out;
use kept_forms::FormKeep;
use protocol_traits::{FormWrite, Head, Opening};
use translate_known::{Declared, Habit, Known, Nothing, Outcome, Undeclared, holds_name};
use translate_verdicts::{Route, told_of};
use type_tables::{Schema, StructId, Ty};

/// Appends a message's translation to its own protocol, and tells of it what the caller asks for; or leaves the output as it
/// was, which says nothing of the frame.
///
/// `room` is at least as long as the frame. A name that doesn't lie in the frame as it is meant is laid there. `habit` is kept
/// from message to message of one stream.
#[inline(always)]
pub fn pass_kept<R: FormKeep<W>, W: FormWrite, O: Outcome>(
    schema: &Schema,
    route: Route,
    frame: &[u8],
    room: &mut [u8],
    habit: &mut Habit,
    out: &mut Out,
) -> O
    requires known { IsKnownRoute schema.now route }
    requires room { length frame.now ≤ length room.old }
    requires size { length frame.now < 2 ^ 31 }
    requires fits { length out.old.bytes + room_for (length frame.now) ≤ out.old.room }
    ensures left { O.fails result → out.new ≡ out.old }
    ensures room { out.new.room ≡ out.old.room }
    ensures short { length out.new.bytes ≤ length out.old.bytes + room_for (length frame.now) }
    ensures passes { O.passes result out.old.bytes out.new.bytes (judged_frame R.ReadRules W.WireWrite schema.now route frame.now) }
{
    let Some((head, at)) = R::keep_front(frame, room) else {
        return O::left();
    };
    if !holds_name::<W>(head.name) {
        return O::left();
    }
    if habit.begins_untyped::<W>(schema) {
        if append_message::<R, W, Nothing>(Nothing, schema, &head, frame, at, out) {
            habit.was_enough();
            return O::passed_by(schema, route, &head);
        }
        if !W::is_marked() {
            return O::left();
        }
        habit.asks();
    }
    let told = told_of(schema, route, &head);
    if append_typed::<R, W>(schema, told.body, &head, frame, at, out) {
        return O::passed(told.info);
    }
    O::left()
}

/// Copies a frame into as many cells, and says that all of its message goes on as it stands, where nothing is known of its
/// types. False says nothing of the frame.
///
/// `room` is at least as long as the frame, as for `pass_kept`.
#[inline(always)]
pub fn lay_kept<R: FormKeep<W>, W: FormWrite>(
    schema: &Schema,
    frame: &[u8],
    room: &mut [u8],
    cells: &mut [u8],
) -> bool
    requires room { length frame.now ≤ length room.old }
    requires size { length frame.now < 2 ^ 31 }
    requires same { length cells.old ≡ length frame.now }
    ensures kept { length cells.new ≡ length cells.old }
    ensures passes { result ≡ true → (route : Route) → IsLaid cells.new (judged_frame R.ReadRules W.WireWrite schema.now route frame.now) }
{
    let Some((head, at)) = R::keep_front(frame, room) else {
        return false;
    };
    if !holds_name::<W>(head.name) {
        return false;
    }
    keep_message::<R, W, Nothing>(Nothing, schema, frame, at, cells)
}

/// The same with what is declared of the message.
#[inline(always)]
pub fn lay_kept_declared<R: FormKeep<W>, W: FormWrite>(
    schema: &Schema,
    route: Route,
    frame: &[u8],
    room: &mut [u8],
    cells: &mut [u8],
) -> bool
    requires known { IsKnownRoute schema.now route }
    requires room { length frame.now ≤ length room.old }
    requires size { length frame.now < 2 ^ 31 }
    requires same { length cells.old ≡ length frame.now }
    ensures kept { length cells.new ≡ length cells.old }
    ensures passes { result ≡ true → IsLaid cells.new (judged_frame R.ReadRules W.WireWrite schema.now route frame.now) }
{
    let Some((head, at)) = R::keep_front(frame, room) else {
        return false;
    };
    if !holds_name::<W>(head.name) {
        return false;
    }
    let told = told_of(schema, route, &head);
    keep_told::<R, W>(schema, told.body, frame, at, cells)
}

/// Copies a frame into as many cells, and keeps its body there, which begins at a place and whose struct was looked up.
#[inline(always)]
fn keep_told<R: FormKeep<W>, W: FormWrite>(
    schema: &Schema,
    body: Option<StructId>,
    frame: &[u8],
    at: usize,
    cells: &mut [u8],
) -> bool
    requires known { IfSome body (λ s. s.0 < length schema.now.structs) }
    requires place { at ≤ length frame.now }
    requires same { length cells.old ≡ length frame.now }
    ensures kept { length cells.new ≡ length cells.old }
    ensures passes { result ≡ true → PassesBody R.ReadRules W.WireWrite schema.now body frame.now at (take at frame.now) cells.new }
{
    match body {
        Some(declared) => {
            let known = Declared(Ty::Struct(declared));
            keep_message::<R, W, Declared>(known, schema, frame, at, cells)
        }
        None => keep_message::<R, W, Undeclared>(Undeclared, schema, frame, at, cells),
    }
}

/// Appends a message whose header is kept and whose body begins at a place, and says that all of it is kept, with all that is
/// known of the body's struct; or leaves the output as it was.
#[inline(always)]
fn append_typed<R: FormKeep<W>, W: FormWrite>(
    schema: &Schema,
    body: Option<StructId>,
    head: &Head<'_>,
    frame: &[u8],
    at: usize,
    out: &mut Out,
) -> bool
    requires known { IfSome body (λ s. s.0 < length schema.now.structs) }
    requires place { at ≤ length frame.now }
    requires own { take at frame.now ≡ W.plain_head (header_of head.now) }
    requires fits { length out.old.bytes + length frame.now ≤ out.old.room }
    ensures left { result ≡ false → out.new ≡ out.old }
    ensures room { out.new.room ≡ out.old.room }
    ensures short { length out.new.bytes ≤ length out.old.bytes + length frame.now }
    ensures passes { result ≡ true → PassesMessage R.ReadRules W.WireWrite schema.now body (header_of head.now) frame.now at out.old.bytes out.new.bytes }
{
    match body {
        Some(declared) => {
            let known = Declared(Ty::Struct(declared));
            append_message::<R, W, Declared>(known, schema, head, frame, at, out)
        }
        None => append_message::<R, W, Undeclared>(Undeclared, schema, head, frame, at, out),
    }
}

/// The same for a body of whose struct this is known.
#[inline(always)]
fn append_message<R: FormKeep<W>, W: FormWrite, K: Known>(
    known: K,
    schema: &Schema,
    head: &Head<'_>,
    frame: &[u8],
    at: usize,
    out: &mut Out,
) -> bool
    requires known { K.sound known schema.now }
    requires place { at ≤ length frame.now }
    requires own { take at frame.now ≡ W.plain_head (header_of head.now) }
    requires fits { length out.old.bytes + length frame.now ≤ out.old.room }
    ensures left { result ≡ false → out.new ≡ out.old }
    ensures room { out.new.room ≡ out.old.room }
    ensures short { length out.new.bytes ≤ length out.old.bytes + length frame.now }
    ensures passes { result ≡ true → PassedMessage R.ReadRules W.WireWrite (K.means known) schema.now head.now frame.now at out.old.bytes out.new.bytes }
{
    let before = out.bytes().len();
    let cells = out.tail(frame.len());
    if keep_message::<R, W, K>(known, schema, frame, at, cells) {
        return true;
    }
    out.cut(before);
    false
}

/// Copies a frame into as many cells, and keeps its body there, which begins at a place.
#[inline(always)]
fn keep_message<R: FormKeep<W>, W: FormWrite, K: Known>(
    known: K,
    schema: &Schema,
    frame: &[u8],
    at: usize,
    cells: &mut [u8],
) -> bool
    requires known { K.sound known schema.now }
    requires place { at ≤ length frame.now }
    requires same { length cells.old ≡ length frame.now }
    ensures kept { length cells.new ≡ length cells.old }
    ensures passes { result ≡ true → PassedBody R.ReadRules W.WireWrite (K.means known) schema.now frame.now at (take at frame.now) cells.new }
{
    cells.copy_from_slice(frame);
    let opening = Opening::Body;
    if let Some(behind) = keep_fields::<R, W, K>(known, schema, frame, at, cells, opening, 1) {
        if behind == frame.len() {
            return true;
        }
    }
    false
}
