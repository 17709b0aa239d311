//! The quick way into the output.
ghost use Rattle.std.specs.Prelude.{◌≡◌, ◌+◌, ◌*◌, ◌≤◌, ◌<◌, ◌^◌, [], length, take, true, false, None, IfSome};
ghost use Rattle.protocol_traits.specs.Heads.{header_of};
ghost use Rattle.protocol_traits.specs.Room.{room_for};
ghost use Rattle.translate_verdicts.specs.Routes.{IsKnownRoute};
ghost use Rattle.translate_verdicts.specs.Judged.{judged_frame};
ghost use Rattle.translate_known.specs.Laid.{IsLaid};
ghost use Rattle.translate_known.specs.Quick.{HasRoom, Informs, PassedBody, PassedMessage, PassesMessage};

use crate::fields::is_hinted;
use crate::leaves::AROUND;
use crate::quick::take_fields;
use gate_io::Out;
use protocol_traits::{FormRead, FormWrite, Head, Opening};
use translate_known::{Declared, Habit, Known, Nothing, Outcome, Undeclared, holds_name};
use translate_verdicts::{Route, told_of};
use type_tables::{Schema, StructId, Ty};

/// Appends a message's translation, and tells of it what the caller asks for; or leaves the output as it was, which says
/// nothing of the frame.
///
/// `room` is at least as long as the frame. A name that doesn't lie in the frame as it is meant is laid there. `habit` is kept
/// from message to message of one stream.
#[inline(always)]
pub fn pass_quickly<R: FormRead, W: FormWrite, O: Outcome>(
    schema: &Schema,
    route: Route,
    frame: &[u8],
    room: &mut [u8],
    habit: &mut Habit,
    out: &mut Out,
) -> O
    requires known { IsKnownRoute schema.now route }
    requires room { length frame.now ≤ length room.old }
    requires size { length frame.now < 2 ^ 31 }
    requires fits { length out.old.bytes + room_for (length frame.now) ≤ out.old.room }
    ensures left { O.fails result → out.new ≡ out.old }
    ensures room { out.new.room ≡ out.old.room }
    ensures short { length out.new.bytes ≤ length out.old.bytes + room_for (length frame.now) }
    ensures passes { O.passes result out.old.bytes out.new.bytes (judged_frame R.ReadRules W.WireWrite schema.now route frame.now) }
{
    if !is_hinted::<R, W>() && habit.begins_untyped::<W>(schema) {
        let passed = pass_untyped::<R, W, O>(schema, &route, frame, room, out);
        if !W::is_marked() {
            return passed;
        }
        if !passed.is_left() {
            habit.was_enough();
            return passed;
        }
        habit.asks();
    }
    pass_typed::<R, W, O>(schema, &route, frame, room, out)
}

/// The same with nothing known of the message's types. This and `pass_typed` are functions of their own: what one pair of
/// protocols needs fits the registers, what all of them need doesn't, and few messages ask for their types.
#[inline(never)]
fn pass_untyped<R: FormRead, W: FormWrite, O: Outcome>(
    schema: &Schema,
    route: &Route,
    frame: &[u8],
    room: &mut [u8],
    out: &mut Out,
) -> O
    requires reads { R.hinted ≡ false }
    requires writes { W.hinted ≡ false }
    requires known { IsKnownRoute schema.now route.now }
    requires room { length frame.now ≤ length room.old }
    requires size { length frame.now < 2 ^ 31 }
    requires fits { length out.old.bytes + room_for (length frame.now) ≤ out.old.room }
    ensures left { O.fails result → out.new ≡ out.old }
    ensures room { out.new.room ≡ out.old.room }
    ensures short { length out.new.bytes ≤ length out.old.bytes + room_for (length frame.now) }
    ensures passes { O.passes result out.old.bytes out.new.bytes (judged_frame R.ReadRules W.WireWrite schema.now route.now frame.now) }
{
    let Some((head, at)) = R::front(frame, room) else {
        return O::left();
    };
    if !holds_name::<W>(head.name) {
        return O::left();
    }
    if append_message::<R, W, Nothing>(Nothing, schema, &head, frame, at, out) {
        return O::passed_by(schema, *route, &head);
    }
    O::left()
}

/// Lays a message's translation into the front of cells with nothing known of its types, and answers how many cells it took.
/// `None` says nothing of the frame.
///
/// `room` is at least as long as the frame, as for `pass_quickly`.
#[inline(always)]
pub fn lay_quickly<R: FormRead, W: FormWrite>(
    schema: &Schema,
    frame: &[u8],
    room: &mut [u8],
    cells: &mut [u8],
) -> Option<usize>
    requires reads { R.hinted ≡ false }
    requires writes { W.hinted ≡ false }
    requires room { length frame.now ≤ length room.old }
    requires size { length frame.now < 2 ^ 31 }
    requires cells { room_for (length frame.now) ≤ length cells.old }
    ensures kept { length cells.new ≡ length cells.old }
    ensures short { IfSome result (λ n. n ≤ room_for (length frame.now)) }
    ensures passes { IfSome result (λ n. (route : Route) → IsLaid (take n cells.new) (judged_frame R.ReadRules W.WireWrite schema.now route frame.now)) }
{
    let (head, at) = R::front(frame, room)?;
    if !holds_name::<W>(head.name) {
        return None;
    }
    take_message::<R, W, Nothing>(Nothing, schema, &head, frame, at, cells)
}

/// The same with what is declared of the message.
#[inline(always)]
pub fn lay_declared<R: FormRead, W: FormWrite>(
    schema: &Schema,
    route: Route,
    frame: &[u8],
    room: &mut [u8],
    cells: &mut [u8],
) -> Option<usize>
    requires known { IsKnownRoute schema.now route }
    requires room { length frame.now ≤ length room.old }
    requires size { length frame.now < 2 ^ 31 }
    requires cells { room_for (length frame.now) ≤ length cells.old }
    ensures kept { length cells.new ≡ length cells.old }
    ensures short { IfSome result (λ n. n ≤ room_for (length frame.now)) }
    ensures passes { IfSome result (λ n. IsLaid (take n cells.new) (judged_frame R.ReadRules W.WireWrite schema.now route frame.now)) }
{
    let (head, at) = R::front(frame, room)?;
    if !holds_name::<W>(head.name) {
        return None;
    }
    let told = told_of(schema, route, &head);
    lay_told::<R, W>(schema, told.body, &head, frame, at, cells)
}

/// Lays a header and the body that begins at a place, whose struct was looked up, into the front of cells.
#[inline(always)]
fn lay_told<R: FormRead, W: FormWrite>(
    schema: &Schema,
    body: Option<StructId>,
    head: &Head<'_>,
    frame: &[u8],
    at: usize,
    cells: &mut [u8],
) -> Option<usize>
    requires known { IfSome body (λ s. s.0 < length schema.now.structs) }
    requires size { length frame.now < 2 ^ 31 }
    requires place { at ≤ length frame.now }
    requires name { length head.now.name.now ≤ at }
    requires taken { W.name_bar head.now.name.now ≡ None }
    requires room { room_for (length frame.now) ≤ length cells.old }
    ensures kept { length cells.new ≡ length cells.old }
    ensures short { IfSome result (λ n. n ≤ room_for (length frame.now)) }
    ensures passes { IfSome result (λ n. PassesMessage R.ReadRules W.WireWrite schema.now body (header_of head.now) frame.now at [] (take n cells.new)) }
{
    match body {
        Some(declared) => {
            let known = Declared(Ty::Struct(declared));
            take_message::<R, W, Declared>(known, schema, head, frame, at, cells)
        }
        None => take_message::<R, W, Undeclared>(Undeclared, schema, head, frame, at, cells),
    }
}

/// The same as `pass_quickly` with what is declared of the message.
#[inline(never)]
fn pass_typed<R: FormRead, W: FormWrite, O: Outcome>(
    schema: &Schema,
    route: &Route,
    frame: &[u8],
    room: &mut [u8],
    out: &mut Out,
) -> O
    requires known { IsKnownRoute schema.now route.now }
    requires room { length frame.now ≤ length room.old }
    requires size { length frame.now < 2 ^ 31 }
    requires fits { length out.old.bytes + room_for (length frame.now) ≤ out.old.room }
    ensures left { O.fails result → out.new ≡ out.old }
    ensures room { out.new.room ≡ out.old.room }
    ensures short { length out.new.bytes ≤ length out.old.bytes + room_for (length frame.now) }
    ensures passes { O.passes result out.old.bytes out.new.bytes (judged_frame R.ReadRules W.WireWrite schema.now route.now frame.now) }
{
    let Some((head, at)) = R::front(frame, room) else {
        return O::left();
    };
    if !holds_name::<W>(head.name) {
        return O::left();
    }
    let told = told_of(schema, *route, &head);
    if append_told::<R, W>(schema, told.body, &head, frame, at, out) {
        return O::passed(told.info);
    }
    O::left()
}

/// Whether neither reading nor writing depends on what is declared.
#[inline(always)]
fn is_blind<R: FormRead, W: FormWrite>() -> bool
    ensures reads { result ≡ true → R.hinted ≡ false }
    ensures writes { result ≡ true → W.hinted ≡ false }
{
    if is_hinted::<R, W>() {
        return false;
    }
    !W::is_marked()
}

/// The most bytes that any protocol spells a message in that came in a frame of so many bytes.
#[inline(always)]
pub fn room_for(len: usize) -> usize
    requires { len < 2 ^ 31 }
    ensures { result ≡ room_for len }
{
    24 * len + 256
}

/// Appends a message whose header was read and the body that begins at a place, whose struct was looked up, and says that it is
/// whole; or leaves the output as it was, which says nothing of the frame.
#[inline(always)]
pub fn append_told<R: FormRead, W: FormWrite>(
    schema: &Schema,
    body: Option<StructId>,
    head: &Head<'_>,
    frame: &[u8],
    at: usize,
    out: &mut Out,
) -> bool
    requires known { IfSome body (λ s. s.0 < length schema.now.structs) }
    requires size { length frame.now < 2 ^ 31 }
    requires place { at ≤ length frame.now }
    requires name { length head.now.name.now ≤ at }
    requires taken { W.name_bar head.now.name.now ≡ None }
    requires fits { length out.old.bytes + room_for (length frame.now) ≤ out.old.room }
    ensures left { result ≡ false → out.new ≡ out.old }
    ensures room { out.new.room ≡ out.old.room }
    ensures short { length out.new.bytes ≤ length out.old.bytes + room_for (length frame.now) }
    ensures passes { result ≡ true → PassesMessage R.ReadRules W.WireWrite schema.now body (header_of head.now) frame.now at out.old.bytes out.new.bytes }
{
    if is_blind::<R, W>() {
        return append_message::<R, W, Nothing>(Nothing, schema, head, frame, at, out);
    }
    match body {
        Some(declared) => {
            let known = Declared(Ty::Struct(declared));
            append_message::<R, W, Declared>(known, schema, head, frame, at, out)
        }
        None => append_message::<R, W, Undeclared>(Undeclared, schema, head, frame, at, out),
    }
}

/// The same for a body of whose struct this is known. Header and body are laid into one tail of the output: to lend it and to
/// cut it costs more than a header.
#[inline(always)]
fn append_message<R: FormRead, W: FormWrite, K: Known>(
    known: K,
    schema: &Schema,
    head: &Head<'_>,
    frame: &[u8],
    at: usize,
    out: &mut Out,
) -> bool
    requires known { K.sound known schema.now }
    requires informed { Informs K.tells R.hinted W.hinted }
    requires size { length frame.now < 2 ^ 31 }
    requires place { at ≤ length frame.now }
    requires name { length head.now.name.now ≤ at }
    requires taken { W.name_bar head.now.name.now ≡ None }
    requires fits { length out.old.bytes + room_for (length frame.now) ≤ out.old.room }
    ensures left { result ≡ false → out.new ≡ out.old }
    ensures room { out.new.room ≡ out.old.room }
    ensures short { length out.new.bytes ≤ length out.old.bytes + room_for (length frame.now) }
    ensures passes { result ≡ true → PassedMessage R.ReadRules W.WireWrite (K.means known) schema.now head.now frame.now at out.old.bytes out.new.bytes }
{
    let before = out.bytes().len();
    let cells = out.tail(room_for(frame.len()));
    match take_message::<R, W, K>(known, schema, head, frame, at, cells) {
        Some(written) => {
            out.cut(before + written);
            true
        }
        None => {
            out.cut(before);
            false
        }
    }
}

/// Lays a header and the body that begins at a place into the front of cells, and answers how many it took.
#[inline(always)]
fn take_message<R: FormRead, W: FormWrite, K: Known>(
    known: K,
    schema: &Schema,
    head: &Head<'_>,
    frame: &[u8],
    at: usize,
    cells: &mut [u8],
) -> Option<usize>
    requires known { K.sound known schema.now }
    requires informed { Informs K.tells R.hinted W.hinted }
    requires size { length frame.now < 2 ^ 31 }
    requires place { at ≤ length frame.now }
    requires name { length head.now.name.now ≤ at }
    requires taken { W.name_bar head.now.name.now ≡ None }
    requires room { room_for (length frame.now) ≤ length cells.old }
    ensures kept { length cells.new ≡ length cells.old }
    ensures short { IfSome result (λ n. n ≤ room_for (length frame.now)) }
    ensures passes { IfSome result (λ n. PassedMessage R.ReadRules W.WireWrite (K.means known) schema.now head.now frame.now at [] (take n cells.new)) }
{
    let to = W::front(cells, 0, head);
    take_body::<R, W, K>(known, schema, frame, at, cells, to)
}

/// Takes a whole body into cells from a place on, and answers the place behind it.
#[inline(always)]
fn take_body<R: FormRead, W: FormWrite, K: Known>(
    known: K,
    schema: &Schema,
    frame: &[u8],
    at: usize,
    cells: &mut [u8],
    to: usize,
) -> Option<usize>
    requires known { K.sound known schema.now }
    requires informed { Informs K.tells R.hinted W.hinted }
    requires size { length frame.now < 2 ^ 31 }
    requires place { at ≤ length frame.now }
    requires room { HasRoom AROUND frame.now at cells.old to }
    ensures kept { length cells.new ≡ length cells.old }
    ensures short { IfSome result (λ n. n + 24 * at ≤ to + 24 * length frame.now) }
    ensures passes { IfSome result (λ n. PassedBody R.ReadRules W.WireWrite (K.means known) schema.now frame.now at (take to cells.old) (take n cells.new)) }
{
    let mut written = to;
    let opening = Opening::Body;
    let read = take_fields::<R, W, K>(known, schema, frame, at, cells, &mut written, opening, 1)?;
    if read < frame.len() {
        return None;
    }
    Some(written)
}
