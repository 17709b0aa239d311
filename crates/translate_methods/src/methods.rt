//! A message for one that serves a single service: the name before the method's tells whom it is for, and is left out.
//!
//! After Apache Thrift's TMultiplexedProtocol and its TMultiplexedProcessor.
ghost use Rattle.std.specs.Prelude.{◌≡◌, ℕ, ◌+◌, ◌≤◌, ◌^◌, ◌<◌, List, [], length, Option, None, IfSome};
ghost use Rattle.protocol_traits.specs.Heads.{header_of};
ghost use Rattle.protocol_traits.specs.Room.{head_weight, room_for};
ghost use Rattle.translate_verdicts.specs.declared.verdict.Verdict.TheVariants.{Passed};
ghost use Rattle.translate_verdicts.specs.Routes.{IsKnownRoute};
ghost use Rattle.translate_verdicts.specs.Body.{first_cause};
ghost use Rattle.translate_verdicts.specs.Judged.{IsJudged, IsLeft};
ghost use Rattle.translate_methods.specs.Methods.{judged_method, method_header, name_in, target_of_name, with_method_head};

use gate_io::Out;
use multiplex_names::split;
use protocol_traits::{Bar, FormRead, FormWrite, Head, WireRead, WireWrite};
use translate_core::{first_cause, keep, spellable, verdict_by};
use translate_known::holds_name;
use translate_quick::append_told;
use translate_verdicts::{HeadInfo, Route, Verdict, told_of};
use type_tables::Schema;

/// Whoever knows which of several targets serves a service.
pub trait Services {
    /// The target, from 0, that serves a service.
    ghost serves: { Self → List ℕ → Option ℕ };

    /// The target, from 0, that serves a service; None where there is none.
    fn target(&self, service: &[u8]) -> Option<usize>
        ensures { result ≡ serves self.now service.now };
}

/// The target that serves what a frame's name asks for. None: the frame's header isn't whole, no service stands before the
/// method's name, or none serves it.
///
/// `room` is the reader's, at least as long as the frame.
pub fn served<'f, R: WireRead<'f>, S: Services>(
    services: &S,
    frame: &'f [u8],
    room: &'f mut [u8],
) -> Option<usize>
    requires room { length frame.now ≤ length room.old }
    requires size { length frame.now < 2 ^ 31 }
    ensures { result ≡ target_of_name (S.serves services.now) (name_in (R.reads_head (R.begun frame.now))) }
{
    let mut reader = R::over(frame, room);
    match reader.head() {
        Ok(head) => target_of(services, &head),
        Err(_) => None,
    }
}

/// The target that serves what a header's name asks for.
fn target_of<S: Services>(services: &S, head: &Head<'_>) -> Option<usize>
    ensures { result ≡ target_of_name (S.serves services.now) (Option.Some head.now.name.now) }
{
    match split(head.name).0 {
        Some(service) => services.target(service),
        None => None,
    }
}

/// Translates a frame as `translate` does, with the method's name alone in the header that is written.
///
/// A name that the writer's protocol can't hold is barred as it came.
#[inline(never)]
pub fn translate_method<'f, R: WireRead<'f>, W: WireWrite>(
    schema: &Schema,
    route: Route,
    frame: &'f [u8],
    room: &'f mut [u8],
    out: &mut Out,
) -> Verdict
    requires known { IsKnownRoute schema.now route }
    requires room { length frame.now ≤ length room.old }
    requires size { length frame.now < 2 ^ 31 }
    requires nameless { W.name_bar [] ≡ None }
    requires fits { length out.old.bytes + room_for (length frame.now) ≤ out.old.room }
    ensures exact { IsJudged result out.old.bytes out.new.bytes (judged_method R.ReadRules W.WireWrite schema.now route frame.now) }
    ensures left { IsLeft result out.old.bytes out.new.bytes }
    ensures room { out.new.room ≡ out.old.room }
    ensures short { length out.new.bytes ≤ length out.old.bytes + room_for (length frame.now) }
{
    let start = out.bytes().len();
    let mut reader = R::over(frame, room);
    let mut writer = W::over();
    let (told, bar) = match reader.head() {
        Ok(head) => {
            let told = told_of(schema, route, &head);
            (told, pass_method(&mut writer, head, out))
        }
        Err(fault) => return Verdict::Unread(fault),
    };
    let barred = first_cause(None, bar, reader.place());
    let verdict = verdict_by(schema, told, &mut reader, &mut writer, barred, out);
    keep(&verdict, start, out);
    verdict
}

/// Writes the header with the method's name alone, unless its whole name is barred.
fn pass_method<W: WireWrite>(writer: &mut W, head: Head<'_>, out: &mut Out) -> Option<Bar>
    requires sized { length head.name.now < 2 ^ 31 }
    requires nameless { W.name_bar [] ≡ None }
    requires room { length out.old.bytes + head_weight (length head.name.now) ≤ out.old.room }
    ensures found { result ≡ W.name_bar head.entry.name.now }
    ensures state { writer.new ≡ writer.old }
    ensures out { out.new ≡ record out.old { bytes = with_method_head W.WireWrite (header_of head.entry) out.old.bytes } }
    ensures short { length out.new.bytes ≤ length out.old.bytes + head_weight (length head.entry.name.now) }
{
    match W::takes_name(head.name) {
        Ok(()) => {
            writer.head(&method_head::<W>(&head), out);
            None
        }
        Err(bar) => Some(bar),
    }
}

/// The same header with the method's name alone.
fn method_head<'a, W: WireWrite>(head: &Head<'a>) -> Head<'a>
    requires nameless { W.name_bar [] ≡ None }
    ensures header { header_of result ≡ method_header W.name_bar (header_of head.now) }
    ensures taken { W.name_bar result.name.now ≡ None }
    ensures short { length result.name.now ≤ length head.now.name.now }
{
    Head {
        name: spellable::<W>(split(head.name).1),
        mtype: head.mtype,
        seq: head.seq,
    }
}

/// The same, by the quick way where it leads to the end, and else event by event.
pub fn translate_method_quickly<'f, R: WireRead<'f> + FormRead, W: FormWrite>(
    schema: &Schema,
    route: Route,
    frame: &'f [u8],
    room: &'f mut [u8],
    out: &mut Out,
) -> Verdict
    requires known { IsKnownRoute schema.now route }
    requires room { length frame.now ≤ length room.old }
    requires size { length frame.now < 2 ^ 31 }
    requires nameless { W.name_bar [] ≡ None }
    requires fits { length out.old.bytes + room_for (length frame.now) ≤ out.old.room }
    ensures exact { IsJudged result out.old.bytes out.new.bytes (judged_method R.ReadRules W.WireWrite schema.now route frame.now) }
    ensures left { IsLeft result out.old.bytes out.new.bytes }
    ensures room { out.new.room ≡ out.old.room }
    ensures short { length out.new.bytes ≤ length out.old.bytes + room_for (length frame.now) }
{
    match pass_method_quickly::<R, W>(schema, route, frame, room, out) {
        Some(info) => Verdict::Passed(info),
        None => translate_method::<R, W>(schema, route, frame, room, out),
    }
}

/// Appends a message's translation with the method's name alone, and tells what its header says; or leaves the output as it
/// was, which says nothing of the frame.
fn pass_method_quickly<R: FormRead, W: FormWrite>(
    schema: &Schema,
    route: Route,
    frame: &[u8],
    room: &mut [u8],
    out: &mut Out,
) -> Option<HeadInfo>
    requires known { IsKnownRoute schema.now route }
    requires room { length frame.now ≤ length room.old }
    requires size { length frame.now < 2 ^ 31 }
    requires nameless { W.name_bar [] ≡ None }
    requires fits { length out.old.bytes + room_for (length frame.now) ≤ out.old.room }
    ensures left { result ≡ None → out.new ≡ out.old }
    ensures room { out.new.room ≡ out.old.room }
    ensures short { length out.new.bytes ≤ length out.old.bytes + room_for (length frame.now) }
    ensures passes { IfSome result (λ info. IsJudged (Passed info) out.old.bytes out.new.bytes (judged_method R.ReadRules W.WireWrite schema.now route frame.now)) }
{
    let (head, at) = R::front(frame, room)?;
    let told = told_of(schema, route, &head);
    if !holds_name::<W>(head.name) {
        return None;
    }
    let alone = method_head::<W>(&head);
    if append_told::<R, W>(schema, told.body, &alone, frame, at, out) {
        return Some(told.info);
    }
    None
}
