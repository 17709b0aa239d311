//! A whole message.
ghost use Rattle.std.specs.Prelude.{◌≡◌, ◌+◌, ◌≤◌, ◌^◌, ◌<◌, ◌++◌, length, take, drop, IfSome};
ghost use Rattle.protocol_traits.specs.Heads.{header_of};
ghost use Rattle.protocol_traits.specs.Room.{head_weight, room_for};
ghost use Rattle.type_walk.specs.Positions.{start};
ghost use Rattle.translate_verdicts.specs.Routes.{IsKnownRoute};
ghost use Rattle.translate_verdicts.specs.Body.{first_cause};
ghost use Rattle.translate_verdicts.specs.Judged.{IsJudged, IsLeft, Grows, bytes_from, judged_frame, kept, verdict_from, with_head};

use crate::body::{body, first_cause};
use gate_io::Out;
use protocol_traits::{Bar, Head, WireRead, WireWrite};
use translate_verdicts::{Cause, HeadInfo, Route, Told, Verdict, told_of};
use type_tables::Schema;
use type_walk::{Undeclared, Walk, Walking};

/// Translates a frame to the end of `out`, or leaves `out` as it was.
///
/// The route says which of the schema's structs the body is. Below what the schema declares nothing is known.
///
/// `room` is the reader's, at least as long as the frame. The verdict is `Unread` where no front of the frame is a
/// whole header, else `Refused` with the fault where the frame is no message, else `Refused` with the first value that
/// is barred, the name before the others, and else `Passed`.
#[inline(never)]
pub fn translate<'f, R: WireRead<'f>, W: WireWrite>(
    schema: &Schema,
    route: Route,
    frame: &'f [u8],
    room: &'f mut [u8],
    out: &mut Out,
) -> Verdict
    requires known { IsKnownRoute schema.now route }
    requires room { length frame.now ≤ length room.old }
    requires size { length frame.now < 2 ^ 31 }
    requires fits { length out.old.bytes + room_for (length frame.now) ≤ out.old.room }
    ensures exact { IsJudged result out.old.bytes out.new.bytes (judged_frame R.ReadRules W.WireWrite schema.now route frame.now) }
    ensures left { IsLeft result out.old.bytes out.new.bytes }
    ensures room { out.new.room ≡ out.old.room }
    ensures short { length out.new.bytes ≤ length out.old.bytes + room_for (length frame.now) }
{
    let start = out.bytes().len();
    let mut reader = R::over(frame, room);
    let mut writer = W::over();
    let (told, bar) = match reader.head() {
        Ok(head) => {
            let told = told_of(schema, route, &head);
            (told, pass_head(&mut writer, head, out))
        }
        Err(fault) => return Verdict::Unread(fault),
    };
    let barred = first_cause(None, bar, reader.place());
    let verdict = verdict_by(schema, told, &mut reader, &mut writer, barred, out);
    keep(&verdict, start, out);
    verdict
}

/// Writes the header, unless its name is barred.
fn pass_head<W: WireWrite>(writer: &mut W, head: Head<'_>, out: &mut Out) -> Option<Bar>
    requires sized { length head.name.now < 2 ^ 31 }
    requires room { length out.old.bytes + head_weight (length head.name.now) ≤ out.old.room }
    ensures found { result ≡ W.name_bar head.entry.name.now }
    ensures state { writer.new ≡ writer.old }
    ensures out { out.new ≡ record out.old { bytes = with_head W.WireWrite (header_of head.entry) out.old.bytes } }
    ensures short { length out.new.bytes ≤ length out.old.bytes + head_weight (length head.entry.name.now) }
{
    match W::takes_name(head.name) {
        Ok(()) => {
            writer.head(&head, out);
            None
        }
        Err(bar) => Some(bar),
    }
}

/// Takes the body and the end, and answers the verdict, by what the header tells.
pub fn verdict_by<'f, R: WireRead<'f>, W: WireWrite>(
    schema: &Schema,
    told: Told,
    reader: &mut R,
    writer: &mut W,
    barred: Option<Cause>,
    out: &mut Out,
) -> Verdict
    requires known { IfSome told.body (λ s. s.0 < length schema.now.structs) }
    requires begins { R.depth reader.old ≡ 1 }
    requires opens { W.depth writer.old ≡ 1 }
    requires room { length out.old.bytes + R.ahead reader.old ≤ out.old.room }
    ensures verdict { result ≡ verdict_from R.ReadRules W.WireWrite told.info reader.old (start schema.now told.body) writer.old barred }
    ensures bytes { Grows result out.old.bytes out.new.bytes (bytes_from R.ReadRules W.WireWrite reader.old (start schema.now told.body) writer.old barred) }
    ensures room { out.new.room ≡ out.old.room }
    ensures short { length out.new.bytes ≤ length out.old.bytes + R.ahead reader.old }
{
    if told.body.is_none() {
        let mut walk = Undeclared::start(schema);
        return verdict_on(reader, &mut walk, writer, told.info, barred, out);
    }
    verdict_declared(schema, told, reader, writer, barred, out)
}

/// The same where the body's struct is declared. A walk is large, so only this function has one.
#[inline(never)]
fn verdict_declared<'f, R: WireRead<'f>, W: WireWrite>(
    schema: &Schema,
    told: Told,
    reader: &mut R,
    writer: &mut W,
    barred: Option<Cause>,
    out: &mut Out,
) -> Verdict
    requires known { IfSome told.body (λ s. s.0 < length schema.now.structs) }
    requires begins { R.depth reader.old ≡ 1 }
    requires opens { W.depth writer.old ≡ 1 }
    requires room { length out.old.bytes + R.ahead reader.old ≤ out.old.room }
    ensures verdict { result ≡ verdict_from R.ReadRules W.WireWrite told.info reader.old (start schema.now told.body) writer.old barred }
    ensures bytes { Grows result out.old.bytes out.new.bytes (bytes_from R.ReadRules W.WireWrite reader.old (start schema.now told.body) writer.old barred) }
    ensures room { out.new.room ≡ out.old.room }
    ensures short { length out.new.bytes ≤ length out.old.bytes + R.ahead reader.old }
{
    let mut walk = Walk::start(schema, told.body);
    verdict_on(reader, &mut walk, writer, told.info, barred, out)
}

/// Takes the body and the end, and answers the verdict.
fn verdict_on<'f, R: WireRead<'f>, W: WireWrite, K: Walking>(
    reader: &mut R,
    walk: &mut K,
    writer: &mut W,
    info: HeadInfo,
    barred: Option<Cause>,
    out: &mut Out,
) -> Verdict
    requires begins { R.depth reader.old ≡ 1 }
    requires walks { length (K.at walk.old).levels ≡ 1 }
    requires opens { W.depth writer.old ≡ 1 }
    requires room { length out.old.bytes + R.ahead reader.old ≤ out.old.room }
    ensures verdict { result ≡ verdict_from R.ReadRules W.WireWrite info reader.old (K.at walk.old) writer.old barred }
    ensures bytes { Grows result out.old.bytes out.new.bytes (bytes_from R.ReadRules W.WireWrite reader.old (K.at walk.old) writer.old barred) }
    ensures room { out.new.room ≡ out.old.room }
    ensures short { length out.new.bytes ≤ length out.old.bytes + R.ahead reader.old }
{
    match body(reader, walk, writer, barred, out) {
        Ok(cause) => match reader.finish() {
            Ok(()) => match cause {
                Some(cause) => Verdict::Refused(info, cause),
                None => Verdict::Passed(info),
            },
            Err(fault) => Verdict::Refused(info, Cause::Grammar(fault)),
        },
        Err(fault) => Verdict::Refused(info, Cause::Grammar(fault)),
    }
}

/// Keeps what was written behind `start` only where the message passed.
pub fn keep(verdict: &Verdict, start: usize, out: &mut Out)
    requires { start ≤ length out.old.bytes }
    ensures { out.new ≡ record out.old { bytes = take start out.old.bytes ++ kept verdict.now (drop start out.old.bytes) } }
{
    match verdict {
        Verdict::Passed(_) => {}
        _ => out.cut(start),
    }
}
