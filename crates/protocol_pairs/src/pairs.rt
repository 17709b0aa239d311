//! One frame from one protocol to another.
ghost use Rattle.std.specs.Prelude.{◌≡◌, ◌+◌, ◌≤◌, ◌^◌, ◌<◌, true, false, length};
ghost use Rattle.protocol_traits.specs.Room.{room_for};
ghost use Rattle.translate_verdicts.specs.Body.{source_in};
ghost use Rattle.translate_verdicts.specs.Judged.{IsJudged, IsLeft, judged_frame};
ghost use Rattle.translate_verdicts.specs.Routes.{IsKnownRoute};
ghost use Rattle.protocol_pairs.specs.Pairs.{binary_source, compact_source, json_source, judged, judged_to};

use binary_protocol::{BinaryRead, BinaryWrite};
use compact_protocol::{CompactRead, CompactWrite};
use gate_io::Out;
use json_protocol::{JsonRead, JsonWrite};
use kept_forms::FormKeep;
use kept_messages::pass_kept;
use protocol_traits::{FormRead, FormWrite, Proto, WireRead};
use translate_known::{Habit, Outcome};
use translate_quick::pass_quickly;
use translate_verdicts::{HeadInfo, Route, Verdict};
use type_tables::Schema;

/// Translates a frame to the end of `out`, or leaves `out` as it was.
///
/// `room` has at least as many bytes as the frame, and `out` room for 24 bytes for each of the frame's and 256 more. What
/// the route names is of this schema.
pub fn translate(
    schema: &Schema,
    route: Route,
    from: Proto,
    to: Proto,
    frame: &[u8],
    room: &mut [u8],
    out: &mut Out,
) -> Verdict
    requires known { IsKnownRoute schema.now route }
    requires room { length frame.now ≤ length room.old }
    requires size { length frame.now < 2 ^ 31 }
    requires fits { length out.old.bytes + room_for (length frame.now) ≤ out.old.room }
    ensures exact { IsJudged result out.old.bytes out.new.bytes (judged schema.now route from to frame.now) }
    ensures left { IsLeft result out.old.bytes out.new.bytes }
    ensures room { out.new.room ≡ out.old.room }
    ensures short { length out.new.bytes ≤ length out.old.bytes + room_for (length frame.now) }
{
    let habit = &mut Habit::new();
    match translate_quickly::<Option<HeadInfo>>(schema, route, from, to, frame, room, habit, out) {
        Some(info) => Verdict::Passed(info),
        None => translate_by_events(schema, route, from, to, frame, room, out),
    }
}

/// Appends a message's translation by the quick way, and tells of it what the caller asks for; or leaves the output as it was,
/// which says nothing of the frame, and `translate_by_events` tells its verdict. Nearly all messages go no further than this,
/// and a verdict is large: what isn't asked for is neither made nor moved.
///
/// `room` has at least as many bytes as the frame, and `out` room for 24 bytes for each of the frame's and 256 more. What
/// the route names is of this schema. `habit` is kept from message to message of one stream.
#[inline(always)]
#[tactic(auto, unfolding(crate::specs::Pairs::judged))]
pub fn translate_quickly<O: Outcome>(
    schema: &Schema,
    route: Route,
    from: Proto,
    to: Proto,
    frame: &[u8],
    room: &mut [u8],
    habit: &mut Habit,
    out: &mut Out,
) -> O
    requires known { IsKnownRoute schema.now route }
    requires room { length frame.now ≤ length room.old }
    requires size { length frame.now < 2 ^ 31 }
    requires fits { length out.old.bytes + room_for (length frame.now) ≤ out.old.room }
    ensures left { O.fails result → out.new ≡ out.old }
    ensures room { out.new.room ≡ out.old.room }
    ensures short { length out.new.bytes ≤ length out.old.bytes + room_for (length frame.now) }
    ensures passes { O.passes result out.old.bytes out.new.bytes (judged schema.now route from to frame.now) }
{
    match from {
        Proto::Binary => pass_binary::<O>(schema, route, to, frame, room, habit, out),
        Proto::Compact => pass_compact::<O>(schema, route, to, frame, room, habit, out),
        Proto::Json => pass_json::<O>(schema, route, to, frame, room, habit, out),
    }
}

/// The same for a frame in the Binary protocol.
#[inline(always)]
fn pass_binary<O: Outcome>(
    schema: &Schema,
    route: Route,
    to: Proto,
    frame: &[u8],
    room: &mut [u8],
    habit: &mut Habit,
    out: &mut Out,
) -> O
    requires known { IsKnownRoute schema.now route }
    requires room { length frame.now ≤ length room.old }
    requires size { length frame.now < 2 ^ 31 }
    requires fits { length out.old.bytes + room_for (length frame.now) ≤ out.old.room }
    ensures left { O.fails result → out.new ≡ out.old }
    ensures room { out.new.room ≡ out.old.room }
    ensures short { length out.new.bytes ≤ length out.old.bytes + room_for (length frame.now) }
    ensures passes { O.passes result out.old.bytes out.new.bytes (judged_to binary_source schema.now route to frame.now) }
{
    match to {
        Proto::Binary => keep_own::<BinaryRead, BinaryWrite, O>(
            schema, route, frame, room, habit, out,
        ),
        Proto::Compact => pass_quickly::<BinaryRead, CompactWrite, O>(
            schema, route, frame, room, habit, out,
        ),
        Proto::Json => pass_quickly::<BinaryRead, JsonWrite, O>(
            schema, route, frame, room, habit, out,
        ),
    }
}

/// The same for a frame in the Compact protocol.
#[inline(always)]
fn pass_compact<O: Outcome>(
    schema: &Schema,
    route: Route,
    to: Proto,
    frame: &[u8],
    room: &mut [u8],
    habit: &mut Habit,
    out: &mut Out,
) -> O
    requires known { IsKnownRoute schema.now route }
    requires room { length frame.now ≤ length room.old }
    requires size { length frame.now < 2 ^ 31 }
    requires fits { length out.old.bytes + room_for (length frame.now) ≤ out.old.room }
    ensures left { O.fails result → out.new ≡ out.old }
    ensures room { out.new.room ≡ out.old.room }
    ensures short { length out.new.bytes ≤ length out.old.bytes + room_for (length frame.now) }
    ensures passes { O.passes result out.old.bytes out.new.bytes (judged_to compact_source schema.now route to frame.now) }
{
    match to {
        Proto::Binary => pass_quickly::<CompactRead, BinaryWrite, O>(
            schema, route, frame, room, habit, out,
        ),
        Proto::Compact => pass_own::<CompactRead, CompactWrite, O>(
            schema, route, frame, room, habit, out,
        ),
        Proto::Json => pass_quickly::<CompactRead, JsonWrite, O>(
            schema, route, frame, room, habit, out,
        ),
    }
}

/// The same for a frame in the JSON protocol.
#[inline(always)]
fn pass_json<O: Outcome>(
    schema: &Schema,
    route: Route,
    to: Proto,
    frame: &[u8],
    room: &mut [u8],
    habit: &mut Habit,
    out: &mut Out,
) -> O
    requires known { IsKnownRoute schema.now route }
    requires room { length frame.now ≤ length room.old }
    requires size { length frame.now < 2 ^ 31 }
    requires fits { length out.old.bytes + room_for (length frame.now) ≤ out.old.room }
    ensures left { O.fails result → out.new ≡ out.old }
    ensures room { out.new.room ≡ out.old.room }
    ensures short { length out.new.bytes ≤ length out.old.bytes + room_for (length frame.now) }
    ensures passes { O.passes result out.old.bytes out.new.bytes (judged_to json_source schema.now route to frame.now) }
{
    match to {
        Proto::Binary => pass_quickly::<JsonRead, BinaryWrite, O>(
            schema, route, frame, room, habit, out,
        ),
        Proto::Compact => pass_quickly::<JsonRead, CompactWrite, O>(
            schema, route, frame, room, habit, out,
        ),
        Proto::Json => pass_quickly::<JsonRead, JsonWrite, O>(
            schema, route, frame, room, habit, out,
        ),
    }
}

/// The same where the message goes on in its own protocol, and what isn't kept is left.
#[inline(never)]
fn keep_own<R: FormKeep<W>, W: FormWrite, O: Outcome>(
    schema: &Schema,
    route: Route,
    frame: &[u8],
    room: &mut [u8],
    habit: &mut Habit,
    out: &mut Out,
) -> O
    requires known { IsKnownRoute schema.now route }
    requires room { length frame.now ≤ length room.old }
    requires size { length frame.now < 2 ^ 31 }
    requires fits { length out.old.bytes + room_for (length frame.now) ≤ out.old.room }
    ensures left { O.fails result → out.new ≡ out.old }
    ensures room { out.new.room ≡ out.old.room }
    ensures short { length out.new.bytes ≤ length out.old.bytes + room_for (length frame.now) }
    ensures passes { O.passes result out.old.bytes out.new.bytes (judged_frame R.ReadRules W.WireWrite schema.now route frame.now) }
{
    pass_kept::<R, W, O>(schema, route, frame, room, habit, out)
}

/// The same where what isn't kept may be spelled in another way than the writer's.
fn pass_own<R: FormKeep<W>, W: FormWrite, O: Outcome>(
    schema: &Schema,
    route: Route,
    frame: &[u8],
    room: &mut [u8],
    habit: &mut Habit,
    out: &mut Out,
) -> O
    requires known { IsKnownRoute schema.now route }
    requires room { length frame.now ≤ length room.old }
    requires size { length frame.now < 2 ^ 31 }
    requires fits { length out.old.bytes + room_for (length frame.now) ≤ out.old.room }
    ensures left { O.fails result → out.new ≡ out.old }
    ensures room { out.new.room ≡ out.old.room }
    ensures short { length out.new.bytes ≤ length out.old.bytes + room_for (length frame.now) }
    ensures passes { O.passes result out.old.bytes out.new.bytes (judged_frame R.ReadRules W.WireWrite schema.now route frame.now) }
{
    let kept = keep_own::<R, W, O>(schema, route, frame, room, habit, out);
    if kept.is_left() {
        return pass_quickly::<R, W, O>(schema, route, frame, room, habit, out);
    }
    kept
}

/// Translates a frame to the end of `out` event by event, or leaves `out` as it was: `translate` for a frame that the quick
/// way didn't pass.
///
/// `room` has at least as many bytes as the frame, and `out` room for 24 bytes for each of the frame's and 256 more. What
/// the route names is of this schema.
#[inline(never)]
#[tactic(auto, unfolding(crate::specs::Pairs::judged))]
pub fn translate_by_events(
    schema: &Schema,
    route: Route,
    from: Proto,
    to: Proto,
    frame: &[u8],
    room: &mut [u8],
    out: &mut Out,
) -> Verdict
    requires known { IsKnownRoute schema.now route }
    requires room { length frame.now ≤ length room.old }
    requires size { length frame.now < 2 ^ 31 }
    requires fits { length out.old.bytes + room_for (length frame.now) ≤ out.old.room }
    ensures exact { IsJudged result out.old.bytes out.new.bytes (judged schema.now route from to frame.now) }
    ensures left { IsLeft result out.old.bytes out.new.bytes }
    ensures room { out.new.room ≡ out.old.room }
    ensures short { length out.new.bytes ≤ length out.old.bytes + room_for (length frame.now) }
{
    match from {
        Proto::Binary => translate_to::<BinaryRead>(schema, route, to, frame, room, out),
        Proto::Compact => translate_to::<CompactRead>(schema, route, to, frame, room, out),
        Proto::Json => translate_to::<JsonRead>(schema, route, to, frame, room, out),
    }
}

/// The same for the reader of the frame's protocol.
fn translate_to<'f, R: WireRead<'f>>(
    schema: &Schema,
    route: Route,
    to: Proto,
    frame: &'f [u8],
    room: &'f mut [u8],
    out: &mut Out,
) -> Verdict
    requires known { IsKnownRoute schema.now route }
    requires room { length frame.now ≤ length room.old }
    requires size { length frame.now < 2 ^ 31 }
    requires fits { length out.old.bytes + room_for (length frame.now) ≤ out.old.room }
    ensures exact { IsJudged result out.old.bytes out.new.bytes (judged_to (source_in R.ReadRules) schema.now route to frame.now) }
    ensures left { IsLeft result out.old.bytes out.new.bytes }
    ensures room { out.new.room ≡ out.old.room }
    ensures short { length out.new.bytes ≤ length out.old.bytes + room_for (length frame.now) }
{
    match to {
        Proto::Binary => {
            translate_core::translate::<R, BinaryWrite>(schema, route, frame, room, out)
        }
        Proto::Compact => {
            translate_core::translate::<R, CompactWrite>(schema, route, frame, room, out)
        }
        Proto::Json => {
            translate_core::translate::<R, JsonWrite>(schema, route, frame, room, out)
        }
    }
}
