//! One frame for one that serves a single service.
ghost use Rattle.std.specs.Prelude.{◌≡◌, ◌+◌, ◌≤◌, ◌^◌, ◌<◌, length};
ghost use Rattle.protocol_traits.specs.Room.{room_for};
ghost use Rattle.translate_verdicts.specs.Body.{source_in};
ghost use Rattle.translate_verdicts.specs.Judged.{IsJudged, IsLeft};
ghost use Rattle.translate_methods.specs.Methods.{target_of_name};
ghost use Rattle.translate_verdicts.specs.Routes.{IsKnownRoute};
ghost use Rattle.protocol_pairs.specs.Methods.{name_of, method_judged, method_judged_to};

use binary_protocol::{BinaryRead, BinaryWrite};
use compact_protocol::{CompactRead, CompactWrite};
use gate_io::Out;
use json_protocol::{JsonRead, JsonWrite};
use protocol_traits::{FormRead, Proto, WireRead};
use translate_methods::Services;
use translate_verdicts::{Route, Verdict};
use type_tables::Schema;

/// The target that serves what a frame's name asks for. None: the frame's header isn't whole, no service stands before the
/// method's name, or none serves it.
///
/// `room` has at least as many bytes as the frame.
#[tactic(auto, unfolding(crate::specs::Methods::name_of))]
pub fn served<S: Services>(
    services: &S,
    from: Proto,
    frame: &[u8],
    room: &mut [u8],
) -> Option<usize>
    requires room { length frame.now ≤ length room.old }
    requires size { length frame.now < 2 ^ 31 }
    ensures { result ≡ target_of_name (S.serves services.now) (name_of from frame.now) }
{
    match from {
        Proto::Binary => translate_methods::served::<BinaryRead, S>(services, frame, room),
        Proto::Compact => translate_methods::served::<CompactRead, S>(services, frame, room),
        Proto::Json => translate_methods::served::<JsonRead, S>(services, frame, room),
    }
}

/// Translates a frame to the end of `out` with the method's name alone in its header, or leaves `out` as it was.
///
/// `room` has at least as many bytes as the frame, and `out` room for 24 bytes for each of the frame's and 256 more. What
/// the route names is of this schema.
#[tactic(auto, unfolding(crate::specs::Methods::method_judged))]
pub fn translate_method(
    schema: &Schema,
    route: Route,
    from: Proto,
    to: Proto,
    frame: &[u8],
    room: &mut [u8],
    out: &mut Out,
) -> Verdict
    requires known { IsKnownRoute schema.now route }
    requires room { length frame.now ≤ length room.old }
    requires size { length frame.now < 2 ^ 31 }
    requires fits { length out.old.bytes + room_for (length frame.now) ≤ out.old.room }
    ensures exact { IsJudged result out.old.bytes out.new.bytes (method_judged schema.now route from to frame.now) }
    ensures left { IsLeft result out.old.bytes out.new.bytes }
    ensures room { out.new.room ≡ out.old.room }
    ensures short { length out.new.bytes ≤ length out.old.bytes + room_for (length frame.now) }
{
    match from {
        Proto::Binary => method_forms::<BinaryRead>(schema, route, to, frame, room, out),
        Proto::Compact => method_forms::<CompactRead>(schema, route, to, frame, room, out),
        Proto::Json => method_to::<JsonRead>(schema, route, to, frame, room, out),
    }
}

/// The same for a reader that has forms: to a writer that has them too by the quick way.
#[tactic(auto, using(crate::proofs::Spelled::utf8_none))]
fn method_forms<'f, R: WireRead<'f> + FormRead>(
    schema: &Schema,
    route: Route,
    to: Proto,
    frame: &'f [u8],
    room: &'f mut [u8],
    out: &mut Out,
) -> Verdict
    requires known { IsKnownRoute schema.now route }
    requires room { length frame.now ≤ length room.old }
    requires size { length frame.now < 2 ^ 31 }
    requires fits { length out.old.bytes + room_for (length frame.now) ≤ out.old.room }
    ensures exact { IsJudged result out.old.bytes out.new.bytes (method_judged_to (source_in R.ReadRules) schema.now route to frame.now) }
    ensures left { IsLeft result out.old.bytes out.new.bytes }
    ensures room { out.new.room ≡ out.old.room }
    ensures short { length out.new.bytes ≤ length out.old.bytes + room_for (length frame.now) }
{
    match to {
        Proto::Binary => translate_methods::translate_method_quickly::<R, BinaryWrite>(
            schema, route, frame, room, out,
        ),
        Proto::Compact => translate_methods::translate_method_quickly::<R, CompactWrite>(
            schema, route, frame, room, out,
        ),
        Proto::Json => {
            translate_methods::translate_method::<R, JsonWrite>(schema, route, frame, room, out)
        }
    }
}

/// The same for the reader of the frame's protocol.
#[tactic(auto, using(crate::proofs::Spelled::utf8_none))]
fn method_to<'f, R: WireRead<'f>>(
    schema: &Schema,
    route: Route,
    to: Proto,
    frame: &'f [u8],
    room: &'f mut [u8],
    out: &mut Out,
) -> Verdict
    requires known { IsKnownRoute schema.now route }
    requires room { length frame.now ≤ length room.old }
    requires size { length frame.now < 2 ^ 31 }
    requires fits { length out.old.bytes + room_for (length frame.now) ≤ out.old.room }
    ensures exact { IsJudged result out.old.bytes out.new.bytes (method_judged_to (source_in R.ReadRules) schema.now route to frame.now) }
    ensures left { IsLeft result out.old.bytes out.new.bytes }
    ensures room { out.new.room ≡ out.old.room }
    ensures short { length out.new.bytes ≤ length out.old.bytes + room_for (length frame.now) }
{
    match to {
        Proto::Binary => {
            translate_methods::translate_method::<R, BinaryWrite>(schema, route, frame, room, out)
        }
        Proto::Compact => {
            translate_methods::translate_method::<R, CompactWrite>(schema, route, frame, room, out)
        }
        Proto::Json => {
            translate_methods::translate_method::<R, JsonWrite>(schema, route, frame, room, out)
        }
    }
}
