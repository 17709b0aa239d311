//! The answer to a frame that is refused.
ghost use Rattle.std.specs.Prelude.{◌≡◌, ◌+◌, ◌≤◌, ◌^◌, ◌<◌, ◌++◌, length};
ghost use Rattle.protocol_traits.specs.Room.{room_for};
ghost use Rattle.translate_verdicts.specs.Body.{source_in};
ghost use Rattle.protocol_pairs.specs.Pairs.{answered, answered_to};

use binary_protocol::{BinaryRead, BinaryWrite};
use compact_protocol::{CompactRead, CompactWrite};
use gate_io::Out;
use json_protocol::{JsonRead, JsonWrite};
use protocol_traits::{Proto, WireRead};
use translate_verdicts::Cause;

/// Appends the answer to a frame that is refused for this cause, in the protocol `to`: an Exception message with the
/// frame's sequence number. Nothing is appended where the frame's header isn't whole.
///
/// `room` has at least as many bytes as the frame, and `out` room for 24 bytes for each of the frame's and 256 more.
#[tactic(auto, unfolding(crate::specs::Pairs::answered))]
pub fn answer(from: Proto, to: Proto, frame: &[u8], room: &mut [u8], cause: &Cause, out: &mut Out)
    requires room { length frame.now ≤ length room.old }
    requires size { length frame.now < 2 ^ 31 }
    requires fits { length out.old.bytes + room_for (length frame.now) ≤ out.old.room }
    ensures out { out.new ≡ record out.old { bytes = out.old.bytes ++ answered from to frame.now cause.now } }
    ensures short { length out.new.bytes ≤ length out.old.bytes + room_for (length frame.now) }
{
    match from {
        Proto::Binary => answer_to::<BinaryRead>(to, frame, room, cause, out),
        Proto::Compact => answer_to::<CompactRead>(to, frame, room, cause, out),
        Proto::Json => answer_to::<JsonRead>(to, frame, room, cause, out),
    }
}

/// The same for the reader of the frame's protocol.
#[tactic(auto, using(crate::proofs::Spelled::utf8_cause, crate::proofs::Spelled::utf8_none))]
fn answer_to<'f, R: WireRead<'f>>(
    to: Proto,
    frame: &'f [u8],
    room: &'f mut [u8],
    cause: &Cause,
    out: &mut Out,
)
    requires room { length frame.now ≤ length room.old }
    requires size { length frame.now < 2 ^ 31 }
    requires fits { length out.old.bytes + room_for (length frame.now) ≤ out.old.room }
    ensures out { out.new ≡ record out.old { bytes = out.old.bytes ++ answered_to (source_in R.ReadRules) to frame.now cause.now } }
    ensures short { length out.new.bytes ≤ length out.old.bytes + room_for (length frame.now) }
{
    match to {
        Proto::Binary => translate_core::answer::<R, BinaryWrite>(frame, room, cause, out),
        Proto::Compact => translate_core::answer::<R, CompactWrite>(frame, room, cause, out),
        Proto::Json => translate_core::answer::<R, JsonWrite>(frame, room, cause, out),
    }
}
