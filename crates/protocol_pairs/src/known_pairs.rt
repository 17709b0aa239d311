//! Pairs of protocols that are known when the code is built.
ghost use Rattle.std.specs.Prelude.{◌≡◌, ◌≤◌, ◌<◌, ◌^◌, length, take, IfSome};
ghost use Rattle.protocol_traits.specs.declared.proto.Proto.{Proto};
ghost use Rattle.protocol_traits.specs.Room.{room_for};
ghost use Rattle.translate_verdicts.specs.Judged.{judged_frame};
ghost use Rattle.translate_verdicts.specs.Routes.{IsKnownRoute};
ghost use Rattle.translate_known.specs.Laid.{IsLaid};
ghost use Rattle.protocol_pairs.specs.Pairs.{judged};

use binary_protocol::{BinaryRead, BinaryWrite};
use compact_protocol::{CompactRead, CompactWrite};
use json_protocol::{JsonRead, JsonWrite};
use kept_forms::FormKeep;
use kept_messages::{lay_kept, lay_kept_declared};
use protocol_traits::FormWrite;
use translate_quick::{lay_declared, lay_quickly};
use translate_verdicts::Route;
use type_tables::Schema;

/// The protocol of a frame and the one that its message goes on in, as a type: what goes over many frames is made once for each
/// pair, and holds no other's code.
pub trait Pair {
    /// The protocol of the frame.
    ghost from: { Proto };

    /// The protocol that the message goes on in.
    ghost to: { Proto };

    /// Lays a message's translation into the front of cells by the quick way, and answers how many it took. `None` says nothing
    /// of the frame.
    ///
    /// `room` has at least as many bytes as the frame, and there are 24 cells for each of the frame's bytes and 256 more. What
    /// the route names is of this schema.
    fn lay(
        schema: &Schema,
        route: Route,
        frame: &[u8],
        room: &mut [u8],
        cells: &mut [u8],
    ) -> Option<usize>
        requires known { IsKnownRoute schema.now route }
        requires room { length frame.now ≤ length room.old }
        requires size { length frame.now < 2 ^ 31 }
        requires cells { room_for (length frame.now) ≤ length cells.old }
        ensures kept { length cells.new ≡ length cells.old }
        ensures short { IfSome result (λ n. n ≤ room_for (length frame.now)) }
        ensures passes { IfSome result (λ n. IsLaid (take n cells.new) (judged schema.now route from to frame.now)) };
}

/// From Binary to Compact.
pub struct BinaryToCompact;

impl Pair for BinaryToCompact {
    ghost from = { Proto.Binary };

    ghost to = { Proto.Compact };

    #[inline(always)]
    #[tactic(auto, unfolding(crate::specs::Pairs::judged))]
    fn lay(
        schema: &Schema,
        _route: Route,
        frame: &[u8],
        room: &mut [u8],
        cells: &mut [u8],
    ) -> Option<usize> {
        lay_quickly::<BinaryRead, CompactWrite>(schema, frame, room, cells)
    }
}

/// From Compact to Binary, with nothing known of a message's types.
pub struct CompactToBinary;

impl Pair for CompactToBinary {
    ghost from = { Proto.Compact };

    ghost to = { Proto.Binary };

    #[inline(always)]
    #[tactic(auto, unfolding(crate::specs::Pairs::judged))]
    fn lay(
        schema: &Schema,
        _route: Route,
        frame: &[u8],
        room: &mut [u8],
        cells: &mut [u8],
    ) -> Option<usize> {
        lay_quickly::<CompactRead, BinaryWrite>(schema, frame, room, cells)
    }
}

/// From Compact to Binary, with what is declared of a message.
pub struct DeclaredToBinary;

impl Pair for DeclaredToBinary {
    ghost from = { Proto.Compact };

    ghost to = { Proto.Binary };

    #[inline(always)]
    #[tactic(auto, unfolding(crate::specs::Pairs::judged))]
    fn lay(
        schema: &Schema,
        route: Route,
        frame: &[u8],
        room: &mut [u8],
        cells: &mut [u8],
    ) -> Option<usize> {
        lay_declared::<CompactRead, BinaryWrite>(schema, route, frame, room, cells)
    }
}

/// From Binary to Binary, with nothing known of a message's types.
pub struct BinaryKept;

impl Pair for BinaryKept {
    ghost from = { Proto.Binary };

    ghost to = { Proto.Binary };

    #[inline(always)]
    #[tactic(auto, unfolding(crate::specs::Pairs::judged))]
    fn lay(
        schema: &Schema,
        _route: Route,
        frame: &[u8],
        room: &mut [u8],
        cells: &mut [u8],
    ) -> Option<usize> {
        keep::<BinaryRead, BinaryWrite>(schema, frame, room, cells)
    }
}

/// From Binary to Binary, with what is declared of a message.
pub struct DeclaredKept;

impl Pair for DeclaredKept {
    ghost from = { Proto.Binary };

    ghost to = { Proto.Binary };

    #[inline(always)]
    #[tactic(auto, unfolding(crate::specs::Pairs::judged))]
    fn lay(
        schema: &Schema,
        route: Route,
        frame: &[u8],
        room: &mut [u8],
        cells: &mut [u8],
    ) -> Option<usize> {
        keep_declared::<BinaryRead, BinaryWrite>(schema, route, frame, room, cells)
    }
}

/// From Compact to Compact.
pub struct CompactKept;

impl Pair for CompactKept {
    ghost from = { Proto.Compact };

    ghost to = { Proto.Compact };

    #[inline(always)]
    #[tactic(auto, unfolding(crate::specs::Pairs::judged))]
    fn lay(
        schema: &Schema,
        _route: Route,
        frame: &[u8],
        room: &mut [u8],
        cells: &mut [u8],
    ) -> Option<usize> {
        keep::<CompactRead, CompactWrite>(schema, frame, room, cells)
    }
}

/// From Binary to JSON, with what is declared of a message.
pub struct BinaryToJson;

impl Pair for BinaryToJson {
    ghost from = { Proto.Binary };

    ghost to = { Proto.Json };

    #[inline(always)]
    #[tactic(auto, unfolding(crate::specs::Pairs::judged))]
    fn lay(
        schema: &Schema,
        route: Route,
        frame: &[u8],
        room: &mut [u8],
        cells: &mut [u8],
    ) -> Option<usize> {
        lay_declared::<BinaryRead, JsonWrite>(schema, route, frame, room, cells)
    }
}

/// From Compact to JSON, with what is declared of a message.
pub struct CompactToJson;

impl Pair for CompactToJson {
    ghost from = { Proto.Compact };

    ghost to = { Proto.Json };

    #[inline(always)]
    #[tactic(auto, unfolding(crate::specs::Pairs::judged))]
    fn lay(
        schema: &Schema,
        route: Route,
        frame: &[u8],
        room: &mut [u8],
        cells: &mut [u8],
    ) -> Option<usize> {
        lay_declared::<CompactRead, JsonWrite>(schema, route, frame, room, cells)
    }
}

/// From JSON to Binary, with what is declared of a message.
pub struct JsonToBinary;

impl Pair for JsonToBinary {
    ghost from = { Proto.Json };

    ghost to = { Proto.Binary };

    #[inline(always)]
    #[tactic(auto, unfolding(crate::specs::Pairs::judged))]
    fn lay(
        schema: &Schema,
        route: Route,
        frame: &[u8],
        room: &mut [u8],
        cells: &mut [u8],
    ) -> Option<usize> {
        lay_declared::<JsonRead, BinaryWrite>(schema, route, frame, room, cells)
    }
}

/// From JSON to Compact, with what is declared of a message.
pub struct JsonToCompact;

impl Pair for JsonToCompact {
    ghost from = { Proto.Json };

    ghost to = { Proto.Compact };

    #[inline(always)]
    #[tactic(auto, unfolding(crate::specs::Pairs::judged))]
    fn lay(
        schema: &Schema,
        route: Route,
        frame: &[u8],
        room: &mut [u8],
        cells: &mut [u8],
    ) -> Option<usize> {
        lay_declared::<JsonRead, CompactWrite>(schema, route, frame, room, cells)
    }
}

// Keeps a message in the front of cells, as many as the frame has bytes, with nothing known of its types.
#[inline(always)]
fn keep<R: FormKeep<W>, W: FormWrite>(
    schema: &Schema,
    frame: &[u8],
    room: &mut [u8],
    cells: &mut [u8],
) -> Option<usize>
    requires room { length frame.now ≤ length room.old }
    requires size { length frame.now < 2 ^ 31 }
    requires cells { room_for (length frame.now) ≤ length cells.old }
    ensures kept { length cells.new ≡ length cells.old }
    ensures short { IfSome result (λ n. n ≤ room_for (length frame.now)) }
    ensures passes { IfSome result (λ n. (route : Route) → IsLaid (take n cells.new) (judged_frame R.ReadRules W.WireWrite schema.now route frame.now)) }
{
    let size = frame.len();
    let own = &mut cells[..size];
    if lay_kept::<R, W>(schema, frame, room, own) {
        return Some(size);
    }
    None
}

// The same with what is declared of the message.
#[inline(always)]
fn keep_declared<R: FormKeep<W>, W: FormWrite>(
    schema: &Schema,
    route: Route,
    frame: &[u8],
    room: &mut [u8],
    cells: &mut [u8],
) -> Option<usize>
    requires known { IsKnownRoute schema.now route }
    requires room { length frame.now ≤ length room.old }
    requires size { length frame.now < 2 ^ 31 }
    requires cells { room_for (length frame.now) ≤ length cells.old }
    ensures kept { length cells.new ≡ length cells.old }
    ensures short { IfSome result (λ n. n ≤ room_for (length frame.now)) }
    ensures passes { IfSome result (λ n. IsLaid (take n cells.new) (judged_frame R.ReadRules W.WireWrite schema.now route frame.now)) }
{
    let size = frame.len();
    let own = &mut cells[..size];
    if lay_kept_declared::<R, W>(schema, route, frame, room, own) {
        return Some(size);
    }
    None
}
