//! Copies of what is handed out.
ghost use Rattle.std.specs.Prelude.{◌≡◌, ◌+◌, ◌-◌, ◌≤◌, ◌<◌, ◌^◌, length, take, drop, min};
ghost use Rattle.framed_transport.specs.Frames.{framed};

/// The bytes of a frame's length.
pub(crate) const LENGTH_BYTES: usize = 4;

/// Copies from a place on as much as there is room for.
pub(crate) fn copy_from(from: &[u8], at: usize, into: &mut [u8]) -> usize
    requires { at ≤ length from.now }
    ensures count { result ≡ min (length from.now - at) (length into.old) }
    ensures copied { take result into.new ≡ take result (drop at from.now) }
{
    let count = (from.len() - at).min(into.len());
    into[..count].copy_from_slice(&from[at..at + count]);
    count
}

/// Copies of a body's frame, from a place of the frame on, as much as there is room for.
#[tactic(auto, unfolding(framed_transport::specs::Frames::framed))]
pub(crate) fn copy_frame(body: &[u8], at: usize, into: &mut [u8]) -> usize
    requires size { length body.now < 2 ^ 31 }
    requires place { at ≤ length body.now + LENGTH_BYTES }
    ensures count { result ≡ min (length body.now + LENGTH_BYTES - at) (length into.old) }
    ensures copied { take result into.new ≡ take result (drop at (framed body.now)) }
{
    if at >= LENGTH_BYTES {
        return copy_from(body, at - LENGTH_BYTES, into);
    }
    let length = (body.len() as u32).to_be_bytes();
    let front = copy_from(&length, at, into);
    front + copy_from(body, 0, &mut into[front..])
}
