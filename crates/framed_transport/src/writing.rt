//! Frames as they are written.
ghost use Rattle.std.specs.Prelude.{◌≡◌, ◌+◌, ◌-◌, ◌^◌, ◌<◌, ◌≤◌, [], ◌∷◌, ◌++◌, length, take, drop};
ghost use Rattle.framed_transport.specs.Frames.{framed};

use gate_io::Out;

/// Appends four bytes for the length of a frame, for which there must be room, and says at which
/// place they stand.
#[inline]
pub fn begin(out: &mut Out) -> usize
    requires { length out.old.bytes + 4 ≤ out.old.room }
    ensures place { result ≡ length out.old.bytes }
    ensures bytes { out.new ≡ record out.old { bytes = out.old.bytes ++ 0 ∷ 0 ∷ 0 ∷ 0 ∷ [] } }
{
    let at = out.bytes().len();
    out.push_array([0; 4]);
    at
}

/// Makes a frame of all that stands behind the four bytes at this place, at most 2^31 - 1 bytes.
#[inline]
#[tactic(auto, unfolding(crate::specs::Frames::framed))]
pub fn close(out: &mut Out, at: usize)
    requires within { at + 4 ≤ length out.old.bytes }
    requires fits { length out.old.bytes - (at + 4) < 2 ^ 31 }
    ensures { out.new ≡ record out.old { bytes = take at out.old.bytes ++ framed (drop (at + 4) out.old.bytes) } }
{
    let length = out.bytes().len() - (at + 4);
    out.patch(at, (length as u32).to_be_bytes());
}
