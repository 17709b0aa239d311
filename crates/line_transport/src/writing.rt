//! Messages as they are written.
ghost use Rattle.std.specs.Prelude.{◌≡◌, ◌+◌, ◌-◌, ◌^◌, ◌<◌, ◌≤◌, ◌++◌, length, take, drop};
ghost use Rattle.line_transport.specs.Cuts.{sent};
ghost use Rattle.line_transport.specs.Buffers.{lead, trail};

use crate::transport::Transport;
use gate_io::Out;

/// Begins a message: of a frame it appends four bytes for the length, for which there must be room. Says where they stand.
#[inline]
pub fn begin(transport: Transport, out: &mut Out) -> usize
    requires { length out.old.bytes + 4 ≤ out.old.room }
    ensures place { result ≡ length out.old.bytes }
    ensures bytes { out.new ≡ record out.old { bytes = out.old.bytes ++ lead transport } }
{
    match transport {
        Transport::Frames => framed_transport::begin(out),
        Transport::Lines => out.bytes().len(),
    }
}

/// Makes a frame or a line of all that stands behind the place where it was begun, at most 2^31 - 1 bytes. Behind a line
/// there must be room for an LF.
#[inline]
#[tactic(auto, unfolding(crate::specs::Lines::ended))]
pub fn close(transport: Transport, out: &mut Out, at: usize)
    requires within { at + length (lead transport) ≤ length out.old.bytes }
    requires fits { length out.old.bytes - (at + length (lead transport)) < 2 ^ 31 }
    requires room { length out.old.bytes + length (trail transport) ≤ out.old.room }
    ensures { out.new ≡ record out.old { bytes = take at out.old.bytes ++ sent transport (drop (at + length (lead transport)) out.old.bytes) } }
{
    match transport {
        Transport::Frames => framed_transport::close(out, at),
        Transport::Lines => out.push_byte(b'\n'),
    }
}
