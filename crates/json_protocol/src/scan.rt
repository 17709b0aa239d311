//! What scans of the front of a slice are put together from.
ghost use Rattle.std.specs.Prelude.{◌≡◌, ℕ, ◌+◌, ◌≤◌, drop, length, IfOk};
ghost use Rattle.json_protocol.specs.Scan.{IsWithin, further, gap, mark_at, byte_fits};

use json_text::skip_white;
use protocol_traits::{Fault, Reason, fault_at};

/// The place behind the whitespace that stands at `at`.
pub fn gap_from(bytes: &[u8], at: usize) -> usize
    requires { at ≤ length bytes.now }
    ensures value { result ≡ at + gap (drop at bytes.now) }
    ensures bound { result ≤ length bytes.now }
{
    skip_white(bytes, at)
}

/// A mark: a bracket, a brace, a comma or a colon.
#[tactic(auto, unfolding(crate::specs::Scan::mark_at))]
pub fn mark_at(mark: u8, bytes: &[u8]) -> Result<((), usize), Fault>
    ensures within { IsWithin (length bytes.now) result }
    ensures exact { result ≡ mark_at mark bytes.now }
{
    if bytes.is_empty() {
        return Err(fault_at(0, Reason::Truncated));
    }
    if bytes[0] == mark {
        return Ok(((), 1));
    }
    Err(fault_at(0, Reason::BadToken))
}

/// A mark behind whitespace, so many bytes further on.
pub fn mark_from(mark: u8, bytes: &[u8], at: usize) -> Result<((), usize), Fault>
    requires { at ≤ length bytes.now }
    ensures within { IsWithin (length bytes.now) result }
    ensures onward { IfOk result (λ x. at ≤ x.1) }
    ensures exact { result ≡ further at (mark_at mark) bytes.now }
{
    let at = gap_from(bytes, at);
    match mark_at(mark, &bytes[at..]) {
        Ok((there, taken)) => Ok((there, at + taken)),
        Err(f) => Err(fault_at(at + f.place, f.reason)),
    }
}

/// This byte, if there is one.
#[inline]
pub fn byte_fits(bytes: &[u8], at: usize, byte: u8) -> bool
    ensures { result ≡ byte_fits bytes.now at byte }
{
    bytes.len() <= at || bytes[at] == byte
}
