//! Numbers that stand by their shortest bytes: how many these are. They need not be gathered for that.
ghost use Rattle.std.specs.Prelude.{◌≤◌, ◌<◌, ◌+◌, length, drop, get_or, IfSome};
ghost use Rattle.varint_zigzag.specs.Standing.{IsShortestFront, StandsShortest};

use crate::places::{WORD, before_last};

/// The bits of a number that each of its bytes holds.
const GROUP: usize = 7;

/// How many bytes the number below 2^16 has that stands at a place, where they are its shortest and lie among eight.
///
/// None says nothing of the bytes: the number may be padded or long, or stand near their end (the varints of the
/// Compact protocol specification).
#[inline(always)]
pub fn shortest_u16_at(bytes: &[u8], at: usize) -> Option<usize>
    requires { at ≤ length bytes.now }
    ensures few { IfSome result (λ count. (1 ≤ count) × (count ≤ 3)) }
    ensures among { IfSome result (λ count. count ≤ 8) }
    ensures within { IfSome result (λ _. at + 8 ≤ length bytes.now) }
    ensures stands { IfSome result (λ count. StandsShortest 5 16 (drop at bytes.now) count) }
{
    let before = shortest_at(bytes, at)?;
    if u64::from(bytes[at + before]) > u64::from(u16::MAX) >> (GROUP * before) {
        return None;
    }
    Some(before + 1)
}

/// `shortest_u16_at` of a number below 2^32.
#[inline(always)]
pub fn shortest_u32_at(bytes: &[u8], at: usize) -> Option<usize>
    requires { at ≤ length bytes.now }
    ensures few { IfSome result (λ count. (1 ≤ count) × (count ≤ 5)) }
    ensures among { IfSome result (λ count. count ≤ 8) }
    ensures within { IfSome result (λ _. at + 8 ≤ length bytes.now) }
    ensures stands { IfSome result (λ count. StandsShortest 5 32 (drop at bytes.now) count) }
{
    let before = shortest_at(bytes, at)?;
    if u64::from(bytes[at + before]) > u64::from(u32::MAX) >> (GROUP * before) {
        return None;
    }
    Some(before + 1)
}

/// `shortest_u16_at` of a number below 2^64.
#[inline(always)]
pub fn shortest_u64_at(bytes: &[u8], at: usize) -> Option<usize>
    requires { at ≤ length bytes.now }
    ensures few { IfSome result (λ count. (1 ≤ count) × (count ≤ 8)) }
    ensures among { IfSome result (λ count. count ≤ 8) }
    ensures within { IfSome result (λ _. at + 8 ≤ length bytes.now) }
    ensures stands { IfSome result (λ count. StandsShortest 10 64 (drop at bytes.now) count) }
{
    let before = shortest_at(bytes, at)?;
    Some(before + 1)
}

// How many of the eight bytes at a place stand before a number's last, where its bytes are the shortest: the last one isn't
// 0, unless it is alone.
#[inline(always)]
fn shortest_at(bytes: &[u8], at: usize) -> Option<usize>
    requires { at ≤ length bytes.now }
    ensures within { IfSome result (λ _. at + 8 ≤ length bytes.now) }
    ensures shortest { IfSome result (λ before. IsShortestFront (drop at bytes.now) (before + 1)) }
    ensures some { IfSome result (λ before. 0 < before → 0 < get_or bytes.now (at + before) 0) }
{
    let before = before_last(bytes, at)? as usize;
    let last = usize::from(bytes[at + before]);
    // The last byte is 0 and not alone: asked by one comparison, so that it costs no jump by the length.
    if before > WORD * last {
        return None;
    }
    Some(before)
}
