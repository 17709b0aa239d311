//! Words at a place, as writers spell them: no escape, and a byte behind. `None` says nothing of the bytes.
ghost use Rattle.std.specs.Prelude.{◌≡◌, ◌≤◌, ◌<◌, ◌+◌, ◌-◌, ◌^◌, ◌≤ℤ◌, ℤ, pos, negsuc, length, map, take, drop, true, Some, IfSome, slice_index};
ghost use Rattle.std.specs.List.{prefix_len};
ghost use Rattle.std.specs.Char.{is_ascii_digit};
ghost use Rattle.std.specs.Simd.Lanes.{mask_l};
ghost use Rattle.json_text.specs.declared.scanned.Scan.TheVariants.{Whole};
ghost use Rattle.json_text.specs.Int.{is_int_byte, digits_from, magnitude, int_at};
ghost use Rattle.json_text.specs.Text.{is_plain, text_at};
ghost use Rattle.json_text.specs.Places.{IsInside, IsAsciiRun, is_high};

use crate::run::stops;
use crate::text::{Run, judge_run};
use core::dec2flt::read_digits;
use std::simd::prelude::*;

/// The integer that begins at a place and ends before another byte, and the place of that byte.
#[inline(always)]
pub fn plain_int(bytes: &[u8], at: usize) -> Option<(i64, usize)>
    requires { at ≤ length bytes.now }
    ensures inside { IfSome result (λ x. IsInside bytes.now at x.1) }
    ensures begins { IfSome result (λ x. is_int_byte (slice_index bytes.now at) ≡ true) }
    ensures found { IfSome result (λ x. (low high : ℤ) → low ≤ℤ x.0 → x.0 ≤ℤ high → int_at low high (drop at bytes.now) ≡ Whole x.0 (x.1 - at)) }
{
    if at == bytes.len() {
        return None;
    }
    let sign = sign_at(bytes, at);
    let (size, end) = plain_digits(bytes, at + sign as usize)?;
    // Behind a minus a size of 0 wraps, and is refused with those that are too large.
    let rank = size.wrapping_sub(sign);
    if rank >= 1 << 63 {
        return None;
    }
    Some((signed(rank, sign), end))
}

/// The same, quicker where the integer has one digit.
#[inline(always)]
pub fn plain_small_int(bytes: &[u8], at: usize) -> Option<(i64, usize)>
    requires { at ≤ length bytes.now }
    ensures inside { IfSome result (λ x. IsInside bytes.now at x.1) }
    ensures begins { IfSome result (λ x. is_int_byte (slice_index bytes.now at) ≡ true) }
    ensures found { IfSome result (λ x. (low high : ℤ) → low ≤ℤ x.0 → x.0 ≤ℤ high → int_at low high (drop at bytes.now) ≡ Whole x.0 (x.1 - at)) }
{
    if is_lone_digit(bytes, at) {
        return Some(((bytes[at] - b'0') as i64, at + 1));
    }
    plain_int(bytes, at)
}

/// Whether a digit is an integer of its own, with another byte behind it.
#[inline(always)]
fn is_lone_digit(bytes: &[u8], at: usize) -> bool
    requires { at ≤ length bytes.now }
    ensures inside { result ≡ true → at + 1 < length bytes.now }
    ensures digit { result ≡ true → is_ascii_digit (slice_index bytes.now at) ≡ true }
    ensures run { result ≡ true → prefix_len is_int_byte (drop at bytes.now) ≡ 1 }
{
    if bytes.len() - at < 2 {
        return false;
    }
    bytes[at].is_ascii_digit() && !bytes[at + 1].is_ascii_digit() && bytes[at + 1] != b'-'
}

/// 1 where a minus stands, and 0 at another byte.
#[inline(always)]
fn sign_at(bytes: &[u8], at: usize) -> u64
    requires { at < length bytes.now }
    ensures small { result ≤ 1 }
    ensures minus { slice_index bytes.now at ≡ 45 → result ≡ 1 }
    ensures other { (slice_index bytes.now at ≡ 45 → ⊥) → result ≡ 0 }
{
    (bytes[at] == b'-') as u64
}

/// The number of this rank from 0 on, or from -1 down where the sign is 1. No jump asks for the sign, for none foresees it.
#[inline(always)]
fn signed(rank: u64, sign: u64) -> i64
    requires { rank < 2 ^ 63 }
    ensures plus { sign ≡ 0 → result ≡ pos rank }
    ensures minus { sign ≡ 1 → result ≡ negsuc rank }
{
    (rank ^ 0u64.wrapping_sub(sign)).cast_signed()
}

/// Digits that begin with a 0 only where they are `0`, as a number, and the place of the byte behind them, which is no sign.
#[inline(always)]
fn plain_digits(bytes: &[u8], at: usize) -> Option<(u64, usize)>
    requires { at ≤ length bytes.now }
    ensures inside { IfSome result (λ x. IsInside bytes.now at x.1) }
    ensures begins { IfSome result (λ x. is_ascii_digit (slice_index bytes.now at) ≡ true) }
    ensures run { IfSome result (λ x. prefix_len is_int_byte (drop at bytes.now) ≡ x.1 - at) }
    ensures value { IfSome result (λ x. magnitude (take (x.1 - at) (drop at bytes.now)) ≡ Some x.0) }
{
    let (value, end) = digits_here(bytes, at)?;
    if end == at || end == bytes.len() || bytes[end] == b'-' {
        return None;
    }
    if bytes[at] == b'0' && end != at + 1 {
        return None;
    }
    Some((value, end))
}

/// The longest run of digits, as a number, and the place behind it. 19 digits and fewer make a number below 2^64.
#[inline(always)]
fn digits_here(bytes: &[u8], at: usize) -> Option<(u64, usize)>
    requires { at ≤ length bytes.now }
    ensures bound { IfSome result (λ x. (at ≤ x.1) × (x.1 ≤ length bytes.now)) }
    ensures run { IfSome result (λ x. prefix_len is_ascii_digit (drop at bytes.now) ≡ x.1 - at) }
    ensures value { IfSome result (λ x. digits_from 0 (take (x.1 - at) (drop at bytes.now)) ≡ Some x.0) }
{
    let (end, value) = read_digits(bytes, at, 0);
    if end - at > 19 {
        return None;
    }
    Some((value, end))
}

/// The place of the quote that closes the string that begins at a place and has no escape. The string is UTF-8.
#[inline(always)]
pub fn plain_text(bytes: &[u8], at: usize) -> Option<usize>
    requires { at ≤ length bytes.now }
    ensures inside { IfSome result (λ stop. IsInside bytes.now at stop) }
    ensures begins { IfSome result (λ stop. slice_index bytes.now at ≡ 34) }
    ensures found { IfSome result (λ stop. text_at (drop at bytes.now) ≡ Whole (take (stop - (at + 1)) (drop (at + 1) bytes.now)) (stop + 1 - at)) }
{
    if at == bytes.len() || bytes[at] != b'"' {
        return None;
    }
    let (stop, is_ascii) = plain_run(bytes, at + 1);
    if stop == bytes.len() || bytes[stop] != b'"' {
        return None;
    }
    if is_ascii {
        return Some(stop);
    }
    match judge_run(bytes, at + 1, stop) {
        Run::Good => Some(stop),
        Run::EndsEarly | Run::Wrong(_) => None,
    }
}

/// The first byte from a place on that is a quote, a backslash or a control byte, or the length; and whether those before
/// it were seen to be ASCII.
#[inline(always)]
fn plain_run(bytes: &[u8], at: usize) -> (usize, bool)
    requires { at ≤ length bytes.now }
    ensures value { result.0 ≡ at + prefix_len is_plain (drop at bytes.now) }
    ensures bound { result.0 ≤ length bytes.now }
    ensures ascii { result.1 ≡ true → IsAsciiRun bytes.now at result.0 }
{
    let mut end = at;
    let mut is_ascii = true;
    'runs: while bytes.len() - end >= 32 {
        let block = u8x32::from_slice(&bytes[end..]);
        is_ascii = is_ascii & (highs(block) == 0);
        let found = stops(block);
        if found != 0 {
            return (end + found.trailing_zeros() as usize, is_ascii);
        }
        end += 32;
    }
    last_plain_run(bytes, end, is_ascii)
}

/// A set bit for each byte that is not ASCII.
#[inline(always)]
pub(crate) fn highs(block: u8x32) -> u64
    ensures { result ≡ mask_l (map is_high block) }
{
    block.simd_ge(u8x32::splat(128)).to_bitmask()
}

/// The same as `plain_run`, byte by byte, behind bytes that were seen to be ASCII or not.
fn last_plain_run(bytes: &[u8], at: usize, were_ascii: bool) -> (usize, bool)
    requires { at ≤ length bytes.now }
    ensures value { result.0 ≡ at + prefix_len is_plain (drop at bytes.now) }
    ensures bound { result.0 ≤ length bytes.now }
    ensures ascii { result.1 ≡ true → IsAsciiRun bytes.now at result.0 }
    ensures before { result.1 ≡ true → were_ascii ≡ true }
{
    let mut end = at;
    let mut is_ascii = were_ascii;
    'bytes: while end < bytes.len()
        && bytes[end] != b'"'
        && bytes[end] != b'\\'
        && bytes[end] >= 0x20
    {
        is_ascii = is_ascii & (bytes[end] < 128);
        end += 1;
    }
    (end, is_ascii)
}
