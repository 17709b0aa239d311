//! The plain spelling laid into cells from a place on.
ghost use Rattle.std.specs.Prelude.{◌≡◌, ◌+◌, ◌-◌, ◌^◌, ◌≤◌, ◌<◌, ◌∷◌, [], ◌++◌, length, map, take, drop, true, IfSome, if◌then◌else◌};
ghost use Rattle.std.specs.Fmt.{decimal, signed_decimal};
ghost use Rattle.std.specs.Str.{is_utf8};
ghost use Rattle.std.specs.Simd.Lanes.{Each1};
ghost use Rattle.json_text.specs.Digits.{last_digits, parted};
ghost use Rattle.json_text.specs.Places.{IsAsciiRun, StopsAt};
ghost use Rattle.json_text.specs.Plain.{byte_spelling, text_spelling};

use crate::places::highs;
use crate::run::stops;
use crate::write::hex;
use cell_writes::{SLACK, lay};
use simdutf8::is_utf8;
use std::simd::prelude::*;

/// What moves a number to the front of sixteen digits, at the place that the count of its digits less one tells.
static FACTORS: [u64; 16] = [
    1_000_000_000_000_000,
    100_000_000_000_000,
    10_000_000_000_000,
    1_000_000_000_000,
    100_000_000_000,
    10_000_000_000,
    1_000_000_000,
    100_000_000,
    10_000_000,
    1_000_000,
    100_000,
    10_000,
    1_000,
    100,
    10,
    1,
];

/// How many digits are laid at once.
const DIGITS: usize = 16;

/// The least number that has more digits than those.
const LARGE: u64 = 10_000_000_000_000_000;

/// A number below 100_000_000 times this, divided by 2^45, is the number divided by 10_000.
const TEN_THOUSANDTH: u64 = 3_518_437_209;

/// A number below 10_000 times this, divided by 2^19, is the number divided by 100.
const HUNDREDTH: u32 = 5_243;

/// A number below 100 times this, divided by 2^10, is the number divided by 10.
const TENTH: u16 = 103;

/// Lays an integer, at most twenty bytes, into the cells from a place on, and gives the place behind it. All twenty may be
/// written over. A sign is laid where none may be needed, since a jump by the sign of each number is often foreseen wrongly.
#[inline(always)]
pub fn lay_int(cells: &mut [u8], to: usize, value: i64) -> usize
    requires { to + 20 ≤ length cells.old }
    ensures laid { take result cells.new ≡ take to cells.old ++ signed_decimal value }
    ensures place { result ≡ to + length (signed_decimal value) }
    ensures short { result ≤ to + 20 }
{
    let digits = lay_sign(cells, to, value < 0);
    lay_number(cells, digits, value.unsigned_abs())
}

/// Lays a minus or nothing. One cell may be written over.
#[inline(always)]
fn lay_sign(cells: &mut [u8], to: usize, minus: bool) -> usize
    requires { to < length cells.old }
    ensures laid { take result cells.new ≡ take to cells.old ++ (if minus then 45 ∷ [] else []) }
    ensures place { result ≡ to + (if minus then 1 else 0) }
    ensures short { result ≤ to + 1 }
{
    lay(cells, to, b"-");
    to + minus as usize
}

/// Lays the digits of a number of at most nineteen.
#[inline(always)]
fn lay_number(cells: &mut [u8], to: usize, value: u64) -> usize
    requires room { to + 19 ≤ length cells.old }
    requires few { value < 10 ^ 19 }
    ensures laid { take result cells.new ≡ take to cells.old ++ decimal value }
    ensures place { result ≡ to + length (decimal value) }
{
    if value < 10 {
        return lay(cells, to, &[b'0' + value as u8]);
    }
    lay_digits(cells, to, value)
}

/// The same for numbers of two digits at least.
#[inline(never)]
fn lay_digits(cells: &mut [u8], to: usize, value: u64) -> usize
    requires room { to + 19 ≤ length cells.old }
    requires few { value < 10 ^ 19 }
    requires some { 0 < value }
    ensures laid { take result cells.new ≡ take to cells.old ++ decimal value }
    ensures place { result ≡ to + length (decimal value) }
{
    if value < LARGE {
        return lay_short(cells, to, value);
    }
    let behind = lay_short(cells, to, value / LARGE);
    lay_sixteen(cells, behind, value % LARGE)
}

/// Lays the digits of a number of at most sixteen: sixteen are laid, of which the first ones are the number's.
#[inline(always)]
fn lay_short(cells: &mut [u8], to: usize, value: u64) -> usize
    requires room { to + DIGITS ≤ length cells.old }
    requires few { value < LARGE }
    requires some { 0 < value }
    ensures laid { take result cells.new ≡ take to cells.old ++ decimal value }
    ensures place { result ≡ to + length (decimal value) }
{
    let count = digit_count(value);
    lay_sixteen(cells, to, value * FACTORS[count - 1]);
    to + count
}

/// How many digits a number has.
#[inline(always)]
fn digit_count(value: u64) -> usize
    requires { 0 < value }
    ensures { result ≡ length (decimal value) }
{
    value.ilog10() as usize + 1
}

/// Lays sixteen digits, which are told from each other at once: two numbers of eight digits are parted into four of four
/// digits, eight of two, and the digits. A quotient is told by a product, and its remainder goes into the lane behind it:
/// for `n - quotient * divisor` is the remainder, `n * lane - quotient * (divisor * lane - 1)` holds both. After Wojciech
/// Muła, *SSE: conversion integers to decimal representation*.
#[inline(always)]
fn lay_sixteen(cells: &mut [u8], to: usize, value: u64) -> usize
    requires room { to + DIGITS ≤ length cells.old }
    requires few { value < LARGE }
    ensures laid { take result cells.new ≡ take to cells.old ++ last_digits DIGITS value }
    ensures place { result ≡ to + DIGITS }
{
    lay(cells, to, &digits(pairs(fours(value))))
}

/// Four numbers of four digits. The cast to `u32` loses nothing: by it the compiler knows that it multiplies 32 bits by 32.
#[inline(always)]
fn fours(value: u64) -> u32x4
    requires { value < LARGE }
    ensures { result ≡ parted 10_000 (parted 100_000_000 (value ∷ [])) }
{
    let high = (value / 100_000_000) as u32;
    let eights = u64x2::from_array([high as u64, value % 100_000_000]);
    let quotients = (eights * u64x2::splat(TEN_THOUSANDTH)) >> u64x2::splat(45);
    let remainders = eights - quotients * u64x2::splat(10_000);
    let lanes = (remainders << u64x2::splat(32)) + quotients;
    u32x4::from_le_bytes(lanes.to_le_bytes())
}

/// Eight numbers of two digits, of four numbers of four.
#[inline(always)]
fn pairs(fours: u32x4) -> u16x8
    requires { Each1 (λ n. n < 10_000) fours }
    ensures { result ≡ parted 100 fours }
{
    let quotients = (fours * u32x4::splat(HUNDREDTH)) >> u32x4::splat(19);
    let lanes = (fours << u32x4::splat(16)) - quotients * u32x4::splat(100 * (1 << 16) - 1);
    u16x8::from_le_bytes(lanes.to_le_bytes())
}

/// Sixteen digits, of eight numbers of two.
#[inline(always)]
fn digits(pairs: u16x8) -> [u8; 16]
    requires { Each1 (λ n. n < 100) pairs }
    ensures { result ≡ map (λ n. 48 + n) (parted 10 pairs) }
{
    let quotients = (pairs * u16x8::splat(TENTH)) >> u16x8::splat(10);
    let lanes = (pairs << u16x8::splat(8)) - quotients * u16x8::splat(10 * (1 << 8) - 1);
    (lanes.to_le_bytes() + u8x16::splat(b'0')).to_array()
}

/// Lays one byte of a text.
#[tactic(auto, unfolding(crate::specs::Plain::byte_spelling))]
fn lay_byte(cells: &mut [u8], to: usize, byte: u8) -> usize
    requires { to + length (byte_spelling byte) ≤ length cells.old }
    ensures laid { take result cells.new ≡ take to cells.old ++ byte_spelling byte }
    ensures place { result ≡ to + length (byte_spelling byte) }
{
    match byte {
        b'"' => lay(cells, to, b"\\\""),
        b'\\' => lay(cells, to, b"\\\\"),
        8 => lay(cells, to, b"\\b"),
        12 => lay(cells, to, b"\\f"),
        b'\n' => lay(cells, to, b"\\n"),
        b'\r' => lay(cells, to, b"\\r"),
        b'\t' => lay(cells, to, b"\\t"),
        0..32 => lay(
            cells,
            to,
            &[b'\\', b'u', b'0', b'0', hex(byte / 16), hex(byte % 16)],
        ),
        _ => lay(cells, to, &[byte]),
    }
}

/// Lays a text, the first bytes of some so many, as a JSON string into the cells from a place on, and gives the place behind
/// it; `None` where it is no UTF-8. As many as `SLACK` cells behind may be written over.
#[inline(always)]
pub fn lay_text(cells: &mut [u8], into: usize, bytes: &[u8], size: usize) -> Option<usize>
    requires size { size ≤ length bytes.now }
    requires room { into + length (text_spelling (take size bytes.now)) + SLACK ≤ length cells.old }
    ensures utf8 { IfSome result (λ x. is_utf8 (take size bytes.now) ≡ true) }
    ensures laid { IfSome result (λ x. take x cells.new ≡ take into cells.old ++ text_spelling (take size bytes.now)) }
    ensures place { IfSome result (λ x. x ≡ into + length (text_spelling (take size bytes.now))) }
{
    let (behind, is_ascii) = lay_utf8(cells, into, bytes, size);
    if is_ascii || is_utf8(&bytes[..size]) {
        return Some(behind);
    }
    None
}

/// The same for a text that is known to be UTF-8, and whether it was seen to be ASCII.
pub fn lay_utf8(cells: &mut [u8], into: usize, bytes: &[u8], size: usize) -> (usize, bool)
    requires size { size ≤ length bytes.now }
    requires room { into + length (text_spelling (take size bytes.now)) + SLACK ≤ length cells.old }
    ensures laid { take result.0 cells.new ≡ take into cells.old ++ text_spelling (take size bytes.now) }
    ensures place { result.0 ≡ into + length (text_spelling (take size bytes.now)) }
    ensures ascii { result.1 ≡ true → is_utf8 (take size bytes.now) ≡ true }
{
    let mut to = lay(cells, into, b"\"");
    let mut from = 0;
    let mut is_ascii = true;
    'runs: loop {
        let (stop, was_ascii) = lay_run(cells, to, bytes, from, size);
        is_ascii = is_ascii & was_ascii;
        to += stop - from;
        if stop == size {
            break 'runs;
        }
        to = lay_byte(cells, to, bytes[stop]);
        from = stop + 1;
    }
    (lay(cells, to, b"\""), is_ascii)
}

/// Lays the plain bytes from a place on, of the first so many. Gives the place where they stop, and whether they were seen
/// to be ASCII. As many as `SLACK` cells behind may be written over.
#[inline(always)]
fn lay_run(cells: &mut [u8], to: usize, bytes: &[u8], from: usize, size: usize) -> (usize, bool)
    requires order { from ≤ size }
    requires size { size ≤ length bytes.now }
    requires room { to + (size - from) + SLACK ≤ length cells.old }
    ensures stops { StopsAt bytes.now from size result.0 }
    ensures laid { take (to + (result.0 - from)) cells.new ≡ take to cells.old ++ take (result.0 - from) (drop from bytes.now) }
    ensures ascii { result.1 ≡ true → IsAsciiRun bytes.now from result.0 }
{
    let mut at = from;
    let mut is_ascii = true;
    'vectors: while bytes.len() - at >= 32 {
        let block = u8x32::from_slice(&bytes[at..]);
        lay(cells, to + (at - from), &block.to_array());
        let run = (stops(block).trailing_zeros() as usize).min(size - at);
        is_ascii = is_ascii & (run <= highs(block).trailing_zeros() as usize);
        if run < 32 {
            return (at + run, is_ascii);
        }
        at += 32;
    }
    last_run(cells, to + (at - from), bytes, at, size, is_ascii)
}

/// The same as `lay_run` for fewer bytes than a vector has, behind bytes that were seen to be ASCII or not. All of them are laid
/// first, and then looked at in the cells, where a whole vector can be loaded.
#[inline(always)]
fn last_run(
    cells: &mut [u8],
    to: usize,
    bytes: &[u8],
    from: usize,
    size: usize,
    were_ascii: bool,
) -> (usize, bool)
    requires order { from ≤ size }
    requires size { size ≤ length bytes.now }
    requires few { size - from < SLACK }
    requires room { to + (size - from) + SLACK ≤ length cells.old }
    ensures stops { StopsAt bytes.now from size result.0 }
    ensures laid { take (to + (result.0 - from)) cells.new ≡ take to cells.old ++ take (result.0 - from) (drop from bytes.now) }
    ensures ascii { result.1 ≡ true → IsAsciiRun bytes.now from result.0 }
    ensures before { result.1 ≡ true → were_ascii ≡ true }
{
    cell_writes::lay_short(cells, to, &bytes[from..size]);
    let block = u8x32::from_slice(&cells[to..]);
    let run = (stops(block).trailing_zeros() as usize).min(size - from);
    let is_ascii = run <= highs(block).trailing_zeros() as usize;
    (from + run, were_ascii & is_ascii)
}
