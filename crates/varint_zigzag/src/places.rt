//! The number at a place of some bytes. Its bytes are looked at eight at a time, so that how long it is costs no jump.
ghost use Rattle.std.specs.Prelude.{◌≡◌, ℕ, List, ◌≤◌, ◌<◌, ◌+◌, ◌-◌, ◌*◌, ◌^◌, length, take, drop, IfSome, map};
ghost use Rattle.std.specs.Simd.Lanes.{number_l};
ghost use Rattle.varint_zigzag.specs.Varint.{varint_at};
ghost use Rattle.varint_zigzag.specs.Places.{found_at, end_mark, groups_in, IsEnded, IsFront, AllBelow, AreGroups};

use crate::reading::{read_u16, read_u32, read_u64};

/// So many bytes are looked at together.
pub(crate) const WORD: usize = 8;

/// The most bytes of a number of 64 bits.
const LONG: usize = 10;

/// The bytes of a number of 16 bits, of at most three, make less.
const ABOVE_U16: u64 = 1 << 18;

/// The bytes of a number of 32 bits, of at most five, make less.
const ABOVE_U32: u64 = 1 << 36;

/// The high bit of each byte of a word.
pub(crate) const HIGH_BITS: u64 = 0x8080_8080_8080_8080;

/// The seven low bits of each byte of a word.
const LOW_BITS: u64 = 0x7f7f_7f7f_7f7f_7f7f;

/// The number below 2^16 that stands at a place, of at most five bytes, and the place behind it. It may be padded.
///
/// None where no such number stands there (the varints of the Compact protocol specification).
#[inline(always)]
pub fn read_u16_at(bytes: &[u8], at: usize) -> Option<(u16, usize)>
    requires { at ≤ length bytes.now }
    ensures within { IfSome result (λ found. found.1 ≤ length bytes.now) }
    ensures exact { result ≡ found_at at (varint_at 5 16 (drop at bytes.now)) }
{
    if let Some((own, count)) = front_of(bytes, at) {
        if own < ABOVE_U16 {
            return Some((three_gathered(own), at + count));
        }
    }
    rest_u16(bytes, at)
}

/// The number below 2^32 that stands at a place, of at most five bytes, and the place behind it. It may be padded.
///
/// None where no such number stands there (the varints of the Compact protocol specification).
#[inline(always)]
pub fn read_u32_at(bytes: &[u8], at: usize) -> Option<(u32, usize)>
    requires { at ≤ length bytes.now }
    ensures within { IfSome result (λ found. found.1 ≤ length bytes.now) }
    ensures exact { result ≡ found_at at (varint_at 5 32 (drop at bytes.now)) }
{
    if let Some((own, count)) = front_of(bytes, at) {
        if own < ABOVE_U32 {
            return Some((five_gathered(own), at + count));
        }
    }
    rest_u32(bytes, at)
}

/// `read_u32_at` of a size or length. Nearly all have one byte, so a jump that is foreseen costs less than looking at
/// eight.
#[inline(always)]
pub fn read_size_at(bytes: &[u8], at: usize) -> Option<(u32, usize)>
    requires { at ≤ length bytes.now }
    ensures within { IfSome result (λ found. found.1 ≤ length bytes.now) }
    ensures exact { result ≡ found_at at (varint_at 5 32 (drop at bytes.now)) }
{
    if at < bytes.len() {
        let first = bytes[at];
        if first < 128 {
            return Some((u32::from(first), at + 1));
        }
    }
    longer_size(bytes, at)
}

// By a call, so that what reads a text holds little code: few sizes have more bytes than one.
#[cold]
#[inline(never)]
fn longer_size(bytes: &[u8], at: usize) -> Option<(u32, usize)>
    requires { at ≤ length bytes.now }
    ensures within { IfSome result (λ found. found.1 ≤ length bytes.now) }
    ensures exact { result ≡ found_at at (varint_at 5 32 (drop at bytes.now)) }
{
    read_u32_at(bytes, at)
}

/// The number below 2^64 that stands at a place, of at most ten bytes, and the place behind it. It may be padded.
///
/// None where no such number stands there (the varints of the Compact protocol specification).
#[inline(always)]
pub fn read_u64_at(bytes: &[u8], at: usize) -> Option<(u64, usize)>
    requires { at ≤ length bytes.now }
    ensures within { IfSome result (λ found. found.1 ≤ length bytes.now) }
    ensures exact { result ≡ found_at at (varint_at 10 64 (drop at bytes.now)) }
{
    if let Some((own, count)) = front_of(bytes, at) {
        return Some((gathered(own & LOW_BITS), at + count));
    }
    longer_u64(bytes, at)
}

// The same group by group: near the end of the bytes, and where a number is long.
#[cold]
#[inline(never)]
fn rest_u16(bytes: &[u8], at: usize) -> Option<(u16, usize)>
    requires { at ≤ length bytes.now }
    ensures within { IfSome result (λ found. found.1 ≤ length bytes.now) }
    ensures exact { result ≡ found_at at (varint_at 5 16 (drop at bytes.now)) }
{
    match read_u16(&bytes[at..]) {
        Ok((number, used)) => Some((number, at + used)),
        Err(_) => None,
    }
}

#[cold]
#[inline(never)]
fn rest_u32(bytes: &[u8], at: usize) -> Option<(u32, usize)>
    requires { at ≤ length bytes.now }
    ensures within { IfSome result (λ found. found.1 ≤ length bytes.now) }
    ensures exact { result ≡ found_at at (varint_at 5 32 (drop at bytes.now)) }
{
    match read_u32(&bytes[at..]) {
        Ok((number, used)) => Some((number, at + used)),
        Err(_) => None,
    }
}

// Numbers of nine and ten bytes, and others group by group: one call, so that what reads a number holds little code.
#[inline(never)]
fn longer_u64(bytes: &[u8], at: usize) -> Option<(u64, usize)>
    requires { at ≤ length bytes.now }
    ensures within { IfSome result (λ found. found.1 ≤ length bytes.now) }
    ensures exact { result ≡ found_at at (varint_at 10 64 (drop at bytes.now)) }
{
    if let Some((number, count)) = long_front_of(bytes, at) {
        return Some((number, at + count));
    }
    match read_u64(&bytes[at..]) {
        Ok((number, used)) => Some((number, at + used)),
        Err(_) => None,
    }
}

// The bytes of the number whose last one is among the eight at a place, as a number, and how many they are.
#[inline(always)]
fn front_of(bytes: &[u8], at: usize) -> Option<(u64, usize)>
    requires { at ≤ length bytes.now }
    ensures { IfSome result (λ found. IsFront (drop at bytes.now) found.0 found.1) }
{
    if at + WORD > bytes.len() {
        return None;
    }
    let word = word_at(bytes, at);
    let ends = ends_of(word);
    if ends == 0 {
        return None;
    }
    Some((word & (ends - 1), ends.trailing_zeros() as usize / 8 + 1))
}

// The number of 16 bits whose bytes are these, at most three.
#[inline(always)]
fn three_gathered(own: u64) -> u16
    requires { own < 2 ^ 18 }
    ensures { result ≡ groups_in 3 own }
{
    ((own & 0x7f) + ((own >> 1) & 0x3f80) + ((own >> 2) & 0xc000)) as u16
}

// The number of 32 bits whose bytes are these, at most five.
#[inline(always)]
fn five_gathered(own: u64) -> u32
    requires { own < 2 ^ 36 }
    ensures { result ≡ groups_in 5 own }
{
    let two = (own & 0x7f) + ((own >> 1) & 0x3f80);
    let more = ((own >> 2) & 0x001f_c000) + ((own >> 3) & 0x0fe0_0000);
    (two + more + ((own >> 4) & 0xf000_0000)) as u32
}

// How many of the eight bytes at a place stand before the one that ends a number.
#[inline(always)]
pub(crate) fn before_last(bytes: &[u8], at: usize) -> Option<u32>
    requires { at ≤ length bytes.now }
    ensures within { IfSome result (λ _. at + 8 ≤ length bytes.now) }
    ensures few { IfSome result (λ before. before < 8) }
    ensures ended { IfSome result (λ before. IsEnded (before + 1) (drop at bytes.now)) }
{
    if bytes.len() - at < WORD {
        return None;
    }
    let ends = ends_of(word_at(bytes, at));
    if ends == 0 {
        return None;
    }
    Some(ends.trailing_zeros() / 8)
}

// Eight bytes as a number, the lowest first.
#[inline(always)]
fn word_at(bytes: &[u8], at: usize) -> u64
    requires { at + 8 ≤ length bytes.now }
    ensures { result ≡ number_l 256 (take 8 (drop at bytes.now)) }
{
    match bytes[at..at + WORD].first_chunk::<WORD>() {
        Some(word) => u64::from_le_bytes(*word),
        None => 0,
    }
}

// The high bit of each byte that ends a number, where the word has 0 there; 0 for each other byte.
#[inline(always)]
fn ends_of(word: u64) -> u64
    ensures { (bytes : List ℕ) → length bytes ≡ 8 → AllBelow 256 bytes → word ≡ number_l 256 bytes → result ≡ number_l 256 (map end_mark bytes) }
{
    HIGH_BITS - (word & HIGH_BITS)
}

// A number of nine or ten bytes.
#[inline(always)]
fn long_front_of(bytes: &[u8], at: usize) -> Option<(u64, usize)>
    requires { at ≤ length bytes.now }
    ensures within { IfSome result (λ found. at + found.1 ≤ length bytes.now) }
    ensures found { IfSome result (λ found. varint_at 10 64 (drop at bytes.now) ≡ Ok (found.0, found.1)) }
{
    if bytes.len() - at < LONG {
        return None;
    }
    let word = word_at(bytes, at);
    if ends_of(word) != 0 {
        return None;
    }
    let ninth = bytes[at + 8];
    let tenth = bytes[at + 9];
    let low = gathered(word & LOW_BITS) + (u64::from(ninth % 128) << 56);
    if ninth < 128 {
        return Some((low, 9));
    }
    if tenth < 2 {
        return Some((low + (u64::from(tenth) << 63), LONG));
    }
    None
}

// Eight groups of seven bits, one a byte, without the bits between them.
#[inline(always)]
fn gathered(word: u64) -> u64
    ensures { (groups : List ℕ) → AreGroups groups → word ≡ number_l 256 groups → result ≡ number_l 128 groups }
{
    let pairs = word - ((word & 0x7f00_7f00_7f00_7f00) >> 1);
    let fours = pairs - 3 * ((pairs & 0x3fff_0000_3fff_0000) >> 2);
    (fours & 0x0000_0000_0fff_ffff) + ((fours & 0x0fff_ffff_0000_0000) >> 4)
}
