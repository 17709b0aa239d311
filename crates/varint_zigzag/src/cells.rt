//! The shortest bytes of a number, laid into cells eight at a time, so that how many they are costs no jump.
ghost use Rattle.std.specs.Prelude.{◌≡◌, ℕ, List, ◌≤◌, ◌<◌, ◌+◌, ◌-◌, ◌^◌, ◌++◌, length, take, drop, replicate};
ghost use Rattle.std.specs.Int.{to_le_bytes, w64};
ghost use Rattle.std.specs.Simd.Lanes.{number_l};
ghost use Rattle.varint_zigzag.specs.Varint.{shortest};
ghost use Rattle.varint_zigzag.specs.Places.{AreGroups, HasTop};

use crate::places::{HIGH_BITS, WORD};

/// The numbers below it have at most eight bytes.
const SHORT: u64 = 1 << 56;

/// How many bytes a number has, by the place of its highest bit.
static COUNTS: [u8; 56] = [
    1, 1, 1, 1, 1, 1, 1, 2, 2, 2, 2, 2, 2, 2, 3, 3, 3, 3, 3, 3, 3, 4, 4, 4, 4, 4, 4, 4, 5, 5, 5, 5,
    5, 5, 5, 6, 6, 6, 6, 6, 6, 6, 7, 7, 7, 7, 7, 7, 7, 8, 8, 8, 8, 8, 8, 8,
];

/// The high bits of all its bytes but the last, by the same place.
static MARKS: [u64; 56] = [
    0,
    0,
    0,
    0,
    0,
    0,
    0,
    0x0080,
    0x0080,
    0x0080,
    0x0080,
    0x0080,
    0x0080,
    0x0080,
    0x8080,
    0x8080,
    0x8080,
    0x8080,
    0x8080,
    0x8080,
    0x8080,
    0x0080_8080,
    0x0080_8080,
    0x0080_8080,
    0x0080_8080,
    0x0080_8080,
    0x0080_8080,
    0x0080_8080,
    0x8080_8080,
    0x8080_8080,
    0x8080_8080,
    0x8080_8080,
    0x8080_8080,
    0x8080_8080,
    0x8080_8080,
    0x0080_8080_8080,
    0x0080_8080_8080,
    0x0080_8080_8080,
    0x0080_8080_8080,
    0x0080_8080_8080,
    0x0080_8080_8080,
    0x0080_8080_8080,
    0x8080_8080_8080,
    0x8080_8080_8080,
    0x8080_8080_8080,
    0x8080_8080_8080,
    0x8080_8080_8080,
    0x8080_8080_8080,
    0x8080_8080_8080,
    0x0080_8080_8080_8080,
    0x0080_8080_8080_8080,
    0x0080_8080_8080_8080,
    0x0080_8080_8080_8080,
    0x0080_8080_8080_8080,
    0x0080_8080_8080_8080,
    0x0080_8080_8080_8080,
];

/// Lays the shortest bytes of a number, one to ten, into the cells from a place on, and gives the place behind them.
/// The cells behind that, up to ten from the first, may be written over (the varints of the Compact protocol
/// specification).
#[inline(always)]
pub fn put_u64(cells: &mut [u8], to: usize, v: u64) -> usize
    requires { to + 10 ≤ length cells.old }
    ensures laid { take result cells.new ≡ take to cells.old ++ shortest v }
    ensures place { result ≡ to + length (shortest v) }
    ensures short { result ≤ to + 10 }
{
    if v < SHORT {
        put_short(cells, to, v)
    } else {
        put_long(cells, to, v)
    }
}

/// `put_u64` of a number below 2^32, which has at most five bytes.
#[inline(always)]
pub fn put_u32(cells: &mut [u8], to: usize, v: u32) -> usize
    requires { to + 8 ≤ length cells.old }
    ensures laid { take result cells.new ≡ take to cells.old ++ shortest v }
    ensures place { result ≡ to + length (shortest v) }
    ensures short { result ≤ to + 5 }
{
    put_short(cells, to, u64::from(v))
}

/// `put_u32` of a size or length. Nearly all have one byte, so a jump that is foreseen costs less than laying eight.
#[inline(always)]
pub fn put_size(cells: &mut [u8], to: usize, v: u32) -> usize
    requires { to + 8 ≤ length cells.old }
    ensures laid { take result cells.new ≡ take to cells.old ++ shortest v }
    ensures place { result ≡ to + length (shortest v) }
    ensures short { result ≤ to + 5 }
{
    if v < 128 {
        put_one(cells, to, [v as u8]);
        return to + 1;
    }
    put_u32(cells, to, v)
}

// Lays at most eight bytes.
#[inline(always)]
fn put_short(cells: &mut [u8], to: usize, v: u64) -> usize
    requires small { v < 2 ^ 56 }
    requires room { to + 8 ≤ length cells.old }
    ensures laid { take result cells.new ≡ take to cells.old ++ shortest v }
    ensures place { result ≡ to + length (shortest v) }
{
    let top = top_bit(v);
    put_word(cells, to, spread(v) + marks_at(top));
    to + count_at(top)
}

// The place of a number's highest bit, 0 where the number is 0.
#[inline(always)]
fn top_bit(v: u64) -> usize
    requires { v < 2 ^ 56 }
    ensures highest { HasTop v result }
    ensures few { result < 56 }
{
    (v | 1).ilog2() as usize
}

// How many bytes each number has whose highest bit is at this place.
#[inline(always)]
fn count_at(top: usize) -> usize
    requires { top < 56 }
    ensures count { (v : ℕ) → HasTop v top → result ≡ length (shortest v) }
{
    COUNTS[top] as usize
}

// The high bits of all bytes but the last of each number whose highest bit is at this place.
#[inline(always)]
fn marks_at(top: usize) -> u64
    requires { top < 56 }
    ensures marks { (v : ℕ) → HasTop v top → result ≡ number_l 256 (replicate (length (shortest v) - 1) 128) }
{
    MARKS[top]
}

// Lays nine or ten bytes.
#[inline(always)]
fn put_long(cells: &mut [u8], to: usize, v: u64) -> usize
    requires large { 2 ^ 56 ≤ v }
    requires room { to + 10 ≤ length cells.old }
    ensures laid { take result cells.new ≡ take to cells.old ++ shortest v }
    ensures place { result ≡ to + length (shortest v) }
{
    let ninth = (v >> 56) as u8;
    put_word(cells, to, spread(v % SHORT) + HIGH_BITS);
    put_two(cells, to + WORD, [ninth, 1]);
    to + 9 + (ninth / 128) as usize
}

// Lays eight bytes, the lowest first.
#[inline(always)]
fn put_word(cells: &mut [u8], to: usize, word: u64)
    requires { to + 8 ≤ length cells.old }
    ensures { cells.new ≡ take to cells.old ++ to_le_bytes w64 word ++ drop (to + 8) cells.old }
{
    cells[to..to + WORD].copy_from_slice(&word.to_le_bytes());
}

// Lays one byte.
#[inline(always)]
fn put_one(cells: &mut [u8], to: usize, one: [u8; 1])
    requires { to + 1 ≤ length cells.old }
    ensures { cells.new ≡ take to cells.old ++ one ++ drop (to + 1) cells.old }
{
    cells[to..to + 1].copy_from_slice(&one);
}

// Lays two bytes.
#[inline(always)]
fn put_two(cells: &mut [u8], to: usize, two: [u8; 2])
    requires { to + 2 ≤ length cells.old }
    ensures { cells.new ≡ take to cells.old ++ two ++ drop (to + 2) cells.old }
{
    cells[to..to + 2].copy_from_slice(&two);
}

// Eight groups of seven bits, each in a byte of its own.
#[inline(always)]
fn spread(number: u64) -> u64
    requires { number < 2 ^ 56 }
    ensures { (groups : List ℕ) → AreGroups groups → number ≡ number_l 128 groups → result ≡ number_l 256 groups }
{
    let fours = number + 15 * (number & 0x00ff_ffff_f000_0000);
    let pairs = fours + 3 * (fours & 0x0fff_c000_0fff_c000);
    pairs + (pairs & 0x3f80_3f80_3f80_3f80)
}
