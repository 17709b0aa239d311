//! Bytes laid into cells from a place on, each call by value: it is told the place and answers the one behind.
//!
//! A short part of a frame is copied by sixteen bytes or twice as many, whose number is known when the code is built, so
//! cells behind the answer may be written over.
#![tactic(auto)]

ghost use Rattle.std.specs.Prelude.{◌≡◌, ◌+◌, ◌-◌, ◌≤◌, ◌<◌, ◌++◌, length, take, drop};

/// How many cells behind a place `lay_part` may write over.
pub const SLACK: usize = 32;

/// The width of a copy of a few bytes: a part of at most so many, no closer to the frame's end, is copied at once.
pub const SHORT: usize = 16;

/// Lays bytes into the cells from a place on, and gives the place behind them.
#[inline(always)]
#[tactic(auto, using(crate::proofs::Laid::laid_bytes))]
pub fn lay(cells: &mut [u8], to: usize, bytes: &[u8]) -> usize
    requires { to + length bytes.now ≤ length cells.old }
    ensures laid { take result cells.new ≡ take to cells.old ++ bytes.now }
    ensures place { result ≡ to + length bytes.now }
{
    let behind = to + bytes.len();
    cells[to..behind].copy_from_slice(bytes);
    behind
}

/// Lays the N bytes of a frame from `begin` on into the cells from a place on, and gives the place behind them.
#[inline(always)]
pub fn lay_fixed<const N: usize>(cells: &mut [u8], to: usize, frame: &[u8], begin: usize) -> usize
    requires room { to + N ≤ length cells.old }
    requires bytes { begin + N ≤ length frame.now }
    ensures laid { take result cells.new ≡ take to cells.old ++ take N (drop begin frame.now) }
    ensures place { result ≡ to + N }
{
    let part: [u8; N] = bytes_at(frame, begin);
    lay(cells, to, &part)
}

/// Lays the part of a frame between two places into the cells from a place on, and gives the place behind it. As many
/// as `SLACK` cells behind that may be written over.
#[inline(always)]
pub fn lay_part(cells: &mut [u8], to: usize, frame: &[u8], begin: usize, end: usize) -> usize
    requires room { to + (end - begin) + SLACK ≤ length cells.old }
    requires order { begin ≤ end }
    requires bytes { end ≤ length frame.now }
    ensures laid { take result cells.new ≡ take to cells.old ++ take (end - begin) (drop begin frame.now) }
    ensures place { result ≡ to + (end - begin) }
{
    let count = end - begin;
    if begin + SHORT <= frame.len() && count <= SHORT {
        lay_wide::<SHORT>(cells, to, frame, begin, count)
    } else if count >= SHORT && count <= SLACK {
        lay_ends::<SHORT>(cells, to, &frame[begin..], count)
    } else {
        lay_apart(cells, to, &frame[begin..], count)
    }
}

/// `lay` for bytes that are mostly few, such as a name: fewer than 32 are laid without a call.
#[inline(always)]
pub fn lay_short(cells: &mut [u8], to: usize, bytes: &[u8]) -> usize
    requires { to + length bytes.now ≤ length cells.old }
    ensures laid { take result cells.new ≡ take to cells.old ++ bytes.now }
    ensures place { result ≡ to + length bytes.now }
{
    lay_front(cells, to, bytes, bytes.len())
}

// The first so many bytes of a part, by a call: for what is long, or stands close to the frame's end.
#[inline(never)]
fn lay_apart(cells: &mut [u8], to: usize, part: &[u8], count: usize) -> usize
    requires room { to + count ≤ length cells.old }
    requires bytes { count ≤ length part.now }
    ensures laid { take result cells.new ≡ take to cells.old ++ take count part.now }
    ensures place { result ≡ to + count }
{
    lay_front(cells, to, part, count)
}

// The first so many bytes of a part. Where they are few, the width of each copy is known when the code is built.
#[inline(always)]
fn lay_front(cells: &mut [u8], to: usize, part: &[u8], count: usize) -> usize
    requires room { to + count ≤ length cells.old }
    requires bytes { count ≤ length part.now }
    ensures laid { take result cells.new ≡ take to cells.old ++ take count part.now }
    ensures place { result ≡ to + count }
{
    if count < 8 {
        lay_few(cells, to, part, count)
    } else if count < 16 {
        lay_ends::<8>(cells, to, part, count)
    } else if count < 32 {
        lay_ends::<16>(cells, to, part, count)
    } else {
        lay(cells, to, &part[..count])
    }
}

// The first bytes of a part, fewer than eight.
#[inline(always)]
fn lay_few(cells: &mut [u8], to: usize, part: &[u8], count: usize) -> usize
    requires room { to + count ≤ length cells.old }
    requires bytes { count ≤ length part.now }
    requires few { count < 8 }
    ensures laid { take result cells.new ≡ take to cells.old ++ take count part.now }
    ensures place { result ≡ to + count }
{
    if count >= 4 {
        lay_ends::<4>(cells, to, part, count)
    } else if count >= 2 {
        lay_ends::<2>(cells, to, part, count)
    } else if count == 1 {
        lay_fixed::<1>(cells, to, part, 0)
    } else {
        to
    }
}

// The first so many bytes of a part, by two copies of N that may overlap: at least N bytes, and at most twice as many.
#[inline(always)]
fn lay_ends<const N: usize>(cells: &mut [u8], to: usize, part: &[u8], count: usize) -> usize
    requires room { to + count ≤ length cells.old }
    requires bytes { count ≤ length part.now }
    requires least { N ≤ count }
    requires most { count ≤ N + N }
    ensures laid { take result cells.new ≡ take to cells.old ++ take count part.now }
    ensures place { result ≡ to + count }
{
    let last = count - N;
    lay_fixed::<N>(cells, to, part, 0);
    lay_fixed::<N>(cells, to + last, part, last)
}

// At most N bytes, by a copy of N.
#[inline(always)]
fn lay_wide<const N: usize>(
    cells: &mut [u8],
    to: usize,
    frame: &[u8],
    begin: usize,
    count: usize,
) -> usize
    requires room { to + N ≤ length cells.old }
    requires bytes { begin + N ≤ length frame.now }
    requires few { count ≤ N }
    ensures laid { take result cells.new ≡ take to cells.old ++ take count (drop begin frame.now) }
    ensures place { result ≡ to + count }
{
    lay_fixed::<N>(cells, to, frame, begin);
    to + count
}

// So many bytes of a frame from a place on, by value: the compiler sees that they don't lie among the cells, and asks
// nothing before it copies them.
#[inline(always)]
fn bytes_at<const N: usize>(frame: &[u8], begin: usize) -> [u8; N]
    requires { begin + N ≤ length frame.now }
    ensures { result ≡ take N (drop begin frame.now) }
{
    match frame[begin..begin + N].first_chunk::<N>() {
        Some(bytes) => *bytes,
        None => [0; N],
    }
}
