//! Integers.
ghost use Rattle.std.specs.Prelude.{◌≡◌, ◌+◌, ◌≤◌, length, take, drop, ℤ, pos, ◌≤ℤ◌, IfSome};
ghost use Rattle.std.specs.List.{prefix_len};
ghost use Rattle.json_text.specs.Scan.{moved, IsWithin};
ghost use Rattle.json_text.specs.Int.{is_int_byte, digits_from, magnitude, integer, int_at, within, can_grow, told, IsBetween};

use crate::scanned::Scan;

/// The integer from `low` to `high` that begins at `at`: the longest run of digits and `-` has to be `0`, or an optional
/// `-`, a digit 1 to 9 and digits. Such a run is whole also where it reaches the end of the bytes.
/// The range holds 0 or 1, or ends there, so that no number below it grows into one inside.
pub fn read_int(bytes: &[u8], at: usize, low: i64, high: i64) -> Scan<i64>
    requires place { at ≤ length bytes.now }
    requires range { (low ≤ℤ pos 1) × (pos 0 ≤ℤ high) }
    ensures exact { result ≡ moved at (int_at low high (drop at bytes.now)) }
    ensures within { IsWithin (length bytes.now) result }
    ensures range { IsBetween low high result }
{
    let end = int_end(bytes, at);
    let run = &bytes[at..end];
    let early = (end == bytes.len()) & can_grow(low, run);
    told(within(low, high, integer(run)), at, end, early)
}

/// The first place from `at` where neither a digit nor a `-` stands.
fn int_end(bytes: &[u8], at: usize) -> usize
    requires { at ≤ length bytes.now }
    ensures value { result ≡ at + prefix_len is_int_byte (drop at bytes.now) }
    ensures bound { result ≤ length bytes.now }
{
    let mut end = at;
    while end < bytes.len() && (bytes[end].is_ascii_digit() || bytes[end] == b'-') {
        end += 1;
    }
    end
}

fn digits(bytes: &[u8]) -> Option<u64>
    ensures { result ≡ digits_from 0 bytes.now }
{
    let mut value: u64 = 0;
    for byte in bytes {
        if !byte.is_ascii_digit() || value > 1_000_000_000_000_000_000 {
            return None;
        }
        value = value * 10 + (*byte - b'0') as u64;
    }
    Some(value)
}

#[tactic(auto, unfolding(crate::specs::Int::magnitude))]
fn magnitude(bytes: &[u8]) -> Option<u64>
    ensures { result ≡ magnitude bytes.now }
{
    if bytes.is_empty() {
        return None;
    }
    if bytes[0] == b'0' && bytes.len() != 1 {
        return None;
    }
    digits(bytes)
}

#[tactic(auto, unfolding(crate::specs::Int::integer))]
fn integer(bytes: &[u8]) -> Option<i64>
    ensures { result ≡ integer bytes.now }
{
    if !bytes.is_empty() && bytes[0] == b'-' {
        return match magnitude(&bytes[1..]) {
            Some(0) => None,
            Some(size) if size <= 1 << 63 => Some(-1 - (size - 1) as i64),
            _ => None,
        };
    }
    match magnitude(bytes) {
        Some(size) if size < 1 << 63 => Some(size as i64),
        _ => None,
    }
}

fn within(low: i64, high: i64, found: Option<i64>) -> Option<i64>
    ensures value { result ≡ within low high found }
    ensures range { IfSome result (λ v. (low ≤ℤ v) × (v ≤ℤ high)) }
{
    match found {
        Some(value) if value < low || high < value => None,
        found => found,
    }
}

/// Some integer of the range begins so.
fn can_grow(low: i64, run: &[u8]) -> bool
    ensures { result ≡ can_grow low run.now }
{
    run.is_empty() || (run.len() == 1 && run[0] == b'-' && low < 0)
}

fn told(found: Option<i64>, at: usize, end: usize, early: bool) -> Scan<i64>
    ensures value { result ≡ told found at end early }
    ensures range { (low high : ℤ) → IfSome found (λ v. (low ≤ℤ v) × (v ≤ℤ high)) → IsBetween low high result }
{
    match found {
        Some(value) => Scan::Whole(value, end),
        None if early => Scan::Short,
        None => Scan::Bad(at),
    }
}
