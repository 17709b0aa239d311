//! Kind names, integers and numbers, as they stand and in quotes.
ghost use Rattle.std.specs.Prelude.{◌≡◌, ℕ, ◌+◌, ◌≤◌, ◌<◌, ◌^◌, ℤ, pos, drop, length, IfOk, ◌≤ℤ◌};
ghost use Rattle.protocol_traits.specs.Steps.{seen};
ghost use Rattle.json_text.specs.declared.scanned.Scan.TheVariants.{Whole};
ghost use Rattle.json_protocol.specs.Scan.{IsWithin, further, word_end, byte_fits, string_scan};
ghost use Rattle.json_protocol.specs.Words.{begins_two, begins_three, large_kind_at, wide_kind_at, kind_at, int_in, closed, quoted_int_in, whole_in, infinity_fits, spelled, number_in, quoted_number_in, double_in};

use crate::scan::{byte_fits, gap_from};
use json_text::{Scan, plain_int, read_int, read_number};
use protocol_traits::{Fault, Reason, fault_at};
use thrift_value::Kind;

/// A kind's name in quotes, so many bytes further on and behind whitespace.
pub fn kind_from(bytes: &[u8], at: usize) -> Result<(Kind, usize), Fault>
    requires { at ≤ length bytes.now }
    ensures within { IsWithin (length bytes.now) result }
    ensures exact { result ≡ further at kind_at bytes.now }
{
    let at = gap_from(bytes, at);
    match kind_at(&bytes[at..]) {
        Ok((kind, taken)) => Ok((kind, at + taken)),
        Err(f) => Err(fault_at(at + f.place, f.reason)),
    }
}

/// An integer of the range, in quotes where it is a key.
pub fn whole_in(
    key: bool,
    reason: Reason,
    low: i64,
    high: i64,
    bytes: &[u8],
) -> Result<(i64, usize), Fault>
    requires { (low ≤ℤ pos 1) × (pos 0 ≤ℤ high) }
    ensures within { IsWithin (length bytes.now) result }
    ensures range { IfOk result (λ x. (low ≤ℤ x.0) × (x.0 ≤ℤ high)) }
    ensures exact { result ≡ whole_in key reason low high bytes.now }
{
    if key {
        quoted_int_in(reason, low, high, bytes)
    } else {
        int_in(reason, low, high, bytes)
    }
}

/// An integer of the range.
#[tactic(auto, unfolding(crate::specs::Words::int_in))]
pub fn int_in(reason: Reason, low: i64, high: i64, bytes: &[u8]) -> Result<(i64, usize), Fault>
    requires { (low ≤ℤ pos 1) × (pos 0 ≤ℤ high) }
    ensures within { IsWithin (length bytes.now) result }
    ensures range { IfOk result (λ x. (low ≤ℤ x.0) × (x.0 ≤ℤ high)) }
    ensures exact { result ≡ int_in reason low high bytes.now }
{
    if let Some((value, end)) = plain_int(bytes, 0) {
        if low <= value && value <= high {
            return Ok((value, end));
        }
    }
    match read_int(bytes, 0, low, high) {
        Scan::Whole(value, end) => Ok((value, end)),
        Scan::Short => Err(fault_at(bytes.len(), Reason::Truncated)),
        Scan::Bad(place) => Err(fault_at(place, reason)),
    }
}

/// An integer of the range in quotes.
#[tactic(auto, unfolding(crate::specs::Words::quoted_int_in))]
pub fn quoted_int_in(
    reason: Reason,
    low: i64,
    high: i64,
    bytes: &[u8],
) -> Result<(i64, usize), Fault>
    requires { (low ≤ℤ pos 1) × (pos 0 ≤ℤ high) }
    ensures within { IsWithin (length bytes.now) result }
    ensures range { IfOk result (λ x. (low ≤ℤ x.0) × (x.0 ≤ℤ high)) }
    ensures exact { result ≡ quoted_int_in reason low high bytes.now }
{
    if bytes.is_empty() {
        return Err(fault_at(0, Reason::Truncated));
    }
    if bytes[0] != b'"' {
        return Err(fault_at(0, reason));
    }
    match read_int(bytes, 1, low, high) {
        Scan::Whole(value, end) => match quote_at(reason, bytes, end) {
            Ok((_, end)) => Ok((value, end)),
            Err(f) => Err(f),
        },
        Scan::Short => Err(fault_at(bytes.len(), Reason::Truncated)),
        Scan::Bad(_) => Err(fault_at(0, reason)),
    }
}

/// A number, in quotes where it is a key, or one of the words for a double that is no number. The text is the number's
/// own bytes, or the word without its quotes.
#[tactic(auto, unfolding(crate::specs::Words::double_in))]
pub fn double_in(key: bool, bytes: &[u8]) -> Result<(&[u8], usize), Fault>
    ensures within { IsWithin (length bytes.now) result }
    ensures exact { seen string_scan result ≡ double_in key bytes.now }
{
    if begins_three(bytes, b'N', b'a', b'N') {
        return spelled(1, bytes, word_end(bytes, 5, 3));
    }
    if byte_fits(bytes, 0, b'"') && infinity_fits(bytes, 1) {
        return spelled(1, bytes, word_end(bytes, 10, 8));
    }
    if byte_fits(bytes, 0, b'"') && byte_fits(bytes, 1, b'-') && infinity_fits(bytes, 2) {
        return spelled(1, bytes, word_end(bytes, 11, 9));
    }
    if key {
        return spelled(1, bytes, quoted_number_in(bytes));
    }
    spelled(0, bytes, number_in(bytes))
}

#[tactic(auto, unfolding(crate::specs::Words::kind_at))]
fn kind_at(bytes: &[u8]) -> Result<(Kind, usize), Fault>
    ensures within { IsWithin (length bytes.now) result }
    ensures exact { result ≡ kind_at bytes.now }
{
    if begins_two(bytes, b't', b'f') {
        return word_end(bytes, 4, Kind::Bool);
    }
    if begins_two(bytes, b'i', b'8') {
        return word_end(bytes, 4, Kind::I8);
    }
    wide_kind_at(bytes)
}

#[tactic(auto, unfolding(crate::specs::Words::wide_kind_at))]
fn wide_kind_at(bytes: &[u8]) -> Result<(Kind, usize), Fault>
    ensures within { IsWithin (length bytes.now) result }
    ensures exact { result ≡ wide_kind_at bytes.now }
{
    if begins_three(bytes, b'i', b'1', b'6') {
        return word_end(bytes, 5, Kind::I16);
    }
    if begins_three(bytes, b'i', b'3', b'2') {
        return word_end(bytes, 5, Kind::I32);
    }
    if begins_three(bytes, b'i', b'6', b'4') {
        return word_end(bytes, 5, Kind::I64);
    }
    if begins_three(bytes, b'd', b'b', b'l') {
        return word_end(bytes, 5, Kind::Double);
    }
    large_kind_at(bytes)
}

#[tactic(auto, unfolding(crate::specs::Words::large_kind_at))]
fn large_kind_at(bytes: &[u8]) -> Result<(Kind, usize), Fault>
    ensures within { IsWithin (length bytes.now) result }
    ensures exact { result ≡ large_kind_at bytes.now }
{
    if begins_three(bytes, b's', b't', b'r') {
        return word_end(bytes, 5, Kind::Str);
    }
    if begins_three(bytes, b'r', b'e', b'c') {
        return word_end(bytes, 5, Kind::Struct);
    }
    if begins_three(bytes, b'm', b'a', b'p') {
        return word_end(bytes, 5, Kind::Map);
    }
    if begins_three(bytes, b's', b'e', b't') {
        return word_end(bytes, 5, Kind::Set);
    }
    if begins_three(bytes, b'l', b's', b't') {
        return word_end(bytes, 5, Kind::List);
    }
    Err(fault_at(0, Reason::BadKind))
}

/// A quote, two letters and a quote, as far as there are bytes.
#[inline]
fn begins_two(bytes: &[u8], a: u8, b: u8) -> bool
    ensures { result ≡ begins_two bytes.now a b }
{
    byte_fits(bytes, 0, b'"')
        && byte_fits(bytes, 1, a)
        && byte_fits(bytes, 2, b)
        && byte_fits(bytes, 3, b'"')
}

/// A quote, three letters and a quote, as far as there are bytes.
#[inline]
fn begins_three(bytes: &[u8], a: u8, b: u8, c: u8) -> bool
    ensures { result ≡ begins_three bytes.now a b c }
{
    byte_fits(bytes, 0, b'"')
        && byte_fits(bytes, 1, a)
        && byte_fits(bytes, 2, b)
        && byte_fits(bytes, 3, c)
        && byte_fits(bytes, 4, b'"')
}

/// `Infinity` and a quote, as far as there are bytes.
#[tactic(auto, unfolding(crate::specs::Words::infinity_fits))]
fn infinity_fits(bytes: &[u8], at: usize) -> bool
    requires { at < 100 }
    ensures { result ≡ infinity_fits bytes.now at }
{
    byte_fits(bytes, at, b'I')
        && byte_fits(bytes, at + 1, b'n')
        && byte_fits(bytes, at + 2, b'f')
        && byte_fits(bytes, at + 3, b'i')
        && byte_fits(bytes, at + 4, b'n')
        && byte_fits(bytes, at + 5, b'i')
        && byte_fits(bytes, at + 6, b't')
        && byte_fits(bytes, at + 7, b'y')
        && byte_fits(bytes, at + 8, b'"')
}

/// A word of so many bytes that fits as far as there are bytes.
fn word_end<T: Copy>(bytes: &[u8], size: usize, value: T) -> Result<(T, usize), Fault>
    ensures within { IsWithin (length bytes.now) result }
    ensures there { IfOk result (λ x. (x.0 ≡ value) × (size ≤ length bytes.now)) }
    ensures exact { result ≡ word_end bytes.now size value }
{
    if bytes.len() < size {
        return Err(fault_at(bytes.len(), Reason::Truncated));
    }
    Ok((value, size))
}

/// The closing quote of an item that began at the front of the bytes.
fn quote_at(reason: Reason, bytes: &[u8], at: usize) -> Result<((), usize), Fault>
    requires { at ≤ length bytes.now }
    ensures within { IsWithin (length bytes.now) result }
    ensures exact { result ≡ closed reason bytes.now (Whole tt at) }
{
    if bytes.len() <= at {
        return Err(fault_at(bytes.len(), Reason::Truncated));
    }
    if bytes[at] != b'"' {
        return Err(fault_at(0, reason));
    }
    Ok(((), at + 1))
}

/// The length of a number.
#[tactic(auto, unfolding(crate::specs::Words::number_in))]
fn number_in(bytes: &[u8]) -> Result<(usize, usize), Fault>
    ensures within { IsWithin (length bytes.now) result }
    ensures size { IfOk result (λ x. x.0 ≤ length bytes.now) }
    ensures exact { result ≡ number_in bytes.now }
{
    match read_number(bytes, 0) {
        Scan::Whole(size, end) => Ok((size, end)),
        Scan::Short => Err(fault_at(bytes.len(), Reason::Truncated)),
        Scan::Bad(place) => Err(fault_at(place, Reason::BadNumber)),
    }
}

/// The length of a number in quotes.
#[tactic(auto, unfolding(crate::specs::Words::quoted_number_in))]
fn quoted_number_in(bytes: &[u8]) -> Result<(usize, usize), Fault>
    ensures within { IsWithin (length bytes.now) result }
    ensures size { IfOk result (λ x. 1 + x.0 ≤ length bytes.now) }
    ensures exact { result ≡ quoted_number_in bytes.now }
{
    if bytes.is_empty() {
        return Err(fault_at(0, Reason::Truncated));
    }
    if bytes[0] != b'"' {
        return Err(fault_at(0, Reason::BadNumber));
    }
    match read_number(bytes, 1) {
        Scan::Whole(size, end) => match quote_at(Reason::BadNumber, bytes, end) {
            Ok((_, end)) => Ok((size, end)),
            Err(f) => Err(f),
        },
        Scan::Short => Err(fault_at(bytes.len(), Reason::Truncated)),
        Scan::Bad(_) => Err(fault_at(0, Reason::BadNumber)),
    }
}

/// The bytes of a number or a word, so long as a scan tells.
fn spelled(
    from: usize,
    bytes: &[u8],
    scan: Result<(usize, usize), Fault>,
) -> Result<(&[u8], usize), Fault>
    requires { IfOk scan (λ x. from + x.0 ≤ length bytes.now) }
    ensures { seen string_scan result ≡ spelled from bytes.now scan }
{
    match scan {
        Ok((size, taken)) => Ok((&bytes[from..from + size], taken)),
        Err(f) => Err(f),
    }
}
