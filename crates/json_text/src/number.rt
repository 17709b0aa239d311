//! Numbers, as they are spelled: their value is never asked for.
ghost use Rattle.std.specs.Prelude.{◌≡◌, ◌+◌, ◌-◌, ◌≤◌, length, drop, true};
ghost use Rattle.std.specs.List.{prefix_len};
ghost use Rattle.json_text.specs.Scan.{moved, IsWithin, IsSpan};
ghost use Rattle.json_text.specs.Number.{is_number_byte, first_is, digits_in, digits_then, no_digit, nothing_in, signed_in, exponent_in, fraction_in, unsigned_in, number_in, form_scan, number_at};

use crate::scanned::Scan;

/// What some bytes are in the grammar of numbers.
#[derive(Clone, Copy)]
pub enum Form {
    /// A number.
    Number,
    /// No number, but some number begins so.
    Front,
    /// Neither.
    Other,
}

/// Passes over a number of RFC 8259, section 6, that begins at `at`: the longest run of digits and `+ - . e E`.
/// The value is the number's length. A run that is a number is whole also where it reaches the end of the bytes.
pub fn read_number(bytes: &[u8], at: usize) -> Scan<usize>
    requires { at ≤ length bytes.now }
    ensures exact { result ≡ moved at (number_at (drop at bytes.now)) }
    ensures within { IsWithin (length bytes.now) result }
    ensures span { IsSpan at result }
{
    let end = number_end(bytes, at);
    let form = number_in(&bytes[at..end]);
    told(form, at, end, end == bytes.len())
}

/// What the run from `at` to `end` tells, that reaches the end of the bytes or does not.
fn told(form: Form, at: usize, end: usize, ends: bool) -> Scan<usize>
    requires { at ≤ end }
    ensures value { result ≡ moved at (form_scan form (end - at) ends) }
    ensures span { IsSpan at result }
{
    match form {
        Form::Number => Scan::Whole(end - at, end),
        Form::Front if ends => Scan::Short,
        _ => Scan::Bad(at),
    }
}

/// The first place from `at` where no byte of a number stands.
fn number_end(bytes: &[u8], at: usize) -> usize
    requires { at ≤ length bytes.now }
    ensures value { result ≡ at + prefix_len is_number_byte (drop at bytes.now) }
    ensures bound { result ≤ length bytes.now }
{
    let mut end = at;
    while end < bytes.len()
        && (bytes[end].is_ascii_digit() || matches!(bytes[end], b'+' | b'-' | b'.' | b'E' | b'e'))
    {
        end += 1;
    }
    end
}

#[tactic(auto, unfolding(crate::specs::Number::number_in))]
fn number_in(bytes: &[u8]) -> Form
    ensures { result ≡ number_in bytes.now }
{
    if first_is(bytes, b'-') {
        return unsigned_in(&bytes[1..]);
    }
    unsigned_in(bytes)
}

/// A zero alone or digits that begin with no zero, and what follows them.
#[tactic(auto, unfolding(crate::specs::Number::unsigned_in))]
fn unsigned_in(bytes: &[u8]) -> Form
    ensures { result ≡ unsigned_in bytes.now }
{
    if first_is(bytes, b'0') {
        return fraction_in(&bytes[1..]);
    }
    let end = digits_end(bytes);
    if end == 0 {
        return no_digit(bytes);
    }
    fraction_in(&bytes[end..])
}

/// A fraction or none, and what follows it.
#[tactic(auto, unfolding(crate::specs::Number::fraction_in))]
fn fraction_in(bytes: &[u8]) -> Form
    ensures { result ≡ fraction_in bytes.now }
{
    if !first_is(bytes, b'.') {
        return exponent_in(bytes);
    }
    let rest = &bytes[1..];
    let end = digits_end(rest);
    if end == 0 {
        return no_digit(rest);
    }
    exponent_in(&rest[end..])
}

/// An exponent or nothing.
#[tactic(auto, unfolding(crate::specs::Number::exponent_in))]
fn exponent_in(bytes: &[u8]) -> Form
    ensures { result ≡ exponent_in bytes.now }
{
    if first_is(bytes, b'e') || first_is(bytes, b'E') {
        return signed_in(&bytes[1..]);
    }
    nothing_in(bytes)
}

/// The digits of an exponent, with a sign before them or none.
#[tactic(auto, unfolding(crate::specs::Number::signed_in))]
fn signed_in(bytes: &[u8]) -> Form
    ensures { result ≡ signed_in bytes.now }
{
    if first_is(bytes, b'+') || first_is(bytes, b'-') {
        return last_digits_in(&bytes[1..]);
    }
    last_digits_in(bytes)
}

/// Digits and nothing more.
fn last_digits_in(bytes: &[u8]) -> Form
    ensures { result ≡ digits_then nothing_in bytes.now }
{
    let end = digits_end(bytes);
    if end == 0 {
        return no_digit(bytes);
    }
    nothing_in(&bytes[end..])
}

fn nothing_in(bytes: &[u8]) -> Form
    ensures { result ≡ nothing_in bytes.now }
{
    if bytes.is_empty() {
        Form::Number
    } else {
        Form::Other
    }
}

/// What stands where a digit has to stand and none does.
fn no_digit(bytes: &[u8]) -> Form
    ensures { result ≡ no_digit bytes.now }
{
    if bytes.is_empty() {
        Form::Front
    } else {
        Form::Other
    }
}

fn first_is(bytes: &[u8], byte: u8) -> bool
    ensures value { result ≡ first_is bytes.now byte }
    ensures some { result ≡ true → 1 ≤ length bytes.now }
{
    !bytes.is_empty() && bytes[0] == byte
}

fn digits_end(bytes: &[u8]) -> usize
    ensures value { result ≡ digits_in bytes.now }
    ensures bound { result ≤ length bytes.now }
{
    let mut end = 0;
    while end < bytes.len() && bytes[end].is_ascii_digit() {
        end += 1;
    }
    end
}
