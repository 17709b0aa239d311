//! Numbers: how long they are, and what an Int is worth.
ghost use Rattle.std.specs.Prelude.{◌≡◌, ◌≤◌, ◌<◌, ◌==◌, ◌+◌, ◌^◌, length, IfSome};
ghost use Rattle.idl_lexer.specs.Pieces.{begins, sign_len, digit_value, magnitude_from, signed, int_at, hex_len, mantissa_len, exponent_len, int_or_big, unsigned_at, number_at, IsWithin};

use crate::piece::Piece;
use crate::run::{Class, is_sign, run};
use crate::token::{LexReason, TokenForm};

// How many bytes an optional sign has.
pub(crate) fn sign_len(bytes: &[u8]) -> usize
    ensures value { result ≡ sign_len bytes.now }
    ensures within { result ≤ length bytes.now }
{
    match bytes {
        [first, ..] if is_sign(*first) => 1,
        _ => 0,
    }
}

// What a digit stands for.
fn digit_value(b: u8) -> u64
    ensures value { result ≡ digit_value b }
    ensures small { result < 256 }
{
    if b >= b'a' {
        u64::from(b - 87)
    } else if b >= b'A' {
        u64::from(b - 55)
    } else {
        u64::from(b.saturating_sub(48))
    }
}

const MOST: u64 = 1 << 63;

// The number of the digits, where it is at most 2^63.
fn magnitude(radix: u64, digits: &[u8]) -> Option<u64>
    requires { radix ≤ 16 }
    ensures value { result ≡ magnitude_from radix 0 digits.now }
    ensures most { IfSome result (λ n. n ≤ 2 ^ 63) }
{
    let mut number: u64 = 0;
    for b in digits {
        let wide = u128::from(number) * u128::from(radix) + u128::from(digit_value(*b));
        if wide > u128::from(MOST) {
            return None;
        }
        number = wide as u64;
    }
    Some(number)
}

// The number with its sign, where it fits.
fn signed(negative: bool, magnitude: u64) -> Option<i64>
    requires { magnitude ≤ 2 ^ 63 }
    ensures { result ≡ signed negative magnitude }
{
    if negative {
        Some((0 - magnitude as i128) as i64)
    } else if magnitude < MOST {
        Some(magnitude as i64)
    } else {
        None
    }
}

#[tactic(auto, unfolding(crate::specs::Pieces::int_at))]
fn int_at(negative: bool, radix: u64, digits: &[u8]) -> Option<i64>
    requires { radix ≤ 16 }
    ensures { result ≡ int_at negative radix digits.now }
{
    match magnitude(radix, digits) {
        Some(n) => signed(negative, n),
        None => None,
    }
}

#[tactic(auto, unfolding(crate::specs::Pieces::hex_len))]
fn hex_len(bytes: &[u8]) -> usize
    ensures value { result ≡ hex_len bytes.now }
    ensures within { 0 < result → result + 2 ≤ length bytes.now }
{
    if bytes.len() > 2 && bytes[0] == b'0' && bytes[1] == b'x' {
        run(Class::Hex, &bytes[2..])
    } else {
        0
    }
}

#[tactic(auto, unfolding(crate::specs::Pieces::mantissa_len))]
fn mantissa_len(bytes: &[u8]) -> usize
    ensures value { result ≡ mantissa_len bytes.now }
    ensures within { result ≤ length bytes.now }
{
    let whole = run(Class::Digit, bytes);
    if whole < bytes.len() && bytes[whole] == b'.' {
        let fraction = run(Class::Digit, &bytes[whole + 1..]);
        if fraction > 0 {
            whole + 1 + fraction
        } else {
            whole
        }
    } else {
        whole
    }
}

#[tactic(auto, unfolding(crate::specs::Pieces::exponent_len))]
fn exponent_len(bytes: &[u8]) -> usize
    ensures value { result ≡ exponent_len bytes.now }
    ensures within { result ≤ length bytes.now }
{
    if bytes.is_empty() || (bytes[0] != b'e' && bytes[0] != b'E') {
        return 0;
    }
    let sign = sign_len(&bytes[1..]);
    let digits = run(Class::Digit, &bytes[1 + sign..]);
    if digits > 0 { 1 + sign + digits } else { 0 }
}

fn int_or_big(value: Option<i64>, len: usize) -> Result<(Piece, usize), LexReason>
    ensures { result ≡ int_or_big value len }
{
    match value {
        Some(value) => Ok((Piece::Token(TokenForm::Int(value)), len)),
        None => Err(LexReason::BigNumber),
    }
}

#[tactic(auto, unfolding(crate::specs::Pieces::unsigned_at))]
fn unsigned_at(negative: bool, sign: usize, bytes: &[u8]) -> Result<(Piece, usize), LexReason>
    requires { sign ≤ 1 }
    ensures value { result ≡ unsigned_at negative sign bytes.now }
    ensures within { IsWithin (sign + length bytes.now) result }
{
    let hex = hex_len(bytes);
    if hex > 0 {
        return int_or_big(int_at(negative, 16, &bytes[2..2 + hex]), sign + 2 + hex);
    }
    let mantissa = mantissa_len(bytes);
    if mantissa == 0 {
        return Err(LexReason::BadByte);
    }
    let len = mantissa + exponent_len(&bytes[mantissa..]);
    let whole = run(Class::Digit, bytes);
    if len == whole {
        return int_or_big(int_at(negative, 10, &bytes[..whole]), sign + whole);
    }
    Ok((Piece::Token(TokenForm::Double), sign + len))
}

fn is_negative(bytes: &[u8]) -> bool
    ensures { result ≡ begins (λ b. b == 45) bytes.now }
{
    match bytes {
        [first, ..] => *first == b'-',
        [] => false,
    }
}

/// A number at the front of some bytes.
#[tactic(auto, unfolding(crate::specs::Pieces::number_at))]
pub(crate) fn number_at(bytes: &[u8]) -> Result<(Piece, usize), LexReason>
    ensures value { result ≡ number_at bytes.now }
    ensures within { IsWithin (length bytes.now) result }
{
    let sign = sign_len(bytes);
    unsigned_at(is_negative(bytes), sign, &bytes[sign..])
}
