//! Runs of bytes that are passed over at once: plain text, base64 symbols and whitespace.
ghost use Rattle.std.specs.Prelude.{◌≡◌, ◌+◌, ◌≤◌, length, drop, map};
ghost use Rattle.std.specs.List.{prefix_len};
ghost use Rattle.std.specs.Simd.Lanes.{mask_l};
ghost use Rattle.json_text.specs.Text.{is_plain, is_stop};
ghost use Rattle.json_text.specs.Blob.{is_symbol, is_no_symbol};
ghost use Rattle.json_text.specs.Scan.{is_white};

use std::simd::prelude::*;

/// The first byte from `at` on that is a quote, a backslash or a control byte, or the length.
pub(crate) fn plain_end(bytes: &[u8], at: usize) -> usize
    requires { at ≤ length bytes.now }
    ensures value { result ≡ at + prefix_len is_plain (drop at bytes.now) }
    ensures bound { result ≤ length bytes.now }
{
    let mut end = at;
    while bytes.len() - end >= 32 {
        let found = stops(u8x32::from_slice(&bytes[end..]));
        if found != 0 {
            return end + found.trailing_zeros() as usize;
        }
        end += 32;
    }
    last_plain_end(bytes, end)
}

/// The first byte from `at` on that is no base64 symbol, or the length.
pub(crate) fn symbols_end(bytes: &[u8], at: usize) -> usize
    requires { at ≤ length bytes.now }
    ensures value { result ≡ at + prefix_len is_symbol (drop at bytes.now) }
    ensures bound { result ≤ length bytes.now }
{
    let mut end = at;
    while bytes.len() - end >= 32 {
        let found = no_symbols(u8x32::from_slice(&bytes[end..]));
        if found != 0 {
            return end + found.trailing_zeros() as usize;
        }
        end += 32;
    }
    last_symbols_end(bytes, end)
}

/// The first place from `at` that is no space, tab, CR or LF (the whitespace of RFC 8259, section 2), or the length.
pub fn skip_white(bytes: &[u8], at: usize) -> usize
    requires { at ≤ length bytes.now }
    ensures value { result ≡ at + prefix_len is_white (drop at bytes.now) }
    ensures bound { result ≤ length bytes.now }
{
    let mut end = at;
    while end < bytes.len() && matches!(bytes[end], b' ' | b'\t' | b'\r' | b'\n') {
        end += 1;
    }
    end
}

/// A set bit for each byte at which plain text stops.
#[inline(always)]
pub(crate) fn stops(block: u8x32) -> u64
    ensures { result ≡ mask_l (map is_stop block) }
{
    (block.simd_eq(u8x32::splat(b'"'))
        | block.simd_eq(u8x32::splat(b'\\'))
        | block.simd_lt(u8x32::splat(0x20))).to_bitmask()
}

/// A set bit for each byte that is no base64 symbol.
#[inline(always)]
fn no_symbols(block: u8x32) -> u64
    ensures { result ≡ mask_l (map is_no_symbol block) }
{
    let letters = (block | u8x32::splat(0x20)) - u8x32::splat(b'a');
    let digits = block - u8x32::splat(b'0');
    (letters.simd_ge(u8x32::splat(26))
        & digits.simd_ge(u8x32::splat(10))
        & block.simd_ne(u8x32::splat(b'+'))
        & block.simd_ne(u8x32::splat(b'/'))).to_bitmask()
}

/// The same as `plain_end`, byte by byte.
fn last_plain_end(bytes: &[u8], at: usize) -> usize
    requires { at ≤ length bytes.now }
    ensures value { result ≡ at + prefix_len is_plain (drop at bytes.now) }
    ensures bound { result ≤ length bytes.now }
{
    let mut end = at;
    while end < bytes.len() && bytes[end] != b'"' && bytes[end] != b'\\' && bytes[end] >= 0x20 {
        end += 1;
    }
    end
}

/// The same as `symbols_end`, byte by byte.
fn last_symbols_end(bytes: &[u8], at: usize) -> usize
    requires { at ≤ length bytes.now }
    ensures value { result ≡ at + prefix_len is_symbol (drop at bytes.now) }
    ensures bound { result ≤ length bytes.now }
{
    let mut end = at;
    while end < bytes.len()
        && (bytes[end].is_ascii_alphanumeric() || bytes[end] == b'+' || bytes[end] == b'/')
    {
        end += 1;
    }
    end
}
