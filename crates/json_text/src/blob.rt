//! Base64 strings.
ghost use Rattle.std.specs.Prelude.{◌≡◌, ◌+◌, ◌≤◌, ◌<◌, ◌^◌, length, drop, take, IfSome};
ghost use Rattle.std.specs.List.{prefix_len};
ghost use Rattle.json_text.specs.Scan.{moved, Reads, IsWithin, IsNoLonger};
ghost use Rattle.json_text.specs.Blob.{is_symbol, is_padding, is_padded, pads_on, decoded, Decodes, blob_at, blob_of};

use crate::run::symbols_end;
use crate::scanned::Scan;
use base64::engine::general_purpose::STANDARD_NO_PAD;

fn padding_end(bytes: &[u8], at: usize) -> usize
    requires { at ≤ length bytes.now }
    ensures value { result ≡ at + prefix_len is_padding (drop at bytes.now) }
    ensures bound { result ≤ length bytes.now }
{
    let mut end = at;
    while end < bytes.len() && bytes[end] == b'=' {
        end += 1;
    }
    end
}

/// The bytes that the symbols stand for, at the front of the room.
#[tactic(auto, unfolding(crate::specs::Blob::decoded))]
fn decode(symbols: &[u8], room: &mut [u8]) -> Option<usize>
    requires { length symbols.now + 1 ≤ length room.old }
    ensures value { Decodes symbols.now room.new result }
    ensures short { IfSome result (λ count. count ≤ length symbols.now + 2) }
    ensures kept { length room.new ≡ length room.old }
{
    if symbols.len() % 4 == 1 {
        return None;
    }
    match STANDARD_NO_PAD.decode_slice_unchecked(symbols, room) {
        Ok(count) => Some(count),
        Err(_) => None,
    }
}

fn is_padded(symbols: usize, padding: usize) -> bool
    requires { symbols + padding < 2 ^ 63 }
    ensures { result ≡ is_padded symbols padding }
{
    padding == 0 || (padding < 3 && (symbols + padding) % 4 == 0)
}

fn pads_on(symbols: usize, padding: usize) -> bool
    requires { padding < 2 ^ 63 }
    ensures { result ≡ pads_on symbols padding }
{
    symbols % 4 >= 2 && symbols % 4 + padding <= 4
}

/// The content behind an opening quote, with its closing quote.
fn content(bytes: &[u8], symbols: usize, padding: usize, room: &mut [u8]) -> Scan<usize>
    requires front { symbols + padding ≤ length bytes.now }
    requires room { length bytes.now + 1 ≤ length room.old }
    ensures exact { Reads result room.new (blob_of bytes.now symbols padding) }
    ensures within { IsWithin (length bytes.now + 1) result }
    ensures short { IsNoLonger 0 result }
    ensures kept { length room.new ≡ length room.old }
{
    let end = symbols + padding;
    if end < bytes.len() && bytes[end] != b'"' {
        return Scan::Bad(0);
    }
    let found = decode(&bytes[..symbols], room);
    if end == bytes.len() {
        return match found {
            Some(_) if padding == 0 || pads_on(symbols, padding) => Scan::Short,
            None if padding == 0 => Scan::Short,
            _ => Scan::Bad(0),
        };
    }
    match found {
        Some(count) if is_padded(symbols, padding) => Scan::Whole(count, end + 2),
        _ => Scan::Bad(0),
    }
}

/// Decodes the base64 string that begins at `at` into the room. The value is its length.
pub fn read_blob(bytes: &[u8], at: usize, room: &mut [u8]) -> Scan<usize>
    requires place { at ≤ length bytes.now }
    requires room { length bytes.now ≤ length room.old + at }
    requires size { length bytes.now < 2 ^ 62 }
    ensures exact { Reads result room.new (moved at (blob_at (drop at bytes.now))) }
    ensures within { IsWithin (length bytes.now) result }
    ensures short { IsNoLonger at result }
    ensures kept { length room.new ≡ length room.old }
{
    let rest = &bytes[at..];
    match blob_front(rest, room) {
        Scan::Whole(count, taken) => Scan::Whole(count, at + taken),
        Scan::Short => Scan::Short,
        Scan::Bad(place) => Scan::Bad(at + place),
    }
}

/// The same at the front of the bytes.
fn blob_front(bytes: &[u8], room: &mut [u8]) -> Scan<usize>
    requires room { length bytes.now ≤ length room.old }
    requires size { length bytes.now < 2 ^ 62 }
    ensures exact { Reads result room.new (blob_at bytes.now) }
    ensures within { IsWithin (length bytes.now) result }
    ensures short { IsNoLonger 0 result }
    ensures kept { length room.new ≡ length room.old }
{
    if bytes.is_empty() {
        return Scan::Short;
    }
    if bytes[0] != b'"' {
        return Scan::Bad(0);
    }
    let rest = &bytes[1..];
    let symbols = symbols_end(rest, 0);
    let end = padding_end(rest, symbols);
    content(rest, symbols, end - symbols, room)
}
