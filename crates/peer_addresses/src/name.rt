//! Names of hosts.
ghost use Rattle.std.specs.Prelude.{◌≡◌, ◌≤◌, length};
ghost use Rattle.std.specs.List.{list_all};
ghost use Rattle.peer_addresses.specs.Names.{is_digit, is_letter, is_name_byte, is_number, is_name, last_label, name_in};

use crate::places::place;

/// The most bytes of a name: in the messages of the Domain Name System it takes two more (RFC 1035, section 2.3.4).
const MOST_NAME: usize = 253;

/// Whether a word is the name of a host: 1 to 253 letters, digits, `-`, `_` and `.`, whose last label isn't digits alone. So
/// no address of version 4 is a name, nor what only looks like one.
pub fn is_name(word: &[u8]) -> bool
    ensures { result ≡ is_name word.now }
{
    !word.is_empty()
        && word.len() <= MOST_NAME
        && are_name_bytes(word)
        && !is_number(last_label(word))
}

/// What stands before the first colon of a word: the name, where the word spells one with a port.
pub fn name_in(word: &[u8]) -> &[u8]
    ensures { result.now ≡ name_in word.now }
{
    let at = place(b':', word);
    &word[..at]
}

// What stands behind the last dot, or all where there is none.
fn last_label(word: &[u8]) -> &[u8]
    ensures { result.now ≡ last_label word.now }
{
    let mut label = word;
    let mut at = place(b'.', label);
    'labels: while at < label.len() {
        label = &label[at + 1..];
        at = place(b'.', label);
    }
    label
}

// Whether each byte may stand in a name.
fn are_name_bytes(word: &[u8]) -> bool
    ensures { result ≡ list_all is_name_byte word.now }
{
    for byte in word {
        if !is_name_byte(*byte) {
            return false;
        }
    }
    true
}

// Whether a label is digits alone.
fn is_number(label: &[u8]) -> bool
    ensures { result ≡ is_number label.now }
{
    !label.is_empty() && are_digits(label)
}

fn are_digits(word: &[u8]) -> bool
    ensures { result ≡ list_all is_digit word.now }
{
    for byte in word {
        if !is_digit(*byte) {
            return false;
        }
    }
    true
}

// A letter, a digit, `-`, `_` or `.`.
fn is_name_byte(byte: u8) -> bool
    ensures { result ≡ is_name_byte byte }
{
    is_letter(byte) || is_digit(byte) || byte == b'-' || byte == b'_' || byte == b'.'
}

fn is_letter(byte: u8) -> bool
    ensures { result ≡ is_letter byte }
{
    (b'A' <= byte && byte <= b'Z') || (b'a' <= byte && byte <= b'z')
}

fn is_digit(byte: u8) -> bool
    ensures { result ≡ is_digit byte }
{
    b'0' <= byte && byte <= b'9'
}
