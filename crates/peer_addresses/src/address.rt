//! Addresses of peers, and which of them serve for what.
ghost use Rattle.std.specs.Prelude.{◌≡◌};
ghost use Rattle.peer_addresses.specs.Addresses.{address_of, bracketed_of, plain_of, host_with, port_of, port_behind, can_listen_at, can_connect_to};

use crate::name::is_name;
use crate::octets::octets;
use crate::places::place;
use crate::segments::segments;
use decimal_words::number_within;

/// The greatest port.
const MOST_PORT: u64 = 65_535;

/// Where a peer is. Each port lies between 1 and 65535.
#[derive(Clone, Copy)]
pub enum Address {
    /// An address of the Internet Protocol, version 4: its four octets, in the order in which they are written.
    V4 { octets: [u8; 4], port: u16 },
    /// An address of the Internet Protocol, version 6: its eight segments, in that order.
    V6 { segments: [u16; 8], port: u16 },
    /// Whatever address the system knows for the name before the word's colon.
    Name { port: u16 },
}

/// The address that a word spells: `A.B.C.D:PORT` with A to D from 0 to 255, each without a leading 0; `[IPV6]:PORT` with any
/// form of an address of version 6 (RFC 4291, section 2.2) that has no zone; or `NAME:PORT` with 1 to 253 letters, digits, `-`,
/// `_` and `.`, whose last label isn't digits alone. PORT is 1 to 65535, without a leading 0.
#[tactic(auto, unfolding(crate::specs::Addresses::address_of))]
pub fn read_address(word: &[u8]) -> Option<Address>
    ensures { result ≡ address_of word.now }
{
    match word.split_first() {
        Some((b'[', rest)) => bracketed(rest),
        _ => plain(word),
    }
}

/// Whether a word spells an address at which a server can listen: one of the Internet Protocol, and no name.
pub fn can_listen_at(word: &[u8]) -> bool
    ensures { result ≡ can_listen_at word.now }
{
    match read_address(word) {
        Some(Address::V4 { .. } | Address::V6 { .. }) => true,
        Some(Address::Name { .. }) | None => false,
    }
}

/// Whether a word spells an address to which a server can connect.
pub fn can_connect_to(word: &[u8]) -> bool
    ensures { result ≡ can_connect_to word.now }
{
    read_address(word).is_some()
}

// The rest of `[IPV6]:PORT`.
#[tactic(auto, unfolding(crate::specs::Addresses::bracketed_of))]
fn bracketed(rest: &[u8]) -> Option<Address>
    ensures { result ≡ bracketed_of rest.now }
{
    let at = place(b']', rest);
    if at >= rest.len() {
        return None;
    }
    let segments = segments(&rest[..at])?;
    let port = port_behind(&rest[at + 1..])?;
    Some(Address::V6 { segments, port })
}

// `A.B.C.D:PORT` or `NAME:PORT`.
#[tactic(auto, unfolding(crate::specs::Addresses::plain_of))]
fn plain(word: &[u8]) -> Option<Address>
    ensures { result ≡ plain_of word.now }
{
    let at = place(b':', word);
    if at >= word.len() {
        return None;
    }
    let port = port(&word[at + 1..])?;
    host_with(&word[..at], port)
}

// The address of version 4, or the name, with this port.
fn host_with(host: &[u8], port: u16) -> Option<Address>
    ensures { result ≡ host_with host.now port }
{
    match octets(host) {
        Some(octets) => Some(Address::V4 { octets, port }),
        None if is_name(host) => Some(Address::Name { port }),
        None => None,
    }
}

// A colon, and a port.
fn port_behind(word: &[u8]) -> Option<u16>
    ensures { result ≡ port_behind word.now }
{
    match word.split_first() {
        Some((b':', digits)) => port(digits),
        _ => None,
    }
}

fn port(word: &[u8]) -> Option<u16>
    ensures { result ≡ port_of word.now }
{
    match number_within(1, MOST_PORT, word) {
        Some(port) => Some(port as u16),
        None => None,
    }
}
