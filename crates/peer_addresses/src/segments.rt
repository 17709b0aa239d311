//! Addresses of the Internet Protocol, version 6, without a port.
ghost use Rattle.std.specs.Prelude.{◌≡◌};
ghost use Rattle.peer_addresses.specs.Segments.{segments_of};

use std::net::Ipv6Addr;

/// The eight segments of the address that a word writes (RFC 4291, section 2.2), without a zone.
pub fn segments(word: &[u8]) -> Option<[u16; 8]>
    ensures { result ≡ segments_of word.now }
{
    match Ipv6Addr::parse_ascii(word) {
        Ok(address) => Some(address.segments()),
        Err(_) => None,
    }
}
