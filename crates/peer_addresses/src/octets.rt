//! Addresses of the Internet Protocol, version 4 (RFC 791), without a port.
ghost use Rattle.std.specs.Prelude.{◌≡◌, ◌≤◌, length, IfSome};
ghost use Rattle.peer_addresses.specs.Octets.{octets_of, octet_at, octet_of};

use crate::places::place;
use decimal_words::number_within;

/// The greatest octet.
const MOST_OCTET: u64 = 255;

/// The four octets that a word spells, with a dot between each two.
#[tactic(auto, unfolding(crate::specs::Octets::octets_of))]
pub fn octets(word: &[u8]) -> Option<[u8; 4]>
    ensures { result ≡ octets_of word.now }
{
    let (first, taken) = octet_at(word)?;
    let word = &word[taken..];
    let (second, taken) = octet_at(word)?;
    let word = &word[taken..];
    let (third, taken) = octet_at(word)?;
    let fourth = octet(&word[taken..])?;
    Some([first, second, third, fourth])
}

// The octet before the first dot, and how many bytes it takes with the dot.
#[tactic(auto, unfolding(crate::specs::Octets::octet_at))]
fn octet_at(word: &[u8]) -> Option<(u8, usize)>
    ensures value { result ≡ octet_at word.now }
    ensures within { IfSome result (λ r. r.1 ≤ length word.now) }
{
    let at = place(b'.', word);
    if at >= word.len() {
        return None;
    }
    let octet = octet(&word[..at])?;
    Some((octet, at + 1))
}

fn octet(word: &[u8]) -> Option<u8>
    ensures { result ≡ octet_of word.now }
{
    match number_within(0, MOST_OCTET, word) {
        Some(octet) => Some(octet as u8),
        None => None,
    }
}
