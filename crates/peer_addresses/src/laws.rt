//! Laws of what words spell. Each is the contract of a function that does nothing.
ghost use Rattle.std.specs.Prelude.{◌≡◌, ◌↔◌, ℕ, List, Some};
ghost use Rattle.std.specs.Net.Grammar.{IsColonHex};
ghost use Rattle.peer_addresses.specs.Segments.{segments_of};

/// The segments of a word are those of the address of version 6 that it writes by RFC 4291, section 2.2: groups of one to four
/// hexadecimal digits, of which `::` may stand for one zero group or more, and the last two of which may be written as an address of version 4.
pub fn an_ipv6_address_is_read()
    ensures { (word segments : List ℕ) → (segments_of word ≡ Some segments) ↔ IsColonHex word segments }
{}
