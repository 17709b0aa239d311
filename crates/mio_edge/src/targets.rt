//! Where a server listens, and to which addresses it leads its sessions.
ghost use Rattle.std.specs.Prelude.{◌≡◌, ◌<◌, [], ℕ, length, false, IfSome};
ghost use Rattle.gate_hub.specs.declared.hub.Began.TheVariants as began;
ghost use Rattle.peer_addresses.specs.Addresses.{can_listen_at};
ghost use Rattle.mio_edge.specs.Targets.{AddsTargets, IsAt, IsName, LeadsTo, no_names};

use crate::network::Network;
use gate_base::{OutOfMemory, Text};
use gate_hub::Began;
use peer_addresses::{Address, name_in, read_address};
use std::net::{IpAddr, Ipv4Addr, Ipv6Addr, SocketAddr};

/// The addresses of the upstreams, in their order. It says whether all are found.
pub(crate) fn find_targets<W: Network>(
    network: &mut W,
    upstreams: &[Text],
    targets: &mut Vec<SocketAddr>,
) -> Result<Began, OutOfMemory>
    ensures place { (at : ℕ) → result ≡ Ok (began.NotFound at) → at < length upstreams.now }
    ensures finds { result ≡ Ok began.Done → AddsTargets W.names upstreams.now targets.old.items targets.new.items }
{
    for (at, upstream) in upstreams.iter().enumerate() {
        let word = upstream.as_slice();
        let Some(address) = read_address(word) else {
            return Ok(Began::Failed);
        };
        let Some(target) = target_address(network, word, address) else {
            return Ok(Began::NotFound(at));
        };
        targets.push(target)?;
    }
    Ok(Began::Done)
}

// The address of a target for the system: none where the network knows none for its name.
fn target_address<W: Network>(network: &mut W, word: &[u8], address: Address) -> Option<SocketAddr>
    ensures target { IfSome result (λ target. IsAt W.names word.now address target) }
    ensures none { result ≡ None → IsName address }
{
    match address {
        Address::Name { port } => network.look_up(name_in(word), port),
        _ => socket_address(address),
    }
}

/// The address that a listener's word spells, for the system.
pub(crate) fn listener_address(word: &[u8]) -> Option<SocketAddr>
    ensures address { IfSome result (λ address. LeadsTo no_names word.now address) }
    ensures none { result ≡ None → can_listen_at word.now ≡ false }
{
    socket_address(read_address(word)?)
}

// An address of the Internet Protocol, for the system.
fn socket_address(address: Address) -> Option<SocketAddr>
    ensures target { IfSome result (λ target. IsAt no_names [] address target) }
    ensures none { result ≡ None → IsName address }
{
    match address {
        Address::V4 { octets, port } => {
            let ip = Ipv4Addr::from_octets(octets);
            Some(SocketAddr::new(IpAddr::V4(ip), port))
        }
        Address::V6 { segments, port } => {
            let ip = Ipv6Addr::from_segments(segments);
            Some(SocketAddr::new(IpAddr::V6(ip), port))
        }
        Address::Name { .. } => None,
    }
}
