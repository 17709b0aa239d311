//! The addresses of a server's peers, as words spell them: an address of the Internet Protocol or a host's name, and a port.
#![tactic(auto)]

mod address;
mod laws;
mod name;
mod octets;
mod places;
mod segments;

pub use address::{Address, can_connect_to, can_listen_at, read_address};
pub use laws::an_ipv6_address_is_read;
pub use name::name_in;
pub use places::place;
