//! What is handed over.
ghost use Rattle.std.specs.Prelude.{◌<◌, ◌-◌, ◌^◌};

use mio::net::TcpStream;

/// A connection that was accepted, and the number that its session gets.
#[derive(Drop)]
pub(crate) struct Handed {
    pub(crate) number: u64,
    pub(crate) stream: TcpStream,
    ghost small: { number < 2 ^ 64 - 1 },
}
