//! The system's connections as streams. They tell nothing: what peers send and take is the system's word.
ghost use Rattle.std.specs.Prelude.{◌<◌, length};
ghost use Rattle.gate_hub.specs.Hubs.{GotWithin, TookWithin};

use crate::Stream;
use gate_hub::{LinkGot, LinkPut};
use mio::net::TcpStream;
use std::io::{ErrorKind, Read, Write};
use std::net::Shutdown;

impl Stream for TcpStream {
    ghost tells = { λ _ _. ⊥ };

    fn receive(&mut self, into: &mut [u8]) -> LinkGot {
        match self.read(into) {
            Ok(0) => LinkGot::End,
            Ok(count) => LinkGot::Bytes(count),
            Err(error) if is_not_yet(error.kind()) => LinkGot::NotReady,
            Err(_) => LinkGot::Failed,
        }
    }

    fn send(&mut self, from: &[u8]) -> LinkPut {
        match self.write(from) {
            Ok(0) => LinkPut::Failed,
            Ok(count) => LinkPut::Took(count),
            Err(error) if is_not_yet(error.kind()) => LinkPut::NotReady,
            Err(_) => LinkPut::Failed,
        }
    }

    fn shut(&mut self) {
        let _ = self.shutdown(Shutdown::Write);
    }

    ghost bytes = { λ stream wire told. absurd told };

    ghost hears = { λ stream wire r w told. absurd told };
}

// A connection that isn't there yet isn't ready.
fn is_not_yet(kind: ErrorKind) -> bool {
    matches!(kind, ErrorKind::WouldBlock | ErrorKind::NotConnected)
}
