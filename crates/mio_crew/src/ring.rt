//! The way of connections from the server that accepts them to another.
ghost use Rattle.std.specs.Prelude.{◌≡◌, ◌+◌, ◌<◌, ◌≤◌, ◌-◌, ◌^◌, OnOk, IfSome};
ghost use Rattle.rtrb.specs.Ring.{sent, received};
ghost use Rattle.mio_crew.specs.Handing.{above};

use crate::handed::Handed;
use gate_base::OutOfMemory;
use mio::net::TcpStream;
use rtrb::{Consumer, Producer, Protocol, PushError, RingBuffer};
use std::alloc::Global;

/// At most so many connections wait to be taken. It is more than two waits bring.
const MOST_WAITING: usize = 1024;

/// The numbers rise.
#[derive(Clone, Copy)]
pub(crate) struct Rising;

impl Protocol<Handed> for Rising {
    ghost use Rattle.std.specs.Prelude.{◌≤◌};
    ghost use Rattle.mio_crew.specs.Handing.{above};

    ghost allows = { λ before handed. above before ≤ handed.number };
}

/// What the server that accepts hands to another.
#[derive(Drop)]
pub(crate) struct Outbox {
    ring: Producer<Handed, Global, Rising>,
    /// The least number above all that were handed over.
    next: u64,
    ghost least: { above (sent ring) ≡ next },
}

impl Outbox {
    /// Whether the other takes connections and there is room for one.
    pub(crate) fn has_room(&mut self) -> bool {
        !self.ring.is_abandoned() && !self.ring.is_full()
    }

    /// Hands over a connection under this number. It comes back where the number isn't above all that were handed over, or
    /// there is no room.
    #[tactic(auto, using(crate::proofs::Above::above_more))]
    pub(crate) fn hand(&mut self, number: u64, stream: TcpStream) -> Result<(), TcpStream>
        requires { number < 2 ^ 64 - 1 }
        ensures above { OnOk result (self.old.next ≤ number) }
        ensures next { OnOk result (self.new.next ≡ number + 1) }
    {
        if number < self.next {
            return Err(stream);
        }
        match self.ring.push(Handed { number, stream }) {
            Ok(()) => {
                self.next = number + 1;
                Ok(())
            }
            Err(PushError::Full(handed)) => {
                let Handed { number: _, stream } = handed;
                Err(stream)
            }
        }
    }
}

/// What a server is handed by the one that accepts.
#[derive(Drop)]
pub(crate) struct Inbox {
    ring: Consumer<Handed, Global, Rising>,
    /// The least number above all that were taken.
    next: u64,
    ghost least: { above (received ring) ≡ next },
}

impl Inbox {
    /// Takes the next connection that was handed over. Its number is above all before.
    #[tactic(auto, using(crate::proofs::Above::above_more))]
    pub(crate) fn take(&mut self) -> Option<(u64, TcpStream)>
        ensures rises { IfSome result (λ taken. (self.old.next ≤ taken.0) × (self.new.next ≡ taken.0 + 1)) }
        ensures below { IfSome result (λ taken. taken.0 < 2 ^ 64 - 1) }
    {
        let Ok(handed) = self.ring.pop() else {
            return None;
        };
        let Handed { number, stream } = handed;
        self.next = number + 1;
        Some((number, stream))
    }

    /// Whether none is handed over any more, but for those that wait.
    pub(crate) fn is_closed(&mut self) -> bool {
        self.ring.is_abandoned()
    }
}

/// Opens a way.
pub(crate) fn open_ring(alloc: Global) -> Result<(Outbox, Inbox), OutOfMemory> {
    let (producer, consumer) = RingBuffer::with_protocol::<Global, Rising>(alloc, MOST_WAITING)?;
    let outbox = Outbox {
        ring: producer,
        next: 0,
    };
    let inbox = Inbox {
        ring: consumer,
        next: 0,
    };
    Ok((outbox, inbox))
}
