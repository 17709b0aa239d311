//! Whoever makes the lines of a server's refusals.
ghost use Rattle.std.specs.Prelude.{◌≡◌, ◌<◌, ◌^◌};
ghost use Rattle.refusal_lines.specs.Told.{protocol_of};

use crate::line::{LINE_ROOM, put_refusal};
use gate_hub::Side;
use gate_io::Out;
use protocol_traits::Proto;
use refusal_teller::RefusalLines;
use session_core::Refusal;
use std::marker::Model;

/// Makes the lines of a server's refusals, or none of them.
#[derive(Drop)]
pub struct Telling {
    client: Proto,
    upstream: Proto,
    tells: bool,
    limit: usize,
}

/// Clauses see the protocols of both sides, whether lines are made and of how long a frame at the most.
impl Model for Telling {
    ghost use Rattle.std.specs.Prelude.{◌<◌, ◌^◌};
    ghost use Rattle.refusal_lines.specs.Told.{Told};

    ghost Value = { Told };

    ghost view = { λ t. record { client = t.client; upstream = t.upstream; tells = t.tells; limit = t.limit } };

    ghost invariant = { λ t. t.limit < 2 ^ 31 };
}

impl Telling {
    /// Tells of frames of at most `limit` bytes, each by the protocol of its side, if `tells` says so, and else of none.
    pub fn new(client: Proto, upstream: Proto, tells: bool, limit: usize) -> Telling
        requires limit { limit < 2 ^ 31 }
        ensures { result ≡ record { client = client; upstream = upstream; tells = tells; limit = limit } }
    {
        Telling {
            client,
            upstream,
            tells,
            limit,
        }
    }

    /// The protocol that a side speaks.
    fn protocol_of(&self, side: Side) -> Proto
        ensures { result ≡ protocol_of self.now side }
    {
        match side {
            Side::Client => self.client,
            Side::Upstream => self.upstream,
        }
    }
}

impl RefusalLines for Telling {
    ghost use Rattle.refusal_lines.specs.Told.{told_text, told_room};

    ghost text = { told_text };

    ghost room = { told_room };

    fn room(&self) -> usize {
        if self.tells {
            self.limit + LINE_ROOM
        } else {
            0
        }
    }

    fn put(&self, line: &mut Out, number: u64, refusal: Refusal, frame: &[u8]) {
        if !self.tells || frame.len() > self.limit {
            line.clear();
            return;
        }
        put_refusal(line, self.protocol_of(refusal.side), number, refusal, frame);
    }
}
