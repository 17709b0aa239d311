//! What is written to a side without lengths: the frames, of which the content is passed on.
ghost use Rattle.std.specs.Prelude.{◌≡◌, ◌+◌, ◌<◌, ◌≤◌, length, take};
ghost use Rattle.stream_messages.specs.Stripping.{StripperState, IsBehindLength, IsBehindContent, new_stripper};

use std::marker::Model;

/// A length has so many bytes.
const LENGTH: usize = 4;

/// How far the frame has come that is written: fewer than four bytes of its length, or all, and so many bytes of its content are left.
#[derive(Drop)]
pub struct Stripper {
    head: [u8; LENGTH],
    known: usize,
    left: usize,
}

impl Model for Stripper {
    ghost use Rattle.std.specs.Prelude.{◌≡◌, ◌<◌, length, take};
    ghost use Rattle.stream_messages.specs.Stripping.{StripperState};

    ghost Value = { StripperState };

    ghost view = { λ s. record { length_bytes = take s.known s.head; left = s.left } };

    ghost invariant = { λ s. (s.known < 4) × (length s.head ≡ 4) };
}

impl Stripper {
    /// Before the first frame.
    pub fn new() -> Stripper
        ensures { result ≡ new_stripper }
    {
        Stripper {
            head: [0; LENGTH],
            known: 0,
            left: 0,
        }
    }

    /// How many bytes of the content are left.
    pub fn left(&self) -> usize
        ensures { result ≡ self.now.left }
    {
        self.left
    }

    /// How far it has come behind the bytes of a length with which these begin, and how many those are.
    pub fn behind_length(&self, from: &[u8]) -> (Stripper, usize)
        ensures within { result.1 ≤ length from.now }
        ensures some { result.0.left ≡ 0 → 0 < length from.now → 0 < result.1 }
        ensures behind { IsBehindLength self.now (take result.1 from.now) result.0 }
    {
        if self.left > 0 {
            return (self.passed(0), 0);
        }
        let count = (LENGTH - self.known).min(from.len());
        let mut head = self.head;
        head[self.known..self.known + count].copy_from_slice(&from[..count]);
        let known = self.known + count;
        if known < LENGTH {
            let behind = Stripper {
                head,
                known,
                left: 0,
            };
            return (behind, count);
        }
        let behind = Stripper {
            head,
            known: 0,
            left: u32::from_be_bytes(head) as usize,
        };
        (behind, count)
    }

    /// How far it has come behind so many bytes of the content, of which as many must be left.
    pub fn passed(&self, count: usize) -> Stripper
        requires { count ≤ self.now.left }
        ensures behind { IsBehindContent self.now count result }
        ensures left { result.left + count ≡ self.now.left }
    {
        Stripper {
            head: self.head,
            known: self.known,
            left: self.left - count,
        }
    }
}
