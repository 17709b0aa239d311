//! Numbers that are drawn one after another from a state.
ghost use Rattle.std.specs.Prelude.{◌≡◌, ◌<◌, ◌^◌, map};
ghost use Rattle.drill_messages.specs.Draws.{stepped, draw, some, behind_some};
ghost use Rattle.drill_messages.specs.Messages.{id_of, letter_of, byte_of, mark_of, flag_of, name_from};

use crate::sizes::{MOST_FLAGS, MOST_LETTERS, MOST_MARKS, MOST_RAW};
use arrayvec::ArrayVec;

/// A linear congruential generator modulo 2^64, with the constants of Knuth's MMIX.
#[derive(Drop)]
pub struct Draws {
    state: u64,
}

impl Draws {
    /// The generator in this state.
    pub fn new(state: u64) -> Draws
        ensures { result.state ≡ state }
    {
        Draws { state }
    }

    /// The next number, of 31 bits.
    #[inline(always)]
    pub fn draw(&mut self) -> u64
        ensures drawn { result ≡ draw self.old.state }
        ensures state { self.new.state ≡ stepped self.old.state }
        ensures short { result < 2 ^ 31 }
    {
        self.state = self
            .state
            .wrapping_mul(6364136223846793005)
            .wrapping_add(1442695040888963407);
        self.state >> 33
    }

    /// The id of an item: a number of 62 bits about 0.
    #[inline]
    pub fn id(&mut self) -> i64
        ensures drawn { result ≡ id_of self.old.state }
        ensures state { self.new.state ≡ name_from self.old.state }
    {
        let high = self.draw();
        let low = self.draw();
        (high * (1 << 31) + low) as i64 - (1 << 61)
    }

    /// Fewer than 12 small letters.
    #[inline]
    pub fn letters(&mut self) -> ArrayVec<u8, MOST_LETTERS>
        ensures drawn { result.items ≡ map letter_of (some 12 self.old.state) }
        ensures state { self.new.state ≡ behind_some 12 self.old.state }
    {
        let count = self.draw() % 12;
        let mut letters = ArrayVec::new();
        for place in 0..count {
            letters.push(b'a' + (self.draw() % 26) as u8);
        }
        letters
    }

    /// Fewer than 16 bytes.
    #[inline]
    pub fn bytes(&mut self) -> ArrayVec<u8, MOST_RAW>
        ensures drawn { result.items ≡ map byte_of (some 16 self.old.state) }
        ensures state { self.new.state ≡ behind_some 16 self.old.state }
    {
        let count = self.draw() % 16;
        let mut bytes = ArrayVec::new();
        for place in 0..count {
            bytes.push((self.draw() % 256) as u8);
        }
        bytes
    }

    /// The numbers of an item's list `marks`, fewer than 6.
    #[inline]
    pub fn marks(&mut self) -> ArrayVec<i32, MOST_MARKS>
        ensures drawn { result.items ≡ map mark_of (some 6 self.old.state) }
        ensures state { self.new.state ≡ behind_some 6 self.old.state }
    {
        let count = self.draw() % 6;
        let mut marks = ArrayVec::new();
        for place in 0..count {
            marks.push(self.draw() as i32 - (1 << 30));
        }
        marks
    }

    /// Fewer than 4 flags.
    #[inline]
    pub fn flags(&mut self) -> ArrayVec<bool, MOST_FLAGS>
        ensures drawn { result.items ≡ map flag_of (some 4 self.old.state) }
        ensures state { self.new.state ≡ behind_some 4 self.old.state }
    {
        let count = self.draw() % 4;
        let mut flags = ArrayVec::new();
        for place in 0..count {
            flags.push(self.draw() % 2 == 1);
        }
        flags
    }
}
