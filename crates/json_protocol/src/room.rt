//! The room that strings are unescaped and decoded into.
ghost use Rattle.std.specs.Prelude.{◌≡◌, ℕ, ◌+◌, ◌≤◌, ◌<◌, ◌^◌, length};
ghost use Rattle.protocol_traits.specs.Steps.{seen};
ghost use Rattle.json_protocol.specs.Scan.{IsWithin, string_scan, Keeps};
ghost use Rattle.json_protocol.specs.Words.{text_in, blob_in};

use json_text::{Scan, read_blob, read_text};
use protocol_traits::{Fault, Reason, fault_at};
use std::marker::Model;
use std::mem;

/// The bytes that no string has been laid into yet.
#[derive(Drop)]
pub struct Room<'f> {
    room: &'f mut [u8],
}

/// Clauses see how many bytes are left.
impl<'f> Model for Room<'f> {
    ghost use Rattle.std.specs.Prelude.{ℕ, length};

    ghost Value = { ℕ };

    ghost view = { λ r. length r.room.now };
}

impl<'f> Room<'f> {
    pub fn new(room: &'f mut [u8]) -> Room<'f>
        ensures { result ≡ length room.old }
    {
        Room { room }
    }

    /// The string at the front of the bytes.
    #[tactic(auto, unfolding(crate::specs::Words::text_in))]
    pub fn text(&mut self, bytes: &[u8]) -> Result<(&'f [u8], usize), Fault>
        requires { length bytes.now ≤ self.old }
        ensures within { IsWithin (length bytes.now) result }
        ensures exact { seen string_scan result ≡ text_in bytes.now }
        ensures room { Keeps (length bytes.now) self.old self.new result }
    {
        let room = mem::take(&mut self.room);
        match read_text(bytes, 0, &mut *room) {
            Scan::Whole(count, end) => {
                let (front, rest) = room.split_at_mut(count);
                self.room = rest;
                Ok((front, end))
            }
            Scan::Short => {
                self.room = room;
                Err(fault_at(bytes.len(), Reason::Truncated))
            }
            Scan::Bad(place) => {
                self.room = room;
                Err(fault_at(place, Reason::BadString))
            }
        }
    }

    /// The base64 string at the front of the bytes.
    #[tactic(auto, unfolding(crate::specs::Words::blob_in))]
    pub fn blob(&mut self, bytes: &[u8]) -> Result<(&'f [u8], usize), Fault>
        requires room { length bytes.now ≤ self.old }
        requires size { length bytes.now < 2 ^ 62 }
        ensures within { IsWithin (length bytes.now) result }
        ensures exact { seen string_scan result ≡ blob_in bytes.now }
        ensures room { Keeps (length bytes.now) self.old self.new result }
    {
        let room = mem::take(&mut self.room);
        match read_blob(bytes, 0, &mut *room) {
            Scan::Whole(count, end) => {
                let (front, rest) = room.split_at_mut(count);
                self.room = rest;
                Ok((front, end))
            }
            Scan::Short => {
                self.room = room;
                Err(fault_at(bytes.len(), Reason::Truncated))
            }
            Scan::Bad(place) => {
                self.room = room;
                Err(fault_at(place, Reason::BadBase64))
            }
        }
    }
}
