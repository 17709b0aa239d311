//! The segments of a file's name.
ghost use Rattle.std.specs.Prelude.{◌≡◌, ◌≤◌, ◌&&◌, ◌==◌, [], drop, length, position, IfOk, OnOk};
ghost use Rattle.std.specs.List.{fold};
ghost use Rattle.idl_files.specs.Names.{ended_from, last_from, is_here, is_up, is_plain, ends_plain, kept_with, spelled};

use gate_base::{OutOfMemory, Text};
use std::alloc::Global;
use std::marker::Model;

/// Segments, none of which is a `.`, and none of which is plain before a `..`.
#[derive(Drop)]
pub(crate) struct Segments {
    list: Vec<Text>,
}

impl Model for Segments {
    ghost use Rattle.std.specs.Prelude.{ℕ, List};

    ghost Value = { List (List ℕ) };

    ghost view = { λ s. s.list.items };
}

impl Segments {
    pub(crate) fn new(alloc: Global) -> Segments
        ensures { result ≡ [] }
    {
        Segments {
            list: Vec::new(alloc),
        }
    }

    /// Keeps one more segment.
    pub(crate) fn keep(&mut self, alloc: Global, segment: &[u8]) -> Result<(), OutOfMemory>
        ensures { OnOk result (self.new ≡ kept_with self.old segment.now) }
    {
        if is_here(segment) {
            return Ok(());
        }
        if self.is_taken_back(segment) {
            self.list.pop();
            return Ok(());
        }
        self.list.push(Text::new(alloc, segment)?)?;
        Ok(())
    }

    /// Keeps the segments of a name that a slash ends, and tells where the last one begins.
    pub(crate) fn keep_ended(&mut self, alloc: Global, name: &[u8]) -> Result<usize, OutOfMemory>
        ensures within { IfOk result (λ last. last ≤ length name.now) }
        ensures last { IfOk result (λ last. drop last name.now ≡ last_from [] name.now) }
        ensures kept { OnOk result (self.new ≡ fold kept_with self.old (ended_from [] name.now)) }
    {
        let mut from = 0;
        'segments: while let Some(len) = slash_at(&name[from..]) {
            self.keep(alloc, &name[from..from + len])?;
            from += len + 1;
        }
        Ok(from)
    }

    /// The segments with slashes between them.
    pub(crate) fn spelled(&self, alloc: Global) -> Result<Text, OutOfMemory>
        ensures { IfOk result (λ name. name ≡ spelled self.now) }
    {
        let Some((first, rest)) = self.list.as_slice().split_first() else {
            return Text::new(alloc, b"");
        };
        let mut name = Vec::from_slice(alloc, first.as_slice())?;
        for segment in rest {
            name.push(b'/')?;
            name.extend_from_slice(segment.as_slice())?;
        }
        Text::new(alloc, &name)
    }

    // The segment is a `..` that takes the last one away.
    fn is_taken_back(&self, segment: &[u8]) -> bool
        ensures { result ≡ (is_up segment.now && ends_plain self.now) }
    {
        if !is_up(segment) {
            return false;
        }
        match self.list.last() {
            Some(last) => is_plain(last.as_slice()),
            None => false,
        }
    }
}

// The place of the first slash.
fn slash_at(bytes: &[u8]) -> Option<usize>
    ensures { result ≡ position (λ b. b == 47) bytes.now }
{
    bytes.iter().position(|b| *b == b'/')
}

fn is_here(segment: &[u8]) -> bool
    ensures { result ≡ is_here segment.now }
{
    segment == b".".as_slice()
}

fn is_up(segment: &[u8]) -> bool
    ensures { result ≡ is_up segment.now }
{
    segment == b"..".as_slice()
}

fn is_plain(segment: &[u8]) -> bool
    ensures { result ≡ is_plain segment.now }
{
    match segment {
        [] => false,
        [_, ..] => !is_up(segment),
    }
}
