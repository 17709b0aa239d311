//! The contents of several frames, put together so that one write carries them.
ghost use Rattle.std.specs.Prelude.{◌≡◌, ◌<◌, length};
ghost use Rattle.stream_messages.specs.Gathering.{IsGathered};

use crate::stripper::Stripper;

/// What was gathered: so many bytes of contents of the first bytes of frames, so many, and how far the last of these has come.
#[derive(Drop)]
pub struct Gathered {
    pub behind: Stripper,
    pub taken: usize,
    pub filled: usize,
}

/// Gathers the contents of the frames in a room, behind what was written before, until all are there or the room is full.
pub fn gather(stripper: &Stripper, from: &[u8], into: &mut [u8]) -> Gathered
    ensures size { length into.new ≡ length into.old }
    ensures gathered { IsGathered stripper.now from.now into.new result }
    ensures full { result.taken < length from.now → result.filled ≡ length into.new }
{
    let mut behind = stripper.passed(0);
    let mut taken = 0;
    let mut filled = 0;
    'frames: while taken < from.len() && filled < into.len() {
        let (next, head) = behind.behind_length(&from[taken..]);
        let at = taken + head;
        let count = next.left().min(from.len() - at).min(into.len() - filled);
        into[filled..filled + count].copy_from_slice(&from[at..at + count]);
        behind = next.passed(count);
        taken = at + count;
        filled += count;
    }
    Gathered {
        behind,
        taken,
        filled,
    }
}
