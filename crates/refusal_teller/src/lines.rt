//! How the line of a refused frame is spelled.
ghost use Rattle.std.specs.Prelude.{◌≡◌, ℕ, List, [], ◌≤◌};
ghost use Rattle.session_core.specs.Notes.{Note, note_of};

use gate_io::Out;
use session_core::Refusal;

/// How the line of a refused frame is spelled.
pub trait RefusalLines {
    /// The line of what is told of session `number`, with its end; no bytes where it isn't told.
    ghost text: { Self → ℕ → Note → List ℕ };

    /// The room that a line takes while it is made, for what is read of the frame too.
    ghost room: { Self → ℕ };

    /// The same as a number.
    fn room(&self) -> usize
        ensures { result ≡ room self.now };

    /// Makes the line of a frame of session `number` that is refused.
    fn put(&self, line: &mut Out, number: u64, refusal: Refusal, frame: &[u8])
        requires room { room self.now ≤ line.old.room }
        ensures { line.new ≡ record line.old { bytes = text self.now number (note_of refusal frame.now) } };
}

/// Tells no refusal.
#[derive(Clone, Copy)]
pub struct Untold;

impl RefusalLines for Untold {
    ghost use Rattle.std.specs.Prelude.{[]};

    ghost text = { λ lines number note. [] };

    ghost room = { λ lines. 0 };

    fn room(&self) -> usize {
        0
    }

    fn put(&self, line: &mut Out, _number: u64, _refusal: Refusal, _frame: &[u8]) {
        line.clear();
    }
}
