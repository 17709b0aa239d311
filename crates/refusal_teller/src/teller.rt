//! Who writes the lines of the refused frames of a session.
ghost use Rattle.std.specs.Prelude.{◌≡◌, ℕ, List, ◌≤◌};
ghost use Rattle.session_core.specs.Notes.{Note};
ghost use Rattle.refusal_teller.specs.Tells.{Tells};
ghost use Rattle.refusal_teller.specs.Laws.{tells_none, tells_on};

use crate::lines::RefusalLines;
use gate_io::{Out, Sink, Wrote, write_all};
use session_core::{Notes, Refusal};

/// Writes the line of each refused frame of one session as soon as it is told of it, and nothing behind a line that could
/// not be written.
#[derive(Drop)]
pub struct Teller<'t, O, L: RefusalLines> {
    output: &'t mut O,
    line: &'t mut Out,
    lines: &'t L,
    number: u64,
    wrote: Wrote,
    ghost roomy: { L.room lines.now ≤ line.now.room },
}

impl<'t, O: Sink, L: RefusalLines> Teller<'t, O, L> {
    /// For the session of this number.
    pub fn over(output: &'t mut O, line: &'t mut Out, lines: &'t L, number: u64) -> Teller<'t, O, L>
        requires room { L.room lines.now ≤ line.old.room }
        ensures same_output { result.output.ghost_name ≡ output.entry.ghost_name }
        ensures same_line { result.line.ghost_name ≡ line.entry.ghost_name }
        ensures fresh { (result.output.now ≡ output.old) × (result.line.now ≡ line.old) × (result.wrote ≡ Wrote.All) }
        ensures of { (result.lines.now ≡ lines.now) × (result.number ≡ number) }
    {
        Teller {
            output,
            line,
            lines,
            number,
            wrote: Wrote::All,
        }
    }

    /// Whether each line was written.
    pub fn end(self) -> Wrote
        ensures wrote { result ≡ self.entry.wrote }
        ensures output { self.exit.0.now ≡ self.entry.output.now }
        ensures line { self.exit.1.0.now ≡ self.entry.line.now }
    {
        self.wrote
    }
}

impl<O: Sink, L: RefusalLines> Notes for Teller<'_, O, L> {
    ghost tells = { λ a b notes. Tells
        (record { output = a.output.ghost_name; line = a.line.ghost_name; room = a.line.now.room; text = L.text a.lines.now; number = a.number; wrote = a.wrote; written = O.written a.output.now; faults = O.faults a.output.now })
        (record { output = b.output.ghost_name; line = b.line.ghost_name; room = b.line.now.room; text = L.text b.lines.now; number = b.number; wrote = b.wrote; written = O.written b.output.now; faults = O.faults b.output.now })
        notes };

    fn note(&mut self, refusal: Refusal, frame: &[u8]) {
        match self.wrote {
            Wrote::All => {
                self.lines.put(self.line, self.number, refusal, frame);
                self.wrote = write_all(self.output, self.line.bytes());
            }
            Wrote::Failed => {}
        }
    }

    ghost stays = { λ a. tells_none _ };

    ghost follows = { λ a b c xs ys first second. tells_on _ _ _ xs ys first second };
}
