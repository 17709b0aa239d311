//! Laws of streams of messages. Each is the contract of a function that does nothing.
ghost use Rattle.std.specs.Prelude.{◌≡◌, ◌<◌, ◌≤◌, ◌^◌, ◌+◌, ◌++◌, ◌↔◌, [], ◌∷◌, ℕ, List, length};
ghost use Rattle.framed_transport.specs.Frames.{Splits};
ghost use Rattle.gate_base.specs.Bytes.{AreBytes};
ghost use Rattle.line_transport.specs.Cuts.{Messages, AreMessages, on_lines, IsCut, Cuts, CutsAll, Cutting};
ghost use Rattle.line_transport.specs.Front.{front, Whole, Exceeds};
ghost use Rattle.line_transport.specs.declared.transport.Excess.{Excess};
ghost use Rattle.line_transport.specs.declared.transport.Transport.{Transport};
ghost use Rattle.line_transport.specs.declared.transport.Transport.TheVariants.{Frames, Lines};

/// A frame or a line on the stream is the one at its front.
pub fn a_message_stands_at_the_front()
    ensures { (t : Transport) (limit : ℕ) (bytes piece rest : List ℕ) → limit < 2 ^ 31 → IsCut t limit bytes piece rest → front t limit bytes ≡ Whole piece rest }
{}

/// What no message may begin with stays so as more comes.
pub fn excess_stays()
    ensures { (t : Transport) (limit : ℕ) (held more : List ℕ) (e : Excess) → front t limit held ≡ Exceeds e → front t limit (held ++ more) ≡ Exceeds e }
{}

/// Each stream is some messages and a rest that begins with none.
pub fn a_stream_is_cut()
    ensures { (t : Transport) (limit : ℕ) (bytes : List ℕ) → limit < 2 ^ 31 → AreBytes bytes → Cutting t limit bytes }
{}

/// A stream is cut in no two ways.
pub fn one_cutting()
    ensures { (t : Transport) (limit : ℕ) (bytes : List ℕ) → limit < 2 ^ 31 → (a b : Cutting t limit bytes) → (a.messages ≡ b.messages) × (a.rest ≡ b.rest) }
{}

/// A stream of frames is cut as the transport of frames says.
pub fn frames_are_cut()
    ensures { (limit : ℕ) (bytes : List ℕ) (frames : List (List ℕ)) (rest : List ℕ) → Cuts Frames limit bytes frames rest ↔ Splits limit bytes frames rest }
{}

/// Lines that are written are cut into the same messages again, where none of them is blank: as they were written, and where the last LF is
/// missing.
pub fn lines_are_cut_back()
    ensures whole { (limit : ℕ) (lines : Messages) → AreMessages limit lines → CutsAll Lines limit (on_lines lines) lines }
    ensures last { (limit : ℕ) (lines : Messages) (last : List ℕ) → AreMessages limit (last ∷ lines)
        → CutsAll Lines limit (on_lines lines ++ last) (lines ++ last ∷ []) }
{}
