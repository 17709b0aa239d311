//! Laws of streams of frames. Each is the contract of a function that does nothing.
ghost use Rattle.std.specs.Prelude.{◌≡◌, ◌<◌, ◌≤◌, ◌^◌, ◌+◌, ◌++◌, false, ℕ, ℤ, List, length};
ghost use Rattle.framed_transport.specs.Frames.{framed, IsCut, Splitting};
ghost use Rattle.framed_transport.specs.Front.{front, Whole, Large, is_part};
ghost use Rattle.gate_base.specs.Bytes.{AreBytes};

/// A frame on the stream is the frame at its front.
pub fn frame_stands_at_the_front()
    ensures { (limit : ℕ) (frame rest : List ℕ) → limit < 2 ^ 31 → length frame ≤ limit → front limit (framed frame ++ rest) ≡ Whole frame rest }
{}

/// Where a buffer is full, more than a part of a frame stands at its front.
pub fn a_full_buffer_holds_a_frame()
    ensures { (limit : ℕ) (held : List ℕ) → length held ≡ limit + 4 → is_part (front limit held) ≡ false }
{}

/// A length that is too large stays so as more comes.
pub fn a_length_too_large_stays()
    ensures { (limit : ℕ) (held more : List ℕ) (n : ℤ) → front limit held ≡ Large n → front limit (held ++ more) ≡ Large n }
{}

/// A whole frame stays as more comes.
pub fn a_whole_frame_stays()
    ensures { (limit : ℕ) (held frame rest more : List ℕ) → limit < 2 ^ 31 → IsCut limit held frame rest → front limit (held ++ more) ≡ Whole frame (rest ++ more) }
{}

/// Each stream is some frames and a rest that begins with none.
pub fn a_stream_is_split()
    ensures { (limit : ℕ) (bytes : List ℕ) → limit < 2 ^ 31 → AreBytes bytes → Splitting limit bytes }
{}

/// A stream is split in no two ways.
pub fn one_splitting()
    ensures { (limit : ℕ) (bytes : List ℕ) → limit < 2 ^ 31 → (a b : Splitting limit bytes) → (a.frames ≡ b.frames) × (a.rest ≡ b.rest) }
{}
