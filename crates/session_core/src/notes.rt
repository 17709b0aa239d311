//! Who is told of each frame that is refused.
ghost use Rattle.std.specs.Prelude.{◌≡◌, ℕ, List, [], ◌∷◌, ◌++◌};
ghost use Rattle.session_core.specs.Notes.{Note, note_of, refused_call, reply_notes_by};

use gate_hub::Side;
use translate_verdicts::Cause;

/// A frame that is refused.
#[derive(Clone, Copy)]
pub struct Refusal {
    /// Whose frame it is.
    pub side: Side,
    /// Which upstream's, where there are several: its port, and 0 else.
    pub port: u32,
    /// Which frame of its side: counted from 1, and a number that does not fit stands at 2^64 - 1.
    pub number: u64,
    pub cause: Cause,
    /// Nothing goes back for it.
    pub dropped: bool,
}

/// Who is told of each frame that is refused, at the step that refuses it.
pub trait Notes {
    /// From one moment to a later one it was told these, in this order.
    ghost tells: { Self → Self → List Note → Type 0 };

    /// A frame was refused.
    fn note(&mut self, refusal: Refusal, frame: &[u8])
        ensures told { tells self.old self.new (note_of refusal frame.now ∷ []) };

    /// Where nothing was done, nothing was told.
    ghost stays: { (a : Self) → tells a a [] };

    /// What was told on the way to a moment, and then from there.
    ghost follows: { (a b c : Self) (xs ys : List Note) → tells a b xs → tells b c ys → tells a c (xs ++ ys) };
}

/// Is told of refusals, and keeps nothing of them.
#[derive(Clone, Copy)]
pub struct Silent;

impl Notes for Silent {
    ghost use Rattle.std.specs.Prelude.{⊤};

    ghost tells = { λ a b notes. ⊤ };

    fn note(&mut self, _refusal: Refusal, _frame: &[u8]) {}

    ghost stays = { λ a. tt };

    ghost follows = { λ a b c xs ys first second. tt };
}

/// Tells that a frame of the client is refused.
pub fn note_call<N: Notes>(notes: &mut N, number: u64, cause: Cause, dropped: bool, frame: &[u8])
    ensures { N.tells notes.old notes.new (note_of (refused_call number cause dropped) frame.now ∷ []) }
{
    let refusal = Refusal {
        side: Side::Client,
        port: 0,
        number,
        cause,
        dropped,
    };
    notes.note(refusal, frame);
}

/// Tells that a frame of the upstream is refused, where it is.
pub fn note_reply<N: Notes>(notes: &mut N, number: u64, refused: Option<Cause>, frame: &[u8])
    ensures { N.tells notes.old notes.new (reply_notes_by 0 refused number frame.now) }
{
    if let Some(cause) = refused {
        let refusal = Refusal {
            side: Side::Upstream,
            port: 0,
            number,
            cause,
            dropped: false,
        };
        notes.note(refusal, frame);
    }
}
