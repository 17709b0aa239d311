//! What is told of a frame that was refused.
ghost use Rattle.std.specs.Prelude.{◌<◌, ◌+◌, ◌∷◌, [], suc};
ghost use Rattle.session_core.specs.Fits.{told};
ghost use Rattle.session_core.specs.Notes.{note_of, refused_call, reply_notes_by};

use crate::router::MOST_TARGETS;
use gate_hub::Side;
use session_core::{Notes, Refusal};
use translate_verdicts::Cause;

/// Tells that the client's frame behind so many others is refused.
pub fn note_call<N: Notes>(notes: &mut N, taken: u64, cause: Cause, dropped: bool, frame: &[u8])
    ensures { N.tells notes.old notes.new (note_of (refused_call (told (taken + 1)) cause dropped) frame.now ∷ []) }
{
    let refusal = Refusal {
        side: Side::Client,
        port: 0,
        number: taken.saturating_add(1),
        cause,
        dropped,
    };
    notes.note(refusal, frame);
}

/// Tells that the frame of a target behind so many others is refused, where it is.
pub fn note_answer<N: Notes>(
    notes: &mut N,
    target: usize,
    taken: u64,
    refused: Option<Cause>,
    frame: &[u8],
)
    requires { target < MOST_TARGETS }
    ensures { N.tells notes.old notes.new (reply_notes_by (suc target) refused (told (taken + 1)) frame.now) }
{
    if let Some(cause) = refused {
        let refusal = Refusal {
            side: Side::Upstream,
            port: target as u32 + 1,
            number: taken.saturating_add(1),
            cause,
            dropped: false,
        };
        notes.note(refusal, frame);
    }
}
