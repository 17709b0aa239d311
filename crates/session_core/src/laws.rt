//! What a session has sent once nothing is left to do.
ghost use Rattle.std.specs.Prelude.{◌≡◌, ◌<◌};
ghost use Rattle.session_core.specs.Standing.{Standing, History};
ghost use Rattle.session_core.specs.Terms.{Terms, FitsBy, IsPaid, Due, AllWasSent, AllFrames, FrontsWereSent};

use framed_transport::frame_stands_at_the_front;

/// Where a session is at rest with no outcome and all that was due is sent, each side was sent what is due for all
/// that came.
pub fn all_that_is_due_was_sent()
    ensures { (t : Terms) (h : History) (s : Standing) → 0 < t.max_calls → IsPaid t h s → AllWasSent t h }
{
    frame_stands_at_the_front();
}

/// What each side was sent is a front of what all frames before the first halts give, whatever the session's state.
pub fn what_was_sent_is_a_front()
    ensures { (t : Terms) (h : History) (s : Standing) (all : AllFrames t h) → FitsBy t h s → FrontsWereSent t h all }
{
    frame_stands_at_the_front();
}

/// What is due for the bytes that came is one pair of lists.
pub fn what_is_due_is_one()
    ensures { (t : Terms) (h : History) (a b : Due t h) → (a.to_client ≡ b.to_client) × (a.to_upstream ≡ b.to_upstream) }
{
    frame_stands_at_the_front();
}
