//! What a router has sent: whatever its state, and once nothing is left to do.
ghost use Rattle.std.specs.Prelude.{◌≡◌, ◌<◌, ℕ};
ghost use Rattle.service_router.specs.Standing.{Standing, History};
ghost use Rattle.service_router.specs.All.{Terms, FitsBy, AllOfClient, AllAnswers, TargetWasSent, ClientWasSent, IsPaid, Due, AllWasSent, CameTo, IsToldBy};
ghost use Rattle.service_router.specs.declared.outcome.RouteOutcome.{RouteOutcome};

use framed_transport::frame_stands_at_the_front;

/// What a target was sent is a front of what all frames of the client before the first that halts it give to that target.
pub fn what_a_target_was_sent_is_a_front()
    ensures { (t : Terms) (h : History) (s : Standing) (all : AllOfClient t h) (u : ℕ) → FitsBy t h s → TargetWasSent t h all u }
{
    frame_stands_at_the_front();
}

/// What the client was sent is a front of what all frames give: those of the client before the first that halts it, and the answers
/// in the order of its calls.
pub fn what_the_client_was_sent_is_a_front()
    ensures { (t : Terms) (h : History) (s : Standing) (all : AllOfClient t h) (answers : AllAnswers t h all) → FitsBy t h s → ClientWasSent t h all answers }
{
    frame_stands_at_the_front();
}

/// Where a router is at rest with no outcome and all that was due is sent, each port was sent all that is due to it for what came: no
/// stand has more frames of the client or more answers than the one that the router stands at.
pub fn a_router_at_rest_has_sent_all_that_is_due()
    ensures { (t : Terms) (h : History) (s : Standing) → 0 < t.max_calls → IsPaid t h s → AllWasSent t h }
{
    frame_stands_at_the_front();
}

/// What is due to a port for the bytes that came is one list.
pub fn what_is_due_to_a_port_is_one()
    ensures { (t : Terms) (h : History) (a b : Due t h) (port : ℕ) → a.to port ≡ b.to port }
{
    frame_stands_at_the_front();
}

/// An outcome says what is so of the router that came to it: which port halts or has ended, the number of its next frame or of the calls
/// that are open to it, and that no call is open where the client's end is told.
pub fn an_outcome_says_what_is_so()
    ensures { (t : Terms) (h : History) (s : Standing) (o : RouteOutcome) (fits : FitsBy t h s) → CameTo t s o → IsToldBy t h s fits o }
{}
