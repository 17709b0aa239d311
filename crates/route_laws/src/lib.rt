//! What a server of routed connections carries over each session, in the words of a router's laws.
//!
//! Each law is the contract of a function that does nothing. The code rests on none of them.
#![tactic(auto)]

ghost use Rattle.gate_hub.specs.declared.hub.Served.{Served};
ghost use Rattle.route_laws.specs.Routed.{Given, Routes};

use gate_fan::Fan;
use gate_io::Sink;
use service_router::{
    a_router_at_rest_has_sent_all_that_is_due, an_outcome_says_what_is_so,
    what_a_target_was_sent_is_a_front, what_the_client_was_sent_is_a_front,
};

/// A server routes messages. For each meaning of a fan that has started there is one when the server has ended, in which each session
/// that was announced has a line that says how it ended, and a course that goes with it: each target was sent a front of what the
/// client's frames give to it, and the client one of what they and the answers in the order of its calls give. A session that came to
/// an end has an outcome that says what is so. One that was left open was sent all that is due for what came, where all ports can be
/// written to and the budget isn't spent.
pub fn a_server_routes_messages<M: Fan, O: Sink>()
    ensures { (g : Given) (fan fan' : M) (output output' : O) (result : Served) → Routes M.Fan O.Sink g fan output fan' output' result }
{
    what_a_target_was_sent_is_a_front();
    what_the_client_was_sent_is_a_front();
    a_router_at_rest_has_sent_all_that_is_due();
    an_outcome_says_what_is_so();
}
