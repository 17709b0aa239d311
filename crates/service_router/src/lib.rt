//! A router between a client and the upstreams of several services.
//!
//! Each call of a multiplexed client goes to the target that serves the name before its method's, without that name, and the
//! answers come back in the order of the calls. To its client and to the target of its oldest open call a router is what a
//! session is to its two sides.
#![tactic(auto)]

mod call;
mod judge;
mod laws;
mod noting;
mod outcome;
mod port;
mod router;
mod state;

pub use call::OpenCall;
pub use laws::{
    a_router_at_rest_has_sent_all_that_is_due, an_outcome_says_what_is_so,
    what_a_target_was_sent_is_a_front, what_is_due_to_a_port_is_one,
    what_the_client_was_sent_is_a_front,
};
pub use outcome::RouteOutcome;
pub use router::{MOST_TARGETS, Router};
