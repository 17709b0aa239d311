//! How a turn of a routed connection ends.
use service_router::RouteOutcome;

/// How a turn of a routed connection ended.
#[derive(Clone, Copy)]
pub enum RouteTurn {
    /// Nothing can be moved before the fan names the session again.
    Settled,
    /// Enough was moved for one turn.
    More,
    /// The connection has ended, or a read or a write failed: `RouteOutcome::LinkFault`.
    Ended(RouteOutcome),
}
