//! `Trace`: a saved state of a core and the events after it, enough to replay a run.
use relay_core::Opening;
use relay_events::Events;

/// A recorded run: the saved state of the core before its first event, and the events in order.
#[derive(Debug, Drop)]
pub struct Trace {
    /// The state of the core before the first event.
    pub opening: Opening,
    /// The events, the first one first.
    pub events: Events,
}
