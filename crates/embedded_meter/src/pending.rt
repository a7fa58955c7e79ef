//! The pending item of a session: an event to apply, a reply to pass on, or a frame to send.
use cosem_axdr::Octets;
use relay_events::{Event, Reply};

// The pending item between a session and the meter, or between a session and its client.
#[derive(Drop)]
pub(crate) enum Pending {
    // No item is pending.
    Nothing,
    // An event that the session requested and that the meter has not applied yet.
    Asked(Event),
    // The meter's reply to that event, which the session has not received yet.
    Answered(Reply),
    // A frame that has not been passed to the caller yet.
    Due(Octets),
}
