//! The requests of a session to its caller: reply to an event, send a frame, feed more input, or
//! nothing more.
use crate::end::SessionEnd;
use cosem_axdr::Octets;
use relay_events::Event;

/// The next thing that a session needs from its caller.
#[derive(Debug, Drop)]
pub enum Next {
    /// The meter's reply to this event.
    Ask(Event),
    /// This frame must be sent to the client.
    Send(Octets),
    /// The reply to the last event, or more input.
    Wait,
    /// Nothing: the session is over.
    End(SessionEnd),
}
