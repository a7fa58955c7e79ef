//! The connections of a campaign's loop, over the kit's `mio`: one thread, one epoll.
//!
//! [`CampaignSockets`] opens a connection for each place that the loop begins, sends its messages,
//! and reports which places can go on. Each connection has a limit for its opening and one as a
//! whole; a late one ends, and holds up no other. Host names are looked up before the first
//! connection.
#![tactic(auto)]

mod errors;
mod hosts;
mod line;
mod outbox;
mod sockets;
#[cfg(test)]
mod tests;
mod timers;

pub use sockets::{CampaignSockets, ConnectionLimits};
