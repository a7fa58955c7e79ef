//! The sockets of a fleet of meters, in one event loop over the kit's `mio`.
//!
//! [`FleetSockets`] is the `meter_fleet::Network` of one listening socket: it accepts clients,
//! reports which connections are ready and which were idle for too long, and runs the console on
//! standard input.
#![tactic(auto)]

mod activity;
mod socket;
mod sockets;

pub use activity::ActivityTimes;
pub use socket::Socket;
pub use sockets::{FleetSockets, TimeLimits};
