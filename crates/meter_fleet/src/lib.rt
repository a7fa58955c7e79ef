//! The loop of a fleet of meters: waits for the network, closes the connections that were idle for
//! too long, admits clients, and runs the connections that are ready.
//!
//! It owns the fleet, and reaches the network through the trait [`Network`].
#![tactic(auto)]

mod clients;
mod connections;
mod idle;
mod law;
mod network;
mod rounds;
mod serving;

pub use law::lawful_rounds;
pub use network::{Network, NetworkFault, NextClient};
pub use serving::{FleetFault, serve_fleet};
