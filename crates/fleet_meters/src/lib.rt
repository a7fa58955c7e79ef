//! A fleet: many meters, and a table of the connections of their clients.
//!
//! A meter is made when its first client connects. Each connection has a session of its meter for
//! itself, and what it does leaves the sessions of all other connections unchanged.
//!
//! `specs/Law.antt` has the theorems over any number of calls: each connection gets the frames of
//! its session, and each meter's history is that of its own calls.
#![tactic(auto)]

mod client;
mod fleet;
mod law;
mod place;
mod states;
mod terms;

pub use client::FleetClient;
pub use fleet::Fleet;
pub use law::{answered_connections, moments_of_fleets, separate_histories};
pub use place::{AccessFault, Refusal};
pub use terms::{FleetTerms, MeterTerms};
