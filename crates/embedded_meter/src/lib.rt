//! One supply meter: its core with the last events, and up to eight sessions of clients.
//!
//! The caller passes in the bytes of each session, presses of the button, samples and moments, and
//! takes the frames that must be sent. Running out of memory loses nothing: the same call can be
//! repeated.
#![tactic(auto)]

mod connection;
mod fault;
mod given;
mod pending;
mod supply_meter;
mod traces;

pub use fault::MeterFault;
pub use given::{Fired, Given, Tick};
pub use supply_meter::{SESSIONS, SupplyMeter};
pub use trace_player::TraceFault;
