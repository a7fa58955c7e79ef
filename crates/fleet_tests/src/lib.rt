//! Tests of meters in one process, without threads. Of `embedded_meter`: its events and its trace.
//! Of `fleet_links` and `fleet_meters`: addresses, terms, and the events of a fleet's meters. Of
//! `fleet_faults`: draws, words of the command line, streams with each fault, and events that are
//! held back. tests/unproved/long_tests has sessions, connections and the console, whose proofs
//! would cost more; tests/firmware.py tests the C library, and tests/fleet.py a fleet over sockets.
//!
//! Tests are in a crate of their own because a check of tests proves their whole crate again.
#![tactic(auto)]

#[cfg(test)]
mod addresses;
#[cfg(test)]
mod delays;
#[cfg(test)]
mod draws;
#[cfg(test)]
mod fleet_events;
#[cfg(test)]
mod meter_events;
#[cfg(test)]
mod meters;
#[cfg(test)]
mod silent_fleets;
#[cfg(test)]
mod streams;
#[cfg(test)]
mod terms;
