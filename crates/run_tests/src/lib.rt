//! Tests of whole runs, a meter whose sources are lists, with clients in memory; of the thresholds
//! that its sampler scans blocks with; and of calls that are refused memory.
//!
//! Tests are in a crate of their own because a check of tests proves their whole crate again.
#![tactic(auto)]

#[cfg(test)]
mod clients;
#[cfg(test)]
mod meters;
#[cfg(test)]
mod refusals;
#[cfg(test)]
mod runs;
#[cfg(test)]
mod sampling;
#[cfg(test)]
mod sources;
#[cfg(test)]
mod traces;
