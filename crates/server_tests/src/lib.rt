//! Tests of `shared_meter` and `meter_server`: ports of one meter, the lines of its journal, and
//! all threads that use it.
//! tests/serving.py and tests/hostile.py have many more clients over TCP, which costs no proof.
//!
//! Tests are in a crate of their own because a check of tests proves their whole crate again.
#![tactic(auto)]

#[cfg(test)]
mod kept;
#[cfg(test)]
mod lines;
#[cfg(test)]
mod ports;
#[cfg(test)]
mod serving;
