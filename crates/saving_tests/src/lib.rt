//! Tests of journals: the worker, with what a file has after a save and after a crash, and what a
//! session learns that waits for its lines; the files, which are renewed also while their meter
//! runs, with what a crash at each moment leaves, in memory. Also tests the relay that is given
//! the changes of the supply output. tests/journal.py plays journals of the operating system:
//! begun, left by a killed server, resumed, refused, and renewed.
//!
//! Tests are in a crate of their own because a check of tests proves their whole crate again.
#![tactic(auto)]

#[cfg(test)]
mod fronts;
#[cfg(test)]
mod meters;
#[cfg(test)]
mod relays;
#[cfg(test)]
mod renewals;
#[cfg(test)]
mod renewing;
#[cfg(test)]
mod runs;
#[cfg(test)]
mod saving;
#[cfg(test)]
mod settling;
#[cfg(test)]
mod texts;
#[cfg(test)]
mod waiting;
