//! Tests of the traces: the openings and lines of `trace_words`, `trace_openings` and
//! `trace_lines`; the traces that `trace_player` reads, writes and plays; the views of
//! `trace_views`; and the records of `record_parts` and `trace_records`. tests/unproved/long_tests
//! has the line of each event and reply, and the traces that a recorder exports: few crates should
//! drop an event, whose proof is long.
//!
//! The tests have a crate of their own because a check of tests also proves the rest of their
//! crate.
#![tactic(auto)]

#[cfg(test)]
mod journals;
#[cfg(test)]
mod openings;
#[cfg(test)]
mod parts;
#[cfg(test)]
mod plays;
#[cfg(test)]
mod record_views;
#[cfg(test)]
mod records;
#[cfg(test)]
mod views;
#[cfg(test)]
mod writing;
