//! Tests of the crates for lists, streams, words, frames and blocks (`wire_bytes`, `counted_io`,
//! `text_lines`, `wrapper_frame`, `xdlms_blocks`) and of the standard's encodings: `cosem_axdr`
//! (A-XDR), `acse_ber` (BER) and `xdlms_apdu` read and write texts of the standards.
//! tests/unproved/long_tests has those that go through every length or place.
//!
//! The tests have a crate of their own because a check of tests also proves the rest of their
//! crate.
#![tactic(auto)]

#[cfg(test)]
mod acse;
#[cfg(test)]
mod apdu;
#[cfg(test)]
mod apdu_reading;
#[cfg(test)]
mod axdr;
#[cfg(test)]
mod conformance;
#[cfg(test)]
mod counted;
#[cfg(test)]
mod frames;
#[cfg(test)]
mod input_lines;
#[cfg(test)]
mod lists;
#[cfg(test)]
mod numbers;
#[cfg(test)]
mod reader;
#[cfg(test)]
mod words;
