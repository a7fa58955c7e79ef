//! Tests of `durable_lines`: files that a crash tears, and files that are replaced as a whole.
//! tests/journal.py plays files of the operating system over the proved server: locks, failed
//! calls, drafts, and the files that were replaced.
//!
//! The tests have a crate of their own because a check of tests also proves the rest of their
//! crate.
#![tactic(auto)]

#[cfg(test)]
mod replaced_files;
#[cfg(test)]
mod torn_lines;
