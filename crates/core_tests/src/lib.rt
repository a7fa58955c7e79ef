//! Tests of the objects and the core. Of `cosem_names`, `cosem_datetime`, `disconnect_control`,
//! `limiter_core`, `lane_sampler`, `script_steps`, `action_schedule` and `limiter_attributes`:
//! worked values of names, rights and object lists, attributes as they are read and written, dates
//! and the moments that they match, the switch, the runs of a limiter, and blocks of samples. Of
//! `relay_core`: the parts of an event. tests/object_rows.py and tests/core_rows.py play many more
//! over the proved executable, and tests/unproved/long_tests has blocks of each length, events,
//! runs and recorders: these cost no proof.
//!
//! The tests have a crate of their own because a check of tests also proves the rest of their
//! crate.
#![tactic(auto)]

#[cfg(test)]
mod controls;
#[cfg(test)]
mod cores;
#[cfg(test)]
mod date_fields;
#[cfg(test)]
mod dates;
#[cfg(test)]
mod lanes;
#[cfg(test)]
mod limiter_texts;
#[cfg(test)]
mod limiters;
#[cfg(test)]
mod names;
#[cfg(test)]
mod numbers;
#[cfg(test)]
mod schedules;
#[cfg(test)]
mod scripts;
#[cfg(test)]
mod texts;
