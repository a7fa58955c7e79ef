//! The client's side of one job at a meter: it opens an association, sends one request, and
//! releases the association (IEC 62056-5-3, IEC 62056-4-7).
//!
//! A [`Client`] performs no I/O. The program around it sends what [`Client::to_send`] returns,
//! feeds it the bytes of the meter's connection, and reads the outcome. The request is returned for
//! sending at most once, whatever the meter responds. `specs/Outcomes.antt` defines the outcome of
//! a connection's bytes and the messages to send; `specs/Standing.antt` the effect of each call.
#![tactic(auto)]

mod client;
mod job;
mod listening;
mod progress;
mod replying;
mod sending;

pub use client::Client;
pub use job::{Job, Outcome, Verb};
