//! One run of a served meter: from its recorder to the text of its trace.
//!
//! `meter_server serve` is one call of `run_meter`. Its arguments are the listener and the sources
//! of the console, and the journal if there is one; its result is what the server prints.
#![tactic(auto)]

mod closing;
mod journaled;
mod running;

pub use closing::close_meter;
pub use meter_server::{OwnSources, Sources};
pub use running::{MeterRun, RunTerms, run_meter};
