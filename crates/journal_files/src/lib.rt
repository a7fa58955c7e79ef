//! The journal of a meter as a file: begun as a whole, and resumed after whatever crash.
//!
//! A journal is the text of a trace whose number of events is left open (`events -`): the state of
//! the meter at its beginning, then a line for each event that was appended since.
//! [`begin_journal`] writes the first text under the journal's name. [`resume_journal`] judges what
//! a crash has left, cuts an interrupted line, and returns the recorder of a meter that
//! continues where the lines end. [`renew_journal`] replaces it by one that begins later, so that
//! it does not grow for ever.
#![tactic(auto)]

mod beginning;
mod fault;
mod laws;
mod renewed_file;
mod renewing;
mod resuming;

pub use beginning::begin_journal;
pub use fault::StartFault;
pub use laws::{
    renewed_meter_stands_where_it_stood, renewed_run_is_resumed,
    restarted_meter_stands_where_it_stood,
};
pub use renewed_file::{RenewalTerms, RenewedFile};
pub use renewing::{renew_journal, renew_long_journal};
pub use resuming::{Resumed, resume_journal};
