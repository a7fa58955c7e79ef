//! Runs of a meter with a journal that a crash ends: which meter is resumed from the journal.
//!
//! `meter_run::run_meter` says which lines a file holds after a crash at any moment, and
//! `journal_files::resume_journal` what a meter continues that is resumed from a file. The laws of
//! this crate join both.
#![tactic(auto)]

mod laws;

pub use laws::{
    answered_calls_are_resumed, crashed_run_is_resumed, each_call_of_save_is_a_save,
    saved_calls_are_resumed, sessions_of_a_run_are_answered,
};
