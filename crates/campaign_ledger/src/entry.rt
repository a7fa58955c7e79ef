//! What a ledger knows of the command of a place.
use client_core::Outcome;

/// What a ledger knows of a place: the number of a job in its campaign's list, counted from 0.
#[derive(Clone, Copy, Debug, PartialEq, Eq)]
pub enum LedgerEntry {
    /// The command of the job has not been sent.
    NotSent,
    /// The command of the job may have been sent, and no outcome is known.
    MaybeSent,
    /// The job ended with this outcome.
    Came(Outcome),
}
