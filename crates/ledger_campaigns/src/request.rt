//! What is asked of a shared ledger, and its answers.
use campaign_ledger::{Book, Ledger, LedgerFault, Permit};
use client_core::Outcome;
use std::snapshot::Snapshot;

/// A request to a shared ledger.
#[derive(Clone, Copy, Debug, PartialEq, Eq)]
pub enum LedgerRequest {
    /// Asks for the permit to send the command of a place.
    Begin(u32),
    /// Stores the outcome of a place.
    Record(u32, Outcome),
}

/// The answer of a shared ledger, with the ledger after the request, for contracts only: a snapshot
/// occupies no memory.
#[derive(Drop)]
pub enum LedgerAnswer<B: Book> {
    /// The permit.
    Given(Permit, Snapshot<Ledger<B>>),
    /// No permit: the command of the place may have been sent before. Or no outcome is stored: the
    /// campaign has no such place.
    Refused(Snapshot<Ledger<B>>),
    /// The outcome is stored.
    Recorded(Snapshot<Ledger<B>>),
    /// The ledger has failed.
    Failed(LedgerFault, Snapshot<Ledger<B>>),
}
