//! `NoBook`: the storage of a campaign without a ledger.
use campaign_ledger::{Book, LedgerFault, PlaceOutcome};
use client_core::Outcome;

/// The storage of a campaign without a ledger: it stores nothing, and each call succeeds. No clause
/// of a [`Book`] promises anything of it, since it is never honest.
#[derive(Clone, Copy, Debug, Drop)]
pub struct NoBook;

impl Book for NoBook {
    ghost is_honest = { λ _. ⊥ };

    ghost may_leave = { λ _ _. ⊥ };

    ghost is_marked = { λ _ _. ⊥ };

    ghost keeps = { λ _ _ _. ⊥ };

    ghost stays_marked = { λ book place left marked leaves. absurd marked };

    ghost stays_kept = { λ book place outcome left marked kept leaves. absurd marked };

    fn mark(&mut self, _place: u32) -> Result<bool, LedgerFault> {
        Ok(true)
    }

    fn record(&mut self, _place: u32, _outcome: Outcome) -> Result<(), LedgerFault> {
        Ok(())
    }

    fn commit(&mut self, _marks: &[u32], _outcomes: &[PlaceOutcome]) -> Result<(), LedgerFault> {
        Ok(())
    }
}
