//! `Book`: the storage of a ledger, with what a crash may leave of it.
ghost use Rattle.std.specs.Prelude.{◌≡◌, ◌≢◌, ℕ, true, IfOk, IsFalse, IsTrue, OnOk};
ghost use Rattle.client_core.specs.declared.job.Outcome.{Outcome};
ghost use Rattle.campaign_ledger.specs.declared.entry.LedgerEntry.{LedgerEntry};
ghost use Rattle.campaign_ledger.specs.declared.entry.LedgerEntry.TheVariants.{Came};
ghost use Rattle.campaign_ledger.specs.Entries.{HasGone};
ghost use Rattle.campaign_ledger.specs.Groups.{has, has_outcome};

use crate::entry::LedgerEntry;
use crate::fault::LedgerFault;
use client_core::Outcome;

/// The outcome of a place.
#[derive(Clone, Copy, Debug, PartialEq, Eq)]
pub struct PlaceOutcome {
    /// The number of the job in its campaign's list, counted from 0.
    pub place: u32,
    /// Its outcome.
    pub outcome: Outcome,
}

/// Storage of a ledger that outlives a crash: the places whose commands may have been sent, and the
/// outcomes. Its ghost members say what a crash may leave.
///
/// After a call failed, nothing is known of the call's entries. What was marked before remains
/// marked, and the outcome of every other place remains stored.
pub trait Book: Drop {
    // Ghost predicate: no wrong answer of the storage was taken as true. The clauses hold only
    // then. No contract can promise it of a disk.
    ghost is_honest: { Self → Type 0 };

    // Ghost predicate: the entries that the next run may find after a crash at this moment.
    ghost may_leave: { Self → (ℕ → LedgerEntry) → Type 0 };

    // Ghost predicate: whatever a crash leaves, the command of the place may have been sent.
    ghost is_marked: { Self → ℕ → Type 0 };

    // Ghost predicate: whatever a crash leaves, this outcome of the place is stored.
    ghost keeps: { Self → ℕ → Outcome → Type 0 };

    /// Marks a place: its command may be sent from now on. Returns false if the place was marked
    /// before, and only then. A place that cannot be marked counts as marked.
    fn mark(&mut self, place: u32) -> Result<bool, LedgerFault>
        ensures honest { is_honest self.new → is_honest self.old }
        ensures fresh { is_honest self.new
            → IfOk result (λ is_new. IsTrue is_new → ¬ is_marked self.old place) }
        ensures durable { is_honest self.new
            → IfOk result (λ is_new. IsTrue is_new → is_marked self.new place) }
        ensures taken { is_honest self.new
            → IfOk result (λ is_new. IsFalse is_new → is_marked self.old place) }
        ensures remains_marked { is_honest self.new → (other : ℕ) → is_marked self.old other
            → is_marked self.new other }
        ensures remains_kept { is_honest self.new → (other : ℕ) (kept : Outcome)
            → keeps self.old other kept → keeps self.new other kept };

    /// Stores the outcome of a place. Fails if it cannot be stored.
    fn record(&mut self, place: u32, outcome: Outcome) -> Result<(), LedgerFault>
        ensures honest { is_honest self.new → is_honest self.old }
        ensures recorded { is_honest self.new → OnOk result (keeps self.new place outcome) }
        ensures remains_marked { is_honest self.new → (other : ℕ) → is_marked self.old other
            → is_marked self.new other }
        ensures remains_kept { is_honest self.new → (other : ℕ) (kept : Outcome) → other ≢ place
            → keeps self.old other kept → keeps self.new other kept };

    /// Marks places and stores outcomes in one step: a crash leaves all of them or none. The
    /// commands of these places may be sent after it returned `Ok`. A place may be in both lists.
    ///
    /// Fails if a place was marked before or has an outcome, if it is twice in one of the lists, or
    /// if it cannot be marked or its outcome cannot be stored. After such an error none of them is
    /// stored; if the storage failed, all or none.
    fn commit(&mut self, marks: &[u32], outcomes: &[PlaceOutcome]) -> Result<(), LedgerFault>
        ensures honest { is_honest self.new → is_honest self.old }
        ensures fresh { is_honest self.new → OnOk result ((place : ℕ)
            → has place marks.now ≡ true → ¬ is_marked self.old place) }
        ensures durable { is_honest self.new → OnOk result ((place : ℕ)
            → has place marks.now ≡ true → is_marked self.new place) }
        ensures recorded { is_honest self.new → OnOk result ((place : ℕ) (outcome : Outcome)
            → has_outcome place outcome outcomes.now → keeps self.new place outcome) }
        ensures remains_marked { is_honest self.new → (other : ℕ) → is_marked self.old other
            → is_marked self.new other }
        ensures remains_kept { is_honest self.new → (other : ℕ) (kept : Outcome)
            → keeps self.old other kept → keeps self.new other kept };

    // Ghost law: a place that is marked is marked after a crash.
    ghost stays_marked: { (book : Self) (place : ℕ) (left : ℕ → LedgerEntry) → is_marked book place
        → may_leave book left → HasGone (left place) };

    // Ghost law: an outcome that is kept is, after a crash, the entry of its place, if the place is
    // marked.
    ghost stays_kept: { (book : Self) (place : ℕ) (outcome : Outcome) (left : ℕ → LedgerEntry)
        → is_marked book place → keeps book place outcome → may_leave book left
        → left place ≡ Came outcome };
}
