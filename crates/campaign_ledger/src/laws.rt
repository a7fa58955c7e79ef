//! Laws of the runs of a campaign. Each function is a law: its contract states it, and a call makes
//! it known to the prover.
ghost use Rattle.std.specs.Prelude.{◌≡◌, ℕ, List, ◌++◌};
ghost use Rattle.client_core.specs.declared.job.Outcome.{Outcome};
ghost use Rattle.campaign_ledger.specs.declared.entry.LedgerEntry.{LedgerEntry};
ghost use Rattle.campaign_ledger.specs.declared.entry.LedgerEntry.TheVariants.{Came};
ghost use Rattle.campaign_ledger.specs.Grants.{LedgerState, Grants, MakesSafeRuns};
ghost use Rattle.campaign_ledger.specs.Runs.{Run, IsIn, AreApart, AreConsecutiveRuns, all_sent};

use crate::book::Book;

/// Proves that over any list of runs on one ledger, each of which found what the one before left,
/// the command of each place is sent at most once.
#[tactic(auto, using(crate::proofs::RunLemmas::all_apart))]
pub fn each_command_goes_out_at_most_once()
    ensures { (runs : List Run) → AreConsecutiveRuns runs → AreApart (all_sent runs) }
{}

/// Proves that the permits given in two successive spans of calls are those of the whole, and that
/// commands that are sent with permits, each once, make a run safe.
pub fn grants_add_up<B: Book>()
    ensures total { (before between after : LedgerState B) (permits more : List ℕ)
        → Grants B.is_honest B.is_marked before between permits
        → Grants B.is_honest B.is_marked between after more
        → Grants B.is_honest B.is_marked before after (permits ++ more) }
    ensures runs { (start now : LedgerState B) (permits sent : List ℕ)
        → Grants B.is_honest B.is_marked start now permits
        → AreApart sent → ((place : ℕ) → IsIn place sent → IsIn place permits)
        → MakesSafeRuns B.is_honest B.is_marked B.may_leave start now sent }
{}

/// Proves that an outcome that the book of a ledger keeps, of a place that got its permit in this
/// run, is the entry that the next run finds, whatever a crash leaves.
pub fn the_next_run_finds_each_outcome<B: Book>()
    ensures { (start now : LedgerState B) (permits : List ℕ)
        → Grants B.is_honest B.is_marked start now permits → B.is_honest now.book
        → (place : ℕ) (outcome : Outcome) (left : ℕ → LedgerEntry) → IsIn place permits
        → B.keeps now.book place outcome → B.may_leave now.book left
        → left place ≡ Came outcome }
{}
