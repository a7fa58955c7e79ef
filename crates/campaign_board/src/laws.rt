//! Laws of the campaigns of a board. Each function is a law: its contract states it, and a call
//! makes it known to the prover.
ghost use Rattle.std.specs.Prelude.{◌≡◌, ◌≤◌, ℕ, false, List};
ghost use Rattle.campaign_ledger.specs.declared.entry.LedgerEntry.{LedgerEntry};
ghost use Rattle.campaign_ledger.specs.Grants.{IsFoundBy};
ghost use Rattle.campaign_ledger.specs.Runs.{IsIn, AreApart, IsSafeRun};
ghost use Rattle.campaign_board.specs.Lives.{Happening, life_of};
ghost use Rattle.campaign_board.specs.Talks.{is_question};
ghost use Rattle.campaign_board.specs.Histories.{Terms, IsLegal, AreSafe};
ghost use Rattle.campaign_board.specs.Boards.{BoardState, IsBoard, KeepsBook};

use campaign_ledger::Book;

/// Proves what follows from a legal history, at each moment of a campaign.
pub fn campaigns_are_safe()
    ensures { (terms : Terms) (steps : List Happening) → IsLegal terms steps
        → AreSafe terms steps }
{}

/// Proves that a campaign is a safe run of its ledger, if its book is honest and the entries that
/// it began with were found in the book: the places whose commands it sent had none before, and are
/// marked whatever a crash leaves, as is each place that it found marked.
pub fn campaigns_are_safe_runs<B: Book>()
    ensures { (terms : Terms) (steps : List Happening) (start : B) (board : BoardState B)
        (sent : List ℕ) (left : ℕ → LedgerEntry)
        → IsBoard B.is_honest B.is_marked terms steps board
        → KeepsBook B.is_honest B.is_marked start board.book → B.is_honest board.book
        → IsFoundBy B.is_honest B.is_marked terms.found start → B.may_leave board.book left
        → AreApart sent
        → ((place : ℕ) → IsIn place sent → (is_question (terms.job place).verb ≡ false)
        × (2 ≤ (life_of place steps).given))
        → IsSafeRun record { found = terms.found; sent = sent; left = left } }
{}
