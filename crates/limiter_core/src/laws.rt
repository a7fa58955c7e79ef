//! Theorems that explain the definitions of runs: when a run has fired, that it is the longest, and
//! that one sample never fires on both sides.
ghost use Rattle.std.specs.Prelude.{◌≡◌, ℕ, ◌<◌, ◌≤◌, ◌↔◌, List, length, reverse, drop, slice_index_or, IsTrue, IsFalse};
ghost use Rattle.std.specs.List.{suffix_len};
ghost use Rattle.limiter_core.specs.declared.count.Count.{Count};
ghost use Rattle.limiter_core.specs.State.{IsFit, are_fit};
ghost use Rattle.limiter_core.specs.Rows.{Row, Entry, Side, OverThreshold, UnderThreshold, is_past, run, reaches, has_fired, fires};

/// Proves that a run has fired exactly if one of its rows reached the need.
pub fn fired_means()
    ensures { (side : Side) (rows : List Row) → IsTrue (has_fired side rows)
        ↔ ((k : ℕ) × (k < run side rows) × IsTrue (reaches side (drop k rows))) }
{}

/// Proves that a run is the longest sequence of samples past their thresholds that ends with the
/// newest row.
pub fn run_means()
    ensures within { (side : Side) (rows : List Row) → run side rows ≤ length rows }
    ensures past { (side : Side) (rows : List Row) (k : ℕ) → k < run side rows
        → IsTrue (is_past side (slice_index_or rows k Entry)) }
    ensures longest { (side : Side) (rows : List Row) → run side rows < length rows
        → IsFalse (is_past side (slice_index_or rows (run side rows) Entry)) }
    // With the oldest row first, it is the longest suffix.
    ensures suffix { (side : Side) (rows : List Row)
        → run side (reverse rows) ≡ suffix_len (is_past side) rows }
{}

/// Proves that no sample fires on both sides.
pub fn one_side()
    ensures { (rows : List Row) → IsTrue (fires OverThreshold rows)
        → ¬ IsTrue (fires UnderThreshold rows) }
{}

/// Proves that runs pass the test `are_fit` exactly if they fit, as `IsFit` states it.
#[tactic(auto, using(crate::proofs::FitRuns::test_means, crate::proofs::FitRuns::means_test))]
pub fn fit_runs_mean()
    ensures { (last : ℕ) (over under : Count) → IsTrue (are_fit last over under)
        ↔ IsFit last over under }
{}
