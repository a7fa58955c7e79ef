//! What the run after a crash finds.
ghost use Rattle.std.specs.Prelude.{◌≡◌, ℕ, pos, IsTrue};
ghost use Rattle.sqlite.specs.declared.FileStore.{FileStore as Trees};
ghost use Rattle.sqlite_store.specs.FileStore.{view, recovers, state};
ghost use Rattle.sqlite.specs.Held.{Held, AreDatabases};
ghost use Rattle.sqlite.specs.Files.{file_state};
ghost use Rattle.sqlite.specs.Recovery.{Image};
ghost use Rattle.campaign_ledger.specs.declared.entry.LedgerEntry.{LedgerEntry};
ghost use Rattle.campaign_ledger.specs.Entries.{HasGone};
ghost use Rattle.sqlite_ledger.specs.Schema.{ledger_schema};
ghost use Rattle.sqlite_ledger.specs.Marks.{IsMarked, IsLeft, LeavesEntries};
ghost use Rattle.ledger_files.specs.Opened.{IsOpenedFrom};

use sqlite_disk::Disk;

/// Proves the step from run to run: if the files hold what a crash of a store may leave of a
/// ledger, entries that report the marks, and the outcomes of marked places, found by the next open
/// are entries that the crash may leave, and each place that is marked by them is marked whatever a
/// crash of the next run leaves.
pub fn the_next_run_finds_what_was_left<L: Disk, N: Disk>()
    ensures left { (last : Trees L L.Disk) → IsTrue (view last).is_numbered
        → AreDatabases (recovers last) → (held : Image) → (state last).may_leave held
        → (now : Held (Trees N N.Disk)) → (opened : IsOpenedFrom held now)
        → opened.was.schema ≡ ledger_schema → (entries : ℕ → LedgerEntry)
        → IsLeft (file_state opened.was).committed.trees entries
        → LeavesEntries (recovers last) entries }
    ensures marked { (last : Trees L L.Disk) → IsTrue (view last).is_numbered
        → AreDatabases (recovers last) → (held : Image) → (state last).may_leave held
        → (now : Held (Trees N N.Disk)) → (opened : IsOpenedFrom held now)
        → opened.was.schema ≡ ledger_schema → (entries : ℕ → LedgerEntry)
        → IsLeft (file_state opened.was).committed.trees entries
        → (place : ℕ) → HasGone (entries place) → IsMarked (file_state now).may_leave (pos place) }
{}
