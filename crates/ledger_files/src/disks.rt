//! Calls over a connection to files on any disk.
//!
//! A call that passes on the store of a file makes the proof read how that store works, which costs
//! less over any disk than over a certain one. So these calls are here, once each, and the rest of
//! the crate calls them.
ghost use Rattle.std.specs.Prelude.{◌≡◌, [], length, pos, replicate, Some, IfOk, OnOk, false, IsTrue};
ghost use Rattle.sqlite.specs.State.{HasCleanDisk, IsUnchanged};
ghost use Rattle.sqlite.specs.Files.{file_state};
ghost use Rattle.campaign_ledger.specs.declared.entry.LedgerEntry.TheVariants.{NotSent};
ghost use Rattle.sqlite_ledger.specs.Marks.{IsMarked, LeavesCommit, LeavesEntries};
ghost use Rattle.sqlite_ledger.specs.Outcomes.{IsSafe};
ghost use Rattle.sqlite_ledger.specs.Lines.{HasLedger};
ghost use Rattle.sqlite_ledger.specs.Schema.{ledger_schema};
ghost use Rattle.ledger_campaigns.specs.Texts.{IsRunOnLedger};
ghost use Rattle.ledger_files.specs.declared.end.LedgerEnd.TheVariants.{Closed};
ghost use Rattle.ledger_files.specs.Answered.{AreAppended};
ghost use Rattle.ledger_files.specs.Closings.{IsClosedWhole};
ghost use Rattle.ledger_files.specs.Reading.{AreAnswersRead, AreLinesRead};
ghost use Rattle.ledger_files.specs.Runs.{IsEnd};

use crate::answers::{append_all, read_all};
use crate::connected::{run_on_connection, take_apart};
use crate::end::LedgerEnd;
use crate::reading::read_and_drop;
use campaign_ledger::Ledger;
use client_core::Job;
use head_end::{Connector, Watcher};
use ledger_campaigns::{LedgerTexts, LedgeredPlan};
use ledger_reports::{LedgerLine, StateAnswer};
use sqlite::{Connection, FileStore};
use sqlite_disk::Disk;
use sqlite_ledger::{LedgerOpenFault, SqliteBook, open_book};
use std::alloc::{AllocError, Global};
use std::rt::HostRuntime;
use std::sync::Wait;
use std::thread::Threads;

// A book over files on a disk.
pub(crate) type DiskBook<D> = SqliteBook<FileStore<D>>;

// Opens the ledger of a campaign with these jobs, as `open_book` does. Drops the connection if it
// fails.
pub(crate) fn open_on_disk<D: Disk + Drop>(
    rt: &HostRuntime,
    conn: Connection<FileStore<D>>,
    jobs: &[Job],
) -> Result<Ledger<DiskBook<D>>, LedgerOpenFault>
    ensures schema { IfOk result (λ ledger. ledger.book.schema ≡ ledger_schema) }
    ensures len { IfOk result (λ ledger. length ledger.entries ≡ length jobs.now) }
    ensures ledger { conn.schema ≡ ledger_schema → IfOk result (λ ledger.
        HasCleanDisk (file_state ledger.book) → HasLedger (λ c. file_state c) conn ledger.book
        jobs.now ledger.entries) }
    ensures new { conn.schema.tables ≡ []
        → IfOk result (λ ledger. ledger.entries ≡ replicate (length jobs.now) NotSent) }
    ensures unfailed { IfOk result (λ ledger. ledger.has_failed ≡ false) }
    ensures clean { conn.schema ≡ ledger_schema → IfOk result (λ ledger.
        HasCleanDisk (file_state ledger.book) → HasCleanDisk (file_state conn)) }
    ensures settled { IfOk result (λ ledger. LeavesCommit (file_state ledger.book)) }
    ensures unchanged { conn.schema ≡ ledger_schema → IfOk result (λ ledger.
        HasCleanDisk (file_state ledger.book)
        → IsUnchanged (file_state conn) (file_state ledger.book)) }
{
    match open_book(rt, conn, jobs) {
        Ok(ledger) => Ok(ledger),
        Err((fault, conn)) => {
            drop(conn);
            Err(fault)
        }
    }
}

// Runs the jobs as `run_on_connection` does.
pub(crate) fn run_on_disk<
    D: Disk + Drop + Send,
    R: Threads + Wait + Sync,
    C: Connector,
    W: Watcher,
>(
    threads: &R,
    alloc: Global,
    plan: &LedgeredPlan<'_, W>,
    ledger: Ledger<DiskBook<D>>,
    connector: &C,
) -> Result<(Result<LedgerTexts, AllocError>, Option<Ledger<DiskBook<D>>>), AllocError>
    requires { length ledger.entries ≡ length plan.now.jobs.now }
    ensures { IfOk result (λ ended. IsRunOnLedger
        (λ book. HasCleanDisk (file_state book))
        (λ book place. IsMarked (file_state book).may_leave (pos place))
        (λ book place outcome. IsSafe (file_state book).may_leave (pos place) outcome)
        (λ book entries. LeavesEntries (file_state book).may_leave entries)
        (C.tells connector.now) plan.now.jobs.now plan.now.passwords.now ledger ended.1 ended.0) }
{
    run_on_connection(threads, alloc, plan, ledger, connector)
}

// Closes a connection, and returns whether that reported no error: the file then has all that was
// committed, without its log.
pub(crate) fn close_whole<D: Disk + Drop>(conn: Connection<FileStore<D>>) -> bool
    ensures { IsTrue result → IsClosedWhole conn }
{
    match conn.close_files() {
        Ok(files) => {
            drop(files);
            true
        }
        Err((_, store)) => {
            drop(store.close());
            false
        }
    }
}

// Closes a ledger, and returns how it ended.
pub(crate) fn close_on_disk<D: Disk + Drop>(ledger: Ledger<DiskBook<D>>) -> LedgerEnd
    ensures end { IsEnd (Some ledger) result }
    ensures closed { result ≡ Closed → IsClosedWhole ledger.book }
{
    let (has_failed, conn) = take_apart(ledger);
    let is_closed = close_whole(conn);
    if has_failed {
        LedgerEnd::Failed
    } else if is_closed {
        LedgerEnd::Closed
    } else {
        LedgerEnd::NotClosed
    }
}

// Reads the lines of a ledger, and drops its connection.
pub(crate) fn read_on_disk<D: Disk + Drop>(
    rt: &HostRuntime,
    conn: Connection<FileStore<D>>,
) -> Result<Vec<LedgerLine>, LedgerOpenFault>
    ensures { IfOk result (λ lines. AreLinesRead (λ c. file_state c) conn lines.items) }
{
    read_and_drop(rt, conn)
}

// Appends answers as `append_all` does.
pub(crate) fn append_on_disk<D: Disk + Drop>(
    conn: Connection<FileStore<D>>,
    answers: &[StateAnswer],
) -> Result<Connection<FileStore<D>>, LedgerOpenFault>
    ensures { IfOk result (λ now.
        AreAppended (file_state conn) (file_state now) answers.now) }
{
    append_all(conn, answers)
}

// Reads all answers, and drops their connection.
pub(crate) fn read_answers_on_disk<D: Disk + Drop>(
    rt: &HostRuntime,
    conn: Connection<FileStore<D>>,
) -> Result<Vec<StateAnswer>, LedgerOpenFault>
    ensures { IfOk result (λ answers. AreAnswersRead (λ c. file_state c) conn answers.items) }
{
    read_all(rt, conn)
}
