//! Runs the jobs of a campaign on a ledger over an SQLite connection, and takes the ledger apart.
ghost use Rattle.std.specs.Prelude.{◌≡◌, length, pos, IfOk};
ghost use Rattle.sqlite.specs.State.{HasCleanDisk};
ghost use Rattle.sqlite.specs.Held.{state};
ghost use Rattle.sqlite_ledger.specs.Marks.{IsMarked, LeavesEntries};
ghost use Rattle.sqlite_ledger.specs.Outcomes.{IsSafe};
ghost use Rattle.ledger_campaigns.specs.Texts.{IsRunOnLedger};

use campaign_ledger::Ledger;
use head_end::{Connector, Watcher};
use ledger_campaigns::{LedgerTexts, LedgeredPlan, run_on_ledger};
use sqlite::{Alter, Connection};
use sqlite_ledger::SqliteBook;
use std::alloc::{AllocError, Global};
use std::sync::Wait;
use std::thread::Threads;

// Runs the jobs as `run_on_ledger` does. It is generic, so that no proof reads how a store works.
pub(crate) fn run_on_connection<
    T: Alter + Drop + Send,
    R: Threads + Wait + Sync,
    C: Connector,
    W: Watcher,
>(
    threads: &R,
    alloc: Global,
    plan: &LedgeredPlan<'_, W>,
    ledger: Ledger<SqliteBook<T>>,
    connector: &C,
) -> Result<
    (
        Result<LedgerTexts, AllocError>,
        Option<Ledger<SqliteBook<T>>>,
    ),
    AllocError,
>
    requires { length ledger.entries ≡ length plan.now.jobs.now }
    ensures { IfOk result (λ ended. IsRunOnLedger
        (λ book. HasCleanDisk (state T.Store book))
        (λ book place. IsMarked (state T.Store book).may_leave (pos place))
        (λ book place outcome. IsSafe (state T.Store book).may_leave (pos place) outcome)
        (λ book entries. LeavesEntries (state T.Store book).may_leave entries)
        (C.tells connector.now) plan.now.jobs.now plan.now.passwords.now ledger ended.1 ended.0) }
{
    run_on_ledger(threads, alloc, plan, ledger, connector)
}

// Returns whether a ledger has failed, and its connection.
pub(crate) fn take_apart<T: Alter + Drop>(ledger: Ledger<SqliteBook<T>>) -> (bool, Connection<T>)
    ensures failed { result.0 ≡ ledger.has_failed }
    ensures conn { result.1 ≡ ledger.book }
{
    let has_failed = ledger.has_failed();
    (has_failed, ledger.into_book().into_connection())
}
