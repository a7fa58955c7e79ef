//! A campaign on a ledger in a file: opens the ledger, runs the jobs and closes the ledger.
ghost use Rattle.std.specs.Prelude.{IfOk};
ghost use Rattle.sqlite.specs.WalFiles.{image_at};
ghost use Rattle.ledger_files.specs.Runs.{IsEnd, IsRunOnFile};

use crate::disks::{close_on_disk, run_on_disk};
use crate::end::LedgerEnd;
use crate::{BookFrom, open_ledger_from};
use campaign_ledger::Ledger;
use head_end::{Connector, Watcher};
use ledger_campaigns::{LedgerTexts, LedgeredPlan};
use sqlite::{FileFrom, Start};
use sqlite_disk::Disk;
use sqlite_ledger::LedgerOpenFault;
use std::alloc::AllocError;
use std::rt::HostRuntime;
use std::sync::Wait;
use std::thread::Threads;

/// The end of a campaign on a ledger.
#[derive(Drop)]
pub struct LedgerReport {
    /// The texts, unless out of memory. Then the ledger has the outcomes that it stored.
    pub texts: Result<LedgerTexts, AllocError>,
    /// How the ledger ended.
    pub end: LedgerEnd,
}

// Closes a ledger, if there is one, and returns how it ended.
fn close<S: Start>(ledger: Option<Ledger<BookFrom<S>>>) -> LedgerEnd
    ensures { IsEnd ledger result }
{
    match ledger {
        Some(ledger) => close_on_disk(ledger),
        None => LedgerEnd::Failed,
    }
}

/// Opens the ledger of a campaign at a path, where `S` stands for what the file holds, runs its
/// jobs with permits of the ledger, and closes it.
///
/// Errors: those of [`open_ledger_from`], and `Memory`. The code returns them before it starts a
/// worker; no contract states that no connection is made then.
pub fn run_with_ledger<S: Start + Send, R: Threads + Wait + Sync, C: Connector, W: Watcher>(
    rt: &HostRuntime,
    threads: &R,
    plan: &LedgeredPlan<'_, W>,
    path: &str,
    start: S,
    connector: &C,
) -> Result<LedgerReport, LedgerOpenFault>
    ensures { IfOk result (λ report. IsRunOnFile ⟦<FileFrom<S> as Disk>⟧ (image_at S.Start)
        (C.tells connector.now) plan.now.jobs.now plan.now.passwords.now report.texts
        report.end) }
{
    match open_ledger_from(rt, path, plan.jobs.as_slice(), start) {
        Ok(ledger) => match run_on_disk(threads, rt.alloc(), plan, ledger, connector) {
            Ok((texts, ledger)) => Ok(LedgerReport {
                texts,
                end: close(ledger),
            }),
            Err(_) => Err(LedgerOpenFault::Memory),
        },
        Err(fault) => Err(fault),
    }
}
