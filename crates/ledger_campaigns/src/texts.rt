//! Runs the jobs of a campaign on an open ledger, and returns the texts.
ghost use Rattle.std.specs.Prelude.{◌≡◌, length, IfOk};
ghost use Rattle.head_end.specs.Reports.{report_text};
ghost use Rattle.ledger_campaigns.specs.Texts.{IsRunOnLedger};

use crate::noting::add_notes;
use crate::plan::LedgeredPlan;
use crate::run::{LedgeredRun, run_ledgered_campaign};
use campaign_ledger::{Book, Ledger};
use cosem_axdr::Octets;
use head_end::{Connector, Report, Watcher, report};
use std::alloc::{AllocError, Global};
use std::sync::Wait;
use std::thread::Threads;

/// The texts of a campaign on a ledger.
#[derive(Drop)]
pub struct LedgerTexts {
    /// The report: a line for each job.
    pub text: Octets,
    /// A line for each job whose outcome is unknown: whether its command was sent.
    pub notes: Octets,
}

// Returns the texts of a run. Errors: `AllocError`.
fn texts_of<B: Book>(
    alloc: Global,
    lines: &Report,
    ledger: &Option<Ledger<B>>,
) -> Result<LedgerTexts, AllocError>
    ensures { IfOk result (λ it. it.text ≡ report_text lines.now) }
{
    let mut notes = Octets::new(alloc);
    if let Some(ledger) = ledger {
        add_notes(lines, ledger.entries(), &mut notes)?;
    }
    let text = report(alloc, lines)?;
    Ok(LedgerTexts { text, notes })
}

// Returns the texts of a run, and its ledger.
fn take_apart<C: Connector, B: Book>(
    alloc: Global,
    run: LedgeredRun<'_, C, B>,
) -> (Result<LedgerTexts, AllocError>, Option<Ledger<B>>)
    ensures text { IfOk result.0 (λ it. it.text ≡ report_text run.entry.report) }
    ensures ledger { result.1 ≡ run.entry.ledger }
{
    let LedgeredRun {
        report: lines,
        places,
        ledger,
    } = run;
    drop(places);
    let texts = texts_of(alloc, &lines, &ledger);
    drop(lines);
    (texts, ledger)
}

/// Runs the jobs of a campaign with permits of a ledger. Returns the texts, unless out of memory,
/// and the ledger as `run_ledgered_campaign` does.
///
/// Errors: `AllocError` as `run_ledgered_campaign` does; the ledger is dropped.
pub fn run_on_ledger<R: Threads + Wait + Sync, C: Connector, W: Watcher, B: Book + Send>(
    threads: &R,
    alloc: Global,
    plan: &LedgeredPlan<'_, W>,
    ledger: Ledger<B>,
    connector: &C,
) -> Result<(Result<LedgerTexts, AllocError>, Option<Ledger<B>>), AllocError>
    requires { length ledger.entries ≡ length plan.now.jobs.now }
    ensures { IfOk result (λ ended. IsRunOnLedger B.is_honest B.is_marked B.keeps B.may_leave
        (C.tells connector.now) plan.now.jobs.now plan.now.passwords.now ledger ended.1 ended.0) }
{
    match run_ledgered_campaign(threads, alloc, plan, ledger, connector) {
        Ok(run) => Ok(take_apart(alloc, run)),
        Err(fault) => Err(fault),
    }
}
