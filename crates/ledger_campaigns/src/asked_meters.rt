//! `ask_meters`: asks meters for their states.
ghost use Rattle.std.specs.Prelude.{◌≡◌, IfOk};
ghost use Rattle.head_end.specs.Reports.{report_text};
ghost use Rattle.ledger_campaigns.specs.AskedMeters.{answers_of, IsAsked};

use crate::meter_answers::answers_of;
use crate::plan::LedgeredPlan;
use cosem_axdr::Octets;
use head_end::{Connector, Jobs, Report, Watcher, places_for, report, run_watched_campaign};
use ledger_reports::StateAnswer;
use std::alloc::{AllocError, Global};
use std::thread::Threads;

/// What comes of asking meters.
#[derive(Drop)]
pub struct AskedMeters {
    /// The report: a line for each question.
    pub text: Octets,
    /// The answers that report a state.
    pub answers: Vec<StateAnswer>,
}

// Returns the text of a report and its answers.
fn take_apart(
    alloc: Global,
    asked_at: Option<u32>,
    jobs: &Jobs,
    lines: &Report,
) -> Result<AskedMeters, AllocError>
    ensures { IfOk result (λ asked. (asked.text ≡ report_text lines.now)
        × (asked.answers.items ≡ answers_of asked_at jobs.now lines.now)) }
{
    let answers = answers_of(alloc, asked_at, jobs.as_slice(), lines.as_slice())?;
    match report(alloc, lines) {
        Ok(text) => Ok(AskedMeters { text, answers }),
        Err(fault) => {
            drop(answers);
            Err(fault)
        }
    }
}

/// Asks the meters of these jobs as a campaign of jobs does, and returns the report and the
/// answers. `asked_at` is when the asking begins, in seconds since 1970-01-01 00:00:00 UTC.
///
/// Errors: `AllocError`, also after the meters were asked.
pub fn ask_meters<R: Threads + Sync, C: Connector, W: Watcher>(
    threads: &R,
    alloc: Global,
    plan: &LedgeredPlan<'_, W>,
    asked_at: Option<u32>,
    connector: &C,
) -> Result<AskedMeters, AllocError>
    ensures { IfOk result (IsAsked (C.tells connector.now) plan.now.workers plan.now.jobs.now
        plan.now.passwords.now asked_at) }
{
    let mut places = places_for(alloc, connector, plan.jobs.len(), plan.workers)?;
    let lines = run_watched_campaign(
        threads,
        alloc,
        plan.jobs,
        places.as_mut_slice(),
        plan.passwords,
        plan.workers,
        plan.watcher,
    );
    drop(places);
    match lines {
        Ok(lines) => {
            let asked = take_apart(alloc, asked_at, plan.jobs, &lines);
            drop(lines);
            asked
        }
        Err(fault) => Err(fault),
    }
}
