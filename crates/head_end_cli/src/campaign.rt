//! The command `head_end run` without a ledger: its report.
ghost use Rattle.std.specs.Prelude.{OnOk};
ghost use Rattle.head_end_cli.specs.Printed.{PrintsReport};

use crate::progress::{CampaignProgress, ProgressWatch};
use head_end::{Connector, places_for, report_jobs};
use head_end_commands::{CampaignPlan, print_output};
use program::Fault;
use std::io::Write;
use std::thread::Threads;

// Runs the jobs and prints the report.
pub(crate) fn run<R: Threads + Sync, C: Connector, W: Write>(
    rt: &HostRuntime,
    threads: &R,
    connector: &C,
    plan: &CampaignPlan,
    output: &mut W,
) -> Result<(), Fault>
    ensures { OnOk result
        (PrintsReport (C.tells connector.now) plan.now.workers plan.now.jobs plan.now.passwords
        (W.contents output.old) (W.contents output.new)) }
{
    let progress = CampaignProgress::new(rt, plan.jobs.len());
    let watch = ProgressWatch {
        rt,
        progress: &progress,
        is_shown: plan.is_shown,
    };
    let places = places_for(rt.alloc(), connector, plan.jobs.len(), plan.workers);
    let mut places = places.map_err(|_| Fault::Memory)?;
    let report = report_jobs(
        threads,
        rt.alloc(),
        &plan.jobs,
        places.as_mut_slice(),
        plan.passwords.as_slice(),
        plan.workers,
        &watch,
    );
    drop(places);
    match report {
        Ok(text) => print_output(rt, output, text.as_slice()),
        Err(_) => Err(Fault::Memory),
    }
}
