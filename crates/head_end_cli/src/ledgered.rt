//! The command `head_end run --ledger FILE`: a campaign that is resumed by its ledger.
ghost use Rattle.std.specs.Prelude.{◌≡◌, string_bytes, IfOk, IsOk, OnOk};
ghost use Rattle.std.specs.Io.KnownBytes.{Appends};
ghost use Rattle.sqlite.specs.WalFiles.{image_at};
ghost use Rattle.clap.specs.Matches.{found_of};
ghost use Rattle.head_end_cli.specs.Ledgered.{PrintsRun, PrintsTexts};
ghost use Rattle.ledger_files.specs.declared.end.LedgerEnd.TheVariants.{Closed};
ghost use Rattle.head_end_commands.specs.Lists.{AreJobsOf};
ghost use Rattle.head_end_commands.specs.Options.{AreLimits, AreWorkers};
ghost use Rattle.head_end_commands.specs.Passwords.{HasPasswords};

use crate::presence::prepare_ledger;
use crate::progress::{CampaignProgress, ProgressWatch};
use clap::ArgMatches;
use head_end::Connector;
use head_end_commands::{CampaignPlan, plan_campaign, print_output};
use ledger_campaigns::{LedgerTexts, LedgeredPlan};
use ledger_files::{LedgerEnd, LedgerReport, run_with_ledger};
use program::{Fault, print_text};
use sqlite::{FileFrom, Start};
use sqlite_disk::Disk;
use sqlite_ledger::LedgerOpenFault;
use std::io::{Read, Write};
use std::sync::Wait;
use std::thread::Threads;

// The line on standard error if a call on the ledger failed.
const LEDGER_FAILED: &str = "ledger: the file failed; jobs that were not reached were not run";

// The line on standard error if no call on the ledger failed, but its file could not be closed. The
// outcome of each conversation of this run is then in the ledger (`run` of `IsRunOnFile`), unless
// all 2^62 turns of its lock were drawn; the row of a job that was not run is no outcome.
const LEDGER_NOT_CLOSED: &str = "ledger: the file was not closed; it has all outcomes";

// A campaign whose jobs and options are all valid, and the path of its ledger.
#[derive(Drop)]
pub(crate) struct LedgeredCampaign {
    // The jobs and the options.
    pub(crate) campaign: CampaignPlan,
    // The path of the file that holds the ledger.
    pub(crate) path: String,
}

// Validates the options and reads the jobs of the list in an input, and then the passwords of the
// jobs. A line on standard error describes the fault.
pub(crate) fn plan_ledgered<I: Read + Drop>(
    rt: &HostRuntime,
    matches: &ArgMatches<'_>,
    path: &str,
    input: I,
) -> Result<LedgeredCampaign, Fault>
    ensures jobs { IfOk result (λ plan. AreJobsOf (I.remaining input) plan.campaign.jobs) }
    ensures limits { IfOk result (λ plan. AreLimits (found_of matches.now) plan.campaign.limits) }
    ensures workers { IfOk result (λ plan. AreWorkers (found_of matches.now)
        plan.campaign.workers) }
    ensures passwords { IfOk result (λ plan. HasPasswords (found_of matches.now)
        plan.campaign.jobs plan.campaign.passwords) }
    ensures path { IfOk result (λ plan. string_bytes plan.path ≡ path.now) }
{
    let Ok(path) = String::from_str(rt.alloc(), path) else {
        return Err(Fault::Memory);
    };
    match plan_campaign(rt, matches, input) {
        Ok(campaign) => Ok(LedgeredCampaign { campaign, path }),
        Err(fault) => {
            drop(path);
            Err(fault)
        }
    }
}

// Runs the jobs with permits of the ledger, where `S` stands for what the file holds, and prints
// the report. A missing ledger is made first. Errors: those of `run_on_ledger`, and `Input` for a
// ledger without its log.
pub(crate) fn run_ledgered<S: Start + Send, R: Threads + Wait + Sync, C: Connector, W: Write>(
    rt: &HostRuntime,
    threads: &R,
    connector: &C,
    plan: &LedgeredCampaign,
    start: S,
    output: &mut W,
) -> Result<(), Fault>
    ensures { OnOk result (PrintsRun ⟦<FileFrom<S> as Disk>⟧ (image_at S.Start)
        (C.tells connector.now) plan.now.campaign.jobs plan.now.campaign.passwords
        (W.contents output.old)
        (W.contents output.new)) }
{
    match prepare_ledger(rt, plan.path.as_str(), plan.campaign.jobs.as_slice()) {
        Ok(()) => run_on_ledger(rt, threads, connector, plan, start, output),
        Err(fault) => Err(open_fault(fault)),
    }
}

// Runs the jobs with permits of the ledger, where `S` stands for what the file holds, and prints
// the report. Writes a line on standard error for each job whose outcome is unknown, and if the
// ledger cannot be opened. Errors: `Input` for the ledger of another list, `Write` if the ledger
// failed, `Memory`.
fn run_on_ledger<S: Start + Send, R: Threads + Wait + Sync, C: Connector, W: Write>(
    rt: &HostRuntime,
    threads: &R,
    connector: &C,
    plan: &LedgeredCampaign,
    start: S,
    output: &mut W,
) -> Result<(), Fault>
    ensures { OnOk result (PrintsRun ⟦<FileFrom<S> as Disk>⟧ (image_at S.Start)
        (C.tells connector.now) plan.now.campaign.jobs plan.now.campaign.passwords
        (W.contents output.old)
        (W.contents output.new)) }
{
    let campaign = &plan.campaign;
    let progress = CampaignProgress::new(rt, campaign.jobs.len());
    let watch = ProgressWatch {
        rt,
        progress: &progress,
        is_shown: campaign.is_shown,
    };
    let ledgered = LedgeredPlan {
        jobs: &campaign.jobs,
        passwords: campaign.passwords.as_slice(),
        workers: campaign.workers,
        watcher: &watch,
    };
    match run_with_ledger(rt, threads, &ledgered, plan.path.as_str(), start, connector) {
        Ok(report) => print_report(rt, report, output),
        Err(fault) => {
            let _ = eprintln!(rt; "ledger: {fault}");
            Err(open_fault(fault))
        }
    }
}

// Prints the report, and the lines about unknown outcomes on standard error. Fails unless the
// ledger was closed after no call on it had failed.
fn print_report<W: Write>(
    rt: &HostRuntime,
    report: LedgerReport,
    output: &mut W,
) -> Result<(), Fault>
    ensures printed { OnOk result
        (PrintsTexts report.texts (W.contents output.old) (W.contents output.new)) }
    ensures closed { IsOk result → report.end ≡ Closed }
{
    let LedgerReport { texts, end } = report;
    let printed = match texts {
        Ok(texts) => print_texts(rt, texts, output),
        Err(_) => Err(Fault::Memory),
    };
    match end {
        LedgerEnd::Closed => printed,
        LedgerEnd::NotClosed => {
            let _ = eprintln!(rt; "{LEDGER_NOT_CLOSED}");
            Err(Fault::Write)
        }
        LedgerEnd::Failed => {
            let _ = eprintln!(rt; "{LEDGER_FAILED}");
            Err(Fault::Write)
        }
    }
}

// Prints the texts of a report.
fn print_texts<W: Write>(rt: &HostRuntime, texts: LedgerTexts, output: &mut W) -> Result<(), Fault>
    ensures { OnOk result (Appends (W.contents output.old) (W.contents output.new) texts.text) }
{
    let _ = print_text(&mut rt.stderr(), texts.notes.as_slice());
    print_output(rt, output, texts.text.as_slice())
}

// Returns the program's fault if a ledger is not opened.
fn open_fault(fault: LedgerOpenFault) -> Fault {
    match fault {
        LedgerOpenFault::NotALedger | LedgerOpenFault::OtherList | LedgerOpenFault::Answers => {
            Fault::Input
        }
        LedgerOpenFault::Busy | LedgerOpenFault::File => Fault::Write,
        LedgerOpenFault::Memory => Fault::Memory,
    }
}
