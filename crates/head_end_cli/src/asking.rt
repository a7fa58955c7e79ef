//! The command `head_end ask`: asks the meters of a ledger that gave no valid answer for their
//! states.
ghost use Rattle.std.specs.Prelude.{◌≡◌, string_bytes, IfOk, OnOk};
ghost use Rattle.sqlite.specs.WalFiles.{image_at};
ghost use Rattle.clap.specs.Matches.{found_of};
ghost use Rattle.head_end_cli.specs.Asking.{PrintsAnswers, PrintsAsked};
ghost use Rattle.head_end_commands.specs.Options.{AreLimits, AreWorkers};
ghost use Rattle.head_end_commands.specs.Passwords.{HasPasswords};
ghost use Rattle.ledger_files.specs.Asked.{AreQuestions};

use crate::ledgered::LedgeredCampaign;
use crate::presence::present_ledger;
use crate::progress::{CampaignProgress, ProgressWatch};
use crate::status::{load_answers, read_fault};
use clap::ArgMatches;
use head_end::{Connector, Jobs};
use head_end_commands::{plan_jobs, print_output};
use ledger_campaigns::{LedgeredPlan, questions};
use ledger_files::{AskedLedger, LedgerPresence, ask_with_ledger, read_questions};
use program::Fault;
use sqlite::{FileFrom, Start};
use sqlite_disk::Disk;
use sqlite_ledger::LedgerOpenFault;
use std::io::Write;
use std::thread::Threads;

// Returns the questions of the ledger at a path, as `load_questions_of` does; an empty file, which
// no run has begun, has none. Errors: also `Input` for a ledger without its log.
fn load_questions(rt: &HostRuntime, path: &str) -> Result<Jobs, Fault>
    ensures { IfOk result AreQuestions }
{
    match present_ledger(rt, path) {
        Ok(LedgerPresence::Empty) => match questions(rt.alloc(), &[]) {
            Ok(jobs) => Ok(jobs),
            Err(_) => Err(Fault::Memory),
        },
        Ok(_) => load_questions_of(rt, path),
        Err(fault) => Err(read_fault(fault)),
    }
}

// Returns the questions of the ledger at a path, after a test that answers can be added to the file
// next to it. If one of the files can't be read, writes a line on standard error. Errors: `Input`
// if one of them is something else; `Read` if the ledger is missing, or one of them can't be read
// or is open in another process; `Memory`.
fn load_questions_of(rt: &HostRuntime, path: &str) -> Result<Jobs, Fault>
    ensures { IfOk result AreQuestions }
{
    match read_questions(rt, path) {
        Ok(jobs) => match load_answers(rt, path) {
            Ok(answers) => {
                drop(answers);
                Ok(jobs)
            }
            Err(fault) => {
                drop(jobs);
                Err(fault)
            }
        },
        Err(fault) => {
            let _ = eprintln!(rt; "ledger: {fault}");
            Err(read_fault(fault))
        }
    }
}

// Returns the program's fault if answers are not recorded, after a line on standard error.
fn record_fault(rt: &HostRuntime, fault: LedgerOpenFault) -> Fault {
    let _ = eprintln!(rt; "answers: {fault}");
    match fault {
        LedgerOpenFault::NotALedger | LedgerOpenFault::OtherList | LedgerOpenFault::Answers => {
            Fault::Input
        }
        LedgerOpenFault::Busy | LedgerOpenFault::File => Fault::Write,
        LedgerOpenFault::Memory => Fault::Memory,
    }
}

// Prints the report of the questions, also if their answers are not recorded. Errors: those of
// `record_fault`, or else `Write`.
fn print_answers<W: Write>(
    rt: &HostRuntime,
    asked: AskedLedger,
    output: &mut W,
) -> Result<(), Fault>
    ensures { OnOk result (PrintsAsked asked (W.contents output.old) (W.contents output.new)) }
{
    let AskedLedger { text, recorded } = asked;
    let printed = print_output(rt, output, text.as_slice());
    match recorded {
        Ok(()) => printed,
        Err(fault) => Err(record_fault(rt, fault)),
    }
}

// Reads the questions of the ledger at a path, validates the options, and reads the passwords of
// the questions. Errors: those of `load_questions` and then those of `plan_jobs`, all before a
// meter is asked.
pub(crate) fn plan_asking(
    rt: &HostRuntime,
    matches: &ArgMatches<'_>,
    path: &str,
) -> Result<LedgeredCampaign, Fault>
    ensures questions { IfOk result (λ plan. AreQuestions plan.campaign.jobs) }
    ensures limits { IfOk result (λ plan. AreLimits (found_of matches.now) plan.campaign.limits) }
    ensures workers { IfOk result (λ plan. AreWorkers (found_of matches.now)
        plan.campaign.workers) }
    ensures passwords { IfOk result (λ plan. HasPasswords (found_of matches.now)
        plan.campaign.jobs plan.campaign.passwords) }
    ensures path { IfOk result (λ plan. string_bytes plan.path ≡ path.now) }
{
    let jobs = load_questions(rt, path)?;
    let campaign = plan_jobs(rt, matches, jobs)?;
    match String::from_str(rt.alloc(), path) {
        Ok(path) => Ok(LedgeredCampaign { campaign, path }),
        Err(_) => {
            drop(campaign);
            Err(Fault::Memory)
        }
    }
}

// Asks the meters of the jobs of a plan for their states, records the answers next to its ledger,
// where `S` stands for what that file holds, and then prints the report. If the answers are not
// recorded, writes a line on standard error and prints the report as well. Errors: `Memory`;
// `Input` if the file of answers is something else; `Write`.
pub(crate) fn ask<S: Start, R: Threads + Sync, C: Connector, W: Write>(
    rt: &HostRuntime,
    threads: &R,
    connector: &C,
    plan: &LedgeredCampaign,
    start: S,
    output: &mut W,
) -> Result<(), Fault>
    ensures { OnOk result (PrintsAnswers ⟦<FileFrom<S> as Disk>⟧ (image_at S.Start)
        (C.tells connector.now) plan.now.campaign.workers plan.now.campaign.jobs
        plan.now.campaign.passwords (W.contents output.old) (W.contents output.new)) }
{
    let campaign = &plan.campaign;
    let progress = CampaignProgress::new(rt, campaign.jobs.len());
    let watch = ProgressWatch {
        rt,
        progress: &progress,
        is_shown: campaign.is_shown,
    };
    let asking = LedgeredPlan {
        jobs: &campaign.jobs,
        passwords: campaign.passwords.as_slice(),
        workers: campaign.workers,
        watcher: &watch,
    };
    match ask_with_ledger(rt, threads, &asking, plan.path.as_str(), start, connector) {
        Ok(asked) => print_answers(rt, asked, output),
        Err(_) => Err(Fault::Memory),
    }
}
