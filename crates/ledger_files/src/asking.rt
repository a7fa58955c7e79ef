//! Asks the meters whose commands may have been sent and that gave no valid answer.
ghost use Rattle.std.specs.Prelude.{IfOk};
ghost use Rattle.sqlite.specs.WalFiles.{image_at};
ghost use Rattle.ledger_files.specs.Asked.{AreQuestions, IsAskedOnFile};

use crate::answers::append_answers;
use crate::reading::read_ledger;
use cosem_axdr::Octets;
use head_end::{Connector, Jobs, JobsFault, Watcher};
use ledger_campaigns::{AskedMeters, LedgeredPlan, ask_meters, questions};
use sqlite::{FileFrom, Start};
use sqlite_disk::Disk;
use sqlite_ledger::LedgerOpenFault;
use std::alloc::AllocError;
use std::rt::HostRuntime;
use std::thread::Threads;
use std::time::Clock;

/// What comes of asking the meters of a ledger.
#[derive(Drop)]
pub struct AskedLedger {
    /// The report: a line for each question.
    pub text: Octets,
    /// Whether the answers were recorded, or why not.
    pub recorded: Result<(), LedgerOpenFault>,
}

/// Returns the questions of the ledger at a path: a job that reads the state for each job whose
/// command may have been sent and that has no valid answer, in the order of the jobs.
///
/// Errors: those of [`read_ledger`]; `NotALedger` also for more than 1,000 questions, which no
/// ledger of the head end has; `Memory`.
pub fn read_questions(rt: &HostRuntime, path: &str) -> Result<Jobs, LedgerOpenFault>
    ensures { IfOk result AreQuestions }
{
    match read_ledger(rt, path) {
        Ok(lines) => {
            let jobs = questions(rt.alloc(), lines.as_slice());
            drop(lines);
            match jobs {
                Ok(jobs) => Ok(jobs),
                Err(JobsFault::Memory) => Err(LedgerOpenFault::Memory),
                Err(_) => Err(LedgerOpenFault::NotALedger),
            }
        }
        Err(fault) => Err(fault),
    }
}

// Returns the seconds since 1970, or `None` if the clock can't be read or shows a later second than
// a `u32` has.
fn second_now(rt: &HostRuntime) -> Option<u32> {
    match rt.since_1970() {
        Ok(time) => u32::try_from(time.as_secs()).ok(),
        Err(_) => None,
    }
}

/// Asks the meters of these jobs for their states, appends the answers that report a state to the
/// file next to the ledger at `path`, where `S` stands for what that file holds, and returns the
/// report. If the answers can't be recorded, it has the reason.
///
/// Errors: `AllocError`, also after the meters were asked; no answer is then recorded.
pub fn ask_with_ledger<S: Start, R: Threads + Sync, C: Connector, W: Watcher>(
    rt: &HostRuntime,
    threads: &R,
    plan: &LedgeredPlan<'_, W>,
    path: &str,
    start: S,
    connector: &C,
) -> Result<AskedLedger, AllocError>
    ensures { IfOk result (IsAskedOnFile ⟦<FileFrom<S> as Disk>⟧ (image_at S.Start)
        (C.tells connector.now) plan.now.workers plan.now.jobs.now plan.now.passwords.now) }
{
    match ask_meters(threads, rt.alloc(), plan, second_now(rt), connector) {
        Ok(asked) => {
            let AskedMeters { text, answers } = asked;
            let recorded = append_answers(rt, path, answers.as_slice(), start);
            drop(answers);
            Ok(AskedLedger { text, recorded })
        }
        Err(fault) => Err(fault),
    }
}
