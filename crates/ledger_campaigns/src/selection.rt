//! `questions`: the jobs that ask for the states of meters.
ghost use Rattle.std.specs.Prelude.{◌≡◌, ◌++◌, ◌∷◌, [], IfOk, IfErr, OnOk};
ghost use Rattle.ledger_campaigns.specs.Questions.{IsRefusal, question, question_in, questions};

use campaign_ledger::LedgerEntry;
use client_core::{Job, Outcome, Verb};
use head_end::{Jobs, JobsFault};
use ledger_reports::LedgerLine;
use std::alloc::{AllocError, Global};
use wire_bytes::Listed;

// Returns the question to the meter of a job: a job with its name and its address that reads the
// state.
fn question(alloc: Global, job: &Job) -> Result<Job, AllocError>
    ensures { IfOk result (λ asked. asked ≡ question job.now) }
{
    Ok(Job {
        id: job.id.try_clone(alloc)?,
        address: job.address.try_clone(alloc)?,
        verb: Verb::ReadState,
    })
}

// Appends the question of a job.
fn push_question(alloc: Global, job: &Job, jobs: &mut Listed<Job>) -> Result<(), AllocError>
    ensures { OnOk result (jobs.new ≡ jobs.old ++ question job.now ∷ []) }
{
    let asked = question(alloc, job)?;
    match jobs.push(asked) {
        Ok(()) => Ok(()),
        Err(_) => Err(AllocError),
    }
}

// Appends the question of a line, if its job needs a second look.
fn add_question(alloc: Global, line: &LedgerLine, jobs: &mut Listed<Job>) -> Result<(), AllocError>
    ensures { OnOk result (jobs.new ≡ jobs.old ++ question_in line.now) }
{
    match line.entry {
        LedgerEntry::NotSent => Ok(()),
        LedgerEntry::MaybeSent => push_question(alloc, &line.job, jobs),
        LedgerEntry::Came(Outcome::Unknown) => push_question(alloc, &line.job, jobs),
        LedgerEntry::Came(_) => Ok(()),
    }
}

// Returns the questions of all lines.
#[tactic(auto, unfolding(crate::specs::Questions::questions))]
fn questions_in(alloc: Global, lines: &[LedgerLine]) -> Result<Listed<Job>, AllocError>
    ensures { IfOk result (λ jobs. jobs ≡ questions lines.now) }
{
    let mut jobs = Listed::new(alloc);
    'lines: for line in lines {
        add_question(alloc, line, &mut jobs)?;
    }
    Ok(jobs)
}

/// Returns a job that reads the state for each line whose command may have been sent and that has
/// no valid answer, with the name and the address of its job, in the order of the lines.
///
/// Errors: `TooMany` if there are more than 1,000; `Memory`.
pub fn questions(alloc: Global, lines: &[LedgerLine]) -> Result<Jobs, JobsFault>
    ensures jobs { IfOk result (λ jobs. jobs ≡ questions lines.now) }
    ensures refusal { IfErr result (IsRefusal lines.now) }
{
    match questions_in(alloc, lines) {
        Ok(jobs) => Jobs::try_from(jobs),
        Err(_) => Err(JobsFault::Memory),
    }
}
