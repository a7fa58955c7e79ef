//! `enter_answers`: gives the lines of a ledger their answers.
ghost use Rattle.std.specs.Prelude.{◌≡◌, ◌<◌, ℕ, length, slice_index_or};
ghost use Rattle.client_core.specs.declared.job.Job.{Job};
ghost use Rattle.ledger_reports.specs.declared.line.LedgerLine.{LedgerLine};
ghost use Rattle.ledger_reports.specs.Answers.{is_about, is_answer_to, is_later, latest_answer};
ghost use Rattle.ledger_reports.specs.Answers.{with_answer};

use crate::answer::StateAnswer;
use crate::line::{LedgerLine, MeterState};
use client_core::Job;

// Returns whether an answer has the name and the address of a job.
fn is_about(job: &Job, answer: &StateAnswer) -> bool
    ensures { result ≡ is_about job.now answer.now }
{
    answer.name.as_slice() == job.id.as_slice()
        && answer.address.as_slice() == job.address.as_slice()
}

// Returns whether a meter was asked no earlier than its job was marked, if both times are known.
fn is_later(begun: Option<u32>, asked_at: Option<u32>) -> bool
    ensures { result ≡ is_later begun asked_at }
{
    match (begun, asked_at) {
        (Some(begun), Some(asked_at)) => begun <= asked_at,
        _ => true,
    }
}

// Returns whether an answer is about the job of a line, and its meter is not known to have been
// asked before the command.
fn is_answer_to(line: &LedgerLine, answer: &StateAnswer) -> bool
    ensures { result ≡ is_answer_to line.now answer.now }
{
    is_about(&line.job, answer) && is_later(line.times.begun, answer.answer.asked_at)
}

/// Returns the state of the last of these answers that is about the job of a line and whose meter
/// is not known to have been asked before the command, if there is one.
pub fn latest_answer(line: &LedgerLine, answers: &[StateAnswer]) -> Option<MeterState>
    ensures { result ≡ latest_answer line.now answers.now }
{
    let mut latest = None;
    'answers: for answer in answers {
        if is_answer_to(line, answer) {
            latest = Some(answer.answer);
        }
    }
    latest
}

/// Gives each line of a ledger its latest answer, if it has one.
pub fn enter_answers(lines: &mut [LedgerLine], answers: &[StateAnswer])
    ensures lines { (i : ℕ) (line : LedgerLine) → i < length lines.old
        → slice_index_or lines.new i line
        ≡ with_answer answers.now (slice_index_or lines.old i line) }
    ensures len { length lines.new ≡ length lines.old }
{
    for i in 0..lines.len() {
        let line = &mut lines[i];
        line.answer = latest_answer(line, answers);
    }
}
