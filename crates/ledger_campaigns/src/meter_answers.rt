//! `answers_of`: the answers that report a state.
ghost use Rattle.std.specs.Prelude.{◌≡◌, ◌++◌, IfOk, OnOk};
ghost use Rattle.ledger_campaigns.specs.AskedMeters.{answer_in, answer_with, answers_of};

use client_core::{Job, Outcome};
use head_end::{ReportLine, Row};
use ledger_reports::{MeterState, StateAnswer};
use std::alloc::{AllocError, Global};

// Returns the answer with this state to a question.
fn answer_with(
    alloc: Global,
    asked_at: Option<u32>,
    job: &Job,
    state: u8,
) -> Result<StateAnswer, AllocError>
    ensures { IfOk result (λ answer. answer ≡ answer_with asked_at job.now state) }
{
    Ok(StateAnswer {
        name: job.id.try_clone(alloc)?,
        address: job.address.try_clone(alloc)?,
        answer: MeterState { state, asked_at },
    })
}

// Appends the answer in a row, if it reports a state.
fn add_answer(
    alloc: Global,
    asked_at: Option<u32>,
    job: &Job,
    row: Row,
    answers: &mut Vec<StateAnswer>,
) -> Result<(), AllocError>
    ensures { OnOk result (answers.new.items
        ≡ answers.old.items ++ answer_in asked_at job.now row) }
{
    match row {
        Row::Came(Outcome::Done(state)) => {
            let answer = answer_with(alloc, asked_at, job, state)?;
            answers.push(answer)?;
            Ok(())
        }
        Row::Came(_) => Ok(()),
        Row::Memory => Ok(()),
    }
}

/// Returns the answers to questions that report a state, by the lines of their report, in their
/// order. `asked_at` is when the asking began.
pub fn answers_of(
    alloc: Global,
    asked_at: Option<u32>,
    jobs: &[Job],
    lines: &[ReportLine],
) -> Result<Vec<StateAnswer>, AllocError>
    ensures { IfOk result (λ answers. answers.items ≡ answers_of asked_at jobs.now lines.now) }
{
    let mut answers = Vec::new(alloc);
    let mut jobs = jobs;
    let mut lines = lines;
    'lines: while let [job, later_jobs @ ..] = jobs {
        let [line, later_lines @ ..] = lines else {
            return Ok(answers);
        };
        add_answer(alloc, asked_at, job, line.row, &mut answers)?;
        jobs = later_jobs;
        lines = later_lines;
    }
    Ok(answers)
}
