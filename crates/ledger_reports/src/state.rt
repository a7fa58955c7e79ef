//! The state of a campaign: how many of its jobs have each standing, and the jobs that need a
//! second look.
ghost use Rattle.std.specs.Prelude.{◌≡◌, ◌++◌, ◌≤◌, length, IfOk, OnOk};
ghost use Rattle.ledger_reports.specs.Status.{count_of, count_line, has_standing, counts_text};
ghost use Rattle.ledger_reports.specs.Status.{job_text, look_text, unanswered_text, second_looks};
ghost use Rattle.ledger_reports.specs.Status.{followed_by_blank, standing_of, state_text};
ghost use Rattle.ledger_reports.specs.Status.{status_text};

use crate::line::{LedgerLine, MeterState};
use campaign_ledger::LedgerEntry;
use client_core::{Job, Outcome};
use cosem_axdr::Octets;
use itoa::Buffer;
use std::alloc::{AllocError, Global};

/// The standing of a job, by its entry in the ledger.
#[derive(Clone, Copy, Debug, PartialEq, Eq)]
pub enum Standing {
    /// The meter executed the request.
    Done,
    /// The meter refused the request, with a result other than success.
    Refused,
    /// The meter opened no association for the request, which was not sent.
    Rejected,
    /// The command may have been sent, and no valid answer came.
    Unknown,
    /// The command has not been sent.
    NotSent,
}

/// Returns the state of a campaign by the lines of its ledger: the lines `jobs N`, `done N`,
/// `refused N`, `rejected N`, `unknown N` and `not sent N`, and then a line
/// `NAME ADDRESS VERB sent, no answer` for each job whose command may have been sent and that has
/// no valid answer, in the order of the jobs. If its meter was asked later and reported its state,
/// `; state N` follows. Each line is ended by the byte 0A.
pub fn status(alloc: Global, lines: &[LedgerLine]) -> Result<Octets, AllocError>
    ensures { IfOk result (λ text. text ≡ status_text lines.now) }
{
    let mut out = Octets::new(alloc);
    put_counts(lines, &mut out)?;
    put_second_looks(lines, &mut out)?;
    Ok(out)
}

// Appends the number of the jobs and the number of each standing.
fn put_counts(lines: &[LedgerLine], out: &mut Octets) -> Result<(), AllocError>
    ensures { OnOk result (out.new ≡ out.old ++ counts_text lines.now) }
{
    put_count_line(b"jobs ", lines.len(), out)?;
    put_count_line(b"done ", count(lines, Standing::Done), out)?;
    put_count_line(b"refused ", count(lines, Standing::Refused), out)?;
    put_count_line(b"rejected ", count(lines, Standing::Rejected), out)?;
    put_count_line(b"unknown ", count(lines, Standing::Unknown), out)?;
    put_count_line(b"not sent ", count(lines, Standing::NotSent), out)
}

// Appends a line with a word and a number.
fn put_count_line(word: &[u8], number: usize, out: &mut Octets) -> Result<(), AllocError>
    ensures { OnOk result (out.new ≡ out.old ++ count_line word.now number) }
{
    let mut buffer = Buffer::new();
    out.extend_from_slice(word)?;
    out.extend_from_slice(buffer.format(number).as_bytes())?;
    out.push(b'\n')
}

// Returns the number of jobs with this standing.
fn count(lines: &[LedgerLine], standing: Standing) -> usize
    ensures count { result ≡ count_of standing lines.now }
    ensures within_max { result ≤ length lines.now }
{
    let mut count = 0;
    'lines: for line in lines {
        if has_standing(standing, line.entry) {
            count += 1;
        }
    }
    count
}

/// Returns the standing of a job with this entry.
pub fn standing_of(entry: LedgerEntry) -> Standing
    ensures { result ≡ standing_of entry }
{
    match entry {
        LedgerEntry::NotSent => Standing::NotSent,
        LedgerEntry::MaybeSent => Standing::Unknown,
        LedgerEntry::Came(Outcome::Done(_)) => Standing::Done,
        LedgerEntry::Came(Outcome::Refused(_)) => Standing::Refused,
        LedgerEntry::Came(Outcome::Rejected(_)) => Standing::Rejected,
        LedgerEntry::Came(Outcome::Unknown) => Standing::Unknown,
    }
}

// Returns whether a job with this entry has this standing.
fn has_standing(standing: Standing, entry: LedgerEntry) -> bool
    ensures { result ≡ has_standing standing entry }
{
    standing_of(entry) == standing
}

// Appends the lines of the jobs that need a second look.
#[tactic(auto, unfolding(crate::specs::Status::second_looks))]
fn put_second_looks(lines: &[LedgerLine], out: &mut Octets) -> Result<(), AllocError>
    ensures { OnOk result (out.new ≡ out.old ++ second_looks lines.now) }
{
    'lines: for line in lines {
        put_second_look(line, out)?;
    }
    Ok(())
}

// Appends the line of a job, if it needs a second look.
fn put_second_look(line: &LedgerLine, out: &mut Octets) -> Result<(), AllocError>
    ensures { OnOk result (out.new ≡ out.old ++ look_text line.now) }
{
    match line.entry {
        LedgerEntry::NotSent => Ok(()),
        LedgerEntry::MaybeSent => put_unanswered(line, out),
        LedgerEntry::Came(Outcome::Unknown) => put_unanswered(line, out),
        LedgerEntry::Came(_) => Ok(()),
    }
}

// Appends a word and a blank.
fn put_word(word: &[u8], out: &mut Octets) -> Result<(), AllocError>
    ensures { OnOk result (out.new ≡ out.old ++ followed_by_blank word.now) }
{
    out.extend_from_slice(word)?;
    out.push(b' ')
}

// Appends the line of a job whose command may have been sent and that has no valid answer.
fn put_unanswered(line: &LedgerLine, out: &mut Octets) -> Result<(), AllocError>
    ensures { OnOk result (out.new ≡ out.old ++ unanswered_text line.now.job line.now.answer) }
{
    put_job(&line.job, out)?;
    out.extend_from_slice(b"sent, no answer")?;
    put_state(line.answer, out)?;
    out.push(b'\n')
}

// Appends the name, the address and the verb of a job, each followed by a blank.
fn put_job(job: &Job, out: &mut Octets) -> Result<(), AllocError>
    ensures { OnOk result (out.new ≡ out.old ++ job_text job.now) }
{
    put_word(job.id.as_slice(), out)?;
    put_word(job.address.as_slice(), out)?;
    put_word(job.verb.word(), out)
}

// Appends the state that a meter reported, if it was asked.
fn put_state(answer: Option<MeterState>, out: &mut Octets) -> Result<(), AllocError>
    ensures { OnOk result (out.new ≡ out.old ++ state_text answer) }
{
    let Some(answer) = answer else {
        return Ok(());
    };
    let mut buffer = Buffer::new();
    out.extend_from_slice(b"; state ")?;
    out.extend_from_slice(buffer.format(answer.state).as_bytes())
}
