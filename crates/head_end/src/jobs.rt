//! Reads a list of jobs from its text, one line `NAME ADDRESS VERB` for each job.
ghost use Rattle.std.specs.Prelude.{◌≡◌, IfOk};
ghost use Rattle.head_end.specs.Jobs.{is_name, is_visible, job_with, job_of, jobs_in, job_lines, jobs_of, ReadsJobs, ReadsLines, AddsJob};
ghost use Rattle.std.specs.List.{list_all};

use crate::fault::JobsFault;
use crate::job_list::Jobs;
use client_core::{Job, Verb};
use cosem_axdr::Octets;
use std::alloc::{AllocError, Global};
use text_lines::{Words, split_line};
use wire_bytes::Listed;

/// The longest name of a job, in bytes.
pub const MAX_ID: usize = 32;
/// The longest address, in bytes.
pub const MAX_ADDRESS: usize = 64;

/// Reads the jobs of a text, one on each line `NAME ADDRESS VERB` with one blank between words.
///
/// The name has 1 to 32 and the address 1 to 64 bytes from 21 to 7E; the verb is `disconnect`,
/// `reconnect` or `state`. Lines end with the byte 0A, which the last may lack; empty lines are
/// skipped.
///
/// Errors: `Line` with the number of the first wrong line, counted from 1, even if there are too
/// many jobs; `TooMany` if there are more than 1,000 jobs; `Memory` if out of memory.
#[tactic(auto, unfolding(crate::specs::Jobs::jobs_of))]
pub fn read_jobs(alloc: Global, text: &[u8]) -> Result<Jobs, JobsFault>
    ensures { ReadsJobs text.now result }
{
    Jobs::try_from(read_lines(alloc, text)?)
}

// Reads the jobs of all lines.
fn read_lines(alloc: Global, text: &[u8]) -> Result<Listed<Job>, JobsFault>
    ensures { ReadsLines 1 (job_lines text.now) result }
{
    let mut jobs = Listed::new(alloc);
    let mut rest = text;
    let mut number: u64 = 1;
    'lines: while let Some((line, next_rest)) = split_line(rest) {
        match add_job(alloc, number, line, &mut jobs) {
            Ok(()) => {}
            Err(fault) => return Err(fault),
        }
        number += 1;
        rest = next_rest;
    }
    match add_job(alloc, number, rest, &mut jobs) {
        Ok(()) => Ok(jobs),
        Err(fault) => Err(fault),
    }
}

// Adds the job of a line, if the line is not empty.
fn add_job(alloc: Global, number: u64, line: &[u8], jobs: &mut Listed<Job>) -> Result<(), JobsFault>
    ensures { AddsJob number line.now jobs.old result jobs.new }
{
    if line.is_empty() {
        return Ok(());
    }
    match read_job(alloc, line)? {
        Some(job) => match jobs.push(job) {
            Ok(()) => Ok(()),
            Err(_) => Err(JobsFault::Memory),
        },
        None => Err(JobsFault::Line(number)),
    }
}

// Reads the job of a line. Returns `None` if the line is not `NAME ADDRESS VERB` with valid words.
#[tactic(auto, unfolding(crate::specs::Jobs::job_of))]
fn read_job(alloc: Global, line: &[u8]) -> Result<Option<Job>, AllocError>
    ensures { IfOk result (λ job. job ≡ job_of line.now) }
{
    let mut words = Words::new(line);
    let Some(id) = words.next() else {
        return Ok(None);
    };
    let Some(address) = words.next() else {
        return Ok(None);
    };
    let Some(verb) = words.next() else {
        return Ok(None);
    };
    if words.next().is_some() {
        return Ok(None);
    }
    job_with(alloc, id, address, Verb::from_word(verb))
}

// Makes a job of a name, an address and a verb. Returns `None` if there is no verb, or if the name
// or the address is not valid.
fn job_with(
    alloc: Global,
    id: &[u8],
    address: &[u8],
    verb: Option<Verb>,
) -> Result<Option<Job>, AllocError>
    ensures { IfOk result (λ job. job ≡ job_with id.now address.now verb) }
{
    let Some(verb) = verb else {
        return Ok(None);
    };
    if !is_name(id, MAX_ID) || !is_name(address, MAX_ADDRESS) {
        return Ok(None);
    }
    Ok(Some(Job {
        id: Octets::from_slice(alloc, id)?,
        address: Octets::from_slice(alloc, address)?,
        verb,
    }))
}

// Returns whether a word has 1 to `most` bytes, all of them visible ASCII.
pub(crate) fn is_name(word: &[u8], most: usize) -> bool
    ensures { result ≡ is_name most word.now }
{
    !word.is_empty() && word.len() <= most && all_visible(word)
}

// Returns whether each byte is visible ASCII, 21 to 7E hex.
fn all_visible(word: &[u8]) -> bool
    ensures { result ≡ list_all is_visible word.now }
{
    word.iter().all(|byte| *byte >= 0x21 && *byte <= 0x7E)
}
