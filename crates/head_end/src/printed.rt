//! Returns the texts that the program prints: the number of jobs of a list, and the report of a
//! campaign.
ghost use Rattle.std.specs.Prelude.{◌≡◌, ◌≤◌, length, map, IfOk, OnErr};
ghost use Rattle.std.specs.List.{All};
ghost use Rattle.acse_ber.specs.Password.{IsPassword};
ghost use Rattle.head_end.specs.Attempts.{unused};
ghost use Rattle.head_end.specs.Campaigns.{turns_for, slots_for};
ghost use Rattle.head_end.specs.Jobs.{CountsJobs, count_text};
ghost use Rattle.head_end.specs.Laws.{Reports};
ghost use Rattle.head_end.specs.Reports.{longest_name};

use crate::campaign::run_watched_campaign;
use crate::connection::Connector;
use crate::fault::JobsFault;
use crate::job_list::Jobs;
use crate::jobs::read_jobs;
use crate::placing::JobPlace;
use crate::reporting::add_report;
use crate::watching::Watcher;
use cosem_axdr::Octets;
use std::alloc::{AllocError, Global};
use std::thread::Threads;
use text_lines::write_number;

// A line of a report has at most 46 bytes if the name of its job has at most 32, as those of a list
// of jobs have (`longest_line` in `specs/Reports.antt`).
const LONGEST_LINE: usize = 46;

/// Returns the line `jobs N` with the number of jobs of a text, ended by the byte 0A. Its errors
/// are those of `read_jobs`.
pub fn count_jobs(alloc: Global, text: &[u8]) -> Result<Octets, JobsFault>
    ensures { CountsJobs text.now result }
{
    let jobs = read_jobs(alloc, text)?;
    let count = jobs.len();
    drop(jobs);
    Ok(count_line(alloc, count)?)
}

// Returns the line `jobs N` for a number of jobs, ended by the byte 0A.
fn count_line(alloc: Global, count: usize) -> Result<Octets, AllocError>
    ensures { IfOk result (λ out. out ≡ count_text count) }
{
    let mut out = Vec::from_slice(alloc, b"jobs ")?;
    write_number(&mut out, count as u64)?;
    out.push(b'\n')?;
    Ok(Octets::from_vec(out))
}

/// Runs all jobs as `run_watched_campaign` does, and returns the text of their report.
///
/// If the names of the jobs have at most 32 bytes, as those of a list of jobs have, all memory of
/// the text is allocated before the first connection is made: an error leaves all places unchanged,
/// and a report is never lost after a request.
pub fn report_jobs<R: Threads + Sync, C: Connector, W: Watcher>(
    rt: &R,
    alloc: Global,
    jobs: &Jobs,
    places: &mut [JobPlace<C>],
    passwords: &[Octets],
    workers: u8,
    watcher: &W,
) -> Result<Octets, AllocError>
    requires non_zero { 1 ≤ workers }
    requires within_max { workers ≤ 16 }
    requires passwords { All IsPassword passwords.now }
    requires paired { length passwords.now ≡ length jobs.now }
    requires count { length places.old ≡ slots_for (length jobs.now) workers }
    requires unused { All (λ place. place.attempt.stage ≡ unused) places.old }
    ensures report { IfOk result (Reports
        (λ place. C.tells place.attempt.source.value) workers jobs.now passwords.now places.old
        (map (λ place. place.attempt.stage) places.new)) }
    ensures unchanged_on_error { All (λ job. length job.id ≤ longest_name) jobs.now
        → OnErr result (places.new ≡ places.old) }
{
    let mut text = Vec::with_capacity(alloc, jobs.len() * LONGEST_LINE)?;
    let report = run_watched_campaign(rt, alloc, jobs, places, passwords, workers, watcher)?;
    add_report(&report, &mut text)?;
    drop(report);
    Ok(Octets::from_vec(text))
}
