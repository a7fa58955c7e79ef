//! The rounds of a campaign: the jobs of one meter run one after the other, in the order of the
//! list.
ghost use Rattle.std.specs.Prelude.{◌≡◌, ◌≤◌, IfOk, length};
ghost use Rattle.head_end.specs.Rounds.{count_at, AreRounds, HaveJobs, RunInOrder};

use client_core::Job;
use std::alloc::{AllocError, Global};
use wire_bytes::Listed;

/// The rounds of jobs. A round begins when the one before it has ended.
#[derive(Debug, Drop)]
pub struct JobRounds {
    /// The round of each job, counted from 0: the number of earlier jobs with its address.
    pub of_jobs: Listed<usize>,
    /// The number of rounds, each of which has a job.
    pub count: usize,
}

/// Returns the rounds of jobs, each of which has a job: there are as many as the address that
/// occurs most often has jobs. Errors: out of memory.
pub fn rounds_of(alloc: Global, jobs: &[Job]) -> Result<JobRounds, AllocError>
    requires { length jobs.now ≤ 1000 }
    ensures rounds { IfOk result (λ rounds. AreRounds jobs.now rounds.of_jobs rounds.count) }
    ensures used { IfOk result (λ rounds. HaveJobs rounds.of_jobs rounds.count) }
{
    let mut of_jobs = Listed::new(alloc);
    let mut count = 0;
    for place in 0..jobs.len() {
        let round = count_at(&jobs[..place], jobs[place].address.as_slice());
        count = count.max(round + 1);
        match of_jobs.push(round) {
            Ok(()) => {}
            Err(_) => return Err(AllocError),
        }
    }
    Ok(JobRounds { of_jobs, count })
}

// Returns the number of jobs with this address.
fn count_at(jobs: &[Job], address: &[u8]) -> usize
    ensures count { result ≡ count_at address.now jobs.now }
    ensures within_max { result ≤ length jobs.now }
{
    let mut count = 0;
    'jobs: for job in jobs {
        if job.address.as_slice() == address {
            count += 1;
        }
    }
    count
}

/// Proves that of two jobs with one address the earlier one has the earlier round. So no round has
/// an address twice.
pub fn jobs_of_a_meter_run_in_order()
    ensures { RunInOrder }
{}
