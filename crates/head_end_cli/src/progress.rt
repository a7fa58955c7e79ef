//! Progress of a campaign, reported on standard error.
use client_core::{Job, Outcome};
use head_end::{Row, Watcher};
use std::sync::atomic::{AtomicUsize, Ordering};
use std::time::Instant;

// The number of jobs done by all workers, and the time of the start.
#[derive(Drop)]
pub(crate) struct CampaignProgress {
    all: usize,
    began: Option<Instant>,
    done: AtomicUsize,
    unknown: AtomicUsize,
}

impl CampaignProgress {
    // Starts the count of `all` jobs, none of which is done, and notes the time.
    pub(crate) fn new(rt: &HostRuntime, all: usize) -> CampaignProgress {
        CampaignProgress {
            all,
            began: Instant::now(rt).ok(),
            done: AtomicUsize::new(0),
            unknown: AtomicUsize::new(0),
        }
    }

    // Estimates the remaining seconds from the mean time of the `done` jobs. Returns `None` if the
    // clock cannot be read or no job is done.
    fn remaining_seconds(&self, rt: &HostRuntime, done: usize) -> Option<u64> {
        let began = self.began?;
        let Ok(passed) = began.elapsed(rt) else {
            return None;
        };
        let rest = self.all.saturating_sub(done) as u64;
        passed
            .as_secs()
            .saturating_mul(rest)
            .checked_div(done as u64)
    }
}

// Counts each job and, if `is_shown`, reports the progress.
#[derive(Drop)]
pub(crate) struct ProgressWatch<'a> {
    // The runtime, for the clock and standard error.
    pub(crate) rt: &'a HostRuntime,
    // The count of the finished jobs.
    pub(crate) progress: &'a CampaignProgress,
    // Whether the progress is reported.
    pub(crate) is_shown: bool,
}

impl<'a> Watcher for ProgressWatch<'a> {
    fn on_job_done(&self, _job: &Job, row: Row) {
        let done = self
            .progress
            .done
            .fetch_add(1, Ordering::SeqCst)
            .wrapping_add(1);
        let is_unknown = matches!(row, Row::Came(Outcome::Unknown));
        let more = if is_unknown { 1 } else { 0 };
        let unknown = self
            .progress
            .unknown
            .fetch_add(more, Ordering::SeqCst)
            .wrapping_add(more);
        if self.is_shown {
            self.print(done, unknown);
        }
    }
}

impl<'a> ProgressWatch<'a> {
    // Writes a line of progress to standard error.
    fn print(&self, done: usize, unknown: usize) {
        let all = self.progress.all;
        let _ = match self.progress.remaining_seconds(self.rt, done) {
            Some(seconds) => {
                eprintln!(self.rt;
                    "jobs done {done} of {all}, unknown {unknown}, about {seconds} s to go"
                )
            }
            None => eprintln!(self.rt; "jobs done {done} of {all}, unknown {unknown}"),
        };
    }
}
