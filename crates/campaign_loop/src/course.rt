//! `Course`: what follows from the end of a job.
use campaign_board::Schedule;
use client_core::{Job, Outcome};
use head_end::{Row, Watcher};

/// The order in which the jobs of a campaign are tried, and the watcher that is called at the ends.
/// It decides nothing: the board tests each job.
#[derive(Drop)]
pub struct Course<'a, V: Watcher> {
    pub(crate) schedule: Schedule,
    jobs: &'a [Job],
    watcher: &'a V,
}

impl<'a, V: Watcher> Course<'a, V> {
    /// Returns the course of these jobs, of which none was tried.
    pub fn new(schedule: Schedule, jobs: &'a [Job], watcher: &'a V) -> Course<'a, V> {
        Course {
            schedule,
            jobs,
            watcher,
        }
    }

    // Notes that the job of a place is over, so that the next one of its address can begin.
    pub(crate) fn end(&mut self, at: u32, outcome: Outcome) {
        self.schedule.end(at);
        if let Some(job) = self.jobs.get(at as usize) {
            self.watcher.on_job_done(job, Row::Came(outcome));
        }
    }
}
