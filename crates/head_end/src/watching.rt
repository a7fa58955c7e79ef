//! The trait `Watcher`, which is called with the result of each job as soon as it is known.
use crate::row::Row;
use client_core::Job;

/// An observer that is called with the result of each job when it is known, by the worker that ran
/// the job. It does not influence the results.
pub trait Watcher: Sync {
    /// Is called with a job and its result.
    fn on_job_done(&self, job: &Job, row: Row);
}

/// A watcher that does nothing.
#[derive(Clone, Copy, Debug, PartialEq, Eq)]
pub struct UnwatchedCampaign;

impl Watcher for UnwatchedCampaign {
    fn on_job_done(&self, _job: &Job, _row: Row) {}
}
