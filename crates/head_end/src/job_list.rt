//! The list of a campaign's jobs, at most 1,000.
ghost use Rattle.std.specs.Prelude.{◌≡◌, ◌↔◌, ◌≤◌, [], length, IsTrue, Ok};
ghost use Rattle.head_end.specs.Jobs.{limited_jobs};

use crate::fault::JobsFault;
use client_core::Job;
use std::marker::Model;
use wire_bytes::Listed;

/// The maximum number of jobs of a campaign.
pub const MAX_JOBS: usize = 1_000;

/// The jobs of a campaign, in order: at most 1,000. Contracts see the list of them.
#[derive(Debug, Drop)]
pub struct Jobs {
    items: Listed<Job>,
}

impl Model for Jobs {
    ghost use Rattle.std.specs.Prelude.{◌≤◌, List, length};
    ghost use Rattle.client_core.specs.declared.job.Job.{Job};

    ghost Value = { List Job };

    ghost view = { λ jobs. jobs.items };

    ghost invariant = { λ jobs. length jobs.items ≤ 1000 };
}

/// Takes ownership of the jobs of a list, and allocates nothing. Fails with `TooMany` if there are
/// more than 1,000.
impl TryFrom<Listed<Job>> for Jobs {
    type Error = JobsFault;

    ghost try_from_gives = { λ items result. result ≡ limited_jobs (Ok items) };

    fn try_from(items: Listed<Job>) -> Result<Jobs, JobsFault> {
        if items.len() > MAX_JOBS {
            return Err(JobsFault::TooMany);
        }
        Ok(Jobs { items })
    }
}

impl Jobs {
    /// Returns the jobs as a list, and allocates nothing.
    pub fn into_listed(self) -> Listed<Job>
        ensures { result ≡ self }
    {
        let Jobs { items } = self;
        items
    }

    /// Returns the jobs, in the order of their list.
    pub fn as_slice(&self) -> &[Job]
        ensures jobs { result.now ≡ self.now }
        ensures within_max { length result.now ≤ 1000 }
    {
        self.items.as_slice()
    }

    /// Returns the number of jobs.
    pub fn len(&self) -> usize
        ensures count { result ≡ length self.now }
        ensures within_max { result ≤ 1000 }
    {
        self.items.len()
    }

    /// Returns whether there are no jobs.
    pub fn is_empty(&self) -> bool
        ensures { IsTrue result ↔ (self.now ≡ []) }
    {
        self.items.is_empty()
    }
}
