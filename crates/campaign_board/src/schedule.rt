//! `Schedule`: which job is tried next.
use std::alloc::{AllocError, Global};

/// The order in which the jobs of a campaign are tried: that of their list, except that a job whose
/// address is busy is tried once the earlier job of its address is over, and does not hold up those
/// after it. It decides nothing: the board tests each job.
#[derive(Debug, Drop)]
pub struct Schedule {
    // The next job of each one's address.
    after: Vec<Option<u32>>,
    // The jobs that were passed over and whose earlier job is over, from `first` on.
    ready: Vec<u32>,
    first: usize,
    // The first job that was not tried.
    next: u32,
}

impl Schedule {
    /// Returns the schedule of jobs of which none was tried. `before` has the last earlier job of
    /// each one's address, if there is one. All memory of the schedule is allocated here.
    pub fn new(alloc: Global, before: &[Option<u32>]) -> Result<Schedule, AllocError> {
        let count = before.len();
        let mut after = Vec::new(alloc);
        after.resize(count, None)?;
        'jobs: for (at, earlier) in before.iter().enumerate() {
            if let Some(earlier) = earlier {
                if let Some(place) = after.get_mut(*earlier as usize) {
                    *place = u32::try_from(at).ok();
                }
            }
        }
        let ready = Vec::with_capacity(alloc, count)?;
        Ok(Schedule {
            after,
            ready,
            first: 0,
            next: 0,
        })
    }

    /// Returns the job to be tried next, or `None` if there is none now.
    pub fn candidate(&self) -> Option<u32> {
        match self.ready.get(self.first) {
            Some(at) => Some(*at),
            None if (self.next as usize) < self.after.len() => Some(self.next),
            None => None,
        }
    }

    /// Notes that the candidate was tried: it began, or cannot begin before another job is over.
    pub fn advance(&mut self) {
        if self.first < self.ready.len() {
            self.first += 1;
        } else {
            self.next = self.next.saturating_add(1);
        }
    }

    /// Notes that the job of a place is over, so that the next one of its address can begin.
    pub fn end(&mut self, at: u32) {
        match self.after.get(at as usize) {
            Some(Some(following)) if *following < self.next => {
                let _stored = self.ready.push(*following);
            }
            _ => {}
        }
    }
}
