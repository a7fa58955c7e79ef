//! The places of a campaign: for each worker, the attempts and the results of its jobs.
ghost use Rattle.std.specs.Prelude.{◌≡◌, ◌+◌, ◌*◌, ◌/◌, ◌^◌, ◌<◌, ◌≤◌, length, IfOk, IfSome, IfNone};
ghost use Rattle.std.specs.List.{All};
ghost use Rattle.head_end.specs.Attempts.{unused};
ghost use Rattle.head_end.specs.Campaigns.{turns_for, slots_for};

use crate::attempt::Attempt;
use crate::connection::Connector;
use crate::row::Row;
use std::alloc::{AllocError, Global};

/// A place for a job: its attempt and its row. Each worker fills consecutive places of its own.
#[derive(Drop)]
pub struct JobPlace<'a, C: Connector> {
    /// The attempt to reach the meter of the job.
    pub attempt: Attempt<'a, C>,
    /// The result of the job; `Memory` until it has run.
    pub row: Row,
}

/// Returns the places for a campaign of `jobs` jobs on `workers` workers, each with an unused
/// attempt.
pub fn places_for<C: Connector>(
    alloc: Global,
    connector: &C,
    jobs: usize,
    workers: u8,
) -> Result<Vec<JobPlace<'_, C>>, AllocError>
    requires { 1 ≤ workers }
    ensures count { IfOk result (λ places. length places.items ≡ slots_for jobs workers) }
    ensures unused { IfOk result (λ places. All (λ place. place.attempt.stage
        ≡ unused) places.items) }
    ensures source { IfOk result (λ places. All (λ place. place.attempt.source.value
        ≡ connector.now) places.items) }
{
    let workers = usize::from(workers);
    let turns = turns_for(jobs, workers).ok_or(AllocError)?;
    let mut places = Vec::with_capacity(alloc, turns * workers)?;
    'places: for _ in 0..turns * workers {
        places.push(JobPlace {
            attempt: Attempt::new(connector),
            row: Row::Memory,
        })?;
    }
    Ok(places)
}

/// Returns the number of places of each worker, or `None` if the number of all places overflows.
pub fn turns_for(jobs: usize, workers: usize) -> Option<usize>
    requires { 0 < workers }
    ensures turns { IfSome result (λ turns. turns ≡ turns_for jobs workers) }
    ensures fits { IfSome result (λ turns. turns * workers < 2 ^ 64) }
    ensures too_many { IfNone result (2 ^ 64 ≤ turns_for jobs workers * workers) }
{
    let turns = (jobs / workers).checked_add(1)?;
    let _places = turns.checked_mul(workers)?;
    Some(turns)
}
