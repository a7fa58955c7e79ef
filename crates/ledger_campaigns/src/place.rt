//! The places of a campaign on a ledger: for each job its attempt, its row, and a port to the
//! ledger.
ghost use Rattle.std.specs.Prelude.{◌≡◌, length, IfOk};
ghost use Rattle.std.specs.List.{All};
ghost use Rattle.head_end.specs.Attempts.{unused};

use crate::desk::Desk;
use campaign_ledger::Book;
use head_end::{Attempt, Connector, Row};
use std::alloc::{AllocError, Global};
use turn_lock::Port;

/// A place for a job: its attempt, its row, and a port to the shared ledger.
#[derive(Drop)]
pub struct LedgeredPlace<'a, C: Connector, B: Book> {
    /// The attempt to reach the meter of the job.
    pub attempt: Attempt<'a, C>,
    /// The result of the job; `Memory` until it has run.
    pub row: Row,
    /// A port to the ledger that all places share.
    pub port: Port<Desk<B>>,
}

// Returns the places for a campaign of `jobs` jobs, each with an unused attempt and a port that is
// split off from this port.
pub(crate) fn ledgered_places_for<'a, C: Connector, B: Book>(
    alloc: Global,
    connector: &'a C,
    port: &mut Port<Desk<B>>,
    jobs: usize,
) -> Result<Vec<LedgeredPlace<'a, C, B>>, AllocError>
    ensures lock { port.new.lock ≡ port.old.lock }
    ensures origin { port.new.known.origin ≡ port.old.known.origin }
    ensures count { IfOk result (λ places. length places.items ≡ jobs) }
    ensures unused { IfOk result (λ places. All (λ place. place.attempt.stage
        ≡ unused) places.items) }
    ensures source { IfOk result (λ places. All (λ place. place.attempt.source.value
        ≡ connector.now) places.items) }
    ensures ports { IfOk result (λ places. All (λ place. place.port.lock
        ≡ port.old.lock) places.items) }
{
    let mut places = Vec::with_capacity(alloc, jobs)?;
    'places: for _ in 0..jobs {
        places.push(LedgeredPlace {
            attempt: Attempt::new(connector),
            row: Row::Memory,
            port: port.split()?,
        })?;
    }
    Ok(places)
}
