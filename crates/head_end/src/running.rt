//! Runs one job at one meter, on a connection of its own.
ghost use Rattle.std.specs.Prelude.{◌≡◌, IfOk};
ghost use Rattle.acse_ber.specs.Password.{IsPassword};
ghost use Rattle.head_end.specs.Attempts.{unused, row_in, IsTried};
ghost use Rattle.head_end.specs.Rows.{IsOutcome, IsRow};

use crate::attempt::Attempt;
use crate::connection::Connector;
use crate::conversing::{converse, give_up};
use crate::row::Row;
use client_core::{Client, Job, Outcome};
use cosem_axdr::Octets;
use std::alloc::{AllocError, Global};

/// Runs a job on one connection to its meter, and returns its row. The password has 1 to 32 bytes.
///
/// The attempt is used only for the job's address. Its connection is closed after a conversation
/// with the job's verb and this password. The attempt remains unused only if memory runs out before
/// the job connects.
pub fn run_job<C: Connector>(
    alloc: Global,
    job: &Job,
    attempt: &mut Attempt<C>,
    password: &Octets,
) -> Row
    requires unused { attempt.old.stage ≡ unused }
    requires password { IsPassword password.now }
    ensures row { IsRow (C.tells attempt.old.source.value) job.now result }
    ensures tried { IsTried job.now password.now result attempt.new.stage }
    ensures source { attempt.new.source.value ≡ attempt.old.source.value }
{
    match try_job(alloc, job, attempt, password) {
        Ok(outcome) => Row::Came(outcome),
        Err(_) => Row::Memory,
    }
}

// Runs a job, and returns its outcome. The messages are allocated before it connects.
fn try_job<C: Connector>(
    alloc: Global,
    job: &Job,
    attempt: &mut Attempt<C>,
    password: &Octets,
) -> Result<Outcome, AllocError>
    requires unused { attempt.old.stage ≡ unused }
    requires password { IsPassword password.now }
    ensures outcome { IfOk result (IsOutcome
        (C.tells attempt.old.source.value job.now.address) job.now.verb) }
    ensures tried { IsTried job.now password.now (row_in result) attempt.new.stage }
    ensures source { attempt.new.source.value ≡ attempt.old.source.value }
{
    let mut client = Client::start(alloc, job, password)?;
    match attempt.connect(&job.address) {
        Ok(mut connection) => {
            let outcome = converse(alloc, &mut client, &mut connection);
            attempt.close(connection);
            outcome
        }
        Err(_) => Ok(give_up(&mut client)),
    }
}
