//! The jobs of a campaign, as a ledger has them.
ghost use Rattle.std.specs.Prelude.{IfOk, IsTrue};
ghost use Rattle.sqlite_ledger.specs.Jobs.{IsJobRow};

use crate::open_fault::LedgerOpenFault;
use client_core::{Job, Verb};
use cosem_axdr::Octets;
use sqlite::types::ValueRef;
use sqlite::{Alter, Error, Row, Transaction};
use std::alloc::Global;

// Writes a job at its place: the meter's name, its address and the verb.
const INSERT_JOB: &str = "INSERT INTO job (place, name, address, verb) VALUES (?1, ?2, ?3, ?4)";

// Writes a job at its place, and returns the number of rows written.
pub(crate) fn insert_job<S: Alter>(
    transaction: &mut Transaction<'_, S>,
    place: u32,
    job: &Job,
) -> Result<usize, Error> {
    transaction.execute(
        INSERT_JOB,
        &[
            ValueRef::Int(i64::from(place)),
            ValueRef::Text(job.id.as_slice()),
            ValueRef::Text(job.address.as_slice()),
            ValueRef::Text(job.verb.word()),
        ],
    )
}

// Returns whether a row of the table `job` is that of the job at this place.
pub(crate) fn is_row_of(row: &Row, place: usize, job: &Job) -> Result<bool, Error>
    ensures { IfOk result (λ is. IsTrue is → IsJobRow row.now place job.now) }
{
    let at: u64 = row.get(0)?;
    let name: String = row.get(1)?;
    let address: String = row.get(2)?;
    let verb: String = row.get(3)?;
    Ok(
        at == place as u64
            && name.as_bytes() == job.id.as_slice()
            && address.as_bytes() == job.address.as_slice()
            && verb.as_bytes() == job.verb.word(),
    )
}

// Returns the job of a row of the table `job`. Fails with `NotALedger` if the row is not that of
// this place, or has another word than a verb.
pub(crate) fn read_job(alloc: Global, row: &Row, place: usize) -> Result<Job, LedgerOpenFault>
    ensures { IfOk result (λ job. IsJobRow row.now place job) }
{
    let at: u32 = row.get(0)?;
    let name: String = row.get(1)?;
    let address: String = row.get(2)?;
    let word: String = row.get(3)?;
    match Verb::from_word(word.as_bytes()) {
        Some(verb) if at as usize == place => Ok(Job {
            id: Octets::from_slice(alloc, name.as_bytes())?,
            address: Octets::from_slice(alloc, address.as_bytes())?,
            verb,
        }),
        _ => Err(LedgerOpenFault::NotALedger),
    }
}
