//! `has_jobs`: compares the jobs of a ledger with a list.
ghost use Rattle.std.specs.Prelude.{◌≡◌, IfOk, IsTrue, OnOk};
ghost use Rattle.sqlite.specs.State.{HasCleanDisk, IsUnchanged, Survives};
ghost use Rattle.sqlite.specs.Held.{Held, state};
ghost use Rattle.sqlite_ledger.specs.Jobs.{ListsJobs, ShowsJobs};
ghost use Rattle.sqlite_ledger.specs.Streams.{GivesAll, GivesJob, HasBegun};
ghost use Rattle.sqlite_ledger.specs.Schema.{ledger_schema};

use crate::jobs::is_row_of;
use crate::open_fault::LedgerOpenFault;
use crate::reading::{SELECT_JOBS, check_campaign};
use client_core::Job;
use sqlite::{Alter, Connection, Error, Rows};

// Reads the next row, and returns whether it is that of the job at this place.
fn next_is<S: Alter>(rows: &mut Rows<'_, S>, place: usize, job: &Job) -> Result<bool, Error>
    ensures reference { rows.new.conn.ghost_name ≡ rows.old.conn.ghost_name }
    ensures survives { Survives (state S.Store rows.old.conn.now) (state S.Store rows.new.conn.now)
        (λ _. ⊥) }
    ensures unchanged { HasCleanDisk (state S.Store rows.new.conn.now) → OnOk result
        (IsUnchanged (state S.Store rows.old.conn.now) (state S.Store rows.new.conn.now)) }
    ensures row { HasCleanDisk (state S.Store rows.new.conn.now) → IfOk result (λ is. IsTrue is
        → GivesJob S.Store rows.old.conn.now rows.new.conn.now place job.now) }
{
    rows.advance()?;
    match rows.get() {
        Some(row) => is_row_of(row, place, job),
        None => Ok(false),
    }
}

// Reads past the last row, and returns whether there was none.
fn is_last<S: Alter>(rows: &mut Rows<'_, S>) -> Result<bool, Error>
    ensures reference { rows.new.conn.ghost_name ≡ rows.old.conn.ghost_name }
    ensures survives { Survives (state S.Store rows.old.conn.now) (state S.Store rows.new.conn.now)
        (λ _. ⊥) }
    ensures unchanged { HasCleanDisk (state S.Store rows.new.conn.now) → OnOk result
        (IsUnchanged (state S.Store rows.old.conn.now) (state S.Store rows.new.conn.now)) }
    ensures whole { HasCleanDisk (state S.Store rows.new.conn.now) → IfOk result (λ is. IsTrue is
        → GivesAll S.Store rows.old.conn.now rows.new.conn.now) }
{
    rows.advance()?;
    Ok(rows.get().is_none())
}

// Returns whether the rows of the query of all jobs, from its start, are those of these jobs.
fn are_jobs<S: Alter>(rows: &mut Rows<'_, S>, jobs: &[Job]) -> Result<bool, Error>
    ensures reference { rows.new.conn.ghost_name ≡ rows.old.conn.ghost_name }
    ensures survives { Survives (state S.Store rows.old.conn.now) (state S.Store rows.new.conn.now)
        (λ _. ⊥) }
    ensures unchanged { HasCleanDisk (state S.Store rows.new.conn.now) → (start : Held S)
        → HasBegun S.Store start rows.old.conn.now
        → OnOk result (IsUnchanged (state S.Store start) (state S.Store rows.new.conn.now)) }
    ensures lists { HasCleanDisk (state S.Store rows.new.conn.now) → (start : Held S)
        → start.schema ≡ ledger_schema → HasBegun S.Store start rows.old.conn.now
        → IfOk result (λ is. IsTrue is
        → ListsJobs (state S.Store start) (state S.Store rows.new.conn.now) jobs.now) }
{
    'jobs: for place in 0..jobs.len() {
        if !next_is(rows, place, &jobs[place])? {
            return Ok(false);
        }
    }
    is_last(rows)
}

// Returns whether the query of all jobs shows these jobs, in their order, and no others. It reads
// one row at a time.
fn lists_jobs<S: Alter>(conn: &mut Connection<S>, jobs: &[Job]) -> Result<bool, Error>
    requires { conn.old.schema ≡ ledger_schema }
    ensures lists { HasCleanDisk (state S.Store conn.new) → IfOk result (λ is. IsTrue is
        → ListsJobs (state S.Store conn.old) (state S.Store conn.new) jobs.now) }
    ensures clean { HasCleanDisk (state S.Store conn.new) → HasCleanDisk (state S.Store conn.old) }
    ensures unchanged { HasCleanDisk (state S.Store conn.new)
        → OnOk result (IsUnchanged (state S.Store conn.old) (state S.Store conn.new)) }
{
    let mut rows = conn.query(SELECT_JOBS, &[])?;
    are_jobs(&mut rows, jobs)
}

// Returns whether the file has these jobs, in their order. Fails with `NotALedger` if it has, but
// its tables have another version, or the campaign another number of jobs.
pub(crate) fn has_jobs<S: Alter>(
    conn: &mut Connection<S>,
    jobs: &[Job],
) -> Result<bool, LedgerOpenFault>
    requires { conn.old.schema ≡ ledger_schema }
    ensures jobs { HasCleanDisk (state S.Store conn.new) → IfOk result (λ has. IsTrue has
        → ShowsJobs (λ c. state S.Store c) conn.old conn.new jobs.now) }
    ensures clean { HasCleanDisk (state S.Store conn.new) → HasCleanDisk (state S.Store conn.old) }
    ensures unchanged { HasCleanDisk (state S.Store conn.new)
        → OnOk result (IsUnchanged (state S.Store conn.old) (state S.Store conn.new)) }
{
    if !lists_jobs(conn, jobs)? {
        return Ok(false);
    }
    check_campaign(conn, jobs.len())?;
    Ok(true)
}
