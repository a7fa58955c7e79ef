//! `create_ledger`: makes the tables of a new ledger, with the campaign's jobs.
use crate::at_rest::check_at_rest;
use crate::campaign_row::VERSION;
use crate::jobs::insert_job;
use client_core::Job;
use sqlite::{Alter, Connection, Error, Transaction, params};

// The tables of a ledger; docs/CAMPAIGNS.md describes them.
const TABLES: &str = "\
CREATE TABLE begun (place INTEGER PRIMARY KEY, at INTEGER NOT NULL) STRICT;
CREATE TABLE outcome (place INTEGER PRIMARY KEY, kind TEXT NOT NULL, number INTEGER, \
at INTEGER NOT NULL) STRICT;
CREATE TABLE job (place INTEGER PRIMARY KEY, name TEXT NOT NULL, address TEXT NOT NULL, \
verb TEXT NOT NULL) STRICT;
CREATE TABLE campaign (version INTEGER PRIMARY KEY, jobs INTEGER NOT NULL) STRICT;";

// Writes the one row of the campaign: the version of the tables and the number of jobs.
const INSERT_CAMPAIGN: &str = "INSERT INTO campaign (version, jobs) VALUES (?1, ?2)";

// Writes the jobs at their places, and returns their number.
fn insert_jobs<S: Alter>(transaction: &mut Transaction<'_, S>, jobs: &[Job]) -> Result<u32, Error> {
    let mut place = 0u32;
    for job in jobs {
        insert_job(transaction, place, job)?;
        place = place.saturating_add(1);
    }
    Ok(place)
}

// Writes the tables and the jobs.
fn fill<S: Alter>(transaction: &mut Transaction<'_, S>, jobs: &[Job]) -> Result<(), Error> {
    transaction.execute_batch(TABLES)?;
    let count = insert_jobs(transaction, jobs)?;
    transaction.execute(INSERT_CAMPAIGN, params![VERSION, count])?;
    Ok(())
}

// Makes the tables of a ledger and writes the jobs, in one transaction: after an error, or a crash,
// the database is empty or has all of it.
pub(crate) fn create_ledger<S: Alter>(conn: &mut Connection<S>, jobs: &[Job]) -> Result<(), Error> {
    check_at_rest(conn)?;
    let mut transaction = conn.transaction();
    fill(&mut transaction, jobs)?;
    transaction.commit()
}
