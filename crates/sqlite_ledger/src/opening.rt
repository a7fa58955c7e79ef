//! `open_book`: opens the ledger of a campaign over a connection.
ghost use Rattle.std.specs.Prelude.{◌≡◌, ◌≢◌, [], length, replicate, Ok, Err, OnOk, IfOk, IsTrue};
ghost use Rattle.std.specs.Prelude.{false};
ghost use Rattle.sqlite.specs.State.{HasCleanDisk, IsUnchanged};
ghost use Rattle.sqlite.specs.Held.{state};
ghost use Rattle.campaign_ledger.specs.declared.entry.LedgerEntry.TheVariants.{NotSent};
ghost use Rattle.sqlite_ledger.specs.Marks.{LeavesCommit};
ghost use Rattle.sqlite_ledger.specs.Lines.{HasLedger};
ghost use Rattle.sqlite_ledger.specs.Schema.{ledger_schema};
ghost use Rattle.sqlite_ledger.specs.declared.open_fault.LedgerOpenFault.TheVariants.{NotALedger};

use crate::book::SqliteBook;
use crate::comparison::has_jobs;
use crate::creation::create_ledger;
use crate::open_fault::LedgerOpenFault;
use crate::reading::{new_entries, read_entries};
use crate::schema::{is_empty, is_ledger_schema};
use campaign_ledger::{Ledger, LedgerEntry};
use client_core::Job;
use sqlite::{Alter, Connection};
use std::alloc::Global;
use std::rt::HostRuntime;

// Makes the ledger if the database is empty, and returns whether it is new.
fn create_if_empty<S: Alter>(
    conn: &mut Connection<S>,
    jobs: &[Job],
) -> Result<bool, LedgerOpenFault>
    ensures ledger_unchanged { conn.old.schema ≡ ledger_schema → conn.new ≡ conn.old }
    ensures tables_unchanged { conn.old.schema.tables ≢ []
        → (result ≡ Ok false) × (conn.new ≡ conn.old) }
    ensures not_new { IfOk result (λ is_new. is_new ≡ false → conn.new ≡ conn.old) }
{
    if !is_empty(conn.schema()) {
        return Ok(false);
    }
    match create_ledger(conn, jobs) {
        Ok(()) => Ok(true),
        Err(error) => Err(LedgerOpenFault::from(error)),
    }
}

// Returns the entries of a ledger's places. A new ledger has no marks.
fn read_ledger<S: Alter>(
    alloc: Global,
    conn: &mut Connection<S>,
    jobs: &[Job],
    is_new: bool,
) -> Result<Vec<LedgerEntry>, LedgerOpenFault>
    requires { conn.old.schema ≡ ledger_schema }
    ensures clean { HasCleanDisk (state S.Store conn.new) → HasCleanDisk (state S.Store conn.old) }
    ensures unchanged { HasCleanDisk (state S.Store conn.new)
        → OnOk result (IsUnchanged (state S.Store conn.old) (state S.Store conn.new)) }
    ensures ledger { HasCleanDisk (state S.Store conn.new) → is_new ≡ false
        → IfOk result (λ entries. HasLedger (λ c. state S.Store c) conn.old conn.new jobs.now
        entries.items) }
    ensures new { IsTrue is_new
        → IfOk result (λ entries. entries.items ≡ replicate (length jobs.now) NotSent) }
    ensures len { IfOk result (λ entries. length entries.items ≡ length jobs.now) }
{
    if !has_jobs(conn, jobs)? {
        return Err(LedgerOpenFault::OtherList);
    }
    if is_new {
        return Ok(new_entries(alloc, jobs.len())?);
    }
    read_entries(alloc, conn, jobs.len())
}

/// Opens the ledger of a campaign with these jobs over a connection. An empty database gets the
/// tables and the jobs, in one transaction, and each entry is `NotSent`. A database with other
/// tables is unchanged. The queries of the database show that an existing ledger has these jobs,
/// and the marks and the outcomes that its entries are made of.
///
/// Errors, each with the connection: `NotALedger` for a database with other tables, of another
/// version, or with a mark or an outcome that is none; `OtherList` for the ledger of another list
/// of jobs, `File` and `Memory`.
pub fn open_book<S: Alter + Drop>(
    rt: &HostRuntime,
    mut conn: Connection<S>,
    jobs: &[Job],
) -> Result<Ledger<SqliteBook<S>>, (LedgerOpenFault, Connection<S>)>
    ensures schema { IfOk result (λ ledger. ledger.book.schema ≡ ledger_schema) }
    ensures len { IfOk result (λ ledger. length ledger.entries ≡ length jobs.now) }
    ensures ledger { conn.schema ≡ ledger_schema → IfOk result (λ ledger.
        HasCleanDisk (state S.Store ledger.book) → HasLedger (λ c. state S.Store c) conn
        ledger.book jobs.now ledger.entries) }
    ensures new { conn.schema.tables ≡ []
        → IfOk result (λ ledger. ledger.entries ≡ replicate (length jobs.now) NotSent) }
    ensures unfailed { IfOk result (λ ledger. ledger.has_failed ≡ false) }
    ensures other_tables_unchanged { conn.schema.tables ≢ [] → conn.schema ≢ ledger_schema
        → result ≡ Err (NotALedger, conn) }
    ensures clean { conn.schema ≡ ledger_schema → IfOk result (λ ledger.
        HasCleanDisk (state S.Store ledger.book) → HasCleanDisk (state S.Store conn)) }
    ensures settled { IfOk result (λ ledger. LeavesCommit (state S.Store ledger.book)) }
    ensures unchanged { conn.schema ≡ ledger_schema → IfOk result (λ ledger.
        HasCleanDisk (state S.Store ledger.book)
        → IsUnchanged (state S.Store conn) (state S.Store ledger.book)) }
{
    let is_new = match create_if_empty(&mut conn, jobs) {
        Ok(is_new) => is_new,
        Err(fault) => return Err((fault, conn)),
    };
    if !is_ledger_schema(conn.schema()) {
        return Err((LedgerOpenFault::NotALedger, conn));
    }
    match read_ledger(rt.alloc(), &mut conn, jobs, is_new) {
        Ok(entries) => match SqliteBook::new(rt, conn) {
            Ok(book) => Ok(Ledger::new(book, entries)),
            Err(conn) => Err((LedgerOpenFault::NotALedger, conn)),
        },
        Err(fault) => Err((fault, conn)),
    }
}
