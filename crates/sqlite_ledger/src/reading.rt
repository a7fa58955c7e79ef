//! What a ledger's file has: its campaign, its jobs, its marks and its outcomes.
ghost use Rattle.std.specs.Prelude.{◌≡◌, ◌≢◌, ◌<◌, ◌^◌, ℕ, pos, [], Some, None, Err, length, IfOk};
ghost use Rattle.std.specs.Prelude.{OnOk, replicate, vec_len};
ghost use Rattle.sqlite.specs.State.{HasCleanDisk, IsUnchanged, Shown};
ghost use Rattle.sqlite.specs.Given.{IsPlain};
ghost use Rattle.sqlite.specs.Listing.{understood};
ghost use Rattle.sqlite.specs.Held.{state};
ghost use Rattle.campaign_ledger.specs.declared.entry.LedgerEntry.TheVariants.{NotSent};
ghost use Rattle.sqlite_ledger.specs.Campaigns.{ShowsCampaign};
ghost use Rattle.sqlite_ledger.specs.Jobs.{select_jobs};
ghost use Rattle.sqlite_ledger.specs.Lines.{AreLinesOf, IsTimeRow, ShowsLines};
ghost use Rattle.sqlite_ledger.specs.Lines.{select_begun_times, select_outcome_times};
ghost use Rattle.sqlite_ledger.specs.Readings.{Enters, EntersShown, IsMarkRow, IsOutcomeRow};
ghost use Rattle.sqlite_ledger.specs.Readings.{ShowsEntries, select_begun, select_outcomes};
ghost use Rattle.sqlite_ledger.specs.Schema.{ledger_schema};
ghost use Rattle.sqlite_ledger.specs.declared.open_fault.LedgerOpenFault.TheVariants.{NotALedger};

use crate::campaign_row::check_campaign_rows;
use crate::jobs::read_job;
use crate::open_fault::LedgerOpenFault;
use crate::outcome::read_outcome;
use crate::schema::is_ledger_schema;
use campaign_ledger::LedgerEntry;
use ledger_reports::{LedgerLine, LedgerTimes};
use sqlite::{Alter, Connection, Error, Row};
use std::alloc::{AllocError, Global};

// The jobs in the order of their places.
pub(crate) const SELECT_JOBS: &str = "SELECT place, name, address, verb FROM job ORDER BY place";

// The version of the tables and the number of jobs.
const SELECT_CAMPAIGN: &str = "SELECT version, jobs FROM campaign";

// The places with a mark.
const SELECT_BEGUN: &str = "SELECT place FROM begun";

// The places with an outcome, its kind and its number.
const SELECT_OUTCOMES: &str = "SELECT place, kind, number FROM outcome";

// The times of the marks.
const SELECT_BEGUN_TIMES: &str = "SELECT place, at FROM begun";

// The times of the outcomes.
const SELECT_OUTCOME_TIMES: &str = "SELECT place, at FROM outcome";

// Returns the rows of a query.
fn select<S: Alter>(conn: &mut Connection<S>, query: &str) -> Result<Vec<Row>, Error>
    ensures shown { HasCleanDisk (state S.Store conn.new) → IfOk result (λ rows.
        Shown query.now [] (state S.Store conn.old) (state S.Store conn.new) rows.items) }
    ensures clean { HasCleanDisk (state S.Store conn.new) → HasCleanDisk (state S.Store conn.old) }
    ensures unchanged { HasCleanDisk (state S.Store conn.new)
        → IsPlain (understood conn.old.schema query.now)
        → OnOk result (IsUnchanged (state S.Store conn.old) (state S.Store conn.new)) }
{
    conn.query_all(query, &[])
}

// Returns the rows of the table `job`, in the order of the places.
fn select_jobs<S: Alter>(conn: &mut Connection<S>) -> Result<Vec<Row>, Error>
    ensures shown { HasCleanDisk (state S.Store conn.new) → IfOk result (λ rows.
        Shown select_jobs [] (state S.Store conn.old) (state S.Store conn.new) rows.items) }
    ensures clean { HasCleanDisk (state S.Store conn.new) → HasCleanDisk (state S.Store conn.old) }
    ensures unchanged { HasCleanDisk (state S.Store conn.new) → conn.old.schema ≡ ledger_schema
        → OnOk result (IsUnchanged (state S.Store conn.old) (state S.Store conn.new)) }
{
    select(conn, SELECT_JOBS)
}

// Fails with `NotALedger` unless the table `campaign` has one row, with the version of these tables
// and this number of jobs.
pub(crate) fn check_campaign<S: Alter>(
    conn: &mut Connection<S>,
    jobs: usize,
) -> Result<(), LedgerOpenFault>
    ensures campaign { HasCleanDisk (state S.Store conn.new) → OnOk result
        (ShowsCampaign (state S.Store conn.old) (state S.Store conn.new) jobs) }
    ensures clean { HasCleanDisk (state S.Store conn.new) → HasCleanDisk (state S.Store conn.old) }
    ensures unchanged { HasCleanDisk (state S.Store conn.new) → conn.old.schema ≡ ledger_schema
        → OnOk result (IsUnchanged (state S.Store conn.old) (state S.Store conn.new)) }
{
    let rows = select(conn, SELECT_CAMPAIGN)?;
    check_campaign_rows(&rows, jobs)
}

// Sets the entries of the marked places. Fails with `NotALedger` if one has no job.
fn enter_marks(entries: &mut [LedgerEntry], rows: &[Row]) -> Result<(), LedgerOpenFault>
    ensures { OnOk result (Enters IsMarkRow rows.now entries.old entries.new) }
{
    'rows: for row in rows {
        let place: u32 = row.get(0)?;
        let place = place as usize;
        if place >= entries.len() {
            return Err(LedgerOpenFault::NotALedger);
        }
        entries[place] = LedgerEntry::MaybeSent;
    }
    Ok(())
}

// Sets the entries of the places with an outcome. Fails with `NotALedger` if a row has a place
// without a job, or is that of no outcome.
fn enter_outcomes(entries: &mut [LedgerEntry], rows: &[Row]) -> Result<(), LedgerOpenFault>
    ensures { OnOk result (Enters IsOutcomeRow rows.now entries.old entries.new) }
{
    'rows: for row in rows {
        let place: u32 = row.get(0)?;
        let place = place as usize;
        let outcome = read_outcome(row)?;
        if place >= entries.len() {
            return Err(LedgerOpenFault::NotALedger);
        }
        entries[place] = LedgerEntry::Came(outcome);
    }
    Ok(())
}

// Sets the entries of the marked places to `MaybeSent`.
fn read_marks<S: Alter>(
    conn: &mut Connection<S>,
    entries: &mut [LedgerEntry],
) -> Result<(), LedgerOpenFault>
    ensures entries { HasCleanDisk (state S.Store conn.new) → OnOk result
        (EntersShown select_begun IsMarkRow (state S.Store conn.old) (state S.Store conn.new)
        entries.old entries.new) }
    ensures clean { HasCleanDisk (state S.Store conn.new) → HasCleanDisk (state S.Store conn.old) }
    ensures unchanged { HasCleanDisk (state S.Store conn.new) → conn.old.schema ≡ ledger_schema
        → OnOk result (IsUnchanged (state S.Store conn.old) (state S.Store conn.new)) }
{
    let rows = select(conn, SELECT_BEGUN)?;
    enter_marks(entries, &rows)
}

// Sets the entries of the places with an outcome to it.
fn read_outcomes<S: Alter>(
    conn: &mut Connection<S>,
    entries: &mut [LedgerEntry],
) -> Result<(), LedgerOpenFault>
    ensures entries { HasCleanDisk (state S.Store conn.new) → OnOk result
        (EntersShown select_outcomes IsOutcomeRow (state S.Store conn.old)
        (state S.Store conn.new) entries.old entries.new) }
    ensures clean { HasCleanDisk (state S.Store conn.new) → HasCleanDisk (state S.Store conn.old) }
    ensures unchanged { HasCleanDisk (state S.Store conn.new) → conn.old.schema ≡ ledger_schema
        → OnOk result (IsUnchanged (state S.Store conn.old) (state S.Store conn.new)) }
{
    let rows = select(conn, SELECT_OUTCOMES)?;
    enter_outcomes(entries, &rows)
}

// Returns the entries of this number of jobs, of which no command was sent.
pub(crate) fn new_entries(alloc: Global, count: usize) -> Result<Vec<LedgerEntry>, AllocError>
    ensures { IfOk result (λ entries. entries.items ≡ replicate count NotSent) }
{
    vec![in alloc; LedgerEntry::NotSent; count]
}

// Returns the entries of this number of jobs, by the marks and the outcomes.
pub(crate) fn read_entries<S: Alter>(
    alloc: Global,
    conn: &mut Connection<S>,
    count: usize,
) -> Result<Vec<LedgerEntry>, LedgerOpenFault>
    ensures entries { HasCleanDisk (state S.Store conn.new) → IfOk result (λ entries.
        ShowsEntries (λ c. state S.Store c) conn.old conn.new count entries.items) }
    ensures len { IfOk result (λ entries. length entries.items ≡ count) }
    ensures clean { HasCleanDisk (state S.Store conn.new) → HasCleanDisk (state S.Store conn.old) }
    ensures unchanged { HasCleanDisk (state S.Store conn.new) → conn.old.schema ≡ ledger_schema
        → OnOk result (IsUnchanged (state S.Store conn.old) (state S.Store conn.new)) }
{
    let mut entries = new_entries(alloc, count)?;
    read_marks(conn, &mut entries)?;
    read_outcomes(conn, &mut entries)?;
    Ok(entries)
}

// Returns the time of a column `at` or `asked_at`, in seconds since 1970. Returns `None` for 0,
// which is written if the clock can't be read, and for what is no `u32`.
pub(crate) fn time_of(at: i64) -> Option<u32>
    ensures none { at ≡ pos 0 → result ≡ None }
    ensures value { (second : ℕ) → 0 < second → second < 2 ^ 32 → at ≡ pos second
        → result ≡ Some second }
{
    match u32::try_from(at) {
        Ok(0) | Err(_) => None,
        Ok(second) => Some(second),
    }
}

// Sets the times of the places of these rows. Fails with `NotALedger` if one has no job.
fn enter_times(times: &mut [Option<u32>], rows: &[Row]) -> Result<(), LedgerOpenFault>
    ensures { OnOk result (Enters IsTimeRow rows.now times.old times.new) }
{
    'rows: for row in rows {
        let place: u32 = row.get(0)?;
        let place = place as usize;
        let at: i64 = row.get(1)?;
        if place >= times.len() {
            return Err(LedgerOpenFault::NotALedger);
        }
        times[place] = time_of(at);
    }
    Ok(())
}

// Returns the times of this number of jobs that these rows have.
fn times_of(alloc: Global, rows: &[Row], count: usize) -> Result<Vec<Option<u32>>, LedgerOpenFault>
    ensures times { IfOk result (λ times. Enters IsTimeRow rows.now (replicate count None)
        times.items) }
    ensures len { IfOk result (λ times. length times.items ≡ count) }
{
    let mut times = vec![in alloc; None; count]?;
    enter_times(&mut times, rows)?;
    Ok(times)
}

// Returns the times of the marks of this number of jobs.
fn read_begun_times<S: Alter>(
    alloc: Global,
    conn: &mut Connection<S>,
    count: usize,
) -> Result<Vec<Option<u32>>, LedgerOpenFault>
    ensures times { HasCleanDisk (state S.Store conn.new) → IfOk result (λ times.
        EntersShown select_begun_times IsTimeRow (state S.Store conn.old)
        (state S.Store conn.new) (replicate count None) times.items) }
    ensures len { IfOk result (λ times. length times.items ≡ count) }
    ensures clean { HasCleanDisk (state S.Store conn.new) → HasCleanDisk (state S.Store conn.old) }
    ensures unchanged { HasCleanDisk (state S.Store conn.new) → conn.old.schema ≡ ledger_schema
        → OnOk result (IsUnchanged (state S.Store conn.old) (state S.Store conn.new)) }
{
    let rows = select(conn, SELECT_BEGUN_TIMES)?;
    times_of(alloc, &rows, count)
}

// Returns the times of the outcomes of this number of jobs.
fn read_outcome_times<S: Alter>(
    alloc: Global,
    conn: &mut Connection<S>,
    count: usize,
) -> Result<Vec<Option<u32>>, LedgerOpenFault>
    ensures times { HasCleanDisk (state S.Store conn.new) → IfOk result (λ times.
        EntersShown select_outcome_times IsTimeRow (state S.Store conn.old)
        (state S.Store conn.new) (replicate count None) times.items) }
    ensures len { IfOk result (λ times. length times.items ≡ count) }
    ensures clean { HasCleanDisk (state S.Store conn.new) → HasCleanDisk (state S.Store conn.old) }
    ensures unchanged { HasCleanDisk (state S.Store conn.new) → conn.old.schema ≡ ledger_schema
        → OnOk result (IsUnchanged (state S.Store conn.old) (state S.Store conn.new)) }
{
    let rows = select(conn, SELECT_OUTCOME_TIMES)?;
    times_of(alloc, &rows, count)
}

// Returns the lines of the rows of the table `job`, with these entries and times.
fn lines_of(
    alloc: Global,
    rows: &[Row],
    entries: &[LedgerEntry],
    begun: &[Option<u32>],
    ended: &[Option<u32>],
) -> Result<Vec<LedgerLine>, LedgerOpenFault>
    requires entry_each { length entries.now ≡ length rows.now }
    requires begun_each { length begun.now ≡ length rows.now }
    requires ended_each { length ended.now ≡ length rows.now }
    ensures { IfOk result (λ lines. AreLinesOf rows.now entries.now begun.now ended.now
        lines.items) }
{
    let mut lines = Vec::with_capacity(alloc, rows.len())?;
    'rows: for row in rows {
        let place = lines.len();
        let job = read_job(alloc, row, place)?;
        let line = LedgerLine {
            job,
            entry: entries[place],
            times: LedgerTimes {
                begun: begun[place],
                ended: ended[place],
            },
            answer: None,
        };
        if lines.push(line).is_err() {
            return Err(LedgerOpenFault::Memory);
        }
    }
    Ok(lines)
}

// Returns the lines of the ledger of a connection whose schema is a ledger's.
fn read_known<S: Alter>(
    alloc: Global,
    conn: &mut Connection<S>,
) -> Result<Vec<LedgerLine>, LedgerOpenFault>
    ensures lines { HasCleanDisk (state S.Store conn.new) → conn.old.schema ≡ ledger_schema
        → IfOk result (λ lines. ShowsLines (λ c. state S.Store c) conn.old conn.new lines.items) }
    ensures clean { HasCleanDisk (state S.Store conn.new) → HasCleanDisk (state S.Store conn.old) }
    ensures unchanged { HasCleanDisk (state S.Store conn.new) → conn.old.schema ≡ ledger_schema
        → OnOk result (IsUnchanged (state S.Store conn.old) (state S.Store conn.new)) }
{
    let rows = select_jobs(conn)?;
    check_campaign(conn, rows.len())?;
    let entries = read_entries(alloc, conn, rows.len())?;
    let begun = read_begun_times(alloc, conn, rows.len())?;
    let ended = read_outcome_times(alloc, conn, rows.len())?;
    lines_of(alloc, &rows, &entries, &begun, &ended)
}

/// Returns the lines of the ledger of a connection, in the order of its jobs, and changes nothing.
/// They are those of the jobs, the marks, the outcomes and the times that the queries of the
/// database show.
///
/// Errors: `NotALedger` for a database with other tables, of another version, with a mark or an
/// outcome of no job, or with a job or an outcome that is none; `File` and `Memory`.
pub fn read_lines<S: Alter>(
    alloc: Global,
    conn: &mut Connection<S>,
) -> Result<Vec<LedgerLine>, LedgerOpenFault>
    ensures clean { HasCleanDisk (state S.Store conn.new) → HasCleanDisk (state S.Store conn.old) }
    ensures lines { HasCleanDisk (state S.Store conn.new) → IfOk result (λ lines.
        ShowsLines (λ c. state S.Store c) conn.old conn.new lines.items) }
    ensures schema { IfOk result (λ _. conn.old.schema ≡ ledger_schema) }
    ensures other_tables_unchanged { conn.old.schema ≢ ledger_schema
        → (result ≡ Err NotALedger) × (conn.new ≡ conn.old) }
    ensures unchanged { HasCleanDisk (state S.Store conn.new)
        → OnOk result (IsUnchanged (state S.Store conn.old) (state S.Store conn.new)) }
{
    if !is_ledger_schema(conn.schema()) {
        return Err(LedgerOpenFault::NotALedger);
    }
    read_known(alloc, conn)
}
