//! The ledger of a campaign in an SQLite file, and the file of answers next to it: opens and closes
//! them, runs the jobs of the campaign, and asks its meters.
//!
//! This crate owns the connections over files, so that a program only names its calls.
#![tactic(auto)]

mod answers;
mod asking;
mod connected;
mod disks;
mod end;
mod laws;
mod presence;
mod reading;
mod runs;

ghost use Rattle.std.specs.Prelude.{◌≡◌, length, IfOk, false};
ghost use Rattle.sqlite.specs.State.{HasCleanDisk};
ghost use Rattle.sqlite.specs.Files.{file_state};
ghost use Rattle.sqlite.specs.WalFiles.{image_at};
ghost use Rattle.sqlite_ledger.specs.Schema.{ledger_schema};
ghost use Rattle.ledger_files.specs.Opened.{IsLedgerFrom};

pub use answers::{append_answers, read_answers_from, read_answers_of};
pub use asking::{AskedLedger, ask_with_ledger, read_questions};
use campaign_ledger::Ledger;
use client_core::Job;
use disks::open_on_disk;
pub use end::LedgerEnd;
pub use laws::the_next_run_finds_what_was_left;
pub use presence::{LedgerPresence, find_ledger, make_ledger};
pub use reading::{read_ledger, read_ledger_from};
pub use runs::{LedgerReport, run_with_ledger};
use sqlite::{Connection, FileFrom, FileStore, Start};
use sqlite_ledger::{LedgerOpenFault, SqliteBook};
use std::fs::OpenOptions;
use std::os::unix::fs::OpenOptionsExt;
use std::rt::HostRuntime;

/// A book over the files at a path, where `S` stands for what they hold.
pub type BookFrom<S> = SqliteBook<FileStore<FileFrom<S>>>;

/// Opens the ledger of a campaign with these jobs at a path, where `S` stands for what the files
/// hold. A file that is missing or empty is made, with the tables and the jobs; only its owner may
/// access a new one. The entries are those of the marks and the outcomes that the queries of an
/// existing ledger show; those of a new one are all `NotSent`.
///
/// Errors: `NotALedger` for a file that holds something else, `OtherList` for the ledger of another
/// list of jobs, `Busy` if another process has it open, `File` and `Memory`.
pub fn open_ledger_from<S: Start>(
    rt: &HostRuntime,
    path: &str,
    jobs: &[Job],
    start: S,
) -> Result<Ledger<BookFrom<S>>, LedgerOpenFault>
    ensures schema { IfOk result (λ ledger. ledger.book.schema ≡ ledger_schema) }
    ensures len { IfOk result (λ ledger. length ledger.entries ≡ length jobs.now) }
    ensures unfailed { IfOk result (λ ledger. ledger.has_failed ≡ false) }
    ensures found { IfOk result (λ ledger. HasCleanDisk (file_state ledger.book)
        → IsLedgerFrom (image_at S.Start) ledger.book jobs.now ledger.entries) }
{
    make_private(rt, path);
    let conn = match Connection::open_from(rt, path, false, start) {
        Ok(conn) => conn,
        Err((error, left)) => {
            drop(left);
            return Err(LedgerOpenFault::from(error));
        }
    };
    match open_on_disk(rt, conn, jobs) {
        Ok(ledger) => Ok(ledger),
        Err(fault) => Err(fault),
    }
}

// Makes an empty file that only its owner may access, if the path has none. An error is left to the
// open that follows.
pub(crate) fn make_private(rt: &HostRuntime, path: &str) {
    let made = OpenOptions::new()
        .write(true)
        .create_new(true)
        .mode(0o600)
        .open(rt, path);
    drop(made);
}
