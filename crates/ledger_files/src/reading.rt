//! Reads the ledger of a campaign in a file.
ghost use Rattle.std.specs.Prelude.{IfOk};
ghost use Rattle.sqlite.specs.Held.{state};
ghost use Rattle.sqlite.specs.WalFiles.{image_at};
ghost use Rattle.ledger_files.specs.Reading.{AreLinesFrom, AreLinesRead};

use crate::disks::read_on_disk;
use ledger_reports::LedgerLine;
use sqlite::{Alter, Connection, FileFrom, Start, Unknown};
use sqlite_disk::Disk;
use sqlite_ledger::{LedgerOpenFault, read_lines};
use std::io::ErrorKind;
use std::rt::HostRuntime;
use std::{fs, io};

// Returns whether the file of a path has a log: a file with the ending `-wal` next to it, or if the
// path is a symbolic link, next to the file that it leads to.
pub(crate) fn has_log(rt: &HostRuntime, path: &str) -> io::Result<bool> {
    let file = fs::canonicalize(rt, path)?;
    let log = format!(in rt.alloc(); "{}-wal", file.as_str())?;
    match fs::metadata(rt, log.as_str()) {
        Ok(_) => Ok(true),
        Err(error) if error.kind() == ErrorKind::NotFound => Ok(false),
        Err(error) => Err(error),
    }
}

// Fails with `File` if there is no regular file at a path, and with `NotALedger` if it is empty and
// has no log: an open would make a ledger without jobs there.
fn check_file(rt: &HostRuntime, path: &str) -> Result<(), LedgerOpenFault> {
    let metadata = match fs::metadata(rt, path) {
        Ok(metadata) if metadata.is_file() => metadata,
        _ => return Err(LedgerOpenFault::File),
    };
    let Ok(has_log) = has_log(rt, path) else {
        return Err(LedgerOpenFault::File);
    };
    if metadata.len() == 0 && !has_log {
        return Err(LedgerOpenFault::NotALedger);
    }
    Ok(())
}

// Reads the lines of a ledger, and drops its connection. It is generic, so that no proof reads how
// a store works.
pub(crate) fn read_and_drop<T: Alter + Drop>(
    rt: &HostRuntime,
    conn: Connection<T>,
) -> Result<Vec<LedgerLine>, LedgerOpenFault>
    ensures { IfOk result (λ lines. AreLinesRead (λ c. state T.Store c) conn lines.items) }
{
    let mut conn = conn;
    let lines = read_lines(rt.alloc(), &mut conn);
    drop(conn);
    lines
}

/// Returns the lines of the ledger at a path, where `S` stands for what the files hold, in the
/// order of its jobs. They are those that the queries of the database show. SQLite's log, the file
/// with the ending `-wal`, is made if it is missing; a ledger is not.
///
/// Errors: `NotALedger` for a file that holds something else, `Busy` if another process has it
/// open, `File` if it is missing or can't be read, and `Memory`.
pub fn read_ledger_from<S: Start>(
    rt: &HostRuntime,
    path: &str,
    start: S,
) -> Result<Vec<LedgerLine>, LedgerOpenFault>
    ensures { IfOk result (λ lines. AreLinesFrom ⟦<FileFrom<S> as Disk>⟧ (image_at S.Start)
        lines.items) }
{
    check_file(rt, path)?;
    match Connection::open_from(rt, path, false, start) {
        Ok(conn) => read_on_disk(rt, conn),
        Err((error, left)) => {
            drop(left);
            Err(LedgerOpenFault::from(error))
        }
    }
}

/// Returns the lines of the ledger at a path, as [`read_ledger_from`] does. Its clause says what
/// the connection shows, and nothing of what files that are not empty hold.
///
/// Errors: those of [`read_ledger_from`].
pub fn read_ledger(rt: &HostRuntime, path: &str) -> Result<Vec<LedgerLine>, LedgerOpenFault>
    ensures { IfOk result (λ lines. AreLinesFrom ⟦<FileFrom<Unknown> as Disk>⟧
        (image_at ⟦<Unknown as Start>⟧) lines.items) }
{
    read_ledger_from(rt, path, Unknown)
}
