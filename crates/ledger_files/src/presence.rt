//! What is at the path of a ledger before it is opened, and the making of a new one.
use crate::disks::close_on_disk;
use crate::end::LedgerEnd;
use crate::open_ledger_from;
use crate::reading::has_log;
use client_core::Job;
use sqlite::Unknown;
use sqlite_ledger::LedgerOpenFault;
use std::fs;
use std::fs::File;
use std::io::{ErrorKind, Read};
use std::rt::HostRuntime;

// The first bytes of a file of SQLite.
const FIRST_BYTES: &[u8; 16] = b"SQLite format 3\0";

/// What is at the path of a ledger.
#[derive(Clone, Copy, Debug, PartialEq, Eq)]
pub enum LedgerPresence {
    /// No file.
    Missing,
    /// An empty file without a log: no run has begun.
    Empty,
    /// A file of SQLite without its log, the file with the ending `-wal`. What a run has marked
    /// since the file was closed may be in the log alone.
    WithoutLog,
    /// A file and its log, whatever they hold.
    Whole,
}

/// Returns what is at the path of a ledger. Nothing is written. If the path is a symbolic link, its
/// log is the one next to the file that it leads to, as for SQLite.
///
/// Errors: `NotALedger` for a file without a log that is not of SQLite; `File` for what is no
/// regular file, or if the file or its folder cannot be read.
pub fn find_ledger(rt: &HostRuntime, path: &str) -> Result<LedgerPresence, LedgerOpenFault> {
    // (a named pipe is not opened: that would wait)
    let metadata = match fs::metadata(rt, path) {
        Ok(metadata) if metadata.is_file() => metadata,
        Err(error) if error.kind() == ErrorKind::NotFound => return Ok(LedgerPresence::Missing),
        _ => return Err(LedgerOpenFault::File),
    };
    // (with its log, a file may also be one that a killed run has made in part)
    let Ok(has_log) = has_log(rt, path) else {
        return Err(LedgerOpenFault::File);
    };
    if has_log {
        return Ok(LedgerPresence::Whole);
    }
    if metadata.len() == 0 {
        return Ok(LedgerPresence::Empty);
    }
    let Ok(mut file) = File::open(rt, path) else {
        return Err(LedgerOpenFault::File);
    };
    let mut first = [0; 16];
    match file.read_exact(&mut first) {
        Ok(()) if first.as_slice() == FIRST_BYTES.as_slice() => {}
        Err(error) if error.kind() != ErrorKind::UnexpectedEof => return Err(LedgerOpenFault::File),
        _ => return Err(LedgerOpenFault::NotALedger),
    }
    Ok(LedgerPresence::WithoutLog)
}

/// Makes the ledger of a campaign with these jobs at a path, and closes it: the file itself then
/// has the list of jobs on the disk, before a command of it is sent. A file that is missing or
/// empty is made, and only its owner may access a new one.
///
/// Errors: those of [`open_ledger_from`]; `File` if it cannot be closed.
pub fn make_ledger(rt: &HostRuntime, path: &str, jobs: &[Job]) -> Result<(), LedgerOpenFault> {
    match open_ledger_from(rt, path, jobs, Unknown) {
        Ok(ledger) => match close_on_disk(ledger) {
            LedgerEnd::Closed => Ok(()),
            LedgerEnd::NotClosed | LedgerEnd::Failed => Err(LedgerOpenFault::File),
        },
        Err(fault) => Err(fault),
    }
}
