//! The file of answers next to a ledger.
ghost use Rattle.std.specs.Prelude.{◌++◌, ◌≡◌, codes, string_bytes, IfOk, OnOk};
ghost use Rattle.sqlite.specs.Held.{state};
ghost use Rattle.sqlite.specs.WalFiles.{image_at};
ghost use Rattle.ledger_files.specs.Closings.{IsClosedWhole};
ghost use Rattle.ledger_files.specs.Faults.{answers_fault};
ghost use Rattle.ledger_files.specs.Answered.{AreAppended, AreAppendedTo, AreRecorded};
ghost use Rattle.ledger_files.specs.Reading.{AreAnswersFrom, AreAnswersRead};

use crate::disks::{append_on_disk, close_whole, read_answers_on_disk};
use crate::make_private;
use crate::reading::has_log;
use ledger_reports::StateAnswer;
use sqlite::{Alter, Connection, Error, FileFrom, FileStore, Start, Unknown};
use sqlite_disk::Disk;
use sqlite_ledger::{
    LedgerOpenFault, add_answers, last_number, open_answers, read_answers_if_made,
};
use std::alloc::{AllocError, Global};
use std::fs;
use std::io::ErrorKind;
use std::rt::HostRuntime;

// Returns the path of the file of answers of the ledger at a path.
fn answers_path(alloc: Global, path: &str) -> Result<String, AllocError>
    ensures { IfOk result (λ name. string_bytes name ≡ path.now ++ codes ".answers") }
{
    let mut name = String::new(alloc);
    name.push_str(path)?;
    name.push_str(".answers")?;
    Ok(name)
}

// Returns the fault for an error of SQLite while a file of answers is opened.
fn answers_fault(error: Error) -> LedgerOpenFault
    ensures { result ≡ answers_fault error }
{
    match LedgerOpenFault::from(error) {
        LedgerOpenFault::NotALedger => LedgerOpenFault::Answers,
        fault => fault,
    }
}

// Appends answers over a connection whose database has the table of the answers, or no table.
fn append<T: Alter>(
    conn: &mut Connection<T>,
    answers: &[StateAnswer],
) -> Result<(), LedgerOpenFault>
    ensures { OnOk result
        (AreAppended (state T.Store conn.old) (state T.Store conn.new) answers.now) }
{
    open_answers(conn)?;
    let last = last_number(conn)?;
    add_answers(conn, last, answers)
}

// Appends answers as `append` does, and returns the connection. Drops it if that fails.
pub(crate) fn append_all<T: Alter + Drop>(
    conn: Connection<T>,
    answers: &[StateAnswer],
) -> Result<Connection<T>, LedgerOpenFault>
    ensures { IfOk result (λ now.
        AreAppended (state T.Store conn) (state T.Store now) answers.now) }
{
    let mut conn = conn;
    match append(&mut conn, answers) {
        Ok(()) => Ok(conn),
        Err(fault) => {
            drop(conn);
            Err(fault)
        }
    }
}

// Closes the connection to a file of answers: the file then has all answers, without its log.
fn close_answers<D: Disk + Drop>(conn: Connection<FileStore<D>>) -> Result<(), LedgerOpenFault>
    ensures { OnOk result (IsClosedWhole conn) }
{
    if close_whole(conn) {
        Ok(())
    } else {
        Err(LedgerOpenFault::File)
    }
}

// Opens the file of answers at a path, where `S` stands for what it holds, appends answers, and
// closes it. A missing file is made, and only its owner may access it.
fn append_to_file<S: Start>(
    rt: &HostRuntime,
    path: &str,
    answers: &[StateAnswer],
    start: S,
) -> Result<(), LedgerOpenFault>
    ensures { OnOk result
        (AreAppendedTo ⟦<FileFrom<S> as Disk>⟧ (image_at S.Start) answers.now) }
{
    make_private(rt, path);
    match Connection::open_from(rt, path, false, start) {
        Ok(conn) => match append_on_disk(conn, answers) {
            Ok(conn) => close_answers(conn),
            Err(fault) => Err(fault),
        },
        Err((error, left)) => {
            drop(left);
            Err(answers_fault(error))
        }
    }
}

/// Appends answers to the file next to the ledger at `path`, whose path has the ending `.answers`,
/// where `S` stands for what that file holds. A file that is missing or empty is made, with its
/// table; only its owner may access a new one. Without answers nothing is done.
///
/// Errors: `Memory`; `Answers` for a file that holds something else, which is then unchanged;
/// `Busy` if another process has the file of answers open; `File`. After an error some of the
/// answers may be recorded, and what was there before remains.
pub fn append_answers<S: Start>(
    rt: &HostRuntime,
    path: &str,
    answers: &[StateAnswer],
    start: S,
) -> Result<(), LedgerOpenFault>
    ensures { OnOk result
        (AreRecorded ⟦<FileFrom<S> as Disk>⟧ (image_at S.Start) answers.now) }
{
    let [_, ..] = answers else {
        return Ok(());
    };
    match answers_path(rt.alloc(), path) {
        Ok(name) => append_to_file(rt, name.as_str(), answers, start),
        Err(_) => Err(LedgerOpenFault::Memory),
    }
}

// Returns whether there are answers to read: a file at the path that is not empty, or has a log.
// Fails with `File` if that can't be said.
fn has_answers(rt: &HostRuntime, path: &str) -> Result<bool, LedgerOpenFault> {
    match fs::metadata(rt, path) {
        Ok(metadata) if metadata.len() != 0 => Ok(true),
        Ok(_) => has_log(rt, path).map_err(|_| LedgerOpenFault::File),
        Err(error) if error.kind() == ErrorKind::NotFound => Ok(false),
        Err(_) => Err(LedgerOpenFault::File),
    }
}

// Reads all answers, and drops the connection. It is generic, so that no proof reads how a store
// works.
pub(crate) fn read_all<T: Alter + Drop>(
    rt: &HostRuntime,
    conn: Connection<T>,
) -> Result<Vec<StateAnswer>, LedgerOpenFault>
    ensures { IfOk result (λ answers. AreAnswersRead (λ c. state T.Store c) conn answers.items) }
{
    let mut conn = conn;
    let answers = read_answers_if_made(rt.alloc(), &mut conn);
    drop(conn);
    answers
}

/// Returns the answers in the file next to the ledger at `path`, where `S` stands for what that
/// file holds, the first one first, or none if there is no such file, it is empty, or has no table
/// yet. They are those that the query of all answers shows. SQLite's log, the file with the ending
/// `-wal`, is made if it is missing.
///
/// Errors: `Memory`; `Answers` for a file that holds something else; `Busy` if another process has
/// the file of answers open; `File`.
pub fn read_answers_from<S: Start>(
    rt: &HostRuntime,
    path: &str,
    start: S,
) -> Result<Vec<StateAnswer>, LedgerOpenFault>
    ensures { IfOk result (λ answers. AreAnswersFrom ⟦<FileFrom<S> as Disk>⟧ (image_at S.Start)
        answers.items) }
{
    let name = answers_path(rt.alloc(), path)?;
    if !has_answers(rt, name.as_str())? {
        return Ok(Vec::new(rt.alloc()));
    }
    match Connection::open_from(rt, name.as_str(), false, start) {
        Ok(conn) => read_answers_on_disk(rt, conn),
        Err((error, left)) => {
            drop(left);
            Err(answers_fault(error))
        }
    }
}

/// Returns the answers in the file next to the ledger at `path`, as [`read_answers_from`] does. Its
/// clause says what the connection shows, and nothing of what files that are not empty hold.
///
/// Errors: those of [`read_answers_from`].
pub fn read_answers_of(rt: &HostRuntime, path: &str) -> Result<Vec<StateAnswer>, LedgerOpenFault>
    ensures { IfOk result (λ answers. AreAnswersFrom ⟦<FileFrom<Unknown> as Disk>⟧
        (image_at ⟦<Unknown as Start>⟧) answers.items) }
{
    read_answers_from(rt, path, Unknown)
}
