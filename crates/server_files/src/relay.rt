//! The relay of a server.
ghost use Rattle.std.specs.Prelude.{◌≡◌, true, is_some, string_bytes, IfErr, IfOk, IfSome};
ghost use Rattle.relay_core.specs.Stands.{StandsFor};
ghost use Rattle.relay_core.specs.World.{World};
ghost use Rattle.shared_meter.specs.Switching.{is_on};
ghost use Rattle.server_files.specs.Faults.{is_of_opening};

use crate::paths::{CUT_SUFFIX, LOCK_SUFFIX, place_paths, with_suffix};
use crate::relay_file::RelayFile;
use durable_lines::is_same_file;
use meter_journal::Relay;
use program::Fault;
use relay_core::RelayCore;
use session_log::{Log, LogTime};
use std::alloc::{AllocError, AllocGlobal};
use std::fs::{File, Files, Metadata};
use std::io::ErrorKind;
use std::time::Clock;
use std::{fs, io};

// The maximum number of files before a renewal that are kept.
const MAX_KEPT: u16 = 99;

/// The relay that a command line names.
#[derive(Clone, Copy)]
pub struct RelayOptions<'a> {
    /// The path of the relay, if there is one.
    pub path: Option<&'a str>,
    /// The permissions of its file, if that is made.
    pub mode: u32,
    /// Whether each change is reported in the log.
    pub is_verbose: bool,
}

/// An open relay: its path, and the relay, which was given the supply output, and no change.
#[derive(Drop)]
pub struct OpenRelay<R: Clock + Files<File = File> + Copy + Drop> {
    /// The path of the relay.
    pub path: String,
    /// The relay.
    pub relay: Relay<RelayFile<R>>,
    ghost fresh: { relay.given ≡ 0 },
}

// Returns what is reported of an output.
pub(crate) fn supply(output: bool) -> &'static str {
    if output { "supply on" } else { "supply off" }
}

// Returns whether a path names this file.
fn names<R: Files<File = File>>(rt: &R, path: &str, file: &Metadata) -> bool {
    match fs::symlink_metadata(rt, path) {
        Ok(named) => is_same_file(&named, file),
        Err(_) => false,
    }
}

// Returns whether a file is that of the journal of a path, its lock, its draft, what was cut, or a
// file that was kept.
fn is_of_journal<R: AllocGlobal + Files<File = File>>(
    rt: &R,
    journal: &str,
    file: &Metadata,
) -> Result<bool, AllocError> {
    let paths = place_paths(rt.alloc(), journal, MAX_KEPT, 0)?;
    'older: for older in paths.older.iter() {
        if names(rt, older.as_str(), file) {
            return Ok(true);
        }
    }
    let lock = with_suffix(rt.alloc(), journal, LOCK_SUFFIX)?;
    let cut = with_suffix(rt.alloc(), journal, CUT_SUFFIX)?;
    Ok(
        names(rt, paths.path.as_str(), file)
            || names(rt, paths.draft.as_str(), file)
            || names(rt, lock.as_str(), file)
            || names(rt, cut.as_str(), file),
    )
}

// Opens the file of a relay. Errors: `Write` if it cannot be opened, `Input` if it is a file of the
// journal, each with a line in the log; `Memory`.
fn open_file<R: Clock + AllocGlobal + Files<File = File> + Copy + Drop>(
    rt: &R,
    log: &Log,
    path: &str,
    options: RelayOptions<'_>,
    journal: Option<&str>,
) -> Result<RelayFile<R>, Fault>
    ensures err { IfErr result (λ fault. is_of_opening fault ≡ true) }
{
    let Ok(theirs) = log.share() else {
        return Err(Fault::Memory);
    };
    let opened = RelayFile::open(*rt, theirs, rt.alloc(), path, options);
    let (file, metadata) = match opened {
        Ok(file) => match file.metadata() {
            Ok(metadata) => (file, metadata),
            Err(error) => return Err(report_not_opened(log, path, &error)),
        },
        Err(error) => return Err(report_not_opened(log, path, &error)),
    };
    match journal {
        Some(journal) => match is_of_journal(rt, journal, &metadata) {
            Ok(true) => {
                let _ = eprintln!(log; "{path}: the relay's file is one of the journal {journal}");
                Err(Fault::Input)
            }
            Ok(false) => Ok(file),
            Err(_) => Err(Fault::Memory),
        },
        None => Ok(file),
    }
}

// Reports why the file of a relay is not open. Returns the program's fault.
fn report_not_opened(log: &Log, path: &str, error: &io::Error) -> Fault
    ensures { is_of_opening result ≡ true }
{
    let _ = match error.kind() {
        ErrorKind::InvalidInput => eprintln!(log; "{path}: a symbolic link is not followed"),
        _ => eprintln!(log; "{path}: the relay can't be opened for reading and writing: {error}"),
    };
    Fault::Write
}

// Opens the relay of a path, and writes the supply output to it.
fn start_relay<R: Clock + AllocGlobal + Files<File = File> + Copy + Drop>(
    rt: &R,
    log: &Log,
    path: &str,
    options: RelayOptions<'_>,
    is_on: bool,
    journal: Option<&str>,
) -> Result<OpenRelay<R>, Fault>
    ensures path { IfOk result (λ opened. string_bytes opened.path ≡ path.now) }
    ensures state { IfOk result (λ opened. opened.relay.is_on ≡ is_on) }
    ensures err { IfErr result (λ fault. is_of_opening fault ≡ true) }
{
    let file = open_file(rt, log, path, options, journal)?;
    let Ok(named) = with_suffix(rt.alloc(), path, "") else {
        return Err(Fault::Memory);
    };
    match Relay::start(is_on, file) {
        Ok(relay) => Ok(OpenRelay { path: named, relay }),
        Err(fault) => {
            let _ = eprintln!(log; "{path}: the relay failed: {fault}");
            Err(Fault::Write)
        }
    }
}

/// Opens the relay of the options, if they name one, and writes the supply output of the meter with
/// this core to it. Its file is made if it does not exist; what is in it stays. `journal` is the
/// path of the meter's journal, if it has one.
///
/// Errors: `Write` if the file can't be opened or written, `Input` if it is one of the journal,
/// each with a line in the log; `Memory`.
pub fn open_relay<R: Clock + AllocGlobal + Files<File = File> + Copy + Drop>(
    rt: &R,
    log: &Log,
    options: RelayOptions<'_>,
    core: &RelayCore,
    journal: Option<&str>,
) -> Result<Option<OpenRelay<R>>, Fault>
    ensures is_some { IfOk result (λ opened. is_some opened ≡ is_some options.entry.path) }
    ensures path { IfOk result (λ opened. IfSome options.entry.path
        (λ path. IfSome opened (λ o. string_bytes o.path ≡ path.now))) }
    ensures state { IfOk result (λ opened. IfSome opened (λ o. (w : World) → StandsFor core.now w
        → o.relay.is_on ≡ is_on w)) }
    ensures err { IfErr result (λ fault. is_of_opening fault ≡ true) }
{
    let Some(path) = options.path else {
        return Ok(None);
    };
    let output = core.output();
    let opened = start_relay(rt, log, path, options, output, journal)?;
    if options.is_verbose {
        let now = LogTime::now(rt);
        let _ = eprintln!(log; "{now} {} at the start, relay {path}", supply(output));
    }
    Ok(Some(opened))
}
