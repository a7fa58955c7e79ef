//! The journal of a server: its file, its lock, and the recorder that resumes where it ends.
ghost use Rattle.std.specs.Prelude.{◌≡◌, ◌≢◌, [], false, true, IfOk, IfErr, IsErrOf, OnOk};
ghost use Rattle.std.specs.Prelude.{length, string_bytes};
ghost use Rattle.std.specs.IoError.{error_kind};
ghost use Rattle.durable_lines.specs.Lines.{IsReady};
ghost use Rattle.journal_files.specs.Journals.{Continues, IsBegun};
ghost use Rattle.journal_files.specs.RenewedFile.{terms_of};
ghost use Rattle.relay_core.specs.Opening.{opening_of};
ghost use Rattle.relay_recorder.specs.Recording.{IsCapacity};
ghost use Rattle.server_files.specs.Faults.{fault_of_start, is_of_opening};
ghost use Rattle.server_files.specs.Journals.{depth_for, terms_for};

use crate::cutting::{end_of, keep_cut};
use crate::lock::lock_journal;
use crate::paths::{folder_of, place_paths, with_suffix};
use durable_lines::{
    FileAccess, LockFile, OsFolder, OsStoredPlace, Place, StoredFile, StoredPlace, open_own,
};
use journal_files::{
    RenewalTerms, RenewedFile, Resumed, StartFault, begin_journal, renew_long_journal,
    resume_journal,
};
use program::Fault;
use relay_recorder::{MAX_CAPACITY, Recorder};
use std::alloc::{AllocGlobal, Global};
use std::fs::{File, Files};
use std::io::ErrorKind;
use std::{fs, io};
use trace_player::MAX_BYTES;

/// How a journal is kept.
#[derive(Clone, Copy, Debug)]
pub struct JournalOptions {
    /// The number of events that stay in it when it is renewed, and that the trace of the meter
    /// keeps, 1 to 1,024. Any other number counts as the nearest of these.
    pub depth: u16,
    /// The number of bytes after which it is renewed.
    pub limit: u32,
    /// The number of files before a renewal that are kept.
    pub kept: u16,
    /// The permissions of the files that are made.
    pub mode: u32,
}

/// The file of a journal, which is renewed when it has grown.
pub type StoredJournal<R> = RenewedFile<OsStoredPlace<R>>;

/// An open journal: its path, its file, and the lock that keeps other servers from it.
#[derive(Drop)]
pub struct OpenJournal<R: Files<File = File> + Drop> {
    /// The path of the journal.
    pub path: String,
    /// The file, which is renewed when it has grown.
    pub file: StoredJournal<R>,
    /// The lock file.
    pub lock: LockFile,
}

// Returns how many events stay in a journal: the number of the options, or the nearest of 1 to
// 1,024.
fn depth_of(options: JournalOptions) -> u16
    ensures within { IsCapacity result }
    ensures same { IsCapacity options.depth → result ≡ options.depth }
    ensures depth { result ≡ depth_for options }
{
    options.depth.clamp(1, MAX_CAPACITY)
}

// Returns when a journal is renewed, and how many events stay in it.
fn renewal_terms(options: JournalOptions) -> RenewalTerms
    ensures { result ≡ terms_for options }
{
    RenewalTerms {
        limit: options.limit as usize,
        depth: usize::from(depth_of(options)),
    }
}

// Returns the place of a journal that is kept in this way.
fn place_of<R: AllocGlobal + Files<File = File> + Copy + Drop>(
    rt: &R,
    path: &str,
    options: JournalOptions,
) -> Result<OsStoredPlace<R>, StartFault> {
    let Ok(folder) = File::open(rt, folder_of(path)) else {
        return Err(StartFault::File);
    };
    let paths = place_paths(rt.alloc(), path, options.kept, options.mode)?;
    Ok(StoredPlace::new(OsFolder::new(*rt, folder), paths, MAX_BYTES))
}

// Resumes the journal of a place's file, for the meter with the name of this recorder. Its recorder
// keeps at most `depth` events.
fn resume_named<P: Place>(
    alloc: Global,
    place: &mut P,
    recorder: &Recorder,
    depth: u16,
) -> Result<Resumed, StartFault>
    requires { IsCapacity depth }
    ensures unused { IfOk result (λ resumed. length resumed.recorder.events ≡ 0) }
    ensures capacity { IfOk result (λ resumed. resumed.recorder.capacity ≡ depth) }
    ensures continues { IfOk result (λ resumed. P.model.acts
        → Continues (opening_of recorder.now.core).device (P.model.seen place.old)
        resumed.recorder) }
    ensures settled { OnOk result (IsReady P.model place.new) }
{
    let opening = recorder.core().to_opening(alloc)?;
    let resumed = resume_journal(alloc, place, &opening.device, depth);
    drop(opening);
    resumed
}

// Renews the journal of a place that was resumed, if it is long. Returns the recorder.
fn renew_resumed<P: Place>(
    alloc: Global,
    place: &mut P,
    recorder: Recorder,
    terms: RenewalTerms,
) -> Result<Recorder, StartFault>
    requires { IsReady P.model place.old }
    ensures { IfOk result (λ resumed. resumed ≡ recorder) }
{
    match renew_long_journal(alloc, place, terms.depth, terms.limit) {
        Ok(()) => Ok(recorder),
        Err(fault) => {
            drop(recorder);
            Err(fault)
        }
    }
}

// Resumes the journal of a place's file as `resume_named` does, and renews it if it is long.
// Reports what was cut.
fn resume_in_place<E: Eprint, P: Place>(
    alloc: Global,
    errors: &E,
    path: &str,
    place: &mut P,
    recorder: &Recorder,
    options: JournalOptions,
) -> Result<Recorder, StartFault>
    ensures unused { IfOk result (λ resumed. length resumed.events ≡ 0) }
    ensures capacity { IfOk result (λ resumed. resumed.capacity ≡ depth_for options) }
    ensures continues { IfOk result (λ resumed. P.model.acts
        → Continues (opening_of recorder.now.core).device (P.model.seen place.old) resumed) }
{
    let depth = depth_of(options);
    let Resumed { recorder, cut } = resume_named(alloc, place, recorder, depth)?;
    if cut > 0 {
        let _ = eprintln!(errors; "{path}: cut {cut} bytes of an interrupted write");
    }
    renew_resumed(alloc, place, recorder, renewal_terms(options))
}

// Opens the journal of a place. If it has a file, the journal is resumed: returns the recorder that
// continues where it ends, and drops the given one. Otherwise it is begun with the given recorder,
// which is returned.
fn open_in_place<E: Eprint, P: Place>(
    alloc: Global,
    errors: &E,
    path: &str,
    place: &mut P,
    recorder: Recorder,
    options: JournalOptions,
    has_file: bool,
) -> Result<Recorder, StartFault>
    requires { length recorder.events ≡ 0 }
    ensures unused { IfOk result (λ last. length last.events ≡ 0) }
    ensures resumed { IfOk result (λ last. has_file ≡ true → P.model.acts
        → Continues (opening_of recorder.core).device (P.model.seen place.old) last) }
    ensures journal { OnOk result (has_file ≡ false → P.model.acts
        → IsBegun recorder (P.model.seen place.new) (P.model.may_leave place.new)) }
    ensures given { IfOk result (λ last. has_file ≡ false → last ≡ recorder) }
{
    if has_file {
        let resumed = resume_in_place(alloc, errors, path, place, &recorder, options);
        drop(recorder);
        return resumed;
    }
    match begin_journal(alloc, place, &recorder) {
        Ok(()) => Ok(recorder),
        Err(fault) => {
            drop(recorder);
            Err(fault)
        }
    }
}

// Returns whether a path names a symbolic link. One that leads nowhere is no missing journal.
fn is_link<R: Files<File = File>>(rt: &R, path: &str) -> bool {
    match fs::symlink_metadata(rt, path) {
        Ok(named) => named.file_type().is_symlink(),
        Err(_) => false,
    }
}

// Resumes the journal of a file in its place. Returns the recorder of the meter.
fn open_found<R: AllocGlobal + Files<File = File> + Drop, E: Eprint>(
    rt: &R,
    errors: &E,
    path: &str,
    file: File,
    place: &mut OsStoredPlace<R>,
    recorder: Recorder,
    options: JournalOptions,
) -> Result<Recorder, StartFault>
    requires { length recorder.events ≡ 0 }
    ensures { IfOk result (λ last. length last.events ≡ 0) }
{
    let mut file = match StoredFile::try_lock(file, MAX_BYTES) {
        Ok(file) => file,
        Err(fault) => {
            let _ = eprintln!(errors; "{path}: {fault}");
            drop(recorder);
            return Err(StartFault::File);
        }
    };
    let end = end_of(rt.alloc(), &mut file);
    place.set_file(file);
    let opened = open_in_place(rt.alloc(), errors, path, place, recorder, options, true);
    if opened.is_ok() {
        keep_cut(rt, errors, path, end.as_slice(), options.mode);
    }
    drop(end);
    opened
}

// Reports why the file of a journal could not be opened.
fn report_unopened<E: Eprint>(errors: &E, path: &str, error: &io::Error) {
    let _ = match error.kind() {
        ErrorKind::NotFound | ErrorKind::InvalidInput => {
            eprintln!(errors; "{path}: a symbolic link is not followed")
        }
        _ => eprintln!(errors; "{path}: can't be opened for reading and writing: {error}"),
    };
}

// Opens the journal of a path in its place, by the result of opening its file, or begins it with
// this recorder if there is none: one that is there and can't be opened is never begun anew.
// Returns the recorder of the meter.
fn open_or_begin<R: AllocGlobal + Files<File = File> + Drop, E: Eprint>(
    rt: &R,
    errors: &E,
    path: &str,
    opened: io::Result<File>,
    place: &mut OsStoredPlace<R>,
    recorder: Recorder,
    options: JournalOptions,
) -> Result<Recorder, StartFault>
    requires { length recorder.events ≡ 0 }
    ensures unused { IfOk result (λ last. length last.events ≡ 0) }
    ensures unopened { IfErr opened (λ error. error_kind error ≢ ErrorKind.NotFound
        → IsErrOf result StartFault.File) }
{
    match opened {
        Ok(file) => open_found(rt, errors, path, file, place, recorder, options),
        Err(error) if error.kind() == ErrorKind::NotFound && !is_link(rt, path) => {
            open_in_place(rt.alloc(), errors, path, place, recorder, options, false)
        }
        Err(error) => {
            report_unopened(errors, path, &error);
            drop(recorder);
            Err(StartFault::File)
        }
    }
}

// Opens the journal of a path as `open_or_begin` does, with a file that is renewed when it has
// grown.
fn open_renewed<R: AllocGlobal + Files<File = File> + Copy + Drop, E: Eprint>(
    rt: &R,
    errors: &E,
    path: &str,
    recorder: Recorder,
    options: JournalOptions,
) -> Result<(RenewedFile<OsStoredPlace<R>>, Recorder), StartFault>
    requires { length recorder.events ≡ 0 }
    ensures unused { IfOk result (λ r. length r.1.events ≡ 0) }
    ensures terms { IfOk result (λ r. terms_of r.0 ≡ terms_for options) }
{
    let mut place = match place_of(rt, path, options) {
        Ok(place) => place,
        Err(fault) => {
            drop(recorder);
            return Err(fault);
        }
    };
    let opened = open_own(rt, path, FileAccess::Write);
    match open_or_begin(rt, errors, path, opened, &mut place, recorder, options) {
        Ok(last) => {
            let file = RenewedFile::new(rt.alloc(), place, renewal_terms(options));
            Ok((file, last))
        }
        Err(fault) => {
            drop(place);
            Err(fault)
        }
    }
}

// Returns the fault of the program for a journal that is not open.
fn fault_of(fault: StartFault) -> Fault
    ensures err { is_of_opening result ≡ true }
    ensures fault { result ≡ fault_of_start fault }
{
    match fault {
        StartFault::Line(_)
        | StartFault::TooLong
        | StartFault::Counted
        | StartFault::OtherMeter
        | StartFault::Damaged(_) => Fault::Input,
        StartFault::File => Fault::Write,
        StartFault::Memory => Fault::Memory,
    }
}

// Returns the journal of a path with its open file and its lock.
fn journal_with<R: AllocGlobal + Files<File = File> + Drop>(
    rt: &R,
    path: &str,
    file: RenewedFile<OsStoredPlace<R>>,
    lock: LockFile,
) -> Result<OpenJournal<R>, Fault>
    ensures path { IfOk result (λ journal. string_bytes journal.path ≡ path.now) }
    ensures file { IfOk result (λ journal. journal.file ≡ file) }
    ensures lock { IfOk result (λ journal. journal.lock ≡ lock) }
    ensures err { IfErr result (λ fault. fault ≡ Fault.Memory) }
{
    match with_suffix(rt.alloc(), path, "") {
        Ok(path) => Ok(OpenJournal { path, file, lock }),
        Err(_) => Err(Fault::Memory),
    }
}

// Opens the journal of a path with its lock. Returns it, and the recorder of the meter. Reports why
// it is not open.
fn open_with_lock<R: AllocGlobal + Files<File = File> + Copy + Drop, E: Eprint>(
    rt: &R,
    errors: &E,
    path: &str,
    recorder: Recorder,
    options: JournalOptions,
) -> Result<(OpenJournal<R>, Recorder), Fault>
    requires { length recorder.events ≡ 0 }
    ensures unused { IfOk result (λ r. length r.1.events ≡ 0) }
    ensures path { IfOk result (λ r. string_bytes r.0.path ≡ path.now) }
    ensures terms { IfOk result (λ r. terms_of r.0.file ≡ terms_for options) }
    ensures err { IfErr result (λ fault. is_of_opening fault ≡ true) }
{
    let lock = match lock_journal(rt, errors, path) {
        Ok(lock) => lock,
        Err(fault) => {
            drop(recorder);
            return Err(fault);
        }
    };
    match open_renewed(rt, errors, path, recorder, options) {
        Ok((file, last)) => match journal_with(rt, path, file, lock) {
            Ok(journal) => Ok((journal, last)),
            Err(fault) => {
                drop(last);
                Err(fault)
            }
        },
        Err(fault) => {
            let _ = eprintln!(errors; "{path}: {fault}");
            Err(fault_of(fault))
        }
    }
}

/// Opens the journal of a path, with a lock file next to it. Returns it, and the recorder of the
/// meter, which has no event: the one that resumes where the journal ends, or the given one if the
/// journal was begun with it.
///
/// Errors, each but `Memory` with a line that is printed to `errors`: `Input` if the path is empty,
/// or the file is not the journal of a meter with this recorder's name, or is damaged before its
/// last line; `Write` if another server has the journal, or a file can't be opened, read, written
/// or locked; `Memory`.
pub fn open_journal<R: AllocGlobal + Files<File = File> + Copy + Drop, E: Eprint>(
    rt: &R,
    errors: &E,
    path: &str,
    recorder: Recorder,
    options: JournalOptions,
) -> Result<(OpenJournal<R>, Recorder), Fault>
    requires { length recorder.events ≡ 0 }
    ensures unused { IfOk result (λ r. length r.1.events ≡ 0) }
    ensures path { IfOk result (λ r. string_bytes r.0.path ≡ path.now) }
    ensures terms { IfOk result (λ r. terms_of r.0.file ≡ terms_for options) }
    ensures err { IfErr result (λ fault. is_of_opening fault ≡ true) }
    ensures empty { path.now ≡ [] → IsErrOf result Fault.Input }
{
    if path.is_empty() {
        let _ = eprintln!(errors; "journal: expected the path of a file");
        drop(recorder);
        return Err(Fault::Input);
    }
    open_with_lock(rt, errors, path, recorder, options)
}
