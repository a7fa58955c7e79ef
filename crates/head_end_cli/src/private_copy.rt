//! A copy of a ledger that may only be read: SQLite opens a file for writing, too.
use std::fs::{DirBuilder, OpenOptions, Permissions};
use std::io::ErrorKind;
use std::os::unix::fs::{DirBuilderExt, MetadataExt, PermissionsExt};
use std::rt::HostRuntime;
use std::time::Clock;
use std::{env, fs, io};

// The endings of a ledger and of its log.
const LEDGER: [&str; 2] = ["", "-wal"];

// The endings of the file of answers next to a ledger, and of its log.
const ANSWERS: [&str; 2] = [".answers", ".answers-wal"];

// How often a ledger is copied that another process writes meanwhile.
const COPIES: u32 = 10;

// The permissions of the folder of a copy: its owner alone may enter it.
const PRIVATE: u32 = 0o700;

// The permissions of a copied file.
const OWNER_ONLY: u32 = 0o600;

// A copy of a ledger in a folder of its own, which is removed when the value is dropped.
pub(crate) struct PrivateCopy {
    rt: HostRuntime,
    folder: String,
    // The path of the ledger's copy.
    pub(crate) path: String,
}

impl Drop for PrivateCopy {
    fn drop(self) {
        let PrivateCopy { rt, folder, path } = self;
        let _ = fs::remove_dir_all(&rt, folder.as_str());
        drop(folder);
        drop(path);
    }
}

// Returns whether a file may be read, and not written.
pub(crate) fn is_read_only(rt: &HostRuntime, path: &str) -> bool {
    match OpenOptions::new().read(true).write(true).open(rt, path) {
        Ok(_) => false,
        Err(error) => matches!(
            error.kind(),
            ErrorKind::PermissionDenied | ErrorKind::ReadOnlyFilesystem
        ),
    }
}

// Copies a file, if there is one. The copy may be written, unlike the file.
fn copy_if_there(rt: &HostRuntime, from: &str, to: &str) -> io::Result<()> {
    match fs::copy(rt, from, to) {
        Ok(_) => fs::set_permissions(rt, to, Permissions::from_mode(OWNER_ONLY)),
        Err(error) if error.kind() == ErrorKind::NotFound => Ok(()),
        Err(error) => Err(error),
    }
}

// Makes a folder that only its owner may enter, with a name that nothing has yet. Returns its path.
fn make_folder(rt: &HostRuntime) -> io::Result<String> {
    let parent = env::temp_dir(rt)?;
    let nanos = rt.since_1970()?.as_nanos();
    let folder = format!(in rt.alloc(); "{}/head_end-{nanos}", parent.as_str())?;
    DirBuilder::new().mode(PRIVATE).create(rt, folder.as_str())?;
    Ok(folder)
}

// The length of a file, and the seconds and nanoseconds of its last change.
type FileState = (u64, i64, i64);

// Returns the state of a file, if there is one.
fn state_of(rt: &HostRuntime, path: &str, ending: &str) -> io::Result<Option<FileState>> {
    let path = format!(in rt.alloc(); "{path}{ending}")?;
    match fs::metadata(rt, path.as_str()) {
        Ok(file) => Ok(Some((file.len(), file.mtime(), file.mtime_nsec()))),
        Err(error) if error.kind() == ErrorKind::NotFound => Ok(None),
        Err(error) => Err(error),
    }
}

// Copies the files of a path with these endings to another path.
fn copy_files(rt: &HostRuntime, path: &str, to: &str, endings: &[&str]) -> io::Result<()> {
    'endings: for ending in endings {
        let from = format!(in rt.alloc(); "{path}{ending}")?;
        let to = format!(in rt.alloc(); "{to}{ending}")?;
        copy_if_there(rt, from.as_str(), to.as_str())?;
    }
    Ok(())
}

// Copies a database and its log, of one moment: again, if one of them changed meanwhile. Errors:
// `ResourceBusy` if they changed each time.
fn copy_database(rt: &HostRuntime, path: &str, to: &str) -> io::Result<()> {
    'copies: for _ in 0..COPIES {
        let before = (state_of(rt, path, "")?, state_of(rt, path, "-wal")?);
        copy_files(rt, path, to, &LEDGER)?;
        if before == (state_of(rt, path, "")?, state_of(rt, path, "-wal")?) {
            return Ok(());
        }
    }
    Err(io::Error::from(ErrorKind::ResourceBusy))
}

// Copies the files of the ledger at a path into a new folder. If the path is a symbolic link, the
// log is the one next to the file that it leads to.
pub(crate) fn copy_ledger(rt: &HostRuntime, path: &str) -> io::Result<PrivateCopy> {
    let file = fs::canonicalize(rt, path)?;
    let folder = make_folder(rt)?;
    let copy = PrivateCopy {
        rt: *rt,
        path: format!(in rt.alloc(); "{folder}/ledger")?,
        folder,
    };
    copy_database(rt, file.as_str(), copy.path.as_str())?;
    copy_files(rt, path, copy.path.as_str(), &ANSWERS)?;
    Ok(copy)
}
