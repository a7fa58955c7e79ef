//! Opens the files that a program makes for itself: other users may not read them, and no symbolic
//! link is followed.
use crate::fault::LockFault;
use crate::lock_file::lock_raw;
use crate::os_file::OsFile;
use std::fs::{File, Files, Metadata, OpenOptions, Permissions};
use std::io::ErrorKind;
use std::os::unix::fs::{MetadataExt, OpenOptionsExt, PermissionsExt};
use std::{fs, io};

/// The permissions of a file that its owner may read and write, and nobody else.
pub const OWNER_ONLY: u32 = 0o600;

/// The permissions of a file that its group may read, too.
pub const GROUP_READABLE: u32 = 0o640;

/// How a file is written.
#[derive(Clone, Copy, Debug, PartialEq, Eq)]
pub enum FileAccess {
    /// At any place.
    Write,
    /// At its end.
    Append,
}

// Returns the options of a file that is read and written.
fn options_for(access: FileAccess) -> OpenOptions {
    let mut options = File::options();
    options.read(true);
    match access {
        FileAccess::Write => options.write(true),
        FileAccess::Append => options.append(true),
    };
    options
}

/// Returns whether two descriptions are of one file: they have one device and one inode.
pub fn is_same_file(first: &Metadata, second: &Metadata) -> bool {
    first.dev() == second.dev() && first.ino() == second.ino()
}

/// Opens the file of a path for reading and writing. Errors: `NotFound` if there is none;
/// `InvalidInput` if the path ends in a symbolic link; any error of the system.
pub fn open_own<R: Files<File = File>>(
    files: &R,
    path: &str,
    access: FileAccess,
) -> io::Result<File> {
    let file = options_for(access).open(files, path)?;
    // (the toolchain has no O_NOFOLLOW: a link has another inode than the file that it opens)
    if is_same_file(&file.metadata()?, &fs::symlink_metadata(files, path)?) {
        Ok(file)
    } else {
        Err(io::Error::from(ErrorKind::InvalidInput))
    }
}

// Creates the file of a path with these permissions, whatever the mask of the process. Errors:
// `AlreadyExists` if the path names anything, a symbolic link too; any error of the system.
pub(crate) fn create<R: Files<File = File>>(
    files: &R,
    path: &str,
    access: FileAccess,
    mode: u32,
) -> io::Result<File> {
    let mut options = options_for(access);
    options.create_new(true).mode(mode);
    let file = options.open(files, path)?;
    // (the mask of the process may have taken some away)
    file.set_permissions(Permissions::from_mode(mode))?;
    Ok(file)
}

/// Opens the file of a path as [`open_own`] does, and creates it with these permissions if it is
/// missing. Errors: `InvalidInput` or `NotFound` if the path ends in a symbolic link; any error of
/// the system.
pub fn open_or_create<R: Files<File = File>>(
    files: &R,
    path: &str,
    access: FileAccess,
    mode: u32,
) -> io::Result<File> {
    match open_own(files, path, access) {
        Err(error) if error.kind() == ErrorKind::NotFound => {}
        opened => return opened,
    }
    match create(files, path, access, mode) {
        // (another process has created it meanwhile)
        Err(error) if error.kind() == ErrorKind::AlreadyExists => open_own(files, path, access),
        created => created,
    }
}

// Returns whether another process has locked the file of a path.
pub(crate) fn is_held<R: Files<File = File>>(files: &R, path: &str) -> bool {
    match open_own(files, path, FileAccess::Write) {
        Ok(file) => matches!(lock_raw(&mut OsFile::new(file)), Err(LockFault::Held)),
        Err(_) => false,
    }
}

/// Creates an empty file with these permissions, after what the path named was removed. Errors:
/// `WouldBlock` if that is a file that another process has locked; any error of the system.
pub fn create_anew<R: Files<File = File>>(files: &R, path: &str, mode: u32) -> io::Result<File> {
    if is_held(files, path) {
        return Err(io::Error::from(ErrorKind::WouldBlock));
    }
    match fs::remove_file(files, path) {
        Err(error) if error.kind() != ErrorKind::NotFound => Err(error),
        _ => create(files, path, FileAccess::Write, mode),
    }
}
