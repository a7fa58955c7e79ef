//! `LockFile`: a file whose lock one process at a time holds.
ghost use Rattle.std.specs.Prelude.{◌≡◌, OnOk};
ghost use Rattle.durable_lines.specs.RawModel.{raw_bytes};

use crate::fault::LockFault;
use crate::os_file::OsFile;
use crate::own_file::{FileAccess, OWNER_ONLY, open_or_create};
use crate::raw_file::RawFile;
use std::fs::{File, Files, Permissions, TryLockError};
use std::os::unix::fs::PermissionsExt;

// Locks a raw file until the value is dropped. Errors: `Held` if another process has locked it,
// `Failed` if it cannot be locked.
pub(crate) fn lock_raw<R: RawFile>(raw: &mut R) -> Result<(), LockFault>
    ensures locked { OnOk result (R.model.is_locked raw.new) }
    ensures seen { raw_bytes R.model raw.new ≡ raw_bytes R.model raw.old }
{
    match raw.try_lock() {
        Ok(()) => Ok(()),
        Err(TryLockError::WouldBlock) => Err(LockFault::Held),
        Err(TryLockError::Error(_)) => Err(LockFault::Failed),
    }
}

/// The lock of a file that has no other purpose. It is not removed or renamed, so that its lock
/// stands for a name whose own file is replaced: whoever holds it may replace that file.
#[derive(Debug, Drop)]
pub struct LockFile {
    // (kept open: the lock ends when the file is closed)
    _file: OsFile,
}

impl LockFile {
    /// Locks the file of a path, until the value is dropped or the process ends. The file is
    /// created if it is missing, so that only its owner may open it; its bytes are not changed.
    /// Errors: `Held` if another process has locked it, `Failed` if it cannot be opened or locked,
    /// or the path ends in a symbolic link.
    pub fn try_lock<R: Files<File = File>>(files: &R, path: &str) -> Result<LockFile, LockFault> {
        let file = open_or_create(files, path, FileAccess::Write, OWNER_ONLY).map_err(
            |_| LockFault::Failed,
        )?;
        // (who may open a file may lock it; an earlier version let all users open it)
        let _ = file.set_permissions(Permissions::from_mode(OWNER_ONLY));
        let mut file = OsFile::new(file);
        lock_raw(&mut file)?;
        Ok(LockFile { _file: file })
    }
}
