//! The lock file of a journal.
ghost use Rattle.std.specs.Prelude.{◌≡◌, true, IfErr};
ghost use Rattle.server_files.specs.Faults.{is_of_opening, IsOfFile};

use crate::paths::{LOCK_SUFFIX, with_suffix};
use durable_lines::{LockFault, LockFile};
use program::Fault;
use std::alloc::AllocGlobal;
use std::fs::{File, Files};

// Returns the lock of a journal, or reports why it is not held.
pub(crate) fn lock_journal<R: AllocGlobal + Files<File = File>, E: Eprint>(
    rt: &R,
    errors: &E,
    path: &str,
) -> Result<LockFile, Fault>
    ensures err { IfErr result (λ fault. is_of_opening fault ≡ true) }
    ensures file { IfErr result IsOfFile }
{
    let Ok(lock_path) = with_suffix(rt.alloc(), path, LOCK_SUFFIX) else {
        return Err(Fault::Memory);
    };
    match LockFile::try_lock(rt, lock_path.as_str()) {
        Ok(lock) => Ok(lock),
        Err(LockFault::Held) => {
            let _ = eprintln!(errors; "{path}: another server has this journal");
            Err(Fault::Write)
        }
        Err(LockFault::Failed) => {
            let _ = eprintln!(errors; "{lock_path}: the lock file can't be opened and locked");
            Err(Fault::Write)
        }
    }
}
