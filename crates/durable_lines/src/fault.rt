//! Why a call on a durable file fails, or a file is not locked.
ghost use Rattle.std.specs.Prelude.{◌≡◌, ◌↔◌, false, true, IsErrOf};
ghost use Rattle.durable_lines.specs.declared.fault.FileFault.TheVariants as file_fault;

use std::alloc::AllocError;
use thiserror::Error;

/// Why a call on a durable file failed.
#[derive(Clone, Copy, Debug, PartialEq, Eq, Error)]
pub enum FileFault {
    /// A call on the file failed, now or earlier. Every later `read`, `append`, `cut` and `sync`
    /// fails, too.
    #[error("the file failed")]
    Failed = 1,
    /// The file has more bytes than its limit, or would have.
    #[error("more bytes than the limit")]
    TooLong = 2,
    /// Out of memory.
    #[error("out of memory")]
    Memory = 3,
}

/// Why a file was not locked.
#[derive(Clone, Copy, Debug, PartialEq, Eq, Error)]
pub enum LockFault {
    /// The file is locked by another process, or by another value of this process.
    #[error("another process has locked the file")]
    Held = 1,
    /// The file cannot be locked or synced.
    #[error("the file can't be locked or synced")]
    Failed = 2,
}

impl From<AllocError> for FileFault {
    ghost from_gives = { λ _ fault. fault ≡ file_fault.Memory };

    fn from(_error: AllocError) -> FileFault {
        FileFault::Memory
    }
}

/// Returns the result of a call on a file, and records in a flag whether the call failed. For the
/// types whose calls all fail once one has.
pub fn record_failure<T: Drop>(
    has_failed: &mut bool,
    call: Result<T, FileFault>,
) -> Result<T, FileFault>
    requires { has_failed.old ≡ false }
    ensures call { result ≡ call }
    ensures failed { IsErrOf call FileFault.Failed ↔ (has_failed.new ≡ true) }
{
    match call {
        Err(FileFault::Failed) => {
            *has_failed = true;
            Err(FileFault::Failed)
        }
        call => call,
    }
}
